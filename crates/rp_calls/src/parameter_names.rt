//! The names of the parameters without a star.
ghost use Rattle.std.specs.Prelude.{◌≡◌, ◌||◌, ℕ, List, IfOk, IfSome, OnOk, bytes_eq, chars, encode_utf8_all};
ghost use Rattle.rp_calls.specs.Binding.{is_plain};
ghost use Rattle.rp_calls.specs.TableSteps.{HasNames, has_word};

use crate::named_arguments::FEW;
use crate::parameters::is_plain;
use rp_base::{Memory, Names, Seed, Text, word_of};
use rp_tree::{Expr, Named};
use std::alloc::Global;
use std::collections::HashSet;

/// The words of parameters.
pub type Words<'a> = HashSet<&'a str, Seed>;

/// The words of the parameters without a star, where these and the arguments by name are many. Else there are none, and
/// no memory is taken.
///
/// # Errors
/// `Memory` where a growth was refused.
pub fn words_for<'a>(
    alloc: Global,
    seed: Seed,
    names: &'a Names,
    plain: &[(Named, Option<Expr>)],
    arguments: usize,
) -> Result<Option<Words<'a>>, Memory>
    ensures { IfOk result (λ words. IfSome words (λ set. HasNames set names.now plain.now)) }
{
    if plain.len() <= FEW || arguments <= FEW {
        return Ok(None);
    }
    Ok(Some(words_of(alloc, seed, names, plain)?))
}

/// The words of the parameters without a star.
///
/// # Errors
/// `Memory` where a growth was refused.
fn words_of<'a>(
    alloc: Global,
    seed: Seed,
    names: &'a Names,
    plain: &[(Named, Option<Expr>)],
) -> Result<Words<'a>, Memory>
    ensures { IfOk result (λ set. HasNames set names.now plain.now) }
{
    let mut words = HashSet::with_capacity_and_hasher(alloc, plain.len(), seed)?;
    for (parameter, _) in plain {
        add(&mut words, word_of(names, parameter.name))?;
    }
    Ok(words)
}

/// Adds a word.
///
/// # Errors
/// `Memory` where a growth was refused.
fn add<'a>(words: &mut Words<'a>, word: &'a str) -> Result<(), Memory>
    ensures { OnOk result ((other : List ℕ) → has_word words.new other
        ≡ (bytes_eq word.now (encode_utf8_all other) || has_word words.old other)) }
{
    words.insert(word)?;
    Ok(())
}

/// Whether a parameter without a star has this name, which is looked for among the words where there are such.
pub fn is_one(
    names: &Names,
    plain: &[(Named, Option<Expr>)],
    words: &Option<Words<'_>>,
    name: &Text,
) -> bool
    requires { IfSome words.now (λ set. HasNames set names.now plain.now) }
    ensures { result ≡ is_plain names.now plain.now name.now }
{
    match words {
        Some(words) => words.contains(name.as_str()),
        None => is_plain(names, plain, name),
    }
}
