//! The arguments that are left for the parameters with stars.
ghost use Rattle.std.specs.Prelude.{◌≡◌, [], IfOk, IfSome, IsTrue, drop, is_some, not};
ghost use Rattle.std.specs.Map.{lookup};
ghost use Rattle.rp_dict.specs.Dict.{insert_entry};
ghost use Rattle.rp_store.specs.Key.{same_key};
ghost use Rattle.rp_calls.specs.Binding.{are_plain, entries_for, has_dict, other_entries, plain};
ghost use Rattle.rp_calls.specs.TableSteps.{HasNames};

use crate::parameter_names::{Words, is_one, words_for};
use rp_base::{Memory, Names, Rock, Seed, Text, Value};
use rp_dict::Dict;
use rp_store::Key;
use rp_tree::{Expr, Named, Params};
use std::alloc::Global;

/// The entries of `**NAME`. Where there is no such parameter they are none, and None where an argument by name has no
/// place. None also where a name is given twice.
///
/// # Errors
/// `Memory` where a growth was refused.
pub fn entries_for(
    alloc: Global,
    seed: Seed,
    names: &Names,
    params: &Params,
    named: &[(Text, Value)],
) -> Result<Option<Dict<Key, (Rock, Value)>>, Memory>
    ensures { IfOk result (λ r. r ≡ entries_for (has_dict params.now) names.now (plain params.now) named.now) }
{
    let plain = params.plain.as_slice();
    let words = words_for(alloc, seed, names, plain, named.len())?;
    if params.dict.is_some() {
        return other_entries(alloc, seed, names, plain, &words, named);
    }
    if are_plain(names, plain, &words, named) {
        return Ok(Some(Dict::new(alloc, seed)));
    }
    Ok(None)
}

/// The arguments by other names than those of parameters without a star, as entries in the given order. None where one
/// is given twice.
///
/// # Errors
/// `Memory` where a growth was refused.
fn other_entries(
    alloc: Global,
    seed: Seed,
    names: &Names,
    plain: &[(Named, Option<Expr>)],
    words: &Option<Words<'_>>,
    named: &[(Text, Value)],
) -> Result<Option<Dict<Key, (Rock, Value)>>, Memory>
    requires { IfSome words.now (λ set. HasNames set names.now plain.now) }
    ensures { IfOk result (λ r. r ≡ other_entries names.now plain.now [] named.now) }
{
    let mut entries = Dict::new(alloc, seed);
    for (name, value) in named {
        if is_one(names, plain, words, name) {
            continue;
        }
        if !add(&mut entries, name, value)? {
            return Ok(None);
        }
    }
    Ok(Some(entries))
}

/// Adds an entry with a new name last, and answers whether the name is new.
///
/// # Errors
/// `Memory` where a growth was refused.
fn add(entries: &mut Dict<Key, (Rock, Value)>, name: &Text, value: &Value) -> Result<bool, Memory>
    ensures is_new { IfOk result (λ is_new. not is_new ≡ is_some (lookup (same_key (Key.Text name.now)) entries.old)) }
    ensures added { IfOk result (λ is_new. IsTrue is_new → entries.new
        ≡ insert_entry same_key entries.old (Key.Text name.now) (Rock.Text name.now, value.now)) }
{
    let key = Key::Text(name.copy()?);
    if entries.get(&key).is_some() {
        return Ok(false);
    }
    let rock = Rock::Text(name.copy()?);
    entries.push(key, (rock, value.copy()?))?;
    Ok(true)
}

/// Whether each argument by name has the name of a parameter without a star.
fn are_plain(
    names: &Names,
    plain: &[(Named, Option<Expr>)],
    words: &Option<Words<'_>>,
    named: &[(Text, Value)],
) -> bool
    requires { IfSome words.now (λ set. HasNames set names.now plain.now) }
    ensures { result ≡ are_plain names.now plain.now named.now }
{
    named
        .iter()
        .all(|(name, _)| is_one(names, plain, words, name))
}

/// The positional arguments from a place on.
pub fn rest_of(args: &[Value], from: usize) -> &[Value]
    ensures { result.now ≡ drop from args.now }
{
    if from < args.len() {
        return &args[from..];
    }
    &[]
}
