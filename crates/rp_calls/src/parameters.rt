//! The values of the parameters without a star.
ghost use Rattle.std.specs.Prelude.{◌≡◌, ◌++◌, IfOk, Some, chars, map};
ghost use Rattle.std.specs.Option.{option_copied, option_map, option_to_list};
ghost use Rattle.rp_base.specs.Names.{word_of};
ghost use Rattle.rp_calls.specs.Binding.{default_of, defaults_after, filled, given, is_plain, offered};
ghost use Rattle.rp_calls.specs.Binding.{parameter as parameter_of, sole, value_of};

use crate::named_arguments::NamedArguments;
use crate::others::rest_of;
use rp_base::{Memory, Names, Seed, Text, Value, word_of};
use rp_tree::{Expr, Named};
use std::alloc::Global;

/// A slot with its value for each parameter without a star; None where one is filled twice or stays empty.
///
/// # Errors
/// `Memory` where a growth was refused.
pub fn plain_slots(
    alloc: Global,
    seed: Seed,
    names: &Names,
    plain: &[(Named, Option<Expr>)],
    defaults: &[Value],
    args: &[Value],
    named: &[(Text, Value)],
) -> Result<Option<Vec<Option<Value>>>, Memory>
    ensures { IfOk result (λ r. option_map (λ slots. slots.items) r
        ≡ option_map (map Some) (filled (offered names.now plain.now args.now defaults.now) named.now)) }
{
    let named = NamedArguments::new(alloc, seed, plain.len(), named)?;
    slots_from(alloc, names, plain, defaults, args, &named)
}

/// The same, of arguments by name that are found.
///
/// # Errors
/// `Memory` where a growth was refused.
#[tactic(auto, using(crate::proofs::Slots::slots_put))]
fn slots_from(
    alloc: Global,
    names: &Names,
    plain: &[(Named, Option<Expr>)],
    defaults: &[Value],
    args: &[Value],
    named: &NamedArguments<'_>,
) -> Result<Option<Vec<Option<Value>>>, Memory>
    ensures { IfOk result (λ r. option_map (λ slots. slots.items) r
        ≡ option_map (map Some) (filled (offered names.now plain.now args.now defaults.now) named.now)) }
{
    let mut slots = Vec::with_capacity(alloc, plain.len())?;
    let mut args = args;
    let mut defaults = defaults;
    for (parameter, default) in plain {
        let has_default = default.is_some();
        match value_at(names, *parameter, has_default, defaults, args, named)? {
            Some(value) => slots.push(Some(value))?,
            None => return Ok(None),
        }
        args = rest_of(args, 1);
        defaults = defaults_after(has_default, defaults);
    }
    Ok(Some(slots))
}

/// The value of a parameter, to which these arguments and defaults are left.
///
/// # Errors
/// `Memory` where a growth was refused.
fn value_at(
    names: &Names,
    parameter: Named,
    has_default: bool,
    defaults: &[Value],
    args: &[Value],
    named: &NamedArguments<'_>,
) -> Result<Option<Value>, Memory>
    ensures { IfOk result (λ r. r ≡ value_of
        (parameter_of names.now parameter has_default args.now defaults.now) named.now) }
{
    let word = word_of(names, parameter.name);
    let default = default_of(has_default, defaults);
    named.sole(args.get(0), word, default)
}

/// The first default, for a parameter that has one.
fn default_of(has_default: bool, defaults: &[Value]) -> Option<&Value>
    ensures { option_copied result ≡ default_of has_default defaults.now }
{
    if has_default {
        return defaults.get(0);
    }
    None
}

/// The defaults that are left behind a parameter.
fn defaults_after(has_default: bool, defaults: &[Value]) -> &[Value]
    ensures { result.now ≡ defaults_after has_default defaults.now }
{
    if has_default {
        return rest_of(defaults, 1);
    }
    defaults
}

/// The value of a parameter: the only argument that fills it, else its default. None where it is filled twice or stays
/// empty.
///
/// # Errors
/// `Memory` where a growth was refused.
pub fn sole(
    first: Option<&Value>,
    named: &[(Text, Value)],
    word: &str,
    default: Option<&Value>,
) -> Result<Option<Value>, Memory>
    ensures { IfOk result (λ r. r ≡ sole
        (option_to_list (option_copied first.entry) ++ given named.now (chars word.now))
        (option_copied default.entry)) }
{
    let mut found = first;
    for (name, value) in named {
        if name.is(word) {
            if found.is_some() {
                return Ok(None);
            }
            found = Some(value);
        }
    }
    copied(found, default)
}

/// A copy of a value, else of another.
///
/// # Errors
/// `Memory` where a growth was refused.
pub fn copied(found: Option<&Value>, default: Option<&Value>) -> Result<Option<Value>, Memory>
    ensures { IfOk result (λ r. r ≡ sole (option_to_list (option_copied found.entry)) (option_copied default.entry)) }
{
    match found {
        Some(value) => Ok(Some(value.copy()?)),
        None => match default {
            Some(value) => Ok(Some(value.copy()?)),
            None => Ok(None),
        },
    }
}

/// Whether a parameter without a star has this name.
pub fn is_plain(names: &Names, plain: &[(Named, Option<Expr>)], name: &Text) -> bool
    ensures { result ≡ is_plain names.now plain.now name.now }
{
    plain
        .iter()
        .any(|(parameter, _)| name.is(word_of(names, parameter.name)))
}
