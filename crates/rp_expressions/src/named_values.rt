//! Arguments with names that stand at hand.

ghost use Rattle.std.specs.Prelude.{◌≡◌, ◌<◌, ◌∷◌, ◌++◌, ◌^◌, [], IfOk, OnOk, length, reverse};
ghost use Rattle.rp_engine.specs.ArgumentSteps.{named_in, word_at};
ghost use Rattle.rp_engine.specs.HandSteps.{held_by};

use rp_base::{Memory, Rock, Text, Value};
use rp_engine::{Hand, Machine};
use std::alloc::Global;

/// Copies of the arguments at hand that have a name, with it.
///
/// # Errors
/// `Memory` where a growth was refused.
pub fn named_at_hand<'u>(machine: &Machine<'u>, hand: Hand) -> Result<Vec<(Text, Value)>, Memory>
    ensures { IfOk result (λ all. all.items ≡ (held_by hand machine.now.values).named) }
{
    let pairs = machine.values.last(2 * hand.named as usize);
    all_named(machine.alloc, pairs)
}

/// Copies of arguments with names, each of which stands behind its name.
///
/// # Errors
/// `Memory` where a growth was refused.
fn all_named(alloc: Global, pairs: &[Value]) -> Result<Vec<(Text, Value)>, Memory>
    requires { length pairs.now < 2 ^ 34 }
    ensures { IfOk result (λ all. all.items ≡ named_in (reverse pairs.now)) }
{
    let mut all = Vec::with_capacity(alloc, pairs.len() / 2)?;
    let mut left = pairs;
    'pairs: while let [rest @ .., word, value] = left {
        push_named(alloc, &mut all, word, value)?;
        left = rest;
    }
    all.reverse();
    Ok(all)
}

/// Puts a copy of an argument with its name last.
fn push_named(
    alloc: Global,
    all: &mut Vec<(Text, Value)>,
    word: &Value,
    value: &Value,
) -> Result<(), Memory>
    ensures { OnOk result (all.new.items ≡ all.old.items ++ (word_at word.now, value.now) ∷ []) }
{
    all.push((word_at(alloc, word)?, value.copy()?))?;
    Ok(())
}

/// The name that stands at hand; the empty one, where no text does, which no call comes to.
fn word_at(alloc: Global, value: &Value) -> Result<Text, Memory>
    ensures { IfOk result (λ word. word ≡ word_at value.now) }
{
    match value {
        Value::Rock(rock) => rock_word(alloc, rock),
        Value::Ref(_) => no_word(alloc),
        Value::Prox(_) => no_word(alloc),
    }
}

/// The same, of a rock.
fn rock_word(alloc: Global, rock: &Rock) -> Result<Text, Memory>
    ensures { IfOk result (λ word. word ≡ word_at (Value.Rock rock.now)) }
{
    match rock {
        Rock::Text(text) => text.copy(),
        Rock::Nil => no_word(alloc),
        Rock::Truth(_) => no_word(alloc),
        Rock::Int(_) => no_word(alloc),
        Rock::Exc(_, _) => no_word(alloc),
        Rock::Kind(_) => no_word(alloc),
        Rock::Native(_) => no_word(alloc),
    }
}

/// The empty word.
///
/// # Errors
/// `Memory` where a growth was refused.
fn no_word(alloc: Global) -> Result<Text, Memory>
    ensures { IfOk result (λ word. word ≡ []) }
{
    Text::new(alloc, "")
}
