//! Values that are made of parts.

use crate::fault::Fault;
use rp_base::{Kind, Rock, Seed, Text, Value};
use rp_dict::Dict;
use rp_store::{Key, key_of};
use std::alloc::Global;

/// An exception value with the first of the values, a text, or with none.
///
/// # Errors
/// `End` with `Memory` where a growth was refused.
pub fn exception(alloc: Global, kind: Kind, values: &[Value]) -> Result<Value, Fault> {
    let text = match values.first() {
        Some(Value::Rock(Rock::Text(text))) => text.copy()?,
        _ => Text::new(alloc, "")?,
    };
    Ok(Value::Rock(Rock::Exc(kind, text)))
}

/// The entries of a dict, of keys and values in turn.
///
/// # Errors
/// `Unread` where a key can be none, `End` with `Memory` where a growth was refused.
pub fn entries_of(
    alloc: Global,
    seed: Seed,
    values: Vec<Value>,
) -> Result<Dict<Key, (Rock, Value)>, Fault> {
    let mut entries = Dict::new(alloc, seed);
    let mut key = None;
    for value in values {
        match key {
            Some(rock) => {
                set_entry(&mut entries, rock, value)?;
                key = None;
            }
            None => key = Some(key_rock(value)?),
        }
    }
    Ok(entries)
}

fn key_rock(value: Value) -> Result<Rock, Fault> {
    match value {
        Value::Rock(rock) => Ok(rock),
        _ => Err(Fault::Unread),
    }
}

fn set_entry(
    entries: &mut Dict<Key, (Rock, Value)>,
    rock: Rock,
    value: Value,
) -> Result<(), Fault> {
    match key_of(&rock)? {
        Some(key) => {
            entries.set(key, (rock, value))?;
            Ok(())
        }
        None => Err(Fault::Unread),
    }
}

/// The kind of exceptions of this name.
pub fn kind_of(word: &str) -> Option<Kind> {
    for kind in Kind::ALL {
        if kind.as_str() == word {
            return Some(kind);
        }
    }
    None
}
