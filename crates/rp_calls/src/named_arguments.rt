//! The arguments by name of a call.
ghost use Rattle.std.specs.Prelude.{◌≡◌, ◌++◌, ℕ, List, IfOk, OnOk, bytes_eq, chars, encode_utf8_all, if◌then◌else◌};
ghost use Rattle.std.specs.Option.{option_copied, option_map, option_to_list};
ghost use Rattle.rp_calls.specs.Binding.{given, sole};
ghost use Rattle.rp_calls.specs.TableSteps.{again, at_word, chosen, noted};

use crate::parameters::{copied, sole};
use rp_base::{Memory, Seed, Text, Value};
use std::alloc::Global;
use std::collections::HashMap;
use std::marker::Model;

/// The most parameters, or arguments by name, of which each is compared with each.
pub const FEW: usize = 8;

/// Each name with its value, or with none where it is given more than once.
type Table<'a> = HashMap<&'a str, Option<&'a Value>, Seed>;

/// The arguments by name of a call, seen as the list of them. Each parameter finds its own by going through them, or by
/// a table where both are many.
#[derive(Drop)]
pub struct NamedArguments<'a> {
    list: &'a [(Text, Value)],
    table: Option<Table<'a>>,
}

impl<'a> Model for NamedArguments<'a> {
    ghost use Rattle.std.specs.Prelude.{◌≡◌, ℕ, List, None, IfSome};
    ghost use Rattle.rp_calls.specs.Binding.{given};
    ghost use Rattle.rp_calls.specs.TableSteps.{Arguments, at_word, noted};

    ghost Value = { Arguments };

    ghost view = { λ n. n.list.now };

    ghost invariant = { λ n. IfSome n.table (λ table. (word : List ℕ) → at_word table word
        ≡ noted None (given n.list.now word)) };
}

impl<'a> NamedArguments<'a> {
    /// The arguments by name of a call of a function with so many parameters. They take memory where both are many.
    ///
    /// # Errors
    /// `Memory` where a growth was refused.
    pub fn new(
        alloc: Global,
        seed: Seed,
        parameters: usize,
        list: &'a [(Text, Value)],
    ) -> Result<NamedArguments<'a>, Memory>
        ensures { IfOk result (λ n. n ≡ list.now) }
    {
        if parameters <= FEW || list.len() <= FEW {
            return Ok(NamedArguments { list, table: None });
        }
        let table = Some(table_of(alloc, seed, list)?);
        Ok(NamedArguments { list, table })
    }

    /// The value of a parameter with this name: the only argument that fills it, else its default. None where it is
    /// filled twice or stays empty.
    ///
    /// # Errors
    /// `Memory` where a growth was refused.
    pub fn sole(
        &self,
        first: Option<&Value>,
        word: &str,
        default: Option<&Value>,
    ) -> Result<Option<Value>, Memory>
        ensures { IfOk result (λ r. r ≡ sole
            (option_to_list (option_copied first.entry) ++ given self.now (chars word.now))
            (option_copied default.entry)) }
    {
        match &self.table {
            Some(table) => chosen(first, table.get(word).copied(), default),
            None => sole(first, self.list, word, default),
        }
    }
}

/// The table of arguments by name.
///
/// # Errors
/// `Memory` where a growth was refused.
fn table_of<'a>(alloc: Global, seed: Seed, list: &'a [(Text, Value)]) -> Result<Table<'a>, Memory>
    ensures { IfOk result (λ table. (word : List ℕ) → at_word table word ≡ noted None (given list.now word)) }
{
    let mut table = HashMap::with_capacity_and_hasher(alloc, list.len(), seed)?;
    for (name, value) in list {
        note(&mut table, name.as_str(), value)?;
    }
    Ok(table)
}

/// Adds an argument.
///
/// # Errors
/// `Memory` where a growth was refused.
fn note<'a>(table: &mut Table<'a>, name: &'a str, value: &'a Value) -> Result<(), Memory>
    ensures { OnOk result ((word : List ℕ) → at_word table.new word
        ≡ if bytes_eq name.now (encode_utf8_all word) then again
        (at_word table.old word) value.now else at_word table.old word) }
{
    if table.insert(name, Some(value))?.is_some() {
        table.insert(name, None)?;
    }
    Ok(())
}

/// The value of a parameter that its place may fill: of an argument by its name, what a table has.
///
/// # Errors
/// `Memory` where a growth was refused.
fn chosen(
    first: Option<&Value>,
    held: Option<Option<&Value>>,
    default: Option<&Value>,
) -> Result<Option<Value>, Memory>
    ensures { IfOk result (λ r. r ≡ chosen (option_copied first.entry) (option_map option_copied held.entry)
        (option_copied default.entry)) }
{
    match held {
        None => copied(first, default),
        Some(None) => Ok(None),
        Some(named) => {
            if first.is_some() {
                return Ok(None);
            }
            copied(named, default)
        }
    }
}
