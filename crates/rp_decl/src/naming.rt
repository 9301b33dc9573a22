//! The least text that a part of a document names and that is not known.

ghost use Rattle.std.specs.Prelude.{◌≡◌, ◌∷◌, [], ℕ, List, IfOk, chars};
ghost use Rattle.toml.specs.Data.{Data};
ghost use Rattle.toml.specs.View.{array_view, table_view, view};
ghost use Rattle.rp_decl.specs.Consistency.{needed, unknown};
ghost use Rattle.rp_decl.specs.Document.{each_at, each_member, item_texts, members_of, row_of, texts_at, texts_of};
ghost use Rattle.rp_decl.specs.Naming.{each_named, named_at};
ghost use Rattle.rp_decl.specs.Order.{least};

use crate::document::member;
use crate::least::lesser_of;
use crate::text_set::{Sorted, str_of};
use rp_base::{Memory, Text};
use std::alloc::Global;
use toml::value::Array;
use toml::{Table, Value};

/// What a member of a table names.
pub(crate) trait Naming {
    ghost named: { Self → Data → List (List ℕ) };

    /// The least of the texts that it names and that are not known.
    fn unknown(&self, alloc: Global, known: &Sorted, value: &Value) -> Result<Option<Text>, Memory>
        ensures { IfOk result (λ fault. fault ≡ least (unknown known.now (named self.now (view value.now)))) };
}

/// The least text that the members of the table at a key name and that is not known.
pub(crate) fn unknown_at<N: Naming>(
    alloc: Global,
    naming: &N,
    known: &Sorted,
    document: &Table,
    key: &str,
) -> Result<Option<Text>, Memory>
    ensures { IfOk result (λ fault. fault
        ≡ least (unknown known.now (named_at (N.named naming.now) key.now (table_view document.now)))) }
{
    match member(document, key) {
        Some(value) => unknown_within(alloc, naming, known, value),
        None => Ok(None),
    }
}

fn unknown_within<N: Naming>(
    alloc: Global,
    naming: &N,
    known: &Sorted,
    value: &Value,
) -> Result<Option<Text>, Memory>
    ensures { IfOk result (λ fault. fault
        ≡ least (unknown known.now (each_named (N.named naming.now) (members_of (view value.now))))) }
{
    match value {
        Value::Table(table) => each_unknown(alloc, naming, known, table),
        _ => Ok(None),
    }
}

fn each_unknown<N: Naming>(
    alloc: Global,
    naming: &N,
    known: &Sorted,
    table: &Table,
) -> Result<Option<Text>, Memory>
    ensures { IfOk result (λ fault. fault
        ≡ least (unknown known.now (each_named (N.named naming.now) (table_view table.now)))) }
{
    let mut least = None;
    for (_key, value) in table.iter() {
        let fault = naming.unknown(alloc, known, value)?;
        least = lesser_of(least, fault);
    }
    Ok(least)
}

/// A text that is not known.
pub(crate) fn unknown_text(
    alloc: Global,
    known: &Sorted,
    text: &str,
) -> Result<Option<Text>, Memory>
    ensures { IfOk result (λ fault. fault ≡ least (unknown known.now (chars text.now ∷ []))) }
{
    match known.find(text) {
        Some(_) => Ok(None),
        None => Ok(Some(Text::new(alloc, text)?)),
    }
}

/// The least text of the array at a key that is not known.
pub(crate) fn unknown_in_array(
    alloc: Global,
    known: &Sorted,
    value: &Value,
    key: &str,
) -> Result<Option<Text>, Memory>
    ensures { IfOk result (λ fault. fault
        ≡ least (unknown known.now (texts_at key.now (members_of (view value.now))))) }
{
    match value {
        Value::Table(table) => unknown_in_array_at(alloc, known, table, key),
        _ => Ok(None),
    }
}

fn unknown_in_array_at(
    alloc: Global,
    known: &Sorted,
    table: &Table,
    key: &str,
) -> Result<Option<Text>, Memory>
    ensures { IfOk result (λ fault. fault ≡ least (unknown known.now (texts_at key.now (table_view table.now)))) }
{
    match member(table, key) {
        Some(value) => unknown_of_array(alloc, known, value),
        None => Ok(None),
    }
}

fn unknown_of_array(alloc: Global, known: &Sorted, value: &Value) -> Result<Option<Text>, Memory>
    ensures { IfOk result (λ fault. fault ≡ least (unknown known.now (texts_of (view value.now)))) }
{
    match value {
        Value::Array(items) => unknown_item(alloc, known, items),
        _ => Ok(None),
    }
}

fn unknown_item(alloc: Global, known: &Sorted, items: &Array) -> Result<Option<Text>, Memory>
    ensures { IfOk result (λ fault. fault ≡ least (unknown known.now (item_texts (array_view items.now)))) }
{
    let mut least = None;
    for item in items {
        let fault = unknown_text(alloc, known, str_of(item))?;
        least = lesser_of(least, fault);
    }
    Ok(least)
}

/// The least permission in the rows at a key that is not known.
pub(crate) fn unknown_in_rows(
    alloc: Global,
    known: &Sorted,
    value: &Value,
    key: &str,
) -> Result<Option<Text>, Memory>
    ensures { IfOk result (λ fault. fault
        ≡ least (unknown known.now (needed (each_at row_of key.now (members_of (view value.now)))))) }
{
    match value {
        Value::Table(table) => unknown_in_rows_at(alloc, known, table, key),
        _ => Ok(None),
    }
}

fn unknown_in_rows_at(
    alloc: Global,
    known: &Sorted,
    table: &Table,
    key: &str,
) -> Result<Option<Text>, Memory>
    ensures { IfOk result (λ fault. fault
        ≡ least (unknown known.now (needed (each_at row_of key.now (table_view table.now))))) }
{
    match member(table, key) {
        Some(value) => unknown_of_rows(alloc, known, value),
        None => Ok(None),
    }
}

fn unknown_of_rows(alloc: Global, known: &Sorted, value: &Value) -> Result<Option<Text>, Memory>
    ensures { IfOk result (λ fault. fault
        ≡ least (unknown known.now (needed (each_member row_of (members_of (view value.now)))))) }
{
    match value {
        Value::Table(rows) => unknown_row(alloc, known, rows),
        _ => Ok(None),
    }
}

fn unknown_row(alloc: Global, known: &Sorted, rows: &Table) -> Result<Option<Text>, Memory>
    ensures { IfOk result (λ fault. fault
        ≡ least (unknown known.now (needed (each_member row_of (table_view rows.now))))) }
{
    let mut least = None;
    for (_name, permission) in rows.iter() {
        let fault = unknown_text(alloc, known, str_of(permission))?;
        least = lesser_of(least, fault);
    }
    Ok(least)
}
