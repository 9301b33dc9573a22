//! Shapes of values and tables: the least fault in them, by its path.

ghost use Rattle.std.specs.Prelude.{◌≡◌, ℕ, Bool, List, [], ◌∷◌, ◌++◌, chars, map, IfOk};
ghost use Rattle.toml.specs.Data.{Data};
ghost use Rattle.toml.specs.View.{view, array_view, table_view};
ghost use Rattle.rp_decl.specs.Order.{least};
ghost use Rattle.rp_decl.specs.Path.{path_of};
ghost use Rattle.rp_decl.specs.Shape.{all_members, are_texts, entries, entry_member, is_array, is_text, table_of, text};
ghost use Rattle.rp_decl.specs.Shape.{texts, unless};
ghost use Rattle.rp_decl.specs.Test.{admits};

use crate::least::lesser_of;
use crate::path::Path;
use crate::test::Test;
use rp_base::{Memory, Text};
use std::alloc::Global;
use toml::value::Array;
use toml::{Table, Value};

/// What the entries of a table have to be: keys that pass a test, and values of a shape.
pub(crate) trait Entry {
    /// The test of a key.
    ghost admits: { Self → List ℕ → Bool };

    /// The paths at which a value at a path has not the shape.
    ghost faults: { Self → List ℕ → Data → List (List ℕ) };

    fn admits(&self, alloc: Global, key: &str) -> Result<bool, Memory>
        ensures { IfOk result (λ b. b ≡ admits self.now (chars key.now)) };

    /// The least of these paths.
    fn fault<'p>(
        &self,
        alloc: Global,
        path: &'p Path<'p>,
        value: &'p Value,
    ) -> Result<Option<Text>, Memory>
        ensures { IfOk result (λ fault. fault ≡ least (faults self.now (path_of path.now) (view value.now))) };
}

/// The keys that a table may have.
pub(crate) trait Keyed {
    /// The paths at which a member of the table at a path is at fault.
    ghost member_faults: { Self → List ℕ → List ℕ → Data → List (List ℕ) };

    /// The least of these paths.
    fn member_fault<'p>(
        &self,
        alloc: Global,
        path: &'p Path<'p>,
        key: &'p str,
        value: &'p Value,
    ) -> Result<Option<Text>, Memory>
        ensures { IfOk result (λ fault. fault
            ≡ least (member_faults self.now (path_of path.now) key.now (view value.now))) };
}

/// The fault that there is at a path.
pub(crate) fn fault_at(alloc: Global, path: &Path) -> Result<Option<Text>, Memory>
    ensures { IfOk result (λ fault. fault ≡ least (path_of path.now ∷ [])) }
{
    Ok(Some(path.text(alloc)?))
}

/// The fault of a value that fails a test.
pub(crate) fn fault_unless(alloc: Global, passes: bool, path: &Path) -> Result<Option<Text>, Memory>
    ensures { IfOk result (λ fault. fault ≡ least (unless passes (path_of path.now))) }
{
    if passes {
        Ok(None)
    } else {
        fault_at(alloc, path)
    }
}

/// The fault of what is to be a text that passes a test.
pub(crate) fn text_fault(
    alloc: Global,
    test: Test,
    path: &Path,
    value: &Value,
) -> Result<Option<Text>, Memory>
    ensures { IfOk result (λ fault. fault ≡ least (text (admits test) (path_of path.now) (view value.now))) }
{
    let passes = is_text(alloc, test, value)?;
    fault_unless(alloc, passes, path)
}

/// The fault of what is to be an array of texts that pass a test.
pub(crate) fn texts_fault(
    alloc: Global,
    test: Test,
    path: &Path,
    value: &Value,
) -> Result<Option<Text>, Memory>
    ensures { IfOk result (λ fault. fault ≡ least (texts (admits test) (path_of path.now) (view value.now))) }
{
    let passes = is_array(alloc, test, value)?;
    fault_unless(alloc, passes, path)
}

fn is_text(alloc: Global, test: Test, value: &Value) -> Result<bool, Memory>
    ensures { IfOk result (λ b. b ≡ is_text (admits test) (view value.now)) }
{
    match value {
        Value::String(text) => test.admits(alloc, text.as_str()),
        _ => Ok(false),
    }
}

fn is_array(alloc: Global, test: Test, value: &Value) -> Result<bool, Memory>
    ensures { IfOk result (λ b. b ≡ is_array (admits test) (view value.now)) }
{
    match value {
        Value::Array(items) => are_texts(alloc, test, items),
        _ => Ok(false),
    }
}

fn are_texts(alloc: Global, test: Test, items: &Array) -> Result<bool, Memory>
    ensures { IfOk result (λ b. b ≡ are_texts (admits test) (array_view items.now)) }
{
    for item in items {
        if !is_text(alloc, test, item)? {
            return Ok(false);
        }
    }
    Ok(true)
}

/// The least fault of what is to be a table with certain keys.
pub(crate) fn keyed_fault<'p, K: Keyed>(
    alloc: Global,
    keys: &K,
    path: &'p Path<'p>,
    value: &'p Value,
) -> Result<Option<Text>, Memory>
    ensures { IfOk result (λ fault. fault
        ≡ least (table_of (K.member_faults keys.now (path_of path.now)) (path_of path.now) (view value.now))) }
{
    match value {
        Value::Table(table) => members_fault(alloc, keys, path, table),
        _ => fault_at(alloc, path),
    }
}

/// The least fault of the members of a table.
pub(crate) fn members_fault<'p, K: Keyed>(
    alloc: Global,
    keys: &K,
    path: &'p Path<'p>,
    table: &'p Table,
) -> Result<Option<Text>, Memory>
    ensures { IfOk result (λ fault. fault
        ≡ least (all_members (K.member_faults keys.now (path_of path.now)) (table_view table.now))) }
{
    let mut least = None;
    for (key, value) in table.iter() {
        let fault = keys.member_fault(alloc, path, key.as_str(), value)?;
        least = lesser_of(least, fault);
    }
    Ok(least)
}

/// The least fault of what is to be a table from keys that pass a test to values of a shape.
pub(crate) fn entries_fault<'p, E: Entry>(
    alloc: Global,
    entry: &E,
    path: &'p Path<'p>,
    value: &'p Value,
) -> Result<Option<Text>, Memory>
    ensures { IfOk result (λ fault. fault
        ≡ least (entries (E.admits entry.now) (E.faults entry.now) (path_of path.now) (view value.now))) }
{
    match value {
        Value::Table(table) => each_entry_fault(alloc, entry, path, table),
        _ => fault_at(alloc, path),
    }
}

fn each_entry_fault<'p, E: Entry>(
    alloc: Global,
    entry: &E,
    path: &'p Path<'p>,
    table: &'p Table,
) -> Result<Option<Text>, Memory>
    ensures { IfOk result (λ fault. fault
        ≡ least (all_members (entry_member (E.admits entry.now) (E.faults entry.now) (path_of path.now))
        (table_view table.now))) }
{
    let mut least = None;
    for (key, value) in table.iter() {
        let path = Path::Within(path, key.as_str());
        let fault = entry_fault(alloc, entry, &path, key.as_str(), value)?;
        least = lesser_of(least, fault);
    }
    Ok(least)
}

fn entry_fault<'p, E: Entry>(
    alloc: Global,
    entry: &E,
    path: &'p Path<'p>,
    key: &str,
    value: &'p Value,
) -> Result<Option<Text>, Memory>
    ensures { IfOk result (λ fault. fault
        ≡ least (unless (E.admits entry.now (chars key.now)) (path_of path.now) ++ E.faults entry.now
        (path_of path.now) (view value.now))) }
{
    let passes = entry.admits(alloc, key)?;
    let fault = fault_unless(alloc, passes, path)?;
    Ok(lesser_of(fault, entry.fault(alloc, path, value)?))
}
