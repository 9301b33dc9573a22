//! TOML documents: reading one, its version and the members of its tables.

ghost use Rattle.std.specs.Prelude.{◌≡◌, ℕ, List, codes, option_map, IfOk, IfErr, Ok, Some};
ghost use Rattle.toml.specs.Data.{get_member, same_key};
ghost use Rattle.toml.specs.View.{view, table_view};
ghost use Rattle.rp_decl.specs.Declares.{IsDocument, newest, version_in, version_of};
ghost use Rattle.rp_decl.specs.Faults.{HasFault, IsFaultHeld};

use crate::fault::DeclFault;
use std::alloc::Global;
use toml::{Table, Value};

/// The newest version of a declaration file.
const NEWEST: i64 = 2;

/// The table of a TOML document.
pub(crate) fn read_document(alloc: Global, bytes: &[u8]) -> Result<Table, DeclFault>
    ensures ok { IfOk result (λ table. IsDocument bytes.now (table_view table)) }
    ensures fault { IfErr result (λ fault. (names : List (List ℕ)) → HasFault bytes.now names fault) }
    ensures fault_held { IfErr result (λ fault. (names : List (List ℕ)) → IsFaultHeld names fault) }
{
    match toml::table_from_slice(alloc, bytes) {
        Ok(table) => Ok(table),
        Err(e) => {
            if e.is_memory() {
                Err(DeclFault::Memory)
            } else {
                Err(DeclFault::NotToml)
            }
        }
    }
}

/// The value at a key.
pub(crate) fn member<'t>(table: &'t Table, key: &str) -> Option<&'t Value>
    ensures { option_map (λ v. view v.now) result ≡ get_member key.now (table_view table.now) }
{
    table.get(key)
}

/// Whether two keys are one.
pub(crate) fn is_key(key: &str, other: &str) -> bool
    ensures { result ≡ same_key key.now other.now }
{
    key == other
}

/// The version of a document, where it has one.
pub(crate) fn version_of(document: &Table) -> Option<usize>
    ensures { result ≡ version_of newest (table_view document.now) }
{
    match member(document, "version") {
        Some(value) => version_in(value),
        None => None,
    }
}

fn version_in(value: &Value) -> Option<usize>
    ensures { result ≡ version_in newest (Some (view value.now)) }
{
    match value {
        Value::Integer(1) => Some(1),
        Value::Integer(2) => Some(2),
        _ => None,
    }
}
