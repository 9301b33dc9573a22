//! The rows of one class, over those of the class that it is like.

ghost use Rattle.std.specs.Prelude.{◌≡◌, ◌++◌, IfOk, [], map, option_map};
ghost use Rattle.std.specs.Option.{option_map_or, option_or};
ghost use Rattle.std.specs.Map.{lookup};
ghost use Rattle.rp_base.specs.declared.value.Name.{Name};
ghost use Rattle.rp_checker.specs.Chain.{row_needing};
ghost use Rattle.rp_checker.specs.Lookup.{is_name};
ghost use Rattle.rp_checker.specs.Tables.{row_at};

use crate::table::Table;
use rp_base::{Memory, Name, Op, Text};
use rp_decl::{Perm, Row, is_public};
use std::alloc::Global;

/// What a class asks of whoever reads and sets the names of its objects.
#[derive(Drop)]
pub struct ClassRows {
    pub get: Table<Row>,
    pub set: Table<Row>,
}

impl ClassRows {
    /// No rows, which take no memory.
    pub fn empty(alloc: Global) -> ClassRows
        ensures get { result.get ≡ [] }
        ensures set { result.set ≡ [] }
    {
        ClassRows {
            get: Table::empty(alloc),
            set: Table::empty(alloc),
        }
    }

    /// The row for an operation.
    #[inline(always)]
    pub fn row(&self, op: Op) -> Option<Row>
        ensures { result ≡ row_at op self.now }
    {
        match op {
            Op::Get(name) => self.get.get(name),
            Op::Set(name) => self.set.get(name),
        }
    }
}

/// Own rows, and those of another class for other names.
///
/// # Errors
/// `Memory` where a growth was refused.
pub fn rows_over(
    alloc: Global,
    permissions: &[Text],
    own: &[(Name, Perm)],
    others: &[(Name, Row)],
) -> Result<Table<Row>, Memory>
    ensures { IfOk result (λ t. (name : Name) → lookup (is_name name) t
        ≡ option_or (option_map (row_needing permissions.now) (lookup (is_name name) own.now))
        (lookup (is_name name) others.now)) }
{
    let mut rows = Vec::with_capacity(alloc, own.len())?;
    for (name, permission) in own {
        rows.push((*name, row_needing(permissions, *permission)))?;
    }
    rows.extend_from_slice(others)?;
    Table::new(rows)
}

/// The row with a permission: `zope.Public` is had by everybody.
fn row_needing(permissions: &[Text], permission: Perm) -> Row
    ensures { result ≡ row_needing permissions.now permission }
{
    match permissions.get(permission.0) {
        Some(id) if is_public(id) => Row::Public,
        _ => Row::Needs(permission),
    }
}

/// The rows for reading, none where there is no class.
pub fn get_rows(class: Option<&ClassRows>) -> &[(Name, Row)]
    ensures { result.now ≡ option_map_or (λ r. r.now.get) class.entry [] }
{
    match class {
        Some(rows) => rows.get.as_slice(),
        None => &[],
    }
}

/// The rows for setting, none where there is no class.
pub fn set_rows(class: Option<&ClassRows>) -> &[(Name, Row)]
    ensures { result.now ≡ option_map_or (λ r. r.now.set) class.entry [] }
{
    match class {
        Some(rows) => rows.set.as_slice(),
        None => &[],
    }
}
