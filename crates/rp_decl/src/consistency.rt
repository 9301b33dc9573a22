//! What documents name and do not declare: permissions, classes, groups and roles, the least of each.

ghost use Rattle.std.specs.Prelude.{◌≡◌, [], IfOk, chars, codes};
ghost use Rattle.std.specs.Option.{option_map_or};
ghost use Rattle.toml.specs.Data.{get_member};
ghost use Rattle.toml.specs.View.{table_view, view};
ghost use Rattle.rp_decl.specs.Consistency.{class_faults, class_names, group_faults, group_ids, permission_faults};
ghost use Rattle.rp_decl.specs.Consistency.{role_faults, role_ids};
ghost use Rattle.rp_decl.specs.Document.{members_of, records_of, text_of};
ghost use Rattle.rp_decl.specs.Order.{least};

use crate::document::member;
use crate::least::lesser_of;
use crate::likes::Likes;
use crate::naming::{Naming, unknown_at, unknown_in_array, unknown_in_rows, unknown_text};
use crate::ring::ring_fault;
use crate::text_set::{Sorted, str_of};
use rp_base::{Memory, Text};
use std::alloc::Global;
use toml::{Table, Value};

/// The permissions in the rows of a class.
#[derive(Clone, Copy)]
struct Rows;

impl Naming for Rows {
    ghost use Rattle.rp_decl.specs.Naming.{rows_named};

    ghost named = { λ rows. rows_named };

    fn unknown(
        &self,
        alloc: Global,
        known: &Sorted,
        value: &Value,
    ) -> Result<Option<Text>, Memory> {
        let get = unknown_in_rows(alloc, known, value, "get")?;
        let set = unknown_in_rows(alloc, known, value, "set")?;
        Ok(lesser_of(get, set))
    }
}

/// The permissions that a group or a principal is granted and denied.
#[derive(Clone, Copy)]
struct Grants;

impl Naming for Grants {
    ghost use Rattle.rp_decl.specs.Naming.{grants_named};

    ghost named = { λ grants. grants_named };

    fn unknown(
        &self,
        alloc: Global,
        known: &Sorted,
        value: &Value,
    ) -> Result<Option<Text>, Memory> {
        let allow = unknown_in_array(alloc, known, value, "allow")?;
        let deny = unknown_in_array(alloc, known, value, "deny")?;
        Ok(lesser_of(allow, deny))
    }
}

/// The ids in the array at a key.
#[derive(Clone, Copy)]
struct Ids<'k> {
    key: &'k str,
}

impl<'k> Naming for Ids<'k> {
    ghost use Rattle.rp_decl.specs.Naming.{ids_named};

    ghost named = { λ ids. ids_named ids.key.now };

    fn unknown(
        &self,
        alloc: Global,
        known: &Sorted,
        value: &Value,
    ) -> Result<Option<Text>, Memory> {
        unknown_in_array(alloc, known, value, self.key)
    }
}

/// The class of an object.
#[derive(Clone, Copy)]
struct ObjectClass;

impl Naming for ObjectClass {
    ghost use Rattle.rp_decl.specs.Naming.{class_named};

    ghost named = { λ object. class_named };

    fn unknown(
        &self,
        alloc: Global,
        known: &Sorted,
        value: &Value,
    ) -> Result<Option<Text>, Memory> {
        unknown_text(alloc, known, class_of_object(value))
    }
}

/// The class that an object names, empty where it names none.
pub(crate) fn class_of_object(object: &Value) -> &str
    ensures { chars result.now ≡ option_map_or text_of (get_member (codes "class") (members_of (view object.now))) [] }
{
    match object {
        Value::Table(table) => text_member(table, "class"),
        _ => "",
    }
}

/// The text at a key, empty where there is none.
pub(crate) fn text_member<'t>(table: &'t Table, key: &str) -> &'t str
    ensures { chars result.now ≡ option_map_or text_of (get_member key.now (table_view table.now)) [] }
{
    match member(table, key) {
        Some(value) => str_of(value),
        None => "",
    }
}

/// The least permission that is named and not declared.
pub(crate) fn permission_fault(
    alloc: Global,
    document: &Table,
    permissions: &Sorted,
) -> Result<Option<Text>, Memory>
    requires { permissions.now ≡ (records_of (table_view document.now)).permissions }
    ensures { IfOk result (λ fault. fault ≡ least (permission_faults (records_of (table_view document.now)))) }
{
    let rows = unknown_at(alloc, &Rows, permissions, document, "class")?;
    let ids = Ids { key: "permissions" };
    let roles = unknown_at(alloc, &ids, permissions, document, "role")?;
    let groups = unknown_at(alloc, &Grants, permissions, document, "group")?;
    let principals = unknown_at(alloc, &Grants, permissions, document, "principal")?;
    Ok(lesser_of(lesser_of(lesser_of(rows, roles), groups), principals))
}

/// The least class that is named and not declared, or that stands on a ring of `like`.
pub(crate) fn class_fault(
    alloc: Global,
    document: &Table,
    classes: &Sorted,
) -> Result<Option<Text>, Memory>
    requires { classes.now ≡ class_names (records_of (table_view document.now)) }
    ensures { IfOk result (λ fault. fault ≡ least (class_faults (records_of (table_view document.now)))) }
{
    let Likes { places, unknown } = Likes::read(alloc, classes, document)?;
    let objects = unknown_at(alloc, &ObjectClass, classes, document, "object")?;
    let ring = ring_fault(alloc, classes, places.as_slice())?;
    Ok(lesser_of(lesser_of(unknown, objects), ring))
}

/// The least group that is named and not declared.
pub(crate) fn group_fault(
    alloc: Global,
    document: &Table,
    groups: &Sorted,
) -> Result<Option<Text>, Memory>
    requires { groups.now ≡ group_ids (records_of (table_view document.now)) }
    ensures { IfOk result (λ fault. fault ≡ least (group_faults (records_of (table_view document.now)))) }
{
    let ids = Ids { key: "groups" };
    unknown_at(alloc, &ids, groups, document, "principal")
}

/// The least role that is named and not declared.
pub(crate) fn role_fault(
    alloc: Global,
    document: &Table,
    roles: &Sorted,
) -> Result<Option<Text>, Memory>
    requires { roles.now ≡ role_ids (records_of (table_view document.now)) }
    ensures { IfOk result (λ fault. fault ≡ least (role_faults (records_of (table_view document.now)))) }
{
    let ids = Ids { key: "roles" };
    let groups = unknown_at(alloc, &ids, roles, document, "group")?;
    let principals = unknown_at(alloc, &ids, roles, document, "principal")?;
    Ok(lesser_of(groups, principals))
}
