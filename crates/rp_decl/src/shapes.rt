//! The shape of each part of a declaration file.

ghost use Rattle.std.specs.Prelude.{◌≡◌, ◌++◌, ◌||◌, [], ◌∷◌, IfOk, codes, is_some, map};
ghost use Rattle.std.specs.List.{list_any};
ghost use Rattle.toml.specs.Data.{get_member, same_key, table as table_data};
ghost use Rattle.toml.specs.View.{view, array_view, table_view};
ghost use Rattle.rp_decl.specs.Order.{least};
ghost use Rattle.rp_decl.specs.Path.{path_of};
ghost use Rattle.rp_decl.specs.Shape.{at_key, faults_of, field_items, field_members, field_value, group_keys};
ghost use Rattle.rp_decl.specs.Shape.{keyed_member, object, object_keys, principal_keys, rows, unless, version_2_keys};
ghost use Rattle.rp_decl.specs.Shape.{within};

use crate::document::is_key;
use crate::least::lesser_of;
use crate::path::Path;
use crate::shape::{
    Entry, Keyed, entries_fault, fault_at, fault_unless, keyed_fault, members_fault, text_fault,
    texts_fault,
};
use crate::test::{Test, has_member, is_class_name, is_object_name};
use crate::word::{is_declared_name, is_id};
use rp_base::{Memory, Text};
use std::alloc::Global;
use toml::value::Array;
use toml::{Table, Value};

/// The most arrays and tables in one another in the value of a field.
const DEEPEST: usize = 64;

/// Names, each with the permission that it needs.
#[derive(Clone, Copy)]
struct Row;

impl Entry for Row {
    ghost use Rattle.rp_decl.specs.Shape.{text};
    ghost use Rattle.rp_decl.specs.Word.{is_declared_name, is_id};

    ghost admits = { λ row. is_declared_name };

    ghost faults = { λ row. text is_id };

    fn admits(&self, alloc: Global, key: &str) -> Result<bool, Memory> {
        is_declared_name(alloc, key)
    }

    fn fault<'p>(
        &self,
        alloc: Global,
        path: &'p Path<'p>,
        value: &'p Value,
    ) -> Result<Option<Text>, Memory> {
        text_fault(alloc, Test::Id, path, value)
    }
}

/// Classes by their names.
#[derive(Clone, Copy)]
struct Class;

impl Keyed for Class {
    ghost use Rattle.rp_decl.specs.Shape.{class_keys, keyed_member};

    ghost member_faults = { λ class. keyed_member class_keys };

    fn member_fault<'p>(
        &self,
        alloc: Global,
        path: &'p Path<'p>,
        key: &'p str,
        value: &'p Value,
    ) -> Result<Option<Text>, Memory> {
        let path = Path::Within(path, key);
        if is_key(key, "like") {
            text_fault(alloc, Test::Name, &path, value)
        } else if is_key(key, "get") || is_key(key, "set") {
            entries_fault(alloc, &Row, &path, value)
        } else {
            fault_at(alloc, &path)
        }
    }
}

impl Entry for Class {
    ghost use Rattle.rp_decl.specs.Shape.{class_keys, is_class_name, keyed};

    ghost admits = { λ class. is_class_name };

    ghost faults = { λ class. keyed class_keys };

    fn admits(&self, alloc: Global, key: &str) -> Result<bool, Memory> {
        is_class_name(alloc, key)
    }

    fn fault<'p>(
        &self,
        alloc: Global,
        path: &'p Path<'p>,
        value: &'p Value,
    ) -> Result<Option<Text>, Memory> {
        keyed_fault(alloc, self, path, value)
    }
}

/// Roles, groups or principals by their ids: arrays of ids at these keys.
#[derive(Clone, Copy)]
struct IdArrays<'k> {
    keys: &'k [&'k str],
}

impl<'k> Keyed for IdArrays<'k> {
    ghost use Rattle.std.specs.Prelude.{map};
    ghost use Rattle.rp_decl.specs.Shape.{id_arrays, keyed_member};

    ghost member_faults = { λ arrays. keyed_member (id_arrays (map (λ key. key.now) arrays.keys.now)) };

    fn member_fault<'p>(
        &self,
        alloc: Global,
        path: &'p Path<'p>,
        key: &'p str,
        value: &'p Value,
    ) -> Result<Option<Text>, Memory> {
        let path = Path::Within(path, key);
        if is_one_of(key, self.keys) {
            texts_fault(alloc, Test::Id, &path, value)
        } else {
            fault_at(alloc, &path)
        }
    }
}

impl<'k> Entry for IdArrays<'k> {
    ghost use Rattle.std.specs.Prelude.{map};
    ghost use Rattle.rp_decl.specs.Shape.{id_arrays, keyed};
    ghost use Rattle.rp_decl.specs.Word.{is_id};

    ghost admits = { λ arrays. is_id };

    ghost faults = { λ arrays. keyed (id_arrays (map (λ key. key.now) arrays.keys.now)) };

    fn admits(&self, _alloc: Global, key: &str) -> Result<bool, Memory> {
        Ok(is_id(key))
    }

    fn fault<'p>(
        &self,
        alloc: Global,
        path: &'p Path<'p>,
        value: &'p Value,
    ) -> Result<Option<Text>, Memory> {
        keyed_fault(alloc, self, path, value)
    }
}

/// The fields of an object by their names.
#[derive(Clone, Copy)]
struct FieldValue;

impl Entry for FieldValue {
    ghost use Rattle.rp_decl.specs.Shape.{deepest, field_value};
    ghost use Rattle.rp_decl.specs.Word.{is_declared_name};

    ghost admits = { λ field. is_declared_name };

    ghost faults = { λ field. field_value deepest };

    fn admits(&self, alloc: Global, key: &str) -> Result<bool, Memory> {
        is_declared_name(alloc, key)
    }

    fn fault<'p>(
        &self,
        alloc: Global,
        path: &'p Path<'p>,
        value: &'p Value,
    ) -> Result<Option<Text>, Memory> {
        field_value_fault(alloc, DEEPEST, path, value)
    }
}

/// Objects of a document by their names.
#[derive(Clone, Copy)]
struct Object<'d> {
    document: &'d Table,
}

impl<'d> Keyed for Object<'d> {
    ghost use Rattle.rp_decl.specs.Shape.{keyed_member, object_keys};

    ghost member_faults = { λ object. keyed_member object_keys };

    fn member_fault<'p>(
        &self,
        alloc: Global,
        path: &'p Path<'p>,
        key: &'p str,
        value: &'p Value,
    ) -> Result<Option<Text>, Memory> {
        let path = Path::Within(path, key);
        if is_key(key, "class") {
            text_fault(alloc, Test::Name, &path, value)
        } else if is_key(key, "fields") {
            entries_fault(alloc, &FieldValue, &path, value)
        } else {
            fault_at(alloc, &path)
        }
    }
}

impl<'d> Entry for Object<'d> {
    ghost use Rattle.toml.specs.View.{table_view};
    ghost use Rattle.rp_decl.specs.Shape.{is_object_name, object};

    ghost admits = { λ object. is_object_name (table_view object.document.now) };

    ghost faults = { λ entry. object };

    fn admits(&self, alloc: Global, key: &str) -> Result<bool, Memory> {
        is_object_name(alloc, self.document, key)
    }

    fn fault<'p>(
        &self,
        alloc: Global,
        path: &'p Path<'p>,
        value: &'p Value,
    ) -> Result<Option<Text>, Memory> {
        match value {
            Value::Table(table) => object_fault(alloc, self, path, table),
            _ => fault_at(alloc, path),
        }
    }
}

fn object_fault<'p>(
    alloc: Global,
    keys: &Object,
    path: &'p Path<'p>,
    table: &'p Table,
) -> Result<Option<Text>, Memory>
    ensures { IfOk result (λ fault. fault ≡ least (object (path_of path.now) (table_data (table_view table.now)))) }
{
    let fault = members_fault(alloc, keys, path, table)?;
    let class = Path::Within(path, "class");
    let missing = fault_unless(alloc, has_member(table, "class"), &class)?;
    Ok(lesser_of(fault, missing))
}

/// The least fault of the value of a field, with so many levels left.
#[cycle(field)]
fn field_value_fault<'p>(
    alloc: Global,
    levels: usize,
    path: &'p Path<'p>,
    value: &'p Value,
) -> Result<Option<Text>, Memory>
    ensures { IfOk result (λ fault. fault ≡ least (field_value levels (path_of path.now) (view value.now))) }
{
    match value {
        Value::Integer(_) => Ok(None),
        Value::String(_) => Ok(None),
        Value::Boolean(_) => Ok(None),
        Value::Array(items) => {
            if levels == 0 {
                fault_at(alloc, path)
            } else {
                field_items_fault(alloc, levels - 1, path, items)
            }
        }
        Value::Table(table) => {
            if levels == 0 {
                fault_at(alloc, path)
            } else {
                field_members_fault(alloc, levels - 1, path, table)
            }
        }
        Value::Float(_) => fault_at(alloc, path),
        Value::Datetime(_) => fault_at(alloc, path),
    }
}

#[cycle(field)]
fn field_items_fault<'p>(
    alloc: Global,
    levels: usize,
    path: &'p Path<'p>,
    items: &'p Array,
) -> Result<Option<Text>, Memory>
    ensures { IfOk result (λ fault. fault ≡ least (field_items levels (path_of path.now) (array_view items.now))) }
{
    let mut least = None;
    for item in items {
        let fault = field_value_fault(alloc, levels, path, item)?;
        least = lesser_of(least, fault);
    }
    Ok(least)
}

#[cycle(field)]
fn field_members_fault<'p>(
    alloc: Global,
    levels: usize,
    path: &'p Path<'p>,
    table: &'p Table,
) -> Result<Option<Text>, Memory>
    ensures { IfOk result (λ fault. fault ≡ least (field_members levels (path_of path.now) (table_view table.now))) }
{
    let mut least = None;
    for (key, value) in table.iter() {
        let path = Path::Within(path, key.as_str());
        let fault = field_value_fault(alloc, levels, &path, value)?;
        least = lesser_of(least, fault);
    }
    Ok(least)
}

fn is_one_of(key: &str, keys: &[&str]) -> bool
    ensures { result ≡ list_any (same_key key.now) (map (λ k. k.now) keys.now) }
{
    keys.iter().any(|k| is_key(key, k))
}

/// A document of a version.
#[derive(Clone, Copy)]
struct Document<'d> {
    version: usize,
    table: &'d Table,
}

impl<'d> Keyed for Document<'d> {
    ghost use Rattle.toml.specs.View.{table_view};
    ghost use Rattle.rp_decl.specs.Shape.{document_keys, keyed_member};

    ghost member_faults = { λ document. keyed_member (document_keys document.version (table_view document.table.now)) };

    fn member_fault<'p>(
        &self,
        alloc: Global,
        path: &'p Path<'p>,
        key: &'p str,
        value: &'p Value,
    ) -> Result<Option<Text>, Memory> {
        let path = Path::Within(path, key);
        if is_key(key, "version") {
            Ok(None)
        } else if is_key(key, "permissions") {
            texts_fault(alloc, Test::Id, &path, value)
        } else if is_key(key, "expose") {
            texts_fault(alloc, Test::Name, &path, value)
        } else if is_key(key, "module") {
            text_fault(alloc, Test::Any, &path, value)
        } else if is_key(key, "class") {
            entries_fault(alloc, &Class, &path, value)
        } else if is_key(key, "group") {
            let keys = IdArrays {
                keys: group_keys(self.version),
            };
            entries_fault(alloc, &keys, &path, value)
        } else if is_key(key, "principal") {
            let keys = IdArrays {
                keys: principal_keys(self.version),
            };
            entries_fault(alloc, &keys, &path, value)
        } else if is_key(key, "object") {
            let object = Object {
                document: self.table,
            };
            entries_fault(alloc, &object, &path, value)
        } else {
            version_2_fault(alloc, self.version, &path, key, value)
        }
    }
}

/// The least fault at a key of documents of version 2 alone.
fn version_2_fault<'p>(
    alloc: Global,
    version: usize,
    path: &'p Path<'p>,
    key: &str,
    value: &'p Value,
) -> Result<Option<Text>, Memory>
    ensures { IfOk result (λ fault. fault
        ≡ least (at_key (version_2_keys version) key.now (path_of path.now) (view value.now))) }
{
    if version == 2 && is_key(key, "role") {
        let keys = IdArrays {
            keys: &["permissions"],
        };
        return entries_fault(alloc, &keys, path, value);
    }
    fault_at(alloc, path)
}

/// The keys of a group. In a document of version 2, it has roles.
fn group_keys(version: usize) -> &'static [&'static str]
    ensures { map (λ key. key.now) result.now ≡ group_keys version }
{
    if version == 2 {
        &["allow", "deny", "roles"]
    } else {
        &["allow", "deny"]
    }
}

/// The keys of a principal. In a document of version 2, it has roles.
fn principal_keys(version: usize) -> &'static [&'static str]
    ensures { map (λ key. key.now) result.now ≡ principal_keys version }
{
    if version == 2 {
        &["groups", "allow", "deny", "roles"]
    } else {
        &["groups", "allow", "deny"]
    }
}

/// The least path at which a document of a version has not the shape of a declaration file.
pub(crate) fn shape_fault(
    alloc: Global,
    version: usize,
    table: &Table,
) -> Result<Option<Text>, Memory>
    ensures { IfOk result (λ fault. fault ≡ least (faults_of version (table_view table.now))) }
{
    let document = Document { version, table };
    members_fault(alloc, &document, &Path::Root, table)
}
