//! What texts of a document have to be.

ghost use Rattle.std.specs.Prelude.{◌≡◌, chars, IfOk, is_some};
ghost use Rattle.toml.specs.Data.{get_member};
ghost use Rattle.toml.specs.View.{table_view, view};
ghost use Rattle.rp_decl.specs.Document.{members_of};
ghost use Rattle.rp_decl.specs.Shape.{built_in_classes, is_class_name, is_object_name};
ghost use Rattle.rp_decl.specs.Test.{admits, has_class};
ghost use Rattle.rp_decl.specs.Word.{is_word_of};

use crate::document::member;
use crate::word::{is_declared_name, is_id};
use rp_base::Memory;
use std::alloc::Global;
use toml::{Table, Value};

/// The names of the built-in classes, which a declared class may not have.
const BUILT_IN_CLASSES: [&str; 6] = ["list", "tuple", "dict", "function", "method", "instance"];

/// What a text has to be.
#[derive(Clone, Copy)]
pub(crate) enum Test {
    Any,
    Id,
    Name,
}

impl Test {
    pub(crate) fn admits(self, alloc: Global, text: &str) -> Result<bool, Memory>
        ensures { IfOk result (λ b. b ≡ admits self (chars text.now)) }
    {
        match self {
            Test::Any => Ok(true),
            Test::Id => Ok(is_id(text)),
            Test::Name => is_declared_name(alloc, text),
        }
    }
}

/// Whether a declared class may have a name: it is that of no built-in class.
pub(crate) fn is_class_name(alloc: Global, name: &str) -> Result<bool, Memory>
    ensures { IfOk result (λ b. b ≡ is_class_name (chars name.now)) }
{
    let is_name = is_declared_name(alloc, name)?;
    Ok(is_name && !is_built_in(name))
}

fn is_built_in(name: &str) -> bool
    ensures { result ≡ is_word_of built_in_classes (chars name.now) }
{
    BUILT_IN_CLASSES.contains(&name)
}

/// Whether an object of a document may have a name: it is that of no declared class.
pub(crate) fn is_object_name(alloc: Global, document: &Table, name: &str) -> Result<bool, Memory>
    ensures { IfOk result (λ b. b ≡ is_object_name (table_view document.now) (chars name.now)) }
{
    let is_name = is_declared_name(alloc, name)?;
    Ok(is_name && !has_class(document, name))
}

/// Whether a document declares a class of this name.
pub(crate) fn has_class(document: &Table, name: &str) -> bool
    ensures { result ≡ has_class (table_view document.now) name.now }
{
    match member(document, "class") {
        Some(classes) => has_key(classes, name),
        None => false,
    }
}

fn has_key(value: &Value, key: &str) -> bool
    ensures { result ≡ is_some (get_member key.now (members_of (view value.now))) }
{
    match value {
        Value::Table(table) => has_member(table, key),
        _ => false,
    }
}

/// Whether a table has a key.
pub(crate) fn has_member(table: &Table, key: &str) -> bool
    ensures { result ≡ is_some (get_member key.now (table_view table.now)) }
{
    member(table, key).is_some()
}
