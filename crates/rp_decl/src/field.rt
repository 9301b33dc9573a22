//! The fields of declared objects.

ghost use Rattle.std.specs.Prelude.{◌≡◌, IfOk};
ghost use Rattle.toml.specs.View.{array_view, table_view, view};
ghost use Rattle.rp_decl.specs.Document.{entries_of, field_of, fields_of};
ghost use Rattle.rp_decl.specs.InOrder.{AreAscending, AreEntriesInOrder, AreFieldsInOrder, IsInOrder, keys};
ghost use Rattle.rp_decl.specs.View.{entries_view, field_view, fields_view};

use crate::records::Field;
use rp_base::{Memory, Text};
use std::alloc::Global;
use toml::value::Array;
use toml::{Table, Value};

/// The value of a field.
#[cycle(field)]
pub(crate) fn field_of(alloc: Global, value: &Value) -> Result<Field, Memory>
    ensures value { IfOk result (λ field. field_view field ≡ field_of (view value.now)) }
    ensures ordered { IfOk result (λ field. IsInOrder (field_of (view value.now))) }
{
    match value {
        Value::Integer(number) => Ok(Field::Int(*number)),
        Value::String(text) => Ok(Field::Text(Text::new(alloc, text.as_str())?)),
        Value::Boolean(truth) => Ok(Field::Truth(*truth)),
        Value::Array(items) => Ok(Field::List(fields_of(alloc, items)?)),
        Value::Table(table) => Ok(Field::Table(entries_of(alloc, table)?)),
        Value::Float(_) => Ok(Field::List(Vec::new(alloc))),
        Value::Datetime(_) => Ok(Field::List(Vec::new(alloc))),
    }
}

#[cycle(field)]
fn fields_of(alloc: Global, items: &Array) -> Result<Vec<Field>, Memory>
    ensures value { IfOk result (λ fields. fields_view fields.items ≡ fields_of (array_view items.now)) }
    ensures ordered { IfOk result (λ fields. AreFieldsInOrder (fields_of (array_view items.now))) }
{
    let mut fields = Vec::new(alloc);
    for item in items {
        let field = field_of(alloc, item)?;
        fields.push(field)?;
    }
    Ok(fields)
}

#[cycle(field)]
fn entries_of(alloc: Global, table: &Table) -> Result<Vec<(Text, Field)>, Memory>
    ensures value { IfOk result (λ entries. entries_view entries.items ≡ entries_of (table_view table.now)) }
    ensures ordered { IfOk result (λ entries. AreEntriesInOrder (entries_of (table_view table.now))) }
    ensures ascending { IfOk result (λ entries. AreAscending (keys (entries_of (table_view table.now)))) }
{
    let mut entries = Vec::new(alloc);
    for (key, value) in table.iter() {
        let name = Text::new(alloc, key.as_str())?;
        let field = field_of(alloc, value)?;
        entries.push((name, field))?;
    }
    Ok(entries)
}
