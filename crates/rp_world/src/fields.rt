//! The values of declared fields, with the lists and dicts within them.
#![tactic(auto, using(rp_store::proofs::CallerLemmas::goes_on))]

ghost use Rattle.std.specs.Prelude.{◌≡◌, [], IfOk, OnOk};
ghost use Rattle.rp_decl.specs.View.{entries_view, field_view, fields_view};
ghost use Rattle.rp_dict.specs.Dict.{insert_entry};
ghost use Rattle.rp_meaning.specs.Load.{field_made, list_made, table_made};
ghost use Rattle.rp_store.specs.Kept.{IsSound};
ghost use Rattle.rp_store.specs.Key.{same_key};
ghost use Rattle.rp_store.specs.Object.{dict};
ghost use Rattle.rp_store.specs.Shape.{KeepsShape};

use crate::placing::place;
use rp_base::{Memory, Rock, Text, Value};
use rp_decl::Field;
use rp_dict::Dict;
use rp_store::{Key, Object, Store};
use std::alloc::Global;

/// The value of a declared field; the lists and dicts within it are put into the store before it.
#[cycle(field)]
pub fn place_field(alloc: Global, field: &Field, store: &mut Store) -> Result<Value, Memory>
    ensures placed { IfOk result (λ value. field_made (field_view field.now) store.old ≡ (value, store.new)) }
    ensures sound { IfOk result (IsSound store.new.heap) }
    ensures shape { KeepsShape store.old.heap store.new.heap }
{
    match field {
        Field::Int(number) => Ok(Value::Rock(Rock::Int(*number))),
        Field::Text(text) => Ok(Value::Rock(Rock::Text(text.copy()?))),
        Field::Truth(truth) => Ok(Value::Rock(Rock::Truth(*truth))),
        Field::List(fields) => place_list(alloc, fields, store),
        Field::Table(entries) => place_table(alloc, entries, store),
    }
}

#[cycle(field)]
fn place_list(alloc: Global, fields: &[Field], store: &mut Store) -> Result<Value, Memory>
    ensures placed { IfOk result (λ value. list_made [] (fields_view fields.now) store.old ≡ (value, store.new)) }
    ensures sound { IfOk result (IsSound store.new.heap) }
    ensures shape { KeepsShape store.old.heap store.new.heap }
{
    let mut values = Vec::with_capacity(alloc, fields.len())?;
    'fields: for field in fields {
        let value = place_field(alloc, field, store)?;
        values.push(value)?;
    }
    place(store, Object::List(values))
}

#[cycle(field)]
fn place_table(alloc: Global, entries: &[(Text, Field)], store: &mut Store) -> Result<Value, Memory>
    ensures placed { IfOk result (λ value. table_made (dict []) (entries_view entries.now) store.old
        ≡ (value, store.new)) }
    ensures sound { IfOk result (IsSound store.new.heap) }
    ensures shape { KeepsShape store.old.heap store.new.heap }
{
    let mut table = Dict::with_capacity(alloc, entries.len(), store.seed())?;
    'entries: for entry in entries {
        let value = place_field(alloc, &entry.1, store)?;
        put(&mut table, &entry.0, value)?;
    }
    place(store, Object::Dict(table))
}

/// Gives a text its value in a table.
fn put(table: &mut Dict<Key, (Rock, Value)>, key: &Text, value: Value) -> Result<(), Memory>
    ensures { OnOk result (table.new
        ≡ insert_entry same_key table.old (Key.Text key.now) (Rock.Text key.now, value)) }
{
    let form = Key::Text(key.copy()?);
    let rock = Rock::Text(key.copy()?);
    table.set(form, (rock, value))?;
    Ok(())
}
