//! The calls of rp_ops, rp_items and rp_attributes, each where what it asks holds.

use crate::answers::Answer;
use crate::calls::{place, told};
use crate::world::World;
use rp_attributes::{attribute, del_attribute, set_attribute};
use rp_base::{Name, Names, Oid, Side, UnOp, Value};
use rp_items::{SliceParts, del_item, item, set_item, slice};
use rp_ops::{
    Operand, Sequence, add_sequence, elements, elements_at, new_character, new_object, operand_of,
    truth, unary,
};
use rp_store::{Object, Store};
use rp_tests_parts::{Fault, are_sound, is_sound};
use std::alloc::Global;

pub(crate) fn on_one(alloc: Global, store: &Store, op: UnOp, a: &Value) -> Result<Answer, Fault> {
    if !is_sound(store, a) {
        return Err(Fault::Unsound);
    }
    Ok(Answer::Value(unary(alloc, store, op, a)?))
}

pub(crate) fn truth_of(store: &Store, a: &Value) -> Result<Answer, Fault> {
    if !is_sound(store, a) {
        return Err(Fault::Unsound);
    }
    Ok(told(truth(store, a)))
}

/// What an operator sees of a value.
pub(crate) fn operand(store: &Store, a: &Value) -> Result<Answer, Fault> {
    if !is_sound(store, a) {
        return Err(Fault::Unsound);
    }
    let seen = operand_of(store, a);
    Ok(Answer::Word(kind_of_operand(&seen)))
}

fn kind_of_operand(seen: &Operand<'_>) -> &'static str {
    match seen {
        Operand::Number(_) => "number",
        Operand::Truth(_) => "truth",
        Operand::Text(_) => "text",
        Operand::List(elements) if elements.lent => "lent list",
        Operand::List(_) => "list",
        Operand::Tuple(elements) if elements.lent => "lent tuple",
        Operand::Tuple(_) => "tuple",
        Operand::Other => "other",
    }
}

/// The elements that walking gives, as a list.
pub(crate) fn walk(world: &mut World, a: &Value) -> Result<Answer, Fault> {
    if !is_sound(&world.store, a) {
        return Err(Fault::Unsound);
    }
    let values = elements(world.alloc, &mut world.store, &mut world.meter, a)?;
    Ok(Answer::Value(world.add(Object::List(values))?))
}

/// Another list or tuple of the elements of one.
pub(crate) fn added(world: &mut World, kind: Sequence, a: &Value) -> Result<Answer, Fault> {
    let values = values_at(world.alloc, &world.store, place(a)?)?;
    let (store, side) = (&mut world.store, world.side);
    if !are_sound(store, &values) {
        return Err(Fault::Unsound);
    }
    Ok(Answer::Value(add_sequence(store, side, kind, values)?))
}

/// The elements of the list or tuple at a place.
pub(crate) fn values_at(alloc: Global, store: &Store, at: Oid) -> Result<Vec<Value>, Fault> {
    if at.0 >= store.len() {
        return Err(Fault::Unsound);
    }
    let mut values = Vec::new(alloc);
    for value in elements_at(store, at) {
        values.push(value.copy()?)?;
    }
    Ok(values)
}

/// A new list with nothing in it.
pub(crate) fn new_list(alloc: Global, store: &mut Store, side: Side) -> Result<Answer, Fault> {
    let list = Object::List(Vec::new(alloc));
    Ok(Answer::Value(new_object(store, side, list)?))
}

/// A new text of the first character of one.
pub(crate) fn character(alloc: Global, store: &mut Store, text: &str) -> Result<Answer, Fault> {
    match text.chars().next() {
        Some(letter) => Ok(Answer::Value(new_character(alloc, store, letter)?)),
        None => Err(Fault::Unread),
    }
}

/// Whether two values name one object, both plainly or both lent.
pub(crate) fn are_one(a: &Value, b: &Value) -> bool {
    match (a, b) {
        (Value::Ref(a), Value::Ref(b)) => *a == *b,
        (Value::Prox(a), Value::Prox(b)) => *a == *b,
        _ => false,
    }
}

/// A value within so many lists.
pub(crate) fn wrap(world: &mut World, count: u64, a: &Value) -> Result<Answer, Fault> {
    let mut value = a.copy()?;
    for _ in 0..count {
        let mut values = Vec::new(world.alloc);
        values.push(value)?;
        value = world.add(Object::List(values))?;
    }
    Ok(Answer::Value(value))
}

pub(crate) fn read_item(
    alloc: Global,
    store: &mut Store,
    a: &Value,
    i: &Value,
) -> Result<Answer, Fault> {
    if !is_sound(store, a) {
        return Err(Fault::Unsound);
    }
    Ok(Answer::Value(item(alloc, store, a, i)?))
}

pub(crate) fn store_item(
    alloc: Global,
    store: &mut Store,
    a: &Value,
    i: &Value,
    v: &Value,
) -> Result<Answer, Fault> {
    let v = v.copy()?;
    if !is_sound(store, a) || !is_sound(store, &v) {
        return Err(Fault::Unsound);
    }
    set_item(alloc, store, a, i, v)?;
    Ok(Answer::Word("done"))
}

pub(crate) fn delete_item(
    alloc: Global,
    store: &mut Store,
    a: &Value,
    i: &Value,
) -> Result<Answer, Fault> {
    if !is_sound(store, a) {
        return Err(Fault::Unsound);
    }
    del_item(alloc, store, a, i)?;
    Ok(Answer::Word("done"))
}

pub(crate) fn read_slice(
    alloc: Global,
    store: &mut Store,
    a: &Value,
    parts: (&Value, &Value, &Value),
) -> Result<Answer, Fault> {
    if !is_sound(store, a) {
        return Err(Fault::Unsound);
    }
    let parts = SliceParts {
        from: parts.0,
        to: parts.1,
        step: parts.2,
    };
    Ok(Answer::Value(slice(alloc, store, a, parts)?))
}

pub(crate) fn get(
    alloc: Global,
    store: &mut Store,
    names: &Names,
    side: Side,
    a: &Value,
    name: Name,
) -> Result<Answer, Fault> {
    if !is_sound(store, a) {
        return Err(Fault::Unsound);
    }
    Ok(Answer::Value(attribute(alloc, store, names, side, a, name)?))
}

pub(crate) fn give(
    alloc: Global,
    store: &mut Store,
    names: &Names,
    a: &Value,
    name: Name,
    v: &Value,
) -> Result<Answer, Fault> {
    let v = v.copy()?;
    if !is_sound(store, a) || !is_sound(store, &v) {
        return Err(Fault::Unsound);
    }
    set_attribute(alloc, store, names, a, name, v)?;
    Ok(Answer::Word("done"))
}

pub(crate) fn drop_attribute(
    alloc: Global,
    store: &mut Store,
    names: &Names,
    a: &Value,
    name: Name,
) -> Result<Answer, Fault> {
    if !is_sound(store, a) {
        return Err(Fault::Unsound);
    }
    del_attribute(alloc, store, names, a, name)?;
    Ok(Answer::Word("done"))
}
