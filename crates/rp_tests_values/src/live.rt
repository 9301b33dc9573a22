//! Walks one element at a time, while what is walked grows.
ghost use Rattle.std.specs.Prelude.{OnOk};
ghost use Rattle.rp_ops.specs.Walk.{IsWalkHeld};
ghost use Rattle.rp_store.specs.Shape.{KeepsShape};

use crate::answers::Answer;
use crate::world::World;
use rp_base::{Meter, Oid, Rock, Value};
use rp_ops::{Cursor, walk_of};
use rp_store::{Object, Store};
use rp_tests_parts::{Fault, is_dict, is_list, is_sound};
use std::alloc::Global;

/// Walks a value; behind the first element a list or a dict gets a value, by 7. The elements, as a list.
pub(crate) fn live(world: &mut World, a: &Value, at: Oid, v: &Value) -> Result<Answer, Fault> {
    let mut values = Vec::new(world.alloc);
    let (store, meter) = (&mut world.store, &mut world.meter);
    walk_while(world.alloc, store, meter, (a, at, v.copy()?), &mut values)?;
    Ok(Answer::Value(world.add(Object::List(values))?))
}

fn walk_while(
    alloc: Global,
    store: &mut Store,
    meter: &mut Meter,
    growth: (&Value, Oid, Value),
    values: &mut Vec<Value>,
) -> Result<(), Fault> {
    let (a, at, value) = growth;
    if !is_sound(store, a) {
        return Err(Fault::Unsound);
    }
    let mut cursor = walk_of(alloc, store, a)?;
    if let Some(first) = cursor.next(alloc, store, meter)? {
        values.push(first)?;
    }
    grow(store, at, value)?;
    rest(alloc, store, meter, cursor, values)
}

/// Puts a value at the end of a list, or into a dict by the key 7.
fn grow(store: &mut Store, at: Oid, value: Value) -> Result<(), Fault>
    ensures { OnOk result (KeepsShape store.old.heap store.new.heap) }
{
    if at.0 >= store.len() || !is_sound(store, &value) {
        return Err(Fault::Unsound);
    }
    if is_list(store, at) {
        store.push(at, value)?;
        return Ok(());
    }
    if is_dict(store, at) {
        store.put(at, Rock::Int(7), value)?;
        return Ok(());
    }
    Err(Fault::Unsound)
}

/// Takes what is left of a walk.
fn rest(
    alloc: Global,
    store: &mut Store,
    meter: &mut Meter,
    cursor: Cursor,
    values: &mut Vec<Value>,
) -> Result<(), Fault>
    requires { IsWalkHeld store.old.heap cursor }
{
    let mut cursor = cursor;
    for _ in 0..100 {
        match cursor.next(alloc, store, meter)? {
            Some(value) => values.push(value)?,
            None => return Ok(()),
        }
    }
    Ok(())
}
