//! The calls that are tested, each where what it asks holds.

use crate::world::{OURS, World};
use rp_base::{Meter, Names, NativeId, Rock, Value};
use rp_methods::call_method;
use rp_native::{call_native, is_called_here, print_line};
use rp_store::Store;
use rp_tests_parts::{Fault, are_sound, is_sound};
use std::alloc::Global;

/// The value of an outermost call; of those that are statements the steps and cells are counted.
pub(crate) fn outermost(
    world: &mut World,
    receiver: Option<&Value>,
    id: NativeId,
    args: &[Value],
) -> Result<Value, Fault> {
    if !world.is_limited {
        return call(world, receiver, id, args);
    }
    world.begin();
    let result = call(world, receiver, id, args);
    world.end();
    result
}

/// The value of a call of a function, or of a method of the receiver.
pub(crate) fn call(
    world: &mut World,
    receiver: Option<&Value>,
    id: NativeId,
    args: &[Value],
) -> Result<Value, Fault> {
    let alloc = world.alloc;
    let (store, meter, names) = (&mut world.store, &mut world.meter, &world.names);
    if let Some(receiver) = receiver {
        return method(alloc, store, meter, names, receiver, id, args);
    }
    if id == NativeId::Print {
        return printed(alloc, store, meter, names, args);
    }
    function(alloc, store, meter, names, id, args)
}

fn function(
    alloc: Global,
    store: &mut Store,
    meter: &mut Meter,
    names: &Names,
    id: NativeId,
    args: &[Value],
) -> Result<Value, Fault> {
    if !is_called_here(id) || !are_sound(store, args) {
        return Err(Fault::Unsound);
    }
    Ok(call_native(alloc, store, meter, names, OURS, id, args)?)
}

fn method(
    alloc: Global,
    store: &mut Store,
    meter: &mut Meter,
    names: &Names,
    receiver: &Value,
    id: NativeId,
    args: &[Value],
) -> Result<Value, Fault> {
    if !is_sound(store, receiver) || !are_sound(store, args) {
        return Err(Fault::Unsound);
    }
    Ok(call_method(alloc, store, meter, names, OURS, receiver, id, args)?)
}

/// The line of `print`, as a text.
fn printed(
    alloc: Global,
    store: &mut Store,
    meter: &mut Meter,
    names: &Names,
    args: &[Value],
) -> Result<Value, Fault> {
    let line = print_line(alloc, store, meter, names, args)?;
    Ok(Value::Rock(Rock::Text(line)))
}
