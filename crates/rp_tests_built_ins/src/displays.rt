//! The values of displays, in parentheses and in brackets of other kinds.

use crate::world::{World, seed};
use rp_base::{Name, Value};
use rp_dict::Dict;
use rp_store::Object;
use rp_tests_parts::{Fault, entries_of};

/// The only value.
pub(crate) fn only(values: Vec<Value>) -> Result<Value, Fault> {
    let mut values = values;
    if values.len() != 1 {
        return Err(Fault::Unread);
    }
    match values.pop() {
        Some(value) => Ok(value),
        None => Err(Fault::Unread),
    }
}

/// The value in parentheses, a tuple where a comma stands in them or nothing.
pub(crate) fn in_parentheses(
    world: &mut World,
    values: Vec<Value>,
    has_comma: bool,
) -> Result<Value, Fault> {
    if values.is_empty() || has_comma {
        return world.add(Object::Tuple(values));
    }
    only(values)
}

/// A dict of keys and values in turn.
pub(crate) fn dict(world: &mut World, values: Vec<Value>) -> Result<Value, Fault> {
    let entries = entries_of(world.alloc, seed(), values)?;
    world.add(Object::Dict(entries))
}

/// An instance of a class without methods.
pub(crate) fn thing(world: &mut World, name: Name) -> Result<Value, Fault> {
    let class = world.add(Object::Class {
        name,
        declared: false,
        methods: Dict::new(world.alloc, seed()),
    })?;
    let Value::Ref(class) = class else {
        return Err(Fault::Unread);
    };
    world.add(Object::Instance {
        class,
        fields: Dict::new(world.alloc, seed()),
    })
}
