//! The calls that cases name by a word, by the number of their operands.

use crate::answers::Answer;
use crate::live::live;
use crate::words::refusal_of;
use crate::world::World;
use crate::{ops_calls as ops, store_calls as stored};
use rp_base::{Name, Oid, Rock, Side, UnOp, Value};
use rp_compare::equal;
use rp_ops::{Sequence, charge, charge_copies, handed, new_text, raised, step, steps};
use rp_show::{show, shown_inside};
use rp_store::{Store, key_of};
use rp_tests_parts::Fault;
use std::alloc::Global;

const CALLS: [&str; 66] = [
    "step",
    "objects",
    "used",
    "limit",
    "is_empty",
    "charged",
    "new_list",
    "cells",
    "steps",
    "side",
    "take",
    "use",
    "charge",
    "hold",
    "neg",
    "pos",
    "invert",
    "truth",
    "walk",
    "operand",
    "add_list",
    "add_tuple",
    "handed",
    "handed_lent",
    "new_text",
    "new_character",
    "refuse",
    "show",
    "inside",
    "owner",
    "tag",
    "key",
    "clear_methods",
    "raise",
    "equal",
    "same",
    "wrap",
    "item",
    "delete",
    "get",
    "drop",
    "entry",
    "field",
    "method",
    "push",
    "extend",
    "elements",
    "remove_at",
    "drop_key",
    "drop_field",
    "copies",
    "set",
    "give",
    "insert",
    "set_at",
    "put",
    "set_field",
    "set_method",
    "set_methods",
    "method_of",
    "class_of",
    "element",
    "len_of",
    "seek",
    "slice",
    "live",
];

/// Whether a word names a call.
pub(crate) fn is_call(verb: &str) -> bool {
    CALLS.contains(&verb)
}

/// What the call of this word answers.
pub(crate) fn called(world: &mut World, verb: &str, values: &[Value]) -> Result<Answer, Fault> {
    match values.len() {
        0 => of_none(world, verb),
        1 => of_one(world, verb, &values[0]),
        2 => of_two(world, verb, &values[0], &values[1]),
        3 => of_three(world, verb, &values[0], &values[1], &values[2]),
        4 => {
            let parts = (&values[1], &values[2], &values[3]);
            ops::read_slice(world.alloc, &mut world.store, &values[0], parts)
        }
        _ => Err(Fault::Unread),
    }
}

fn of_none(world: &mut World, verb: &str) -> Result<Answer, Fault> {
    match verb {
        "objects" => Ok(Answer::Count(world.store.len() as u64)),
        "used" => Ok(Answer::Count(world.store.used())),
        "limit" => Ok(Answer::Count(world.store.limit())),
        "is_empty" => Ok(told(world.store.is_empty())),
        "new_list" => ops::new_list(world.alloc, &mut world.store, world.side),
        "step" => {
            step(&mut world.meter)?;
            Ok(Answer::Word("done"))
        }
        "charged" => {
            world.charges = true;
            Ok(Answer::Nothing)
        }
        _ => Err(Fault::Unread),
    }
}

pub(crate) fn told(truth: bool) -> Answer {
    Answer::Value(Value::Rock(Rock::Truth(truth)))
}

/// The number from 0 that a value is.
fn count(value: &Value) -> Result<u64, Fault> {
    match value {
        Value::Rock(Rock::Int(n)) if *n >= 0 => Ok(*n as u64),
        Value::Rock(Rock::Text(text)) => text.as_str().parse::<u64>().or(Err(Fault::Unread)),
        _ => Err(Fault::Unread),
    }
}

/// The word that a value is.
pub(crate) fn word(value: &Value) -> Result<&str, Fault> {
    match value {
        Value::Rock(Rock::Text(text)) => Ok(text.as_str()),
        Value::Rock(Rock::Native(id)) => Ok(id.as_str()),
        _ => Err(Fault::Unread),
    }
}

/// The place of the object that a value names.
pub(crate) fn place(value: &Value) -> Result<Oid, Fault> {
    match value {
        Value::Ref(at) => Ok(*at),
        Value::Prox(at) => Ok(*at),
        Value::Rock(_) => Err(Fault::Unread),
    }
}

fn of_one(world: &mut World, verb: &str, a: &Value) -> Result<Answer, Fault> {
    if let Some(answer) = setting(world, verb, a)? {
        return Ok(answer);
    }
    if let Some(answer) = cost(world, verb, a)? {
        return Ok(answer);
    }
    if let Some(op) = unary_of(verb) {
        return ops::on_one(world.alloc, &world.store, op, a);
    }
    match verb {
        "truth" => ops::truth_of(&world.store, a),
        "operand" => ops::operand(&world.store, a),
        "walk" => ops::walk(world, a),
        "add_list" => ops::added(world, Sequence::List, a),
        "add_tuple" => ops::added(world, Sequence::Tuple, a),
        "handed" => handed_on(a, false),
        "handed_lent" => handed_on(a, true),
        _ => told_of(world, verb, a),
    }
}

fn unary_of(verb: &str) -> Option<UnOp> {
    match verb {
        "neg" => Some(UnOp::Neg),
        "pos" => Some(UnOp::Pos),
        "invert" => Some(UnOp::Invert),
        _ => None,
    }
}

fn handed_on(a: &Value, is_lent: bool) -> Result<Answer, Fault> {
    Ok(Answer::Value(handed(a, is_lent)?))
}

/// Sets the cells and steps that there are, or the side.
fn setting(world: &mut World, verb: &str, a: &Value) -> Result<Option<Answer>, Fault> {
    match verb {
        "cells" => world.store.restart(count(a)?),
        "steps" => world.set_steps(count(a)?),
        "side" => world.side = Side((count(a)? & 0xFFFF) as u32),
        _ => return Ok(None),
    }
    Ok(Some(Answer::Nothing))
}

/// Takes steps or cells, or counts a text that costs none.
fn cost(world: &mut World, verb: &str, a: &Value) -> Result<Option<Answer>, Fault> {
    match verb {
        "take" => steps(&mut world.meter, (count(a)? & 0xFFFF) as usize)?,
        "use" => charge(&mut world.store, count(a)?)?,
        "charge" => world.store.charge(count(a)?)?,
        "hold" => world.store.hold_text((count(a)? & 0xFFFF_FFFF) as usize)?,
        _ => return Ok(None),
    }
    Ok(Some(Answer::Word("done")))
}

fn told_of(world: &mut World, verb: &str, a: &Value) -> Result<Answer, Fault> {
    match verb {
        "show" => shown(world, a),
        "inside" => inside(world.alloc, a),
        "key" => key(a),
        "new_text" | "new_character" | "refuse" => of_word(world, verb, word(a)?),
        _ => of_place(&mut world.store, verb, place(a)?),
    }
}

fn shown(world: &mut World, a: &Value) -> Result<Answer, Fault> {
    let (store, meter) = (&mut world.store, &mut world.meter);
    Ok(Answer::Shown(show(world.alloc, store, meter, &world.names, a)?))
}

fn inside(alloc: Global, a: &Value) -> Result<Answer, Fault> {
    match a {
        Value::Rock(rock) => Ok(Answer::Shown(shown_inside(alloc, rock)?)),
        _ => Err(Fault::Unread),
    }
}

/// The calls on a word.
fn of_word(world: &mut World, verb: &str, word: &str) -> Result<Answer, Fault> {
    let (alloc, store) = (world.alloc, &mut world.store);
    match verb {
        "new_text" => Ok(Answer::Value(new_text(alloc, store, word)?)),
        "new_character" => ops::character(alloc, store, word),
        _ => refused(alloc, word),
    }
}

fn refused(alloc: Global, word: &str) -> Result<Answer, Fault> {
    match refusal_of(word) {
        Some(refusal) => Err(Fault::End(refusal.end(alloc))),
        None => Err(Fault::Unread),
    }
}

/// The calls on an object.
fn of_place(store: &mut Store, verb: &str, at: Oid) -> Result<Answer, Fault> {
    match verb {
        "owner" => stored::owner(store, at),
        "tag" => stored::tag(store, at),
        "class_of" => stored::class_of(store, at),
        "len_of" => stored::len_of(store, at),
        "clear_methods" => stored::clear_methods(store, at),
        _ => Err(Fault::Unread),
    }
}

/// The key form of a rock.
fn key(a: &Value) -> Result<Answer, Fault> {
    match a {
        Value::Rock(rock) => Ok(stored::key_told(key_of(rock)?)),
        _ => Err(Fault::Unread),
    }
}

fn of_two(world: &mut World, verb: &str, a: &Value, b: &Value) -> Result<Answer, Fault> {
    if let Some(answer) = on_attribute(world, verb, a, b)? {
        return Ok(answer);
    }
    let (alloc, store) = (world.alloc, &mut world.store);
    match verb {
        "equal" => Ok(told(equal(alloc, store, &mut world.meter, a, b)?)),
        "same" => Ok(told(ops::are_one(a, b))),
        "wrap" => ops::wrap(world, count(a)?, b),
        "item" => ops::read_item(alloc, store, a, b),
        "delete" => ops::delete_item(alloc, store, a, b),
        _ => on_place(alloc, store, verb, place(a)?, b),
    }
}

/// The calls on an object and a value.
fn on_place(
    alloc: Global,
    store: &mut Store,
    verb: &str,
    at: Oid,
    b: &Value,
) -> Result<Answer, Fault> {
    match verb {
        "entry" => stored::entry(store, at, b),
        "push" => stored::push(store, at, b),
        "drop_key" => stored::drop_key(store, at, b),
        "element" | "remove_at" | "seek" => on_index(store, verb, at, index(b)?),
        _ => on_two_places(alloc, store, verb, at, place(b)?),
    }
}

/// The place in a list that a value is.
fn index(value: &Value) -> Result<usize, Fault> {
    Ok((count(value)? & 0xFFFF) as usize)
}

/// The calls on an object and a place in it.
fn on_index(store: &mut Store, verb: &str, at: Oid, i: usize) -> Result<Answer, Fault> {
    match verb {
        "element" => stored::element(store, at, i),
        "remove_at" => stored::remove_at(store, at, i),
        _ => stored::seek(store, at, i),
    }
}

/// The calls on two objects.
fn on_two_places(
    alloc: Global,
    store: &mut Store,
    verb: &str,
    at: Oid,
    from: Oid,
) -> Result<Answer, Fault> {
    match verb {
        "extend" => stored::extend(alloc, store, at, from),
        "elements" => stored::set_elements(alloc, store, at, from),
        "set_methods" => stored::set_methods(alloc, store, at, from),
        _ => Err(Fault::Unread),
    }
}

/// The calls that name a kind, an attribute, a field or a method.
fn on_attribute(
    world: &mut World,
    verb: &str,
    a: &Value,
    b: &Value,
) -> Result<Option<Answer>, Fault> {
    if verb == "raise" {
        return raise(world, a, b);
    }
    if !matches!(
        verb,
        "get" | "drop" | "field" | "method" | "method_of" | "drop_field"
    ) {
        return Ok(None);
    }
    let name = world.name(word(b)?)?;
    Ok(Some(of_name(world, verb, a, name)?))
}

fn of_name(world: &mut World, verb: &str, a: &Value, name: Name) -> Result<Answer, Fault> {
    let (alloc, store) = (world.alloc, &mut world.store);
    match verb {
        "get" => ops::get(alloc, store, &world.names, world.side, a, name),
        "drop" => ops::drop_attribute(alloc, store, &world.names, a, name),
        _ => of_part(store, verb, place(a)?, name),
    }
}

/// The calls on an object and the name of a field or method.
fn of_part(store: &mut Store, verb: &str, at: Oid, name: Name) -> Result<Answer, Fault> {
    match verb {
        "field" => stored::field(store, at, name),
        "method_of" => stored::method_of(store, at, name),
        "method" => stored::method(store, at, name),
        _ => stored::drop_field(store, at, name),
    }
}

/// Raises an exception of a kind with a text.
fn raise(world: &World, kind: &Value, text: &Value) -> Result<Option<Answer>, Fault> {
    match kind {
        Value::Rock(Rock::Kind(kind)) => {
            Err(Fault::End(raised(world.alloc, *kind, word(text)?)))
        }
        _ => Err(Fault::Unread),
    }
}

fn of_three(
    world: &mut World,
    verb: &str,
    a: &Value,
    b: &Value,
    c: &Value,
) -> Result<Answer, Fault> {
    match verb {
        "live" => live(world, a, place(b)?, c),
        "copies" => copied(&mut world.store, count(a)?, count(b)?, count(c)?),
        "set" => ops::store_item(world.alloc, &mut world.store, a, b, c),
        "put" => stored::put(&mut world.store, place(a)?, b, c),
        "insert" => stored::insert(&mut world.store, place(a)?, index(b)?, c),
        "set_at" => stored::set_at(&mut world.store, place(a)?, index(b)?, c),
        "give" | "set_field" | "set_method" => named(world, verb, a, word(b)?, c),
        _ => Err(Fault::Unread),
    }
}

fn copied(store: &mut Store, a: u64, b: u64, c: u64) -> Result<Answer, Fault> {
    charge_copies(store, a, b, c)?;
    Ok(Answer::Word("done"))
}

/// The calls that give an attribute, a field or a method.
fn named(world: &mut World, verb: &str, a: &Value, word: &str, c: &Value) -> Result<Answer, Fault> {
    let name = world.name(word)?;
    let store = &mut world.store;
    match verb {
        "give" => ops::give(world.alloc, store, &world.names, a, name, c),
        "set_field" => stored::set_field(store, place(a)?, name, c),
        _ => stored::set_method(store, place(a)?, name, place(c)?),
    }
}
