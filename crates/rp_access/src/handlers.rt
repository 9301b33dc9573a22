//! Which exceptions a handler takes (Python Language Reference, The try statement).

ghost use Rattle.std.specs.Prelude.{◌≡◌, [], option_map};
ghost use Rattle.std.specs.List.{list_any};
ghost use Rattle.std.specs.Option.{option_and_then};
ghost use Rattle.rp_base.specs.Kind.{is_under};
ghost use Rattle.rp_meaning.specs.Exceptions.{kind_of, kinds_named, kinds_of, matches, tuple_kinds};
ghost use Rattle.rp_store.specs.Heap.{IsHeld, content_at};
ghost use Rattle.rp_store.specs.Kept.{IsSound};
ghost use Rattle.rp_access.specs.Comes.{Comes};
ghost use Rattle.rp_access.specs.Moment.{state_of};

use rp_base::{Kind, Oid, OpEnd, Raised, Rock, Value, is_kind};
use rp_ops::raised;
use rp_proxy::World;
use rp_store::{Object, Store};
use std::alloc::Global;

/// Whether the value in `except` names a kind that an exception is under. It is a kind, or a tuple of kinds. Nothing is
/// decided.
///
/// # Errors
/// - `Raised` with `TypeError` and the text `except`, where it is neither.
/// - `Memory` where a growth was refused.
pub fn matches(alloc: Global, world: &World, value: &Value, thrown: &Raised) -> Result<bool, OpEnd>
    requires { IsSound world.now.store.heap value.now }
    ensures { Comes result (state_of world.now) (matches value.now thrown.now (state_of world.now)) }
{
    match names_above(&world.store, value, thrown.kind) {
        Some(takes) => Ok(takes),
        None => Err(raised(alloc, Kind::TypeError, "except")),
    }
}

/// Whether a kind is under one of those that a value names; None where it names none.
fn names_above(store: &Store, value: &Value, kind: Kind) -> Option<bool>
    requires { IsSound store.now.heap value.now }
    ensures { result ≡ option_map (list_any (is_under kind)) (kinds_named store.now.heap value.now) }
{
    match value {
        Value::Rock(rock) => rock_above(rock, kind),
        Value::Ref(at) => tuple_above(store, *at, kind),
        Value::Prox(_) => None,
    }
}

fn rock_above(rock: &Rock, kind: Kind) -> Option<bool>
    ensures { result ≡ option_map (list_any (is_under kind)) (kinds_named [] (Value.Rock rock.now)) }
{
    match rock {
        Rock::Kind(above) => Some(is_kind(kind, *above)),
        Rock::Nil
        | Rock::Truth(_)
        | Rock::Int(_)
        | Rock::Text(_)
        | Rock::Exc(_, _)
        | Rock::Native(_) => None,
    }
}

fn tuple_above(store: &Store, at: Oid, kind: Kind) -> Option<bool>
    requires { IsHeld store.now.heap at }
    ensures { result
        ≡ option_map (list_any (is_under kind)) (option_and_then tuple_kinds (content_at store.now.heap at)) }
{
    match store.object(at) {
        Object::Tuple(values) => one_above(values, kind),
        Object::List(_)
        | Object::Dict(_)
        | Object::Instance { .. }
        | Object::Class { .. }
        | Object::Function { .. }
        | Object::Method { .. }
        | Object::Scope { .. } => None,
    }
}

/// Whether a kind is under one of some values; None where one of them is no kind.
fn one_above(values: &[Value], kind: Kind) -> Option<bool>
    ensures { result ≡ option_map (list_any (is_under kind)) (kinds_of values.now) }
{
    let mut found = false;
    for value in values {
        let above = kind_of(value)?;
        found = found || is_kind(kind, above);
    }
    Some(found)
}

/// The kind that a value is.
fn kind_of(value: &Value) -> Option<Kind>
    ensures { result ≡ kind_of value.now }
{
    match value {
        Value::Rock(Rock::Kind(kind)) => Some(*kind),
        _ => None,
    }
}
