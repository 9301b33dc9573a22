//! Membership of values.
ghost use Rattle.std.specs.Prelude.{◌≡◌, ◌≤◌, is_some};
ghost use Rattle.rp_compare.specs.Membership.{contains, content_contains, found_in, is_text_part, object_contains};
ghost use Rattle.rp_compare.specs.Membership.{rock_contains};
ghost use Rattle.rp_ops.specs.Keys.{entry_in, key_named};
ghost use Rattle.rp_ops.specs.Outcome.{Meets, State, gives, on_found, state_of};
ghost use Rattle.rp_store.specs.Object.{content_of};

use crate::equality::equal;
use rp_base::{Meter, Oid, OpEnd, Rock, Text, Value};
use rp_dict::Dict;
use rp_ops::{Refusal, step};
use rp_store::{Key, Object, Store, key_of};
use std::alloc::Global;

/// `a in of` (Python Language Reference, Membership test operations): in a list or a tuple by equality, where each
/// element takes a step, up to the first that is equal; in a dict by key; in a text as a part of it. No answer gives a
/// step back. An instance whose class has `__contains__` is for the caller to ask: this raises `operand` for each
/// instance.
///
/// # Errors
/// - `Raised` with `TypeError` and the text `operand`, where the second value is no list, tuple, dict or text, or is a
///   text and the first is none; or with the text `key`, where it is a dict, be it empty, and the first can be no key.
/// - `Raised` with `RecursionError` and the text `depth`, where `equal` raises it of the first value and an element,
///   which are at depth 1.
/// - `StopSteps` where no step is left.
/// - `Memory` where a growth was refused.
pub fn contains(
    alloc: Global,
    store: &Store,
    meter: &mut Meter,
    a: &Value,
    of: &Value,
) -> Result<bool, OpEnd>
    ensures plain { Meets result (state_of store.now meter.new.left)
        (contains a.now of.now (state_of store.now meter.old.left)) }
    ensures fewer { meter.new.left ≤ meter.old.left }
{
    match of {
        Value::Rock(rock) => rock_contains(alloc, rock, a),
        Value::Ref(at) => object_contains(alloc, store, meter, *at, a),
        Value::Prox(at) => object_contains(alloc, store, meter, *at, a),
    }
}

fn rock_contains(alloc: Global, rock: &Rock, a: &Value) -> Result<bool, OpEnd>
    ensures { (s : State) → Meets result s (rock_contains rock.now a.now s) }
{
    match (rock, a) {
        (Rock::Text(text), Value::Rock(Rock::Text(part))) => Ok(has_part(text, part)),
        _ => Err(Refusal::Operand.end(alloc)),
    }
}

fn has_part(text: &Text, part: &Text) -> bool
    ensures { result ≡ is_text_part part.now text.now }
{
    text.as_str().contains(part.as_str())
}

fn object_contains(
    alloc: Global,
    store: &Store,
    meter: &mut Meter,
    at: Oid,
    a: &Value,
) -> Result<bool, OpEnd>
    ensures plain { Meets result (state_of store.now meter.new.left)
        (object_contains at a.now (state_of store.now meter.old.left)) }
    ensures fewer { meter.new.left ≤ meter.old.left }
{
    match store.get(at) {
        Some(object) => content_contains(alloc, store, meter, object, a),
        None => Err(Refusal::Operand.end(alloc)),
    }
}

fn content_contains(
    alloc: Global,
    store: &Store,
    meter: &mut Meter,
    object: &Object,
    a: &Value,
) -> Result<bool, OpEnd>
    ensures plain { Meets result (state_of store.now meter.new.left)
        (content_contains (content_of object.now) a.now (state_of store.now meter.old.left)) }
    ensures fewer { meter.new.left ≤ meter.old.left }
{
    match object {
        Object::List(elements) => is_among(alloc, store, meter, a, elements),
        Object::Tuple(elements) => is_among(alloc, store, meter, a, elements),
        Object::Dict(entries) => has_key(alloc, entries, a),
        _ => Err(Refusal::Operand.end(alloc)),
    }
}

/// Whether a value is equal to one of the elements.
fn is_among(
    alloc: Global,
    store: &Store,
    meter: &mut Meter,
    a: &Value,
    elements: &[Value],
) -> Result<bool, OpEnd>
    ensures plain { Meets result (state_of store.now meter.new.left)
        (found_in a.now elements.now (state_of store.now meter.old.left)) }
    ensures fewer { meter.new.left ≤ meter.old.left }
{
    for element in elements {
        step(meter)?;
        if equal(alloc, store, meter, a, element)? {
            return Ok(true);
        }
    }
    Ok(false)
}

/// Whether a dict has a value as a key.
fn has_key(alloc: Global, entries: &Dict<Key, (Rock, Value)>, a: &Value) -> Result<bool, OpEnd>
    ensures { (s : State) → Meets result s
        (on_found (key_named a.now) s (λ r s. gives (is_some (entry_in entries.now r)) s)) }
{
    let Value::Rock(rock) = a else {
        return Err(Refusal::Key.end(alloc));
    };
    match key_of(rock)? {
        Some(key) => Ok(entries.get(&key).is_some()),
        None => Err(Refusal::Key.end(alloc)),
    }
}
