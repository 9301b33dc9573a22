//! What stands at a place of the store.

ghost use Rattle.std.specs.Prelude.{◌≡◌, IsTrue, false};
ghost use Rattle.rp_store.specs.Kept.{IsSound};
ghost use Rattle.rp_store.specs.Object.{content_of};
ghost use Rattle.rp_store.specs.Parts.{IsScope};
ghost use Rattle.rp_engine.specs.ComprehensionSteps.{HasNoItems, place_at};

use rp_base::{Oid, Value};
use rp_store::{Object, Store};

/// Whether an object stands at a place that is no scope. Nothing else has items.
pub fn is_value(store: &Store, at: Oid) -> bool
    ensures sound { IsTrue result → IsSound store.now.heap (Value.Ref at) }
    ensures other { result ≡ false → HasNoItems store.now.heap at }
{
    match store.get(at) {
        Some(object) => is_no_scope(object),
        None => false,
    }
}

fn is_no_scope(object: &Object) -> bool
    ensures value { IsTrue result → ¬ IsScope (content_of object.now) }
    ensures scope { result ≡ false → IsScope (content_of object.now) }
{
    match object {
        Object::List(_)
        | Object::Tuple(_)
        | Object::Dict(_)
        | Object::Instance { .. }
        | Object::Class { .. }
        | Object::Function { .. }
        | Object::Method { .. } => true,
        Object::Scope { .. } => false,
    }
}

/// The place of a value that is a plain reference.
pub fn place_at(value: &Value) -> Oid
    ensures { result ≡ place_at value.now }
{
    match value {
        Value::Ref(at) => *at,
        Value::Rock(_) => Oid(0),
        Value::Prox(_) => Oid(0),
    }
}
