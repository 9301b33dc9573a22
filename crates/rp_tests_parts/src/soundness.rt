//! Whether what is given to a call of the store is sound, each test with what a call asks as its clause.
ghost use Rattle.std.specs.Prelude.{◌≡◌, ◌<◌, IsSome, IsSomeAnd, IsTrue, Some, option_map};
ghost use Rattle.std.specs.List.{All};
ghost use Rattle.std.specs.Map.Iter.{deref_pair};
ghost use Rattle.rp_store.specs.Heap.{Names as IsAt};
ghost use Rattle.rp_store.specs.Key.{key_form};
ghost use Rattle.rp_store.specs.Kept.{AreSound, Holds, IsCallee, IsEntry, IsReceiver, IsScopeOf, IsSound};
ghost use Rattle.rp_store.specs.Object.{content_of};
ghost use Rattle.rp_store.specs.Parts.{IsClass, IsDict, IsFunction, IsInstance, IsList, IsScope};

use rp_base::{Name, Oid, Rock, Side, Text, Value};
use rp_dict::Dict;
use rp_store::{Callee, Key, Object, Store};

/// Whether an object of a side may hold what it holds.
pub fn is_held(store: &Store, side: Side, object: &Object) -> bool
    ensures { IsTrue result → Holds store.now.heap side (content_of object.now) }
{
    match object {
        Object::List(elements) => are_sound(store, elements),
        Object::Tuple(elements) => are_sound(store, elements),
        Object::Dict(entries) => are_entries(store, entries),
        Object::Instance { class, fields } => is_instance_held(store, *class, fields),
        Object::Class { methods, .. } => are_methods(store, methods),
        Object::Function {
            unit,
            scope,
            defaults,
            ..
        } => *unit == side && is_scope_of(store, side, *scope) && are_sound(store, defaults),
        Object::Method { receiver, callee } => is_bound(store, side, receiver, callee),
        Object::Scope { .. } => false,
    }
}

fn is_instance_held(store: &Store, class: Oid, fields: &Dict<Name, Value>) -> bool
    ensures class { IsTrue result → IsAt store.now.heap IsClass class }
    ensures fields { IsTrue result → All (λ field. IsSound store.now.heap field.1) fields.now }
{
    if !is_class(store, class) {
        return false;
    }
    are_fields(store, fields)
}

fn is_bound(store: &Store, side: Side, receiver: &Value, callee: &Callee) -> bool
    ensures sound { IsTrue result → IsSound store.now.heap receiver.now }
    ensures receiver { IsTrue result → IsReceiver store.now.heap side receiver.now }
    ensures callee { IsTrue result → IsCallee store.now.heap callee.now }
{
    is_sound(store, receiver) && is_receiver(store, side, receiver) && is_callee(store, callee)
}

/// Whether each value names no object, or one of the store that is no scope.
pub fn are_sound(store: &Store, values: &[Value]) -> bool
    ensures { IsTrue result → AreSound store.now.heap values.now }
{
    for value in values {
        if !is_sound(store, value) {
            return false;
        }
    }
    true
}

/// Whether each value that a name has names no object, or one of the store that is no scope.
pub fn are_named_sound(store: &Store, named: &[(Text, Value)]) -> bool
    ensures { IsTrue result → All (λ g. IsSound store.now.heap g.1) named.now }
{
    for (_, value) in named {
        if !is_sound(store, value) {
            return false;
        }
    }
    true
}

fn are_entries(store: &Store, entries: &Dict<Key, (Rock, Value)>) -> bool
    ensures { IsTrue result → All (IsEntry store.now.heap) entries.now }
{
    for i in 0..entries.len() {
        if !is_entry(store, entries.at(i)) {
            return false;
        }
    }
    true
}

fn is_entry(store: &Store, pair: Option<(&Key, &(Rock, Value))>) -> bool
    ensures { IsTrue result → IsSomeAnd (option_map deref_pair pair.entry) (IsEntry store.now.heap) }
{
    match pair {
        Some((key, (rock, value))) => is_form(key, rock) && is_sound(store, value),
        None => false,
    }
}

fn is_form(key: &Key, rock: &Rock) -> bool
    ensures { IsTrue result → key_form rock.now ≡ Some key.now }
{
    match (key, rock) {
        (Key::Nil, Rock::Nil) => true,
        (Key::Number(m), Rock::Int(n)) => *m == *n,
        (Key::Number(m), Rock::Truth(truth)) => *m == *truth as i64,
        (Key::Text(key), Rock::Text(text)) => key.is(text.as_str()),
        _ => false,
    }
}

fn are_fields(store: &Store, fields: &Dict<Name, Value>) -> bool
    ensures { IsTrue result → All (λ field. IsSound store.now.heap field.1) fields.now }
{
    for i in 0..fields.len() {
        if !is_field(store, fields.at(i)) {
            return false;
        }
    }
    true
}

fn is_field(store: &Store, pair: Option<(&Name, &Value)>) -> bool
    ensures { IsTrue result → IsSomeAnd (option_map deref_pair pair.entry) (λ field. IsSound store.now.heap field.1) }
{
    match pair {
        Some((_, value)) => is_sound(store, value),
        None => false,
    }
}

/// Whether each name has a function of the store.
pub fn are_methods(store: &Store, methods: &Dict<Name, Oid>) -> bool
    ensures { IsTrue result → All (λ m. IsAt store.now.heap IsFunction m.1) methods.now }
{
    for i in 0..methods.len() {
        if !is_method(store, methods.at(i)) {
            return false;
        }
    }
    true
}

fn is_method(store: &Store, pair: Option<(&Name, &Oid)>) -> bool
    ensures { IsTrue result → IsSomeAnd (option_map deref_pair pair.entry) (λ m. IsAt store.now.heap IsFunction m.1) }
{
    match pair {
        Some((_, function)) => is_function(store, *function),
        None => false,
    }
}

/// Whether a value names no object, or one of the store that is no scope.
pub fn is_sound(store: &Store, value: &Value) -> bool
    ensures { IsTrue result → IsSound store.now.heap value.now }
{
    match value {
        Value::Rock(_) => true,
        Value::Ref(at) => is_plain(store, *at),
        Value::Prox(at) => is_plain(store, *at),
    }
}

/// Whether there is an object at a place that is no scope.
fn is_plain(store: &Store, at: Oid) -> bool
    ensures plain { IsTrue result → IsSound store.now.heap (Value.Ref at) }
    ensures lent { IsTrue result → IsSound store.now.heap (Value.Prox at) }
{
    if at.0 >= store.len() {
        return false;
    }
    match store.object(at) {
        Object::Scope { .. } => false,
        Object::List(_) | Object::Tuple(_) | Object::Dict(_) => true,
        Object::Instance { .. } | Object::Class { .. } => true,
        Object::Function { .. } | Object::Method { .. } => true,
    }
}

/// Whether a rock can be a key.
pub fn is_key(rock: &Rock) -> bool
    ensures { IsTrue result → IsSome (key_form rock.now) }
{
    match rock {
        Rock::Nil | Rock::Truth(_) | Rock::Int(_) | Rock::Text(_) => true,
        Rock::Exc(..) | Rock::Kind(_) | Rock::Native(_) => false,
    }
}

fn is_receiver(store: &Store, side: Side, value: &Value) -> bool
    ensures { IsTrue result → IsReceiver store.now.heap side value.now }
{
    match value {
        Value::Rock(_) => true,
        Value::Ref(at) => at.0 < store.len() && store.owner(*at) == side,
        Value::Prox(_) => false,
    }
}

fn is_callee(store: &Store, callee: &Callee) -> bool
    ensures { IsTrue result → IsCallee store.now.heap callee.now }
{
    match callee {
        Callee::Function(at) => is_function(store, *at),
        Callee::Native(_) => true,
    }
}

/// Whether there is a function at a place.
pub fn is_function(store: &Store, at: Oid) -> bool
    ensures { IsTrue result → IsAt store.now.heap IsFunction at }
{
    at.0 < store.len() && matches!(store.object(at), Object::Function { .. })
}

/// Whether there is a class at a place.
pub fn is_class(store: &Store, at: Oid) -> bool
    ensures { IsTrue result → IsAt store.now.heap IsClass at }
{
    at.0 < store.len() && matches!(store.object(at), Object::Class { .. })
}

/// Whether there is a list at a place.
pub fn is_list(store: &Store, at: Oid) -> bool
    ensures { IsTrue result → IsAt store.now.heap IsList at }
{
    at.0 < store.len() && matches!(store.object(at), Object::List(_))
}

/// Whether there is a dict at a place.
pub fn is_dict(store: &Store, at: Oid) -> bool
    ensures { IsTrue result → IsAt store.now.heap IsDict at }
{
    at.0 < store.len() && matches!(store.object(at), Object::Dict(_))
}

/// Whether there is an instance at a place.
pub fn is_instance(store: &Store, at: Oid) -> bool
    ensures { IsTrue result → IsAt store.now.heap IsInstance at }
{
    at.0 < store.len() && matches!(store.object(at), Object::Instance { .. })
}

fn is_scope(store: &Store, at: Oid) -> bool
    ensures { IsTrue result → IsAt store.now.heap IsScope at }
{
    at.0 < store.len() && matches!(store.object(at), Object::Scope { .. })
}

fn is_scope_of(store: &Store, side: Side, at: Oid) -> bool
    ensures { IsTrue result → IsScopeOf store.now.heap side at }
{
    is_scope(store, at) && at.0 < store.len() && store.owner(at) == side
}
