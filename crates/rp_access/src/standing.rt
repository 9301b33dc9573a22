//! What stands at a place of the store.

ghost use Rattle.std.specs.Prelude.{◌≡◌, All, IfSome, IsTrue, false};
ghost use Rattle.rp_meaning.specs.Classes.{are_functions, class_there, functions_in, is_class, is_function, stands};
ghost use Rattle.rp_store.specs.Heap.{IsHeld, Names};
ghost use Rattle.rp_store.specs.Object.{content_of};
ghost use Rattle.rp_store.specs.Parts.{IsClass, IsFunction, IsList};
ghost use Rattle.rp_access.specs.Adding.{HasNoEnd};

use rp_base::{Name, Oid};
use rp_dict::Dict;
use rp_store::{Object, Store};
use std::alloc::Global;

/// The place, where a class stands there.
pub(crate) fn class_there(store: &Store, at: Oid) -> Option<Oid>
    ensures place { result ≡ class_there store.now.heap at }
    ensures class { IfSome result (Names store.now.heap IsClass) }
    ensures held { IfSome result (IsHeld store.now.heap) }
{
    if is_class(store, at) {
        return Some(at);
    }
    None
}

/// Whether a class stands at a place.
fn is_class(store: &Store, at: Oid) -> bool
    ensures value { result ≡ stands is_class store.now.heap at }
    ensures class { IsTrue result → Names store.now.heap IsClass at }
    ensures held { IsTrue result → IsHeld store.now.heap at }
{
    match store.get(at) {
        Some(object) => is_a_class(object),
        None => false,
    }
}

fn is_a_class(object: &Object) -> bool
    ensures value { result ≡ is_class (content_of object.now) }
    ensures class { IsTrue result → IsClass (content_of object.now) }
{
    match object {
        Object::Class { .. } => true,
        Object::List(_)
        | Object::Tuple(_)
        | Object::Dict(_)
        | Object::Instance { .. }
        | Object::Function { .. }
        | Object::Method { .. }
        | Object::Scope { .. } => false,
    }
}

/// Whether a list stands at a place. Nothing is put at the end of anything else.
pub(crate) fn is_list(store: &Store, at: Oid) -> bool
    ensures list { IsTrue result → Names store.now.heap IsList at }
    ensures held { IsTrue result → IsHeld store.now.heap at }
    ensures other { result ≡ false → HasNoEnd store.now.heap at }
{
    match store.get(at) {
        Some(object) => is_a_list(object),
        None => false,
    }
}

fn is_a_list(object: &Object) -> bool
    ensures list { IsTrue result → IsList (content_of object.now) }
    ensures other { result ≡ false → ¬ IsList (content_of object.now) }
{
    match object {
        Object::List(_) => true,
        Object::Tuple(_)
        | Object::Dict(_)
        | Object::Instance { .. }
        | Object::Class { .. }
        | Object::Function { .. }
        | Object::Method { .. }
        | Object::Scope { .. } => false,
    }
}

/// Methods, where all of them are functions, else none.
pub fn functions_in(alloc: Global, store: &Store, methods: Dict<Name, Oid>) -> Dict<Name, Oid>
    ensures value { result ≡ functions_in store.now.heap methods }
    ensures functions { All (λ m. Names store.now.heap IsFunction m.1) result }
{
    if are_functions(store, &methods) {
        return methods;
    }
    Dict::new(alloc, store.seed())
}

/// Whether each method is a function.
fn are_functions(store: &Store, methods: &Dict<Name, Oid>) -> bool
    ensures { result ≡ are_functions store.now.heap methods.now }
{
    let mut walk = methods.walk();
    while let Some((_, at)) = walk.next() {
        if !is_function(store, *at) {
            return false;
        }
    }
    true
}

/// Whether a function stands at a place.
fn is_function(store: &Store, at: Oid) -> bool
    ensures { result ≡ stands is_function store.now.heap at }
{
    match store.get(at) {
        Some(object) => is_a_function(object),
        None => false,
    }
}

fn is_a_function(object: &Object) -> bool
    ensures { result ≡ is_function (content_of object.now) }
{
    match object {
        Object::Function { .. } => true,
        Object::List(_)
        | Object::Tuple(_)
        | Object::Dict(_)
        | Object::Instance { .. }
        | Object::Class { .. }
        | Object::Method { .. }
        | Object::Scope { .. } => false,
    }
}
