//! What is called by the methods of objects.

ghost use Rattle.std.specs.Prelude.{◌≡◌, ℕ, IfSome};
ghost use Rattle.std.specs.Option.{option_and_then, option_map};
ghost use Rattle.rp_attributes.specs.Attributes.{method_of};
ghost use Rattle.rp_ops.specs.Outcome.{state_of};
ghost use Rattle.rp_base.specs.Names.{word_of};
ghost use Rattle.rp_store.specs.Heap.{IsHeld, content_at, method_at};
ghost use Rattle.rp_store.specs.Kept.{IsCallee};

use crate::built_ins::{Receiver, built_in_method};
use rp_base::{Name, Names, NativeId, Oid, word_of};
use rp_store::{Callee, Object, Store};

/// What is called by the method of the object at a place: a function of an instance's class, or a built-in method of
/// the object's kind.
pub(crate) fn method_of(store: &Store, names: &Names, at: Oid, name: Name) -> Option<Callee>
    requires held { IsHeld store.now.heap at }
    ensures method { (steps : ℕ) → result
        ≡ option_and_then (λ c. method_of c name (word_of names.now name) (state_of store.now steps))
        (content_at store.now.heap at) }
    ensures callee { IfSome result (IsCallee store.now.heap) }
{
    match store.object(at) {
        Object::List(_) => native(built_in_method(Receiver::List, word_of(names, name))),
        Object::Tuple(_) => native(built_in_method(Receiver::Tuple, word_of(names, name))),
        Object::Dict(_) => native(built_in_method(Receiver::Dict, word_of(names, name))),
        Object::Instance { class, .. } => class_method(store, *class, name),
        _ => None,
    }
}

/// A function of the class at a place.
fn class_method(store: &Store, class: Oid, name: Name) -> Option<Callee>
    requires held { IsHeld store.now.heap class }
    ensures method { result ≡ option_map (λ at. Callee.Function at) (method_at store.now.heap class name) }
    ensures callee { IfSome result (IsCallee store.now.heap) }
{
    match store.object(class).method(name) {
        Some(at) => Some(Callee::Function(*at)),
        None => None,
    }
}

pub(crate) fn native(method: Option<NativeId>) -> Option<Callee>
    ensures { result ≡ option_map (λ id. Callee.Native id) method }
{
    match method {
        Some(id) => Some(Callee::Native(id)),
        None => None,
    }
}
