//! What lists and dicts hold.
ghost use Rattle.std.specs.Prelude.{◌≡◌, length};
ghost use Rattle.std.specs.List.{All};
ghost use Rattle.rp_store.specs.Heap.{IsHeld, Names, elements_at};
ghost use Rattle.rp_store.specs.Kept.{AreSound, IsEntry};
ghost use Rattle.rp_store.specs.Parts.{IsDict, IsList};
ghost use Rattle.rp_methods.specs.Dicts.{entries_of};

use rp_base::{Oid, Rock, Value};
use rp_dict::Dict;
use rp_store::{Key, Object, Store};

/// The elements of a list.
pub(crate) fn list_at(store: &Store, at: Oid) -> &[Value]
    requires held { IsHeld store.now.heap at }
    requires list { Names store.now.heap IsList at }
    ensures value { result.now ≡ elements_at store.now.heap at }
    ensures sound { AreSound store.now.heap result.now }
{
    match store.object(at) {
        Object::List(elements) => elements,
        _ => &[],
    }
}

/// The number of elements of a list.
pub(crate) fn list_length(store: &Store, at: Oid) -> usize
    requires held { IsHeld store.now.heap at }
    requires list { Names store.now.heap IsList at }
    ensures { result ≡ length (elements_at store.now.heap at) }
{
    list_at(store, at).len()
}

/// The entries of a dict.
pub(crate) fn dict_at(store: &Store, at: Oid) -> &Dict<Key, (Rock, Value)>
    requires held { IsHeld store.now.heap at }
    requires dict { Names store.now.heap IsDict at }
    ensures value { result.now ≡ entries_of store.now.heap at }
    ensures sound { All (IsEntry store.now.heap) result.now }
{
    match store.object(at) {
        Object::Dict(entries) => entries,
        _ => unreachable!(),
    }
}
