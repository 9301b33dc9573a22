//! Setting and deleting attributes.
#![tactic(auto, using(rp_store::proofs::CallerLemmas::goes_on))]

ghost use Rattle.std.specs.Prelude.{◌≡◌, ◌↔◌, ℕ, IsTrue, OnErr};
ghost use Rattle.rp_attributes.specs.Attributes.{del_at, del_attribute, set_at, set_attribute};
ghost use Rattle.rp_ops.specs.Outcome.{Meets, state_of};
ghost use Rattle.rp_base.specs.Names.{word_of};
ghost use Rattle.rp_store.specs.Counters.{KeepsCounters};
ghost use Rattle.rp_store.specs.Heap.{IsHeld, Names as IsAt};
ghost use Rattle.rp_store.specs.Kept.{IsSound};
ghost use Rattle.rp_store.specs.Parts.{IsInstance};
ghost use Rattle.rp_store.specs.Shape.{KeepsShape};

use crate::attribute_error::no_attribute;
use rp_base::{Name, Names, Oid, OpEnd, Value};
use rp_store::{Object, Store, StoreFault};
use std::alloc::Global;

/// `a.name = v`, done by code on values whose access decisions have been made (Python Language Reference, Assignment
/// statements): only instances take attributes. A new field costs a cell.
///
/// # Errors
/// - `Raised` with `AttributeError`, whose text is the name, where `a` is no instance.
/// - `StopCells` where the cell is over the limit.
/// - `Memory` where a growth was refused, or there is none for the text of the exception.
///
/// The store is then as before.
pub fn set_attribute(
    alloc: Global,
    store: &mut Store,
    names: &Names,
    a: &Value,
    name: Name,
    v: Value,
) -> Result<(), OpEnd>
    requires a { IsSound store.old.heap a.now }
    requires v { IsSound store.old.heap v }
    ensures plain { (steps : ℕ) → Meets result (state_of store.new steps)
        (set_attribute a.now name (word_of names.now name) v (state_of store.old steps)) }
    ensures shape { KeepsShape store.old.heap store.new.heap }
    ensures same { OnErr result (store.new ≡ store.old) }
    ensures counters { KeepsCounters store.old store.new }
{
    match a {
        Value::Rock(_) => Err(no_attribute(alloc, store, names, name)),
        Value::Ref(at) => set_at(alloc, store, names, *at, name, v),
        Value::Prox(at) => set_at(alloc, store, names, *at, name, v),
    }
}

/// `del a.name`, done by code on a value whose access decision has been made (Python Language Reference, The del
/// statement).
///
/// # Errors
/// - `Raised` with `AttributeError`, whose text is the name, where `a` is no instance or has no such field.
/// - `Memory` where there is none for the text of the exception.
///
/// The store is then as before.
pub fn del_attribute(
    alloc: Global,
    store: &mut Store,
    names: &Names,
    a: &Value,
    name: Name,
) -> Result<(), OpEnd>
    requires a { IsSound store.old.heap a.now }
    ensures plain { (steps : ℕ) → Meets result (state_of store.new steps)
        (del_attribute a.now name (word_of names.now name) (state_of store.old steps)) }
    ensures shape { KeepsShape store.old.heap store.new.heap }
    ensures same { OnErr result (store.new ≡ store.old) }
    ensures counters { KeepsCounters store.old store.new }
{
    match a {
        Value::Rock(_) => Err(no_attribute(alloc, store, names, name)),
        Value::Ref(at) => del_at(alloc, store, names, *at, name),
        Value::Prox(at) => del_at(alloc, store, names, *at, name),
    }
}

fn set_at(
    alloc: Global,
    store: &mut Store,
    names: &Names,
    at: Oid,
    name: Name,
    v: Value,
) -> Result<(), OpEnd>
    requires held { IsHeld store.old.heap at }
    requires v { IsSound store.old.heap v }
    ensures plain { (steps : ℕ) → Meets result (state_of store.new steps)
        (set_at at name (word_of names.now name) v (state_of store.old steps)) }
    ensures shape { KeepsShape store.old.heap store.new.heap }
    ensures same { OnErr result (store.new ≡ store.old) }
    ensures counters { KeepsCounters store.old store.new }
{
    if !is_instance(store, at) {
        return Err(no_attribute(alloc, store, names, name));
    }
    match store.set_field(at, name, v) {
        Ok(()) => Ok(()),
        Err(StoreFault::Cells) => Err(OpEnd::StopCells),
        Err(StoreFault::Memory) => Err(OpEnd::Memory),
    }
}

fn del_at(alloc: Global, store: &mut Store, names: &Names, at: Oid, name: Name) -> Result<(), OpEnd>
    requires held { IsHeld store.old.heap at }
    ensures plain { (steps : ℕ) → Meets result (state_of store.new steps)
        (del_at at name (word_of names.now name) (state_of store.old steps)) }
    ensures shape { KeepsShape store.old.heap store.new.heap }
    ensures same { OnErr result (store.new ≡ store.old) }
    ensures counters { KeepsCounters store.old store.new }
{
    if !is_instance(store, at) {
        return Err(no_attribute(alloc, store, names, name));
    }
    let dropped = store.drop_field(at, name);
    if dropped.is_none() {
        return Err(no_attribute(alloc, store, names, name));
    }
    Ok(())
}

#[inline(always)]
fn is_instance(store: &Store, at: Oid) -> bool
    requires { IsHeld store.now.heap at }
    ensures { IsTrue result ↔ IsAt store.now.heap IsInstance at }
{
    match store.object(at) {
        Object::Instance { .. } => true,
        _ => false,
    }
}
