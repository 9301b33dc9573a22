//! Scopes, what they cost, and their slots, which are bound and unbound.
ghost use Rattle.std.specs.Prelude.{◌≡◌, length};
ghost use Rattle.rp_store.specs.Heap.{IsHeld, slots_at};

use crate::world::seed;
use rp_base::{ClassTag, Memory, Oid, Rock, Side, Value};
use rp_store::{Object, Store, StoreFault};
use rp_tests_cases::holds;
use std::alloc::Global;
use std::test::Fail;

/// A store with a scope of two slots that are unbound.
fn with_scope(alloc: Global) -> Result<(Store, Oid), Memory> {
    let mut slots = Vec::new(alloc);
    slots.push(None)?;
    slots.push(None)?;
    let mut store = Store::new(alloc, 9, seed());
    let scope = Object::Scope {
        block: Some(0),
        parent: None,
        slots,
    };
    let at = store.add(Side(1), scope)?;
    Ok((store, at))
}

/// The number of slots of a scope, 0 of another object.
fn slots_len(store: &Store, at: Oid) -> usize
    requires { IsHeld store.now.heap at }
    ensures { result ≡ length (slots_at store.now.heap at) }
{
    match store.object(at) {
        Object::Scope { slots, .. } => slots.len(),
        _ => 0,
    }
}

/// Binds a slot to a number, or unbinds it.
fn set(store: &mut Store, at: Oid, i: usize, number: Option<i64>) {
    if at.0 < store.len() && i < slots_len(store, at) {
        match number {
            Some(n) => store.set_slot(at, i, Some(Value::Rock(Rock::Int(n)))),
            None => store.set_slot(at, i, None),
        }
    }
}

/// The number in a slot.
fn slot(store: &Store, at: Oid, i: usize) -> Option<i64> {
    if at.0 >= store.len() {
        return None;
    }
    match store.slot(at, i)? {
        Value::Rock(Rock::Int(n)) => Some(*n),
        _ => None,
    }
}

/// The scope in which one is.
fn parent(store: &Store, at: Oid) -> Option<Oid> {
    if at.0 >= store.len() {
        return None;
    }
    store.parent(at)
}

/// The tag of an object.
fn tag(store: &Store, at: Oid) -> Option<ClassTag> {
    if at.0 >= store.len() {
        return None;
    }
    Some(store.tag(at))
}

/// The cells that are used once a scope of three slots is made in a store of this limit, none where it is refused and
/// the store is as before.
fn made(alloc: Global, limit: u64) -> Result<Option<u64>, Memory> {
    let mut slots = Vec::new(alloc);
    slots.push(None)?;
    slots.push(None)?;
    slots.push(None)?;
    let scope = Object::Scope {
        block: Some(0),
        parent: None,
        slots,
    };
    let mut store = Store::new(alloc, limit, seed());
    Ok(match store.make(Side(1), scope) {
        Ok(at) if at.0 == 0 && store.len() == 1 => Some(store.used()),
        Err(StoreFault::Cells) if store.used() == 0 && store.is_empty() => None,
        _ => Some(u64::MAX),
    })
}

#[test]
fn scopes_cost_one_cell_and_one_for_each_slot(rt: HostRuntime) -> Result<(), Fail> {
    holds(made(rt.alloc(), 4)? == Some(4), "four cells")?;
    holds(made(rt.alloc(), 3)?.is_none(), "three cells")?;
    let (store, at) = with_scope(rt.alloc())?;
    holds(tag(&store, at) == Some(ClassTag::Other), "a scope's tag")
}

#[test]
fn slots_are_bound_and_unbound(rt: HostRuntime) -> Result<(), Fail> {
    let (mut store, at) = with_scope(rt.alloc())?;
    set(&mut store, at, 1, Some(5));
    holds(
        slot(&store, at, 0).is_none() && slot(&store, at, 1) == Some(5),
        "bound",
    )?;
    set(&mut store, at, 1, None);
    holds(slot(&store, at, 1).is_none(), "unbound")?;
    set(&mut store, at, 2, Some(7));
    holds(
        slot(&store, at, 0).is_none() && parent(&store, at).is_none(),
        "no slot",
    )?;
    holds(store.used() == 0, "no cell")
}
