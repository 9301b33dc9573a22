//! Tests of the places, owners and cells of objects, some made at a cost and some added without.
use crate::world::seed;
use rp_base::{Memory, NativeId, Oid, Rock, Side, Value};
use rp_store::{Callee, Object, Store, StoreFault};
use rp_tests_cases::holds;
use std::alloc::Global;
use std::test::Fail;

/// Makes a method of a side.
fn make_method(store: &mut Store, side: Side) -> Result<Oid, StoreFault> {
    let method = Object::Method {
        receiver: Value::Rock(Rock::Nil),
        callee: Callee::Native(NativeId::Append),
    };
    store.make(side, method)
}

/// Adds a list of three numbers of a side.
fn add_list(alloc: Global, store: &mut Store, side: Side) -> Result<Oid, Memory> {
    let mut numbers = Vec::new(alloc);
    numbers.push(Value::Rock(Rock::Int(1)))?;
    numbers.push(Value::Rock(Rock::Int(2)))?;
    numbers.push(Value::Rock(Rock::Int(3)))?;
    store.add(side, Object::List(numbers))
}

/// Makes a scope of one slot of a side.
fn make_scope(alloc: Global, store: &mut Store, side: Side) -> Result<Oid, StoreFault> {
    let mut slots = Vec::new(alloc);
    slots.push(None).map_err(Memory::from)?;
    let scope = Object::Scope {
        block: Some(0),
        parent: None,
        slots,
    };
    store.make(side, scope)
}

/// The owner of the object at a place.
fn owner(store: &Store, at: usize) -> Option<Side> {
    if at < store.len() {
        return Some(store.owner(Oid(at)));
    }
    None
}

#[test]
fn objects_keep_their_owners_and_places(rt: HostRuntime) -> Result<(), Fail> {
    let mut store = Store::new(rt.alloc(), 3, seed());
    holds(make_method(&mut store, Side(4)) == Ok(Oid(0)), "a method")?;
    holds(
        add_list(rt.alloc(), &mut store, Side(0))? == Oid(1),
        "a list",
    )?;
    holds(
        make_scope(rt.alloc(), &mut store, Side(2)) == Ok(Oid(2)),
        "a scope",
    )?;
    let refused = make_method(&mut store, Side(3));
    holds(refused == Err(StoreFault::Cells), "no cell")?;
    holds(
        store.used() == 3 && store.len() == 3,
        "three cells and objects",
    )?;
    have_owners(&store)
}

fn have_owners(store: &Store) -> Result<(), Fail> {
    holds(owner(store, 0) == Some(Side(4)), "the method's owner")?;
    holds(owner(store, 1) == Some(Side(0)), "the list's owner")?;
    holds(owner(store, 2) == Some(Side(2)), "the scope's owner")?;
    holds(owner(store, 3).is_none(), "no object")
}
