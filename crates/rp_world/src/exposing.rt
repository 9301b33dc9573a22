//! The scope of the exposed names and the global scope of the module, before the module runs.
#![tactic(auto, using(rp_store::proofs::CallerLemmas::goes_on))]

ghost use Rattle.std.specs.Prelude.{◌≡◌, IfOk, None, OnOk, Some, length, map};
ghost use Rattle.rp_meaning.specs.Load.{trusted};
ghost use Rattle.rp_store.specs.Object.{scope};
ghost use Rattle.rp_store.specs.Shape.{KeepsShape};
ghost use Rattle.rp_store.specs.Store.{added};
ghost use Rattle.rp_world.specs.PlacingSteps.{AreBound, exposing, slots_to};

use rp_base::{Memory, Name, Oid, Side, Value};
use rp_store::{Object, Store};
use std::alloc::Global;

/// Puts the scope of the exposed names last in the store. They have no values yet.
pub fn place_exposing(alloc: Global, expose: &[Name], store: &mut Store) -> Result<(), Memory>
    ensures placed { OnOk result (store.new ≡ added store.old trusted (exposing expose.now)) }
    ensures shape { KeepsShape store.old.heap store.new.heap }
{
    let scope = Object::Scope {
        block: None,
        parent: None,
        slots: empty_slots(alloc, expose)?,
    };
    store.add(Side(0), scope)?;
    Ok(())
}

/// An empty slot for each of the names.
fn empty_slots(alloc: Global, names: &[Name]) -> Result<Vec<Option<Value>>, Memory>
    ensures { IfOk result (λ slots. slots.items ≡ map (λ _. None) names.now) }
{
    Ok(names.iter().map(|_| None).collect(alloc)?)
}

/// Puts empty slots behind those that there are, up to so many.
pub fn fill_slots(slots: &mut Vec<Option<Value>>, locals: usize) -> Result<(), Memory>
    ensures { OnOk result (slots.new.items ≡ slots_to locals slots.old.items) }
{
    while slots.len() < locals {
        slots.push(None)?;
    }
    Ok(())
}

/// Puts the global scope of the module last in the store, with these slots, and answers its place.
pub fn place_globals(slots: Vec<Option<Value>>, store: &mut Store) -> Result<Oid, Memory>
    requires { AreBound store.old.heap slots.items }
    ensures placed { OnOk result (store.new ≡ added store.old trusted (scope (Some 0) None slots.items)) }
    ensures place { IfOk result (λ at. at.0 ≡ length store.old.heap) }
    ensures shape { KeepsShape store.old.heap store.new.heap }
{
    let globals = Object::Scope {
        block: Some(0),
        parent: None,
        slots,
    };
    store.add(Side(0), globals)
}
