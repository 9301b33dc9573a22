//! What comprehensions add to what they make.
#![tactic(auto, using(rp_store::proofs::CallerLemmas::goes_on))]

ghost use Rattle.std.specs.Prelude.{◌≤◌, ◌≡◌, ℕ, OnErr};
ghost use Rattle.rp_ops.specs.Outcome.{Meets};
ghost use Rattle.rp_ops.specs.Outcome as plain;
ghost use Rattle.rp_proxy.specs.Faithful.{IsFaithful};
ghost use Rattle.rp_store.specs.Heap.{IsHeld, Names};
ghost use Rattle.rp_store.specs.Kept.{IsSound};
ghost use Rattle.rp_store.specs.Parts.{IsList};
ghost use Rattle.rp_store.specs.Shape.{KeepsShape};
ghost use Rattle.rp_access.specs.Adding.{charged_one, element_put, put};
ghost use Rattle.rp_access.specs.Comes.{Comes};
ghost use Rattle.rp_access.specs.Moment.{state_of};

use crate::standing::is_list;
use rp_base::{Oid, OpEnd, Value};
use rp_ops::charge;
use rp_proxy::World;
use rp_store::Store;

/// Puts a value at the end of the list at a place, for one cell; where none stands there, the cell is used all the
/// same. Nothing is decided.
///
/// # Errors
/// - `StopCells` where the cell is over the limit.
/// - `Memory` where a growth was refused.
#[inline(always)]
pub fn put_element(world: &mut World, at: Oid, value: Value) -> Result<(), OpEnd>
    requires faithful { IsFaithful world.old }
    requires value { IsSound world.old.store.heap value }
    ensures law { Comes result (state_of world.new) (element_put at value (state_of world.old)) }
    ensures faithful { IsFaithful world.new }
    ensures shape { KeepsShape world.old.store.heap world.new.store.heap }
    ensures fewer { world.new.running.meter.left ≤ world.old.running.meter.left }
{
    put(&mut world.store, at, value)
}

fn put(store: &mut Store, at: Oid, value: Value) -> Result<(), OpEnd>
    requires value { IsSound store.old.heap value }
    ensures plain { (steps : ℕ) → Meets result (plain.state_of store.new steps)
        (put at value (plain.state_of store.old steps)) }
    ensures same { OnErr result (store.new ≡ store.old) }
    ensures shape { KeepsShape store.old.heap store.new.heap }
{
    if is_list(store, at) {
        return put_last(store, at, value);
    }
    charge_one(store)
}

fn put_last(store: &mut Store, at: Oid, value: Value) -> Result<(), OpEnd>
    requires held { IsHeld store.old.heap at }
    requires list { Names store.old.heap IsList at }
    requires value { IsSound store.old.heap value }
    ensures plain { (steps : ℕ) → Meets result (plain.state_of store.new steps)
        (put at value (plain.state_of store.old steps)) }
    ensures same { OnErr result (store.new ≡ store.old) }
    ensures shape { KeepsShape store.old.heap store.new.heap }
{
    store.push(at, value)?;
    Ok(())
}

fn charge_one(store: &mut Store) -> Result<(), OpEnd>
    ensures plain { (steps : ℕ) → Meets result (plain.state_of store.new steps)
        (charged_one (plain.state_of store.old steps)) }
    ensures same { OnErr result (store.new ≡ store.old) }
    ensures shape { KeepsShape store.old.heap store.new.heap }
{
    charge(store, 1)?;
    Ok(())
}
