//! Elements taken out of lists.
#![tactic(auto, using(rp_store::proofs::CallerLemmas::goes_on, crate::proofs::NoClasses::no_class))]

ghost use Rattle.std.specs.Prelude.{◌≡◌, ◌<◌, ℕ, length, IfOk, OnErr};
ghost use Rattle.std.specs.Option.{option_map_or};
ghost use Rattle.rp_store.specs.Counters.{KeepsCounters};
ghost use Rattle.rp_store.specs.Heap.{IsHeld, Names, elements_at};
ghost use Rattle.rp_store.specs.Kept.{IsSound};
ghost use Rattle.rp_store.specs.Parts.{IsList};
ghost use Rattle.rp_store.specs.Shape.{KeepsShape};
ghost use Rattle.rp_ops.specs.Outcome.{Meets, gives, state_of};
ghost use Rattle.rp_ops.specs.Keys.{index_number};
ghost use Rattle.rp_methods.specs.Classes.{AddsNoClass};
ghost use Rattle.rp_methods.specs.Faults.{wrong_argument};
ghost use Rattle.rp_methods.specs.Lists.{pop, pop_at, taken_out};

use crate::contents::list_length;
use crate::fault::Fault;
use rp_base::{Oid, OpEnd, Value};
use rp_items::{index_number, place_within};
use rp_store::Store;
use std::alloc::Global;

/// `xs.pop()` and `xs.pop(i)`: takes an element out of a list, the last one where no index is given.
pub(crate) fn pop(alloc: Global, store: &mut Store, at: Oid, args: &[Value]) -> Result<Value, OpEnd>
    requires held { IsHeld store.old.heap at }
    requires list { Names store.old.heap IsList at }
    ensures plain { (steps : ℕ) → Meets result (state_of store.new steps) (pop at args.now (state_of store.old steps)) }
    ensures sound { IfOk result (λ v. IsSound store.new.heap v) }
    ensures shape { KeepsShape store.old.heap store.new.heap }
    ensures classes { AddsNoClass store.old.heap store.new.heap }
    ensures same { OnErr result (store.new ≡ store.old) }
    ensures counters { KeepsCounters store.old store.new }
{
    match args {
        [] => pop_at(alloc, store, at, -1),
        [i] => pop_named(alloc, store, at, i),
        _ => Err(Fault::Arguments.end(alloc)),
    }
}

fn pop_named(alloc: Global, store: &mut Store, at: Oid, i: &Value) -> Result<Value, OpEnd>
    requires held { IsHeld store.old.heap at }
    requires list { Names store.old.heap IsList at }
    ensures plain { (steps : ℕ) → Meets result (state_of store.new steps)
        (option_map_or (λ z. pop_at at z (state_of store.old steps)) (index_number i.now)
        (wrong_argument (state_of store.old steps))) }
    ensures sound { IfOk result (λ v. IsSound store.new.heap v) }
    ensures shape { KeepsShape store.old.heap store.new.heap }
    ensures classes { AddsNoClass store.old.heap store.new.heap }
    ensures same { OnErr result (store.new ≡ store.old) }
    ensures counters { KeepsCounters store.old store.new }
{
    match index_number(i) {
        Some(n) => pop_at(alloc, store, at, n),
        None => Err(Fault::Argument.end(alloc)),
    }
}

fn pop_at(alloc: Global, store: &mut Store, at: Oid, i: i64) -> Result<Value, OpEnd>
    requires held { IsHeld store.old.heap at }
    requires list { Names store.old.heap IsList at }
    ensures plain { (steps : ℕ) → Meets result (state_of store.new steps) (pop_at at i (state_of store.old steps)) }
    ensures sound { IfOk result (λ v. IsSound store.new.heap v) }
    ensures shape { KeepsShape store.old.heap store.new.heap }
    ensures classes { AddsNoClass store.old.heap store.new.heap }
    ensures same { OnErr result (store.new ≡ store.old) }
    ensures counters { KeepsCounters store.old store.new }
{
    match place_within(list_length(store, at), i) {
        Ok(place) => Ok(take_out(store, at, place)),
        Err(refusal) => Err(refusal.end(alloc)),
    }
}

/// Takes the element at a place out of a list.
fn take_out(store: &mut Store, at: Oid, place: usize) -> Value
    requires held { IsHeld store.old.heap at }
    requires place { place < length (elements_at store.old.heap at) }
    ensures plain { (steps : ℕ) → taken_out at place (state_of store.old steps)
        ≡ gives result (state_of store.new steps) }
    ensures sound { IsSound store.new.heap result }
    ensures shape { KeepsShape store.old.heap store.new.heap }
    ensures classes { AddsNoClass store.old.heap store.new.heap }
    ensures counters { KeepsCounters store.old store.new }
{
    store.kept();
    store.remove_at(at, place)
}
