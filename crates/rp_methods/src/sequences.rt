//! The methods of lists that search, which tuples have too.
#![tactic(auto, using(rp_store::proofs::CallerLemmas::goes_on, crate::proofs::NoClasses::no_class))]

ghost use Rattle.std.specs.Prelude.{◌≡◌, ◌<◌, ◌≤◌, length, IfOk, OnErr};
ghost use Rattle.rp_store.specs.Counters.{KeepsCounters};
ghost use Rattle.rp_store.specs.Heap.{IsHeld, Names, elements_at};
ghost use Rattle.rp_store.specs.Kept.{IsSound};
ghost use Rattle.rp_store.specs.Parts.{IsList};
ghost use Rattle.rp_store.specs.Shape.{KeepsShape};
ghost use Rattle.rp_store.specs.Store.{written};
ghost use Rattle.rp_store.specs.Writers.{without_element};
ghost use Rattle.rp_ops.specs.Outcome.{Meets, gives, on_value, state_of, with_change};
ghost use Rattle.rp_methods.specs.Classes.{AddsNoClass};
ghost use Rattle.rp_methods.specs.Lists.{count, counted, index, none, number, remove, sought};

use crate::contents::list_at;
use crate::fault::Fault;
use crate::search::{count_of, place_of};
use rp_base::{Meter, Oid, OpEnd, Rock, Value};
use rp_ops::elements_at;
use rp_store::Store;
use std::alloc::Global;

/// `xs.index(x)`: the first place of an element that a value is equal to.
pub(crate) fn index(
    alloc: Global,
    store: &Store,
    meter: &mut Meter,
    at: Oid,
    args: &[Value],
) -> Result<Value, OpEnd>
    requires { IsHeld store.now.heap at }
    ensures plain { Meets result (state_of store.now meter.new.left)
        (index at args.now (state_of store.now meter.old.left)) }
    ensures sound { IfOk result (λ v. IsSound store.now.heap v) }
    ensures fewer { meter.new.left ≤ meter.old.left }
{
    let [x] = args else {
        return Err(Fault::Arguments.end(alloc));
    };
    index_in(alloc, store, meter, elements_at(store, at), x)
}

fn index_in(
    alloc: Global,
    store: &Store,
    meter: &mut Meter,
    elements: &[Value],
    x: &Value,
) -> Result<Value, OpEnd>
    ensures plain { Meets result (state_of store.now meter.new.left)
        (on_value (sought 0 x.now elements.now (state_of store.now meter.old.left)) (λ n s. gives (number n) s)) }
    ensures sound { IfOk result (λ v. IsSound store.now.heap v) }
    ensures fewer { meter.new.left ≤ meter.old.left }
{
    let place = place_of(alloc, store, meter, elements, x)?;
    Ok(Value::Rock(Rock::Int(place as i64)))
}

/// `xs.count(x)`: how many elements a value is equal to.
pub(crate) fn count(
    alloc: Global,
    store: &Store,
    meter: &mut Meter,
    at: Oid,
    args: &[Value],
) -> Result<Value, OpEnd>
    requires { IsHeld store.now.heap at }
    ensures plain { Meets result (state_of store.now meter.new.left)
        (count at args.now (state_of store.now meter.old.left)) }
    ensures sound { IfOk result (λ v. IsSound store.now.heap v) }
    ensures fewer { meter.new.left ≤ meter.old.left }
{
    let [x] = args else {
        return Err(Fault::Arguments.end(alloc));
    };
    count_in(alloc, store, meter, elements_at(store, at), x)
}

fn count_in(
    alloc: Global,
    store: &Store,
    meter: &mut Meter,
    elements: &[Value],
    x: &Value,
) -> Result<Value, OpEnd>
    ensures plain { Meets result (state_of store.now meter.new.left)
        (on_value (counted 0 x.now elements.now (state_of store.now meter.old.left)) (λ n s. gives (number n) s)) }
    ensures sound { IfOk result (λ v. IsSound store.now.heap v) }
    ensures fewer { meter.new.left ≤ meter.old.left }
{
    let count = count_of(alloc, store, meter, elements, x)?;
    Ok(Value::Rock(Rock::Int(count as i64)))
}

/// `xs.remove(x)`: takes the first element that a value is equal to out of a list.
pub(crate) fn remove(
    alloc: Global,
    store: &mut Store,
    meter: &mut Meter,
    at: Oid,
    args: &[Value],
) -> Result<Value, OpEnd>
    requires held { IsHeld store.old.heap at }
    requires list { Names store.old.heap IsList at }
    ensures plain { Meets result (state_of store.new meter.new.left)
        (remove at args.now (state_of store.old meter.old.left)) }
    ensures sound { IfOk result (λ v. IsSound store.new.heap v) }
    ensures shape { KeepsShape store.old.heap store.new.heap }
    ensures classes { AddsNoClass store.old.heap store.new.heap }
    ensures same { OnErr result (store.new ≡ store.old) }
    ensures fewer { meter.new.left ≤ meter.old.left }
    ensures counters { KeepsCounters store.old store.new }
{
    let [x] = args else {
        return Err(Fault::Arguments.end(alloc));
    };
    remove_first(alloc, store, meter, at, x)
}

fn remove_first(
    alloc: Global,
    store: &mut Store,
    meter: &mut Meter,
    at: Oid,
    x: &Value,
) -> Result<Value, OpEnd>
    requires held { IsHeld store.old.heap at }
    requires list { Names store.old.heap IsList at }
    ensures plain { Meets result (state_of store.new meter.new.left)
        (on_value (sought 0 x.now (elements_at store.old.heap at) (state_of store.old meter.old.left))
        (λ p s. gives none (with_change s at (without_element p)))) }
    ensures sound { IfOk result (λ v. IsSound store.new.heap v) }
    ensures shape { KeepsShape store.old.heap store.new.heap }
    ensures classes { AddsNoClass store.old.heap store.new.heap }
    ensures same { OnErr result (store.new ≡ store.old) }
    ensures fewer { meter.new.left ≤ meter.old.left }
    ensures counters { KeepsCounters store.old store.new }
{
    let place = place_of(alloc, store, meter, list_at(store, at), x)?;
    drop_at(store, at, place);
    Ok(Value::Rock(Rock::Nil))
}

/// Takes the element at a place out of a list.
fn drop_at(store: &mut Store, at: Oid, place: usize)
    requires held { IsHeld store.old.heap at }
    requires place { place < length (elements_at store.old.heap at) }
    ensures dropped { store.new ≡ written store.old at (without_element place) }
    ensures shape { KeepsShape store.old.heap store.new.heap }
    ensures classes { AddsNoClass store.old.heap store.new.heap }
    ensures counters { KeepsCounters store.old store.new }
{
    let _removed = store.remove_at(at, place);
}
