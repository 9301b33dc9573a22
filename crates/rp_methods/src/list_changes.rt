//! Elements put into lists, and put in another order.
#![tactic(auto, using(rp_store::proofs::CallerLemmas::goes_on, crate::proofs::NoClasses::no_class))]

ghost use Rattle.std.specs.Prelude.{◌≡◌, ◌≤◌, ℕ, length, reverse, IfOk, OnErr};
ghost use Rattle.std.specs.Option.{option_map_or};
ghost use Rattle.rp_store.specs.Counters.{KeepsCounters};
ghost use Rattle.rp_store.specs.Heap.{IsHeld, Names, elements_at};
ghost use Rattle.rp_store.specs.Kept.{AreSound, IsSound};
ghost use Rattle.rp_store.specs.Parts.{IsList};
ghost use Rattle.rp_store.specs.Shape.{KeepsShape};
ghost use Rattle.rp_store.specs.Writers.{extended, inserted, pushed};
ghost use Rattle.rp_ops.specs.Keys.{index_number};
ghost use Rattle.rp_ops.specs.Outcome.{Meets, on_value, state_of};
ghost use Rattle.rp_ops.specs.Walk.{elements};
ghost use Rattle.rp_methods.specs.Classes.{AddsNoClass};
ghost use Rattle.rp_methods.specs.Faults.{wrong_argument};
ghost use Rattle.rp_methods.specs.Lists.{append, extend, grows, insert, insert_at, reversed};

use crate::contents::{list_at, list_length};
use crate::fault::Fault;
use crate::places::place_before;
use rp_base::{Memory, Meter, Oid, OpEnd, Rock, Value};
use rp_items::index_number;
use rp_ops::{copies, elements};
use rp_store::Store;
use std::alloc::Global;

/// `xs.append(x)`: puts a value at the end of a list, for one cell.
#[inline(always)]
pub(crate) fn append(
    alloc: Global,
    store: &mut Store,
    at: Oid,
    args: &[Value],
) -> Result<Value, OpEnd>
    requires held { IsHeld store.old.heap at }
    requires list { Names store.old.heap IsList at }
    requires args { AreSound store.old.heap args.now }
    ensures plain { (steps : ℕ) → Meets result (state_of store.new steps)
        (append at args.now (state_of store.old steps)) }
    ensures sound { IfOk result (λ v. IsSound store.new.heap v) }
    ensures shape { KeepsShape store.old.heap store.new.heap }
    ensures classes { AddsNoClass store.old.heap store.new.heap }
    ensures same { OnErr result (store.new ≡ store.old) }
    ensures counters { KeepsCounters store.old store.new }
{
    let [x] = args else {
        return Err(Fault::Arguments.end(alloc));
    };
    let x = x.copy()?;
    push(store, at, x)
}

/// Puts a value at the end of a list, for one cell, and answers None.
#[inline(always)]
fn push(store: &mut Store, at: Oid, x: Value) -> Result<Value, OpEnd>
    requires held { IsHeld store.old.heap at }
    requires list { Names store.old.heap IsList at }
    requires x { IsSound store.old.heap x }
    ensures plain { (steps : ℕ) → Meets result (state_of store.new steps)
        (grows 1 at (pushed x) (state_of store.old steps)) }
    ensures sound { IfOk result (λ v. IsSound store.new.heap v) }
    ensures shape { KeepsShape store.old.heap store.new.heap }
    ensures classes { AddsNoClass store.old.heap store.new.heap }
    ensures same { OnErr result (store.new ≡ store.old) }
    ensures counters { KeepsCounters store.old store.new }
{
    store.push(at, x)?;
    Ok(Value::Rock(Rock::Nil))
}

/// `xs.extend(w)`: puts what walking a value gives at the end of a list, for a cell each.
pub(crate) fn extend(
    alloc: Global,
    store: &mut Store,
    meter: &mut Meter,
    at: Oid,
    args: &[Value],
) -> Result<Value, OpEnd>
    requires held { IsHeld store.old.heap at }
    requires list { Names store.old.heap IsList at }
    requires args { AreSound store.old.heap args.now }
    ensures plain { Meets result (state_of store.new meter.new.left)
        (extend at args.now (state_of store.old meter.old.left)) }
    ensures sound { IfOk result (λ v. IsSound store.new.heap v) }
    ensures shape { KeepsShape store.old.heap store.new.heap }
    ensures classes { AddsNoClass store.old.heap store.new.heap }
    ensures same { OnErr result (store.new.heap ≡ store.old.heap) }
    ensures fewer { meter.new.left ≤ meter.old.left }
    ensures counters { KeepsCounters store.old store.new }
{
    let [w] = args else {
        return Err(Fault::Arguments.end(alloc));
    };
    extend_by(alloc, store, meter, at, w)
}

fn extend_by(
    alloc: Global,
    store: &mut Store,
    meter: &mut Meter,
    at: Oid,
    w: &Value,
) -> Result<Value, OpEnd>
    requires held { IsHeld store.old.heap at }
    requires list { Names store.old.heap IsList at }
    requires w { IsSound store.old.heap w.now }
    ensures plain { Meets result (state_of store.new meter.new.left)
        (on_value (elements w.now (state_of store.old meter.old.left)) (λ vs s. grows (length vs) at (extended vs) s)) }
    ensures sound { IfOk result (λ v. IsSound store.new.heap v) }
    ensures shape { KeepsShape store.old.heap store.new.heap }
    ensures classes { AddsNoClass store.old.heap store.new.heap }
    ensures same { OnErr result (store.new.heap ≡ store.old.heap) }
    ensures fewer { meter.new.left ≤ meter.old.left }
    ensures counters { KeepsCounters store.old store.new }
{
    let values = elements(alloc, store, meter, w)?;
    put_last(store, at, values)
}

/// Puts values at the end of a list, for a cell each, and answers None.
fn put_last(store: &mut Store, at: Oid, values: Vec<Value>) -> Result<Value, OpEnd>
    requires held { IsHeld store.old.heap at }
    requires list { Names store.old.heap IsList at }
    requires values { AreSound store.old.heap values.items }
    ensures plain { (steps : ℕ) → Meets result (state_of store.new steps)
        (grows (length values.items) at (extended values.items) (state_of store.old steps)) }
    ensures sound { IfOk result (λ v. IsSound store.new.heap v) }
    ensures shape { KeepsShape store.old.heap store.new.heap }
    ensures classes { AddsNoClass store.old.heap store.new.heap }
    ensures same { OnErr result (store.new ≡ store.old) }
    ensures counters { KeepsCounters store.old store.new }
{
    store.extend(at, values)?;
    Ok(Value::Rock(Rock::Nil))
}

/// `xs.insert(i, x)`: puts a value before the i-th of a list, for one cell. An index outside is brought into the range.
pub(crate) fn insert(
    alloc: Global,
    store: &mut Store,
    at: Oid,
    args: &[Value],
) -> Result<Value, OpEnd>
    requires held { IsHeld store.old.heap at }
    requires list { Names store.old.heap IsList at }
    requires args { AreSound store.old.heap args.now }
    ensures plain { (steps : ℕ) → Meets result (state_of store.new steps)
        (insert at args.now (state_of store.old steps)) }
    ensures sound { IfOk result (λ v. IsSound store.new.heap v) }
    ensures shape { KeepsShape store.old.heap store.new.heap }
    ensures classes { AddsNoClass store.old.heap store.new.heap }
    ensures same { OnErr result (store.new ≡ store.old) }
    ensures counters { KeepsCounters store.old store.new }
{
    let [i, x] = args else {
        return Err(Fault::Arguments.end(alloc));
    };
    insert_named(alloc, store, at, i, x)
}

fn insert_named(
    alloc: Global,
    store: &mut Store,
    at: Oid,
    i: &Value,
    x: &Value,
) -> Result<Value, OpEnd>
    requires held { IsHeld store.old.heap at }
    requires list { Names store.old.heap IsList at }
    requires x { IsSound store.old.heap x.now }
    ensures plain { (steps : ℕ) → Meets result (state_of store.new steps)
        (option_map_or (λ z. insert_at at z x.now (state_of store.old steps)) (index_number i.now)
        (wrong_argument (state_of store.old steps))) }
    ensures sound { IfOk result (λ v. IsSound store.new.heap v) }
    ensures shape { KeepsShape store.old.heap store.new.heap }
    ensures classes { AddsNoClass store.old.heap store.new.heap }
    ensures same { OnErr result (store.new ≡ store.old) }
    ensures counters { KeepsCounters store.old store.new }
{
    let Some(n) = index_number(i) else {
        return Err(Fault::Argument.end(alloc));
    };
    let x = x.copy()?;
    insert_at(store, at, n, x)
}

fn insert_at(store: &mut Store, at: Oid, i: i64, x: Value) -> Result<Value, OpEnd>
    requires held { IsHeld store.old.heap at }
    requires list { Names store.old.heap IsList at }
    requires x { IsSound store.old.heap x }
    ensures plain { (steps : ℕ) → Meets result (state_of store.new steps)
        (insert_at at i x (state_of store.old steps)) }
    ensures sound { IfOk result (λ v. IsSound store.new.heap v) }
    ensures shape { KeepsShape store.old.heap store.new.heap }
    ensures classes { AddsNoClass store.old.heap store.new.heap }
    ensures same { OnErr result (store.new ≡ store.old) }
    ensures counters { KeepsCounters store.old store.new }
{
    let place = place_before(list_length(store, at), i);
    insert_before(store, at, place, x)
}

/// Puts a value before the one at a place, for one cell, and answers None.
fn insert_before(store: &mut Store, at: Oid, place: usize, x: Value) -> Result<Value, OpEnd>
    requires held { IsHeld store.old.heap at }
    requires list { Names store.old.heap IsList at }
    requires place { place ≤ length (elements_at store.old.heap at) }
    requires x { IsSound store.old.heap x }
    ensures plain { (steps : ℕ) → Meets result (state_of store.new steps)
        (grows 1 at (inserted place x) (state_of store.old steps)) }
    ensures sound { IfOk result (λ v. IsSound store.new.heap v) }
    ensures shape { KeepsShape store.old.heap store.new.heap }
    ensures classes { AddsNoClass store.old.heap store.new.heap }
    ensures same { OnErr result (store.new ≡ store.old) }
    ensures counters { KeepsCounters store.old store.new }
{
    store.insert(at, place, x)?;
    Ok(Value::Rock(Rock::Nil))
}

/// `xs.reverse()`: puts the elements of a list in the opposite order.
pub(crate) fn reverse(
    alloc: Global,
    store: &mut Store,
    at: Oid,
    args: &[Value],
) -> Result<Value, OpEnd>
    requires held { IsHeld store.old.heap at }
    requires list { Names store.old.heap IsList at }
    ensures plain { (steps : ℕ) → Meets result (state_of store.new steps)
        (reversed at args.now (state_of store.old steps)) }
    ensures sound { IfOk result (λ v. IsSound store.new.heap v) }
    ensures shape { KeepsShape store.old.heap store.new.heap }
    ensures classes { AddsNoClass store.old.heap store.new.heap }
    ensures same { OnErr result (store.new ≡ store.old) }
    ensures counters { KeepsCounters store.old store.new }
{
    let [] = args else {
        return Err(Fault::Arguments.end(alloc));
    };
    let values = backwards(alloc, list_at(store, at))?;
    store.set_elements(at, values);
    Ok(Value::Rock(Rock::Nil))
}

/// Copies of values in the opposite order.
///
/// # Errors
/// `Memory` where a growth was refused.
fn backwards(alloc: Global, values: &[Value]) -> Result<Vec<Value>, Memory>
    ensures { IfOk result (λ v. v.items ≡ reverse values.now) }
{
    let mut all = copies(alloc, values)?;
    all.reverse();
    Ok(all)
}
