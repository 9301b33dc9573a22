//! Augmented assignment: lists grow in place.
#![tactic(auto, using(rp_store::proofs::CallerLemmas::goes_on))]

ghost use Rattle.std.specs.Prelude.{◌≡◌, ◌≤◌, ◌-◌, ℕ, [], None, Some, IfOk, OnErr};
ghost use Rattle.std.specs.Option.{option_map_or};
ghost use Rattle.rp_store.specs.Counters.{KeepsCounters};
ghost use Rattle.rp_store.specs.Heap.{IsHeld, Names, content_at};
ghost use Rattle.rp_store.specs.Kept.{AreSound, IsSound};
ghost use Rattle.rp_store.specs.Parts.{IsList};
ghost use Rattle.rp_ops.specs.Inplace.{extends, inplace, repeats_list};
ghost use Rattle.rp_ops.specs.Outcome.{Meets, state_of};
ghost use Rattle.rp_store.specs.Shape.{KeepsShape};
ghost use Rattle.rp_ops.specs.View.{grows, held_by, list_place, place_if_list};

use crate::binary_operators::{binary, wrong_operand};
use crate::cells::charge_copies;
use crate::operand::{Elements, elements_at, operand_of};
use crate::sequences::{copied, handed, times};
use crate::walk::elements;
use rp_base::{BinOp, Meter, Oid, OpEnd, Side, Value};
use rp_store::{Object, Store};
use std::alloc::Global;

/// `a op= b`, done by code of a side on values whose access decisions have been made, and the value that is stored back
/// (Python Language Reference, Augmented assignment statements). `+=` on a list walks b and then extends the list, for
/// a cell for each element, so `x += x` doubles it; `*=` repeats it in place, for a cell for each element and each time
/// but the first. All else is done as `binary` does it.
///
/// # Errors
/// - As `binary`, and as `elements` where b is walked.
/// - `StopCells` where the cells of the growth are over the limit.
///
/// After each of them the objects are as before, the list too; what the walk has cost stays used. The steps left never
/// rise, the limit of the cells stays, and no used cell is given back.
pub fn inplace(
    alloc: Global,
    store: &mut Store,
    meter: &mut Meter,
    side: Side,
    op: BinOp,
    a: &Value,
    b: &Value,
) -> Result<Value, OpEnd>
    requires a { IsSound store.old.heap a.now }
    requires b { IsSound store.old.heap b.now }
    ensures plain { Meets result (state_of store.new meter.new.left)
        (inplace side op a.now b.now (state_of store.old meter.old.left)) }
    ensures sound { IfOk result (λ v. IsSound store.new.heap v) }
    ensures shape { KeepsShape store.old.heap store.new.heap }
    ensures same { OnErr result (store.new.heap ≡ store.old.heap) }
    ensures fewer { meter.new.left ≤ meter.old.left }
    ensures counters { KeepsCounters store.old store.new }
{
    match op {
        BinOp::Add => add_inplace(alloc, store, meter, side, a, b),
        BinOp::Mul => multiply_inplace(alloc, store, meter, side, a, b),
        _ => binary(alloc, store, meter, side, op, a, b),
    }
}

fn add_inplace(
    alloc: Global,
    store: &mut Store,
    meter: &mut Meter,
    side: Side,
    a: &Value,
    b: &Value,
) -> Result<Value, OpEnd>
    requires a { IsSound store.old.heap a.now }
    requires b { IsSound store.old.heap b.now }
    ensures plain { Meets result (state_of store.new meter.new.left)
        (inplace side BinOp.Add a.now b.now (state_of store.old meter.old.left)) }
    ensures sound { IfOk result (λ v. IsSound store.new.heap v) }
    ensures shape { KeepsShape store.old.heap store.new.heap }
    ensures same { OnErr result (store.new.heap ≡ store.old.heap) }
    ensures fewer { meter.new.left ≤ meter.old.left }
    ensures counters { KeepsCounters store.old store.new }
{
    match list_place(store, a) {
        Some(at) => extend(alloc, store, meter, a, at, b),
        None => binary(alloc, store, meter, side, BinOp::Add, a, b),
    }
}

fn multiply_inplace(
    alloc: Global,
    store: &mut Store,
    meter: &mut Meter,
    side: Side,
    a: &Value,
    b: &Value,
) -> Result<Value, OpEnd>
    requires a { IsSound store.old.heap a.now }
    requires b { IsSound store.old.heap b.now }
    ensures plain { Meets result (state_of store.new meter.new.left)
        (inplace side BinOp.Mul a.now b.now (state_of store.old meter.old.left)) }
    ensures sound { IfOk result (λ v. IsSound store.new.heap v) }
    ensures shape { KeepsShape store.old.heap store.new.heap }
    ensures same { OnErr result (store.new.heap ≡ store.old.heap) }
    ensures fewer { meter.new.left ≤ meter.old.left }
    ensures counters { KeepsCounters store.old store.new }
{
    match list_place(store, a) {
        Some(at) => repeat_in_place(alloc, store, a, at, operand_of(store, b).number()),
        None => binary(alloc, store, meter, side, BinOp::Mul, a, b),
    }
}

/// The place of the list that a value names, plainly or through a proxy.
fn list_place(store: &Store, a: &Value) -> Option<Oid>
    requires { IsSound store.now.heap a.now }
    ensures { result ≡ list_place store.now.heap a.now }
{
    match a {
        Value::Rock(_) => None,
        Value::Ref(at) => place_if_list(store, *at),
        Value::Prox(at) => place_if_list(store, *at),
    }
}

fn place_if_list(store: &Store, at: Oid) -> Option<Oid>
    requires { IsHeld store.now.heap at }
    ensures { result ≡ option_map_or (place_if_list at) (content_at store.now.heap at) None }
{
    match store.object(at) {
        Object::List(_) => Some(at),
        _ => None,
    }
}

/// Puts what walking a value gives at the end of a list.
///
/// # Errors
/// As `elements`, and as `put_last`. The objects are then as before.
fn extend(
    alloc: Global,
    store: &mut Store,
    meter: &mut Meter,
    a: &Value,
    at: Oid,
    b: &Value,
) -> Result<Value, OpEnd>
    requires list { Names store.old.heap IsList at }
    requires a { IsSound store.old.heap a.now }
    requires b { IsSound store.old.heap b.now }
    ensures plain { Meets result (state_of store.new meter.new.left)
        (extends a.now at b.now (state_of store.old meter.old.left)) }
    ensures sound { IfOk result (λ v. IsSound store.new.heap v) }
    ensures shape { KeepsShape store.old.heap store.new.heap }
    ensures same { OnErr result (store.new.heap ≡ store.old.heap) }
    ensures fewer { meter.new.left ≤ meter.old.left }
    ensures counters { KeepsCounters store.old store.new }
{
    let same = handed(a, false)?;
    let values = elements(alloc, store, meter, b)?;
    put_last(store, same, at, values)
}

/// Puts values at the end of a list, for a cell each, and answers the value that names it.
///
/// # Errors
/// `StopCells` where they are over the limit, `Memory` where a growth was refused. The objects are then as before.
fn put_last(store: &mut Store, same: Value, at: Oid, values: Vec<Value>) -> Result<Value, OpEnd>
    requires list { Names store.old.heap IsList at }
    requires same { IsSound store.old.heap same }
    requires values { AreSound store.old.heap values.items }
    ensures plain { (steps : ℕ) → Meets result (state_of store.new steps)
        (grows same at values.items (state_of store.old steps)) }
    ensures sound { IfOk result (λ v. IsSound store.new.heap v) }
    ensures shape { KeepsShape store.old.heap store.new.heap }
    ensures same { OnErr result (store.new.heap ≡ store.old.heap) }
    ensures counters { KeepsCounters store.old store.new }
{
    store.extend(at, values)?;
    Ok(same)
}

/// Repeats the elements of a list in place, as they are.
///
/// # Errors
/// - `Raised` with `TypeError`, where there is no number of times.
/// - `StopCells` where the cells of the copies are over the limit, `Memory` where a growth was refused.
///
/// The objects are then as before.
fn repeat_in_place(
    alloc: Global,
    store: &mut Store,
    a: &Value,
    at: Oid,
    n: Option<i64>,
) -> Result<Value, OpEnd>
    requires list { Names store.old.heap IsList at }
    requires a { IsSound store.old.heap a.now }
    ensures plain { (steps : ℕ) → Meets result (state_of store.new steps)
        (repeats_list a.now at (option_map_or held_by (content_at store.old.heap at) []) n (state_of store.old steps)) }
    ensures sound { IfOk result (λ v. IsSound store.new.heap v) }
    ensures shape { KeepsShape store.old.heap store.new.heap }
    ensures same { OnErr result (store.new.heap ≡ store.old.heap) }
    ensures counters { KeepsCounters store.old store.new }
{
    match n {
        Some(n) => set_repeated(alloc, store, a, at, n),
        None => wrong_operand(alloc),
    }
}

/// The same, so many times over. Once over, the list stays as it is, and nothing is copied.
///
/// # Errors
/// As `repeat_in_place`, of `StopCells` and `Memory`.
fn set_repeated(
    alloc: Global,
    store: &mut Store,
    a: &Value,
    at: Oid,
    n: i64,
) -> Result<Value, OpEnd>
    requires list { Names store.old.heap IsList at }
    requires a { IsSound store.old.heap a.now }
    ensures plain { (steps : ℕ) → Meets result (state_of store.new steps)
        (repeats_list a.now at (option_map_or held_by (content_at store.old.heap at) []) (Some n)
        (state_of store.old steps)) }
    ensures sound { IfOk result (λ v. IsSound store.new.heap v) }
    ensures shape { KeepsShape store.old.heap store.new.heap }
    ensures same { OnErr result (store.new.heap ≡ store.old.heap) }
    ensures counters { KeepsCounters store.old store.new }
{
    let same = handed(a, false)?;
    let copies = times(n);
    let more = but_first(copies);
    let size = elements_at(store, at).len();
    charge_copies(store, 0, more, size as u64)?;
    if copies == 1 {
        return Ok(same);
    }
    let x = Elements { at, lent: false };
    let values = copied(alloc, store, x, copies as usize)?;
    store.kept();
    store.set_elements(at, values);
    Ok(same)
}

/// How many of so many copies are made where the first is there.
fn but_first(copies: u64) -> u64
    ensures { result ≡ copies - 1 }
{
    copies.saturating_sub(1)
}
