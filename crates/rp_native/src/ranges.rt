//! Ranges of numbers.
#![tactic(auto, using(rp_store::proofs::CallerLemmas::goes_on))]

ghost use Rattle.std.specs.Prelude.{◌≡◌, ◌≢◌, ◌∷◌, [], ◌+◌, ◌<◌, ◌+ℤ◌, ◌*◌, ◌*ℤ◌, ℕ, List, pos, unsigned_abs};
ghost use Rattle.std.specs.Prelude.{FitsSigned, IfOk, OnErr, SomeIff};
ghost use Rattle.std.specs.Int.{w64};
ghost use Rattle.rp_store.specs.Counters.{KeepsCounters};
ghost use Rattle.rp_store.specs.Heap.{Owned};
ghost use Rattle.rp_store.specs.Kept.{AreSound, IsSound};
ghost use Rattle.rp_store.specs.Object.{list};
ghost use Rattle.rp_ops.specs.Binary.{new_object as makes_object};
ghost use Rattle.rp_ops.specs.Growth.{Gains};
ghost use Rattle.rp_ops.specs.Outcome.{Meets, state_of};
ghost use Rattle.rp_items.specs.Slices.{distance};
ghost use Rattle.rp_native.specs.Objects.{IsContainerOf};
ghost use Rattle.rp_native.specs.RangeView.{moved, way};
ghost use Rattle.rp_native.specs.Ranges.{bounds_by, bounds_of, count, listed, member, numbers, range};

use crate::fault::Fault;
use crate::objects::new_container;
use rp_base::{Memory, OpEnd, Rock, Side, Value};
use rp_items::index_number;
use rp_ops::check_room;
use rp_store::{Object, Store};
use std::alloc::Global;

/// The first number of a range, the number before which it ends, and the step from one to the next.
#[derive(Clone, Copy, Debug, PartialEq, Eq)]
pub struct Bounds {
    pub from: i64,
    pub to: i64,
    pub step: i64,
}

/// `range(to)`, `range(from, to)` and `range(from, to, step)` (Python Standard Library, Ranges): a new list of a side,
/// for a cell and one for each number, which is charged before the list is made. It takes no step.
///
/// # Errors
/// - `Raised` with `TypeError`, whose text is `argument`, where one of them is no number and no truth value, or
///   `arguments`, where they are not one to three, or with `ValueError` and the text `range`, where the step is 0.
/// - `StopCells` where the cells are over the limit, `Memory` where a growth was refused.
///
/// The store is then as before.
pub(crate) fn range(
    alloc: Global,
    store: &mut Store,
    side: Side,
    args: &[Value],
) -> Result<Value, OpEnd>
    ensures plain { (steps : ℕ) → Meets result (state_of store.new steps)
        (range side args.now (state_of store.old steps)) }
    ensures sound { IfOk result (λ v. IsSound store.new.heap v) }
    ensures grown { Gains (IsContainerOf side) store.old.heap store.new.heap }
    ensures same { OnErr result (store.new ≡ store.old) }
    ensures counters { KeepsCounters store.old store.new }
{
    listed(alloc, store, side, bounds_of(args))
}

/// The same, of the bound alone.
pub(crate) fn range_to(
    alloc: Global,
    store: &mut Store,
    side: Side,
    to: &Value,
) -> Result<Value, OpEnd>
    ensures plain { (steps : ℕ) → Meets result (state_of store.new steps)
        (range side (to.now ∷ []) (state_of store.old steps)) }
    ensures sound { IfOk result (λ v. IsSound store.new.heap v) }
    ensures grown { Gains (IsContainerOf side) store.old.heap store.new.heap }
    ensures same { OnErr result (store.new ≡ store.old) }
    ensures counters { KeepsCounters store.old store.new }
{
    listed(
        alloc,
        store,
        side,
        bounds_by(Some(0), index_number(to), Some(1)),
    )
}

fn listed(
    alloc: Global,
    store: &mut Store,
    side: Side,
    bounds: Result<Bounds, Fault>,
) -> Result<Value, OpEnd>
    requires step { IfOk bounds (λ b. b.step ≢ pos 0) }
    ensures plain { (steps : ℕ) → Meets result (state_of store.new steps)
        (listed side bounds (state_of store.old steps)) }
    ensures sound { IfOk result (λ v. IsSound store.new.heap v) }
    ensures grown { Gains (IsContainerOf side) store.old.heap store.new.heap }
    ensures same { OnErr result (store.new ≡ store.old) }
    ensures counters { KeepsCounters store.old store.new }
{
    match bounds {
        Ok(bounds) => new_range(alloc, store, side, bounds),
        Err(fault) => Err(fault.end(alloc)),
    }
}

/// The bounds that the arguments are.
fn bounds_of(args: &[Value]) -> Result<Bounds, Fault>
    ensures named { result ≡ bounds_of args.now }
    ensures step { IfOk result (λ b. b.step ≢ pos 0) }
{
    match args {
        [to] => bounds_by(Some(0), index_number(to), Some(1)),
        [from, to] => bounds_by(index_number(from), index_number(to), Some(1)),
        [from, to, step] => bounds_by(index_number(from), index_number(to), index_number(step)),
        _ => Err(Fault::Count),
    }
}

fn bounds_by(from: Option<i64>, to: Option<i64>, step: Option<i64>) -> Result<Bounds, Fault>
    ensures named { result ≡ bounds_by from to step }
    ensures step { IfOk result (λ b. b.step ≢ pos 0) }
{
    match (from, to, step) {
        (Some(from), Some(to), Some(step)) => with_step(from, to, step),
        _ => Err(Fault::Argument),
    }
}

fn with_step(from: i64, to: i64, step: i64) -> Result<Bounds, Fault>
    ensures named { result ≡ bounds_by (Some from) (Some to) (Some step) }
    ensures step { IfOk result (λ b. b.step ≢ pos 0) }
{
    if step == 0 {
        return Err(Fault::Step);
    }
    Ok(Bounds { from, to, step })
}

fn new_range(alloc: Global, store: &mut Store, side: Side, bounds: Bounds) -> Result<Value, OpEnd>
    requires step { bounds.step ≢ pos 0 }
    ensures plain { (steps : ℕ) → Meets result (state_of store.new steps)
        (makes_object side (list (numbers bounds)) (state_of store.old steps)) }
    ensures sound { IfOk result (λ v. IsSound store.new.heap v) }
    ensures grown { Gains (IsContainerOf side) store.old.heap store.new.heap }
    ensures same { OnErr result (store.new ≡ store.old) }
    ensures counters { KeepsCounters store.old store.new }
{
    check_room(store, count(bounds).saturating_add(1))?;
    let numbers = numbers(alloc, bounds)?;
    new_container(store, side, Object::List(numbers))
}

/// How many numbers there are before the last bound is reached.
fn count(bounds: Bounds) -> u64
    requires { bounds.step ≢ pos 0 }
    ensures { result ≡ count bounds }
{
    way(bounds).div_ceil(bounds.step.unsigned_abs())
}

/// How far it is from the first number to the bound.
fn way(bounds: Bounds) -> u64
    ensures { result ≡ way bounds }
{
    if bounds.step < 0 {
        distance(bounds.to, bounds.from)
    } else {
        distance(bounds.from, bounds.to)
    }
}

/// The distance from one number up to another, 0 where that is below.
fn distance(from: i64, to: i64) -> u64
    ensures { result ≡ distance from to }
{
    if to < from { 0 } else { to.abs_diff(from) }
}

fn numbers(alloc: Global, bounds: Bounds) -> Result<Vec<Value>, Memory>
    requires step { bounds.step ≢ pos 0 }
    ensures numbers { IfOk result (λ v. v.items ≡ numbers bounds) }
    ensures sound { (heap : List Owned) → IfOk result (λ v. AreSound heap v.items) }
{
    let count = count(bounds);
    let mut numbers = Vec::with_capacity(alloc, count as usize)?;
    for m in 0..count {
        numbers.push_reserved(member(bounds, m));
    }
    Ok(numbers)
}

/// The m-th number.
#[inline(always)]
fn member(bounds: Bounds, m: u64) -> Value
    requires step { bounds.step ≢ pos 0 }
    requires within { m < count bounds }
    ensures { result ≡ member bounds m }
{
    Value::Rock(Rock::Int(number_at(bounds, m)))
}

/// The first number and m times the step.
#[inline(always)]
fn number_at(bounds: Bounds, m: u64) -> i64
    requires step { bounds.step ≢ pos 0 }
    requires within { m < count bounds }
    ensures { result ≡ bounds.from +ℤ pos m *ℤ bounds.step }
{
    let away = away(bounds, m);
    match moved(bounds.from, bounds.step, away) {
        Some(number) => number,
        None => unreachable!(),
    }
}

/// How far the m-th number is from the first one.
#[inline(always)]
fn away(bounds: Bounds, m: u64) -> u64
    requires step { bounds.step ≢ pos 0 }
    requires within { m < count bounds }
    ensures { result ≡ m * unsigned_abs bounds.step }
{
    m * bounds.step.unsigned_abs()
}

/// The number so far away; None where it is outside 64 bits.
#[inline(always)]
fn moved(from: i64, step: i64, away: u64) -> Option<i64>
    ensures { SomeIff result (FitsSigned w64 (moved from step away)) (moved from step away) }
{
    if step < 0 {
        from.checked_sub_unsigned(away)
    } else {
        from.checked_add_unsigned(away)
    }
}
