//! Several values walked side by side.
#![tactic(auto, using(rp_store::proofs::CallerLemmas::goes_on))]

ghost use Rattle.std.specs.Prelude.{◌≡◌, ◌∷◌, ◌++◌, ◌≤◌, [], List, ℕ, fold, length, map, min, All, IfOk, OnOk};
ghost use Rattle.rp_store.specs.Counters.{KeepsCounters};
ghost use Rattle.rp_store.specs.Heap.{Owned};
ghost use Rattle.rp_store.specs.Kept.{AreSound, IsSound};
ghost use Rattle.rp_ops.specs.Growth.{Gains};
ghost use Rattle.rp_ops.specs.Outcome.{Answers, Meets, State, state_of, stepped};
ghost use Rattle.rp_ops.specs.Walk.{Cursor as Place, IsWalkHeld, not_walked};
ghost use Rattle.rp_native.specs.Objects.{IsContainerOf};
ghost use Rattle.rp_native.specs.TableView.{rows_of};
ghost use Rattle.rp_native.specs.ZipView.{element_given, row_given, rows_given, walks_given};
ghost use Rattle.rp_native.specs.Zips.{element, row, rows, shortest, size, walks, zip};

use crate::numbers::length_of;
use crate::tables::new_table;
use rp_base::{Memory, Meter, OpEnd, Side, Value};
use rp_ops::{Cursor, Refusal, step, walk_of};
use rp_store::Store;
use std::alloc::Global;

/// `zip(..)` (Python Standard Library, Built-in Functions): a new list of a side, of new tuples, each of the next
/// element of every argument, as many as the shortest has; an empty list of no arguments. First each has to be one that
/// can be walked. Each tuple takes a step, and a character of a text then costs its bytes. The list and the tuples cost
/// a cell each and one for each element, which are charged together once all is walked.
///
/// # Errors
/// - `Raised` with `TypeError` and the text `iterate`, where one of them cannot be walked.
/// - `StopSteps` where no step is left for a tuple, `StopCells` where the cells are over the limit.
/// - `Memory` where a growth was refused.
pub(crate) fn zip(
    alloc: Global,
    store: &mut Store,
    meter: &mut Meter,
    side: Side,
    args: &[Value],
) -> Result<Value, OpEnd>
    requires sound { AreSound store.old.heap args.now }
    ensures plain { Meets result (state_of store.new meter.new.left)
        (zip side args.now (state_of store.old meter.old.left)) }
    ensures sound { IfOk result (λ v. IsSound store.new.heap v) }
    ensures grown { Gains (IsContainerOf side) store.old.heap store.new.heap }
    ensures fewer { meter.new.left ≤ meter.old.left }
    ensures counters { KeepsCounters store.old store.new }
{
    let mut walks = walks(alloc, store, args)?;
    let count = shortest(store, args);
    let rows = rows(alloc, store, meter, walks.as_mut_slice(), count)?;
    new_table(alloc, store, side, args.len(), rows)
}

/// A walk of each value.
///
/// # Errors
/// As `walk_of`.
fn walks(alloc: Global, store: &Store, values: &[Value]) -> Result<Vec<Cursor>, OpEnd>
    requires sound { AreSound store.now.heap values.now }
    ensures plain { Answers (walks_given result) (walks store.now.heap values.now) }
    ensures held { IfOk result (λ walks. All (IsWalkHeld store.now.heap) walks.items) }
    ensures count { IfOk result (λ walks. length walks.items ≡ length values.now) }
{
    let mut walks = Vec::new(alloc);
    for value in values {
        let walk = walk_of(alloc, store, value)?;
        put_walk(&mut walks, walk)?;
    }
    Ok(walks)
}

/// How many elements the shortest value has; 0 of no values.
fn shortest(store: &Store, values: &[Value]) -> usize
    requires sound { AreSound store.now.heap values.now }
    ensures { result ≡ shortest store.now.heap values.now }
{
    let Some((first, rest)) = values.split_first() else {
        return 0;
    };
    least_size(store, size(store, first), rest)
}

/// The least of a number and the sizes of values.
fn least_size(store: &Store, first: usize, values: &[Value]) -> usize
    requires sound { AreSound store.now.heap values.now }
    ensures { result ≡ fold min first (map (size store.now.heap) values.now) }
{
    let mut least = first;
    for value in values {
        least = least.min(size(store, value));
    }
    least
}

fn size(store: &Store, value: &Value) -> usize
    requires sound { IsSound store.now.heap value.now }
    ensures { result ≡ size store.now.heap value.now }
{
    length_of(store, value).unwrap_or(0)
}

/// So many rows, each for a step.
fn rows(
    alloc: Global,
    store: &mut Store,
    meter: &mut Meter,
    walks: &mut [Cursor],
    count: usize,
) -> Result<Vec<Vec<Value>>, OpEnd>
    requires held { All (IsWalkHeld store.old.heap) walks.old }
    ensures plain { Meets (rows_given result) (state_of store.new meter.new.left)
        (rows count walks.old (state_of store.old meter.old.left)) }
    ensures same { store.new.heap ≡ store.old.heap }
    ensures width { IfOk result (λ rows. All (λ row. length row ≡ length walks.old) (rows_of rows.items)) }
    ensures sound { IfOk result (λ rows. All (AreSound store.new.heap) (rows_of rows.items)) }
    ensures fewer { meter.new.left ≤ meter.old.left }
    ensures counters { KeepsCounters store.old store.new }
{
    let mut rows = no_rows(alloc, count.min(meter.left as usize))?;
    for _ in 0..count {
        let row = next_row(alloc, store, meter, walks)?;
        put_row(&mut rows, row)?;
    }
    Ok(rows)
}

/// The next row, for a step.
#[inline(always)]
fn next_row(
    alloc: Global,
    store: &mut Store,
    meter: &mut Meter,
    walks: &mut [Cursor],
) -> Result<Vec<Value>, OpEnd>
    requires held { All (IsWalkHeld store.old.heap) walks.old }
    ensures plain { Meets (row_given walks.new result) (state_of store.new meter.new.left)
        (stepped (state_of store.old meter.old.left) (row walks.old)) }
    ensures same { store.new.heap ≡ store.old.heap }
    ensures held { All (IsWalkHeld store.new.heap) walks.new }
    ensures count { length walks.new ≡ length walks.old }
    ensures width { IfOk result (λ row. length row.items ≡ length walks.old) }
    ensures sound { IfOk result (λ row. AreSound store.new.heap row.items) }
    ensures fewer { meter.new.left ≤ meter.old.left }
    ensures counters { KeepsCounters store.old store.new }
{
    step(meter)?;
    row(alloc, store, walks)
}

/// The next element of every walk.
#[inline(always)]
fn row(alloc: Global, store: &mut Store, walks: &mut [Cursor]) -> Result<Vec<Value>, OpEnd>
    requires held { All (IsWalkHeld store.old.heap) walks.old }
    ensures plain { (steps : ℕ) → Meets (row_given walks.new result) (state_of store.new steps)
        (row walks.old (state_of store.old steps)) }
    ensures same { store.new.heap ≡ store.old.heap }
    ensures held { All (IsWalkHeld store.new.heap) walks.new }
    ensures count { length walks.new ≡ length walks.old }
    ensures width { IfOk result (λ row. length row.items ≡ length walks.old) }
    ensures sound { IfOk result (λ row. AreSound store.new.heap row.items) }
    ensures counters { KeepsCounters store.old store.new }
{
    let mut row = no_values(alloc, walks.len())?;
    for walk in walks.iter_mut() {
        let value = element(alloc, store, walk)?;
        put(&mut row, value)?;
    }
    Ok(row)
}

/// The next element of a walk, for which no step is taken of those that are left.
#[inline(always)]
fn element(alloc: Global, store: &mut Store, walk: &mut Cursor) -> Result<Value, OpEnd>
    requires held { IsWalkHeld store.old.heap walk.old }
    ensures plain { (steps : ℕ) → Meets (element_given walk.new result) (state_of store.new steps)
        (element walk.old (state_of store.old steps)) }
    ensures same { store.new.heap ≡ store.old.heap }
    ensures held { IsWalkHeld store.new.heap walk.new }
    ensures sound { IfOk result (λ v. IsSound store.new.heap v) }
    ensures counters { KeepsCounters store.old store.new }
{
    let mut own = Meter { left: 1 };
    match walk.next(alloc, store, &mut own) {
        Ok(Some(value)) => Ok(value),
        Ok(None) => not_walked(alloc),
        Err(end) => Err(end),
    }
}

#[cold]
#[inline(never)]
fn not_walked(alloc: Global) -> Result<Value, OpEnd>
    ensures plain { (walk : Place) (s : State) → Meets (element_given walk result) s (not_walked s) }
    ensures sound { (heap : List Owned) → IfOk result (λ v. IsSound heap v) }
{
    Err(Refusal::Iterate.end(alloc))
}

// A growth that was refused is `Memory` in functions of their own, since a `?` makes no `OpEnd` of an `AllocFailed`.

/// An empty row, with room for so many values.
#[inline(always)]
fn no_values(alloc: Global, count: usize) -> Result<Vec<Value>, Memory>
    ensures { IfOk result (λ row. row.items ≡ []) }
{
    Ok(Vec::with_capacity(alloc, count)?)
}

/// No rows, with room for so many.
fn no_rows(alloc: Global, count: usize) -> Result<Vec<Vec<Value>>, Memory>
    ensures { IfOk result (λ rows. rows.items ≡ []) }
{
    Ok(Vec::with_capacity(alloc, count)?)
}

#[inline(always)]
fn put(row: &mut Vec<Value>, value: Value) -> Result<(), Memory>
    ensures { OnOk result (row.new.items ≡ row.old.items ++ value ∷ []) }
{
    row.push(value)?;
    Ok(())
}

#[inline(always)]
fn put_row(rows: &mut Vec<Vec<Value>>, row: Vec<Value>) -> Result<(), Memory>
    ensures { OnOk result (rows_of rows.new.items ≡ rows_of rows.old.items ++ row.items ∷ []) }
{
    rows.push(row)?;
    Ok(())
}

fn put_walk(walks: &mut Vec<Cursor>, walk: Cursor) -> Result<(), Memory>
    ensures { OnOk result (walks.new.items ≡ walks.old.items ++ walk ∷ []) }
{
    walks.push(walk)?;
    Ok(())
}
