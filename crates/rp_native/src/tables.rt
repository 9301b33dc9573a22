//! Lists of tuples.
#![tactic(auto, using(rp_store::proofs::CallerLemmas::goes_on))]

ghost use Rattle.std.specs.Prelude.{◌≡◌, ◌∷◌, ◌+◌, ◌<◌, ◌≤◌, ◌^◌, [], ℕ, length, pos, All, IfOk, OnOk};
ghost use Rattle.rp_store.specs.Counters.{KeepsCounters};
ghost use Rattle.rp_store.specs.Kept.{AreSound, IsSound};
ghost use Rattle.rp_ops.specs.Growth.{Gains};
ghost use Rattle.rp_ops.specs.Outcome.{Meets, state_of};
ghost use Rattle.rp_native.specs.Objects.{IsContainerOf};
ghost use Rattle.rp_native.specs.Tables.{enumerate, numbered, references, table, with_table, with_tuples};
ghost use Rattle.rp_native.specs.TableView.{rows_of};

use rp_base::{Memory, Meter, OpEnd, Rock, Side, Value};
use rp_ops::{charge_copies, elements};
use rp_store::{Object, Store};
use std::alloc::Global;

/// The cells of a tuple of two elements, and of the reference to it in a list.
const CELLS_OF_A_PAIR: u64 = 4;

/// `enumerate(value)` (Python Standard Library, Built-in Functions): a new list of a side, of new tuples, each of an
/// index from 0 and what walking the value gives there. The list and the tuples cost a cell each and one for each
/// element, which are charged together once all is walked. Each element takes a step, and a character of a text then
/// costs its bytes.
///
/// # Errors
/// - As `elements`, for the walk.
/// - `StopCells` where the cells are over the limit, `Memory` where a growth was refused.
pub(crate) fn enumerate(
    alloc: Global,
    store: &mut Store,
    meter: &mut Meter,
    side: Side,
    value: &Value,
) -> Result<Value, OpEnd>
    requires sound { IsSound store.old.heap value.now }
    ensures plain { Meets result (state_of store.new meter.new.left)
        (enumerate side value.now (state_of store.old meter.old.left)) }
    ensures sound { IfOk result (λ v. IsSound store.new.heap v) }
    ensures grown { Gains (IsContainerOf side) store.old.heap store.new.heap }
    ensures fewer { meter.new.left ≤ meter.old.left }
    ensures counters { KeepsCounters store.old store.new }
{
    let values = elements(alloc, store, meter, value)?;
    new_numbered(alloc, store, side, values)
}

/// A new list of a side, of new tuples, each of a value behind its index, which are charged together.
///
/// # Errors
/// As `new_table`.
fn new_numbered(
    alloc: Global,
    store: &mut Store,
    side: Side,
    values: Vec<Value>,
) -> Result<Value, OpEnd>
    requires sound { AreSound store.old.heap values.items }
    ensures plain { (steps : ℕ) → Meets result (state_of store.new steps)
        (table side (numbered 0 values.items) (state_of store.old steps)) }
    ensures sound { IfOk result (λ v. IsSound store.new.heap v) }
    ensures grown { Gains (IsContainerOf side) store.old.heap store.new.heap }
    ensures counters { KeepsCounters store.old store.new }
{
    charge_copies(store, 1, values.len() as u64, CELLS_OF_A_PAIR)?;
    let value = add_numbered(alloc, store, side, values)?;
    Ok(value)
}

/// The same, without a charge.
///
/// # Errors
/// `Memory` where a growth was refused.
fn add_numbered(
    alloc: Global,
    store: &mut Store,
    side: Side,
    values: Vec<Value>,
) -> Result<Value, Memory>
    requires sound { AreSound store.old.heap values.items }
    ensures made { OnOk result (store.new ≡ with_table side (numbered 0 values.items) store.old) }
    ensures place { IfOk result (λ v. v ≡ Value.Ref
        (record { 0 = length store.old.heap + length (numbered 0 values.items) })) }
    ensures sound { IfOk result (λ v. IsSound store.new.heap v) }
    ensures grown { Gains (IsContainerOf side) store.old.heap store.new.heap }
    ensures counters { KeepsCounters store.old store.new }
{
    let tuples = add_pairs(alloc, store, side, values)?;
    let at = store.add(side, Object::List(tuples))?;
    Ok(Value::Ref(at))
}

/// A tuple of each value behind its index, and references to them.
///
/// # Errors
/// `Memory` where a growth was refused.
fn add_pairs(
    alloc: Global,
    store: &mut Store,
    side: Side,
    values: Vec<Value>,
) -> Result<Vec<Value>, Memory>
    requires sound { AreSound store.old.heap values.items }
    ensures made { OnOk result (store.new ≡ with_tuples side (numbered 0 values.items) store.old) }
    ensures places { IfOk result (λ v. v.items
        ≡ references (length store.old.heap) (length (numbered 0 values.items))) }
    ensures sound { IfOk result (λ v. AreSound store.new.heap v.items) }
    ensures grown { Gains (IsContainerOf side) store.old.heap store.new.heap }
    ensures counters { KeepsCounters store.old store.new }
{
    let mut tuples = Vec::with_capacity(alloc, values.len())?;
    for value in values {
        let row = row_of(alloc, tuples.len(), value)?;
        let at = store.add(side, Object::Tuple(row))?;
        tuples.push(Value::Ref(at))?;
    }
    Ok(tuples)
}

/// A value behind an index.
///
/// # Errors
/// `Memory` where a growth was refused.
#[inline(always)]
fn row_of(alloc: Global, index: usize, value: Value) -> Result<Vec<Value>, Memory>
    requires { index < 2 ^ 63 }
    ensures { IfOk result (λ row. row.items ≡ Value.Rock (Rock.Int (pos index)) ∷ value ∷ []) }
{
    let mut row = Vec::with_capacity(alloc, 2)?;
    row.push(number(index))?;
    row.push(value)?;
    Ok(row)
}

/// An index as a number.
#[inline(always)]
fn number(index: usize) -> Value
    requires { index < 2 ^ 63 }
    ensures { result ≡ Value.Rock (Rock.Int (pos index)) }
{
    Value::Rock(Rock::Int(index as i64))
}

/// A new list of a side, of new tuples of so many elements each, which are charged together.
///
/// # Errors
/// `StopCells` exactly where the cells are over the limit; then the store is as before. `Memory` where a growth was
/// refused.
pub(crate) fn new_table(
    alloc: Global,
    store: &mut Store,
    side: Side,
    width: usize,
    rows: Vec<Vec<Value>>,
) -> Result<Value, OpEnd>
    requires width { All (λ row. length row ≡ width) (rows_of rows.items) }
    requires sound { All (AreSound store.old.heap) (rows_of rows.items) }
    ensures plain { (steps : ℕ) → Meets result (state_of store.new steps)
        (table side (rows_of rows.items) (state_of store.old steps)) }
    ensures sound { IfOk result (λ v. IsSound store.new.heap v) }
    ensures grown { Gains (IsContainerOf side) store.old.heap store.new.heap }
    ensures counters { KeepsCounters store.old store.new }
{
    let cells = (width as u64).saturating_add(2);
    charge_copies(store, 1, rows.len() as u64, cells)?;
    let value = add_table(alloc, store, side, rows)?;
    Ok(value)
}

/// The same, without a charge.
///
/// # Errors
/// `Memory` where a growth was refused.
fn add_table(
    alloc: Global,
    store: &mut Store,
    side: Side,
    rows: Vec<Vec<Value>>,
) -> Result<Value, Memory>
    requires sound { All (AreSound store.old.heap) (rows_of rows.items) }
    ensures made { OnOk result (store.new ≡ with_table side (rows_of rows.items) store.old) }
    ensures place { IfOk result (λ v. v ≡ Value.Ref
        (record { 0 = length store.old.heap + length (rows_of rows.items) })) }
    ensures sound { IfOk result (λ v. IsSound store.new.heap v) }
    ensures grown { Gains (IsContainerOf side) store.old.heap store.new.heap }
    ensures counters { KeepsCounters store.old store.new }
{
    let tuples = add_tuples(alloc, store, side, rows)?;
    let at = store.add(side, Object::List(tuples))?;
    Ok(Value::Ref(at))
}

/// A tuple of each row, and references to them.
///
/// # Errors
/// `Memory` where a growth was refused.
fn add_tuples(
    alloc: Global,
    store: &mut Store,
    side: Side,
    rows: Vec<Vec<Value>>,
) -> Result<Vec<Value>, Memory>
    requires sound { All (AreSound store.old.heap) (rows_of rows.items) }
    ensures made { OnOk result (store.new ≡ with_tuples side (rows_of rows.items) store.old) }
    ensures places { IfOk result (λ v. v.items ≡ references (length store.old.heap) (length (rows_of rows.items))) }
    ensures sound { IfOk result (λ v. AreSound store.new.heap v.items) }
    ensures grown { Gains (IsContainerOf side) store.old.heap store.new.heap }
    ensures counters { KeepsCounters store.old store.new }
{
    let mut tuples = Vec::with_capacity(alloc, rows.len())?;
    for row in rows {
        let at = store.add(side, Object::Tuple(row))?;
        tuples.push(Value::Ref(at))?;
    }
    Ok(tuples)
}
