//! Sums of what is walked.
#![tactic(auto, using(rp_store::proofs::CallerLemmas::goes_on))]

ghost use Rattle.std.specs.Prelude.{◌≡◌, ◌∷◌, ◌≤◌, Err, IfErr, ◌+ℤ◌, List, ℤ, filter_map, is_some, pos, IfOk};
ghost use Rattle.rp_store.specs.Counters.{KeepsCounters};
ghost use Rattle.rp_store.specs.Heap.{Owned};
ghost use Rattle.rp_store.specs.Kept.{IsSound};
ghost use Rattle.rp_ops.specs.Binary.{number_value};
ghost use Rattle.rp_ops.specs.Keys.{index_number};
ghost use Rattle.rp_ops.specs.Numbers.{fitted};
ghost use Rattle.rp_ops.specs.Outcome.{Answers, Meets, State, state_of};
ghost use Rattle.rp_native.specs.Walked.{are_numbers, sum, sum_of, summed};

use crate::fault::Fault;
use rp_base::{Meter, OpEnd, Rock, Value};
use rp_items::index_number;
use rp_ops::{Refusal, elements};
use rp_store::Store;
use std::alloc::Global;

/// `sum(value)` (Python Standard Library, Built-in Functions): what is walked is added up, from the left, beginning
/// with 0. True and False count as 1 and 0. Each element takes a step, and a character of a text then costs its bytes.
///
/// # Errors
/// - As `elements`, for the walk.
/// - `Raised` with `TypeError` and the text `argument`, where one of the elements is no number and no truth value, or
///   else with `OverflowError` and the text `int`, where a partial sum is outside 64 bits.
/// - `Memory` where there is none for the text of the exception.
pub(crate) fn sum(
    alloc: Global,
    store: &mut Store,
    meter: &mut Meter,
    value: &Value,
) -> Result<Value, OpEnd>
    requires sound { IsSound store.old.heap value.now }
    ensures plain { Meets result (state_of store.new meter.new.left)
        (sum value.now (state_of store.old meter.old.left)) }
    ensures same { store.new.heap ≡ store.old.heap }
    ensures sound { (heap : List Owned) → IfOk result (λ v. IsSound heap v) }
    ensures fewer { meter.new.left ≤ meter.old.left }
    ensures counters { KeepsCounters store.old store.new }
{
    let values = elements(alloc, store, meter, value)?;
    sum_of(alloc, values.as_slice())
}

fn sum_of(alloc: Global, values: &[Value]) -> Result<Value, OpEnd>
    ensures plain { (s : State) → Meets result s (sum_of values.now s) }
    ensures sound { (heap : List Owned) → IfOk result (λ v. IsSound heap v) }
{
    if !are_numbers(values) {
        return Err(Fault::Argument.end(alloc));
    }
    summed(alloc, values)
}

/// Whether each is a number or a truth value.
pub(crate) fn are_numbers(values: &[Value]) -> bool
    ensures { result ≡ are_numbers values.now }
{
    values.iter().all(is_number)
}

fn is_number(value: &Value) -> bool
    ensures { result ≡ is_some (index_number value.now) }
{
    index_number(value).is_some()
}

/// The sum of the numbers among values.
fn summed(alloc: Global, values: &[Value]) -> Result<Value, OpEnd>
    ensures plain { (s : State) → Meets result s
        (number_value (summed (pos 0) (filter_map index_number values.now)) s) }
    ensures sound { (heap : List Owned) → IfOk result (λ v. IsSound heap v) }
{
    let mut total = 0;
    for value in values {
        total = with_number(alloc, total, value)?;
    }
    Ok(Value::Rock(Rock::Int(total)))
}

/// The sum of a number and the number that a value is; the number alone where it is none.
///
/// # Errors
/// `Raised` with `OverflowError`, where the sum is outside 64 bits; `Memory` where there is none for its text.
fn with_number(alloc: Global, total: i64, value: &Value) -> Result<i64, OpEnd>
    ensures goes { IfOk result (λ sum. (vs : List Value) → summed total (filter_map index_number (value.now ∷ vs))
        ≡ summed sum (filter_map index_number vs)) }
    ensures fails { IfErr result (λ e. (vs : List Value) (s : State)
        → Meets {A = Value} (Err e) s (number_value (summed total (filter_map index_number (value.now ∷ vs))) s)) }
{
    match index_number(value) {
        Some(n) => fitted_sum(alloc, total, n),
        None => Ok(total),
    }
}

fn fitted_sum(alloc: Global, total: i64, n: i64) -> Result<i64, OpEnd>
    ensures { Answers result (fitted (total +ℤ n)) }
{
    match total.checked_add(n) {
        Some(sum) => Ok(sum),
        None => Err(Refusal::Overflow.end(alloc)),
    }
}
