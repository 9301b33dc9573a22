//! Sorted lists.
#![tactic(auto, using(rp_store::proofs::CallerLemmas::goes_on))]

ghost use Rattle.std.specs.Prelude.{◌≡◌, ◌≤◌, ℕ, List, encode_utf8_all, true, IfOk, OnErr};
ghost use Rattle.std.specs.List.{list_all};
ghost use Rattle.rp_store.specs.Counters.{KeepsCounters};
ghost use Rattle.rp_store.specs.Heap.{Owned};
ghost use Rattle.rp_store.specs.Kept.{AreSound, IsSound};
ghost use Rattle.rp_ops.specs.Growth.{Gains};
ghost use Rattle.rp_ops.specs.Outcome.{Meets, state_of};
ghost use Rattle.rp_native.specs.Extremes.{have_order, is_less, is_text};
ghost use Rattle.rp_native.specs.Objects.{IsContainerOf};
ghost use Rattle.rp_native.specs.OrderSteps.{number_key, text_key, text_order};
ghost use Rattle.rp_native.specs.Sorted.{in_order, sorted, sorted_list};
ghost use Rattle.rp_native.specs.Walked.{are_numbers};

use crate::extremes::have_order;
use crate::fault::Fault;
use crate::objects::new_container;
use crate::sums::are_numbers;
use rp_base::{Memory, Meter, OpEnd, Rock, Side, Text, Value};
use rp_items::index_number;
use rp_ops::elements;
use rp_store::{Object, Store};
use std::alloc::Global;
use std::cmp::Ordering;

/// `sorted(value)` (Python Standard Library, Built-in Functions): a new list of a side, of what walking the value
/// gives, the least first, for a cell and one for each element. Those that are not less than one another keep their
/// order. Each element takes a step, and a character of a text then costs its bytes.
///
/// # Errors
/// - As `elements`, for the walk.
/// - `Raised` with `TypeError` and the text `argument`, where they are neither all numbers and truth values nor all
///   texts.
/// - `StopCells` where the cells are over the limit, `Memory` where a growth was refused.
///
/// After each of them the objects are as before.
pub(crate) fn sorted(
    alloc: Global,
    store: &mut Store,
    meter: &mut Meter,
    side: Side,
    value: &Value,
) -> Result<Value, OpEnd>
    requires sound { IsSound store.old.heap value.now }
    ensures plain { Meets result (state_of store.new meter.new.left)
        (sorted side value.now (state_of store.old meter.old.left)) }
    ensures sound { IfOk result (λ v. IsSound store.new.heap v) }
    ensures grown { Gains (IsContainerOf side) store.old.heap store.new.heap }
    ensures same { OnErr result (store.new.heap ≡ store.old.heap) }
    ensures fewer { meter.new.left ≤ meter.old.left }
    ensures counters { KeepsCounters store.old store.new }
{
    let values = elements(alloc, store, meter, value)?;
    sorted_list(alloc, store, side, values)
}

fn sorted_list(
    alloc: Global,
    store: &mut Store,
    side: Side,
    values: Vec<Value>,
) -> Result<Value, OpEnd>
    requires sound { AreSound store.old.heap values.items }
    ensures plain { (steps : ℕ) → Meets result (state_of store.new steps)
        (sorted_list side values.items (state_of store.old steps)) }
    ensures sound { IfOk result (λ v. IsSound store.new.heap v) }
    ensures grown { Gains (IsContainerOf side) store.old.heap store.new.heap }
    ensures same { OnErr result (store.new ≡ store.old) }
    ensures counters { KeepsCounters store.old store.new }
{
    if !have_order(values.as_slice()) {
        return Err(Fault::Argument.end(alloc));
    }
    let values = in_order(values)?;
    new_container(store, side, Object::List(values))
}

/// The values, the least first.
///
/// # Errors
/// `Memory` where a growth was refused.
fn in_order(values: Vec<Value>) -> Result<Vec<Value>, Memory>
    requires ordered { have_order values.items ≡ true }
    ensures sorted { IfOk result (λ v. v.items ≡ in_order is_less values.items) }
    ensures sound { (heap : List Owned) → AreSound heap values.items → IfOk result (λ v. AreSound heap v.items) }
{
    if are_numbers(values.as_slice()) {
        return numbers_in_order(values);
    }
    texts_in_order(values)
}

/// Numbers and truth values, the least first: the number of each is found once.
///
/// # Errors
/// `Memory` where a growth was refused.
fn numbers_in_order(mut values: Vec<Value>) -> Result<Vec<Value>, Memory>
    requires numbers { are_numbers values.items ≡ true }
    ensures sorted { IfOk result (λ v. v.items ≡ in_order is_less values.items) }
    ensures sound { (heap : List Owned) → AreSound heap values.items → IfOk result (λ v. AreSound heap v.items) }
{
    values.sort_by_cached_key(|value| number_key(value))?;
    Ok(values)
}

/// Texts, the least first.
///
/// # Errors
/// `Memory` where a growth was refused.
fn texts_in_order(mut values: Vec<Value>) -> Result<Vec<Value>, Memory>
    requires texts { list_all is_text values.items ≡ true }
    ensures sorted { IfOk result (λ v. v.items ≡ in_order is_less values.items) }
    ensures sound { (heap : List Owned) → AreSound heap values.items → IfOk result (λ v. AreSound heap v.items) }
{
    values.sort_by(|a, b| text_order(a, b))?;
    Ok(values)
}

/// The order of the bytes of two texts.
#[inline(always)]
fn text_order(a: &Value, b: &Value) -> Ordering
    ensures { result ≡ text_order a.now b.now }
{
    text_key(a).cmp(text_key(b))
}

/// The number that a value is; 0 where it is none.
#[inline(always)]
fn number_key(value: &Value) -> i64
    ensures { result ≡ number_key value.now }
{
    index_number(value).unwrap_or(0)
}

/// The bytes of a text; none where it is no text.
#[inline(always)]
fn text_key(value: &Value) -> &[u8]
    ensures { result.now ≡ text_key value.now }
{
    match value {
        Value::Rock(Rock::Text(text)) => bytes_of(text),
        _ => &[],
    }
}

#[inline(always)]
fn bytes_of(text: &Text) -> &[u8]
    ensures { result.now ≡ encode_utf8_all text.now }
{
    text.as_str().as_bytes()
}
