//! The least and the greatest of values.
#![tactic(auto, using(rp_store::proofs::CallerLemmas::goes_on))]

ghost use Rattle.std.specs.Prelude.{◌≡◌, ◌≤◌, List, false, IfOk};
ghost use Rattle.std.specs.List.{list_all};
ghost use Rattle.std.specs.Option.{option_map_or};
ghost use Rattle.rp_store.specs.Counters.{KeepsCounters};
ghost use Rattle.rp_store.specs.Heap.{Owned};
ghost use Rattle.rp_store.specs.Kept.{AreSound, IsSound};
ghost use Rattle.rp_ops.specs.Outcome.{Meets, State, state_of};
ghost use Rattle.rp_compare.specs.Order.{numbers_less};
ghost use Rattle.rp_native.specs.Extremes.{before, chosen, extreme, foremost, have_order, is_less, is_text};

use crate::fault::Fault;
use crate::sums::are_numbers;
use rp_base::{Meter, OpEnd, Rock, Value};
use rp_compare::is_less_text;
use rp_ops::{elements, rock_number};
use rp_store::Store;
use std::alloc::Global;

/// Which of several values is chosen.
#[derive(Clone, Copy, Debug, PartialEq, Eq)]
pub enum Extreme {
    Least,
    Greatest,
}

/// `min(value)` and `max(value)` (Python Standard Library, Built-in Functions), of what walking the value gives: the
/// first of the least, or of the greatest. Each element takes a step, and a character of a text then costs its bytes.
///
/// # Errors
/// - As `elements`, for the walk.
/// - `Raised` with `ValueError` and the text `empty`, where there is no element, or with `TypeError` and the text
///   `argument`, where they are neither all numbers and truth values nor all texts.
/// - `Memory` where a growth was refused.
pub(crate) fn extreme_of(
    alloc: Global,
    store: &mut Store,
    meter: &mut Meter,
    which: Extreme,
    value: &Value,
) -> Result<Value, OpEnd>
    requires sound { IsSound store.old.heap value.now }
    ensures plain { Meets result (state_of store.new meter.new.left)
        (extreme which value.now (state_of store.old meter.old.left)) }
    ensures same { store.new.heap ≡ store.old.heap }
    ensures sound { IfOk result (λ v. IsSound store.new.heap v) }
    ensures fewer { meter.new.left ≤ meter.old.left }
    ensures counters { KeepsCounters store.old store.new }
{
    let values = elements(alloc, store, meter, value)?;
    chosen(alloc, which, values.as_slice())
}

/// The first of the least of several values, or of the greatest.
///
/// # Errors
/// As `extreme_of`, but for the walk.
pub(crate) fn chosen(alloc: Global, which: Extreme, values: &[Value]) -> Result<Value, OpEnd>
    ensures plain { (s : State) → Meets result s (chosen which values.now s) }
    ensures sound { (heap : List Owned) → AreSound heap values.now → IfOk result (λ v. IsSound heap v) }
{
    let Some((first, rest)) = values.split_first() else {
        return Err(Fault::Empty.end(alloc));
    };
    if !have_order(values) {
        return Err(Fault::Argument.end(alloc));
    }
    Ok(foremost(which, first, rest).copy()?)
}

/// Whether all are numbers and truth values, or all are texts.
pub(crate) fn have_order(values: &[Value]) -> bool
    ensures { result ≡ have_order values.now }
{
    are_numbers(values) || are_texts(values)
}

fn are_texts(values: &[Value]) -> bool
    ensures { result ≡ list_all is_text values.now }
{
    values.iter().all(is_text)
}

fn is_text(value: &Value) -> bool
    ensures { result ≡ is_text value.now }
{
    match value {
        Value::Rock(Rock::Text(_)) => true,
        _ => false,
    }
}

/// The first value that no other goes before.
fn foremost<'a>(which: Extreme, first: &'a Value, rest: &'a [Value]) -> &'a Value
    ensures { result.now ≡ foremost (before which) first.now rest.now }
{
    let mut best = first;
    for value in rest {
        if goes_before(which, value, best) {
            best = value;
        }
    }
    best
}

fn goes_before(which: Extreme, a: &Value, b: &Value) -> bool
    ensures { result ≡ before which a.now b.now }
{
    match which {
        Extreme::Least => is_less(a, b),
        Extreme::Greatest => is_less(b, a),
    }
}

/// Whether the first is less, of two numbers or two texts.
fn is_less(a: &Value, b: &Value) -> bool
    ensures { result ≡ is_less a.now b.now }
{
    match (a, b) {
        (Value::Rock(q), Value::Rock(r)) => is_less_rock(q, r),
        _ => false,
    }
}

fn is_less_rock(q: &Rock, r: &Rock) -> bool
    ensures { result ≡ is_less (Value.Rock q.now) (Value.Rock r.now) }
{
    match (q, r) {
        (Rock::Text(t), Rock::Text(u)) => is_less_text(t, u),
        _ => is_less_number(rock_number(q), rock_number(r)),
    }
}

fn is_less_number(x: Option<i64>, y: Option<i64>) -> bool
    ensures { result ≡ option_map_or (λ b. b) (numbers_less x y) false }
{
    match (x, y) {
        (Some(x), Some(y)) => x < y,
        _ => false,
    }
}
