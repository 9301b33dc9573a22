//! Numbers: lengths, absolute values, and the numbers of texts.
ghost use Rattle.std.specs.Prelude.{◌≡◌, List, ℕ, ℤ, pos, unsigned_abs, FitsSigned, IfOk, SomeIff};
ghost use Rattle.std.specs.Int.{w64};
ghost use Rattle.rp_store.specs.Heap.{Owned};
ghost use Rattle.rp_store.specs.Kept.{IsSound};
ghost use Rattle.rp_ops.specs.Outcome.{Meets, State, state_of};
ghost use Rattle.rp_native.specs.Numbers.{abs, len, length_of, number_given};

use crate::fault::Fault;
use rp_base::{OpEnd, Rock, Value};
use rp_items::index_number;
use rp_ops::Refusal;
use rp_store::Store;
use std::alloc::Global;

/// A number as a value; where there is none, it is outside 64 bits.
pub(crate) fn number_value(alloc: Global, number: Option<i64>) -> Result<Value, OpEnd>
    ensures plain { (z : ℤ) (s : State) → SomeIff number (FitsSigned w64 z) z → Meets result s (number_given z s) }
    ensures sound { (heap : List Owned) → IfOk result (λ v. IsSound heap v) }
{
    match number {
        Some(n) => Ok(Value::Rock(Rock::Int(n))),
        None => Err(Refusal::Overflow.end(alloc)),
    }
}

/// `len(value)` (Python Standard Library, Built-in Functions): the number of elements, entries or characters. It takes
/// no step and uses no cell. An instance whose class has `__len__` is for the caller to ask: this raises `len` for each
/// instance.
///
/// # Errors
/// - `Raised` with `TypeError` and the text `len`, where the value is no list, tuple, dict or text.
/// - `Memory` where there is none for the text of the exception.
pub(crate) fn len(alloc: Global, store: &Store, value: &Value) -> Result<Value, OpEnd>
    requires sound { IsSound store.now.heap value.now }
    ensures plain { (steps : ℕ) → Meets result (state_of store.now steps) (len value.now (state_of store.now steps)) }
    ensures sound { (heap : List Owned) → IfOk result (λ v. IsSound heap v) }
{
    match length_of(store, value) {
        Some(length) => number_value(alloc, fitted_length(length)),
        None => Err(Fault::Length.end(alloc)),
    }
}

/// The number of elements, entries or characters; None where it has none.
pub(crate) fn length_of(store: &Store, value: &Value) -> Option<usize>
    requires sound { IsSound store.now.heap value.now }
    ensures { result ≡ length_of store.now.heap value.now }
{
    match value {
        Value::Rock(rock) => text_length(rock),
        Value::Ref(at) => store.len_of(*at),
        Value::Prox(at) => store.len_of(*at),
    }
}

fn text_length(rock: &Rock) -> Option<usize>
    ensures { (heap : List Owned) → result ≡ length_of heap (Value.Rock rock.now) }
{
    match rock {
        Rock::Text(text) => Some(text.len()),
        Rock::Nil
        | Rock::Truth(_)
        | Rock::Int(_)
        | Rock::Exc(_, _)
        | Rock::Kind(_)
        | Rock::Native(_) => None,
    }
}

fn fitted_length(length: usize) -> Option<i64>
    ensures { SomeIff result (FitsSigned w64 (pos length)) (pos length) }
{
    i64::try_from(length).ok()
}

/// `abs(value)` (Python Standard Library, Built-in Functions). It takes no step and uses no cell.
///
/// # Errors
/// - `Raised` with `TypeError` and the text `argument`, where the value is no number and no truth value, or with
///   `OverflowError` and the text `int`, where the result is outside 64 bits.
/// - `Memory` where there is none for the text of the exception.
pub(crate) fn abs(alloc: Global, value: &Value) -> Result<Value, OpEnd>
    ensures plain { (s : State) → Meets result s (abs value.now s) }
    ensures sound { (heap : List Owned) → IfOk result (λ v. IsSound heap v) }
{
    match index_number(value) {
        Some(n) => number_value(alloc, without_sign(n)),
        None => Err(Fault::Argument.end(alloc)),
    }
}

fn without_sign(n: i64) -> Option<i64>
    ensures { SomeIff result (FitsSigned w64 (pos (unsigned_abs n))) (pos (unsigned_abs n)) }
{
    i64::try_from(n.unsigned_abs()).ok()
}
