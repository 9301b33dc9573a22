//! The whole numbers that texts spell.
ghost use Rattle.std.specs.Prelude.{◌≡◌, List, ℕ, Option, neg_ℤ, option_map, pos, IfOk};
ghost use Rattle.rp_store.specs.Heap.{Owned};
ghost use Rattle.rp_store.specs.Kept.{IsSound};
ghost use Rattle.rp_ops.specs.Outcome.{Meets, State};
ghost use Rattle.rp_native.specs.Numbers.{digit, digits, int, number_found, spelled};
ghost use Rattle.rp_native.specs.Saturated.{saturated};

use crate::fault::Fault;
use crate::numbers::number_value;
use rp_base::{OpEnd, Rock, Text, Value};
use rp_items::index_number;
use std::alloc::Global;

/// `int(value)` (Python Standard Library, Built-in Functions): a number, a truth value as 0 or 1, or the number that a
/// text spells, which is one or more ASCII digits, with a sign before them or none. It takes no step and uses no cell.
///
/// # Errors
/// - `Raised` with `TypeError` and the text `argument`, where the value is of another kind; with `ValueError` and the
///   text `int`, where a text spells no number, or with `OverflowError` and the text `int`, where the number is outside
///   64 bits.
/// - `Memory` where there is none for the text of the exception.
pub(crate) fn int(alloc: Global, value: &Value) -> Result<Value, OpEnd>
    ensures plain { (s : State) → Meets result s (int value.now s) }
    ensures sound { (heap : List Owned) → IfOk result (λ v. IsSound heap v) }
{
    if let Value::Rock(Rock::Text(text)) = value {
        return text_number(alloc, text);
    }
    match index_number(value) {
        Some(n) => Ok(Value::Rock(Rock::Int(n))),
        None => Err(Fault::Argument.end(alloc)),
    }
}

fn text_number(alloc: Global, text: &Text) -> Result<Value, OpEnd>
    ensures plain { (s : State) → Meets result s (int (Value.Rock (Rock.Text text.now)) s) }
    ensures sound { (heap : List Owned) → IfOk result (λ v. IsSound heap v) }
{
    number_spelled(alloc, text.as_str().as_bytes())
}

fn number_spelled(alloc: Global, bytes: &[u8]) -> Result<Value, OpEnd>
    ensures plain { (s : State) → Meets result s (number_found Fault.Digits (spelled bytes.now) s) }
    ensures sound { (heap : List Owned) → IfOk result (λ v. IsSound heap v) }
{
    let Some((first, rest)) = bytes.split_first() else {
        return Err(Fault::Digits.end(alloc));
    };
    match *first {
        b'-' => below_zero(alloc, digits(rest)),
        b'+' => above_zero(alloc, digits(rest)),
        _ => above_zero(alloc, digits(bytes)),
    }
}

/// The number of digits that are held at the greatest number of 64 bits.
fn above_zero(alloc: Global, number: Option<u64>) -> Result<Value, OpEnd>
    ensures plain { (n : Option ℕ) (s : State) → number ≡ option_map saturated n
        → Meets result s (number_found Fault.Digits (option_map (λ n. pos n) n) s) }
    ensures sound { (heap : List Owned) → IfOk result (λ v. IsSound heap v) }
{
    match number {
        Some(number) => number_value(alloc, i64::try_from(number).ok()),
        None => Err(Fault::Digits.end(alloc)),
    }
}

/// The same, of the number below zero.
fn below_zero(alloc: Global, number: Option<u64>) -> Result<Value, OpEnd>
    ensures plain { (n : Option ℕ) (s : State) → number ≡ option_map saturated n
        → Meets result s (number_found Fault.Digits (option_map (λ n. neg_ℤ (pos n)) n) s) }
    ensures sound { (heap : List Owned) → IfOk result (λ v. IsSound heap v) }
{
    match number {
        Some(number) => number_value(alloc, 0i64.checked_sub_unsigned(number)),
        None => Err(Fault::Digits.end(alloc)),
    }
}

/// The number that digits spell, held at the greatest number of 64 bits; None where one is no digit, or there is none.
fn digits(bytes: &[u8]) -> Option<u64>
    ensures { result ≡ option_map saturated (digits bytes.now) }
{
    if bytes.is_empty() {
        return None;
    }
    let mut number = 0u64;
    for byte in bytes {
        let digit = digit(*byte)?;
        number = number.saturating_mul(10).saturating_add(digit);
    }
    Some(number)
}

fn digit(byte: u8) -> Option<u64>
    ensures { result ≡ digit byte }
{
    if byte >= b'0' && byte <= b'9' {
        return Some((byte - b'0') as u64);
    }
    None
}
