//! Indexes, as values name them.

ghost use Rattle.std.specs.Prelude.{◌≡◌, ◌<◌, ◌-ℤ◌, pos, IfOk};
ghost use Rattle.rp_ops.specs.Keys.{index_number};
ghost use Rattle.rp_ops.specs.Refused.{described};
ghost use Rattle.rp_items.specs.Items.{from_end, place_named, place_within};

use rp_base::{Rock, Value};
use rp_ops::Refusal;

/// The number that a value is as an index (Python Language Reference, Sequences); True and False count as 1 and 0.
#[inline(always)]
pub fn index_number(value: &Value) -> Option<i64>
    ensures { result ≡ index_number value.now }
{
    match value {
        Value::Rock(Rock::Int(n)) => Some(*n),
        Value::Rock(Rock::Truth(true)) => Some(1),
        Value::Rock(Rock::Truth(false)) => Some(0),
        _ => None,
    }
}

/// The place that an index names in so many elements. One below 0 counts from the end.
#[inline(always)]
pub(crate) fn place_named(len: usize, i: &Value) -> Result<usize, Refusal>
    ensures named { described result ≡ place_named len i.now }
    ensures within { IfOk result (λ p. p < len) }
{
    match index_number(i) {
        Some(n) => place_within(len, n),
        None => Err(Refusal::Index),
    }
}

/// The place that a number names in so many elements (Python Language Reference, Sequences). One below 0 counts from
/// the end.
///
/// # Errors
/// `Outside` where there is no such place.
#[inline(always)]
pub fn place_within(len: usize, i: i64) -> Result<usize, Refusal>
    ensures named { described result ≡ place_within len (from_end len i) }
    ensures within { IfOk result (λ p. p < len) }
{
    if i < 0 {
        return place_from_end(len, i.unsigned_abs() as usize);
    }
    if i as usize >= len {
        return Err(Refusal::Outside);
    }
    Ok(i as usize)
}

/// The place so many before the end.
fn place_from_end(len: usize, back: usize) -> Result<usize, Refusal>
    requires { 0 < back }
    ensures named { described result ≡ place_within len (pos len -ℤ pos back) }
    ensures within { IfOk result (λ p. p < len) }
{
    if back > len {
        return Err(Refusal::Outside);
    }
    Ok(len - back)
}
