//! Lengths that special methods give.

ghost use Rattle.std.specs.Prelude.{◌≡◌, IfOk, List, Some};
ghost use Rattle.rp_base.specs.declared.value.Side.{Side as TheSide};
ghost use Rattle.rp_meaning.specs.BuiltIn.{length_given};
ghost use Rattle.rp_meaning.specs.State.{State};
ghost use Rattle.rp_ops.specs.Keys.{index_number};
ghost use Rattle.rp_store.specs.Heap.{Owned};
ghost use Rattle.rp_store.specs.Kept.{IsFit};
ghost use Rattle.rp_access.specs.Comes.{Comes};
ghost use Rattle.rp_access.specs.Lengths.{natural_of};

use rp_base::{Kind, OpEnd, Rock, Value};
use rp_ops::raised;
use std::alloc::Global;

/// What `len` gives of an instance, from what its `__len__` gave, which has to be a number of at least 0 (Python
/// Language Reference, Emulating container types).
///
/// # Errors
/// `Raised` with `TypeError` and the text `len`, where it is none; `Memory` where there is none for the text.
pub fn length_of(alloc: Global, value: &Value) -> Result<Value, OpEnd>
    ensures law { (s : State) → Comes result s (length_given value.now s) }
    ensures fit { (heap : List Owned) (side : TheSide) → IfOk result (IsFit heap side) }
{
    match count_in(value) {
        Some(count) => Ok(Value::Rock(Rock::Int(count))),
        None => Err(raised(alloc, Kind::TypeError, "len")),
    }
}

/// The number of at least 0 that a value is.
fn count_in(value: &Value) -> Option<i64>
    ensures { result ≡ natural_of (index_number value.now) }
{
    natural(number_in(value)?)
}

/// The number that a value is; True and False count as 1 and 0.
fn number_in(value: &Value) -> Option<i64>
    ensures { result ≡ index_number value.now }
{
    match value {
        Value::Rock(Rock::Int(number)) => Some(*number),
        Value::Rock(Rock::Truth(true)) => Some(1),
        Value::Rock(Rock::Truth(false)) => Some(0),
        _ => None,
    }
}

/// A number of at least 0.
fn natural(number: i64) -> Option<i64>
    ensures { result ≡ natural_of (Some number) }
{
    if number < 0 {
        return None;
    }
    Some(number)
}
