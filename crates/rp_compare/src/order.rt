//! The comparison operators, and the order of numbers and texts.
ghost use Rattle.std.specs.Prelude.{◌≡◌, ◌≤◌, not, option_map};
ghost use Rattle.rp_compare.specs.Order.{compare, less, numbers_less, ordered, rocks_less, texts_less};
ghost use Rattle.rp_ops.specs.Outcome.{Meets, State, state_of};

use crate::equality::equal;
use rp_base::{CmpOp, Meter, OpEnd, Rock, Text, Value};
use rp_ops::{Refusal, rock_number};
use rp_store::Store;
use std::alloc::Global;

/// `a op b` (Python Language Reference, Value comparisons). Numbers and truth values have an order by value, texts by
/// their code points; all values can be equal, and equality takes the steps that `equal` takes. No answer gives a step
/// back.
///
/// # Errors
/// - `Raised` with `TypeError` and the text `operand`, where values of these kinds have no order; or, of `==` and `!=`,
///   with `RecursionError` and the text `depth`, where `equal` raises it.
/// - `StopSteps` where no step is left.
/// - `Memory` where there is none for the text of the exception.
pub fn compare(
    alloc: Global,
    store: &Store,
    meter: &mut Meter,
    op: CmpOp,
    a: &Value,
    b: &Value,
) -> Result<bool, OpEnd>
    ensures plain { Meets result (state_of store.now meter.new.left)
        (compare op a.now b.now (state_of store.now meter.old.left)) }
    ensures fewer { meter.new.left ≤ meter.old.left }
{
    match op {
        CmpOp::Eq => equal(alloc, store, meter, a, b),
        CmpOp::Ne => Ok(!equal(alloc, store, meter, a, b)?),
        CmpOp::Lt => ordered(alloc, less(a, b)),
        CmpOp::Gt => ordered(alloc, less(b, a)),
        CmpOp::Le => ordered(alloc, negated(less(b, a))),
        CmpOp::Ge => ordered(alloc, negated(less(a, b))),
    }
}

/// An answer of order, or the exception where there is no order.
fn ordered(alloc: Global, less: Option<bool>) -> Result<bool, OpEnd>
    ensures { (s : State) → Meets result s (ordered less s) }
{
    less.ok_or_else(|| Refusal::Operand.end(alloc))
}

/// At most is not greater, and at least is not less.
#[inline(always)]
fn negated(less: Option<bool>) -> Option<bool>
    ensures { result ≡ option_map not less }
{
    Some(!less?)
}

/// Whether the first is less, of two numbers or two texts; all else has no order.
#[inline(always)]
fn less(a: &Value, b: &Value) -> Option<bool>
    ensures { result ≡ less a.now b.now }
{
    match (a, b) {
        (Value::Rock(q), Value::Rock(r)) => less_rocks(q, r),
        _ => None,
    }
}

fn less_rocks(q: &Rock, r: &Rock) -> Option<bool>
    ensures { result ≡ rocks_less q.now r.now }
{
    match (q, r) {
        (Rock::Text(t), Rock::Text(u)) => Some(is_less_text(t, u)),
        _ => less_numbers(rock_number(q), rock_number(r)),
    }
}

/// Whether a text is less than another (Python Language Reference, Value comparisons): in the order of code points,
/// which is that of the bytes in UTF-8.
#[inline(always)]
pub fn is_less_text(x: &Text, y: &Text) -> bool
    ensures { result ≡ texts_less x.now y.now }
{
    x < y
}

#[inline(always)]
fn less_numbers(x: Option<i64>, y: Option<i64>) -> Option<bool>
    ensures { result ≡ numbers_less x y }
{
    Some(x? < y?)
}
