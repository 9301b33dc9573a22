//! Elements that are equal to a value.
ghost use Rattle.std.specs.Prelude.{◌≡◌, ◌<◌, ◌≤◌, ◌+◌, ◌^◌, length, IfOk, if◌then◌else◌};
ghost use Rattle.rp_ops.specs.Outcome.{Meets, state_of};
ghost use Rattle.rp_methods.specs.Lists.{counted, sought};

use crate::fault::Fault;
use rp_base::{Meter, OpEnd, Value};
use rp_compare::equal;
use rp_ops::step;
use rp_store::Store;
use std::alloc::Global;

/// The first place of an element that a value is equal to. Each pair takes a step.
pub(crate) fn place_of(
    alloc: Global,
    store: &Store,
    meter: &mut Meter,
    elements: &[Value],
    a: &Value,
) -> Result<usize, OpEnd>
    ensures plain { Meets result (state_of store.now meter.new.left)
        (sought 0 a.now elements.now (state_of store.now meter.old.left)) }
    ensures within { IfOk result (λ p. p < length elements.now) }
    ensures fewer { meter.new.left ≤ meter.old.left }
{
    for (place, element) in elements.iter().enumerate() {
        step(meter)?;
        if equal(alloc, store, meter, a, element)? {
            return Ok(place);
        }
    }
    Err(Fault::Absent.end(alloc))
}

/// How many elements a value is equal to. Each pair takes a step.
pub(crate) fn count_of(
    alloc: Global,
    store: &Store,
    meter: &mut Meter,
    elements: &[Value],
    a: &Value,
) -> Result<usize, OpEnd>
    ensures plain { Meets result (state_of store.now meter.new.left)
        (counted 0 a.now elements.now (state_of store.now meter.old.left)) }
    ensures within { IfOk result (λ n. n ≤ length elements.now) }
    ensures fewer { meter.new.left ≤ meter.old.left }
{
    let mut count = 0;
    for element in elements {
        step(meter)?;
        let is_one = equal(alloc, store, meter, a, element)?;
        count = with_one(count, is_one);
    }
    Ok(count)
}

/// So many, and one more where there is one.
fn with_one(count: usize, is_one: bool) -> usize
    requires { count + 1 < 2 ^ 64 }
    ensures value { result ≡ (if is_one then count + 1 else count) }
    ensures within { result ≤ count + 1 }
{
    if is_one { count + 1 } else { count }
}
