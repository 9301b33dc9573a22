//! Equality of values.
ghost use Rattle.std.specs.Prelude.{◌≡◌, ◌<◌, ◌≤◌, IfErr, IfOk, None, Some};
ghost use Rattle.std.specs.Option.{option_copied};
ghost use Rattle.rp_compare.specs.Equality.{contents_equal, dicts_equal, elements_equal, equal, found_equal};
ghost use Rattle.rp_compare.specs.Equality.{objects_equal, pair_equal, within};
ghost use Rattle.rp_ops.specs.Depth.{deepest};
ghost use Rattle.rp_ops.specs.Outcome.{Meets, Raises, state_of};
ghost use Rattle.rp_ops.specs.Refused.{raised_by};
ghost use Rattle.rp_store.specs.Object.{content_of};

use crate::rocks::equal_rocks;
use rp_base::{Meter, Oid, OpEnd, Rock, Value};
use rp_dict::Dict;
use rp_ops::{Refusal, step};
use rp_store::{Key, Object, Store};
use std::alloc::Global;

/// The depth at which containers are compared at most; the outermost one is at depth 1.
const DEEPEST: usize = 200;

/// Whether two values are equal (Python Language Reference, Value comparisons): rocks by what they are, where True and
/// False count as 1 and 0, an object with itself, and lists, tuples and dicts by what they hold. Each pair of elements,
/// and of values at one key, takes a step, up to the first that is unequal; nothing is compared of containers that hold
/// different numbers of elements. No answer gives a step back.
///
/// # Errors
/// - `Raised` with `RecursionError` and the text `depth`, where two different lists, tuples or dicts are to be compared
///   at depth 201, whatever they hold; the two values are at depth 1. An object with itself and containers of two kinds
///   need no comparison at any depth.
/// - `StopSteps` where no step is left.
/// - `Memory` where there is none for the text of the exception.
pub fn equal(
    alloc: Global,
    store: &Store,
    meter: &mut Meter,
    a: &Value,
    b: &Value,
) -> Result<bool, OpEnd>
    ensures plain { Meets result (state_of store.now meter.new.left)
        (equal deepest a.now b.now (state_of store.now meter.old.left)) }
    ensures fewer { meter.new.left ≤ meter.old.left }
{
    equal_values(alloc, store, meter, DEEPEST, a, b)
}

/// The same, where so many more containers may lie within one another.
#[cycle(equality)]
fn equal_values(
    alloc: Global,
    store: &Store,
    meter: &mut Meter,
    depth: usize,
    a: &Value,
    b: &Value,
) -> Result<bool, OpEnd>
    ensures plain { Meets result (state_of store.now meter.new.left)
        (equal depth a.now b.now (state_of store.now meter.old.left)) }
    ensures fewer { meter.new.left ≤ meter.old.left }
{
    match (a, b) {
        (Value::Rock(q), Value::Rock(r)) => Ok(equal_rocks(q, r)),
        (Value::Ref(x), Value::Ref(y)) => equal_objects(alloc, store, meter, depth, *x, *y),
        (Value::Ref(x), Value::Prox(y)) => equal_objects(alloc, store, meter, depth, *x, *y),
        (Value::Prox(x), Value::Ref(y)) => equal_objects(alloc, store, meter, depth, *x, *y),
        (Value::Prox(x), Value::Prox(y)) => equal_objects(alloc, store, meter, depth, *x, *y),
        (Value::Rock(_), _) | (_, Value::Rock(_)) => Ok(false),
    }
}

#[cycle(equality)]
fn equal_objects(
    alloc: Global,
    store: &Store,
    meter: &mut Meter,
    depth: usize,
    x: Oid,
    y: Oid,
) -> Result<bool, OpEnd>
    ensures plain { Meets result (state_of store.now meter.new.left)
        (objects_equal (within depth) x y (state_of store.now meter.old.left)) }
    ensures fewer { meter.new.left ≤ meter.old.left }
{
    if x == y {
        return Ok(true);
    }
    match (store.get(x), store.get(y)) {
        (Some(left), Some(right)) => equal_contents(alloc, store, meter, depth, left, right),
        _ => Ok(false),
    }
}

/// Two different objects.
#[cycle(equality)]
fn equal_contents(
    alloc: Global,
    store: &Store,
    meter: &mut Meter,
    depth: usize,
    left: &Object,
    right: &Object,
) -> Result<bool, OpEnd>
    ensures plain { Meets result (state_of store.now meter.new.left)
        (contents_equal (within depth) (content_of left.now) (content_of right.now)
        (state_of store.now meter.old.left)) }
    ensures fewer { meter.new.left ≤ meter.old.left }
{
    match (left, right) {
        (Object::List(xs), Object::List(ys)) => {
            equal_elements(alloc, store, meter, inner_depth(alloc, depth)?, xs, ys)
        }
        (Object::Tuple(xs), Object::Tuple(ys)) => {
            equal_elements(alloc, store, meter, inner_depth(alloc, depth)?, xs, ys)
        }
        (Object::Dict(es), Object::Dict(fs)) => {
            equal_entries(alloc, store, meter, inner_depth(alloc, depth)?, es, fs)
        }
        _ => Ok(false),
    }
}

/// So many more containers may lie within one that lies where so many may.
fn inner_depth(alloc: Global, depth: usize) -> Result<usize, OpEnd>
    ensures inner { IfOk result (λ inner. within depth ≡ Some (equal inner)) }
    ensures smaller { IfOk result (λ inner. inner < depth) }
    ensures none { IfErr result (λ e. within depth ≡ None) }
    ensures raised { IfErr result (λ e. Raises e (raised_by Refusal.Depth)) }
{
    if depth == 0 {
        return Err(Refusal::Depth.end(alloc));
    }
    Ok(depth - 1)
}

/// The elements of two lists or two tuples.
#[cycle(equality)]
fn equal_elements(
    alloc: Global,
    store: &Store,
    meter: &mut Meter,
    depth: usize,
    xs: &[Value],
    ys: &[Value],
) -> Result<bool, OpEnd>
    ensures plain { Meets result (state_of store.now meter.new.left)
        (elements_equal (equal depth) xs.now ys.now (state_of store.now meter.old.left)) }
    ensures fewer { meter.new.left ≤ meter.old.left }
{
    if xs.len() != ys.len() {
        return Ok(false);
    }
    for (x, y) in xs.iter().zip(ys) {
        if !equal_pair(alloc, store, meter, depth, x, y)? {
            return Ok(false);
        }
    }
    Ok(true)
}

/// The entries of two dicts, in the order of the left one.
#[cycle(equality)]
fn equal_entries(
    alloc: Global,
    store: &Store,
    meter: &mut Meter,
    depth: usize,
    es: &Dict<Key, (Rock, Value)>,
    fs: &Dict<Key, (Rock, Value)>,
) -> Result<bool, OpEnd>
    ensures plain { Meets result (state_of store.now meter.new.left)
        (dicts_equal (equal depth) es.now fs.now (state_of store.now meter.old.left)) }
    ensures fewer { meter.new.left ≤ meter.old.left }
{
    if es.len() != fs.len() {
        return Ok(false);
    }
    let mut walk = es.walk();
    while let Some((key, (_, value))) = walk.next() {
        if !equal_found(alloc, store, meter, depth, value, fs.get(key))? {
            return Ok(false);
        }
    }
    Ok(true)
}

/// A value of the left dict, and the entry of the right one at its key.
#[cycle(equality)]
fn equal_found(
    alloc: Global,
    store: &Store,
    meter: &mut Meter,
    depth: usize,
    value: &Value,
    found: Option<&(Rock, Value)>,
) -> Result<bool, OpEnd>
    ensures plain { Meets result (state_of store.now meter.new.left)
        (found_equal (equal depth) value.now (option_copied found.entry) (state_of store.now meter.old.left)) }
    ensures fewer { meter.new.left ≤ meter.old.left }
{
    match found {
        Some((_, other)) => equal_pair(alloc, store, meter, depth, value, other),
        None => Ok(false),
    }
}

/// A pair of values, for a step.
#[cycle(equality)]
fn equal_pair(
    alloc: Global,
    store: &Store,
    meter: &mut Meter,
    depth: usize,
    x: &Value,
    y: &Value,
) -> Result<bool, OpEnd>
    ensures plain { Meets result (state_of store.now meter.new.left)
        (pair_equal (equal depth) (x.now, y.now) (state_of store.now meter.old.left)) }
    ensures fewer { meter.new.left ≤ meter.old.left }
{
    step(meter)?;
    equal_values(alloc, store, meter, depth, x, y)
}
