//! Calls of the built-in functions.
#![tactic(auto, using(rp_store::proofs::CallerLemmas::goes_on))]

ghost use Rattle.std.specs.Prelude.{◌≡◌, ◌≤◌, ℕ, List, IfOk, IsTrue};
ghost use Rattle.rp_store.specs.Counters.{KeepsCounters};
ghost use Rattle.rp_store.specs.Heap.{Owned};
ghost use Rattle.rp_store.specs.Kept.{AreSound, IsSound};
ghost use Rattle.rp_store.specs.Shape.{KeepsShape};
ghost use Rattle.rp_ops.specs.Growth.{Gains};
ghost use Rattle.rp_ops.specs.Outcome.{Meets, State, gives, state_of};
ghost use Rattle.rp_native.specs.Counts.{is_called_here};
ghost use Rattle.rp_native.specs.Functions.{bool, function, more_given, none_given, one_given, plain_value, str};
ghost use Rattle.rp_native.specs.Objects.{IsContainerOf};

use crate::copies::{dict_copy, sequence_copy};
use crate::counts::{function_takes, is_function};
use crate::extremes::{Extreme, chosen, extreme_of};
use crate::fault::Fault;
use crate::numbers::{abs, len};
use crate::objects::new_container;
use crate::ranges::{range, range_to};
use crate::sorts::sorted;
use crate::spelling::int;
use crate::sums::sum;
use crate::tables::enumerate;
use crate::zips::zip;
use rp_base::{Meter, Names, NativeId, OpEnd, Rock, Side, Value};
use rp_dict::Dict;
use rp_ops::{Sequence, truth};
use rp_show::show;
use rp_store::{Object, Store};
use std::alloc::Global;
use std::slice;

/// Calls a built-in function for code of a side, on values whose access decisions have been made (Python Standard
/// Library, Built-in Functions). What is walked out of a proxy is lent. What is made is the side's. Each element that
/// is walked takes a step; a list, a tuple or a dict costs a cell and one for each element or entry, a new text its
/// bytes; `zip` takes one step for each tuple. `getattr`, `setattr` and `print` (`is_called_here`), and `len` of an
/// instance whose class has `__len__`, are for the caller to do.
///
/// # Errors
/// - `Raised` with `TypeError`, whose text is `call`, where a method or a function that the caller does is called,
///   `arguments`, where so many arguments are not taken, `argument`, where one of them is of a kind that is not taken,
///   `len`, where it has no length, or `iterate`, where it cannot be walked.
/// - `Raised` with `ValueError`, whose text is `int`, where a text spells no number, `empty`, where there is no
///   least or greatest, or `range`, where a range goes by a step of 0.
/// - `Raised` with `OverflowError` and the text `int`, where a number is outside 64 bits, and with what showing raises.
/// - `StopSteps` where no step is left, `StopCells` where the cells are over the limit.
/// - `Memory` where a growth was refused. Then cells may be used; the limit stays, and no used cell is given back.
pub fn call_native(
    alloc: Global,
    store: &mut Store,
    meter: &mut Meter,
    names: &Names,
    side: Side,
    id: NativeId,
    args: &[Value],
) -> Result<Value, OpEnd>
    requires called_here { IsTrue (is_called_here id) }
    requires sound { AreSound store.old.heap args.now }
    ensures plain { Meets result (state_of store.new meter.new.left)
        (function names.now side id args.now (state_of store.old meter.old.left)) }
    ensures sound { IfOk result (λ v. IsSound store.new.heap v) }
    ensures grown { Gains (IsContainerOf side) store.old.heap store.new.heap }
    ensures shape { KeepsShape store.old.heap store.new.heap }
    ensures fewer { meter.new.left ≤ meter.old.left }
    ensures counters { KeepsCounters store.old store.new }
{
    if !is_function(id) {
        return Err(Fault::Call.end(alloc));
    }
    if !function_takes(id, args.len()) {
        return Err(Fault::Count.end(alloc));
    }
    let Some((first, rest)) = args.split_first() else {
        return none_given(alloc, store, meter, side, id);
    };
    if rest.is_empty() {
        return one_given(alloc, store, meter, names, side, id, first);
    }
    more_given(alloc, store, meter, side, id, args)
}

/// A function of no argument.
fn none_given(
    alloc: Global,
    store: &mut Store,
    meter: &mut Meter,
    side: Side,
    id: NativeId,
) -> Result<Value, OpEnd>
    ensures plain { Meets result (state_of store.new meter.new.left)
        (none_given side id (state_of store.old meter.old.left)) }
    ensures sound { IfOk result (λ v. IsSound store.new.heap v) }
    ensures grown { Gains (IsContainerOf side) store.old.heap store.new.heap }
    ensures fewer { meter.new.left ≤ meter.old.left }
    ensures counters { KeepsCounters store.old store.new }
{
    match id {
        NativeId::List => new_container(store, side, Object::List(Vec::new(alloc))),
        NativeId::Tuple => new_container(store, side, Object::Tuple(Vec::new(alloc))),
        NativeId::Dict => {
            let entries = Dict::new(alloc, store.seed());
            new_container(store, side, Object::Dict(entries))
        }
        NativeId::Zip => zip(alloc, store, meter, side, &[]),
        _ => Err(Fault::Call.end(alloc)),
    }
}

/// A function of one argument.
#[tactic(auto, using(rp_store::proofs::CallerLemmas::goes_on, crate::proofs::Growths::growths))]
fn one_given(
    alloc: Global,
    store: &mut Store,
    meter: &mut Meter,
    names: &Names,
    side: Side,
    id: NativeId,
    value: &Value,
) -> Result<Value, OpEnd>
    requires sound { IsSound store.old.heap value.now }
    ensures plain { Meets result (state_of store.new meter.new.left)
        (one_given names.now side id value.now (state_of store.old meter.old.left)) }
    ensures sound { IfOk result (λ v. IsSound store.new.heap v) }
    ensures grown { Gains (IsContainerOf side) store.old.heap store.new.heap }
    ensures fewer { meter.new.left ≤ meter.old.left }
    ensures counters { KeepsCounters store.old store.new }
{
    match id {
        NativeId::Len => len(alloc, store, value),
        NativeId::Bool => truth_value(store, value),
        NativeId::Str => text_of(alloc, store, meter, names, value),
        NativeId::Int => int(alloc, value),
        NativeId::Abs => abs(alloc, value),
        NativeId::Sum => sum(alloc, store, meter, value),
        NativeId::Min => extreme_of(alloc, store, meter, Extreme::Least, value),
        NativeId::Max => extreme_of(alloc, store, meter, Extreme::Greatest, value),
        NativeId::List => sequence_copy(alloc, store, meter, side, Sequence::List, value),
        NativeId::Tuple => sequence_copy(alloc, store, meter, side, Sequence::Tuple, value),
        NativeId::Dict => dict_copy(alloc, store, side, value),
        NativeId::Sorted => sorted(alloc, store, meter, side, value),
        NativeId::Range => range_to(alloc, store, side, value),
        NativeId::Enumerate => enumerate(alloc, store, meter, side, value),
        NativeId::Zip => zip(alloc, store, meter, side, slice::from_ref(value)),
        NativeId::RemoveSecurityProxy => plain_value(value),
        _ => Err(Fault::Call.end(alloc)),
    }
}

/// A function of two arguments or more.
#[tactic(auto, using(rp_store::proofs::CallerLemmas::goes_on, crate::proofs::Growths::growths))]
fn more_given(
    alloc: Global,
    store: &mut Store,
    meter: &mut Meter,
    side: Side,
    id: NativeId,
    args: &[Value],
) -> Result<Value, OpEnd>
    requires sound { AreSound store.old.heap args.now }
    ensures plain { Meets result (state_of store.new meter.new.left)
        (more_given side id args.now (state_of store.old meter.old.left)) }
    ensures sound { IfOk result (λ v. IsSound store.new.heap v) }
    ensures grown { Gains (IsContainerOf side) store.old.heap store.new.heap }
    ensures fewer { meter.new.left ≤ meter.old.left }
    ensures counters { KeepsCounters store.old store.new }
{
    match id {
        NativeId::Min => chosen(alloc, Extreme::Least, args),
        NativeId::Max => chosen(alloc, Extreme::Greatest, args),
        NativeId::Range => range(alloc, store, side, args),
        NativeId::Zip => zip(alloc, store, meter, side, args),
        _ => Err(Fault::Call.end(alloc)),
    }
}

fn truth_value(store: &Store, value: &Value) -> Result<Value, OpEnd>
    requires sound { IsSound store.now.heap value.now }
    ensures plain { (steps : ℕ) → Meets result (state_of store.now steps) (bool value.now (state_of store.now steps)) }
    ensures sound { (heap : List Owned) → IfOk result (λ v. IsSound heap v) }
{
    Ok(Value::Rock(Rock::Truth(truth(store, value))))
}

fn text_of(
    alloc: Global,
    store: &mut Store,
    meter: &mut Meter,
    names: &Names,
    value: &Value,
) -> Result<Value, OpEnd>
    ensures plain { Meets result (state_of store.new meter.new.left)
        (str names.now value.now (state_of store.old meter.old.left)) }
    ensures same { store.new.heap ≡ store.old.heap }
    ensures sound { (heap : List Owned) → IfOk result (λ v. IsSound heap v) }
    ensures fewer { meter.new.left ≤ meter.old.left }
    ensures counters { KeepsCounters store.old store.new }
{
    let text = show(alloc, store, meter, names, value)?;
    Ok(Value::Rock(Rock::Text(text)))
}

/// What a proxy stands for, as a plain reference; a rock or a plain reference as it is.
fn plain_value(value: &Value) -> Result<Value, OpEnd>
    ensures plain { (s : State) → Meets result s (gives (plain_value value.now) s) }
    ensures sound { (heap : List Owned) → IsSound heap value.now → IfOk result (λ v. IsSound heap v) }
{
    match value {
        Value::Rock(rock) => Ok(Value::Rock(rock.copy()?)),
        Value::Ref(at) => Ok(Value::Ref(*at)),
        Value::Prox(at) => Ok(Value::Ref(*at)),
    }
}
