//! Lists, tuples and dicts made of what another value holds.
#![tactic(auto, using(rp_store::proofs::CallerLemmas::goes_on))]

ghost use Rattle.std.specs.Prelude.{◌≡◌, ◌≤◌, ℕ, map, All, IfOk, IfSome, OnErr, OnOk};
ghost use Rattle.std.specs.Option.{option_map};
ghost use Rattle.rp_dict.specs.Dict.{insert_entry};
ghost use Rattle.rp_store.specs.Counters.{KeepsCounters};
ghost use Rattle.rp_store.specs.Heap.{IsHeld};
ghost use Rattle.rp_store.specs.Kept.{IsEntry, IsSound};
ghost use Rattle.rp_store.specs.Key.{same_key};
ghost use Rattle.rp_ops.specs.Growth.{Gains};
ghost use Rattle.rp_ops.specs.Outcome.{Meets, state_of};
ghost use Rattle.rp_ops.specs.View.{handed};
ghost use Rattle.rp_native.specs.Copies.{dict_copy, entries_of, entry_handed, object_copy, sequence_copy};
ghost use Rattle.rp_native.specs.Objects.{IsContainerOf};

use crate::fault::Fault;
use crate::objects::{new_container, sequence};
use rp_base::{Memory, Meter, Oid, OpEnd, Rock, Seed, Side, Value};
use rp_dict::Dict;
use rp_ops::{Sequence, elements, handed};
use rp_store::{Key, Object, Store};
use std::alloc::Global;

/// `list(value)` and `tuple(value)` (Python Standard Library, Built-in Functions): a new list or tuple of a side, of
/// what walking the value gives, for a cell and one for each element. Each element takes a step, and a character of a
/// text then costs its bytes.
///
/// # Errors
/// - As `elements`, for the walk.
/// - `StopCells` where the cells are over the limit, `Memory` where a growth was refused.
///
/// After each of them the objects are as before.
pub(crate) fn sequence_copy(
    alloc: Global,
    store: &mut Store,
    meter: &mut Meter,
    side: Side,
    kind: Sequence,
    value: &Value,
) -> Result<Value, OpEnd>
    requires sound { IsSound store.old.heap value.now }
    ensures plain { Meets result (state_of store.new meter.new.left)
        (sequence_copy side kind value.now (state_of store.old meter.old.left)) }
    ensures sound { IfOk result (λ v. IsSound store.new.heap v) }
    ensures grown { Gains (IsContainerOf side) store.old.heap store.new.heap }
    ensures same { OnErr result (store.new.heap ≡ store.old.heap) }
    ensures fewer { meter.new.left ≤ meter.old.left }
    ensures counters { KeepsCounters store.old store.new }
{
    let values = elements(alloc, store, meter, value)?;
    new_container(store, side, sequence(kind, values))
}

/// `dict(value)` (Python Standard Library, Built-in Functions): a new dict of a side with the entries of another, in
/// their order, for a cell and one for each entry. What is taken out of a proxy is lent. It takes no step.
///
/// # Errors
/// - `Raised` with `TypeError` and the text `argument`, where the value is no dict.
/// - `StopCells` where the cells are over the limit, `Memory` where a growth was refused.
///
/// The store is then as before.
pub(crate) fn dict_copy(
    alloc: Global,
    store: &mut Store,
    side: Side,
    value: &Value,
) -> Result<Value, OpEnd>
    requires sound { IsSound store.old.heap value.now }
    ensures plain { (steps : ℕ) → Meets result (state_of store.new steps)
        (dict_copy side value.now (state_of store.old steps)) }
    ensures sound { IfOk result (λ v. IsSound store.new.heap v) }
    ensures grown { Gains (IsContainerOf side) store.old.heap store.new.heap }
    ensures same { OnErr result (store.new ≡ store.old) }
    ensures counters { KeepsCounters store.old store.new }
{
    match value {
        Value::Rock(_) => Err(Fault::Argument.end(alloc)),
        Value::Ref(at) => object_copy(alloc, store, side, *at, false),
        Value::Prox(at) => object_copy(alloc, store, side, *at, true),
    }
}

fn object_copy(
    alloc: Global,
    store: &mut Store,
    side: Side,
    at: Oid,
    lent: bool,
) -> Result<Value, OpEnd>
    requires held { IsHeld store.old.heap at }
    ensures plain { (steps : ℕ) → Meets result (state_of store.new steps)
        (object_copy side lent at (state_of store.old steps)) }
    ensures sound { IfOk result (λ v. IsSound store.new.heap v) }
    ensures grown { Gains (IsContainerOf side) store.old.heap store.new.heap }
    ensures same { OnErr result (store.new ≡ store.old) }
    ensures counters { KeepsCounters store.old store.new }
{
    let Some(entries) = entries_copied(alloc, store, at, lent)? else {
        return Err(Fault::Argument.end(alloc));
    };
    new_container(store, side, Object::Dict(entries))
}

/// The entries of the dict at a place as they are handed out; None where there is no dict.
///
/// # Errors
/// `Memory` where a growth was refused.
fn entries_copied(
    alloc: Global,
    store: &Store,
    at: Oid,
    lent: bool,
) -> Result<Option<Dict<Key, (Rock, Value)>>, Memory>
    requires held { IsHeld store.now.heap at }
    ensures copied { IfOk result (λ es. es ≡ option_map (map (entry_handed lent)) (entries_of store.now.heap at)) }
    ensures sound { IfOk result (λ es. IfSome es (All (IsEntry store.now.heap))) }
{
    match store.object(at) {
        Object::Dict(entries) => {
            let copy = copied(alloc, store.seed(), entries, lent)?;
            Ok(Some(copy))
        }
        Object::List(_)
        | Object::Tuple(_)
        | Object::Instance { .. }
        | Object::Class { .. }
        | Object::Function { .. }
        | Object::Method { .. }
        | Object::Scope { .. } => Ok(None),
    }
}

fn copied(
    alloc: Global,
    seed: Seed,
    entries: &Dict<Key, (Rock, Value)>,
    lent: bool,
) -> Result<Dict<Key, (Rock, Value)>, Memory>
    ensures { IfOk result (λ es. es ≡ map (entry_handed lent) entries.now) }
{
    let mut copy = Dict::new(alloc, seed);
    let mut rest = entries.walk();
    while let Some((key, (rock, value))) = rest.next() {
        put(&mut copy, key, rock, value, lent)?;
    }
    Ok(copy)
}

fn put(
    copy: &mut Dict<Key, (Rock, Value)>,
    key: &Key,
    rock: &Rock,
    value: &Value,
    lent: bool,
) -> Result<(), Memory>
    ensures { OnOk result (copy.new ≡ insert_entry same_key copy.old key.now (rock.now, handed lent value.now)) }
{
    let entry = (rock.copy()?, handed(value, lent)?);
    copy.set(key.copy()?, entry)?;
    Ok(())
}
