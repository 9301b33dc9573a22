//! Lists and dicts that are made of the entries of a dict.
#![tactic(auto, using(rp_store::proofs::CallerLemmas::goes_on, crate::proofs::NoClasses::no_class))]

ghost use Rattle.std.specs.Prelude.{◌≡◌, ◌∷◌, ◌++◌, [], ℕ, map, IfOk, OnErr, OnOk};
ghost use Rattle.rp_dict.specs.Dict.{insert_entry};
ghost use Rattle.rp_store.specs.Counters.{KeepsCounters};
ghost use Rattle.rp_store.specs.Key.{same_key};
ghost use Rattle.rp_store.specs.Heap.{IsHeld, Names};
ghost use Rattle.rp_store.specs.Kept.{IsSound};
ghost use Rattle.rp_store.specs.Parts.{IsDict};
ghost use Rattle.rp_store.specs.Shape.{KeepsShape};
ghost use Rattle.rp_ops.specs.Outcome.{Meets, state_of};
ghost use Rattle.rp_ops.specs.View.{key_rock};
ghost use Rattle.rp_store.specs.Object as object;
ghost use Rattle.rp_ops.specs.Binary.{new_object};
ghost use Rattle.rp_items.specs.Slices.{owner_of};
ghost use Rattle.rp_methods.specs.Classes.{AddsNoClass};
ghost use Rattle.rp_methods.specs.Dicts.{copy, entries_of, keys, values};

use crate::contents::dict_at;
use crate::fault::Fault;
use rp_base::{Memory, Oid, OpEnd, Rock, Seed, Value};
use rp_dict::Dict;
use rp_ops::new_object;
use rp_store::{Key, Object, Store};
use std::alloc::Global;

/// `d.keys()`: a list of the keys of a dict as first written, for a cell and one for each.
pub(crate) fn keys(
    alloc: Global,
    store: &mut Store,
    at: Oid,
    args: &[Value],
) -> Result<Value, OpEnd>
    requires held { IsHeld store.old.heap at }
    requires dict { Names store.old.heap IsDict at }
    ensures plain { (steps : ℕ) → Meets result (state_of store.new steps)
        (keys at args.now (state_of store.old steps)) }
    ensures sound { IfOk result (λ v. IsSound store.new.heap v) }
    ensures shape { KeepsShape store.old.heap store.new.heap }
    ensures classes { AddsNoClass store.old.heap store.new.heap }
    ensures same { OnErr result (store.new ≡ store.old) }
    ensures counters { KeepsCounters store.old store.new }
{
    let [] = args else {
        return Err(Fault::Arguments.end(alloc));
    };
    list_keys(alloc, store, at)
}

fn list_keys(alloc: Global, store: &mut Store, at: Oid) -> Result<Value, OpEnd>
    requires held { IsHeld store.old.heap at }
    requires dict { Names store.old.heap IsDict at }
    ensures plain { (steps : ℕ) → Meets result (state_of store.new steps)
        (new_object (owner_of at (state_of store.old steps))
        (object.list (map key_rock (entries_of store.old.heap at))) (state_of store.old steps)) }
    ensures sound { IfOk result (λ v. IsSound store.new.heap v) }
    ensures shape { KeepsShape store.old.heap store.new.heap }
    ensures classes { AddsNoClass store.old.heap store.new.heap }
    ensures same { OnErr result (store.new ≡ store.old) }
    ensures counters { KeepsCounters store.old store.new }
{
    let keys = keys_of(alloc, dict_at(store, at))?;
    let owner = store.owner(at);
    new_object(store, owner, Object::List(keys))
}

/// The keys as first written.
///
/// # Errors
/// `Memory` where a growth was refused.
fn keys_of(alloc: Global, entries: &Dict<Key, (Rock, Value)>) -> Result<Vec<Value>, Memory>
    ensures { IfOk result (λ v. v.items ≡ map key_rock entries.now) }
{
    let mut keys = Vec::with_capacity(alloc, entries.len())?;
    let mut walk = entries.walk();
    while let Some((_, (rock, _))) = walk.next() {
        push_key(&mut keys, rock)?;
    }
    Ok(keys)
}

/// Puts a copy of a key last.
fn push_key(keys: &mut Vec<Value>, rock: &Rock) -> Result<(), Memory>
    ensures { OnOk result (keys.new.items ≡ keys.old.items ++ Value.Rock rock.now ∷ []) }
{
    keys.push(Value::Rock(rock.copy()?))?;
    Ok(())
}

/// `d.values()`: a list of the values of a dict, for a cell and one for each.
pub(crate) fn values(
    alloc: Global,
    store: &mut Store,
    at: Oid,
    args: &[Value],
) -> Result<Value, OpEnd>
    requires held { IsHeld store.old.heap at }
    requires dict { Names store.old.heap IsDict at }
    ensures plain { (steps : ℕ) → Meets result (state_of store.new steps)
        (values at args.now (state_of store.old steps)) }
    ensures sound { IfOk result (λ v. IsSound store.new.heap v) }
    ensures shape { KeepsShape store.old.heap store.new.heap }
    ensures classes { AddsNoClass store.old.heap store.new.heap }
    ensures same { OnErr result (store.new ≡ store.old) }
    ensures counters { KeepsCounters store.old store.new }
{
    let [] = args else {
        return Err(Fault::Arguments.end(alloc));
    };
    list_values(alloc, store, at)
}

fn list_values(alloc: Global, store: &mut Store, at: Oid) -> Result<Value, OpEnd>
    requires held { IsHeld store.old.heap at }
    requires dict { Names store.old.heap IsDict at }
    ensures plain { (steps : ℕ) → Meets result (state_of store.new steps)
        (new_object (owner_of at (state_of store.old steps))
        (object.list (map (λ e. e.1.1) (entries_of store.old.heap at))) (state_of store.old steps)) }
    ensures sound { IfOk result (λ v. IsSound store.new.heap v) }
    ensures shape { KeepsShape store.old.heap store.new.heap }
    ensures classes { AddsNoClass store.old.heap store.new.heap }
    ensures same { OnErr result (store.new ≡ store.old) }
    ensures counters { KeepsCounters store.old store.new }
{
    let values = values_of(alloc, dict_at(store, at))?;
    let owner = store.owner(at);
    new_object(store, owner, Object::List(values))
}

/// The values.
///
/// # Errors
/// As `keys_of`.
fn values_of(alloc: Global, entries: &Dict<Key, (Rock, Value)>) -> Result<Vec<Value>, Memory>
    ensures { IfOk result (λ v. v.items ≡ map (λ e. e.1.1) entries.now) }
{
    let mut values = Vec::with_capacity(alloc, entries.len())?;
    let mut walk = entries.walk();
    while let Some((_, (_, value))) = walk.next() {
        push_value(&mut values, value)?;
    }
    Ok(values)
}

/// Puts a copy of a value last.
fn push_value(values: &mut Vec<Value>, value: &Value) -> Result<(), Memory>
    ensures { OnOk result (values.new.items ≡ values.old.items ++ value.now ∷ []) }
{
    values.push(value.copy()?)?;
    Ok(())
}

/// `d.copy()`: a dict of the same entries, for a cell and one for each.
pub(crate) fn copy(
    alloc: Global,
    store: &mut Store,
    at: Oid,
    args: &[Value],
) -> Result<Value, OpEnd>
    requires held { IsHeld store.old.heap at }
    requires dict { Names store.old.heap IsDict at }
    ensures plain { (steps : ℕ) → Meets result (state_of store.new steps)
        (copy at args.now (state_of store.old steps)) }
    ensures sound { IfOk result (λ v. IsSound store.new.heap v) }
    ensures shape { KeepsShape store.old.heap store.new.heap }
    ensures classes { AddsNoClass store.old.heap store.new.heap }
    ensures same { OnErr result (store.new ≡ store.old) }
    ensures counters { KeepsCounters store.old store.new }
{
    let [] = args else {
        return Err(Fault::Arguments.end(alloc));
    };
    make_copy(alloc, store, at)
}

fn make_copy(alloc: Global, store: &mut Store, at: Oid) -> Result<Value, OpEnd>
    requires held { IsHeld store.old.heap at }
    requires dict { Names store.old.heap IsDict at }
    ensures plain { (steps : ℕ) → Meets result (state_of store.new steps)
        (new_object (owner_of at (state_of store.old steps)) (object.dict (entries_of store.old.heap at))
        (state_of store.old steps)) }
    ensures sound { IfOk result (λ v. IsSound store.new.heap v) }
    ensures shape { KeepsShape store.old.heap store.new.heap }
    ensures classes { AddsNoClass store.old.heap store.new.heap }
    ensures same { OnErr result (store.new ≡ store.old) }
    ensures counters { KeepsCounters store.old store.new }
{
    let entries = copied(alloc, store.seed(), dict_at(store, at))?;
    let owner = store.owner(at);
    new_object(store, owner, Object::Dict(entries))
}

/// The same entries in the same order.
///
/// # Errors
/// As `keys_of`.
fn copied(
    alloc: Global,
    seed: Seed,
    entries: &Dict<Key, (Rock, Value)>,
) -> Result<Dict<Key, (Rock, Value)>, Memory>
    ensures { IfOk result (λ d. d ≡ entries.now) }
{
    let mut all = Dict::with_capacity(alloc, entries.len(), seed)?;
    let mut walk = entries.walk();
    while let Some((key, (rock, value))) = walk.next() {
        set_copy(&mut all, key, rock, value)?;
    }
    Ok(all)
}

/// Gives an equal key an equal rock and value.
///
/// # Errors
/// As `keys_of`.
fn set_copy(
    all: &mut Dict<Key, (Rock, Value)>,
    key: &Key,
    rock: &Rock,
    value: &Value,
) -> Result<(), Memory>
    ensures { OnOk result (all.new ≡ insert_entry same_key all.old key.now (rock.now, value.now)) }
{
    let entry = (rock.copy()?, value.copy()?);
    all.set(key.copy()?, entry)?;
    Ok(())
}
