//! Setting and deleting items.
#![tactic(auto, using(rp_store::proofs::CallerLemmas::goes_on))]

ghost use Rattle.std.specs.Prelude.{◌≡◌, ℕ, is_some, length, IsSome, OnErr};
ghost use Rattle.std.specs.Option.{option_map_or};
ghost use Rattle.rp_store.specs.Counters.{KeepsCounters};
ghost use Rattle.rp_store.specs.Heap.{IsHeld, Names, content_at, elements_at, entry_of};
ghost use Rattle.rp_store.specs.Kept.{IsSound};
ghost use Rattle.rp_store.specs.Key.{key_form};
ghost use Rattle.rp_store.specs.Parts.{IsDict, IsList};
ghost use Rattle.rp_store.specs.Shape.{KeepsShape};
ghost use Rattle.rp_store.specs.Writers.{with_element, without_element};
ghost use Rattle.rp_ops.specs.Keys.{key_named};
ghost use Rattle.rp_ops.specs.Outcome.{Meets, on_found, state_of};
ghost use Rattle.rp_items.specs.Items.{changed, content_del, content_set, del_item, entry_put, missing_key, no_items};
ghost use Rattle.rp_items.specs.Items.{place_named, set_item, without_rock};

use crate::key_error::missing_key;
use crate::places::place_named;
use rp_base::{Oid, OpEnd, Rock, Value};
use rp_ops::Refusal;
use rp_store::{Object, Store, StoreFault, key_of};
use std::alloc::Global;

/// `a[i] = v`, on values whose access decisions have been made (Python Language Reference, Assignment statements): sets
/// an element of a list, or the value at a key of a dict, for one cell where the key is new. A held key stays as first
/// written. It takes no step.
///
/// An instance takes no items here: where its class has `__setitem__`, the caller calls that method instead.
///
/// # Errors
/// - `Raised` with `TypeError`, whose text is `item` where `a` is no list and no dict, `index` where `i` is no index,
///   or `key` where it can be no key, or with `IndexError` and the text `index`, where `i` is outside the elements.
/// - `StopCells` where a cell for a new key is over the limit.
/// - `Memory` where a growth was refused.
///
/// The store is then as before.
pub fn set_item(
    alloc: Global,
    store: &mut Store,
    a: &Value,
    i: &Value,
    v: Value,
) -> Result<(), OpEnd>
    requires a { IsSound store.old.heap a.now }
    requires v { IsSound store.old.heap v }
    ensures plain { (steps : ℕ) → Meets result (state_of store.new steps)
        (set_item a.now i.now v (state_of store.old steps)) }
    ensures same { OnErr result (store.new ≡ store.old) }
    ensures shape { KeepsShape store.old.heap store.new.heap }
    ensures counters { KeepsCounters store.old store.new }
{
    match a {
        Value::Rock(_) => Err(Refusal::Item.end(alloc)),
        Value::Ref(at) => set_in_object(alloc, store, *at, i, v),
        Value::Prox(at) => set_in_object(alloc, store, *at, i, v),
    }
}

fn set_in_object(
    alloc: Global,
    store: &mut Store,
    at: Oid,
    i: &Value,
    v: Value,
) -> Result<(), OpEnd>
    requires held { IsHeld store.old.heap at }
    requires v { IsSound store.old.heap v }
    ensures plain { (steps : ℕ) → Meets result (state_of store.new steps)
        (option_map_or (λ c. content_set at c i.now v (state_of store.old steps)) (content_at store.old.heap at)
        (no_items (state_of store.old steps))) }
    ensures same { OnErr result (store.new ≡ store.old) }
    ensures shape { KeepsShape store.old.heap store.new.heap }
    ensures counters { KeepsCounters store.old store.new }
{
    match store.object(at) {
        Object::List(_) => set_element(alloc, store, at, i, v),
        Object::Dict(_) => set_entry(alloc, store, at, i, v),
        Object::Tuple(_)
        | Object::Instance { .. }
        | Object::Class { .. }
        | Object::Function { .. }
        | Object::Method { .. }
        | Object::Scope { .. } => Err(Refusal::Item.end(alloc)),
    }
}

fn set_element(alloc: Global, store: &mut Store, at: Oid, i: &Value, v: Value) -> Result<(), OpEnd>
    requires held { IsHeld store.old.heap at }
    requires list { Names store.old.heap IsList at }
    requires v { IsSound store.old.heap v }
    ensures plain { (steps : ℕ) → Meets result (state_of store.new steps)
        (on_found (place_named (length (elements_at store.old.heap at)) i.now) (state_of store.old steps)
        (λ p s. changed at (with_element p v) s)) }
    ensures same { OnErr result (store.new ≡ store.old) }
    ensures shape { KeepsShape store.old.heap store.new.heap }
    ensures counters { KeepsCounters store.old store.new }
{
    match place_named(list_length(store, at), i) {
        Ok(place) => {
            store.set_at(at, place, v);
            Ok(())
        }
        Err(refusal) => Err(refusal.end(alloc)),
    }
}

/// The number of elements of a list.
#[inline(always)]
fn list_length(store: &Store, at: Oid) -> usize
    requires held { IsHeld store.now.heap at }
    requires list { Names store.now.heap IsList at }
    ensures { result ≡ length (elements_at store.now.heap at) }
{
    match store.object(at) {
        Object::List(elements) => elements.len(),
        _ => 0,
    }
}

fn set_entry(alloc: Global, store: &mut Store, at: Oid, i: &Value, v: Value) -> Result<(), OpEnd>
    requires held { IsHeld store.old.heap at }
    requires dict { Names store.old.heap IsDict at }
    requires v { IsSound store.old.heap v }
    ensures plain { (steps : ℕ) → Meets result (state_of store.new steps)
        (on_found (key_named i.now) (state_of store.old steps) (λ r s. entry_put at r v s)) }
    ensures same { OnErr result (store.new ≡ store.old) }
    ensures shape { KeepsShape store.old.heap store.new.heap }
    ensures counters { KeepsCounters store.old store.new }
{
    match i {
        Value::Rock(rock) => {
            if !is_key(rock) {
                return Err(Refusal::Key.end(alloc));
            }
            put_entry(store, at, rock, v)
        }
        Value::Ref(_) | Value::Prox(_) => Err(Refusal::Key.end(alloc)),
    }
}

/// Whether a rock may be a key.
#[inline(always)]
fn is_key(rock: &Rock) -> bool
    ensures { result ≡ is_some (key_form rock.now) }
{
    match rock {
        Rock::Nil | Rock::Truth(_) | Rock::Int(_) | Rock::Text(_) => true,
        Rock::Exc(_, _) | Rock::Kind(_) | Rock::Native(_) => false,
    }
}

fn put_entry(store: &mut Store, at: Oid, rock: &Rock, v: Value) -> Result<(), OpEnd>
    requires held { IsHeld store.old.heap at }
    requires dict { Names store.old.heap IsDict at }
    requires key { IsSome (key_form rock.now) }
    requires v { IsSound store.old.heap v }
    ensures plain { (steps : ℕ) → Meets result (state_of store.new steps)
        (entry_put at rock.now v (state_of store.old steps)) }
    ensures same { OnErr result (store.new ≡ store.old) }
    ensures shape { KeepsShape store.old.heap store.new.heap }
    ensures counters { KeepsCounters store.old store.new }
{
    let key = rock.copy()?;
    match store.put(at, key, v) {
        Ok(()) => {
            // For the proof alone, which learns here that the cells used are at most the limit.
            let _used = store.used();
            Ok(())
        }
        Err(StoreFault::Cells) => Err(OpEnd::StopCells),
        Err(StoreFault::Memory) => Err(OpEnd::Memory),
    }
}

/// `del a[i]`, on values whose access decisions have been made (Python Language Reference, The del statement): takes an
/// element out of a list, or a key out of a dict. It takes no step and uses no cell; cells are never given back.
///
/// An instance gives up no items here: where its class has `__delitem__`, the caller calls that method instead.
///
/// # Errors
/// - `Raised` with `TypeError`, whose text is `item` where `a` is no list and no dict, `index` where `i` is no index,
///   or `key` where it can be no key, with `IndexError` and the text `index`, where `i` is outside the elements, or
///   with `KeyError`, whose text is the key as it is shown inside a container, where the dict has no such key.
/// - `Memory` where a growth was refused, or the store holds no more bytes of the texts of exceptions.
///
/// The store is then as before.
pub fn del_item(alloc: Global, store: &mut Store, a: &Value, i: &Value) -> Result<(), OpEnd>
    requires a { IsSound store.old.heap a.now }
    ensures plain { (steps : ℕ) → Meets result (state_of store.new steps)
        (del_item a.now i.now (state_of store.old steps)) }
    ensures same { OnErr result (store.new ≡ store.old) }
    ensures shape { KeepsShape store.old.heap store.new.heap }
    ensures counters { KeepsCounters store.old store.new }
{
    match a {
        Value::Rock(_) => Err(Refusal::Item.end(alloc)),
        Value::Ref(at) => del_in_object(alloc, store, *at, i),
        Value::Prox(at) => del_in_object(alloc, store, *at, i),
    }
}

fn del_in_object(alloc: Global, store: &mut Store, at: Oid, i: &Value) -> Result<(), OpEnd>
    requires held { IsHeld store.old.heap at }
    ensures plain { (steps : ℕ) → Meets result (state_of store.new steps)
        (option_map_or (λ c. content_del at c i.now (state_of store.old steps)) (content_at store.old.heap at)
        (no_items (state_of store.old steps))) }
    ensures same { OnErr result (store.new ≡ store.old) }
    ensures shape { KeepsShape store.old.heap store.new.heap }
    ensures counters { KeepsCounters store.old store.new }
{
    match store.object(at) {
        Object::List(_) => del_element(alloc, store, at, i),
        Object::Dict(_) => del_entry(alloc, store, at, i),
        Object::Tuple(_)
        | Object::Instance { .. }
        | Object::Class { .. }
        | Object::Function { .. }
        | Object::Method { .. }
        | Object::Scope { .. } => Err(Refusal::Item.end(alloc)),
    }
}

fn del_element(alloc: Global, store: &mut Store, at: Oid, i: &Value) -> Result<(), OpEnd>
    requires held { IsHeld store.old.heap at }
    requires list { Names store.old.heap IsList at }
    ensures plain { (steps : ℕ) → Meets result (state_of store.new steps)
        (on_found (place_named (length (elements_at store.old.heap at)) i.now) (state_of store.old steps)
        (λ p s. changed at (without_element p) s)) }
    ensures same { OnErr result (store.new ≡ store.old) }
    ensures shape { KeepsShape store.old.heap store.new.heap }
    ensures counters { KeepsCounters store.old store.new }
{
    match place_named(list_length(store, at), i) {
        Ok(place) => {
            let _removed = store.remove_at(at, place);
            Ok(())
        }
        Err(refusal) => Err(refusal.end(alloc)),
    }
}

fn del_entry(alloc: Global, store: &mut Store, at: Oid, i: &Value) -> Result<(), OpEnd>
    requires held { IsHeld store.old.heap at }
    requires dict { Names store.old.heap IsDict at }
    ensures plain { (steps : ℕ) → Meets result (state_of store.new steps)
        (on_found (key_named i.now) (state_of store.old steps)
        (λ r s. option_map_or (λ e. changed at (without_rock r) s) (entry_of store.old.heap at r) (missing_key r s))) }
    ensures same { OnErr result (store.new ≡ store.old) }
    ensures shape { KeepsShape store.old.heap store.new.heap }
    ensures counters { KeepsCounters store.old store.new }
{
    match i {
        Value::Rock(rock) => drop_entry(alloc, store, at, rock),
        Value::Ref(_) | Value::Prox(_) => Err(Refusal::Key.end(alloc)),
    }
}

fn drop_entry(alloc: Global, store: &mut Store, at: Oid, rock: &Rock) -> Result<(), OpEnd>
    requires held { IsHeld store.old.heap at }
    requires dict { Names store.old.heap IsDict at }
    ensures plain { (steps : ℕ) → Meets result (state_of store.new steps)
        (on_found (key_named (Value.Rock rock.now)) (state_of store.old steps)
        (λ r s. option_map_or (λ e. changed at (without_rock r) s) (entry_of store.old.heap at r) (missing_key r s))) }
    ensures same { OnErr result (store.new ≡ store.old) }
    ensures shape { KeepsShape store.old.heap store.new.heap }
    ensures counters { KeepsCounters store.old store.new }
{
    let Some(key) = key_of(rock)? else {
        return Err(Refusal::Key.end(alloc));
    };
    let dropped = store.drop_key(at, &key);
    if dropped.is_none() {
        return Err(missing_key(alloc, store, rock));
    }
    Ok(())
}
