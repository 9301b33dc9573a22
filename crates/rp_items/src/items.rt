//! Reading items.
#![tactic(auto, using(rp_store::proofs::CallerLemmas::goes_on))]

ghost use Rattle.std.specs.Prelude.{◌≡◌, ℕ, List, length, IfOk};
ghost use Rattle.std.specs.Option.{option_map_or};
ghost use Rattle.rp_store.specs.Counters.{KeepsCounters};
ghost use Rattle.rp_store.specs.Heap.{IsHeld, Owned, content_at, entry_of};
ghost use Rattle.rp_store.specs.Kept.{AreSound, IsSound};
ghost use Rattle.rp_ops.specs.Keys.{key_named};
ghost use Rattle.rp_ops.specs.Outcome.{Meets, State, gives, on_found, state_of};
ghost use Rattle.rp_items.specs.Items.{character_at, content_item, elements_item, item, missing_key, no_items};
ghost use Rattle.rp_items.specs.Items.{place_named, rock_item};

use crate::key_error::missing_key;
use crate::letters::character_of;
use crate::places::place_named;
use rp_base::{Oid, OpEnd, Rock, Text, Value};
use rp_ops::{Refusal, lent, new_character};
use rp_store::{Object, Store, key_of};
use std::alloc::Global;

/// `a[i]`, on values whose access decisions have been made (Python Language Reference, Subscriptions): an element of a
/// list or a tuple, a character of a text, which costs a cell for each of its bytes, or the value at a key of a dict.
/// What is got through a proxy is lent. It takes no step.
///
/// An instance has no items here: where its class has `__getitem__`, the caller calls that method instead.
///
/// # Errors
/// - `Raised` with `TypeError`, whose text is `item` where `a` has no items, `index` where `i` is no index, or `key`
///   where it can be no key, with `IndexError` and the text `index`, where `i` is outside the elements, or with
///   `KeyError`, whose text is the key as it is shown inside a container, where the dict has no such key.
/// - `StopCells` where the cells are over the limit; then the store is as before.
/// - `Memory` where a growth was refused, or the store holds no more bytes of the texts of exceptions. Then cells may
///   be used; the limit stays, and no used cell is given back.
pub fn item(alloc: Global, store: &mut Store, a: &Value, i: &Value) -> Result<Value, OpEnd>
    requires a { IsSound store.old.heap a.now }
    ensures plain { (steps : ℕ) → Meets result (state_of store.new steps)
        (item a.now i.now (state_of store.old steps)) }
    ensures same { store.new.heap ≡ store.old.heap }
    ensures sound { IfOk result (λ v. IsSound store.new.heap v) }
    ensures counters { KeepsCounters store.old store.new }
{
    match a {
        Value::Rock(rock) => rock_item(alloc, store, rock, i),
        Value::Ref(at) => object_item(alloc, store, *at, i),
        Value::Prox(at) => {
            let value = object_item(alloc, store, *at, i)?;
            Ok(lent(value))
        }
    }
}

fn rock_item(alloc: Global, store: &mut Store, rock: &Rock, i: &Value) -> Result<Value, OpEnd>
    ensures plain { (steps : ℕ) → Meets result (state_of store.new steps)
        (rock_item rock.now i.now (state_of store.old steps)) }
    ensures same { store.new.heap ≡ store.old.heap }
    ensures sound { IfOk result (λ v. IsSound store.new.heap v) }
    ensures counters { KeepsCounters store.old store.new }
{
    match rock {
        Rock::Text(text) => text_item(alloc, store, text, i),
        _ => Err(Refusal::Item.end(alloc)),
    }
}

fn text_item(alloc: Global, store: &mut Store, text: &Text, i: &Value) -> Result<Value, OpEnd>
    ensures plain { (steps : ℕ) → Meets result (state_of store.new steps)
        (on_found (place_named (length text.now) i.now) (state_of store.old steps) (character_at text.now)) }
    ensures same { store.new.heap ≡ store.old.heap }
    ensures sound { IfOk result (λ v. IsSound store.new.heap v) }
    ensures counters { KeepsCounters store.old store.new }
{
    match place_named(text.len(), i) {
        Ok(place) => character_at(alloc, store, text, place),
        Err(refusal) => Err(refusal.end(alloc)),
    }
}

fn character_at(alloc: Global, store: &mut Store, text: &Text, place: usize) -> Result<Value, OpEnd>
    ensures plain { (steps : ℕ) → Meets result (state_of store.new steps)
        (character_at text.now place (state_of store.old steps)) }
    ensures same { store.new.heap ≡ store.old.heap }
    ensures sound { IfOk result (λ v. IsSound store.new.heap v) }
    ensures counters { KeepsCounters store.old store.new }
{
    match character_of(text, place) {
        Some(letter) => new_character(alloc, store, letter),
        None => Err(Refusal::Outside.end(alloc)),
    }
}

#[inline(always)]
fn object_item(alloc: Global, store: &mut Store, at: Oid, i: &Value) -> Result<Value, OpEnd>
    requires held { IsHeld store.old.heap at }
    ensures plain { (steps : ℕ) → Meets result (state_of store.new steps)
        (option_map_or (λ c. content_item c i.now (state_of store.old steps)) (content_at store.old.heap at)
        (no_items (state_of store.old steps))) }
    ensures same { store.new ≡ store.old }
    ensures sound { IfOk result (λ v. IsSound store.new.heap v) }
    ensures counters { KeepsCounters store.old store.new }
{
    match store.object(at) {
        Object::List(elements) => elements_item(alloc, elements.as_slice(), i),
        Object::Tuple(elements) => elements_item(alloc, elements.as_slice(), i),
        Object::Dict(_) => dict_item(alloc, store, at, i),
        Object::Instance { .. }
        | Object::Class { .. }
        | Object::Function { .. }
        | Object::Method { .. }
        | Object::Scope { .. } => Err(Refusal::Item.end(alloc)),
    }
}

#[inline(always)]
fn elements_item(alloc: Global, elements: &[Value], i: &Value) -> Result<Value, OpEnd>
    ensures plain { (s : State) → Meets result s (elements_item elements.now i.now s) }
    ensures sound { (heap : List Owned) → AreSound heap elements.now → IfOk result (λ v. IsSound heap v) }
{
    match place_named(elements.len(), i) {
        Ok(place) => Ok(elements[place].copy()?),
        Err(refusal) => Err(refusal.end(alloc)),
    }
}

/// The value at a key of a dict.
fn dict_item(alloc: Global, store: &mut Store, at: Oid, i: &Value) -> Result<Value, OpEnd>
    requires held { IsHeld store.old.heap at }
    ensures plain { (steps : ℕ) → Meets result (state_of store.new steps)
        (on_found (key_named i.now) (state_of store.old steps)
        (λ r s. option_map_or (λ e. gives e.1 s) (entry_of store.old.heap at r) (missing_key r s))) }
    ensures same { store.new ≡ store.old }
    ensures sound { IfOk result (λ v. IsSound store.new.heap v) }
    ensures counters { KeepsCounters store.old store.new }
{
    match i {
        Value::Rock(rock) => entry_item(alloc, store, at, rock),
        Value::Ref(_) | Value::Prox(_) => Err(Refusal::Key.end(alloc)),
    }
}

fn entry_item(alloc: Global, store: &mut Store, at: Oid, rock: &Rock) -> Result<Value, OpEnd>
    requires held { IsHeld store.old.heap at }
    ensures plain { (steps : ℕ) → Meets result (state_of store.new steps)
        (on_found (key_named (Value.Rock rock.now)) (state_of store.old steps)
        (λ r s. option_map_or (λ e. gives e.1 s) (entry_of store.old.heap at r) (missing_key r s))) }
    ensures same { store.new ≡ store.old }
    ensures sound { IfOk result (λ v. IsSound store.new.heap v) }
    ensures counters { KeepsCounters store.old store.new }
{
    let Some(key) = key_of(rock)? else {
        return Err(Refusal::Key.end(alloc));
    };
    match store.entry(at, &key) {
        Some((_, value)) => Ok(value.copy()?),
        None => Err(missing_key(alloc, store, rock)),
    }
}
