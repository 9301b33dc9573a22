//! Values walked to their ends.
#![tactic(auto, using(rp_store::proofs::CallerLemmas::goes_on))]

ghost use Rattle.std.specs.Prelude.{◌≡◌, ◌<◌, ◌≤◌, ◌∷◌, [], List, Some, length, map, IfOk};
ghost use Rattle.std.specs.Option.{option_map, option_map_or};
ghost use Rattle.std.specs.List.{slice_get};
ghost use Rattle.rp_store.specs.Counters.{KeepsCounters};
ghost use Rattle.rp_store.specs.Heap.{IsHeld, Owned, content_at};
ghost use Rattle.rp_store.specs.Kept.{AreSound, IsSound};
ghost use Rattle.rp_store.specs.Store.{Cells};
ghost use Rattle.rp_ops.specs.Binary.{new_text};
ghost use Rattle.rp_ops.specs.Outcome.{Meets, State, state_of, stepped};
ghost use Rattle.rp_ops.specs.View.{elements_of, handed, key_rock};
ghost use Rattle.rp_ops.specs.Walk.{content_elements, elements, items_of, not_walked, rock_elements, spelled_out};
ghost use Rattle.rp_ops.specs.Walk.{walked};

use crate::creation::new_character;
use crate::ends::{step, steps};
use crate::operand::{Elements, elements_at};
use crate::refusal::Refusal;
use crate::sequences::{append, put};
use rp_base::{Memory, Meter, Oid, OpEnd, Rock, Text, Value};
use rp_dict::{Dict, Walk};
use rp_store::{Key, Object, Store};
use std::alloc::Global;

/// What walking a value gives (Python Language Reference, Data model, iterables; zope.security, proxies): the elements
/// of a list or tuple, the keys of a dict as first written, the characters of a text, each as a text of its own. Each
/// takes a step, and a character then costs a cell for each of its bytes. What is walked out of a proxy is lent.
///
/// # Errors
/// - `Raised` with `TypeError`, where the value cannot be walked.
/// - `StopSteps` where no step is left for one of them, `StopCells` where the cells of a character are over the limit.
/// - `Memory` where a growth was refused.
///
/// The objects are as before, the steps left never rise, the limit of the cells stays, and no used cell is given back,
/// whatever is answered.
pub fn elements(
    alloc: Global,
    store: &mut Store,
    meter: &mut Meter,
    a: &Value,
) -> Result<Vec<Value>, OpEnd>
    requires a { IsSound store.old.heap a.now }
    ensures plain { Meets (items_of result) (state_of store.new meter.new.left)
        (elements a.now (state_of store.old meter.old.left)) }
    ensures same { store.new.heap ≡ store.old.heap }
    ensures sound { IfOk result (λ v. AreSound store.new.heap v.items) }
    ensures fewer { meter.new.left ≤ meter.old.left }
    ensures counters { KeepsCounters store.old store.new }
{
    match a {
        Value::Rock(rock) => rock_elements(alloc, store, meter, rock),
        Value::Ref(at) => object_elements(alloc, store, meter, *at, false),
        Value::Prox(at) => object_elements(alloc, store, meter, *at, true),
    }
}

fn rock_elements(
    alloc: Global,
    store: &mut Store,
    meter: &mut Meter,
    rock: &Rock,
) -> Result<Vec<Value>, OpEnd>
    ensures plain { Meets (items_of result) (state_of store.new meter.new.left)
        (rock_elements rock.now (state_of store.old meter.old.left)) }
    ensures same { store.new.heap ≡ store.old.heap }
    ensures sound { (heap : List Owned) → IfOk result (λ v. AreSound heap v.items) }
    ensures fewer { meter.new.left ≤ meter.old.left }
    ensures counters { KeepsCounters store.old store.new }
{
    match rock {
        Rock::Text(text) => spelled_out(alloc, store, meter, text),
        Rock::Nil
        | Rock::Truth(_)
        | Rock::Int(_)
        | Rock::Exc(_, _)
        | Rock::Kind(_)
        | Rock::Native(_) => not_walked(alloc),
    }
}

/// The characters of a text, each as a text of its own.
fn spelled_out(
    alloc: Global,
    store: &mut Store,
    meter: &mut Meter,
    text: &Text,
) -> Result<Vec<Value>, OpEnd>
    ensures plain { Meets (items_of result) (state_of store.new meter.new.left)
        (spelled_out text.now (state_of store.old meter.old.left)) }
    ensures same { store.new.heap ≡ store.old.heap }
    ensures sound { (heap : List Owned) → IfOk result (λ v. AreSound heap v.items) }
    ensures fewer { meter.new.left ≤ meter.old.left }
    ensures counters { KeepsCounters store.old store.new }
{
    let mut letters = Vec::new(alloc);
    for letter in text.as_str().chars() {
        let letter = next_character(alloc, store, meter, letter)?;
        put(&mut letters, letter)?;
    }
    Ok(letters)
}

pub(crate) fn next_character(
    alloc: Global,
    store: &mut Store,
    meter: &mut Meter,
    letter: char,
) -> Result<Value, OpEnd>
    ensures plain { Meets result (state_of store.new meter.new.left)
        (stepped (state_of store.old meter.old.left) (new_text (letter ∷ []))) }
    ensures same { store.new.heap ≡ store.old.heap }
    ensures sound { (heap : List Owned) → IfOk result (λ v. IsSound heap v) }
    ensures fewer { meter.new.left ≤ meter.old.left }
    ensures counters { KeepsCounters store.old store.new }
{
    step(meter)?;
    new_character(alloc, store, letter)
}

fn object_elements(
    alloc: Global,
    store: &Store,
    meter: &mut Meter,
    at: Oid,
    lent: bool,
) -> Result<Vec<Value>, OpEnd>
    requires held { IsHeld store.now.heap at }
    ensures plain { Meets (items_of result) (state_of store.now meter.new.left)
        (option_map_or (λ c. content_elements (handed lent) c (state_of store.now meter.old.left))
        (content_at store.now.heap at) (not_walked (state_of store.now meter.old.left))) }
    ensures sound { IfOk result (λ v. AreSound store.now.heap v.items) }
    ensures fewer { meter.new.left ≤ meter.old.left }
{
    match store.object(at) {
        Object::List(_) => walked(alloc, store, meter, Elements { at, lent }),
        Object::Tuple(_) => walked(alloc, store, meter, Elements { at, lent }),
        Object::Dict(entries) => keys(alloc, meter, entries),
        Object::Instance { .. }
        | Object::Class { .. }
        | Object::Function { .. }
        | Object::Method { .. }
        | Object::Scope { .. } => not_walked(alloc),
    }
}

/// The elements of a list or tuple.
fn walked(alloc: Global, store: &Store, meter: &mut Meter, x: Elements) -> Result<Vec<Value>, OpEnd>
    requires held { IsHeld store.now.heap x.at }
    ensures plain { Meets (items_of result) (state_of store.now meter.new.left)
        (walked (elements_of store.now.heap x) (state_of store.now meter.old.left)) }
    ensures sound { IfOk result (λ v. AreSound store.now.heap v.items) }
    ensures fewer { meter.new.left ≤ meter.old.left }
{
    let count = elements_at(store, x.at).len();
    steps(meter, count)?;
    let values = handed_out(alloc, store, x)?;
    Ok(values)
}

/// The elements of a list or tuple as they are handed out.
///
/// # Errors
/// `Memory` where a growth was refused.
fn handed_out(alloc: Global, store: &Store, x: Elements) -> Result<Vec<Value>, Memory>
    requires { IsHeld store.now.heap x.at }
    ensures { IfOk result (λ v. v.items ≡ elements_of store.now.heap x) }
{
    let mut values = Vec::with_capacity(alloc, elements_at(store, x.at).len())?;
    append(store, x, &mut values)?;
    Ok(values)
}

/// The keys of a dict.
fn keys(
    alloc: Global,
    meter: &mut Meter,
    entries: &Dict<Key, (Rock, Value)>,
) -> Result<Vec<Value>, OpEnd>
    ensures plain { (store : Cells) → Meets (items_of result) (state_of store meter.new.left)
        (walked (map key_rock entries.now) (state_of store meter.old.left)) }
    ensures sound { (heap : List Owned) → IfOk result (λ v. AreSound heap v.items) }
    ensures fewer { meter.new.left ≤ meter.old.left }
{
    let count = entries.len();
    steps(meter, count)?;
    let keys = first_written(alloc, entries)?;
    Ok(keys)
}

/// The keys of a dict as first written.
///
/// # Errors
/// As `handed_out`.
fn first_written(alloc: Global, entries: &Dict<Key, (Rock, Value)>) -> Result<Vec<Value>, Memory>
    ensures { IfOk result (λ v. v.items ≡ map key_rock entries.now) }
{
    let mut keys = Vec::with_capacity(alloc, entries.len())?;
    let mut rest = entries.walk();
    for _ in 0..entries.len() {
        let Some(key) = next_written(&mut rest)? else {
            return Ok(keys);
        };
        put(&mut keys, key)?;
    }
    Ok(keys)
}

/// The next key of a walk over the entries of a dict.
fn next_written(rest: &mut Walk<'_, Key, (Rock, Value)>) -> Result<Option<Value>, Memory>
    ensures { IfOk result (λ key. map key_rock rest.old ≡ option_map_or (λ v. v ∷ map key_rock rest.new) key []) }
{
    match rest.next() {
        Some((_, (rock, _))) => Ok(Some(Value::Rock(rock.copy()?))),
        None => Ok(None),
    }
}

/// The key that stands at this place of a dict, as a value.
///
/// # Errors
/// `Memory` where a growth was refused.
pub fn key_at(entries: &Dict<Key, (Rock, Value)>, i: usize) -> Result<Value, Memory>
    requires { i < length entries.now }
    ensures { IfOk result (λ v. Some v ≡ option_map key_rock (slice_get entries.now i)) }
{
    match entries.at(i) {
        Some((_, (rock, _))) => Ok(Value::Rock(rock.copy()?)),
        None => unreachable!(),
    }
}

fn not_walked(alloc: Global) -> Result<Vec<Value>, OpEnd>
    ensures value { (s : State) → Meets (items_of result) s (not_walked s) }
    ensures sound { (heap : List Owned) → IfOk result (λ v. AreSound heap v.items) }
{
    Err(Refusal::Iterate.end(alloc))
}
