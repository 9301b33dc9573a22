//! The entries of dicts as tuples, and as what other dicts take.
#![tactic(auto, using(rp_store::proofs::CallerLemmas::goes_on, crate::proofs::NoClasses::no_class))]

ghost use Rattle.std.specs.Prelude.{◌≡◌, ◌+◌, ◌*◌, ◌^◌, ◌<◌, ◌≤◌, ◌++◌, ℕ, List, None, Some, is_some, if◌then◌else◌};
ghost use Rattle.std.specs.Prelude.{[], ◌∷◌, length, IfOk, IfSome, MatchOption, OnOk};
ghost use Rattle.std.specs.List.{All};
ghost use Rattle.rp_store.specs.Counters.{KeepsCounters};
ghost use Rattle.rp_store.specs.Heap.{IsHeld, Names, entry_of};
ghost use Rattle.rp_store.specs.Kept.{AreSound, IsSound};
ghost use Rattle.rp_store.specs.Object as object;
ghost use Rattle.rp_store.specs.Parts.{IsDict};
ghost use Rattle.rp_store.specs.Shape.{KeepsShape};
ghost use Rattle.rp_store.specs.Store.{added};
ghost use Rattle.rp_ops.specs.Outcome.{Meets, charged, gives, state_of};
ghost use Rattle.rp_ops.specs.View.{handed};
ghost use Rattle.rp_methods.specs.Classes.{AddsNoClass};
ghost use Rattle.rp_methods.specs.Dicts.{items, new_keys, pairs, pairs_given, pairs_in, put_all, roomed, tuples_listed};
ghost use Rattle.rp_methods.specs.Dicts.{update};

use crate::contents::dict_at;
use crate::dict_keys::put;
use crate::fault::Fault;
use rp_base::{Memory, Oid, OpEnd, Rock, Side, Value};
use rp_dict::Dict;
use rp_ops::{charge_copies, check_room, handed};
use rp_store::{Key, Object, Store, key_of};
use std::alloc::Global;

/// `d.items()`: a list of a tuple of each key and its value, for the cells of them all.
pub(crate) fn items(
    alloc: Global,
    store: &mut Store,
    at: Oid,
    args: &[Value],
) -> Result<Value, OpEnd>
    requires held { IsHeld store.old.heap at }
    requires dict { Names store.old.heap IsDict at }
    ensures plain { (steps : ℕ) → Meets result (state_of store.new steps)
        (items at args.now (state_of store.old steps)) }
    ensures sound { IfOk result (λ v. IsSound store.new.heap v) }
    ensures shape { KeepsShape store.old.heap store.new.heap }
    ensures classes { AddsNoClass store.old.heap store.new.heap }
    ensures counters { KeepsCounters store.old store.new }
{
    let [] = args else {
        return Err(Fault::Arguments.end(alloc));
    };
    list_items(alloc, store, at)
}

fn list_items(alloc: Global, store: &mut Store, at: Oid) -> Result<Value, OpEnd>
    requires held { IsHeld store.old.heap at }
    requires dict { Names store.old.heap IsDict at }
    ensures plain { (steps : ℕ) → Meets result (state_of store.new steps) (items at [] (state_of store.old steps)) }
    ensures sound { IfOk result (λ v. IsSound store.new.heap v) }
    ensures shape { KeepsShape store.old.heap store.new.heap }
    ensures classes { AddsNoClass store.old.heap store.new.heap }
    ensures counters { KeepsCounters store.old store.new }
{
    let entries = pairs_of(alloc, dict_at(store, at), false)?;
    let owner = store.owner(at);
    list_pairs(alloc, store, owner, entries.as_slice())
}

/// The rock of each entry, and its value, lent or as it is.
///
/// # Errors
/// `Memory` where a growth was refused.
fn pairs_of(
    alloc: Global,
    entries: &Dict<Key, (Rock, Value)>,
    lent: bool,
) -> Result<Vec<(Rock, Value)>, Memory>
    ensures { IfOk result (λ v. v.items ≡ pairs (handed lent) entries.now) }
{
    let mut all = Vec::with_capacity(alloc, entries.len())?;
    let mut walk = entries.walk();
    while let Some((_, (rock, value))) = walk.next() {
        push_pair(&mut all, rock, value, lent)?;
    }
    Ok(all)
}

/// Puts a rock and a value last, lent or as it is.
fn push_pair(
    all: &mut Vec<(Rock, Value)>,
    rock: &Rock,
    value: &Value,
    lent: bool,
) -> Result<(), Memory>
    ensures { OnOk result (all.new.items ≡ all.old.items ++ (rock.now, handed lent value.now) ∷ []) }
{
    all.push((rock.copy()?, handed(value, lent)?))?;
    Ok(())
}

/// A list of a tuple of each pair, for the cells of them all.
fn list_pairs(
    alloc: Global,
    store: &mut Store,
    side: Side,
    entries: &[(Rock, Value)],
) -> Result<Value, OpEnd>
    requires { All (λ e. IsSound store.old.heap e.1) entries.now }
    ensures plain { (steps : ℕ) → Meets result (state_of store.new steps)
        (charged (1 + length entries.now * 4) (state_of store.old steps) (λ s. tuples_listed side entries.now [] s)) }
    ensures sound { IfOk result (λ v. IsSound store.new.heap v) }
    ensures shape { KeepsShape store.old.heap store.new.heap }
    ensures classes { AddsNoClass store.old.heap store.new.heap }
    ensures counters { KeepsCounters store.old store.new }
{
    charge_copies(store, 1, entries.len() as u64, 4)?;
    let list = make_pairs(alloc, store, side, entries)?;
    Ok(list)
}

/// A list of a tuple of each pair, whose cells are used already.
fn make_pairs(
    alloc: Global,
    store: &mut Store,
    side: Side,
    entries: &[(Rock, Value)],
) -> Result<Value, Memory>
    requires { All (λ e. IsSound store.old.heap e.1) entries.now }
    ensures plain { (steps : ℕ) → IfOk result (λ v. tuples_listed side entries.now [] (state_of store.old steps)
        ≡ gives v (state_of store.new steps)) }
    ensures sound { IfOk result (λ v. IsSound store.new.heap v) }
    ensures shape { KeepsShape store.old.heap store.new.heap }
    ensures classes { AddsNoClass store.old.heap store.new.heap }
    ensures counters { KeepsCounters store.old store.new }
{
    let made = make_tuples(alloc, store, side, entries)?;
    let at = store.add(side, Object::List(made))?;
    Ok(Value::Ref(at))
}

/// A tuple of each pair, whose cells are used already.
///
/// # Errors
/// As `make_pair`.
fn make_tuples(
    alloc: Global,
    store: &mut Store,
    side: Side,
    entries: &[(Rock, Value)],
) -> Result<Vec<Value>, Memory>
    requires { All (λ e. IsSound store.old.heap e.1) entries.now }
    ensures made { (steps : ℕ) → IfOk result (λ v. tuples_listed side entries.now [] (state_of store.old steps)
        ≡ tuples_listed side [] v.items (state_of store.new steps)) }
    ensures sound { IfOk result (λ v. AreSound store.new.heap v.items) }
    ensures shape { KeepsShape store.old.heap store.new.heap }
    ensures classes { AddsNoClass store.old.heap store.new.heap }
    ensures counters { KeepsCounters store.old store.new }
{
    let mut made = Vec::with_capacity(alloc, entries.len())?;
    for (rock, value) in entries {
        let pair = make_pair(alloc, store, side, rock, value)?;
        made.push(pair)?;
    }
    Ok(made)
}

/// A tuple of a key and a value, whose cells are used already.
///
/// # Errors
/// `Memory` where a growth was refused.
fn make_pair(
    alloc: Global,
    store: &mut Store,
    side: Side,
    rock: &Rock,
    value: &Value,
) -> Result<Value, Memory>
    requires { IsSound store.old.heap value.now }
    ensures place { IfOk result (λ v. v ≡ Value.Ref (record { 0 = length store.old.heap })) }
    ensures added { OnOk result (store.new
        ≡ added store.old side (object.tuple (Value.Rock rock.now ∷ value.now ∷ []))) }
    ensures sound { IfOk result (λ v. IsSound store.new.heap v) }
    ensures shape { KeepsShape store.old.heap store.new.heap }
    ensures classes { AddsNoClass store.old.heap store.new.heap }
    ensures counters { KeepsCounters store.old store.new }
{
    let both = both(alloc, rock, value)?;
    let at = store.add(side, Object::Tuple(both))?;
    Ok(Value::Ref(at))
}

/// Copies of a key and a value.
///
/// # Errors
/// As `make_pair`.
fn both(alloc: Global, rock: &Rock, value: &Value) -> Result<Vec<Value>, Memory>
    ensures { IfOk result (λ v. v.items ≡ Value.Rock rock.now ∷ value.now ∷ []) }
{
    let mut both = Vec::with_capacity(alloc, 2)?;
    both.push(Value::Rock(rock.copy()?))?;
    both.push(value.copy()?)?;
    Ok(both)
}

/// `d.update(e)`: gives a dict the entries of another, for one cell for each new key. What comes out of a lent dict is
/// lent.
pub(crate) fn update(
    alloc: Global,
    store: &mut Store,
    at: Oid,
    args: &[Value],
) -> Result<Value, OpEnd>
    requires held { IsHeld store.old.heap at }
    requires dict { Names store.old.heap IsDict at }
    requires args { AreSound store.old.heap args.now }
    ensures plain { (steps : ℕ) → Meets result (state_of store.new steps)
        (update at args.now (state_of store.old steps)) }
    ensures sound { IfOk result (λ v. IsSound store.new.heap v) }
    ensures shape { KeepsShape store.old.heap store.new.heap }
    ensures classes { AddsNoClass store.old.heap store.new.heap }
    ensures counters { KeepsCounters store.old store.new }
{
    let [d] = args else {
        return Err(Fault::Arguments.end(alloc));
    };
    update_by(alloc, store, at, d)
}

fn update_by(alloc: Global, store: &mut Store, at: Oid, d: &Value) -> Result<Value, OpEnd>
    requires held { IsHeld store.old.heap at }
    requires dict { Names store.old.heap IsDict at }
    requires d { IsSound store.old.heap d.now }
    ensures plain { (steps : ℕ) → Meets result (state_of store.new steps)
        (update at (d.now ∷ []) (state_of store.old steps)) }
    ensures sound { IfOk result (λ v. IsSound store.new.heap v) }
    ensures shape { KeepsShape store.old.heap store.new.heap }
    ensures classes { AddsNoClass store.old.heap store.new.heap }
    ensures counters { KeepsCounters store.old store.new }
{
    let Some(entries) = pairs_given(alloc, store, d)? else {
        return Err(Fault::Argument.end(alloc));
    };
    put_room(alloc, store, at, entries.as_slice())
}

/// The entries that a value gives, None where it is no dict.
///
/// # Errors
/// As `pairs_of`.
fn pairs_given(
    alloc: Global,
    store: &Store,
    d: &Value,
) -> Result<Option<Vec<(Rock, Value)>>, Memory>
    requires { IsSound store.now.heap d.now }
    ensures pairs { IfOk result (λ r. MatchOption r (pairs_given store.now.heap d.now ≡ None)
        (λ v. pairs_given store.now.heap d.now ≡ Some v.items)) }
    ensures sound { IfOk result (λ r. IfSome r (λ v. All (λ e. IsSound store.now.heap e.1) v.items)) }
{
    match d {
        Value::Rock(_) => Ok(None),
        Value::Ref(at) => pairs_at(alloc, store, *at, false),
        Value::Prox(at) => pairs_at(alloc, store, *at, true),
    }
}

fn pairs_at(
    alloc: Global,
    store: &Store,
    at: Oid,
    lent: bool,
) -> Result<Option<Vec<(Rock, Value)>>, Memory>
    requires { IsHeld store.now.heap at }
    ensures pairs { IfOk result (λ r. MatchOption r (pairs_in (handed lent) store.now.heap at ≡ None)
        (λ v. pairs_in (handed lent) store.now.heap at ≡ Some v.items)) }
    ensures sound { IfOk result (λ r. IfSome r (λ v. All (λ e. IsSound store.now.heap e.1) v.items)) }
{
    match store.object(at) {
        Object::Dict(entries) => {
            let pairs = pairs_of(alloc, entries, lent)?;
            Ok(Some(pairs))
        }
        Object::List(_)
        | Object::Tuple(_)
        | Object::Instance { .. }
        | Object::Class { .. }
        | Object::Function { .. }
        | Object::Method { .. }
        | Object::Scope { .. } => Ok(None),
    }
}

/// Gives each key its value, where there is room for all new keys.
fn put_room(
    alloc: Global,
    store: &mut Store,
    at: Oid,
    entries: &[(Rock, Value)],
) -> Result<Value, OpEnd>
    requires held { IsHeld store.old.heap at }
    requires dict { Names store.old.heap IsDict at }
    requires sound { All (λ e. IsSound store.old.heap e.1) entries.now }
    ensures plain { (steps : ℕ) → Meets result (state_of store.new steps)
        (roomed (new_keys store.old.heap at 0 entries.now) (state_of store.old steps) (put_all at entries.now)) }
    ensures sound { IfOk result (λ v. IsSound store.new.heap v) }
    ensures shape { KeepsShape store.old.heap store.new.heap }
    ensures classes { AddsNoClass store.old.heap store.new.heap }
    ensures counters { KeepsCounters store.old store.new }
{
    let count = new_keys(store, at, entries)?;
    check_room(store, count as u64)?;
    put_all(alloc, store, at, entries)
}

/// How many of the keys a dict does not have.
///
/// # Errors
/// `Memory` where a growth was refused.
fn new_keys(store: &Store, at: Oid, entries: &[(Rock, Value)]) -> Result<usize, Memory>
    requires { IsHeld store.now.heap at }
    ensures { IfOk result (λ n. n ≡ new_keys store.now.heap at 0 entries.now) }
{
    let mut count = 0;
    for (rock, _) in entries {
        let is_held = has_key(store, at, rock)?;
        count = with_new(count, is_held);
    }
    Ok(count)
}

/// So many, and one more where a key is not held.
fn with_new(count: usize, is_held: bool) -> usize
    requires { count + 1 < 2 ^ 64 }
    ensures value { result ≡ (if is_held then count else count + 1) }
    ensures within { result ≤ count + 1 }
{
    if is_held { count } else { count + 1 }
}

/// Whether a dict has a rock as a key.
///
/// # Errors
/// `Memory` where a growth was refused.
fn has_key(store: &Store, at: Oid, rock: &Rock) -> Result<bool, Memory>
    requires { IsHeld store.now.heap at }
    ensures { IfOk result (λ b. b ≡ is_some (entry_of store.now.heap at rock.now)) }
{
    match key_of(rock)? {
        Some(key) => Ok(store.entry(at, &key).is_some()),
        None => Ok(false),
    }
}

/// Gives each key its value.
fn put_all(
    alloc: Global,
    store: &mut Store,
    at: Oid,
    entries: &[(Rock, Value)],
) -> Result<Value, OpEnd>
    requires dict { Names store.old.heap IsDict at }
    requires sound { All (λ e. IsSound store.old.heap e.1) entries.now }
    ensures plain { (steps : ℕ) → Meets result (state_of store.new steps)
        (put_all at entries.now (state_of store.old steps)) }
    ensures sound { IfOk result (λ v. IsSound store.new.heap v) }
    ensures shape { KeepsShape store.old.heap store.new.heap }
    ensures classes { AddsNoClass store.old.heap store.new.heap }
    ensures counters { KeepsCounters store.old store.new }
{
    for (rock, value) in entries {
        put(alloc, store, at, rock, value)?;
    }
    Ok(Value::Rock(Rock::Nil))
}
