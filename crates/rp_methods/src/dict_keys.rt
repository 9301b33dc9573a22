//! The methods of dicts that take a key.
#![tactic(auto, using(rp_store::proofs::CallerLemmas::goes_on, crate::proofs::NoClasses::no_class))]

ghost use Rattle.std.specs.Prelude.{◌≡◌, ℕ, List, slice_get, IfOk, IfSome, OnErr};
ghost use Rattle.std.specs.Option.{option_copied, option_map_or};
ghost use Rattle.rp_store.specs.Counters.{KeepsCounters};
ghost use Rattle.rp_store.specs.Heap.{IsHeld, Names, Owned};
ghost use Rattle.rp_store.specs.Kept.{AreSound, IsSound};
ghost use Rattle.rp_store.specs.Parts.{IsDict};
ghost use Rattle.rp_store.specs.Shape.{KeepsShape};
ghost use Rattle.rp_store.specs.Store.{written};
ghost use Rattle.rp_store.specs.Writers.{without_entry};
ghost use Rattle.rp_ops.specs.Outcome.{Meets, gives, on_value, state_of};
ghost use Rattle.rp_items.specs.Items.{set_item};
ghost use Rattle.rp_methods.specs.Classes.{AddsNoClass};
ghost use Rattle.rp_methods.specs.Dicts.{dict_pop, get, get_or, missed, pop_or, set_default, setdefault};

use crate::fault::Fault;
use rp_base::{Oid, OpEnd, Rock, Value};
use rp_items::{missing_key, set_item};
use rp_ops::Refusal;
use rp_store::{Key, Store, key_of};
use std::alloc::Global;

/// `d.get(k)` and `d.get(k, x)`: the value at a key, or else the default, which is None where it is not given.
#[inline(always)]
pub(crate) fn get(alloc: Global, store: &Store, at: Oid, args: &[Value]) -> Result<Value, OpEnd>
    requires held { IsHeld store.now.heap at }
    requires args { AreSound store.now.heap args.now }
    ensures plain { (steps : ℕ) → Meets result (state_of store.now steps) (get at args.now (state_of store.now steps)) }
    ensures sound { IfOk result (λ v. IsSound store.now.heap v) }
{
    let Some(k) = args.first() else {
        return Err(Fault::Arguments.end(alloc));
    };
    let nil = Value::Rock(Rock::Nil);
    get_or(alloc, store, at, k, default_in(args, &nil))
}

/// The second argument.
#[inline(always)]
fn second(args: &[Value]) -> Option<&Value>
    ensures value { option_copied result ≡ slice_get args.now 1 }
    ensures sound { (heap : List Owned) → AreSound heap args.now → IfSome (option_copied result) (λ v. IsSound heap v) }
{
    argument(args, 1)
}

/// The argument at a place.
#[inline(always)]
fn argument(args: &[Value], place: usize) -> Option<&Value>
    ensures { option_copied result ≡ slice_get args.now place }
{
    args.get(place)
}

/// The second argument, or else the value.
#[inline(always)]
fn default_in<'a>(args: &'a [Value], other: &'a Value) -> &'a Value
    ensures value { result.now ≡ option_map_or (λ d. d) (slice_get args.now 1) other.now }
    ensures sound { (heap : List Owned) → AreSound heap args.now → IsSound heap other.now → IsSound heap result.now }
{
    match second(args) {
        Some(default) => default,
        None => other,
    }
}

#[inline(always)]
fn get_or(alloc: Global, store: &Store, at: Oid, k: &Value, default: &Value) -> Result<Value, OpEnd>
    requires held { IsHeld store.now.heap at }
    requires default { IsSound store.now.heap default.now }
    ensures plain { (steps : ℕ) → Meets result (state_of store.now steps)
        (get_or at k.now default.now (state_of store.now steps)) }
    ensures sound { IfOk result (λ v. IsSound store.now.heap v) }
{
    match k {
        Value::Rock(rock) => get_entry(alloc, store, at, rock, default),
        Value::Ref(_) | Value::Prox(_) => Err(Refusal::Key.end(alloc)),
    }
}

#[inline(always)]
fn get_entry(
    alloc: Global,
    store: &Store,
    at: Oid,
    rock: &Rock,
    default: &Value,
) -> Result<Value, OpEnd>
    requires held { IsHeld store.now.heap at }
    requires default { IsSound store.now.heap default.now }
    ensures plain { (steps : ℕ) → Meets result (state_of store.now steps)
        (get_or at (Value.Rock rock.now) default.now (state_of store.now steps)) }
    ensures sound { IfOk result (λ v. IsSound store.now.heap v) }
{
    let Some(key) = key_of(rock)? else {
        return Err(Refusal::Key.end(alloc));
    };
    match store.entry(at, &key) {
        Some((_, value)) => Ok(value.copy()?),
        None => Ok(default.copy()?),
    }
}

/// `d.setdefault(k)` and `d.setdefault(k, x)`: the value at a key. A key that is missing is first set to the default,
/// which is None where it is not given, for one cell.
pub(crate) fn setdefault(
    alloc: Global,
    store: &mut Store,
    at: Oid,
    args: &[Value],
) -> Result<Value, OpEnd>
    requires held { IsHeld store.old.heap at }
    requires dict { Names store.old.heap IsDict at }
    requires args { AreSound store.old.heap args.now }
    ensures plain { (steps : ℕ) → Meets result (state_of store.new steps)
        (setdefault at args.now (state_of store.old steps)) }
    ensures sound { IfOk result (λ v. IsSound store.new.heap v) }
    ensures shape { KeepsShape store.old.heap store.new.heap }
    ensures classes { AddsNoClass store.old.heap store.new.heap }
    ensures same { OnErr result (store.new ≡ store.old) }
    ensures counters { KeepsCounters store.old store.new }
{
    let Some(k) = args.first() else {
        return Err(Fault::Arguments.end(alloc));
    };
    let nil = Value::Rock(Rock::Nil);
    set_default(alloc, store, at, k, default_in(args, &nil))
}

fn set_default(
    alloc: Global,
    store: &mut Store,
    at: Oid,
    k: &Value,
    default: &Value,
) -> Result<Value, OpEnd>
    requires held { IsHeld store.old.heap at }
    requires dict { Names store.old.heap IsDict at }
    requires default { IsSound store.old.heap default.now }
    ensures plain { (steps : ℕ) → Meets result (state_of store.new steps)
        (set_default at k.now default.now (state_of store.old steps)) }
    ensures sound { IfOk result (λ v. IsSound store.new.heap v) }
    ensures shape { KeepsShape store.old.heap store.new.heap }
    ensures classes { AddsNoClass store.old.heap store.new.heap }
    ensures same { OnErr result (store.new ≡ store.old) }
    ensures counters { KeepsCounters store.old store.new }
{
    match k {
        Value::Rock(rock) => set_missing(alloc, store, at, rock, default),
        Value::Ref(_) | Value::Prox(_) => Err(Refusal::Key.end(alloc)),
    }
}

fn set_missing(
    alloc: Global,
    store: &mut Store,
    at: Oid,
    rock: &Rock,
    default: &Value,
) -> Result<Value, OpEnd>
    requires held { IsHeld store.old.heap at }
    requires dict { Names store.old.heap IsDict at }
    requires default { IsSound store.old.heap default.now }
    ensures plain { (steps : ℕ) → Meets result (state_of store.new steps)
        (set_default at (Value.Rock rock.now) default.now (state_of store.old steps)) }
    ensures sound { IfOk result (λ v. IsSound store.new.heap v) }
    ensures shape { KeepsShape store.old.heap store.new.heap }
    ensures classes { AddsNoClass store.old.heap store.new.heap }
    ensures same { OnErr result (store.new ≡ store.old) }
    ensures counters { KeepsCounters store.old store.new }
{
    let Some(key) = key_of(rock)? else {
        return Err(Refusal::Key.end(alloc));
    };
    match store.entry(at, &key) {
        Some((_, value)) => Ok(value.copy()?),
        None => set_new(alloc, store, at, rock, default),
    }
}

/// Sets a key to a value, and answers the value.
fn set_new(
    alloc: Global,
    store: &mut Store,
    at: Oid,
    rock: &Rock,
    value: &Value,
) -> Result<Value, OpEnd>
    requires dict { Names store.old.heap IsDict at }
    requires value { IsSound store.old.heap value.now }
    ensures plain { (steps : ℕ) → Meets result (state_of store.new steps)
        (on_value (set_item (Value.Ref at) (Value.Rock rock.now) value.now (state_of store.old steps))
        (λ _ s. gives value.now s)) }
    ensures sound { IfOk result (λ v. IsSound store.new.heap v) }
    ensures shape { KeepsShape store.old.heap store.new.heap }
    ensures classes { AddsNoClass store.old.heap store.new.heap }
    ensures same { OnErr result (store.new ≡ store.old) }
    ensures counters { KeepsCounters store.old store.new }
{
    let answer = value.copy()?;
    put(alloc, store, at, rock, value)?;
    Ok(answer)
}

/// `d.pop(k)` and `d.pop(k, x)`: takes a key out of a dict, and answers its value, or else the default.
pub(crate) fn pop(alloc: Global, store: &mut Store, at: Oid, args: &[Value]) -> Result<Value, OpEnd>
    requires held { IsHeld store.old.heap at }
    requires dict { Names store.old.heap IsDict at }
    requires args { AreSound store.old.heap args.now }
    ensures plain { (steps : ℕ) → Meets result (state_of store.new steps)
        (dict_pop at args.now (state_of store.old steps)) }
    ensures sound { IfOk result (λ v. IsSound store.new.heap v) }
    ensures shape { KeepsShape store.old.heap store.new.heap }
    ensures classes { AddsNoClass store.old.heap store.new.heap }
    ensures same { OnErr result (store.new ≡ store.old) }
    ensures counters { KeepsCounters store.old store.new }
{
    let Some(k) = args.first() else {
        return Err(Fault::Arguments.end(alloc));
    };
    pop_or(alloc, store, at, k, second(args))
}

fn pop_or(
    alloc: Global,
    store: &mut Store,
    at: Oid,
    k: &Value,
    default: Option<&Value>,
) -> Result<Value, OpEnd>
    requires held { IsHeld store.old.heap at }
    requires dict { Names store.old.heap IsDict at }
    requires default { IfSome (option_copied default) (λ v. IsSound store.old.heap v) }
    ensures plain { (steps : ℕ) → Meets result (state_of store.new steps)
        (pop_or at k.now (option_copied default.entry) (state_of store.old steps)) }
    ensures sound { IfOk result (λ v. IsSound store.new.heap v) }
    ensures shape { KeepsShape store.old.heap store.new.heap }
    ensures classes { AddsNoClass store.old.heap store.new.heap }
    ensures same { OnErr result (store.new ≡ store.old) }
    ensures counters { KeepsCounters store.old store.new }
{
    match k {
        Value::Rock(rock) => pop_entry(alloc, store, at, rock, default),
        Value::Ref(_) | Value::Prox(_) => Err(Refusal::Key.end(alloc)),
    }
}

fn pop_entry(
    alloc: Global,
    store: &mut Store,
    at: Oid,
    rock: &Rock,
    default: Option<&Value>,
) -> Result<Value, OpEnd>
    requires held { IsHeld store.old.heap at }
    requires dict { Names store.old.heap IsDict at }
    requires default { IfSome (option_copied default) (λ v. IsSound store.old.heap v) }
    ensures plain { (steps : ℕ) → Meets result (state_of store.new steps)
        (pop_or at (Value.Rock rock.now) (option_copied default.entry) (state_of store.old steps)) }
    ensures sound { IfOk result (λ v. IsSound store.new.heap v) }
    ensures shape { KeepsShape store.old.heap store.new.heap }
    ensures classes { AddsNoClass store.old.heap store.new.heap }
    ensures same { OnErr result (store.new ≡ store.old) }
    ensures counters { KeepsCounters store.old store.new }
{
    let Some(key) = key_of(rock)? else {
        return Err(Refusal::Key.end(alloc));
    };
    let Some((_, value)) = store.entry(at, &key) else {
        return missed(alloc, store, rock, default);
    };
    let value = value.copy()?;
    drop_key(store, at, &key);
    Ok(value)
}

/// The answer for a key that is missing.
fn missed(
    alloc: Global,
    store: &mut Store,
    rock: &Rock,
    default: Option<&Value>,
) -> Result<Value, OpEnd>
    requires default { IfSome (option_copied default) (λ v. IsSound store.old.heap v) }
    ensures plain { (steps : ℕ) → Meets result (state_of store.new steps)
        (missed (option_copied default.entry) rock.now (state_of store.old steps)) }
    ensures sound { IfOk result (λ v. IsSound store.new.heap v) }
    ensures same { store.new ≡ store.old }
    ensures counters { KeepsCounters store.old store.new }
{
    match default {
        Some(value) => Ok(value.copy()?),
        None => Err(missing_key(alloc, store, rock)),
    }
}

/// Takes a key out of a dict.
fn drop_key(store: &mut Store, at: Oid, key: &Key)
    requires held { IsHeld store.old.heap at }
    requires dict { Names store.old.heap IsDict at }
    ensures dropped { store.new ≡ written store.old at (without_entry key.now) }
    ensures shape { KeepsShape store.old.heap store.new.heap }
    ensures classes { AddsNoClass store.old.heap store.new.heap }
    ensures counters { KeepsCounters store.old store.new }
{
    let _removed = store.drop_key(at, key);
}

/// Gives a key its value, for one cell where it is new.
pub(crate) fn put(
    alloc: Global,
    store: &mut Store,
    at: Oid,
    rock: &Rock,
    value: &Value,
) -> Result<(), OpEnd>
    requires dict { Names store.old.heap IsDict at }
    requires value { IsSound store.old.heap value.now }
    ensures plain { (steps : ℕ) → Meets result (state_of store.new steps)
        (set_item (Value.Ref at) (Value.Rock rock.now) value.now (state_of store.old steps)) }
    ensures shape { KeepsShape store.old.heap store.new.heap }
    ensures classes { AddsNoClass store.old.heap store.new.heap }
    ensures same { OnErr result (store.new ≡ store.old) }
    ensures counters { KeepsCounters store.old store.new }
{
    let value = value.copy()?;
    let key = rock.copy()?;
    set_item(alloc, store, &Value::Ref(at), &Value::Rock(key), value)
}
