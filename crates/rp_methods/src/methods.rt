//! Calls of built-in methods.
#![tactic(auto, using(rp_store::proofs::CallerLemmas::goes_on, crate::proofs::NoClasses::no_class))]

ghost use Rattle.std.specs.Prelude.{◌≤◌, ℕ, IfOk};
ghost use Rattle.rp_store.specs.Counters.{KeepsCounters};
ghost use Rattle.rp_store.specs.Heap.{IsHeld, Names};
ghost use Rattle.rp_store.specs.Kept.{AreSound, IsSound};
ghost use Rattle.rp_store.specs.Parts.{IsDict, IsList};
ghost use Rattle.rp_store.specs.Shape.{KeepsShape};
ghost use Rattle.rp_ops.specs.Outcome.{Meets, state_of};
ghost use Rattle.rp_methods.specs.Classes.{AddsNoClass};
ghost use Rattle.rp_methods.specs.Dicts.{dict_method};
ghost use Rattle.rp_methods.specs.Lists.{list_method, tuple_method};
ghost use Rattle.rp_methods.specs.Methods.{method, method_of, object_method};
ghost use Rattle.rp_methods.specs.Texts.{text_method};

use crate::dict_keys::{get, setdefault};
use crate::dict_pairs::{items, update};
use crate::dict_views::{copy, keys, values};
use crate::fault::Fault;
use crate::list_changes::{append, extend, insert, reverse};
use crate::list_takes::pop;
use crate::sequences::{count, index, remove};
use crate::text_lists::split;
use crate::text_makers::{join, replace, strip};
use crate::text_tests::{endswith, find, isdigit, startswith};
use crate::{dict_keys, text_pieces};
use rp_attributes::{counts_of, receiver_of};
use rp_base::{Meter, NativeId, Oid, OpEnd, Rock, Side, Text, Value};
use rp_store::{Object, Store};
use std::alloc::Global;

/// `a.m(..)` of a built-in method, on values whose access decisions have been made (Python
/// Standard Library, Built-in Types). An argument may be lent, and what is walked out of it is stored lent. What a
/// method makes belongs to the owner of the receiver. Steps that were taken are not given back. What a method of a text
/// makes belongs to the side.
///
/// # Errors
/// - `Raised` with `TypeError`, whose text is `call` where the receiver has no such method, whatever the arguments,
///   `arguments` where the method takes another number of them, or `argument` where one is of another kind; with
///   `ValueError` and the text `value`, where no element is equal to what is searched for; with `IndexError` and the
///   text `index`, where an index is outside; with `TypeError` and the text `key`, where an argument can be no key;
///   with `KeyError` and the key as it is shown inside a container, where `pop` finds neither the key nor a default; or
///   what walking or comparing an argument raises.
/// - `StopSteps` where no step is left, `StopCells` where the cells are over the limit.
/// - `Memory` where a growth was refused. Then cells may be used; the limit stays, and no used cell is given back.
pub fn call_method(
    alloc: Global,
    store: &mut Store,
    meter: &mut Meter,
    _names: &rp_base::Names,
    side: Side,
    receiver: &Value,
    id: NativeId,
    args: &[Value],
) -> Result<Value, OpEnd>
    requires receiver { IsSound store.old.heap receiver.now }
    requires args { AreSound store.old.heap args.now }
    ensures plain { Meets result (state_of store.new meter.new.left)
        (method side receiver.now id args.now (state_of store.old meter.old.left)) }
    ensures sound { IfOk result (λ v. IsSound store.new.heap v) }
    ensures shape { KeepsShape store.old.heap store.new.heap }
    ensures classes { AddsNoClass store.old.heap store.new.heap }
    ensures fewer { meter.new.left ≤ meter.old.left }
    ensures counters { KeepsCounters store.old store.new }
{
    match counts_of(receiver_of(store, receiver), id) {
        Some(counts) => {
            if !counts.take(args.len()) {
                return Err(Fault::Arguments.end(alloc));
            }
            method_of(alloc, store, meter, side, receiver, id, args)
        }
        None => Err(Fault::Call.end(alloc)),
    }
}

/// The method, whatever the number of its arguments.
#[inline(always)]
fn method_of(
    alloc: Global,
    store: &mut Store,
    meter: &mut Meter,
    side: Side,
    receiver: &Value,
    id: NativeId,
    args: &[Value],
) -> Result<Value, OpEnd>
    requires receiver { IsSound store.old.heap receiver.now }
    requires args { AreSound store.old.heap args.now }
    ensures plain { Meets result (state_of store.new meter.new.left)
        (method_of side receiver.now id args.now (state_of store.old meter.old.left)) }
    ensures sound { IfOk result (λ v. IsSound store.new.heap v) }
    ensures shape { KeepsShape store.old.heap store.new.heap }
    ensures classes { AddsNoClass store.old.heap store.new.heap }
    ensures fewer { meter.new.left ≤ meter.old.left }
    ensures counters { KeepsCounters store.old store.new }
{
    match receiver {
        Value::Rock(Rock::Text(text)) => { text_method(alloc, store, meter, side, text, id, args) }
        Value::Rock(_) => Err(Fault::Call.end(alloc)),
        Value::Ref(at) => object_method(alloc, store, meter, *at, id, args),
        Value::Prox(at) => object_method(alloc, store, meter, *at, id, args),
    }
}

#[inline(always)]
fn object_method(
    alloc: Global,
    store: &mut Store,
    meter: &mut Meter,
    at: Oid,
    id: NativeId,
    args: &[Value],
) -> Result<Value, OpEnd>
    requires held { IsHeld store.old.heap at }
    requires args { AreSound store.old.heap args.now }
    ensures plain { Meets result (state_of store.new meter.new.left)
        (object_method at id args.now (state_of store.old meter.old.left)) }
    ensures sound { IfOk result (λ v. IsSound store.new.heap v) }
    ensures shape { KeepsShape store.old.heap store.new.heap }
    ensures classes { AddsNoClass store.old.heap store.new.heap }
    ensures fewer { meter.new.left ≤ meter.old.left }
    ensures counters { KeepsCounters store.old store.new }
{
    match store.object(at) {
        Object::List(_) => list_method(alloc, store, meter, at, id, args),
        Object::Tuple(_) => tuple_method(alloc, store, meter, at, id, args),
        Object::Dict(_) => dict_method(alloc, store, at, id, args),
        _ => Err(Fault::Call.end(alloc)),
    }
}

#[inline(always)]
fn list_method(
    alloc: Global,
    store: &mut Store,
    meter: &mut Meter,
    at: Oid,
    id: NativeId,
    args: &[Value],
) -> Result<Value, OpEnd>
    requires held { IsHeld store.old.heap at }
    requires list { Names store.old.heap IsList at }
    requires args { AreSound store.old.heap args.now }
    ensures plain { Meets result (state_of store.new meter.new.left)
        (list_method at id args.now (state_of store.old meter.old.left)) }
    ensures sound { IfOk result (λ v. IsSound store.new.heap v) }
    ensures shape { KeepsShape store.old.heap store.new.heap }
    ensures classes { AddsNoClass store.old.heap store.new.heap }
    ensures fewer { meter.new.left ≤ meter.old.left }
    ensures counters { KeepsCounters store.old store.new }
{
    match id {
        NativeId::Append => append(alloc, store, at, args),
        NativeId::Extend => extend(alloc, store, meter, at, args),
        NativeId::Insert => insert(alloc, store, at, args),
        NativeId::Pop => pop(alloc, store, at, args),
        NativeId::Remove => remove(alloc, store, meter, at, args),
        NativeId::Index => index(alloc, store, meter, at, args),
        NativeId::Count => count(alloc, store, meter, at, args),
        NativeId::Reverse => reverse(alloc, store, at, args),
        _ => Err(Fault::Call.end(alloc)),
    }
}

fn tuple_method(
    alloc: Global,
    store: &Store,
    meter: &mut Meter,
    at: Oid,
    id: NativeId,
    args: &[Value],
) -> Result<Value, OpEnd>
    requires { IsHeld store.now.heap at }
    ensures plain { Meets result (state_of store.now meter.new.left)
        (tuple_method at id args.now (state_of store.now meter.old.left)) }
    ensures sound { IfOk result (λ v. IsSound store.now.heap v) }
    ensures fewer { meter.new.left ≤ meter.old.left }
{
    match id {
        NativeId::Index => index(alloc, store, meter, at, args),
        NativeId::Count => count(alloc, store, meter, at, args),
        _ => Err(Fault::Call.end(alloc)),
    }
}

#[inline(always)]
fn dict_method(
    alloc: Global,
    store: &mut Store,
    at: Oid,
    id: NativeId,
    args: &[Value],
) -> Result<Value, OpEnd>
    requires held { IsHeld store.old.heap at }
    requires dict { Names store.old.heap IsDict at }
    requires args { AreSound store.old.heap args.now }
    ensures plain { (steps : ℕ) → Meets result (state_of store.new steps)
        (dict_method at id args.now (state_of store.old steps)) }
    ensures sound { IfOk result (λ v. IsSound store.new.heap v) }
    ensures shape { KeepsShape store.old.heap store.new.heap }
    ensures classes { AddsNoClass store.old.heap store.new.heap }
    ensures counters { KeepsCounters store.old store.new }
{
    match id {
        NativeId::Get => get(alloc, store, at, args),
        NativeId::Keys => keys(alloc, store, at, args),
        NativeId::Values => values(alloc, store, at, args),
        NativeId::Items => items(alloc, store, at, args),
        NativeId::Pop => dict_keys::pop(alloc, store, at, args),
        NativeId::SetDefault => setdefault(alloc, store, at, args),
        NativeId::Update => update(alloc, store, at, args),
        NativeId::Copy => copy(alloc, store, at, args),
        _ => Err(Fault::Call.end(alloc)),
    }
}

fn text_method(
    alloc: Global,
    store: &mut Store,
    meter: &mut Meter,
    side: Side,
    text: &Text,
    id: NativeId,
    args: &[Value],
) -> Result<Value, OpEnd>
    requires args { AreSound store.old.heap args.now }
    ensures plain { Meets result (state_of store.new meter.new.left)
        (text_method side text.now id args.now (state_of store.old meter.old.left)) }
    ensures sound { IfOk result (λ v. IsSound store.new.heap v) }
    ensures shape { KeepsShape store.old.heap store.new.heap }
    ensures classes { AddsNoClass store.old.heap store.new.heap }
    ensures fewer { meter.new.left ≤ meter.old.left }
    ensures counters { KeepsCounters store.old store.new }
{
    match id {
        NativeId::Join => join(alloc, store, meter, text, args),
        NativeId::Split => split(alloc, store, side, text, args),
        NativeId::Strip => strip(alloc, store, text, args),
        NativeId::StartsWith => startswith(alloc, text, args),
        NativeId::EndsWith => endswith(alloc, text, args),
        NativeId::Find => find(alloc, text, args),
        NativeId::Replace => replace(alloc, store, text, args),
        NativeId::Count => text_pieces::count(alloc, text, args),
        NativeId::IsDigit => isdigit(alloc, text, args),
        _ => Err(Fault::Call.end(alloc)),
    }
}
