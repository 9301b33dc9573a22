//! What is spread over the arguments of a call.
#![tactic(auto, using(rp_store::proofs::CallerLemmas::goes_on))]

ghost use Rattle.std.specs.Prelude.{◌≤◌, ◌≡◌, All, IfOk, IfSome, MatchOption, None, Some, map, option_map};
ghost use Rattle.std.specs.Option.{option_and_then};
ghost use Rattle.rp_meaning.specs.Calls.{all_named, content_named, entries_named};
ghost use Rattle.rp_meaning.specs.Frame.{through};
ghost use Rattle.rp_meaning.specs.State.{plainly};
ghost use Rattle.rp_ops.specs.Walk.{elements};
ghost use Rattle.rp_proxy.specs.Faithful.{IsFaithful};
ghost use Rattle.rp_proxy.specs.Taken.{taken};
ghost use Rattle.rp_store.specs.Heap.{IsHeld, content_at};
ghost use Rattle.rp_store.specs.Kept.{AreFit, AreSound, IsEntry, IsFit, IsSound};
ghost use Rattle.rp_store.specs.Shape.{KeepsShape};
ghost use Rattle.rp_access.specs.Comes.{Comes};
ghost use Rattle.rp_access.specs.Moment.{state_of};
ghost use Rattle.rp_access.specs.Spreading.{got_through, named_of, spread, spread_named, word_of};
ghost use Rattle.rp_access.specs.Unpacking.{items_of};

use crate::access::through;
use crate::deciding::ask;
use crate::operating::taken;
use rp_base::word::{ITEMS, ITER};
use rp_base::{Kind, Memory, Oid, OpEnd, Rock, Side, Text, Value};
use rp_dict::Dict;
use rp_ops::{elements, raised};
use rp_proxy::World;
use rp_store::{Key, Object};
use std::alloc::Global;

/// The elements of a value that is spread over arguments, as code of a side takes them (Python Language Reference,
/// Calls; zope.security, proxies). It is decided first whether `__iter__` may be read.
///
/// # Errors
/// - As `rp_proxy::cross`, where the decision refuses.
/// - As `rp_ops::elements`.
/// - `Memory` where a growth was refused.
#[inline(never)]
pub fn spread(
    alloc: Global,
    world: &mut World,
    side: Side,
    value: &Value,
) -> Result<Vec<Value>, OpEnd>
    requires faithful { IsFaithful world.old }
    requires sound { IsSound world.old.store.heap value.now }
    ensures law { Comes (items_of result) (state_of world.new) (spread side value.now (state_of world.old)) }
    ensures faithful { IsFaithful world.new }
    ensures shape { KeepsShape world.old.store.heap world.new.store.heap }
    ensures fit { IfOk result (λ values. AreFit world.new.store.heap side values.items) }
    ensures fewer { world.new.running.meter.left ≤ world.old.running.meter.left }
{
    ask(alloc, world, value, ITER)?;
    let values = elements_of(alloc, world, value)?;
    Ok(all_taken(alloc, world, side, values.as_slice())?)
}

/// What walking a value gives.
fn elements_of(alloc: Global, world: &mut World, value: &Value) -> Result<Vec<Value>, OpEnd>
    requires faithful { IsFaithful world.old }
    requires sound { IsSound world.old.store.heap value.now }
    ensures law { Comes (items_of result) (state_of world.new)
        (plainly (elements value.now) (state_of world.old)) }
    ensures faithful { IsFaithful world.new }
    ensures shape { KeepsShape world.old.store.heap world.new.store.heap }
    ensures sound { IfOk result (λ values. AreSound world.new.store.heap values.items) }
    ensures fewer { world.new.running.meter.left ≤ world.old.running.meter.left }
{
    elements(alloc, &mut world.store, &mut world.running.meter, value)
}

/// Copies of values, as code of a side takes them.
fn all_taken(
    alloc: Global,
    world: &World,
    side: Side,
    values: &[Value],
) -> Result<Vec<Value>, Memory>
    requires { AreSound world.now.store.heap values.now }
    ensures values { IfOk result (λ all. all.items ≡ map (taken world.now.store.heap side) values.now) }
    ensures fit { IfOk result (λ all. AreFit world.now.store.heap side all.items) }
{
    let mut all = Vec::with_capacity(alloc, values.len())?;
    for value in values {
        all.push(taken(world, value.copy()?, side))?;
    }
    Ok(all)
}

/// The entries of a dict that is spread over arguments with names, as code of a side gets them: each key, which is a
/// text, with its value (Python Language Reference, Calls; zope.security, proxies). It is decided first whether `items`
/// may be read.
///
/// # Errors
/// - As `rp_proxy::cross`, where the decision refuses.
/// - `Raised` with `TypeError` and the text `argument`, where it is no dict, or a key is no text.
/// - `Memory` where a growth was refused.
#[inline(never)]
pub fn spread_named(
    alloc: Global,
    world: &mut World,
    side: Side,
    value: &Value,
) -> Result<Vec<(Text, Value)>, OpEnd>
    requires faithful { IsFaithful world.old }
    requires sound { IsSound world.old.store.heap value.now }
    ensures law { Comes (named_of result) (state_of world.new) (spread_named side value.now (state_of world.old)) }
    ensures faithful { IsFaithful world.new }
    ensures shape { KeepsShape world.old.store.heap world.new.store.heap }
    ensures fit { IfOk result (λ named. All (λ n. IsFit world.new.store.heap side n.1) named.items) }
    ensures fewer { world.new.running.meter.left ≤ world.old.running.meter.left }
{
    ask(alloc, world, value, ITEMS)?;
    match entries_named(alloc, world, side, value)? {
        Some(named) => Ok(named),
        None => Err(raised(alloc, Kind::TypeError, "argument")),
    }
}

/// The entries of a value; None where it is no dict, or a key is no text.
fn entries_named(
    alloc: Global,
    world: &World,
    side: Side,
    value: &Value,
) -> Result<Option<Vec<(Text, Value)>>, Memory>
    requires { IsSound world.now.store.heap value.now }
    ensures named { IfOk result (λ o. MatchOption o (entries_named world.now.store.heap value.now ≡ None)
        (λ all. option_map (map (got_through world.now.store.heap side value.now))
        (entries_named world.now.store.heap value.now) ≡ Some all.items)) }
    ensures fit { IfOk result (λ o. IfSome o (λ all. All (λ n. IsFit world.now.store.heap side n.1) all.items)) }
{
    match value {
        Value::Rock(_) => Ok(None),
        Value::Ref(at) => object_named(alloc, world, side, value, *at),
        Value::Prox(at) => object_named(alloc, world, side, value, *at),
    }
}

/// The entries of the object at a place, which is read through a value.
fn object_named(
    alloc: Global,
    world: &World,
    side: Side,
    from: &Value,
    at: Oid,
) -> Result<Option<Vec<(Text, Value)>>, Memory>
    requires { IsHeld world.now.store.heap at }
    ensures named { IfOk result (λ o. MatchOption o
        (option_and_then content_named (content_at world.now.store.heap at) ≡ None)
        (λ all. option_map (map (got_through world.now.store.heap side from.now))
        (option_and_then content_named (content_at world.now.store.heap at)) ≡ Some all.items)) }
    ensures fit { IfOk result (λ o. IfSome o (λ all. All (λ n. IsFit world.now.store.heap side n.1) all.items)) }
{
    match world.store.object(at) {
        Object::Dict(entries) => all_named(alloc, world, side, from, entries),
        Object::List(_)
        | Object::Tuple(_)
        | Object::Instance { .. }
        | Object::Class { .. }
        | Object::Function { .. }
        | Object::Method { .. }
        | Object::Scope { .. } => Ok(None),
    }
}

/// The same of the entries of a dict.
fn all_named(
    alloc: Global,
    world: &World,
    side: Side,
    from: &Value,
    entries: &Dict<Key, (Rock, Value)>,
) -> Result<Option<Vec<(Text, Value)>>, Memory>
    requires { All (IsEntry world.now.store.heap) entries.now }
    ensures named { IfOk result (λ o. MatchOption o (all_named entries.now ≡ None)
        (λ all. option_map (map (got_through world.now.store.heap side from.now)) (all_named entries.now)
        ≡ Some all.items)) }
    ensures fit { IfOk result (λ o. IfSome o (λ all. All (λ n. IsFit world.now.store.heap side n.1) all.items)) }
{
    let mut all = Vec::new(alloc);
    let mut rest = entries.walk();
    while let Some((_, (rock, value))) = rest.next() {
        let Some(word) = word_of(rock)? else {
            return Ok(None);
        };
        all.push((word, taken_through(world, side, from, value)?))?;
    }
    Ok(Some(all))
}

/// The text that a key is.
fn word_of(rock: &Rock) -> Result<Option<Text>, Memory>
    ensures { IfOk result (λ o. o ≡ word_of rock.now) }
{
    match rock {
        Rock::Text(text) => Ok(Some(text.copy()?)),
        Rock::Nil
        | Rock::Truth(_)
        | Rock::Int(_)
        | Rock::Exc(_, _)
        | Rock::Kind(_)
        | Rock::Native(_) => Ok(None),
    }
}

/// A copy of a value, as code of a side gets it through another.
fn taken_through(world: &World, side: Side, from: &Value, value: &Value) -> Result<Value, Memory>
    requires { IsSound world.now.store.heap value.now }
    ensures value { IfOk result (λ v. v ≡ taken world.now.store.heap side (through from.now value.now)) }
    ensures fit { IfOk result (IsFit world.now.store.heap side) }
{
    Ok(taken(world, through(from, value.copy()?), side))
}
