//! The elements of values that are unpacked.
#![tactic(auto, using(rp_store::proofs::CallerLemmas::goes_on))]

ghost use Rattle.std.specs.Prelude.{◌≤◌, ◌≡◌, ◌++◌, ◌∷◌, [], ℕ, List, IfOk, OnOk, length};
ghost use Rattle.rp_base.specs.declared.value.Value.{Value as TheValue};
ghost use Rattle.rp_meaning.specs.Frame.{Frame};
ghost use Rattle.rp_meaning.specs.State.{State};
ghost use Rattle.rp_meaning.specs.Statements.{exactly, wrong_count};
ghost use Rattle.rp_proxy.specs.Faithful.{IsFaithful};
ghost use Rattle.rp_store.specs.Kept.{AreFit, IsFit, IsSound};
ghost use Rattle.rp_store.specs.Shape.{KeepsShape};
ghost use Rattle.rp_access.specs.Comes.{Comes, IsEnd};
ghost use Rattle.rp_access.specs.Moment.{decided_frame, state_of};
ghost use Rattle.rp_access.specs.Spots.{cursor_at};
ghost use Rattle.rp_access.specs.Unpacking.{TakesNone, TakesOne, items_of, unpacked};

use crate::walking::{next_element, walk};
use rp_base::{Kind, Memory, OpEnd, Side, Value};
use rp_frame::Spot;
use rp_ops::raised;
use rp_proxy::World;
use std::alloc::Global;

/// The elements of a value that is unpacked over so many targets, as code of a side takes them (Python Language
/// Reference, Assignment statements; zope.security, proxies). It is decided first whether `__iter__` may be read.
///
/// # Errors
/// - As `walk` and `next_element`.
/// - `Raised` with `ValueError` and the text `unpack`, where there are fewer elements or more.
/// - `Memory` where a growth was refused.
#[inline(never)]
pub fn unpack(
    alloc: Global,
    world: &mut World,
    side: Side,
    value: &Value,
    count: usize,
) -> Result<Vec<Value>, OpEnd>
    requires faithful { IsFaithful world.old }
    requires sound { IsSound world.old.store.heap value.now }
    ensures law { (frame : Frame) → frame.side ≡ side → Comes (items_of result) (state_of world.new)
        (unpacked count value.now (decided_frame frame) (state_of world.old)) }
    ensures count { IfOk result (λ elements. length elements.items ≡ count) }
    ensures faithful { IsFaithful world.new }
    ensures shape { KeepsShape world.old.store.heap world.new.store.heap }
    ensures fit { IfOk result (λ elements. AreFit world.new.store.heap side elements.items) }
    ensures fewer { world.new.running.meter.left ≤ world.old.running.meter.left }
{
    let spot = walk(alloc, world, value)?;
    all_elements(alloc, world, side, value, spot, count)
}

/// So many elements of a walk over a value, from a spot on, and no more.
fn all_elements(
    alloc: Global,
    world: &mut World,
    side: Side,
    value: &Value,
    spot: Spot,
    count: usize,
) -> Result<Vec<Value>, OpEnd>
    requires faithful { IsFaithful world.old }
    requires sound { IsSound world.old.store.heap value.now }
    ensures law { (frame : Frame) → frame.side ≡ side → Comes (items_of result) (state_of world.new)
        (exactly count (cursor_at value.now spot) (decided_frame frame) (state_of world.old)) }
    ensures count { IfOk result (λ elements. length elements.items ≡ count) }
    ensures faithful { IsFaithful world.new }
    ensures shape { KeepsShape world.old.store.heap world.new.store.heap }
    ensures fit { IfOk result (λ elements. AreFit world.new.store.heap side elements.items) }
    ensures fewer { world.new.running.meter.left ≤ world.old.running.meter.left }
{
    let mut elements = room(alloc, count)?;
    let mut spot = spot;
    for _ in 0..count {
        let (element, next) = one_element(alloc, world, side, value, spot)?;
        keep(&mut elements, element)?;
        spot = next;
    }
    no_element(alloc, world, side, value, spot)?;
    Ok(elements)
}

/// No elements, with room for so many.
fn room(alloc: Global, count: usize) -> Result<Vec<Value>, Memory>
    ensures { IfOk result (λ elements. elements.items ≡ []) }
{
    Ok(Vec::with_capacity(alloc, count)?)
}

/// One more element.
fn keep(elements: &mut Vec<Value>, element: Value) -> Result<(), Memory>
    ensures { OnOk result (elements.new.items ≡ elements.old.items ++ element ∷ []) }
{
    elements.push(element)?;
    Ok(())
}

/// The next element of a walk over a value, which has to have one.
#[inline(always)]
fn one_element(
    alloc: Global,
    world: &mut World,
    side: Side,
    value: &Value,
    spot: Spot,
) -> Result<(Value, Spot), OpEnd>
    requires faithful { IsFaithful world.old }
    requires sound { IsSound world.old.store.heap value.now }
    ensures law { (vs : List TheValue) (n : ℕ) (frame : Frame) → frame.side ≡ side
        → TakesOne vs n value.now spot frame (state_of world.old) result (state_of world.new) }
    ensures faithful { IsFaithful world.new }
    ensures shape { KeepsShape world.old.store.heap world.new.store.heap }
    ensures fit { IfOk result (λ found. IsFit world.new.store.heap side found.0) }
    ensures fewer { world.new.running.meter.left ≤ world.old.running.meter.left }
{
    match next_element(alloc, world, side, value, spot)? {
        Some(found) => Ok(found),
        None => Err(wrong_count(alloc)),
    }
}

/// A walk over a value has to have no more elements.
#[inline(always)]
fn no_element(
    alloc: Global,
    world: &mut World,
    side: Side,
    value: &Value,
    spot: Spot,
) -> Result<(), OpEnd>
    requires faithful { IsFaithful world.old }
    requires sound { IsSound world.old.store.heap value.now }
    ensures law { (vs : List TheValue) (frame : Frame) → frame.side ≡ side
        → TakesNone vs value.now spot frame (state_of world.old) result (state_of world.new) }
    ensures faithful { IsFaithful world.new }
    ensures shape { KeepsShape world.old.store.heap world.new.store.heap }
    ensures fewer { world.new.running.meter.left ≤ world.old.running.meter.left }
{
    let found = next_element(alloc, world, side, value, spot)?;
    if found.is_some() {
        return Err(wrong_count(alloc));
    }
    Ok(())
}

/// There are fewer elements than targets, or more.
fn wrong_count(alloc: Global) -> OpEnd
    ensures { (s : State) → IsEnd {A = List TheValue} result s (wrong_count s) }
{
    raised(alloc, Kind::ValueError, "unpack")
}
