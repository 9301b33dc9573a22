//! Slices behind their decision.
#![tactic(auto, using(rp_store::proofs::CallerLemmas::goes_on))]

ghost use Rattle.std.specs.Prelude.{◌≤◌, IfOk};
ghost use Rattle.rp_items.specs.Slices.{slice};
ghost use Rattle.rp_meaning.specs.State.{plainly};
ghost use Rattle.rp_proxy.specs.Faithful.{IsFaithful};
ghost use Rattle.rp_store.specs.Kept.{IsFit, IsSound};
ghost use Rattle.rp_store.specs.Shape.{KeepsShape};
ghost use Rattle.rp_access.specs.Comes.{Comes};
ghost use Rattle.rp_access.specs.Moment.{state_of};
ghost use Rattle.rp_access.specs.Slices.{slice_asked};

use crate::access::through;
use crate::deciding::ask;
use crate::operating::taken;
use rp_base::word::GET_ITEM;
use rp_base::{OpEnd, Side, Value};
use rp_items::SliceParts;
use rp_proxy::World;
use std::alloc::Global;

/// `o[from:to:step]`, as code of a side does it (Python Language Reference, Slicings; zope.security, proxies). It is
/// decided first whether `__getitem__` may be read. What is read through a proxy is lent.
///
/// # Errors
/// - As `rp_proxy::cross`, where the decision refuses; then nothing is read.
/// - As `rp_items::slice`, where `o` has no slices or a part is none of a slice, and where no cell is left.
/// - `Memory` where a growth was refused.
#[inline(never)]
pub fn get_slice(
    alloc: Global,
    world: &mut World,
    side: Side,
    o: &Value,
    parts: SliceParts<'_>,
) -> Result<Value, OpEnd>
    requires faithful { IsFaithful world.old }
    requires sound { IsSound world.old.store.heap o.now }
    ensures law { Comes result (state_of world.new) (slice_asked side o.now parts.entry.from.now parts.entry.to.now
        parts.entry.step.now (state_of world.old)) }
    ensures faithful { IsFaithful world.new }
    ensures shape { KeepsShape world.old.store.heap world.new.store.heap }
    ensures fit { IfOk result (IsFit world.new.store.heap side) }
    ensures fewer { world.new.running.meter.left ≤ world.old.running.meter.left }
{
    ask(alloc, world, o, GET_ITEM)?;
    let value = slice(alloc, world, o, parts)?;
    Ok(taken(world, through(o, value), side))
}

/// The plain slice.
#[inline(always)]
fn slice(alloc: Global, world: &mut World, o: &Value, parts: SliceParts<'_>) -> Result<Value, OpEnd>
    requires faithful { IsFaithful world.old }
    requires sound { IsSound world.old.store.heap o.now }
    ensures law { Comes result (state_of world.new) (plainly (slice o.now parts.entry.from.now parts.entry.to.now
        parts.entry.step.now) (state_of world.old)) }
    ensures faithful { IsFaithful world.new }
    ensures shape { KeepsShape world.old.store.heap world.new.store.heap }
    ensures sound { IfOk result (IsSound world.new.store.heap) }
    ensures fewer { world.new.running.meter.left ≤ world.old.running.meter.left }
{
    rp_items::slice(alloc, &mut world.store, o, parts)
}
