//! Decisions on the values of operands.

ghost use Rattle.std.specs.Prelude.{◌≤◌};
ghost use Rattle.rp_proxy.specs.Faithful.{IsFaithful};
ghost use Rattle.rp_store.specs.Kept.{IsSound};
ghost use Rattle.rp_store.specs.Shape.{KeepsShape};
ghost use Rattle.rp_access.specs.Comes.{Comes};
ghost use Rattle.rp_access.specs.Moment.{state_of};
ghost use Rattle.rp_access.specs.Parts.{asking, truth_asked};

use rp_base::word::BOOL;
use rp_base::{Name, Op, OpEnd, Value};
use rp_proxy::{World, cross};
use std::alloc::Global;

/// Decides whether a name may be read on a value.
///
/// # Errors
/// As `cross`.
#[inline(always)]
pub(crate) fn ask(alloc: Global, world: &mut World, value: &Value, name: Name) -> Result<(), OpEnd>
    requires faithful { IsFaithful world.old }
    requires sound { IsSound world.old.store.heap value.now }
    ensures law { Comes result (state_of world.new) (asking name value.now (state_of world.old)) }
    ensures faithful { IsFaithful world.new }
    ensures shape { KeepsShape world.old.store.heap world.new.store.heap }
    ensures fewer { world.new.running.meter.left ≤ world.old.running.meter.left }
{
    cross(alloc, world, value, Op::Get(name))
}

/// Whether a value counts as true (Python Standard Library, Truth Value Testing; zope.security, proxies). It is decided
/// first whether `__bool__` may be read.
///
/// # Errors
/// As `rp_proxy::cross`, where the decision refuses.
#[inline(always)]
#[tactic(auto, using(rp_store::proofs::CallerLemmas::goes_on))]
pub fn truth(alloc: Global, world: &mut World, value: &Value) -> Result<bool, OpEnd>
    requires faithful { IsFaithful world.old }
    requires sound { IsSound world.old.store.heap value.now }
    ensures law { Comes result (state_of world.new) (truth_asked value.now (state_of world.old)) }
    ensures faithful { IsFaithful world.new }
    ensures shape { KeepsShape world.old.store.heap world.new.store.heap }
    ensures fewer { world.new.running.meter.left ≤ world.old.running.meter.left }
{
    ask(alloc, world, value, BOOL)?;
    Ok(rp_ops::truth(&world.store, value))
}
