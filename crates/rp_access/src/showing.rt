//! The text of a value behind its decision.
#![tactic(auto, using(rp_store::proofs::CallerLemmas::goes_on))]

ghost use Rattle.std.specs.Prelude.{◌≤◌};
ghost use Rattle.rp_meaning.specs.State.{plainly};
ghost use Rattle.rp_proxy.specs.Faithful.{IsFaithful};
ghost use Rattle.rp_show.specs.Show.{show};
ghost use Rattle.rp_store.specs.Kept.{IsSound};
ghost use Rattle.rp_store.specs.Shape.{KeepsShape};
ghost use Rattle.rp_access.specs.Comes.{Comes};
ghost use Rattle.rp_access.specs.Moment.{state_of};
ghost use Rattle.rp_access.specs.Parts.{shown};

use crate::deciding::ask;
use rp_base::word::STR;
use rp_base::{OpEnd, Text, Value};
use rp_proxy::World;
use std::alloc::Global;

/// The text of a value, as `str` gives it (Python Standard Library, Text Sequence Type; zope.security, proxies). It is
/// decided first whether `__str__` may be read.
///
/// # Errors
/// - As `rp_proxy::cross`, where the decision refuses.
/// - As `rp_show::show`, where no cell or step is left.
/// - `Memory` where a growth was refused.
pub fn text_of(alloc: Global, world: &mut World, value: &Value) -> Result<Text, OpEnd>
    requires faithful { IsFaithful world.old }
    requires sound { IsSound world.old.store.heap value.now }
    ensures law { Comes result (state_of world.new) (shown value.now (state_of world.old)) }
    ensures faithful { IsFaithful world.new }
    ensures shape { KeepsShape world.old.store.heap world.new.store.heap }
    ensures fewer { world.new.running.meter.left ≤ world.old.running.meter.left }
{
    ask(alloc, world, value, STR)?;
    show(alloc, world, value)
}

/// The plain text of a value.
#[inline(always)]
fn show(alloc: Global, world: &mut World, value: &Value) -> Result<Text, OpEnd>
    requires faithful { IsFaithful world.old }
    ensures law { Comes result (state_of world.new)
        (plainly (show world.old.names value.now) (state_of world.old)) }
    ensures faithful { IsFaithful world.new }
    ensures shape { KeepsShape world.old.store.heap world.new.store.heap }
    ensures fewer { world.new.running.meter.left ≤ world.old.running.meter.left }
{
    rp_show::show(
        alloc,
        &mut world.store,
        &mut world.running.meter,
        &world.names,
        value,
    )
}
