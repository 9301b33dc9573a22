//! Steps.

ghost use Rattle.std.specs.Prelude.{◌≤◌, ◌<◌, ◌≡◌, OnOk};
ghost use Rattle.rp_proxy.specs.Faithful.{IsFaithful};
ghost use Rattle.rp_access.specs.Comes.{Comes};
ghost use Rattle.rp_access.specs.Moment.{state_of};
ghost use Rattle.rp_access.specs.Parts.{step_end};

use rp_base::OpEnd;
use rp_proxy::World;

/// Takes a step of the session that runs.
///
/// # Errors
/// `StopSteps` exactly where none is left.
#[inline(always)]
#[tactic(auto, using(crate::proofs::Worlds::step_comes, crate::proofs::Worlds::metered_faithful))]
pub fn take_step(world: &mut World) -> Result<(), OpEnd>
    ensures law { Comes result (state_of world.new) (step_end (state_of world.old)) }
    ensures faithful { IsFaithful world.old → IsFaithful world.new }
    ensures store { world.new.store ≡ world.old.store }
    ensures fewer { world.new.running.meter.left ≤ world.old.running.meter.left }
    ensures took { OnOk result (world.new.running.meter.left < world.old.running.meter.left) }
{
    rp_ops::step(&mut world.running.meter)
}
