//! How a module ended.

ghost use Rattle.std.specs.Prelude.{◌≡◌, IfErr, IfOk, OnOk, is_ok, true};
ghost use Rattle.rp_access.specs.Comes.{Comes};
ghost use Rattle.rp_meaning.specs.State.{State, Outcome, Flow};
ghost use Rattle.rp_session.specs.Loads.{Breaks, EndsWell};
ghost use Rattle.rp_step.specs.Left.{flows};
ghost use Rattle.rp_world.specs.Worlds.{Refuses};

use rp_base::OpEnd;
use rp_engine::Halt;
use rp_step::Left;
use rp_world::NoWorld;

/// Why there is no world, where the statements of a module did not end well.
///
/// # Errors
/// `Raised`, `StopSteps` and `StopCells`, as the statements; `TooLong` and `Memory` where their machine did not go on.
pub(crate) fn ended(end: Result<Result<Left, OpEnd>, Halt>) -> Result<(), NoWorld>
    ensures ran { OnOk result (is_ok end ≡ true) }
    ensures well { OnOk result ((s : State) (o : Outcome Flow) → IfOk end (λ e. Comes (flows e) s o) → EndsWell s o) }
    ensures refused { IfErr result (λ cause. (s : State) (o : Outcome Flow) → IfOk end (λ e. Comes (flows e) s o)
        → Refuses cause (Breaks o)) }
{
    match end {
        Ok(Ok(_)) => Ok(()),
        Ok(Err(OpEnd::Raised(raised))) => Err(NoWorld::Raised(raised)),
        Ok(Err(OpEnd::StopSteps)) => Err(NoWorld::StopSteps),
        Ok(Err(OpEnd::StopCells)) => Err(NoWorld::StopCells),
        Ok(Err(OpEnd::Memory)) => Err(NoWorld::Memory),
        Err(Halt::TooLong) => Err(NoWorld::TooLong),
        Err(Halt::Memory) => Err(NoWorld::Memory),
    }
}
