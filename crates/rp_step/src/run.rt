//! Steps of the machine.
#![tactic(auto, using(rp_store::proofs::CallerLemmas::goes_on))]

ghost use Rattle.std.specs.Prelude.{◌≡◌, ◌≢◌, ◌≤◌, [], Ok, OnOk, true};
ghost use Rattle.rp_proxy.specs.declared.world.World.{World as TheWorld};
ghost use Rattle.rp_store.specs.Shape.{KeepsShape};
ghost use Rattle.rp_engine.specs.Does as does;
ghost use Rattle.rp_engine.specs.Law.{Executes, Leaves};
ghost use Rattle.rp_engine.specs.Loads as loads;
ghost use Rattle.rp_engine.specs.Ready.{IsReady};
ghost use Rattle.rp_step.specs.Left.{at_end, is_asking};

use crate::expressions::expression;
use crate::statements::statement;
use crate::unwinding::take_up;
use rp_engine::{Halt, Machine};
use rp_frame::{Control, FlowTask, Task};
use rp_proxy::World;
use rp_tree::Stmt;

/// What a step of the machine has done.
#[derive(Clone, Copy, Debug, PartialEq, Eq)]
pub(crate) enum Stepped {
    More,
    /// No task waits for the end at which the machine stands.
    Ended,
    /// A call is to be made, or the turns of a comprehension; nothing was done.
    Call,
}

/// Goes on with the statements of a block that are left. Behind the last of them nothing has to wait.
#[inline(always)]
pub(crate) fn block<'u>(machine: &mut Machine<'u>, block: &'u [Stmt]) -> Result<(), Halt>
    ensures law { OnOk result ((w : TheWorld) → Executes (does.block block.now) machine.old w machine.new w) }
    ensures ready { (w : TheWorld) → IsReady machine.old.units.now machine.old.frame machine.old.values w
        → IsReady machine.new.units.now machine.new.frame machine.new.values w }
    ensures less { OnOk result (loads.IsUnder 2 machine.old machine.new) }
{
    match block {
        [] => machine.go(Control::Next),
        [x] => machine.go(Control::Statement(x)),
        [x, rest @ ..] => machine.wait(Task::Flow(FlowTask::Block(rest)), Control::Statement(x)),
    }
}

/// A step: begins a part, or goes on from the end of one. What it leaves to be done is what was to be done. Where it
/// goes on, a step of the session was taken, or less is left that takes none.
///
/// # Errors
/// `Memory` where a growth was refused, and where the code has more parts of a form than are counted.
#[inline(always)]
pub(crate) fn step<'u>(machine: &mut Machine<'u>, world: &mut World) -> Result<Stepped, Halt>
    requires ready { IsReady machine.old.units.now machine.old.frame machine.old.values world.old }
    ensures law { OnOk result (Leaves machine.old world.old machine.new world.new) }
    ensures ready { IsReady machine.new.units.now machine.new.frame machine.new.values world.new }
    ensures shape { KeepsShape world.old.store.heap world.new.store.heap }
    ensures ended { result ≡ Ok Stepped.Ended → machine.new.tasks ≡ [] }
    ensures stands { result ≡ Ok Stepped.Ended → at_end machine.new.control ≡ true }
    ensures fewer { world.new.running.meter.left ≤ world.old.running.meter.left }
    ensures less { result ≡ Ok Stepped.More → loads.IsLess machine.old world.old machine.new world.new }
    ensures load { result ≡ Ok Stepped.Ended → loads.load machine.new ≡ loads.load machine.old }
    ensures same { result ≡ Ok Stepped.Call → machine.new ≡ machine.old }
    ensures still { result ≡ Ok Stepped.Call → world.new ≡ world.old }
    ensures asks { result ≡ Ok Stepped.Call → is_asking machine.new.control ≡ true }
{
    match machine.control {
        Control::Expression(x) => {
            expression(machine, world, x)?;
            Ok(Stepped::More)
        }
        Control::Statement(x) => {
            statement(machine, world, x)?;
            Ok(Stepped::More)
        }
        Control::Block(block) => {
            crate::run::block(machine, block)?;
            Ok(Stepped::More)
        }
        Control::Call(_, _) => Ok(Stepped::Call),
        Control::Special(_, _) => Ok(Stepped::Call),
        Control::Comprehension(_, _, _, _, _) => Ok(Stepped::Call),
        _ => end_part(machine, world),
    }
}

/// Goes on from the end of a part.
#[inline(always)]
fn end_part<'u>(machine: &mut Machine<'u>, world: &mut World) -> Result<Stepped, Halt>
    requires ready { IsReady machine.old.units.now machine.old.frame machine.old.values world.old }
    requires stands { at_end machine.old.control ≡ true }
    ensures law { OnOk result (Leaves machine.old world.old machine.new world.new) }
    ensures ready { IsReady machine.new.units.now machine.new.frame machine.new.values world.new }
    ensures shape { KeepsShape world.old.store.heap world.new.store.heap }
    ensures ended { result ≡ Ok Stepped.Ended → machine.new.tasks ≡ [] }
    ensures stands { result ≡ Ok Stepped.Ended → at_end machine.new.control ≡ true }
    ensures fewer { world.new.running.meter.left ≤ world.old.running.meter.left }
    ensures less { result ≡ Ok Stepped.More → loads.IsLess machine.old world.old machine.new world.new }
    ensures load { result ≡ Ok Stepped.Ended → loads.load machine.new ≡ loads.load machine.old }
    ensures call { result ≢ Ok Stepped.Call }
{
    match machine.tasks.pop() {
        Some(task) => {
            take_up(machine, world, task)?;
            Ok(Stepped::More)
        }
        None => Ok(Stepped::Ended),
    }
}
