//! Parts of a try statement that take up that a statement was cut off. A stop passes them.
#![tactic(auto, using(rp_store::proofs::CallerLemmas::goes_on))]

ghost use Rattle.std.specs.Prelude.{◌+◌, ◌≡◌, ◌≤◌, IfSome, None, OnOk, false};
ghost use Rattle.rp_access.specs.Moment.{state_of};
ghost use Rattle.rp_frame.specs.Top.{below, top};
ghost use Rattle.rp_meaning.specs.Exceptions as exception;
ghost use Rattle.rp_meaning.specs.Frame.{Run};
ghost use Rattle.rp_ops.specs.Outcome as outcome;
ghost use Rattle.rp_proxy.specs.declared.world.World.{World as TheWorld};
ghost use Rattle.rp_store.specs.Shape.{KeepsShape};
ghost use Rattle.rp_engine.specs.Does as does;
ghost use Rattle.rp_engine.specs.Ends.{end_of};
ghost use Rattle.rp_engine.specs.Handling as steps;
ghost use Rattle.rp_engine.specs.Law.{Executes, Moves, frame_in, rest_of};
ghost use Rattle.rp_engine.specs.Loads as loads;
ghost use Rattle.rp_engine.specs.Ready.{IsReady};
ghost use Rattle.rp_engine.specs.Rest.{after_flow, did, rest};

use crate::unwinding::{go_less, go_without};
use rp_base::{Name, OpEnd, Raised};
use rp_engine::{Halt, Machine, thrown};
use rp_frame::{Control, FlowTask, Leaving};
use rp_proxy::World;
use rp_statements::{behind_handler, finish, handle};
use rp_tree::{Except, Stmt};

/// What waits for the end of a statement takes up that it was cut off: it drops the value that it waited with.
#[inline(always)]
pub(crate) fn flow_cut<'u>(
    machine: &mut Machine<'u>,
    world: &mut World,
    task: FlowTask<'u>,
) -> Result<(), Halt>
    requires ready { IsReady machine.old.units.now machine.old.frame machine.old.values world.old }
    ensures law { OnOk result ((base : Run) → rest_of base machine.new (state_of world.new) ≡ rest machine.old.tasks
        (after_flow task.entry (frame_in base machine.old) machine.old.values
        (outcome.ends (end_of machine.old.end) (state_of world.old)))) }
    ensures ready { IsReady machine.new.units.now machine.new.frame machine.new.values world.new }
    ensures shape { KeepsShape world.old.store.heap world.new.store.heap }
    ensures fewer { world.new.running.meter.left ≤ world.old.running.meter.left }
    ensures less { OnOk result (loads.Lowers (loads.flow_task task.entry) machine.old world.old machine.new world.new) }
{
    match task {
        FlowTask::While(_, _, _) => machine.go(Control::CutOff),
        FlowTask::Store(_) => go_without(machine, Control::CutOff),
        FlowTask::Block(_) => machine.go(Control::CutOff),
        FlowTask::Delete(_) => machine.go(Control::CutOff),
        FlowTask::For(_, _, _) => go_without(machine, Control::CutOff),
        FlowTask::StoreEach(targets) => go_less(machine, targets.len(), Control::CutOff),
        FlowTask::Class(_, _, _, count) => go_less(machine, count as usize, Control::CutOff),
        FlowTask::Clause(_, _, _) => machine.go(Control::CutOff),
        FlowTask::Try(handlers, _) => catch(machine, world, handlers),
        FlowTask::Handled(name) => cut_handler(machine, world, name),
        FlowTask::Finally(last) => cut_finally(machine, last),
        FlowTask::Leave(_) => go_without(machine, Control::CutOff),
    }
}

/// Handlers take up an exception.
#[inline(always)]
fn catch<'u>(
    machine: &mut Machine<'u>,
    world: &mut World,
    handlers: &'u [Except],
) -> Result<(), Halt>
    requires ready { IsReady machine.old.units.now machine.old.frame machine.old.values world.old }
    ensures law { OnOk result (Executes (steps.caught (does.handlers handlers.now) (end_of machine.old.end))
        machine.old world.old machine.new world.new) }
    ensures ready { IsReady machine.new.units.now machine.new.frame machine.new.values world.new }
    ensures shape { KeepsShape world.old.store.heap world.new.store.heap }
    ensures fewer { world.new.running.meter.left ≤ world.old.running.meter.left }
    ensures less { OnOk result (loads.Lowers (4 + loads.excepts handlers.now)
        machine.old world.old machine.new world.new) }
{
    match take_raised(machine) {
        Some(raised) => handle(machine, world, handlers, raised),
        None => machine.go(Control::CutOff),
    }
}

/// The block of `finally` is done where an exception left the part before it.
#[inline(always)]
fn cut_finally<'u>(machine: &mut Machine<'u>, last: &'u [Stmt]) -> Result<(), Halt>
    ensures law { OnOk result (Moves (steps.finished (does.block last.now) (end_of machine.old.end))
        machine.old machine.new) }
    ensures ready { (w : TheWorld) → IsReady machine.old.units.now machine.old.frame machine.old.values w
        → IsReady machine.new.units.now machine.new.frame machine.new.values w }
    ensures less { OnOk result (loads.IsUnder 4 machine.old machine.new) }
{
    match take_raised(machine) {
        Some(raised) => finish(machine, thrown(raised), Leaving::Raised, last),
        None => machine.go(Control::CutOff),
    }
}

/// An exception leaves the block of a handler.
#[inline(always)]
fn cut_handler<'u>(
    machine: &mut Machine<'u>,
    world: &mut World,
    name: Option<Name>,
) -> Result<(), Halt>
    requires ready { IsReady machine.old.units.now machine.old.frame machine.old.values world.old }
    ensures law { OnOk result ((base : Run) → rest_of base machine.new (state_of world.new) ≡ rest machine.old.tasks
        (did (steps.handling (steps.thrown_of (top machine.old.values)) (frame_in base machine.old))
        (below machine.old.values) (exception.after (outcome.ends (end_of machine.old.end) (state_of world.old))
        (steps.without_as name (frame_in base machine.old))))) }
    ensures ready { IsReady machine.new.units.now machine.new.frame machine.new.values world.new }
    ensures shape { KeepsShape world.old.store.heap world.new.store.heap }
    ensures fewer { world.new.running.meter.left ≤ world.old.running.meter.left }
    ensures less { OnOk result (loads.Lowers 0 machine.old world.old machine.new world.new) }
{
    if is_raised(machine) {
        return behind_handler(machine, world, name, Control::CutOff);
    }
    behind_handler(machine, world, None, Control::CutOff)
}

/// Takes the exception by which a statement was cut off; None where it was a stop, which is kept.
fn take_raised<'u>(machine: &mut Machine<'u>) -> Option<Raised>
    ensures raised { IfSome result (λ r. end_of machine.old.end ≡ outcome.raised r) }
    ensures stop { result ≡ None → steps.is_exception (end_of machine.old.end) ≡ false }
    ensures same { machine.new ≡ record machine.old { end = machine.new.end } }
    ensures kept { result ≡ None → machine.new.end ≡ machine.old.end }
{
    match machine.end.take() {
        Some(OpEnd::Raised(raised)) => Some(raised),
        Some(OpEnd::StopSteps) => {
            machine.end = Some(OpEnd::StopSteps);
            None
        }
        Some(OpEnd::StopCells) => {
            machine.end = Some(OpEnd::StopCells);
            None
        }
        Some(OpEnd::Memory) => {
            machine.end = Some(OpEnd::Memory);
            None
        }
        None => None,
    }
}

/// Whether a statement was cut off by an exception.
fn is_raised<'u>(machine: &Machine<'u>) -> bool
    ensures { result ≡ steps.is_exception (end_of machine.now.end) }
{
    match &machine.end {
        Some(OpEnd::Raised(_)) => true,
        Some(OpEnd::StopSteps) => false,
        Some(OpEnd::StopCells) => false,
        Some(OpEnd::Memory) => false,
        None => false,
    }
}
