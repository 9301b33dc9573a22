//! `return` (Python Language Reference, The return statement).
#![tactic(auto, using(rp_store::proofs::CallerLemmas::goes_on, rp_engine::proofs::AtHand::at_hand))]

ghost use Rattle.std.specs.Prelude.{◌+◌, ◌≡◌, ◌≤◌, OnOk, drop};
ghost use Rattle.rp_access.specs.Moment.{state_of};
ghost use Rattle.rp_frame.specs.Top.{below, top};
ghost use Rattle.rp_meaning.specs.Frame.{Run};
ghost use Rattle.rp_meaning.specs.State.{State, returned};
ghost use Rattle.rp_meaning.specs.Statements as stmt_forms;
ghost use Rattle.rp_ops.specs.Outcome.{gives};
ghost use Rattle.rp_proxy.specs.declared.world.World.{World as TheWorld};
ghost use Rattle.rp_store.specs.Kept.{IsFit};
ghost use Rattle.rp_store.specs.Shape.{KeepsShape};
ghost use Rattle.rp_engine.specs.Does as does;
ghost use Rattle.rp_engine.specs.Handling as steps;
ghost use Rattle.rp_engine.specs.Law.{Executes, frame_in, rest_of};
ghost use Rattle.rp_engine.specs.Loads as loads;
ghost use Rattle.rp_engine.specs.Ready.{IsReady};
ghost use Rattle.rp_engine.specs.Rest.{after, after_flow, did, rest};

use crate::class_blocks::class_part;
use crate::handling::{finish, handle_before, unbind_as};
use rp_base::{Name, Rock, Value};
use rp_engine::{Halt, Machine};
use rp_frame::{Control, FlowTask, Leaving, StmtTask, Task};
use rp_proxy::World;
use rp_tree::Expr;

/// `return`, with a value or without.
///
/// # Errors
/// `Memory` where a growth was refused.
#[inline(never)]
pub fn give_back<'u>(
    machine: &mut Machine<'u>,
    world: &mut World,
    value: &'u Option<Expr>,
) -> Result<(), Halt>
    requires ready { IsReady machine.old.units.now machine.old.frame machine.old.values world.old }
    ensures law { OnOk result (Executes (stmt_forms.give_back (does.maybe value.now))
        machine.old world.old machine.new world.new) }
    ensures ready { IsReady machine.new.units.now machine.new.frame machine.new.values world.new }
    ensures shape { KeepsShape world.old.store.heap world.new.store.heap }
    ensures fewer { world.new.running.meter.left ≤ world.old.running.meter.left }
{
    match value {
        None => returns(machine, Value::Rock(Rock::Nil)),
        Some(value) => give_value(machine, world, value),
    }
}

/// The same, with a value.
#[inline(always)]
fn give_value<'u>(machine: &mut Machine<'u>, world: &mut World, value: &'u Expr) -> Result<(), Halt>
    requires ready { IsReady machine.old.units.now machine.old.frame machine.old.values world.old }
    ensures law { OnOk result (Executes (stmt_forms.give_back (Some (does.expr value.now)))
        machine.old world.old machine.new world.new) }
    ensures ready { IsReady machine.new.units.now machine.new.frame machine.new.values world.new }
    ensures shape { KeepsShape world.old.store.heap world.new.store.heap }
    ensures fewer { world.new.running.meter.left ≤ world.old.running.meter.left }
{
    match machine.leaf(world, value) {
        Ok(Some(v)) => returns(machine, v),
        Ok(None) => machine.wait(Task::Stmt(StmtTask::Return), Control::Expression(value)),
        Err(end) => machine.cut_off(end),
    }
}

/// A block is left with a value.
///
/// # Errors
/// `Memory` where a growth was refused.
#[inline(always)]
pub fn returns<'u>(machine: &mut Machine<'u>, value: Value) -> Result<(), Halt>
    ensures law { OnOk result ((base : Run) (s : State) → rest_of base machine.new s
        ≡ rest machine.old.tasks (did (frame_in base machine.old) machine.old.values (gives (returned value) s))) }
    ensures ready { (w : TheWorld) → IsReady machine.old.units.now machine.old.frame machine.old.values w
        → IsFit w.store.heap machine.old.frame.side value
        → IsReady machine.new.units.now machine.new.frame machine.new.values w }
    ensures less { OnOk result (loads.load machine.new ≡ 2 + loads.tasks machine.old.tasks) }
{
    machine.values.push(value)?;
    machine.control = Control::Returned;
    Ok(())
}

/// The same, with so many of the values at hand dropped.
#[inline(always)]
fn returns_less<'u>(machine: &mut Machine<'u>, count: usize, value: Value) -> Result<(), Halt>
    ensures law { OnOk result ((base : Run) (s : State) → rest_of base machine.new s ≡ rest machine.old.tasks
        (did (frame_in base machine.old) (drop count machine.old.values) (gives (returned value) s))) }
    ensures ready { (w : TheWorld) → IsReady machine.old.units.now machine.old.frame machine.old.values w
        → IsFit w.store.heap machine.old.frame.side value
        → IsReady machine.new.units.now machine.new.frame machine.new.values w }
    ensures less { OnOk result (loads.IsUnder 2 machine.old machine.new) }
{
    machine.forget(count);
    returns(machine, value)
}

/// A task takes up `return`, whose value is the last one at hand.
///
/// # Errors
/// `Memory` where a growth was refused; where the task waits for a statement of a class block, as `class`.
#[inline(never)]
pub fn with_return<'u>(
    machine: &mut Machine<'u>,
    world: &mut World,
    task: Task<'u>,
) -> Result<(), Halt>
    requires ready { IsReady machine.old.units.now machine.old.frame machine.old.values world.old }
    ensures law { OnOk result ((base : Run) → rest_of base machine.new (state_of world.new) ≡ rest machine.old.tasks
        (after task.entry (did (frame_in base machine.old) (below machine.old.values)
        (gives (returned (top machine.old.values)) (state_of world.old))))) }
    ensures ready { IsReady machine.new.units.now machine.new.frame machine.new.values world.new }
    ensures shape { KeepsShape world.old.store.heap world.new.store.heap }
    ensures fewer { world.new.running.meter.left ≤ world.old.running.meter.left }
    ensures less { OnOk result (loads.Lowers (2 + loads.held task.entry) machine.old world.old machine.new world.new) }
{
    let value = machine.at_hand();
    match task {
        Task::Flow(task) => flow_return(machine, world, task, value),
        Task::Expr(_) => returns(machine, value),
        Task::Stmt(_) => returns(machine, value),
    }
}

/// What waits for the end of a statement takes up `return`: it drops the values that it waited with.
#[inline(always)]
fn flow_return<'u>(
    machine: &mut Machine<'u>,
    world: &mut World,
    task: FlowTask<'u>,
    value: Value,
) -> Result<(), Halt>
    requires ready { IsReady machine.old.units.now machine.old.frame machine.old.values world.old }
    requires value { IsFit world.old.store.heap machine.old.frame.side value }
    ensures law { OnOk result ((base : Run) → rest_of base machine.new (state_of world.new) ≡ rest machine.old.tasks
        (after_flow task.entry (frame_in base machine.old) machine.old.values
        (gives (returned value) (state_of world.old)))) }
    ensures ready { IsReady machine.new.units.now machine.new.frame machine.new.values world.new }
    ensures shape { KeepsShape world.old.store.heap world.new.store.heap }
    ensures fewer { world.new.running.meter.left ≤ world.old.running.meter.left }
    ensures less { OnOk result (loads.Lowers (2 + loads.flow_task task.entry)
        machine.old world.old machine.new world.new) }
{
    match task {
        FlowTask::While(_, _, _) => returns(machine, value),
        FlowTask::Store(_) => returns_less(machine, 1, value),
        FlowTask::Block(_) => returns(machine, value),
        FlowTask::Delete(_) => returns(machine, value),
        FlowTask::For(_, _, _) => returns_less(machine, 1, value),
        FlowTask::StoreEach(targets) => returns_less(machine, targets.len(), value),
        FlowTask::Class(name, body, done, count) => {
            class_part(machine, world, name, body, done, count)
        }
        FlowTask::Clause(_, _, _) => returns(machine, value),
        FlowTask::Try(_, _) => returns(machine, value),
        FlowTask::Handled(name) => return_handled(machine, world, name, value),
        FlowTask::Finally(last) => finish(machine, value, Leaving::Returned, last),
        FlowTask::Leave(_) => returns_less(machine, 1, value),
    }
}

/// The block of a handler is left by `return`.
#[inline(always)]
fn return_handled<'u>(
    machine: &mut Machine<'u>,
    world: &mut World,
    name: Option<Name>,
    value: Value,
) -> Result<(), Halt>
    requires ready { IsReady machine.old.units.now machine.old.frame machine.old.values world.old }
    requires value { IsFit world.old.store.heap machine.old.frame.side value }
    ensures law { OnOk result ((base : Run) → rest_of base machine.new (state_of world.new) ≡ rest machine.old.tasks
        (did (steps.handling (steps.thrown_of (top machine.old.values)) (frame_in base machine.old))
        (below machine.old.values) (gives (returned value)
        (steps.without_as name (frame_in base machine.old) (state_of world.old))))) }
    ensures ready { IsReady machine.new.units.now machine.new.frame machine.new.values world.new }
    ensures shape { KeepsShape world.old.store.heap world.new.store.heap }
    ensures fewer { world.new.running.meter.left ≤ world.old.running.meter.left }
    ensures less { OnOk result (loads.Lowers 2 machine.old world.old machine.new world.new) }
{
    unbind_as(machine, world, name);
    handle_before(machine);
    returns(machine, value)
}
