//! Tasks that take up how a part ended.
#![tactic(auto, using(rp_store::proofs::CallerLemmas::goes_on, rp_engine::proofs::AtHand::at_hand))]

ghost use Rattle.std.specs.Prelude.{◌+◌, ◌≡◌, ◌≤◌, [], None, OnOk, drop, true};
ghost use Rattle.rp_meaning.specs.Frame.{Run};
ghost use Rattle.rp_meaning.specs.State.{State, Outcome, Flow, next, broke, continued};
ghost use Rattle.rp_meaning.specs.Statements.{leave};
ghost use Rattle.rp_ops.specs.Outcome.{ends, gives};
ghost use Rattle.rp_frame.specs.Top.{top, below};
ghost use Rattle.rp_proxy.specs.declared.world.World.{World as TheWorld};
ghost use Rattle.rp_access.specs.Comes.{Comes, IsEnd};
ghost use Rattle.rp_store.specs.Shape.{KeepsShape};
ghost use Rattle.rp_engine.specs.Ends.{end_of};
ghost use Rattle.rp_engine.specs.Law.{Takes, TakesUp, frame_in, rest_of};
ghost use Rattle.rp_engine.specs.Loads as loads;
ghost use Rattle.rp_engine.specs.WaitSteps.{at_hand, stmt_with};
ghost use Rattle.rp_step.specs.Left.{at_end, ends_otherwise, flows, left_by};
ghost use Rattle.rp_access.specs.Moment.{state_of};
ghost use Rattle.rp_engine.specs.Ready.{IsReady};
ghost use Rattle.rp_engine.specs.Rest.{after, after_flow, begun, did, gave, rest};

use crate::cutting::flow_cut;
use crate::expressions::after_expr;
use crate::statements::{after_stmt, loop_turn};
use rp_base::{OpEnd, Rock, Value};
use rp_engine::{Halt, Machine};
use rp_frame::{Control, ExprTask, FlowTask, Leaving, StmtTask, Task};
use rp_proxy::World;
use rp_statements::{behind_handler, class_part, finish, leave, with_return};
use rp_targets::{delete_all, store_each, store_more, walk_on, where_all};

/// How a block was left (Python Language Reference, Simple statements).
#[derive(Drop)]
pub enum Left {
    /// Behind its last statement.
    Next,
    /// By `break`.
    Broke,
    /// By `continue`.
    Continued,
    /// By `return`, with this value.
    Returned(Value),
}

/// A task takes up how the part ended for which it waited.
#[inline(always)]
pub(crate) fn take_up<'u>(
    machine: &mut Machine<'u>,
    world: &mut World,
    task: Task<'u>,
) -> Result<(), Halt>
    requires ready { IsReady machine.old.units.now machine.old.frame machine.old.values world.old }
    requires stands { at_end machine.old.control ≡ true }
    ensures law { OnOk result (Takes task.entry machine.old world.old machine.new world.new) }
    ensures ready { IsReady machine.new.units.now machine.new.frame machine.new.values world.new }
    ensures shape { KeepsShape world.old.store.heap world.new.store.heap }
    ensures fewer { world.new.running.meter.left ≤ world.old.running.meter.left }
    ensures less { OnOk result (loads.Lowers (loads.next machine.old.control + loads.held task.entry)
        machine.old world.old machine.new world.new) }
{
    match machine.control {
        Control::Value => with_value(machine, world, task),
        Control::Next => with_next(machine, world, task),
        _ => take_up_other(machine, world, task),
    }
}

/// The same, where the part gave no value, or the statement was not done. It is a function of its own so that the steps
/// of what is most often done have no room to make for it.
#[inline(never)]
fn take_up_other<'u>(
    machine: &mut Machine<'u>,
    world: &mut World,
    task: Task<'u>,
) -> Result<(), Halt>
    requires ready { IsReady machine.old.units.now machine.old.frame machine.old.values world.old }
    requires stands { ends_otherwise machine.old.control ≡ true }
    ensures law { OnOk result (Takes task.entry machine.old world.old machine.new world.new) }
    ensures ready { IsReady machine.new.units.now machine.new.frame machine.new.values world.new }
    ensures shape { KeepsShape world.old.store.heap world.new.store.heap }
    ensures fewer { world.new.running.meter.left ≤ world.old.running.meter.left }
    ensures less { OnOk result (loads.Lowers (loads.next machine.old.control + loads.held task.entry)
        machine.old world.old machine.new world.new) }
{
    match machine.control {
        Control::Broke => with_break(machine, world, task),
        Control::Continued => with_continue(machine, world, task),
        Control::NoValue => without_value(machine, task),
        Control::CutOff => with_cut(machine, world, task),
        Control::Returned => with_return(machine, world, task),
        _ => unreachable!(),
    }
}

/// A task gets the value for which it waited.
#[inline(always)]
fn with_value<'u>(machine: &mut Machine<'u>, world: &mut World, task: Task<'u>) -> Result<(), Halt>
    requires ready { IsReady machine.old.units.now machine.old.frame machine.old.values world.old }
    ensures law { OnOk result ((base : Run) → rest_of base machine.new (state_of world.new) ≡ rest machine.old.tasks
        (after task.entry (gave (frame_in base machine.old) (below machine.old.values)
        (gives (top machine.old.values) (state_of world.old))))) }
    ensures ready { IsReady machine.new.units.now machine.new.frame machine.new.values world.new }
    ensures shape { KeepsShape world.old.store.heap world.new.store.heap }
    ensures fewer { world.new.running.meter.left ≤ world.old.running.meter.left }
    ensures less { OnOk result (loads.Lowers (2 + loads.held task.entry) machine.old world.old machine.new world.new) }
{
    match task {
        Task::Expr(task) => {
            let value = machine.values.pop();
            after_expr(machine, world, task, value)
        }
        Task::Stmt(task) => {
            let value = machine.values.pop();
            after_stmt(machine, world, task, value)
        }
        Task::Flow(_) => machine.go(Control::Value),
    }
}

/// A task gets no value: it drops those that it waited with.
#[inline(never)]
fn without_value<'u>(machine: &mut Machine<'u>, task: Task<'u>) -> Result<(), Halt>
    ensures law { OnOk result ((base : Run) (s : State) → rest_of base machine.new s ≡ rest machine.old.tasks
        (after task.entry (gave (frame_in base machine.old) machine.old.values (ends (end_of machine.old.end) s)))) }
    ensures ready { (w : TheWorld) → IsReady machine.old.units.now machine.old.frame machine.old.values w
        → IsReady machine.new.units.now machine.new.frame machine.new.values w }
    ensures less { OnOk result (loads.IsUnder 0 machine.old machine.new) }
{
    match task {
        Task::Expr(task) => {
            machine.forget(held_with(task));
            machine.go(Control::NoValue)
        }
        Task::Stmt(task) => {
            machine.forget(stmt_with(task));
            machine.go(Control::CutOff)
        }
        Task::Flow(_) => machine.go(Control::NoValue),
    }
}

/// A task goes on from a statement that was done.
#[inline(always)]
fn with_next<'u>(machine: &mut Machine<'u>, world: &mut World, task: Task<'u>) -> Result<(), Halt>
    requires ready { IsReady machine.old.units.now machine.old.frame machine.old.values world.old }
    ensures law { OnOk result (TakesUp task.entry (leave next) machine.old world.old machine.new world.new) }
    ensures ready { IsReady machine.new.units.now machine.new.frame machine.new.values world.new }
    ensures shape { KeepsShape world.old.store.heap world.new.store.heap }
    ensures fewer { world.new.running.meter.left ≤ world.old.running.meter.left }
    ensures less { OnOk result (loads.Lowers (2 + loads.held task.entry) machine.old world.old machine.new world.new) }
{
    match task {
        Task::Flow(task) => flow_next(machine, world, task),
        Task::Expr(_) => machine.go(Control::Next),
        Task::Stmt(_) => machine.go(Control::Next),
    }
}

/// The statements, turns or places that are left.
#[inline(always)]
fn flow_next<'u>(
    machine: &mut Machine<'u>,
    world: &mut World,
    task: FlowTask<'u>,
) -> Result<(), Halt>
    requires ready { IsReady machine.old.units.now machine.old.frame machine.old.values world.old }
    ensures law { OnOk result ((base : Run) → rest_of base machine.new (state_of world.new) ≡ rest machine.old.tasks
        (after_flow task.entry (frame_in base machine.old) machine.old.values (gives next (state_of world.old)))) }
    ensures ready { IsReady machine.new.units.now machine.new.frame machine.new.values world.new }
    ensures shape { KeepsShape world.old.store.heap world.new.store.heap }
    ensures fewer { world.new.running.meter.left ≤ world.old.running.meter.left }
    ensures less { OnOk result (loads.Lowers (2 + loads.flow_task task.entry)
        machine.old world.old machine.new world.new) }
{
    match task {
        FlowTask::Block(rest) => crate::run::block(machine, rest),
        FlowTask::While(turns, test, body) => loop_turn(machine, world, turns, test, body),
        FlowTask::Store(places) => store_more(machine, world, places),
        FlowTask::Delete(places) => delete_all(machine, world, places),
        FlowTask::For(turns, spot, each) => walk_on(machine, world, turns, spot, each),
        FlowTask::StoreEach(targets) => store_each(machine, world, targets),
        FlowTask::Class(name, body, done, count) => {
            class_part(machine, world, name, body, done, count)
        }
        FlowTask::Clause(tests, clauses, adds) => where_all(machine, world, tests, clauses, adds),
        FlowTask::Try(_, other) => machine.go(Control::Block(other)),
        FlowTask::Handled(name) => behind_handler(machine, world, name, Control::Next),
        FlowTask::Finally(last) => finish(machine, Value::Rock(Rock::Nil), Leaving::Next, last),
        FlowTask::Leave(leaving) => leave(machine, leaving),
    }
}

/// A task takes up `continue`.
#[inline(never)]
fn with_continue<'u>(
    machine: &mut Machine<'u>,
    world: &mut World,
    task: Task<'u>,
) -> Result<(), Halt>
    requires ready { IsReady machine.old.units.now machine.old.frame machine.old.values world.old }
    ensures law { OnOk result (TakesUp task.entry (leave continued) machine.old world.old machine.new world.new) }
    ensures ready { IsReady machine.new.units.now machine.new.frame machine.new.values world.new }
    ensures shape { KeepsShape world.old.store.heap world.new.store.heap }
    ensures fewer { world.new.running.meter.left ≤ world.old.running.meter.left }
    ensures less { OnOk result (loads.Lowers (2 + loads.held task.entry) machine.old world.old machine.new world.new) }
{
    match task {
        Task::Flow(task) => flow_continue(machine, world, task),
        Task::Expr(_) => machine.go(Control::Continued),
        Task::Stmt(_) => machine.go(Control::Continued),
    }
}

/// A loop makes its next turn; all else is left.
#[inline(always)]
fn flow_continue<'u>(
    machine: &mut Machine<'u>,
    world: &mut World,
    task: FlowTask<'u>,
) -> Result<(), Halt>
    requires ready { IsReady machine.old.units.now machine.old.frame machine.old.values world.old }
    ensures law { OnOk result ((base : Run) → rest_of base machine.new (state_of world.new) ≡ rest machine.old.tasks
        (after_flow task.entry (frame_in base machine.old) machine.old.values (gives continued (state_of world.old)))) }
    ensures ready { IsReady machine.new.units.now machine.new.frame machine.new.values world.new }
    ensures shape { KeepsShape world.old.store.heap world.new.store.heap }
    ensures fewer { world.new.running.meter.left ≤ world.old.running.meter.left }
    ensures less { OnOk result (loads.Lowers (2 + loads.flow_task task.entry)
        machine.old world.old machine.new world.new) }
{
    match task {
        FlowTask::While(turns, test, body) => loop_turn(machine, world, turns, test, body),
        FlowTask::Store(_) => go_without(machine, Control::Continued),
        FlowTask::Block(_) => machine.go(Control::Continued),
        FlowTask::Delete(_) => machine.go(Control::Continued),
        FlowTask::For(turns, spot, each) => walk_on(machine, world, turns, spot, each),
        FlowTask::StoreEach(targets) => go_less(machine, targets.len(), Control::Continued),
        FlowTask::Class(name, body, done, count) => {
            class_part(machine, world, name, body, done, count)
        }
        FlowTask::Clause(_, _, _) => machine.go(Control::Continued),
        FlowTask::Try(_, _) => machine.go(Control::Continued),
        FlowTask::Handled(name) => behind_handler(machine, world, name, Control::Continued),
        FlowTask::Finally(last) => {
            finish(machine, Value::Rock(Rock::Nil), Leaving::Continued, last)
        }
        FlowTask::Leave(_) => go_without(machine, Control::Continued),
    }
}

/// A task takes up `break`.
#[inline(never)]
fn with_break<'u>(machine: &mut Machine<'u>, world: &mut World, task: Task<'u>) -> Result<(), Halt>
    requires ready { IsReady machine.old.units.now machine.old.frame machine.old.values world.old }
    ensures law { OnOk result (TakesUp task.entry (leave broke) machine.old world.old machine.new world.new) }
    ensures ready { IsReady machine.new.units.now machine.new.frame machine.new.values world.new }
    ensures shape { KeepsShape world.old.store.heap world.new.store.heap }
    ensures fewer { world.new.running.meter.left ≤ world.old.running.meter.left }
    ensures less { OnOk result (loads.Lowers (2 + loads.held task.entry) machine.old world.old machine.new world.new) }
{
    match task {
        Task::Flow(task) => flow_break(machine, world, task),
        Task::Expr(_) => machine.go(Control::Broke),
        Task::Stmt(_) => machine.go(Control::Broke),
    }
}

/// A loop is done; all else is left.
#[inline(always)]
fn flow_break<'u>(
    machine: &mut Machine<'u>,
    world: &mut World,
    task: FlowTask<'u>,
) -> Result<(), Halt>
    requires ready { IsReady machine.old.units.now machine.old.frame machine.old.values world.old }
    ensures law { OnOk result ((base : Run) → rest_of base machine.new (state_of world.new) ≡ rest machine.old.tasks
        (after_flow task.entry (frame_in base machine.old) machine.old.values (gives broke (state_of world.old)))) }
    ensures ready { IsReady machine.new.units.now machine.new.frame machine.new.values world.new }
    ensures shape { KeepsShape world.old.store.heap world.new.store.heap }
    ensures fewer { world.new.running.meter.left ≤ world.old.running.meter.left }
    ensures less { OnOk result (loads.Lowers (2 + loads.flow_task task.entry)
        machine.old world.old machine.new world.new) }
{
    match task {
        FlowTask::While(_, _, _) => machine.go(Control::Next),
        FlowTask::Store(_) => go_without(machine, Control::Broke),
        FlowTask::Block(_) => machine.go(Control::Broke),
        FlowTask::Delete(_) => machine.go(Control::Broke),
        FlowTask::For(_, _, _) => go_without(machine, Control::Next),
        FlowTask::StoreEach(targets) => go_less(machine, targets.len(), Control::Broke),
        FlowTask::Class(name, body, done, count) => {
            class_part(machine, world, name, body, done, count)
        }
        FlowTask::Clause(_, _, _) => machine.go(Control::Broke),
        FlowTask::Try(_, _) => machine.go(Control::Broke),
        FlowTask::Handled(name) => behind_handler(machine, world, name, Control::Broke),
        FlowTask::Finally(last) => { finish(machine, Value::Rock(Rock::Nil), Leaving::Broke, last) }
        FlowTask::Leave(_) => go_without(machine, Control::Broke),
    }
}

/// Goes on with the last value at hand dropped.
pub(crate) fn go_without<'u>(machine: &mut Machine<'u>, control: Control<'u>) -> Result<(), Halt>
    ensures law { (base : Run) (s : State) → rest_of base machine.new s ≡ rest machine.old.tasks
        (begun (frame_in base machine.old) control.entry (below machine.old.values) machine.old.end s) }
    ensures ready { (w : TheWorld) → IsReady machine.old.units.now machine.old.frame machine.old.values w
        → IsReady machine.new.units.now machine.new.frame machine.new.values w }
    ensures less { loads.load machine.new ≡ loads.next control.entry + loads.tasks machine.old.tasks }
{
    let _value = machine.values.pop();
    machine.go(control)
}

/// Goes on with so many of the values at hand dropped.
pub(crate) fn go_less<'u>(
    machine: &mut Machine<'u>,
    count: usize,
    control: Control<'u>,
) -> Result<(), Halt>
    ensures law { (base : Run) (s : State) → rest_of base machine.new s ≡ rest machine.old.tasks
        (begun (frame_in base machine.old) control.entry (drop count machine.old.values) machine.old.end s) }
    ensures ready { (w : TheWorld) → IsReady machine.old.units.now machine.old.frame machine.old.values w
        → IsReady machine.new.units.now machine.new.frame machine.new.values w }
    ensures less { loads.load machine.new ≡ loads.next control.entry + loads.tasks machine.old.tasks }
{
    machine.forget(count);
    machine.go(control)
}

/// A task takes up that a statement was cut off.
#[inline(never)]
fn with_cut<'u>(machine: &mut Machine<'u>, world: &mut World, task: Task<'u>) -> Result<(), Halt>
    requires ready { IsReady machine.old.units.now machine.old.frame machine.old.values world.old }
    ensures law { OnOk result ((base : Run) → rest_of base machine.new (state_of world.new) ≡ rest machine.old.tasks
        (after task.entry (did (frame_in base machine.old) machine.old.values
        (ends (end_of machine.old.end) (state_of world.old))))) }
    ensures ready { IsReady machine.new.units.now machine.new.frame machine.new.values world.new }
    ensures shape { KeepsShape world.old.store.heap world.new.store.heap }
    ensures fewer { world.new.running.meter.left ≤ world.old.running.meter.left }
    ensures less { OnOk result (loads.Lowers (loads.held task.entry) machine.old world.old machine.new world.new) }
{
    match task {
        Task::Flow(task) => flow_cut(machine, world, task),
        Task::Expr(_) => machine.go(Control::CutOff),
        Task::Stmt(_) => machine.go(Control::CutOff),
    }
}

/// How a part was left that came to its end, where no task waits for that; an expression as by `return` with its value.
///
/// # Errors
/// Why it was cut off.
pub(crate) fn how_left<'u>(machine: &mut Machine<'u>) -> Result<Left, OpEnd>
    requires stands { at_end machine.old.control ≡ true }
    ensures law { (base : Run) (s : State) → machine.old.tasks ≡ []
        → Comes (flows result) s (left_by (rest_of base machine.old s)) }
    ensures ready { (w : TheWorld) → IsReady machine.old.units.now machine.old.frame machine.old.values w
        → IsReady machine.new.units.now machine.new.frame machine.new.values w }
{
    match machine.control {
        Control::Next => Ok(Left::Next),
        Control::Broke => Ok(Left::Broke),
        Control::Continued => Ok(Left::Continued),
        Control::Value => Ok(Left::Returned(machine.values.pop())),
        Control::Returned => Ok(Left::Returned(machine.values.pop())),
        Control::NoValue => Err(why(machine)),
        Control::CutOff => Err(why(machine)),
        _ => unreachable!(),
    }
}

/// Why a statement was cut off, or an expression has no value.
fn why<'u>(machine: &mut Machine<'u>) -> OpEnd
    ensures end { (s : State) (o : Outcome Flow) → o ≡ ends (end_of machine.old.end) s → IsEnd result s o }
    ensures same { machine.new ≡ record machine.old { end = None } }
{
    match machine.end.take() {
        Some(end) => end,
        None => OpEnd::StopCells,
    }
}

/// How many values at hand an expression waits with.
fn held_with(task: ExprTask) -> usize
    ensures { result ≡ at_hand task.entry }
{
    match task {
        ExprTask::Operand(_, _) => 1,
        ExprTask::Exponent => 1,
        ExprTask::Test(_, _) => 1,
        ExprTask::Key(_) => 1,
        ExprTask::Items(_, count, _) => count as usize,
        ExprTask::Argument(count, _, _) => count as usize + 1,
        ExprTask::SliceFrom(_, _, _) => 1,
        ExprTask::SliceTo(_, _) => 2,
        ExprTask::SliceStep(_) => 3,
        ExprTask::DictKey(count, _, _) => count as usize,
        ExprTask::DictValue(count, _) => count as usize,
        ExprTask::StarArgument(count, _, _) => count as usize + 1,
        ExprTask::NamedArgument(count, named, _, _, _) => 2 * named as usize + count as usize + 1,
        ExprTask::StarsArgument(count, named, _, _) => 2 * named as usize + count as usize + 1,
        ExprTask::LaterArgument(count, named, _, _) => 2 * named as usize + count as usize + 1,
        ExprTask::LaterStar(count, named, _, _) => 2 * named as usize + count as usize + 1,
        ExprTask::Default(_, _, count, _) => count as usize,
        ExprTask::Contained(_, _) => 1,
        _ => 0,
    }
}

/// How many values at hand a statement waits with for the value of an expression.
fn stmt_with(task: StmtTask) -> usize
    ensures { result ≡ stmt_with task.entry }
{
    match task {
        StmtTask::StoreAttr(_) => 1,
        StmtTask::StoreItem(_) => 1,
        StmtTask::StoreKey => 2,
        StmtTask::DeleteKey => 1,
        StmtTask::AugmentName(_, _) => 1,
        StmtTask::AugmentedAttr(_, _) => 2,
        StmtTask::AugmentKey(_, _) => 1,
        StmtTask::AugmentGot(_, _) => 2,
        StmtTask::AugmentedItem(_) => 3,
        StmtTask::Handler(_, _) => 1,
        StmtTask::AddEntry(_) => 1,
        StmtTask::Method(_, _, _, count) => count as usize,
        _ => 0,
    }
}
