//! The try statement (Python Language Reference, The try statement).
#![tactic(auto, using(rp_store::proofs::CallerLemmas::goes_on))]

ghost use Rattle.std.specs.Prelude.{◌+◌, ◌∷◌, ◌≡◌, ◌≤◌, None, OnOk, Some};
ghost use Rattle.rp_access.specs.Moment.{state_of};
ghost use Rattle.rp_frame.specs.Top.{below, top};
ghost use Rattle.rp_meaning.specs.Exceptions as exception;
ghost use Rattle.rp_meaning.specs.Frame.{Run};
ghost use Rattle.rp_meaning.specs.State.{State};
ghost use Rattle.rp_meaning.specs.Statements as stmt_forms;
ghost use Rattle.rp_proxy.specs.declared.world.World.{World as TheWorld};
ghost use Rattle.rp_proxy.specs.Faithful.{IsFaithful};
ghost use Rattle.rp_store.specs.Kept.{IsFit};
ghost use Rattle.rp_store.specs.Shape.{KeepsShape};
ghost use Rattle.rp_engine.specs.Does as does;
ghost use Rattle.rp_engine.specs.Handling as steps;
ghost use Rattle.rp_engine.specs.Law.{Executes, Moves, ResumesStmt, frame_in, rest_of};
ghost use Rattle.rp_engine.specs.Loads as loads;
ghost use Rattle.rp_engine.specs.Ready.{IsReady};
ghost use Rattle.rp_engine.specs.Rest.{begun, did, rest};

use crate::returning::returns;
use rp_access::{matches, raise_again};
use rp_base::{Name, OpEnd, Raised, Value};
use rp_engine::{Halt, Machine, copy_handled, copy_of, handling_value, thrown, thrown_of};
use rp_frame::{Control, FlowTask, Leaving, StmtTask, Task};
use rp_proxy::World;
use rp_tree::{Except, Stmt};

/// Begins a `try` statement.
///
/// # Errors
/// `Memory` where a growth was refused, as all that follow.
#[inline(never)]
pub fn begin_try<'u>(
    machine: &mut Machine<'u>,
    body: &'u [Stmt],
    handlers: &'u [Except],
    other: &'u [Stmt],
    last: &'u [Stmt],
) -> Result<(), Halt>
    ensures law { OnOk result ((w : TheWorld) → Executes (exception.try (does.block body.now)
        (does.handlers handlers.now) (does.block other.now) (does.block last.now)) machine.old w machine.new w) }
    ensures ready { (w : TheWorld) → IsReady machine.old.units.now machine.old.frame machine.old.values w
        → IsReady machine.new.units.now machine.new.frame machine.new.values w }
{
    match last {
        [] => begin_guarded(machine, body, handlers, other),
        _ => begin_with_last(machine, body, handlers, other, last),
    }
}

/// The same, with a block of `finally`.
#[inline(always)]
fn begin_with_last<'u>(
    machine: &mut Machine<'u>,
    body: &'u [Stmt],
    handlers: &'u [Except],
    other: &'u [Stmt],
    last: &'u [Stmt],
) -> Result<(), Halt>
    ensures law { OnOk result ((w : TheWorld) → Executes (exception.try (does.block body.now)
        (does.handlers handlers.now) (does.block other.now) (does.block last.now)) machine.old w machine.new w) }
    ensures ready { (w : TheWorld) → IsReady machine.old.units.now machine.old.frame machine.old.values w
        → IsReady machine.new.units.now machine.new.frame machine.new.values w }
{
    machine.tasks.push(Task::Flow(FlowTask::Finally(last)))?;
    begin_guarded(machine, body, handlers, other)
}

/// Begins what stands before the block of `finally`.
#[inline(always)]
fn begin_guarded<'u>(
    machine: &mut Machine<'u>,
    body: &'u [Stmt],
    handlers: &'u [Except],
    other: &'u [Stmt],
) -> Result<(), Halt>
    ensures law { OnOk result (Moves (steps.guarded (does.block body.now) (does.handlers handlers.now)
        (does.block other.now)) machine.old machine.new) }
    ensures ready { (w : TheWorld) → IsReady machine.old.units.now machine.old.frame machine.old.values w
        → IsReady machine.new.units.now machine.new.frame machine.new.values w }
{
    machine.wait(
        Task::Flow(FlowTask::Try(handlers, other)),
        Control::Block(body),
    )
}

/// Goes on with the first of the handlers that takes an exception; where none does, it passes.
///
/// # Errors
/// As `begin_try`.
#[inline(never)]
pub fn handle<'u>(
    machine: &mut Machine<'u>,
    world: &mut World,
    handlers: &'u [Except],
    raised: Raised,
) -> Result<(), Halt>
    requires ready { IsReady machine.old.units.now machine.old.frame machine.old.values world.old }
    ensures law { OnOk result (Executes (exception.handle (does.handlers handlers.now) raised)
        machine.old world.old machine.new world.new) }
    ensures ready { IsReady machine.new.units.now machine.new.frame machine.new.values world.new }
    ensures shape { KeepsShape world.old.store.heap world.new.store.heap }
    ensures fewer { world.new.running.meter.left ≤ world.old.running.meter.left }
    ensures less { OnOk result (loads.Lowers (4 + loads.excepts handlers.now)
        machine.old world.old machine.new world.new) }
{
    match handlers {
        [] => machine.cut_off(OpEnd::Raised(raised)),
        [handler, behind @ ..] => try_handler(machine, world, handler, behind, raised),
    }
}

/// Goes on with a handler: one with no value takes any exception.
#[inline(always)]
fn try_handler<'u>(
    machine: &mut Machine<'u>,
    world: &mut World,
    handler: &'u Except,
    behind: &'u [Except],
    raised: Raised,
) -> Result<(), Halt>
    requires ready { IsReady machine.old.units.now machine.old.frame machine.old.values world.old }
    ensures law { OnOk result (Executes
        (exception.handle (does.handler handler.now ∷ does.handlers behind.now) raised)
        machine.old world.old machine.new world.new) }
    ensures ready { IsReady machine.new.units.now machine.new.frame machine.new.values world.new }
    ensures shape { KeepsShape world.old.store.heap world.new.store.heap }
    ensures fewer { world.new.running.meter.left ≤ world.old.running.meter.left }
    ensures less { OnOk result (loads.Lowers (loads.excepts (handler.now ∷ behind.now))
        machine.old world.old machine.new world.new) }
{
    match &handler.kind {
        None => begin_handler(machine, world, handler, raised),
        Some(kind) => machine.wait_with(
            thrown(raised),
            Task::Stmt(StmtTask::Handler(handler, behind)),
            Control::Expression(kind),
        ),
    }
}

/// With the value of a handler's expression; the exception is at hand.
///
/// # Errors
/// As `begin_try`.
#[inline(never)]
pub fn after_handler<'u>(
    machine: &mut Machine<'u>,
    world: &mut World,
    handler: &'u Except,
    behind: &'u [Except],
    value: Value,
) -> Result<(), Halt>
    requires ready { IsReady machine.old.units.now machine.old.frame machine.old.values world.old }
    requires value { IsFit world.old.store.heap machine.old.frame.side value }
    ensures law { OnOk result (ResumesStmt (StmtTask.Handler handler.entry behind.entry) value
        machine.old world.old machine.new world.new) }
    ensures ready { IsReady machine.new.units.now machine.new.frame machine.new.values world.new }
    ensures shape { KeepsShape world.old.store.heap world.new.store.heap }
    ensures fewer { world.new.running.meter.left ≤ world.old.running.meter.left }
    ensures less { OnOk result (loads.Lowers (4 + loads.excepts behind.now)
        machine.old world.old machine.new world.new) }
{
    match thrown_of(machine.at_hand()) {
        Some(raised) => if_takes(machine, world, handler, behind, raised, value),
        None => raise_once_more(machine, None),
    }
}

/// Goes on with a handler where it takes the exception, or with those behind it.
#[inline(always)]
fn if_takes<'u>(
    machine: &mut Machine<'u>,
    world: &mut World,
    handler: &'u Except,
    behind: &'u [Except],
    raised: Raised,
    value: Value,
) -> Result<(), Halt>
    requires ready { IsReady machine.old.units.now machine.old.frame machine.old.values world.old }
    requires value { IsFit world.old.store.heap machine.old.frame.side value }
    ensures law { OnOk result (Executes
        (steps.if_takes (does.handler handler.now) (does.handlers behind.now) raised value)
        machine.old world.old machine.new world.new) }
    ensures ready { IsReady machine.new.units.now machine.new.frame machine.new.values world.new }
    ensures shape { KeepsShape world.old.store.heap world.new.store.heap }
    ensures fewer { world.new.running.meter.left ≤ world.old.running.meter.left }
    ensures less { OnOk result (loads.Lowers (4 + loads.excepts behind.now)
        machine.old world.old machine.new world.new) }
{
    match matches(machine.alloc, world, &value, &raised) {
        Ok(true) => begin_handler(machine, world, handler, raised),
        Ok(false) => handle(machine, world, behind, raised),
        Err(end) => machine.cut_off(end),
    }
}

/// Begins the block of a handler, with the exception bound to the name of `as`.
#[inline(always)]
fn begin_handler<'u>(
    machine: &mut Machine<'u>,
    world: &mut World,
    handler: &'u Except,
    raised: Raised,
) -> Result<(), Halt>
    requires ready { IsReady machine.old.units.now machine.old.frame machine.old.values world.old }
    ensures law { OnOk result (Executes
        (exception.handled (does.handler handler.now).name (does.handler handler.now).body raised)
        machine.old world.old machine.new world.new) }
    ensures ready { IsReady machine.new.units.now machine.new.frame machine.new.values world.new }
    ensures shape { KeepsShape world.old.store.heap world.new.store.heap }
    ensures fewer { world.new.running.meter.left ≤ world.old.running.meter.left }
    ensures less { OnOk result (loads.Lowers 4 machine.old world.old machine.new world.new) }
{
    match &handler.name {
        None => enter_handler(machine, None, &handler.body, raised),
        Some(named) => bind_raised(machine, world, named.name, &handler.body, raised),
    }
}

/// Binds the exception to a name and begins the block of the handler.
#[inline(always)]
fn bind_raised<'u>(
    machine: &mut Machine<'u>,
    world: &mut World,
    name: Name,
    body: &'u [Stmt],
    raised: Raised,
) -> Result<(), Halt>
    requires ready { IsReady machine.old.units.now machine.old.frame machine.old.values world.old }
    ensures law { OnOk result (Executes (exception.handled (Some name) (does.block body.now) raised)
        machine.old world.old machine.new world.new) }
    ensures ready { IsReady machine.new.units.now machine.new.frame machine.new.values world.new }
    ensures shape { KeepsShape world.old.store.heap world.new.store.heap }
    ensures fewer { world.new.running.meter.left ≤ world.old.running.meter.left }
    ensures less { OnOk result (loads.Lowers 4 machine.old world.old machine.new world.new) }
{
    let copy = copy_of(&raised)?;
    let value = thrown(copy);
    machine.bind(world, name, value);
    enter_handler(machine, Some(name), body, raised)
}

/// Begins the block of a handler, whose exception is bound to the name.
#[inline(always)]
fn enter_handler<'u>(
    machine: &mut Machine<'u>,
    name: Option<Name>,
    body: &'u [Stmt],
    raised: Raised,
) -> Result<(), Halt>
    ensures law { OnOk result (Moves (steps.in_handler name (does.block body.now) raised) machine.old machine.new) }
    ensures ready { (w : TheWorld) → IsReady machine.old.units.now machine.old.frame machine.old.values w
        → IsReady machine.new.units.now machine.new.frame machine.new.values w }
    ensures less { OnOk result (loads.IsUnder 4 machine.old machine.new) }
{
    let before = change_handling(machine, Some(raised));
    machine.wait_with(
        handling_value(before),
        Task::Flow(FlowTask::Handled(name)),
        Control::Block(body),
    )
}

/// Changes what is handled, and answers what was before.
#[inline(always)]
fn change_handling<'u>(machine: &mut Machine<'u>, handled: Option<Raised>) -> Option<Raised>
    ensures before { result ≡ machine.old.frame.handling }
    ensures now { machine.new ≡ record machine.old { frame = record machine.old.frame { handling = handled } } }
{
    let before = machine.frame.handling.take();
    machine.frame.handling = handled;
    before
}

/// The block of a handler was left: the name is unbound, and what was handled before is handled again.
#[inline(never)]
pub fn behind_handler<'u>(
    machine: &mut Machine<'u>,
    world: &mut World,
    name: Option<Name>,
    control: Control<'u>,
) -> Result<(), Halt>
    requires ready { IsReady machine.old.units.now machine.old.frame machine.old.values world.old }
    ensures law { (base : Run) → rest_of base machine.new (state_of world.new) ≡ rest machine.old.tasks
        (begun (steps.handling (steps.thrown_of (top machine.old.values)) (frame_in base machine.old)) control.entry
        (below machine.old.values) machine.old.end
        (steps.without_as name (frame_in base machine.old) (state_of world.old))) }
    ensures ready { IsReady machine.new.units.now machine.new.frame machine.new.values world.new }
    ensures shape { KeepsShape world.old.store.heap world.new.store.heap }
    ensures fewer { world.new.running.meter.left ≤ world.old.running.meter.left }
    ensures less { loads.Lowers (loads.next control.entry) machine.old world.old machine.new world.new }
{
    unbind_as(machine, world, name);
    end_handler(machine, control)
}

/// Unbinds the name of `as`, which may be unbound.
#[inline(always)]
pub(crate) fn unbind_as<'u>(machine: &Machine<'u>, world: &mut World, name: Option<Name>)
    requires ready { IsReady machine.now.units.now machine.now.frame machine.now.values world.old }
    ensures law { (base : Run) → state_of world.new
        ≡ steps.without_as name (frame_in base machine.now) (state_of world.old) }
    ensures faithful { IsFaithful world.new }
    ensures shape { KeepsShape world.old.store.heap world.new.store.heap }
    ensures fewer { world.new.running.meter.left ≤ world.old.running.meter.left }
{
    if let Some(name) = name {
        machine.clear(world, name);
    }
}

/// What was handled before, which is at hand, is handled again.
#[inline(always)]
fn end_handler<'u>(machine: &mut Machine<'u>, control: Control<'u>) -> Result<(), Halt>
    ensures law { (base : Run) (s : State) → rest_of base machine.new s ≡ rest machine.old.tasks
        (begun (steps.handling (steps.thrown_of (top machine.old.values)) (frame_in base machine.old)) control.entry
        (below machine.old.values) machine.old.end s) }
    ensures ready { (w : TheWorld) → IsReady machine.old.units.now machine.old.frame machine.old.values w
        → IsReady machine.new.units.now machine.new.frame machine.new.values w }
    ensures less { loads.load machine.new ≡ loads.next control.entry + loads.tasks machine.old.tasks }
{
    handle_before(machine);
    machine.go(control)
}

/// The same, and nothing else is changed.
#[inline(always)]
pub(crate) fn handle_before<'u>(machine: &mut Machine<'u>)
    ensures { machine.new ≡ record machine.old {
      values = below machine.old.values;
      frame = record machine.old.frame { handling = steps.thrown_of (top machine.old.values) };
    } }
{
    let before = thrown_of(machine.at_hand());
    let _handled = change_handling(machine, before);
}

/// Goes on with the block of `finally`; what left the part before it waits, with its value.
///
/// # Errors
/// As `begin_try`.
#[inline(never)]
pub fn finish<'u>(
    machine: &mut Machine<'u>,
    value: Value,
    leaving: Leaving,
    last: &'u [Stmt],
) -> Result<(), Halt>
    ensures law { OnOk result (Moves (steps.finished_by (does.block last.now) leaving value)
        machine.old machine.new) }
    ensures ready { (w : TheWorld) → IsReady machine.old.units.now machine.old.frame machine.old.values w
        → IsFit w.store.heap machine.old.frame.side value
        → IsReady machine.new.units.now machine.new.frame machine.new.values w }
    ensures less { OnOk result (loads.IsUnder 4 machine.old machine.new) }
{
    machine.wait_with(
        value,
        Task::Flow(FlowTask::Leave(leaving)),
        Control::Block(last),
    )
}

/// The block of `finally` was done: what left the part before it leaves the statement.
///
/// # Errors
/// As `begin_try`.
#[inline(never)]
pub fn leave<'u>(machine: &mut Machine<'u>, leaving: Leaving) -> Result<(), Halt>
    ensures law { OnOk result ((base : Run) (s : State) → rest_of base machine.new s ≡ rest machine.old.tasks
        (did (frame_in base machine.old) (below machine.old.values)
        (steps.left leaving (top machine.old.values) (frame_in base machine.old) s))) }
    ensures ready { (w : TheWorld) → IsReady machine.old.units.now machine.old.frame machine.old.values w
        → IsReady machine.new.units.now machine.new.frame machine.new.values w }
    ensures less { OnOk result (loads.IsUnder 2 machine.old machine.new) }
{
    let value = machine.at_hand();
    leave_with(machine, leaving, value)
}

#[inline(always)]
fn leave_with<'u>(machine: &mut Machine<'u>, leaving: Leaving, value: Value) -> Result<(), Halt>
    ensures law { OnOk result (Moves (steps.left leaving value) machine.old machine.new) }
    ensures ready { (w : TheWorld) → IsReady machine.old.units.now machine.old.frame machine.old.values w
        → IsFit w.store.heap machine.old.frame.side value
        → IsReady machine.new.units.now machine.new.frame machine.new.values w }
    ensures less { OnOk result (loads.IsUnder 2 machine.old machine.new) }
{
    match leaving {
        Leaving::Next => machine.go(Control::Next),
        Leaving::Broke => machine.go(Control::Broke),
        Leaving::Continued => machine.go(Control::Continued),
        Leaving::Raised => raise_once_more(machine, thrown_of(value)),
        Leaving::Returned => returns(machine, value),
    }
}

/// Raises an exception again.
#[inline(never)]
fn raise_once_more<'u>(machine: &mut Machine<'u>, handled: Option<Raised>) -> Result<(), Halt>
    ensures law { OnOk result (Moves (steps.raise_handled handled) machine.old machine.new) }
    ensures ready { (w : TheWorld) → IsReady machine.old.units.now machine.old.frame machine.old.values w
        → IsReady machine.new.units.now machine.new.frame machine.new.values w }
    ensures less { OnOk result (loads.IsUnder 0 machine.old machine.new) }
{
    match handled {
        Some(exception) => machine.cut_off(OpEnd::Raised(exception)),
        None => machine.cut_off(raise_again(machine.alloc)),
    }
}

/// `raise` alone.
#[inline(always)]
pub(crate) fn raise_handled<'u>(machine: &mut Machine<'u>) -> Result<(), Halt>
    ensures law { OnOk result (Moves (stmt_forms.raise None) machine.old machine.new) }
    ensures ready { (w : TheWorld) → IsReady machine.old.units.now machine.old.frame machine.old.values w
        → IsReady machine.new.units.now machine.new.frame machine.new.values w }
{
    let handled = copy_handled(&machine.frame.handling)?;
    raise_once_more(machine, handled)
}
