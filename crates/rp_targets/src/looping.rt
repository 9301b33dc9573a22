//! The for statement (Python Language Reference, The for statement).
#![tactic(auto, using(rp_store::proofs::CallerLemmas::goes_on, rp_engine::proofs::AtHand::at_hand))]

ghost use Rattle.std.specs.Prelude.{◌≡◌, ◌+◌, ◌≤◌, IfSome, List, OnOk, suc};
ghost use Rattle.rp_base.specs.declared.value.Value.{Value as TheValue};
ghost use Rattle.rp_frame.specs.Top.{below, top};
ghost use Rattle.rp_meaning.specs.Frame.{Frame, Run, bind_name};
ghost use Rattle.rp_meaning.specs.State.{Flow, Outcome, on_next};
ghost use Rattle.rp_meaning.specs.Statements as stmt_forms;
ghost use Rattle.rp_proxy.specs.declared.world.World.{World as TheWorld};
ghost use Rattle.rp_store.specs.Kept.{IsFit};
ghost use Rattle.rp_store.specs.Shape.{KeepsShape};
ghost use Rattle.rp_engine.specs.Does as does;
ghost use Rattle.rp_engine.specs.Law.{Executes, Moves, frame_in, rest_of};
ghost use Rattle.rp_engine.specs.Loads as loads;
ghost use Rattle.rp_engine.specs.LoopSteps.{all_turns, each_turn, over, turn_before, walked};
ghost use Rattle.rp_access.specs.Moment.{state_of};
ghost use Rattle.rp_engine.specs.Ready.{IsReady};
ghost use Rattle.rp_engine.specs.Rest.{after_flow, did, rest};
ghost use Rattle.rp_access.specs.Spots.{cursor_at};

use crate::unpacking::store_target;
use rp_access::walk;
use rp_base::{Name, OpEnd, Value};
use rp_engine::{Halt, Machine};
use rp_frame::{Control, Each, FlowTask, Inside, Spot, StmtTask, Task};
use rp_proxy::World;
use rp_tree::{Expr, Place, Target};

/// A `for` statement, or a later clause of a comprehension. Loops over lists, tuples, dicts and texts run.
///
/// # Errors
/// `Memory` where a growth was refused, as all that follow.
#[inline(never)]
pub fn for_each<'u>(
    machine: &mut Machine<'u>,
    world: &mut World,
    of: &'u Expr,
    each: Each<'u>,
) -> Result<(), Halt>
    requires ready { IsReady machine.old.units.now machine.old.frame machine.old.values world.old }
    ensures law { OnOk result (Executes (stmt_forms.for (does.expr of.now) (does.target each.entry.target.now)
        (does.inside each.entry.inside)) machine.old world.old machine.new world.new) }
    ensures ready { IsReady machine.new.units.now machine.new.frame machine.new.values world.new }
    ensures shape { KeepsShape world.old.store.heap world.new.store.heap }
    ensures fewer { world.new.running.meter.left ≤ world.old.running.meter.left }
    ensures less { OnOk result (loads.Lowers (2 + loads.inside of.now) machine.old world.old machine.new world.new) }
{
    match machine.leaf(world, of) {
        Ok(Some(value)) => walk_over(machine, world, value, each),
        Ok(None) => machine.wait(Task::Stmt(StmtTask::For(each)), Control::Expression(of)),
        Err(end) => machine.cut_off(end),
    }
}

/// Begins the loop over a value, once that is decided.
#[inline(always)]
pub fn walk_over<'u>(
    machine: &mut Machine<'u>,
    world: &mut World,
    value: Value,
    each: Each<'u>,
) -> Result<(), Halt>
    requires ready { IsReady machine.old.units.now machine.old.frame machine.old.values world.old }
    requires value { IsFit world.old.store.heap machine.old.frame.side value }
    ensures law { OnOk result (Executes (over (does.target each.entry.target.now) (does.inside each.entry.inside)
        value) machine.old world.old machine.new world.new) }
    ensures ready { IsReady machine.new.units.now machine.new.frame machine.new.values world.new }
    ensures shape { KeepsShape world.old.store.heap world.new.store.heap }
    ensures fewer { world.new.running.meter.left ≤ world.old.running.meter.left }
    ensures less { OnOk result (loads.Lowers 2 machine.old world.old machine.new world.new) }
{
    match walk(machine.alloc, world, &value) {
        Ok(spot) => first_turn(machine, world, value, spot, each),
        Err(end) => machine.cut_off(end),
    }
}

/// Begins a loop, which makes no more turns than there are steps, and one.
///
/// # Errors
/// `Memory` where a growth was refused.
#[inline(always)]
pub fn first_turn<'u>(
    machine: &mut Machine<'u>,
    world: &mut World,
    value: Value,
    spot: Spot,
    each: Each<'u>,
) -> Result<(), Halt>
    requires ready { IsReady machine.old.units.now machine.old.frame machine.old.values world.old }
    requires value { IsFit world.old.store.heap machine.old.frame.side value }
    ensures law { OnOk result (Executes (all_turns (does.target each.entry.target.now)
        (does.inside each.entry.inside) (cursor_at value spot)) machine.old world.old machine.new world.new) }
    ensures ready { IsReady machine.new.units.now machine.new.frame machine.new.values world.new }
    ensures shape { KeepsShape world.old.store.heap world.new.store.heap }
    ensures fewer { world.new.running.meter.left ≤ world.old.running.meter.left }
    ensures less { OnOk result (loads.Lowers 2 machine.old world.old machine.new world.new) }
{
    next_element(machine, world, world.running.meter.left, value, spot, each)
}

/// A turn of a loop that may still make so many; what it goes over is at hand.
#[inline(always)]
pub fn walk_on<'u>(
    machine: &mut Machine<'u>,
    world: &mut World,
    turns: u64,
    spot: Spot,
    each: Each<'u>,
) -> Result<(), Halt>
    requires ready { IsReady machine.old.units.now machine.old.frame machine.old.values world.old }
    ensures law { OnOk result ((base : Run) → rest_of base machine.new (state_of world.new) ≡ rest machine.old.tasks
        (did (frame_in base machine.old) (below machine.old.values) (walked turns (does.target each.entry.target.now)
        (does.inside each.entry.inside) (cursor_at (top machine.old.values) spot)
        (frame_in base machine.old) (state_of world.old)))) }
    ensures ready { IsReady machine.new.units.now machine.new.frame machine.new.values world.new }
    ensures shape { KeepsShape world.old.store.heap world.new.store.heap }
    ensures fewer { world.new.running.meter.left ≤ world.old.running.meter.left }
    ensures less { OnOk result (loads.Lowers 2 machine.old world.old machine.new world.new) }
{
    let value = machine.values.pop();
    walk_turn(machine, world, turns, value, spot, each)
}

/// The same, with what it goes over.
#[inline(always)]
fn walk_turn<'u>(
    machine: &mut Machine<'u>,
    world: &mut World,
    turns: u64,
    value: Value,
    spot: Spot,
    each: Each<'u>,
) -> Result<(), Halt>
    requires ready { IsReady machine.old.units.now machine.old.frame machine.old.values world.old }
    requires value { IsFit world.old.store.heap machine.old.frame.side value }
    ensures law { OnOk result (Executes (walked turns (does.target each.entry.target.now)
        (does.inside each.entry.inside) (cursor_at value spot)) machine.old world.old machine.new world.new) }
    ensures ready { IsReady machine.new.units.now machine.new.frame machine.new.values world.new }
    ensures shape { KeepsShape world.old.store.heap world.new.store.heap }
    ensures fewer { world.new.running.meter.left ≤ world.old.running.meter.left }
    ensures less { OnOk result (loads.Lowers 2 machine.old world.old machine.new world.new) }
{
    if turns == 0 {
        return machine.cut_off(OpEnd::StopSteps);
    }
    next_element(machine, world, turns - 1, value, spot, each)
}

/// Takes the next element of a loop that may make so many turns behind it.
#[inline(always)]
fn next_element<'u>(
    machine: &mut Machine<'u>,
    world: &mut World,
    behind: u64,
    value: Value,
    spot: Spot,
    each: Each<'u>,
) -> Result<(), Halt>
    requires ready { IsReady machine.old.units.now machine.old.frame machine.old.values world.old }
    requires value { IsFit world.old.store.heap machine.old.frame.side value }
    ensures law { OnOk result (Executes (walked (suc behind) (does.target each.entry.target.now)
        (does.inside each.entry.inside) (cursor_at value spot)) machine.old world.old machine.new world.new) }
    ensures ready { IsReady machine.new.units.now machine.new.frame machine.new.values world.new }
    ensures shape { KeepsShape world.old.store.heap world.new.store.heap }
    ensures fewer { world.new.running.meter.left ≤ world.old.running.meter.left }
    ensures less { OnOk result (loads.Lowers 2 machine.old world.old machine.new world.new) }
{
    match rp_access::next_element(machine.alloc, world, machine.frame.side, &value, spot) {
        Ok(Some((element, next))) => turn_with(machine, world, behind, next, each, value, element),
        Ok(None) => machine.go(Control::Next),
        Err(end) => machine.cut_off(end),
    }
}

/// Begins a turn with an element; the loop then stands at the spot.
#[inline(always)]
fn turn_with<'u>(
    machine: &mut Machine<'u>,
    world: &mut World,
    behind: u64,
    spot: Spot,
    each: Each<'u>,
    value: Value,
    element: Value,
) -> Result<(), Halt>
    requires ready { IsReady machine.old.units.now machine.old.frame machine.old.values world.old }
    requires value { IsFit world.old.store.heap machine.old.frame.side value }
    requires element { IsFit world.old.store.heap machine.old.frame.side element }
    ensures law { OnOk result (Executes (turn_before behind (does.target each.entry.target.now)
        (does.inside each.entry.inside) (cursor_at value spot) element) machine.old world.old machine.new world.new) }
    ensures ready { IsReady machine.new.units.now machine.new.frame machine.new.values world.new }
    ensures shape { KeepsShape world.old.store.heap world.new.store.heap }
    ensures fewer { world.new.running.meter.left ≤ world.old.running.meter.left }
{
    machine.values.push(value)?;
    machine
        .tasks
        .push(Task::Flow(FlowTask::For(behind, spot, each)))?;
    each_turn(machine, world, each, element)
}

/// Assigns an element to the target, and goes on with what stands inside the loop. Where the target is a name, nothing
/// has to wait for that.
#[inline(always)]
fn each_turn<'u>(
    machine: &mut Machine<'u>,
    world: &mut World,
    each: Each<'u>,
    element: Value,
) -> Result<(), Halt>
    requires ready { IsReady machine.old.units.now machine.old.frame machine.old.values world.old }
    requires element { IsFit world.old.store.heap machine.old.frame.side element }
    ensures law { OnOk result (Executes (each_turn (does.target each.entry.target.now)
        (does.inside each.entry.inside) element) machine.old world.old machine.new world.new) }
    ensures ready { IsReady machine.new.units.now machine.new.frame machine.new.values world.new }
    ensures shape { KeepsShape world.old.store.heap world.new.store.heap }
    ensures fewer { world.new.running.meter.left ≤ world.old.running.meter.left }
{
    match name_of(each.target) {
        Some(name) => turn_with_name(machine, world, name, each.inside, element),
        None => turn_behind(machine, world, each, element),
    }
}

/// Assigns an element to a name, and goes on with what stands inside the loop.
#[inline(always)]
fn turn_with_name<'u>(
    machine: &mut Machine<'u>,
    world: &mut World,
    name: Name,
    inside: Inside<'u>,
    element: Value,
) -> Result<(), Halt>
    requires ready { IsReady machine.old.units.now machine.old.frame machine.old.values world.old }
    requires element { IsFit world.old.store.heap machine.old.frame.side element }
    ensures law { OnOk result (Executes (each_turn (bind_name name) (does.inside inside.entry) element)
        machine.old world.old machine.new world.new) }
    ensures ready { IsReady machine.new.units.now machine.new.frame machine.new.values world.new }
    ensures shape { KeepsShape world.old.store.heap world.new.store.heap }
    ensures fewer { world.new.running.meter.left ≤ world.old.running.meter.left }
{
    machine.bind(world, name, element);
    go_inside(machine, inside)
}

/// Goes on with what stands inside a loop.
#[inline(always)]
fn go_inside<'u>(machine: &mut Machine<'u>, inside: Inside<'u>) -> Result<(), Halt>
    ensures law { OnOk result (Moves (does.inside inside.entry) machine.old machine.new) }
    ensures ready { (w : TheWorld) → IsReady machine.old.units.now machine.old.frame machine.old.values w
        → IsReady machine.new.units.now machine.new.frame machine.new.values w }
{
    match inside {
        Inside::Block(block) => machine.go(Control::Block(block)),
        Inside::Clause(tests, clauses, adds) => machine.wait(
            Task::Flow(FlowTask::Clause(tests, clauses, adds)),
            Control::Next,
        ),
    }
}

/// Assigns an element to a target, behind which what stands inside the loop waits.
#[inline(never)]
fn turn_behind<'u>(
    machine: &mut Machine<'u>,
    world: &mut World,
    each: Each<'u>,
    element: Value,
) -> Result<(), Halt>
    requires ready { IsReady machine.old.units.now machine.old.frame machine.old.values world.old }
    requires element { IsFit world.old.store.heap machine.old.frame.side element }
    ensures law { OnOk result (Executes (each_turn (does.target each.entry.target.now)
        (does.inside each.entry.inside) element) machine.old world.old machine.new world.new) }
    ensures ready { IsReady machine.new.units.now machine.new.frame machine.new.values world.new }
    ensures shape { KeepsShape world.old.store.heap world.new.store.heap }
    ensures fewer { world.new.running.meter.left ≤ world.old.running.meter.left }
{
    let behind = inside_task(each.inside);
    machine.tasks.push(Task::Flow(behind))?;
    store_target(machine, world, each.target, element)
}

/// The name that a target is; none where it is another place, or several.
#[inline(always)]
fn name_of(target: &Target) -> Option<Name>
    ensures { IfSome result (λ name. does.target target.now ≡ bind_name name) }
{
    match target {
        Target::Place(place) => place_name(place),
        Target::Group(_) => None,
    }
}

/// The name that a place is.
#[inline(always)]
fn place_name(place: &Place) -> Option<Name>
    ensures { IfSome result (λ name. does.place place.now ≡ bind_name name) }
{
    match place {
        Place::Name(name) => Some(name.name),
        Place::Attr(_, _, _) => None,
        Place::Item(_, _, _) => None,
    }
}

/// What waits until an element is assigned: what stands inside the loop.
#[inline(always)]
fn inside_task<'u>(inside: Inside<'u>) -> FlowTask<'u>
    ensures { (f : Frame) (vs : List TheValue) (o : Outcome Flow) → after_flow result f vs o
        ≡ did f vs (on_next o (does.inside inside.entry f)) }
{
    match inside {
        Inside::Block(block) => FlowTask::Block(block),
        Inside::Clause(tests, clauses, adds) => FlowTask::Clause(tests, clauses, adds),
    }
}
