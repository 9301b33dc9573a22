//! Displays, and the objects that they make (Python Language Reference, Displays for lists, sets and dictionaries).
#![tactic(auto, using(rp_store::proofs::CallerLemmas::goes_on))]

ghost use Rattle.std.specs.Prelude.{◌+◌, ◌∷◌, ◌≡◌, ◌≤◌, [], OnOk, drop};
ghost use Rattle.rp_base.specs.declared.value.Value.{Value as TheValue};
ghost use Rattle.rp_meaning.specs.Frame.{Run};
ghost use Rattle.rp_meaning.specs.State.{Outcome, State};
ghost use Rattle.rp_proxy.specs.declared.world.World.{World as TheWorld};
ghost use Rattle.rp_store.specs.Kept.{IsFit};
ghost use Rattle.rp_store.specs.Shape.{KeepsShape};
ghost use Rattle.rp_access.specs.Comes.{IsEnd};
ghost use Rattle.rp_engine.specs.DisplaySteps.{display};
ghost use Rattle.rp_engine.specs.Does as does;
ghost use Rattle.rp_engine.specs.GatheringSteps.{Gathers};
ghost use Rattle.rp_engine.specs.Law.{Evaluates, Resumes, frame_in, rest_of};
ghost use Rattle.rp_engine.specs.Loads as loads;
ghost use Rattle.rp_engine.specs.Ready.{IsReady};
ghost use Rattle.rp_engine.specs.Rest.{gave, rest};

use rp_access::take_step;
use rp_base::{OpEnd, Value};
use rp_engine::{Halt, Machine, new_display, one_more};
use rp_frame::{Control, Display, ExprTask, Task};
use rp_proxy::World;
use rp_tree::Expr;

/// A display.
///
/// # Errors
/// `Memory` where a growth was refused, and `TooLong` at more than 2^32 - 1 elements, as all that follow.
#[inline(never)]
#[tactic(auto, using(rp_store::proofs::CallerLemmas::goes_on, rp_engine::proofs::Worlds::shape_stored))]
pub fn display<'u>(
    machine: &mut Machine<'u>,
    world: &mut World,
    kind: Display,
    items: &'u [Expr],
) -> Result<(), Halt>
    requires ready { IsReady machine.old.units.now machine.old.frame machine.old.values world.old }
    ensures law { OnOk result (Evaluates (display kind (does.exprs items.now))
        machine.old world.old machine.new world.new) }
    ensures ready { IsReady machine.new.units.now machine.new.frame machine.new.values world.new }
    ensures shape { KeepsShape world.old.store.heap world.new.store.heap }
    ensures fewer { world.new.running.meter.left ≤ world.old.running.meter.left }
    ensures less { OnOk result (loads.Lowers 0 machine.old world.old machine.new world.new) }
{
    match take_step(world) {
        Ok(()) => gather(machine, world, kind, 0, items),
        Err(end) => machine.no_value(end),
    }
}

/// Goes on with the elements that are left; so many before them are at hand.
#[inline(always)]
fn gather<'u>(
    machine: &mut Machine<'u>,
    world: &mut World,
    kind: Display,
    count: u32,
    rest: &'u [Expr],
) -> Result<(), Halt>
    requires ready { IsReady machine.old.units.now machine.old.frame machine.old.values world.old }
    ensures law { OnOk result (Gathers kind count (does.exprs rest.now) machine.old world.old machine.new world.new) }
    ensures ready { IsReady machine.new.units.now machine.new.frame machine.new.values world.new }
    ensures shape { KeepsShape world.old.store.heap world.new.store.heap }
    ensures fewer { world.new.running.meter.left ≤ world.old.running.meter.left }
    ensures less { OnOk result (loads.Lowers (2 + loads.exprs rest.now) machine.old world.old machine.new world.new) }
{
    match rest {
        [] => make_display(machine, world, kind, count),
        [x, rest @ ..] => element(machine, world, kind, count, x, rest),
    }
}

/// Goes on with the next element.
#[inline(always)]
fn element<'u>(
    machine: &mut Machine<'u>,
    world: &mut World,
    kind: Display,
    count: u32,
    x: &'u Expr,
    rest: &'u [Expr],
) -> Result<(), Halt>
    requires ready { IsReady machine.old.units.now machine.old.frame machine.old.values world.old }
    ensures law { OnOk result (Gathers kind count (does.expr x.now ∷ does.exprs rest.now)
        machine.old world.old machine.new world.new) }
    ensures ready { IsReady machine.new.units.now machine.new.frame machine.new.values world.new }
    ensures shape { KeepsShape world.old.store.heap world.new.store.heap }
    ensures fewer { world.new.running.meter.left ≤ world.old.running.meter.left }
    ensures less { OnOk result (loads.Lowers (3 + loads.inside x.now + loads.exprs rest.now)
        machine.old world.old machine.new world.new) }
{
    match machine.leaf(world, x) {
        Ok(Some(value)) => machine.wait_with(
            value,
            Task::Expr(ExprTask::Items(kind, count, rest)),
            Control::Value,
        ),
        Ok(None) => machine.wait(
            Task::Expr(ExprTask::Items(kind, count, rest)),
            Control::Expression(x),
        ),
        Err(end) => no_element(machine, count, end),
    }
}

/// An element has no value: those at hand are dropped.
#[inline(never)]
pub(crate) fn no_element<'u>(machine: &mut Machine<'u>, count: u32, end: OpEnd) -> Result<(), Halt>
    ensures law { OnOk result ((base : Run) (s : State) (o : Outcome TheValue) → IsEnd end s o
        → rest_of base machine.new s
        ≡ rest machine.old.tasks (gave (frame_in base machine.old) (drop count machine.old.values) o)) }
    ensures ready { (w : TheWorld) → IsReady machine.old.units.now machine.old.frame machine.old.values w
        → IsReady machine.new.units.now machine.new.frame machine.new.values w }
    ensures less { OnOk result (loads.IsUnder 0 machine.old machine.new) }
{
    machine.forget(count as usize);
    machine.no_value(end)
}

/// With an element; so many before it are at hand.
#[inline(always)]
pub fn after_item<'u>(
    machine: &mut Machine<'u>,
    world: &mut World,
    kind: Display,
    count: u32,
    value: Value,
    rest: &'u [Expr],
) -> Result<(), Halt>
    requires ready { IsReady machine.old.units.now machine.old.frame machine.old.values world.old }
    requires value { IsFit world.old.store.heap machine.old.frame.side value }
    ensures law { OnOk result (Resumes (ExprTask.Items kind count rest.entry) value
        machine.old world.old machine.new world.new) }
    ensures ready { IsReady machine.new.units.now machine.new.frame machine.new.values world.new }
    ensures shape { KeepsShape world.old.store.heap world.new.store.heap }
    ensures fewer { world.new.running.meter.left ≤ world.old.running.meter.left }
    ensures less { OnOk result (loads.Lowers (2 + loads.exprs rest.now) machine.old world.old machine.new world.new) }
{
    machine.hold(value)?;
    let count = one_more(count)?;
    gather(machine, world, kind, count, rest)
}

/// Makes the object of a display, of which all elements are at hand.
#[inline(never)]
pub(crate) fn make_display<'u>(
    machine: &mut Machine<'u>,
    world: &mut World,
    kind: Display,
    count: u32,
) -> Result<(), Halt>
    requires ready { IsReady machine.old.units.now machine.old.frame machine.old.values world.old }
    ensures law { OnOk result (Gathers kind count [] machine.old world.old machine.new world.new) }
    ensures ready { IsReady machine.new.units.now machine.new.frame machine.new.values world.new }
    ensures shape { KeepsShape world.old.store.heap world.new.store.heap }
    ensures fewer { world.new.running.meter.left ≤ world.old.running.meter.left }
    ensures less { OnOk result (loads.Lowers 2 machine.old world.old machine.new world.new) }
{
    let elements = machine.all_at_hand(count as usize)?;
    machine.give(new_display(machine.alloc, world, machine.frame.side, kind, elements))
}
