//! Primaries: what trails an atom (Python Language Reference, Primaries).
#![tactic(auto, using(rp_store::proofs::CallerLemmas::goes_on))]

ghost use Rattle.std.specs.Prelude.{◌+◌, ◌≤◌, OnOk};
ghost use Rattle.rp_meaning.specs.Expressions as forms;
ghost use Rattle.rp_proxy.specs.declared.world.World.{World as TheWorld};
ghost use Rattle.rp_store.specs.Kept.{IsFit};
ghost use Rattle.rp_store.specs.Shape.{KeepsShape};
ghost use Rattle.rp_engine.specs.Does as does;
ghost use Rattle.rp_engine.specs.ExpressionSteps.{step_to};
ghost use Rattle.rp_engine.specs.Law.{Evaluates, Resumes};
ghost use Rattle.rp_engine.specs.Loads as loads;
ghost use Rattle.rp_engine.specs.Ready.{IsReady};
ghost use Rattle.rp_engine.specs.TrailerSteps.{next_trailer, with_attribute, with_item};

use crate::arguments::begin_call;
use crate::slices::sliced;
use crate::special_methods::item_by_method;
use rp_access::{get_attribute, get_item, take_step};
use rp_base::{Name, Value};
use rp_engine::{Halt, Machine};
use rp_frame::{Control, ExprTask, Task};
use rp_proxy::World;
use rp_tree::{Expr, Trailer};

/// A primary.
///
/// # Errors
/// `Memory` where a growth was refused, and as `begin_call`, as all that follow.
#[inline(never)]
pub fn primary<'u>(
    machine: &mut Machine<'u>,
    world: &mut World,
    first: &'u Expr,
    rest: &'u [Trailer],
) -> Result<(), Halt>
    requires ready { IsReady machine.old.units.now machine.old.frame machine.old.values world.old }
    ensures law { OnOk result (Evaluates (forms.primary (does.expr first.now) (does.trailers rest.now))
        machine.old world.old machine.new world.new) }
    ensures ready { IsReady machine.new.units.now machine.new.frame machine.new.values world.new }
    ensures shape { KeepsShape world.old.store.heap world.new.store.heap }
    ensures fewer { world.new.running.meter.left ≤ world.old.running.meter.left }
    ensures less { OnOk result (loads.Lowers (2 + loads.inside first.now) machine.old world.old machine.new world.new) }
{
    match machine.leaf(world, first) {
        Ok(Some(value)) => trailers(machine, world, value, rest),
        Ok(None) => machine.wait(
            Task::Expr(ExprTask::Trailers(rest)),
            Control::Expression(first),
        ),
        Err(end) => machine.no_value(end),
    }
}

/// Goes on with the trailers that are left, after the value before them.
#[inline(always)]
pub fn trailers<'u>(
    machine: &mut Machine<'u>,
    world: &mut World,
    value: Value,
    rest: &'u [Trailer],
) -> Result<(), Halt>
    requires ready { IsReady machine.old.units.now machine.old.frame machine.old.values world.old }
    requires value { IsFit world.old.store.heap machine.old.frame.side value }
    ensures law { OnOk result (Evaluates (forms.trailers (does.trailers rest.now) value)
        machine.old world.old machine.new world.new) }
    ensures ready { IsReady machine.new.units.now machine.new.frame machine.new.values world.new }
    ensures shape { KeepsShape world.old.store.heap world.new.store.heap }
    ensures fewer { world.new.running.meter.left ≤ world.old.running.meter.left }
    ensures less { OnOk result (loads.Lowers 2 machine.old world.old machine.new world.new) }
{
    match rest {
        [] => machine.back(value),
        [trailer, rest @ ..] => crate::primaries::trailer(machine, world, value, trailer, rest),
    }
}

/// Goes on with the next trailer.
#[inline(always)]
fn trailer<'u>(
    machine: &mut Machine<'u>,
    world: &mut World,
    value: Value,
    trailer: &'u Trailer,
    rest: &'u [Trailer],
) -> Result<(), Halt>
    requires ready { IsReady machine.old.units.now machine.old.frame machine.old.values world.old }
    requires value { IsFit world.old.store.heap machine.old.frame.side value }
    ensures law { OnOk result (Evaluates (next_trailer (does.trailer trailer.now) (does.trailers rest.now) value)
        machine.old world.old machine.new world.new) }
    ensures ready { IsReady machine.new.units.now machine.new.frame machine.new.values world.new }
    ensures shape { KeepsShape world.old.store.heap world.new.store.heap }
    ensures fewer { world.new.running.meter.left ≤ world.old.running.meter.left }
    ensures less { OnOk result (loads.Lowers 0 machine.old world.old machine.new world.new) }
{
    match trailer {
        Trailer::Attr(name, _) => attribute(machine, world, value, name.name, rest),
        Trailer::Item(key, _) => item(machine, world, value, key, rest),
        Trailer::Call(args, _) => begin_call(machine, world, value, args, rest),
        Trailer::Slice(slice, _) => sliced(machine, world, value, slice, rest),
    }
}

/// Goes on with an attribute, with its step.
#[inline(always)]
#[tactic(auto, using(rp_store::proofs::CallerLemmas::goes_on, rp_engine::proofs::Worlds::shape_stored))]
fn attribute<'u>(
    machine: &mut Machine<'u>,
    world: &mut World,
    value: Value,
    name: Name,
    rest: &'u [Trailer],
) -> Result<(), Halt>
    requires ready { IsReady machine.old.units.now machine.old.frame machine.old.values world.old }
    requires value { IsFit world.old.store.heap machine.old.frame.side value }
    ensures law { OnOk result (Evaluates (next_trailer (forms.attribute name) (does.trailers rest.now) value)
        machine.old world.old machine.new world.new) }
    ensures ready { IsReady machine.new.units.now machine.new.frame machine.new.values world.new }
    ensures shape { KeepsShape world.old.store.heap world.new.store.heap }
    ensures fewer { world.new.running.meter.left ≤ world.old.running.meter.left }
    ensures less { OnOk result (loads.Lowers 0 machine.old world.old machine.new world.new) }
{
    match take_step(world) {
        Ok(()) => attribute_of(machine, world, value, name, rest),
        Err(end) => machine.no_value(end),
    }
}

#[inline(always)]
fn attribute_of<'u>(
    machine: &mut Machine<'u>,
    world: &mut World,
    value: Value,
    name: Name,
    rest: &'u [Trailer],
) -> Result<(), Halt>
    requires ready { IsReady machine.old.units.now machine.old.frame machine.old.values world.old }
    requires value { IsFit world.old.store.heap machine.old.frame.side value }
    ensures law { OnOk result (Evaluates (with_attribute name (does.trailers rest.now) value)
        machine.old world.old machine.new world.new) }
    ensures ready { IsReady machine.new.units.now machine.new.frame machine.new.values world.new }
    ensures shape { KeepsShape world.old.store.heap world.new.store.heap }
    ensures fewer { world.new.running.meter.left ≤ world.old.running.meter.left }
{
    match get_attribute(machine.alloc, world, machine.frame.side, &value, name) {
        Ok(value) => more_trailers(machine, value, rest),
        Err(end) => machine.no_value(end),
    }
}

/// Goes on with an item, with its step.
#[inline(always)]
fn item<'u>(
    machine: &mut Machine<'u>,
    world: &mut World,
    value: Value,
    key: &'u Expr,
    rest: &'u [Trailer],
) -> Result<(), Halt>
    requires ready { IsReady machine.old.units.now machine.old.frame machine.old.values world.old }
    requires value { IsFit world.old.store.heap machine.old.frame.side value }
    ensures law { OnOk result (Evaluates (step_to (does.expr key.now) (with_item value (does.trailers rest.now)))
        machine.old world.old machine.new world.new) }
    ensures ready { IsReady machine.new.units.now machine.new.frame machine.new.values world.new }
    ensures shape { KeepsShape world.old.store.heap world.new.store.heap }
    ensures fewer { world.new.running.meter.left ≤ world.old.running.meter.left }
    ensures less { OnOk result (loads.Lowers 0 machine.old world.old machine.new world.new) }
{
    match machine.next_leaf(world, key) {
        Ok(Some(key)) => item_at(machine, world, value, key, rest),
        Ok(None) => machine.wait_with(
            value,
            Task::Expr(ExprTask::Key(rest)),
            Control::Expression(key),
        ),
        Err(end) => machine.no_value(end),
    }
}

/// Goes on with the item of a container at a key.
#[inline(always)]
fn item_at<'u>(
    machine: &mut Machine<'u>,
    world: &mut World,
    value: Value,
    key: Value,
    rest: &'u [Trailer],
) -> Result<(), Halt>
    requires ready { IsReady machine.old.units.now machine.old.frame machine.old.values world.old }
    requires value { IsFit world.old.store.heap machine.old.frame.side value }
    requires key { IsFit world.old.store.heap machine.old.frame.side key }
    ensures law { OnOk result (Evaluates (with_item value (does.trailers rest.now) key)
        machine.old world.old machine.new world.new) }
    ensures ready { IsReady machine.new.units.now machine.new.frame machine.new.values world.new }
    ensures shape { KeepsShape world.old.store.heap world.new.store.heap }
    ensures fewer { world.new.running.meter.left ≤ world.old.running.meter.left }
    ensures less { OnOk result (loads.Lowers (1 + loads.called) machine.old world.old machine.new world.new) }
{
    match get_item(machine.alloc, world, machine.frame.side, &value, &key) {
        Ok(Some(value)) => more_trailers(machine, value, rest),
        Ok(None) => item_by_method(machine, value, key, rest),
        Err(end) => machine.no_value(end),
    }
}

/// Goes on with the trailers that are left, where there are any.
#[inline(always)]
pub(crate) fn more_trailers<'u>(
    machine: &mut Machine<'u>,
    value: Value,
    rest: &'u [Trailer],
) -> Result<(), Halt>
    ensures law { OnOk result ((w : TheWorld) → Evaluates (forms.trailers (does.trailers rest.now) value)
        machine.old w machine.new w) }
    ensures ready { (w : TheWorld) → IsReady machine.old.units.now machine.old.frame machine.old.values w
        → IsFit w.store.heap machine.old.frame.side value
        → IsReady machine.new.units.now machine.new.frame machine.new.values w }
    ensures less { OnOk result (loads.IsUnder 3 machine.old machine.new) }
{
    match rest {
        [] => machine.back(value),
        _ => machine.wait_with(value, Task::Expr(ExprTask::Trailers(rest)), Control::Value),
    }
}

/// With the key of an item; the container is at hand.
#[inline(always)]
pub fn after_key<'u>(
    machine: &mut Machine<'u>,
    world: &mut World,
    key: Value,
    rest: &'u [Trailer],
) -> Result<(), Halt>
    requires ready { IsReady machine.old.units.now machine.old.frame machine.old.values world.old }
    requires key { IsFit world.old.store.heap machine.old.frame.side key }
    ensures law { OnOk result (Resumes (ExprTask.Key rest.entry) key machine.old world.old machine.new world.new) }
    ensures ready { IsReady machine.new.units.now machine.new.frame machine.new.values world.new }
    ensures shape { KeepsShape world.old.store.heap world.new.store.heap }
    ensures fewer { world.new.running.meter.left ≤ world.old.running.meter.left }
    ensures less { OnOk result (loads.Lowers (1 + loads.called) machine.old world.old machine.new world.new) }
{
    let value = machine.at_hand();
    item_at(machine, world, value, key, rest)
}
