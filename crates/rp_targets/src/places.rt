//! Places: what is stored to, and what is deleted.
#![tactic(auto, using(rp_store::proofs::CallerLemmas::goes_on, rp_engine::proofs::AtHand::at_hand))]

ghost use Rattle.std.specs.Prelude.{◌≡◌, ◌∷◌, ◌+◌, ◌≤◌, map, OnOk, suc};
ghost use Rattle.rp_frame.specs.Top.{top, below};
ghost use Rattle.rp_meaning.specs.Frame.{Run, unbind_name};
ghost use Rattle.rp_meaning.specs.Statements as stmt_forms;
ghost use Rattle.rp_store.specs.Kept.{IsFit};
ghost use Rattle.rp_store.specs.Shape.{KeepsShape};
ghost use Rattle.rp_engine.specs.Does as does;
ghost use Rattle.rp_engine.specs.Law.{Executes, frame_in, rest_of};
ghost use Rattle.rp_engine.specs.Loads as loads;
ghost use Rattle.rp_access.specs.Moment.{state_of};
ghost use Rattle.rp_engine.specs.Ready.{IsReady};
ghost use Rattle.rp_engine.specs.Rest.{did, rest};

use crate::deleting::{delete_attribute, delete_item};
use crate::storing::{store_attribute, store_item};
use rp_base::{Name, Value};
use rp_engine::{Halt, Machine};
use rp_frame::{Control, FlowTask, Task};
use rp_proxy::World;
use rp_tree::Place;

/// Stores a value to places, from left to right (Python Language Reference, Assignment statements).
///
/// # Errors
/// `Memory` where a growth was refused, as all that follow; and as `set_item`.
#[inline(always)]
pub fn store_all<'u>(
    machine: &mut Machine<'u>,
    world: &mut World,
    places: &'u [Place],
    value: Value,
) -> Result<(), Halt>
    requires ready { IsReady machine.old.units.now machine.old.frame machine.old.values world.old }
    requires value { IsFit world.old.store.heap machine.old.frame.side value }
    ensures law { OnOk result (Executes (stmt_forms.store_all (does.places places.now) value)
        machine.old world.old machine.new world.new) }
    ensures ready { IsReady machine.new.units.now machine.new.frame machine.new.values world.new }
    ensures shape { KeepsShape world.old.store.heap world.new.store.heap }
    ensures fewer { world.new.running.meter.left ≤ world.old.running.meter.left }
    ensures less { OnOk result (loads.Lowers (2 + loads.places places.now)
        machine.old world.old machine.new world.new) }
{
    match places {
        [] => machine.go(Control::Next),
        [place] => store(machine, world, place, value),
        [place, rest @ ..] => store_first(machine, world, place, rest, value),
    }
}

/// Stores a value to the first of several places.
#[inline(never)]
fn store_first<'u>(
    machine: &mut Machine<'u>,
    world: &mut World,
    place: &'u Place,
    rest: &'u [Place],
    value: Value,
) -> Result<(), Halt>
    requires ready { IsReady machine.old.units.now machine.old.frame machine.old.values world.old }
    requires value { IsFit world.old.store.heap machine.old.frame.side value }
    ensures law { OnOk result (Executes (stmt_forms.store_all (does.place place.now ∷ does.places rest.now) value)
        machine.old world.old machine.new world.new) }
    ensures ready { IsReady machine.new.units.now machine.new.frame machine.new.values world.new }
    ensures shape { KeepsShape world.old.store.heap world.new.store.heap }
    ensures fewer { world.new.running.meter.left ≤ world.old.running.meter.left }
    ensures less { OnOk result (loads.Lowers (suc (loads.place place.now + loads.places rest.now))
        machine.old world.old machine.new world.new) }
{
    let first = value.copy()?;
    machine.values.push(value)?;
    machine.tasks.push(Task::Flow(FlowTask::Store(rest)))?;
    store(machine, world, place, first)
}

/// Stores the value at hand to the places that are left.
///
/// # Errors
/// As `store_all`.
#[inline(never)]
pub fn store_more<'u>(
    machine: &mut Machine<'u>,
    world: &mut World,
    places: &'u [Place],
) -> Result<(), Halt>
    requires ready { IsReady machine.old.units.now machine.old.frame machine.old.values world.old }
    ensures law { OnOk result ((base : Run) → rest_of base machine.new (state_of world.new) ≡ rest machine.old.tasks
        (did (frame_in base machine.old) (below machine.old.values) (stmt_forms.store_all (does.places places.now)
        (top machine.old.values) (frame_in base machine.old) (state_of world.old)))) }
    ensures ready { IsReady machine.new.units.now machine.new.frame machine.new.values world.new }
    ensures shape { KeepsShape world.old.store.heap world.new.store.heap }
    ensures fewer { world.new.running.meter.left ≤ world.old.running.meter.left }
    ensures less { OnOk result (loads.Lowers (2 + loads.places places.now)
        machine.old world.old machine.new world.new) }
{
    let value = machine.values.pop();
    store_all(machine, world, places, value)
}

/// Stores a value to a place.
#[inline(always)]
pub(crate) fn store<'u>(
    machine: &mut Machine<'u>,
    world: &mut World,
    place: &'u Place,
    value: Value,
) -> Result<(), Halt>
    requires ready { IsReady machine.old.units.now machine.old.frame machine.old.values world.old }
    requires value { IsFit world.old.store.heap machine.old.frame.side value }
    ensures law { OnOk result (Executes (does.place place.now value) machine.old world.old machine.new world.new) }
    ensures ready { IsReady machine.new.units.now machine.new.frame machine.new.values world.new }
    ensures shape { KeepsShape world.old.store.heap world.new.store.heap }
    ensures fewer { world.new.running.meter.left ≤ world.old.running.meter.left }
    ensures less { OnOk result (loads.Lowers (loads.place place.now) machine.old world.old machine.new world.new) }
{
    match place {
        Place::Name(name) => {
            machine.bind(world, name.name, value);
            machine.go(Control::Next)
        }
        Place::Attr(object, name, _) => store_attribute(machine, world, object, name.name, value),
        Place::Item(object, key, _) => store_item(machine, world, object, key, value),
    }
}

/// Deletes places, from left to right (Python Language Reference, The del statement).
///
/// # Errors
/// `Memory`; and as `delete_key`.
#[inline(never)]
pub fn delete_all<'u>(
    machine: &mut Machine<'u>,
    world: &mut World,
    places: &'u [Place],
) -> Result<(), Halt>
    requires ready { IsReady machine.old.units.now machine.old.frame machine.old.values world.old }
    ensures law { OnOk result (Executes (does.deletes places.now) machine.old world.old machine.new world.new) }
    ensures ready { IsReady machine.new.units.now machine.new.frame machine.new.values world.new }
    ensures shape { KeepsShape world.old.store.heap world.new.store.heap }
    ensures fewer { world.new.running.meter.left ≤ world.old.running.meter.left }
    ensures less { OnOk result (loads.Lowers (2 + loads.places places.now)
        machine.old world.old machine.new world.new) }
{
    match places {
        [] => machine.go(Control::Next),
        [place, rest @ ..] => delete_first(machine, world, place, rest),
    }
}

/// Deletes the first of some places.
#[inline(always)]
fn delete_first<'u>(
    machine: &mut Machine<'u>,
    world: &mut World,
    place: &'u Place,
    rest: &'u [Place],
) -> Result<(), Halt>
    requires ready { IsReady machine.old.units.now machine.old.frame machine.old.values world.old }
    ensures law { OnOk result (Executes (stmt_forms.block (does.delete place.now ∷ map does.delete rest.now))
        machine.old world.old machine.new world.new) }
    ensures ready { IsReady machine.new.units.now machine.new.frame machine.new.values world.new }
    ensures shape { KeepsShape world.old.store.heap world.new.store.heap }
    ensures fewer { world.new.running.meter.left ≤ world.old.running.meter.left }
    ensures less { OnOk result (loads.Lowers (suc (loads.place place.now + loads.places rest.now))
        machine.old world.old machine.new world.new) }
{
    machine.tasks.push(Task::Flow(FlowTask::Delete(rest)))?;
    delete(machine, world, place)
}

/// Deletes a place.
#[inline(always)]
fn delete<'u>(machine: &mut Machine<'u>, world: &mut World, place: &'u Place) -> Result<(), Halt>
    requires ready { IsReady machine.old.units.now machine.old.frame machine.old.values world.old }
    ensures law { OnOk result (Executes (does.delete place.now) machine.old world.old machine.new world.new) }
    ensures ready { IsReady machine.new.units.now machine.new.frame machine.new.values world.new }
    ensures shape { KeepsShape world.old.store.heap world.new.store.heap }
    ensures fewer { world.new.running.meter.left ≤ world.old.running.meter.left }
    ensures less { OnOk result (loads.Lowers (loads.place place.now) machine.old world.old machine.new world.new) }
{
    match place {
        Place::Name(name) => delete_name(machine, world, name.name),
        Place::Attr(object, name, _) => delete_attribute(machine, world, object, name.name),
        Place::Item(object, key, _) => delete_item(machine, world, object, key),
    }
}

/// Deletes a name.
#[inline(always)]
fn delete_name<'u>(machine: &mut Machine<'u>, world: &mut World, name: Name) -> Result<(), Halt>
    requires ready { IsReady machine.old.units.now machine.old.frame machine.old.values world.old }
    ensures law { OnOk result (Executes (unbind_name name) machine.old world.old machine.new world.new) }
    ensures ready { IsReady machine.new.units.now machine.new.frame machine.new.values world.new }
    ensures shape { KeepsShape world.old.store.heap world.new.store.heap }
    ensures fewer { world.new.running.meter.left ≤ world.old.running.meter.left }
    ensures less { OnOk result (loads.Lowers 2 machine.old world.old machine.new world.new) }
{
    match machine.unbind(world, name) {
        Ok(()) => machine.go(Control::Next),
        Err(end) => machine.cut_off(end),
    }
}
