//! Unpacking over targets (Python Language Reference, Assignment statements).
#![tactic(auto, using(rp_store::proofs::CallerLemmas::goes_on, rp_engine::proofs::AtHand::at_hand))]

ghost use Rattle.std.specs.Prelude.{◌≡◌, ◌∷◌, ◌+◌, ◌≤◌, OnOk, drop, length, suc};
ghost use Rattle.rp_meaning.specs.Frame.{Run};
ghost use Rattle.rp_meaning.specs.Statements as stmt_forms;
ghost use Rattle.rp_proxy.specs.declared.world.World.{World as TheWorld};
ghost use Rattle.rp_store.specs.Kept.{AreFit, IsFit};
ghost use Rattle.rp_store.specs.Shape.{KeepsShape};
ghost use Rattle.rp_access.specs.Moment.{state_of};
ghost use Rattle.rp_engine.specs.Does as does;
ghost use Rattle.rp_engine.specs.Law.{Executes, frame_in, rest_of};
ghost use Rattle.rp_engine.specs.Loads as loads;
ghost use Rattle.rp_engine.specs.Ready.{IsReady};
ghost use Rattle.rp_engine.specs.Rest.{did, rest};
ghost use Rattle.rp_engine.specs.UnpackingSteps.{each_stored, store_from};

use crate::places::store;
use rp_base::Value;
use rp_engine::{Halt, Machine};
use rp_frame::{Control, FlowTask, StmtTask, Task};
use rp_proxy::World;
use rp_tree::{Expr, Target};

/// An assignment that unpacks its value.
///
/// # Errors
/// `Memory` where a growth was refused; and as `store_all`, as all that follow.
#[inline(never)]
pub fn assign_target<'u>(
    machine: &mut Machine<'u>,
    world: &mut World,
    target: &'u Target,
    value: &'u Expr,
) -> Result<(), Halt>
    requires ready { IsReady machine.old.units.now machine.old.frame machine.old.values world.old }
    ensures law { OnOk result (Executes (stmt_forms.assign (does.expr value.now) (does.target target.now))
        machine.old world.old machine.new world.new) }
    ensures ready { IsReady machine.new.units.now machine.new.frame machine.new.values world.new }
    ensures shape { KeepsShape world.old.store.heap world.new.store.heap }
    ensures fewer { world.new.running.meter.left ≤ world.old.running.meter.left }
{
    match machine.leaf(world, value) {
        Ok(Some(v)) => store_target(machine, world, target, v),
        Ok(None) => machine.wait(
            Task::Stmt(StmtTask::Unpack(target)),
            Control::Expression(value),
        ),
        Err(end) => machine.cut_off(end),
    }
}

/// Assigns a value to a target.
#[inline(always)]
pub fn store_target<'u>(
    machine: &mut Machine<'u>,
    world: &mut World,
    target: &'u Target,
    value: Value,
) -> Result<(), Halt>
    requires ready { IsReady machine.old.units.now machine.old.frame machine.old.values world.old }
    requires value { IsFit world.old.store.heap machine.old.frame.side value }
    ensures law { OnOk result (Executes (does.target target.now value) machine.old world.old machine.new world.new) }
    ensures ready { IsReady machine.new.units.now machine.new.frame machine.new.values world.new }
    ensures shape { KeepsShape world.old.store.heap world.new.store.heap }
    ensures fewer { world.new.running.meter.left ≤ world.old.running.meter.left }
    ensures less { OnOk result (loads.Lowers (loads.target target.now) machine.old world.old machine.new world.new) }
{
    match target {
        Target::Place(place) => store(machine, world, place, value),
        Target::Group(targets) => unpack(machine, world, targets, value),
    }
}

/// Unpacks a value over targets.
#[inline(never)]
fn unpack<'u>(
    machine: &mut Machine<'u>,
    world: &mut World,
    targets: &'u [Target],
    value: Value,
) -> Result<(), Halt>
    requires ready { IsReady machine.old.units.now machine.old.frame machine.old.values world.old }
    requires value { IsFit world.old.store.heap machine.old.frame.side value }
    ensures law { OnOk result (Executes (stmt_forms.unpack (does.targets targets.now) value)
        machine.old world.old machine.new world.new) }
    ensures ready { IsReady machine.new.units.now machine.new.frame machine.new.values world.new }
    ensures shape { KeepsShape world.old.store.heap world.new.store.heap }
    ensures fewer { world.new.running.meter.left ≤ world.old.running.meter.left }
    ensures less { OnOk result (loads.Lowers (3 + loads.targets targets.now)
        machine.old world.old machine.new world.new) }
{
    match rp_access::unpack(
        machine.alloc,
        world,
        machine.frame.side,
        &value,
        targets.len(),
    ) {
        Ok(elements) => unpacked(machine, targets, elements),
        Err(end) => machine.cut_off(end),
    }
}

/// Goes on with as many elements as there are targets.
#[inline(always)]
fn unpacked<'u>(
    machine: &mut Machine<'u>,
    targets: &'u [Target],
    elements: Vec<Value>,
) -> Result<(), Halt>
    requires count { length elements.items ≡ length targets.now }
    ensures law { OnOk result ((w : TheWorld) → Executes (each_stored (does.targets targets.now) elements.items)
        machine.old w machine.new w) }
    ensures ready { (w : TheWorld) → IsReady machine.old.units.now machine.old.frame machine.old.values w
        → AreFit w.store.heap machine.old.frame.side elements.items
        → IsReady machine.new.units.now machine.new.frame machine.new.values w }
    ensures less { OnOk result (loads.IsUnder (3 + loads.targets targets.now) machine.old machine.new) }
{
    machine.values.put(elements)?;
    machine.wait(Task::Flow(FlowTask::StoreEach(targets)), Control::Next)
}

/// Stores the elements at hand to the targets that are left.
#[inline(always)]
pub fn store_each<'u>(
    machine: &mut Machine<'u>,
    world: &mut World,
    targets: &'u [Target],
) -> Result<(), Halt>
    requires ready { IsReady machine.old.units.now machine.old.frame machine.old.values world.old }
    ensures law { OnOk result ((base : Run) → rest_of base machine.new (state_of world.new) ≡ rest machine.old.tasks
        (did (frame_in base machine.old) (drop (length targets.now) machine.old.values)
        (store_from (does.targets targets.now) machine.old.values (frame_in base machine.old) (state_of world.old)))) }
    ensures ready { IsReady machine.new.units.now machine.new.frame machine.new.values world.new }
    ensures shape { KeepsShape world.old.store.heap world.new.store.heap }
    ensures fewer { world.new.running.meter.left ≤ world.old.running.meter.left }
    ensures less { OnOk result (loads.Lowers (2 + loads.targets targets.now)
        machine.old world.old machine.new world.new) }
{
    match targets {
        [] => machine.go(Control::Next),
        [target, behind @ ..] => store_element(machine, world, target, behind),
    }
}

/// Stores the first element at hand.
#[inline(always)]
fn store_element<'u>(
    machine: &mut Machine<'u>,
    world: &mut World,
    target: &'u Target,
    behind: &'u [Target],
) -> Result<(), Halt>
    requires ready { IsReady machine.old.units.now machine.old.frame machine.old.values world.old }
    ensures law { OnOk result ((base : Run) → rest_of base machine.new (state_of world.new) ≡ rest machine.old.tasks
        (did (frame_in base machine.old) (drop (suc (length behind.now)) machine.old.values)
        (store_from (does.target target.now ∷ does.targets behind.now) machine.old.values
        (frame_in base machine.old) (state_of world.old)))) }
    ensures ready { IsReady machine.new.units.now machine.new.frame machine.new.values world.new }
    ensures shape { KeepsShape world.old.store.heap world.new.store.heap }
    ensures fewer { world.new.running.meter.left ≤ world.old.running.meter.left }
    ensures less { OnOk result (loads.Lowers (suc (loads.target target.now + loads.targets behind.now))
        machine.old world.old machine.new world.new) }
{
    let element = machine.at_hand();
    machine.tasks.push(Task::Flow(FlowTask::StoreEach(behind)))?;
    store_target(machine, world, target, element)
}
