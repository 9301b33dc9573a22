//! Augmented assignment (Python Language Reference, Augmented assignment statements).
#![tactic(auto, using(rp_store::proofs::CallerLemmas::goes_on))]

ghost use Rattle.std.specs.Prelude.{◌≤◌, OnOk};
ghost use Rattle.rp_meaning.specs.Frame.{bind_name};
ghost use Rattle.rp_meaning.specs.Statements as stmt_forms;
ghost use Rattle.rp_store.specs.Kept.{IsFit};
ghost use Rattle.rp_store.specs.Shape.{KeepsShape};
ghost use Rattle.rp_engine.specs.AugmentSteps.{name_augmented};
ghost use Rattle.rp_engine.specs.Does as does;
ghost use Rattle.rp_engine.specs.Law.{Executes, ResumesStmt};
ghost use Rattle.rp_engine.specs.Loads as loads;
ghost use Rattle.rp_engine.specs.Ready.{IsReady};

use crate::augmented_places::{augment_attribute, augment_item};
use rp_access::augment;
use rp_base::{BinOp, Name, Value};
use rp_engine::{Halt, Machine};
use rp_frame::{Control, StmtTask, Task};
use rp_proxy::World;
use rp_tree::{Expr, Place};

/// An augmented assignment.
///
/// # Errors
/// `Memory` where a growth was refused, as all that follow.
#[inline(never)]
pub fn augmented<'u>(
    machine: &mut Machine<'u>,
    world: &mut World,
    place: &'u Place,
    op: BinOp,
    value: &'u Expr,
) -> Result<(), Halt>
    requires ready { IsReady machine.old.units.now machine.old.frame machine.old.values world.old }
    ensures law { OnOk result (Executes (does.augment place.now op (does.expr value.now))
        machine.old world.old machine.new world.new) }
    ensures ready { IsReady machine.new.units.now machine.new.frame machine.new.values world.new }
    ensures shape { KeepsShape world.old.store.heap world.new.store.heap }
    ensures fewer { world.new.running.meter.left ≤ world.old.running.meter.left }
{
    match place {
        Place::Name(name) => augment_name(machine, world, name.name, op, value),
        Place::Attr(object, name, _) => {
            augment_attribute(machine, world, object, name.name, op, value)
        }
        Place::Item(object, key, _) => augment_item(machine, world, object, key, op, value),
    }
}

/// Reads the name, and goes on with the right side.
#[inline(always)]
fn augment_name<'u>(
    machine: &mut Machine<'u>,
    world: &mut World,
    name: Name,
    op: BinOp,
    value: &'u Expr,
) -> Result<(), Halt>
    requires ready { IsReady machine.old.units.now machine.old.frame machine.old.values world.old }
    ensures law { OnOk result (Executes (stmt_forms.augment_name name op (does.expr value.now))
        machine.old world.old machine.new world.new) }
    ensures ready { IsReady machine.new.units.now machine.new.frame machine.new.values world.new }
    ensures shape { KeepsShape world.old.store.heap world.new.store.heap }
    ensures fewer { world.new.running.meter.left ≤ world.old.running.meter.left }
{
    match machine.read(world, name) {
        Ok(a) => augment_by(machine, world, name, op, a, value),
        Err(end) => machine.cut_off(end),
    }
}

/// Goes on with the right side.
#[inline(always)]
fn augment_by<'u>(
    machine: &mut Machine<'u>,
    world: &mut World,
    name: Name,
    op: BinOp,
    a: Value,
    value: &'u Expr,
) -> Result<(), Halt>
    requires ready { IsReady machine.old.units.now machine.old.frame machine.old.values world.old }
    requires a { IsFit world.old.store.heap machine.old.frame.side a }
    ensures law { OnOk result (Executes (stmt_forms.assign (does.expr value.now) (name_augmented name op a))
        machine.old world.old machine.new world.new) }
    ensures ready { IsReady machine.new.units.now machine.new.frame machine.new.values world.new }
    ensures shape { KeepsShape world.old.store.heap world.new.store.heap }
    ensures fewer { world.new.running.meter.left ≤ world.old.running.meter.left }
{
    match machine.leaf(world, value) {
        Ok(Some(b)) => bind_augmented(machine, world, name, op, a, b),
        Ok(None) => machine.wait_with(
            a,
            Task::Stmt(StmtTask::AugmentName(name, op)),
            Control::Expression(value),
        ),
        Err(end) => machine.cut_off(end),
    }
}

/// With the right side; the value of the name is at hand.
///
/// # Errors
/// As `augmented`.
#[inline(always)]
pub fn after_augment<'u>(
    machine: &mut Machine<'u>,
    world: &mut World,
    name: Name,
    op: BinOp,
    b: Value,
) -> Result<(), Halt>
    requires ready { IsReady machine.old.units.now machine.old.frame machine.old.values world.old }
    requires b { IsFit world.old.store.heap machine.old.frame.side b }
    ensures law { OnOk result (ResumesStmt (StmtTask.AugmentName name op) b
        machine.old world.old machine.new world.new) }
    ensures ready { IsReady machine.new.units.now machine.new.frame machine.new.values world.new }
    ensures shape { KeepsShape world.old.store.heap world.new.store.heap }
    ensures fewer { world.new.running.meter.left ≤ world.old.running.meter.left }
    ensures less { OnOk result (loads.Lowers 2 machine.old world.old machine.new world.new) }
{
    let a = machine.at_hand();
    bind_augmented(machine, world, name, op, a, b)
}

/// Binds the name to what comes of both values.
#[inline(always)]
fn bind_augmented<'u>(
    machine: &mut Machine<'u>,
    world: &mut World,
    name: Name,
    op: BinOp,
    a: Value,
    b: Value,
) -> Result<(), Halt>
    requires ready { IsReady machine.old.units.now machine.old.frame machine.old.values world.old }
    requires a { IsFit world.old.store.heap machine.old.frame.side a }
    requires b { IsFit world.old.store.heap machine.old.frame.side b }
    ensures law { OnOk result (Executes (name_augmented name op a b) machine.old world.old machine.new world.new) }
    ensures ready { IsReady machine.new.units.now machine.new.frame machine.new.values world.new }
    ensures shape { KeepsShape world.old.store.heap world.new.store.heap }
    ensures fewer { world.new.running.meter.left ≤ world.old.running.meter.left }
    ensures less { OnOk result (loads.Lowers 2 machine.old world.old machine.new world.new) }
{
    match augment(machine.alloc, world, machine.frame.side, op, &a, &b) {
        Ok(value) => bind_next(machine, world, name, value),
        Err(end) => machine.cut_off(end),
    }
}

/// Binds a name, which ends the statement; no error comes of it.
#[inline(always)]
pub fn bind_next<'u>(
    machine: &mut Machine<'u>,
    world: &mut World,
    name: Name,
    value: Value,
) -> Result<(), Halt>
    requires ready { IsReady machine.old.units.now machine.old.frame machine.old.values world.old }
    requires value { IsFit world.old.store.heap machine.old.frame.side value }
    ensures law { OnOk result (Executes (bind_name name value) machine.old world.old machine.new world.new) }
    ensures ready { IsReady machine.new.units.now machine.new.frame machine.new.values world.new }
    ensures shape { KeepsShape world.old.store.heap world.new.store.heap }
    ensures fewer { world.new.running.meter.left ≤ world.old.running.meter.left }
    ensures less { OnOk result (loads.Lowers 2 machine.old world.old machine.new world.new) }
{
    machine.bind(world, name, value);
    machine.go(Control::Next)
}
