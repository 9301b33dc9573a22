//! Attributes and items as places that are deleted (Python Language Reference, The del statement).
#![tactic(auto, using(rp_store::proofs::CallerLemmas::goes_on))]

ghost use Rattle.std.specs.Prelude.{◌+◌, ◌≤◌, OnOk};
ghost use Rattle.rp_meaning.specs.Access as access;
ghost use Rattle.rp_meaning.specs.Statements as stmt_forms;
ghost use Rattle.rp_store.specs.Kept.{IsFit};
ghost use Rattle.rp_store.specs.Shape.{KeepsShape};
ghost use Rattle.rp_engine.specs.Does as does;
ghost use Rattle.rp_engine.specs.Law.{Executes, ResumesStmt};
ghost use Rattle.rp_engine.specs.Loads as loads;
ghost use Rattle.rp_engine.specs.Ready.{IsReady};

use crate::special_methods::delete_by_method;
use rp_access::Change;
use rp_base::{Name, Value};
use rp_engine::{Halt, Machine};
use rp_frame::{Control, StmtTask, Task};
use rp_proxy::World;
use rp_tree::Expr;

/// Deletes an attribute of what an expression gives.
///
/// # Errors
/// `Memory` where a growth was refused, as all that follow.
#[inline(never)]
pub(crate) fn delete_attribute<'u>(
    machine: &mut Machine<'u>,
    world: &mut World,
    object: &'u Expr,
    name: Name,
) -> Result<(), Halt>
    requires ready { IsReady machine.old.units.now machine.old.frame machine.old.values world.old }
    ensures law { OnOk result (Executes (stmt_forms.delete_attribute (does.expr object.now) name)
        machine.old world.old machine.new world.new) }
    ensures ready { IsReady machine.new.units.now machine.new.frame machine.new.values world.new }
    ensures shape { KeepsShape world.old.store.heap world.new.store.heap }
    ensures fewer { world.new.running.meter.left ≤ world.old.running.meter.left }
    ensures less { OnOk result (loads.Lowers (2 + loads.inside object.now)
        machine.old world.old machine.new world.new) }
{
    match machine.leaf(world, object) {
        Ok(Some(o)) => del_attribute(machine, world, o, name),
        Ok(None) => machine.wait(
            Task::Stmt(StmtTask::DeleteAttr(name)),
            Control::Expression(object),
        ),
        Err(end) => machine.cut_off(end),
    }
}

/// Takes an attribute of an object away, and goes on behind the statement; an exception cuts it off.
#[inline(always)]
pub fn del_attribute<'u>(
    machine: &mut Machine<'u>,
    world: &mut World,
    o: Value,
    name: Name,
) -> Result<(), Halt>
    requires ready { IsReady machine.old.units.now machine.old.frame machine.old.values world.old }
    requires o { IsFit world.old.store.heap machine.old.frame.side o }
    ensures law { OnOk result (Executes (access.del_attribute o name) machine.old world.old machine.new world.new) }
    ensures ready { IsReady machine.new.units.now machine.new.frame machine.new.values world.new }
    ensures shape { KeepsShape world.old.store.heap world.new.store.heap }
    ensures fewer { world.new.running.meter.left ≤ world.old.running.meter.left }
    ensures less { OnOk result (loads.Lowers 2 machine.old world.old machine.new world.new) }
{
    match rp_access::del_attribute(machine.alloc, world, &o, name) {
        Ok(()) => machine.go(Control::Next),
        Err(end) => machine.cut_off(end),
    }
}

/// Deletes an item of what an expression gives.
///
/// # Errors
/// As `delete_key`.
#[inline(never)]
pub(crate) fn delete_item<'u>(
    machine: &mut Machine<'u>,
    world: &mut World,
    object: &'u Expr,
    key: &'u Expr,
) -> Result<(), Halt>
    requires ready { IsReady machine.old.units.now machine.old.frame machine.old.values world.old }
    ensures law { OnOk result (Executes (stmt_forms.delete_item (does.expr object.now) (does.expr key.now))
        machine.old world.old machine.new world.new) }
    ensures ready { IsReady machine.new.units.now machine.new.frame machine.new.values world.new }
    ensures shape { KeepsShape world.old.store.heap world.new.store.heap }
    ensures fewer { world.new.running.meter.left ≤ world.old.running.meter.left }
    ensures less { OnOk result (loads.Lowers (2 + loads.called + loads.inside object.now + loads.inside key.now)
        machine.old world.old machine.new world.new) }
{
    match machine.leaf(world, object) {
        Ok(Some(o)) => delete_key(machine, world, o, key),
        Ok(None) => machine.wait(
            Task::Stmt(StmtTask::DeleteItem(key)),
            Control::Expression(object),
        ),
        Err(end) => machine.cut_off(end),
    }
}

/// Goes on with the key of an item that is deleted, of a container that was evaluated.
///
/// # Errors
/// `Memory` where a growth was refused.
#[inline(always)]
pub fn delete_key<'u>(
    machine: &mut Machine<'u>,
    world: &mut World,
    o: Value,
    key: &'u Expr,
) -> Result<(), Halt>
    requires ready { IsReady machine.old.units.now machine.old.frame machine.old.values world.old }
    requires o { IsFit world.old.store.heap machine.old.frame.side o }
    ensures law { OnOk result (Executes (stmt_forms.assign (does.expr key.now) (access.del_item o))
        machine.old world.old machine.new world.new) }
    ensures ready { IsReady machine.new.units.now machine.new.frame machine.new.values world.new }
    ensures shape { KeepsShape world.old.store.heap world.new.store.heap }
    ensures fewer { world.new.running.meter.left ≤ world.old.running.meter.left }
    ensures less { OnOk result (loads.Lowers (2 + loads.called + loads.inside key.now)
        machine.old world.old machine.new world.new) }
{
    match machine.leaf(world, key) {
        Ok(Some(i)) => del_item(machine, world, o, i),
        Ok(None) => machine.wait_with(o, Task::Stmt(StmtTask::DeleteKey), Control::Expression(key)),
        Err(end) => machine.cut_off(end),
    }
}

/// Deletes the item under a key that was evaluated; the container is at hand.
///
/// # Errors
/// As `delete_key`.
#[inline(always)]
pub fn after_deleted_key<'u>(
    machine: &mut Machine<'u>,
    world: &mut World,
    i: Value,
) -> Result<(), Halt>
    requires ready { IsReady machine.old.units.now machine.old.frame machine.old.values world.old }
    requires i { IsFit world.old.store.heap machine.old.frame.side i }
    ensures law { OnOk result (ResumesStmt StmtTask.DeleteKey i machine.old world.old machine.new world.new) }
    ensures ready { IsReady machine.new.units.now machine.new.frame machine.new.values world.new }
    ensures shape { KeepsShape world.old.store.heap world.new.store.heap }
    ensures fewer { world.new.running.meter.left ≤ world.old.running.meter.left }
    ensures less { OnOk result (loads.Lowers (1 + loads.called) machine.old world.old machine.new world.new) }
{
    let o = machine.at_hand();
    del_item(machine, world, o, i)
}

/// Takes an item of an object away, and goes on behind the statement; an exception cuts it off.
///
/// # Errors
/// As `delete_key`.
#[inline(always)]
fn del_item<'u>(
    machine: &mut Machine<'u>,
    world: &mut World,
    o: Value,
    i: Value,
) -> Result<(), Halt>
    requires ready { IsReady machine.old.units.now machine.old.frame machine.old.values world.old }
    requires o { IsFit world.old.store.heap machine.old.frame.side o }
    requires i { IsFit world.old.store.heap machine.old.frame.side i }
    ensures law { OnOk result (Executes (access.del_item o i) machine.old world.old machine.new world.new) }
    ensures ready { IsReady machine.new.units.now machine.new.frame machine.new.values world.new }
    ensures shape { KeepsShape world.old.store.heap world.new.store.heap }
    ensures fewer { world.new.running.meter.left ≤ world.old.running.meter.left }
    ensures less { OnOk result (loads.Lowers (1 + loads.called) machine.old world.old machine.new world.new) }
{
    match rp_access::del_item(machine.alloc, world, &o, &i) {
        Ok(Change::Done) => machine.go(Control::Next),
        Ok(Change::Special) => delete_by_method(machine, o, i),
        Err(end) => machine.cut_off(end),
    }
}
