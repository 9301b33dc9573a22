//! Attributes and items as places that are stored to (Python Language Reference, Assignment statements).
#![tactic(auto, using(rp_store::proofs::CallerLemmas::goes_on))]

ghost use Rattle.std.specs.Prelude.{◌+◌, ◌≤◌, OnOk};
ghost use Rattle.rp_meaning.specs.Access as access;
ghost use Rattle.rp_meaning.specs.Statements as stmt_forms;
ghost use Rattle.rp_proxy.specs.declared.world.World.{World as TheWorld};
ghost use Rattle.rp_store.specs.Kept.{IsFit};
ghost use Rattle.rp_store.specs.Shape.{KeepsShape};
ghost use Rattle.rp_engine.specs.Does as does;
ghost use Rattle.rp_engine.specs.Law.{Executes, ResumesStmt};
ghost use Rattle.rp_engine.specs.Loads as loads;
ghost use Rattle.rp_engine.specs.Ready.{IsReady};

use crate::special_methods::store_by_method;
use rp_base::{Name, Value};
use rp_engine::{Halt, Machine};
use rp_frame::{Control, StmtTask, Task};
use rp_proxy::World;
use rp_tree::Expr;

/// Stores a value to an attribute of what an expression gives.
///
/// # Errors
/// `Memory` where a growth was refused, as all that follow.
#[inline(never)]
pub(crate) fn store_attribute<'u>(
    machine: &mut Machine<'u>,
    world: &mut World,
    object: &'u Expr,
    name: Name,
    value: Value,
) -> Result<(), Halt>
    requires ready { IsReady machine.old.units.now machine.old.frame machine.old.values world.old }
    requires value { IsFit world.old.store.heap machine.old.frame.side value }
    ensures law { OnOk result (Executes (stmt_forms.store_attribute (does.expr object.now) name value)
        machine.old world.old machine.new world.new) }
    ensures ready { IsReady machine.new.units.now machine.new.frame machine.new.values world.new }
    ensures shape { KeepsShape world.old.store.heap world.new.store.heap }
    ensures fewer { world.new.running.meter.left ≤ world.old.running.meter.left }
    ensures less { OnOk result (loads.Lowers (2 + loads.inside object.now)
        machine.old world.old machine.new world.new) }
{
    match machine.leaf(world, object) {
        Ok(Some(o)) => set_attribute(machine, world, o, name, value),
        Ok(None) => machine.wait_with(
            value,
            Task::Stmt(StmtTask::StoreAttr(name)),
            Control::Expression(object),
        ),
        Err(end) => machine.cut_off(end),
    }
}

/// Sets the attribute of an object that was evaluated to the value at hand.
#[inline(always)]
pub fn after_object<'u>(
    machine: &mut Machine<'u>,
    world: &mut World,
    name: Name,
    o: Value,
) -> Result<(), Halt>
    requires ready { IsReady machine.old.units.now machine.old.frame machine.old.values world.old }
    requires o { IsFit world.old.store.heap machine.old.frame.side o }
    ensures law { OnOk result (ResumesStmt (StmtTask.StoreAttr name) o machine.old world.old machine.new world.new) }
    ensures ready { IsReady machine.new.units.now machine.new.frame machine.new.values world.new }
    ensures shape { KeepsShape world.old.store.heap world.new.store.heap }
    ensures fewer { world.new.running.meter.left ≤ world.old.running.meter.left }
    ensures less { OnOk result (loads.Lowers 2 machine.old world.old machine.new world.new) }
{
    let value = machine.at_hand();
    set_attribute(machine, world, o, name, value)
}

/// Sets an attribute of an object, and goes on behind the statement; an exception cuts it off.
#[inline(always)]
pub fn set_attribute<'u>(
    machine: &mut Machine<'u>,
    world: &mut World,
    o: Value,
    name: Name,
    value: Value,
) -> Result<(), Halt>
    requires ready { IsReady machine.old.units.now machine.old.frame machine.old.values world.old }
    requires o { IsFit world.old.store.heap machine.old.frame.side o }
    requires value { IsFit world.old.store.heap machine.old.frame.side value }
    ensures law { OnOk result (Executes (access.set_attribute o name value)
        machine.old world.old machine.new world.new) }
    ensures ready { IsReady machine.new.units.now machine.new.frame machine.new.values world.new }
    ensures shape { KeepsShape world.old.store.heap world.new.store.heap }
    ensures fewer { world.new.running.meter.left ≤ world.old.running.meter.left }
    ensures less { OnOk result (loads.Lowers 2 machine.old world.old machine.new world.new) }
{
    match rp_access::set_attribute(machine.alloc, world, &o, name, value) {
        Ok(()) => machine.go(Control::Next),
        Err(end) => machine.cut_off(end),
    }
}

/// Stores a value to an item of what an expression gives.
///
/// # Errors
/// As `set_item`.
#[inline(never)]
pub(crate) fn store_item<'u>(
    machine: &mut Machine<'u>,
    world: &mut World,
    object: &'u Expr,
    key: &'u Expr,
    value: Value,
) -> Result<(), Halt>
    requires ready { IsReady machine.old.units.now machine.old.frame machine.old.values world.old }
    requires value { IsFit world.old.store.heap machine.old.frame.side value }
    ensures law { OnOk result (Executes (stmt_forms.store_item (does.expr object.now) (does.expr key.now) value)
        machine.old world.old machine.new world.new) }
    ensures ready { IsReady machine.new.units.now machine.new.frame machine.new.values world.new }
    ensures shape { KeepsShape world.old.store.heap world.new.store.heap }
    ensures fewer { world.new.running.meter.left ≤ world.old.running.meter.left }
    ensures less { OnOk result (loads.Lowers (2 + loads.called + loads.inside object.now + loads.inside key.now)
        machine.old world.old machine.new world.new) }
{
    match machine.leaf(world, object) {
        Ok(Some(o)) => store_key(machine, world, o, key, value),
        Ok(None) => machine.wait_with(
            value,
            Task::Stmt(StmtTask::StoreItem(key)),
            Control::Expression(object),
        ),
        Err(end) => machine.cut_off(end),
    }
}

/// Goes on with the key of an item of a container that was evaluated; the value to store is at hand.
///
/// # Errors
/// As `set_item`.
#[inline(always)]
pub fn after_container<'u>(
    machine: &mut Machine<'u>,
    world: &mut World,
    key: &'u Expr,
    o: Value,
) -> Result<(), Halt>
    requires ready { IsReady machine.old.units.now machine.old.frame machine.old.values world.old }
    requires o { IsFit world.old.store.heap machine.old.frame.side o }
    ensures law { OnOk result (ResumesStmt (StmtTask.StoreItem key.entry) o
        machine.old world.old machine.new world.new) }
    ensures ready { IsReady machine.new.units.now machine.new.frame machine.new.values world.new }
    ensures shape { KeepsShape world.old.store.heap world.new.store.heap }
    ensures fewer { world.new.running.meter.left ≤ world.old.running.meter.left }
    ensures less { OnOk result (loads.Lowers (2 + loads.called + loads.inside key.now)
        machine.old world.old machine.new world.new) }
{
    let value = machine.at_hand();
    store_key(machine, world, o, key, value)
}

/// Goes on with the key of an item that is stored to.
#[inline(always)]
fn store_key<'u>(
    machine: &mut Machine<'u>,
    world: &mut World,
    o: Value,
    key: &'u Expr,
    value: Value,
) -> Result<(), Halt>
    requires ready { IsReady machine.old.units.now machine.old.frame machine.old.values world.old }
    requires o { IsFit world.old.store.heap machine.old.frame.side o }
    requires value { IsFit world.old.store.heap machine.old.frame.side value }
    ensures law { OnOk result (Executes (stmt_forms.assign (does.expr key.now) (λ i. access.set_item o i value))
        machine.old world.old machine.new world.new) }
    ensures ready { IsReady machine.new.units.now machine.new.frame machine.new.values world.new }
    ensures shape { KeepsShape world.old.store.heap world.new.store.heap }
    ensures fewer { world.new.running.meter.left ≤ world.old.running.meter.left }
    ensures less { OnOk result (loads.Lowers (2 + loads.called + loads.inside key.now)
        machine.old world.old machine.new world.new) }
{
    match machine.leaf(world, key) {
        Ok(Some(i)) => set_item(machine, world, o, i, value),
        Ok(None) => wait_for_key(machine, o, key, value),
        Err(end) => machine.cut_off(end),
    }
}

/// Waits for the key, with the container and the value at hand.
#[inline(always)]
fn wait_for_key<'u>(
    machine: &mut Machine<'u>,
    o: Value,
    key: &'u Expr,
    value: Value,
) -> Result<(), Halt>
    ensures law { OnOk result ((w : TheWorld)
        → Executes (stmt_forms.assign (does.expr key.now) (λ i. access.set_item o i value))
        machine.old w machine.new w) }
    ensures ready { (w : TheWorld) → IsReady machine.old.units.now machine.old.frame machine.old.values w
        → IsFit w.store.heap machine.old.frame.side o
        → IsFit w.store.heap machine.old.frame.side value
        → IsReady machine.new.units.now machine.new.frame machine.new.values w }
    ensures less { OnOk result (loads.IsUnder (2 + loads.called + loads.inside key.now) machine.old machine.new) }
{
    machine.values.push(value)?;
    machine.wait_with(o, Task::Stmt(StmtTask::StoreKey), Control::Expression(key))
}

/// Sets the item under a key that was evaluated; the container and the value are at hand.
///
/// # Errors
/// As `set_item`.
#[inline(always)]
pub fn after_store_key<'u>(
    machine: &mut Machine<'u>,
    world: &mut World,
    i: Value,
) -> Result<(), Halt>
    requires ready { IsReady machine.old.units.now machine.old.frame machine.old.values world.old }
    requires i { IsFit world.old.store.heap machine.old.frame.side i }
    ensures law { OnOk result (ResumesStmt StmtTask.StoreKey i machine.old world.old machine.new world.new) }
    ensures ready { IsReady machine.new.units.now machine.new.frame machine.new.values world.new }
    ensures shape { KeepsShape world.old.store.heap world.new.store.heap }
    ensures fewer { world.new.running.meter.left ≤ world.old.running.meter.left }
    ensures less { OnOk result (loads.Lowers (1 + loads.called) machine.old world.old machine.new world.new) }
{
    let o = machine.at_hand();
    let value = machine.at_hand();
    set_item(machine, world, o, i, value)
}

/// Sets an item of an object, and goes on behind the statement; an exception cuts it off.
///
/// # Errors
/// `Memory` where a growth was refused.
#[inline(always)]
pub fn set_item<'u>(
    machine: &mut Machine<'u>,
    world: &mut World,
    o: Value,
    i: Value,
    value: Value,
) -> Result<(), Halt>
    requires ready { IsReady machine.old.units.now machine.old.frame machine.old.values world.old }
    requires o { IsFit world.old.store.heap machine.old.frame.side o }
    requires i { IsFit world.old.store.heap machine.old.frame.side i }
    requires value { IsFit world.old.store.heap machine.old.frame.side value }
    ensures law { OnOk result (Executes (access.set_item o i value) machine.old world.old machine.new world.new) }
    ensures ready { IsReady machine.new.units.now machine.new.frame machine.new.values world.new }
    ensures shape { KeepsShape world.old.store.heap world.new.store.heap }
    ensures fewer { world.new.running.meter.left ≤ world.old.running.meter.left }
    ensures less { OnOk result (loads.Lowers (1 + loads.called) machine.old world.old machine.new world.new) }
{
    match rp_access::set_item(machine.alloc, world, &o, &i, value) {
        Ok(None) => machine.go(Control::Next),
        Ok(Some(value)) => store_by_method(machine, o, i, value),
        Err(end) => machine.cut_off(end),
    }
}
