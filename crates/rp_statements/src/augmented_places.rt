//! Augmented assignments to attributes and items (Python Language Reference, Augmented assignment statements).
#![tactic(auto, using(rp_store::proofs::CallerLemmas::goes_on))]

ghost use Rattle.std.specs.Prelude.{◌*◌, ◌+◌, ◌∷◌, ◌≡◌, ◌≤◌, [], OnOk};
ghost use Rattle.rp_base.specs.declared.word.TheConstants.{GET_ITEM};
ghost use Rattle.rp_meaning.specs.Frame.{Run};
ghost use Rattle.rp_meaning.specs.State.{State};
ghost use Rattle.rp_meaning.specs.Statements as stmt_forms;
ghost use Rattle.rp_ops.specs.Outcome.{on_value};
ghost use Rattle.rp_proxy.specs.declared.world.World.{World as TheWorld};
ghost use Rattle.rp_store.specs.Kept.{IsFit};
ghost use Rattle.rp_store.specs.Shape.{KeepsShape};
ghost use Rattle.rp_engine.specs.AugmentSteps.{attribute_augmented, attribute_from, item_augmented, item_from, key_from};
ghost use Rattle.rp_engine.specs.Does as does;
ghost use Rattle.rp_engine.specs.Law.{Executes, ResumesStmt, frame_in, rest_of};
ghost use Rattle.rp_engine.specs.Loads as loads;
ghost use Rattle.rp_engine.specs.Ready.{IsReady};
ghost use Rattle.rp_engine.specs.Rest.{did, rest};
ghost use Rattle.rp_engine.specs.SpecialSteps.{from_got, special_called};

use rp_access::{augment, get_attribute, get_item};
use rp_base::word::GET_ITEM;
use rp_base::{BinOp, Name, Value};
use rp_engine::{Halt, Machine};
use rp_frame::{Control, StmtTask, Task};
use rp_proxy::World;
use rp_targets::{set_attribute, set_item};
use rp_tree::Expr;

/// An augmented assignment to an attribute.
#[inline(never)]
pub(crate) fn augment_attribute<'u>(
    machine: &mut Machine<'u>,
    world: &mut World,
    object: &'u Expr,
    name: Name,
    op: BinOp,
    value: &'u Expr,
) -> Result<(), Halt>
    requires ready { IsReady machine.old.units.now machine.old.frame machine.old.values world.old }
    ensures law { OnOk result
        (Executes (stmt_forms.augment_attribute (does.expr object.now) name op (does.expr value.now))
        machine.old world.old machine.new world.new) }
    ensures ready { IsReady machine.new.units.now machine.new.frame machine.new.values world.new }
    ensures shape { KeepsShape world.old.store.heap world.new.store.heap }
    ensures fewer { world.new.running.meter.left ≤ world.old.running.meter.left }
{
    match machine.leaf(world, object) {
        Ok(Some(o)) => augment_read(machine, world, o, name, op, value),
        Ok(None) => machine.wait(
            Task::Stmt(StmtTask::AugmentAttr(name, op, value)),
            Control::Expression(object),
        ),
        Err(end) => machine.cut_off(end),
    }
}

/// Reads the attribute, and goes on with the right side.
///
/// # Errors
/// As `augmented`.
#[inline(always)]
pub fn augment_read<'u>(
    machine: &mut Machine<'u>,
    world: &mut World,
    o: Value,
    name: Name,
    op: BinOp,
    value: &'u Expr,
) -> Result<(), Halt>
    requires ready { IsReady machine.old.units.now machine.old.frame machine.old.values world.old }
    requires o { IsFit world.old.store.heap machine.old.frame.side o }
    ensures law { OnOk result (Executes (attribute_from name op (does.expr value.now) o)
        machine.old world.old machine.new world.new) }
    ensures ready { IsReady machine.new.units.now machine.new.frame machine.new.values world.new }
    ensures shape { KeepsShape world.old.store.heap world.new.store.heap }
    ensures fewer { world.new.running.meter.left ≤ world.old.running.meter.left }
    ensures less { OnOk result (loads.Lowers (2 + loads.inside value.now) machine.old world.old machine.new world.new) }
{
    match get_attribute(machine.alloc, world, machine.frame.side, &o, name) {
        Ok(a) => attribute_by(machine, world, o, name, op, a, value),
        Err(end) => machine.cut_off(end),
    }
}

/// Goes on with the right side.
#[inline(always)]
fn attribute_by<'u>(
    machine: &mut Machine<'u>,
    world: &mut World,
    o: Value,
    name: Name,
    op: BinOp,
    a: Value,
    value: &'u Expr,
) -> Result<(), Halt>
    requires ready { IsReady machine.old.units.now machine.old.frame machine.old.values world.old }
    requires o { IsFit world.old.store.heap machine.old.frame.side o }
    requires a { IsFit world.old.store.heap machine.old.frame.side a }
    ensures law { OnOk result (Executes (stmt_forms.assign (does.expr value.now) (attribute_augmented o name op a))
        machine.old world.old machine.new world.new) }
    ensures ready { IsReady machine.new.units.now machine.new.frame machine.new.values world.new }
    ensures shape { KeepsShape world.old.store.heap world.new.store.heap }
    ensures fewer { world.new.running.meter.left ≤ world.old.running.meter.left }
    ensures less { OnOk result (loads.Lowers (2 + loads.inside value.now) machine.old world.old machine.new world.new) }
{
    match machine.leaf(world, value) {
        Ok(Some(b)) => set_augmented(machine, world, o, name, op, a, b),
        Ok(None) => machine.wait_with_two(
            o,
            a,
            Task::Stmt(StmtTask::AugmentedAttr(name, op)),
            Control::Expression(value),
        ),
        Err(end) => machine.cut_off(end),
    }
}

/// With the right side; the object and the attribute's value are at hand.
///
/// # Errors
/// As `augmented`.
#[inline(always)]
pub fn after_attribute<'u>(
    machine: &mut Machine<'u>,
    world: &mut World,
    name: Name,
    op: BinOp,
    b: Value,
) -> Result<(), Halt>
    requires ready { IsReady machine.old.units.now machine.old.frame machine.old.values world.old }
    requires b { IsFit world.old.store.heap machine.old.frame.side b }
    ensures law { OnOk result (ResumesStmt (StmtTask.AugmentedAttr name op) b
        machine.old world.old machine.new world.new) }
    ensures ready { IsReady machine.new.units.now machine.new.frame machine.new.values world.new }
    ensures shape { KeepsShape world.old.store.heap world.new.store.heap }
    ensures fewer { world.new.running.meter.left ≤ world.old.running.meter.left }
    ensures less { OnOk result (loads.Lowers 2 machine.old world.old machine.new world.new) }
{
    let a = machine.at_hand();
    let o = machine.at_hand();
    set_augmented(machine, world, o, name, op, a, b)
}

/// Sets the attribute to what comes of both values.
#[inline(always)]
fn set_augmented<'u>(
    machine: &mut Machine<'u>,
    world: &mut World,
    o: Value,
    name: Name,
    op: BinOp,
    a: Value,
    b: Value,
) -> Result<(), Halt>
    requires ready { IsReady machine.old.units.now machine.old.frame machine.old.values world.old }
    requires o { IsFit world.old.store.heap machine.old.frame.side o }
    requires a { IsFit world.old.store.heap machine.old.frame.side a }
    requires b { IsFit world.old.store.heap machine.old.frame.side b }
    ensures law { OnOk result (Executes (attribute_augmented o name op a b)
        machine.old world.old machine.new world.new) }
    ensures ready { IsReady machine.new.units.now machine.new.frame machine.new.values world.new }
    ensures shape { KeepsShape world.old.store.heap world.new.store.heap }
    ensures fewer { world.new.running.meter.left ≤ world.old.running.meter.left }
    ensures less { OnOk result (loads.Lowers 2 machine.old world.old machine.new world.new) }
{
    match augment(machine.alloc, world, machine.frame.side, op, &a, &b) {
        Ok(value) => set_attribute(machine, world, o, name, value),
        Err(end) => machine.cut_off(end),
    }
}

/// An augmented assignment to an item.
#[inline(never)]
pub(crate) fn augment_item<'u>(
    machine: &mut Machine<'u>,
    world: &mut World,
    object: &'u Expr,
    key: &'u Expr,
    op: BinOp,
    value: &'u Expr,
) -> Result<(), Halt>
    requires ready { IsReady machine.old.units.now machine.old.frame machine.old.values world.old }
    ensures law { OnOk result (Executes (stmt_forms.augment_item (does.expr object.now) (does.expr key.now) op
        (does.expr value.now)) machine.old world.old machine.new world.new) }
    ensures ready { IsReady machine.new.units.now machine.new.frame machine.new.values world.new }
    ensures shape { KeepsShape world.old.store.heap world.new.store.heap }
    ensures fewer { world.new.running.meter.left ≤ world.old.running.meter.left }
{
    match machine.leaf(world, object) {
        Ok(Some(o)) => augment_key(machine, world, o, key, op, value),
        Ok(None) => machine.wait(
            Task::Stmt(StmtTask::AugmentItem(key, op, value)),
            Control::Expression(object),
        ),
        Err(end) => machine.cut_off(end),
    }
}

/// Goes on with the key.
///
/// # Errors
/// As `augmented`.
#[inline(always)]
pub fn augment_key<'u>(
    machine: &mut Machine<'u>,
    world: &mut World,
    o: Value,
    key: &'u Expr,
    op: BinOp,
    value: &'u Expr,
) -> Result<(), Halt>
    requires ready { IsReady machine.old.units.now machine.old.frame machine.old.values world.old }
    requires o { IsFit world.old.store.heap machine.old.frame.side o }
    ensures law { OnOk result (Executes (item_from (does.expr key.now) op (does.expr value.now) o)
        machine.old world.old machine.new world.new) }
    ensures ready { IsReady machine.new.units.now machine.new.frame machine.new.values world.new }
    ensures shape { KeepsShape world.old.store.heap world.new.store.heap }
    ensures fewer { world.new.running.meter.left ≤ world.old.running.meter.left }
    ensures less { OnOk result (loads.Lowers (2 + 2 * loads.called + loads.inside key.now + loads.inside value.now)
        machine.old world.old machine.new world.new) }
{
    match machine.leaf(world, key) {
        Ok(Some(i)) => augment_read_item(machine, world, o, i, op, value),
        Ok(None) => machine.wait_with(
            o,
            Task::Stmt(StmtTask::AugmentKey(op, value)),
            Control::Expression(key),
        ),
        Err(end) => machine.cut_off(end),
    }
}

/// With the key; the container is at hand.
///
/// # Errors
/// As `augmented`.
#[inline(always)]
pub fn after_augmented_key<'u>(
    machine: &mut Machine<'u>,
    world: &mut World,
    op: BinOp,
    i: Value,
    value: &'u Expr,
) -> Result<(), Halt>
    requires ready { IsReady machine.old.units.now machine.old.frame machine.old.values world.old }
    requires i { IsFit world.old.store.heap machine.old.frame.side i }
    ensures law { OnOk result (ResumesStmt (StmtTask.AugmentKey op value.entry) i
        machine.old world.old machine.new world.new) }
    ensures ready { IsReady machine.new.units.now machine.new.frame machine.new.values world.new }
    ensures shape { KeepsShape world.old.store.heap world.new.store.heap }
    ensures fewer { world.new.running.meter.left ≤ world.old.running.meter.left }
    ensures less { OnOk result (loads.Lowers (2 + 2 * loads.called + loads.inside value.now)
        machine.old world.old machine.new world.new) }
{
    let o = machine.at_hand();
    augment_read_item(machine, world, o, i, op, value)
}

/// Reads the item, and goes on with the right side.
#[inline(always)]
fn augment_read_item<'u>(
    machine: &mut Machine<'u>,
    world: &mut World,
    o: Value,
    i: Value,
    op: BinOp,
    value: &'u Expr,
) -> Result<(), Halt>
    requires ready { IsReady machine.old.units.now machine.old.frame machine.old.values world.old }
    requires o { IsFit world.old.store.heap machine.old.frame.side o }
    requires i { IsFit world.old.store.heap machine.old.frame.side i }
    ensures law { OnOk result (Executes (key_from o op (does.expr value.now) i)
        machine.old world.old machine.new world.new) }
    ensures ready { IsReady machine.new.units.now machine.new.frame machine.new.values world.new }
    ensures shape { KeepsShape world.old.store.heap world.new.store.heap }
    ensures fewer { world.new.running.meter.left ≤ world.old.running.meter.left }
    ensures less { OnOk result (loads.Lowers (2 + 2 * loads.called + loads.inside value.now)
        machine.old world.old machine.new world.new) }
{
    match get_item(machine.alloc, world, machine.frame.side, &o, &i) {
        Ok(Some(a)) => item_by(machine, world, o, i, op, a, value),
        Ok(None) => augment_by_method(machine, o, i, op, value),
        Err(end) => machine.cut_off(end),
    }
}

/// Asks for `__getitem__` of an object whose item is augmented, and goes on with the right side (Python Language
/// Reference, Special method names).
///
/// # Errors
/// `Memory` where a growth was refused.
#[inline(never)]
fn augment_by_method<'u>(
    machine: &mut Machine<'u>,
    o: Value,
    i: Value,
    op: BinOp,
    value: &'u Expr,
) -> Result<(), Halt>
    ensures law { OnOk result ((base : Run) (s : State) → rest_of base machine.new s
        ≡ rest machine.old.tasks (did (frame_in base machine.old) machine.old.values
        (on_value (special_called GET_ITEM o (i ∷ []) (frame_in base machine.old) s)
        (λ a s. from_got o i op (does.expr value.now) a (frame_in base machine.old) s)))) }
    ensures ready { (w : TheWorld) → IsReady machine.old.units.now machine.old.frame machine.old.values w
        → IsFit w.store.heap machine.old.frame.side o → IsFit w.store.heap machine.old.frame.side i
        → IsReady machine.new.units.now machine.new.frame machine.new.values w }
    ensures less { OnOk result (loads.IsUnder (1 + 2 * loads.called + loads.inside value.now) machine.old machine.new) }
{
    machine.hold_copy(&o)?;
    machine.hold_copy(&i)?;
    machine.wait_with_two(
        o,
        i,
        Task::Stmt(StmtTask::AugmentGot(op, value)),
        Control::Special(GET_ITEM, 1),
    )
}

/// Goes on with the right side, once a special method gave the item; the container and the key are at hand.
///
/// # Errors
/// `Memory` where a growth was refused.
#[inline(always)]
pub fn after_got<'u>(
    machine: &mut Machine<'u>,
    world: &mut World,
    op: BinOp,
    a: Value,
    value: &'u Expr,
) -> Result<(), Halt>
    requires ready { IsReady machine.old.units.now machine.old.frame machine.old.values world.old }
    requires a { IsFit world.old.store.heap machine.old.frame.side a }
    ensures law { OnOk result (ResumesStmt (StmtTask.AugmentGot op value.entry) a
        machine.old world.old machine.new world.new) }
    ensures ready { IsReady machine.new.units.now machine.new.frame machine.new.values world.new }
    ensures shape { KeepsShape world.old.store.heap world.new.store.heap }
    ensures fewer { world.new.running.meter.left ≤ world.old.running.meter.left }
    ensures less { OnOk result (loads.Lowers (2 + loads.called + loads.inside value.now)
        machine.old world.old machine.new world.new) }
{
    let i = machine.at_hand();
    let o = machine.at_hand();
    item_by(machine, world, o, i, op, a, value)
}

/// Goes on with the right side.
#[inline(always)]
fn item_by<'u>(
    machine: &mut Machine<'u>,
    world: &mut World,
    o: Value,
    i: Value,
    op: BinOp,
    a: Value,
    value: &'u Expr,
) -> Result<(), Halt>
    requires ready { IsReady machine.old.units.now machine.old.frame machine.old.values world.old }
    requires o { IsFit world.old.store.heap machine.old.frame.side o }
    requires i { IsFit world.old.store.heap machine.old.frame.side i }
    requires a { IsFit world.old.store.heap machine.old.frame.side a }
    ensures law { OnOk result (Executes (stmt_forms.assign (does.expr value.now) (item_augmented o i op a))
        machine.old world.old machine.new world.new) }
    ensures ready { IsReady machine.new.units.now machine.new.frame machine.new.values world.new }
    ensures shape { KeepsShape world.old.store.heap world.new.store.heap }
    ensures fewer { world.new.running.meter.left ≤ world.old.running.meter.left }
    ensures less { OnOk result (loads.Lowers (2 + loads.called + loads.inside value.now)
        machine.old world.old machine.new world.new) }
{
    match machine.leaf(world, value) {
        Ok(Some(b)) => set_augmented_item(machine, world, o, i, op, a, b),
        Ok(None) => machine.wait_with_three(
            o,
            i,
            a,
            Task::Stmt(StmtTask::AugmentedItem(op)),
            Control::Expression(value),
        ),
        Err(end) => machine.cut_off(end),
    }
}

/// With the right side; the container, the key and the item are at hand.
///
/// # Errors
/// As `augmented`.
#[inline(always)]
pub fn after_augmented_item<'u>(
    machine: &mut Machine<'u>,
    world: &mut World,
    op: BinOp,
    b: Value,
) -> Result<(), Halt>
    requires ready { IsReady machine.old.units.now machine.old.frame machine.old.values world.old }
    requires b { IsFit world.old.store.heap machine.old.frame.side b }
    ensures law { OnOk result (ResumesStmt (StmtTask.AugmentedItem op) b machine.old world.old machine.new world.new) }
    ensures ready { IsReady machine.new.units.now machine.new.frame machine.new.values world.new }
    ensures shape { KeepsShape world.old.store.heap world.new.store.heap }
    ensures fewer { world.new.running.meter.left ≤ world.old.running.meter.left }
    ensures less { OnOk result (loads.Lowers (1 + loads.called) machine.old world.old machine.new world.new) }
{
    let a = machine.at_hand();
    let i = machine.at_hand();
    let o = machine.at_hand();
    set_augmented_item(machine, world, o, i, op, a, b)
}

/// Sets the item to what comes of both values.
#[inline(always)]
fn set_augmented_item<'u>(
    machine: &mut Machine<'u>,
    world: &mut World,
    o: Value,
    i: Value,
    op: BinOp,
    a: Value,
    b: Value,
) -> Result<(), Halt>
    requires ready { IsReady machine.old.units.now machine.old.frame machine.old.values world.old }
    requires o { IsFit world.old.store.heap machine.old.frame.side o }
    requires i { IsFit world.old.store.heap machine.old.frame.side i }
    requires a { IsFit world.old.store.heap machine.old.frame.side a }
    requires b { IsFit world.old.store.heap machine.old.frame.side b }
    ensures law { OnOk result (Executes (item_augmented o i op a b) machine.old world.old machine.new world.new) }
    ensures ready { IsReady machine.new.units.now machine.new.frame machine.new.values world.new }
    ensures shape { KeepsShape world.old.store.heap world.new.store.heap }
    ensures fewer { world.new.running.meter.left ≤ world.old.running.meter.left }
    ensures less { OnOk result (loads.Lowers (1 + loads.called) machine.old world.old machine.new world.new) }
{
    match augment(machine.alloc, world, machine.frame.side, op, &a, &b) {
        Ok(value) => set_item(machine, world, o, i, value),
        Err(end) => machine.cut_off(end),
    }
}
