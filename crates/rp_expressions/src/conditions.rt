//! What goes on by the truth of a value (Python Language Reference, Boolean operations, Conditional expressions).
#![tactic(auto, using(rp_store::proofs::CallerLemmas::goes_on))]

ghost use Rattle.std.specs.Prelude.{◌+◌, ◌≤◌, OnOk};
ghost use Rattle.rp_meaning.specs.Expressions as forms;
ghost use Rattle.rp_proxy.specs.declared.world.World.{World as TheWorld};
ghost use Rattle.rp_store.specs.Kept.{IsFit};
ghost use Rattle.rp_store.specs.Shape.{KeepsShape};
ghost use Rattle.rp_engine.specs.Does as does;
ghost use Rattle.rp_engine.specs.ExpressionSteps.{either, not_of, one_of};
ghost use Rattle.rp_engine.specs.Law.{Evaluates};
ghost use Rattle.rp_engine.specs.Loads as loads;
ghost use Rattle.rp_engine.specs.Ready.{IsReady};

use rp_access::truth;
use rp_base::{Rock, Value};
use rp_engine::{Halt, Machine};
use rp_frame::{Control, ExprTask, Task};
use rp_proxy::World;
use rp_tree::Expr;

/// `not x`.
///
/// # Errors
/// `Memory` where a growth was refused, as all that follow.
#[inline(never)]
pub fn negation<'u>(machine: &mut Machine<'u>, world: &mut World, x: &'u Expr) -> Result<(), Halt>
    requires ready { IsReady machine.old.units.now machine.old.frame machine.old.values world.old }
    ensures law { OnOk result (Evaluates (forms.negated (does.expr x.now))
        machine.old world.old machine.new world.new) }
    ensures ready { IsReady machine.new.units.now machine.new.frame machine.new.values world.new }
    ensures shape { KeepsShape world.old.store.heap world.new.store.heap }
    ensures fewer { world.new.running.meter.left ≤ world.old.running.meter.left }
    ensures less { OnOk result (loads.Lowers 0 machine.old world.old machine.new world.new) }
{
    match machine.next_leaf(world, x) {
        Ok(Some(value)) => not_of(machine, world, value),
        Ok(None) => machine.wait(Task::Expr(ExprTask::Not), Control::Expression(x)),
        Err(end) => machine.no_value(end),
    }
}

/// Gives what is not the truth of a value.
#[inline(always)]
pub fn not_of<'u>(machine: &mut Machine<'u>, world: &mut World, value: Value) -> Result<(), Halt>
    requires ready { IsReady machine.old.units.now machine.old.frame machine.old.values world.old }
    requires value { IsFit world.old.store.heap machine.old.frame.side value }
    ensures law { OnOk result (Evaluates (not_of value) machine.old world.old machine.new world.new) }
    ensures ready { IsReady machine.new.units.now machine.new.frame machine.new.values world.new }
    ensures shape { KeepsShape world.old.store.heap world.new.store.heap }
    ensures fewer { world.new.running.meter.left ≤ world.old.running.meter.left }
    ensures less { OnOk result (loads.Lowers 2 machine.old world.old machine.new world.new) }
{
    match truth(machine.alloc, world, &value) {
        Ok(truth) => machine.back(Value::Rock(Rock::Truth(!truth))),
        Err(end) => machine.no_value(end),
    }
}

/// A conditional expression.
#[inline(never)]
pub fn conditional<'u>(
    machine: &mut Machine<'u>,
    world: &mut World,
    test: &'u Expr,
    this: &'u Expr,
    other: &'u Expr,
) -> Result<(), Halt>
    requires ready { IsReady machine.old.units.now machine.old.frame machine.old.values world.old }
    ensures law { OnOk result
        (Evaluates (forms.cond (does.expr test.now) (does.expr this.now) (does.expr other.now))
        machine.old world.old machine.new world.new) }
    ensures ready { IsReady machine.new.units.now machine.new.frame machine.new.values world.new }
    ensures shape { KeepsShape world.old.store.heap world.new.store.heap }
    ensures fewer { world.new.running.meter.left ≤ world.old.running.meter.left }
    ensures less { OnOk result (loads.Lowers 0 machine.old world.old machine.new world.new) }
{
    match machine.next_leaf(world, test) {
        Ok(Some(value)) => either(machine, world, value, this, other),
        Ok(None) => machine.wait(
            Task::Expr(ExprTask::Cond(this, other)),
            Control::Expression(test),
        ),
        Err(end) => machine.no_value(end),
    }
}

/// Goes on with one of two expressions, by the truth of a value.
#[inline(always)]
pub fn either<'u>(
    machine: &mut Machine<'u>,
    world: &mut World,
    value: Value,
    this: &'u Expr,
    other: &'u Expr,
) -> Result<(), Halt>
    requires ready { IsReady machine.old.units.now machine.old.frame machine.old.values world.old }
    requires value { IsFit world.old.store.heap machine.old.frame.side value }
    ensures law { OnOk result (Evaluates (either (does.expr this.now) (does.expr other.now) value)
        machine.old world.old machine.new world.new) }
    ensures ready { IsReady machine.new.units.now machine.new.frame machine.new.values world.new }
    ensures shape { KeepsShape world.old.store.heap world.new.store.heap }
    ensures fewer { world.new.running.meter.left ≤ world.old.running.meter.left }
    ensures less { OnOk result (loads.Lowers (loads.expr_weight this.now + loads.expr_weight other.now)
        machine.old world.old machine.new world.new) }
{
    match truth(machine.alloc, world, &value) {
        Ok(truth) => one_of(machine, truth, this, other),
        Err(end) => machine.no_value(end),
    }
}

#[inline(always)]
fn one_of<'u>(
    machine: &mut Machine<'u>,
    truth: bool,
    this: &'u Expr,
    other: &'u Expr,
) -> Result<(), Halt>
    ensures law { (w : TheWorld)
        → Evaluates (one_of truth (does.expr this.now) (does.expr other.now)) machine.old w machine.new w }
    ensures ready { (w : TheWorld) → IsReady machine.old.units.now machine.old.frame machine.old.values w
        → IsReady machine.new.units.now machine.new.frame machine.new.values w }
    ensures less { OnOk result (loads.IsUnder (loads.expr_weight this.now + loads.expr_weight other.now)
        machine.old machine.new) }
{
    if truth {
        machine.go(Control::Expression(this))
    } else {
        machine.go(Control::Expression(other))
    }
}
