//! Unary operators and powers (Python Language Reference, Unary arithmetic and bitwise operations, The power operator).
#![tactic(auto, using(rp_store::proofs::CallerLemmas::goes_on))]

ghost use Rattle.std.specs.Prelude.{◌+◌, ◌≤◌, OnOk};
ghost use Rattle.rp_meaning.specs.Expressions as forms;
ghost use Rattle.rp_meaning.specs.Operators.{operate, operate_unary};
ghost use Rattle.rp_store.specs.Kept.{IsFit};
ghost use Rattle.rp_store.specs.Shape.{KeepsShape};
ghost use Rattle.rp_engine.specs.Does as does;
ghost use Rattle.rp_engine.specs.ExpressionSteps.{to_power};
ghost use Rattle.rp_engine.specs.Law.{Evaluates, Resumes};
ghost use Rattle.rp_engine.specs.Loads as loads;
ghost use Rattle.rp_engine.specs.Ready.{IsReady};

use rp_access::{operate, operate_unary};
use rp_base::{BinOp, UnOp, Value};
use rp_engine::{Halt, Machine};
use rp_frame::{Control, ExprTask, Task};
use rp_proxy::World;
use rp_tree::Expr;

/// A unary operator.
///
/// # Errors
/// `Memory` where a growth was refused, as all that follow.
#[inline(never)]
pub fn unary<'u>(
    machine: &mut Machine<'u>,
    world: &mut World,
    op: UnOp,
    x: &'u Expr,
) -> Result<(), Halt>
    requires ready { IsReady machine.old.units.now machine.old.frame machine.old.values world.old }
    ensures law { OnOk result (Evaluates (forms.unary op (does.expr x.now))
        machine.old world.old machine.new world.new) }
    ensures ready { IsReady machine.new.units.now machine.new.frame machine.new.values world.new }
    ensures shape { KeepsShape world.old.store.heap world.new.store.heap }
    ensures fewer { world.new.running.meter.left ≤ world.old.running.meter.left }
    ensures less { OnOk result (loads.Lowers 0 machine.old world.old machine.new world.new) }
{
    match machine.next_leaf(world, x) {
        Ok(Some(a)) => unary_of(machine, world, op, a),
        Ok(None) => machine.wait(Task::Expr(ExprTask::Unary(op)), Control::Expression(x)),
        Err(end) => machine.no_value(end),
    }
}

/// A unary operator on a value.
#[inline(always)]
pub fn unary_of<'u>(
    machine: &mut Machine<'u>,
    world: &mut World,
    op: UnOp,
    a: Value,
) -> Result<(), Halt>
    requires ready { IsReady machine.old.units.now machine.old.frame machine.old.values world.old }
    requires a { IsFit world.old.store.heap machine.old.frame.side a }
    ensures law { OnOk result (Evaluates (operate_unary op a) machine.old world.old machine.new world.new) }
    ensures ready { IsReady machine.new.units.now machine.new.frame machine.new.values world.new }
    ensures shape { KeepsShape world.old.store.heap world.new.store.heap }
    ensures fewer { world.new.running.meter.left ≤ world.old.running.meter.left }
    ensures less { OnOk result (loads.Lowers 2 machine.old world.old machine.new world.new) }
{
    machine.give(operate_unary(machine.alloc, world, op, &a))
}

/// A power.
#[inline(never)]
pub fn power<'u>(
    machine: &mut Machine<'u>,
    world: &mut World,
    base: &'u Expr,
    exponent: &'u Expr,
) -> Result<(), Halt>
    requires ready { IsReady machine.old.units.now machine.old.frame machine.old.values world.old }
    ensures law { OnOk result (Evaluates (forms.power (does.expr base.now) (does.expr exponent.now))
        machine.old world.old machine.new world.new) }
    ensures ready { IsReady machine.new.units.now machine.new.frame machine.new.values world.new }
    ensures shape { KeepsShape world.old.store.heap world.new.store.heap }
    ensures fewer { world.new.running.meter.left ≤ world.old.running.meter.left }
    ensures less { OnOk result (loads.Lowers 0 machine.old world.old machine.new world.new) }
{
    match machine.next_leaf(world, base) {
        Ok(Some(a)) => to_power(machine, world, a, exponent),
        Ok(None) => machine.wait(
            Task::Expr(ExprTask::Power(exponent)),
            Control::Expression(base),
        ),
        Err(end) => machine.no_value(end),
    }
}

/// Goes on with the exponent, after the value of the base.
#[inline(always)]
pub fn to_power<'u>(
    machine: &mut Machine<'u>,
    world: &mut World,
    a: Value,
    exponent: &'u Expr,
) -> Result<(), Halt>
    requires ready { IsReady machine.old.units.now machine.old.frame machine.old.values world.old }
    requires a { IsFit world.old.store.heap machine.old.frame.side a }
    ensures law { OnOk result (Evaluates (to_power (does.expr exponent.now) a)
        machine.old world.old machine.new world.new) }
    ensures ready { IsReady machine.new.units.now machine.new.frame machine.new.values world.new }
    ensures shape { KeepsShape world.old.store.heap world.new.store.heap }
    ensures fewer { world.new.running.meter.left ≤ world.old.running.meter.left }
    ensures less { OnOk result (loads.Lowers (2 + loads.inside exponent.now)
        machine.old world.old machine.new world.new) }
{
    match machine.leaf(world, exponent) {
        Ok(Some(b)) => power_of(machine, world, a, b),
        Ok(None) => machine.wait_with(
            a,
            Task::Expr(ExprTask::Exponent),
            Control::Expression(exponent),
        ),
        Err(end) => machine.no_value(end),
    }
}

/// A power of two values.
#[inline(always)]
fn power_of<'u>(
    machine: &mut Machine<'u>,
    world: &mut World,
    a: Value,
    b: Value,
) -> Result<(), Halt>
    requires ready { IsReady machine.old.units.now machine.old.frame machine.old.values world.old }
    requires a { IsFit world.old.store.heap machine.old.frame.side a }
    requires b { IsFit world.old.store.heap machine.old.frame.side b }
    ensures law { OnOk result (Evaluates (operate BinOp.Pow a b) machine.old world.old machine.new world.new) }
    ensures ready { IsReady machine.new.units.now machine.new.frame machine.new.values world.new }
    ensures shape { KeepsShape world.old.store.heap world.new.store.heap }
    ensures fewer { world.new.running.meter.left ≤ world.old.running.meter.left }
    ensures less { OnOk result (loads.Lowers 2 machine.old world.old machine.new world.new) }
{
    machine.give(operate(machine.alloc, world, machine.frame.side, BinOp::Pow, &a, &b))
}

/// With the exponent; the base is at hand.
#[inline(always)]
pub fn after_exponent<'u>(
    machine: &mut Machine<'u>,
    world: &mut World,
    b: Value,
) -> Result<(), Halt>
    requires ready { IsReady machine.old.units.now machine.old.frame machine.old.values world.old }
    requires b { IsFit world.old.store.heap machine.old.frame.side b }
    ensures law { OnOk result (Resumes ExprTask.Exponent b machine.old world.old machine.new world.new) }
    ensures ready { IsReady machine.new.units.now machine.new.frame machine.new.values world.new }
    ensures shape { KeepsShape world.old.store.heap world.new.store.heap }
    ensures fewer { world.new.running.meter.left ≤ world.old.running.meter.left }
    ensures less { OnOk result (loads.Lowers 2 machine.old world.old machine.new world.new) }
{
    let a = machine.at_hand();
    power_of(machine, world, a, b)
}
