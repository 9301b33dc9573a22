//! Boolean operations: `and` and `or` (Python Language Reference, Boolean operations).
#![tactic(auto, using(rp_store::proofs::CallerLemmas::goes_on))]

ghost use Rattle.std.specs.Prelude.{◌+◌, ◌∷◌, ◌≤◌, OnOk};
ghost use Rattle.rp_proxy.specs.declared.world.World.{World as TheWorld};
ghost use Rattle.rp_store.specs.Kept.{IsFit};
ghost use Rattle.rp_store.specs.Shape.{KeepsShape};
ghost use Rattle.rp_engine.specs.Does as does;
ghost use Rattle.rp_engine.specs.ExpressionSteps.{put_to, step_to};
ghost use Rattle.rp_engine.specs.JoinSteps.{joined, later};
ghost use Rattle.rp_engine.specs.Law.{Evaluates};
ghost use Rattle.rp_engine.specs.Loads as loads;
ghost use Rattle.rp_engine.specs.Ready.{IsReady};

use rp_access::truth;
use rp_base::{Rock, Value};
use rp_engine::{Halt, Machine};
use rp_frame::{Control, ExprTask, Task};
use rp_proxy::World;
use rp_tree::Expr;

/// Two operands or more of `and`, where all are to be true, or else of `or`.
///
/// # Errors
/// `Memory` where a growth was refused, as all that follow.
#[inline(never)]
pub fn joined<'u>(
    machine: &mut Machine<'u>,
    world: &mut World,
    all: bool,
    operands: &'u [Expr],
) -> Result<(), Halt>
    requires ready { IsReady machine.old.units.now machine.old.frame machine.old.values world.old }
    ensures law { OnOk result (Evaluates (joined all (does.exprs operands.now))
        machine.old world.old machine.new world.new) }
    ensures ready { IsReady machine.new.units.now machine.new.frame machine.new.values world.new }
    ensures shape { KeepsShape world.old.store.heap world.new.store.heap }
    ensures fewer { world.new.running.meter.left ≤ world.old.running.meter.left }
    ensures less { OnOk result (loads.Lowers (loads.operands operands.now)
        machine.old world.old machine.new world.new) }
{
    match operands {
        [] => machine.back(Value::Rock(Rock::Nil)),
        [first, rest @ ..] => first_joined(machine, world, all, first, rest),
    }
}

/// Goes on with the first operand.
#[inline(always)]
fn first_joined<'u>(
    machine: &mut Machine<'u>,
    world: &mut World,
    all: bool,
    first: &'u Expr,
    rest: &'u [Expr],
) -> Result<(), Halt>
    requires ready { IsReady machine.old.units.now machine.old.frame machine.old.values world.old }
    ensures law { OnOk result (Evaluates (put_to (does.expr first.now) (later all (does.exprs rest.now)))
        machine.old world.old machine.new world.new) }
    ensures ready { IsReady machine.new.units.now machine.new.frame machine.new.values world.new }
    ensures shape { KeepsShape world.old.store.heap world.new.store.heap }
    ensures fewer { world.new.running.meter.left ≤ world.old.running.meter.left }
    ensures less { OnOk result (loads.Lowers (2 + loads.inside first.now) machine.old world.old machine.new world.new) }
{
    match machine.leaf(world, first) {
        Ok(Some(value)) => later(machine, world, all, value, rest),
        Ok(None) => machine.wait(
            Task::Expr(ExprTask::Joined(all, rest)),
            Control::Expression(first),
        ),
        Err(end) => machine.no_value(end),
    }
}

/// Goes on with the operands that are left, after the value of the one before.
#[inline(always)]
pub fn later<'u>(
    machine: &mut Machine<'u>,
    world: &mut World,
    all: bool,
    value: Value,
    rest: &'u [Expr],
) -> Result<(), Halt>
    requires ready { IsReady machine.old.units.now machine.old.frame machine.old.values world.old }
    requires value { IsFit world.old.store.heap machine.old.frame.side value }
    ensures law { OnOk result (Evaluates (later all (does.exprs rest.now) value)
        machine.old world.old machine.new world.new) }
    ensures ready { IsReady machine.new.units.now machine.new.frame machine.new.values world.new }
    ensures shape { KeepsShape world.old.store.heap world.new.store.heap }
    ensures fewer { world.new.running.meter.left ≤ world.old.running.meter.left }
    ensures less { OnOk result (loads.Lowers 2 machine.old world.old machine.new world.new) }
{
    match rest {
        [] => machine.back(value),
        [x, rest @ ..] => unless_settled(machine, world, all, value, x, rest),
    }
}

/// Goes on with the next operand, where the value does not settle the whole.
#[inline(always)]
fn unless_settled<'u>(
    machine: &mut Machine<'u>,
    world: &mut World,
    all: bool,
    value: Value,
    x: &'u Expr,
    rest: &'u [Expr],
) -> Result<(), Halt>
    requires ready { IsReady machine.old.units.now machine.old.frame machine.old.values world.old }
    requires value { IsFit world.old.store.heap machine.old.frame.side value }
    ensures law { OnOk result (Evaluates (later all (does.expr x.now ∷ does.exprs rest.now) value)
        machine.old world.old machine.new world.new) }
    ensures ready { IsReady machine.new.units.now machine.new.frame machine.new.values world.new }
    ensures shape { KeepsShape world.old.store.heap world.new.store.heap }
    ensures fewer { world.new.running.meter.left ≤ world.old.running.meter.left }
    ensures less { OnOk result (loads.Lowers 2 machine.old world.old machine.new world.new) }
{
    match truth(machine.alloc, world, &value) {
        Ok(truth) => {
            if truth == all {
                next_joined(machine, world, all, x, rest)
            } else {
                machine.back(value)
            }
        }
        Err(end) => machine.no_value(end),
    }
}

/// Goes on with a later operand.
#[inline(always)]
fn next_joined<'u>(
    machine: &mut Machine<'u>,
    world: &mut World,
    all: bool,
    x: &'u Expr,
    rest: &'u [Expr],
) -> Result<(), Halt>
    requires ready { IsReady machine.old.units.now machine.old.frame machine.old.values world.old }
    ensures law { OnOk result (Evaluates (step_to (does.expr x.now) (later all (does.exprs rest.now)))
        machine.old world.old machine.new world.new) }
    ensures ready { IsReady machine.new.units.now machine.new.frame machine.new.values world.new }
    ensures shape { KeepsShape world.old.store.heap world.new.store.heap }
    ensures fewer { world.new.running.meter.left ≤ world.old.running.meter.left }
    ensures less { OnOk result (loads.Lowers 0 machine.old world.old machine.new world.new) }
{
    match machine.next_leaf(world, x) {
        Ok(Some(value)) => more_joined(machine, all, value, rest),
        Ok(None) => machine.wait(
            Task::Expr(ExprTask::Joined(all, rest)),
            Control::Expression(x),
        ),
        Err(end) => machine.no_value(end),
    }
}

/// Goes on with the operands that are left, where there are any.
#[inline(always)]
fn more_joined<'u>(
    machine: &mut Machine<'u>,
    all: bool,
    value: Value,
    rest: &'u [Expr],
) -> Result<(), Halt>
    ensures law { OnOk result ((w : TheWorld) → Evaluates (later all (does.exprs rest.now) value)
        machine.old w machine.new w) }
    ensures ready { (w : TheWorld) → IsReady machine.old.units.now machine.old.frame machine.old.values w
        → IsFit w.store.heap machine.old.frame.side value
        → IsReady machine.new.units.now machine.new.frame machine.new.values w }
    ensures less { OnOk result (loads.IsUnder 3 machine.old machine.new) }
{
    match rest {
        [] => machine.back(value),
        _ => machine.wait_with(
            value,
            Task::Expr(ExprTask::Joined(all, rest)),
            Control::Value,
        ),
    }
}
