//! Chains of operators of one level.
#![tactic(auto, using(rp_store::proofs::CallerLemmas::goes_on))]

ghost use Rattle.std.specs.Prelude.{◌+◌, ◌≤◌, OnOk};
ghost use Rattle.rp_meaning.specs.Expressions as forms;
ghost use Rattle.rp_proxy.specs.declared.world.World.{World as TheWorld};
ghost use Rattle.rp_store.specs.Kept.{IsFit};
ghost use Rattle.rp_store.specs.Shape.{KeepsShape};
ghost use Rattle.rp_engine.specs.Does as does;
ghost use Rattle.rp_engine.specs.Law.{Evaluates, Resumes};
ghost use Rattle.rp_engine.specs.Loads as loads;
ghost use Rattle.rp_engine.specs.Ready.{IsReady};
ghost use Rattle.rp_engine.specs.Rest.{next_operand, with_operands};

use rp_access::operate;
use rp_base::{BinOp, Value};
use rp_engine::{Halt, Machine};
use rp_frame::{Control, ExprTask, Task};
use rp_proxy::World;
use rp_tree::Expr;

/// A chain of operators of one level.
///
/// # Errors
/// `Memory` where a growth was refused, as all that follow.
#[inline(never)]
pub fn chain<'u>(
    machine: &mut Machine<'u>,
    world: &mut World,
    first: &'u Expr,
    rest: &'u [(BinOp, Expr)],
) -> Result<(), Halt>
    requires ready { IsReady machine.old.units.now machine.old.frame machine.old.values world.old }
    ensures law { OnOk result (Evaluates (forms.chain (does.expr first.now) (does.ops rest.now))
        machine.old world.old machine.new world.new) }
    ensures ready { IsReady machine.new.units.now machine.new.frame machine.new.values world.new }
    ensures shape { KeepsShape world.old.store.heap world.new.store.heap }
    ensures fewer { world.new.running.meter.left ≤ world.old.running.meter.left }
    ensures less { OnOk result (loads.Lowers (2 + loads.inside first.now) machine.old world.old machine.new world.new) }
{
    match machine.leaf(world, first) {
        Ok(Some(a)) => operands(machine, world, a, rest),
        Ok(None) => machine.wait(
            Task::Expr(ExprTask::Operands(rest)),
            Control::Expression(first),
        ),
        Err(end) => machine.no_value(end),
    }
}

/// Goes on with the operands that are left, after the value of those before.
#[inline(always)]
pub fn operands<'u>(
    machine: &mut Machine<'u>,
    world: &mut World,
    a: Value,
    rest: &'u [(BinOp, Expr)],
) -> Result<(), Halt>
    requires ready { IsReady machine.old.units.now machine.old.frame machine.old.values world.old }
    requires a { IsFit world.old.store.heap machine.old.frame.side a }
    ensures law { OnOk result
        (Evaluates (forms.operands (does.ops rest.now) a) machine.old world.old machine.new world.new) }
    ensures ready { IsReady machine.new.units.now machine.new.frame machine.new.values world.new }
    ensures shape { KeepsShape world.old.store.heap world.new.store.heap }
    ensures fewer { world.new.running.meter.left ≤ world.old.running.meter.left }
    ensures less { OnOk result (loads.Lowers 2 machine.old world.old machine.new world.new) }
{
    match rest {
        [] => machine.back(a),
        [(op, x), rest @ ..] => operand(machine, world, a, *op, x, rest),
    }
}

/// Goes on with the next operand.
#[inline(always)]
fn operand<'u>(
    machine: &mut Machine<'u>,
    world: &mut World,
    a: Value,
    op: BinOp,
    x: &'u Expr,
    rest: &'u [(BinOp, Expr)],
) -> Result<(), Halt>
    requires ready { IsReady machine.old.units.now machine.old.frame machine.old.values world.old }
    requires a { IsFit world.old.store.heap machine.old.frame.side a }
    ensures law { OnOk result (Evaluates (next_operand op (does.expr x.now) (does.ops rest.now) a)
        machine.old world.old machine.new world.new) }
    ensures ready { IsReady machine.new.units.now machine.new.frame machine.new.values world.new }
    ensures shape { KeepsShape world.old.store.heap world.new.store.heap }
    ensures fewer { world.new.running.meter.left ≤ world.old.running.meter.left }
    ensures less { OnOk result (loads.Lowers 0 machine.old world.old machine.new world.new) }
{
    match machine.next_leaf(world, x) {
        Ok(Some(b)) => operated(machine, world, op, a, b, rest),
        Ok(None) => machine.wait_with(
            a,
            Task::Expr(ExprTask::Operand(op, rest)),
            Control::Expression(x),
        ),
        Err(end) => machine.no_value(end),
    }
}

/// Goes on with the operands that are left, after an operator on two values.
#[inline(always)]
fn operated<'u>(
    machine: &mut Machine<'u>,
    world: &mut World,
    op: BinOp,
    a: Value,
    b: Value,
    rest: &'u [(BinOp, Expr)],
) -> Result<(), Halt>
    requires ready { IsReady machine.old.units.now machine.old.frame machine.old.values world.old }
    requires a { IsFit world.old.store.heap machine.old.frame.side a }
    requires b { IsFit world.old.store.heap machine.old.frame.side b }
    ensures law { OnOk result (Evaluates (with_operands op a b (does.ops rest.now))
        machine.old world.old machine.new world.new) }
    ensures ready { IsReady machine.new.units.now machine.new.frame machine.new.values world.new }
    ensures shape { KeepsShape world.old.store.heap world.new.store.heap }
    ensures fewer { world.new.running.meter.left ≤ world.old.running.meter.left }
    ensures less { OnOk result (loads.Lowers 3 machine.old world.old machine.new world.new) }
{
    match operate(machine.alloc, world, machine.frame.side, op, &a, &b) {
        Ok(value) => more_operands(machine, value, rest),
        Err(end) => machine.no_value(end),
    }
}

/// Goes on with the operands that are left, where there are any.
#[inline(always)]
fn more_operands<'u>(
    machine: &mut Machine<'u>,
    a: Value,
    rest: &'u [(BinOp, Expr)],
) -> Result<(), Halt>
    ensures law { OnOk result ((w : TheWorld)
        → Evaluates (forms.operands (does.ops rest.now) a) machine.old w machine.new w) }
    ensures ready { (w : TheWorld) → IsReady machine.old.units.now machine.old.frame machine.old.values w
        → IsFit w.store.heap machine.old.frame.side a
        → IsReady machine.new.units.now machine.new.frame machine.new.values w }
    ensures less { OnOk result (loads.IsUnder 3 machine.old machine.new) }
{
    match rest {
        [] => machine.back(a),
        _ => machine.wait_with(a, Task::Expr(ExprTask::Operands(rest)), Control::Value),
    }
}

/// With the right operand; the left one is at hand.
#[inline(always)]
pub fn after_operand<'u>(
    machine: &mut Machine<'u>,
    world: &mut World,
    op: BinOp,
    b: Value,
    rest: &'u [(BinOp, Expr)],
) -> Result<(), Halt>
    requires ready { IsReady machine.old.units.now machine.old.frame machine.old.values world.old }
    requires b { IsFit world.old.store.heap machine.old.frame.side b }
    ensures law { OnOk result (Resumes (ExprTask.Operand op rest.entry) b machine.old world.old machine.new world.new) }
    ensures ready { IsReady machine.new.units.now machine.new.frame machine.new.values world.new }
    ensures shape { KeepsShape world.old.store.heap world.new.store.heap }
    ensures fewer { world.new.running.meter.left ≤ world.old.running.meter.left }
    ensures less { OnOk result (loads.Lowers 3 machine.old world.old machine.new world.new) }
{
    let a = machine.at_hand();
    operated(machine, world, op, a, b, rest)
}
