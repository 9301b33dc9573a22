//! Comparisons (Python Language Reference, Comparisons).
#![tactic(auto, using(rp_store::proofs::CallerLemmas::goes_on))]

ghost use Rattle.std.specs.Prelude.{◌+◌, ◌≤◌, OnOk};
ghost use Rattle.rp_meaning.specs.Expressions as forms;
ghost use Rattle.rp_proxy.specs.declared.world.World.{World as TheWorld};
ghost use Rattle.rp_store.specs.Kept.{IsFit};
ghost use Rattle.rp_store.specs.Shape.{KeepsShape};
ghost use Rattle.rp_engine.specs.ComparisonSteps.{by_test, with_test};
ghost use Rattle.rp_engine.specs.Does as does;
ghost use Rattle.rp_engine.specs.ExpressionSteps.{step_to};
ghost use Rattle.rp_engine.specs.Law.{Evaluates, Resumes};
ghost use Rattle.rp_engine.specs.Loads as loads;
ghost use Rattle.rp_engine.specs.Ready.{IsReady};

use crate::special_methods::test_by_method;
use rp_access::holds;
use rp_base::{Rock, Value};
use rp_engine::{Halt, Machine};
use rp_frame::{Control, ExprTask, Task};
use rp_proxy::World;
use rp_tree::{Expr, Test};

/// A chain of comparisons.
///
/// # Errors
/// `Memory` where a growth was refused, as all that follow.
#[inline(never)]
pub fn comparison<'u>(
    machine: &mut Machine<'u>,
    world: &mut World,
    first: &'u Expr,
    rest: &'u [(Test, Expr)],
) -> Result<(), Halt>
    requires ready { IsReady machine.old.units.now machine.old.frame machine.old.values world.old }
    ensures law { OnOk result (Evaluates (forms.compare (does.expr first.now) (does.tests rest.now))
        machine.old world.old machine.new world.new) }
    ensures ready { IsReady machine.new.units.now machine.new.frame machine.new.values world.new }
    ensures shape { KeepsShape world.old.store.heap world.new.store.heap }
    ensures fewer { world.new.running.meter.left ≤ world.old.running.meter.left }
    ensures less { OnOk result (loads.Lowers (2 + loads.inside first.now) machine.old world.old machine.new world.new) }
{
    match machine.leaf(world, first) {
        Ok(Some(a)) => tests(machine, world, a, rest),
        Ok(None) => machine.wait(
            Task::Expr(ExprTask::Tests(rest)),
            Control::Expression(first),
        ),
        Err(end) => machine.no_value(end),
    }
}

/// Goes on with the tests that are left, after the value of their first operand.
#[inline(always)]
pub fn tests<'u>(
    machine: &mut Machine<'u>,
    world: &mut World,
    a: Value,
    rest: &'u [(Test, Expr)],
) -> Result<(), Halt>
    requires ready { IsReady machine.old.units.now machine.old.frame machine.old.values world.old }
    requires a { IsFit world.old.store.heap machine.old.frame.side a }
    ensures law { OnOk result
        (Evaluates (forms.tests (does.tests rest.now) a) machine.old world.old machine.new world.new) }
    ensures ready { IsReady machine.new.units.now machine.new.frame machine.new.values world.new }
    ensures shape { KeepsShape world.old.store.heap world.new.store.heap }
    ensures fewer { world.new.running.meter.left ≤ world.old.running.meter.left }
    ensures less { OnOk result (loads.Lowers 2 machine.old world.old machine.new world.new) }
{
    match rest {
        [] => machine.back(Value::Rock(Rock::Truth(true))),
        [(test, x), rest @ ..] => crate::comparisons::test(machine, world, a, *test, x, rest),
    }
}

/// Goes on with the next test.
#[inline(always)]
fn test<'u>(
    machine: &mut Machine<'u>,
    world: &mut World,
    a: Value,
    test: Test,
    x: &'u Expr,
    rest: &'u [(Test, Expr)],
) -> Result<(), Halt>
    requires ready { IsReady machine.old.units.now machine.old.frame machine.old.values world.old }
    requires a { IsFit world.old.store.heap machine.old.frame.side a }
    ensures law { OnOk result (Evaluates (step_to (does.expr x.now) (with_test test a (does.tests rest.now)))
        machine.old world.old machine.new world.new) }
    ensures ready { IsReady machine.new.units.now machine.new.frame machine.new.values world.new }
    ensures shape { KeepsShape world.old.store.heap world.new.store.heap }
    ensures fewer { world.new.running.meter.left ≤ world.old.running.meter.left }
    ensures less { OnOk result (loads.Lowers 0 machine.old world.old machine.new world.new) }
{
    match machine.next_leaf(world, x) {
        Ok(Some(b)) => compared(machine, world, test, a, b, rest),
        Ok(None) => machine.wait_with(
            a,
            Task::Expr(ExprTask::Test(test, rest)),
            Control::Expression(x),
        ),
        Err(end) => machine.no_value(end),
    }
}

/// Goes on with the tests that are left, after a test on two values.
#[inline(always)]
fn compared<'u>(
    machine: &mut Machine<'u>,
    world: &mut World,
    test: Test,
    a: Value,
    b: Value,
    rest: &'u [(Test, Expr)],
) -> Result<(), Halt>
    requires ready { IsReady machine.old.units.now machine.old.frame machine.old.values world.old }
    requires a { IsFit world.old.store.heap machine.old.frame.side a }
    requires b { IsFit world.old.store.heap machine.old.frame.side b }
    ensures law { OnOk result (Evaluates (with_test test a (does.tests rest.now) b)
        machine.old world.old machine.new world.new) }
    ensures ready { IsReady machine.new.units.now machine.new.frame machine.new.values world.new }
    ensures shape { KeepsShape world.old.store.heap world.new.store.heap }
    ensures fewer { world.new.running.meter.left ≤ world.old.running.meter.left }
    ensures less { OnOk result (loads.Lowers (2 + loads.called) machine.old world.old machine.new world.new) }
{
    match holds(machine.alloc, world, test, &a, &b) {
        Ok(Some(holds)) => by_test(machine, holds, b, rest),
        Ok(None) => test_by_method(machine, test, a, b, rest),
        Err(end) => machine.no_value(end),
    }
}

/// Goes on with the tests that are left, where the one before holds.
#[inline(always)]
pub(crate) fn by_test<'u>(
    machine: &mut Machine<'u>,
    holds: bool,
    b: Value,
    rest: &'u [(Test, Expr)],
) -> Result<(), Halt>
    ensures law { OnOk result ((w : TheWorld)
        → Evaluates (by_test holds b (does.tests rest.now)) machine.old w machine.new w) }
    ensures ready { (w : TheWorld) → IsReady machine.old.units.now machine.old.frame machine.old.values w
        → IsFit w.store.heap machine.old.frame.side b
        → IsReady machine.new.units.now machine.new.frame machine.new.values w }
    ensures less { OnOk result (loads.IsUnder 3 machine.old machine.new) }
{
    if holds {
        more_tests(machine, b, rest)
    } else {
        machine.back(Value::Rock(Rock::Truth(false)))
    }
}

/// Goes on with the tests that are left, where there are any.
#[inline(always)]
fn more_tests<'u>(machine: &mut Machine<'u>, b: Value, rest: &'u [(Test, Expr)]) -> Result<(), Halt>
    ensures law { OnOk result ((w : TheWorld)
        → Evaluates (forms.tests (does.tests rest.now) b) machine.old w machine.new w) }
    ensures ready { (w : TheWorld) → IsReady machine.old.units.now machine.old.frame machine.old.values w
        → IsFit w.store.heap machine.old.frame.side b
        → IsReady machine.new.units.now machine.new.frame machine.new.values w }
    ensures less { OnOk result (loads.IsUnder 3 machine.old machine.new) }
{
    match rest {
        [] => machine.back(Value::Rock(Rock::Truth(true))),
        _ => machine.wait_with(b, Task::Expr(ExprTask::Tests(rest)), Control::Value),
    }
}

/// With the right operand of a test; the left one is at hand.
#[inline(always)]
pub fn after_test<'u>(
    machine: &mut Machine<'u>,
    world: &mut World,
    test: Test,
    b: Value,
    rest: &'u [(Test, Expr)],
) -> Result<(), Halt>
    requires ready { IsReady machine.old.units.now machine.old.frame machine.old.values world.old }
    requires b { IsFit world.old.store.heap machine.old.frame.side b }
    ensures law { OnOk result (Resumes (ExprTask.Test test rest.entry) b machine.old world.old machine.new world.new) }
    ensures ready { IsReady machine.new.units.now machine.new.frame machine.new.values world.new }
    ensures shape { KeepsShape world.old.store.heap world.new.store.heap }
    ensures fewer { world.new.running.meter.left ≤ world.old.running.meter.left }
    ensures less { OnOk result (loads.Lowers (2 + loads.called) machine.old world.old machine.new world.new) }
{
    let a = machine.at_hand();
    compared(machine, world, test, a, b, rest)
}
