//! Expressions: what begins them, and what goes on from the value of a part.
#![tactic(auto, using(rp_store::proofs::CallerLemmas::goes_on))]

ghost use Rattle.std.specs.Prelude.{◌+◌, ◌≡◌, ◌≤◌, OnOk, true};
ghost use Rattle.rp_store.specs.Kept.{IsFit};
ghost use Rattle.rp_store.specs.Shape.{KeepsShape};
ghost use Rattle.rp_engine.specs.Does as does;
ghost use Rattle.rp_engine.specs.Law.{Evaluates, Resumes};
ghost use Rattle.rp_engine.specs.Loads as loads;
ghost use Rattle.rp_engine.specs.Ready.{IsReady};
ghost use Rattle.rp_step.specs.TaskGroups.{of_call, of_parts};

use crate::forms::form;
use rp_base::Value;
use rp_engine::{Halt, Hand, Machine};
use rp_expressions::{
    after_argument, after_contained, after_default, after_dict_key, after_dict_value,
    after_exponent, after_from, after_item, after_key, after_later, after_later_star, after_length,
    after_named, after_operand, after_star, after_stars, after_stride, after_test, after_to,
    either, later, not_of, operands, tests, to_power, trailers, unary_of,
};
use rp_frame::ExprTask;
use rp_proxy::World;
use rp_targets::{ComprehensionParts, comprehend};
use rp_tree::Expr;

/// Begins an expression, of any form.
///
/// # Errors
/// `Memory` where a growth was refused, and `TooLong` where it has more parts than are counted, as all that follow.
#[inline(never)]
#[tactic(auto, using(rp_store::proofs::CallerLemmas::goes_on, rp_engine::proofs::Equations::expr_out))]
pub(crate) fn expression<'u>(
    machine: &mut Machine<'u>,
    world: &mut World,
    x: &'u Expr,
) -> Result<(), Halt>
    requires ready { IsReady machine.old.units.now machine.old.frame machine.old.values world.old }
    ensures law { OnOk result (Evaluates (does.expr x.now) machine.old world.old machine.new world.new) }
    ensures ready { IsReady machine.new.units.now machine.new.frame machine.new.values world.new }
    ensures shape { KeepsShape world.old.store.heap world.new.store.heap }
    ensures fewer { world.new.running.meter.left ≤ world.old.running.meter.left }
    ensures less { OnOk result (loads.Lowers (loads.inside x.now) machine.old world.old machine.new world.new) }
{
    form(machine, world, &x.form)
}

/// What a task does with the value that an expression gave.
#[inline(always)]
pub(crate) fn after_expr<'u>(
    machine: &mut Machine<'u>,
    world: &mut World,
    task: ExprTask<'u>,
    value: Value,
) -> Result<(), Halt>
    requires ready { IsReady machine.old.units.now machine.old.frame machine.old.values world.old }
    requires value { IsFit world.old.store.heap machine.old.frame.side value }
    ensures law { OnOk result (Resumes task.entry value machine.old world.old machine.new world.new) }
    ensures ready { IsReady machine.new.units.now machine.new.frame machine.new.values world.new }
    ensures shape { KeepsShape world.old.store.heap world.new.store.heap }
    ensures fewer { world.new.running.meter.left ≤ world.old.running.meter.left }
    ensures less { OnOk result (loads.Lowers (2 + loads.expr_task task.entry)
        machine.old world.old machine.new world.new) }
{
    match task {
        ExprTask::Operands(rest) => operands(machine, world, value, rest),
        ExprTask::Operand(op, rest) => after_operand(machine, world, op, value, rest),
        ExprTask::Not => not_of(machine, world, value),
        ExprTask::Cond(this, other) => either(machine, world, value, this, other),
        ExprTask::Unary(op) => unary_of(machine, world, op, value),
        ExprTask::Power(exponent) => to_power(machine, world, value, exponent),
        ExprTask::Exponent => after_exponent(machine, world, value),
        ExprTask::Tests(rest) => tests(machine, world, value, rest),
        ExprTask::Test(test, rest) => after_test(machine, world, test, value, rest),
        ExprTask::Contained(test, rest) => after_contained(machine, world, test, value, rest),
        ExprTask::Joined(all, rest) => later(machine, world, all, value, rest),
        ExprTask::Trailers(rest) => trailers(machine, world, value, rest),
        ExprTask::Key(rest) => after_key(machine, world, value, rest),
        ExprTask::SliceFrom(to, stride, rest) => {
            after_from(machine, world, value, to, stride, rest)
        }
        ExprTask::SliceTo(stride, rest) => after_to(machine, world, value, stride, rest),
        ExprTask::SliceStep(rest) => after_stride(machine, world, value, rest),
        ExprTask::Length(rest) => after_length(machine, value, rest),
        _ => after_part(machine, world, task, value),
    }
}

/// What a task does with a part of a display, a comprehension or a function, or with an argument of a call.
#[inline(always)]
fn after_part<'u>(
    machine: &mut Machine<'u>,
    world: &mut World,
    task: ExprTask<'u>,
    value: Value,
) -> Result<(), Halt>
    requires ready { IsReady machine.old.units.now machine.old.frame machine.old.values world.old }
    requires value { IsFit world.old.store.heap machine.old.frame.side value }
    requires task { of_parts task ≡ true }
    ensures law { OnOk result (Resumes task.entry value machine.old world.old machine.new world.new) }
    ensures ready { IsReady machine.new.units.now machine.new.frame machine.new.values world.new }
    ensures shape { KeepsShape world.old.store.heap world.new.store.heap }
    ensures fewer { world.new.running.meter.left ≤ world.old.running.meter.left }
    ensures less { OnOk result (loads.Lowers (2 + loads.expr_task task.entry)
        machine.old world.old machine.new world.new) }
{
    match task {
        ExprTask::Items(kind, count, rest) => {
            after_item(machine, world, kind, count, value, rest)
        }
        ExprTask::DictKey(count, x, rest) => {
            after_dict_key(machine, world, count, value, x, rest)
        }
        ExprTask::DictValue(count, rest) => { after_dict_value(machine, world, count, value, rest) }
        ExprTask::Comprehension(block, first, behind, made) => {
            let parts = ComprehensionParts {
                block,
                first,
                behind,
                made,
            };
            comprehend(machine, world, value, parts)
        }
        ExprTask::Default(name, block, count, rest) => {
            after_default(machine, world, name, block, count, value, rest)
        }
        _ => after_call(machine, world, task, value),
    }
}

/// What a task does with an argument of a call.
#[inline(always)]
fn after_call<'u>(
    machine: &mut Machine<'u>,
    world: &mut World,
    task: ExprTask<'u>,
    value: Value,
) -> Result<(), Halt>
    requires ready { IsReady machine.old.units.now machine.old.frame machine.old.values world.old }
    requires value { IsFit world.old.store.heap machine.old.frame.side value }
    requires task { of_call task ≡ true }
    ensures law { OnOk result (Resumes task.entry value machine.old world.old machine.new world.new) }
    ensures ready { IsReady machine.new.units.now machine.new.frame machine.new.values world.new }
    ensures shape { KeepsShape world.old.store.heap world.new.store.heap }
    ensures fewer { world.new.running.meter.left ≤ world.old.running.meter.left }
    ensures less { OnOk result (loads.Lowers (2 + loads.expr_task task.entry)
        machine.old world.old machine.new world.new) }
{
    match task {
        ExprTask::Argument(count, args, rest) => {
            after_argument(machine, world, count, value, args, rest)
        }
        ExprTask::StarArgument(count, args, rest) => {
            after_star(machine, world, count, value, args, rest)
        }
        ExprTask::NamedArgument(plain, named, name, args, rest) => {
            let hand = Hand { plain, named };
            after_named(machine, world, hand, name, value, args, rest)
        }
        ExprTask::StarsArgument(plain, named, args, rest) => {
            after_stars(machine, world, Hand { plain, named }, value, args, rest)
        }
        ExprTask::LaterArgument(plain, named, args, rest) => {
            after_later(machine, world, Hand { plain, named }, value, args, rest)
        }
        ExprTask::LaterStar(plain, named, args, rest) => {
            after_later_star(machine, world, Hand { plain, named }, value, args, rest)
        }
        _ => unreachable!(),
    }
}
