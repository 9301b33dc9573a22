//! Forms of expressions.
#![tactic(auto, using(rp_store::proofs::CallerLemmas::goes_on))]

ghost use Rattle.std.specs.Prelude.{◌≤◌, List, OnOk};
ghost use Rattle.rp_meaning.specs.Expressions as forms;
ghost use Rattle.rp_meaning.specs.Meaning.{constant};
ghost use Rattle.rp_store.specs.Heap.{Owned};
ghost use Rattle.rp_store.specs.Kept.{IsFit};
ghost use Rattle.rp_store.specs.Shape.{KeepsShape};
ghost use Rattle.rp_engine.specs.Does as does;
ghost use Rattle.rp_engine.specs.Law.{Evaluates};
ghost use Rattle.rp_engine.specs.Loads as loads;
ghost use Rattle.rp_engine.specs.Ready.{IsReady};

use rp_base::{Name, Rock, Text, Value};
use rp_engine::{Halt, Machine, int_value, literal};
use rp_expressions::{
    chain, comparison, conditional, dict_display, display, joined, lambda, negation, power,
    primary, unary,
};
use rp_frame::{Display, Made};
use rp_proxy::World;
use rp_targets::comprehension;
use rp_tree::{Const, ExprForm};

/// Begins a form of any kind.
///
/// # Errors
/// As those that it begins.
#[inline(always)]
pub(crate) fn form<'u>(
    machine: &mut Machine<'u>,
    world: &mut World,
    form: &'u ExprForm,
) -> Result<(), Halt>
    requires ready { IsReady machine.old.units.now machine.old.frame machine.old.values world.old }
    ensures law { OnOk result (Evaluates (does.form form.now) machine.old world.old machine.new world.new) }
    ensures ready { IsReady machine.new.units.now machine.new.frame machine.new.values world.new }
    ensures shape { KeepsShape world.old.store.heap world.new.store.heap }
    ensures fewer { world.new.running.meter.left ≤ world.old.running.meter.left }
    ensures less { OnOk result (loads.Lowers (loads.form form.now) machine.old world.old machine.new world.new) }
{
    match form {
        ExprForm::Name(name) => name_form(machine, world, *name),
        ExprForm::Int(number) => int_form(machine, world, number),
        ExprForm::Text(text) => text_form(machine, world, text),
        ExprForm::Const(keyword) => constant_form(machine, world, *keyword),
        ExprForm::Chain(first, rest) => chain(machine, world, first, rest),
        ExprForm::Cond { test, yes, no } => conditional(machine, world, test, yes, no),
        ExprForm::Not(x) => negation(machine, world, x),
        ExprForm::Unary(op, x) => unary(machine, world, *op, x),
        ExprForm::Power(base, exponent) => power(machine, world, base, exponent),
        ExprForm::Compare(first, rest) => comparison(machine, world, first, rest),
        ExprForm::Or(operands) => joined(machine, world, false, operands),
        ExprForm::And(operands) => joined(machine, world, true, operands),
        ExprForm::Primary(first, rest) => primary(machine, world, first, rest),
        ExprForm::Tuple(items) => display(machine, world, Display::Tuple, items),
        ExprForm::List(items) => display(machine, world, Display::List, items),
        ExprForm::Dict(pairs) => dict_display(machine, world, pairs),
        ExprForm::ListOf(block, x, clauses) => {
            comprehension(machine, world, block.0, clauses, Made::List(x))
        }
        ExprForm::DictOf(block, key, x, clauses) => {
            comprehension(machine, world, block.0, clauses, Made::Dict(key, x))
        }
        ExprForm::Lambda(block, params, _) => lambda(machine, world, block.0, params),
    }
}

/// A name.
///
/// # Errors
/// `Memory` where a growth was refused.
#[inline(always)]
fn name_form<'u>(machine: &mut Machine<'u>, world: &mut World, name: Name) -> Result<(), Halt>
    requires ready { IsReady machine.old.units.now machine.old.frame machine.old.values world.old }
    ensures law { OnOk result (Evaluates (forms.name name) machine.old world.old machine.new world.new) }
    ensures ready { IsReady machine.new.units.now machine.new.frame machine.new.values world.new }
    ensures shape { KeepsShape world.old.store.heap world.new.store.heap }
    ensures fewer { world.new.running.meter.left ≤ world.old.running.meter.left }
    ensures less { OnOk result (loads.Lowers 2 machine.old world.old machine.new world.new) }
{
    match machine.name(world, name) {
        Ok(value) => machine.back(value),
        Err(end) => machine.no_value(end),
    }
}

/// An integer.
///
/// # Errors
/// `Memory` where a growth was refused.
#[inline(always)]
fn int_form<'u>(machine: &mut Machine<'u>, world: &mut World, number: &i64) -> Result<(), Halt>
    requires ready { IsReady machine.old.units.now machine.old.frame machine.old.values world.old }
    ensures law { OnOk result (Evaluates (forms.constant (Value.Rock (Rock.Int number.now)))
        machine.old world.old machine.new world.new) }
    ensures ready { IsReady machine.new.units.now machine.new.frame machine.new.values world.new }
    ensures shape { KeepsShape world.old.store.heap world.new.store.heap }
    ensures fewer { world.new.running.meter.left ≤ world.old.running.meter.left }
    ensures less { OnOk result (loads.Lowers 2 machine.old world.old machine.new world.new) }
{
    let value = int_value(number);
    literal_form(machine, world, value)
}

/// None, True or False.
///
/// # Errors
/// `Memory` where a growth was refused.
#[inline(always)]
fn constant_form<'u>(
    machine: &mut Machine<'u>,
    world: &mut World,
    keyword: Const,
) -> Result<(), Halt>
    requires ready { IsReady machine.old.units.now machine.old.frame machine.old.values world.old }
    ensures law { OnOk result (Evaluates (forms.constant (constant keyword))
        machine.old world.old machine.new world.new) }
    ensures ready { IsReady machine.new.units.now machine.new.frame machine.new.values world.new }
    ensures shape { KeepsShape world.old.store.heap world.new.store.heap }
    ensures fewer { world.new.running.meter.left ≤ world.old.running.meter.left }
    ensures less { OnOk result (loads.Lowers 2 machine.old world.old machine.new world.new) }
{
    match keyword {
        Const::Nil => literal_form(machine, world, Value::Rock(Rock::Nil)),
        Const::Truth(truth) => literal_form(machine, world, Value::Rock(Rock::Truth(truth))),
    }
}

/// A text.
///
/// # Errors
/// `Memory` where a growth was refused.
#[inline(always)]
fn text_form<'u>(machine: &mut Machine<'u>, world: &mut World, text: &Text) -> Result<(), Halt>
    requires ready { IsReady machine.old.units.now machine.old.frame machine.old.values world.old }
    ensures law { OnOk result (Evaluates (forms.constant (Value.Rock (Rock.Text text.now)))
        machine.old world.old machine.new world.new) }
    ensures ready { IsReady machine.new.units.now machine.new.frame machine.new.values world.new }
    ensures shape { KeepsShape world.old.store.heap world.new.store.heap }
    ensures fewer { world.new.running.meter.left ≤ world.old.running.meter.left }
    ensures less { OnOk result (loads.Lowers 2 machine.old world.old machine.new world.new) }
{
    let copy = text.copy()?;
    literal_form(machine, world, Value::Rock(Rock::Text(copy)))
}

/// A literal of this value, which is a rock.
///
/// # Errors
/// `Memory` where a growth was refused.
#[inline(always)]
fn literal_form<'u>(machine: &mut Machine<'u>, world: &mut World, value: Value) -> Result<(), Halt>
    requires ready { IsReady machine.old.units.now machine.old.frame machine.old.values world.old }
    requires fit { (heap : List Owned) → IsFit heap machine.old.frame.side value }
    ensures law { OnOk result (Evaluates (forms.constant value) machine.old world.old machine.new world.new) }
    ensures ready { IsReady machine.new.units.now machine.new.frame machine.new.values world.new }
    ensures shape { KeepsShape world.old.store.heap world.new.store.heap }
    ensures fewer { world.new.running.meter.left ≤ world.old.running.meter.left }
    ensures less { OnOk result (loads.Lowers 2 machine.old world.old machine.new world.new) }
{
    match literal(world, value) {
        Ok(value) => machine.back(value),
        Err(end) => machine.no_value(end),
    }
}
