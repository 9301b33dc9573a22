//! Displays of dicts (Python Language Reference, Dictionary displays).
#![tactic(auto, using(rp_store::proofs::CallerLemmas::goes_on))]

ghost use Rattle.std.specs.Prelude.{◌+◌, ◌∷◌, ◌≤◌, OnOk};
ghost use Rattle.rp_meaning.specs.Expressions as forms;
ghost use Rattle.rp_store.specs.Kept.{IsFit};
ghost use Rattle.rp_store.specs.Shape.{KeepsShape};
ghost use Rattle.rp_engine.specs.DisplaySteps.{parts};
ghost use Rattle.rp_engine.specs.Does as does;
ghost use Rattle.rp_engine.specs.GatheringSteps.{Gathers};
ghost use Rattle.rp_engine.specs.Law.{Evaluates, Resumes};
ghost use Rattle.rp_engine.specs.Loads as loads;
ghost use Rattle.rp_engine.specs.Ready.{IsReady};

use crate::displays::{make_display, no_element};
use rp_access::take_step;
use rp_base::Value;
use rp_engine::{Halt, Machine, one_more};
use rp_frame::{Control, Display, ExprTask, Task};
use rp_proxy::World;
use rp_tree::Expr;

/// A dict display.
///
/// # Errors
/// `Memory` where a growth was refused, and `TooLong` at 2^32 - 1 keys and values, as all that follow.
#[inline(never)]
#[tactic(auto, using(rp_store::proofs::CallerLemmas::goes_on, rp_engine::proofs::Worlds::shape_stored))]
pub fn dict_display<'u>(
    machine: &mut Machine<'u>,
    world: &mut World,
    pairs: &'u [(Expr, Expr)],
) -> Result<(), Halt>
    requires ready { IsReady machine.old.units.now machine.old.frame machine.old.values world.old }
    ensures law { OnOk result
        (Evaluates (forms.dict (does.pairs pairs.now)) machine.old world.old machine.new world.new) }
    ensures ready { IsReady machine.new.units.now machine.new.frame machine.new.values world.new }
    ensures shape { KeepsShape world.old.store.heap world.new.store.heap }
    ensures fewer { world.new.running.meter.left ≤ world.old.running.meter.left }
    ensures less { OnOk result (loads.Lowers 0 machine.old world.old machine.new world.new) }
{
    match take_step(world) {
        Ok(()) => entries(machine, world, 0, pairs),
        Err(end) => machine.no_value(end),
    }
}

/// Goes on with the pairs that are left; so many keys and values before them are at hand.
#[inline(always)]
fn entries<'u>(
    machine: &mut Machine<'u>,
    world: &mut World,
    count: u32,
    rest: &'u [(Expr, Expr)],
) -> Result<(), Halt>
    requires ready { IsReady machine.old.units.now machine.old.frame machine.old.values world.old }
    ensures law { OnOk result (Gathers Display.Dict count (parts (does.pairs rest.now))
        machine.old world.old machine.new world.new) }
    ensures ready { IsReady machine.new.units.now machine.new.frame machine.new.values world.new }
    ensures shape { KeepsShape world.old.store.heap world.new.store.heap }
    ensures fewer { world.new.running.meter.left ≤ world.old.running.meter.left }
    ensures less { OnOk result (loads.Lowers (2 + loads.pairs rest.now) machine.old world.old machine.new world.new) }
{
    match rest {
        [] => make_display(machine, world, Display::Dict, count),
        [pair, rest @ ..] => dict_key(machine, world, count, &pair.0, &pair.1, rest),
    }
}

/// Goes on with the next key, and its value.
#[inline(always)]
fn dict_key<'u>(
    machine: &mut Machine<'u>,
    world: &mut World,
    count: u32,
    key: &'u Expr,
    value: &'u Expr,
    rest: &'u [(Expr, Expr)],
) -> Result<(), Halt>
    requires ready { IsReady machine.old.units.now machine.old.frame machine.old.values world.old }
    ensures law { OnOk result (Gathers Display.Dict count
        (does.expr key.now ∷ does.expr value.now ∷ parts (does.pairs rest.now))
        machine.old world.old machine.new world.new) }
    ensures ready { IsReady machine.new.units.now machine.new.frame machine.new.values world.new }
    ensures shape { KeepsShape world.old.store.heap world.new.store.heap }
    ensures fewer { world.new.running.meter.left ≤ world.old.running.meter.left }
    ensures less { OnOk result (loads.Lowers (4 + loads.inside key.now + loads.inside value.now + loads.pairs rest.now)
        machine.old world.old machine.new world.new) }
{
    match machine.leaf(world, key) {
        Ok(Some(k)) => machine.wait_with(
            k,
            Task::Expr(ExprTask::DictKey(count, value, rest)),
            Control::Value,
        ),
        Ok(None) => machine.wait(
            Task::Expr(ExprTask::DictKey(count, value, rest)),
            Control::Expression(key),
        ),
        Err(end) => no_element(machine, count, end),
    }
}

/// With a key; so many keys and values before it are at hand.
#[inline(always)]
pub fn after_dict_key<'u>(
    machine: &mut Machine<'u>,
    world: &mut World,
    count: u32,
    key: Value,
    value: &'u Expr,
    rest: &'u [(Expr, Expr)],
) -> Result<(), Halt>
    requires ready { IsReady machine.old.units.now machine.old.frame machine.old.values world.old }
    requires key { IsFit world.old.store.heap machine.old.frame.side key }
    ensures law { OnOk result (Resumes (ExprTask.DictKey count value.entry rest.entry) key
        machine.old world.old machine.new world.new) }
    ensures ready { IsReady machine.new.units.now machine.new.frame machine.new.values world.new }
    ensures shape { KeepsShape world.old.store.heap world.new.store.heap }
    ensures fewer { world.new.running.meter.left ≤ world.old.running.meter.left }
    ensures less { OnOk result (loads.Lowers (3 + loads.inside value.now + loads.pairs rest.now)
        machine.old world.old machine.new world.new) }
{
    machine.hold(key)?;
    let count = one_more(count)?;
    dict_value(machine, world, count, value, rest)
}

/// Goes on with the value of the last key at hand.
#[inline(always)]
fn dict_value<'u>(
    machine: &mut Machine<'u>,
    world: &mut World,
    count: u32,
    value: &'u Expr,
    rest: &'u [(Expr, Expr)],
) -> Result<(), Halt>
    requires ready { IsReady machine.old.units.now machine.old.frame machine.old.values world.old }
    ensures law { OnOk result (Gathers Display.Dict count (does.expr value.now ∷ parts (does.pairs rest.now))
        machine.old world.old machine.new world.new) }
    ensures ready { IsReady machine.new.units.now machine.new.frame machine.new.values world.new }
    ensures shape { KeepsShape world.old.store.heap world.new.store.heap }
    ensures fewer { world.new.running.meter.left ≤ world.old.running.meter.left }
    ensures less { OnOk result (loads.Lowers (3 + loads.inside value.now + loads.pairs rest.now)
        machine.old world.old machine.new world.new) }
{
    match machine.leaf(world, value) {
        Ok(Some(v)) => machine.wait_with(
            v,
            Task::Expr(ExprTask::DictValue(count, rest)),
            Control::Value,
        ),
        Ok(None) => machine.wait(
            Task::Expr(ExprTask::DictValue(count, rest)),
            Control::Expression(value),
        ),
        Err(end) => no_element(machine, count, end),
    }
}

/// With the value of a key; so many keys and values before it are at hand.
#[inline(always)]
pub fn after_dict_value<'u>(
    machine: &mut Machine<'u>,
    world: &mut World,
    count: u32,
    value: Value,
    rest: &'u [(Expr, Expr)],
) -> Result<(), Halt>
    requires ready { IsReady machine.old.units.now machine.old.frame machine.old.values world.old }
    requires value { IsFit world.old.store.heap machine.old.frame.side value }
    ensures law { OnOk result (Resumes (ExprTask.DictValue count rest.entry) value
        machine.old world.old machine.new world.new) }
    ensures ready { IsReady machine.new.units.now machine.new.frame machine.new.values world.new }
    ensures shape { KeepsShape world.old.store.heap world.new.store.heap }
    ensures fewer { world.new.running.meter.left ≤ world.old.running.meter.left }
    ensures less { OnOk result (loads.Lowers (2 + loads.pairs rest.now) machine.old world.old machine.new world.new) }
{
    machine.hold(value)?;
    let count = one_more(count)?;
    entries(machine, world, count, rest)
}
