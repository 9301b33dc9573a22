//! Calls with named arguments (Python Language Reference, Calls).
#![tactic(auto, using(rp_store::proofs::CallerLemmas::goes_on))]

ghost use Rattle.std.specs.Prelude.{◌≡◌, ◌≢◌, ◌∷◌, ◌+◌, ◌≤◌, [], All, IfOk, OnOk, drop, suc};
ghost use Rattle.rp_access.specs.Moment.{state_of};
ghost use Rattle.rp_frame.specs.Top.{top};
ghost use Rattle.rp_meaning.specs.Calls.{with_named};
ghost use Rattle.rp_meaning.specs.Frame.{Run};
ghost use Rattle.rp_proxy.specs.declared.world.World.{World as TheWorld};
ghost use Rattle.rp_access.specs.Comes.{IsEnd};
ghost use Rattle.rp_base.specs.Names.{word_of};
ghost use Rattle.rp_base.specs.declared.value.Value.{Value as TheValue};
ghost use Rattle.rp_meaning.specs.State.{Outcome, State};
ghost use Rattle.rp_store.specs.Kept.{IsFit};
ghost use Rattle.rp_store.specs.Shape.{KeepsShape};
ghost use Rattle.rp_engine.specs.ArgumentSteps.{with_all, with_all_named};
ghost use Rattle.rp_expressions.specs.Arguments.{NamedCalls};
ghost use Rattle.rp_engine.specs.Does as does;
ghost use Rattle.rp_engine.specs.HandSteps.{held_by, size_of};
ghost use Rattle.rp_engine.specs.Law.{Resumes, frame_in, rest_of};
ghost use Rattle.rp_engine.specs.Loads as loads;
ghost use Rattle.rp_engine.specs.Ready.{IsReady};
ghost use Rattle.rp_engine.specs.Rest.{gave, rest};

use crate::arguments::{arguments, call_at_hand};
use rp_access::{ask_named, spread_named};
use rp_attributes::word_text;
use rp_base::{Kind, Memory, Name, OpEnd, Rock, Text, Value};
use rp_engine::{Halt, Hand, Machine, more_by, one_more};
use rp_frame::{Control, ExprTask, Task};
use rp_ops::raised;
use rp_proxy::World;
use rp_tree::{Arg, Trailer};
use std::alloc::Global;

/// With an argument with a name; the callee and these arguments before it are at hand.
///
/// # Errors
/// `Memory` where a growth was refused, and `TooLong` at more than 2^32 - 1 arguments, as all that follow.
#[inline(never)]
pub fn after_named<'u>(
    machine: &mut Machine<'u>,
    world: &mut World,
    hand: Hand,
    name: Name,
    value: Value,
    args: &'u [Arg],
    rest: &'u [Trailer],
) -> Result<(), Halt>
    requires ready { IsReady machine.old.units.now machine.old.frame machine.old.values world.old }
    requires value { IsFit world.old.store.heap machine.old.frame.side value }
    ensures law { OnOk result (Resumes (ExprTask.NamedArgument hand.plain hand.named name args.entry rest.entry)
        value machine.old world.old machine.new world.new) }
    ensures ready { IsReady machine.new.units.now machine.new.frame machine.new.values world.new }
    ensures shape { KeepsShape world.old.store.heap world.new.store.heap }
    ensures fewer { world.new.running.meter.left ≤ world.old.running.meter.left }
    ensures less { OnOk result (loads.Lowers (2 + loads.called + loads.args args.now)
        machine.old world.old machine.new world.new) }
{
    let word = argument_word(machine.alloc, world, name)?;
    with_word(machine, world, hand, word, value, args, rest)
}

/// With the word of the argument's name.
#[inline(always)]
fn with_word<'u>(
    machine: &mut Machine<'u>,
    world: &mut World,
    hand: Hand,
    word: Text,
    value: Value,
    args: &'u [Arg],
    trailers: &'u [Trailer],
) -> Result<(), Halt>
    requires ready { IsReady machine.old.units.now machine.old.frame machine.old.values world.old }
    requires value { IsFit world.old.store.heap machine.old.frame.side value }
    ensures law { OnOk result ((base : Run) → rest_of base machine.new (state_of world.new)
        ≡ rest machine.old.tasks (gave (frame_in base machine.old) (drop (suc (size_of hand)) machine.old.values)
        (with_all (does.args args.now) (does.trailers trailers.now) (top (drop (size_of hand) machine.old.values))
        (with_named (held_by hand machine.old.values) ((word, value) ∷ [])) (frame_in base machine.old)
        (state_of world.old)))) }
    ensures ready { IsReady machine.new.units.now machine.new.frame machine.new.values world.new }
    ensures shape { KeepsShape world.old.store.heap world.new.store.heap }
    ensures fewer { world.new.running.meter.left ≤ world.old.running.meter.left }
    ensures less { OnOk result (loads.Lowers (2 + loads.called + loads.args args.now)
        machine.old world.old machine.new world.new) }
{
    hold_pair(machine, word, value)?;
    let named = one_more(hand.named)?;
    let plain = hand.plain;
    arguments(machine, world, Hand { plain, named }, args, trailers)
}

/// With what is spread over arguments with names; the callee and these arguments before it are at hand.
#[inline(never)]
pub fn after_stars<'u>(
    machine: &mut Machine<'u>,
    world: &mut World,
    hand: Hand,
    value: Value,
    args: &'u [Arg],
    rest: &'u [Trailer],
) -> Result<(), Halt>
    requires ready { IsReady machine.old.units.now machine.old.frame machine.old.values world.old }
    requires value { IsFit world.old.store.heap machine.old.frame.side value }
    ensures law { OnOk result (Resumes (ExprTask.StarsArgument hand.plain hand.named args.entry rest.entry) value
        machine.old world.old machine.new world.new) }
    ensures ready { IsReady machine.new.units.now machine.new.frame machine.new.values world.new }
    ensures shape { KeepsShape world.old.store.heap world.new.store.heap }
    ensures fewer { world.new.running.meter.left ≤ world.old.running.meter.left }
    ensures less { OnOk result (loads.Lowers (2 + loads.called + loads.args args.now)
        machine.old world.old machine.new world.new) }
{
    match spread_named(machine.alloc, world, machine.frame.side, &value) {
        Ok(named) => named_over(machine, world, hand, named, args, rest),
        Err(end) => without_hand(machine, hand, end),
    }
}

/// With the arguments with names that are spread.
#[inline(always)]
fn named_over<'u>(
    machine: &mut Machine<'u>,
    world: &mut World,
    hand: Hand,
    named: Vec<(Text, Value)>,
    args: &'u [Arg],
    trailers: &'u [Trailer],
) -> Result<(), Halt>
    requires ready { IsReady machine.old.units.now machine.old.frame machine.old.values world.old }
    requires fit { All (λ n. IsFit world.old.store.heap machine.old.frame.side n.1) named.items }
    ensures law { OnOk result ((base : Run) → rest_of base machine.new (state_of world.new)
        ≡ rest machine.old.tasks (gave (frame_in base machine.old) (drop (suc (size_of hand)) machine.old.values)
        (with_all (does.args args.now) (does.trailers trailers.now) (top (drop (size_of hand) machine.old.values))
        (with_named (held_by hand machine.old.values) named.items) (frame_in base machine.old) (state_of world.old)))) }
    ensures ready { IsReady machine.new.units.now machine.new.frame machine.new.values world.new }
    ensures shape { KeepsShape world.old.store.heap world.new.store.heap }
    ensures fewer { world.new.running.meter.left ≤ world.old.running.meter.left }
    ensures less { OnOk result (loads.Lowers (2 + loads.called + loads.args args.now)
        machine.old world.old machine.new world.new) }
{
    let count = more_by(hand.named, named.len())?;
    hold_named(machine, named)?;
    let plain = hand.plain;
    arguments(
        machine,
        world,
        Hand {
            plain,
            named: count,
        },
        args,
        trailers,
    )
}

/// Keeps values with names at hand, each upon its name.
///
/// # Errors
/// `Memory` where a growth was refused.
pub(crate) fn hold_named<'u>(
    machine: &mut Machine<'u>,
    named: Vec<(Text, Value)>,
) -> Result<(), Memory>
    ensures held { OnOk result (machine.new ≡ record machine.old {
      values = with_all_named named.items machine.old.values;
    }) }
    ensures ready { (w : TheWorld) → IsReady machine.old.units.now machine.old.frame machine.old.values w
        → All (λ n. IsFit w.store.heap machine.old.frame.side n.1) named.items
        → IsReady machine.new.units.now machine.new.frame machine.new.values w }
{
    for (word, value) in named {
        hold_pair(machine, word, value)?;
    }
    Ok(())
}

/// Keeps a value at hand, upon its name.
///
/// # Errors
/// `Memory` where a growth was refused.
fn hold_pair<'u>(machine: &mut Machine<'u>, word: Text, value: Value) -> Result<(), Memory>
    ensures held { OnOk result (machine.new ≡ record machine.old {
      values = value ∷ Value.Rock (Rock.Text word) ∷ machine.old.values;
    }) }
    ensures ready { (w : TheWorld) → IsReady machine.old.units.now machine.old.frame machine.old.values w
        → IsFit w.store.heap machine.old.frame.side value
        → IsReady machine.new.units.now machine.new.frame machine.new.values w }
{
    machine.hold(Value::Rock(Rock::Text(word)))?;
    machine.hold(value)
}

/// Calls what is at hand, with names or without; nothing is called where no name and value are at hand.
#[inline(always)]
pub(crate) fn call_hand<'u>(
    machine: &mut Machine<'u>,
    world: &mut World,
    hand: Hand,
    rest: &'u [Trailer],
) -> Result<(), Halt>
    requires ready { IsReady machine.old.units.now machine.old.frame machine.old.values world.old }
    ensures law { OnOk result (NamedCalls hand [] (does.trailers rest.now)
        machine.old world.old machine.new world.new) }
    ensures ready { IsReady machine.new.units.now machine.new.frame machine.new.values world.new }
    ensures shape { KeepsShape world.old.store.heap world.new.store.heap }
    ensures fewer { world.new.running.meter.left ≤ world.old.running.meter.left }
    ensures less { OnOk result (loads.Lowers (2 + loads.called) machine.old world.old machine.new world.new) }
{
    if hand.named == 0 {
        return call_at_hand(machine, world, hand.plain, rest);
    }
    if machine.values.last(2).len() < 2 {
        let end = raised(machine.alloc, Kind::TypeError, "call");
        return without_hand(machine, hand, end);
    }
    call_named(machine, world, hand, rest)
}

/// Asks for the call of what is at hand, once that is decided.
#[inline(never)]
fn call_named<'u>(
    machine: &mut Machine<'u>,
    world: &mut World,
    hand: Hand,
    rest: &'u [Trailer],
) -> Result<(), Halt>
    requires ready { IsReady machine.old.units.now machine.old.frame machine.old.values world.old }
    requires named { (held_by hand machine.old.values).named ≢ [] }
    ensures law { OnOk result (NamedCalls hand [] (does.trailers rest.now)
        machine.old world.old machine.new world.new) }
    ensures ready { IsReady machine.new.units.now machine.new.frame machine.new.values world.new }
    ensures shape { KeepsShape world.old.store.heap world.new.store.heap }
    ensures fewer { world.new.running.meter.left ≤ world.old.running.meter.left }
    ensures less { OnOk result (loads.Lowers (1 + loads.called) machine.old world.old machine.new world.new) }
{
    let nil = Value::Rock(Rock::Nil);
    match ask_named(
        machine.alloc,
        world,
        machine.values.under(hand.size(), &nil),
    ) {
        Ok(()) => machine.wait(
            Task::Expr(ExprTask::Trailers(rest)),
            Control::Call(hand.plain, hand.named),
        ),
        Err(end) => without_hand(machine, hand, end),
    }
}

/// A call has no value; the callee and the arguments are dropped.
#[inline(never)]
pub fn without_hand<'u>(machine: &mut Machine<'u>, hand: Hand, end: OpEnd) -> Result<(), Halt>
    ensures law { OnOk result ((base : Run) (s : State) (o : Outcome TheValue) → IsEnd end s o
        → rest_of base machine.new s
        ≡ rest machine.old.tasks (gave (frame_in base machine.old) (drop (suc (size_of hand)) machine.old.values) o)) }
    ensures ready { (w : TheWorld) → IsReady machine.old.units.now machine.old.frame machine.old.values w
        → IsReady machine.new.units.now machine.new.frame machine.new.values w }
    ensures less { OnOk result (loads.IsUnder 0 machine.old machine.new) }
{
    machine.forget(hand.size() + 1);
    machine.no_value(end)
}

/// The word of an argument's name, as a text whose bytes the store counts: a `**` parameter keeps it as a key.
///
/// # Errors
/// `Memory` where a growth was refused, or the store holds no more bytes of such texts.
fn argument_word(alloc: Global, world: &mut World, name: Name) -> Result<Text, Memory>
    ensures word { IfOk result (λ word. word ≡ word_of world.old.names name) }
    ensures same { world.new ≡ world.old }
    ensures fewer { world.new.running.meter.left ≤ world.old.running.meter.left }
{
    word_text(alloc, &mut world.store, &world.names, name)
}
