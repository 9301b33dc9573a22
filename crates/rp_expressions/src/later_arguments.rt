//! Arguments without a name behind some with one (Python Language Reference, Calls).
#![tactic(auto, using(rp_store::proofs::CallerLemmas::goes_on))]

ghost use Rattle.std.specs.Prelude.{◌≡◌, ◌+◌, ◌*◌, ◌∷◌, ◌++◌, ◌≤◌, [], IfOk, OnOk, drop, length, reverse, suc};
ghost use Rattle.rp_access.specs.Moment.{state_of};
ghost use Rattle.rp_frame.specs.Top.{top};
ghost use Rattle.rp_meaning.specs.Calls.{with_plain};
ghost use Rattle.rp_meaning.specs.Frame.{Run};
ghost use Rattle.rp_proxy.specs.declared.world.World.{World as TheWorld};
ghost use Rattle.rp_store.specs.Kept.{AreFit, IsFit};
ghost use Rattle.rp_store.specs.Shape.{KeepsShape};
ghost use Rattle.rp_engine.specs.ArgumentSteps.{with_all, with_all_named};
ghost use Rattle.rp_engine.specs.Does as does;
ghost use Rattle.rp_engine.specs.HandSteps.{held_by, size_of};
ghost use Rattle.rp_engine.specs.Law.{Resumes, frame_in, rest_of};
ghost use Rattle.rp_engine.specs.Loads as loads;
ghost use Rattle.rp_engine.specs.Ready.{IsReady};
ghost use Rattle.rp_engine.specs.Rest.{gave, rest};

use crate::arguments::arguments;
use crate::named_arguments::{hold_named, without_hand};
use crate::named_values::named_at_hand;
use rp_access::spread;
use rp_base::{Memory, Value};
use rp_engine::{Halt, Hand, Machine, more_by};
use rp_frame::ExprTask;
use rp_proxy::World;
use rp_tree::{Arg, Trailer};
use std::alloc::Global;

/// With an argument without a name; the callee and these arguments before it are at hand.
///
/// # Errors
/// `Memory` where a growth was refused, and `TooLong` at more than 2^32 - 1 arguments, as all that follow.
#[inline(never)]
pub fn after_later<'u>(
    machine: &mut Machine<'u>,
    world: &mut World,
    hand: Hand,
    value: Value,
    args: &'u [Arg],
    rest: &'u [Trailer],
) -> Result<(), Halt>
    requires ready { IsReady machine.old.units.now machine.old.frame machine.old.values world.old }
    requires value { IsFit world.old.store.heap machine.old.frame.side value }
    ensures law { OnOk result (Resumes (ExprTask.LaterArgument hand.plain hand.named args.entry rest.entry) value
        machine.old world.old machine.new world.new) }
    ensures ready { IsReady machine.new.units.now machine.new.frame machine.new.values world.new }
    ensures shape { KeepsShape world.old.store.heap world.new.store.heap }
    ensures fewer { world.new.running.meter.left ≤ world.old.running.meter.left }
    ensures less { OnOk result (loads.Lowers (2 + loads.called + loads.args args.now)
        machine.old world.old machine.new world.new) }
{
    let values = alone(machine.alloc, value)?;
    plain_over(machine, world, hand, values, args, rest)
}

/// With what is spread over arguments without a name; the callee and these arguments before it are at hand.
#[inline(never)]
pub fn after_later_star<'u>(
    machine: &mut Machine<'u>,
    world: &mut World,
    hand: Hand,
    value: Value,
    args: &'u [Arg],
    rest: &'u [Trailer],
) -> Result<(), Halt>
    requires ready { IsReady machine.old.units.now machine.old.frame machine.old.values world.old }
    requires value { IsFit world.old.store.heap machine.old.frame.side value }
    ensures law { OnOk result (Resumes (ExprTask.LaterStar hand.plain hand.named args.entry rest.entry) value
        machine.old world.old machine.new world.new) }
    ensures ready { IsReady machine.new.units.now machine.new.frame machine.new.values world.new }
    ensures shape { KeepsShape world.old.store.heap world.new.store.heap }
    ensures fewer { world.new.running.meter.left ≤ world.old.running.meter.left }
    ensures less { OnOk result (loads.Lowers (2 + loads.called + loads.args args.now)
        machine.old world.old machine.new world.new) }
{
    match spread(machine.alloc, world, machine.frame.side, &value) {
        Ok(values) => plain_over(machine, world, hand, values, args, rest),
        Err(end) => without_hand(machine, hand, end),
    }
}

/// With values that are arguments without a name.
#[inline(always)]
fn plain_over<'u>(
    machine: &mut Machine<'u>,
    world: &mut World,
    hand: Hand,
    values: Vec<Value>,
    args: &'u [Arg],
    trailers: &'u [Trailer],
) -> Result<(), Halt>
    requires ready { IsReady machine.old.units.now machine.old.frame machine.old.values world.old }
    requires fit { AreFit world.old.store.heap machine.old.frame.side values.items }
    ensures law { OnOk result ((base : Run) → rest_of base machine.new (state_of world.new)
        ≡ rest machine.old.tasks (gave (frame_in base machine.old) (drop (suc (size_of hand)) machine.old.values)
        (with_all (does.args args.now) (does.trailers trailers.now) (top (drop (size_of hand) machine.old.values))
        (with_plain (held_by hand machine.old.values) values.items) (frame_in base machine.old)
        (state_of world.old)))) }
    ensures ready { IsReady machine.new.units.now machine.new.frame machine.new.values world.new }
    ensures shape { KeepsShape world.old.store.heap world.new.store.heap }
    ensures fewer { world.new.running.meter.left ≤ world.old.running.meter.left }
    ensures less { OnOk result (loads.Lowers (2 + loads.called + loads.args args.now)
        machine.old world.old machine.new world.new) }
{
    let all = hold_plain(machine, hand, values)?;
    arguments(machine, world, all, args, trailers)
}

/// Keeps values at hand behind the arguments that have no name; those that have one stand upon them again. How many
/// arguments are at hand then.
///
/// # Errors
/// `Memory` where a growth was refused, and `TooLong` at more than 2^32 - 1 arguments.
fn hold_plain<'u>(machine: &mut Machine<'u>, hand: Hand, values: Vec<Value>) -> Result<Hand, Halt>
    ensures held { OnOk result (machine.new ≡ record machine.old {
      values = with_all_named (held_by hand machine.old.values).named
          (reverse values.items ++ drop (2 * hand.named) machine.old.values);
    }) }
    ensures plain { IfOk result (λ all. all.plain ≡ hand.plain + length values.items) }
    ensures named { IfOk result (λ all. all.named ≡ length (held_by hand machine.old.values).named) }
    ensures ready { (w : TheWorld) → IsReady machine.old.units.now machine.old.frame machine.old.values w
        → AreFit w.store.heap machine.old.frame.side values.items
        → IsReady machine.new.units.now machine.new.frame machine.new.values w }
{
    let named = named_at_hand(machine, hand)?;
    let plain = more_by(hand.plain, values.len())?;
    let count = more_by(0, named.len())?;
    machine.forget(2 * hand.named as usize);
    machine.values.add(values)?;
    hold_named(machine, named)?;
    Ok(Hand {
        plain,
        named: count,
    })
}

/// One value alone.
///
/// # Errors
/// `Memory` where a growth was refused.
fn alone(alloc: Global, value: Value) -> Result<Vec<Value>, Memory>
    ensures { IfOk result (λ all. all.items ≡ value ∷ []) }
{
    let all = vec![in alloc; value]?;
    Ok(all)
}
