//! Calls: the arguments, and what is done once they are at hand (Python Language Reference, Calls).
#![tactic(auto, using(rp_store::proofs::CallerLemmas::goes_on))]

ghost use Rattle.std.specs.Prelude.{◌≡◌, ◌∷◌, ◌+◌, ◌≤◌, [], suc, IfNone, IfOk, IfSome, OnOk};
ghost use Rattle.std.specs.Prelude.{drop, is_some, not, reverse, take};
ghost use Rattle.rp_frame.specs.Top.{top};
ghost use Rattle.rp_meaning.specs.Expressions as forms;
ghost use Rattle.rp_meaning.specs.Frame.{Run};
ghost use Rattle.rp_meaning.specs.State.{State};
ghost use Rattle.rp_proxy.specs.Faithful.{IsFaithful};
ghost use Rattle.rp_proxy.specs.declared.world.World.{World as TheWorld};
ghost use Rattle.rp_store.specs.Kept.{IsFit};
ghost use Rattle.rp_store.specs.Shape.{KeepsShape};
ghost use Rattle.rp_engine.specs.ArgumentSteps.{with_arguments};
ghost use Rattle.rp_expressions.specs.Arguments.{AsksLeft, Calls, DoesAs, NamedCalls};
ghost use Rattle.rp_access.specs.Calling.{CallComes, IsCallLeft};
ghost use Rattle.rp_engine.specs.DefinitionSteps.{callee_of, with_called};
ghost use Rattle.rp_engine.specs.Does as does;
ghost use Rattle.rp_engine.specs.Law.{Evaluates, Resumes, frame_in, rest_of};
ghost use Rattle.rp_engine.specs.Loads as loads;
ghost use Rattle.rp_access.specs.Moment.{state_of};
ghost use Rattle.rp_engine.specs.Ready.{IsReady};
ghost use Rattle.rp_engine.specs.Rest.{gave, rest};
ghost use Rattle.rp_engine.specs.TrailerSteps.{next_trailer};

use crate::later_arguments::after_later_star;
use crate::named_arguments::{call_hand, without_hand};
use crate::primaries::more_trailers;
use crate::special_methods::length_by_method;
use rp_access::{call, take_step};
use rp_base::{OpEnd, Rock, Value};
use rp_engine::{Halt, Hand, Machine, one_more};
use rp_frame::{Control, ExprTask, Task};
use rp_proxy::World;
use rp_tree::{Arg, Expr, Trailer};

/// Goes on with a call, with its step.
///
/// # Errors
/// `Memory` where a growth was refused, and `TooLong` at more than 2^32 - 1 arguments, as all that follow.
#[inline(always)]
#[tactic(auto, using(rp_store::proofs::CallerLemmas::goes_on, rp_engine::proofs::Worlds::shape_stored))]
pub(crate) fn begin_call<'u>(
    machine: &mut Machine<'u>,
    world: &mut World,
    f: Value,
    args: &'u [Arg],
    rest: &'u [Trailer],
) -> Result<(), Halt>
    requires ready { IsReady machine.old.units.now machine.old.frame machine.old.values world.old }
    requires value { IsFit world.old.store.heap machine.old.frame.side f }
    ensures law { OnOk result (Evaluates (next_trailer (forms.call (does.args args.now)) (does.trailers rest.now) f)
        machine.old world.old machine.new world.new) }
    ensures ready { IsReady machine.new.units.now machine.new.frame machine.new.values world.new }
    ensures shape { KeepsShape world.old.store.heap world.new.store.heap }
    ensures fewer { world.new.running.meter.left ≤ world.old.running.meter.left }
    ensures less { OnOk result (loads.Lowers 0 machine.old world.old machine.new world.new) }
{
    match take_step(world) {
        Ok(()) => first_argument(machine, world, f, args, rest),
        Err(end) => machine.no_value(end),
    }
}

/// Goes on with the arguments of a call.
#[inline(always)]
fn first_argument<'u>(
    machine: &mut Machine<'u>,
    world: &mut World,
    f: Value,
    args: &'u [Arg],
    rest: &'u [Trailer],
) -> Result<(), Halt>
    requires ready { IsReady machine.old.units.now machine.old.frame machine.old.values world.old }
    requires value { IsFit world.old.store.heap machine.old.frame.side f }
    ensures law { OnOk result (Evaluates (with_arguments (does.args args.now) (does.trailers rest.now) f [])
        machine.old world.old machine.new world.new) }
    ensures ready { IsReady machine.new.units.now machine.new.frame machine.new.values world.new }
    ensures shape { KeepsShape world.old.store.heap world.new.store.heap }
    ensures fewer { world.new.running.meter.left ≤ world.old.running.meter.left }
{
    machine.hold(f)?;
    arguments(machine, world, Hand { plain: 0, named: 0 }, args, rest)
}

/// Goes on with the arguments that are left; the callee and these before them are at hand.
#[inline(always)]
pub(crate) fn arguments<'u>(
    machine: &mut Machine<'u>,
    world: &mut World,
    hand: Hand,
    args: &'u [Arg],
    rest: &'u [Trailer],
) -> Result<(), Halt>
    requires ready { IsReady machine.old.units.now machine.old.frame machine.old.values world.old }
    ensures law { OnOk result (NamedCalls hand (does.args args.now) (does.trailers rest.now)
        machine.old world.old machine.new world.new) }
    ensures ready { IsReady machine.new.units.now machine.new.frame machine.new.values world.new }
    ensures shape { KeepsShape world.old.store.heap world.new.store.heap }
    ensures fewer { world.new.running.meter.left ≤ world.old.running.meter.left }
    ensures less { OnOk result (loads.Lowers (2 + loads.called + loads.args args.now)
        machine.old world.old machine.new world.new) }
{
    match args {
        [] => call_hand(machine, world, hand, rest),
        [arg, args @ ..] => argument(machine, hand, arg, args, rest),
    }
}

/// Goes on with the next argument.
#[inline(always)]
fn argument<'u>(
    machine: &mut Machine<'u>,
    hand: Hand,
    arg: &'u Arg,
    args: &'u [Arg],
    rest: &'u [Trailer],
) -> Result<(), Halt>
    ensures law { OnOk result ((w : TheWorld) → NamedCalls hand (does.arg arg.now ∷ does.args args.now)
        (does.trailers rest.now) machine.old w machine.new w) }
    ensures ready { (w : TheWorld) → IsReady machine.old.units.now machine.old.frame machine.old.values w
        → IsReady machine.new.units.now machine.new.frame machine.new.values w }
    ensures less { OnOk result (loads.IsUnder (2 + loads.called + (loads.arg arg.now + loads.args args.now))
        machine.old machine.new) }
{
    match arg {
        Arg::Plain(x) => machine.wait(
            Task::Expr(plain_task(hand, args, rest)),
            Control::Expression(x),
        ),
        Arg::Star(x) => machine.wait(
            Task::Expr(star_task(hand, args, rest)),
            Control::Expression(x),
        ),
        Arg::Key(name, x) => machine.wait(
            Task::Expr(ExprTask::NamedArgument(hand.plain, hand.named, *name, args, rest)),
            Control::Expression(x),
        ),
        Arg::Stars(x) => machine.wait(
            Task::Expr(ExprTask::StarsArgument(hand.plain, hand.named, args, rest)),
            Control::Expression(x),
        ),
    }
}

/// What waits for an argument without a name, which comes before those at hand that have one.
#[inline(always)]
fn plain_task<'u>(hand: Hand, args: &'u [Arg], rest: &'u [Trailer]) -> ExprTask<'u>
    ensures does { DoesAs result (ExprTask.LaterArgument hand.plain hand.named args.entry rest.entry) }
    ensures held { loads.expr_task result ≡ loads.called + loads.args args.now }
{
    if hand.named == 0 {
        return ExprTask::Argument(hand.plain, args, rest);
    }
    ExprTask::LaterArgument(hand.plain, hand.named, args, rest)
}

/// The same of one with a star.
#[inline(always)]
fn star_task<'u>(hand: Hand, args: &'u [Arg], rest: &'u [Trailer]) -> ExprTask<'u>
    ensures does { DoesAs result (ExprTask.LaterStar hand.plain hand.named args.entry rest.entry) }
    ensures held { loads.expr_task result ≡ loads.called + loads.args args.now }
{
    if hand.named == 0 {
        return ExprTask::StarArgument(hand.plain, args, rest);
    }
    ExprTask::LaterStar(hand.plain, hand.named, args, rest)
}

/// With what is spread; the callee and so many arguments before it are at hand.
#[inline(always)]
pub fn after_star<'u>(
    machine: &mut Machine<'u>,
    world: &mut World,
    count: u32,
    value: Value,
    args: &'u [Arg],
    rest: &'u [Trailer],
) -> Result<(), Halt>
    requires ready { IsReady machine.old.units.now machine.old.frame machine.old.values world.old }
    requires value { IsFit world.old.store.heap machine.old.frame.side value }
    ensures law { OnOk result (Resumes (ExprTask.StarArgument count args.entry rest.entry) value
        machine.old world.old machine.new world.new) }
    ensures ready { IsReady machine.new.units.now machine.new.frame machine.new.values world.new }
    ensures shape { KeepsShape world.old.store.heap world.new.store.heap }
    ensures fewer { world.new.running.meter.left ≤ world.old.running.meter.left }
    ensures less { OnOk result (loads.Lowers (2 + loads.called + loads.args args.now)
        machine.old world.old machine.new world.new) }
{
    let hand = Hand {
        plain: count,
        named: 0,
    };
    after_later_star(machine, world, hand, value, args, rest)
}

/// With an argument; the callee and so many arguments before it are at hand.
#[inline(always)]
pub fn after_argument<'u>(
    machine: &mut Machine<'u>,
    world: &mut World,
    count: u32,
    value: Value,
    args: &'u [Arg],
    rest: &'u [Trailer],
) -> Result<(), Halt>
    requires ready { IsReady machine.old.units.now machine.old.frame machine.old.values world.old }
    requires value { IsFit world.old.store.heap machine.old.frame.side value }
    ensures law { OnOk result (Resumes (ExprTask.Argument count args.entry rest.entry) value
        machine.old world.old machine.new world.new) }
    ensures ready { IsReady machine.new.units.now machine.new.frame machine.new.values world.new }
    ensures shape { KeepsShape world.old.store.heap world.new.store.heap }
    ensures fewer { world.new.running.meter.left ≤ world.old.running.meter.left }
    ensures less { OnOk result (loads.Lowers (2 + loads.called + loads.args args.now)
        machine.old world.old machine.new world.new) }
{
    machine.hold(value)?;
    let plain = one_more(count)?;
    arguments(machine, world, Hand { plain, named: 0 }, args, rest)
}

/// Calls what is at hand with the arguments upon it.
#[inline(never)]
pub(crate) fn call_at_hand<'u>(
    machine: &mut Machine<'u>,
    world: &mut World,
    count: u32,
    rest: &'u [Trailer],
) -> Result<(), Halt>
    requires ready { IsReady machine.old.units.now machine.old.frame machine.old.values world.old }
    ensures law { OnOk result (Calls count [] (does.trailers rest.now) machine.old world.old machine.new world.new) }
    ensures ready { IsReady machine.new.units.now machine.new.frame machine.new.values world.new }
    ensures shape { KeepsShape world.old.store.heap world.new.store.heap }
    ensures fewer { world.new.running.meter.left ≤ world.old.running.meter.left }
    ensures less { OnOk result (loads.Lowers (2 + loads.called) machine.old world.old machine.new world.new) }
{
    match called(machine, world, count as usize) {
        Ok(Some(value)) => with_result(machine, count, value, rest),
        Ok(None) => ask_left(machine, count, rest),
        Err(end) => without_hand(
            machine,
            Hand {
                plain: count,
                named: 0,
            },
            end,
        ),
    }
}

/// Asks for the call of what is at hand, whose decision is made: of code of the store, or of `len` of an instance whose
/// class has a method for it.
#[inline(always)]
fn ask_left<'u>(machine: &mut Machine<'u>, count: u32, trailers: &'u [Trailer]) -> Result<(), Halt>
    ensures law { OnOk result (AsksLeft count (does.trailers trailers.now) machine.old machine.new) }
    ensures ready { (w : TheWorld) → IsReady machine.old.units.now machine.old.frame machine.old.values w
        → IsReady machine.new.units.now machine.new.frame machine.new.values w }
    ensures less { OnOk result (loads.IsUnder (2 + loads.called) machine.old machine.new) }
{
    let nil = Value::Rock(Rock::Nil);
    if is_rock(machine.values.under(count as usize, &nil)) {
        return length_by_method(machine, count, trailers);
    }
    ask_call(machine, count, trailers)
}

/// Asks for the call of what is at hand, which is code of the store.
#[inline(always)]
fn ask_call<'u>(machine: &mut Machine<'u>, count: u32, trailers: &'u [Trailer]) -> Result<(), Halt>
    ensures law { OnOk result ((base : Run) (s : State) → rest_of base machine.new s
        ≡ rest machine.old.tasks (gave (frame_in base machine.old) (drop (suc count) machine.old.values)
        (with_called (does.trailers trailers.now) (top (drop count machine.old.values))
        (reverse (take count machine.old.values)) (frame_in base machine.old) s))) }
    ensures ready { (w : TheWorld) → IsReady machine.old.units.now machine.old.frame machine.old.values w
        → IsReady machine.new.units.now machine.new.frame machine.new.values w }
    ensures less { OnOk result (loads.IsUnder (1 + loads.called) machine.old machine.new) }
{
    machine.wait(
        Task::Expr(ExprTask::Trailers(trailers)),
        Control::Call(count, 0),
    )
}

/// Goes on with the trailers that are left; the callee and the arguments are dropped.
#[inline(always)]
fn with_result<'u>(
    machine: &mut Machine<'u>,
    count: u32,
    value: Value,
    trailers: &'u [Trailer],
) -> Result<(), Halt>
    ensures law { OnOk result ((w : TheWorld) (base : Run) → rest_of base machine.new (state_of w)
        ≡ rest machine.old.tasks (gave (frame_in base machine.old) (drop (suc count) machine.old.values)
        (forms.trailers (does.trailers trailers.now) value (frame_in base machine.old) (state_of w)))) }
    ensures ready { (w : TheWorld) → IsReady machine.old.units.now machine.old.frame machine.old.values w
        → IsFit w.store.heap machine.old.frame.side value
        → IsReady machine.new.units.now machine.new.frame machine.new.values w }
    ensures less { OnOk result (loads.IsUnder 3 machine.old machine.new) }
{
    machine.forget(count as usize + 1);
    more_trailers(machine, value, trailers)
}

/// What the call gives; the callee and the arguments stay at hand.
#[inline(always)]
fn called<'u>(
    machine: &Machine<'u>,
    world: &mut World,
    count: usize,
) -> Result<Option<Value>, OpEnd>
    requires ready { IsReady machine.now.units.now machine.now.frame machine.now.values world.old }
    ensures law { CallComes machine.now.frame.side (top (drop count machine.now.values))
        (reverse (take count machine.now.values)) result world.old world.new }
    ensures left { IfOk result (λ v. IfNone v (IsCallLeft (top (drop count machine.now.values))
        (reverse (take count machine.now.values)) (state_of world.old) (state_of world.new))) }
    ensures faithful { IsFaithful world.new }
    ensures shape { KeepsShape world.old.store.heap world.new.store.heap }
    ensures fit { IfOk result (λ v. IfSome v (IsFit world.new.store.heap machine.now.frame.side)) }
    ensures fewer { world.new.running.meter.left ≤ world.old.running.meter.left }
{
    let nil = Value::Rock(Rock::Nil);
    call(
        machine.alloc,
        world,
        machine.frame.side,
        machine.values.under(count, &nil),
        machine.values.last(count),
    )
}

/// Whether it is a rock, and no reference.
fn is_rock(value: &Value) -> bool
    ensures { result ≡ not (is_some (callee_of value.now)) }
{
    match value {
        Value::Rock(_) => true,
        Value::Ref(_) => false,
        Value::Prox(_) => false,
    }
}
