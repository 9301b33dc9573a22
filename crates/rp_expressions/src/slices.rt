//! Slices (Python Language Reference, Slicings).
#![tactic(auto, using(rp_store::proofs::CallerLemmas::goes_on))]

ghost use Rattle.std.specs.Prelude.{◌+◌, ◌≤◌, OnOk};
ghost use Rattle.rp_meaning.specs.Expressions as forms;
ghost use Rattle.rp_tree.specs.declared.expr.Arg.TheViews.{out-Slice};
ghost use Rattle.rp_store.specs.Kept.{IsFit};
ghost use Rattle.rp_store.specs.Shape.{KeepsShape};
ghost use Rattle.rp_engine.specs.Does as does;
ghost use Rattle.rp_engine.specs.ExpressionSteps.{put_to};
ghost use Rattle.rp_engine.specs.Law.{Evaluates, Resumes};
ghost use Rattle.rp_engine.specs.Loads as loads;
ghost use Rattle.rp_engine.specs.Ready.{IsReady};
ghost use Rattle.rp_engine.specs.SliceSteps.{from_lower, from_stride, from_upper, with_slice};
ghost use Rattle.rp_engine.specs.TrailerSteps.{next_trailer};

use crate::primaries::more_trailers;
use rp_access::{get_slice, take_step};
use rp_base::{Rock, Value};
use rp_engine::{Halt, Machine};
use rp_frame::{Control, ExprTask, Task};
use rp_items::SliceParts;
use rp_proxy::World;
use rp_tree::{Expr, Slice, Trailer};

/// Goes on with a slice, with its step.
///
/// # Errors
/// `Memory` where a growth was refused, as all that follow.
#[inline(never)]
pub(crate) fn sliced<'u>(
    machine: &mut Machine<'u>,
    world: &mut World,
    value: Value,
    slice: &'u Slice,
    rest: &'u [Trailer],
) -> Result<(), Halt>
    requires ready { IsReady machine.old.units.now machine.old.frame machine.old.values world.old }
    requires value { IsFit world.old.store.heap machine.old.frame.side value }
    ensures law { OnOk result (Evaluates (next_trailer (forms.slice (does.maybe (out-Slice slice.now).from)
        (does.maybe (out-Slice slice.now).to) (does.maybe (out-Slice slice.now).step)) (does.trailers rest.now)
        value) machine.old world.old machine.new world.new) }
    ensures ready { IsReady machine.new.units.now machine.new.frame machine.new.values world.new }
    ensures shape { KeepsShape world.old.store.heap world.new.store.heap }
    ensures fewer { world.new.running.meter.left ≤ world.old.running.meter.left }
    ensures less { OnOk result (loads.Lowers 0 machine.old world.old machine.new world.new) }
{
    crate::slices::slice(
        machine,
        world,
        value,
        &slice.from,
        &slice.to,
        &slice.step,
        rest,
    )
}

/// The same, by its parts.
#[inline(always)]
#[tactic(auto, using(rp_store::proofs::CallerLemmas::goes_on, rp_engine::proofs::Worlds::shape_stored))]
fn slice<'u>(
    machine: &mut Machine<'u>,
    world: &mut World,
    value: Value,
    from: &'u Option<Expr>,
    to: &'u Option<Expr>,
    stride: &'u Option<Expr>,
    rest: &'u [Trailer],
) -> Result<(), Halt>
    requires ready { IsReady machine.old.units.now machine.old.frame machine.old.values world.old }
    requires value { IsFit world.old.store.heap machine.old.frame.side value }
    ensures law { OnOk result (Evaluates (next_trailer
        (forms.slice (does.maybe from.now) (does.maybe to.now) (does.maybe stride.now))
        (does.trailers rest.now) value)
        machine.old world.old machine.new world.new) }
    ensures ready { IsReady machine.new.units.now machine.new.frame machine.new.values world.new }
    ensures shape { KeepsShape world.old.store.heap world.new.store.heap }
    ensures fewer { world.new.running.meter.left ≤ world.old.running.meter.left }
    ensures less { OnOk result (loads.Lowers 0 machine.old world.old machine.new world.new) }
{
    match take_step(world) {
        Ok(()) => lower(machine, world, value, from, to, stride, rest),
        Err(end) => machine.no_value(end),
    }
}

/// Goes on with the lower bound, which may be missing.
#[inline(always)]
fn lower<'u>(
    machine: &mut Machine<'u>,
    world: &mut World,
    value: Value,
    from: &'u Option<Expr>,
    to: &'u Option<Expr>,
    stride: &'u Option<Expr>,
    rest: &'u [Trailer],
) -> Result<(), Halt>
    requires ready { IsReady machine.old.units.now machine.old.frame machine.old.values world.old }
    requires value { IsFit world.old.store.heap machine.old.frame.side value }
    ensures law { OnOk result (Evaluates (from_lower (does.maybe from.now) (does.maybe to.now)
        (does.maybe stride.now) (does.trailers rest.now) value) machine.old world.old machine.new world.new) }
    ensures ready { IsReady machine.new.units.now machine.new.frame machine.new.values world.new }
    ensures shape { KeepsShape world.old.store.heap world.new.store.heap }
    ensures fewer { world.new.running.meter.left ≤ world.old.running.meter.left }
{
    match from {
        None => upper(
            machine,
            world,
            value,
            Value::Rock(Rock::Nil),
            to,
            stride,
            rest,
        ),
        Some(x) => lower_at(machine, world, value, x, to, stride, rest),
    }
}

#[inline(always)]
fn lower_at<'u>(
    machine: &mut Machine<'u>,
    world: &mut World,
    value: Value,
    x: &'u Expr,
    to: &'u Option<Expr>,
    stride: &'u Option<Expr>,
    rest: &'u [Trailer],
) -> Result<(), Halt>
    requires ready { IsReady machine.old.units.now machine.old.frame machine.old.values world.old }
    requires value { IsFit world.old.store.heap machine.old.frame.side value }
    ensures law { OnOk result (Evaluates (put_to (does.expr x.now) (from_upper value (does.maybe to.now)
        (does.maybe stride.now) (does.trailers rest.now))) machine.old world.old machine.new world.new) }
    ensures ready { IsReady machine.new.units.now machine.new.frame machine.new.values world.new }
    ensures shape { KeepsShape world.old.store.heap world.new.store.heap }
    ensures fewer { world.new.running.meter.left ≤ world.old.running.meter.left }
{
    match machine.leaf(world, x) {
        Ok(Some(bound)) => upper(machine, world, value, bound, to, stride, rest),
        Ok(None) => machine.wait_with(
            value,
            Task::Expr(ExprTask::SliceFrom(to, stride, rest)),
            Control::Expression(x),
        ),
        Err(end) => machine.no_value(end),
    }
}

/// Goes on with the upper bound, which may be missing.
#[inline(always)]
fn upper<'u>(
    machine: &mut Machine<'u>,
    world: &mut World,
    value: Value,
    from: Value,
    to: &'u Option<Expr>,
    stride: &'u Option<Expr>,
    rest: &'u [Trailer],
) -> Result<(), Halt>
    requires ready { IsReady machine.old.units.now machine.old.frame machine.old.values world.old }
    requires value { IsFit world.old.store.heap machine.old.frame.side value }
    requires from { IsFit world.old.store.heap machine.old.frame.side from }
    ensures law { OnOk result (Evaluates (from_upper value (does.maybe to.now) (does.maybe stride.now)
        (does.trailers rest.now) from) machine.old world.old machine.new world.new) }
    ensures ready { IsReady machine.new.units.now machine.new.frame machine.new.values world.new }
    ensures shape { KeepsShape world.old.store.heap world.new.store.heap }
    ensures fewer { world.new.running.meter.left ≤ world.old.running.meter.left }
    ensures less { OnOk result (loads.Lowers (3 + loads.maybe to.now + loads.maybe stride.now)
        machine.old world.old machine.new world.new) }
{
    match to {
        None => crate::slices::stride(
            machine,
            world,
            value,
            from,
            Value::Rock(Rock::Nil),
            stride,
            rest,
        ),
        Some(x) => upper_at(machine, world, value, from, x, stride, rest),
    }
}

#[inline(always)]
fn upper_at<'u>(
    machine: &mut Machine<'u>,
    world: &mut World,
    value: Value,
    from: Value,
    x: &'u Expr,
    stride: &'u Option<Expr>,
    rest: &'u [Trailer],
) -> Result<(), Halt>
    requires ready { IsReady machine.old.units.now machine.old.frame machine.old.values world.old }
    requires value { IsFit world.old.store.heap machine.old.frame.side value }
    requires from { IsFit world.old.store.heap machine.old.frame.side from }
    ensures law { OnOk result (Evaluates (put_to (does.expr x.now) (from_stride value from
        (does.maybe stride.now) (does.trailers rest.now))) machine.old world.old machine.new world.new) }
    ensures ready { IsReady machine.new.units.now machine.new.frame machine.new.values world.new }
    ensures shape { KeepsShape world.old.store.heap world.new.store.heap }
    ensures fewer { world.new.running.meter.left ≤ world.old.running.meter.left }
    ensures less { OnOk result (loads.Lowers (3 + loads.inside x.now + loads.maybe stride.now)
        machine.old world.old machine.new world.new) }
{
    match machine.leaf(world, x) {
        Ok(Some(bound)) => crate::slices::stride(machine, world, value, from, bound, stride, rest),
        Ok(None) => machine.wait_with_two(
            value,
            from,
            Task::Expr(ExprTask::SliceTo(stride, rest)),
            Control::Expression(x),
        ),
        Err(end) => machine.no_value(end),
    }
}

/// Goes on with the step, which may be missing.
#[inline(always)]
fn stride<'u>(
    machine: &mut Machine<'u>,
    world: &mut World,
    value: Value,
    from: Value,
    to: Value,
    stride: &'u Option<Expr>,
    rest: &'u [Trailer],
) -> Result<(), Halt>
    requires ready { IsReady machine.old.units.now machine.old.frame machine.old.values world.old }
    requires value { IsFit world.old.store.heap machine.old.frame.side value }
    requires from { IsFit world.old.store.heap machine.old.frame.side from }
    requires to { IsFit world.old.store.heap machine.old.frame.side to }
    ensures law { OnOk result (Evaluates (from_stride value from (does.maybe stride.now)
        (does.trailers rest.now) to) machine.old world.old machine.new world.new) }
    ensures ready { IsReady machine.new.units.now machine.new.frame machine.new.values world.new }
    ensures shape { KeepsShape world.old.store.heap world.new.store.heap }
    ensures fewer { world.new.running.meter.left ≤ world.old.running.meter.left }
    ensures less { OnOk result (loads.Lowers (3 + loads.maybe stride.now) machine.old world.old machine.new world.new) }
{
    match stride {
        None => slice_of(
            machine,
            world,
            value,
            from,
            to,
            Value::Rock(Rock::Nil),
            rest,
        ),
        Some(x) => stride_at(machine, world, value, from, to, x, rest),
    }
}

#[inline(always)]
fn stride_at<'u>(
    machine: &mut Machine<'u>,
    world: &mut World,
    value: Value,
    from: Value,
    to: Value,
    x: &'u Expr,
    rest: &'u [Trailer],
) -> Result<(), Halt>
    requires ready { IsReady machine.old.units.now machine.old.frame machine.old.values world.old }
    requires value { IsFit world.old.store.heap machine.old.frame.side value }
    requires from { IsFit world.old.store.heap machine.old.frame.side from }
    requires to { IsFit world.old.store.heap machine.old.frame.side to }
    ensures law { OnOk result (Evaluates (put_to (does.expr x.now) (with_slice value from to
        (does.trailers rest.now))) machine.old world.old machine.new world.new) }
    ensures ready { IsReady machine.new.units.now machine.new.frame machine.new.values world.new }
    ensures shape { KeepsShape world.old.store.heap world.new.store.heap }
    ensures fewer { world.new.running.meter.left ≤ world.old.running.meter.left }
    ensures less { OnOk result (loads.Lowers (3 + loads.inside x.now) machine.old world.old machine.new world.new) }
{
    match machine.leaf(world, x) {
        Ok(Some(stride)) => slice_of(machine, world, value, from, to, stride, rest),
        Ok(None) => machine.wait_with_three(
            value,
            from,
            to,
            Task::Expr(ExprTask::SliceStep(rest)),
            Control::Expression(x),
        ),
        Err(end) => machine.no_value(end),
    }
}

/// Goes on with the slice of a value at these parts.
#[inline(always)]
fn slice_of<'u>(
    machine: &mut Machine<'u>,
    world: &mut World,
    value: Value,
    from: Value,
    to: Value,
    stride: Value,
    rest: &'u [Trailer],
) -> Result<(), Halt>
    requires ready { IsReady machine.old.units.now machine.old.frame machine.old.values world.old }
    requires value { IsFit world.old.store.heap machine.old.frame.side value }
    ensures law { OnOk result (Evaluates (with_slice value from to (does.trailers rest.now) stride)
        machine.old world.old machine.new world.new) }
    ensures ready { IsReady machine.new.units.now machine.new.frame machine.new.values world.new }
    ensures shape { KeepsShape world.old.store.heap world.new.store.heap }
    ensures fewer { world.new.running.meter.left ≤ world.old.running.meter.left }
    ensures less { OnOk result (loads.Lowers 3 machine.old world.old machine.new world.new) }
{
    let parts = SliceParts {
        from: &from,
        to: &to,
        step: &stride,
    };
    match get_slice(machine.alloc, world, machine.frame.side, &value, parts) {
        Ok(value) => more_trailers(machine, value, rest),
        Err(end) => machine.no_value(end),
    }
}

/// With the lower bound; what is sliced is at hand.
#[inline(always)]
pub fn after_from<'u>(
    machine: &mut Machine<'u>,
    world: &mut World,
    from: Value,
    to: &'u Option<Expr>,
    stride: &'u Option<Expr>,
    rest: &'u [Trailer],
) -> Result<(), Halt>
    requires ready { IsReady machine.old.units.now machine.old.frame machine.old.values world.old }
    requires from { IsFit world.old.store.heap machine.old.frame.side from }
    ensures law { OnOk result (Resumes (ExprTask.SliceFrom to.entry stride.entry rest.entry) from
        machine.old world.old machine.new world.new) }
    ensures ready { IsReady machine.new.units.now machine.new.frame machine.new.values world.new }
    ensures shape { KeepsShape world.old.store.heap world.new.store.heap }
    ensures fewer { world.new.running.meter.left ≤ world.old.running.meter.left }
    ensures less { OnOk result (loads.Lowers (3 + loads.maybe to.now + loads.maybe stride.now)
        machine.old world.old machine.new world.new) }
{
    let value = machine.at_hand();
    upper(machine, world, value, from, to, stride, rest)
}

/// With the upper bound; what is sliced and the lower bound are at hand.
#[inline(always)]
pub fn after_to<'u>(
    machine: &mut Machine<'u>,
    world: &mut World,
    to: Value,
    stride: &'u Option<Expr>,
    rest: &'u [Trailer],
) -> Result<(), Halt>
    requires ready { IsReady machine.old.units.now machine.old.frame machine.old.values world.old }
    requires to { IsFit world.old.store.heap machine.old.frame.side to }
    ensures law { OnOk result (Resumes (ExprTask.SliceTo stride.entry rest.entry) to
        machine.old world.old machine.new world.new) }
    ensures ready { IsReady machine.new.units.now machine.new.frame machine.new.values world.new }
    ensures shape { KeepsShape world.old.store.heap world.new.store.heap }
    ensures fewer { world.new.running.meter.left ≤ world.old.running.meter.left }
    ensures less { OnOk result (loads.Lowers (3 + loads.maybe stride.now) machine.old world.old machine.new world.new) }
{
    let from = machine.at_hand();
    let value = machine.at_hand();
    crate::slices::stride(machine, world, value, from, to, stride, rest)
}

/// With the step; what is sliced and both bounds are at hand.
#[inline(always)]
pub fn after_stride<'u>(
    machine: &mut Machine<'u>,
    world: &mut World,
    stride: Value,
    rest: &'u [Trailer],
) -> Result<(), Halt>
    requires ready { IsReady machine.old.units.now machine.old.frame machine.old.values world.old }
    requires stride { IsFit world.old.store.heap machine.old.frame.side stride }
    ensures law { OnOk result (Resumes (ExprTask.SliceStep rest.entry) stride
        machine.old world.old machine.new world.new) }
    ensures ready { IsReady machine.new.units.now machine.new.frame machine.new.values world.new }
    ensures shape { KeepsShape world.old.store.heap world.new.store.heap }
    ensures fewer { world.new.running.meter.left ≤ world.old.running.meter.left }
    ensures less { OnOk result (loads.Lowers 3 machine.old world.old machine.new world.new) }
{
    let to = machine.at_hand();
    let from = machine.at_hand();
    let value = machine.at_hand();
    slice_of(machine, world, value, from, to, stride, rest)
}
