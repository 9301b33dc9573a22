//! The parts of a slice, and the places that they name.

ghost use Rattle.std.specs.Prelude.{◌≡◌, ◌≢◌, ◌+◌, ◌-◌, ◌^◌, ◌<◌, ◌≤◌, ◌+ℤ◌, ◌-ℤ◌, ◌<ℤ◌, ℕ, Ok, negsuc, pos, IfOk};
ghost use Rattle.rp_ops.specs.Refused.{described};
ghost use Rattle.rp_items.specs.Slices.{bound, part_named, span_by, span_named};
ghost use Rattle.rp_items.specs.SliceView.{AreOf, AreWithin, described_span, place_at, span_seen};

use crate::places::index_number;
use rp_base::{Rock, Value};
use rp_ops::Refusal;

/// The parts of a slice, each a number, a truth value, or None where it is missing.
#[derive(Clone, Copy)]
pub struct SliceParts<'a> {
    pub from: &'a Value,
    pub to: &'a Value,
    pub step: &'a Value,
}

/// The bounds and the step of a slice. A bound may be missing.
#[derive(Clone, Copy)]
pub(crate) struct Span {
    pub(crate) from: Option<i64>,
    pub(crate) to: Option<i64>,
    pub(crate) step: i64,
}

/// The places that a slice takes: so many, each a step behind or before the last.
#[derive(Clone, Copy)]
pub(crate) struct Places {
    pub(crate) first: usize,
    pub(crate) step: usize,
    pub(crate) backward: bool,
    pub(crate) count: usize,
}

impl Places {
    /// The m-th place.
    pub(crate) fn at(&self, m: usize) -> usize
        requires count { m < self.now.count }
        requires within { (n : ℕ) × ((n < 2 ^ 64) × AreWithin n self.now) }
        ensures { result ≡ place_at self.now m }
    {
        if self.backward {
            self.first - m * self.step
        } else {
            self.first + m * self.step
        }
    }
}

/// The bounds and the step that the parts of a slice give. A missing step is 1.
pub(crate) fn span_named(parts: SliceParts<'_>) -> Result<Span, Refusal>
    ensures named { described_span result ≡ span_named parts.entry.from.now parts.entry.to.now parts.entry.step.now }
    ensures step { IfOk result (λ p. p.step ≢ pos 0) }
{
    span_by(
        part_named(parts.from),
        part_named(parts.to),
        part_named(parts.step),
    )
}

/// A part of a slice, which is a number or None.
fn part_named(value: &Value) -> Result<Option<i64>, Refusal>
    ensures { described result ≡ part_named value.now }
{
    if let Value::Rock(Rock::Nil) = value {
        return Ok(None);
    }
    match index_number(value) {
        Some(n) => Ok(Some(n)),
        None => Err(Refusal::Index),
    }
}

fn span_by(
    from: Result<Option<i64>, Refusal>,
    to: Result<Option<i64>, Refusal>,
    step: Result<Option<i64>, Refusal>,
) -> Result<Span, Refusal>
    ensures named { described_span result ≡ span_by (described from) (described to) (described step) }
    ensures step { IfOk result (λ p. p.step ≢ pos 0) }
{
    match (from, to, step) {
        (Ok(from), Ok(to), Ok(step)) => with_step(from, to, step),
        _ => Err(Refusal::Index),
    }
}

fn with_step(from: Option<i64>, to: Option<i64>, step: Option<i64>) -> Result<Span, Refusal>
    ensures named { described_span result ≡ span_by (Ok from) (Ok to) (Ok step) }
    ensures step { IfOk result (λ p. p.step ≢ pos 0) }
{
    match step {
        None => Ok(Span { from, to, step: 1 }),
        Some(step) => {
            if step == 0 {
                return Err(Refusal::Slice);
            }
            Ok(Span { from, to, step })
        }
    }
}

/// The places of a slice of so many elements.
pub(crate) fn places_of(len: usize, span: Span) -> Places
    requires { span.step ≢ pos 0 }
    ensures places { AreOf len (span_seen span) result }
    ensures within { AreWithin len result }
    ensures few { result.count ≤ len }
    ensures first { result.first ≤ len }
{
    if span.step < 0 {
        backward(len, span)
    } else {
        forward(len, span)
    }
}

fn forward(len: usize, span: Span) -> Places
    requires { pos 0 <ℤ span.step }
    ensures places { AreOf len (span_seen span) result }
    ensures within { AreWithin len result }
    ensures few { result.count ≤ len }
    ensures first { result.first ≤ len }
{
    let first = forward_bound(len, 0, span.from);
    let last = forward_bound(len, len, span.to);
    let step = span.step.unsigned_abs() as usize;
    Places {
        first,
        step,
        backward: false,
        count: last.saturating_sub(first).div_ceil(step),
    }
}

fn backward(len: usize, span: Span) -> Places
    requires { span.step <ℤ pos 0 }
    ensures places { AreOf len (span_seen span) result }
    ensures within { AreWithin len result }
    ensures few { result.count ≤ len }
    ensures first { result.first ≤ len }
{
    let behind_first = backward_bound(len, len, span.from);
    let behind_last = backward_bound(len, 0, span.to);
    let step = span.step.unsigned_abs() as usize;
    Places {
        first: behind_first.saturating_sub(1),
        step,
        backward: true,
        count: behind_first.saturating_sub(behind_last).div_ceil(step),
    }
}

/// A bound of a slice whose step is forward.
fn forward_bound(len: usize, missing: usize, part: Option<i64>) -> usize
    requires { missing ≤ len }
    ensures value { pos result ≡ bound len (pos 1) (pos missing) part }
    ensures within { result ≤ len }
{
    match part {
        Some(n) => {
            if n < 0 {
                return len.saturating_sub(n.unsigned_abs() as usize);
            }
            len.min(n as usize)
        }
        None => missing,
    }
}

/// The place behind a bound of a slice whose step is backward.
fn backward_bound(len: usize, missing: usize, part: Option<i64>) -> usize
    requires { missing ≤ len }
    ensures value { pos result ≡ bound len (negsuc 0) (pos missing -ℤ pos 1) part +ℤ pos 1 }
    ensures within { result ≤ len }
{
    match part {
        Some(n) => {
            if n < 0 {
                return before_end(len, n.unsigned_abs() as usize);
            }
            len.min(n as usize + 1)
        }
        None => missing,
    }
}

/// The place behind the one so many before the end, 0 where that is before the front.
fn before_end(len: usize, back: usize) -> usize
    requires { 0 < back }
    ensures { result ≡ (len + 1) - back }
{
    if back > len {
        return 0;
    }
    len - back + 1
}
