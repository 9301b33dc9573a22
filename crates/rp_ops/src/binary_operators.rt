//! The binary operators.
#![tactic(auto, using(rp_store::proofs::CallerLemmas::goes_on))]

ghost use Rattle.std.specs.Prelude.{◌≡◌, List, ℕ, IfOk, OnErr};
ghost use Rattle.rp_store.specs.Counters.{KeepsCounters};
ghost use Rattle.rp_store.specs.Heap.{Owned};
ghost use Rattle.rp_store.specs.Kept.{IsSound};
ghost use Rattle.rp_ops.specs.Binary.{arithmetic, binary, calculated, logical_of, operated, repeats, wrong_operand};
ghost use Rattle.rp_ops.specs.Growth.{Gains, IsSequenceOf};
ghost use Rattle.rp_ops.specs.Numbers.{logical};
ghost use Rattle.rp_ops.specs.Outcome.{Meets, State, state_of};
ghost use Rattle.rp_ops.specs.View.{IsOperandHeld, is_sequence, seen};

use crate::numbers::computed;
use crate::operand::{Operand, operand_of};
use crate::refusal::Refusal;
use crate::sequences::{Sequence, join, repeat};
use crate::texts::{join_texts, repeat_text};
use crate::unary_operators::number_value;
use rp_base::{BinOp, Meter, OpEnd, Rock, Side, Value};
use rp_store::Store;
use std::alloc::Global;

/// `a op b`, done by code of a side on values whose access decisions have been made (Python Language Reference, Binary
/// arithmetic, shifting and bitwise operations). A new text costs a cell for each byte, a new list or tuple, which is
/// the side's, one for itself and one for each element. It takes no step.
///
/// # Errors
/// - `Raised` with `TypeError`, where the operator does not take the operands (`|` takes no dicts),
///   `ZeroDivisionError`, `OverflowError`, where the result is outside 64 bits, or `ValueError`, where an exponent,
///   also of 0, or a count of bits is negative.
/// - `StopCells` where the cells are over the limit; then none is used.
/// - `Memory` where a growth was refused; then cells may be used.
///
/// After each of them the objects are as before, and none is made. The limit of the cells stays, and no used cell is
/// given back, whatever is answered.
pub fn binary(
    alloc: Global,
    store: &mut Store,
    meter: &mut Meter,
    side: Side,
    op: BinOp,
    a: &Value,
    b: &Value,
) -> Result<Value, OpEnd>
    requires a { IsSound store.old.heap a.now }
    requires b { IsSound store.old.heap b.now }
    ensures plain { Meets result (state_of store.new meter.new.left)
        (binary side op a.now b.now (state_of store.old meter.old.left)) }
    ensures sound { IfOk result (λ v. IsSound store.new.heap v) }
    ensures grown { Gains (IsSequenceOf side) store.old.heap store.new.heap }
    ensures same { OnErr result (store.new.heap ≡ store.old.heap) }
    ensures steps { meter.new ≡ meter.old }
    ensures counters { KeepsCounters store.old store.new }
{
    if let (Value::Rock(Rock::Int(x)), Value::Rock(Rock::Int(y))) = (a, b) {
        return number_value(alloc, computed(op, *x, *y));
    }
    operate(alloc, store, side, op, a, b)
}

/// On any values.
#[inline(never)]
fn operate(
    alloc: Global,
    store: &mut Store,
    side: Side,
    op: BinOp,
    a: &Value,
    b: &Value,
) -> Result<Value, OpEnd>
    requires a { IsSound store.old.heap a.now }
    requires b { IsSound store.old.heap b.now }
    ensures plain { (steps : ℕ) → Meets result (state_of store.new steps)
        (binary side op a.now b.now (state_of store.old steps)) }
    ensures sound { IfOk result (λ v. IsSound store.new.heap v) }
    ensures grown { Gains (IsSequenceOf side) store.old.heap store.new.heap }
    ensures same { OnErr result (store.new.heap ≡ store.old.heap) }
    ensures counters { KeepsCounters store.old store.new }
{
    let x = operand_of(store, a);
    let y = operand_of(store, b);
    match op {
        BinOp::Add => add(alloc, store, side, &x, &y),
        BinOp::Mul => multiply(alloc, store, side, &x, &y),
        _ => calculate(alloc, op, &x, &y),
    }
}

fn add(
    alloc: Global,
    store: &mut Store,
    side: Side,
    x: &Operand,
    y: &Operand,
) -> Result<Value, OpEnd>
    requires x { IsOperandHeld store.old.heap x.now }
    requires y { IsOperandHeld store.old.heap y.now }
    ensures plain { (steps : ℕ) → Meets result (state_of store.new steps)
        (operated side BinOp.Add (seen store.old.heap x.now) (seen store.old.heap y.now) (state_of store.old steps)) }
    ensures sound { IfOk result (λ v. IsSound store.new.heap v) }
    ensures grown { Gains (IsSequenceOf side) store.old.heap store.new.heap }
    ensures same { OnErr result (store.new.heap ≡ store.old.heap) }
    ensures counters { KeepsCounters store.old store.new }
{
    match (x, y) {
        (Operand::Text(x), Operand::Text(y)) => join_texts(alloc, store, x, y),
        (Operand::List(x), Operand::List(y)) => join(alloc, store, side, Sequence::List, *x, *y),
        (Operand::Tuple(x), Operand::Tuple(y)) => join(alloc, store, side, Sequence::Tuple, *x, *y),
        _ => calculate(alloc, BinOp::Add, x, y),
    }
}

fn multiply(
    alloc: Global,
    store: &mut Store,
    side: Side,
    x: &Operand,
    y: &Operand,
) -> Result<Value, OpEnd>
    requires x { IsOperandHeld store.old.heap x.now }
    requires y { IsOperandHeld store.old.heap y.now }
    ensures plain { (steps : ℕ) → Meets result (state_of store.new steps)
        (operated side BinOp.Mul (seen store.old.heap x.now) (seen store.old.heap y.now) (state_of store.old steps)) }
    ensures sound { IfOk result (λ v. IsSound store.new.heap v) }
    ensures grown { Gains (IsSequenceOf side) store.old.heap store.new.heap }
    ensures same { OnErr result (store.new.heap ≡ store.old.heap) }
    ensures counters { KeepsCounters store.old store.new }
{
    if x.is_sequence() {
        return repeat_operand(alloc, store, side, x, y.number());
    }
    if y.is_sequence() {
        return repeat_operand(alloc, store, side, y, x.number());
    }
    calculate(alloc, BinOp::Mul, x, y)
}

/// A text, a list or a tuple so many times over.
fn repeat_operand(
    alloc: Global,
    store: &mut Store,
    side: Side,
    x: &Operand,
    n: Option<i64>,
) -> Result<Value, OpEnd>
    requires x { IsOperandHeld store.old.heap x.now }
    ensures plain { (steps : ℕ) → Meets result (state_of store.new steps)
        (repeats side (seen store.old.heap x.now) n (state_of store.old steps)) }
    ensures sound { IfOk result (λ v. IsSound store.new.heap v) }
    ensures grown { Gains (IsSequenceOf side) store.old.heap store.new.heap }
    ensures same { OnErr result (store.new.heap ≡ store.old.heap) }
    ensures counters { KeepsCounters store.old store.new }
{
    let Some(n) = n else {
        return wrong_operand(alloc);
    };
    match x {
        Operand::Text(x) => repeat_text(alloc, store, x, n),
        Operand::List(x) => repeat(alloc, store, side, Sequence::List, *x, n),
        Operand::Tuple(x) => repeat(alloc, store, side, Sequence::Tuple, *x, n),
        Operand::Number(_) | Operand::Truth(_) | Operand::Other => wrong_operand(alloc),
    }
}

/// On numbers and truth values.
fn calculate(alloc: Global, op: BinOp, x: &Operand, y: &Operand) -> Result<Value, OpEnd>
    ensures value { (heap : List Owned) (s : State)
        → Meets result s (calculated op (seen heap x.now) (seen heap y.now) s) }
    ensures sound { (heap : List Owned) → IfOk result (λ v. IsSound heap v) }
{
    match logical_of(op, x, y) {
        Some(truth) => Ok(Value::Rock(Rock::Truth(truth))),
        None => arithmetic(alloc, op, x.number(), y.number()),
    }
}

fn logical_of(op: BinOp, x: &Operand, y: &Operand) -> Option<bool>
    ensures { (heap : List Owned) → result ≡ logical_of op (seen heap x.now) (seen heap y.now) }
{
    match (x, y) {
        (Operand::Truth(x), Operand::Truth(y)) => logical(op, *x, *y),
        _ => None,
    }
}

/// The bitwise operators on truth values, which give a truth value.
fn logical(op: BinOp, x: bool, y: bool) -> Option<bool>
    ensures { result ≡ logical op x y }
{
    match op {
        BinOp::BitAnd => Some(x && y),
        BinOp::BitOr => Some(x || y),
        BinOp::BitXor => Some(x != y),
        _ => None,
    }
}

fn arithmetic(alloc: Global, op: BinOp, x: Option<i64>, y: Option<i64>) -> Result<Value, OpEnd>
    ensures value { (s : State) → Meets result s (arithmetic op x y s) }
    ensures sound { (heap : List Owned) → IfOk result (λ v. IsSound heap v) }
{
    let (Some(x), Some(y)) = (x, y) else {
        return wrong_operand(alloc);
    };
    number_value(alloc, computed(op, x, y))
}

pub(crate) fn wrong_operand(alloc: Global) -> Result<Value, OpEnd>
    ensures value { (s : State) → Meets result s (wrong_operand s) }
    ensures sound { (heap : List Owned) → IfOk result (λ v. IsSound heap v) }
{
    Err(Refusal::Operand.end(alloc))
}
