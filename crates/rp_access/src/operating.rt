//! Operators behind their decisions.
#![tactic(auto, using(rp_store::proofs::CallerLemmas::goes_on))]

ghost use Rattle.std.specs.Prelude.{◌≤◌, ◌≡◌, IfOk};
ghost use Rattle.rp_meaning.specs.Operators.{left_name, right_name, unary_name};
ghost use Rattle.rp_meaning.specs.State.{plainly};
ghost use Rattle.rp_ops.specs.Binary.{binary};
ghost use Rattle.rp_proxy.specs.Faithful.{IsFaithful};
ghost use Rattle.rp_proxy.specs.Taken.{taken};
ghost use Rattle.rp_store.specs.Kept.{IsFit, IsSound};
ghost use Rattle.rp_store.specs.Shape.{KeepsShape};
ghost use Rattle.rp_access.specs.Comes.{Comes};
ghost use Rattle.rp_access.specs.Parts.{operated, unary_asked};
ghost use Rattle.rp_access.specs.Moment.{state_of};
ghost use Rattle.rp_base.specs.declared.value.Side.{Side};

use crate::deciding::ask;
use rp_base::{BinOp, Name, OpEnd, Side, UnOp, Value, word};
use rp_proxy::{World, take};
use std::alloc::Global;

/// `a op b`, as code of a side does it (Python Language Reference, Binary arithmetic operations; zope.security,
/// proxies). What it does to each operand is decided first, the left one before the right one.
///
/// # Errors
/// - As `rp_proxy::cross`, where a decision refuses; then nothing more is done.
/// - As `rp_ops::binary`, of operands that the operator does not take, and where no cell or step is left.
/// - `Memory` where a growth was refused.
#[inline(always)]
pub fn operate(
    alloc: Global,
    world: &mut World,
    side: Side,
    op: BinOp,
    a: &Value,
    b: &Value,
) -> Result<Value, OpEnd>
    requires faithful { IsFaithful world.old }
    requires a { IsSound world.old.store.heap a.now }
    requires b { IsSound world.old.store.heap b.now }
    ensures law { Comes result (state_of world.new) (operated side op a.now b.now (state_of world.old)) }
    ensures faithful { IsFaithful world.new }
    ensures shape { KeepsShape world.old.store.heap world.new.store.heap }
    ensures fit { IfOk result (IsFit world.new.store.heap side) }
    ensures fewer { world.new.running.meter.left ≤ world.old.running.meter.left }
{
    ask(alloc, world, a, left_name(op))?;
    ask(alloc, world, b, right_name(op))?;
    let value = binary(alloc, world, side, op, a, b)?;
    Ok(taken(world, value, side))
}

/// `op a` (Python Language Reference, Unary arithmetic and bitwise operations; zope.security, proxies). What it does to
/// the operand is decided first.
///
/// # Errors
/// - As `rp_proxy::cross`, where the decision refuses.
/// - As `rp_ops::unary`, of an operand that the operator does not take.
#[inline(always)]
pub fn operate_unary(alloc: Global, world: &mut World, op: UnOp, a: &Value) -> Result<Value, OpEnd>
    requires faithful { IsFaithful world.old }
    requires a { IsSound world.old.store.heap a.now }
    ensures law { Comes result (state_of world.new) (unary_asked op a.now (state_of world.old)) }
    ensures faithful { IsFaithful world.new }
    ensures shape { KeepsShape world.old.store.heap world.new.store.heap }
    ensures fit { (side : Side) → IfOk result (IsFit world.new.store.heap side) }
    ensures fewer { world.new.running.meter.left ≤ world.old.running.meter.left }
{
    ask(alloc, world, a, unary_name(op))?;
    rp_ops::unary(alloc, &world.store, op, a)
}

/// The name that is decided on the operand of a unary operator.
#[inline(always)]
fn unary_name(op: UnOp) -> Name
    ensures { result ≡ unary_name op }
{
    match op {
        UnOp::Neg => word::NEG,
        UnOp::Pos => word::POS,
        UnOp::Invert => word::INVERT,
    }
}

/// A value as code of a side gets it (zope.security, proxies).
#[inline(always)]
pub fn taken(world: &World, value: Value, side: Side) -> Value
    requires { IsSound world.now.store.heap value }
    ensures value { result ≡ taken world.now.store.heap side value }
    ensures fit { IsFit world.now.store.heap side result }
{
    take(&world.store, value, side)
}

/// The plain operator.
#[inline(always)]
fn binary(
    alloc: Global,
    world: &mut World,
    side: Side,
    op: BinOp,
    a: &Value,
    b: &Value,
) -> Result<Value, OpEnd>
    requires faithful { IsFaithful world.old }
    requires a { IsSound world.old.store.heap a.now }
    requires b { IsSound world.old.store.heap b.now }
    ensures law { Comes result (state_of world.new) (plainly (binary side op a.now b.now) (state_of world.old)) }
    ensures faithful { IsFaithful world.new }
    ensures shape { KeepsShape world.old.store.heap world.new.store.heap }
    ensures sound { IfOk result (IsSound world.new.store.heap) }
    ensures fewer { world.new.running.meter.left ≤ world.old.running.meter.left }
{
    rp_ops::binary(
        alloc,
        &mut world.store,
        &mut world.running.meter,
        side,
        op,
        a,
        b,
    )
}

/// The name that is decided on the left operand.
#[inline(always)]
fn left_name(op: BinOp) -> Name
    ensures { result ≡ left_name op }
{
    match op {
        BinOp::Add => word::ADD,
        BinOp::Sub => word::SUB,
        BinOp::Mul => word::MUL,
        BinOp::FloorDiv => word::FLOOR_DIV,
        BinOp::Mod => word::MOD,
        BinOp::Pow => word::POW,
        BinOp::BitAnd => word::BIT_AND,
        BinOp::BitOr => word::BIT_OR,
        BinOp::BitXor => word::BIT_XOR,
        BinOp::LShift => word::LSHIFT,
        BinOp::RShift => word::RSHIFT,
    }
}

/// The name that is decided on the right operand.
#[inline(always)]
pub(crate) fn right_name(op: BinOp) -> Name
    ensures { result ≡ right_name op }
{
    match op {
        BinOp::Add => word::REFLECTED_ADD,
        BinOp::Sub => word::REFLECTED_SUB,
        BinOp::Mul => word::REFLECTED_MUL,
        BinOp::FloorDiv => word::REFLECTED_FLOOR_DIV,
        BinOp::Mod => word::REFLECTED_MOD,
        BinOp::Pow => word::REFLECTED_POW,
        BinOp::BitAnd => word::REFLECTED_BIT_AND,
        BinOp::BitOr => word::REFLECTED_BIT_OR,
        BinOp::BitXor => word::REFLECTED_BIT_XOR,
        BinOp::LShift => word::REFLECTED_LSHIFT,
        BinOp::RShift => word::REFLECTED_RSHIFT,
    }
}
