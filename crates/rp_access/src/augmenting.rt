//! Augmented assignment behind its decisions.
#![tactic(auto, using(rp_store::proofs::CallerLemmas::goes_on))]

ghost use Rattle.std.specs.Prelude.{◌≤◌, ◌≡◌, IfOk, List};
ghost use Rattle.std.specs.Option.{option_map_or};
ghost use Rattle.rp_base.specs.declared.value.Value.{Value as TheValue};
ghost use Rattle.rp_meaning.specs.Operators.{augmented_name, content_name, in_place_name, right_name};
ghost use Rattle.rp_meaning.specs.State.{plainly};
ghost use Rattle.rp_ops.specs.Inplace.{inplace};
ghost use Rattle.rp_proxy.specs.Faithful.{IsFaithful};
ghost use Rattle.rp_store.specs.Heap.{IsHeld, content_at};
ghost use Rattle.rp_store.specs.Kept.{IsFit, IsSound};
ghost use Rattle.rp_store.specs.Object.{list};
ghost use Rattle.rp_store.specs.Shape.{KeepsShape};
ghost use Rattle.rp_access.specs.Changes.{augmented};
ghost use Rattle.rp_access.specs.Comes.{Comes};
ghost use Rattle.rp_access.specs.Moment.{state_of};

use crate::deciding::ask;
use crate::operating::{right_name, taken};
use rp_base::word::ITER;
use rp_base::{BinOp, Name, Oid, OpEnd, Side, Value, word};
use rp_proxy::World;
use rp_store::{Object, Store};
use std::alloc::Global;

/// `a op= b`, as code of a side does it: the value that is stored back (Python Language Reference, Augmented assignment
/// statements; zope.security, proxies). What it does to each operand is decided first, the left one before the right
/// one; a list is extended by what is walked.
///
/// # Errors
/// - As `rp_proxy::cross`, where a decision refuses; then nothing more is done.
/// - As `rp_ops::inplace`, of operands that the operator does not take, and where no cell or step is left.
/// - `Memory` where a growth was refused.
#[inline(always)]
pub fn augment(
    alloc: Global,
    world: &mut World,
    side: Side,
    op: BinOp,
    a: &Value,
    b: &Value,
) -> Result<Value, OpEnd>
    requires faithful { IsFaithful world.old }
    requires a { IsSound world.old.store.heap a.now }
    requires b { IsSound world.old.store.heap b.now }
    ensures law { Comes result (state_of world.new) (augmented side op a.now b.now (state_of world.old)) }
    ensures faithful { IsFaithful world.new }
    ensures shape { KeepsShape world.old.store.heap world.new.store.heap }
    ensures fit { IfOk result (IsFit world.new.store.heap side) }
    ensures fewer { world.new.running.meter.left ≤ world.old.running.meter.left }
{
    ask(alloc, world, a, in_place_name(op))?;
    let name = augmented_name(&world.store, op, a);
    ask(alloc, world, b, name)?;
    let value = inplace(alloc, world, side, op, a, b)?;
    Ok(taken(world, value, side))
}

/// The plain operator, in place.
#[inline(always)]
fn inplace(
    alloc: Global,
    world: &mut World,
    side: Side,
    op: BinOp,
    a: &Value,
    b: &Value,
) -> Result<Value, OpEnd>
    requires faithful { IsFaithful world.old }
    requires a { IsSound world.old.store.heap a.now }
    requires b { IsSound world.old.store.heap b.now }
    ensures law { Comes result (state_of world.new) (plainly (inplace side op a.now b.now) (state_of world.old)) }
    ensures faithful { IsFaithful world.new }
    ensures shape { KeepsShape world.old.store.heap world.new.store.heap }
    ensures sound { IfOk result (IsSound world.new.store.heap) }
    ensures fewer { world.new.running.meter.left ≤ world.old.running.meter.left }
{
    rp_ops::inplace(
        alloc,
        &mut world.store,
        &mut world.running.meter,
        side,
        op,
        a,
        b,
    )
}

/// The name that is decided on the right operand: a list is extended by what is walked.
#[inline(always)]
fn augmented_name(store: &Store, op: BinOp, a: &Value) -> Name
    requires { IsSound store.now.heap a.now }
    ensures { result ≡ augmented_name store.now.heap op a.now }
{
    match a {
        Value::Rock(_) => right_name(op),
        Value::Ref(at) => object_name(store, op, *at),
        Value::Prox(at) => object_name(store, op, *at),
    }
}

#[inline(always)]
fn object_name(store: &Store, op: BinOp, at: Oid) -> Name
    requires { IsHeld store.now.heap at }
    ensures { result ≡ option_map_or (content_name op) (content_at store.now.heap at) (right_name op) }
{
    match store.object(at) {
        Object::List(_) => list_name(op),
        _ => right_name(op),
    }
}

#[inline(always)]
fn list_name(op: BinOp) -> Name
    ensures { (xs : List TheValue) → result ≡ content_name op (list xs) }
{
    match op {
        BinOp::Add => ITER,
        _ => right_name(op),
    }
}

/// The name that is decided on the left operand.
#[inline(always)]
fn in_place_name(op: BinOp) -> Name
    ensures { result ≡ in_place_name op }
{
    match op {
        BinOp::Add => word::IN_PLACE_ADD,
        BinOp::Sub => word::IN_PLACE_SUB,
        BinOp::Mul => word::IN_PLACE_MUL,
        BinOp::FloorDiv => word::IN_PLACE_FLOOR_DIV,
        BinOp::Mod => word::IN_PLACE_MOD,
        BinOp::Pow => word::IN_PLACE_POW,
        BinOp::BitAnd => word::IN_PLACE_BIT_AND,
        BinOp::BitOr => word::IN_PLACE_BIT_OR,
        BinOp::BitXor => word::IN_PLACE_BIT_XOR,
        BinOp::LShift => word::IN_PLACE_LSHIFT,
        BinOp::RShift => word::IN_PLACE_RSHIFT,
    }
}
