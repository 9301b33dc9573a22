//! Tests of comparisons behind their decisions.
#![tactic(auto, using(rp_store::proofs::CallerLemmas::goes_on))]

ghost use Rattle.std.specs.Prelude.{◌≤◌, ◌≡◌, Bool, IfNone, IfOk, not, option_map};
ghost use Rattle.rp_base.specs.declared.word.TheConstants.{CONTAINS};
ghost use Rattle.rp_compare.specs.Order.{compare};
ghost use Rattle.rp_meaning.specs.Operators.{comparison_name, is_nil, mirrored};
ghost use Rattle.rp_meaning.specs.Special.{Special};
ghost use Rattle.rp_meaning.specs.State.{Outcome, State, plainly};
ghost use Rattle.rp_proxy.specs.Faithful.{IsFaithful};
ghost use Rattle.rp_store.specs.Kept.{IsSound};
ghost use Rattle.rp_store.specs.Shape.{KeepsShape};
ghost use Rattle.rp_access.specs.Comes.{Comes, ComesIfAny};
ghost use Rattle.rp_access.specs.Comparisons.{IsTestLeft, order_asked, test_asked, without_asked};
ghost use Rattle.rp_access.specs.Moment.{state_of};
ghost use Rattle.rp_access.specs.Parts.{IsForMethod};

use crate::access::is_within;
use crate::deciding::ask;
use rp_base::{CmpOp, Name, OpEnd, Rock, Value, word};
use rp_proxy::World;
use rp_tree::Test;
use std::alloc::Global;

/// Whether a test of a comparison holds of two values (Python Language Reference, Comparisons; zope.security, proxies).
/// An order and an equality are decided on both operands, the left one before the right one; a membership on the
/// container. `is` asks nothing: it tells whether the left operand is None. None where the container is an instance
/// whose class has `__contains__`, which would be called; then nothing but the decision was made.
///
/// # Errors
/// - As `rp_proxy::cross`, where a decision refuses.
/// - As `rp_compare::compare` and `rp_compare::contains`, of values that have no order, and where no step is left.
/// - `Memory` where a growth was refused.
#[inline(always)]
pub fn holds(
    alloc: Global,
    world: &mut World,
    test: Test,
    a: &Value,
    b: &Value,
) -> Result<Option<bool>, OpEnd>
    requires faithful { IsFaithful world.old }
    requires a { IsSound world.old.store.heap a.now }
    requires b { IsSound world.old.store.heap b.now }
    ensures law { (call : Special → State → Outcome Bool) → ComesIfAny result (state_of world.new)
        (test_asked call test a.now b.now (state_of world.old)) }
    ensures special { IfOk result (λ r. IfNone r
        (IsTestLeft test b.now (state_of world.old) (state_of world.new))) }
    ensures faithful { IsFaithful world.new }
    ensures shape { KeepsShape world.old.store.heap world.new.store.heap }
    ensures fewer { world.new.running.meter.left ≤ world.old.running.meter.left }
{
    match test {
        Test::Order(op) => order_known(alloc, world, op, a, b),
        Test::Is => Ok(Some(is_nil(a))),
        Test::IsNot => Ok(Some(!is_nil(a))),
        Test::Within => is_within(alloc, world, a, b),
        Test::NotWithin => is_without(alloc, world, a, b),
    }
}

/// The same as `order`.
#[inline(always)]
fn order_known(
    alloc: Global,
    world: &mut World,
    op: CmpOp,
    a: &Value,
    b: &Value,
) -> Result<Option<bool>, OpEnd>
    requires faithful { IsFaithful world.old }
    requires a { IsSound world.old.store.heap a.now }
    requires b { IsSound world.old.store.heap b.now }
    ensures law { ComesIfAny result (state_of world.new) (order_asked op a.now b.now (state_of world.old)) }
    ensures known { IfOk result (λ r. IfNone r ⊥) }
    ensures faithful { IsFaithful world.new }
    ensures shape { KeepsShape world.old.store.heap world.new.store.heap }
    ensures fewer { world.new.running.meter.left ≤ world.old.running.meter.left }
{
    Ok(Some(order(alloc, world, op, a, b)?))
}

/// `a op b`: what it does to each operand is decided first.
///
/// # Errors
/// As `cross` and `rp_compare::compare`.
#[inline(always)]
fn order(alloc: Global, world: &mut World, op: CmpOp, a: &Value, b: &Value) -> Result<bool, OpEnd>
    requires faithful { IsFaithful world.old }
    requires a { IsSound world.old.store.heap a.now }
    requires b { IsSound world.old.store.heap b.now }
    ensures law { Comes result (state_of world.new) (order_asked op a.now b.now (state_of world.old)) }
    ensures faithful { IsFaithful world.new }
    ensures shape { KeepsShape world.old.store.heap world.new.store.heap }
    ensures fewer { world.new.running.meter.left ≤ world.old.running.meter.left }
{
    ask(alloc, world, a, comparison_name(op))?;
    ask(alloc, world, b, comparison_name(mirrored(op)))?;
    compare(alloc, world, op, a, b)
}

/// The plain comparison.
#[inline(always)]
#[tactic(auto, using(crate::proofs::Worlds::metered_faithful, rp_store::proofs::CallerLemmas::goes_on))]
fn compare(alloc: Global, world: &mut World, op: CmpOp, a: &Value, b: &Value) -> Result<bool, OpEnd>
    requires faithful { IsFaithful world.old }
    ensures law { Comes result (state_of world.new) (plainly (compare op a.now b.now) (state_of world.old)) }
    ensures faithful { IsFaithful world.new }
    ensures store { world.new.store ≡ world.old.store }
    ensures fewer { world.new.running.meter.left ≤ world.old.running.meter.left }
{
    rp_compare::compare(alloc, &world.store, &mut world.running.meter, op, a, b)
}

/// Whether a value is not in a container.
#[inline(always)]
fn is_without(
    alloc: Global,
    world: &mut World,
    value: &Value,
    o: &Value,
) -> Result<Option<bool>, OpEnd>
    requires faithful { IsFaithful world.old }
    requires sound { IsSound world.old.store.heap o.now }
    ensures law { (call : Special → State → Outcome Bool) → ComesIfAny result (state_of world.new)
        (without_asked call value.now o.now (state_of world.old)) }
    ensures special { IfOk result (λ r. IfNone r
        (IsForMethod CONTAINS o.now (state_of world.old) (state_of world.new))) }
    ensures faithful { IsFaithful world.new }
    ensures shape { KeepsShape world.old.store.heap world.new.store.heap }
    ensures fewer { world.new.running.meter.left ≤ world.old.running.meter.left }
{
    let within = is_within(alloc, world, value, o)?;
    Ok(negated(within))
}

/// What does not hold.
#[inline(always)]
fn negated(holds: Option<bool>) -> Option<bool>
    ensures { result ≡ option_map not holds }
{
    Some(!holds?)
}

/// Whether a value is None.
#[inline(always)]
fn is_nil(value: &Value) -> bool
    ensures { result ≡ is_nil value.now }
{
    match value {
        Value::Rock(Rock::Nil) => true,
        _ => false,
    }
}

/// The name that is decided on the left operand; that of the mirrored comparison is on the right one.
#[inline(always)]
fn comparison_name(op: CmpOp) -> Name
    ensures { result ≡ comparison_name op }
{
    match op {
        CmpOp::Lt => word::LT,
        CmpOp::Le => word::LE,
        CmpOp::Gt => word::GT,
        CmpOp::Ge => word::GE,
        CmpOp::Eq => word::EQ,
        CmpOp::Ne => word::NE,
    }
}

/// The comparison with its operands exchanged.
#[inline(always)]
fn mirrored(op: CmpOp) -> CmpOp
    ensures { result ≡ mirrored op }
{
    match op {
        CmpOp::Lt => CmpOp::Gt,
        CmpOp::Le => CmpOp::Ge,
        CmpOp::Gt => CmpOp::Lt,
        CmpOp::Ge => CmpOp::Le,
        CmpOp::Eq => CmpOp::Eq,
        CmpOp::Ne => CmpOp::Ne,
    }
}
