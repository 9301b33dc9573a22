//! Operators and comparisons on whole numbers, which are computed where they are needed.
#![tactic(auto, using(rp_store::proofs::CallerLemmas::goes_on, crate::proofs::Worlds::shape_stored))]

ghost use Rattle.std.specs.Prelude.{◌∷◌, ◌≡◌, ◌≤◌, [], Ok, None, Some, FitsSigned, IfOk, IfSome, option_map};
ghost use Rattle.std.specs.Int.{w64};
ghost use Rattle.rp_access.specs.Comes.{Comes, ComesIfAny};
ghost use Rattle.rp_access.specs.Moment.{state_of};
ghost use Rattle.rp_meaning.specs.Expressions as forms;
ghost use Rattle.rp_meaning.specs.Frame.{Run};
ghost use Rattle.rp_meaning.specs.Scopes.{held};
ghost use Rattle.rp_ops.specs.Numbers.{computed};
ghost use Rattle.rp_proxy.specs.Faithful.{IsFaithful};
ghost use Rattle.rp_store.specs.Kept.{IsFit, IsScopeOf};
ghost use Rattle.rp_store.specs.Shape.{KeepsShape};
ghost use Rattle.rp_tree.specs.declared.parts.Test.{Test as TheTest};
ghost use Rattle.rp_engine.specs.Does as does;
ghost use Rattle.rp_engine.specs.Law.{frame_in};
ghost use Rattle.rp_engine.specs.NumberSteps.{IsRead, IsComputed, compared, in_three, int, truth};
ghost use Rattle.rp_engine.specs.Ready.{IsReady};
ghost use Rattle.rp_engine.specs.Slots.{slot_view};

use crate::leaves::truth_value;
use crate::machine::Machine;
use crate::names::{Slot, held};
use rp_access::take_step;
use rp_base::{BinOp, CmpOp, Name, OpEnd, Rock, Side, Value};
use rp_proxy::World;
use rp_store::Store;
use rp_tree::{Expr, ExprForm, Test};

impl<'u> Machine<'u> {
    /// The sum, the difference or the product of two whole numbers, None where it is none of these or does not fit into
    /// 64 bits; then nothing is done.
    ///
    /// # Errors
    /// `StopSteps` where no step is left.
    #[inline(always)]
    pub(crate) fn chain(
        &self,
        world: &mut World,
        first: &Expr,
        rest: &[(BinOp, Expr)],
    ) -> Result<Option<Value>, OpEnd>
        requires ready { IsReady self.now.units.now self.now.frame self.now.values world.old }
        ensures law { (base : Run) → ComesIfAny result (state_of world.new) (forms.chain (does.expr first.now)
            (does.ops rest.now) (frame_in base self.now) (state_of world.old)) }
        ensures none { result ≡ Ok None → world.new ≡ world.old }
        ensures faithful { IsFaithful world.new }
        ensures store { world.new.store ≡ world.old.store }
        ensures shape { KeepsShape world.old.store.heap world.new.store.heap }
        ensures fit { IfOk result (λ v. IfSome v (IsFit world.new.store.heap self.now.frame.side)) }
        ensures fewer { world.new.running.meter.left ≤ world.old.running.meter.left }
    {
        match self.chain_number(world, first, rest) {
            Some(number) => Ok(Some(behind_steps(world, number_value(number))?)),
            None => Ok(None),
        }
    }

    /// Whether a comparison of two whole numbers holds, None where it is another one; then nothing is done.
    ///
    /// # Errors
    /// `StopSteps` where no step is left.
    #[inline(always)]
    pub(crate) fn comparison(
        &self,
        world: &mut World,
        first: &Expr,
        rest: &[(Test, Expr)],
    ) -> Result<Option<Value>, OpEnd>
        requires ready { IsReady self.now.units.now self.now.frame self.now.values world.old }
        ensures law { (base : Run) → ComesIfAny result (state_of world.new) (forms.compare (does.expr first.now)
            (does.tests rest.now) (frame_in base self.now) (state_of world.old)) }
        ensures none { result ≡ Ok None → world.new ≡ world.old }
        ensures faithful { IsFaithful world.new }
        ensures store { world.new.store ≡ world.old.store }
        ensures shape { KeepsShape world.old.store.heap world.new.store.heap }
        ensures fit { IfOk result (λ v. IfSome v (IsFit world.new.store.heap self.now.frame.side)) }
        ensures fewer { world.new.running.meter.left ≤ world.old.running.meter.left }
    {
        match self.comparison_truth(world, first, rest) {
            Some(holds) => Ok(Some(behind_steps(world, truth_value(holds))?)),
            None => Ok(None),
        }
    }

    /// What a chain of operators is, where it is one operator on two whole numbers.
    #[inline(never)]
    fn chain_number(&self, world: &World, first: &Expr, rest: &[(BinOp, Expr)]) -> Option<i64>
        requires { IsReady self.now.units.now self.now.frame self.now.values world.now }
        ensures law { IfSome result (λ n. IsComputed self.now world.now.store.heap
            (forms.chain (does.expr first.now) (does.ops rest.now)) (int n)) }
        ensures fits { IfSome result (FitsSigned w64) }
    {
        match rest {
            [one] => self.operated(world, first, one.0, &one.1),
            _ => None,
        }
    }

    /// What an operator gives on two whole numbers.
    #[inline(always)]
    fn operated(&self, world: &World, first: &Expr, op: BinOp, x: &Expr) -> Option<i64>
        requires { IsReady self.now.units.now self.now.frame self.now.values world.now }
        ensures law { IfSome result (λ n. IsComputed self.now world.now.store.heap
            (forms.chain (does.expr first.now) ((op, does.expr x.now) ∷ [])) (int n)) }
        ensures fits { IfSome result (FitsSigned w64) }
    {
        match (self.number(world, first), self.number(world, x)) {
            (Some(a), Some(b)) => computed(op, a, b),
            _ => None,
        }
    }

    /// Whether a chain of comparisons holds, where it is one comparison of two whole numbers.
    #[inline(never)]
    fn comparison_truth(&self, world: &World, first: &Expr, rest: &[(Test, Expr)]) -> Option<bool>
        requires { IsReady self.now.units.now self.now.frame self.now.values world.now }
        ensures { IfSome result (λ b. IsComputed self.now world.now.store.heap
            (forms.compare (does.expr first.now) (does.tests rest.now)) (truth b)) }
    {
        match rest {
            [one] => self.tested(world, first, one.0, &one.1),
            _ => None,
        }
    }

    /// Whether a test holds of two whole numbers.
    #[inline(always)]
    fn tested(&self, world: &World, first: &Expr, test: Test, x: &Expr) -> Option<bool>
        requires { IsReady self.now.units.now self.now.frame self.now.values world.now }
        ensures { IfSome result (λ b. IsComputed self.now world.now.store.heap
            (forms.compare (does.expr first.now) ((test, does.expr x.now) ∷ [])) (truth b)) }
    {
        match test {
            Test::Order(op) => self.ordered(world, first, op, x),
            _ => None,
        }
    }

    /// Whether an order or an equality holds of two whole numbers.
    #[inline(always)]
    fn ordered(&self, world: &World, first: &Expr, op: CmpOp, x: &Expr) -> Option<bool>
        requires { IsReady self.now.units.now self.now.frame self.now.values world.now }
        ensures { IfSome result (λ b. IsComputed self.now world.now.store.heap
            (forms.compare (does.expr first.now) ((TheTest.Order op, does.expr x.now) ∷ [])) (truth b)) }
    {
        match (self.number(world, first), self.number(world, x)) {
            (Some(a), Some(b)) => Some(compared(op, a, b)),
            _ => None,
        }
    }

    /// The whole number that stands there or is bound to the name that does.
    #[inline(always)]
    fn number(&self, world: &World, x: &Expr) -> Option<i64>
        requires { IsReady self.now.units.now self.now.frame self.now.values world.now }
        ensures law { IfSome result (λ n. IsRead self.now world.now.store.heap (does.expr x.now) (int n)) }
        ensures fits { IfSome result (FitsSigned w64) }
    {
        self.form_number(world, &x.form)
    }

    /// The same, of its form.
    #[inline(always)]
    fn form_number(&self, world: &World, form: &ExprForm) -> Option<i64>
        requires { IsReady self.now.units.now self.now.frame self.now.values world.now }
        ensures law { IfSome result (λ n. IsRead self.now world.now.store.heap (does.form form.now) (int n)) }
        ensures fits { IfSome result (FitsSigned w64) }
    {
        match form {
            ExprForm::Name(name) => self.number_named(world, *name),
            ExprForm::Int(number) => Some(number_at(number)),
            _ => None,
        }
    }

    /// The whole number that is bound to a name.
    #[inline(always)]
    fn number_named(&self, world: &World, name: Name) -> Option<i64>
        requires { IsReady self.now.units.now self.now.frame self.now.values world.now }
        ensures law { IfSome result (λ n. IsRead self.now world.now.store.heap (forms.name name) (int n)) }
        ensures fits { IfSome result (FitsSigned w64) }
    {
        let place = self.place(name);
        let slot = self.slot(&world.store, place, name);
        number_in(&world.store, slot, self.frame.side)
    }
}

/// The whole number of a literal.
#[inline(always)]
fn number_at(number: &i64) -> i64
    ensures value { result ≡ number.now }
    ensures fits { FitsSigned w64 result }
{
    *number
}

/// A whole number as a value.
#[inline(always)]
fn number_value(number: i64) -> Value
    ensures { result ≡ int number }
{
    Value::Rock(Rock::Int(number))
}

/// The whole number that a slot holds.
#[inline(always)]
fn number_in(store: &Store, slot: Option<Slot>, side: Side) -> Option<i64>
    requires { IfSome slot (λ slot. IsScopeOf store.now.heap side slot.scope) }
    ensures value { IfSome result (λ n. held store.now.heap (option_map slot_view slot) ≡ Some (int n)) }
    ensures fits { IfSome result (FitsSigned w64) }
{
    match held(store, slot, side) {
        Some(value) => whole(value),
        None => None,
    }
}

/// The whole number that a value is.
#[inline(always)]
fn whole(value: &Value) -> Option<i64>
    ensures value { IfSome result (λ n. value.now ≡ int n) }
    ensures fits { IfSome result (FitsSigned w64) }
{
    match value {
        Value::Rock(Rock::Int(number)) => Some(*number),
        _ => None,
    }
}

/// The sum, the difference or the product of two numbers, where it has 64 bits.
#[inline(always)]
fn computed(op: BinOp, x: i64, y: i64) -> Option<i64>
    ensures value { IfSome result (λ n. computed op x y ≡ Ok n) }
    ensures fits { IfSome result (FitsSigned w64) }
{
    match op {
        BinOp::Add => x.checked_add(y),
        BinOp::Sub => x.checked_sub(y),
        BinOp::Mul => x.checked_mul(y),
        _ => None,
    }
}

/// Whether two numbers stand so.
#[inline(always)]
fn compared(op: CmpOp, x: i64, y: i64) -> bool
    ensures { result ≡ compared op x y }
{
    match op {
        CmpOp::Lt => x < y,
        CmpOp::Gt => y < x,
        CmpOp::Le => !(y < x),
        CmpOp::Ge => !(x < y),
        CmpOp::Eq => x == y,
        CmpOp::Ne => x != y,
    }
}

/// A value, with the steps of an operator and its two operands.
#[inline(always)]
fn behind_steps(world: &mut World, value: Value) -> Result<Value, OpEnd>
    requires faithful { IsFaithful world.old }
    ensures law { Comes result (state_of world.new) (in_three value (state_of world.old)) }
    ensures faithful { IsFaithful world.new }
    ensures store { world.new.store ≡ world.old.store }
    ensures shape { KeepsShape world.old.store.heap world.new.store.heap }
    ensures same { IfOk result (λ v. v ≡ value) }
    ensures fewer { world.new.running.meter.left ≤ world.old.running.meter.left }
{
    take_step(world)?;
    take_step(world)?;
    take_step(world)?;
    Ok(value)
}
