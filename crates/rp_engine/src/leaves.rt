//! Leaves: expressions that are evaluated where they are needed. So are operators and comparisons on whole numbers.
#![tactic(auto, using(rp_store::proofs::CallerLemmas::goes_on, crate::proofs::Worlds::shape_stored))]

ghost use Rattle.std.specs.Prelude.{◌<◌, ◌≡◌, ◌≢◌, ◌≤◌, Some, None, Ok, IfOk, IfSome, OnOk};
ghost use Rattle.rp_meaning.specs.State.{stepped};
ghost use Rattle.rp_ops.specs.Outcome.{gives};
ghost use Rattle.rp_access.specs.Parts.{step_end};
ghost use Rattle.rp_meaning.specs.Expressions as forms;
ghost use Rattle.rp_meaning.specs.Frame.{Frame, Run};
ghost use Rattle.rp_meaning.specs.Meaning.{constant};
ghost use Rattle.rp_proxy.specs.Faithful.{IsFaithful};
ghost use Rattle.rp_store.specs.Kept.{IsFit};
ghost use Rattle.rp_store.specs.Shape.{KeepsShape};
ghost use Rattle.rp_access.specs.Comes.{Comes, ComesIfAny};
ghost use Rattle.rp_engine.specs.Does as does;
ghost use Rattle.rp_engine.specs.Law.{frame_in};
ghost use Rattle.rp_access.specs.Moment.{state_of};
ghost use Rattle.rp_engine.specs.Ready.{IsReady};

use crate::machine::Machine;
use rp_access::take_step;
use rp_base::{Name, OpEnd, Rock, Value};
use rp_proxy::World;
use rp_tree::{Const, Expr, ExprForm};

impl<'u> Machine<'u> {
    /// The value of a literal or a name, or of an operator or a comparison on two whole numbers; None where it is another
    /// expression; then nothing is done.
    ///
    /// # Errors
    /// `StopSteps` where no step is left, and as `read`.
    #[inline(always)]
    #[tactic(auto, using(crate::proofs::Equations::expr_out, crate::proofs::Worlds::shape_stored))]
    pub fn leaf(&self, world: &mut World, x: &Expr) -> Result<Option<Value>, OpEnd>
        requires ready { IsReady self.now.units.now self.now.frame self.now.values world.old }
        ensures law { (base : Run) → ComesIfAny result (state_of world.new)
            (does.expr x.now (frame_in base self.now) (state_of world.old)) }
        ensures none { result ≡ Ok None → world.new ≡ world.old }
        ensures faithful { IsFaithful world.new }
        ensures store { world.new.store ≡ world.old.store }
        ensures ready { IsReady self.now.units.now self.now.frame self.now.values world.new }
        ensures shape { KeepsShape world.old.store.heap world.new.store.heap }
        ensures fit { IfOk result (λ v. IfSome v (IsFit world.new.store.heap self.now.frame.side)) }
        ensures fewer { world.new.running.meter.left ≤ world.old.running.meter.left }
    {
        self.leaf_form(world, &x.form)
    }

    /// The same, of its form.
    #[inline(always)]
    #[tactic(auto, using(crate::proofs::Equations::leaves, crate::proofs::Worlds::shape_stored))]
    pub fn leaf_form(&self, world: &mut World, form: &ExprForm) -> Result<Option<Value>, OpEnd>
        requires ready { IsReady self.now.units.now self.now.frame self.now.values world.old }
        ensures law { (base : Run) → ComesIfAny result (state_of world.new)
            (does.form form.now (frame_in base self.now) (state_of world.old)) }
        ensures none { result ≡ Ok None → world.new ≡ world.old }
        ensures faithful { IsFaithful world.new }
        ensures store { world.new.store ≡ world.old.store }
        ensures shape { KeepsShape world.old.store.heap world.new.store.heap }
        ensures fit { IfOk result (λ v. IfSome v (IsFit world.new.store.heap self.now.frame.side)) }
        ensures fewer { world.new.running.meter.left ≤ world.old.running.meter.left }
    {
        match form {
            ExprForm::Name(name) => self.known_name(world, *name),
            ExprForm::Int(number) => Ok(Some(literal(world, int_value(number))?)),
            ExprForm::Text(text) => {
                let text = text.copy()?;
                Ok(Some(literal(world, Value::Rock(Rock::Text(text)))?))
            }
            ExprForm::Const(keyword) => Ok(Some(literal(world, value_of(*keyword))?)),
            ExprForm::Chain(first, rest) => self.chain(world, first, rest),
            ExprForm::Compare(first, rest) => self.comparison(world, first, rest),
            _ => Ok(None),
        }
    }

    /// The step of a part, and its value where `leaf` gives one, None where it is another expression; then the step
    /// alone is taken.
    ///
    /// # Errors
    /// As `leaf`.
    #[inline(always)]
    pub fn next_leaf(&self, world: &mut World, x: &Expr) -> Result<Option<Value>, OpEnd>
        requires ready { IsReady self.now.units.now self.now.frame self.now.values world.old }
        ensures law { (base : Run) → ComesIfAny result (state_of world.new)
            (stepped (state_of world.old) (does.expr x.now (frame_in base self.now))) }
        ensures none { result ≡ Ok None → step_end (state_of world.old) ≡ gives tt (state_of world.new) }
        ensures faithful { IsFaithful world.new }
        ensures store { world.new.store ≡ world.old.store }
        ensures ready { IsReady self.now.units.now self.now.frame self.now.values world.new }
        ensures shape { KeepsShape world.old.store.heap world.new.store.heap }
        ensures fit { IfOk result (λ v. IfSome v (IsFit world.new.store.heap self.now.frame.side)) }
        ensures fewer { world.new.running.meter.left ≤ world.old.running.meter.left }
        ensures took { OnOk result (world.new.running.meter.left < world.old.running.meter.left) }
    {
        take_step(world)?;
        self.leaf(world, x)
    }

    /// The same, as that of a leaf.
    #[inline(always)]
    fn known_name(&self, world: &mut World, name: Name) -> Result<Option<Value>, OpEnd>
        requires ready { IsReady self.now.units.now self.now.frame self.now.values world.old }
        ensures law { (base : Run) → ComesIfAny result (state_of world.new)
            (forms.name name (frame_in base self.now) (state_of world.old)) }
        ensures some { result ≢ Ok None }
        ensures faithful { IsFaithful world.new }
        ensures store { world.new.store ≡ world.old.store }
        ensures shape { KeepsShape world.old.store.heap world.new.store.heap }
        ensures fit { IfOk result (λ v. IfSome v (IsFit world.new.store.heap self.now.frame.side)) }
        ensures fewer { world.new.running.meter.left ≤ world.old.running.meter.left }
    {
        Ok(Some(self.name(world, name)?))
    }

    /// A name, with its step.
    ///
    /// # Errors
    /// `StopSteps` where no step is left, and as `read`.
    #[inline(always)]
    pub fn name(&self, world: &mut World, name: Name) -> Result<Value, OpEnd>
        requires ready { IsReady self.now.units.now self.now.frame self.now.values world.old }
        ensures law { (base : Run) → Comes result (state_of world.new)
            (forms.name name (frame_in base self.now) (state_of world.old)) }
        ensures faithful { IsFaithful world.new }
        ensures store { world.new.store ≡ world.old.store }
        ensures shape { KeepsShape world.old.store.heap world.new.store.heap }
        ensures fit { IfOk result (IsFit world.new.store.heap self.now.frame.side) }
        ensures fewer { world.new.running.meter.left ≤ world.old.running.meter.left }
        ensures took { OnOk result (world.new.running.meter.left < world.old.running.meter.left) }
    {
        take_step(world)?;
        self.read(world, name)
    }
}

/// A literal, with its step.
///
/// # Errors
/// `StopSteps` where no step is left.
#[inline(always)]
pub fn literal(world: &mut World, value: Value) -> Result<Value, OpEnd>
    requires faithful { IsFaithful world.old }
    ensures law { (frame : Frame)
        → Comes result (state_of world.new) (forms.constant value frame (state_of world.old)) }
    ensures faithful { IsFaithful world.new }
    ensures store { world.new.store ≡ world.old.store }
    ensures shape { KeepsShape world.old.store.heap world.new.store.heap }
    ensures same { IfOk result (λ v. v ≡ value) }
    ensures fewer { world.new.running.meter.left ≤ world.old.running.meter.left }
    ensures took { OnOk result (world.new.running.meter.left < world.old.running.meter.left) }
{
    take_step(world)?;
    Ok(value)
}

/// None, True or False.
#[inline(always)]
fn value_of(keyword: Const) -> Value
    ensures { result ≡ constant keyword }
{
    match keyword {
        Const::Nil => Value::Rock(Rock::Nil),
        Const::Truth(truth) => truth_value(truth),
    }
}

/// True or False.
#[inline(always)]
pub(crate) fn truth_value(truth: bool) -> Value
    ensures { result ≡ Value.Rock (Rock.Truth truth) }
{
    Value::Rock(Rock::Truth(truth))
}

/// The value of an integer literal.
#[inline(always)]
pub fn int_value(number: &i64) -> Value
    ensures { result ≡ Value.Rock (Rock.Int number.now) }
{
    Value::Rock(Rock::Int(*number))
}
