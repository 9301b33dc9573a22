//! Definitions of functions (Python Language Reference, Function definitions, Lambdas).
#![tactic(auto, using(rp_store::proofs::CallerLemmas::goes_on))]

ghost use Rattle.std.specs.Prelude.{◌≡◌, ◌∷◌, ◌+◌, ◌≤◌, [], IfOk, IfSome, MatchOption, OnOk};
ghost use Rattle.rp_meaning.specs.Expressions as forms;
ghost use Rattle.rp_meaning.specs.Statements as stmt_forms;
ghost use Rattle.rp_proxy.specs.Faithful.{IsFaithful};
ghost use Rattle.rp_store.specs.Kept.{AreFit, IsFit, IsScopeOf};
ghost use Rattle.rp_store.specs.Shape.{KeepsShape};
ghost use Rattle.rp_access.specs.Comes.{Comes};
ghost use Rattle.rp_access.specs.Moment.{state_of};
ghost use Rattle.rp_expressions.specs.Defining.{Defines};
ghost use Rattle.rp_engine.specs.DefinitionSteps.{function_of};
ghost use Rattle.rp_engine.specs.DisplaySteps.{makes_of};
ghost use Rattle.rp_engine.specs.Does as does;
ghost use Rattle.rp_engine.specs.Law.{Evaluates, Executes, Resumes};
ghost use Rattle.rp_engine.specs.Loads as loads;
ghost use Rattle.rp_engine.specs.Ready.{IsReady};
ghost use Rattle.rp_tree.specs.declared.expr.Params.{out-Params};

use rp_access::take_step;
use rp_base::{Name, Oid, OpEnd, Side, Value};
use rp_engine::{Halt, Machine, one_more};
use rp_frame::{Control, ExprTask, StmtTask, Task};
use rp_ops::new_object;
use rp_proxy::World;
use rp_store::Object;
use rp_tree::{Expr, Named, Params};

/// A `def`: the defaults of its parameters, then the function, which is bound to the name.
///
/// # Errors
/// `Memory` where a growth was refused, and `TooLong` at more than 2^32 - 1 defaults, as all that follow.
#[inline(never)]
pub fn definition<'u>(
    machine: &mut Machine<'u>,
    world: &mut World,
    name: Name,
    block: usize,
    params: &'u Params,
) -> Result<(), Halt>
    requires ready { IsReady machine.old.units.now machine.old.frame machine.old.values world.old }
    ensures law { OnOk result (Executes
        (stmt_forms.define name block (does.defaults (out-Params params.now).plain.items))
        machine.old world.old machine.new world.new) }
    ensures ready { IsReady machine.new.units.now machine.new.frame machine.new.values world.new }
    ensures shape { KeepsShape world.old.store.heap world.new.store.heap }
    ensures fewer { world.new.running.meter.left ≤ world.old.running.meter.left }
{
    machine.tasks.push(Task::Stmt(StmtTask::Define(name)))?;
    defaults(machine, world, Some(name), block, 0, &params.plain)
}

/// A lambda, with its step.
#[inline(never)]
#[tactic(auto, using(rp_store::proofs::CallerLemmas::goes_on, rp_engine::proofs::Worlds::shape_stored))]
pub fn lambda<'u>(
    machine: &mut Machine<'u>,
    world: &mut World,
    block: usize,
    params: &'u Params,
) -> Result<(), Halt>
    requires ready { IsReady machine.old.units.now machine.old.frame machine.old.values world.old }
    ensures law { OnOk result (Evaluates
        (forms.lambda block (does.defaults (out-Params params.now).plain.items))
        machine.old world.old machine.new world.new) }
    ensures ready { IsReady machine.new.units.now machine.new.frame machine.new.values world.new }
    ensures shape { KeepsShape world.old.store.heap world.new.store.heap }
    ensures fewer { world.new.running.meter.left ≤ world.old.running.meter.left }
    ensures less { OnOk result (loads.Lowers 0 machine.old world.old machine.new world.new) }
{
    match take_step(world) {
        Ok(()) => defaults(machine, world, None, block, 0, &params.plain),
        Err(end) => machine.no_value(end),
    }
}

/// Goes on with the defaults of the parameters that are left; so many before them are at hand.
#[inline(always)]
pub fn defaults<'u>(
    machine: &mut Machine<'u>,
    world: &mut World,
    name: Option<Name>,
    block: usize,
    count: u32,
    params: &'u [(Named, Option<Expr>)],
) -> Result<(), Halt>
    requires ready { IsReady machine.old.units.now machine.old.frame machine.old.values world.old }
    ensures law { OnOk result (Defines name block count (does.defaults params.now)
        machine.old world.old machine.new world.new) }
    ensures ready { IsReady machine.new.units.now machine.new.frame machine.new.values world.new }
    ensures shape { KeepsShape world.old.store.heap world.new.store.heap }
    ensures fewer { world.new.running.meter.left ≤ world.old.running.meter.left }
    ensures less { OnOk result (loads.Lowers (2 + loads.params params.now)
        machine.old world.old machine.new world.new) }
{
    match first_default(params) {
        None => make_function(machine, world, name, block, count),
        Some((x, rest)) => machine.wait(
            Task::Expr(ExprTask::Default(name, block, count, rest)),
            Control::Expression(x),
        ),
    }
}

/// With a default; so many before it are at hand.
#[inline(always)]
pub fn after_default<'u>(
    machine: &mut Machine<'u>,
    world: &mut World,
    name: Option<Name>,
    block: usize,
    count: u32,
    value: Value,
    rest: &'u [(Named, Option<Expr>)],
) -> Result<(), Halt>
    requires ready { IsReady machine.old.units.now machine.old.frame machine.old.values world.old }
    requires value { IsFit world.old.store.heap machine.old.frame.side value }
    ensures law { OnOk result (Resumes (ExprTask.Default name block count rest.entry) value
        machine.old world.old machine.new world.new) }
    ensures ready { IsReady machine.new.units.now machine.new.frame machine.new.values world.new }
    ensures shape { KeepsShape world.old.store.heap world.new.store.heap }
    ensures fewer { world.new.running.meter.left ≤ world.old.running.meter.left }
    ensures less { OnOk result (loads.Lowers (2 + loads.params rest.now) machine.old world.old machine.new world.new) }
{
    machine.hold(value)?;
    let count = one_more(count)?;
    defaults(machine, world, name, block, count, rest)
}

/// Makes the function, of which all defaults are at hand.
#[inline(never)]
fn make_function<'u>(
    machine: &mut Machine<'u>,
    world: &mut World,
    name: Option<Name>,
    block: usize,
    count: u32,
) -> Result<(), Halt>
    requires ready { IsReady machine.old.units.now machine.old.frame machine.old.values world.old }
    ensures law { OnOk result (Defines name block count [] machine.old world.old machine.new world.new) }
    ensures ready { IsReady machine.new.units.now machine.new.frame machine.new.values world.new }
    ensures shape { KeepsShape world.old.store.heap world.new.store.heap }
    ensures fewer { world.new.running.meter.left ≤ world.old.running.meter.left }
    ensures less { OnOk result (loads.Lowers 2 machine.old world.old machine.new world.new) }
{
    let defaults = machine.all_at_hand(count as usize)?;
    machine.give(new_function(
        world,
        machine.frame.side,
        name,
        block,
        machine.frame.scope,
        defaults,
    ))
}

/// The first default of some parameters, and the parameters behind it.
fn first_default<'u>(
    params: &'u [(Named, Option<Expr>)],
) -> Option<(&'u Expr, &'u [(Named, Option<Expr>)])>
    ensures law { MatchOption result (does.defaults params.now ≡ [])
        (λ found. does.defaults params.now ≡ does.expr found.0.now ∷ does.defaults found.1.now) }
    ensures less { IfSome result (λ found.
        loads.inside found.0.now + loads.params found.1.now ≤ loads.params params.now) }
{
    let mut rest = params;
    'params: while let [param, behind @ ..] = rest {
        if let Some(x) = &param.1 {
            return Some((x, behind));
        }
        rest = behind;
    }
    None
}

/// A new function of a side, made in a scope.
fn new_function(
    world: &mut World,
    side: Side,
    name: Option<Name>,
    block: usize,
    scope: Oid,
    defaults: Vec<Value>,
) -> Result<Value, OpEnd>
    requires faithful { IsFaithful world.old }
    requires scope { IsScopeOf world.old.store.heap side scope }
    requires fit { AreFit world.old.store.heap side defaults.items }
    ensures law { Comes result (state_of world.new)
        (makes_of side (function_of name side block scope defaults.items) (state_of world.old)) }
    ensures faithful { IsFaithful world.new }
    ensures shape { KeepsShape world.old.store.heap world.new.store.heap }
    ensures fit { IfOk result (IsFit world.new.store.heap side) }
    ensures fewer { world.new.running.meter.left ≤ world.old.running.meter.left }
{
    let function = Object::Function {
        name,
        unit: side,
        block,
        scope,
        defaults,
    };
    new_object(&mut world.store, side, function)
}
