//! The class statement (Python Language Reference, Class definitions).
#![tactic(auto, using(rp_store::proofs::CallerLemmas::goes_on))]

ghost use Rattle.std.specs.Prelude.{◌+◌, ◌∷◌, ◌≡◌, ◌≤◌, [], All, IfOk, IfSome, List, MatchOption, OnOk, drop};
ghost use Rattle.std.specs.Prelude.{length, reverse, take};
ghost use Rattle.rp_access.specs.Comes.{Comes, IsEnd};
ghost use Rattle.rp_access.specs.Moment.{state_of};
ghost use Rattle.rp_meaning.specs.Classes as classes;
ghost use Rattle.rp_meaning.specs.Classes.{Part};
ghost use Rattle.rp_meaning.specs.Frame.{Run};
ghost use Rattle.rp_meaning.specs.State.{Flow, Outcome, State};
ghost use Rattle.rp_proxy.specs.Faithful.{IsFaithful};
ghost use Rattle.rp_proxy.specs.declared.world.World.{World as TheWorld};
ghost use Rattle.rp_store.specs.Heap.{IsHeld, Names};
ghost use Rattle.rp_store.specs.Kept.{IsFit};
ghost use Rattle.rp_store.specs.Parts.{IsClass, IsFunction};
ghost use Rattle.rp_store.specs.Shape.{KeepsShape};
ghost use Rattle.rp_engine.specs.ClassSteps.{class_behind, class_bound, class_with, count_of, held_methods, made_by};
ghost use Rattle.rp_engine.specs.ClassSteps.{name_of};
ghost use Rattle.rp_engine.specs.Does as does;
ghost use Rattle.rp_engine.specs.Law.{Executes, ResumesStmt, frame_in, rest_of};
ghost use Rattle.rp_engine.specs.Loads as loads;
ghost use Rattle.rp_engine.specs.Ready.{IsReady};
ghost use Rattle.rp_engine.specs.Rest.{did, rest};
ghost use Rattle.rp_statements.specs.Acts.{part_of};

use crate::augmentation::bind_next;
use rp_access::{declared_class, functions_in, new_class, renew_class, take_step};
use rp_base::{Memory, Name, Oid, OpEnd, Rock, Seed, Side, Value};
use rp_dict::Dict;
use rp_engine::{Halt, Machine, one_more, place_at};
use rp_expressions::defaults;
use rp_frame::{Control, FlowTask, StmtTask, Task, Values};
use rp_proxy::World;
use rp_tree::{Expr, Params, Stmt, StmtForm};
use std::alloc::Global;

/// What a statement of a class block does: it makes a method of this name by a function of this code block with these
/// parameters, evaluates an expression, or does nothing.
#[derive(Clone, Copy)]
pub(crate) enum Act<'u> {
    Method(usize, Name, &'u Params),
    Evaluate(&'u Expr),
    Nothing,
}

/// A `class` statement: the statements of its block in order, then the class, which is bound to the name.
///
/// # Errors
/// `Memory` where a growth was refused, and `TooLong` at more than 2^32 - 1 statements, as all that follow.
#[inline(never)]
pub fn class<'u>(
    machine: &mut Machine<'u>,
    world: &mut World,
    name: Name,
    body: &'u [Stmt],
) -> Result<(), Halt>
    requires ready { IsReady machine.old.units.now machine.old.frame machine.old.values world.old }
    ensures law { OnOk result (Executes (classes.class name (does.parts body.now))
        machine.old world.old machine.new world.new) }
    ensures ready { IsReady machine.new.units.now machine.new.frame machine.new.values world.new }
    ensures shape { KeepsShape world.old.store.heap world.new.store.heap }
    ensures fewer { world.new.running.meter.left ≤ world.old.running.meter.left }
{
    class_part(machine, world, name, body, 0, 0)
}

/// Goes on with the next statement of the block, of which so many are done; so many functions of these are at hand.
///
/// # Errors
/// As `class`.
#[inline(never)]
pub fn class_part<'u>(
    machine: &mut Machine<'u>,
    world: &mut World,
    name: Name,
    body: &'u [Stmt],
    done: u32,
    count: u32,
) -> Result<(), Halt>
    requires ready { IsReady machine.old.units.now machine.old.frame machine.old.values world.old }
    ensures law { OnOk result ((base : Run) → rest_of base machine.new (state_of world.new) ≡ rest machine.old.tasks
        (did (frame_in base machine.old) (drop count machine.old.values)
        (class_behind name (does.parts (drop done body.now))
        (held_methods (reverse (does.parts (take done body.now))) machine.old.values)
        (frame_in base machine.old) (state_of world.old)))) }
    ensures ready { IsReady machine.new.units.now machine.new.frame machine.new.values world.new }
    ensures shape { KeepsShape world.old.store.heap world.new.store.heap }
    ensures fewer { world.new.running.meter.left ≤ world.old.running.meter.left }
    ensures less { OnOk result (loads.Lowers 2 machine.old world.old machine.new world.new) }
{
    match part_at(body, done) {
        None => make_class(machine, world, name, body, count),
        Some(part) => class_step(machine, world, name, body, done, count, part),
    }
}

/// Takes the step of the next statement of the block, and begins it.
#[inline(always)]
#[tactic(auto, using(rp_store::proofs::CallerLemmas::goes_on, rp_engine::proofs::Worlds::shape_stored))]
fn class_step<'u>(
    machine: &mut Machine<'u>,
    world: &mut World,
    name: Name,
    body: &'u [Stmt],
    done: u32,
    count: u32,
    part: &'u Stmt,
) -> Result<(), Halt>
    requires ready { IsReady machine.old.units.now machine.old.frame machine.old.values world.old }
    requires next { drop done body.now ≡ part.now ∷ drop (done + 1) body.now }
    ensures law { OnOk result ((base : Run) → rest_of base machine.new (state_of world.new) ≡ rest machine.old.tasks
        (did (frame_in base machine.old) (drop count machine.old.values)
        (class_behind name (does.parts (drop done body.now))
        (held_methods (reverse (does.parts (take done body.now))) machine.old.values)
        (frame_in base machine.old) (state_of world.old)))) }
    ensures ready { IsReady machine.new.units.now machine.new.frame machine.new.values world.new }
    ensures shape { KeepsShape world.old.store.heap world.new.store.heap }
    ensures fewer { world.new.running.meter.left ≤ world.old.running.meter.left }
    ensures less { OnOk result (loads.Lowers 0 machine.old world.old machine.new world.new) }
{
    match take_step(world) {
        Ok(()) => class_next(machine, world, name, body, done, count, part),
        Err(end) => cut_class(machine, count, end),
    }
}

/// A class is not made; the functions at hand are dropped.
#[inline(never)]
fn cut_class<'u>(machine: &mut Machine<'u>, count: u32, end: OpEnd) -> Result<(), Halt>
    ensures law { OnOk result ((base : Run) (s : State) (o : Outcome Flow) → IsEnd end s o
        → rest_of base machine.new s
        ≡ rest machine.old.tasks (did (frame_in base machine.old) (drop count machine.old.values) o)) }
    ensures ready { (w : TheWorld) → IsReady machine.old.units.now machine.old.frame machine.old.values w
        → IsReady machine.new.units.now machine.new.frame machine.new.values w }
    ensures less { OnOk result (loads.IsUnder 0 machine.old machine.new) }
{
    machine.forget(count as usize);
    machine.cut_off(end)
}

/// Begins the next statement of the block, behind its step.
#[inline(always)]
fn class_next<'u>(
    machine: &mut Machine<'u>,
    world: &mut World,
    name: Name,
    body: &'u [Stmt],
    done: u32,
    count: u32,
    part: &'u Stmt,
) -> Result<(), Halt>
    requires ready { IsReady machine.old.units.now machine.old.frame machine.old.values world.old }
    requires next { drop done body.now ≡ part.now ∷ drop (done + 1) body.now }
    ensures law { OnOk result ((base : Run) → rest_of base machine.new (state_of world.new) ≡ rest machine.old.tasks
        (did (frame_in base machine.old) (drop count machine.old.values)
        (class_with name (does.part part.now) (does.parts (drop (done + 1) body.now))
        (held_methods (reverse (does.parts (take done body.now))) machine.old.values)
        (frame_in base machine.old) (state_of world.old)))) }
    ensures ready { IsReady machine.new.units.now machine.new.frame machine.new.values world.new }
    ensures shape { KeepsShape world.old.store.heap world.new.store.heap }
    ensures fewer { world.new.running.meter.left ≤ world.old.running.meter.left }
{
    let done = one_more(done)?;
    class_form(machine, world, name, body, done, count, &part.form)
}

/// Begins a statement of the block, which is the last of so many, behind its step.
///
/// # Errors
/// As `class`.
#[inline(always)]
fn class_form<'u>(
    machine: &mut Machine<'u>,
    world: &mut World,
    name: Name,
    body: &'u [Stmt],
    done: u32,
    count: u32,
    form: &'u StmtForm,
) -> Result<(), Halt>
    requires ready { IsReady machine.old.units.now machine.old.frame machine.old.values world.old }
    ensures law { OnOk result ((before : List Part)
        → reverse (does.parts (take done body.now)) ≡ does.part_form form.now ∷ before → (base : Run)
        → rest_of base machine.new (state_of world.new) ≡ rest machine.old.tasks
        (did (frame_in base machine.old) (drop count machine.old.values)
        (class_with name (does.part_form form.now) (does.parts (drop done body.now))
        (held_methods before machine.old.values) (frame_in base machine.old) (state_of world.old)))) }
    ensures ready { IsReady machine.new.units.now machine.new.frame machine.new.values world.new }
    ensures shape { KeepsShape world.old.store.heap world.new.store.heap }
    ensures fewer { world.new.running.meter.left ≤ world.old.running.meter.left }
{
    match act_of(form) {
        Act::Method(block, method, params) => {
            machine
                .tasks
                .push(Task::Stmt(StmtTask::Method(name, body, done, count)))?;
            defaults(machine, world, Some(method), block, 0, &params.plain)
        }
        Act::Evaluate(x) => {
            machine
                .tasks
                .push(Task::Flow(FlowTask::Class(name, body, done, count)))?;
            machine.wait(Task::Stmt(StmtTask::Evaluate), Control::Expression(x))
        }
        Act::Nothing => machine.wait(
            Task::Flow(FlowTask::Class(name, body, done, count)),
            Control::Next,
        ),
    }
}

/// With the function of a `def` in the block.
///
/// # Errors
/// As `class`.
#[inline(always)]
pub fn after_method<'u>(
    machine: &mut Machine<'u>,
    world: &mut World,
    name: Name,
    body: &'u [Stmt],
    done: u32,
    count: u32,
    value: Value,
) -> Result<(), Halt>
    requires ready { IsReady machine.old.units.now machine.old.frame machine.old.values world.old }
    requires value { IsFit world.old.store.heap machine.old.frame.side value }
    ensures law { OnOk result (ResumesStmt (StmtTask.Method name body.entry done count) value
        machine.old world.old machine.new world.new) }
    ensures ready { IsReady machine.new.units.now machine.new.frame machine.new.values world.new }
    ensures shape { KeepsShape world.old.store.heap world.new.store.heap }
    ensures fewer { world.new.running.meter.left ≤ world.old.running.meter.left }
    ensures less { OnOk result (loads.Lowers 2 machine.old world.old machine.new world.new) }
{
    machine.hold(value)?;
    let count = one_more(count)?;
    class_part(machine, world, name, body, done, count)
}

/// Makes the class, of which all functions are at hand, and binds it to the name.
#[inline(never)]
fn make_class<'u>(
    machine: &mut Machine<'u>,
    world: &mut World,
    name: Name,
    body: &'u [Stmt],
    count: u32,
) -> Result<(), Halt>
    requires ready { IsReady machine.old.units.now machine.old.frame machine.old.values world.old }
    ensures law { OnOk result ((base : Run) → rest_of base machine.new (state_of world.new) ≡ rest machine.old.tasks
        (did (frame_in base machine.old) (drop count machine.old.values)
        (class_bound name (held_methods (reverse (does.parts body.now)) machine.old.values)
        (frame_in base machine.old) (state_of world.old)))) }
    ensures ready { IsReady machine.new.units.now machine.new.frame machine.new.values world.new }
    ensures shape { KeepsShape world.old.store.heap world.new.store.heap }
    ensures fewer { world.new.running.meter.left ≤ world.old.running.meter.left }
    ensures less { OnOk result (loads.Lowers 2 machine.old world.old machine.new world.new) }
{
    let methods = methods_of(machine.alloc, world.store.seed(), &machine.values, body)?;
    machine.forget(count as usize);
    bind_class(machine, world, name, methods)
}

/// Makes the class with these methods, and binds it to the name.
#[inline(always)]
fn bind_class<'u>(
    machine: &mut Machine<'u>,
    world: &mut World,
    name: Name,
    methods: Dict<Name, Oid>,
) -> Result<(), Halt>
    requires ready { IsReady machine.old.units.now machine.old.frame machine.old.values world.old }
    ensures law { OnOk result (Executes (class_bound name methods) machine.old world.old machine.new world.new) }
    ensures ready { IsReady machine.new.units.now machine.new.frame machine.new.values world.new }
    ensures shape { KeepsShape world.old.store.heap world.new.store.heap }
    ensures fewer { world.new.running.meter.left ≤ world.old.running.meter.left }
    ensures less { OnOk result (loads.Lowers 2 machine.old world.old machine.new world.new) }
{
    let functions = functions_in(machine.alloc, &world.store, methods);
    let declared = declared_class(world, machine.frame.side, machine.frame.block, name);
    match class_with(world, machine.frame.side, declared, name, functions) {
        Ok(at) => bind_next(machine, world, name, Value::Ref(at)),
        Err(end) => machine.cut_off(end),
    }
}

/// The statement of a block behind so many; None where there is none.
#[inline(always)]
fn part_at(body: &[Stmt], done: u32) -> Option<&Stmt>
    ensures { MatchOption result (length body.now ≤ done)
        (λ part. drop done body.now ≡ part.now ∷ drop (done + 1) body.now) }
{
    let at = done as usize;
    if at >= body.len() {
        return None;
    }
    Some(&body[at])
}

/// The methods of the statements of a class block, by the functions that they made, which stand at hand, the last one
/// upon the others.
///
/// # Errors
/// `Memory` where a growth was refused.
fn methods_of(
    alloc: Global,
    seed: Seed,
    values: &Values,
    body: &[Stmt],
) -> Result<Dict<Name, Oid>, Memory>
    ensures { IfOk result (λ methods. methods ≡ held_methods (reverse (does.parts body.now)) values.now) }
{
    let mut methods = Dict::new(alloc, seed);
    let mut left = method_count(body);
    for stmt in body {
        left = with_part(values, &mut methods, left, &stmt.form)?;
    }
    Ok(methods)
}

/// How many statements of a class block make methods.
fn method_count(body: &[Stmt]) -> usize
    ensures { result ≡ count_of (does.parts body.now) }
{
    let mut count = 0;
    for stmt in body {
        count += part_count(&stmt.form);
    }
    count
}

/// How many methods a statement of a class block makes.
fn part_count(form: &StmtForm) -> usize
    ensures { result ≡ count_of (does.part_form form.now ∷ []) }
{
    if method_name(form).is_some() {
        return 1;
    }
    0
}

/// Gives the methods that of a statement of a class block, where it makes one. So many functions of this statement and
/// of those behind it are upon the others; answered is how many are of those behind it.
///
/// # Errors
/// `Memory` where a growth was refused.
fn with_part(
    values: &Values,
    methods: &mut Dict<Name, Oid>,
    left: usize,
    form: &StmtForm,
) -> Result<usize, Memory>
    requires { count_of (does.part_form form.now ∷ []) ≤ left }
    ensures count { IfOk result (λ behind. left ≡ count_of (does.part_form form.now ∷ []) + behind) }
    ensures methods { IfOk result (λ behind. (ps : List Part) → methods.old ≡ held_methods ps (drop left values.now)
        → methods.new ≡ held_methods (does.part_form form.now ∷ ps) (drop behind values.now)) }
{
    let Some(name) = method_name(form) else {
        return Ok(left);
    };
    let behind = left.saturating_sub(1);
    let nil = Value::Rock(Rock::Nil);
    methods.set(name, place_at(values.under(behind, &nil)))?;
    Ok(behind)
}

/// What a statement of a class block does.
#[tactic(auto, using(crate::proofs::ClassEquations::act_forms))]
fn act_of<'u>(form: &'u StmtForm) -> Act<'u>
    ensures { part_of result ≡ does.part_form form.now }
{
    match form {
        StmtForm::Def(block, method, params, _) => Act::Method(block.0, method.name, params),
        StmtForm::Expr(x) => Act::Evaluate(x),
        StmtForm::Assign(_, _)
        | StmtForm::Unpack(_, _, _)
        | StmtForm::Aug { .. }
        | StmtForm::Del(_)
        | StmtForm::Pass
        | StmtForm::Break
        | StmtForm::Continue
        | StmtForm::Return(_)
        | StmtForm::Raise(_)
        | StmtForm::Assert(_, _)
        | StmtForm::Global(_)
        | StmtForm::If(_, _)
        | StmtForm::While(_, _)
        | StmtForm::For(_, _)
        | StmtForm::Try { .. }
        | StmtForm::Class(_, _) => Act::Nothing,
    }
}

/// The name of the method that a statement of a class block makes.
fn method_name(form: &StmtForm) -> Option<Name>
    ensures { result ≡ name_of (does.part_form form.now) }
{
    match act_of(form) {
        Act::Method(_, name, _) => Some(name),
        Act::Evaluate(_) => None,
        Act::Nothing => None,
    }
}

/// The class of a side with these methods: a new one, or a declared one, which gets them in place of those that it had.
///
/// # Errors
/// As `new_class` and `renew_class`.
fn class_with(
    world: &mut World,
    side: Side,
    declared: Option<Oid>,
    name: Name,
    methods: Dict<Name, Oid>,
) -> Result<Oid, OpEnd>
    requires faithful { IsFaithful world.old }
    requires declared { IfSome declared (Names world.old.store.heap IsClass) }
    requires held { IfSome declared (IsHeld world.old.store.heap) }
    requires trusted { IfSome declared (λ at. side.0 ≡ 0) }
    requires methods { All (λ m. Names world.old.store.heap IsFunction m.1) methods }
    ensures law { Comes result (state_of world.new)
        (made_by side declared name methods (state_of world.old)) }
    ensures faithful { IsFaithful world.new }
    ensures shape { KeepsShape world.old.store.heap world.new.store.heap }
    ensures fit { IfOk result (λ at. IsFit world.new.store.heap side (Value.Ref at)) }
    ensures fewer { world.new.running.meter.left ≤ world.old.running.meter.left }
{
    match declared {
        Some(at) => renew_class(world, at, methods),
        None => new_class(world, side, name, methods),
    }
}
