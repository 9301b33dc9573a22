//! Comprehensions (Python Language Reference, Displays for lists, sets and dictionaries).
#![tactic(auto, using(rp_store::proofs::CallerLemmas::goes_on, rp_engine::proofs::AtHand::at_hand))]

ghost use Rattle.std.specs.Prelude.{◌≡◌, ◌∷◌, ◌+◌, ◌≤◌, [], IfOk, OnOk, length};
ghost use Rattle.rp_access.specs.Comes.{Comes};
ghost use Rattle.rp_access.specs.Moment.{state_of};
ghost use Rattle.rp_meaning.specs.Expressions as forms;
ghost use Rattle.rp_meaning.specs.Frame.{Run, layouts_of};
ghost use Rattle.rp_proxy.specs.Faithful.{IsFaithful};
ghost use Rattle.rp_proxy.specs.declared.world.World.{World as TheWorld};
ghost use Rattle.rp_store.specs.Kept.{IsFit, IsScopeOf, IsSound};
ghost use Rattle.rp_store.specs.Shape.{KeepsShape};
ghost use Rattle.rp_engine.specs.ComprehensionSteps.{comprehension_of};
ghost use Rattle.rp_engine.specs.ComprehensionSteps.{display_of, does_made, element_added, entry_added};
ghost use Rattle.rp_engine.specs.DisplaySteps.{makes_display};
ghost use Rattle.rp_engine.specs.Does as does;
ghost use Rattle.rp_engine.specs.Law.{Evaluates, Executes, ResumesStmt, frame_in};
ghost use Rattle.rp_engine.specs.Loads as loads;
ghost use Rattle.rp_engine.specs.Ready.{IsReady};

use crate::looping::for_each;
use rp_access::{put_element, put_item, take_step, truth, walk};
use rp_base::{Kind, Oid, OpEnd, Rock, Side, Value};
use rp_engine::{Halt, Machine, is_value, local_count, new_display};
use rp_enter::new_scope;
use rp_frame::{Adds, Control, Display, Each, ExprTask, Inside, Made, StmtTask, Task};
use rp_ops::raised;
use rp_proxy::World;
use rp_tree::{Clause, Expr};
use std::alloc::Global;

/// A comprehension: its code block, its first clause, the clauses behind that, and what it makes.
#[derive(Clone, Copy)]
pub struct ComprehensionParts<'u> {
    pub block: usize,
    pub first: &'u Clause,
    pub behind: &'u [Clause],
    pub made: Made<'u>,
}

/// A comprehension, with its step: what the first clause goes over.
///
/// # Errors
/// `Memory` where a growth was refused, as all that follow.
#[inline(never)]
pub fn comprehension<'u>(
    machine: &mut Machine<'u>,
    world: &mut World,
    block: usize,
    clauses: &'u [Clause],
    made: Made<'u>,
) -> Result<(), Halt>
    requires ready { IsReady machine.old.units.now machine.old.frame machine.old.values world.old }
    ensures law { OnOk result (Evaluates (forms.comprehension block (does.clauses clauses.now)
        (does_made made.entry).0 (does_made made.entry).1) machine.old world.old machine.new world.new) }
    ensures ready { IsReady machine.new.units.now machine.new.frame machine.new.values world.new }
    ensures shape { KeepsShape world.old.store.heap world.new.store.heap }
    ensures fewer { world.new.running.meter.left ≤ world.old.running.meter.left }
    ensures less { OnOk result (loads.Lowers 2 machine.old world.old machine.new world.new) }
{
    match clauses {
        [] => machine.back(Value::Rock(Rock::Nil)),
        [first, behind @ ..] => begin_comprehension(
            machine,
            world,
            ComprehensionParts {
                block,
                first,
                behind,
                made,
            },
        ),
    }
}

/// Takes the step of a comprehension, and begins it.
#[inline(always)]
#[tactic(auto, using(rp_store::proofs::CallerLemmas::goes_on, rp_engine::proofs::Worlds::shape_stored))]
fn begin_comprehension<'u>(
    machine: &mut Machine<'u>,
    world: &mut World,
    parts: ComprehensionParts<'u>,
) -> Result<(), Halt>
    requires ready { IsReady machine.old.units.now machine.old.frame machine.old.values world.old }
    ensures law { OnOk result (Evaluates (forms.comprehension parts.entry.block
        (does.clause parts.entry.first.now ∷ does.clauses parts.entry.behind.now)
        (does_made parts.entry.made).0 (does_made parts.entry.made).1) machine.old world.old machine.new world.new) }
    ensures ready { IsReady machine.new.units.now machine.new.frame machine.new.values world.new }
    ensures shape { KeepsShape world.old.store.heap world.new.store.heap }
    ensures fewer { world.new.running.meter.left ≤ world.old.running.meter.left }
    ensures less { OnOk result (loads.Lowers 0 machine.old world.old machine.new world.new) }
{
    match take_step(world) {
        Ok(()) => machine.wait(
            Task::Expr(ExprTask::Comprehension(parts.block, parts.first, parts.behind, parts.made)),
            Control::Expression(&parts.first.walk.of),
        ),
        Err(end) => machine.no_value(end),
    }
}

/// Goes on with a comprehension over what its first clause goes over: it asks for the turns, which fill a new list or
/// dict in a scope of their own.
///
/// # Errors
/// `Memory` where a growth was refused.
#[inline(never)]
pub fn comprehend<'u>(
    machine: &mut Machine<'u>,
    world: &mut World,
    value: Value,
    parts: ComprehensionParts<'u>,
) -> Result<(), Halt>
    requires ready { IsReady machine.old.units.now machine.old.frame machine.old.values world.old }
    requires value { IsFit world.old.store.heap machine.old.frame.side value }
    ensures law { OnOk result (Evaluates (comprehension_of parts.entry.block (does.clause parts.entry.first.now)
        (does.clauses parts.entry.behind.now) (does_made parts.entry.made) value)
        machine.old world.old machine.new world.new) }
    ensures ready { IsReady machine.new.units.now machine.new.frame machine.new.values world.new }
    ensures shape { KeepsShape world.old.store.heap world.new.store.heap }
    ensures fewer { world.new.running.meter.left ≤ world.old.running.meter.left }
    ensures less { OnOk result (loads.Lowers 4 machine.old world.old machine.new world.new) }
{
    match walk(machine.alloc, world, &value) {
        Ok(spot) => machine.go_with(
            value,
            Control::Comprehension(parts.block, parts.first, parts.behind, parts.made, spot),
        ),
        Err(end) => machine.no_value(end),
    }
}

/// The scope of a comprehension, which is one more code block in the scope around, and where none of its names is
/// bound.
///
/// # Errors
/// `StopCells` where its cells are over the limit, `Memory` where a growth was refused.
pub fn inner_scope<'u>(machine: &Machine<'u>, world: &mut World, block: usize) -> Result<Oid, OpEnd>
    requires ready { IsReady machine.now.units.now machine.now.frame machine.now.values world.old }
    ensures law { (base : Run) → Comes result (state_of world.new) (forms.new_scope block (frame_in base machine.now)
        (forms.empty_slots (length ((layouts_of (frame_in base machine.now)).locals block)))
        (state_of world.old)) }
    ensures faithful { IsFaithful world.new }
    ensures shape { KeepsShape world.old.store.heap world.new.store.heap }
    ensures scope { IfOk result (IsScopeOf world.new.store.heap machine.now.frame.side) }
    ensures fewer { world.new.running.meter.left ≤ world.old.running.meter.left }
{
    let locals = local_count(machine.units.program(machine.frame.side), block);
    let slots = Vec::new(machine.alloc);
    new_scope(
        world,
        machine.frame.side,
        block,
        machine.frame.scope,
        locals,
        slots,
    )
}

/// Goes on with the tests of a clause that are left.
#[inline(never)]
pub fn where_all<'u>(
    machine: &mut Machine<'u>,
    world: &mut World,
    tests: &'u [Expr],
    clauses: &'u [Clause],
    adds: Adds<'u>,
) -> Result<(), Halt>
    requires ready { IsReady machine.old.units.now machine.old.frame machine.old.values world.old }
    ensures law { OnOk result (Executes (forms.where_all (does.exprs tests.now)
        (forms.nest (does.clauses clauses.now) (does.adds adds.entry))) machine.old world.old machine.new world.new) }
    ensures ready { IsReady machine.new.units.now machine.new.frame machine.new.values world.new }
    ensures shape { KeepsShape world.old.store.heap world.new.store.heap }
    ensures fewer { world.new.running.meter.left ≤ world.old.running.meter.left }
    ensures less { OnOk result (loads.Lowers (loads.tested tests.now clauses.now adds.entry)
        machine.old world.old machine.new world.new) }
{
    match tests {
        [] => nest(machine, world, clauses, adds),
        [test, behind @ ..] => machine.wait(
            Task::Stmt(StmtTask::Where(behind, clauses, adds)),
            Control::Expression(test),
        ),
    }
}

/// Goes on with the tests behind a test that is true; where it is false, the turn is done.
#[inline(always)]
pub fn after_where<'u>(
    machine: &mut Machine<'u>,
    world: &mut World,
    value: Value,
    tests: &'u [Expr],
    clauses: &'u [Clause],
    adds: Adds<'u>,
) -> Result<(), Halt>
    requires ready { IsReady machine.old.units.now machine.old.frame machine.old.values world.old }
    requires value { IsFit world.old.store.heap machine.old.frame.side value }
    ensures law { OnOk result (ResumesStmt (StmtTask.Where tests.entry clauses.entry adds.entry) value
        machine.old world.old machine.new world.new) }
    ensures ready { IsReady machine.new.units.now machine.new.frame machine.new.values world.new }
    ensures shape { KeepsShape world.old.store.heap world.new.store.heap }
    ensures fewer { world.new.running.meter.left ≤ world.old.running.meter.left }
    ensures less { OnOk result (loads.Lowers (2 + loads.tested tests.now clauses.now adds.entry)
        machine.old world.old machine.new world.new) }
{
    match truth(machine.alloc, world, &value) {
        Ok(true) => where_all(machine, world, tests, clauses, adds),
        Ok(false) => machine.go(Control::Next),
        Err(end) => machine.cut_off(end),
    }
}

/// Goes on with the clauses that are left, or adds.
#[inline(always)]
fn nest<'u>(
    machine: &mut Machine<'u>,
    world: &mut World,
    clauses: &'u [Clause],
    adds: Adds<'u>,
) -> Result<(), Halt>
    requires ready { IsReady machine.old.units.now machine.old.frame machine.old.values world.old }
    ensures law { OnOk result (Executes (forms.nest (does.clauses clauses.now) (does.adds adds.entry))
        machine.old world.old machine.new world.new) }
    ensures ready { IsReady machine.new.units.now machine.new.frame machine.new.values world.new }
    ensures shape { KeepsShape world.old.store.heap world.new.store.heap }
    ensures fewer { world.new.running.meter.left ≤ world.old.running.meter.left }
    ensures less { OnOk result (loads.Lowers (loads.nest clauses.now adds.entry)
        machine.old world.old machine.new world.new) }
{
    match clauses {
        [] => add(machine, adds),
        [clause, behind @ ..] => {
            for_each(
                machine,
                world,
                &clause.walk.of,
                clause_turn(clause, behind, adds),
            )
        }
    }
}

/// Goes on with the element that is added, or the key.
#[inline(always)]
fn add<'u>(machine: &mut Machine<'u>, adds: Adds<'u>) -> Result<(), Halt>
    ensures law { OnOk result ((w : TheWorld) → Executes (does.adds adds.entry) machine.old w machine.new w) }
    ensures ready { (w : TheWorld) → IsReady machine.old.units.now machine.old.frame machine.old.values w
        → IsReady machine.new.units.now machine.new.frame machine.new.values w }
    ensures less { OnOk result (loads.IsUnder (loads.adds adds.entry) machine.old machine.new) }
{
    match adds {
        Adds::Element(at, x) => machine.wait(
            Task::Stmt(StmtTask::AddElement(at)),
            Control::Expression(x),
        ),
        Adds::Entry(at, key, x) => machine.wait(
            Task::Stmt(StmtTask::AddKey(at, x)),
            Control::Expression(key),
        ),
    }
}

/// Adds an element to the list at a place.
///
/// # Errors
/// `Memory` where a growth was refused.
#[inline(never)]
pub fn add_element<'u>(
    machine: &mut Machine<'u>,
    world: &mut World,
    at: Oid,
    value: Value,
) -> Result<(), Halt>
    requires ready { IsReady machine.old.units.now machine.old.frame machine.old.values world.old }
    requires value { IsFit world.old.store.heap machine.old.frame.side value }
    ensures law { OnOk result (Executes (element_added at value) machine.old world.old machine.new world.new) }
    ensures ready { IsReady machine.new.units.now machine.new.frame machine.new.values world.new }
    ensures shape { KeepsShape world.old.store.heap world.new.store.heap }
    ensures fewer { world.new.running.meter.left ≤ world.old.running.meter.left }
    ensures less { OnOk result (loads.Lowers 2 machine.old world.old machine.new world.new) }
{
    match put_element(world, at, value) {
        Ok(()) => machine.go(Control::Next),
        Err(end) => machine.cut_off(end),
    }
}

/// Goes on with the value of an entry, whose key was evaluated.
#[inline(always)]
pub fn after_added_key<'u>(
    machine: &mut Machine<'u>,
    key: Value,
    at: Oid,
    x: &'u Expr,
) -> Result<(), Halt>
    ensures law { OnOk result ((w : TheWorld) → ResumesStmt (StmtTask.AddKey at x.entry) key
        machine.old w machine.new w) }
    ensures ready { (w : TheWorld) → IsReady machine.old.units.now machine.old.frame machine.old.values w
        → IsFit w.store.heap machine.old.frame.side key
        → IsReady machine.new.units.now machine.new.frame machine.new.values w }
    ensures less { OnOk result (loads.IsUnder (2 + loads.inside x.now) machine.old machine.new) }
{
    machine.wait_with(
        key,
        Task::Stmt(StmtTask::AddEntry(at)),
        Control::Expression(x),
    )
}

/// Adds the key at hand with its value to the dict at a place.
///
/// # Errors
/// `Memory` where a growth was refused.
#[inline(never)]
pub fn add_entry<'u>(
    machine: &mut Machine<'u>,
    world: &mut World,
    at: Oid,
    value: Value,
) -> Result<(), Halt>
    requires ready { IsReady machine.old.units.now machine.old.frame machine.old.values world.old }
    requires value { IsFit world.old.store.heap machine.old.frame.side value }
    ensures law { OnOk result (ResumesStmt (StmtTask.AddEntry at) value machine.old world.old machine.new world.new) }
    ensures ready { IsReady machine.new.units.now machine.new.frame machine.new.values world.new }
    ensures shape { KeepsShape world.old.store.heap world.new.store.heap }
    ensures fewer { world.new.running.meter.left ≤ world.old.running.meter.left }
    ensures less { OnOk result (loads.Lowers 2 machine.old world.old machine.new world.new) }
{
    let key = machine.at_hand();
    put_entry(machine, world, at, key, value)
}

/// Adds a key with its value to the dict at a place; where nothing stands that has items, that is a TypeError.
#[inline(always)]
fn put_entry<'u>(
    machine: &mut Machine<'u>,
    world: &mut World,
    at: Oid,
    key: Value,
    value: Value,
) -> Result<(), Halt>
    requires ready { IsReady machine.old.units.now machine.old.frame machine.old.values world.old }
    requires value { IsFit world.old.store.heap machine.old.frame.side value }
    ensures law { OnOk result (Executes (entry_added at key value) machine.old world.old machine.new world.new) }
    ensures ready { IsReady machine.new.units.now machine.new.frame machine.new.values world.new }
    ensures shape { KeepsShape world.old.store.heap world.new.store.heap }
    ensures fewer { world.new.running.meter.left ≤ world.old.running.meter.left }
    ensures less { OnOk result (loads.Lowers 2 machine.old world.old machine.new world.new) }
{
    if is_value(&world.store, at) {
        return put_in(machine, world, at, key, value);
    }
    let end = raised(machine.alloc, Kind::TypeError, "item");
    machine.cut_off(end)
}

/// The same, where an object stands there that is no scope.
#[inline(always)]
fn put_in<'u>(
    machine: &mut Machine<'u>,
    world: &mut World,
    at: Oid,
    key: Value,
    value: Value,
) -> Result<(), Halt>
    requires ready { IsReady machine.old.units.now machine.old.frame machine.old.values world.old }
    requires place { IsSound world.old.store.heap (Value.Ref at) }
    requires value { IsFit world.old.store.heap machine.old.frame.side value }
    ensures law { OnOk result (Executes (entry_added at key value) machine.old world.old machine.new world.new) }
    ensures ready { IsReady machine.new.units.now machine.new.frame machine.new.values world.new }
    ensures shape { KeepsShape world.old.store.heap world.new.store.heap }
    ensures fewer { world.new.running.meter.left ≤ world.old.running.meter.left }
    ensures less { OnOk result (loads.Lowers 2 machine.old world.old machine.new world.new) }
{
    match put_item(machine.alloc, world, &Value::Ref(at), &key, value) {
        Ok(()) => machine.go(Control::Next),
        Err(end) => machine.cut_off(end),
    }
}

/// What a turn of a clause does with each element.
#[inline(always)]
pub fn clause_turn<'u>(clause: &'u Clause, behind: &'u [Clause], adds: Adds<'u>) -> Each<'u>
    ensures target { does.target result.target.now ≡ (does.clause clause.now).bind }
    ensures inside { does.inside result.inside ≡ forms.where_all (does.clause clause.now).tests
        (forms.nest (does.clauses behind.now) (does.adds adds.entry)) }
{
    Each {
        target: &clause.walk.target,
        inside: Inside::Clause(&clause.tests, behind, adds),
    }
}

/// What a comprehension makes, empty. No name is bound to it.
///
/// # Errors
/// `StopCells` where its cells are over the limit, `Memory` where a growth was refused.
pub fn new_result(
    alloc: Global,
    world: &mut World,
    side: Side,
    made: Made<'_>,
) -> Result<Value, OpEnd>
    requires { IsFaithful world.old }
    ensures law { Comes result (state_of world.new)
        (makes_display side (display_of made.entry) [] (state_of world.old)) }
    ensures faithful { IsFaithful world.new }
    ensures shape { KeepsShape world.old.store.heap world.new.store.heap }
    ensures fit { IfOk result (IsFit world.new.store.heap side) }
    ensures fewer { world.new.running.meter.left ≤ world.old.running.meter.left }
{
    new_display(alloc, world, side, display_of(made), Vec::new(alloc))
}

/// The display of what a comprehension makes.
#[inline(always)]
fn display_of(made: Made<'_>) -> Display
    ensures { result ≡ display_of made.entry }
{
    match made {
        Made::List(_) => Display::List,
        Made::Dict(_, _) => Display::Dict,
    }
}

/// What a comprehension adds to what it makes, which stands at a place.
#[inline(always)]
pub fn adds_at<'u>(made: Made<'u>, at: Oid) -> Adds<'u>
    ensures { does.adds result ≡ (does_made made.entry).1 at }
{
    match made {
        Made::List(x) => Adds::Element(at, x),
        Made::Dict(key, x) => Adds::Entry(at, key, x),
    }
}
