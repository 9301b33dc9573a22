//! Statements: what begins them, and what goes on from the value or the end of a part.
#![tactic(auto, using(rp_store::proofs::CallerLemmas::goes_on))]

ghost use Rattle.std.specs.Prelude.{◌+◌, ◌∷◌, ◌≡◌, ◌≤◌, OnOk, suc, true};
ghost use Rattle.rp_meaning.specs.Statements as stmt_forms;
ghost use Rattle.rp_proxy.specs.declared.world.World.{World as TheWorld};
ghost use Rattle.rp_store.specs.Kept.{IsFit};
ghost use Rattle.rp_store.specs.Shape.{KeepsShape};
ghost use Rattle.rp_engine.specs.Does as does;
ghost use Rattle.rp_engine.specs.Law.{Executes, Moves, ResumesStmt};
ghost use Rattle.rp_engine.specs.Loads as loads;
ghost use Rattle.rp_engine.specs.Ready.{IsReady};
ghost use Rattle.rp_engine.specs.Rest.{loop, tested_turn, turn};
ghost use Rattle.rp_step.specs.TaskGroups.{of_place};
ghost use Rattle.rp_tree.specs.declared.expr.Arg.TheViews.{out-Walk};

use rp_access::{take_step, truth};
use rp_base::{OpEnd, Value};
use rp_engine::{Halt, Machine};
use rp_expressions::definition;
use rp_frame::{Control, Each, FlowTask, Inside, StmtTask, Task};
use rp_proxy::World;
use rp_statements::{
    after_attribute, after_augment, after_augmented_item, after_augmented_key, after_got,
    after_handler, after_method, asserted, augment_key, augment_read, augmented, begin_try,
    bind_next, class, fail_with, give_back, raise, raised, returns,
};
use rp_targets::{
    add_element, add_entry, after_added_key, after_container, after_deleted_key, after_object,
    after_store_key, after_where, assign_target, del_attribute, delete_all, delete_key, for_each,
    store_all, store_target, walk_over,
};
use rp_tree::{Branch, Expr, Place, Stmt, StmtForm, Walk, stmts_of};

/// Begins a statement, with its step.
///
/// # Errors
/// `Memory` where a growth was refused, and where it has more parts than are counted, as all that follow.
#[inline(never)]
#[tactic(auto, using(rp_store::proofs::CallerLemmas::goes_on, rp_engine::proofs::Worlds::shape_stored))]
pub(crate) fn statement<'u>(
    machine: &mut Machine<'u>,
    world: &mut World,
    x: &'u Stmt,
) -> Result<(), Halt>
    requires ready { IsReady machine.old.units.now machine.old.frame machine.old.values world.old }
    ensures law { OnOk result (Executes (does.stmt x.now) machine.old world.old machine.new world.new) }
    ensures ready { IsReady machine.new.units.now machine.new.frame machine.new.values world.new }
    ensures shape { KeepsShape world.old.store.heap world.new.store.heap }
    ensures fewer { world.new.running.meter.left ≤ world.old.running.meter.left }
    ensures less { OnOk result (loads.Lowers 0 machine.old world.old machine.new world.new) }
{
    if let Err(end) = take_step(world) {
        return machine.cut_off(end);
    }
    form(machine, world, &x.form)
}

/// Begins a form of any kind.
#[inline(always)]
fn form<'u>(machine: &mut Machine<'u>, world: &mut World, form: &'u StmtForm) -> Result<(), Halt>
    requires ready { IsReady machine.old.units.now machine.old.frame machine.old.values world.old }
    ensures law { OnOk result (Executes (does.stmt_form form.now) machine.old world.old machine.new world.new) }
    ensures ready { IsReady machine.new.units.now machine.new.frame machine.new.values world.new }
    ensures shape { KeepsShape world.old.store.heap world.new.store.heap }
    ensures fewer { world.new.running.meter.left ≤ world.old.running.meter.left }
{
    match form {
        StmtForm::Expr(value) => evaluate(machine, value),
        StmtForm::Assign(places, value) => assign(machine, world, places, value),
        StmtForm::Pass => machine.go(Control::Next),
        StmtForm::Global(_) => machine.go(Control::Next),
        StmtForm::Break => machine.go(Control::Broke),
        StmtForm::Continue => machine.go(Control::Continued),
        StmtForm::If(branches, other) => choice(machine, world, branches, stmts_of(other)),
        StmtForm::While(test, body) => begin_loop(machine, world, test, body),
        StmtForm::Del(places) => delete_all(machine, world, places),
        StmtForm::Assert(test, message) => assertion(machine, test, message),
        StmtForm::Aug {
            place,
            op,
            value,
            ..
        } => augmented(machine, world, place, *op, value),
        StmtForm::For(walk, body) => iterate(machine, world, walk, body),
        StmtForm::Raise(value) => raise(machine, world, value),
        StmtForm::Unpack(target, value, _) => assign_target(machine, world, target, value),
        StmtForm::Try {
            body,
            handlers,
            other,
            last,
        } => begin_try(machine, body, handlers, stmts_of(other), stmts_of(last)),
        StmtForm::Class(name, body) => class(machine, world, name.name, body),
        StmtForm::Return(value) => give_back(machine, world, value),
        StmtForm::Def(block, name, params, _) => {
            definition(machine, world, name.name, block.0, params)
        }
    }
}

/// An expression statement.
#[inline(always)]
fn evaluate<'u>(machine: &mut Machine<'u>, value: &'u Expr) -> Result<(), Halt>
    ensures law { OnOk result (Moves (stmt_forms.evaluate (does.expr value.now)) machine.old machine.new) }
    ensures ready { (w : TheWorld) → IsReady machine.old.units.now machine.old.frame machine.old.values w
        → IsReady machine.new.units.now machine.new.frame machine.new.values w }
{
    machine.wait(Task::Stmt(StmtTask::Evaluate), Control::Expression(value))
}

/// `assert`.
#[inline(always)]
fn assertion<'u>(
    machine: &mut Machine<'u>,
    test: &'u Expr,
    message: &'u Option<Expr>,
) -> Result<(), Halt>
    ensures law { OnOk result (Moves (stmt_forms.assert (does.expr test.now) (does.maybe message.now))
        machine.old machine.new) }
    ensures ready { (w : TheWorld) → IsReady machine.old.units.now machine.old.frame machine.old.values w
        → IsReady machine.new.units.now machine.new.frame machine.new.values w }
{
    machine.wait(
        Task::Stmt(StmtTask::Assert(message)),
        Control::Expression(test),
    )
}

/// A `for` statement.
#[inline(always)]
fn iterate<'u>(
    machine: &mut Machine<'u>,
    world: &mut World,
    walk: &'u Walk,
    body: &'u [Stmt],
) -> Result<(), Halt>
    requires ready { IsReady machine.old.units.now machine.old.frame machine.old.values world.old }
    ensures law { OnOk result (Executes (stmt_forms.for (does.expr (out-Walk walk.now).of)
        (does.target (out-Walk walk.now).target) (does.block body.now)) machine.old world.old machine.new world.new) }
    ensures ready { IsReady machine.new.units.now machine.new.frame machine.new.values world.new }
    ensures shape { KeepsShape world.old.store.heap world.new.store.heap }
    ensures fewer { world.new.running.meter.left ≤ world.old.running.meter.left }
{
    let each = Each {
        target: &walk.target,
        inside: Inside::Block(body),
    };
    for_each(machine, world, &walk.of, each)
}

/// An assignment.
#[inline(never)]
fn assign<'u>(
    machine: &mut Machine<'u>,
    world: &mut World,
    places: &'u [Place],
    value: &'u Expr,
) -> Result<(), Halt>
    requires ready { IsReady machine.old.units.now machine.old.frame machine.old.values world.old }
    ensures law { OnOk result
        (Executes (stmt_forms.assign (does.expr value.now) (stmt_forms.store_all (does.places places.now)))
        machine.old world.old machine.new world.new) }
    ensures ready { IsReady machine.new.units.now machine.new.frame machine.new.values world.new }
    ensures shape { KeepsShape world.old.store.heap world.new.store.heap }
    ensures fewer { world.new.running.meter.left ≤ world.old.running.meter.left }
{
    match machine.leaf(world, value) {
        Ok(Some(v)) => store_all(machine, world, places, v),
        Ok(None) => machine.wait(
            Task::Stmt(StmtTask::Assign(places)),
            Control::Expression(value),
        ),
        Err(end) => machine.cut_off(end),
    }
}

/// Begins a choice.
#[inline(never)]
fn choice<'u>(
    machine: &mut Machine<'u>,
    world: &mut World,
    branches: &'u [Branch],
    other: &'u [Stmt],
) -> Result<(), Halt>
    requires ready { IsReady machine.old.units.now machine.old.frame machine.old.values world.old }
    ensures law { OnOk result (Executes (stmt_forms.choose (does.branches branches.now) (does.block other.now))
        machine.old world.old machine.new world.new) }
    ensures ready { IsReady machine.new.units.now machine.new.frame machine.new.values world.new }
    ensures shape { KeepsShape world.old.store.heap world.new.store.heap }
    ensures fewer { world.new.running.meter.left ≤ world.old.running.meter.left }
{
    match branches {
        [] => machine.go(Control::Block(other)),
        [branch, rest @ ..] => first_branch(machine, world, branch, rest, other),
    }
}

/// Goes on by the test of the first branch, where it is evaluated in its place; else waits for its value.
#[inline(always)]
fn first_branch<'u>(
    machine: &mut Machine<'u>,
    world: &mut World,
    branch: &'u Branch,
    rest: &'u [Branch],
    other: &'u [Stmt],
) -> Result<(), Halt>
    requires ready { IsReady machine.old.units.now machine.old.frame machine.old.values world.old }
    ensures law { OnOk result
        (Executes (stmt_forms.choose (does.branch branch.now ∷ does.branches rest.now) (does.block other.now))
        machine.old world.old machine.new world.new) }
    ensures ready { IsReady machine.new.units.now machine.new.frame machine.new.values world.new }
    ensures shape { KeepsShape world.old.store.heap world.new.store.heap }
    ensures fewer { world.new.running.meter.left ≤ world.old.running.meter.left }
{
    match machine.leaf(world, &branch.test) {
        Ok(Some(value)) => branched(machine, world, value, &branch.body, rest, other),
        Ok(None) => machine.wait(
            Task::Stmt(StmtTask::Branch(&branch.body, rest, other)),
            Control::Expression(&branch.test),
        ),
        Err(end) => machine.cut_off(end),
    }
}

/// Goes on with the branches that are left of a choice.
#[inline(always)]
fn choose<'u>(
    machine: &mut Machine<'u>,
    branches: &'u [Branch],
    other: &'u [Stmt],
) -> Result<(), Halt>
    ensures law { OnOk result ((w : TheWorld)
        → Executes (stmt_forms.choose (does.branches branches.now) (does.block other.now))
        machine.old w machine.new w) }
    ensures ready { (w : TheWorld) → IsReady machine.old.units.now machine.old.frame machine.old.values w
        → IsReady machine.new.units.now machine.new.frame machine.new.values w }
    ensures less { OnOk result (loads.IsUnder (3 + loads.branches branches.now) machine.old machine.new) }
{
    match branches {
        [] => machine.go(Control::Block(other)),
        [branch, rest @ ..] => machine.wait(
            Task::Stmt(StmtTask::Branch(&branch.body, rest, other)),
            Control::Expression(&branch.test),
        ),
    }
}

/// Begins a loop, which makes no more turns than there are steps, and one.
#[inline(never)]
fn begin_loop<'u>(
    machine: &mut Machine<'u>,
    world: &mut World,
    test: &'u Expr,
    body: &'u [Stmt],
) -> Result<(), Halt>
    requires ready { IsReady machine.old.units.now machine.old.frame machine.old.values world.old }
    ensures law { OnOk result (Executes (stmt_forms.while (does.expr test.now) (does.block body.now))
        machine.old world.old machine.new world.new) }
    ensures ready { IsReady machine.new.units.now machine.new.frame machine.new.values world.new }
    ensures shape { KeepsShape world.old.store.heap world.new.store.heap }
    ensures fewer { world.new.running.meter.left ≤ world.old.running.meter.left }
{
    next_turn(machine, world, world.running.meter.left, test, body)
}

/// A turn of a loop that may still make so many.
#[inline(always)]
pub(crate) fn loop_turn<'u>(
    machine: &mut Machine<'u>,
    world: &mut World,
    turns: u64,
    test: &'u Expr,
    body: &'u [Stmt],
) -> Result<(), Halt>
    requires ready { IsReady machine.old.units.now machine.old.frame machine.old.values world.old }
    ensures law { OnOk result (Executes (loop turns (does.expr test.now) (does.block body.now))
        machine.old world.old machine.new world.new) }
    ensures ready { IsReady machine.new.units.now machine.new.frame machine.new.values world.new }
    ensures shape { KeepsShape world.old.store.heap world.new.store.heap }
    ensures fewer { world.new.running.meter.left ≤ world.old.running.meter.left }
    ensures less { OnOk result (loads.Lowers 1 machine.old world.old machine.new world.new) }
{
    if turns == 0 {
        return machine.cut_off(OpEnd::StopSteps);
    }
    next_turn(machine, world, turns - 1, test, body)
}

/// A turn of a loop that may make so many behind it.
#[inline(always)]
fn next_turn<'u>(
    machine: &mut Machine<'u>,
    world: &mut World,
    behind: u64,
    test: &'u Expr,
    body: &'u [Stmt],
) -> Result<(), Halt>
    requires ready { IsReady machine.old.units.now machine.old.frame machine.old.values world.old }
    ensures law { OnOk result (Executes (loop (suc behind) (does.expr test.now) (does.block body.now))
        machine.old world.old machine.new world.new) }
    ensures ready { IsReady machine.new.units.now machine.new.frame machine.new.values world.new }
    ensures shape { KeepsShape world.old.store.heap world.new.store.heap }
    ensures fewer { world.new.running.meter.left ≤ world.old.running.meter.left }
    ensures less { OnOk result (loads.Lowers 1 machine.old world.old machine.new world.new) }
{
    machine
        .tasks
        .push(Task::Flow(FlowTask::While(behind, test, body)))?;
    turn(machine, world, test, body)
}

/// A turn, with its step; a test that is false leaves the loop.
#[inline(always)]
#[tactic(auto, using(rp_store::proofs::CallerLemmas::goes_on, rp_engine::proofs::Worlds::shape_stored))]
fn turn<'u>(
    machine: &mut Machine<'u>,
    world: &mut World,
    test: &'u Expr,
    body: &'u [Stmt],
) -> Result<(), Halt>
    requires ready { IsReady machine.old.units.now machine.old.frame machine.old.values world.old }
    ensures law { OnOk result (Executes (turn (does.expr test.now) (does.block body.now))
        machine.old world.old machine.new world.new) }
    ensures ready { IsReady machine.new.units.now machine.new.frame machine.new.values world.new }
    ensures shape { KeepsShape world.old.store.heap world.new.store.heap }
    ensures fewer { world.new.running.meter.left ≤ world.old.running.meter.left }
    ensures less { OnOk result (loads.Lowers 0 machine.old world.old machine.new world.new) }
{
    if let Err(end) = take_step(world) {
        return machine.cut_off(end);
    }
    match machine.leaf(world, test) {
        Ok(Some(value)) => tested(machine, world, value, body),
        Ok(None) => machine.wait(Task::Stmt(StmtTask::Test(body)), Control::Expression(test)),
        Err(end) => machine.cut_off(end),
    }
}

/// Goes on by the test of a loop.
#[inline(always)]
fn tested<'u>(
    machine: &mut Machine<'u>,
    world: &mut World,
    value: Value,
    body: &'u [Stmt],
) -> Result<(), Halt>
    requires ready { IsReady machine.old.units.now machine.old.frame machine.old.values world.old }
    requires value { IsFit world.old.store.heap machine.old.frame.side value }
    ensures law { OnOk result (Executes (tested_turn value (does.block body.now))
        machine.old world.old machine.new world.new) }
    ensures ready { IsReady machine.new.units.now machine.new.frame machine.new.values world.new }
    ensures shape { KeepsShape world.old.store.heap world.new.store.heap }
    ensures fewer { world.new.running.meter.left ≤ world.old.running.meter.left }
    ensures less { OnOk result (loads.Lowers 3 machine.old world.old machine.new world.new) }
{
    match truth(machine.alloc, world, &value) {
        Ok(true) => machine.go(Control::Block(body)),
        Ok(false) => machine.go(Control::Broke),
        Err(end) => machine.cut_off(end),
    }
}

/// Goes on by the test of a branch.
#[inline(always)]
fn branched<'u>(
    machine: &mut Machine<'u>,
    world: &mut World,
    value: Value,
    body: &'u [Stmt],
    branches: &'u [Branch],
    other: &'u [Stmt],
) -> Result<(), Halt>
    requires ready { IsReady machine.old.units.now machine.old.frame machine.old.values world.old }
    requires value { IsFit world.old.store.heap machine.old.frame.side value }
    ensures law { OnOk result (ResumesStmt (StmtTask.Branch body.entry branches.entry other.entry) value
        machine.old world.old machine.new world.new) }
    ensures ready { IsReady machine.new.units.now machine.new.frame machine.new.values world.new }
    ensures shape { KeepsShape world.old.store.heap world.new.store.heap }
    ensures fewer { world.new.running.meter.left ≤ world.old.running.meter.left }
    ensures less { OnOk result (loads.Lowers (3 + loads.branches branches.now)
        machine.old world.old machine.new world.new) }
{
    match truth(machine.alloc, world, &value) {
        Ok(true) => machine.go(Control::Block(body)),
        Ok(false) => choose(machine, branches, other),
        Err(end) => machine.cut_off(end),
    }
}

/// What a statement does with the value that it waited for.
#[inline(always)]
pub(crate) fn after_stmt<'u>(
    machine: &mut Machine<'u>,
    world: &mut World,
    task: StmtTask<'u>,
    value: Value,
) -> Result<(), Halt>
    requires ready { IsReady machine.old.units.now machine.old.frame machine.old.values world.old }
    requires value { IsFit world.old.store.heap machine.old.frame.side value }
    ensures law { OnOk result (ResumesStmt task.entry value machine.old world.old machine.new world.new) }
    ensures ready { IsReady machine.new.units.now machine.new.frame machine.new.values world.new }
    ensures shape { KeepsShape world.old.store.heap world.new.store.heap }
    ensures fewer { world.new.running.meter.left ≤ world.old.running.meter.left }
    ensures less { OnOk result (loads.Lowers (2 + loads.stmt_task task.entry)
        machine.old world.old machine.new world.new) }
{
    match task {
        StmtTask::Evaluate => machine.go(Control::Next),
        StmtTask::Assign(places) => store_all(machine, world, places, value),
        StmtTask::Branch(body, branches, other) => branched(
            machine, world, value, body, branches, other,
        ),
        StmtTask::Test(body) => tested(machine, world, value, body),
        StmtTask::Assert(message) => asserted(machine, world, value, message),
        StmtTask::Fail => fail_with(machine, world, value),
        StmtTask::For(each) => walk_over(machine, world, value, each),
        StmtTask::Raise => raised(machine, value),
        StmtTask::Unpack(target) => store_target(machine, world, target, value),
        StmtTask::Handler(handler, behind) => after_handler(machine, world, handler, behind, value),
        StmtTask::Return => returns(machine, value),
        StmtTask::Define(name) => bind_next(machine, world, name, value),
        StmtTask::Where(tests, clauses, adds) => {
            after_where(machine, world, value, tests, clauses, adds)
        }
        StmtTask::AddElement(at) => add_element(machine, world, at, value),
        StmtTask::AddKey(at, x) => after_added_key(machine, value, at, x),
        StmtTask::AddEntry(at) => add_entry(machine, world, at, value),
        StmtTask::Method(name, body, done, count) => {
            after_method(machine, world, name, body, done, count, value)
        }
        _ => after_place(machine, world, task, value),
    }
}

/// What a statement does with a part of a place that it stores to, deletes or augments, or with what augments it.
#[inline(always)]
fn after_place<'u>(
    machine: &mut Machine<'u>,
    world: &mut World,
    task: StmtTask<'u>,
    value: Value,
) -> Result<(), Halt>
    requires ready { IsReady machine.old.units.now machine.old.frame machine.old.values world.old }
    requires value { IsFit world.old.store.heap machine.old.frame.side value }
    requires task { of_place task ≡ true }
    ensures law { OnOk result (ResumesStmt task.entry value machine.old world.old machine.new world.new) }
    ensures ready { IsReady machine.new.units.now machine.new.frame machine.new.values world.new }
    ensures shape { KeepsShape world.old.store.heap world.new.store.heap }
    ensures fewer { world.new.running.meter.left ≤ world.old.running.meter.left }
    ensures less { OnOk result (loads.Lowers (2 + loads.stmt_task task.entry)
        machine.old world.old machine.new world.new) }
{
    match task {
        StmtTask::StoreAttr(name) => after_object(machine, world, name, value),
        StmtTask::StoreItem(key) => after_container(machine, world, key, value),
        StmtTask::StoreKey => after_store_key(machine, world, value),
        StmtTask::DeleteAttr(name) => del_attribute(machine, world, value, name),
        StmtTask::DeleteItem(key) => delete_key(machine, world, value, key),
        StmtTask::DeleteKey => after_deleted_key(machine, world, value),
        StmtTask::AugmentName(name, op) => after_augment(machine, world, name, op, value),
        StmtTask::AugmentAttr(name, op, x) => augment_read(machine, world, value, name, op, x),
        StmtTask::AugmentedAttr(name, op) => after_attribute(machine, world, name, op, value),
        StmtTask::AugmentItem(key, op, x) => augment_key(machine, world, value, key, op, x),
        StmtTask::AugmentKey(op, x) => after_augmented_key(machine, world, op, value, x),
        StmtTask::AugmentGot(op, x) => after_got(machine, world, op, value, x),
        StmtTask::AugmentedItem(op) => after_augmented_item(machine, world, op, value),
        _ => unreachable!(),
    }
}
