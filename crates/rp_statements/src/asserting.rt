//! The assert statement (Python Language Reference, The assert statement).
#![tactic(auto, using(rp_store::proofs::CallerLemmas::goes_on))]

ghost use Rattle.std.specs.Prelude.{◌+◌, ◌≤◌, OnOk};
ghost use Rattle.rp_meaning.specs.Statements as stmt_forms;
ghost use Rattle.rp_proxy.specs.declared.world.World.{World as TheWorld};
ghost use Rattle.rp_store.specs.Kept.{IsFit};
ghost use Rattle.rp_store.specs.Shape.{KeepsShape};
ghost use Rattle.rp_engine.specs.Does as does;
ghost use Rattle.rp_engine.specs.Law.{Executes};
ghost use Rattle.rp_engine.specs.Loads as loads;
ghost use Rattle.rp_engine.specs.Ready.{IsReady};
ghost use Rattle.rp_engine.specs.Rest.{asserted, failed_with};

use rp_access::{text_of, truth};
use rp_base::{Kind, OpEnd, Raised, Value};
use rp_engine::{Halt, Machine};
use rp_frame::{Control, StmtTask, Task};
use rp_ops::raised;
use rp_proxy::World;
use rp_tree::Expr;

/// Goes on by the value of the test of an `assert`.
///
/// # Errors
/// `Memory` where a growth was refused.
#[inline(never)]
pub fn asserted<'u>(
    machine: &mut Machine<'u>,
    world: &mut World,
    value: Value,
    message: &'u Option<Expr>,
) -> Result<(), Halt>
    requires ready { IsReady machine.old.units.now machine.old.frame machine.old.values world.old }
    requires value { IsFit world.old.store.heap machine.old.frame.side value }
    ensures law { OnOk result (Executes (asserted value (does.maybe message.now))
        machine.old world.old machine.new world.new) }
    ensures ready { IsReady machine.new.units.now machine.new.frame machine.new.values world.new }
    ensures shape { KeepsShape world.old.store.heap world.new.store.heap }
    ensures fewer { world.new.running.meter.left ≤ world.old.running.meter.left }
    ensures less { OnOk result (loads.Lowers (2 + loads.maybe message.now)
        machine.old world.old machine.new world.new) }
{
    match truth(machine.alloc, world, &value) {
        Ok(true) => machine.go(Control::Next),
        Ok(false) => fail(machine, message),
        Err(end) => machine.cut_off(end),
    }
}

/// The test was false.
#[inline(never)]
fn fail<'u>(machine: &mut Machine<'u>, message: &'u Option<Expr>) -> Result<(), Halt>
    ensures law { OnOk result ((w : TheWorld)
        → Executes (stmt_forms.failed (does.maybe message.now)) machine.old w machine.new w) }
    ensures ready { (w : TheWorld) → IsReady machine.old.units.now machine.old.frame machine.old.values w
        → IsReady machine.new.units.now machine.new.frame machine.new.values w }
    ensures less { OnOk result (loads.IsUnder (2 + loads.maybe message.now) machine.old machine.new) }
{
    match message {
        None => machine.cut_off(raised(machine.alloc, Kind::AssertionError, "")),
        Some(message) => machine.wait(Task::Stmt(StmtTask::Fail), Control::Expression(message)),
    }
}

/// Raises the exception of an `assert` with the message.
///
/// # Errors
/// `Memory` where a growth was refused.
#[inline(never)]
pub fn fail_with<'u>(
    machine: &mut Machine<'u>,
    world: &mut World,
    message: Value,
) -> Result<(), Halt>
    requires ready { IsReady machine.old.units.now machine.old.frame machine.old.values world.old }
    requires value { IsFit world.old.store.heap machine.old.frame.side message }
    ensures law { OnOk result (Executes (failed_with message) machine.old world.old machine.new world.new) }
    ensures ready { IsReady machine.new.units.now machine.new.frame machine.new.values world.new }
    ensures shape { KeepsShape world.old.store.heap world.new.store.heap }
    ensures fewer { world.new.running.meter.left ≤ world.old.running.meter.left }
    ensures less { OnOk result (loads.Lowers 0 machine.old world.old machine.new world.new) }
{
    match text_of(machine.alloc, world, &message) {
        Ok(text) => machine.cut_off(OpEnd::Raised(Raised {
            kind: Kind::AssertionError,
            text,
        })),
        Err(end) => machine.cut_off(end),
    }
}
