//! The raise statement (Python Language Reference, The raise statement).
#![tactic(auto, using(rp_store::proofs::CallerLemmas::goes_on))]

ghost use Rattle.std.specs.Prelude.{◌≤◌, OnOk, Some};
ghost use Rattle.rp_meaning.specs.Statements as stmt_forms;
ghost use Rattle.rp_proxy.specs.declared.world.World.{World as TheWorld};
ghost use Rattle.rp_store.specs.Shape.{KeepsShape};
ghost use Rattle.rp_engine.specs.Does as does;
ghost use Rattle.rp_engine.specs.Law.{Executes};
ghost use Rattle.rp_engine.specs.Loads as loads;
ghost use Rattle.rp_engine.specs.RaisingSteps.{raised_value};
ghost use Rattle.rp_engine.specs.Ready.{IsReady};

use crate::handling::raise_handled;
use rp_access::raise_value;
use rp_base::Value;
use rp_engine::{Halt, Machine};
use rp_frame::{Control, StmtTask, Task};
use rp_proxy::World;
use rp_tree::Expr;

/// `raise`, with a value or without.
///
/// # Errors
/// `Memory` where a growth was refused, as all that follow.
#[inline(never)]
pub fn raise<'u>(
    machine: &mut Machine<'u>,
    world: &mut World,
    value: &'u Option<Expr>,
) -> Result<(), Halt>
    requires ready { IsReady machine.old.units.now machine.old.frame machine.old.values world.old }
    ensures law { OnOk result
        (Executes (stmt_forms.raise (does.maybe value.now)) machine.old world.old machine.new world.new) }
    ensures ready { IsReady machine.new.units.now machine.new.frame machine.new.values world.new }
    ensures shape { KeepsShape world.old.store.heap world.new.store.heap }
    ensures fewer { world.new.running.meter.left ≤ world.old.running.meter.left }
{
    match value {
        Some(x) => raise_of(machine, world, x),
        None => raise_handled(machine),
    }
}

/// `raise` with a value.
#[inline(always)]
fn raise_of<'u>(machine: &mut Machine<'u>, world: &mut World, x: &'u Expr) -> Result<(), Halt>
    requires ready { IsReady machine.old.units.now machine.old.frame machine.old.values world.old }
    ensures law { OnOk result
        (Executes (stmt_forms.raise (Some (does.expr x.now))) machine.old world.old machine.new world.new) }
    ensures ready { IsReady machine.new.units.now machine.new.frame machine.new.values world.new }
    ensures shape { KeepsShape world.old.store.heap world.new.store.heap }
    ensures fewer { world.new.running.meter.left ≤ world.old.running.meter.left }
{
    match machine.leaf(world, x) {
        Ok(Some(value)) => raised(machine, value),
        Ok(None) => machine.wait(Task::Stmt(StmtTask::Raise), Control::Expression(x)),
        Err(end) => machine.cut_off(end),
    }
}

/// With the value, which is the exception or its class.
///
/// # Errors
/// `Memory` where a growth was refused.
#[inline(always)]
pub fn raised<'u>(machine: &mut Machine<'u>, value: Value) -> Result<(), Halt>
    ensures law { OnOk result ((w : TheWorld) → Executes (raised_value value) machine.old w machine.new w) }
    ensures ready { (w : TheWorld) → IsReady machine.old.units.now machine.old.frame machine.old.values w
        → IsReady machine.new.units.now machine.new.frame machine.new.values w }
    ensures less { OnOk result (loads.IsUnder 0 machine.old machine.new) }
{
    machine.cut_off(raise_value(machine.alloc, value))
}
