//! Statements of programs.

ghost use Rattle.std.specs.Prelude.{IfOk, OnOk};
ghost use Rattle.rp_access.specs.Comes.{Comes};
ghost use Rattle.rp_access.specs.Moment.{state_of};
ghost use Rattle.rp_meaning.specs.Frame.{Run};
ghost use Rattle.rp_meaning.specs.Running.{program_frame};
ghost use Rattle.rp_proxy.specs.Faithful.{IsFaithful};
ghost use Rattle.rp_engine.specs.Codes.{AreIndexed};
ghost use Rattle.rp_engine.specs.Does as does;
ghost use Rattle.rp_step.specs.Left.{flows};
ghost use Rattle.rp_engine.specs.Moment.{run_of};
ghost use Rattle.rp_store.specs.Kept.{IsScopeOf};
ghost use Rattle.rp_store.specs.Shape.{KeepsShape};

use rp_base::{Oid, OpEnd, Side};
use rp_engine::{Halt, Machine, Units};
use rp_frame::{Activation, Control, Tasks, Values};
use rp_proxy::World;
use rp_step::{Left, Runner};
use rp_tree::Stmt;
use std::alloc::Global;

/// How many calls may be active at once (a rule of our own).
const CALLS: usize = 1000;

/// Runs statements of a side's program in its global scope, and tells how they were left.
///
/// # Errors
/// As those of `Runner::run_block`.
pub fn run_statements<'u>(
    alloc: Global,
    units: &'u Units<'u>,
    world: &mut World,
    side: Side,
    globals: Oid,
    statements: &'u [Stmt],
) -> Result<Result<Left, OpEnd>, Halt>
    requires faithful { IsFaithful world.old }
    requires scope { IsScopeOf world.old.store.heap side globals }
    requires indexed { AreIndexed units.now }
    ensures law { IfOk result (λ end. (base : Run) → Comes (flows end) (state_of world.new)
        (does.block statements.now (program_frame (run_of base units.now) side globals) (state_of world.old))) }
    ensures faithful { OnOk result (IsFaithful world.new) }
    ensures shape { KeepsShape world.old.store.heap world.new.store.heap }
{
    let machine = Machine {
        alloc,
        units,
        frame: Activation {
            side,
            block: 0,
            scope: globals,
            calls: CALLS,
            handling: None,
        },
        tasks: Tasks::new(alloc),
        values: Values::new(alloc),
        control: Control::Next,
        end: None,
    };
    let mut runner = Runner {
        machine,
        callers: Vec::new(alloc),
    };
    runner.run_block(world, statements)
}
