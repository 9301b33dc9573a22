//! Items of instances that special methods store and delete (Python Language Reference, Special method names).
#![tactic(auto, using(rp_store::proofs::CallerLemmas::goes_on))]

ghost use Rattle.std.specs.Prelude.{◌≡◌, ◌∷◌, ◌+◌, [], OnOk};
ghost use Rattle.rp_base.specs.declared.word.TheConstants.{DEL_ITEM, SET_ITEM};
ghost use Rattle.rp_meaning.specs.Frame.{Run};
ghost use Rattle.rp_meaning.specs.State.{State, done};
ghost use Rattle.rp_ops.specs.Outcome.{on_value};
ghost use Rattle.rp_proxy.specs.declared.world.World.{World as TheWorld};
ghost use Rattle.rp_store.specs.Kept.{IsFit};
ghost use Rattle.rp_engine.specs.Law.{frame_in, rest_of};
ghost use Rattle.rp_engine.specs.Loads as loads;
ghost use Rattle.rp_engine.specs.Ready.{IsReady};
ghost use Rattle.rp_engine.specs.Rest.{did, rest};
ghost use Rattle.rp_engine.specs.SpecialSteps.{special_called};

use rp_base::Value;
use rp_base::word::{DEL_ITEM, SET_ITEM};
use rp_engine::{Halt, Machine};
use rp_frame::{Control, StmtTask, Task};

/// Asks for `__setitem__` of an object, which is to store a value; what it gives is dropped.
///
/// # Errors
/// `Memory` where a growth was refused, as what follows.
#[inline(never)]
pub(crate) fn store_by_method<'u>(
    machine: &mut Machine<'u>,
    o: Value,
    key: Value,
    value: Value,
) -> Result<(), Halt>
    ensures law { OnOk result ((base : Run) (s : State) → rest_of base machine.new s
        ≡ rest machine.old.tasks (did (frame_in base machine.old) machine.old.values
        (on_value (special_called SET_ITEM o (key ∷ value ∷ []) (frame_in base machine.old) s) (λ v s. done s)))) }
    ensures ready { (w : TheWorld) → IsReady machine.old.units.now machine.old.frame machine.old.values w
        → IsFit w.store.heap machine.old.frame.side o → IsFit w.store.heap machine.old.frame.side key
        → IsFit w.store.heap machine.old.frame.side value
        → IsReady machine.new.units.now machine.new.frame machine.new.values w }
    ensures less { OnOk result (loads.IsUnder (1 + loads.called) machine.old machine.new) }
{
    machine.wait_with_three(
        o,
        key,
        value,
        Task::Stmt(StmtTask::Evaluate),
        Control::Special(SET_ITEM, 2),
    )
}

/// Asks for `__delitem__` of an object; what it gives is dropped.
#[inline(never)]
pub(crate) fn delete_by_method<'u>(
    machine: &mut Machine<'u>,
    o: Value,
    key: Value,
) -> Result<(), Halt>
    ensures law { OnOk result ((base : Run) (s : State) → rest_of base machine.new s
        ≡ rest machine.old.tasks (did (frame_in base machine.old) machine.old.values
        (on_value (special_called DEL_ITEM o (key ∷ []) (frame_in base machine.old) s) (λ v s. done s)))) }
    ensures ready { (w : TheWorld) → IsReady machine.old.units.now machine.old.frame machine.old.values w
        → IsFit w.store.heap machine.old.frame.side o → IsFit w.store.heap machine.old.frame.side key
        → IsReady machine.new.units.now machine.new.frame machine.new.values w }
    ensures less { OnOk result (loads.IsUnder (1 + loads.called) machine.old machine.new) }
{
    machine.wait_with_two(
        o,
        key,
        Task::Stmt(StmtTask::Evaluate),
        Control::Special(DEL_ITEM, 1),
    )
}
