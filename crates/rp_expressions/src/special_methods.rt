//! Expressions that special methods of instances do (Python Language Reference, Special method names).
#![tactic(auto, using(rp_store::proofs::CallerLemmas::goes_on))]

ghost use Rattle.std.specs.Prelude.{◌+◌, ◌∷◌, ◌≡◌, [], OnOk, drop, suc};
ghost use Rattle.rp_base.specs.declared.word.TheConstants.{CONTAINS, GET_ITEM, LEN};
ghost use Rattle.rp_frame.specs.Top.{top};
ghost use Rattle.rp_meaning.specs.Expressions as forms;
ghost use Rattle.rp_meaning.specs.Frame.{Run};
ghost use Rattle.rp_meaning.specs.State.{State};
ghost use Rattle.rp_ops.specs.Outcome.{on_value};
ghost use Rattle.rp_proxy.specs.declared.world.World.{World as TheWorld};
ghost use Rattle.rp_store.specs.Kept.{IsFit};
ghost use Rattle.rp_engine.specs.Does as does;
ghost use Rattle.rp_engine.specs.Law.{Resumes, frame_in, rest_of};
ghost use Rattle.rp_engine.specs.Loads as loads;
ghost use Rattle.rp_engine.specs.Ready.{IsReady};
ghost use Rattle.rp_engine.specs.Rest.{gave, rest};
ghost use Rattle.rp_engine.specs.SpecialSteps.{holds_by, special_called, with_contained, with_length};

use crate::comparisons::by_test;
use crate::primaries::more_trailers;
use rp_access::length_of;
use rp_base::Value;
use rp_base::word::{CONTAINS, GET_ITEM, LEN};
use rp_engine::{Halt, Machine};
use rp_frame::{Control, ExprTask, Task};
use rp_ops::truth;
use rp_proxy::World;
use rp_tree::{Expr, Test, Trailer};

/// Asks for `__getitem__` of an object, and goes on with the trailers that are left.
///
/// # Errors
/// `Memory` where a growth was refused, as all that follow.
#[inline(never)]
pub(crate) fn item_by_method<'u>(
    machine: &mut Machine<'u>,
    o: Value,
    key: Value,
    trailers: &'u [Trailer],
) -> Result<(), Halt>
    ensures law { OnOk result ((base : Run) (s : State) → rest_of base machine.new s
        ≡ rest machine.old.tasks (gave (frame_in base machine.old) machine.old.values
        (on_value (special_called GET_ITEM o (key ∷ []) (frame_in base machine.old) s)
        (λ w s. forms.trailers (does.trailers trailers.now) w (frame_in base machine.old) s)))) }
    ensures ready { (w : TheWorld) → IsReady machine.old.units.now machine.old.frame machine.old.values w
        → IsFit w.store.heap machine.old.frame.side o → IsFit w.store.heap machine.old.frame.side key
        → IsReady machine.new.units.now machine.new.frame machine.new.values w }
    ensures less { OnOk result (loads.IsUnder (1 + loads.called) machine.old machine.new) }
{
    machine.wait_with_two(
        o,
        key,
        Task::Expr(ExprTask::Trailers(trailers)),
        Control::Special(GET_ITEM, 1),
    )
}

/// Asks for `__contains__` of the right operand of a test, and goes on with the tests that are left.
#[inline(never)]
pub(crate) fn test_by_method<'u>(
    machine: &mut Machine<'u>,
    test: Test,
    a: Value,
    b: Value,
    tests: &'u [(Test, Expr)],
) -> Result<(), Halt>
    ensures law { OnOk result ((base : Run) (s : State) → rest_of base machine.new s
        ≡ rest machine.old.tasks (gave (frame_in base machine.old) machine.old.values
        (on_value (special_called CONTAINS b (a ∷ []) (frame_in base machine.old) s)
        (λ r s. with_contained test b (does.tests tests.now) r (frame_in base machine.old) s)))) }
    ensures ready { (w : TheWorld) → IsReady machine.old.units.now machine.old.frame machine.old.values w
        → IsFit w.store.heap machine.old.frame.side a → IsFit w.store.heap machine.old.frame.side b
        → IsReady machine.new.units.now machine.new.frame machine.new.values w }
    ensures less { OnOk result (loads.IsUnder (2 + loads.called) machine.old machine.new) }
{
    machine.hold_copy(&b)?;
    machine.wait_with_two(
        b,
        a,
        Task::Expr(ExprTask::Contained(test, tests)),
        Control::Special(CONTAINS, 1),
    )
}

/// With what `__contains__` gave for a test, which counts as a truth value; the container is at hand.
#[inline(never)]
pub fn after_contained<'u>(
    machine: &mut Machine<'u>,
    world: &World,
    test: Test,
    value: Value,
    rest: &'u [(Test, Expr)],
) -> Result<(), Halt>
    requires ready { IsReady machine.old.units.now machine.old.frame machine.old.values world.now }
    requires value { IsFit world.now.store.heap machine.old.frame.side value }
    ensures law { OnOk result (Resumes (ExprTask.Contained test rest.entry) value
        machine.old world.now machine.new world.now) }
    ensures ready { IsReady machine.new.units.now machine.new.frame machine.new.values world.now }
    ensures less { OnOk result (loads.IsUnder 3 machine.old machine.new) }
{
    let b = machine.at_hand();
    let within = truth(&world.store, &value);
    by_test(machine, holds_by(test, within), b, rest)
}

/// Asks for `__len__` of the last value at hand, the only argument of `len`, and goes on with the trailers that are
/// left. So many arguments are at hand, upon `len`.
#[inline(never)]
pub(crate) fn length_by_method<'u>(
    machine: &mut Machine<'u>,
    count: u32,
    trailers: &'u [Trailer],
) -> Result<(), Halt>
    ensures law { OnOk result ((base : Run) (s : State) → rest_of base machine.new s
        ≡ rest machine.old.tasks (gave (frame_in base machine.old) (drop (suc count) machine.old.values)
        (on_value (special_called LEN (top machine.old.values) [] (frame_in base machine.old) s)
        (λ r s. with_length (does.trailers trailers.now) r (frame_in base machine.old) s)))) }
    ensures ready { (w : TheWorld) → IsReady machine.old.units.now machine.old.frame machine.old.values w
        → IsReady machine.new.units.now machine.new.frame machine.new.values w }
    ensures less { OnOk result (loads.IsUnder (2 + loads.called) machine.old machine.new) }
{
    let o = machine.at_hand();
    machine.forget(count as usize);
    machine.wait_with(
        o,
        Task::Expr(ExprTask::Length(trailers)),
        Control::Special(LEN, 0),
    )
}

/// With what `__len__` gave for `len`.
#[inline(never)]
pub fn after_length<'u>(
    machine: &mut Machine<'u>,
    value: Value,
    rest: &'u [Trailer],
) -> Result<(), Halt>
    ensures law { OnOk result ((w : TheWorld) → Resumes (ExprTask.Length rest.entry) value
        machine.old w machine.new w) }
    ensures ready { (w : TheWorld) → IsReady machine.old.units.now machine.old.frame machine.old.values w
        → IsReady machine.new.units.now machine.new.frame machine.new.values w }
    ensures less { OnOk result (loads.IsUnder 3 machine.old machine.new) }
{
    match length_of(machine.alloc, &value) {
        Ok(length) => more_trailers(machine, length, rest),
        Err(end) => machine.no_value(end),
    }
}

/// Whether a test holds, where the container has the value or not.
#[inline(always)]
fn holds_by(test: Test, within: bool) -> bool
    ensures { result ≡ holds_by test within }
{
    match test {
        Test::NotWithin => !within,
        _ => within,
    }
}
