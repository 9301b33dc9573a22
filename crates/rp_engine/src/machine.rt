//! The machine, and how it goes on.

ghost use Rattle.std.specs.Prelude.{◌+◌, ◌∷◌, ◌≡◌, ◌≢◌, IfOk, OnErr, OnOk, Some, suc};
ghost use Rattle.rp_base.specs.declared.value.Value.{Value as TheValue};
ghost use Rattle.rp_meaning.specs.Frame.{Run};
ghost use Rattle.rp_meaning.specs.State.{State, Outcome, Flow};
ghost use Rattle.rp_ops.specs.Outcome.{gives};
ghost use Rattle.rp_proxy.specs.declared.world.World.{World};
ghost use Rattle.rp_store.specs.Kept.{IsFit};
ghost use Rattle.rp_access.specs.Comes.{Comes, IsEnd};
ghost use Rattle.rp_engine.specs.Law.{frame_in, rest_of};
ghost use Rattle.rp_engine.specs.Loads as loads;
ghost use Rattle.rp_engine.specs.Ready.{IsReady};
ghost use Rattle.rp_engine.specs.Rest.{after, begun, did, gave, rest};

use crate::halt::Halt;
use crate::units::Units;
use rp_base::{OpEnd, Value};
use rp_frame::{Activation, Control, Task, Tasks, Values};
use std::alloc::Global;

/// A machine that runs code: what it does next, the tasks that wait for the end of that, and the values at hand.
#[derive(Drop)]
pub struct Machine<'u> {
    pub alloc: Global,
    pub units: &'u Units<'u>,
    pub frame: Activation,
    pub tasks: Tasks<'u>,
    pub values: Values,
    pub control: Control<'u>,
    /// Why there is no value, or why a statement was cut off.
    pub end: Option<OpEnd>,
}

impl<'u> Machine<'u> {
    /// An expression gives what was answered.
    ///
    /// # Errors
    /// `Memory` where a growth was refused, or that is what was answered.
    #[inline(always)]
    pub fn give(&mut self, answer: Result<Value, OpEnd>) -> Result<(), Halt>
        ensures law { OnOk result ((base : Run) (s : State) (o : Outcome TheValue) → Comes answer s o
            → rest_of base self.new s ≡ rest self.old.tasks (gave (frame_in base self.old) self.old.values o)) }
        ensures ready { (w : World) → IsReady self.old.units.now self.old.frame self.old.values w
            → IfOk answer (IsFit w.store.heap self.old.frame.side)
            → IsReady self.new.units.now self.new.frame self.new.values w }
        ensures less { OnOk result (loads.IsUnder 2 self.old self.new) }
    {
        match answer {
            Ok(value) => self.back(value),
            Err(end) => self.no_value(end),
        }
    }

    /// Goes on with a part, for whose end a task waits.
    ///
    /// # Errors
    /// `Memory` where a growth was refused.
    #[inline(always)]
    pub fn wait(&mut self, task: Task<'u>, control: Control<'u>) -> Result<(), Halt>
        ensures law { OnOk result ((base : Run) (s : State) → rest_of base self.new s
            ≡ rest self.old.tasks (after task.entry
            (begun (frame_in base self.old) control.entry self.old.values self.old.end s))) }
        ensures ready { (w : World) → IsReady self.old.units.now self.old.frame self.old.values w
            → IsReady self.new.units.now self.new.frame self.new.values w }
        ensures less { OnOk result (loads.load self.new
            ≡ loads.next control.entry + (suc (loads.held task.entry) + loads.tasks self.old.tasks)) }
    {
        self.tasks.push(task)?;
        self.control = control;
        Ok(())
    }

    /// The same, with one more value at hand.
    #[inline(always)]
    pub fn wait_with(
        &mut self,
        value: Value,
        task: Task<'u>,
        control: Control<'u>,
    ) -> Result<(), Halt>
        ensures law { OnOk result ((base : Run) (s : State) → rest_of base self.new s
            ≡ rest self.old.tasks (after task.entry
            (begun (frame_in base self.old) control.entry (value ∷ self.old.values) self.old.end s))) }
        ensures ready { (w : World) → IsReady self.old.units.now self.old.frame self.old.values w
            → IsFit w.store.heap self.old.frame.side value
            → IsReady self.new.units.now self.new.frame self.new.values w }
        ensures less { OnOk result (loads.load self.new
            ≡ loads.next control.entry + (suc (loads.held task.entry) + loads.tasks self.old.tasks)) }
    {
        self.values.push(value)?;
        self.wait(task, control)
    }

    /// The same, with two more.
    #[inline(always)]
    pub fn wait_with_two(
        &mut self,
        first: Value,
        second: Value,
        task: Task<'u>,
        control: Control<'u>,
    ) -> Result<(), Halt>
        ensures law { OnOk result ((base : Run) (s : State) → rest_of base self.new s
            ≡ rest self.old.tasks (after task.entry
            (begun (frame_in base self.old) control.entry (second ∷ first ∷ self.old.values) self.old.end s))) }
        ensures ready { (w : World) → IsReady self.old.units.now self.old.frame self.old.values w
            → IsFit w.store.heap self.old.frame.side first → IsFit w.store.heap self.old.frame.side second
            → IsReady self.new.units.now self.new.frame self.new.values w }
        ensures less { OnOk result (loads.load self.new
            ≡ loads.next control.entry + (suc (loads.held task.entry) + loads.tasks self.old.tasks)) }
    {
        self.values.push(first)?;
        self.wait_with(second, task, control)
    }

    /// The same, with three more.
    #[inline(always)]
    pub fn wait_with_three(
        &mut self,
        first: Value,
        second: Value,
        third: Value,
        task: Task<'u>,
        control: Control<'u>,
    ) -> Result<(), Halt>
        ensures law { OnOk result ((base : Run) (s : State) → rest_of base self.new s
            ≡ rest self.old.tasks (after task.entry
            (begun (frame_in base self.old) control.entry (third ∷ second ∷ first ∷ self.old.values)
            self.old.end s))) }
        ensures ready { (w : World) → IsReady self.old.units.now self.old.frame self.old.values w
            → IsFit w.store.heap self.old.frame.side first → IsFit w.store.heap self.old.frame.side second
            → IsFit w.store.heap self.old.frame.side third
            → IsReady self.new.units.now self.new.frame self.new.values w }
        ensures less { OnOk result (loads.load self.new
            ≡ loads.next control.entry + (suc (loads.held task.entry) + loads.tasks self.old.tasks)) }
    {
        self.values.push(first)?;
        self.wait_with_two(second, third, task, control)
    }

    /// An expression gives a value.
    ///
    /// # Errors
    /// `Memory` where a growth was refused.
    #[inline(always)]
    pub fn back(&mut self, value: Value) -> Result<(), Halt>
        ensures law { OnOk result ((base : Run) (s : State) → rest_of base self.new s
            ≡ rest self.old.tasks (gave (frame_in base self.old) self.old.values (gives value s))) }
        ensures ready { (w : World) → IsReady self.old.units.now self.old.frame self.old.values w
            → IsFit w.store.heap self.old.frame.side value
            → IsReady self.new.units.now self.new.frame self.new.values w }
        ensures less { OnOk result (loads.load self.new ≡ 2 + loads.tasks self.old.tasks) }
    {
        self.values.push(value)?;
        self.control = Control::Value;
        Ok(())
    }

    /// Goes on with another part.
    #[inline(always)]
    pub fn go(&mut self, control: Control<'u>) -> Result<(), Halt>
        ensures law { (base : Run) (s : State) → rest_of base self.new s
            ≡ rest self.old.tasks (begun (frame_in base self.old) control.entry self.old.values self.old.end s) }
        ensures ready { (w : World) → IsReady self.old.units.now self.old.frame self.old.values w
            → IsReady self.new.units.now self.new.frame self.new.values w }
        ensures less { loads.load self.new ≡ loads.next control.entry + loads.tasks self.old.tasks }
    {
        self.control = control;
        Ok(())
    }

    /// The same, with one more value at hand.
    ///
    /// # Errors
    /// `Memory` where a growth was refused.
    #[inline(always)]
    pub fn go_with(&mut self, value: Value, control: Control<'u>) -> Result<(), Halt>
        ensures law { OnOk result ((base : Run) (s : State) → rest_of base self.new s ≡ rest self.old.tasks
            (begun (frame_in base self.old) control.entry (value ∷ self.old.values) self.old.end s)) }
        ensures ready { (w : World) → IsReady self.old.units.now self.old.frame self.old.values w
            → IsFit w.store.heap self.old.frame.side value
            → IsReady self.new.units.now self.new.frame self.new.values w }
        ensures less { OnOk result (loads.load self.new
            ≡ loads.next control.entry + loads.tasks self.old.tasks) }
    {
        self.values.push(value)?;
        self.control = control;
        Ok(())
    }

    /// An expression has no value.
    ///
    /// # Errors
    /// `Memory` where that is why.
    #[inline(never)]
    pub fn no_value(&mut self, end: OpEnd) -> Result<(), Halt>
        ensures law { OnOk result ((base : Run) (s : State) (o : Outcome TheValue) → IsEnd end s o
            → rest_of base self.new s ≡ rest self.old.tasks (gave (frame_in base self.old) self.old.values o)) }
        ensures ready { (w : World) → IsReady self.old.units.now self.old.frame self.old.values w
            → IsReady self.new.units.now self.new.frame self.new.values w }
        ensures less { OnOk result (loads.load self.new ≡ loads.tasks self.old.tasks) }
    {
        self.keep(end)?;
        self.control = Control::NoValue;
        Ok(())
    }

    /// A statement is cut off.
    ///
    /// # Errors
    /// `Memory` where that is why.
    #[inline(never)]
    pub fn cut_off(&mut self, end: OpEnd) -> Result<(), Halt>
        ensures law { OnOk result ((base : Run) (s : State) (o : Outcome Flow) → IsEnd end s o
            → rest_of base self.new s ≡ rest self.old.tasks (did (frame_in base self.old) self.old.values o)) }
        ensures ready { (w : World) → IsReady self.old.units.now self.old.frame self.old.values w
            → IsReady self.new.units.now self.new.frame self.new.values w }
        ensures less { OnOk result (loads.load self.new ≡ loads.tasks self.old.tasks) }
    {
        self.keep(end)?;
        self.control = Control::CutOff;
        Ok(())
    }

    /// Keeps why there is no value.
    fn keep(&mut self, end: OpEnd) -> Result<(), Halt>
        ensures kept { OnOk result (self.new ≡ record self.old { end = Some end }) }
        ensures same { OnErr result (self.new ≡ self.old) }
        ensures only { OnOk result (end ≢ OpEnd.Memory) }
    {
        match end {
            OpEnd::Memory => Err(Halt::Memory),
            end => {
                self.end = Some(end);
                Ok(())
            }
        }
    }
}
