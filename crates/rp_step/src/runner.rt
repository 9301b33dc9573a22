//! Runs of code: a machine, and the code that waits for the ends of calls that it made.
#![tactic(auto, using(rp_store::proofs::CallerLemmas::goes_on))]

ghost use Rattle.std.specs.Prelude.{◌≡◌, ◌+◌, ◌<◌, ◌≤◌, ◌∷◌, ◌++◌, [], IfOk, MatchOption, None, Ok, OnOk, Some, codes};
ghost use Rattle.std.specs.Prelude.{true};
ghost use Rattle.rp_access.specs.Comes.{Comes};
ghost use Rattle.rp_access.specs.Moment.{state_of};
ghost use Rattle.rp_meaning.specs.Frame.{Run};
ghost use Rattle.rp_meaning.specs.State.{State};
ghost use Rattle.rp_ops.specs.Outcome.{ends, gives, raises};
ghost use Rattle.rp_proxy.specs.declared.world.World.{World as TheWorld};
ghost use Rattle.rp_store.specs.Kept.{IsSound};
ghost use Rattle.rp_store.specs.Shape.{KeepsShape};
ghost use Rattle.rp_engine.specs.Does as does;
ghost use Rattle.rp_engine.specs.Ends.{end_of};
ghost use Rattle.rp_engine.specs.Law.{frame_in, rest_of};
ghost use Rattle.rp_engine.specs.Loads as loads;
ghost use Rattle.rp_step.specs.Left.{at_end, flows};
ghost use Rattle.rp_engine.specs.Moment.{frame_of, run_of};
ghost use Rattle.rp_engine.specs.Rest.{gave, rest};
ghost use Rattle.rp_step.specs.Callables.{is_nil};
ghost use Rattle.rp_base.specs.declared.kind.Kind.TheVariants.{TypeError};
ghost use Rattle.rp_step.specs.RunLoads.{Falls, run_load, waits};
ghost use Rattle.rp_step.specs.Running.{GoesOn, IsRunnable, IsWaiting, given, got, resumed, unwound, whole_of};

use crate::callers::{Caller, take_over};
use crate::run::{Stepped, step};
use crate::unwinding::{Left, how_left};
use rp_base::{Kind, Memory, Oid, OpEnd, Rock, Value};
use rp_engine::{Halt, Machine};
use rp_enter::given;
use rp_frame::Control;
use rp_ops::raised;
use rp_proxy::World;
use rp_tree::Stmt;

/// Whether a run goes on.
#[derive(Clone, Copy, Debug, PartialEq, Eq)]
pub enum Progress {
    More,
    /// No task and no code waits for the end at which the machine stands.
    Ended,
}

/// A run of code: the machine that runs it, and the code that waits for the ends of calls that it made (Python Language
/// Reference, Execution model).
#[derive(Drop)]
pub struct Runner<'u> {
    pub machine: Machine<'u>,
    /// The last of them made the last call.
    pub callers: Vec<Caller<'u>>,
}

impl<'u> Runner<'u> {
    /// A step of the machine, or the begin or the end of a call or of the turns of a comprehension. What it leaves to
    /// be done is what was to be done. Where the run goes on, a step of the session was taken, or less is left that
    /// takes none.
    ///
    /// # Errors
    /// As `run::step` and `enter`.
    #[inline(always)]
    pub fn step(&mut self, world: &mut World) -> Result<Progress, Halt>
        requires ready { IsRunnable self.old world.old }
        ensures law { OnOk result (GoesOn self.old world.old self.new world.new) }
        ensures ready { OnOk result (IsRunnable self.new world.new) }
        ensures shape { KeepsShape world.old.store.heap world.new.store.heap }
        ensures ended { result ≡ Ok Progress.Ended → self.new.machine.tasks ≡ [] }
        ensures none { result ≡ Ok Progress.Ended → self.new.callers.items ≡ [] }
        ensures stands { result ≡ Ok Progress.Ended → at_end self.new.machine.control ≡ true }
        ensures fewer { world.new.running.meter.left ≤ world.old.running.meter.left }
        ensures fell { result ≡ Ok Progress.More → Falls self.old world.old self.new world.new }
    {
        match step(&mut self.machine, world)? {
            Stepped::More => Ok(Progress::More),
            Stepped::Call => {
                self.enter(world)?;
                Ok(Progress::More)
            }
            Stepped::Ended => self.come_back(world),
        }
    }

    /// The machine has come to the end of its code: the code that called it goes on, where there is any. Where there
    /// is none, the run has ended.
    ///
    /// # Errors
    /// `Memory` where a growth was refused.
    #[inline(always)]
    fn come_back(&mut self, world: &World) -> Result<Progress, Halt>
        requires ready { IsRunnable self.old world.now }
        requires tasks { self.old.machine.tasks ≡ [] }
        requires stands { at_end self.old.machine.control ≡ true }
        ensures law { OnOk result (GoesOn self.old world.now self.new world.now) }
        ensures ready { OnOk result (IsRunnable self.new world.now) }
        ensures ended { result ≡ Ok Progress.Ended → self.new.machine.tasks ≡ [] }
        ensures none { result ≡ Ok Progress.Ended → self.new.callers.items ≡ [] }
        ensures stands { result ≡ Ok Progress.Ended → at_end self.new.machine.control ≡ true }
        ensures less { result ≡ Ok Progress.More → run_load self.new < run_load self.old }
    {
        match self.next_caller() {
            None => Ok(Progress::Ended),
            Some(caller) => {
                self.resume(world, caller)?;
                Ok(Progress::More)
            }
        }
    }

    /// Takes the last code that waits off, None where none waits.
    fn next_caller(&mut self) -> Option<Caller<'u>>
        ensures last { MatchOption result (self.old.callers.items ≡ [])
            (λ caller. self.old.callers.items ≡ self.new.callers.items ++ caller ∷ []) }
        ensures same { self.old.callers.items ≡ [] → self.new.callers.items ≡ [] }
        ensures machine { self.new.machine ≡ self.old.machine }
    {
        self.callers.pop()
    }

    /// Code that waited gets what the end of the code that it called gives.
    fn resume(&mut self, world: &World, caller: Caller<'u>) -> Result<(), Halt>
        requires ready { IsRunnable self.old world.now }
        requires caller { IsWaiting world.now caller }
        requires tasks { self.old.machine.tasks ≡ [] }
        requires stands { at_end self.old.machine.control ≡ true }
        ensures law { OnOk result ((base : Run) → whole_of base self.new (state_of world.now)
            ≡ unwound base self.old.callers.items (rest caller.entry.tasks
            (resumed base caller.entry (rest_of base self.old.machine (state_of world.now))))) }
        ensures ready { OnOk result (IsRunnable self.new world.now) }
        ensures less { OnOk result (run_load self.new ≤ loads.next self.old.machine.control
            + (loads.tasks caller.entry.tasks + waits self.old.callers.items)) }
    {
        match self.machine.control {
            Control::Returned => {
                let value = self.machine.at_hand();
                self.give(world, caller, value)
            }
            Control::Value => {
                let value = self.machine.at_hand();
                self.give(world, caller, value)
            }
            Control::Next => self.give(world, caller, Value::Rock(Rock::Nil)),
            Control::Broke => self.give(world, caller, Value::Rock(Rock::Nil)),
            Control::Continued => self.give(world, caller, Value::Rock(Rock::Nil)),
            Control::NoValue => self.cut(caller),
            Control::CutOff => self.cut(caller),
            _ => unreachable!(),
        }
    }

    /// Code that waited gets a value, or the instance that it made, or what a comprehension filled.
    fn give(&mut self, world: &World, caller: Caller<'u>, value: Value) -> Result<(), Halt>
        requires ready { IsRunnable self.old world.now }
        requires caller { IsWaiting world.now caller }
        requires value { IsSound world.now.store.heap value }
        ensures law { OnOk result ((base : Run) → whole_of base self.new (state_of world.now)
            ≡ unwound base self.old.callers.items (rest caller.entry.tasks
            (given base caller.entry (gives value (state_of world.now))))) }
        ensures ready { OnOk result (IsRunnable self.new world.now) }
        ensures less { OnOk result (run_load self.new
            ≤ 2 + (loads.tasks caller.entry.tasks + waits self.old.callers.items)) }
    {
        match caller.filled {
            None => self.give_called(world, caller, value),
            Some(at) => self.give_filled(caller, at),
        }
    }

    /// Code that waited for the turns of a comprehension gets what they filled.
    fn give_filled(&mut self, caller: Caller<'u>, at: Oid) -> Result<(), Halt>
        ensures law { OnOk result ((base : Run) (s : State) → whole_of base self.new s
            ≡ unwound base self.old.callers.items (rest caller.entry.tasks
            (gave (frame_of (run_of base caller.entry.units.now) caller.entry.frame) caller.entry.values
            (gives (Value.Ref at) s)))) }
        ensures ready { (w : TheWorld) → IsRunnable self.old w → IsWaiting w caller.entry
            → caller.entry.filled ≡ Some at → IsRunnable self.new w }
        ensures less { OnOk result (run_load self.new
            ≤ 2 + (loads.tasks caller.entry.tasks + waits self.old.callers.items)) }
    {
        take_over(&mut self.machine, caller);
        self.machine.back(Value::Ref(at))
    }

    /// Code that waited for a call gets a value, or the instance that it made.
    fn give_called(&mut self, world: &World, caller: Caller<'u>, value: Value) -> Result<(), Halt>
        requires ready { IsRunnable self.old world.now }
        requires caller { IsWaiting world.now caller }
        requires call { caller.filled ≡ None }
        requires value { IsSound world.now.store.heap value }
        ensures law { OnOk result ((base : Run) → whole_of base self.new (state_of world.now)
            ≡ unwound base self.old.callers.items (rest caller.entry.tasks
            (given base caller.entry (gives value (state_of world.now))))) }
        ensures ready { OnOk result (IsRunnable self.new world.now) }
        ensures less { OnOk result (run_load self.new
            ≤ 2 + (loads.tasks caller.entry.tasks + waits self.old.callers.items)) }
    {
        match caller.made {
            None => self.give_value(world, caller, value),
            Some(at) => self.give_made(world, caller, at, value),
        }
    }

    /// Code that waited for `__init__` gets the instance that it made, where that gave None.
    fn give_made(
        &mut self,
        world: &World,
        caller: Caller<'u>,
        at: Oid,
        value: Value,
    ) -> Result<(), Halt>
        requires ready { IsRunnable self.old world.now }
        requires caller { IsWaiting world.now caller }
        requires call { caller.filled ≡ None }
        requires made { caller.made ≡ Some at }
        ensures law { OnOk result ((base : Run) → whole_of base self.new (state_of world.now)
            ≡ unwound base self.old.callers.items (rest caller.entry.tasks
            (given base caller.entry (gives value (state_of world.now))))) }
        ensures ready { OnOk result (IsRunnable self.new world.now) }
        ensures less { OnOk result (run_load self.new
            ≤ 2 + (loads.tasks caller.entry.tasks + waits self.old.callers.items)) }
    {
        if is_none(&value) {
            return self.give_value(world, caller, Value::Ref(at));
        }
        self.refuse_init(caller)
    }

    /// Code that waited gets a value.
    fn give_value(&mut self, world: &World, caller: Caller<'u>, value: Value) -> Result<(), Halt>
        requires ready { IsRunnable self.old world.now }
        requires caller { IsWaiting world.now caller }
        requires value { IsSound world.now.store.heap value }
        ensures law { OnOk result ((base : Run) → whole_of base self.new (state_of world.now)
            ≡ unwound base self.old.callers.items (rest caller.entry.tasks
            (got base caller.entry value (state_of world.now)))) }
        ensures ready { OnOk result (IsRunnable self.new world.now) }
        ensures less { OnOk result (run_load self.new
            ≤ 2 + (loads.tasks caller.entry.tasks + waits self.old.callers.items)) }
    {
        let value = given(world, caller.frame.side, caller.lent, value);
        take_over(&mut self.machine, caller);
        self.machine.back(value)
    }

    /// Code that waited for `__init__` gets no value, since that gave one.
    fn refuse_init(&mut self, caller: Caller<'u>) -> Result<(), Halt>
        ensures law { OnOk result ((base : Run) (s : State) → whole_of base self.new s
            ≡ unwound base self.old.callers.items (rest caller.entry.tasks
            (gave (frame_of (run_of base caller.entry.units.now) caller.entry.frame) caller.entry.values
            (raises TypeError (codes "init") s)))) }
        ensures ready { (w : TheWorld) → IsRunnable self.old w → IsWaiting w caller.entry → IsRunnable self.new w }
        ensures less { OnOk result (run_load self.new
            ≤ loads.tasks caller.entry.tasks + waits self.old.callers.items) }
    {
        take_over(&mut self.machine, caller);
        let end = raised(self.machine.alloc, Kind::TypeError, "init");
        self.machine.no_value(end)
    }

    /// Code that waited gets no value.
    fn cut(&mut self, caller: Caller<'u>) -> Result<(), Halt>
        ensures law { OnOk result ((base : Run) (s : State) → whole_of base self.new s
            ≡ unwound base self.old.callers.items (rest caller.entry.tasks
            (given base caller.entry (ends (end_of self.old.machine.end) s)))) }
        ensures ready { (w : TheWorld) → IsRunnable self.old w → IsWaiting w caller.entry → IsRunnable self.new w }
        ensures less { OnOk result (run_load self.new
            ≤ loads.tasks caller.entry.tasks + waits self.old.callers.items) }
    {
        take_over(&mut self.machine, caller);
        self.machine.go(Control::NoValue)
    }

    /// Puts code that waits upon the others.
    pub(crate) fn keep(&mut self, caller: Caller<'u>) -> Result<(), Memory>
        ensures kept { OnOk result (self.new.callers.items ≡ self.old.callers.items ++ caller.entry ∷ []) }
        ensures machine { self.new.machine ≡ self.old.machine }
    {
        self.callers.push(caller)?;
        Ok(())
    }

    /// Steps until no task and no code waits.
    ///
    /// # Errors
    /// As `step`.
    fn run(&mut self, world: &mut World) -> Result<(), Halt>
        requires ready { IsRunnable self.old world.old }
        ensures law { OnOk result (GoesOn self.old world.old self.new world.new) }
        ensures ready { OnOk result (IsRunnable self.new world.new) }
        ensures shape { KeepsShape world.old.store.heap world.new.store.heap }
        ensures ended { OnOk result (self.new.machine.tasks ≡ []) }
        ensures none { OnOk result (self.new.callers.items ≡ []) }
        ensures stands { OnOk result (at_end self.new.machine.control ≡ true) }
        ensures fewer { world.new.running.meter.left ≤ world.old.running.meter.left }
    {
        while let Progress::More = self.advance(world)? {}
        Ok(())
    }

    /// Steps until a step of the session was taken, or no task and no code waits. Where the run goes on, one was taken.
    ///
    /// # Errors
    /// As `step`.
    #[inline(always)]
    fn advance(&mut self, world: &mut World) -> Result<Progress, Halt>
        requires ready { IsRunnable self.old world.old }
        ensures law { OnOk result (GoesOn self.old world.old self.new world.new) }
        ensures ready { OnOk result (IsRunnable self.new world.new) }
        ensures shape { KeepsShape world.old.store.heap world.new.store.heap }
        ensures ended { result ≡ Ok Progress.Ended → self.new.machine.tasks ≡ [] }
        ensures none { result ≡ Ok Progress.Ended → self.new.callers.items ≡ [] }
        ensures stands { result ≡ Ok Progress.Ended → at_end self.new.machine.control ≡ true }
        ensures fewer { world.new.running.meter.left ≤ world.old.running.meter.left }
        ensures taken { result ≡ Ok Progress.More → world.new.running.meter.left < world.old.running.meter.left }
    {
        let left = world.running.meter.left;
        loop {
            match self.step(world)? {
                Progress::Ended => return Ok(Progress::Ended),
                Progress::More => {
                    if world.running.meter.left < left {
                        return Ok(Progress::More);
                    }
                }
            }
        }
    }

    /// Runs a block to its end. It comes to what the block means: the same end, and the same world afterwards, with
    /// the steps taken and the cells used. How it ended: how it was left, or `Raised` where an exception was raised
    /// that nothing handles, `StopSteps` or `StopCells` where no step or no cell was left.
    ///
    /// # Errors
    /// As `run`.
    pub fn run_block(
        &mut self,
        world: &mut World,
        block: &'u [Stmt],
    ) -> Result<Result<Left, OpEnd>, Halt>
        requires ready { IsRunnable self.old world.old }
        requires tasks { self.old.machine.tasks ≡ [] }
        requires callers { self.old.callers.items ≡ [] }
        ensures law { IfOk result (λ end. (base : Run) → Comes (flows end) (state_of world.new)
            (does.block block.now (frame_in base self.old.machine) (state_of world.old))) }
        ensures ready { OnOk result (IsRunnable self.new world.new) }
        ensures shape { KeepsShape world.old.store.heap world.new.store.heap }
        ensures fewer { world.new.running.meter.left ≤ world.old.running.meter.left }
    {
        self.machine.control = Control::Block(block);
        self.run(world)?;
        Ok(how_left(&mut self.machine))
    }
}

/// Whether it is None.
fn is_none(value: &Value) -> bool
    ensures { result ≡ is_nil value.now }
{
    match value {
        Value::Rock(Rock::Nil) => true,
        _ => false,
    }
}
