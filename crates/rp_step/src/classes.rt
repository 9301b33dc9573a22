//! Calls of classes.
#![tactic(auto, using(rp_store::proofs::CallerLemmas::goes_on))]

ghost use Rattle.std.specs.Prelude.{◌≡◌, ◌+◌, ◌<◌, ◌≤◌, None, OnOk, Some, drop, suc};
ghost use Rattle.rp_access.specs.Moment.{state_of};
ghost use Rattle.rp_meaning.specs.Frame.{Run};
ghost use Rattle.rp_engine.specs.DefinitionSteps.{got_by};
ghost use Rattle.rp_engine.specs.HandSteps.{size_of};
ghost use Rattle.rp_engine.specs.Law.{frame_in};
ghost use Rattle.rp_engine.specs.Loads as loads;
ghost use Rattle.rp_engine.specs.Rest.{gave, rest};
ghost use Rattle.rp_store.specs.Heap.{Names, method_at};
ghost use Rattle.rp_store.specs.Kept.{IsSound};
ghost use Rattle.rp_store.specs.Parts.{IsClass, IsFunction};
ghost use Rattle.rp_store.specs.Shape.{KeepsShape};
ghost use Rattle.rp_step.specs.RunLoads.{Lowers, behind, run_load};
ghost use Rattle.rp_step.specs.Running.{Instances, IsRunnable, unwound, whole_of};

use crate::runner::Runner;
use rp_base::word::INIT;
use rp_base::{Kind, Oid, OpEnd, Side, Value};
use rp_engine::{Halt, Hand};
use rp_enter::{given, new_instance};
use rp_expressions::without_hand;
use rp_proxy::World;

impl<'u> Runner<'u> {
    /// Calls the class at a place: an instance is made, and its `__init__` is called, where it has one (Python Language
    /// Reference, Calls, Basic customization).
    ///
    /// # Errors
    /// As `enter`.
    #[inline(never)]
    pub(crate) fn instance_of(
        &mut self,
        world: &mut World,
        hand: Hand,
        owner: Side,
        class: Oid,
        lent: bool,
    ) -> Result<(), Halt>
        requires ready { IsRunnable self.old world.old }
        requires class { Names world.old.store.heap IsClass class }
        ensures law { OnOk result (Instances hand owner class (method_at world.old.store.heap class INIT) lent
            self.old world.old self.new world.new) }
        ensures ready { OnOk result (IsRunnable self.new world.new) }
        ensures shape { KeepsShape world.old.store.heap world.new.store.heap }
        ensures fewer { world.new.running.meter.left ≤ world.old.running.meter.left }
        ensures less { OnOk result (Lowers loads.called self.old world.old self.new world.new) }
    {
        match world.store.method(class, INIT) {
            Some(function) => self.initialise(world, hand, owner, class, function, lent),
            None => self.bare_instance(world, hand, owner, class, lent),
        }
    }

    /// Makes an instance of a class without `__init__`, which takes no arguments.
    ///
    /// # Errors
    /// As `enter`.
    #[inline(always)]
    fn bare_instance(
        &mut self,
        world: &mut World,
        hand: Hand,
        owner: Side,
        class: Oid,
        lent: bool,
    ) -> Result<(), Halt>
        requires ready { IsRunnable self.old world.old }
        requires class { Names world.old.store.heap IsClass class }
        ensures law { OnOk result (Instances hand owner class None lent self.old world.old self.new world.new) }
        ensures ready { OnOk result (IsRunnable self.new world.new) }
        ensures shape { KeepsShape world.old.store.heap world.new.store.heap }
        ensures fewer { world.new.running.meter.left ≤ world.old.running.meter.left }
        ensures less { OnOk result (Lowers loads.called self.old world.old self.new world.new) }
    {
        let plain = self.count_plain(hand);
        if plain > 0 {
            return self.refuse(hand, Kind::TypeError, "arguments");
        }
        let named = self.count_named(hand)?;
        if named > 0 {
            return self.refuse(hand, Kind::TypeError, "arguments");
        }
        match new_instance(self.machine.alloc, world, owner, class) {
            Ok(at) => self.give_instance(world, hand, at, lent),
            Err(OpEnd::Memory) => Err(Halt::Memory),
            Err(end) => without_hand(&mut self.machine, hand, end),
        }
    }

    /// The one who calls gets an instance that was made; the class and the arguments are dropped.
    #[inline(always)]
    fn give_instance(&mut self, world: &World, hand: Hand, at: Oid, lent: bool) -> Result<(), Halt>
        requires ready { IsRunnable self.old world.now }
        requires sound { IsSound world.now.store.heap (Value.Ref at) }
        ensures law { OnOk result ((base : Run) → whole_of base self.new (state_of world.now)
            ≡ unwound base self.old.callers.items (rest self.old.machine.tasks
            (gave (frame_in base self.old.machine) (drop (suc (size_of hand)) self.old.machine.values)
            (got_by lent (Value.Ref at) (frame_in base self.old.machine) (state_of world.now))))) }
        ensures ready { OnOk result (IsRunnable self.new world.now) }
        ensures less { OnOk result (run_load self.new < loads.called + behind self.old) }
    {
        let value = given(world, self.machine.frame.side, lent, Value::Ref(at));
        self.machine.forget(hand.size() + 1);
        self.machine.back(value)
    }

    /// Makes an instance of a class, and calls this function behind it.
    #[inline(always)]
    fn initialise(
        &mut self,
        world: &mut World,
        hand: Hand,
        owner: Side,
        class: Oid,
        function: Oid,
        lent: bool,
    ) -> Result<(), Halt>
        requires ready { IsRunnable self.old world.old }
        requires class { Names world.old.store.heap IsClass class }
        requires function { Names world.old.store.heap IsFunction function }
        ensures law { OnOk result (Instances hand owner class (Some function) lent
            self.old world.old self.new world.new) }
        ensures ready { OnOk result (IsRunnable self.new world.new) }
        ensures shape { KeepsShape world.old.store.heap world.new.store.heap }
        ensures fewer { world.new.running.meter.left ≤ world.old.running.meter.left }
        ensures less { OnOk result (Lowers loads.called self.old world.old self.new world.new) }
    {
        match new_instance(self.machine.alloc, world, owner, class) {
            Ok(at) => self.call_behind(world, hand, function, at, lent, Some(at)),
            Err(OpEnd::Memory) => Err(Halt::Memory),
            Err(end) => without_hand(&mut self.machine, hand, end),
        }
    }
}
