//! Calls of special methods: their code is entered.
#![tactic(auto, using(rp_store::proofs::CallerLemmas::goes_on))]

ghost use Rattle.std.specs.Prelude.{◌≤◌, IfSome, OnOk};
ghost use Rattle.rp_meaning.specs.Binding.{behind};
ghost use Rattle.rp_meaning.specs.Special.{special};
ghost use Rattle.rp_engine.specs.HandSteps.{held_by};
ghost use Rattle.rp_engine.specs.Loads as loads;
ghost use Rattle.rp_store.specs.Heap.{Names};
ghost use Rattle.rp_store.specs.Kept.{IsSound};
ghost use Rattle.rp_store.specs.Parts.{IsFunction};
ghost use Rattle.rp_store.specs.Shape.{KeepsShape};
ghost use Rattle.rp_step.specs.RunLoads.{Lowers};
ghost use Rattle.rp_step.specs.Running.{CallsMethod, Enters, IsRunnable, MakesSpecial};

use crate::callables::callable_with;
use crate::runner::Runner;
use rp_base::{Kind, Name, Oid, Value};
use rp_engine::{Halt, Hand};
use rp_proxy::World;

impl<'u> Runner<'u> {
    /// Calls the special method of this name of what is at hand under so many arguments (Python Language Reference,
    /// Special method names).
    ///
    /// # Errors
    /// As `enter`.
    #[inline(never)]
    pub(crate) fn call_special(
        &mut self,
        world: &mut World,
        name: Name,
        count: u32,
    ) -> Result<(), Halt>
        requires ready { IsRunnable self.old world.old }
        ensures law { OnOk result (MakesSpecial name count self.old world.old self.new world.new) }
        ensures ready { OnOk result (IsRunnable self.new world.new) }
        ensures shape { KeepsShape world.old.store.heap world.new.store.heap }
        ensures fewer { world.new.running.meter.left ≤ world.old.running.meter.left }
        ensures less { OnOk result (Lowers loads.called self.old world.old self.new world.new) }
    {
        let hand = Hand {
            plain: count,
            named: 0,
        };
        match self.callee(hand) {
            None => self.refuse(hand, Kind::TypeError, "call"),
            Some((at, lent)) => self.call_method(world, name, hand, at, lent),
        }
    }

    /// Calls the special method of this name of the object at a place.
    ///
    /// # Errors
    /// As `enter`.
    #[inline(always)]
    fn call_method(
        &mut self,
        world: &mut World,
        name: Name,
        hand: Hand,
        at: Oid,
        lent: bool,
    ) -> Result<(), Halt>
        requires ready { IsRunnable self.old world.old }
        requires sound { IsSound world.old.store.heap (Value.Ref at) }
        ensures law { OnOk result (CallsMethod hand (special world.old.store.heap (Value.Ref at) name) lent
            self.old world.old self.new world.new) }
        ensures ready { OnOk result (IsRunnable self.new world.new) }
        ensures shape { KeepsShape world.old.store.heap world.new.store.heap }
        ensures fewer { world.new.running.meter.left ≤ world.old.running.meter.left }
        ensures less { OnOk result (Lowers loads.called self.old world.old self.new world.new) }
    {
        match world.store.method_of(at, name) {
            Some(function) => self.call_behind(world, hand, function, at, lent, None),
            None => self.refuse(hand, Kind::TypeError, "call"),
        }
    }

    /// Calls a function behind the instance at a place; the one who calls gets its value, or the instance that was
    /// made.
    ///
    /// # Errors
    /// As `enter`.
    #[inline(always)]
    pub(crate) fn call_behind(
        &mut self,
        world: &mut World,
        hand: Hand,
        function: Oid,
        at: Oid,
        lent: bool,
        made: Option<Oid>,
    ) -> Result<(), Halt>
        requires ready { IsRunnable self.old world.old }
        requires function { Names world.old.store.heap IsFunction function }
        requires sound { IsSound world.old.store.heap (Value.Ref at) }
        requires made { IfSome made (λ place. IsSound world.old.store.heap (Value.Ref place)) }
        ensures law { OnOk result (Enters hand function
            (behind (Value.Ref at) (held_by hand self.old.machine.values)) lent made
            self.old world.old self.new world.new) }
        ensures ready { OnOk result (IsRunnable self.new world.new) }
        ensures shape { KeepsShape world.old.store.heap world.new.store.heap }
        ensures fewer { world.new.running.meter.left ≤ world.old.running.meter.left }
        ensures less { OnOk result (Lowers loads.called self.old world.old self.new world.new) }
    {
        let callable = callable_with(&world.store, function, Some(Value::Ref(at)));
        self.call_function(world, hand, callable, lent, made)
    }
}
