//! Comprehensions: the code waits for their turns, which are made in a scope of their own.
#![tactic(auto, using(rp_store::proofs::CallerLemmas::goes_on))]

ghost use Rattle.std.specs.Prelude.{◌≡◌, ◌≤◌, IfOk, OnOk};
ghost use Rattle.rp_access.specs.Moment.{state_of};
ghost use Rattle.rp_access.specs.Spots.{cursor_at};
ghost use Rattle.rp_engine.specs.ComprehensionSteps.{comprehension_in, comprehension_over, does_made, turns_within};
ghost use Rattle.rp_engine.specs.Does as does;
ghost use Rattle.rp_engine.specs.Law.{frame_in};
ghost use Rattle.rp_engine.specs.Rest.{gave, rest};
ghost use Rattle.rp_frame.specs.Top.{below, top};
ghost use Rattle.rp_meaning.specs.Frame.{Run};
ghost use Rattle.rp_store.specs.Kept.{IsFit, IsScopeOf};
ghost use Rattle.rp_store.specs.Shape.{KeepsShape};
ghost use Rattle.rp_step.specs.RunLoads.{Lowers};
ghost use Rattle.rp_step.specs.Running.{Gets, IsRunnable, unwound, whole_of};

use crate::callers::suspend;
use crate::runner::Runner;
use rp_base::{Memory, Oid, Value};
use rp_engine::{Halt, copy_handled, place_at};
use rp_frame::{Activation, Spot};
use rp_proxy::World;
use rp_targets::{ComprehensionParts, adds_at, clause_turn, first_turn, inner_scope, new_result};

impl<'u> Runner<'u> {
    /// Makes the turns of a comprehension over what is at hand, from where it stands in that.
    ///
    /// # Errors
    /// `Memory` where a growth was refused, as all that follow.
    #[inline(never)]
    pub(crate) fn comprehend(
        &mut self,
        world: &mut World,
        parts: ComprehensionParts<'u>,
        spot: Spot,
    ) -> Result<(), Halt>
        requires ready { IsRunnable self.old world.old }
        ensures law { OnOk result ((base : Run) → whole_of base self.new (state_of world.new)
            ≡ unwound base self.old.callers.items (rest self.old.machine.tasks
            (gave (frame_in base self.old.machine) (below self.old.machine.values)
            (comprehension_over parts.entry.block (does.clause parts.entry.first.now)
            (does.clauses parts.entry.behind.now) (does_made parts.entry.made)
            (cursor_at (top self.old.machine.values) spot) (frame_in base self.old.machine) (state_of world.old))))) }
        ensures ready { OnOk result (IsRunnable self.new world.new) }
        ensures shape { KeepsShape world.old.store.heap world.new.store.heap }
        ensures fewer { world.new.running.meter.left ≤ world.old.running.meter.left }
        ensures less { OnOk result (Lowers 4 self.old world.old self.new world.new) }
    {
        let value = self.machine.at_hand();
        self.comprehend_over(world, value, parts, spot)
    }

    /// The same over a value: a scope is made, where none of its names is bound.
    #[inline(always)]
    fn comprehend_over(
        &mut self,
        world: &mut World,
        value: Value,
        parts: ComprehensionParts<'u>,
        spot: Spot,
    ) -> Result<(), Halt>
        requires ready { IsRunnable self.old world.old }
        requires value { IsFit world.old.store.heap self.old.machine.frame.side value }
        ensures law { OnOk result (Gets (comprehension_over parts.entry.block (does.clause parts.entry.first.now)
            (does.clauses parts.entry.behind.now) (does_made parts.entry.made) (cursor_at value spot))
            self.old world.old self.new world.new) }
        ensures ready { OnOk result (IsRunnable self.new world.new) }
        ensures shape { KeepsShape world.old.store.heap world.new.store.heap }
        ensures fewer { world.new.running.meter.left ≤ world.old.running.meter.left }
        ensures less { OnOk result (Lowers 4 self.old world.old self.new world.new) }
    {
        match inner_scope(&self.machine, world, parts.block) {
            Ok(scope) => self.comprehend_in(world, value, parts, spot, scope),
            Err(end) => self.machine.no_value(end),
        }
    }

    /// The same in that scope: a list or dict is made, to which no name is bound.
    #[inline(always)]
    fn comprehend_in(
        &mut self,
        world: &mut World,
        value: Value,
        parts: ComprehensionParts<'u>,
        spot: Spot,
        scope: Oid,
    ) -> Result<(), Halt>
        requires ready { IsRunnable self.old world.old }
        requires value { IsFit world.old.store.heap self.old.machine.frame.side value }
        requires scope { IsScopeOf world.old.store.heap self.old.machine.frame.side scope }
        ensures law { OnOk result (Gets (comprehension_in parts.entry.block (does.clause parts.entry.first.now)
            (does.clauses parts.entry.behind.now) (does_made parts.entry.made) (cursor_at value spot) scope)
            self.old world.old self.new world.new) }
        ensures ready { OnOk result (IsRunnable self.new world.new) }
        ensures shape { KeepsShape world.old.store.heap world.new.store.heap }
        ensures fewer { world.new.running.meter.left ≤ world.old.running.meter.left }
        ensures less { OnOk result (Lowers 4 self.old world.old self.new world.new) }
    {
        match new_result(
            self.machine.alloc,
            world,
            self.machine.frame.side,
            parts.made,
        ) {
            Ok(display) => self.fill(world, value, parts, spot, scope, place_at(&display)),
            Err(end) => self.machine.no_value(end),
        }
    }

    /// The same with that list or dict: the code waits, and the first turn begins.
    #[inline(always)]
    fn fill(
        &mut self,
        world: &mut World,
        value: Value,
        parts: ComprehensionParts<'u>,
        spot: Spot,
        scope: Oid,
        at: Oid,
    ) -> Result<(), Halt>
        requires ready { IsRunnable self.old world.old }
        requires value { IsFit world.old.store.heap self.old.machine.frame.side value }
        requires scope { IsScopeOf world.old.store.heap self.old.machine.frame.side scope }
        requires place { IsFit world.old.store.heap self.old.machine.frame.side (Value.Ref at) }
        ensures law { OnOk result (Gets (turns_within parts.entry.block (does.clause parts.entry.first.now)
            (does.clauses parts.entry.behind.now) (does_made parts.entry.made).1 (cursor_at value spot) scope at)
            self.old world.old self.new world.new) }
        ensures ready { OnOk result (IsRunnable self.new world.new) }
        ensures shape { KeepsShape world.old.store.heap world.new.store.heap }
        ensures fewer { world.new.running.meter.left ≤ world.old.running.meter.left }
        ensures less { OnOk result (Lowers 4 self.old world.old self.new world.new) }
    {
        let frame = self.inner_frame(parts, scope)?;
        let caller = suspend(&mut self.machine, false, None, Some(at), frame);
        self.keep(caller)?;
        let adds = adds_at(parts.made, at);
        let each = clause_turn(parts.first, parts.behind, adds);
        first_turn(&mut self.machine, world, value, spot, each)
    }

    /// Where the turns of a comprehension run: in its code block, with its scope, and else as the code around.
    fn inner_frame(&self, parts: ComprehensionParts<'u>, scope: Oid) -> Result<Activation, Memory>
        ensures { IfOk result (λ frame. frame ≡ record self.now.machine.frame {
          block = parts.entry.block;
          scope = scope;
        }) }
    {
        let handling = copy_handled(&self.machine.frame.handling)?;
        Ok(Activation {
            side: self.machine.frame.side,
            block: parts.block,
            scope,
            calls: self.machine.frame.calls,
            handling,
        })
    }
}
