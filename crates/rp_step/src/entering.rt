//! Calls of functions: their code is entered.
#![tactic(auto, using(rp_store::proofs::CallerLemmas::goes_on))]

ghost use Rattle.std.specs.Prelude.{◌≡◌, ◌+◌, ◌-◌, ◌<◌, ◌≤◌, ◌≢◌, [], Err, IfOk, IfSome, Option, OnOk, Some, drop};
ghost use Rattle.std.specs.Prelude.{length, reverse, suc, take, true};
ghost use Rattle.std.specs.Str.{chars};
ghost use Rattle.rp_access.specs.Moment.{state_of};
ghost use Rattle.rp_frame.specs.Top.{top};
ghost use Rattle.rp_meaning.specs.Frame.{Run};
ghost use Rattle.rp_meaning.specs.Binding.{only};
ghost use Rattle.rp_meaning.specs.Running.{params_of, value_of_code};
ghost use Rattle.rp_calls.specs.Binding.{defaults_at};
ghost use Rattle.rp_access.specs.Comes.{Comes};
ghost use Rattle.rp_enter.specs.Entering.{entered};
ghost use Rattle.rp_proxy.specs.Faithful.{IsFaithful};
ghost use Rattle.rp_scope.specs.Scopes.{locals_of};
ghost use Rattle.rp_meaning.specs.State.{State};
ghost use Rattle.rp_base.specs.declared.value.OpEnd.{OpEnd as TheEnd};
ghost use Rattle.rp_meaning.specs.Frame.{Frame};
ghost use Rattle.rp_ops.specs.Outcome.{on_value, raises};
ghost use Rattle.rp_proxy.specs.declared.world.World.{World as TheWorld};
ghost use Rattle.rp_store.specs.Kept.{IsScopeOf, IsSound};
ghost use Rattle.rp_store.specs.Shape.{KeepsShape};
ghost use Rattle.rp_codes.specs.Codes.{code_view};
ghost use Rattle.rp_engine.specs.Codes.{code_at};
ghost use Rattle.rp_engine.specs.DefinitionSteps.{callee_of};
ghost use Rattle.rp_engine.specs.Law.{frame_in};
ghost use Rattle.rp_engine.specs.Loads as loads;
ghost use Rattle.rp_engine.specs.Moment.{frame_of, program_at, run_of};
ghost use Rattle.rp_engine.specs.Rest.{begun, gave, rest};
ghost use Rattle.rp_step.specs.Callables.{IsFunctionAt, before_all, given_by};
ghost use Rattle.rp_step.specs.Left.{is_asking};
ghost use Rattle.rp_step.specs.RunLoads.{Lowers, behind, code_weight, run_load};
ghost use Rattle.rp_engine.specs.HandSteps.{held_by, size_of};
ghost use Rattle.rp_step.specs.Running.{CallsAt, Enters, GoesOn, IsRunnable, Makes, given, resumed, unwound, whole_of};
ghost use Rattle.rp_step.specs.declared.callers.Caller.{Caller as TheCaller};

use crate::callables::{Callable, Called, called_at};
use crate::callers::suspend;
use crate::runner::Runner;
use rp_base::{Kind, Memory, Oid, OpEnd, Rock, Value};
use rp_codes::Code;
use rp_engine::{Halt, Hand, local_count};
use rp_enter::{Entry, enter, enter_bound, enter_named};
use rp_expressions::{named_at_hand, without_hand};
use rp_frame::{Activation, Control};
use rp_ops::raised;
use rp_proxy::World;
use rp_targets::ComprehensionParts;

impl<'u> Runner<'u> {
    /// Makes the call, or the turns of a comprehension, for which the machine asks.
    ///
    /// # Errors
    /// `Memory` where a growth was refused.
    #[inline(always)]
    pub(crate) fn enter(&mut self, world: &mut World) -> Result<(), Halt>
        requires ready { IsRunnable self.old world.old }
        requires asks { is_asking self.old.machine.control ≡ true }
        ensures law { OnOk result (GoesOn self.old world.old self.new world.new) }
        ensures ready { OnOk result (IsRunnable self.new world.new) }
        ensures shape { KeepsShape world.old.store.heap world.new.store.heap }
        ensures fewer { world.new.running.meter.left ≤ world.old.running.meter.left }
        ensures less { OnOk result (Lowers (loads.next self.old.machine.control)
            self.old world.old self.new world.new) }
    {
        match self.machine.control {
            Control::Call(plain, named) => self.call(world, Hand { plain, named }),
            Control::Special(name, count) => self.call_special(world, name, count),
            Control::Comprehension(block, first, behind, made, spot) => {
                let parts = ComprehensionParts {
                    block,
                    first,
                    behind,
                    made,
                };
                self.comprehend(world, parts, spot)
            }
            _ => unreachable!(),
        }
    }

    /// Calls what is at hand under these arguments.
    #[inline(never)]
    fn call(&mut self, world: &mut World, hand: Hand) -> Result<(), Halt>
        requires ready { IsRunnable self.old world.old }
        ensures law { OnOk result (Makes hand self.old world.old self.new world.new) }
        ensures ready { OnOk result (IsRunnable self.new world.new) }
        ensures shape { KeepsShape world.old.store.heap world.new.store.heap }
        ensures fewer { world.new.running.meter.left ≤ world.old.running.meter.left }
        ensures less { OnOk result (Lowers loads.called self.old world.old self.new world.new) }
    {
        match self.callee(hand) {
            None => self.refuse(hand, Kind::TypeError, "call"),
            Some((at, lent)) => self.call_object(world, hand, at, lent),
        }
    }

    /// The place of what is called under these arguments by a reference, and whether it is called through a proxy.
    #[inline(always)]
    pub(crate) fn callee(&self, hand: Hand) -> Option<(Oid, bool)>
        ensures value { result ≡ callee_of (top (drop (size_of hand) self.now.machine.values)) }
        ensures sound { (w : TheWorld) → IsRunnable self.now w
            → IfSome result (λ callee. IsSound w.store.heap (Value.Ref callee.0)) }
    {
        let nil = Value::Rock(Rock::Nil);
        callee_of(self.machine.values.under(hand.size(), &nil))
    }

    /// Calls the object at a place.
    #[inline(always)]
    fn call_object(
        &mut self,
        world: &mut World,
        hand: Hand,
        at: Oid,
        lent: bool,
    ) -> Result<(), Halt>
        requires ready { IsRunnable self.old world.old }
        requires sound { IsSound world.old.store.heap (Value.Ref at) }
        ensures law { OnOk result (CallsAt hand at lent self.old world.old self.new world.new) }
        ensures ready { OnOk result (IsRunnable self.new world.new) }
        ensures shape { KeepsShape world.old.store.heap world.new.store.heap }
        ensures fewer { world.new.running.meter.left ≤ world.old.running.meter.left }
        ensures less { OnOk result (Lowers loads.called self.old world.old self.new world.new) }
    {
        match called_at(&world.store, at)? {
            Called::Code(callable) => self.call_function(world, hand, callable, lent, None),
            Called::Class(owner) => self.instance_of(world, hand, owner, at, lent),
            Called::Nothing => self.refuse(hand, Kind::TypeError, "call"),
        }
    }

    /// Calls a function; the one who calls gets its value, or the instance that was made.
    #[inline(always)]
    pub(crate) fn call_function(
        &mut self,
        world: &mut World,
        hand: Hand,
        callable: Callable,
        lent: bool,
        made: Option<Oid>,
    ) -> Result<(), Halt>
        requires ready { IsRunnable self.old world.old }
        requires function { IsFunctionAt world.old.store.heap callable.entry }
        requires receiver { IfSome callable.receiver (IsSound world.old.store.heap) }
        requires made { IfSome made (λ at. IsSound world.old.store.heap (Value.Ref at)) }
        ensures law { OnOk result (Enters hand callable.entry.function
            (before_all callable.receiver (held_by hand self.old.machine.values)) lent made
            self.old world.old self.new world.new) }
        ensures ready { OnOk result (IsRunnable self.new world.new) }
        ensures shape { KeepsShape world.old.store.heap world.new.store.heap }
        ensures fewer { world.new.running.meter.left ≤ world.old.running.meter.left }
        ensures less { OnOk result (Lowers loads.called self.old world.old self.new world.new) }
    {
        if self.machine.frame.calls == 0 {
            return self.refuse(hand, Kind::RecursionError, "calls");
        }
        let entry = callable.entry;
        match self.machine.units.program(entry.side).code(entry.block) {
            None => self.refuse(hand, Kind::TypeError, "call"),
            Some(code) => self.begin(world, hand, callable, lent, made, code),
        }
    }

    /// Enters the code of a function.
    #[inline(always)]
    fn begin(
        &mut self,
        world: &mut World,
        hand: Hand,
        callable: Callable,
        lent: bool,
        made: Option<Oid>,
        code: Code<'u>,
    ) -> Result<(), Halt>
        requires ready { IsRunnable self.old world.old }
        requires function { IsFunctionAt world.old.store.heap callable.entry }
        requires receiver { IfSome callable.receiver (IsSound world.old.store.heap) }
        requires made { IfSome made (λ at. IsSound world.old.store.heap (Value.Ref at)) }
        requires calls { 0 < self.old.machine.frame.calls }
        requires code { code_at (program_at self.old.machine.units.now callable.entry.side) callable.entry.block
            ≡ Some code }
        ensures law { OnOk result (Enters hand callable.entry.function
            (before_all callable.receiver (held_by hand self.old.machine.values)) lent made
            self.old world.old self.new world.new) }
        ensures ready { OnOk result (IsRunnable self.new world.new) }
        ensures shape { KeepsShape world.old.store.heap world.new.store.heap }
        ensures fewer { world.new.running.meter.left ≤ world.old.running.meter.left }
        ensures less { OnOk result (Lowers loads.called self.old world.old self.new world.new) }
    {
        let Callable { entry, receiver } = callable;
        let entered = self.scope_of(world, hand, entry, receiver, code);
        match unless_memory(entered)? {
            Ok(scope) => {
                let frame = Activation {
                    side: entry.side,
                    block: entry.block,
                    scope,
                    calls: self.machine.frame.calls - 1,
                    handling: None,
                };
                self.switch(hand, lent, made, frame, code)
            }
            Err(end) => without_hand(&mut self.machine, hand, end),
        }
    }

    /// The scope of a function that is entered, with the arguments at hand behind a value or not.
    #[inline(always)]
    fn scope_of(
        &self,
        world: &mut World,
        hand: Hand,
        entry: Entry,
        receiver: Option<Value>,
        code: Code<'u>,
    ) -> Result<Oid, OpEnd>
        requires ready { IsRunnable self.now world.old }
        requires function { IsFunctionAt world.old.store.heap entry }
        requires receiver { IfSome receiver (IsSound world.old.store.heap) }
        requires code { code_at (program_at self.now.machine.units.now entry.side) entry.block ≡ Some code }
        ensures law { Comes result (state_of world.new) (entered entry.side entry.block entry.within
            (length (locals_of (program_at self.now.machine.units.now entry.side).layouts entry.block))
            (params_of (code_view code.entry)) (defaults_at world.old.store.heap entry.function)
            (before_all receiver (held_by hand self.now.machine.values)) (state_of world.old)) }
        ensures faithful { (result ≢ Err OpEnd.Memory) → IsFaithful world.new }
        ensures shape { KeepsShape world.old.store.heap world.new.store.heap }
        ensures scope { IfOk result (IsScopeOf world.new.store.heap entry.side) }
        ensures fewer { world.new.running.meter.left ≤ world.old.running.meter.left }
    {
        if hand.named == 0 {
            return self.plain_scope(world, hand.plain, entry, receiver, code);
        }
        self.named_scope(world, hand, entry, receiver, code)
    }

    /// The same, where no argument has a name.
    #[inline(always)]
    fn plain_scope(
        &self,
        world: &mut World,
        count: u32,
        entry: Entry,
        receiver: Option<Value>,
        code: Code<'u>,
    ) -> Result<Oid, OpEnd>
        requires ready { IsRunnable self.now world.old }
        requires function { IsFunctionAt world.old.store.heap entry }
        requires receiver { IfSome receiver (IsSound world.old.store.heap) }
        requires code { code_at (program_at self.now.machine.units.now entry.side) entry.block ≡ Some code }
        ensures law { Comes result (state_of world.new) (entered entry.side entry.block entry.within
            (length (locals_of (program_at self.now.machine.units.now entry.side).layouts entry.block))
            (params_of (code_view code.entry)) (defaults_at world.old.store.heap entry.function)
            (before_all receiver (only (reverse (take count self.now.machine.values)))) (state_of world.old)) }
        ensures faithful { (result ≢ Err OpEnd.Memory) → IsFaithful world.new }
        ensures shape { KeepsShape world.old.store.heap world.new.store.heap }
        ensures scope { IfOk result (IsScopeOf world.new.store.heap entry.side) }
        ensures fewer { world.new.running.meter.left ≤ world.old.running.meter.left }
    {
        let alloc = self.machine.alloc;
        let locals = local_count(self.machine.units.program(entry.side), entry.block);
        let params = code.params();
        let args = self.machine.values.last(count as usize);
        match receiver {
            None => enter(
                alloc,
                world,
                self.machine.frame.side,
                entry,
                locals,
                params,
                args,
            ),
            Some(value) => enter_bound(alloc, world, entry, locals, params, value, args),
        }
    }

    /// The same, where some have names.
    #[inline(never)]
    fn named_scope(
        &self,
        world: &mut World,
        hand: Hand,
        entry: Entry,
        receiver: Option<Value>,
        code: Code<'u>,
    ) -> Result<Oid, OpEnd>
        requires ready { IsRunnable self.now world.old }
        requires function { IsFunctionAt world.old.store.heap entry }
        requires receiver { IfSome receiver (IsSound world.old.store.heap) }
        requires code { code_at (program_at self.now.machine.units.now entry.side) entry.block ≡ Some code }
        ensures law { Comes result (state_of world.new) (entered entry.side entry.block entry.within
            (length (locals_of (program_at self.now.machine.units.now entry.side).layouts entry.block))
            (params_of (code_view code.entry)) (defaults_at world.old.store.heap entry.function)
            (before_all receiver (held_by hand self.now.machine.values)) (state_of world.old)) }
        ensures faithful { (result ≢ Err OpEnd.Memory) → IsFaithful world.new }
        ensures shape { KeepsShape world.old.store.heap world.new.store.heap }
        ensures scope { IfOk result (IsScopeOf world.new.store.heap entry.side) }
        ensures fewer { world.new.running.meter.left ≤ world.old.running.meter.left }
    {
        let alloc = self.machine.alloc;
        let locals = local_count(self.machine.units.program(entry.side), entry.block);
        let params = code.params();
        let args = self.plain_args(hand);
        let named = named_at_hand(&self.machine, hand)?;
        enter_named(
            alloc,
            world,
            entry,
            locals,
            params,
            receiver,
            args,
            named.as_slice(),
        )
    }

    /// The arguments at hand that have no name.
    fn plain_args(&self, hand: Hand) -> &[Value]
        ensures { result.now ≡ (held_by hand self.now.machine.values).plain }
    {
        let values = self.machine.values.last(hand.size());
        let (args, _) = apart(values, 2 * hand.named as usize);
        args
    }

    /// How many these are.
    pub(crate) fn count_plain(&self, hand: Hand) -> usize
        ensures { result ≡ length (held_by hand self.now.machine.values).plain }
    {
        self.plain_args(hand).len()
    }

    /// How many have one.
    ///
    /// # Errors
    /// As `named_at_hand`.
    pub(crate) fn count_named(&self, hand: Hand) -> Result<usize, Memory>
        ensures { IfOk result (λ count. count ≡ length (held_by hand self.now.machine.values).named) }
    {
        let named = named_at_hand(&self.machine, hand)?;
        Ok(named.as_slice().len())
    }

    /// Goes on in the code of a function; the callee and the arguments are dropped.
    fn switch(
        &mut self,
        hand: Hand,
        lent: bool,
        made: Option<Oid>,
        frame: Activation,
        code: Code<'u>,
    ) -> Result<(), Halt>
        ensures law { OnOk result ((base : Run) (s : State) → whole_of base self.new s
            ≡ unwound base self.old.callers.items (rest self.old.machine.tasks
            (gave (frame_in base self.old.machine) (drop (suc (size_of hand)) self.old.machine.values)
            (on_value (value_of_code (code_view code.entry) (frame_of (run_of base self.old.machine.units.now) frame) s)
            (λ v s. given_by lent made v (frame_in base self.old.machine) s))))) }
        ensures ready { (w : TheWorld) → IsRunnable self.old w
            → IsScopeOf w.store.heap frame.side frame.scope
            → IfSome made (λ at. IsSound w.store.heap (Value.Ref at)) → OnOk result (IsRunnable self.new w) }
        ensures less { OnOk result (run_load self.new ≤ suc (code_weight code.entry) + behind self.old) }
    {
        self.machine.forget(hand.size() + 1);
        let caller = suspend(&mut self.machine, lent, made, None, frame);
        self.keep(caller)?;
        self.machine.go(begin_of(code))
    }

    /// A call raises an exception; the callee and the arguments are dropped.
    #[inline(never)]
    pub(crate) fn refuse(&mut self, hand: Hand, kind: Kind, text: &str) -> Result<(), Halt>
        ensures law { OnOk result ((base : Run) (s : State) → whole_of base self.new s
            ≡ unwound base self.old.callers.items (rest self.old.machine.tasks
            (gave (frame_in base self.old.machine) (drop (suc (size_of hand)) self.old.machine.values)
            (raises kind (chars text.now) s)))) }
        ensures ready { (w : TheWorld) → IsRunnable self.old w → IsRunnable self.new w }
        ensures less { OnOk result (run_load self.new < loads.called + behind self.old) }
    {
        let end = raised(self.machine.alloc, kind, text);
        without_hand(&mut self.machine, hand, end)
    }
}

/// What begins the code of a function.
#[inline(always)]
fn begin_of<'u>(code: Code<'u>) -> Control<'u>
    ensures means { (base : Run) (c : TheCaller) (f : Frame) (end : Option TheEnd) (s : State)
        → resumed base c (begun f result [] end s) ≡ given base c (value_of_code (code_view code.entry) f s) }
    ensures weight { loads.next result ≡ code_weight code.entry }
{
    match code {
        Code::Def(_, body) => Control::Block(body),
        Code::Lambda(_, body) => Control::Expression(body),
    }
}

/// The place of what is called by a reference, and whether it is called through a proxy.
fn callee_of(value: &Value) -> Option<(Oid, bool)>
    ensures { result ≡ callee_of value.now }
{
    match value {
        Value::Rock(_) => None,
        Value::Ref(at) => Some((*at, false)),
        Value::Prox(at) => Some((*at, true)),
    }
}

/// What was answered, but for want of memory.
///
/// # Errors
/// `Memory` where that was answered.
fn unless_memory(entered: Result<Oid, OpEnd>) -> Result<Result<Oid, OpEnd>, Halt>
    ensures same { IfOk result (λ answer. answer ≡ entered) }
    ensures known { OnOk result (entered ≢ Err OpEnd.Memory) }
{
    match entered {
        Ok(scope) => Ok(Ok(scope)),
        Err(OpEnd::Memory) => Err(Halt::Memory),
        Err(end) => Ok(Err(end)),
    }
}

/// The values before the last ones, so many, and these; none before where there are no more.
fn apart(values: &[Value], last: usize) -> (&[Value], &[Value])
    ensures plain { result.0.now ≡ take (length values.now - last) values.now }
    ensures named { result.1.now ≡ drop (length values.now - last) values.now }
{
    values.split_at(values.len().saturating_sub(last))
}
