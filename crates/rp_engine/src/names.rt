//! Names, which are read from and bound in the slots of scopes.

ghost use Rattle.std.specs.Prelude.{◌≡◌, ◌<◌, ◌≤◌, length, option_copied, option_map};
ghost use Rattle.std.specs.Prelude.{IfOk, IfSome, IsTrue};
ghost use Rattle.std.specs.Prelude.{Some, None, false, is_some};
ghost use Rattle.rp_base.specs.Names.{word_of};
ghost use Rattle.rp_meaning.specs.Frame.{Run, read_name, slot_of, unbind_name, without_name};
ghost use Rattle.rp_meaning.specs.Scopes.{global, held, outwards, unbound_kind, value_at, with_slot_set};
ghost use Rattle.rp_base.specs.declared.value.Value.{Value as TheValue};
ghost use Rattle.rp_meaning.specs.State.{Flow, next};
ghost use Rattle.rp_ops.specs.Outcome.{Raises, raises};
ghost use Rattle.rp_proxy.specs.Faithful.{IsFaithful};
ghost use Rattle.rp_scope.specs.Scopes.{found_from};
ghost use Rattle.rp_store.specs.Heap.{slots_at};
ghost use Rattle.rp_store.specs.Kept.{IsFit, IsScopeOf};
ghost use Rattle.rp_store.specs.Shape.{KeepsShape};
ghost use Rattle.rp_base.specs.declared.value.Side.{Side};
ghost use Rattle.rp_access.specs.Comes.{Comes, ComesTo, IsEnd};
ghost use Rattle.rp_engine.specs.Law.{frame_in};
ghost use Rattle.rp_engine.specs.Moment.{place_view, program_at};
ghost use Rattle.rp_access.specs.Moment.{state_of};
ghost use Rattle.rp_engine.specs.Slots.{slot_found, slot_view, unbound_at};
ghost use Rattle.rp_engine.specs.Ready.{IsReady};

use crate::machine::Machine;
use crate::units::{global_in, place_in};
use rp_access::elsewhere;
use rp_attributes::word_text;
use rp_base::{Kind, Name, Names, Oid, OpEnd, Raised, Side, Value};
use rp_proxy::World;
use rp_scope::Place2;
use rp_store::{Object, Store};
use std::alloc::Global;

/// A slot of a scope.
#[derive(Clone, Copy)]
pub struct Slot {
    pub scope: Oid,
    pub index: usize,
}

impl<'u> Machine<'u> {
    /// The value of a name.
    ///
    /// # Errors
    /// `Raised` with `NameError` or `UnboundLocalError` and the name, where it is not bound; `Memory` where the store
    /// holds no more bytes of such texts.
    #[inline(always)]
    pub fn read(&self, world: &mut World, name: Name) -> Result<Value, OpEnd>
        requires ready { IsReady self.now.units.now self.now.frame self.now.values world.old }
        ensures law { (base : Run) → Comes result (state_of world.new)
            (read_name name (frame_in base self.now) (state_of world.old)) }
        ensures faithful { IsFaithful world.new }
        ensures store { world.new.store ≡ world.old.store }
        ensures ready { IsReady self.now.units.now self.now.frame self.now.values world.new }
        ensures shape { KeepsShape world.old.store.heap world.new.store.heap }
        ensures fit { IfOk result (IsFit world.new.store.heap self.now.frame.side) }
        ensures fewer { world.new.running.meter.left ≤ world.old.running.meter.left }
    {
        let place = self.place(name);
        let slot = self.slot(&world.store, place, name);
        match held(&world.store, slot, self.frame.side) {
            Some(value) => Ok(value.copy()?),
            None => behind(self.alloc, world, self.frame.side, place, name),
        }
    }

    /// Binds a name to a value.
    #[inline(always)]
    pub fn bind(&self, world: &mut World, name: Name, value: Value)
        requires ready { IsReady self.now.units.now self.now.frame self.now.values world.old }
        requires fit { IsFit world.old.store.heap self.now.frame.side value }
        ensures law { (base : Run) → state_of world.new
            ≡ with_slot_set (slot_of (frame_in base self.now) name (state_of world.old)) (Some value)
            (state_of world.old) }
        ensures faithful { IsFaithful world.new }
        ensures shape { KeepsShape world.old.store.heap world.new.store.heap }
        ensures fewer { world.new.running.meter.left ≤ world.old.running.meter.left }
    {
        let place = self.place(name);
        let slot = self.slot(&world.store, place, name);
        set(world, slot, self.frame.side, Some(value));
    }

    /// Unbinds a name.
    ///
    /// # Errors
    /// As `read`.
    #[inline(never)]
    pub fn unbind(&self, world: &mut World, name: Name) -> Result<(), OpEnd>
        requires ready { IsReady self.now.units.now self.now.frame self.now.values world.old }
        ensures law { (base : Run) → ComesTo next result (state_of world.new)
            (unbind_name name (frame_in base self.now) (state_of world.old)) }
        ensures faithful { IsFaithful world.new }
        ensures shape { KeepsShape world.old.store.heap world.new.store.heap }
        ensures fewer { world.new.running.meter.left ≤ world.old.running.meter.left }
    {
        let place = self.place(name);
        let slot = self.slot(&world.store, place, name);
        if is_bound(&world.store, slot, self.frame.side) {
            set(world, slot, self.frame.side, None);
            Ok(())
        } else {
            Err(not_bound(self.alloc, world, place, name))
        }
    }

    /// Unbinds a name, which may be unbound.
    #[inline(never)]
    pub fn clear(&self, world: &mut World, name: Name)
        requires ready { IsReady self.now.units.now self.now.frame self.now.values world.old }
        ensures law { (base : Run) → state_of world.new
            ≡ without_name name (frame_in base self.now) (state_of world.old) }
        ensures faithful { IsFaithful world.new }
        ensures shape { KeepsShape world.old.store.heap world.new.store.heap }
        ensures fewer { world.new.running.meter.left ≤ world.old.running.meter.left }
    {
        let place = self.place(name);
        let slot = self.slot(&world.store, place, name);
        set(world, slot, self.frame.side, None);
    }

    /// Where the code finds a name.
    #[inline(always)]
    pub(crate) fn place(&self, name: Name) -> Place2
        ensures { result ≡ found_from (program_at self.now.units.now self.now.frame.side).layouts
            self.now.frame.block name }
    {
        place_in(self.units.program(self.frame.side), self.frame.block, name)
    }

    /// The slot of a name that is found at a place.
    #[inline(always)]
    pub(crate) fn slot(&self, store: &Store, place: Place2, name: Name) -> Option<Slot>
        requires { IsScopeOf store.now.heap self.now.frame.side self.now.frame.scope }
        ensures slot { option_map slot_view result
            ≡ slot_found (program_at self.now.units.now self.now.frame.side).layouts store.now.heap
            self.now.frame.scope place name }
        ensures scope { IfSome result (λ slot. IsScopeOf store.now.heap self.now.frame.side slot.scope) }
    {
        let at = self.frame.scope;
        match place {
            Place2::Local(index) => Some(Slot { scope: at, index }),
            Place2::Outer(n, index) => Some(Slot {
                scope: outwards(store, n, at, self.frame.side),
                index,
            }),
            Place2::Global => {
                let index = global_in(self.units.program(self.frame.side), name)?;
                let scope = outwards(store, store.len(), at, self.frame.side);
                Some(Slot { scope, index })
            }
        }
    }
}

/// The scope so many blocks outwards.
fn outwards(store: &Store, n: usize, at: Oid, side: Side) -> Oid
    requires { IsScopeOf store.now.heap side at }
    ensures scope { IsScopeOf store.now.heap side result }
    ensures value { result ≡ outwards n store.now.heap at }
{
    if n == 0 {
        return at;
    }
    match store.parent(at) {
        Some(parent) => outwards(store, n - 1, parent, side),
        None => at,
    }
}

/// What a slot holds, where it is bound.
#[inline(always)]
pub(crate) fn held(store: &Store, slot: Option<Slot>, side: Side) -> Option<&Value>
    requires { IfSome slot (λ slot. IsScopeOf store.now.heap side slot.scope) }
    ensures value { option_copied result ≡ held store.now.heap (option_map slot_view slot) }
    ensures fit { IfSome (option_copied result) (IsFit store.now.heap side) }
{
    match slot {
        Some(slot) => store.slot(slot.scope, slot.index),
        None => None,
    }
}

/// The value of a name that is found at a place where no value is: only a global one may have one elsewhere.
#[inline(never)]
fn behind(
    alloc: Global,
    world: &mut World,
    side: Side,
    place: Place2,
    name: Name,
) -> Result<Value, OpEnd>
    requires { IsFaithful world.old }
    ensures law { Comes result (state_of world.new) (value_at side (place_view place) None
        (word_of world.old.names name) (state_of world.old)) }
    ensures same { world.new ≡ world.old }
    ensures fit { IfOk result (IsFit world.new.store.heap side) }
{
    match place {
        Place2::Local(_) => Err(unbound(alloc, world, Kind::UnboundLocalError, name)),
        Place2::Outer(_, _) => Err(unbound(alloc, world, Kind::NameError, name)),
        Place2::Global => global_value(alloc, world, side, name),
    }
}

/// The value of a global name that the program does not bind.
fn global_value(alloc: Global, world: &mut World, side: Side, name: Name) -> Result<Value, OpEnd>
    requires { IsFaithful world.old }
    ensures law { Comes result (state_of world.new) (value_at side global None
        (word_of world.old.names name) (state_of world.old)) }
    ensures same { world.new ≡ world.old }
    ensures fit { IfOk result (IsFit world.new.store.heap side) }
{
    match elsewhere(world, side, name)? {
        Some(value) => Ok(value),
        None => Err(unbound(alloc, world, Kind::NameError, name)),
    }
}

/// The exception with the word of a name; `Memory` where there is none for its text, or the store holds no more bytes
/// of such texts.
fn unbound(alloc: Global, world: &mut World, kind: Kind, name: Name) -> OpEnd
    ensures value { IsEnd {A = TheValue} result (state_of world.new)
        (raises kind (word_of world.old.names name) (state_of world.old)) }
    ensures flow { IsEnd {A = Flow} result (state_of world.new)
        (raises kind (word_of world.old.names name) (state_of world.old)) }
    ensures same { world.new ≡ world.old }
{
    word_raised(alloc, &mut world.store, &world.names, kind, name)
}

/// The same, of the store and the names alone.
fn word_raised(alloc: Global, store: &mut Store, names: &Names, kind: Kind, name: Name) -> OpEnd
    ensures exception { Raises result (record { kind = kind; text = word_of names.now name }) }
    ensures same { store.new ≡ store.old }
{
    match word_text(alloc, store, names, name) {
        Ok(text) => OpEnd::Raised(Raised { kind, text }),
        Err(_) => OpEnd::Memory,
    }
}

/// Fills a slot, or empties it.
#[inline(always)]
fn set(world: &mut World, slot: Option<Slot>, side: Side, value: Option<Value>)
    requires faithful { IsFaithful world.old }
    requires scope { IfSome slot (λ slot. IsScopeOf world.old.store.heap side slot.scope) }
    requires fit { IfSome value (IsFit world.old.store.heap side) }
    ensures law { state_of world.new ≡ with_slot_set (option_map slot_view slot) value (state_of world.old) }
    ensures faithful { IsFaithful world.new }
    ensures shape { KeepsShape world.old.store.heap world.new.store.heap }
    ensures fewer { world.new.running.meter.left ≤ world.old.running.meter.left }
{
    if let Some(slot) = slot {
        fill(world, slot, side, value);
    }
}

#[inline(always)]
fn fill(world: &mut World, slot: Slot, side: Side, value: Option<Value>)
    requires faithful { IsFaithful world.old }
    requires scope { IsScopeOf world.old.store.heap side slot.scope }
    requires fit { IfSome value (IsFit world.old.store.heap side) }
    ensures law { state_of world.new ≡ with_slot_set (Some (slot_view slot)) value (state_of world.old) }
    ensures faithful { IsFaithful world.new }
    ensures shape { KeepsShape world.old.store.heap world.new.store.heap }
    ensures fewer { world.new.running.meter.left ≤ world.old.running.meter.left }
{
    if has_slot(&world.store, slot, side) {
        world.store.set_slot(slot.scope, slot.index, value);
    }
}

/// Whether a slot is bound.
fn is_bound(store: &Store, slot: Option<Slot>, side: Side) -> bool
    requires { IfSome slot (λ slot. IsScopeOf store.now.heap side slot.scope) }
    ensures { result ≡ is_some (held store.now.heap (option_map slot_view slot)) }
{
    held(store, slot, side).is_some()
}

/// The exception where a name is to be unbound that is not bound.
fn not_bound(alloc: Global, world: &mut World, place: Place2, name: Name) -> OpEnd
    ensures law { IsEnd result (state_of world.new) (unbound_at (place_view place) name (state_of world.old)) }
    ensures same { world.new ≡ world.old }
{
    unbound(alloc, world, unbound_kind(place), name)
}

/// The kind of that exception.
fn unbound_kind(place: Place2) -> Kind
    ensures { result ≡ unbound_kind (place_view place) }
{
    match place {
        Place2::Global => Kind::NameError,
        Place2::Local(_) => Kind::UnboundLocalError,
        Place2::Outer(_, _) => Kind::UnboundLocalError,
    }
}

/// Whether the scope has the slot.
#[inline(always)]
fn has_slot(store: &Store, slot: Slot, side: Side) -> bool
    requires { IsScopeOf store.now.heap side slot.scope }
    ensures some { IsTrue result → slot.index < length (slots_at store.now.heap slot.scope) }
    ensures none { result ≡ false → length (slots_at store.now.heap slot.scope) ≤ slot.index }
{
    match store.object(slot.scope) {
        Object::Scope { slots, .. } => slot.index < slots.len(),
        _ => false,
    }
}
