//! The store that callers see.
ghost use Rattle.std.specs.Prelude.{◌≡◌, ◌+◌, ◌^◌, ◌<◌, ◌≤◌, ◌↔◌, [], All, IfErr, IfOk, IfSome, IsSome, IsTrue, None};
ghost use Rattle.std.specs.Prelude.{OnErr, OnOk, Some, length, option_map, slice_get};
ghost use Rattle.std.specs.Option.{option_copied, option_map_or};
ghost use Rattle.rp_store.specs.Object.{content_of};

use crate::key::{Key, put_together, taken_apart};
use crate::object::Object;
use rp_base::{ClassTag, Memory, Name, Oid, OpEnd, Rock, Seed, Side, Value};
use rp_dict::Dict;
use std::alloc::Global;
use std::marker::Model;

/// Why the store has not grown.
#[derive(Clone, Copy, Debug, PartialEq, Eq)]
pub enum StoreFault {
    /// The cells used and those of the growth are over the limit.
    Cells,
    Memory,
}

impl From<Memory> for StoreFault {
    ghost use Rattle.std.specs.Prelude.{◌≡◌};
    ghost use Rattle.rp_store.specs.declared.store.StoreFault.TheVariants.{Memory as OutOfMemory};

    ghost from_gives = { λ _ e. e ≡ OutOfMemory };

    fn from(_: Memory) -> Self {
        StoreFault::Memory
    }
}

impl From<StoreFault> for OpEnd {
    ghost use Rattle.std.specs.Prelude.{◌≡◌};
    ghost use Rattle.rp_store.specs.Fault.{end_of};

    ghost from_gives = { λ fault e. e ≡ end_of fault };

    fn from(fault: StoreFault) -> Self {
        match fault {
            StoreFault::Cells => OpEnd::StopCells,
            StoreFault::Memory => OpEnd::Memory,
        }
    }
}

/// An object with its owner.
#[derive(Drop)]
pub struct Slot {
    owner: Side,
    object: Object,
}

/// The objects of all sides, each at the place at which it was made, and the cells that they have cost. An object is
/// never taken out, its owner never changes, and cells are never given back.
pub struct Store {
    slots: Vec<Slot>,
    used: u64,
    limit: u64,
    seed: Seed,
    held: u64,
}

// By hand, so that crates that drop one do not prove again how its parts are dropped.
impl Drop for Store {
    fn drop(self) {
        let Store {
            slots: _,
            used: _,
            limit: _,
            seed: _,
            held: _,
        } = self;
    }
}

/// The longest text that has room in the cell of what it belongs to, in bytes.
const WITHIN_A_CELL: u64 = 128;

/// The bytes of long texts for which a cell of the limit stands, and those that any store may hold.
const BYTES_OF_A_CELL: u64 = 300;

const BYTES_OF_A_STORE: u64 = 64_000_000;

impl Model for Store {
    ghost use Rattle.std.specs.Prelude.{◌≤◌, map};
    ghost use Rattle.rp_store.specs.Store.{Cells};

    ghost Value = { Cells };

    ghost use Rattle.rp_store.specs.View.{owned_by};
    ghost use Rattle.rp_store.specs.Kept.{IsKept};

    ghost view = { λ s. record { heap = map owned_by s.slots.items; used = s.used; limit = s.limit } };

    ghost invariant = { λ s. (s.used ≤ s.limit) × IsKept (map owned_by s.slots.items) };
}

impl Store {
    ghost use Rattle.rp_store.specs.Cost.{cell_if_new, cost};
    ghost use Rattle.rp_store.specs.Counters.{KeepsCounters};
    ghost use Rattle.rp_store.specs.Heap.{IsHeld, Names, class_at, content_at, count_at, element_at, elements_at};
    ghost use Rattle.rp_store.specs.Heap.{entry_at, entry_of, field_at, instance_tag, method_at, method_of, owner_at};
    ghost use Rattle.rp_store.specs.Heap.{parent_at, slot_at, slots_at, tag_at};
    ghost use Rattle.rp_store.specs.Kept.{AreSound, Holds, IsFit, IsHeldBySome, IsKept, IsSafe, IsScopeOf, IsSound};
    ghost use Rattle.rp_store.specs.Key.{key_form};
    ghost use Rattle.rp_store.specs.Parts.{IsClass, IsDict, IsFunction, IsInstance, IsList};
    ghost use Rattle.rp_store.specs.Shape.{KeepsShape};
    ghost use Rattle.rp_store.specs.Store.{IsOver, added, grown, made, written};
    ghost use Rattle.rp_store.specs.Writers.{extended, inserted, pushed, with_element, with_elements, with_entry};
    ghost use Rattle.rp_store.specs.Writers.{with_field, with_method, with_methods, with_rock, with_slot};
    ghost use Rattle.rp_store.specs.Writers.{without_element, without_entry, without_field, without_methods};

    /// The empty store, in which so many cells may be used, and whose dicts are made with this seed. It takes no memory
    /// yet.
    pub fn new(alloc: Global, limit: u64, seed: Seed) -> Store
        ensures heap { result.heap ≡ [] }
        ensures used { result.used ≡ 0 }
        ensures limit { result.limit ≡ limit }
    {
        Store {
            slots: Vec::new(alloc),
            used: 0,
            limit,
            seed,
            held: 0,
        }
    }

    /// What the dicts of this store are made with.
    pub fn seed(&self) -> Seed {
        self.seed
    }

    /// Counts the cells from 0 again, up to this limit.
    pub fn restart(&mut self, limit: u64)
        ensures { self.new ≡ record self.old { used = 0; limit = limit } }
    {
        self.used = 0;
        self.limit = limit;
    }

    /// Counts the bytes of a text that costs no cell, as that of an exception which the system raises (`bytes_of`):
    /// twice, since the text may have room for as many again from when it was built. A text of at most 128 bytes has
    /// room in the cell of what holds it.
    ///
    /// # Errors
    /// `Memory` where what is counted so far passes 300 bytes for each cell of the limit, and 64 MB. It is never given
    /// back.
    pub fn hold_text(&mut self, bytes: usize) -> Result<(), Memory>
        ensures same { self.new ≡ self.old }
        ensures counters { KeepsCounters self.old self.new }
    {
        let bytes = bytes as u64;
        if bytes <= WITHIN_A_CELL {
            return Ok(());
        }
        let most = self
            .limit
            .saturating_mul(BYTES_OF_A_CELL)
            .max(BYTES_OF_A_STORE);
        self.held = self.held.saturating_add(bytes.saturating_mul(2));
        if self.held > most {
            return Err(Memory);
        }
        Ok(())
    }

    /// The cells used, which are at most the limit.
    #[inline(always)]
    pub fn used(&self) -> u64
        ensures value { result ≡ self.now.used }
        ensures within { self.now.used ≤ self.now.limit }
    {
        self.used
    }

    /// The most cells that may be used.
    #[inline(always)]
    pub fn limit(&self) -> u64
        ensures { result ≡ self.now.limit }
    {
        self.limit
    }

    /// The number of objects, so the place of the next one.
    pub fn len(&self) -> usize
        ensures { result ≡ length self.now.heap }
    {
        self.slots.len()
    }

    /// For proofs alone: each object holds what it may. It reads nothing.
    #[inline(always)]
    pub fn kept(&self)
        ensures { IsKept self.now.heap }
    {
        let _slots = &self.slots;
    }

    /// Whether there is no object.
    pub fn is_empty(&self) -> bool
        ensures { IsTrue result ↔ (self.now.heap ≡ []) }
    {
        self.slots.len() == 0
    }

    /// Uses so many cells. It takes no memory, and never answers `Memory`.
    ///
    /// # Errors
    /// `Cells` exactly where they are over the limit; then none is used.
    pub fn charge(&mut self, cells: u64) -> Result<(), StoreFault>
        ensures charged { OnOk result (self.new ≡ record self.old { used = self.old.used + cells }) }
        ensures cells { (result ≡ Err StoreFault.Cells) ↔ IsOver self.old cells }
        ensures only_cells { IfErr result (λ e. e ≡ StoreFault.Cells) }
        ensures same { OnErr result (self.new ≡ self.old) }
        ensures counters { KeepsCounters self.old self.new }
    {
        if self.is_over(cells) {
            return Err(StoreFault::Cells);
        }
        self.used += cells;
        Ok(())
    }

    /// Makes an object of a side, charges its cost, and answers its place.
    ///
    /// # Errors
    /// `Cells` exactly where its cost is over the limit, `Memory` where a growth was refused. The store is then as
    /// before, and the object is dropped.
    pub fn make(&mut self, side: Side, object: Object) -> Result<Oid, StoreFault>
        requires { Holds self.old.heap side (content_of object) }
        ensures made { OnOk result (self.new ≡ made self.old side (content_of object)) }
        ensures place { IfOk result (λ at. at.0 ≡ length self.old.heap) }
        ensures cells { (result ≡ Err StoreFault.Cells) ↔ IsOver self.old (cost (content_of object)) }
        ensures same { OnErr result (self.new ≡ self.old) }
        ensures shape { KeepsShape self.old.heap self.new.heap }
        ensures counters { KeepsCounters self.old self.new }
    {
        let cost = object.cost();
        if self.is_over(cost) {
            return Err(StoreFault::Cells);
        }
        let at = self.add(side, object)?;
        self.used += cost;
        Ok(at)
    }

    /// Makes an object of a side without a charge, and answers its place.
    ///
    /// # Errors
    /// `Memory` where a growth was refused. The store is then as before, and the object is dropped.
    pub fn add(&mut self, side: Side, object: Object) -> Result<Oid, Memory>
        requires { Holds self.old.heap side (content_of object) }
        ensures added { OnOk result (self.new ≡ added self.old side (content_of object)) }
        ensures place { IfOk result (λ at. at.0 ≡ length self.old.heap) }
        ensures same { OnErr result (self.new ≡ self.old) }
        ensures shape { KeepsShape self.old.heap self.new.heap }
        ensures counters { KeepsCounters self.old self.new }
    {
        let at = Oid(self.slots.len());
        self.slots.push(Slot {
            owner: side,
            object,
        })?;
        Ok(at)
    }

    /// The side that owns an object.
    #[inline(always)]
    pub fn owner(&self, at: Oid) -> Side
        requires { IsHeld self.now.heap at }
        ensures { owner_at self.now.heap at ≡ Some result }
    {
        self.slots[at.0].owner
    }

    /// An object.
    #[inline(always)]
    pub fn object(&self, at: Oid) -> &Object
        requires { IsHeld self.now.heap at }
        ensures content { content_at self.now.heap at ≡ Some (content_of result.now) }
        ensures kept { IsKept self.now.heap }
        ensures holds { IsHeldBySome self.now.heap (content_of result.now) }
    {
        &self.slots[at.0].object
    }

    /// An object, None exactly where the place is not below the length.
    #[inline(always)]
    pub fn get(&self, at: Oid) -> Option<&Object>
        ensures content { option_map (λ o. content_of o.now) result ≡ content_at self.now.heap at }
        ensures kept { IsKept self.now.heap }
    {
        if at.0 < self.slots.len() {
            return Some(self.object(at));
        }
        None
    }

    /// What a dict has at a key: the rock as first written, and the value.
    #[inline(always)]
    pub fn entry(&self, at: Oid, key: &Key) -> Option<&(Rock, Value)>
        requires { IsHeld self.now.heap at }
        ensures value { option_copied result ≡ entry_at self.now.heap at key.now }
        ensures sound { IfSome (option_copied result) (λ entry. IsSound self.now.heap entry.1) }
    {
        self.object(at).entry(key)
    }

    /// The i-th element of a list or tuple.
    #[inline(always)]
    pub fn element(&self, at: Oid, i: usize) -> Option<&Value>
        requires { IsHeld self.now.heap at }
        ensures value { option_copied result ≡ element_at self.now.heap at i }
        ensures sound { IfSome (option_copied result) (IsSound self.now.heap) }
    {
        self.object(at).element(i)
    }

    /// The value of the i-th slot of a scope, None where it is unbound.
    #[inline(always)]
    pub fn slot(&self, at: Oid, i: usize) -> Option<&Value>
        requires { IsHeld self.now.heap at }
        ensures value { option_copied result ≡ slot_at self.now.heap at i }
        ensures fit { (owner : Side) → owner_at self.now.heap at ≡ Some owner
            → IfSome (option_copied result) (IsFit self.now.heap owner) }
    {
        self.object(at).slot(i)
    }

    /// The scope around a scope, which has the same owner.
    #[inline(always)]
    pub fn parent(&self, at: Oid) -> Option<Oid>
        requires { IsHeld self.now.heap at }
        ensures value { result ≡ parent_at self.now.heap at }
        ensures scope { (owner : Side) → owner_at self.now.heap at ≡ Some owner
            → IfSome result (IsScopeOf self.now.heap owner) }
    {
        self.object(at).parent()
    }

    /// The class of an instance.
    #[inline(always)]
    pub fn class_of(&self, at: Oid) -> Option<Oid>
        requires { IsHeld self.now.heap at }
        ensures value { result ≡ class_at self.now.heap at }
        ensures class { IfSome result (Names self.now.heap IsClass) }
    {
        self.object(at).class_of()
    }

    /// The method of an instance's class.
    #[inline(always)]
    pub fn method_of(&self, at: Oid, name: Name) -> Option<Oid>
        requires { IsHeld self.now.heap at }
        ensures value { result ≡ method_of self.now.heap at name }
        ensures function { IfSome result (Names self.now.heap IsFunction) }
    {
        match self.class_of(at) {
            Some(class) => self.method(class, name),
            None => None,
        }
    }

    /// A method of a class.
    #[inline(always)]
    pub fn method(&self, at: Oid, name: Name) -> Option<Oid>
        requires { IsHeld self.now.heap at }
        ensures value { result ≡ method_at self.now.heap at name }
        ensures function { IfSome result (Names self.now.heap IsFunction) }
    {
        self.object(at).method(name).copied()
    }

    /// The number of elements or entries of a list, tuple or dict, None for any other object.
    #[inline(always)]
    pub fn len_of(&self, at: Oid) -> Option<usize>
        requires { IsHeld self.now.heap at }
        ensures { result ≡ count_at self.now.heap at }
    {
        self.object(at).count()
    }

    /// A field of an instance, which is sound.
    #[inline(always)]
    pub fn field(&self, at: Oid, name: Name) -> Option<&Value>
        requires { IsHeld self.now.heap at }
        ensures value { option_copied result ≡ field_at self.now.heap at name }
        ensures sound { IfSome (option_copied result) (IsSound self.now.heap) }
    {
        self.object(at).field(name)
    }

    /// The class of an object, as the rows of checkers name it. The tag of an instance is the name of its class, where
    /// that is a declared one.
    #[inline(always)]
    pub fn tag(&self, at: Oid) -> ClassTag
        requires { IsHeld self.now.heap at }
        ensures { tag_at self.now.heap at ≡ Some result }
    {
        match self.object(at) {
            Object::List(_) => ClassTag::List,
            Object::Tuple(_) => ClassTag::Tuple,
            Object::Dict(_) => ClassTag::Dict,
            Object::Instance { class, .. } => self.instance_tag(*class),
            Object::Class { .. } => ClassTag::Class,
            Object::Function { .. } => ClassTag::Function,
            Object::Method { .. } => ClassTag::Method,
            Object::Scope { .. } => ClassTag::Other,
        }
    }

    /// The tag of the instances of a class.
    fn instance_tag(&self, class: Oid) -> ClassTag
        ensures { result ≡ option_map_or instance_tag (content_at self.now.heap class) ClassTag.Other }
    {
        if class.0 >= self.slots.len() {
            return ClassTag::Other;
        }
        match self.object(class) {
            Object::Class {
                name,
                declared: true,
                ..
            } => ClassTag::Declared(*name),
            _ => ClassTag::Other,
        }
    }

    /// Puts a value at the end of a list, for one cell.
    ///
    /// # Errors
    /// `Cells` exactly where that is over the limit, `Memory` where a growth was refused. The store is then as before.
    pub fn push(&mut self, at: Oid, value: Value) -> Result<(), StoreFault>
        requires held { IsHeld self.old.heap at }
        requires list { Names self.old.heap IsList at }
        requires value { IsSound self.old.heap value }
        ensures pushed { OnOk result (self.new ≡ grown self.old at (pushed value) 1) }
        ensures cells { (result ≡ Err StoreFault.Cells) ↔ IsOver self.old 1 }
        ensures same { OnErr result (self.new ≡ self.old) }
        ensures shape { KeepsShape self.old.heap self.new.heap }
        ensures counters { KeepsCounters self.old self.new }
    {
        if self.is_over(1) {
            return Err(StoreFault::Cells);
        }
        self.slots[at.0].object.push(value)?;
        self.used += 1;
        Ok(())
    }

    /// Puts values at the end of a list, for one cell each.
    ///
    /// # Errors
    /// As `push`, of all their cells.
    pub fn extend(&mut self, at: Oid, values: Vec<Value>) -> Result<(), StoreFault>
        requires held { IsHeld self.old.heap at }
        requires list { Names self.old.heap IsList at }
        requires values { AreSound self.old.heap values.items }
        ensures extended { OnOk result (self.new ≡ grown self.old at (extended values.items) (length values.items)) }
        ensures cells { (result ≡ Err StoreFault.Cells) ↔ IsOver self.old (length values.items) }
        ensures same { OnErr result (self.new ≡ self.old) }
        ensures shape { KeepsShape self.old.heap self.new.heap }
        ensures counters { KeepsCounters self.old self.new }
    {
        let cells = values.len() as u64;
        if self.is_over(cells) {
            return Err(StoreFault::Cells);
        }
        self.slots[at.0].object.extend(values)?;
        self.used += cells;
        Ok(())
    }

    /// Puts other values in place of all those of a list. It costs nothing: the caller charges what it makes.
    pub fn set_elements(&mut self, at: Oid, values: Vec<Value>)
        requires held { IsHeld self.old.heap at }
        requires list { Names self.old.heap IsList at }
        requires values { AreSound self.old.heap values.items }
        ensures done { self.new ≡ written self.old at (with_elements values.items) }
        ensures shape { KeepsShape self.old.heap self.new.heap }
        ensures counters { KeepsCounters self.old self.new }
    {
        self.slots[at.0].object.set_elements(values);
    }

    /// Puts a value before the i-th of a list, or at its end where i is its length, for one cell.
    ///
    /// # Errors
    /// As `push`.
    pub fn insert(&mut self, at: Oid, i: usize, value: Value) -> Result<(), StoreFault>
        requires held { IsHeld self.old.heap at }
        requires list { Names self.old.heap IsList at }
        requires place { i ≤ length (elements_at self.old.heap at) }
        requires value { IsSound self.old.heap value }
        ensures inserted { OnOk result (self.new ≡ grown self.old at (inserted i value) 1) }
        ensures cells { (result ≡ Err StoreFault.Cells) ↔ IsOver self.old 1 }
        ensures same { OnErr result (self.new ≡ self.old) }
        ensures shape { KeepsShape self.old.heap self.new.heap }
        ensures counters { KeepsCounters self.old self.new }
    {
        if self.is_over(1) {
            return Err(StoreFault::Cells);
        }
        self.slots[at.0].object.insert(i, value)?;
        self.used += 1;
        Ok(())
    }

    /// Sets the i-th value of a list.
    pub fn set_at(&mut self, at: Oid, i: usize, value: Value)
        requires held { IsHeld self.old.heap at }
        requires place { i < length (elements_at self.old.heap at) }
        requires value { IsSound self.old.heap value }
        ensures done { self.new ≡ written self.old at (with_element i value) }
        ensures shape { KeepsShape self.old.heap self.new.heap }
        ensures counters { KeepsCounters self.old self.new }
    {
        self.slots[at.0].object.set_at(i, value);
    }

    /// Takes the i-th value out of a list, and closes up.
    pub fn remove_at(&mut self, at: Oid, i: usize) -> Value
        requires held { IsHeld self.old.heap at }
        requires place { i < length (elements_at self.old.heap at) }
        ensures removed { self.new ≡ written self.old at (without_element i) }
        ensures value { slice_get (elements_at self.old.heap at) i ≡ Some result }
        ensures shape { KeepsShape self.old.heap self.new.heap }
        ensures counters { KeepsCounters self.old self.new }
    {
        self.slots[at.0].object.remove_at(i)
    }

    /// Gives a key of a dict its value, for one cell where it is new. A held key stays as first written.
    ///
    /// # Errors
    /// `Cells` exactly where that is over the limit, `Memory` where a growth was refused. The store is then as before.
    pub fn put(&mut self, at: Oid, key: Rock, value: Value) -> Result<(), StoreFault>
        requires held { IsHeld self.old.heap at }
        requires dict { Names self.old.heap IsDict at }
        requires key { IsSome (key_form key) }
        requires value { IsSound self.old.heap value }
        ensures put { OnOk result (self.new
            ≡ grown self.old at (with_rock key value) (cell_if_new (entry_of self.old.heap at key))) }
        ensures cells { (result ≡ Err StoreFault.Cells)
            ↔ IsOver self.old (cell_if_new (entry_of self.old.heap at key)) }
        ensures same { OnErr result (self.new ≡ self.old) }
        ensures shape { KeepsShape self.old.heap self.new.heap }
        ensures counters { KeepsCounters self.old self.new }
    {
        let Some((form, rest)) = taken_apart(key) else {
            return Ok(());
        };
        let Err(value) = self.set_entry(at, &form, value) else {
            return Ok(());
        };
        if self.is_over(1) {
            return Err(StoreFault::Cells);
        }
        let rock = put_together(&form, rest)?;
        self.push_entry(at, form, rock, value)?;
        Ok(())
    }

    /// Gives a held key of a dict its value; it stays as first written. The value comes back where no entry has the
    /// key.
    fn set_entry(&mut self, at: Oid, key: &Key, value: Value) -> Result<(), Value>
        requires held { IsHeld self.old.heap at }
        requires key { (rock : Rock) × (key_form rock ≡ Some key.now) }
        requires value { IsSound self.old.heap value }
        ensures set { (rock : Rock) → OnOk result (self.new ≡ written self.old at (with_entry key.now rock value)) }
        ensures held { OnOk result (IsSome (entry_at self.old.heap at key.now)) }
        ensures absent { OnErr result (entry_at self.old.heap at key.now ≡ None) }
        ensures back { IfErr result (λ back. back ≡ value) }
        ensures within { self.old.used ≤ self.old.limit }
        ensures same { OnErr result (self.new ≡ self.old) }
        ensures shape { KeepsShape self.old.heap self.new.heap }
        ensures counters { KeepsCounters self.old self.new }
    {
        self.slots[at.0].object.set_entry(key, value)
    }

    /// Puts an entry with a new key at the end of a dict, for one cell.
    fn push_entry(&mut self, at: Oid, key: Key, rock: Rock, value: Value) -> Result<(), Memory>
        requires held { IsHeld self.old.heap at }
        requires key { key_form rock ≡ Some key }
        requires absent { entry_at self.old.heap at key ≡ None }
        requires room { self.old.used + 1 ≤ self.old.limit }
        requires value { IsSound self.old.heap value }
        ensures put { OnOk result (self.new ≡ grown self.old at (with_entry key rock value) 1) }
        ensures same { OnErr result (self.new ≡ self.old) }
        ensures shape { KeepsShape self.old.heap self.new.heap }
        ensures counters { KeepsCounters self.old self.new }
    {
        self.slots[at.0].object.push_entry(key, rock, value)?;
        self.used += 1;
        Ok(())
    }

    /// Keeps in a dict where its entry at a place stands, so that this entry and the one after it are found sooner.
    /// What it holds stays, as does an object that is no dict.
    pub fn seek(&mut self, at: Oid, place: usize)
        requires { IsHeld self.old.heap at }
        ensures { self.new ≡ self.old }
    {
        self.slots[at.0].object.seek(place);
    }

    /// Takes a key out of a dict, and answers its value. None exactly where no entry has the key.
    pub fn drop_key(&mut self, at: Oid, key: &Key) -> Option<Value>
        requires held { IsHeld self.old.heap at }
        requires dict { Names self.old.heap IsDict at }
        ensures dropped { self.new ≡ written self.old at (without_entry key.now) }
        ensures value { result ≡ option_map (λ entry. entry.1) (entry_at self.old.heap at key.now) }
        ensures shape { KeepsShape self.old.heap self.new.heap }
        ensures counters { KeepsCounters self.old self.new }
    {
        self.slots[at.0].object.drop_key(key)
    }

    /// Sets a field of an instance, for one cell where it is new.
    ///
    /// # Errors
    /// `Cells` exactly where that is over the limit, `Memory` where a growth was refused. The store is then as before.
    pub fn set_field(&mut self, at: Oid, name: Name, value: Value) -> Result<(), StoreFault>
        requires held { IsHeld self.old.heap at }
        requires instance { Names self.old.heap IsInstance at }
        requires value { IsSound self.old.heap value }
        ensures set { OnOk result (self.new
            ≡ grown self.old at (with_field name value) (cell_if_new (field_at self.old.heap at name))) }
        ensures cells { (result ≡ Err StoreFault.Cells)
            ↔ IsOver self.old (cell_if_new (field_at self.old.heap at name)) }
        ensures same { OnErr result (self.new ≡ self.old) }
        ensures shape { KeepsShape self.old.heap self.new.heap }
        ensures counters { KeepsCounters self.old self.new }
    {
        if self.is_over_for_field(at, name) {
            return Err(StoreFault::Cells);
        }
        let cells = self.slots[at.0].object.set_field(name, value)?;
        self.used += cells;
        Ok(())
    }

    /// Takes a field out of an instance, and answers its value. None exactly where there is no such field.
    pub fn drop_field(&mut self, at: Oid, name: Name) -> Option<Value>
        requires held { IsHeld self.old.heap at }
        requires instance { Names self.old.heap IsInstance at }
        ensures dropped { self.new ≡ written self.old at (without_field name) }
        ensures value { result ≡ field_at self.old.heap at name }
        ensures shape { KeepsShape self.old.heap self.new.heap }
        ensures counters { KeepsCounters self.old self.new }
    {
        self.slots[at.0].object.drop_field(name)
    }

    /// Sets a method of a class, for one cell where it is new.
    ///
    /// # Errors
    /// `Cells` exactly where that is over the limit, `Memory` where a growth was refused. The store is then as before.
    pub fn set_method(&mut self, at: Oid, name: Name, function: Oid) -> Result<(), StoreFault>
        requires held { IsHeld self.old.heap at }
        requires class { Names self.old.heap IsClass at }
        requires function { Names self.old.heap IsFunction function }
        ensures set { OnOk result (self.new
            ≡ grown self.old at (with_method name function) (cell_if_new (method_at self.old.heap at name))) }
        ensures cells { (result ≡ Err StoreFault.Cells)
            ↔ IsOver self.old (cell_if_new (method_at self.old.heap at name)) }
        ensures same { OnErr result (self.new ≡ self.old) }
        ensures shape { KeepsShape self.old.heap self.new.heap }
        ensures counters { KeepsCounters self.old self.new }
    {
        if self.is_over_for_method(at, name) {
            return Err(StoreFault::Cells);
        }
        let cells = self.slots[at.0].object.set_method(name, function)?;
        self.used += cells;
        Ok(())
    }

    /// Puts other methods in place of all those of a class. It costs nothing: the caller charges what it makes.
    pub fn set_methods(&mut self, at: Oid, methods: Dict<Name, Oid>)
        requires held { IsHeld self.old.heap at }
        requires class { Names self.old.heap IsClass at }
        requires methods { All (λ m. Names self.old.heap IsFunction m.1) methods }
        ensures done { self.new ≡ written self.old at (with_methods methods) }
        ensures shape { KeepsShape self.old.heap self.new.heap }
        ensures counters { KeepsCounters self.old self.new }
    {
        self.slots[at.0].object.set_methods(methods);
    }

    /// Takes all methods out of a class.
    pub fn clear_methods(&mut self, at: Oid)
        requires held { IsHeld self.old.heap at }
        requires class { Names self.old.heap IsClass at }
        ensures done { self.new ≡ written self.old at without_methods }
        ensures shape { KeepsShape self.old.heap self.new.heap }
        ensures counters { KeepsCounters self.old self.new }
    {
        self.slots[at.0].object.clear_methods();
    }

    /// Binds the i-th slot of a scope, or unbinds it.
    #[inline(always)]
    pub fn set_slot(&mut self, at: Oid, i: usize, value: Option<Value>)
        requires held { IsHeld self.old.heap at }
        requires place { i < length (slots_at self.old.heap at) }
        requires value { (owner : Side) → owner_at self.old.heap at ≡ Some owner
            → IfSome value (λ v. IsSound self.old.heap v × IsSafe self.old.heap owner v) }
        ensures done { self.new ≡ written self.old at (with_slot i value) }
        ensures shape { KeepsShape self.old.heap self.new.heap }
        ensures counters { KeepsCounters self.old self.new }
    {
        self.slots[at.0].object.set_slot(i, value);
    }

    /// Whether a field needs a cell that is over the limit.
    fn is_over_for_field(&self, at: Oid, name: Name) -> bool
        requires { IsHeld self.now.heap at }
        ensures { IsTrue result ↔ IsOver self.now (cell_if_new (field_at self.now.heap at name)) }
    {
        self.is_over(1) && self.object(at).field(name).is_none()
    }

    /// Whether a method needs a cell that is over the limit.
    fn is_over_for_method(&self, at: Oid, name: Name) -> bool
        requires { IsHeld self.now.heap at }
        ensures { IsTrue result ↔ IsOver self.now (cell_if_new (method_at self.now.heap at name)) }
    {
        self.is_over(1) && self.object(at).method(name).is_none()
    }

    /// Whether so many more cells are over the limit.
    fn is_over(&self, cells: u64) -> bool
        ensures over { IsTrue result ↔ IsOver self.now cells }
        ensures within { self.now.used ≤ self.now.limit }
    {
        cells > self.limit - self.used
    }
}
