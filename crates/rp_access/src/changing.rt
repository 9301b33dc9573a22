//! Attributes and items, stored and deleted behind their decisions.
#![tactic(auto, using(rp_store::proofs::CallerLemmas::goes_on))]

ghost use Rattle.std.specs.Prelude.{◌≤◌, ◌≡◌, IfOk, IfSome};
ghost use Rattle.rp_attributes.specs.Attributes.{del_attribute, set_attribute};
ghost use Rattle.rp_base.specs.Names.{word_of};
ghost use Rattle.rp_items.specs.Items.{del_item, set_item};
ghost use Rattle.rp_base.specs.declared.word.TheConstants.{DEL_ITEM, SET_ITEM};
ghost use Rattle.rp_meaning.specs.Special.{Special};
ghost use Rattle.rp_meaning.specs.State.{Outcome, State, plainly};
ghost use Rattle.rp_proxy.specs.Faithful.{IsFaithful};
ghost use Rattle.rp_store.specs.Kept.{IsSound};
ghost use Rattle.rp_store.specs.Shape.{KeepsShape};
ghost use Rattle.rp_access.specs.Changes.{ChangeComes, StoredComes, asking_to_set, attribute_deleted};
ghost use Rattle.rp_access.specs.Changes.{attribute_set, item_deleted, item_set};
ghost use Rattle.rp_access.specs.Comes.{Comes};
ghost use Rattle.rp_access.specs.Moment.{state_of};
ghost use Rattle.rp_access.specs.Parts.{IsForMethod};

use crate::access::has_method;
use crate::deciding::ask;
use rp_base::word::{DEL_ITEM, SET_ITEM};
use rp_base::{Name, Op, OpEnd, Value};
use rp_proxy::{World, cross};
use std::alloc::Global;

/// What came of a change of an item (Python Language Reference, Emulating container types).
#[derive(Clone, Copy, Debug, PartialEq, Eq)]
pub enum Change {
    /// It was done.
    Done,
    /// It is for a special method of the object to do.
    Special,
}

/// `o.name = value` (Python Language Reference, Assignment statements; zope.security, proxies). It is decided first
/// whether the name may be set.
///
/// # Errors
/// - As `rp_proxy::cross`, where the decision refuses; then nothing is stored.
/// - As `rp_attributes::set_attribute`, where the value has no fields, or no cell is left.
/// - `Memory` where a growth was refused.
#[inline(never)]
pub fn set_attribute(
    alloc: Global,
    world: &mut World,
    o: &Value,
    name: Name,
    value: Value,
) -> Result<(), OpEnd>
    requires faithful { IsFaithful world.old }
    requires o { IsSound world.old.store.heap o.now }
    requires value { IsSound world.old.store.heap value }
    ensures law { Comes result (state_of world.new) (attribute_set o.now name value (state_of world.old)) }
    ensures faithful { IsFaithful world.new }
    ensures shape { KeepsShape world.old.store.heap world.new.store.heap }
    ensures fewer { world.new.running.meter.left ≤ world.old.running.meter.left }
{
    ask_to_set(alloc, world, o, name)?;
    put_attribute(alloc, world, o, name, value)
}

/// `del o.name` (Python Language Reference, The del statement; zope.security, proxies). It is decided first whether the
/// name may be set.
///
/// # Errors
/// - As `rp_proxy::cross`, where the decision refuses; then nothing is deleted.
/// - As `rp_attributes::del_attribute`, where there is no such field.
/// - `Memory` where a growth was refused.
#[inline(never)]
pub fn del_attribute(alloc: Global, world: &mut World, o: &Value, name: Name) -> Result<(), OpEnd>
    requires faithful { IsFaithful world.old }
    requires o { IsSound world.old.store.heap o.now }
    ensures law { Comes result (state_of world.new) (attribute_deleted o.now name (state_of world.old)) }
    ensures faithful { IsFaithful world.new }
    ensures shape { KeepsShape world.old.store.heap world.new.store.heap }
    ensures fewer { world.new.running.meter.left ≤ world.old.running.meter.left }
{
    ask_to_set(alloc, world, o, name)?;
    drop_attribute(alloc, world, o, name)
}

/// `o[key] = value` (Python Language Reference, Assignment statements; zope.security, proxies). It is decided first
/// whether `__setitem__` may be read. The value comes back where `o` is an instance whose class has that method, which
/// is to store it; then nothing else is done.
///
/// # Errors
/// - As `rp_proxy::cross`, where the decision refuses; then nothing is stored.
/// - As `rp_items::set_item`, where `o` has no items that may be stored, or none at the key, or no cell is left.
/// - `Memory` where a growth was refused.
#[inline(never)]
pub fn set_item(
    alloc: Global,
    world: &mut World,
    o: &Value,
    key: &Value,
    value: Value,
) -> Result<Option<Value>, OpEnd>
    requires faithful { IsFaithful world.old }
    requires o { IsSound world.old.store.heap o.now }
    requires value { IsSound world.old.store.heap value }
    ensures law { (call : Special → State → Outcome (Unit {0})) → StoredComes result (state_of world.new)
        (item_set call o.now key.now value (state_of world.old)) }
    ensures special { IfOk result (λ back. IfSome back (λ v. (v ≡ value)
        × IsForMethod SET_ITEM o.now (state_of world.old) (state_of world.new))) }
    ensures faithful { IsFaithful world.new }
    ensures shape { KeepsShape world.old.store.heap world.new.store.heap }
    ensures fewer { world.new.running.meter.left ≤ world.old.running.meter.left }
{
    ask(alloc, world, o, SET_ITEM)?;
    if has_method(&world.store, o, SET_ITEM) {
        return Ok(Some(value));
    }
    put_item(alloc, world, o, key, value)?;
    Ok(None)
}

/// `del o[key]` (Python Language Reference, The del statement; zope.security, proxies). It is decided first whether
/// `__delitem__` may be read. Where `o` is an instance whose class has that method, nothing else is done.
///
/// # Errors
/// - As `rp_proxy::cross`, where the decision refuses; then nothing is deleted.
/// - As `rp_items::del_item`, where `o` has no items that may be deleted, or none at the key.
/// - `Memory` where a growth was refused.
#[inline(never)]
pub fn del_item(alloc: Global, world: &mut World, o: &Value, key: &Value) -> Result<Change, OpEnd>
    requires faithful { IsFaithful world.old }
    requires o { IsSound world.old.store.heap o.now }
    ensures law { (call : Special → State → Outcome (Unit {0})) → ChangeComes result (state_of world.new)
        (item_deleted call o.now key.now (state_of world.old)) }
    ensures special { IfOk result (λ change. change ≡ Change.Special
        → IsForMethod DEL_ITEM o.now (state_of world.old) (state_of world.new)) }
    ensures faithful { IsFaithful world.new }
    ensures shape { KeepsShape world.old.store.heap world.new.store.heap }
    ensures fewer { world.new.running.meter.left ≤ world.old.running.meter.left }
{
    ask(alloc, world, o, DEL_ITEM)?;
    if has_method(&world.store, o, DEL_ITEM) {
        return Ok(Change::Special);
    }
    drop_item(alloc, world, o, key)?;
    Ok(Change::Done)
}

/// Decides whether a name may be set on a value.
///
/// # Errors
/// As `cross`.
#[inline(always)]
fn ask_to_set(alloc: Global, world: &mut World, value: &Value, name: Name) -> Result<(), OpEnd>
    requires faithful { IsFaithful world.old }
    requires sound { IsSound world.old.store.heap value.now }
    ensures law { Comes result (state_of world.new) (asking_to_set name value.now (state_of world.old)) }
    ensures faithful { IsFaithful world.new }
    ensures shape { KeepsShape world.old.store.heap world.new.store.heap }
    ensures fewer { world.new.running.meter.left ≤ world.old.running.meter.left }
{
    cross(alloc, world, value, Op::Set(name))
}

/// The plain attribute is stored.
#[inline(always)]
fn put_attribute(
    alloc: Global,
    world: &mut World,
    o: &Value,
    name: Name,
    value: Value,
) -> Result<(), OpEnd>
    requires faithful { IsFaithful world.old }
    requires o { IsSound world.old.store.heap o.now }
    requires value { IsSound world.old.store.heap value }
    ensures law { Comes result (state_of world.new)
        (plainly (set_attribute o.now name (word_of world.old.names name) value) (state_of world.old)) }
    ensures faithful { IsFaithful world.new }
    ensures shape { KeepsShape world.old.store.heap world.new.store.heap }
    ensures fewer { world.new.running.meter.left ≤ world.old.running.meter.left }
{
    rp_attributes::set_attribute(alloc, &mut world.store, &world.names, o, name, value)
}

/// The plain attribute is deleted.
#[inline(always)]
fn drop_attribute(alloc: Global, world: &mut World, o: &Value, name: Name) -> Result<(), OpEnd>
    requires faithful { IsFaithful world.old }
    requires o { IsSound world.old.store.heap o.now }
    ensures law { Comes result (state_of world.new)
        (plainly (del_attribute o.now name (word_of world.old.names name)) (state_of world.old)) }
    ensures faithful { IsFaithful world.new }
    ensures shape { KeepsShape world.old.store.heap world.new.store.heap }
    ensures fewer { world.new.running.meter.left ≤ world.old.running.meter.left }
{
    rp_attributes::del_attribute(alloc, &mut world.store, &world.names, o, name)
}

/// Stores a plain item. Nothing is decided.
///
/// # Errors
/// As `rp_items::set_item`; `Memory` where a growth was refused.
#[inline(always)]
pub fn put_item(
    alloc: Global,
    world: &mut World,
    o: &Value,
    key: &Value,
    value: Value,
) -> Result<(), OpEnd>
    requires faithful { IsFaithful world.old }
    requires o { IsSound world.old.store.heap o.now }
    requires value { IsSound world.old.store.heap value }
    ensures law { Comes result (state_of world.new)
        (plainly (set_item o.now key.now value) (state_of world.old)) }
    ensures faithful { IsFaithful world.new }
    ensures shape { KeepsShape world.old.store.heap world.new.store.heap }
    ensures fewer { world.new.running.meter.left ≤ world.old.running.meter.left }
{
    rp_items::set_item(alloc, &mut world.store, o, key, value)
}

/// The plain item is deleted.
#[inline(always)]
fn drop_item(alloc: Global, world: &mut World, o: &Value, key: &Value) -> Result<(), OpEnd>
    requires faithful { IsFaithful world.old }
    requires o { IsSound world.old.store.heap o.now }
    ensures law { Comes result (state_of world.new) (plainly (del_item o.now key.now) (state_of world.old)) }
    ensures faithful { IsFaithful world.new }
    ensures shape { KeepsShape world.old.store.heap world.new.store.heap }
    ensures fewer { world.new.running.meter.left ≤ world.old.running.meter.left }
{
    rp_items::del_item(alloc, &mut world.store, o, key)
}
