//! Attributes, items and membership behind their decisions.
#![tactic(auto, using(rp_store::proofs::CallerLemmas::goes_on))]

ghost use Rattle.std.specs.Prelude.{◌≤◌, ◌≡◌, Bool, IfNone, IfOk, IfSome, None, false, is_some};
ghost use Rattle.rp_attributes.specs.Attributes.{attribute};
ghost use Rattle.rp_base.specs.Names.{word_of};
ghost use Rattle.rp_compare.specs.Membership.{contains};
ghost use Rattle.rp_items.specs.Items.{item};
ghost use Rattle.rp_base.specs.declared.value.Value.{Value as TheValue};
ghost use Rattle.rp_base.specs.declared.word.TheConstants.{CONTAINS, GET_ITEM};
ghost use Rattle.rp_meaning.specs.Frame.{through};
ghost use Rattle.rp_meaning.specs.Special.{Special, special};
ghost use Rattle.rp_meaning.specs.State.{Outcome, State, plainly};
ghost use Rattle.rp_proxy.specs.Faithful.{IsFaithful};
ghost use Rattle.rp_store.specs.Kept.{IsFit, IsSound};
ghost use Rattle.rp_store.specs.Shape.{KeepsShape};
ghost use Rattle.rp_access.specs.Comes.{Comes, ComesIfAny};
ghost use Rattle.rp_access.specs.Comparisons.{within_asked};
ghost use Rattle.rp_access.specs.Moment.{state_of};
ghost use Rattle.rp_access.specs.Parts.{IsForMethod};
ghost use Rattle.rp_access.specs.Reading.{attribute_asked, item_asked};

use crate::deciding::ask;
use crate::operating::taken;
use rp_base::word::{CONTAINS, GET_ITEM};
use rp_base::{Name, OpEnd, Side, Value};
use rp_ops::lent;
use rp_proxy::World;
use rp_store::Store;
use std::alloc::Global;

/// `o.name`, as code of a side does it (Python Language Reference, Attribute references; zope.security, proxies). It is
/// decided first whether the name may be read. What is read through a proxy is lent.
///
/// # Errors
/// - As `rp_proxy::cross`, where the decision refuses; then nothing is read.
/// - As `rp_attributes::attribute`, where there is no such attribute, or no cell for a bound method.
/// - `Memory` where a growth was refused.
#[inline(never)]
pub fn get_attribute(
    alloc: Global,
    world: &mut World,
    side: Side,
    o: &Value,
    name: Name,
) -> Result<Value, OpEnd>
    requires faithful { IsFaithful world.old }
    requires sound { IsSound world.old.store.heap o.now }
    ensures law { Comes result (state_of world.new) (attribute_asked side o.now name (state_of world.old)) }
    ensures faithful { IsFaithful world.new }
    ensures shape { KeepsShape world.old.store.heap world.new.store.heap }
    ensures fit { IfOk result (IsFit world.new.store.heap side) }
    ensures fewer { world.new.running.meter.left ≤ world.old.running.meter.left }
{
    ask(alloc, world, o, name)?;
    let value = attribute(alloc, world, side, o, name)?;
    Ok(taken(world, through(o, value), side))
}

/// The plain attribute.
#[inline(always)]
fn attribute(
    alloc: Global,
    world: &mut World,
    side: Side,
    o: &Value,
    name: Name,
) -> Result<Value, OpEnd>
    requires faithful { IsFaithful world.old }
    requires sound { IsSound world.old.store.heap o.now }
    ensures law { Comes result (state_of world.new)
        (plainly (attribute side o.now name (word_of world.old.names name)) (state_of world.old)) }
    ensures faithful { IsFaithful world.new }
    ensures shape { KeepsShape world.old.store.heap world.new.store.heap }
    ensures sound { IfOk result (IsSound world.new.store.heap) }
    ensures fewer { world.new.running.meter.left ≤ world.old.running.meter.left }
{
    rp_attributes::attribute(alloc, &mut world.store, &world.names, side, o, name)
}

/// What was got through a value.
#[inline(always)]
pub(crate) fn through(from: &Value, value: Value) -> Value
    ensures { result ≡ through from.now value }
{
    match from {
        Value::Prox(_) => lent(value),
        _ => value,
    }
}

/// `o[key]`, as code of a side does it (Python Language Reference, Subscriptions; zope.security, proxies). It is
/// decided first whether `__getitem__` may be read. What is read through a proxy is lent. None where `o` is an instance
/// whose class has that method, which would be called; then nothing but the decision was made.
///
/// # Errors
/// - As `rp_proxy::cross`, where the decision refuses; then nothing is read.
/// - As `rp_items::item`, where `o` has no items or none at the key.
/// - `Memory` where a growth was refused.
#[inline(never)]
pub fn get_item(
    alloc: Global,
    world: &mut World,
    side: Side,
    o: &Value,
    key: &Value,
) -> Result<Option<Value>, OpEnd>
    requires faithful { IsFaithful world.old }
    requires sound { IsSound world.old.store.heap o.now }
    ensures law { (call : Special → State → Outcome TheValue) → ComesIfAny result (state_of world.new)
        (item_asked call side o.now key.now (state_of world.old)) }
    ensures special { IfOk result (λ v. IfNone v
        (IsForMethod GET_ITEM o.now (state_of world.old) (state_of world.new))) }
    ensures faithful { IsFaithful world.new }
    ensures shape { KeepsShape world.old.store.heap world.new.store.heap }
    ensures fit { IfOk result (λ v. IfSome v (IsFit world.new.store.heap side)) }
    ensures fewer { world.new.running.meter.left ≤ world.old.running.meter.left }
{
    ask(alloc, world, o, GET_ITEM)?;
    if has_method(&world.store, o, GET_ITEM) {
        return Ok(None);
    }
    let value = item(alloc, world, o, key)?;
    Ok(Some(taken(world, through(o, value), side)))
}

/// The plain item.
#[inline(always)]
#[tactic(auto, using(rp_store::proofs::CallerLemmas::goes_on, crate::proofs::Namings::stored_faithful))]
fn item(alloc: Global, world: &mut World, o: &Value, key: &Value) -> Result<Value, OpEnd>
    requires faithful { IsFaithful world.old }
    requires sound { IsSound world.old.store.heap o.now }
    ensures law { Comes result (state_of world.new) (plainly (item o.now key.now) (state_of world.old)) }
    ensures faithful { IsFaithful world.new }
    ensures shape { KeepsShape world.old.store.heap world.new.store.heap }
    ensures sound { IfOk result (IsSound world.new.store.heap) }
    ensures fewer { world.new.running.meter.left ≤ world.old.running.meter.left }
{
    rp_items::item(alloc, &mut world.store, o, key)
}

/// Whether a value is in a container, once that is decided; None where a special method would be called.
///
/// # Errors
/// As `cross` and `rp_compare::contains`.
#[inline(never)]
pub(crate) fn is_within(
    alloc: Global,
    world: &mut World,
    value: &Value,
    o: &Value,
) -> Result<Option<bool>, OpEnd>
    requires faithful { IsFaithful world.old }
    requires sound { IsSound world.old.store.heap o.now }
    ensures law { (call : Special → State → Outcome Bool) → ComesIfAny result (state_of world.new)
        (within_asked call value.now o.now (state_of world.old)) }
    ensures special { IfOk result (λ v. IfNone v
        (IsForMethod CONTAINS o.now (state_of world.old) (state_of world.new))) }
    ensures faithful { IsFaithful world.new }
    ensures shape { KeepsShape world.old.store.heap world.new.store.heap }
    ensures fewer { world.new.running.meter.left ≤ world.old.running.meter.left }
{
    ask(alloc, world, o, CONTAINS)?;
    if has_method(&world.store, o, CONTAINS) {
        return Ok(None);
    }
    Ok(Some(contains(alloc, world, value, o)?))
}

/// The plain membership.
#[inline(always)]
#[tactic(auto, using(rp_store::proofs::CallerLemmas::goes_on, crate::proofs::Worlds::metered_faithful))]
fn contains(alloc: Global, world: &mut World, value: &Value, o: &Value) -> Result<bool, OpEnd>
    requires faithful { IsFaithful world.old }
    ensures law { Comes result (state_of world.new) (plainly (contains value.now o.now) (state_of world.old)) }
    ensures faithful { IsFaithful world.new }
    ensures store { world.new.store ≡ world.old.store }
    ensures fewer { world.new.running.meter.left ≤ world.old.running.meter.left }
{
    rp_compare::contains(alloc, &world.store, &mut world.running.meter, value, o)
}

/// Whether an object is an instance whose class has a method.
#[inline(always)]
pub(crate) fn has_method(store: &Store, o: &Value, name: Name) -> bool
    requires { IsSound store.now.heap o.now }
    ensures known { result ≡ is_some (special store.now.heap o.now name) }
    ensures none { result ≡ false → special store.now.heap o.now name ≡ None }
{
    match o {
        Value::Rock(_) => false,
        Value::Ref(at) => store.method_of(*at, name).is_some(),
        Value::Prox(at) => store.method_of(*at, name).is_some(),
    }
}
