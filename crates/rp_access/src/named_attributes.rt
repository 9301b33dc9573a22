//! Attributes whose names are texts: `getattr` and `setattr`.
#![tactic(auto, using(rp_store::proofs::CallerLemmas::goes_on))]

ghost use Rattle.std.specs.Prelude.{◌≤◌, ◌≡◌, IfErr, IfOk, List, None, OnOk, Option, Some, chars, true};
ghost use Rattle.std.specs.Option.{option_copied};
ghost use Rattle.rp_base.specs.Identifier.{IsIdentifier};
ghost use Rattle.rp_base.specs.declared.kind.Kind.TheVariants.{ForbiddenAttribute};
ghost use Rattle.rp_base.specs.declared.value.Name.{Name as TheName};
ghost use Rattle.rp_base.specs.declared.value.Side.{Side as TheSide};
ghost use Rattle.rp_base.specs.declared.value.Value.{Value as TheValue};
ghost use Rattle.rp_meaning.specs.BuiltIn.{defaulted, name_of, with_name};
ghost use Rattle.rp_meaning.specs.State.{Outcome, State};
ghost use Rattle.rp_ops.specs.Outcome as outcome;
ghost use Rattle.rp_proxy.specs.Faithful.{IsFaithful};
ghost use Rattle.rp_store.specs.Heap.{Owned};
ghost use Rattle.rp_store.specs.Kept.{AreSound, IsFit, IsSound};
ghost use Rattle.rp_store.specs.Shape.{KeepsShape};
ghost use Rattle.rp_access.specs.CallSteps.{is_form};
ghost use Rattle.rp_access.specs.Comes.{Comes, IsEnd};
ghost use Rattle.rp_access.specs.Moment.{state_of};
ghost use Rattle.rp_access.specs.NamedAttributes.{FormComes, FormTaken, ReadComes, StoreComes};
ghost use Rattle.rp_access.specs.NamedAttributes.{text_in, value_named, word_named};

use crate::access::get_attribute;
use crate::changing::set_attribute;
use crate::operating::taken;
use rp_base::{
    Kind, Name, NativeId, OpEnd, Raised, Rock, Side, Text, Value, is_identifier_word, is_kind,
};
use rp_ops::raised;
use rp_policy::is_forbidden_attribute;
use rp_proxy::World;
use std::alloc::Global;

/// What code of a side gets of `getattr` or `setattr` (Python Standard Library, Built-in Functions; RestrictedPython,
/// attribute policy).
///
/// # Errors
/// - `Raised` with `TypeError` and the text `arguments`, where there are too many or too few.
/// - As `attribute_of` and `store_attribute`.
pub(crate) fn form(
    alloc: Global,
    world: &mut World,
    side: Side,
    id: NativeId,
    args: &[Value],
) -> Result<Value, OpEnd>
    requires faithful { IsFaithful world.old }
    requires args { AreSound world.old.store.heap args.now }
    requires form { is_form id ≡ true }
    ensures law { FormTaken side id args.now result world.old world.new }
    ensures faithful { IsFaithful world.new }
    ensures shape { KeepsShape world.old.store.heap world.new.store.heap }
    ensures fit { IfOk result (IsFit world.new.store.heap side) }
    ensures fewer { world.new.running.meter.left ≤ world.old.running.meter.left }
{
    match id {
        NativeId::GetAttr => {
            let value = read(alloc, world, side, args)?;
            Ok(taken(world, value, side))
        }
        _ => {
            let value = store(alloc, world, args)?;
            Ok(taken(world, value, side))
        }
    }
}

/// `getattr`.
fn read(alloc: Global, world: &mut World, side: Side, args: &[Value]) -> Result<Value, OpEnd>
    requires faithful { IsFaithful world.old }
    requires args { AreSound world.old.store.heap args.now }
    ensures law { FormComes side NativeId.GetAttr args.now result world.old world.new }
    ensures faithful { IsFaithful world.new }
    ensures shape { KeepsShape world.old.store.heap world.new.store.heap }
    ensures sound { IfOk result (IsSound world.new.store.heap) }
    ensures fewer { world.new.running.meter.left ≤ world.old.running.meter.left }
{
    match args {
        [o, word] => attribute_of(alloc, world, side, o, word),
        [object, name, default] => attribute_or(alloc, world, side, object, name, default),
        _ => Err(raised(alloc, Kind::TypeError, "arguments")),
    }
}

/// `setattr`.
fn store(alloc: Global, world: &mut World, args: &[Value]) -> Result<Value, OpEnd>
    requires faithful { IsFaithful world.old }
    requires args { AreSound world.old.store.heap args.now }
    ensures law { (side : TheSide) → FormComes side NativeId.SetAttr args.now result world.old world.new }
    ensures faithful { IsFaithful world.new }
    ensures shape { KeepsShape world.old.store.heap world.new.store.heap }
    ensures sound { IfOk result (IsSound world.new.store.heap) }
    ensures fewer { world.new.running.meter.left ≤ world.old.running.meter.left }
{
    match args {
        [o, word, value] => store_attribute(alloc, world, o, word, value),
        _ => Err(raised(alloc, Kind::TypeError, "arguments")),
    }
}

/// `getattr(o, word)`.
///
/// # Errors
/// - `Raised` with `TypeError` and the text `argument`, where the word is no text.
/// - `Raised` with `AttributeError` and the text `name`, where it is no identifier.
/// - `Raised` with `ForbiddenAttribute` and the word, where a script may not use it.
/// - As `get_attribute`.
fn attribute_of(
    alloc: Global,
    world: &mut World,
    side: Side,
    o: &Value,
    word: &Value,
) -> Result<Value, OpEnd>
    requires faithful { IsFaithful world.old }
    requires sound { IsSound world.old.store.heap o.now }
    ensures law { ReadComes side o.now word.now None result world.old world.new }
    ensures faithful { IsFaithful world.new }
    ensures shape { KeepsShape world.old.store.heap world.new.store.heap }
    ensures sound { IfOk result (IsSound world.new.store.heap) }
    ensures fewer { world.new.running.meter.left ≤ world.old.running.meter.left }
{
    match value_named(alloc, world, word)? {
        Some(name) => get_attribute(alloc, world, side, o, name),
        None => Err(raised(alloc, Kind::AttributeError, "name")),
    }
}

/// `getattr(o, word, default)`: the default in place of an `AttributeError`, but not of that of a forbidden word.
///
/// # Errors
/// As `attribute_of`.
fn attribute_or(
    alloc: Global,
    world: &mut World,
    side: Side,
    o: &Value,
    word: &Value,
    default: &Value,
) -> Result<Value, OpEnd>
    requires faithful { IsFaithful world.old }
    requires o { IsSound world.old.store.heap o.now }
    requires default { IsSound world.old.store.heap default.now }
    ensures law { ReadComes side o.now word.now (Some default.now) result world.old world.new }
    ensures faithful { IsFaithful world.new }
    ensures shape { KeepsShape world.old.store.heap world.new.store.heap }
    ensures sound { IfOk result (IsSound world.new.store.heap) }
    ensures fewer { world.new.running.meter.left ≤ world.old.running.meter.left }
{
    match value_named(alloc, world, word)? {
        Some(name) => or_default(get_attribute(alloc, world, side, o, name), default),
        None => Ok(default.copy()?),
    }
}

/// What was read, or the default in place of an `AttributeError`.
fn or_default(read: Result<Value, OpEnd>, default: &Value) -> Result<Value, OpEnd>
    ensures law { (s : State) (o : Outcome TheValue) → Comes read s o
        → Comes result s (defaulted (Some default.now) o) }
    ensures sound { (heap : List Owned) → IfOk read (IsSound heap) → IsSound heap default.now
        → IfOk result (IsSound heap) }
{
    match read {
        Ok(value) => Ok(value),
        Err(end) => default_at(end, default),
    }
}

/// An end, or the default in place of an `AttributeError`.
fn default_at(end: OpEnd, default: &Value) -> Result<Value, OpEnd>
    ensures law { (s : State) (o : Outcome TheValue) → IsEnd end s o
        → Comes result s (defaulted (Some default.now) o) }
    ensures same { IfOk result (λ v. v ≡ default.now) }
{
    match end {
        OpEnd::Raised(raised) => default_for(raised, default),
        OpEnd::StopSteps => Err(OpEnd::StopSteps),
        OpEnd::StopCells => Err(OpEnd::StopCells),
        OpEnd::Memory => Err(OpEnd::Memory),
    }
}

/// The default in place of an `AttributeError`.
fn default_for(raised: Raised, default: &Value) -> Result<Value, OpEnd>
    ensures law { (s : State) → Comes result s (defaulted (Some default.now) (outcome.ends (outcome.raised raised) s)) }
    ensures same { IfOk result (λ v. v ≡ default.now) }
{
    if is_kind(raised.kind, Kind::AttributeError) {
        return Ok(default.copy()?);
    }
    Err(OpEnd::Raised(raised))
}

/// `setattr(o, word, value)`, which gives None.
///
/// # Errors
/// As `attribute_of`, and as `set_attribute`.
fn store_attribute(
    alloc: Global,
    world: &mut World,
    o: &Value,
    word: &Value,
    value: &Value,
) -> Result<Value, OpEnd>
    requires faithful { IsFaithful world.old }
    requires o { IsSound world.old.store.heap o.now }
    requires value { IsSound world.old.store.heap value.now }
    ensures law { StoreComes o.now word.now value.now result world.old world.new }
    ensures faithful { IsFaithful world.new }
    ensures shape { KeepsShape world.old.store.heap world.new.store.heap }
    ensures sound { IfOk result (IsSound world.new.store.heap) }
    ensures fewer { world.new.running.meter.left ≤ world.old.running.meter.left }
{
    match value_named(alloc, world, word)? {
        Some(name) => {
            set_attribute(alloc, world, o, name, value.copy()?)?;
            Ok(Value::Rock(Rock::Nil))
        }
        None => Err(raised(alloc, Kind::AttributeError, "name")),
    }
}

/// The name that a value is, which is put among the names of the world; None where it is no identifier.
///
/// # Errors
/// As `attribute_of`, but for `AttributeError`.
fn value_named(alloc: Global, world: &mut World, word: &Value) -> Result<Option<Name>, OpEnd>
    requires faithful { IsFaithful world.old }
    ensures law { Comes result (state_of world.new) (value_named word.now (state_of world.old)) }
    ensures faithful { IsFaithful world.new }
    ensures store { world.new.store ≡ world.old.store }
    ensures fewer { world.new.running.meter.left ≤ world.old.running.meter.left }
{
    match text_in(word) {
        Some(word) => word_named(alloc, world, word),
        None => Err(raised(alloc, Kind::TypeError, "argument")),
    }
}

/// The text that a value is.
fn text_in(value: &Value) -> Option<&Text>
    ensures { option_copied result ≡ text_in value.now }
{
    match value {
        Value::Rock(Rock::Text(text)) => Some(text),
        _ => None,
    }
}

/// The name of a text, as `value_named`.
fn word_named(alloc: Global, world: &mut World, word: &Text) -> Result<Option<Name>, OpEnd>
    requires faithful { IsFaithful world.old }
    ensures law { Comes result (state_of world.new) (word_named word.now (state_of world.old)) }
    ensures faithful { IsFaithful world.new }
    ensures store { world.new.store ≡ world.old.store }
    ensures fewer { world.new.running.meter.left ≤ world.old.running.meter.left }
{
    let letters = word.as_str();
    let is_name = is_identifier_word(alloc, letters)?;
    if !is_name {
        return Ok(None);
    }
    let name = add_name(world, letters)?;
    if is_forbidden_attribute(letters) {
        return Err(forbidden(word));
    }
    Ok(Some(name))
}

/// Puts an identifier among the names of the world.
fn add_name(world: &mut World, word: &str) -> Result<Name, OpEnd>
    requires faithful { IsFaithful world.old }
    requires identifier { IsIdentifier (chars word.now) }
    ensures added { OnOk result (state_of world.new ≡ with_name (chars word.now) (state_of world.old)) }
    ensures place { IfOk result (λ name. name ≡ name_of world.new.names (chars word.now)) }
    ensures ends { IfErr result (λ e. e ≡ OpEnd.Memory) }
    ensures faithful { IsFaithful world.new }
    ensures store { world.new.store ≡ world.old.store }
    ensures fewer { world.new.running.meter.left ≤ world.old.running.meter.left }
{
    let name = world.names.intern(word)?;
    Ok(name)
}

/// The refusal of a word that a script may not use. `Memory` where a growth was refused.
fn forbidden(word: &Text) -> OpEnd
    ensures { (s : State) → IsEnd {A = Option TheName} result s (outcome.raises ForbiddenAttribute word.now s) }
{
    match word.copy() {
        Ok(text) => OpEnd::Raised(Raised {
            kind: Kind::ForbiddenAttribute,
            text,
        }),
        Err(_) => OpEnd::Memory,
    }
}
