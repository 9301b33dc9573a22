//! Reading attributes.
#![tactic(auto, using(rp_store::proofs::CallerLemmas::goes_on))]

ghost use Rattle.std.specs.Prelude.{◌≡◌, ℕ, IfOk, IfSome, OnErr};
ghost use Rattle.rp_attributes.specs.Attributes.{attribute, attribute_at, bound, rock_attribute};
ghost use Rattle.rp_ops.specs.Outcome.{Meets, state_of};
ghost use Rattle.rp_base.specs.Names.{word_of};
ghost use Rattle.rp_store.specs.Counters.{KeepsCounters};
ghost use Rattle.rp_store.specs.Kept.{IsCallee, IsReceiver, IsSound};
ghost use Rattle.rp_store.specs.Shape.{KeepsShape};

use crate::attribute_error::no_attribute;
use crate::built_ins::{Receiver, built_in_method};
use crate::methods::{method_of, native};
use rp_base::{Name, Names, Oid, OpEnd, Rock, Side, Value, word_of};
use rp_ops::{lent, new_object};
use rp_store::{Callee, Object, Store};
use std::alloc::Global;

/// `a.name`, read by code of a side on a value whose access decision has been made (Python Language Reference,
/// Attribute references): the field of an instance, else a method bound to the object. It is made for the owner of the
/// object, or for the side where the value is a text, and costs a cell. What is got through a proxy is lent.
///
/// # Errors
/// - `Raised` with `AttributeError`, whose text is the name, where there is no such attribute.
/// - `StopCells` where the cell is over the limit.
/// - `Memory` where a growth was refused.
///
/// The store is then as before.
pub fn attribute(
    alloc: Global,
    store: &mut Store,
    names: &Names,
    side: Side,
    a: &Value,
    name: Name,
) -> Result<Value, OpEnd>
    requires a { IsSound store.old.heap a.now }
    ensures plain { (steps : ℕ) → Meets result (state_of store.new steps)
        (attribute side a.now name (word_of names.now name) (state_of store.old steps)) }
    ensures sound { IfOk result (λ v. IsSound store.new.heap v) }
    ensures shape { KeepsShape store.old.heap store.new.heap }
    ensures same { OnErr result (store.new ≡ store.old) }
    ensures counters { KeepsCounters store.old store.new }
{
    match a {
        Value::Rock(rock) => rock_attribute(alloc, store, names, side, rock, name),
        Value::Ref(at) => attribute_at(alloc, store, names, *at, name),
        Value::Prox(at) => {
            let value = attribute_at(alloc, store, names, *at, name)?;
            Ok(lent(value))
        }
    }
}

/// A text has built-in methods, other rocks have no attributes.
fn rock_attribute(
    alloc: Global,
    store: &mut Store,
    names: &Names,
    side: Side,
    rock: &Rock,
    name: Name,
) -> Result<Value, OpEnd>
    ensures plain { (steps : ℕ) → Meets result (state_of store.new steps)
        (rock_attribute side rock.now (word_of names.now name) (state_of store.old steps)) }
    ensures sound { IfOk result (λ v. IsSound store.new.heap v) }
    ensures shape { KeepsShape store.old.heap store.new.heap }
    ensures same { OnErr result (store.new ≡ store.old) }
    ensures counters { KeepsCounters store.old store.new }
{
    match rock {
        Rock::Text(text) => {
            let receiver = Value::Rock(Rock::Text(text.copy()?));
            let callee = native(built_in_method(Receiver::Text, word_of(names, name)));
            bind(alloc, store, names, side, receiver, callee, name)
        }
        _ => Err(no_attribute(alloc, store, names, name)),
    }
}

/// The field of the object at a place, else a method bound to it.
#[inline(always)]
fn attribute_at(
    alloc: Global,
    store: &mut Store,
    names: &Names,
    at: Oid,
    name: Name,
) -> Result<Value, OpEnd>
    requires sound { IsSound store.old.heap (Value.Ref at) }
    ensures plain { (steps : ℕ) → Meets result (state_of store.new steps)
        (attribute_at at name (word_of names.now name) (state_of store.old steps)) }
    ensures sound { IfOk result (λ v. IsSound store.new.heap v) }
    ensures shape { KeepsShape store.old.heap store.new.heap }
    ensures same { OnErr result (store.new ≡ store.old) }
    ensures counters { KeepsCounters store.old store.new }
{
    if let Some(value) = store.field(at, name) {
        return Ok(value.copy()?);
    }
    let callee = method_of(store, names, at, name);
    let owner = store.owner(at);
    bind(alloc, store, names, owner, Value::Ref(at), callee, name)
}

/// A bound method, made for a side.
fn bind(
    alloc: Global,
    store: &mut Store,
    names: &Names,
    owner: Side,
    receiver: Value,
    callee: Option<Callee>,
    name: Name,
) -> Result<Value, OpEnd>
    requires sound { IsSound store.old.heap receiver }
    requires receiver { IsReceiver store.old.heap owner receiver }
    requires callee { IfSome callee (IsCallee store.old.heap) }
    ensures plain { (steps : ℕ) → Meets result (state_of store.new steps)
        (bound owner receiver callee (word_of names.now name) (state_of store.old steps)) }
    ensures sound { IfOk result (λ v. IsSound store.new.heap v) }
    ensures shape { KeepsShape store.old.heap store.new.heap }
    ensures same { OnErr result (store.new ≡ store.old) }
    ensures counters { KeepsCounters store.old store.new }
{
    match callee {
        Some(callee) => new_object(store, owner, Object::Method { receiver, callee }),
        None => Err(no_attribute(alloc, store, names, name)),
    }
}
