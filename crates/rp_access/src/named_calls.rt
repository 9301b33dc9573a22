//! Calls with named arguments behind their decisions.
#![tactic(auto, using(rp_store::proofs::CallerLemmas::goes_on))]

ghost use Rattle.std.specs.Prelude.{◌≤◌, Err, OnOk};
ghost use Rattle.rp_meaning.specs.State.{State};
ghost use Rattle.rp_proxy.specs.Faithful.{IsFaithful};
ghost use Rattle.rp_store.specs.Kept.{IsSound};
ghost use Rattle.rp_store.specs.Shape.{KeepsShape};
ghost use Rattle.rp_access.specs.Callees.{IsAt};
ghost use Rattle.rp_access.specs.Calling.{IsCallRefused, IsCodeLeft, IsMethodRefused};
ghost use Rattle.rp_access.specs.Moment.{state_of};

use crate::callees::{Called, called_at};
use crate::deciding::ask;
use rp_attributes::has_method;
use rp_base::word::CALL;
use rp_base::{Kind, NativeId, Oid, OpEnd, Rock, Value};
use rp_native::is_function;
use rp_ops::raised;
use rp_proxy::World;
use std::alloc::Global;

/// Decides a call `f(..)` with arguments of which some have names, which has to be one of code: what is built in takes
/// none (Python Language Reference, Calls; zope.security, proxies).
///
/// # Errors
/// - `Raised` with `TypeError` and the text `call`, where it is nothing that may be called.
/// - `Raised` with `TypeError` and the text `arguments`, of what is built in.
/// - As `rp_proxy::cross`, where the decision refuses.
/// - `Memory` where a growth was refused.
pub fn ask_named(alloc: Global, world: &mut World, f: &Value) -> Result<(), OpEnd>
    requires faithful { IsFaithful world.old }
    requires f { IsSound world.old.store.heap f.now }
    ensures left { OnOk result (IsCodeLeft f.now (state_of world.old) (state_of world.new)) }
    ensures refused { IsCallRefused f.now result (state_of world.old) (state_of world.new) }
    ensures faithful { IsFaithful world.new }
    ensures shape { KeepsShape world.old.store.heap world.new.store.heap }
    ensures fewer { world.new.running.meter.left ≤ world.old.running.meter.left }
{
    match f {
        Value::Rock(rock) => Err(rock_refused(alloc, rock)),
        Value::Ref(at) => ask_object(alloc, world, f, *at),
        Value::Prox(at) => ask_object(alloc, world, f, *at),
    }
}

/// Why a call of a rock is refused.
fn rock_refused(alloc: Global, rock: &Rock) -> OpEnd
    ensures { (s : State) → IsCallRefused (Value.Rock rock.now) (Err result) s s }
{
    match rock {
        Rock::Kind(_) => raised(alloc, Kind::TypeError, "arguments"),
        Rock::Native(id) => native_refused(alloc, *id),
        _ => raised(alloc, Kind::TypeError, "call"),
    }
}

/// Why a call of a built-in function is refused.
fn native_refused(alloc: Global, id: NativeId) -> OpEnd
    ensures { (s : State) → IsCallRefused (Value.Rock (Rock.Native id)) (Err result) s s }
{
    if is_function(id) {
        raised(alloc, Kind::TypeError, "arguments")
    } else {
        raised(alloc, Kind::TypeError, "call")
    }
}

/// Why a call of a built-in method of a receiver is refused.
fn method_refused(alloc: Global, world: &World, receiver: &Value, id: NativeId) -> OpEnd
    requires { IsSound world.now.store.heap receiver.now }
    ensures { IsMethodRefused receiver.now id result (state_of world.now) }
{
    if has_method(&world.store, receiver, id) {
        raised(alloc, Kind::TypeError, "arguments")
    } else {
        raised(alloc, Kind::TypeError, "call")
    }
}

/// The same as `ask_named`, of the object at the place that the value names.
fn ask_object(alloc: Global, world: &mut World, f: &Value, at: Oid) -> Result<(), OpEnd>
    requires faithful { IsFaithful world.old }
    requires f { IsSound world.old.store.heap f.now }
    requires at { IsAt f.now at }
    ensures left { OnOk result (IsCodeLeft f.now (state_of world.old) (state_of world.new)) }
    ensures refused { IsCallRefused f.now result (state_of world.old) (state_of world.new) }
    ensures faithful { IsFaithful world.new }
    ensures shape { KeepsShape world.old.store.heap world.new.store.heap }
    ensures fewer { world.new.running.meter.left ≤ world.old.running.meter.left }
{
    ask(alloc, world, f, CALL)?;
    let called = called_at(&world.store, at)?;
    match called {
        Called::Method(_owner, receiver, id) => Err(method_refused(alloc, world, &receiver, id)),
        Called::Other => Ok(()),
        Called::Nothing => Err(raised(alloc, Kind::TypeError, "call")),
    }
}
