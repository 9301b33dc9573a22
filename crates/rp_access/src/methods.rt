//! Built-in methods behind their decisions.
#![tactic(auto, using(rp_store::proofs::CallerLemmas::goes_on))]

ghost use Rattle.std.specs.Prelude.{◌≤◌, IfOk};
ghost use Rattle.rp_meaning.specs.State.{plainly};
ghost use Rattle.rp_methods.specs.Methods.{method};
ghost use Rattle.rp_proxy.specs.Faithful.{IsFaithful};
ghost use Rattle.rp_store.specs.Kept.{AreSound, IsSound};
ghost use Rattle.rp_store.specs.Shape.{KeepsShape};
ghost use Rattle.rp_access.specs.CallSteps.{method_by};
ghost use Rattle.rp_access.specs.Comes.{Comes};
ghost use Rattle.rp_access.specs.Moment.{state_of};

use crate::functions::ask_each;
use rp_attributes::has_method;
use rp_base::{Kind, NativeId, OpEnd, Side, Value};
use rp_methods::call_method;
use rp_ops::raised;
use rp_proxy::World;
use std::alloc::Global;

/// A call of a built-in method of a receiver, which is bound for an owner.
///
/// # Errors
/// - `Raised` with `TypeError` and the text `call`, where the receiver has no such method.
/// - As `cross`, of an argument, from left to right, and as `rp_methods::call_method`.
pub(crate) fn method(
    alloc: Global,
    world: &mut World,
    owner: Side,
    receiver: &Value,
    id: NativeId,
    args: &[Value],
) -> Result<Value, OpEnd>
    requires faithful { IsFaithful world.old }
    requires receiver { IsSound world.old.store.heap receiver.now }
    requires args { AreSound world.old.store.heap args.now }
    ensures law { Comes result (state_of world.new)
        (method_by owner receiver.now id args.now (state_of world.old)) }
    ensures faithful { IsFaithful world.new }
    ensures shape { KeepsShape world.old.store.heap world.new.store.heap }
    ensures sound { IfOk result (IsSound world.new.store.heap) }
    ensures fewer { world.new.running.meter.left ≤ world.old.running.meter.left }
{
    if !has_method(&world.store, receiver, id) {
        return Err(raised(alloc, Kind::TypeError, "call"));
    }
    ask_each(alloc, world, id, args)?;
    plain_method(alloc, world, owner, receiver, id, args)
}

/// The plain method.
#[inline(always)]
fn plain_method(
    alloc: Global,
    world: &mut World,
    owner: Side,
    receiver: &Value,
    id: NativeId,
    args: &[Value],
) -> Result<Value, OpEnd>
    requires faithful { IsFaithful world.old }
    requires receiver { IsSound world.old.store.heap receiver.now }
    requires args { AreSound world.old.store.heap args.now }
    ensures law { Comes result (state_of world.new)
        (plainly (method owner receiver.now id args.now) (state_of world.old)) }
    ensures faithful { IsFaithful world.new }
    ensures shape { KeepsShape world.old.store.heap world.new.store.heap }
    ensures sound { IfOk result (IsSound world.new.store.heap) }
    ensures fewer { world.new.running.meter.left ≤ world.old.running.meter.left }
{
    call_method(
        alloc,
        &mut world.store,
        &mut world.running.meter,
        &world.names,
        owner,
        receiver,
        id,
        args,
    )
}
