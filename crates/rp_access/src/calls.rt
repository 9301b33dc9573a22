//! Calls of values behind their decisions.
#![tactic(auto, using(rp_store::proofs::CallerLemmas::goes_on))]

ghost use Rattle.std.specs.Prelude.{◌≤◌, ◌∷◌, [], IfNone, IfOk, IfSome, List};
ghost use Rattle.rp_base.specs.declared.value.Side.{Side as TheSide};
ghost use Rattle.rp_meaning.specs.State.{State};
ghost use Rattle.rp_proxy.specs.Faithful.{IsFaithful};
ghost use Rattle.rp_store.specs.Heap.{Owned};
ghost use Rattle.rp_store.specs.Kept.{AreSound, IsFit, IsSound};
ghost use Rattle.rp_store.specs.Shape.{KeepsShape};
ghost use Rattle.rp_access.specs.CallSteps.{bound_by, kind_by};
ghost use Rattle.rp_access.specs.Calling.{CallComes, IsCallLeft};
ghost use Rattle.rp_access.specs.Callees.{IsAt};
ghost use Rattle.rp_access.specs.Comes.{Comes, ComesIfAny};
ghost use Rattle.rp_access.specs.Moment.{state_of};

use crate::access::through;
use crate::callees::{Called, called_at};
use crate::deciding::ask;
use crate::functions::native;
use crate::methods::method;
use crate::operating::taken;
use crate::showing::text_of;
use rp_base::word::CALL;
use rp_base::{Kind, NativeId, Oid, OpEnd, Rock, Side, Text, Value};
use rp_ops::raised;
use rp_proxy::World;
use std::alloc::Global;

/// `f(..)` by code of a side, with arguments that have no names (Python Language Reference, Calls; Python Standard
/// Library, Built-in Functions; zope.security, proxies). A call of an object is decided first, and then what a built-in
/// function or method does to its arguments. What is called through a proxy gives what is lent. None where code would
/// have to run: of a function of the store, a class, a bound function, an instance whose class has `__call__`, and of
/// `len` of an instance whose class has `__len__`.
///
/// # Errors
/// - `Raised` with `TypeError` and the text `call`, where it is nothing that may be called, or a method of another
///   kind.
/// - `Raised` with `TypeError` and the text `arguments`, where a built-in or an exception is given too many or too few.
/// - As `rp_proxy::cross`, where a decision refuses; then nothing more is done.
/// - As `rp_native::call_native`, `rp_native::print_line`, `rp_methods::call_method` and `rp_show::show`, by what is
///   called.
/// - `Memory` where a growth was refused.
pub fn call(
    alloc: Global,
    world: &mut World,
    side: Side,
    f: &Value,
    args: &[Value],
) -> Result<Option<Value>, OpEnd>
    requires faithful { IsFaithful world.old }
    requires f { IsSound world.old.store.heap f.now }
    requires args { AreSound world.old.store.heap args.now }
    ensures law { CallComes side f.now args.now result world.old world.new }
    ensures left { IfOk result (λ v. IfNone v
        (IsCallLeft f.now args.now (state_of world.old) (state_of world.new))) }
    ensures faithful { IsFaithful world.new }
    ensures shape { KeepsShape world.old.store.heap world.new.store.heap }
    ensures fit { IfOk result (λ v. IfSome v (IsFit world.new.store.heap side)) }
    ensures fewer { world.new.running.meter.left ≤ world.old.running.meter.left }
{
    match f {
        Value::Rock(rock) => call_rock(alloc, world, side, rock, args),
        Value::Ref(at) => call_object(alloc, world, side, f, *at, args),
        Value::Prox(at) => call_object(alloc, world, side, f, *at, args),
    }
}

/// The same, of a rock.
#[inline(always)]
fn call_rock(
    alloc: Global,
    world: &mut World,
    side: Side,
    rock: &Rock,
    args: &[Value],
) -> Result<Option<Value>, OpEnd>
    requires faithful { IsFaithful world.old }
    requires args { AreSound world.old.store.heap args.now }
    ensures law { CallComes side (Value.Rock rock.now) args.now result world.old world.new }
    ensures left { IfOk result (λ v. IfNone v
        (IsCallLeft (Value.Rock rock.now) args.now (state_of world.old) (state_of world.new))) }
    ensures faithful { IsFaithful world.new }
    ensures shape { KeepsShape world.old.store.heap world.new.store.heap }
    ensures fit { IfOk result (λ v. IfSome v (IsFit world.new.store.heap side)) }
    ensures fewer { world.new.running.meter.left ≤ world.old.running.meter.left }
{
    match rock {
        Rock::Native(id) => native(alloc, world, side, *id, args),
        Rock::Kind(kind) => Ok(Some(exception(alloc, world, *kind, args)?)),
        _ => Err(raised(alloc, Kind::TypeError, "call")),
    }
}

/// An exception value of a kind, with the shown argument as its text (Python Standard Library, Built-in exceptions).
///
/// # Errors
/// `Raised` with `TypeError` and the text `arguments`, where there are several; as `text_of`.
fn exception(alloc: Global, world: &mut World, kind: Kind, args: &[Value]) -> Result<Value, OpEnd>
    requires faithful { IsFaithful world.old }
    requires args { AreSound world.old.store.heap args.now }
    ensures law { Comes result (state_of world.new) (kind_by kind args.now (state_of world.old)) }
    ensures faithful { IsFaithful world.new }
    ensures shape { KeepsShape world.old.store.heap world.new.store.heap }
    ensures fit { (side : TheSide) → IfOk result (IsFit world.new.store.heap side) }
    ensures fewer { world.new.running.meter.left ≤ world.old.running.meter.left }
{
    match args {
        [] => exception_alone(alloc, kind),
        [value] => exception_of(alloc, world, kind, value),
        _ => Err(raised(alloc, Kind::TypeError, "arguments")),
    }
}

/// The same, with no text.
fn exception_alone(alloc: Global, kind: Kind) -> Result<Value, OpEnd>
    ensures law { (s : State) → Comes result s (kind_by kind [] s) }
    ensures fit { (heap : List Owned) (side : TheSide) → IfOk result (IsFit heap side) }
{
    Ok(Value::Rock(Rock::Exc(kind, Text::new(alloc, "")?)))
}

/// The same, with its argument.
fn exception_of(alloc: Global, world: &mut World, kind: Kind, value: &Value) -> Result<Value, OpEnd>
    requires faithful { IsFaithful world.old }
    requires value { IsSound world.old.store.heap value.now }
    ensures law { Comes result (state_of world.new) (kind_by kind (value.now ∷ []) (state_of world.old)) }
    ensures faithful { IsFaithful world.new }
    ensures shape { KeepsShape world.old.store.heap world.new.store.heap }
    ensures fit { (side : TheSide) → IfOk result (IsFit world.new.store.heap side) }
    ensures fewer { world.new.running.meter.left ≤ world.old.running.meter.left }
{
    let text = text_of(alloc, world, value)?;
    Ok(Value::Rock(Rock::Exc(kind, text)))
}

/// The same as `call`, of the object at the place that the value names.
#[inline(always)]
fn call_object(
    alloc: Global,
    world: &mut World,
    side: Side,
    f: &Value,
    at: Oid,
    args: &[Value],
) -> Result<Option<Value>, OpEnd>
    requires faithful { IsFaithful world.old }
    requires f { IsSound world.old.store.heap f.now }
    requires at { IsAt f.now at }
    requires args { AreSound world.old.store.heap args.now }
    ensures law { CallComes side f.now args.now result world.old world.new }
    ensures left { IfOk result (λ v. IfNone v
        (IsCallLeft f.now args.now (state_of world.old) (state_of world.new))) }
    ensures faithful { IsFaithful world.new }
    ensures shape { KeepsShape world.old.store.heap world.new.store.heap }
    ensures fit { IfOk result (λ v. IfSome v (IsFit world.new.store.heap side)) }
    ensures fewer { world.new.running.meter.left ≤ world.old.running.meter.left }
{
    ask(alloc, world, f, CALL)?;
    match called_at(&world.store, at)? {
        Called::Method(owner, receiver, id) => {
            bound(alloc, world, side, f, owner, receiver, id, args)
        }
        Called::Other => Ok(None),
        Called::Nothing => Err(raised(alloc, Kind::TypeError, "call")),
    }
}

/// What a bound method gives through a value.
fn bound(
    alloc: Global,
    world: &mut World,
    side: Side,
    f: &Value,
    owner: Side,
    receiver: Value,
    id: NativeId,
    args: &[Value],
) -> Result<Option<Value>, OpEnd>
    requires faithful { IsFaithful world.old }
    requires receiver { IsSound world.old.store.heap receiver }
    requires args { AreSound world.old.store.heap args.now }
    ensures law { ComesIfAny result (state_of world.new)
        (bound_by side f.now owner receiver id args.now (state_of world.old)) }
    ensures known { IfOk result (λ v. IfNone v ⊥) }
    ensures faithful { IsFaithful world.new }
    ensures shape { KeepsShape world.old.store.heap world.new.store.heap }
    ensures fit { IfOk result (λ v. IfSome v (IsFit world.new.store.heap side)) }
    ensures fewer { world.new.running.meter.left ≤ world.old.running.meter.left }
{
    let value = method(alloc, world, owner, &receiver, id, args)?;
    Ok(Some(taken(world, through(f, value), side)))
}
