//! Built-in functions behind their decisions.
#![tactic(auto, using(rp_store::proofs::CallerLemmas::goes_on))]

ghost use Rattle.std.specs.Prelude.{◌≤◌, ◌≡◌, ◌++◌, IfErr, IfNone, IfOk, IfSome, IsTrue, None, OnOk, false, true};
ghost use Rattle.rp_base.specs.declared.value.Value.{Value as TheValue};
ghost use Rattle.rp_meaning.specs.Special.{Special};
ghost use Rattle.rp_meaning.specs.State.{State, Outcome, plainly};
ghost use Rattle.rp_native.specs.Counts.{is_called_here};
ghost use Rattle.rp_native.specs.Print.{print_line};
ghost use Rattle.rp_proxy.specs.Faithful.{IsFaithful};
ghost use Rattle.rp_store.specs.Kept.{AreSound, IsFit, IsSound};
ghost use Rattle.rp_store.specs.Shape.{KeepsShape};
ghost use Rattle.rp_access.specs.CallSteps.{HasLength, IsFunctionLeft, IsPlainly, all_asked, applied_by, function_by};
ghost use Rattle.rp_access.specs.CallSteps.{given, is_form};
ghost use Rattle.rp_access.specs.CallSteps.{needs_asked, printing};
ghost use Rattle.rp_access.specs.Calling.{CallComes};
ghost use Rattle.rp_access.specs.Comes.{Comes, ComesIfAny};
ghost use Rattle.rp_access.specs.Moment.{state_of};
ghost use Rattle.rp_access.specs.Natives.{need_name};

use crate::access::has_method;
use crate::deciding::ask;
use crate::named_attributes::form;
use crate::operating::taken;
use rp_base::word::LEN;
use rp_base::{Kind, Name, NativeId, OpEnd, Rock, Side, Text, Value, word};
use rp_native::{Need, call_native, is_called_here, is_function, needs};
use rp_ops::raised;
use rp_proxy::World;
use rp_store::Store;
use std::alloc::Global;

/// A call of a built-in function by code of a side; None where it is `len` of an instance whose class has a method for
/// it.
///
/// # Errors
/// As `function`, and as `form` of those that stand for forms of the language.
pub(crate) fn native(
    alloc: Global,
    world: &mut World,
    side: Side,
    id: NativeId,
    args: &[Value],
) -> Result<Option<Value>, OpEnd>
    requires faithful { IsFaithful world.old }
    requires args { AreSound world.old.store.heap args.now }
    ensures law { CallComes side (Value.Rock (Rock.Native id)) args.now result world.old world.new }
    ensures left { IfOk result (λ v. IfNone v
        (IsFunctionLeft id args.now (state_of world.old) (state_of world.new))) }
    ensures faithful { IsFaithful world.new }
    ensures shape { KeepsShape world.old.store.heap world.new.store.heap }
    ensures fit { IfOk result (λ v. IfSome v (IsFit world.new.store.heap side)) }
    ensures fewer { world.new.running.meter.left ≤ world.old.running.meter.left }
{
    if is_form(id) {
        return Ok(Some(form(alloc, world, side, id, args)?));
    }
    function(alloc, world, side, id, args)
}

/// The same of a function that stands for no form.
///
/// # Errors
/// - `Raised` with `TypeError` and the text `call`, where a method is called as a function.
/// - As `cross`, of an argument, from left to right.
/// - As `rp_native::call_native`, and `rp_native::print_line`.
fn function(
    alloc: Global,
    world: &mut World,
    side: Side,
    id: NativeId,
    args: &[Value],
) -> Result<Option<Value>, OpEnd>
    requires faithful { IsFaithful world.old }
    requires args { AreSound world.old.store.heap args.now }
    requires form { is_form id ≡ false }
    ensures law { (call : Special → State → Outcome TheValue)
        → ComesIfAny result (state_of world.new) (function_by call side id args.now (state_of world.old)) }
    ensures left { IfOk result (λ v. IfNone v
        (IsFunctionLeft id args.now (state_of world.old) (state_of world.new))) }
    ensures faithful { IsFaithful world.new }
    ensures shape { KeepsShape world.old.store.heap world.new.store.heap }
    ensures fit { IfOk result (λ v. IfSome v (IsFit world.new.store.heap side)) }
    ensures fewer { world.new.running.meter.left ≤ world.old.running.meter.left }
{
    if !is_function(id) {
        return Err(raised(alloc, Kind::TypeError, "call"));
    }
    ask_each(alloc, world, id, args)?;
    match applied(alloc, world, side, id, args)? {
        Some(value) => Ok(Some(taken(world, value, side))),
        None => Ok(None),
    }
}

/// Whether it stands for a form of the language.
#[inline(always)]
fn is_form(id: NativeId) -> bool
    ensures { result ≡ is_form id }
{
    match id {
        NativeId::GetAttr | NativeId::SetAttr => true,
        _ => false,
    }
}

/// Decides what a function needs of its arguments.
///
/// # Errors
/// As `cross`.
#[inline(always)]
pub(crate) fn ask_each(
    alloc: Global,
    world: &mut World,
    id: NativeId,
    args: &[Value],
) -> Result<(), OpEnd>
    requires faithful { IsFaithful world.old }
    requires args { AreSound world.old.store.heap args.now }
    ensures law { Comes result (state_of world.new) (needs_asked id args.now (state_of world.old)) }
    ensures faithful { IsFaithful world.new }
    ensures shape { KeepsShape world.old.store.heap world.new.store.heap }
    ensures fewer { world.new.running.meter.left ≤ world.old.running.meter.left }
{
    match needs(id, 0, args.len()) {
        Some(need) => ask_all(alloc, world, need_name(need), args),
        None => Ok(()),
    }
}

/// The name that is decided.
#[inline(always)]
fn need_name(need: Need) -> Name
    ensures { result ≡ need_name need }
{
    match need {
        Need::Iter => word::ITER,
        Need::Items => word::ITEMS,
        Need::Len => word::LEN,
        Need::Str => word::STR,
        Need::Bool => word::BOOL,
    }
}

/// Decides whether a name may be read on each of some values.
fn ask_all(alloc: Global, world: &mut World, name: Name, values: &[Value]) -> Result<(), OpEnd>
    requires faithful { IsFaithful world.old }
    requires values { AreSound world.old.store.heap values.now }
    ensures law { Comes result (state_of world.new) (all_asked name values.now (state_of world.old)) }
    ensures faithful { IsFaithful world.new }
    ensures shape { KeepsShape world.old.store.heap world.new.store.heap }
    ensures fewer { world.new.running.meter.left ≤ world.old.running.meter.left }
{
    for value in values {
        ask(alloc, world, value, name)?;
    }
    Ok(())
}

/// A function whose arguments are decided; None as for `function`.
#[inline(always)]
fn applied(
    alloc: Global,
    world: &mut World,
    side: Side,
    id: NativeId,
    args: &[Value],
) -> Result<Option<Value>, OpEnd>
    requires faithful { IsFaithful world.old }
    requires args { AreSound world.old.store.heap args.now }
    requires form { is_form id ≡ false }
    ensures law { (call : Special → State → Outcome TheValue)
        → ComesIfAny result (state_of world.new) (applied_by call side id args.now (state_of world.old)) }
    ensures left { IfOk result (λ v. IfNone v
        ((state_of world.old ≡ state_of world.new) × HasLength world.new.store.heap id args.now)) }
    ensures faithful { IsFaithful world.new }
    ensures shape { KeepsShape world.old.store.heap world.new.store.heap }
    ensures sound { IfOk result (λ v. IfSome v (IsSound world.new.store.heap)) }
    ensures fewer { world.new.running.meter.left ≤ world.old.running.meter.left }
{
    if !is_called_here(id) {
        return Ok(Some(print(alloc, world, args)?));
    }
    if has_length(&world.store, id, args) {
        return Ok(None);
    }
    Ok(Some(given(alloc, world, side, id, args)?))
}

/// Whether it is `len` of an instance whose class has a method for it.
#[inline(always)]
fn has_length(store: &Store, id: NativeId, args: &[Value]) -> bool
    requires { AreSound store.now.heap args.now }
    ensures plain { result ≡ false → IsPlainly store.now.heap id args.now }
    ensures length { result ≡ true → HasLength store.now.heap id args.now }
{
    match (id, args) {
        (NativeId::Len, [value]) => has_method(store, value, LEN),
        _ => false,
    }
}

/// `print`: adds a line to what the session has printed.
///
/// # Errors
/// As `rp_native::print_line`.
fn print(alloc: Global, world: &mut World, args: &[Value]) -> Result<Value, OpEnd>
    requires faithful { IsFaithful world.old }
    ensures law { Comes result (state_of world.new) (printing args.now (state_of world.old)) }
    ensures faithful { IsFaithful world.new }
    ensures shape { KeepsShape world.old.store.heap world.new.store.heap }
    ensures sound { IfOk result (IsSound world.new.store.heap) }
    ensures fewer { world.new.running.meter.left ≤ world.old.running.meter.left }
{
    let line = print_line(alloc, world, args)?;
    put_line(world, &line)?;
    Ok(Value::Rock(Rock::Nil))
}

/// Adds a line to what the session has printed.
///
/// # Errors
/// `Memory` where a growth was refused; then nothing is added.
#[inline(always)]
#[tactic(auto, using(crate::proofs::Printing::printed_faithful))]
fn put_line(world: &mut World, line: &Text) -> Result<(), OpEnd>
    requires faithful { IsFaithful world.old }
    ensures put { OnOk result (state_of world.new
        ≡ record (state_of world.old) { printed = (state_of world.old).printed ++ line.now }) }
    ensures ends { IfErr result (λ e. e ≡ OpEnd.Memory) }
    ensures faithful { IsFaithful world.new }
    ensures store { world.new.store ≡ world.old.store }
    ensures fewer { world.new.running.meter.left ≤ world.old.running.meter.left }
{
    world.running.printed.add(line.as_str())?;
    Ok(())
}

/// The line that `print` makes.
#[inline(always)]
fn print_line(alloc: Global, world: &mut World, args: &[Value]) -> Result<Text, OpEnd>
    requires faithful { IsFaithful world.old }
    ensures law { Comes result (state_of world.new)
        (plainly (print_line world.old.names args.now) (state_of world.old)) }
    ensures faithful { IsFaithful world.new }
    ensures shape { KeepsShape world.old.store.heap world.new.store.heap }
    ensures fewer { world.new.running.meter.left ≤ world.old.running.meter.left }
{
    rp_native::print_line(
        alloc,
        &mut world.store,
        &mut world.running.meter,
        &world.names,
        args,
    )
}

/// A function on values whose decisions are made.
#[inline(always)]
fn given(
    alloc: Global,
    world: &mut World,
    side: Side,
    id: NativeId,
    args: &[Value],
) -> Result<Value, OpEnd>
    requires faithful { IsFaithful world.old }
    requires args { AreSound world.old.store.heap args.now }
    requires called { IsTrue (is_called_here id) }
    ensures law { Comes result (state_of world.new) (given side id args.now (state_of world.old)) }
    ensures faithful { IsFaithful world.new }
    ensures shape { KeepsShape world.old.store.heap world.new.store.heap }
    ensures sound { IfOk result (IsSound world.new.store.heap) }
    ensures fewer { world.new.running.meter.left ≤ world.old.running.meter.left }
{
    call_native(
        alloc,
        &mut world.store,
        &mut world.running.meter,
        &world.names,
        side,
        id,
        args,
    )
}
