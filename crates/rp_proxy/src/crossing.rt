//! The decision on an operation on a value.

ghost use Rattle.std.specs.Prelude.{◌≡◌, IfOk, IsTrue, Some, chars, true};
ghost use Rattle.rp_base.specs.declared.value.Oid.{Oid};
ghost use Rattle.rp_checker.specs.Answers.{operation_view};
ghost use Rattle.rp_checker.specs.Tables.{row_in};
ghost use Rattle.rp_decl.specs.View.{name_text};
ghost use Rattle.rp_interact.specs.Interacting.{has_in};
ghost use Rattle.rp_store.specs.Heap.{IsHeld, tag_at};
ghost use Rattle.rp_trail.specs.View.{IsVerdictDeclared, is_named, op_name, verdict_view};
ghost use Rattle.rp_proxy.specs.Decide.{class_at, decide, refusal};
ghost use Rattle.rp_proxy.specs.Faithful.{IsFaithful};
ghost use Rattle.rp_proxy.specs.Held.{IsValueHeld};
ghost use Rattle.rp_proxy.specs.View.{GivesDecision, IsAsked, IsAskedBy, IsDecided, IsLogged, IsPlain, OnlyDecides};
ghost use Rattle.rp_proxy.specs.View.{entry_in, monitor_of, verdict_in};

use crate::world::World;
use rp_base::{ClassTag, Kind, Memory, Names, Oid, Op, OpEnd, Raised, Text, Value, word_of};
use rp_decl::{Decl, Perm, Row};
use rp_interact::Interaction;
use rp_store::{Store, StoreFault, bytes_of};
use rp_trail::{Entry, Verdict};
use std::alloc::Global;

/// Decides on an operation on a value (zope.security: checkers). Only one on a proxy is decided: for one cell, an entry
/// of the session that runs is added to the trail, with the verdict of the object's class on its principals. An
/// operation on a rock or a plain reference takes no memory, and nothing is changed. A name that is none of the
/// program's has the empty word, for which no class has a row.
///
/// # Errors
/// - `StopCells` exactly where the cell is over the limit; then nothing is changed.
/// - `Raised` exactly where the verdict on the operation does not allow it: `Unauthorized` with the id of the
///   permission that a principal lacks, or `ForbiddenAttribute` with the name.
/// - `Memory` where a growth was refused; then the trail and the store are as before.
#[inline(always)]
pub fn cross(alloc: Global, world: &mut World, value: &Value, op: Op) -> Result<(), OpEnd>
    requires faithful { IsFaithful world.old }
    requires held { IsValueHeld world.old.store.heap value.now }
    ensures faithful { IsFaithful world.new }
    ensures decided { GivesDecision result (monitor_of world.old) (monitor_of world.new)
        (decide value.now (operation_view world.old.names op) (monitor_of world.old)) }
    ensures else_same { OnlyDecides world.old world.new }
    ensures logged { (at : Oid) → value.now ≡ Value.Prox at
        → IsLogged result (entry_in world.old at op) world.old.trail world.new.trail }
    ensures plain { IsPlain value.now → (result ≡ Ok tt) × (world.new ≡ world.old) }
    ensures stopped { result ≡ Err OpEnd.StopCells → world.new ≡ world.old }
    ensures kept { (at : Oid) → value.now ≡ Value.Prox at
        → IsAskedBy result (row_in world.old.checkers
        (class_at world.old.store.heap at) op) world.old.running.interaction world.new.running.interaction }
{
    match value {
        Value::Rock(_) | Value::Ref(_) => Ok(()),
        Value::Prox(at) => cross_proxy(alloc, world, *at, op),
    }
}

/// Decides on an operation through a proxy. One that is allowed by what is known at once is let pass; else the
/// principals are asked.
fn cross_proxy(alloc: Global, world: &mut World, at: Oid, op: Op) -> Result<(), OpEnd>
    requires faithful { IsFaithful world.old }
    requires held { IsHeld world.old.store.heap at }
    ensures faithful { IsFaithful world.new }
    ensures decided { GivesDecision result (monitor_of world.old) (monitor_of world.new)
        (decide (Value.Prox at) (operation_view world.old.names op) (monitor_of world.old)) }
    ensures else_same { OnlyDecides world.old world.new }
    ensures logged { IsLogged result (entry_in world.old at op) world.old.trail world.new.trail }
    ensures stopped { result ≡ Err OpEnd.StopCells → world.new ≡ world.old }
    ensures kept { IsAskedBy result (row_in world.old.checkers
        (class_at world.old.store.heap at) op) world.old.running.interaction world.new.running.interaction }
{
    let class = world.store.tag(at);
    let row = world.checkers.row(class, op);
    if is_known(row, &world.running.interaction) {
        return pass(world, at, op, class, row);
    }
    ask(alloc, world, at, op, class, row)
}

/// Whether an operation with this row is allowed, and it is known with nobody asked: everybody may do it, or the answer
/// that was given last says so.
#[inline(always)]
fn is_known(row: Row, interaction: &Interaction) -> bool
    ensures verdict { IsTrue result → Verdict.Allowed row ≡ verdict_in interaction.now row }
    ensures asked { IsTrue result → IsAsked row interaction.now interaction.now }
{
    match row {
        Row::Public | Row::Default => true,
        Row::Needs(permission) => is_last_yes(interaction, permission),
        Row::Forbidden => false,
    }
}

/// Whether the answer that was given last is that all principals have the permission.
#[inline(always)]
fn is_last_yes(interaction: &Interaction, permission: Perm) -> bool
    ensures has { IsTrue result → has_in interaction.now permission ≡ true }
    ensures asked { IsTrue result → IsDecided permission interaction.now interaction.now }
{
    match interaction.last_answer(permission) {
        Some(answer) => answer,
        None => false,
    }
}

/// Lets an operation pass that is known to be allowed.
#[inline(always)]
fn pass(world: &mut World, at: Oid, op: Op, class: ClassTag, row: Row) -> Result<(), OpEnd>
    requires faithful { IsFaithful world.old }
    requires found { tag_at world.old.store.heap at ≡ Some class }
    requires row_is { row ≡ row_in world.old.checkers class op }
    requires verdict { Verdict.Allowed row ≡ verdict_in world.old.running.interaction row }
    requires asked { IsAsked row world.old.running.interaction world.old.running.interaction }
    ensures faithful { IsFaithful world.new }
    ensures decided { GivesDecision result (monitor_of world.old) (monitor_of world.new)
        (decide (Value.Prox at) (operation_view world.old.names op) (monitor_of world.old)) }
    ensures else_same { OnlyDecides world.old world.new }
    ensures logged { IsLogged result (entry_in world.old at op) world.old.trail world.new.trail }
    ensures stopped { result ≡ Err OpEnd.StopCells → world.new ≡ world.old }
    ensures kept { IsAskedBy result (row_in world.old.checkers
        (class_at world.old.store.heap at) op) world.old.running.interaction world.new.running.interaction }
{
    let entry = Entry {
        session: world.running.session,
        named: is_named(op, &world.names),
        op,
        class,
        verdict: Verdict::Allowed(row),
    };
    match world.trail.push(&mut world.store, entry) {
        Err(StoreFault::Cells) => Err(OpEnd::StopCells),
        Err(StoreFault::Memory) => Err(OpEnd::Memory),
        Ok(()) => Ok(()),
    }
}

/// Asks the principals, and does what they answer.
#[inline(never)]
fn ask(
    alloc: Global,
    world: &mut World,
    at: Oid,
    op: Op,
    class: ClassTag,
    row: Row,
) -> Result<(), OpEnd>
    requires faithful { IsFaithful world.old }
    requires found { tag_at world.old.store.heap at ≡ Some class }
    requires row_is { row ≡ row_in world.old.checkers class op }
    ensures faithful { IsFaithful world.new }
    ensures decided { GivesDecision result (monitor_of world.old) (monitor_of world.new)
        (decide (Value.Prox at) (operation_view world.old.names op) (monitor_of world.old)) }
    ensures else_same { OnlyDecides world.old world.new }
    ensures logged { IsLogged result (entry_in world.old at op) world.old.trail world.new.trail }
    ensures stopped { result ≡ Err OpEnd.StopCells → world.new ≡ world.old }
    ensures kept { IsAskedBy result (row_in world.old.checkers
        (class_at world.old.store.heap at) op) world.old.running.interaction world.new.running.interaction }
{
    if world.store.used() == world.store.limit() {
        return Err(OpEnd::StopCells);
    }
    let verdict = verdict_of(row, &mut world.running.interaction);
    let refusal = refusal_of(
        alloc,
        &mut world.store,
        verdict,
        op,
        &world.decl,
        &world.names,
    )?;
    let entry = Entry {
        session: world.running.session,
        named: is_named(op, &world.names),
        op,
        class,
        verdict,
    };
    match world.trail.push(&mut world.store, entry) {
        Err(StoreFault::Cells) => return Err(OpEnd::StopCells),
        Err(StoreFault::Memory) => return Err(OpEnd::Memory),
        Ok(()) => (),
    }
    match refusal {
        None => Ok(()),
        Some(raised) => Err(OpEnd::Raised(raised)),
    }
}

/// The verdict by a row on the principals of an interaction.
fn verdict_of(row: Row, interaction: &mut Interaction) -> Verdict
    ensures verdict { result ≡ verdict_in interaction.old row }
    ensures asked { IsAsked row interaction.old interaction.new }
{
    match row {
        Row::Public | Row::Default => Verdict::Allowed(row),
        Row::Needs(permission) => {
            if interaction.decide(permission) {
                Verdict::Allowed(row)
            } else {
                Verdict::Denied(permission)
            }
        }
        Row::Forbidden => Verdict::Forbidden,
    }
}

/// The exception that stands in place of an operation, None where its verdict allows it. The text that tells a
/// forbidden name is a new one, whose bytes the store counts.
///
/// # Errors
/// `Memory` where a growth was refused, or the store holds no more bytes of such texts.
fn refusal_of(
    alloc: Global,
    store: &mut Store,
    verdict: Verdict,
    op: Op,
    decl: &Decl,
    names: &Names,
) -> Result<Option<Raised>, Memory>
    requires { IsVerdictDeclared decl.now.permissions verdict }
    ensures refusal { IfOk result (λ r. r ≡ refusal (name_text names.now (op_name op))
        (verdict_view decl.now.permissions verdict)) }
    ensures same { store.new ≡ store.old }
{
    Ok(match verdict {
        Verdict::Allowed(_) => None,
        Verdict::Denied(permission) => Some(Raised {
            kind: Kind::Unauthorized,
            text: decl.permissions()[permission.0].copy()?,
        }),
        Verdict::Forbidden => Some(Raised {
            kind: Kind::ForbiddenAttribute,
            text: held_text(alloc, store, name_text(op, names))?,
        }),
    })
}

/// A new text, whose bytes the store counts.
///
/// # Errors
/// `Memory` where a growth was refused, or the store holds no more bytes of such texts.
fn held_text(alloc: Global, store: &mut Store, word: &str) -> Result<Text, Memory>
    ensures text { IfOk result (λ t. t ≡ chars word.now) }
    ensures same { store.new ≡ store.old }
{
    let text = Text::new(alloc, word)?;
    store.hold_text(bytes_of(&text))?;
    Ok(text)
}

/// The word of the name that is read or set; empty where it is no name of the program.
fn name_text(op: Op, names: &Names) -> &str
    ensures { chars result.now ≡ name_text names.now (op_name op) }
{
    match op {
        Op::Get(name) => word_of(names, name),
        Op::Set(name) => word_of(names, name),
    }
}

/// Whether the name that is read or set is one of the program's.
#[inline(always)]
fn is_named(op: Op, names: &Names) -> bool
    ensures { result ≡ is_named names.now op }
{
    match op {
        Op::Get(name) => name.0 < names.len(),
        Op::Set(name) => name.0 < names.len(),
    }
}
