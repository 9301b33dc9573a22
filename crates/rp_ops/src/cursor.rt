//! A walk over a value, one element at a time.
#![tactic(auto, using(rp_store::proofs::CallerLemmas::goes_on))]

ghost use Rattle.std.specs.Prelude.{◌≡◌, ◌∷◌, codes, Ok, ◌+◌, ◌<◌, ◌≤◌, ◌^◌, [], List, ℕ, Some, encode_utf8_all};
ghost use Rattle.std.specs.Prelude.{IfNone, IfOk, IfSome, OnErr};
ghost use Rattle.std.specs.Str.{IsCharBoundary};
ghost use Rattle.rp_base.specs.declared.kind.Kind.TheVariants.{TypeError};
ghost use Rattle.rp_store.specs.Counters.{KeepsCounters};
ghost use Rattle.rp_store.specs.Heap.{IsHeld, Names, Owned, content_at};
ghost use Rattle.rp_store.specs.Kept.{IsSound};
ghost use Rattle.rp_store.specs.Object.{dict};
ghost use Rattle.rp_store.specs.Parts.{IsDict};
ghost use Rattle.rp_ops.specs.Numbers.{refused};
ghost use Rattle.rp_ops.specs.Outcome.{Answers, Meets, state_of};
ghost use Rattle.rp_ops.specs.Standing.{letters_left};
ghost use Rattle.rp_ops.specs.Walk.{GivesElements, IsWalkHeld, characters_from, elements_from, keys_from, next_of};
ghost use Rattle.rp_ops.specs.Walk.{object_walk, rock_walk, walk_of, with_cursor};

use crate::ends::step;
use crate::operand::{Elements, elements_at};
use crate::refusal::Refusal;
use crate::sequences::handed;
use crate::walk::{key_at, next_character};
use rp_base::{Meter, Oid, OpEnd, Rock, Text, Value};
use rp_dict::Dict;
use rp_store::{Key, Object, Store};
use std::alloc::Global;
use std::marker::Model;

/// How the place of a walk is kept.
#[derive(Drop)]
pub enum Standing {
    /// Before the element of this index.
    Elements { from: Elements, next: usize },
    /// Before the key of this index, of a dict that had so many.
    Keys { at: Oid, next: usize, size: usize },
    /// Before the character that begins at this byte.
    Letters { text: Text, next: usize },
}

/// Where a walk over a value stands (Python Language Reference, Data model, iterables). It holds no object: what is
/// walked is read from the store each time.
#[derive(Drop)]
pub struct Cursor {
    standing: Standing,
}

impl Model for Cursor {
    ghost use Rattle.rp_ops.specs.Standing.{IsStanding, cursor_of};
    ghost use Rattle.rp_ops.specs.Walk.{Cursor as Place};

    ghost Value = { Place };

    ghost view = { λ c. cursor_of c.standing };

    ghost invariant = { λ c. IsStanding c.standing };
}

/// A walk over a value that has not begun. It takes no step.
///
/// # Errors
/// - `Raised` with `TypeError`, where the value cannot be walked.
/// - `Memory` where a growth was refused.
pub fn walk_of(alloc: Global, store: &Store, value: &Value) -> Result<Cursor, OpEnd>
    requires sound { IsSound store.now.heap value.now }
    ensures plain { Answers result (walk_of store.now.heap value.now) }
    ensures held { IfOk result (λ c. IsWalkHeld store.now.heap c) }
    ensures whole { (steps : ℕ) → GivesElements value.now (state_of store.now steps) }
{
    match value {
        Value::Rock(rock) => rock_walk(alloc, rock),
        Value::Ref(at) => object_walk(alloc, store, *at, false),
        Value::Prox(at) => object_walk(alloc, store, *at, true),
    }
}

fn rock_walk(alloc: Global, rock: &Rock) -> Result<Cursor, OpEnd>
    ensures plain { Answers result (rock_walk rock.now) }
    ensures held { (heap : List Owned) → IfOk result (λ c. IsWalkHeld heap c) }
{
    match rock {
        Rock::Text(text) => text_walk(text),
        Rock::Nil
        | Rock::Truth(_)
        | Rock::Int(_)
        | Rock::Exc(_, _)
        | Rock::Kind(_)
        | Rock::Native(_) => no_walk(alloc),
    }
}

fn text_walk(text: &Text) -> Result<Cursor, OpEnd>
    ensures plain { Answers result (Ok (characters_from text.now)) }
    ensures held { (heap : List Owned) → IfOk result (λ c. IsWalkHeld heap c) }
{
    let _letters = text.as_str();
    let text = text.copy()?;
    let standing = Standing::Letters { text, next: 0 };
    Ok(Cursor { standing })
}

fn object_walk(alloc: Global, store: &Store, at: Oid, lent: bool) -> Result<Cursor, OpEnd>
    requires { IsHeld store.now.heap at }
    ensures plain { Answers result (object_walk store.now.heap lent at) }
    ensures held { IfOk result (λ c. IsWalkHeld store.now.heap c) }
{
    match store.object(at) {
        Object::List(_) => Ok(elements_walk(at, lent)),
        Object::Tuple(_) => Ok(elements_walk(at, lent)),
        Object::Dict(entries) => Ok(keys_walk(at, entries.len())),
        Object::Instance { .. }
        | Object::Class { .. }
        | Object::Function { .. }
        | Object::Method { .. }
        | Object::Scope { .. } => no_walk(alloc),
    }
}

fn elements_walk(at: Oid, lent: bool) -> Cursor
    ensures { result ≡ elements_from lent at 0 }
{
    let from = Elements { at, lent };
    let standing = Standing::Elements { from, next: 0 };
    Cursor { standing }
}

fn keys_walk(at: Oid, size: usize) -> Cursor
    ensures { result ≡ keys_from at 0 size }
{
    let standing = Standing::Keys { at, next: 0, size };
    Cursor { standing }
}

fn no_walk(alloc: Global) -> Result<Cursor, OpEnd>
    ensures plain { Answers result (refused TypeError (codes "iterate")) }
    ensures held { (heap : List Owned) → IfOk result (λ c. IsWalkHeld heap c) }
{
    Err(Refusal::Iterate.end(alloc))
}

impl Cursor {
    /// The next element, None where there is none. An element takes a step, and a character then costs a cell for each
    /// of its bytes. A list is walked as it is now, also where it has grown; what is walked out of a proxy is lent. It
    /// takes constant time, but for a dict out of which keys were taken, in which the place of a key is sought.
    ///
    /// # Errors
    /// - `Raised` with `RuntimeError`, where a dict has another number of keys than at first.
    /// - `StopSteps` where no step is left for the element, `StopCells` where the cells of a character are over the
    ///   limit.
    /// - `Memory` where a growth was refused.
    ///
    /// After each of them, and after None, the walk stands where it stood. The objects are as before.
    #[inline(always)]
    pub fn next(
        &mut self,
        alloc: Global,
        store: &mut Store,
        meter: &mut Meter,
    ) -> Result<Option<Value>, OpEnd>
        requires held { IsWalkHeld store.old.heap self.old }
        ensures plain { Meets (with_cursor self.new result) (state_of store.new meter.new.left)
            (next_of self.old (state_of store.old meter.old.left)) }
        ensures held { IsWalkHeld store.new.heap self.new }
        ensures stays { OnErr result (self.new ≡ self.old) }
        ensures ended { IfOk result (λ found. IfNone found (self.new ≡ self.old)) }
        ensures same { store.new.heap ≡ store.old.heap }
        ensures sound { IfOk result (λ found. IfSome found (λ v. IsSound store.new.heap v)) }
        ensures fewer { meter.new.left ≤ meter.old.left }
        ensures counters { KeepsCounters store.old store.new }
    {
        match &mut self.standing {
            Standing::Elements { from, next } => next_element(store, meter, *from, next),
            Standing::Keys { at, next, size } => key_after(alloc, store, meter, *at, next, *size),
            Standing::Letters { text, next } => next_letter(alloc, store, meter, text, next),
        }
    }
}

/// The element of a list or tuple at the place `next`, handed out plain or through the reference that leads there, and
/// a step; none at the end. The place goes one on where there is one.
///
/// # Errors
/// Want of steps, and of memory; then the place stays.
#[inline(always)]
pub fn next_element(
    store: &Store,
    meter: &mut Meter,
    x: Elements,
    next: &mut usize,
) -> Result<Option<Value>, OpEnd>
    requires held { IsHeld store.now.heap x.at }
    ensures plain { Meets (with_cursor (elements_from x.lent x.at next.new) result) (state_of store.now meter.new.left)
        (next_of (elements_from x.lent x.at next.old) (state_of store.now meter.old.left)) }
    ensures stays { OnErr result (next.new ≡ next.old) }
    ensures ended { IfOk result (λ found. IfNone found (next.new ≡ next.old)) }
    ensures sound { IfOk result (λ found. IfSome found (λ v. IsSound store.now.heap v)) }
    ensures fewer { meter.new.left ≤ meter.old.left }
{
    let elements = elements_at(store, x.at);
    if *next >= elements.len() {
        return Ok(None);
    }
    let value = handed(&elements[*next], x.lent)?;
    step(meter)?;
    *next += 1;
    Ok(Some(value))
}

#[inline(never)]
fn key_after(
    alloc: Global,
    store: &mut Store,
    meter: &mut Meter,
    at: Oid,
    next: &mut usize,
    size: usize,
) -> Result<Option<Value>, OpEnd>
    requires held { IsHeld store.old.heap at }
    requires dict { Names store.old.heap IsDict at }
    ensures plain { Meets (with_cursor (keys_from at next.new size) result) (state_of store.new meter.new.left)
        (next_of (keys_from at next.old size) (state_of store.old meter.old.left)) }
    ensures same { store.new.heap ≡ store.old.heap }
    ensures stays { OnErr result (next.new ≡ next.old) }
    ensures ended { IfOk result (λ found. IfNone found (next.new ≡ next.old)) }
    ensures sound { (heap : List Owned) → IfOk result (λ found. IfSome found (λ v. IsSound heap v)) }
    ensures fewer { meter.new.left ≤ meter.old.left }
    ensures counters { KeepsCounters store.old store.new }
{
    store.seek(at, *next);
    let entries = entries_at(store, at);
    if entries.len() != size {
        return Err(Refusal::Resized.end(alloc));
    }
    if *next >= size {
        return Ok(None);
    }
    let key = key_at(entries, *next)?;
    step(meter)?;
    *next += 1;
    Ok(Some(key))
}

fn entries_at(store: &Store, at: Oid) -> &Dict<Key, (Rock, Value)>
    requires held { IsHeld store.now.heap at }
    requires dict { Names store.now.heap IsDict at }
    ensures { content_at store.now.heap at ≡ Some (dict result.now) }
{
    match store.object(at) {
        Object::Dict(entries) => entries,
        _ => unreachable!(),
    }
}

/// The character of a text that begins at the byte `next`, as a text of its own, and a step and its cells; none at the
/// end of the text. `next` goes to where the character after it begins.
///
/// # Errors
/// Want of steps, of cells and of memory; then `next` stays.
#[inline(never)]
pub fn next_letter(
    alloc: Global,
    store: &mut Store,
    meter: &mut Meter,
    text: &Text,
    next: &mut usize,
) -> Result<Option<Value>, OpEnd>
    requires boundary { IsCharBoundary (encode_utf8_all text.now) next.old }
    ensures plain { Meets (with_cursor (characters_from (letters_left text.now next.new)) result)
        (state_of store.new meter.new.left)
        (next_of (characters_from (letters_left text.now next.old)) (state_of store.old meter.old.left)) }
    ensures boundary { IsCharBoundary (encode_utf8_all text.now) next.new }
    ensures stays { OnErr result (next.new ≡ next.old) }
    ensures ended { IfOk result (λ found. IfNone found (next.new ≡ next.old)) }
    ensures same { store.new.heap ≡ store.old.heap }
    ensures sound { (heap : List Owned) → IfOk result (λ found. IfSome found (λ v. IsSound heap v)) }
    ensures fewer { meter.new.left ≤ meter.old.left }
    ensures counters { KeepsCounters store.old store.new }
{
    let Some((letter, after)) = letter_at(text, *next) else {
        return Ok(None);
    };
    let value = next_character(alloc, store, meter, letter)?;
    *next = after;
    Ok(Some(value))
}

/// The character that begins at a byte of a text, and where the next one begins; None at its end.
fn letter_at(text: &Text, at: usize) -> Option<(char, usize)>
    requires { IsCharBoundary (encode_utf8_all text.now) at }
    ensures letter { IfSome result (λ c. letters_left text.now at ≡ c.0 ∷ letters_left text.now c.1) }
    ensures boundary { IfSome result (λ c. IsCharBoundary (encode_utf8_all text.now) c.1) }
    ensures end { IfNone result (letters_left text.now at ≡ []) }
{
    let text = text.as_str();
    if at >= text.len() {
        return None;
    }
    let letter = text[at..].chars().next()?;
    Some((letter, at + letter.len_utf8()))
}
