//! The methods of texts that make a list of texts.
#![tactic(auto, using(rp_store::proofs::CallerLemmas::goes_on, crate::proofs::NoClasses::no_class))]

ghost use Rattle.std.specs.Prelude.{◌≡◌, ◌<◌, ◌+◌, ◌++◌, ◌∷◌, [], ℕ, chars, encode_utf8_all, length, map, IfNone, IfOk};
ghost use Rattle.std.specs.Prelude.{IfSome, OnOk};
ghost use Rattle.std.specs.List.{concat};
ghost use Rattle.rp_store.specs.Counters.{KeepsCounters};
ghost use Rattle.rp_store.specs.Kept.{AreSound, IsSound};
ghost use Rattle.rp_store.specs.Object as object;
ghost use Rattle.rp_store.specs.Shape.{KeepsShape};
ghost use Rattle.rp_ops.specs.Outcome.{Meets, gives, state_of};
ghost use Rattle.rp_methods.specs.Classes.{AddsNoClass};
ghost use Rattle.rp_methods.specs.Dicts.{next_object, with_added};
ghost use Rattle.rp_methods.specs.Texts.{letters_of, on_text, pieces, split, split_by, text_value, texts_listed, words};

use crate::fault::Fault;
use crate::text_makers::room_in;
use crate::text_pieces::cut;
use crate::text_tests::{bytes_of, is_some, text_of};
use rp_base::{Memory, OpEnd, Rock, Side, Text, Value};
use rp_ops::charge_copies;
use rp_store::{Object, Store};
use std::alloc::Global;

/// `t.split()` and `t.split(u)`: a list of the pieces of a text between blanks, without empty ones, or between the
/// places of another text. It belongs to the side, and costs its cells and those of its texts.
pub(crate) fn split(
    alloc: Global,
    store: &mut Store,
    side: Side,
    text: &Text,
    args: &[Value],
) -> Result<Value, OpEnd>
    ensures plain { (steps : ℕ) → Meets result (state_of store.new steps)
        (split side text.now args.now (state_of store.old steps)) }
    ensures sound { IfOk result (λ v. IsSound store.new.heap v) }
    ensures shape { KeepsShape store.old.heap store.new.heap }
    ensures classes { AddsNoClass store.old.heap store.new.heap }
    ensures counters { KeepsCounters store.old store.new }
{
    match args {
        [] => split_words(alloc, store, side, text),
        [part] => split_value(alloc, store, side, text, part),
        _ => Err(Fault::Arguments.end(alloc)),
    }
}

fn split_value(
    alloc: Global,
    store: &mut Store,
    side: Side,
    text: &Text,
    part: &Value,
) -> Result<Value, OpEnd>
    ensures plain { (steps : ℕ) → Meets result (state_of store.new steps)
        (on_text part.now (state_of store.old steps) (λ u s. split_by side text.now u s)) }
    ensures sound { IfOk result (λ v. IsSound store.new.heap v) }
    ensures shape { KeepsShape store.old.heap store.new.heap }
    ensures classes { AddsNoClass store.old.heap store.new.heap }
    ensures counters { KeepsCounters store.old store.new }
{
    match text_of(part) {
        Some(part) => split_by(alloc, store, side, text, part),
        None => Err(Fault::Argument.end(alloc)),
    }
}

fn split_by(
    alloc: Global,
    store: &mut Store,
    side: Side,
    text: &Text,
    part: &Text,
) -> Result<Value, OpEnd>
    ensures plain { (steps : ℕ) → Meets result (state_of store.new steps)
        (split_by side text.now part.now (state_of store.old steps)) }
    ensures sound { IfOk result (λ v. IsSound store.new.heap v) }
    ensures shape { KeepsShape store.old.heap store.new.heap }
    ensures classes { AddsNoClass store.old.heap store.new.heap }
    ensures counters { KeepsCounters store.old store.new }
{
    if !is_some(part) {
        return Err(Fault::Empty.end(alloc));
    }
    split_some(alloc, store, side, text, part)
}

fn split_some(
    alloc: Global,
    store: &mut Store,
    side: Side,
    text: &Text,
    part: &Text,
) -> Result<Value, OpEnd>
    requires { 0 < length part.now }
    ensures plain { (steps : ℕ) → Meets result (state_of store.new steps)
        (texts_listed side (pieces part.now text.now) (state_of store.old steps)) }
    ensures sound { IfOk result (λ v. IsSound store.new.heap v) }
    ensures shape { KeepsShape store.old.heap store.new.heap }
    ensures classes { AddsNoClass store.old.heap store.new.heap }
    ensures counters { KeepsCounters store.old store.new }
{
    let values = pieces_of(alloc, text.as_str(), part.as_str())?;
    list_texts(store, side, values)
}

fn split_words(alloc: Global, store: &mut Store, side: Side, text: &Text) -> Result<Value, OpEnd>
    ensures plain { (steps : ℕ) → Meets result (state_of store.new steps)
        (texts_listed side (words text.now) (state_of store.old steps)) }
    ensures sound { IfOk result (λ v. IsSound store.new.heap v) }
    ensures shape { KeepsShape store.old.heap store.new.heap }
    ensures classes { AddsNoClass store.old.heap store.new.heap }
    ensures counters { KeepsCounters store.old store.new }
{
    let values = words_of(alloc, text.as_str())?;
    list_texts(store, side, values)
}

/// The pieces of a text between the places of a part.
///
/// # Errors
/// `Memory` where a growth was refused.
fn pieces_of(alloc: Global, text: &str, part: &str) -> Result<Vec<Value>, Memory>
    requires { 0 < length (chars part.now) }
    ensures { IfOk result (λ v. v.items ≡ map text_value (pieces (chars part.now) (chars text.now))) }
{
    let mut all = Vec::new(alloc);
    let mut rest = text;
    while let Some((before, after)) = cut(rest, part) {
        push_text(alloc, &mut all, before)?;
        rest = after;
    }
    push_text(alloc, &mut all, rest)?;
    Ok(all)
}

/// The pieces of a text between blanks that are not empty.
///
/// # Errors
/// `Memory` where a growth was refused.
fn words_of(alloc: Global, text: &str) -> Result<Vec<Value>, Memory>
    ensures { IfOk result (λ v. v.items ≡ map text_value (words (chars text.now))) }
{
    let mut all = Vec::new(alloc);
    let mut walk = text.split_whitespace();
    while let Some(word) = walk.next() {
        push_text(alloc, &mut all, word)?;
    }
    Ok(all)
}

/// Puts a new text last.
#[inline(always)]
fn push_text(alloc: Global, all: &mut Vec<Value>, text: &str) -> Result<(), Memory>
    ensures { OnOk result (all.new.items ≡ all.old.items ++ text_value (chars text.now) ∷ []) }
{
    let text = Text::new(alloc, text)?;
    all.push(Value::Rock(Rock::Text(text)))?;
    Ok(())
}

/// A list of texts of a side, for its cells and a cell for each of their bytes.
fn list_texts(store: &mut Store, side: Side, values: Vec<Value>) -> Result<Value, OpEnd>
    requires { values.items ≡ map text_value (map letters_of values.items) }
    ensures plain { (steps : ℕ) → Meets result (state_of store.new steps)
        (texts_listed side (map letters_of values.items) (state_of store.old steps)) }
    ensures sound { IfOk result (λ v. IsSound store.new.heap v) }
    ensures shape { KeepsShape store.old.heap store.new.heap }
    ensures classes { AddsNoClass store.old.heap store.new.heap }
    ensures counters { KeepsCounters store.old store.new }
{
    let Some(bytes) = bytes_within(values.as_slice(), room_in(store)) else {
        return Err(OpEnd::StopCells);
    };
    charge_copies(store, 1 + values.len() as u64, bytes, 1)?;
    let list = add_list(store, side, values)?;
    Ok(list)
}

/// A list of a side, whose cells are used already.
fn add_list(store: &mut Store, side: Side, values: Vec<Value>) -> Result<Value, Memory>
    requires { AreSound store.old.heap values.items }
    ensures plain { (steps : ℕ) → IfOk result
        (λ v. gives (next_object (state_of store.old steps))
        (with_added side (object.list values.items) (state_of store.old steps)) ≡ gives v (state_of store.new steps)) }
    ensures sound { IfOk result (λ v. IsSound store.new.heap v) }
    ensures shape { KeepsShape store.old.heap store.new.heap }
    ensures classes { AddsNoClass store.old.heap store.new.heap }
    ensures counters { KeepsCounters store.old store.new }
{
    let at = store.add(side, Object::List(values))?;
    Ok(Value::Ref(at))
}

/// The bytes of texts; None where they are more than there is room for.
fn bytes_within(values: &[Value], room: u64) -> Option<u64>
    ensures bytes { IfSome result (λ n. n ≡ length (encode_utf8_all (concat (map letters_of values.now)))) }
    ensures over { IfNone result (room < length (encode_utf8_all (concat (map letters_of values.now)))) }
{
    let mut bytes = 0;
    for value in values {
        let more = bytes_of(value).len() as u64;
        if more > room - bytes {
            return None;
        }
        bytes += more;
    }
    Some(bytes)
}
