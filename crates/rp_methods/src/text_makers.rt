//! The methods of texts that make a text.
#![tactic(auto, using(rp_store::proofs::CallerLemmas::goes_on))]

ghost use Rattle.std.specs.Prelude.{◌≡◌, ◌≤◌, ◌<◌, ◌+◌, ◌++◌, ℕ, List, chars, encode_utf8_all, length, map};
ghost use Rattle.std.specs.Prelude.{string_bytes, IfNone, IfOk, IfSome, OnOk};
ghost use Rattle.rp_store.specs.Counters.{KeepsCounters};
ghost use Rattle.rp_store.specs.Heap.{Owned};
ghost use Rattle.std.specs.Bool.{MatchBool};
ghost use Rattle.std.specs.List.{list_all};
ghost use Rattle.std.specs.Str.{drop_trailing_whitespace, skip_leading_whitespace};
ghost use Rattle.rp_store.specs.Kept.{AreSound, IsSound};
ghost use Rattle.rp_ops.specs.Outcome.{Meets, on_value, state_of};
ghost use Rattle.rp_ops.specs.Walk.{elements};
ghost use Rattle.rp_ops.specs.Binary.{new_text};
ghost use Rattle.rp_methods.specs.Texts.{is_text, join, joined, joined_all, letters_of, on_text, pieces, preceded};
ghost use Rattle.rp_methods.specs.Texts.{replace, replace_text, strip};

use crate::fault::Fault;
use crate::text_pieces::cut;
use crate::text_tests::{bytes, bytes_of, is_some, text_of};
use rp_base::{Memory, Meter, OpEnd, Text, Value};
use rp_ops::{elements, new_text};
use rp_store::Store;
use std::alloc::Global;

/// `t.strip()`: a text without the blanks at both ends, for a cell for each byte.
pub(crate) fn strip(
    alloc: Global,
    store: &mut Store,
    text: &Text,
    args: &[Value],
) -> Result<Value, OpEnd>
    ensures plain { (steps : ℕ) → Meets result (state_of store.new steps)
        (strip text.now args.now (state_of store.old steps)) }
    ensures same { store.new.heap ≡ store.old.heap }
    ensures sound { (heap : List Owned) → IfOk result (λ v. IsSound heap v) }
    ensures counters { KeepsCounters store.old store.new }
{
    let [] = args else {
        return Err(Fault::Arguments.end(alloc));
    };
    new_text(alloc, store, stripped(text.as_str()))
}

/// A text without the blanks at both ends.
fn stripped(text: &str) -> &str
    ensures { chars result.now ≡ drop_trailing_whitespace (skip_leading_whitespace (chars text.now)) }
{
    text.trim()
}

/// `t.join(w)`: the texts that walking a value gives, with the text between each two, for a cell for each byte.
pub(crate) fn join(
    alloc: Global,
    store: &mut Store,
    meter: &mut Meter,
    text: &Text,
    args: &[Value],
) -> Result<Value, OpEnd>
    requires { AreSound store.old.heap args.now }
    ensures plain { Meets result (state_of store.new meter.new.left)
        (join text.now args.now (state_of store.old meter.old.left)) }
    ensures same { store.new.heap ≡ store.old.heap }
    ensures sound { (heap : List Owned) → IfOk result (λ v. IsSound heap v) }
    ensures fewer { meter.new.left ≤ meter.old.left }
    ensures counters { KeepsCounters store.old store.new }
{
    let [w] = args else {
        return Err(Fault::Arguments.end(alloc));
    };
    join_walked(alloc, store, meter, text, w)
}

fn join_walked(
    alloc: Global,
    store: &mut Store,
    meter: &mut Meter,
    text: &Text,
    w: &Value,
) -> Result<Value, OpEnd>
    requires { IsSound store.old.heap w.now }
    ensures plain { Meets result (state_of store.new meter.new.left)
        (on_value (elements w.now (state_of store.old meter.old.left)) (λ vs s. joined_all text.now vs s)) }
    ensures same { store.new.heap ≡ store.old.heap }
    ensures sound { (heap : List Owned) → IfOk result (λ v. IsSound heap v) }
    ensures fewer { meter.new.left ≤ meter.old.left }
    ensures counters { KeepsCounters store.old store.new }
{
    let values = elements(alloc, store, meter, w)?;
    join_all(alloc, store, text, values.as_slice())
}

fn join_all(alloc: Global, store: &mut Store, text: &Text, values: &[Value]) -> Result<Value, OpEnd>
    ensures plain { (steps : ℕ) → Meets result (state_of store.new steps)
        (joined_all text.now values.now (state_of store.old steps)) }
    ensures same { store.new.heap ≡ store.old.heap }
    ensures sound { (heap : List Owned) → IfOk result (λ v. IsSound heap v) }
    ensures counters { KeepsCounters store.old store.new }
{
    if !are_texts(values) {
        return Err(Fault::Argument.end(alloc));
    }
    join_texts(alloc, store, text, values)
}

/// Whether each value is a text.
fn are_texts(values: &[Value]) -> bool
    ensures { result ≡ list_all is_text values.now }
{
    values.iter().all(|value| is_text(value))
}

#[inline(always)]
fn is_text(value: &Value) -> bool
    ensures { result ≡ is_text value.now }
{
    text_of(value).is_some()
}

/// The text of texts, with one between each two.
fn join_texts(
    alloc: Global,
    store: &mut Store,
    text: &Text,
    values: &[Value],
) -> Result<Value, OpEnd>
    ensures plain { (steps : ℕ) → Meets result (state_of store.new steps)
        (new_text (joined text.now (map letters_of values.now)) (state_of store.old steps)) }
    ensures same { store.new.heap ≡ store.old.heap }
    ensures sound { (heap : List Owned) → IfOk result (λ v. IsSound heap v) }
    ensures counters { KeepsCounters store.old store.new }
{
    let room = room_in(store);
    let Some(made) = joined(alloc, text, values, room)? else {
        return Err(OpEnd::StopCells);
    };
    new_text(alloc, store, made.as_str())
}

/// The cells that may still be used.
pub(crate) fn room_in(store: &Store) -> u64
    ensures { store.now.used + result ≡ store.now.limit }
{
    store.limit() - store.used()
}

/// The characters of texts, with a text between each two; None where they have more bytes than there is room for.
///
/// # Errors
/// `Memory` where a growth was refused.
fn joined(
    alloc: Global,
    between: &Text,
    values: &[Value],
    room: u64,
) -> Result<Option<String>, Memory>
    ensures joined { IfOk result (λ r. IfSome r (λ s. string_bytes s
        ≡ encode_utf8_all (joined between.now (map letters_of values.now)))) }
    ensures over { IfOk result (λ r. IfNone r
        (room < length (encode_utf8_all (joined between.now (map letters_of values.now))))) }
{
    let Some((first, others)) = values.split_first() else {
        return Ok(Some(String::new(alloc)));
    };
    let mut all = String::from_str(alloc, bytes_of(first))?;
    if push_others(&mut all, between, others, room)? {
        return Ok(Some(all));
    }
    Ok(None)
}

/// Appends texts, each behind another; false where there come to be more bytes than there is room for.
///
/// # Errors
/// `Memory` where a growth was refused.
fn push_others(
    all: &mut String,
    between: &Text,
    others: &[Value],
    room: u64,
) -> Result<bool, Memory>
    ensures { IfOk result (λ all_put. MatchBool all_put (string_bytes all.new
        ≡ string_bytes all.old ++ encode_utf8_all (preceded between.now (map letters_of others.now)))
        (room < length (string_bytes all.old ++ encode_utf8_all (preceded between.now (map letters_of others.now))))) }
{
    for value in others {
        push_next(all, between, value)?;
        if all.as_str().len() as u64 > room {
            return Ok(false);
        }
    }
    Ok(true)
}

/// Appends the characters of a text, and then those of another, none of another value.
///
/// # Errors
/// `Memory` where a growth was refused.
#[inline(always)]
fn push_next(all: &mut String, between: &Text, value: &Value) -> Result<(), Memory>
    ensures { OnOk result (string_bytes all.new
        ≡ string_bytes all.old ++ encode_utf8_all (between.now ++ letters_of value.now)) }
{
    all.push_str(bytes(between))?;
    all.push_str(bytes_of(value))?;
    Ok(())
}

/// `t.replace(a, b)`: a text with one part in place of another, at places behind one another, for a cell for each byte.
pub(crate) fn replace(
    alloc: Global,
    store: &mut Store,
    text: &Text,
    args: &[Value],
) -> Result<Value, OpEnd>
    ensures plain { (steps : ℕ) → Meets result (state_of store.new steps)
        (replace text.now args.now (state_of store.old steps)) }
    ensures same { store.new.heap ≡ store.old.heap }
    ensures sound { (heap : List Owned) → IfOk result (λ v. IsSound heap v) }
    ensures counters { KeepsCounters store.old store.new }
{
    let [from, to] = args else {
        return Err(Fault::Arguments.end(alloc));
    };
    replace_values(alloc, store, text, from, to)
}

fn replace_values(
    alloc: Global,
    store: &mut Store,
    text: &Text,
    from: &Value,
    to: &Value,
) -> Result<Value, OpEnd>
    ensures plain { (steps : ℕ) → Meets result (state_of store.new steps)
        (on_text from.now (state_of store.old steps) (λ a s. on_text to.now s (λ b s. replace_text text.now a b s))) }
    ensures same { store.new.heap ≡ store.old.heap }
    ensures sound { (heap : List Owned) → IfOk result (λ v. IsSound heap v) }
    ensures counters { KeepsCounters store.old store.new }
{
    let Some(from) = text_of(from) else {
        return Err(Fault::Argument.end(alloc));
    };
    let Some(to) = text_of(to) else {
        return Err(Fault::Argument.end(alloc));
    };
    replace_text(alloc, store, text, from, to)
}

fn replace_text(
    alloc: Global,
    store: &mut Store,
    text: &Text,
    from: &Text,
    to: &Text,
) -> Result<Value, OpEnd>
    ensures plain { (steps : ℕ) → Meets result (state_of store.new steps)
        (replace_text text.now from.now to.now (state_of store.old steps)) }
    ensures same { store.new.heap ≡ store.old.heap }
    ensures sound { (heap : List Owned) → IfOk result (λ v. IsSound heap v) }
    ensures counters { KeepsCounters store.old store.new }
{
    if !is_some(from) {
        return Err(Fault::Empty.end(alloc));
    }
    replace_some(alloc, store, text, from, to)
}

fn replace_some(
    alloc: Global,
    store: &mut Store,
    text: &Text,
    from: &Text,
    to: &Text,
) -> Result<Value, OpEnd>
    requires { 0 < length from.now }
    ensures plain { (steps : ℕ) → Meets result (state_of store.new steps)
        (new_text (joined to.now (pieces from.now text.now)) (state_of store.old steps)) }
    ensures same { store.new.heap ≡ store.old.heap }
    ensures sound { (heap : List Owned) → IfOk result (λ v. IsSound heap v) }
    ensures counters { KeepsCounters store.old store.new }
{
    let room = room_in(store);
    let Some(made) = replaced(alloc, text.as_str(), from.as_str(), to.as_str(), room)? else {
        return Err(OpEnd::StopCells);
    };
    new_text(alloc, store, made.as_str())
}

/// The characters of a text with one part in place of another; None where they have more bytes than there is room for.
///
/// # Errors
/// `Memory` where a growth was refused.
fn replaced(
    alloc: Global,
    text: &str,
    from: &str,
    to: &str,
    room: u64,
) -> Result<Option<String>, Memory>
    requires { 0 < length (chars from.now) }
    ensures replaced { IfOk result (λ r. IfSome r (λ s. string_bytes s
        ≡ encode_utf8_all (joined (chars to.now) (pieces (chars from.now) (chars text.now))))) }
    ensures over { IfOk result (λ r. IfNone r
        (room < length (encode_utf8_all (joined (chars to.now) (pieces (chars from.now) (chars text.now)))))) }
{
    let mut all = String::new(alloc);
    let mut rest = text;
    while let Some((before, after)) = cut(rest, from) {
        push_both(&mut all, before, to)?;
        if all.as_str().len() as u64 > room {
            return Ok(None);
        }
        rest = after;
    }
    all.push_str(rest)?;
    Ok(Some(all))
}

/// Appends two texts.
///
/// # Errors
/// `Memory` where a growth was refused.
fn push_both(all: &mut String, first: &str, second: &str) -> Result<(), Memory>
    ensures { OnOk result (string_bytes all.new ≡ string_bytes all.old ++ (first.now ++ second.now)) }
{
    all.push_str(first)?;
    all.push_str(second)?;
    Ok(())
}
