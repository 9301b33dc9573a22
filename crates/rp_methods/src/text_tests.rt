//! The methods of texts that make no text.

ghost use Rattle.std.specs.Prelude.{◌≡◌, ◌<◌, ◌≤◌, ◌&&◌, ◌^◌, List, chars, encode_utf8_all, length, take};
ghost use Rattle.std.specs.Prelude.{IfOk, IfSome, IsTrue};
ghost use Rattle.std.specs.Str.{IsCharBoundary};
ghost use Rattle.std.specs.List.{list_all};
ghost use Rattle.std.specs.Option.{option_copied};
ghost use Rattle.rp_store.specs.Heap.{Owned};
ghost use Rattle.rp_store.specs.Kept.{IsSound};
ghost use Rattle.rp_ops.specs.Operand.{is_some_element};
ghost use Rattle.rp_ops.specs.Outcome.{Meets, State};
ghost use Rattle.rp_compare.specs.Membership.{begins};
ghost use Rattle.rp_methods.specs.Lists.{number};
ghost use Rattle.rp_methods.specs.Texts.{ends, endswith, find, is_digit, isdigit, letters_of, place_in, place_number};
ghost use Rattle.rp_methods.specs.Texts.{rock_text, startswith, text_in};

use crate::fault::Fault;
use rp_base::{OpEnd, Rock, Text, Value};
use std::alloc::Global;

/// The text that a value is.
#[inline(always)]
pub(crate) fn text_of(value: &Value) -> Option<&Text>
    ensures { option_copied result ≡ text_in value.now }
{
    match value {
        Value::Rock(rock) => rock_text(rock),
        Value::Ref(_) | Value::Prox(_) => None,
    }
}

#[inline(always)]
fn rock_text(rock: &Rock) -> Option<&Text>
    ensures { option_copied result ≡ rock_text rock.now }
{
    match rock {
        Rock::Text(text) => Some(text),
        _ => None,
    }
}

/// The UTF-8 of a text.
#[inline(always)]
pub(crate) fn bytes(text: &Text) -> &str
    ensures { result.now ≡ encode_utf8_all text.now }
{
    text.as_str()
}

/// The UTF-8 of a text that a value is; nothing of another value.
#[inline(always)]
pub(crate) fn bytes_of(value: &Value) -> &str
    ensures { result.now ≡ encode_utf8_all (letters_of value.now) }
{
    match text_of(value) {
        Some(text) => bytes(text),
        None => "",
    }
}

/// Whether a text has a character.
pub(crate) fn is_some(text: &Text) -> bool
    ensures value { result ≡ is_some_element text.now }
    ensures some { IsTrue result → 0 < length text.now }
{
    text.len() != 0
}

/// `t.startswith(u)`.
pub(crate) fn startswith(alloc: Global, text: &Text, args: &[Value]) -> Result<Value, OpEnd>
    ensures plain { (s : State) → Meets result s (startswith text.now args.now s) }
    ensures sound { (heap : List Owned) → IfOk result (λ v. IsSound heap v) }
{
    let [front] = args else {
        return Err(Fault::Arguments.end(alloc));
    };
    match text_of(front) {
        Some(front) => Ok(Value::Rock(Rock::Truth(begins(front, text)))),
        None => Err(Fault::Argument.end(alloc)),
    }
}

fn begins(front: &Text, text: &Text) -> bool
    ensures { result ≡ begins front.now text.now }
{
    text.as_str().starts_with(front.as_str())
}

/// `t.endswith(u)`.
pub(crate) fn endswith(alloc: Global, text: &Text, args: &[Value]) -> Result<Value, OpEnd>
    ensures plain { (s : State) → Meets result s (endswith text.now args.now s) }
    ensures sound { (heap : List Owned) → IfOk result (λ v. IsSound heap v) }
{
    let [end] = args else {
        return Err(Fault::Arguments.end(alloc));
    };
    match text_of(end) {
        Some(end) => Ok(Value::Rock(Rock::Truth(ends(end, text)))),
        None => Err(Fault::Argument.end(alloc)),
    }
}

fn ends(end: &Text, text: &Text) -> bool
    ensures { result ≡ ends end.now text.now }
{
    text.as_str().ends_with(end.as_str())
}

/// `t.find(u)`: the first place at which a text stands, or -1.
pub(crate) fn find(alloc: Global, text: &Text, args: &[Value]) -> Result<Value, OpEnd>
    ensures plain { (s : State) → Meets result s (find text.now args.now s) }
    ensures sound { (heap : List Owned) → IfOk result (λ v. IsSound heap v) }
{
    let [part] = args else {
        return Err(Fault::Arguments.end(alloc));
    };
    match text_of(part) {
        Some(part) => Ok(found_in(text, part)),
        None => Err(Fault::Argument.end(alloc)),
    }
}

/// The first place of a part in a text as a number, which is -1 where there is none.
fn found_in(text: &Text, part: &Text) -> Value
    ensures { result ≡ place_number (place_in part.now text.now) }
{
    match place_in(text.as_str(), part.as_str()) {
        Some(place) => number(place),
        None => Value::Rock(Rock::Int(-1)),
    }
}

/// A length as a number.
pub(crate) fn number(length: usize) -> Value
    requires { length < 2 ^ 63 }
    ensures { result ≡ number length }
{
    Value::Rock(Rock::Int(length as i64))
}

/// The first place of a part in a text, in characters.
fn place_in(text: &str, part: &str) -> Option<usize>
    ensures place { result ≡ place_in (chars part.now) (chars text.now) }
    ensures small { IfSome result (λ place. place < 2 ^ 63) }
{
    match text.find(part) {
        Some(at) => Some(letters_before(text, at)),
        None => None,
    }
}

/// The number of characters before a byte place.
fn letters_before(text: &str, at: usize) -> usize
    requires { IsCharBoundary text.now at }
    ensures count { result ≡ length (chars (take at text.now)) }
    ensures within { result ≤ length text.now }
{
    let (before, _) = text.split_at(at);
    count(before)
}

/// The number of characters.
fn count(text: &str) -> usize
    ensures count { result ≡ length (chars text.now) }
    ensures within { result ≤ length text.now }
{
    text.chars().count()
}

/// `t.isdigit()`: whether a text is one or more ASCII digits.
pub(crate) fn isdigit(alloc: Global, text: &Text, args: &[Value]) -> Result<Value, OpEnd>
    ensures plain { (s : State) → Meets result s (isdigit text.now args.now s) }
    ensures sound { (heap : List Owned) → IfOk result (λ v. IsSound heap v) }
{
    let [] = args else {
        return Err(Fault::Arguments.end(alloc));
    };
    Ok(Value::Rock(Rock::Truth(is_digits(text))))
}

fn is_digits(text: &Text) -> bool
    ensures { result ≡ is_some_element text.now && list_all is_digit text.now }
{
    is_some(text) && are_digits(text.as_str())
}

fn are_digits(text: &str) -> bool
    ensures { result ≡ list_all is_digit (chars text.now) }
{
    text.chars().all(|letter| is_digit(letter))
}

/// Whether a character is an ASCII digit.
fn is_digit(letter: char) -> bool
    ensures { result ≡ is_digit letter }
{
    '0' <= letter && letter <= '9'
}
