//! The pieces into which a part cuts a text.

ghost use Rattle.std.specs.Prelude.{◌≡◌, ◌+◌, ◌-◌, ◌<◌, ◌^◌, ◌∷◌, [], List, chars, length, IfOk, IfSome, MatchOption};
ghost use Rattle.std.specs.Str.{IsUtf8};
ghost use Rattle.std.specs.Str.Pattern.{FindsText, MatchBeginsAt};
ghost use Rattle.rp_store.specs.Heap.{Owned};
ghost use Rattle.rp_store.specs.Kept.{IsSound};
ghost use Rattle.rp_ops.specs.Outcome.{Meets, State};
ghost use Rattle.rp_methods.specs.Lists.{number};
ghost use Rattle.rp_methods.specs.Texts.{count, count_text, pieces};

use crate::fault::Fault;
use crate::text_tests::{is_some, number, text_of};
use rp_base::{OpEnd, Text, Value};
use std::alloc::Global;

/// What stands before the first place of a part in a text, and what stands behind it.
pub(crate) fn cut<'a>(text: &'a str, part: &str) -> Option<(&'a str, &'a str)>
    requires { 0 < length (chars part.now) }
    ensures cut { MatchOption result (pieces (chars part.now) (chars text.now) ≡ chars text.now ∷ [])
        (λ p. pieces (chars part.now) (chars text.now) ≡ chars p.0.now ∷ pieces (chars part.now) (chars p.1.now)) }
    ensures shorter { IfSome result (λ p. length p.0.now + length p.1.now < length text.now) }
    ensures utf8 { IfSome result (λ p. IsUtf8 p.0.now × IsUtf8 p.1.now) }
{
    match text.find(part) {
        Some(at) => Some(cut_at(text, part, at)),
        None => None,
    }
}

/// The same, where the first place of the part is known.
fn cut_at<'a>(text: &'a str, part: &str, at: usize) -> (&'a str, &'a str)
    requires part { 0 < length (chars part.now) }
    requires found { MatchBeginsAt (FindsText part.now) text.now at }
    ensures cut { pieces (chars part.now) (chars text.now)
        ≡ chars result.0.now ∷ pieces (chars part.now) (chars result.1.now) }
    ensures shorter { length result.0.now + length result.1.now < length text.now }
    ensures utf8 { IsUtf8 result.0.now × IsUtf8 result.1.now }
{
    let (before, rest) = text.split_at(at);
    let (_, after) = rest.split_at(part.len());
    (before, after)
}

/// `t.count(u)`: how often a text stands in another, at places behind one another.
pub(crate) fn count(alloc: Global, text: &Text, args: &[Value]) -> Result<Value, OpEnd>
    ensures plain { (s : State) → Meets result s (count text.now args.now s) }
    ensures sound { (heap : List Owned) → IfOk result (λ v. IsSound heap v) }
{
    let [part] = args else {
        return Err(Fault::Arguments.end(alloc));
    };
    match text_of(part) {
        Some(part) => count_text(alloc, text, part),
        None => Err(Fault::Argument.end(alloc)),
    }
}

fn count_text(alloc: Global, text: &Text, part: &Text) -> Result<Value, OpEnd>
    ensures plain { (s : State) → Meets result s (count_text text.now part.now s) }
    ensures sound { (heap : List Owned) → IfOk result (λ v. IsSound heap v) }
{
    if !is_some(part) {
        return Err(Fault::Empty.end(alloc));
    }
    Ok(count_in(text, part))
}

/// How often a text stands in another, at places behind one another, as a number.
fn count_in(text: &Text, part: &Text) -> Value
    requires { 0 < length part.now }
    ensures { result ≡ number (length (pieces part.now text.now) - 1) }
{
    number(count_of(text.as_str(), part.as_str()))
}

/// How often a part stands in a text, at places behind one another.
fn count_of(text: &str, part: &str) -> usize
    requires { 0 < length (chars part.now) }
    ensures count { result ≡ length (pieces (chars part.now) (chars text.now)) - 1 }
    ensures small { result < 2 ^ 63 }
{
    let mut count = 0;
    let mut rest = text;
    while let Some((_, after)) = cut(rest, part) {
        count += 1;
        rest = after;
    }
    count
}
