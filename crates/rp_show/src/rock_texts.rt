//! Rocks as they are shown inside a container, written into a growing text.
#![tactic(auto, using(rp_store::proofs::CallerLemmas::goes_on))]

ghost use Rattle.std.specs.Prelude.{◌≡◌, ◌<◌, ◌++◌, ◌∷◌, [], chars, drop, encode_utf8_all, if◌then◌else◌, length, take};
ghost use Rattle.std.specs.Prelude.{IfOk, OnOk};
ghost use Rattle.std.specs.Char.{digit_char};
ghost use Rattle.std.specs.Fmt.{signed_decimal};
ghost use Rattle.std.specs.List.{position_or_len};
ghost use Rattle.std.specs.Str.{IsUtf8};
ghost use Rattle.rp_base.specs.Kind.{kind_name};
ghost use Rattle.rp_show.specs.EscapeSteps.{has_escape};
ghost use Rattle.rp_show.specs.Shown.{escaped, escaped_all, exception_call, hex_escape, holds, is_control, quote_of};
ghost use Rattle.rp_show.specs.Shown.{quoted, shown_inside};

use itoa::Buffer;
use rp_base::{Kind, Memory, Rock, Text};
use std::alloc::Global;
use std::marker::Model;

/// A growing text, seen as the list of its characters.
#[derive(Drop)]
pub(crate) struct Line {
    text: String,
}

impl Model for Line {
    ghost use Rattle.std.specs.Prelude.{ℕ, List, chars, string_bytes};

    ghost Value = { List ℕ };

    ghost view = { λ t. chars (string_bytes t.text) };
}

/// A rock as it is shown inside a container (Python Standard Library, repr).
///
/// # Errors
/// `Memory` where a growth was refused.
pub fn shown_inside(alloc: Global, rock: &Rock) -> Result<Text, Memory>
    ensures { IfOk result (λ t. t ≡ shown_inside rock.now) }
{
    let mut line = Line::new(alloc);
    line.add_rock(rock)?;
    line.into_text(alloc)
}

impl Line {
    pub(crate) fn new(alloc: Global) -> Line
        ensures { result ≡ [] }
    {
        Line {
            text: String::new(alloc),
        }
    }

    /// The text, handed on.
    pub(crate) fn into_text(self, alloc: Global) -> Result<Text, Memory>
        ensures { IfOk result (λ t. t ≡ self) }
    {
        Text::from_string(alloc, self.text)
    }

    /// The number of bytes.
    #[inline(always)]
    pub(crate) fn len(&self) -> usize
        ensures { result ≡ length (encode_utf8_all self.now) }
    {
        self.text.as_str().len()
    }

    pub(crate) fn add(&mut self, text: &str) -> Result<(), Memory>
        ensures { OnOk result (self.new ≡ self.old ++ chars text.now) }
    {
        self.text.push_str(text)?;
        Ok(())
    }

    #[inline(always)]
    fn push(&mut self, c: char) -> Result<(), Memory>
        ensures { OnOk result (self.new ≡ self.old ++ c ∷ []) }
    {
        self.text.push(c)?;
        Ok(())
    }

    #[tactic(auto, using(crate::proofs::Escapes::names))]
    pub(crate) fn add_rock(&mut self, rock: &Rock) -> Result<(), Memory>
        ensures { OnOk result (self.new ≡ self.old ++ shown_inside rock.now) }
    {
        match rock {
            Rock::Nil => self.add("None"),
            Rock::Truth(true) => self.add("True"),
            Rock::Truth(false) => self.add("False"),
            Rock::Int(n) => self.add_number(*n),
            Rock::Text(text) => self.add_quoted(text.as_str()),
            Rock::Exc(kind, text) => self.add_exception(*kind, text.as_str()),
            Rock::Kind(kind) => self.add_around("<class '", kind.as_str(), "'>"),
            Rock::Native(native) => self.add_around("<function ", native.as_str(), ">"),
        }
    }

    fn add_number(&mut self, n: i64) -> Result<(), Memory>
        ensures { OnOk result (self.new ≡ self.old ++ signed_decimal n) }
    {
        self.add(Buffer::new().format(n))
    }

    fn add_around(&mut self, before: &str, text: &str, behind: &str) -> Result<(), Memory>
        ensures { OnOk result (self.new ≡ self.old ++ (chars before.now ++ chars text.now ++ chars behind.now)) }
    {
        self.add(before)?;
        self.add(text)?;
        self.add(behind)
    }

    /// An exception value, as a call that makes it.
    #[tactic(auto, using(crate::proofs::Escapes::names))]
    fn add_exception(&mut self, kind: Kind, text: &str) -> Result<(), Memory>
        ensures { OnOk result (self.new ≡ self.old ++ exception_call (kind_name kind) (chars text.now)) }
    {
        self.add(kind.as_str())?;
        if text.is_empty() {
            return self.add("()");
        }
        self.add("(")?;
        self.add_quoted(text)?;
        self.add(")")
    }

    fn add_quoted(&mut self, text: &str) -> Result<(), Memory>
        ensures { OnOk result (self.new ≡ self.old ++ quoted (chars text.now)) }
    {
        let quote = quote_of(text);
        self.push(quote)?;
        self.add_escaped(quote, text)?;
        self.push(quote)
    }

    /// Adds a text with its escapes, run by run, each up to the next character that has one.
    fn add_escaped(&mut self, quote: char, text: &str) -> Result<(), Memory>
        requires { quote < 128 }
        ensures { OnOk result (self.new ≡ self.old ++ escaped_all quote (chars text.now)) }
    {
        let mut rest = text;
        'runs: while !rest.is_empty() {
            let (run, behind) = split_plain(quote, rest);
            self.add(run)?;
            self.escape_first(quote, behind)?;
            rest = behind_first(behind);
        }
        Ok(())
    }

    /// Adds the first character, where there is one, by its escape.
    #[inline(always)]
    fn escape_first(&mut self, quote: char, text: &str) -> Result<(), Memory>
        ensures { OnOk result (self.new ≡ self.old ++ escaped_all quote (take 1 (chars text.now))) }
    {
        match text.chars().next() {
            Some(c) => self.escape(quote, c),
            None => Ok(()),
        }
    }

    #[tactic(auto)]
    fn escape(&mut self, quote: char, c: char) -> Result<(), Memory>
        ensures { OnOk result (self.new ≡ self.old ++ escaped quote c) }
    {
        if c == '\\' || c == quote {
            self.push('\\')?;
            return self.push(c);
        }
        match c {
            '\n' => self.add("\\n"),
            '\r' => self.add("\\r"),
            '\t' => self.add("\\t"),
            _ => self.add_plain(c),
        }
    }

    /// A character without an escape of its own; a control character by its number.
    fn add_plain(&mut self, c: char) -> Result<(), Memory>
        ensures { OnOk result (self.new ≡ self.old ++ (if is_control c then hex_escape c else c ∷ [])) }
    {
        if is_control(c) {
            return self.add_hex(c);
        }
        self.push(c)
    }

    #[tactic(auto)]
    fn add_hex(&mut self, c: char) -> Result<(), Memory>
        requires { c < 256 }
        ensures { OnOk result (self.new ≡ self.old ++ hex_escape c) }
    {
        let code = c as u32;
        self.add("\\x")?;
        self.push(hex_digit(code / 16))?;
        self.push(hex_digit(code % 16))
    }
}

#[inline(always)]
fn is_control(c: char) -> bool
    ensures { result ≡ is_control c }
{
    (c as u32) < 32 || c as u32 == 127
}

#[inline(always)]
fn hex_digit(n: u32) -> char
    requires { n < 16 }
    ensures { result ≡ digit_char n }
{
    match char::from_digit(n, 16) {
        Some(digit) => digit,
        None => '0',
    }
}

/// The front of a text up to the first character that has an escape, and what stands from there.
#[inline(always)]
fn split_plain(quote: char, text: &str) -> (&str, &str)
    requires { quote < 128 }
    ensures text { chars text.now ≡ chars result.0.now ++ chars result.1.now }
    ensures plain { escaped_all quote (chars result.0.now) ≡ chars result.0.now }
    ensures run { IsUtf8 result.0.now }
    ensures rest { IsUtf8 result.1.now }
{
    text.split_at(plain_length(quote, text))
}

/// How many bytes stand before the first character that has an escape.
fn plain_length(quote: char, text: &str) -> usize
    ensures { result ≡ position_or_len (has_escape quote) text.now }
{
    let bytes = text.as_bytes();
    match bytes.iter().position(|byte| has_escape(quote, *byte)) {
        Some(at) => at,
        None => bytes.len(),
    }
}

/// Whether a byte is a character that has an escape.
#[inline(always)]
fn has_escape(quote: char, byte: u8) -> bool
    ensures { result ≡ has_escape quote byte }
{
    byte < 32 || byte == 127 || byte == b'\\' || byte as char == quote
}

/// What stands behind the first character.
#[inline(always)]
fn behind_first(text: &str) -> &str
    ensures { chars result.now ≡ drop 1 (chars text.now) }
{
    let mut letters = text.chars();
    match letters.next() {
        Some(_) => letters.as_str(),
        None => text,
    }
}

/// The quote that a text is shown in: ' but where it holds that and no ".
fn quote_of(text: &str) -> char
    ensures quote { result ≡ quote_of (chars text.now) }
    ensures ascii { result < 128 }
{
    if holds(text, '\'') && !holds(text, '"') {
        '"'
    } else {
        '\''
    }
}

fn holds(text: &str, c: char) -> bool
    requires { c < 128 }
    ensures { result ≡ holds c (chars text.now) }
{
    text.contains(c)
}
