//! Text literals.

ghost use Rattle.std.specs.Prelude.{◌≡◌, ◌<◌, ◌+◌, ◌^◌, ◌==◌, [], List, ℕ, ◌∷◌, chars, drop, length, nat_eq, IfOk};
ghost use Rattle.std.specs.Prelude.{IfSome, MatchOption, Some, None, true, false};
ghost use Rattle.std.specs.List.{starts_with};
ghost use Rattle.std.specs.Str.{IsUtf8};
ghost use Rattle.std.specs.Map.{lookup};
ghost use Rattle.rp_token.specs.Characters.{first};
ghost use Rattle.rp_token.specs.Tokens.{opening};
ghost use Rattle.rp_token.specs.Literal.{literal_behind, plain_escapes, numbered, numbered_escapes};
ghost use Rattle.rp_token.specs.Reading.{LeavesLess, LeavesLines, escape_seen, piece_seen, quotes_seen, reading_seen};

use crate::text::{behind, behind_line_end, first};
use rp_base::{Memory, Text};
use std::alloc::Global;

/// The quotes that open and close a literal: one of a kind, or three.
#[derive(Clone, Copy)]
pub(crate) struct Quotes {
    pub quote: char,
    pub three: bool,
}

/// What a literal is behind its opening quotes.
#[derive(Drop)]
pub(crate) enum Reading<'t> {
    /// Its text, what stands behind its closing quotes, and the line ends in it.
    Closed(Text, &'t str, usize),
    Unclosed,
    /// An escape is bad, behind so many line ends.
    BadEscape(usize),
}

/// What stands at the front within a literal, and what stands behind it.
#[derive(Drop)]
enum Piece<'t> {
    /// The closing quotes.
    Closed(&'t str),
    Unclosed,
    BadEscape,
    /// A character, by itself or by an escape.
    Letter(char, &'t str),
    /// A line end, which stands for LF.
    LineEnd(&'t str),
    /// A backslash and a line end, which stand for nothing.
    Joined(&'t str),
}

impl Quotes {
    /// What stands behind the quotes, where they are at the front.
    pub(crate) fn strip(self, text: &str) -> Option<&str>
        requires { 0 < self.quote }
        ensures meaning { let quotes = quotes_seen self in let cs = chars text.now in
            MatchOption result (starts_with nat_eq cs quotes ≡ false)
            (λ rest. (starts_with nat_eq cs quotes ≡ true) × (chars rest.now ≡ drop (length quotes) cs)) }
        ensures text { IfSome result (λ rest. IsUtf8 rest.now) }
    {
        if first(text) != self.quote {
            return None;
        }
        let second = behind(text);
        if !self.three {
            return Some(second);
        }
        let third = behind(second);
        if first(second) == self.quote && first(third) == self.quote {
            Some(behind(third))
        } else {
            None
        }
    }

    /// The text that a literal stands for, read up to its closing quotes.
    pub(crate) fn read<'t>(self, alloc: Global, text: &'t str) -> Result<Reading<'t>, Memory>
        requires quoted { 0 < self.quote }
        requires counted { length (chars text.now) < 2 ^ 64 }
        ensures meaning { IfOk result (λ r. reading_seen r ≡ literal_behind (quotes_seen self) 0 (chars text.now)) }
        ensures rest { IfOk result (LeavesLines (length (chars text.now))) }
    {
        let mut value = String::new(alloc);
        let mut lines = 0usize;
        let mut rest = text;
        'pieces: loop {
            match self.piece(rest) {
                Piece::Closed(next) => {
                    value.shrink_to_fit();
                    return Ok(Reading::Closed(Text::from_string(alloc, value)?, next, lines));
                }
                Piece::Unclosed => return Ok(Reading::Unclosed),
                Piece::BadEscape => return Ok(Reading::BadEscape(lines)),
                Piece::Letter(letter, next) => {
                    value.push(letter)?;
                    rest = next;
                }
                Piece::LineEnd(next) => {
                    value.push('\n')?;
                    lines += 1;
                    rest = next;
                }
                Piece::Joined(next) => {
                    lines += 1;
                    rest = next;
                }
            }
        }
    }

    fn piece(self, text: &str) -> Piece<'_>
        requires { 0 < self.quote }
        ensures meaning { literal_behind (quotes_seen self) 0 (chars text.now) ≡ piece_seen (quotes_seen self) result }
        ensures rest { LeavesLess (length (chars text.now)) result }
    {
        if text.is_empty() {
            return Piece::Unclosed;
        }
        if let Some(rest) = self.strip(text) {
            return Piece::Closed(rest);
        }
        match first(text) {
            '\\' => escape(behind(text)),
            '\n' | '\r' => {
                if self.three {
                    Piece::LineEnd(behind_line_end(text))
                } else {
                    Piece::Unclosed
                }
            }
            letter => Piece::Letter(letter, behind(text)),
        }
    }
}

/// The quotes at the front of a text, three before one, and what stands behind them.
pub(crate) fn open_quotes(text: &str) -> (Quotes, &str)
    requires { 0 < first (chars text.now) }
    ensures quotes { quotes_seen result.0 ≡ opening (chars text.now) }
    ensures rest { chars result.1.now ≡ drop (length (opening (chars text.now))) (chars text.now) }
    ensures text { IsUtf8 result.1.now }
    ensures quoted { 0 < result.0.quote }
{
    let quote = first(text);
    let quotes = Quotes { quote, three: true };
    match quotes.strip(text) {
        Some(rest) => (quotes, rest),
        None => (
            Quotes {
                quote,
                three: false,
            },
            behind(text),
        ),
    }
}

/// What a backslash and the characters behind it stand for.
fn escape(text: &str) -> Piece<'_>
    ensures meaning { (quotes : List ℕ) → escape_seen quotes (chars text.now) ≡ piece_seen quotes result }
    ensures rest { LeavesLess (length (chars text.now)) result }
{
    if text.is_empty() {
        return Piece::Unclosed;
    }
    let letter = first(text);
    let rest = behind(text);
    if letter == '\n' || letter == '\r' {
        return Piece::Joined(behind_line_end(text));
    }
    if let Some(plain) = plain_escape(letter) {
        return Piece::Letter(plain, rest);
    }
    let Some(count) = digits_of_escape(letter) else {
        return Piece::BadEscape;
    };
    match numbered(count, rest) {
        Some((letter, rest)) => Piece::Letter(letter, rest),
        None => Piece::BadEscape,
    }
}

/// The character that a backslash and this one stand for.
fn plain_escape(letter: char) -> Option<char>
    ensures { result ≡ lookup (λ d. d == letter) plain_escapes }
{
    match letter {
        '\\' => Some('\\'),
        '\'' => Some('\''),
        '"' => Some('"'),
        'n' => Some('\n'),
        'r' => Some('\r'),
        't' => Some('\t'),
        'a' => Some('\x07'),
        'b' => Some('\x08'),
        'f' => Some('\x0c'),
        'v' => Some('\x0b'),
        _ => None,
    }
}

/// How many hexadecimal digits follow a backslash and this character.
fn digits_of_escape(letter: char) -> Option<usize>
    ensures { result ≡ lookup (λ d. d == letter) numbered_escapes }
{
    match letter {
        'x' => Some(2),
        'u' => Some(4),
        'U' => Some(8),
        _ => None,
    }
}

/// The character whose number so many hexadecimal digits at the front spell, and what stands behind them.
fn numbered(count: usize, text: &str) -> Option<(char, &str)>
    ensures meaning { let escape = numbered count (chars text.now) in
        MatchOption result (escape ≡ None)
        (λ r. (escape ≡ Some (record { stands_for = r.0 ∷ []; taken = count + 1 }))
        × (chars r.1.now ≡ drop count (chars text.now))) }
    ensures text { IfSome result (λ r. IsUtf8 r.1.now) }
{
    let mut rest = text;
    let mut value = 0u32;
    let mut left = count;
    'digits: while left > 0 {
        let digit = first(rest).to_digit(16)?;
        value = value.checked_mul(16)?.checked_add(digit)?;
        rest = behind(rest);
        left -= 1;
    }
    Some((char::from_u32(value)?, rest))
}
