//! The front of a text.

ghost use Rattle.std.specs.Prelude.{◌≡◌, ◌<◌, ◌==◌, ◌||◌, ◌^◌, chars, drop, length, nat_lt, take_while};
ghost use Rattle.std.specs.List.{list_any};
ghost use Rattle.std.specs.Str.{IsUtf8};
ghost use Rattle.rp_base.specs.Identifier.{is_start};
ghost use Rattle.rp_token.specs.Characters.{behind_run, first, line_end_length};
ghost use Rattle.rp_token.specs.Run.{passes};
ghost use Rattle.rp_token.specs.Tokens.{is_empty_line, joined_lines, without_mark};

use unicode_ident::{is_xid_continue, is_xid_start};

/// Which characters a run goes on over.
#[derive(Clone, Copy)]
pub(crate) enum Run {
    /// Spaces and tabs.
    Blanks,
    /// All but a line end.
    Comment,
    /// What may continue an identifier.
    Word,
    /// The same, and points.
    Number,
}

/// The first character, and NUL where there is none.
pub fn first(text: &str) -> char
    ensures { result ≡ first (chars text.now) }
{
    match text.chars().next() {
        Some(letter) => letter,
        None => '\0',
    }
}

/// What stands behind the first character.
pub fn behind(text: &str) -> &str
    ensures { chars result.now ≡ drop 1 (chars text.now) }
{
    let mut letters = text.chars();
    match letters.next() {
        Some(_) => letters.as_str(),
        None => text,
    }
}

/// What stands behind the line end at the front: CR LF, LF or CR.
pub(crate) fn behind_line_end(text: &str) -> &str
    ensures { chars result.now ≡ drop (line_end_length (chars text.now)) (chars text.now) }
{
    let rest = behind(text);
    match first(text) {
        '\n' => rest,
        '\r' => {
            if first(rest) == '\n' {
                behind(rest)
            } else {
                rest
            }
        }
        _ => text,
    }
}

/// What stands behind a byte order mark, where one is at the front.
pub(crate) fn without_mark(text: &str) -> &str
    ensures { chars result.now ≡ without_mark (chars text.now) }
{
    if first(text) == '\u{feff}' {
        behind(text)
    } else {
        text
    }
}

/// Whether a line end stands at the front.
pub(crate) fn begins_with_line_end(text: &str) -> bool
    ensures { result ≡ nat_lt 0 (line_end_length (chars text.now)) }
{
    matches!(first(text), '\n' | '\r')
}

/// Whether a word may begin with the character.
pub(crate) fn is_start(letter: char) -> bool
    ensures { result ≡ is_start letter }
{
    letter == '_' || is_xid_start(letter)
}

/// Whether the character opens a text literal.
pub(crate) fn is_quote(letter: char) -> bool
    ensures { result ≡ ((letter == 39) || (letter == 34)) }
{
    letter == '\'' || letter == '"'
}

/// Whether the rest of a line has nothing but a comment.
pub(crate) fn is_empty_line(text: &str) -> bool
    ensures { result ≡ is_empty_line (chars text.now) }
{
    text.is_empty() || matches!(first(text), '\n' | '\r' | '#')
}

/// Whether there is a tab among the characters.
pub(crate) fn has_tab(text: &str) -> bool
    ensures { result ≡ list_any (λ c. c == 9) (chars text.now) }
{
    text.chars().any(|letter| letter == '\t')
}

/// The joining line ends before the next token.
pub(crate) fn joined_lines(text: &str) -> usize
    requires { length (chars text.now) < 2 ^ 64 }
    ensures { result ≡ joined_lines 0 (chars text.now) }
{
    let mut lines = 0usize;
    let mut rest = text;
    'blanks: loop {
        match first(rest) {
            ' ' | '\t' => rest = behind(rest),
            '\\' => {
                let next = behind(rest);
                if !begins_with_line_end(next) {
                    return lines;
                }
                lines += 1;
                rest = behind_line_end(next);
            }
            _ => return lines,
        }
    }
}

impl Run {
    fn passes(self, letter: char) -> bool
        ensures { result ≡ passes self letter }
    {
        match self {
            Run::Blanks => letter == ' ' || letter == '\t',
            Run::Comment => letter != '\n' && letter != '\r',
            Run::Word => is_xid_continue(letter),
            Run::Number => letter == '.' || is_xid_continue(letter),
        }
    }

    /// The longest run at the front of the text, and what stands behind it.
    pub(crate) fn split(self, text: &str) -> (&str, &str)
        ensures run { chars result.0.now ≡ take_while (passes self) (chars text.now) }
        ensures rest { chars result.1.now ≡ behind_run (passes self) (chars text.now) }
        ensures text { IsUtf8 result.0.now }
    {
        let mut rest = text;
        'run: while !rest.is_empty() && self.passes(first(rest)) {
            rest = behind(rest);
        }
        let (run, _) = text.split_at(text.len() - rest.len());
        (run, rest)
    }
}
