//! The characters of a text.

ghost use Rattle.std.specs.Prelude.{◌≡◌, ◌==◌, ◌&&◌, ◌||◌, chars, if◌then◌else◌, not, reverse, take_while};
ghost use Rattle.std.specs.List.{list_all};
ghost use Rattle.std.specs.Str.{IsUtf8};
ghost use Rattle.rp_token.specs.Characters.{behind_run, is_blank, is_line_end};
ghost use Rattle.rp_more.specs.Expression.{trimmed};
ghost use Rattle.rp_more.specs.Pieces.{is_brace, is_part};
ghost use Rattle.rp_more.specs.RunSteps.{passes};

use rp_token::text::{behind, first};

pub(crate) fn is_brace(letter: char) -> bool
    ensures { result ≡ is_brace letter }
{
    letter == '{' || letter == '}'
}

/// Whether an expression may have these characters, and they are not blanks alone.
pub(crate) fn is_part(text: &str) -> bool
    ensures { result ≡ is_part (chars text.now) }
{
    is_allowed(text) && !is_blank(text)
}

fn is_allowed(text: &str) -> bool
    ensures { result ≡ list_all (λ c. not ((c == 123) || ((c == 35) || is_line_end c))) (chars text.now) }
{
    text.chars().all(|letter| !(letter == '{'
        || (letter == '#' || (letter == '\n' || letter == '\r'))))
}

fn is_blank(text: &str) -> bool
    ensures { result ≡ list_all is_blank (chars text.now) }
{
    text.chars().all(|letter| letter == ' ' || letter == '\t')
}

/// Which characters a run goes on over.
#[derive(Clone, Copy)]
pub(crate) enum Run {
    /// Spaces and tabs.
    Blanks,
    /// All but `}`.
    Enclosed,
}

impl Run {
    fn passes(self, letter: char) -> bool
        ensures { result ≡ passes self letter }
    {
        match self {
            Run::Blanks => letter == ' ' || letter == '\t',
            Run::Enclosed => letter != '}',
        }
    }

    /// The longest run at the front of the text, and what stands behind it.
    pub(crate) fn split(self, text: &str) -> (&str, &str)
        ensures run { chars result.0.now ≡ take_while (passes self) (chars text.now) }
        ensures rest { chars result.1.now ≡ behind_run (passes self) (chars text.now) }
        ensures text { IsUtf8 result.0.now }
        ensures rest_text { IsUtf8 result.1.now }
    {
        let mut rest = text;
        'run: while !rest.is_empty() && self.passes(first(rest)) {
            rest = behind(rest);
        }
        let (run, _) = text.split_at(text.len() - rest.len());
        (run, rest)
    }
}

/// The text without the blanks at both its ends.
pub(crate) fn trimmed(text: &str) -> &str
    ensures { chars result.now ≡ trimmed (chars text.now) }
{
    let (_, rest) = Run::Blanks.split(text);
    without_last_blanks(rest)
}

fn without_last_blanks(text: &str) -> &str
    ensures { chars result.now ≡ reverse (behind_run is_blank (reverse (chars text.now))) }
{
    let mut rest = text;
    // What stands behind the last character so far that is no blank.
    let mut blanks = text;
    'letters: while !rest.is_empty() {
        let letter = first(rest);
        rest = behind(rest);
        blanks = behind_last(letter, blanks, rest);
    }
    let (kept, _) = text.split_at(text.len() - blanks.len());
    kept
}

/// The rest, and the one before it where the character is a blank.
fn behind_last<'t>(letter: char, before: &'t str, rest: &'t str) -> &'t str
    ensures { result.now ≡ (if is_blank letter then before.now else rest.now) }
{
    if Run::Blanks.passes(letter) {
        before
    } else {
        rest
    }
}
