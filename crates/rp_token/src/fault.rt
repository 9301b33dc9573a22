//! Why a text has no tokens.

ghost use Rattle.std.specs.Prelude.{◌≡◌};
ghost use Rattle.rp_token.specs.declared.fault.TokenFault.TheVariants.{Memory as OutOfMemory};

use rp_base::{Line, Memory};

/// Why a text has no tokens: the first fault from the left, with its line.
#[derive(Clone, Copy, Debug, PartialEq, Eq)]
pub enum TokenFault {
    /// A tab among the blanks at the front of a logical line.
    Tab(Line),
    /// A line ends blocks and its column is that of no open one.
    Dedent(Line),
    /// A character that begins no token, a backslash that joins no lines, or a word that is no name.
    BadChar(Line),
    /// A text literal, from the line where it begins, or a bracket that is not closed.
    Unclosed(Line),
    /// A word at a digit that spells no number from 0 to 9223372036854775807.
    BadNumber(Line),
    /// A backslash in a text literal that begins no escape.
    BadEscape(Line),
    /// More than 200 brackets are open.
    Deep(Line),
    /// A growth was refused.
    Memory,
}

impl From<Memory> for TokenFault {
    ghost from_gives = { λ _ e. e ≡ OutOfMemory };

    fn from(_: Memory) -> Self {
        TokenFault::Memory
    }
}
