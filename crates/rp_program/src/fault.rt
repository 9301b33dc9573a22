//! Why bytes are no program, and the words that tell it.

ghost use Rattle.std.specs.Prelude.{◌≡◌, ◌++◌, true, OnOk};
ghost use Rattle.std.specs.Char.{is_ascii};
ghost use Rattle.std.specs.List.{list_all};
ghost use Rattle.rp_program.specs.Fault.{at_place, fault_text, token_fault_text};

use rp_base::{Line, Memory, Printed, add_ascii};
use rp_more::MoreFault;
use rp_parse::ParseFault;
use rp_token::TokenFault;
use std::alloc::Global;

/// Why bytes are no program.
#[derive(Clone, Copy, Debug, PartialEq, Eq)]
pub enum ProgramFault {
    /// The bytes are no UTF-8; so many at the front are, and no more.
    NotUtf8(usize),
    /// The text has no tokens, for its first fault. A want of memory is `Memory`.
    Token(TokenFault),
    /// The text of an f-literal is wrong, on this line first (PEP 498): a single `}`, or a `{` behind which no
    /// expression and `}` come.
    Format(Line),
    /// The tokens of the text, with f-literals and sets written out, spell no tree of height at most 200. The line is
    /// that of the last place at which a statement could begin: what stands before it can be ended to a whole program,
    /// and no longer front can.
    Syntax(Line),
    /// A growth was refused.
    Memory,
}

impl From<TokenFault> for ProgramFault {
    ghost use Rattle.std.specs.Prelude.{◌≡◌};
    ghost use Rattle.rp_program.specs.Fault.{from_token};

    ghost from_gives = { λ fault given. given ≡ from_token fault };

    fn from(fault: TokenFault) -> Self {
        match fault {
            TokenFault::Memory => ProgramFault::Memory,
            _ => ProgramFault::Token(fault),
        }
    }
}

impl From<MoreFault> for ProgramFault {
    ghost use Rattle.std.specs.Prelude.{◌≡◌};
    ghost use Rattle.rp_program.specs.Fault.{from_more};

    ghost from_gives = { λ fault given. given ≡ from_more fault };

    fn from(fault: MoreFault) -> Self {
        match fault {
            MoreFault::Format(line) => ProgramFault::Format(line),
            MoreFault::Memory => ProgramFault::Memory,
        }
    }
}

impl From<ParseFault> for ProgramFault {
    ghost use Rattle.std.specs.Prelude.{◌≡◌};
    ghost use Rattle.rp_program.specs.Fault.{from_parse};

    ghost from_gives = { λ fault given. given ≡ from_parse fault };

    fn from(fault: ParseFault) -> Self {
        match fault {
            ParseFault::Syntax(line) => ProgramFault::Syntax(line),
            ParseFault::Memory => ProgramFault::Memory,
        }
    }
}

/// Appends what is wrong with bytes that are no program: `byte I: not UTF-8`, or a line and its fault.
///
/// # Errors
/// `Memory` where a growth was refused.
pub fn add_fault(alloc: Global, text: &mut Printed, fault: ProgramFault) -> Result<(), Memory>
    ensures { OnOk result (text.new ≡ text.old ++ fault_text fault) }
{
    match fault {
        ProgramFault::NotUtf8(length) => add_place(alloc, text, "byte", length, "not UTF-8"),
        ProgramFault::Token(fault) => add_token_fault(alloc, text, fault),
        ProgramFault::Format(line) => add_place(alloc, text, "line", line.0, "format"),
        ProgramFault::Syntax(line) => add_place(alloc, text, "line", line.0, "syntax"),
        ProgramFault::Memory => add_ascii(text, "out of memory"),
    }
}

fn add_token_fault(alloc: Global, text: &mut Printed, fault: TokenFault) -> Result<(), Memory>
    ensures { OnOk result (text.new ≡ text.old ++ token_fault_text fault) }
{
    match fault {
        TokenFault::Tab(line) => add_place(alloc, text, "line", line.0, "tab in indentation"),
        TokenFault::Dedent(line) => {
            add_place(alloc, text, "line", line.0, "dedent to no open column")
        }
        TokenFault::BadChar(line) => add_place(alloc, text, "line", line.0, "bad character"),
        TokenFault::Unclosed(line) => add_place(alloc, text, "line", line.0, "not closed"),
        TokenFault::BadNumber(line) => add_place(alloc, text, "line", line.0, "bad number"),
        TokenFault::BadEscape(line) => add_place(alloc, text, "line", line.0, "bad escape"),
        TokenFault::Deep(line) => add_place(alloc, text, "line", line.0, "brackets too deep"),
        TokenFault::Memory => add_ascii(text, "out of memory"),
    }
}

/// Appends what is wrong at a place, which is a unit and a number.
fn add_place(
    alloc: Global,
    text: &mut Printed,
    unit: &str,
    number: usize,
    fault: &str,
) -> Result<(), Memory>
    requires unit { list_all is_ascii unit.now ≡ true }
    requires fault { list_all is_ascii fault.now ≡ true }
    ensures { OnOk result (text.new ≡ text.old ++ at_place unit.now number fault.now) }
{
    let words = format!(in alloc; "{unit} {number}: {fault}")?;
    text.add(words.as_str())
}
