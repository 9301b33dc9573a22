//! Why a script is not compiled, and the lines that tell it.

ghost use Rattle.std.specs.Prelude.{◌≡◌, ◌++◌, chars, IfOk, OnOk};
ghost use Rattle.std.specs.List.{flat_map};
ghost use Rattle.rp_program.specs.Fault.{fault_text};
ghost use Rattle.rp_script.specs.Refusal.{line, offence_line, refusal_lines};

use rp_base::{Line, Memory, Names, Printed};
use rp_policy::{Offence, offence_text};
use rp_program::{ProgramFault, add_fault};
use rp_token::TokenFault;
use std::alloc::Global;

/// Why a script is not compiled.
#[derive(Drop)]
pub enum Refusal {
    /// The bytes are no UTF-8; so many at the front are, and no more.
    NotUtf8(usize),
    /// The text has no tokens, for its first fault. A want of memory is `Memory`.
    Token(TokenFault),
    /// The text of an f-literal is wrong, on this line first.
    Format(Line),
    /// The tokens of the text, with f-literals and sets written out, spell no tree of height at most 200. The line is
    /// that of the last place at which a statement could begin: what stands before it can be ended to a whole script,
    /// and no longer front can.
    Syntax(Line),
    /// The policy of names lets the tree not pass, for all these offences. There is one at least.
    Offences(Vec<Offence>),
    /// A growth was refused.
    Memory,
}

impl From<Memory> for Refusal {
    ghost use Rattle.std.specs.Prelude.{◌≡◌};
    ghost use Rattle.rp_script.specs.declared.refusal.Refusal.TheVariants as refusal;

    ghost from_gives = { λ _ given. given ≡ refusal.Memory };

    fn from(_: Memory) -> Self {
        Refusal::Memory
    }
}

impl From<ProgramFault> for Refusal {
    ghost use Rattle.std.specs.Prelude.{◌≡◌};
    ghost use Rattle.rp_script.specs.Refusal.{from_program};

    ghost from_gives = { λ fault given. given ≡ from_program fault };

    fn from(fault: ProgramFault) -> Self {
        match fault {
            ProgramFault::NotUtf8(length) => Refusal::NotUtf8(length),
            ProgramFault::Token(fault) => Refusal::Token(fault),
            ProgramFault::Format(line) => Refusal::Format(line),
            ProgramFault::Syntax(line) => Refusal::Syntax(line),
            ProgramFault::Memory => Refusal::Memory,
        }
    }
}

/// The lines that tell a refusal, each behind the prefix: one for each offence, in their order, and one for all else.
/// A name that `names` doesn't hold has the empty word.
///
/// # Errors
/// `Memory` where a growth was refused.
pub fn refusal_text(
    alloc: Global,
    prefix: &str,
    refusal: &Refusal,
    names: &Names,
) -> Result<Printed, Memory>
    ensures { IfOk result (λ text. text ≡ refusal_lines names.now (chars prefix.now) refusal.now) }
{
    let mut text = Printed::new(alloc);
    match refusal {
        Refusal::NotUtf8(length) => {
            add_fault_line(alloc, &mut text, prefix, ProgramFault::NotUtf8(*length))?;
        }
        Refusal::Token(fault) => {
            add_fault_line(alloc, &mut text, prefix, ProgramFault::Token(*fault))?;
        }
        Refusal::Format(line) => {
            add_fault_line(alloc, &mut text, prefix, ProgramFault::Format(*line))?;
        }
        Refusal::Syntax(line) => {
            add_fault_line(alloc, &mut text, prefix, ProgramFault::Syntax(*line))?;
        }
        Refusal::Offences(found) => add_offences(alloc, &mut text, prefix, found, names)?,
        Refusal::Memory => add_fault_line(alloc, &mut text, prefix, ProgramFault::Memory)?,
    }
    Ok(text)
}

/// Appends the line of bytes that are no program.
fn add_fault_line(
    alloc: Global,
    text: &mut Printed,
    prefix: &str,
    fault: ProgramFault,
) -> Result<(), Memory>
    ensures { OnOk result (text.new ≡ text.old ++ line (chars prefix.now) (fault_text fault)) }
{
    text.add(prefix)?;
    add_fault(alloc, text, fault)?;
    text.add("\n")
}

/// Appends a line for each offence.
fn add_offences(
    alloc: Global,
    text: &mut Printed,
    prefix: &str,
    found: &[Offence],
    names: &Names,
) -> Result<(), Memory>
    ensures { OnOk result (text.new ≡ text.old ++ flat_map (offence_line names.now (chars prefix.now)) found.now) }
{
    for offence in found {
        add_offence(alloc, text, prefix, offence, names)?;
    }
    Ok(())
}

/// Appends the line of an offence.
fn add_offence(
    alloc: Global,
    text: &mut Printed,
    prefix: &str,
    offence: &Offence,
    names: &Names,
) -> Result<(), Memory>
    ensures { OnOk result (text.new ≡ text.old ++ offence_line names.now (chars prefix.now) offence.now) }
{
    let words = offence_text(alloc, offence, names)?;
    text.add(prefix)?;
    text.add(words.as_str())?;
    text.add("\n")
}
