//! Why declaration files are refused.

use crate::chains::chain_file;
use rp_base::{Memory, Names};
use rp_decl::{Decl, DeclFault, declarations, fault_line, is_declared_name, is_id};
use rp_tests_cases::{FOLDER_FILE, Question, ROLES_FILE, number, part, seed};
use std::alloc::Global;
use std::test::Fail;

/// Why a file is refused, or `ok`.
pub enum Cause {
    /// The file is the first part.
    Of,
    /// The first part of the file of version 1, or of that with roles, is replaced by the second.
    Where,
    WhereRoles,
    /// The last of a chain of classes is like the first part.
    OfChain,
    /// A field has arrays as deep as the first part.
    OfNested,
}

impl Question for Cause {
    fn answer(&self, alloc: Global, parts: &[String]) -> Result<String, Fail> {
        Ok(self.line(alloc, part(parts, 0), parts)?)
    }
}

impl Cause {
    fn line(&self, alloc: Global, first: &str, parts: &[String]) -> Result<String, Memory> {
        match self {
            Cause::Of => cause_of(alloc, first.as_bytes()),
            Cause::Where => cause_changed(alloc, FOLDER_FILE, first, part(parts, 1)),
            Cause::WhereRoles => cause_changed(alloc, ROLES_FILE, first, part(parts, 1)),
            Cause::OfChain => cause_of_chain(alloc, first),
            Cause::OfNested => cause_of_nested(alloc, number(parts, 0) as usize),
        }
    }
}

/// Whether the first part, so often as the second says, is a name that may be declared, and whether it is an id.
pub struct Word;

impl Question for Word {
    fn answer(&self, alloc: Global, parts: &[String]) -> Result<String, Fail> {
        let word = part(parts, 0).repeat(alloc, number(parts, 1) as usize)?;
        let kind = kind_of(alloc, word.as_str())?;
        Ok(String::from_str(alloc, kind)?)
    }
}

fn kind_of(alloc: Global, word: &str) -> Result<&'static str, Memory> {
    let is_name = is_declared_name(alloc, word)?;
    Ok(match (is_name, is_id(word)) {
        (true, true) => "name, id",
        (true, false) => "name",
        (false, true) => "id",
        (false, false) => "neither",
    })
}

/// The declarations, with the names that they were read into. Nothing is claimed of them, so that what calls this is
/// proved over no more than it needs.
pub fn read(alloc: Global, bytes: &[u8], names: &mut Names) -> Result<Decl, DeclFault> {
    declarations(alloc, bytes, names)
}

/// The line that is told of the bytes, or `ok`.
pub fn line_of(alloc: Global, bytes: &[u8]) -> Result<String, Memory> {
    let mut names = Names::new(alloc, seed())?;
    line_over(alloc, bytes, &mut names)
}

/// The same, with the names that the bytes are read into.
fn line_over(alloc: Global, bytes: &[u8], names: &mut Names) -> Result<String, Memory> {
    match declarations(alloc, bytes, names) {
        Ok(_) => Ok(String::from_str(alloc, "ok")?),
        Err(DeclFault::Memory) => Err(Memory),
        Err(fault) => fault_line(alloc, &fault, names),
    }
}

/// The cause that a line tells.
fn cause_in(line: &str) -> Option<&str> {
    line.strip_prefix("declarations: ")?.strip_suffix("\n")
}

/// Why the bytes declare nothing, or `ok`; the line behind `no cause: ` where it is another.
fn cause_of(alloc: Global, bytes: &[u8]) -> Result<String, Memory> {
    let line = line_of(alloc, bytes)?;
    let line = line.as_str();
    match cause_in(line) {
        Some(cause) => Ok(String::from_str(alloc, cause)?),
        None if line == "ok" => Ok(String::from_str(alloc, line)?),
        None => Ok(format!(in alloc; "no cause: {line}")?),
    }
}

/// Why a changed file declares nothing, or `ok`, or `unchanged`.
fn cause_changed(alloc: Global, file: &str, old: &str, new: &str) -> Result<String, Memory> {
    let changed = file.replacen(alloc, old, new, 1)?;
    if changed.as_str() == file {
        return Ok(String::from_str(alloc, "unchanged")?);
    }
    cause_of(alloc, changed.as_bytes())
}

/// Why a chain of a thousand classes, the last of which is like another, is refused.
fn cause_of_chain(alloc: Global, last: &str) -> Result<String, Memory> {
    let file = chain_file(alloc, 999, last)?;
    cause_of(alloc, file.as_bytes())
}

/// Why the file where a field has arrays so many deep is refused.
fn cause_of_nested(alloc: Global, depth: usize) -> Result<String, Memory> {
    let open = "[".repeat(alloc, depth)?;
    let close = "]".repeat(alloc, depth)?;
    let value = format!(in alloc; "size = {open}{close}")?;
    cause_changed(alloc, FOLDER_FILE, "size = 3", value.as_str())
}
