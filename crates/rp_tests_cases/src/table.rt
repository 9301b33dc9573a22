//! What is asked in the cases of a table, and whether each case is answered as it has to be.

use std::alloc::{AllocError, Global};
use std::fmt::Display;
use std::test::Fail;

/// What is asked in each case of a table.
pub trait Question {
    /// What is answered, of the parts of a case before the answer that is wanted.
    ///
    /// # Errors
    /// Where memory was refused.
    fn answer(&self, alloc: Global, parts: &[String]) -> Result<String, Fail>;
}

/// Asks each case of a table. A line that ends with `\` goes on with the next, behind its four blanks.
///
/// # Errors
/// The first case that is answered otherwise than it wants, with its answer; a line with no answer; a table with no
/// case; and where memory was refused.
pub fn all_answer<Q: Question>(alloc: Global, question: &Q, table: &str) -> Result<(), Fail> {
    if table.is_empty() {
        return Err(Fail::new("no case"));
    }
    let table = table.replace(alloc, "\\\n    ", "")?;
    for line in table.as_str().lines() {
        is_answered(alloc, question, line)?;
    }
    Ok(())
}

/// Asks a case.
fn is_answered<Q: Question>(alloc: Global, question: &Q, line: &str) -> Result<(), Fail> {
    let Some((asked, wanted)) = line.rsplit_once(" => ") else {
        return Err(Fail::new("a line with no answer"));
    };
    let parts = parts_of(alloc, asked)?;
    let wanted = spelled_out(alloc, wanted)?;
    let answer = question.answer(alloc, parts.as_slice())?;
    is_told(alloc, line, answer.as_str(), wanted.as_str())
}

/// The parts that are joined in a text.
fn parts_of(alloc: Global, text: &str) -> Result<Vec<String>, AllocError> {
    let mut parts = Vec::new(alloc);
    for part in text.split(" => ") {
        parts.push(spelled_out(alloc, part)?)?;
    }
    Ok(parts)
}

/// The text that a part stands for.
fn spelled_out(alloc: Global, part: &str) -> Result<String, AllocError> {
    part.replace(alloc, "~", "\n")
}

/// Compares what is told in a case with what is wanted.
///
/// # Errors
/// The case with what is told, where that is another text; and where memory was refused.
pub fn is_told(alloc: Global, case: &str, told: &str, wanted: &str) -> Result<(), Fail> {
    if told == wanted {
        return Ok(());
    }
    Err(Fail::new(format!(in alloc; "{case}: {told}")?))
}

/// Fails with what does not hold.
///
/// # Errors
/// What was claimed, where it is not so.
pub fn holds<D: Display + Drop>(is_so: bool, claim: D) -> Result<(), Fail> {
    if is_so {
        return Ok(());
    }
    Err(Fail::new(claim))
}
