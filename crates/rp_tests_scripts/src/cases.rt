//! Tables of cases, each a text: a case a line, what is asked on the left of `=>` and the answer on its right.

// The signs ␊, ␍ and ␉ stand for a line feed, a carriage return and a tab. What is asked may be several pieces with ‖
// between them; one that begins with a number and × is so many copies of what stands behind.

use crate::answers::{Question, answer};
use rp_tests_cases::is_told;
use std::alloc::{AllocError, Global};
use std::test::Fail;

/// Asks each case of a table. A case without `=>` has the usual answer. Fails with the first case that is answered
/// otherwise, and its answer, and where there is no case.
pub fn all_answer(alloc: Global, question: Question, usual: &str, cases: &str) -> Result<(), Fail> {
    if cases.is_empty() {
        return Err(Fail::new("no case"));
    }
    for case in cases.lines() {
        is_answered(alloc, question, usual, case)?;
    }
    Ok(())
}

/// Asks a case.
fn is_answered(alloc: Global, question: Question, usual: &str, case: &str) -> Result<(), Fail> {
    let (asked, wanted) = case.split_once(" =>").unwrap_or((case, usual));
    let asked = spelled_out(alloc, asked)?;
    let wanted = decoded(alloc, wanted.strip_prefix(" ").unwrap_or(wanted))?;
    let told = answer(alloc, question, asked.as_str())?;
    is_told(alloc, case, told.as_str(), wanted.as_str())
}

/// The text that pieces stand for.
pub fn spelled_out(alloc: Global, asked: &str) -> Result<String, AllocError> {
    let mut out = String::new(alloc);
    for piece in asked.split('‖') {
        let (count, piece) = copies(piece);
        let piece = decoded(alloc, piece)?;
        for _ in 0..count {
            out.push_str(piece.as_str())?;
        }
    }
    Ok(out)
}

/// How many copies a piece is, and of what; one of the whole where no number stands before the sign.
fn copies(piece: &str) -> (u16, &str) {
    match piece.split_once('×') {
        Some((count, copied)) => match count.parse::<u16>() {
            Ok(count) => (count, copied),
            Err(_) => (1, piece),
        },
        None => (1, piece),
    }
}

/// The text that signs stand for.
fn decoded(alloc: Global, signs: &str) -> Result<String, AllocError> {
    let mut out = String::new(alloc);
    for sign in signs.chars() {
        out.push(meaning(sign))?;
    }
    Ok(out)
}

fn meaning(sign: char) -> char {
    match sign {
        '␊' => '\n',
        '␍' => '\r',
        '␉' => '\t',
        other => other,
    }
}
