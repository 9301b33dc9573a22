//! Runs cases, and compares what came of each with what is wanted.

use crate::operators::run;
use crate::tokens::{Token, tokens};
use crate::world::{Reader, World};
use rp_base::{Memory, Text, Value};
use rp_tests_parts::{Fault, tell_fault};
use std::alloc::{AllocError, Global};

/// What a statement of a case answers.
#[derive(Drop)]
pub(crate) enum Answer {
    Nothing,
    Value(Value),
    /// A text that is told as it is.
    Shown(Text),
    Word(&'static str),
    Count(u64),
}

/// Why a test of cases fails.
#[derive(Debug, Drop)]
pub(crate) enum Mismatch {
    /// What came of a case is not what is wanted.
    Got { case: String, got: String },
    NoCase { line: String },
    Memory,
}

impl From<Memory> for Mismatch {
    fn from(_: Memory) -> Self {
        Mismatch::Memory
    }
}

impl From<AllocError> for Mismatch {
    fn from(_: AllocError) -> Self {
        Mismatch::Memory
    }
}

/// Runs each case, a line `STATEMENTS => WANTED`, and compares what it tells with what is wanted. Other lines are
/// empty, or sentences on the cases below them. A table without a case fails.
pub(crate) fn all_answer(alloc: Global, cases: &str) -> Result<(), Mismatch> {
    let mut has_case = false;
    for line in cases.lines() {
        let line = line.trim();
        match line.split_once(" => ") {
            Some((case, wanted)) => {
                answers(alloc, case, wanted)?;
                has_case = true;
            }
            None => stands_between(alloc, line)?,
        }
    }
    if has_case {
        return Ok(());
    }
    let line = String::new(alloc);
    Err(Mismatch::NoCase { line })
}

/// Runs a case.
fn answers(alloc: Global, case: &str, wanted: &str) -> Result<(), Mismatch> {
    let got = told_by(alloc, case)?;
    if got.as_str() == wanted {
        return Ok(());
    }
    let case = String::from_str(alloc, case)?;
    Err(Mismatch::Got { case, got })
}

/// A line that is no case.
fn stands_between(alloc: Global, line: &str) -> Result<(), Mismatch> {
    if line.is_empty() || line.ends_with('.') {
        return Ok(());
    }
    let line = String::from_str(alloc, line)?;
    Err(Mismatch::NoCase { line })
}

/// What a case tells: the answers of its statements, and the cells and steps that they took, where there are any.
pub(crate) fn told_by(alloc: Global, case: &str) -> Result<String, Memory> {
    let tokens = tokens(alloc, case)?;
    let mut world = World::new(alloc)?;
    let mut told = String::new(alloc);
    for statement in tokens.split(is_semicolon) {
        let answer = run(&mut world, &mut Reader::new(statement));
        tell(&world, &mut told, &answer)?;
    }
    tell_costs(&world, &mut told)?;
    Ok(told)
}

fn is_semicolon(token: &Token) -> bool {
    match token {
        Token::Mark(mark) => mark.as_str() == ";",
        _ => false,
    }
}

fn tell(world: &World, told: &mut String, answer: &Result<Answer, Fault>) -> Result<(), Memory> {
    if let Ok(Answer::Nothing) = answer {
        return Ok(());
    }
    if !told.is_empty() {
        told.push_str("; ")?;
    }
    match answer {
        Ok(answer) => tell_answer(world, told, answer),
        Err(fault) => tell_fault(told, fault),
    }
}

fn tell_answer(world: &World, told: &mut String, answer: &Answer) -> Result<(), Memory> {
    match answer {
        Answer::Nothing => (),
        Answer::Value(value) => world.write(told, value)?,
        Answer::Shown(text) => told.push_str(text.as_str())?,
        Answer::Word(word) => told.push_str(word)?,
        Answer::Count(count) => write!(told, "{count}")?,
    }
    Ok(())
}

fn tell_costs(world: &World, told: &mut String) -> Result<(), Memory> {
    let (cells, steps) = (world.store.used(), world.steps_taken());
    if cells > 0 {
        write!(told, " | {cells} cells")?;
    }
    if steps > 0 {
        write!(told, " | {steps} steps")?;
    }
    Ok(())
}
