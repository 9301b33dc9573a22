//! Which open part takes what leaves.

use rp_base::{Kind, Memory, Raised, Rock, Text, Value};
use rp_tests_cases::{Question, all_answer, part};
use rp_unwind::{Handler, Handlers, Leaving, Part};
use std::alloc::Global;
use std::test::Fail;

/// The open parts from the outermost on (E is `except`, F is `finally`, L is a loop), each at the number of its letter
/// from 0, and what leaves; then the part that takes it, or `-`, and the parts that are left open, from the innermost
/// on.
const CASES: &str = r#"E => raise => E0
F => raise => F0
L => raise => -
LFE => raise => E2 FL
EFL => raise => F1 E
ELL => raise => E0
LLL => raise => -
EE => raise => E1 E
E => return => -
F => return => F0
L => return => -
FE => return => F0
FLE => return => F0
LFEL => return => F1 L
FF => return => F1 F
E => break => -
F => break => F0
L => break => L0
LE => break => L0
LFE => break => F1 L
LL => break => L1 L
FLE => break => L1 F
E => continue => -
F => continue => F0
L => continue => L0
LE => continue => L0
LFE => continue => F1 L
LLEE => continue => L1 L"#;

fn part_of(letter: char) -> Part {
    match letter {
        'E' => Part::Except,
        'F' => Part::Finally,
        _ => Part::Loop,
    }
}

fn letter_of(part: Part) -> char {
    match part {
        Part::Except => 'E',
        Part::Finally => 'F',
        Part::Loop => 'L',
    }
}

fn leaving_of(alloc: Global, word: &str) -> Result<Leaving, Memory> {
    if word == "raise" {
        let text = Text::new(alloc, "zero")?;
        let kind = Kind::ZeroDivisionError;
        return Ok(Leaving::Raised(Raised { kind, text }));
    }
    if word == "return" {
        return Ok(Leaving::Returned(Value::Rock(Rock::Nil)));
    }
    if word == "break" {
        return Ok(Leaving::Broke);
    }
    Ok(Leaving::Continued)
}

fn opened(alloc: Global, letters: &str) -> Result<Handlers, Memory> {
    let mut handlers = Handlers::new(alloc);
    let mut at = 0usize;
    for letter in letters.chars() {
        let part = part_of(letter);
        handlers.push(Handler { part, at })?;
        at = at.wrapping_add(1);
    }
    Ok(handlers)
}

/// The parts that are left open, from the innermost on.
fn left(alloc: Global, handlers: Handlers) -> Result<String, Memory> {
    let mut handlers = handlers;
    let mut text = String::new(alloc);
    for _ in 0..9 {
        if let Some(handler) = handlers.pop() {
            text.push(letter_of(handler.part))?;
        }
    }
    Ok(text)
}

fn told(alloc: Global, letters: &str, word: &str) -> Result<String, Memory> {
    let mut handlers = opened(alloc, letters)?;
    let leaving = leaving_of(alloc, word)?;
    let Some(handler) = handlers.next(&leaving) else {
        return Ok(format!(in alloc; "-{}", left(alloc, handlers)?)?);
    };
    let letter = letter_of(handler.part);
    let at = handler.at;
    let left = left(alloc, handlers)?;
    Ok(format!(in alloc; "{letter}{at} {left}")?)
}

/// What takes what leaves, the second part, where the first part is open.
struct Taken;

impl Question for Taken {
    fn answer(&self, alloc: Global, parts: &[String]) -> Result<String, Fail> {
        let told = told(alloc, part(parts, 0), part(parts, 1))?;
        Ok(String::from_str(alloc, told.as_str().trim_end())?)
    }
}

#[test]
fn innermost_part_that_takes_what_leaves_is_next(rt: HostRuntime) -> Result<(), Fail> {
    all_answer(rt.alloc(), &Taken, CASES)
}

#[test]
fn no_part_takes_what_leaves_where_none_is_open(rt: HostRuntime) -> Result<(), Fail> {
    let alloc = rt.alloc();
    let mut handlers = Handlers::new(alloc);
    assert!(rt; handlers.next(&Leaving::Broke).is_none());
    assert!(rt; handlers.pop().is_none());
    Ok(())
}
