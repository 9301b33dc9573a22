//! Runs cases, and compares what came of each with what is wanted.

use crate::expressions::run;
use crate::world::{Costs, OURS, World};
use rp_base::{Memory, Value};
use rp_show::{show, shown_inside};
use rp_store::Object;
use rp_tests_parts::{Fault, tell_fault};
use rp_token::{Token, TokenKind, tokens};
use std::alloc::Global;

/// What a case tells: its answer, with what is claimed of it, and what its calls took.
#[derive(Drop)]
struct Told {
    text: String,
    taken: Costs,
}

/// The cases that answer otherwise, each a line with what it tells; nothing where all answer as they have to. A case is
/// `STATEMENTS => ANSWER`, and ` ‖ ` stands between the cases of a line. Behind the answer, each after ` | `, may be
/// claims: the steps and cells of the calls that are statements (`3 steps`, `4 cells`), how many elements of the answer
/// are lent (`2 lent elements`), and whether it is `lent`, `ours`, `theirs` or a `rock`. Each case also runs with
/// just the steps and cells that it takes, where it has to answer the same, and with one less, where it has to stop,
/// unless limits stand before it (`steps 3; `, `cells 4; `). Other lines are empty, or sentences on the cases below.
pub(crate) fn others(alloc: Global, cases: &str) -> Result<String, Memory> {
    let mut found = String::new(alloc);
    for line in cases.lines() {
        for case in line.trim().split(" ‖ ") {
            one(alloc, &mut found, case)?;
        }
    }
    if !cases.contains(" => ") {
        add(&mut found, "", "no case")?;
    }
    Ok(found)
}

/// A case of a line, or a line of another kind.
fn one(alloc: Global, found: &mut String, line: &str) -> Result<(), Memory> {
    if let Some((case, wanted)) = line.split_once(" => ") {
        return compare(alloc, found, case, wanted);
    }
    if !line.is_empty() && !line.ends_with('.') {
        add(found, line, "is no case")?;
    }
    Ok(())
}

fn add(found: &mut String, case: &str, told: &str) -> Result<(), Memory> {
    found.push_str("\n")?;
    found.push_str(case)?;
    found.push_str(" => ")?;
    found.push_str(told)?;
    Ok(())
}

fn compare(alloc: Global, found: &mut String, case: &str, wanted: &str) -> Result<(), Memory> {
    let ample = Costs::ample();
    let (steps, rest) = limit(case, "steps ", ample.steps);
    let (cells, rest) = limit(rest, "cells ", ample.cells);
    let limits = Costs { steps, cells };
    let taken = expect(alloc, found, rest, wanted, limits)?;
    if limits != ample {
        return Ok(());
    }
    if taken.steps > 0 {
        around(
            alloc,
            found,
            rest,
            wanted,
            "stop steps",
            [steps_of(taken.steps), steps_of(taken.steps - 1)],
        )?;
    }
    if taken.cells > 0 {
        around(
            alloc,
            found,
            rest,
            wanted,
            "stop cells",
            [cells_of(taken.cells), cells_of(taken.cells - 1)],
        )?;
    }
    Ok(())
}

/// Runs a case within just what it takes, and within one less.
fn around(
    alloc: Global,
    found: &mut String,
    case: &str,
    wanted: &str,
    stop: &str,
    limits: [Costs; 2],
) -> Result<(), Memory> {
    let [just, less] = limits;
    expect(alloc, found, case, wanted, just)?;
    expect(alloc, found, case, stop, less)?;
    Ok(())
}

fn steps_of(steps: u64) -> Costs {
    let cells = Costs::ample().cells;
    Costs { steps, cells }
}

fn cells_of(cells: u64) -> Costs {
    let steps = Costs::ample().steps;
    Costs { steps, cells }
}

/// The limit that stands before a case, the usual one where none does, and the case.
fn limit<'a>(case: &'a str, word: &str, usual: u64) -> (u64, &'a str) {
    match case.strip_prefix(word) {
        Some(rest) => number_before(rest),
        None => (usual, case),
    }
}

fn number_before(text: &str) -> (u64, &str) {
    match text.split_once("; ") {
        Some((number, rest)) => (number.parse::<u64>().unwrap_or(0), rest),
        None => (0, text),
    }
}

/// Runs a case, and tells where it does not answer as wanted. What its calls took is the answer.
fn expect(
    alloc: Global,
    found: &mut String,
    case: &str,
    wanted: &str,
    limits: Costs,
) -> Result<Costs, Memory> {
    let told = told_by(alloc, case, wanted, limits)?;
    if told.text.as_str() != wanted {
        let Costs { steps, cells } = limits;
        if limits != Costs::ample() {
            write!(found, "\nwith {steps} steps and {cells} cells:")?;
        }
        add(found, case, told.text.as_str())?;
    }
    Ok(told.taken)
}

fn told_by(alloc: Global, case: &str, wanted: &str, limits: Costs) -> Result<Told, Memory> {
    let mut world = World::new(alloc, limits)?;
    let answer = answered(&mut world, case);
    let mut text = String::new(alloc);
    tell(&mut world, &mut text, &answer)?;
    for claim in wanted.split(" | ").skip(1) {
        text.push_str(" | ")?;
        tell_claim(&world, &mut text, &answer, claim)?;
    }
    let taken = world.taken;
    Ok(Told { text, taken })
}

/// The value of the last statement, or the fault of the first that has one.
fn answered(world: &mut World, case: &str) -> Result<Value, Fault> {
    let Some(found) = read(world, case) else {
        return Err(Fault::Unread);
    };
    let mut last = Err(Fault::Unread);
    for statement in found.split(is_semicolon) {
        last = run(world, statement);
        if last.is_err() {
            return last;
        }
    }
    last
}

fn read(world: &mut World, case: &str) -> Option<Vec<Token>> {
    tokens(world.alloc, case, &mut world.names).ok()
}

fn is_semicolon(token: &Token) -> bool {
    matches!(token.kind, TokenKind::Semicolon)
}

fn tell(world: &mut World, told: &mut String, answer: &Result<Value, Fault>) -> Result<(), Memory> {
    match answer {
        Ok(Value::Rock(rock)) => told.push_str(shown_inside(world.alloc, rock)?.as_str())?,
        Ok(value) => tell_object(world, told, value)?,
        Err(fault) => tell_fault(told, fault)?,
    }
    Ok(())
}

fn tell_object(world: &mut World, told: &mut String, value: &Value) -> Result<(), Memory> {
    let shown = show(
        world.alloc,
        &mut world.store,
        &mut world.meter,
        &world.names,
        value,
    );
    match shown {
        Ok(text) => told.push_str(text.as_str())?,
        Err(end) => tell_fault(told, &Fault::End(end))?,
    }
    Ok(())
}

/// What is so, where something is claimed.
fn tell_claim(
    world: &World,
    told: &mut String,
    answer: &Result<Value, Fault>,
    claim: &str,
) -> Result<(), Memory> {
    let Costs { steps, cells } = world.taken;
    if claim.ends_with(" steps") {
        write!(told, "{steps} steps")?;
    } else if claim.ends_with(" cells") {
        write!(told, "{cells} cells")?;
    } else if claim.ends_with(" lent elements") {
        let count = lent_elements(world, answer);
        write!(told, "{count} lent elements")?;
    } else {
        told.push_str(standing(world, answer))?;
    }
    Ok(())
}

/// Whose the answer is.
fn standing(world: &World, answer: &Result<Value, Fault>) -> &'static str {
    match answer {
        Ok(Value::Rock(_)) => "rock",
        Ok(Value::Prox(_)) => "lent",
        Ok(Value::Ref(at)) if at.0 < world.store.len() => {
            if world.store.owner(*at) == OURS {
                "ours"
            } else {
                "theirs"
            }
        }
        _ => "none",
    }
}

/// How many elements of a list or tuple, or values of a dict, are lent.
fn lent_elements(world: &World, answer: &Result<Value, Fault>) -> usize {
    let place = match answer {
        Ok(Value::Ref(at)) => *at,
        Ok(Value::Prox(at)) => *at,
        _ => return 0,
    };
    match world.store.get(place) {
        Some(Object::List(values)) => lent_among(values),
        Some(Object::Tuple(values)) => lent_among(values),
        Some(Object::Dict(entries)) => {
            let mut count = 0usize;
            for i in 0..entries.len() {
                if let Some((_, (_, Value::Prox(_)))) = entries.at(i) {
                    count = count.saturating_add(1);
                }
            }
            count
        }
        _ => 0,
    }
}

fn lent_among(values: &[Value]) -> usize {
    values
        .iter()
        .filter(|value| matches!(value, Value::Prox(_)))
        .count()
}
