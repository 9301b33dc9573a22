//! Sorting and joining of many elements, with just the steps and cells that they take, and with one less.

use crate::calls::call;
use crate::world::{Costs, World};
use rp_base::{Memory, NativeId, OpEnd, Rock, Text, Value};
use rp_store::Object;
use rp_tests_parts::Fault;
use std::alloc::Global;
use std::test::Fail;

/// How many elements are sorted.
const COUNT: u64 = 100_000;

/// The numbers below this prime, each once, are the multiples of `FACTOR`, modulo it.
const PRIME: u64 = 100_003;

const FACTOR: u64 = 7_919;

/// How many texts are joined.
const PARTS: u64 = 1_000_000;

/// What is sorted.
#[derive(Clone, Copy, Debug, PartialEq, Eq)]
enum Sorted {
    /// The numbers below `COUNT`.
    Numbers,
    /// The same from `COUNT` on, as texts of six digits, which have the order of the numbers.
    Texts,
    /// 0, False, 1 and True, of which two are equal that can be told apart.
    Truths,
}

/// How a call ends.
#[derive(Clone, Copy, Debug, PartialEq, Eq)]
enum Ended {
    AsWanted,
    Otherwise,
    StopSteps,
    StopCells,
}

impl Sorted {
    /// The value that stands for a number below `COUNT`.
    fn value(self, alloc: Global, number: u64) -> Result<Value, Memory> {
        match self {
            Sorted::Numbers => Ok(int(number)),
            Sorted::Texts => digits(alloc, number),
            Sorted::Truths => Ok(truth_or_number(number)),
        }
    }

    /// The values in no order.
    fn given(self, alloc: Global) -> Result<Vec<Value>, Memory> {
        let mut values = Vec::new(alloc);
        for turn in 0..PRIME {
            let number = turn * FACTOR % PRIME;
            if number < COUNT {
                values.push(self.value(alloc, number)?)?;
            }
        }
        Ok(values)
    }

    /// The values as `sorted` has to give them.
    fn wanted(self, alloc: Global) -> Result<Vec<Value>, Memory> {
        if self == Sorted::Truths {
            return truths_in_order(alloc);
        }
        let mut values = Vec::new(alloc);
        for number in 0..COUNT {
            values.push(self.value(alloc, number)?)?;
        }
        Ok(values)
    }
}

fn int(number: u64) -> Value {
    Value::Rock(Rock::Int(i64::try_from(number).unwrap_or(0)))
}

fn digits(alloc: Global, number: u64) -> Result<Value, Memory> {
    let number = number.saturating_add(COUNT);
    let text = format!(in alloc; "{number}")?;
    Ok(Value::Rock(Rock::Text(Text::from_string(alloc, text)?)))
}

fn truth_or_number(number: u64) -> Value {
    match number % 4 {
        0 => int(0),
        1 => Value::Rock(Rock::Truth(false)),
        2 => int(1),
        _ => Value::Rock(Rock::Truth(true)),
    }
}

/// Those that are 0 or False as they were given, and then those that are 1 or True.
fn truths_in_order(alloc: Global) -> Result<Vec<Value>, Memory> {
    let mut values = Vec::new(alloc);
    for half in 0..2 {
        for turn in 0..PRIME {
            let number = turn * FACTOR % PRIME;
            if number < COUNT && number % 4 / 2 == half {
                values.push(truth_or_number(number))?;
            }
        }
    }
    Ok(values)
}

/// How `sorted` of a list ends with such limits.
fn sorted_ends(alloc: Global, what: Sorted, steps: u64, cells: u64) -> Result<Ended, Memory> {
    let mut world = World::new(alloc, Costs { steps, cells })?;
    let given = what.given(alloc)?;
    let answer = on_list(&mut world, None, NativeId::Sorted, given);
    if let Some(stop) = stop_of(&answer) {
        return Ok(stop);
    }
    let wanted = what.wanted(alloc)?;
    Ok(end_where(is_list(&world, &answer, wanted.as_slice())))
}

/// How `', '.join` of a list of many texts ends with such limits.
fn join_ends(alloc: Global, steps: u64, cells: u64) -> Result<Ended, Memory> {
    let mut world = World::new(alloc, Costs { steps, cells })?;
    let between = text_value(alloc, ", ")?;
    let answer = on_list(&mut world, Some(&between), NativeId::Join, parts(alloc)?);
    if let Some(stop) = stop_of(&answer) {
        return Ok(stop);
    }
    let wanted = joined_parts(alloc)?;
    Ok(end_where(is_text(&answer, wanted.as_str())))
}

/// Calls a function, or a method of the receiver, on a list of these values, within the limits of the world.
fn on_list(
    world: &mut World,
    receiver: Option<&Value>,
    id: NativeId,
    values: Vec<Value>,
) -> Result<Value, Fault> {
    let list = world.add(Object::List(values))?;
    world.begin();
    call(world, receiver, id, &[list])
}

fn end_where(as_wanted: bool) -> Ended {
    if as_wanted {
        Ended::AsWanted
    } else {
        Ended::Otherwise
    }
}

fn stop_of(answer: &Result<Value, Fault>) -> Option<Ended> {
    match answer {
        Err(Fault::End(OpEnd::StopSteps)) => Some(Ended::StopSteps),
        Err(Fault::End(OpEnd::StopCells)) => Some(Ended::StopCells),
        _ => None,
    }
}

/// Whether an answer is a list of these numbers, truth values and texts.
fn is_list(world: &World, answer: &Result<Value, Fault>, wanted: &[Value]) -> bool {
    let Ok(Value::Ref(at)) = answer else {
        return false;
    };
    match world.store.get(*at) {
        Some(Object::List(values)) => are_same(values.as_slice(), wanted),
        _ => false,
    }
}

fn are_same(values: &[Value], wanted: &[Value]) -> bool {
    if values.len() != wanted.len() {
        return false;
    }
    for (value, wanted) in values.iter().zip(wanted) {
        if !is_same(value, wanted) {
            return false;
        }
    }
    true
}

/// Whether two values are one number, one truth value or one text.
fn is_same(value: &Value, wanted: &Value) -> bool {
    match (value, wanted) {
        (Value::Rock(Rock::Int(a)), Value::Rock(Rock::Int(b))) => *a == *b,
        (Value::Rock(Rock::Truth(a)), Value::Rock(Rock::Truth(b))) => *a == *b,
        (Value::Rock(Rock::Text(a)), Value::Rock(Rock::Text(b))) => a.is(b.as_str()),
        _ => false,
    }
}

fn is_text(answer: &Result<Value, Fault>, wanted: &str) -> bool {
    match answer {
        Ok(Value::Rock(Rock::Text(text))) => text.is(wanted),
        _ => false,
    }
}

/// A text of which many are joined.
fn part(number: u64) -> &'static str {
    match number % 3 {
        0 => "a",
        1 => "bc",
        _ => "",
    }
}

fn text_value(alloc: Global, text: &str) -> Result<Value, Memory> {
    Ok(Value::Rock(Rock::Text(Text::new(alloc, text)?)))
}

/// The texts that are joined, which are three shared ones in turn.
fn parts(alloc: Global) -> Result<Vec<Value>, Memory> {
    let first = text_value(alloc, part(0))?;
    let second = text_value(alloc, part(1))?;
    let third = text_value(alloc, part(2))?;
    let mut values = Vec::new(alloc);
    for number in 0..PARTS {
        let value = match number % 3 {
            0 => first.copy()?,
            1 => second.copy()?,
            _ => third.copy()?,
        };
        values.push(value)?;
    }
    Ok(values)
}

/// What joining them has to give.
fn joined_parts(alloc: Global) -> Result<String, Memory> {
    let mut text = String::from_str(alloc, part(0))?;
    for number in 1..PARTS {
        text.push_str(", ")?;
        text.push_str(part(number))?;
    }
    Ok(text)
}

// A step is taken for each element that is walked. A list costs a cell and one for each element.

#[test]
fn many_numbers_are_sorted(rt: HostRuntime) -> Result<(), Fail> {
    let alloc = rt.alloc();
    let just = sorted_ends(alloc, Sorted::Numbers, COUNT, COUNT + 1)?;
    assert_eq!(rt; just, Ended::AsWanted);
    let fewer_steps = sorted_ends(alloc, Sorted::Numbers, COUNT - 1, COUNT + 1)?;
    assert_eq!(rt; fewer_steps, Ended::StopSteps);
    let fewer_cells = sorted_ends(alloc, Sorted::Numbers, COUNT, COUNT)?;
    assert_eq!(rt; fewer_cells, Ended::StopCells);
    Ok(())
}

#[test]
fn many_texts_are_sorted(rt: HostRuntime) -> Result<(), Fail> {
    let alloc = rt.alloc();
    let just = sorted_ends(alloc, Sorted::Texts, COUNT, COUNT + 1)?;
    assert_eq!(rt; just, Ended::AsWanted);
    let fewer_cells = sorted_ends(alloc, Sorted::Texts, COUNT, COUNT)?;
    assert_eq!(rt; fewer_cells, Ended::StopCells);
    Ok(())
}

#[test]
fn equal_elements_keep_their_order(rt: HostRuntime) -> Result<(), Fail> {
    let just = sorted_ends(rt.alloc(), Sorted::Truths, COUNT, COUNT + 1)?;
    assert_eq!(rt; just, Ended::AsWanted);
    Ok(())
}

/// The bytes of a million texts, and two for each `, ` between them, as CPython counts them:
/// `len(', '.join(['a', 'bc', ''][i % 3] for i in range(1_000_000)))`.
const JOINED_BYTES: u64 = 2_999_998;

#[test]
fn many_texts_are_joined(rt: HostRuntime) -> Result<(), Fail> {
    let alloc = rt.alloc();
    let just = join_ends(alloc, PARTS, JOINED_BYTES)?;
    assert_eq!(rt; just, Ended::AsWanted);
    let fewer_cells = join_ends(alloc, PARTS, JOINED_BYTES - 1)?;
    assert_eq!(rt; fewer_cells, Ended::StopCells);
    let fewer_steps = join_ends(alloc, PARTS - 1, JOINED_BYTES)?;
    assert_eq!(rt; fewer_steps, Ended::StopSteps);
    Ok(())
}
