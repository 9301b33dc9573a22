//! Dicts alone, of few pairs and of many: a case is steps on a dict, and what they answer.

use crate::world::seed;
use rp_dict::Dict;
use rp_tests_cases::{Question, after_word, all_answer, first_word, number, part};
use std::alloc::{AllocError, Global};
use std::test::Fail;

/// What the steps of the second part answer on a dict of the keys from 1 to the first part, each with ten times itself
/// as its value.
struct Steps;

impl Question for Steps {
    fn answer(&self, alloc: Global, parts: &[String]) -> Result<String, Fail> {
        let mut dict = begun(alloc, number(parts, 0))?;
        let mut told = String::new(alloc);
        for step in part(parts, 1).split("; ") {
            take(&mut dict, &mut told, step)?;
        }
        Ok(String::from_str(alloc, told.as_str().trim())?)
    }
}

fn begun(alloc: Global, count: u32) -> Result<Dict<u32, u32>, AllocError> {
    if count == 0 {
        return Ok(Dict::new(alloc, seed()));
    }
    let mut dict = Dict::with_capacity(alloc, 3, seed())?;
    for key in 1..=count {
        dict.set(key, key.wrapping_mul(10))?;
    }
    Ok(dict)
}

/// Takes a step, and tells what it answers, with a blank behind.
fn take(dict: &mut Dict<u32, u32>, told: &mut String, step: &str) -> Result<(), AllocError> {
    let (verb, rest) = (first_word(step), after_word(step));
    let (key, value) = (number_of(first_word(rest)), number_of(after_word(rest)));
    match verb {
        "set" => set(dict, told, key, value),
        "push" => push(dict, key, value),
        "get" => tell(told, dict.get(&key).copied()),
        "remove" => tell(told, dict.remove(&key)),
        "len" => tell(told, u32::try_from(dict.len()).ok()),
        "show" => show(dict, told),
        "walk" => walk(dict, told),
        _ => look(dict, told, verb, key as usize),
    }
}

fn number_of(text: &str) -> u32 {
    text.parse::<u32>().unwrap_or(0)
}

fn set(
    dict: &mut Dict<u32, u32>,
    told: &mut String,
    key: u32,
    value: u32,
) -> Result<(), AllocError> {
    let was = dict.set(key, value)?;
    tell(told, was)
}

/// Puts a pair at the end, where the key is not held.
fn push(dict: &mut Dict<u32, u32>, key: u32, value: u32) -> Result<(), AllocError> {
    if dict.get(&key).is_some() {
        return Ok(());
    }
    dict.push(key, value)
}

fn tell(told: &mut String, answer: Option<u32>) -> Result<(), AllocError> {
    match answer {
        Some(number) => write!(told, "{number} "),
        None => told.push_str("none "),
    }
}

/// The pairs in order.
fn show(dict: &Dict<u32, u32>, told: &mut String) -> Result<(), AllocError> {
    told.push_str("[ ")?;
    for i in 0..dict.len() {
        if let Some((key, value)) = dict.at(i) {
            write!(told, "{key}={value} ")?;
        }
    }
    told.push_str("] ")
}

/// The pairs of a walk.
fn walk(dict: &Dict<u32, u32>, told: &mut String) -> Result<(), AllocError> {
    told.push_str("[ ")?;
    let mut walk = dict.walk();
    for _ in 0..dict.len() {
        if let Some((key, value)) = walk.next() {
            write!(told, "{key}={value} ")?;
        }
    }
    told.push_str("] ")
}

/// Whether a place has a pair, and whether there is none; or goes to a place, or takes all out.
fn look(
    dict: &mut Dict<u32, u32>,
    told: &mut String,
    verb: &str,
    place: usize,
) -> Result<(), AllocError> {
    let word = match verb {
        "at" => yes_or_no(dict.at(place).is_some()),
        "empty" => yes_or_no(dict.is_empty()),
        "seek" => {
            dict.seek(place);
            ""
        }
        "clear" => {
            dict.clear();
            ""
        }
        _ => "no step ",
    };
    told.push_str(word)
}

fn yes_or_no(is_so: bool) -> &'static str {
    if is_so { "yes " } else { "no " }
}

const FEW: &str = r#"0 => show => [ ]
0 => set 3 30; set 1 10; set 3 31; set 2 20; show => none none 30 none [ 3=31 1=10 2=20 ]
0 => set 3 30; set 1 10; set 2 20; remove 1; remove 9; show => none none none 10 none [ 3=30 2=20 ]
0 => set 3 30; set 1 10; remove 3; set 3 33; show => none none 30 none [ 1=10 3=33 ]
0 => empty; set 7 70; set 7 71; empty; get 7; get 8; at 0; at 1; remove 7; len \
    => yes none 70 no 71 none yes no 71 0"#;

#[test]
fn pairs_keep_the_order_of_insertion(rt: HostRuntime) -> Result<(), Fail> {
    all_answer(rt.alloc(), &Steps, FEW)
}

const MANY: &str = r#"12 => len; set 2 22; remove 5; remove 5; set 5 55 => 12 20 50 none none
12 => set 2 22; remove 5; set 5 55; show; get 12; get 13; clear; show \
    => 20 50 none [ 1=10 2=22 3=30 4=40 6=60 7=70 8=80 9=90 10=100 11=110 12=120 5=55 ] 120 none [ ]"#;

#[test]
fn many_pairs_are_as_few(rt: HostRuntime) -> Result<(), Fail> {
    all_answer(rt.alloc(), &Steps, MANY)
}

const WALKED: &str =
    r#"12 => remove 1; remove 2; remove 3; remove 4; remove 5; remove 6; remove 7; remove 8; \
    set 3 33; walk; seek 2; walk; show; len; remove 12; push 4 44; walk \
    => 10 20 30 40 50 60 70 80 none [ 9=90 10=100 11=110 12=120 3=33 ] [ 9=90 10=100 11=110 12=120 3=33 ] \
    [ 9=90 10=100 11=110 12=120 3=33 ] 5 120 [ 9=90 10=100 11=110 3=33 4=44 ]"#;

#[test]
fn a_walk_passes_over_what_was_taken_out(rt: HostRuntime) -> Result<(), Fail> {
    all_answer(rt.alloc(), &Steps, WALKED)
}

/// What comes of the value `7 8` of the key 1 where the second part of the value of a key, the first part, is set to 9.
struct SecondSet;

impl Question for SecondSet {
    fn answer(&self, alloc: Global, parts: &[String]) -> Result<String, Fail> {
        Ok(second_set(alloc, number(parts, 0))?)
    }
}

fn second_set(alloc: Global, key: u32) -> Result<String, AllocError> {
    let mut dict = Dict::new(alloc, seed());
    dict.set(1u32, (7u32, 8u32))?;
    let was = dict.set_second(&key, 9);
    let (first, second) = dict.get(&1).copied().unwrap_or((0, 0));
    match was {
        Ok(was) => format!(in alloc; "{first} {second}, was {was}"),
        Err(kept) => format!(in alloc; "{first} {second}, given back {kept}"),
    }
}

const SECOND_PARTS: &str = r#"1 => 7 9, was 8
2 => 7 8, given back 9"#;

#[test]
fn the_second_part_of_a_value_is_set_alone(rt: HostRuntime) -> Result<(), Fail> {
    all_answer(rt.alloc(), &SecondSet, SECOND_PARTS)
}
