//! The words of a command line, and the command that they give.

ghost use Rattle.std.specs.Prelude.{◌≡◌, None, Some, IfOk, ◌∷◌, map, option_and_then, option_map, string_bytes};
ghost use Rattle.clap.specs.Words.{found_of, rows_of};
ghost use Rattle.rp_words.specs.Command.{command_of, is_on, large_given, large_of, may_given, may_of, question_of};
ghost use Rattle.rp_words.specs.Command.{run_given, run_of, script, script_given, script_of};
ghost use Rattle.rp_words.specs.View.{command_view, may_view, run_view};

use crate::command::{Command, May, Question, Run};
use crate::fault::WordsFault;
use crate::number::{read_limit, read_number};
use crate::options::{
    large_matches, may_matches, run_matches, script_matches, value_of, values_of,
};
use crate::pair::{read_ids, read_pairs};
use crate::turns::read_turns;
use clap::ArgMatches;
use rp_base::{Memory, Text};
use rp_decl::is_id;
use std::alloc::Global;

const MOST_STEPS: u64 = 100_000_000;

const MOST_CELLS: u64 = 8_000_000;

const LARGEST: u64 = 10_000;

/// The command that the words of the command line give.
///
/// # Errors
/// `Usage` exactly where they give none, and `Memory` where a growth was refused.
pub fn read_words(alloc: Global, words: &[String]) -> Result<Command, WordsFault>
    ensures read { IfOk result (λ c. command_of (map string_bytes words.now) ≡ Some (command_view c)) }
    ensures usage { result ≡ Err WordsFault.Usage → command_of (map string_bytes words.now) ≡ None }
{
    match read_command(alloc, words) {
        Ok(Some(command)) => Ok(command),
        Ok(None) => Err(WordsFault::Usage),
        Err(_) => Err(WordsFault::Memory),
    }
}

fn read_command(alloc: Global, words: &[String]) -> Result<Option<Command>, Memory>
    ensures { IfOk result (λ c. option_map command_view c ≡ command_of (map string_bytes words.now)) }
{
    match words {
        [verb, words @ ..] => read_verb(alloc, verb.as_str(), words),
        [] => Ok(None),
    }
}

fn read_verb(alloc: Global, verb: &str, words: &[String]) -> Result<Option<Command>, Memory>
    ensures { IfOk result (λ c. option_map command_view c
        ≡ command_of (verb.now ∷ map string_bytes words.now)) }
{
    if verb == "run" {
        Ok(read_run(alloc, words)?.map(Command::Run))
    } else if verb == "may" {
        Ok(read_may(alloc, words)?.map(Command::May))
    } else if verb == "large" {
        Ok(read_large(alloc, words)?.map(Command::Large))
    } else {
        read_question(alloc, verb, words)
    }
}

fn read_question(alloc: Global, verb: &str, words: &[String]) -> Result<Option<Command>, Memory>
    ensures { IfOk result (λ c. option_map command_view c ≡ option_and_then
        (λ question. option_map (script question) (script_of (map string_bytes words.now))) (question_of verb.now)) }
{
    let Some(question) = question_of(verb) else {
        return Ok(None);
    };
    let Some(path) = read_script(alloc, words)? else {
        return Ok(None);
    };
    Ok(Some(Command::Script(question, path)))
}

/// The question of a word.
fn question_of(verb: &str) -> Option<Question>
    ensures { result ≡ question_of verb.now }
{
    if verb == "check" {
        Some(Question::Check)
    } else if verb == "show" {
        Some(Question::Show)
    } else {
        None
    }
}

fn read_run(alloc: Global, words: &[String]) -> Result<Option<Run>, Memory>
    ensures { IfOk result (λ run. option_map run_view run ≡ run_of (map string_bytes words.now)) }
{
    match run_matches(alloc, words)? {
        None => Ok(None),
        Some(matches) => read_run_matches(alloc, &matches),
    }
}

fn read_run_matches(alloc: Global, matches: &ArgMatches<'_>) -> Result<Option<Run>, Memory>
    ensures { IfOk result (λ run. option_map run_view run ≡ run_given (rows_of (found_of matches.now))) }
{
    let Some(declarations) = value_of(matches, "declarations") else {
        return Ok(None);
    };
    let Some(words) = values_of(matches, "pairs") else {
        return Ok(None);
    };
    let Some(pairs) = read_pairs(alloc, words)? else {
        return Ok(None);
    };
    let Some(steps) = read_limit(value_of(matches, "steps"), MOST_STEPS) else {
        return Ok(None);
    };
    let Some(cells) = read_limit(value_of(matches, "cells"), MOST_CELLS) else {
        return Ok(None);
    };
    let Some(turns) = read_turns(alloc, pairs.len() as u64, value_of(matches, "turns"))? else {
        return Ok(None);
    };
    Ok(Some(Run {
        declarations: Text::new(alloc, declarations)?,
        pairs,
        steps,
        cells,
        turns,
        trail: is_on(value_of(matches, "trail")),
    }))
}

/// Whether a flag is there.
fn is_on(value: Option<&str>) -> bool
    ensures { result ≡ is_on (option_map (λ t. t.now) value.entry) }
{
    match value {
        Some(text) => text == "true",
        None => false,
    }
}

fn read_script(alloc: Global, words: &[String]) -> Result<Option<Text>, Memory>
    ensures { IfOk result (λ path. path ≡ script_of (map string_bytes words.now)) }
{
    match script_matches(alloc, words)? {
        None => Ok(None),
        Some(matches) => read_script_matches(alloc, &matches),
    }
}

fn read_script_matches(alloc: Global, matches: &ArgMatches<'_>) -> Result<Option<Text>, Memory>
    ensures { IfOk result (λ path. path ≡ script_given (rows_of (found_of matches.now))) }
{
    match value_of(matches, "script") {
        None => Ok(None),
        Some(path) => Ok(Some(Text::new(alloc, path)?)),
    }
}

fn read_may(alloc: Global, words: &[String]) -> Result<Option<May>, Memory>
    ensures { IfOk result (λ may. option_map may_view may ≡ may_of (map string_bytes words.now)) }
{
    match may_matches(alloc, words)? {
        None => Ok(None),
        Some(matches) => read_may_matches(alloc, &matches),
    }
}

fn read_may_matches(alloc: Global, matches: &ArgMatches<'_>) -> Result<Option<May>, Memory>
    ensures { IfOk result (λ may. option_map may_view may ≡ may_given (rows_of (found_of matches.now))) }
{
    let Some(declarations) = value_of(matches, "declarations") else {
        return Ok(None);
    };
    let Some(who) = value_of(matches, "who") else {
        return Ok(None);
    };
    let Some(permission) = value_of(matches, "permission") else {
        return Ok(None);
    };
    let Some(ids) = read_ids(alloc, who)? else {
        return Ok(None);
    };
    if !is_id(permission) {
        return Ok(None);
    }
    Ok(Some(May {
        declarations: Text::new(alloc, declarations)?,
        ids,
        permission: Text::new(alloc, permission)?,
    }))
}

fn read_large(alloc: Global, words: &[String]) -> Result<Option<u32>, Memory>
    ensures { IfOk result (λ number. number ≡ large_of (map string_bytes words.now)) }
{
    match large_matches(alloc, words)? {
        None => Ok(None),
        Some(matches) => Ok(read_large_matches(&matches)),
    }
}

fn read_large_matches(matches: &ArgMatches<'_>) -> Option<u32>
    ensures { result ≡ large_given (rows_of (found_of matches.now)) }
{
    match value_of(matches, "number") {
        None => None,
        Some(digits) => read_number(digits, 5, 1, LARGEST),
    }
}
