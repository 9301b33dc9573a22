//! What each command takes behind its first word, and what the words give it.

ghost use Rattle.std.specs.Prelude.{◌≡◌, true, false, IfOk, map, option_map, string_bytes};
ghost use Rattle.clap.specs.Faults.{is_simple_and_free};
ghost use Rattle.clap.specs.Words.{all_of, app_of, first_of, found_of, rows_of, rule_of};
ghost use Rattle.rp_words.specs.Options.{bare_command, flag, given, large_command, last_words, may_command};
ghost use Rattle.rp_words.specs.Options.{option, positional, run_command, script_command};

use clap::error::ErrorKind;
use clap::{Arg, ArgAction, ArgMatches, Command};
use rp_base::Memory;
use std::alloc::{AllocError, Global};

/// What the words of `run` give each of its arguments, where it takes them.
pub fn run_matches<'a>(alloc: Global, words: &'a [String]) -> Result<Option<ArgMatches<'a>>, Memory>
    ensures { IfOk result (λ found. option_map (λ m. rows_of (found_of m)) found
        ≡ given run_command (map string_bytes words.entry.now)) }
{
    matches(run_command(alloc)?, words)
}

/// What the words of `check` and `show` give, likewise.
pub fn script_matches<'a>(
    alloc: Global,
    words: &'a [String],
) -> Result<Option<ArgMatches<'a>>, Memory>
    ensures { IfOk result (λ found. option_map (λ m. rows_of (found_of m)) found
        ≡ given script_command (map string_bytes words.entry.now)) }
{
    matches(script_command(alloc)?, words)
}

/// What the words of `may` give, likewise.
pub fn may_matches<'a>(alloc: Global, words: &'a [String]) -> Result<Option<ArgMatches<'a>>, Memory>
    ensures { IfOk result (λ found. option_map (λ m. rows_of (found_of m)) found
        ≡ given may_command (map string_bytes words.entry.now)) }
{
    matches(may_command(alloc)?, words)
}

/// What the words of `large` give, likewise.
pub fn large_matches<'a>(
    alloc: Global,
    words: &'a [String],
) -> Result<Option<ArgMatches<'a>>, Memory>
    ensures { IfOk result (λ found. option_map (λ m. rows_of (found_of m)) found
        ≡ given large_command (map string_bytes words.entry.now)) }
{
    matches(large_command(alloc)?, words)
}

/// The first value of an argument.
pub fn value_of<'a>(matches: &ArgMatches<'a>, id: &str) -> Option<&'a str>
    ensures { option_map (λ v. v.now) result ≡ first_of id.now (rows_of (found_of matches.now)) }
{
    matches.get_str(id)
}

/// All values of an argument, in order.
pub fn values_of<'m, 'a>(matches: &'m ArgMatches<'a>, id: &str) -> Option<&'m [&'a str]>
    ensures { option_map (λ s. map (λ v. v.now) s.now) result ≡ all_of id.now (rows_of (found_of matches.now)) }
{
    matches.get_strs(id)
}

fn matches<'a>(command: Command<'a>, words: &'a [String]) -> Result<Option<ArgMatches<'a>>, Memory>
    requires { is_simple_and_free (app_of command) ≡ true }
    ensures { IfOk result (λ found. option_map (λ m. rows_of (found_of m)) found
        ≡ given (app_of command.entry) (map string_bytes words.entry.now)) }
{
    match command.try_get_matches_from(words) {
        Ok(found) => Ok(Some(found)),
        Err(error) => {
            if error.kind() == ErrorKind::OutOfMemory {
                Err(Memory)
            } else {
                Ok(None)
            }
        }
    }
}

fn run_command<'a>(alloc: Global) -> Result<Command<'a>, AllocError>
    ensures { IfOk result (λ c. app_of c ≡ run_command) }
{
    bare_command(alloc, "run")
        .arg(positional(alloc, "declarations"))?
        .arg(last_words(alloc, "pairs"))?
        .arg(option(alloc, "steps"))?
        .arg(option(alloc, "cells"))?
        .arg(option(alloc, "turns"))?
        .arg(flag(alloc, "trail"))
}

fn script_command<'a>(alloc: Global) -> Result<Command<'a>, AllocError>
    ensures { IfOk result (λ c. app_of c ≡ script_command) }
{
    bare_command(alloc, "script").arg(positional(alloc, "script"))
}

fn may_command<'a>(alloc: Global) -> Result<Command<'a>, AllocError>
    ensures { IfOk result (λ c. app_of c ≡ may_command) }
{
    bare_command(alloc, "may")
        .arg(positional(alloc, "declarations"))?
        .arg(positional(alloc, "who"))?
        .arg(positional(alloc, "permission"))
}

fn large_command<'a>(alloc: Global) -> Result<Command<'a>, AllocError>
    ensures { IfOk result (λ c. app_of c ≡ large_command) }
{
    bare_command(alloc, "large").arg(positional(alloc, "number"))
}

fn bare_command<'a>(alloc: Global, name: &'a str) -> Command<'a>
    ensures { app_of result ≡ bare_command name.entry.now }
{
    Command::new(alloc, name)
        .no_binary_name(true)
        .disable_help_flag(true)
        .disable_version_flag(true)
}

fn positional<'a>(alloc: Global, id: &'a str) -> Arg<'a>
    ensures rule { rule_of result ≡ positional id.entry.now }
    ensures local { result.global ≡ false }
{
    Arg::new(alloc, id).action(ArgAction::Set).required(true)
}

fn last_words<'a>(alloc: Global, id: &'a str) -> Arg<'a>
    ensures rule { rule_of result ≡ last_words id.entry.now }
    ensures local { result.global ≡ false }
{
    Arg::new(alloc, id)
        .action(ArgAction::Append)
        .num_args(1..)
        .required(true)
}

fn option<'a>(alloc: Global, id: &'a str) -> Arg<'a>
    ensures rule { rule_of result ≡ option id.entry.now }
    ensures local { result.global ≡ false }
{
    Arg::new(alloc, id).long(id).action(ArgAction::Set)
}

fn flag<'a>(alloc: Global, id: &'a str) -> Arg<'a>
    ensures rule { rule_of result ≡ flag id.entry.now }
    ensures local { result.global ≡ false }
{
    Arg::new(alloc, id).long(id).action(ArgAction::SetTrue)
}
