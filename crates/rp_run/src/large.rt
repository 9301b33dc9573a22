//! The command `large`: the large input, which is made in memory, and its run.

ghost use Rattle.std.specs.Prelude.{◌≡◌, ◌≢◌, ◌≤◌, ◌-◌, ◌++◌, ◌∷◌, ℕ, [], List, IfErr, IfOk, IsSome, OnOk, length, map};
ghost use Rattle.std.specs.Prelude.{string_bytes, true};
ghost use Rattle.std.specs.Char.{is_ascii};
ghost use Rattle.std.specs.List.{All, list_all};
ghost use Rattle.rp_base.specs.InMemory.{bytes_at};
ghost use Rattle.rp_meaning.specs.Sessions.{Session as MeantSession};
ghost use Rattle.rp_meaning.specs.Unmonitored.{told_of};
ghost use Rattle.rp_run.specs.Output.{Finished, as_told, input_lines, number_line, run_status, run_text, used_lines};
ghost use Rattle.rp_run.specs.Played.{PlayedRun, used_front};
ghost use Rattle.rp_run.specs.Refusals.{OnRefusal};
ghost use Rattle.rp_run.specs.SetUp.{IsReadyWith, IsSetUp, PlayedReady, ToldReadyUsed};
ghost use Rattle.rp_run.specs.Steps.{IsCommandStatus};
ghost use Rattle.rp_run.specs.Told.{ToldLarge, ToldRefusedRun, large_contents, large_lines, large_pair, large_run};
ghost use Rattle.rp_run.specs.Told.{texts_at};
ghost use Rattle.rp_session.specs.View.{session_view, sessions_view};
ghost use Rattle.rp_trail.specs.View.{IsEntryHeld};
ghost use Rattle.rp_words.specs.View.{pair_view, run_view};

use crate::answer::{Answer, add_number};
use crate::playing::play_ready;
use crate::ready::{Ready, make_ready};
use crate::sessions::answer_sessions;
use crate::stop::Stop;
use rp_base::{Memory, Printed, SureFiles, Text, add_ascii};
use rp_gen::large;
use rp_session::{NoOutcome, Session, Sessions};
use rp_words::{Pair, Run, USUAL_LIMIT};
use std::alloc::Global;

/// What the program says where the large input of a size is to be run: its size, the bytes of its texts, the steps, the
/// cells and the decisions that its run took, and then what a run without options tells. Its session is put into what
/// is empty before. It is refused only for want of memory.
pub fn answer_large(alloc: Global, size: u32, sessions: &mut Vec<Session>) -> Result<Answer, Memory>
    requires some { 1 ≤ size }
    requires most { size ≤ 10000 }
    requires none { sessions.old.items ≡ [] }
    ensures told { IfOk result (λ a. ToldLarge large_run (large_contents size) size a.text a.status.0) }
    ensures played { IfOk result (λ a. PlayedRun large_run (large_contents size)
        (used_front (large_lines size) sessions.new.items) a.text a.status.0 sessions.new.items) }
    ensures status { IfOk result (λ a. IsCommandStatus a.status.0) }
{
    let command = large_run(alloc)?;
    let texts = large(alloc, size)?;
    let lines = input_lines(alloc, size, texts.0.as_str(), texts.1.as_str())?;
    let files = large_files(alloc, texts)?;
    match read_ready(alloc, &command, files) {
        Ok(ready) => play_large(alloc, &command, lines, ready, sessions),
        Err(Stop::Refused(answer)) => Ok(answer),
        Err(Stop::Failed) => unreachable!(),
        Err(Stop::Memory) => Err(Memory),
    }
}

/// The run of the large input: one script without options. It is refused only for want of memory.
fn large_run(alloc: Global) -> Result<Run, Memory>
    ensures run { IfOk result (λ r. run_view r ≡ large_run) }
    ensures alone { IfOk result (λ r. length r.pairs.items ≡ 1) }
{
    let declarations = ascii_text(alloc, "declarations")?;
    let pair = large_pair(alloc)?;
    let mut pairs = Vec::new(alloc);
    pairs.push(pair)?;
    let turns = Vec::new(alloc);
    Ok(Run {
        declarations,
        pairs,
        steps: USUAL_LIMIT,
        cells: USUAL_LIMIT,
        turns,
        trail: false,
    })
}

/// The script of the large input, and its principal. It is refused only for want of memory.
fn large_pair(alloc: Global) -> Result<Pair, Memory>
    ensures { IfOk result (λ p. pair_view p ≡ large_pair) }
{
    let who = ascii_text(alloc, "p")?;
    let id = ascii_text(alloc, "p")?;
    let path = ascii_text(alloc, "script")?;
    let mut ids = Vec::new(alloc);
    ids.push(id)?;
    Ok(Pair { who, ids, path })
}

/// An ASCII text, whose characters are its bytes. It is refused only for want of memory.
fn ascii_text(alloc: Global, word: &str) -> Result<Text, Memory>
    requires { list_all is_ascii word.now ≡ true }
    ensures { IfOk result (λ text. text ≡ word.now) }
{
    Text::new(alloc, word)
}

/// The size of the large input and the bytes of its declarations and its script, a line each. It is refused only for
/// want of memory.
fn input_lines(
    alloc: Global,
    size: u32,
    declarations: &str,
    script: &str,
) -> Result<Printed, Memory>
    ensures { IfOk result (λ text. text ≡ input_lines size (length declarations.now) (length script.now)) }
{
    let mut text = Printed::new(alloc);
    add_line(alloc, &mut text, "large ", size as usize)?;
    add_ascii(&mut text, "bytes ")?;
    add_number(alloc, &mut text, declarations.len())?;
    add_line(alloc, &mut text, " ", script.len())?;
    Ok(text)
}

/// The declarations and the script of the large input as files in memory. It is refused only for want of memory.
fn large_files(alloc: Global, texts: (String, String)) -> Result<SureFiles, Memory>
    ensures contents { IfOk result (λ files.
        bytes_at files.listed ≡ texts_at (string_bytes texts.0) (string_bytes texts.1)) }
    ensures unread { IfOk result (λ files. files.begun ≡ 0) }
{
    let (declarations, script) = texts;
    let first = ascii_text(alloc, "declarations")?;
    let second = ascii_text(alloc, "script")?;
    let mut list = Vec::new(alloc);
    list.push((first, declarations.into_bytes()))?;
    list.push((second, script.into_bytes()))?;
    Ok(SureFiles::new(list))
}

/// Reads files in memory as those of a run, and drops them before its sessions.
///
/// # Errors
/// `Refused` with what is said at the first step that refuses, `Memory` where a growth was refused.
fn read_ready(alloc: Global, command: &Run, files: SureFiles) -> Result<Ready, Stop>
    requires unread { files.begun ≡ 0 }
    requires few { length command.now.pairs.items ≤ 16 }
    ensures ready { IfOk result (λ x. IsReadyWith (run_view command.now) (bytes_at files.listed) x) }
    ensures set_up { IfOk result (IsSetUp (run_view command.now)) }
    ensures refused { IfErr result (OnRefusal (λ a.
        ToldRefusedRun (run_view command.now) (bytes_at files.listed) a.text a.status.0)) }
    ensures status { IfErr result (OnRefusal (λ a. IsCommandStatus a.status.0)) }
    ensures unfailed { IfErr result (λ stop. stop ≢ Stop.Failed) }
{
    let mut files = files;
    make_ready(alloc, command, &mut files)
}

/// Runs the script of the large input, tells behind these lines what it took and what it came to, and hands out its
/// session. It is refused only for want of memory, for which a machine is taken whose count is full.
fn play_large(
    alloc: Global,
    command: &Run,
    lines: Printed,
    ready: Ready,
    played: &mut Vec<Session>,
) -> Result<Answer, Memory>
    requires ready { IsSetUp (run_view command.now) ready }
    requires alone { length command.now.pairs.items ≡ 1 }
    ensures told { IfOk result (λ a. (n : ℕ) → lines ≡ large_lines n
        → ToldReadyUsed (run_view command.now) n ready a.text a.status.0) }
    ensures played { IfOk result (λ a. PlayedReady (run_view command.now) ready
        (used_front lines played.new.items) a.text a.status.0 played.new.items) }
    ensures status { IfOk result (λ a. IsCommandStatus a.status.0) }
{
    match play_ready(alloc, command, ready) {
        Ok(sessions) => {
            let told = answer_used(alloc, command, lines, &sessions);
            *played = sessions.into_list();
            told
        }
        Err(NoOutcome::TooLong | NoOutcome::Memory) => Err(Memory),
    }
}

/// The answer of a session that has ended: what it used, behind these lines, and then what a run tells. It is refused
/// only for want of memory.
fn answer_used(
    alloc: Global,
    command: &Run,
    lines: Printed,
    sessions: &Sessions,
) -> Result<Answer, Memory>
    requires as_many { length command.now.pairs.items ≡ length sessions.now.list.items }
    requires ended { All (λ s. IsSome s.end) sessions.now.list.items }
    requires held { All (IsEntryHeld sessions.now.world.names sessions.now.world.decl.permissions)
        sessions.now.world.trail }
    ensures text { IfOk result (λ a. (all : List Finished) (only : MeantSession)
        → map as_told all ≡ map told_of (sessions_view sessions.now).sessions
        → (sessions_view sessions.now).sessions ≡ only ∷ []
        → a.text ≡ lines ++ used_lines (command.now.steps - only.steps) (sessions_view sessions.now).store.used
        (length (sessions_view sessions.now).log)
        ++ run_text (run_view command.now) all (sessions_view sessions.now).log) }
    ensures status { IfOk result (λ a. (all : List Finished)
        → map as_told all ≡ map told_of (sessions_view sessions.now).sessions → a.status.0 ≡ run_status all) }
{
    let told = answer_sessions(alloc, command, sessions)?;
    let left = steps_left(sessions.list.as_slice());
    let steps = command.steps.saturating_sub(left);
    let cells = sessions.world.store.used();
    let entries = sessions.world.trail.len();
    let mut text = lines;
    add_used(alloc, &mut text, steps, cells, entries)?;
    text.add(told.text.as_str())?;
    Ok(Answer {
        text,
        status: told.status,
    })
}

/// The steps that are left to the only session.
fn steps_left(sessions: &[Session]) -> u64
    ensures { (only : MeantSession) → map session_view sessions.now ≡ only ∷ [] → result ≡ only.steps }
{
    match sessions {
        [session] => session.running.meter.left,
        _ => 0,
    }
}

/// Appends the steps and the cells that were used, and how many decisions there were, a line each.
fn add_used(
    alloc: Global,
    text: &mut Printed,
    steps: u64,
    cells: u64,
    entries: usize,
) -> Result<(), Memory>
    ensures { OnOk result (text.new ≡ text.old ++ used_lines steps cells entries) }
{
    add_line(alloc, text, "steps ", steps as usize)?;
    add_line(alloc, text, "cells ", cells as usize)?;
    add_line(alloc, text, "entries ", entries)
}

/// Appends a line for a number.
fn add_line(alloc: Global, text: &mut Printed, label: &str, number: usize) -> Result<(), Memory>
    requires { list_all is_ascii label.now ≡ true }
    ensures { OnOk result (text.new ≡ text.old ++ number_line label.now number) }
{
    add_ascii(text, label)?;
    add_number(alloc, text, number)?;
    add_ascii(text, "\n")
}
