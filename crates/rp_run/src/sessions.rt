//! What a run tells of its sessions: a block for each, and the trail.

ghost use Rattle.std.specs.Prelude.{◌≡◌, ◌++◌, [], if◌then◌else◌, List, IfOk, IsSome, OnOk, chars, length, map};
ghost use Rattle.std.specs.List.{All, list_any};
ghost use Rattle.rp_meaning.specs.Unmonitored.{told_of};
ghost use Rattle.rp_run.specs.Output.{Finished, as_told, entry_lines, run_status, run_text, session_block};
ghost use Rattle.rp_run.specs.Output.{session_blocks, trail_text, who_in};
ghost use Rattle.rp_run.specs.Steps.{ends_so};
ghost use Rattle.rp_session.specs.View.{session_view, sessions_view};
ghost use Rattle.rp_trail.specs.View.{IsEntryHeld, trail_view};
ghost use Rattle.rp_words.specs.View.{pair_view, run_view};

use crate::answer::{Answer, add_number, add_session, end_status};
use rp_base::{Memory, Printed, Status, add_ascii};
use rp_proxy::World;
use rp_session::{Session, Sessions};
use rp_trail::Trail;
use rp_words::{Pair, Run};
use std::alloc::Global;

/// The answer of sessions that have ended: a block for each, and the trail where it is asked for; and 5 where some were
/// stopped, else 1 where exceptions ended some, else 0. It is refused only for want of memory.
pub fn answer_sessions(alloc: Global, command: &Run, sessions: &Sessions) -> Result<Answer, Memory>
    requires as_many { length command.now.pairs.items ≡ length sessions.now.list.items }
    requires ended { All (λ s. IsSome s.end) sessions.now.list.items }
    requires held { All (IsEntryHeld sessions.now.world.names sessions.now.world.decl.permissions)
        sessions.now.world.trail }
    ensures text { IfOk result (λ a. (all : List Finished)
        → map as_told all ≡ map told_of (sessions_view sessions.now).sessions
        → a.text ≡ run_text (run_view command.now) all (sessions_view sessions.now).log) }
    ensures status { IfOk result (λ a. (all : List Finished)
        → map as_told all ≡ map told_of (sessions_view sessions.now).sessions → a.status.0 ≡ run_status all) }
{
    let mut text = Printed::new(alloc);
    let list = sessions.list.as_slice();
    add_sessions(alloc, &mut text, command.pairs.as_slice(), list)?;
    add_asked_trail(alloc, &mut text, command, &sessions.world)?;
    Ok(Answer {
        text,
        status: run_status(list),
    })
}

/// Appends the blocks of sessions.
fn add_sessions(
    alloc: Global,
    text: &mut Printed,
    pairs: &[Pair],
    sessions: &[Session],
) -> Result<(), Memory>
    requires as_many { length pairs.now ≡ length sessions.now }
    requires ended { All (λ s. IsSome s.end) sessions.now }
    ensures { OnOk result ((all : List Finished) → map as_told all ≡ map told_of (map session_view sessions.now)
        → text.new ≡ text.old ++ session_blocks 1 (map pair_view pairs.now) all) }
{
    for (place, pair) in pairs.iter().enumerate() {
        add_ended(alloc, text, place + 1, pair, &sessions[place])?;
    }
    Ok(())
}

/// Appends the block of a session that has ended.
fn add_ended(
    alloc: Global,
    text: &mut Printed,
    number: usize,
    pair: &Pair,
    session: &Session,
) -> Result<(), Memory>
    requires ended { IsSome session.now.end }
    ensures { OnOk result ((f : Finished) → as_told f ≡ told_of (session_view session.now)
        → text.new ≡ text.old ++ session_block number pair.now.who f.1 f.0) }
{
    match &session.end {
        Some(end) => {
            let printed = session.running.printed.as_str();
            add_session(alloc, text, number, &pair.who, printed, end)
        }
        None => unreachable!(),
    }
}

/// 5 where some session was stopped, else 1 where an exception ended some, else 0.
fn run_status(sessions: &[Session]) -> Status
    ensures { (all : List Finished) → map as_told all ≡ map told_of (map session_view sessions.now)
        → result.0 ≡ run_status all }
{
    let stopped = some_ends(sessions, 5);
    if stopped {
        return Status(5);
    }
    let raised = some_ends(sessions, 1);
    if raised {
        return Status(1);
    }
    Status(0)
}

/// Whether some session ended with a status.
fn some_ends(sessions: &[Session], status: u8) -> bool
    ensures { result ≡ list_any (λ s. ends_so status (told_of (session_view s))) sessions.now }
{
    sessions.iter().any(|session| ends_so(session, status))
}

/// Whether a session ended with a status.
fn ends_so(session: &Session, status: u8) -> bool
    ensures { result ≡ ends_so status (told_of (session_view session.now)) }
{
    match &session.end {
        Some(end) => end_status(end).0 == status,
        None => false,
    }
}

/// Appends the trail, where it is asked for.
fn add_asked_trail(
    alloc: Global,
    text: &mut Printed,
    command: &Run,
    world: &World,
) -> Result<(), Memory>
    requires held { All (IsEntryHeld world.now.names world.now.decl.permissions) world.now.trail }
    ensures { OnOk result (text.new ≡ text.old ++ (if command.now.trail
        then trail_text (map pair_view command.now.pairs.items)
        (trail_view world.now.names world.now.decl.permissions world.now.trail)
        else [])) }
{
    let asked = command.trail;
    if !asked {
        return Ok(());
    }
    add_trail(alloc, text, command.pairs.as_slice(), world)
}

/// Appends the trail: how many decisions there were, and a line for each.
fn add_trail(alloc: Global, text: &mut Printed, pairs: &[Pair], world: &World) -> Result<(), Memory>
    requires held { All (IsEntryHeld world.now.names world.now.decl.permissions) world.now.trail }
    ensures { OnOk result (text.new ≡ text.old ++ trail_text (map pair_view pairs.now)
        (trail_view world.now.names world.now.decl.permissions world.now.trail)) }
{
    add_ascii(text, "trail ")?;
    add_number(alloc, text, world.trail.len())?;
    add_ascii(text, "\n")?;
    add_entries(alloc, text, pairs, world)
}

/// Appends the line of each decision.
fn add_entries(
    alloc: Global,
    text: &mut Printed,
    pairs: &[Pair],
    world: &World,
) -> Result<(), Memory>
    requires held { All (IsEntryHeld world.now.names world.now.decl.permissions) world.now.trail }
    ensures { OnOk result (text.new ≡ text.old ++ entry_lines (map pair_view pairs.now) 0
        (trail_view world.now.names world.now.decl.permissions world.now.trail)) }
{
    let entries = world.trail.entries();
    for (place, entry) in entries.iter().enumerate() {
        let who = who_in(pairs, entry.session);
        let line = Trail::line(alloc, place, who, entry, &world.decl, &world.names)?;
        text.add(line.as_str())?;
    }
    Ok(())
}

/// The principals of the session of a number, as in the words.
fn who_in(pairs: &[Pair], session: u32) -> &str
    ensures { chars result.now ≡ who_in (map pair_view pairs.now) session }
{
    let place = (session as usize).saturating_sub(1);
    if place < pairs.len() {
        pairs[place].who.as_str()
    } else {
        ""
    }
}
