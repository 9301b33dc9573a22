//! The command `run`: scripts in sessions that take turns.

ghost use Rattle.std.specs.Prelude.{◌≡◌, ◌<◌, ◌≤◌, [], IfOk, IfSome, IsErrOf, IsSome, Some, length};
ghost use Rattle.std.specs.List.{All};
ghost use Rattle.rp_run.specs.Headline.{BeginsNamed, FailsAtNamed};
ghost use Rattle.rp_run.specs.Played.{PlayedRun, no_front};
ghost use Rattle.rp_run.specs.Refusals.{OnAnswer};
ghost use Rattle.rp_run.specs.SetUp.{IsSetUp, PlayedReady, ReachesReady, ToldReady};
ghost use Rattle.rp_run.specs.Steps.{IsCommandStatus};
ghost use Rattle.rp_run.specs.Told.{ToldRun};
ghost use Rattle.rp_session.specs.Ready.{AreReady};
ghost use Rattle.rp_session.specs.View.{AddsUp, sessions_view};
ghost use Rattle.rp_words.specs.Command.{run};
ghost use Rattle.rp_words.specs.View.{run_view};

use crate::answer::Answer;
use crate::ready::{Ready, make_ready};
use crate::sessions::answer_sessions;
use crate::stop::Stop;
use rp_base::{Files, Memory};
use rp_session::{NoOutcome, Session, Sessions, play};
use rp_words::Run;
use std::alloc::Global;

/// What the program says where scripts are to be run. Their sessions are put into what is empty before.
///
/// # Errors
/// `Refused` with what is said where a step refuses, `Failed` where a read failed, `Memory` where a growth or an
/// opening was refused memory.
pub fn answer_run<F: Files>(
    alloc: Global,
    command: &Run,
    files: &mut F,
    sessions: &mut Vec<Session>,
) -> Result<Answer, Stop>
    requires unread { F.begun files.old ≡ 0 }
    requires sound { F.faults files.old ≡ 0 }
    requires none { sessions.old.items ≡ [] }
    requires few { length command.now.pairs.items ≤ 16 }

    ensures told { OnAnswer result (λ a. IfSome (F.contents files.old)
        (λ of. ToldRun (run_view command.now) of a.text a.status.0)) }
    ensures played { OnAnswer result (λ a. IfSome (F.contents files.old)
        (λ of. PlayedRun (run_view command.now) of no_front a.text a.status.0 sessions.new.items)) }
    ensures status { OnAnswer result (λ a. IsCommandStatus a.status.0) }

    ensures begun { BeginsNamed (Some (run (run_view command.now))) (F.begun files.new) (F.last_path files.new) }
    ensures sound { OnAnswer result (λ _. F.faults files.new ≡ 0) }
    ensures failed { IsErrOf result Stop.Failed → 0 < F.faults files.new }
    ensures cause { IsErrOf result Stop.Failed
        → FailsAtNamed (Some (run (run_view command.now))) (F.contents files.old) (F.begun files.new)
        (F.last_path files.new) }
    ensures memory { IsErrOf result Stop.Memory → F.faults files.new ≡ 0 }
{
    let ready = make_ready(alloc, command, files)?;
    Ok(run_scripts(alloc, command, ready, sessions)?)
}

/// What scripts come to that stand under no offence, and their sessions. It is refused only for want of memory, for
/// which a machine is taken whose count is full.
fn run_scripts(
    alloc: Global,
    command: &Run,
    ready: Ready,
    played: &mut Vec<Session>,
) -> Result<Answer, Memory>
    requires ready { IsSetUp (run_view command.now) ready }
    requires few { length command.now.pairs.items ≤ 16 }
    ensures told { IfOk result (λ a. ToldReady (run_view command.now) ready a.text a.status.0) }
    ensures played { IfOk result (λ a. PlayedReady (run_view command.now) ready no_front a.text a.status.0
        played.new.items) }
    ensures status { IfOk result (λ a. IsCommandStatus a.status.0) }
{
    match play_ready(alloc, command, ready) {
        Ok(sessions) => {
            let told = answer_sessions(alloc, command, &sessions);
            *played = sessions.into_list();
            told
        }
        Err(NoOutcome::TooLong | NoOutcome::Memory) => Err(Memory),
    }
}

/// The sessions of the scripts of a run, as they ended.
///
/// # Errors
/// `TooLong` where a count of a machine is full, `Memory` where a growth was refused.
pub fn play_ready(alloc: Global, command: &Run, ready: Ready) -> Result<Sessions, NoOutcome>
    requires ready { IsSetUp (run_view command.now) ready }
    requires few { length command.now.pairs.items ≤ 16 }
    ensures reaches { IfOk result (λ sessions. ReachesReady (run_view command.now) ready (sessions_view sessions)) }
    ensures ended { IfOk result (λ sessions. All (λ session. IsSome session.end) sessions.list.items) }
    ensures count { IfOk result (λ sessions. length sessions.list.items ≡ length command.now.pairs.items) }
    ensures used { IfOk result (λ sessions. All (AddsUp command.now.steps) sessions.list.items) }
    ensures ready { IfOk result AreReady }
{
    let Ready {
        loaded,
        whos,
        scripts,
    } = ready;
    let turns = command.turns.as_slice();
    play(alloc, loaded, whos, scripts, turns, command.steps)
}
