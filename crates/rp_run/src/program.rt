//! The whole program: words and files to text and a status.

ghost use Rattle.std.specs.Prelude.{◌≡◌, ◌≢◌, ◌⊎◌, ◌<◌, ◌↔◌, [], map, string_bytes, IfOk, IfSome, MatchOption, None};
ghost use Rattle.std.specs.Prelude.{IsErrOf, OnOk};
ghost use Rattle.rp_run.specs.Headline.{IsAnswer, IsStatus, Writes, TellsWhole, TellsFront, BeginsNamed, FailsAtNamed};
ghost use Rattle.rp_run.specs.Played.{Played, PlaysWhole};
ghost use Rattle.rp_run.specs.Refusals.{OnAnswer};
ghost use Rattle.rp_run.specs.Steps.{IsStatusOf};
ghost use Rattle.rp_run.specs.Told.{Told};
ghost use Rattle.rp_words.specs.Command.{command_of, usage};

use crate::answer::Answer;
use crate::large::answer_large;
use crate::playing::answer_run;
use crate::script_answer::answer_script;
use crate::stop::{Silence, Stop, said};
use crate::telling::answer_may;
use crate::writing::write_text;
use rp_base::{Failed, Files, Sink, Status};
use rp_session::Session;
use rp_words::{Command, WordsFault, read_words};
use std::alloc::Global;

/// What a run comes to: its status, and the sessions that were played, in order (none where the command plays none, and
/// where it was refused or failed).
#[derive(Drop)]
pub struct Ran {
    pub status: Status,
    pub sessions: Vec<Session>,
}

impl Ran {
    /// A run without sessions.
    fn without(alloc: Global, status: u8) -> Ran
        ensures status { result.status.0 ≡ status }
        ensures none { result.sessions.items ≡ [] }
    {
        Ran {
            status: Status(status),
            sessions: Vec::new(alloc),
        }
    }
}

/// Runs the command that the words give, and answers the status of the program, with the sessions that were played.
///
/// Whatever the words and the files say, what is written and the status are those of the direct meaning of the source
/// scripts, in the listed turns over one store in which the trusted module has run, where each operation through a lent
/// reference is first decided by the declared policy for a script's principals, and logged; `may` tells what that
/// policy grants, `check` the faults and offences of a script, and `show` its text with its guards; `large` runs an
/// input that it makes, and tells what the run took. All text goes to `out`, and only after the last step.
///
/// | status | means |
/// |---|---|
/// | 0 | each session ended well; or the script is accepted or shown; or the principals have the permission |
/// | 1 | a session ended by an exception, and none was stopped; or the principals lack the permission |
/// | 2 | the words give no command |
/// | 3 | declarations, module, a principal or the permission are refused |
/// | 4 | a script is refused |
/// | 5 | a session was stopped, as no step or no cell was left |
/// | 6 | a read failed; nothing is written |
/// | 7 | a write failed; a front of the text is written |
/// | 8 | want of memory, or a count of a machine is full; nothing is written |
/// | 9 | a file has more than 4,194,304 bytes |
pub fn run<F: Files, K: Sink>(alloc: Global, words: &[String], files: &mut F, out: &mut K) -> Ran
    requires unread { F.begun files.old ≡ 0 }
    requires sound_files { F.faults files.old ≡ 0 }
    requires sound_out { K.faults out.old ≡ 0 }

    // The headline: where nothing failed, the meaning of words and files is what was written.
    ensures told { IsAnswer result.status.0 → IfSome (F.contents files.old)
        (λ contents. TellsWhole (map string_bytes words.now) result.status.0 contents
        (K.written out.old) (K.written out.new)) }
    ensures front { result.status.0 ≡ 7 → IfSome (F.contents files.old)
        (λ contents. TellsFront (map string_bytes words.now) contents (K.written out.old) (K.written out.new)) }
    ensures nothing { (result.status.0 ≡ 6) ⊎ (result.status.0 ≡ 8) → K.written out.new ≡ K.written out.old }

    // The sessions are those of the meaning, and the text is made of them.
    ensures played { IsAnswer result.status.0 → IfSome (F.contents files.old)
        (λ contents. PlaysWhole (map string_bytes words.now) result.status.0 contents result.sessions.items
        (K.written out.old) (K.written out.new)) }
    ensures unplayed { (result.status.0 ≡ 6) ⊎ ((result.status.0 ≡ 7) ⊎ (result.status.0 ≡ 8))
        → result.sessions.items ≡ [] }

    // Each status has its cause, also where files or sink do not tell their bytes.
    ensures status { IsStatus result.status.0 }
    ensures no_command { command_of (map string_bytes words.now) ≡ None
        → (result.status.0 ≡ 2) ⊎ ((result.status.0 ≡ 7) ⊎ (result.status.0 ≡ 8)) }
    ensures usage { result.status.0 ≡ 2 → (command_of (map string_bytes words.now) ≡ None)
        × Writes usage (K.written out.old) (K.written out.new) }
    ensures read_failed { (result.status.0 ≡ 6) ↔ (0 < F.faults files.new) }
    ensures read_cause { result.status.0 ≡ 6 → FailsAtNamed (command_of (map string_bytes words.now))
        (F.contents files.old) (F.begun files.new) (F.last_path files.new) }
    ensures write_failed { (result.status.0 ≡ 7) ↔ (0 < K.faults out.new) }

    // No other file is begun.
    ensures begun { BeginsNamed (command_of (map string_bytes words.now)) (F.begun files.new) (F.last_path files.new) }
{
    let mut sessions = Vec::new(alloc);
    match answer(alloc, words, files, &mut sessions) {
        Ok(answer) => match write_text(out, &answer.text) {
            Ok(()) => Ran {
                status: answer.status,
                sessions,
            },
            Err(Failed) => Ran::without(alloc, 7),
        },
        Err(Silence::Failed) => Ran::without(alloc, 6),
        Err(Silence::Memory) => Ran::without(alloc, 8),
    }
}

/// What the program says to its words. The sessions that it plays are put into what is empty before.
fn answer<F: Files>(
    alloc: Global,
    words: &[String],
    files: &mut F,
    sessions: &mut Vec<Session>,
) -> Result<Answer, Silence>
    requires unread { F.begun files.old ≡ 0 }
    requires sound { F.faults files.old ≡ 0 }
    requires none { sessions.old.items ≡ [] }

    ensures told { IfOk result (λ a. IfSome (F.contents files.old)
        (λ of. Told (map string_bytes words.now) of a.text a.status.0)) }
    ensures played { IfOk result (λ a. IfSome (F.contents files.old)
        (λ of. Played (map string_bytes words.now) of a.text a.status.0 sessions.new.items)) }
    ensures status { IfOk result (λ a. IsStatus a.status.0 × IsAnswer a.status.0) }
    ensures usage { IfOk result (λ a. MatchOption (command_of (map string_bytes words.now)) ((a.text ≡ usage)
        × (a.status.0 ≡ 2)) (λ _. a.status.0 ≢ 2)) }

    ensures begun { BeginsNamed (command_of (map string_bytes words.now)) (F.begun files.new) (F.last_path files.new) }
    ensures sound { OnOk result (F.faults files.new ≡ 0) }
    ensures failed { IsErrOf result Silence.Failed → 0 < F.faults files.new }
    ensures cause { IsErrOf result Silence.Failed
        → FailsAtNamed (command_of (map string_bytes words.now)) (F.contents files.old) (F.begun files.new)
        (F.last_path files.new) }
    ensures memory { IsErrOf result Silence.Memory → F.faults files.new ≡ 0 }
{
    said(obey(alloc, words, files, sessions))
}

/// Takes the steps of the command that the words give.
fn obey<F: Files>(
    alloc: Global,
    words: &[String],
    files: &mut F,
    sessions: &mut Vec<Session>,
) -> Result<Answer, Stop>
    requires unread { F.begun files.old ≡ 0 }
    requires sound { F.faults files.old ≡ 0 }
    requires none { sessions.old.items ≡ [] }

    ensures told { OnAnswer result (λ a. IfSome (F.contents files.old)
        (λ of. Told (map string_bytes words.now) of a.text a.status.0)) }
    ensures played { OnAnswer result (λ a. IfSome (F.contents files.old)
        (λ of. Played (map string_bytes words.now) of a.text a.status.0 sessions.new.items)) }
    ensures status { OnAnswer result (λ a. IsStatusOf (command_of (map string_bytes words.now)) a.text a.status.0) }

    ensures begun { BeginsNamed (command_of (map string_bytes words.now)) (F.begun files.new) (F.last_path files.new) }
    ensures sound { OnAnswer result (λ _. F.faults files.new ≡ 0) }
    ensures failed { IsErrOf result Stop.Failed → 0 < F.faults files.new }
    ensures cause { IsErrOf result Stop.Failed
        → FailsAtNamed (command_of (map string_bytes words.now)) (F.contents files.old) (F.begun files.new)
        (F.last_path files.new) }
    ensures memory { IsErrOf result Stop.Memory → F.faults files.new ≡ 0 }
{
    match read_words(alloc, words) {
        Ok(Command::Run(run)) => answer_run(alloc, &run, files, sessions),
        Ok(Command::Script(question, path)) => answer_script(alloc, question, &path, files),
        Ok(Command::May(may)) => answer_may(alloc, &may, files),
        Ok(Command::Large(size)) => Ok(answer_large(alloc, size, sessions)?),
        Err(WordsFault::Usage) => Ok(Answer::usage(alloc)?),
        Err(WordsFault::Memory) => Err(Stop::Memory),
    }
}
