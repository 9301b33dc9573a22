//! The commands on one script: whether it is accepted, or why not, and how it runs.

ghost use Rattle.std.specs.Prelude.{◌≡◌, ◌<◌, ℕ, List, Some, IfOk, IfSome, IsErrOf};
ghost use Rattle.rp_run.specs.Headline.{BeginsNamed, FailsAtNamed};
ghost use Rattle.rp_run.specs.Refusals.{OnAnswer};
ghost use Rattle.rp_run.specs.Steps.{IsCommandStatus};
ghost use Rattle.rp_run.specs.Told.{IsShort, ToldScript, said_to};
ghost use Rattle.rp_words.specs.Command.{script};

use crate::answer::Answer;
use crate::keying::{check_script, compile_script};
use crate::reading::read_short;
use crate::stop::Stop;
use rp_base::{Files, Memory, Names, Text};
use rp_print::source_text;
use rp_words::Question;
use std::alloc::Global;

/// What the program says where it is asked about the script at a path: whether it is accepted, or its text as it runs;
/// or a line for the first fault, or one for each offence against the policy of names.
///
/// # Errors
/// `Refused` with what is said of a file that is too long, `Failed` where a read failed, `Memory` where a growth or an
/// opening was refused memory.
pub fn answer_script<F: Files>(
    alloc: Global,
    question: Question,
    path: &Text,
    files: &mut F,
) -> Result<Answer, Stop>
    requires unread { F.begun files.old ≡ 0 }
    requires sound { F.faults files.old ≡ 0 }

    ensures told { OnAnswer result (λ a. IfSome (F.contents files.old)
        (λ of. ToldScript (said_to question) path.now (of path.now) a.text a.status.0)) }
    ensures status { OnAnswer result (λ a. IsCommandStatus a.status.0) }

    ensures begun { BeginsNamed (Some (script question path.now)) (F.begun files.new) (F.last_path files.new) }
    ensures sound { OnAnswer result (λ _. F.faults files.new ≡ 0) }
    ensures failed { IsErrOf result Stop.Failed → 0 < F.faults files.new }
    ensures cause { IsErrOf result Stop.Failed → FailsAtNamed (Some (script question path.now))
        (F.contents files.old) (F.begun files.new) (F.last_path files.new) }
    ensures memory { IsErrOf result Stop.Memory → F.faults files.new ≡ 0 }
{
    let mut names = Names::new(alloc, files.seed())?;
    let bytes = read_short(alloc, files, path)?;
    Ok(tell(alloc, question, bytes.as_slice(), &mut names)?)
}

/// What the program says of a script that is read. It is refused only for want of memory.
fn tell(
    alloc: Global,
    question: Question,
    bytes: &[u8],
    names: &mut Names,
) -> Result<Answer, Memory>
    ensures told { IfOk result (λ a. (path : List ℕ) → IsShort bytes.now
        → ToldScript (said_to question) path bytes.now a.text a.status.0) }
    ensures status { IfOk result (λ a. IsCommandStatus a.status.0) }
{
    match question {
        Question::Check => tell_check(alloc, bytes, names),
        Question::Show => tell_show(alloc, bytes, names),
    }
}

/// Whether a script is accepted, or why not.
fn tell_check(alloc: Global, bytes: &[u8], names: &mut Names) -> Result<Answer, Memory>
    ensures told { IfOk result (λ a. (path : List ℕ) → IsShort bytes.now
        → ToldScript (said_to Question.Check) path bytes.now a.text a.status.0) }
    ensures status { IfOk result (λ a. IsCommandStatus a.status.0) }
{
    match check_script(alloc, bytes, names) {
        Ok(()) => Answer::fixed(alloc, "ok\n", 0),
        Err(refusal) => Answer::unaccepted(alloc, "", &refusal, names),
    }
}

/// How a script runs, or why it does not.
fn tell_show(alloc: Global, bytes: &[u8], names: &mut Names) -> Result<Answer, Memory>
    ensures told { IfOk result (λ a. (path : List ℕ) → IsShort bytes.now
        → ToldScript (said_to Question.Show) path bytes.now a.text a.status.0) }
    ensures status { IfOk result (λ a. IsCommandStatus a.status.0) }
{
    match compile_script(alloc, bytes, names) {
        Ok(compiled) => {
            let text = source_text(alloc, compiled.rewritten(), names)?;
            Answer::line(alloc, text.as_str(), 0)
        }
        Err(refusal) => Answer::unaccepted(alloc, "", &refusal, names),
    }
}
