//! Answers: a text and a status.

ghost use Rattle.std.specs.Prelude.{◌≡◌, ◌≢◌, ◌++◌, true, codes, chars, IfOk, OnOk};
ghost use Rattle.std.specs.Char.{is_ascii};
ghost use Rattle.std.specs.Fmt.{decimal};
ghost use Rattle.std.specs.List.{list_all};
ghost use Rattle.rp_base.specs.Kind.{kind_name};
ghost use Rattle.rp_script.specs.Refusal.{refusal_lines};
ghost use Rattle.rp_run.specs.Output.{detail, end_line, end_status, session_block};
ghost use Rattle.rp_run.specs.Told.{script_prefix};
ghost use Rattle.rp_session.specs.View.{end_view};
ghost use Rattle.rp_words.specs.Command.{usage};

use rp_base::{Memory, Names, Printed, Raised, Status, Text, add_ascii};
use rp_script::{Refusal, refusal_text};
use rp_session::SessionEnd;
use rp_words::USAGE;
use std::alloc::Global;

/// What the program says, and the status with which it then ends.
#[derive(Drop)]
pub struct Answer {
    pub text: Printed,
    pub status: Status,
}

impl Answer {
    /// The answer to words that give no command. It is refused only for want of memory.
    pub fn usage(alloc: Global) -> Result<Answer, Memory>
        ensures { IfOk result (λ a. (a.text ≡ usage) × (a.status.0 ≡ 2)) }
    {
        Answer::fixed(alloc, USAGE, 2)
    }

    /// The answer that says an ASCII text. It is refused only for want of memory.
    pub fn fixed(alloc: Global, said: &str, status: u8) -> Result<Answer, Memory>
        requires ascii { list_all is_ascii said.now ≡ true }
        ensures { IfOk result (λ a. (a.text ≡ said.now) × (a.status.0 ≡ status)) }
    {
        let mut text = Printed::new(alloc);
        add_ascii(&mut text, said)?;
        Ok(Answer {
            text,
            status: Status(status),
        })
    }

    /// The answer that says a line that is made already.
    pub fn line(alloc: Global, line: &str, status: u8) -> Result<Answer, Memory>
        ensures { IfOk result (λ a. (a.text ≡ chars line.now) × (a.status.0 ≡ status)) }
    {
        let mut text = Printed::new(alloc);
        text.add(line)?;
        Ok(Answer {
            text,
            status: Status(status),
        })
    }

    /// The answer of one line, a label and a subject. It is refused only for want of memory.
    pub fn labelled(
        alloc: Global,
        label: &str,
        subject: &Text,
        status: u8,
    ) -> Result<Answer, Memory>
        requires ascii { list_all is_ascii label.now ≡ true }
        ensures { IfOk result (λ a.
            (a.text ≡ label.now ++ subject.now ++ codes "\n") × (a.status.0 ≡ status)) }
    {
        let mut text = Printed::new(alloc);
        add_ascii(&mut text, label)?;
        text.add(subject.as_str())?;
        add_ascii(&mut text, "\n")?;
        Ok(Answer {
            text,
            status: Status(status),
        })
    }

    /// The answer to a script that is not accepted, each line behind a prefix. It is refused only for want of memory,
    /// which may be the script's refusal.
    pub fn unaccepted(
        alloc: Global,
        prefix: &str,
        refusal: &Refusal,
        names: &Names,
    ) -> Result<Answer, Memory>
        ensures said { IfOk result (λ a. (a.text ≡ refusal_lines names.now (chars prefix.now) refusal.now)
            × (a.status.0 ≡ 4)) }
        ensures other { OnOk result (refusal.now ≢ Refusal.Memory) }
    {
        match refusal {
            Refusal::Memory => Err(Memory),
            _ => Ok(Answer {
                text: refusal_text(alloc, prefix, refusal, names)?,
                status: Status(4),
            }),
        }
    }
}

/// What stands before each line about the script of a number of a run.
pub fn script_prefix(alloc: Global, number: usize) -> Result<Printed, Memory>
    ensures { IfOk result (λ text. text ≡ script_prefix number) }
{
    let mut text = Printed::new(alloc);
    add_ascii(&mut text, "script ")?;
    add_number(alloc, &mut text, number)?;
    add_ascii(&mut text, ": ")?;
    Ok(text)
}

/// Appends the block of a session: its number and principals, what it printed, and how it ended.
pub fn add_session(
    alloc: Global,
    text: &mut Printed,
    number: usize,
    who: &Text,
    printed: &str,
    end: &SessionEnd,
) -> Result<(), Memory>
    ensures { OnOk result (text.new ≡ text.old
        ++ session_block number who.now (chars printed.now) (end_view end.now)) }
{
    add_ascii(text, "session ")?;
    add_number(alloc, text, number)?;
    add_ascii(text, " ")?;
    text.add(who.as_str())?;
    add_ascii(text, "\n")?;
    text.add(printed)?;
    add_end(text, end)
}

/// 0 where a session ended well, 1 where an exception ended it, 5 where it was stopped.
pub fn end_status(end: &SessionEnd) -> Status
    ensures { result.0 ≡ end_status (end_view end.now) }
{
    match end {
        SessionEnd::Well => Status(0),
        SessionEnd::Raised(_) => Status(1),
        SessionEnd::StopSteps => Status(5),
        SessionEnd::StopCells => Status(5),
    }
}

/// Appends the line that says how a session ended.
fn add_end(text: &mut Printed, end: &SessionEnd) -> Result<(), Memory>
    ensures { OnOk result (text.new ≡ text.old ++ end_line (end_view end.now)) }
{
    match end {
        SessionEnd::Well => add_ascii(text, "end ok\n"),
        SessionEnd::Raised(raised) => add_raised(text, raised),
        SessionEnd::StopSteps => add_ascii(text, "end stopped steps\n"),
        SessionEnd::StopCells => add_ascii(text, "end stopped cells\n"),
    }
}

/// Appends the line of an exception that ended a session.
fn add_raised(text: &mut Printed, raised: &Raised) -> Result<(), Memory>
    ensures { OnOk result (text.new ≡ text.old
        ++ (codes "end " ++ kind_name raised.now.kind ++ detail raised.now.text ++ codes "\n")) }
{
    add_ascii(text, "end ")?;
    add_ascii(text, raised.kind.as_str())?;
    add_detail(text, &raised.text)?;
    add_ascii(text, "\n")
}

/// Appends the text of an exception behind a colon, where it has one.
pub fn add_detail(text: &mut Printed, told: &Text) -> Result<(), Memory>
    ensures { OnOk result (text.new ≡ text.old ++ detail told.now) }
{
    if told.as_str().is_empty() {
        return Ok(());
    }
    add_ascii(text, ": ")?;
    text.add(told.as_str())
}

/// Appends a number in decimal.
pub fn add_number(alloc: Global, text: &mut Printed, number: usize) -> Result<(), Memory>
    ensures { OnOk result (text.new ≡ text.old ++ decimal number) }
{
    let digits = format!(in alloc; "{number}")?;
    text.add(digits.as_str())
}
