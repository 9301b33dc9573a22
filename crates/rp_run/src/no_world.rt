//! What is said of declarations that have no world.

ghost use Rattle.std.specs.Prelude.{◌≡◌, ◌≢◌, ◌++◌, IfOk, OnOk, codes};
ghost use Rattle.rp_base.specs.Kind.{kind_name};
ghost use Rattle.rp_decl.specs.Faults.{line_of};
ghost use Rattle.rp_run.specs.Output.{detail};
ghost use Rattle.rp_run.specs.Refusals.{cause_words};
ghost use Rattle.rp_run.specs.Told.{module_prefix};
ghost use Rattle.rp_script.specs.Refusal.{refusal_lines};

use crate::answer::{Answer, add_detail};
use rp_base::{Memory, Names, Printed, Raised, Status, Text, add_ascii};
use rp_script::Refusal;
use rp_session::NoWorld;
use std::alloc::Global;

/// The answer to declarations the text of whose module is no program. It is refused only for want of memory, which may
/// be the refusal.
pub fn answer_module(alloc: Global, refusal: &Refusal, names: &Names) -> Result<Answer, Memory>
    ensures said { IfOk result (λ a. (a.text ≡ refusal_lines names.now module_prefix refusal.now)
        × (a.status.0 ≡ 3)) }
    ensures other { OnOk result (refusal.now ≢ Refusal.Memory) }
{
    let lines = Answer::unaccepted(alloc, "declarations: module ", refusal, names)?;
    Ok(Answer {
        text: lines.text,
        status: Status(3),
    })
}

/// The answer to declarations that have no world. It is refused only for want of memory, which may be the cause; a
/// machine whose count is full is taken for that.
pub fn answer_cause(alloc: Global, cause: &NoWorld) -> Result<Answer, Memory>
    ensures said { IfOk result (λ a. (a.text ≡ line_of (cause_words cause.now)) × (a.status.0 ≡ 3)) }
    ensures counted { OnOk result (cause.now ≢ NoWorld.TooLong) }
    ensures other { OnOk result (cause.now ≢ NoWorld.Memory) }
{
    let mut text = Printed::new(alloc);
    add_ascii(&mut text, "declarations: ")?;
    add_cause(&mut text, cause)?;
    add_ascii(&mut text, "\n")?;
    Ok(Answer {
        text,
        status: Status(3),
    })
}

/// Appends why there is no world. It is refused only for want of memory, which may be the cause; a machine whose count
/// is full is taken for that.
fn add_cause(text: &mut Printed, cause: &NoWorld) -> Result<(), Memory>
    ensures added { OnOk result (text.new ≡ text.old ++ cause_words cause.now) }
    ensures counted { OnOk result (cause.now ≢ NoWorld.TooLong) }
    ensures other { OnOk result (cause.now ≢ NoWorld.Memory) }
{
    match cause {
        NoWorld::TooLong => Err(Memory),
        NoWorld::Memory => Err(Memory),
        _ => add_words(text, cause),
    }
}

/// Appends the words for why there is no world; a machine whose count is full, and want of memory, have none.
fn add_words(text: &mut Printed, cause: &NoWorld) -> Result<(), Memory>
    ensures { OnOk result (text.new ≡ text.old ++ cause_words cause.now) }
{
    match cause {
        NoWorld::Raised(raised) => add_exception(text, raised),
        NoWorld::StopSteps => add_ascii(text, "module stopped steps"),
        NoWorld::StopCells => add_ascii(text, "module stopped cells"),
        NoWorld::Unbound(name) => add_unbound(text, name),
        NoWorld::TooLong | NoWorld::Memory => Err(Memory),
    }
}

/// Appends that a module ended by an exception.
fn add_exception(text: &mut Printed, raised: &Raised) -> Result<(), Memory>
    ensures { OnOk result (text.new ≡ text.old
        ++ (codes "module ended " ++ kind_name raised.now.kind ++ detail raised.now.text)) }
{
    add_ascii(text, "module ended ")?;
    add_ascii(text, raised.kind.as_str())?;
    add_detail(text, &raised.text)
}

/// Appends that an exposed name has no value.
fn add_unbound(text: &mut Printed, name: &Text) -> Result<(), Memory>
    ensures { OnOk result (text.new ≡ text.old ++ (codes "expose " ++ name.now)) }
{
    add_ascii(text, "expose ")?;
    text.add(name.as_str())
}
