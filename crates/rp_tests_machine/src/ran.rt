//! What scripts come to.

ghost use Rattle.std.specs.Prelude.{◌≡◌, IfOk, IfSome};
ghost use Rattle.rp_proxy.specs.Faithful.{IsFaithful};
ghost use Rattle.rp_session.specs.Programs.{AreResolved};
ghost use Rattle.rp_tests_stage.specs.Staged.{IsStaged};

use rp_engine::Halt;
use rp_session::{Session, SessionEnd, SessionHalt, Sessions};
use rp_tests_cases::{Question, number, part};
use rp_tests_stage::{Code, Reading, Setting, Stage, Words, read, set};
use std::alloc::Global;
use std::test::Fail;

/// More steps and cells than the scripts of tables take.
const AMPLE: u64 = 1_000_000;

const DECLARATIONS: &str = r#"version = 1
permissions = ["demo.View", "demo.Edit"]
expose = ["site", "Page", "shelf"]

[class.Page.get]
title = "zope.Public"
size = "zope.Public"
tags = "demo.View"
info = "demo.View"
rows = "demo.View"
draft = "demo.Edit"

[class.Page.set]
title = "demo.Edit"
size = "zope.Public"

[principal.ann]
allow = ["demo.View", "demo.Edit"]

[principal.bob]
allow = ["demo.View"]

[principal.eve]

[object.site]
class = "Page"
fields = { title = "Home", size = 3, tags = ["a", "b"], info = { n = 1, on = true }, rows = [[1, 2], [3]], draft = "x" }

[class.Shelf.get]
__getitem__ = "demo.View"
__setitem__ = "demo.Edit"
__delitem__ = "demo.Edit"
__contains__ = "demo.View"
__len__ = "zope.Public"

[object.shelf]
class = "Shelf"
"#;

/// What a script came to: what it printed and how it ended, the trail, the steps that are left and the cells used.
#[derive(Drop)]
pub struct Outcome {
    pub told: String,
    pub trail: String,
    steps: u64,
    cells: u64,
}

/// How a session ended.
fn end_of(alloc: Global, session: &Session) -> Result<String, Fail> {
    Ok(match session.end() {
        None => String::from_str(alloc, "goes on")?,
        Some(SessionEnd::Well) => String::from_str(alloc, "well")?,
        Some(SessionEnd::Raised(raised)) => {
            let kind = raised.kind.as_str();
            let text = raised.text.as_str();
            format!(in alloc; "{kind}: {text}")?
        }
        Some(SessionEnd::StopSteps) => String::from_str(alloc, "no step")?,
        Some(SessionEnd::StopCells) => String::from_str(alloc, "no cell")?,
    })
}

/// What the only one of some sessions has come to.
fn outcome_of(
    alloc: Global,
    sessions: &Sessions,
    words: &Words,
    who: &str,
) -> Result<Option<Outcome>, Fail> {
    let Some(session) = sessions.sessions().first() else {
        return Ok(None);
    };
    let world = sessions.world();
    let end = end_of(alloc, session)?;
    let printed = session.printed();
    Ok(Some(Outcome {
        told: format!(in alloc; "{printed}{end}")?,
        trail: words.lines(alloc, world.trail.entries(), who)?,
        steps: session.steps(),
        cells: world.store.used(),
    }))
}

/// Plays the session of a stage to its end; None where it comes to what does not run.
fn played(alloc: Global, stage: Stage<'_>, who: &str) -> Result<Option<Outcome>, Fail>
    requires { IsStaged stage }
{
    let Stage {
        units,
        mut sessions,
        words,
    } = stage;
    match sessions.run_all(&units, &[]) {
        Ok(()) => outcome_of(alloc, &sessions, &words, who),
        Err(
            SessionHalt {
                halt: Halt::Memory,
                ..
            },
        ) => Err(Fail::new("memory was refused")),
        Err(_) => Ok(None),
    }
}

/// What a script that was read comes to; None where it comes to what does not run.
pub fn outcome_over(
    alloc: Global,
    setting: Setting<'_>,
    reading: Reading,
) -> Result<Option<Outcome>, Fail>
    requires faithful { IsFaithful reading.world }
    requires resolved { AreResolved reading.trees reading.tables }
{
    let Reading {
        trees,
        tables,
        world,
    } = reading;
    match set(alloc, setting, &trees, tables, world)? {
        Some(stage) => played(alloc, stage, setting.who),
        None => Ok(None),
    }
}

/// What a script comes to.
fn outcome_in(alloc: Global, setting: Setting<'_>, script: &str) -> Result<Option<Outcome>, Fail> {
    match read(alloc, setting, script)? {
        Ok(reading) => outcome_over(alloc, setting, reading),
        Err(_) => Ok(None),
    }
}

/// What is told of a script that has to end so within these limits.
fn ends_so(alloc: Global, setting: Setting<'_>, script: &str, end: &str) -> Result<bool, Fail> {
    match outcome_in(alloc, setting, script)? {
        Some(outcome) => Ok(outcome.told.as_str().ends_with(end)),
        None => Ok(false),
    }
}

/// The setting of scripts without objects.
fn plain(code: Code, steps: u64, cells: u64) -> Setting<'static> {
    Setting {
        declarations: DECLARATIONS,
        who: "eve",
        code,
        steps,
        cells,
    }
}

/// What a script prints, and how it ends; told only where it comes to the same with just the steps and cells that it
/// takes, and stops for want of them with one less.
pub struct Ran;

impl Question for Ran {
    fn answer(&self, alloc: Global, parts: &[String]) -> Result<String, Fail> {
        told_of(alloc, Code::Script, part(parts, 0))
    }
}

/// The same of code that no policy judges.
pub struct RanTrusted;

impl Question for RanTrusted {
    fn answer(&self, alloc: Global, parts: &[String]) -> Result<String, Fail> {
        told_of(alloc, Code::Trusted, part(parts, 0))
    }
}

/// The same, behind other code.
pub struct RanBehind<'a> {
    pub front: &'a str,
}

impl Question for RanBehind<'_> {
    fn answer(&self, alloc: Global, parts: &[String]) -> Result<String, Fail> {
        let front = self.front;
        let script = part(parts, 0);
        let code = format!(in alloc; "{front}{script}")?;
        told_of(alloc, Code::Trusted, code.as_str())
    }
}

fn told_of(alloc: Global, code: Code, script: &str) -> Result<String, Fail> {
    let Some(first) = outcome_in(alloc, plain(code, AMPLE, AMPLE), script)? else {
        return Ok(String::from_str(alloc, "does not run")?);
    };
    let steps = AMPLE.saturating_sub(first.steps);
    let cells = first.cells;
    if !ends_so(
        alloc,
        plain(code, steps, cells),
        script,
        first.told.as_str(),
    )? {
        return Ok(String::from_str(alloc, "another end with just so many steps and cells")?);
    }
    if steps > 0 && !ends_so(alloc, plain(code, steps - 1, cells), script, "no step")? {
        return Ok(String::from_str(alloc, "ends well with a step less")?);
    }
    if cells > 0 && !ends_so(alloc, plain(code, steps, cells - 1), script, "no cell")? {
        return Ok(String::from_str(alloc, "ends well with a cell less")?);
    }
    Ok(first.told)
}

/// What the script that is the second part prints for the principal of the first, how it ends, and the trail.
pub struct RanFor;

impl Question for RanFor {
    fn answer(&self, alloc: Global, parts: &[String]) -> Result<String, Fail> {
        with_trail(alloc, ample(Code::Script, part(parts, 0)), part(parts, 1))
    }
}

/// The same of code that no policy judges.
pub struct RanTrustedFor;

impl Question for RanTrustedFor {
    fn answer(&self, alloc: Global, parts: &[String]) -> Result<String, Fail> {
        with_trail(alloc, ample(Code::Trusted, part(parts, 0)), part(parts, 1))
    }
}

/// The setting of code for one principal, with ample steps and cells.
fn ample(code: Code, who: &str) -> Setting<'_> {
    Setting {
        declarations: DECLARATIONS,
        who,
        code,
        steps: AMPLE,
        cells: AMPLE,
    }
}

fn with_trail(alloc: Global, setting: Setting<'_>, script: &str) -> Result<String, Fail> {
    let Some(outcome) = outcome_in(alloc, setting, script)? else {
        return Ok(String::from_str(alloc, "does not run")?);
    };
    let told = outcome.told;
    let trail = outcome.trail;
    Ok(format!(in alloc; "{told}\n{trail}")?)
}

/// The same for eve of the script that is the third part, which may take as many steps as the first says, and use as
/// many cells as the second.
pub struct RanWithin;

impl Question for RanWithin {
    fn answer(&self, alloc: Global, parts: &[String]) -> Result<String, Fail> {
        let steps = number(parts, 0) as u64;
        let cells = number(parts, 1) as u64;
        with_trail(alloc, plain(Code::Script, steps, cells), part(parts, 2))
    }
}

/// The same of code that no policy judges.
pub struct RanTrustedWithin;

impl Question for RanTrustedWithin {
    fn answer(&self, alloc: Global, parts: &[String]) -> Result<String, Fail> {
        let steps = number(parts, 0) as u64;
        let cells = number(parts, 1) as u64;
        with_trail(alloc, plain(Code::Trusted, steps, cells), part(parts, 2))
    }
}
