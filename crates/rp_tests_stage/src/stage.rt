//! A script that is ready to run.

ghost use Rattle.std.specs.Prelude.{◌≡◌, ℕ, List, IfOk, IfSome};
ghost use Rattle.rp_base.specs.Names.{first_words};
ghost use Rattle.rp_decl.specs.Consistency.{IsConsistent};
ghost use Rattle.rp_decl.specs.InOrder.{AreInOrder};
ghost use Rattle.rp_decl.specs.Places.{GrowsTo, IsHeldBy};
ghost use Rattle.rp_decl.specs.View.{declarations_view};
ghost use Rattle.rp_interact.specs.Answers.{AnswersAs};
ghost use Rattle.rp_proxy.specs.Faithful.{IsFaithful};
ghost use Rattle.rp_scope.specs.Scopes.{scopes};
ghost use Rattle.rp_session.specs.Loads.{HasModule};
ghost use Rattle.rp_session.specs.Programs.{AreResolved, IsResolved};
ghost use Rattle.rp_session.specs.Ready.{AreLaidOut};
ghost use Rattle.rp_tests_stage.specs.Staged.{IsStaged};
ghost use Rattle.rp_tree.specs.StatementViews.{view_tree};
ghost use Rattle.rp_world.specs.Globals.{placed_names};

use crate::programs::{Code, Script, Sources, sources_of};
use crate::words::Words;
use rp_base::{Memory, Names, Text};
use rp_decl::{Decl, declarations};
use rp_engine::Units;
use rp_interact::Interaction;
use rp_proxy::World;
use rp_script::Refusal;
use rp_session::{Loaded, NoWorld, Sessions, Tables, Trees, load, units_of};
use rp_tests_cases::seed;
use std::alloc::Global;

/// Over which declarations a script runs, for which principals, whose ids stand between blanks, what it is read as, and
/// how many steps it may take and cells it may use.
#[derive(Clone, Copy)]
pub struct Setting<'a> {
    pub declarations: &'a str,
    pub who: &'a str,
    pub code: Code,
    pub steps: u64,
    pub cells: u64,
}

/// A script that was read and the module of the declarations over which it runs, with the tables of their scopes, and
/// the world that the module has made.
#[derive(Drop)]
pub struct Reading {
    pub trees: Trees,
    pub tables: Tables,
    pub world: World,
}

/// A script that is ready to run as session 1.
#[derive(Drop)]
pub struct Stage<'t> {
    pub units: Units<'t>,
    pub sessions: Sessions,
    pub words: Words,
}

/// Why a script does not run.
#[derive(Drop)]
pub enum Unset {
    /// The declarations have no world.
    NoWorld(NoWorld),
    /// Declarations, module or script are refused.
    Refused,
}

/// Reads a script and its declarations, and loads these.
///
/// # Errors
/// `Memory` where a growth was refused.
pub fn read(
    alloc: Global,
    setting: Setting<'_>,
    script: &str,
) -> Result<Result<Reading, Unset>, Memory>
    ensures faithful { IfOk result (λ r. IfOk r (λ reading. IsFaithful reading.world)) }
    ensures resolved { IfOk result (λ r. IfOk r (λ reading. AreResolved reading.trees reading.tables)) }
{
    let mut names = Names::new(alloc, seed())?;
    let Some(decl) = declared(alloc, setting.declarations, &mut names)? else {
        return Ok(Err(Unset::Refused));
    };
    match sources_of(alloc, &decl, setting.code, script, &mut names) {
        Ok(sources) => loaded(alloc, decl, names, sources, setting.cells),
        Err(Refusal::Memory) => Err(Memory),
        Err(_) => Ok(Err(Unset::Refused)),
    }
}

/// The same, of a module and a script that were compiled.
fn loaded(
    alloc: Global,
    decl: Decl,
    names: Names,
    sources: Sources,
    cells: u64,
) -> Result<Result<Reading, Unset>, Memory>
    requires first { GrowsTo first_words names }
    requires held { IsHeldBy names decl }
    requires consistent { IsConsistent (declarations_view names decl) }
    requires ordered { AreInOrder (declarations_view names decl) }
    requires table { sources.module.layouts ≡ scopes (placed_names decl) (view_tree sources.module.tree) }
    requires resolved { IsResolved sources.script.tree sources.script.table }
    ensures faithful { IfOk result (λ r. IfOk r (λ reading. IsFaithful reading.world)) }
    ensures resolved { IfOk result (λ r. IfOk r (λ reading. AreResolved reading.trees reading.tables)) }
{
    let Sources { module, script } = sources;
    match load(alloc, decl, names, module, cells) {
        Ok(loaded) => reading_of(alloc, loaded, script),
        Err(NoWorld::Memory) => Err(Memory),
        Err(cause) => Ok(Err(Unset::NoWorld(cause))),
    }
}

/// A script over a world.
fn reading_of(
    alloc: Global,
    loaded: Loaded,
    script: Script,
) -> Result<Result<Reading, Unset>, Memory>
    requires faithful { IsFaithful loaded.world }
    requires whole { HasModule loaded }
    requires resolved { IsResolved script.tree script.table }
    ensures faithful { IfOk result (λ r. IfOk r (λ reading. IsFaithful reading.world)) }
    ensures resolved { IfOk result (λ r. IfOk r (λ reading. AreResolved reading.trees reading.tables)) }
{
    let Loaded {
        world,
        module,
        layouts,
    } = loaded;
    let Script { tree, table } = script;
    let scripts = vec![in alloc; tree]?;
    let each = vec![in alloc; table]?;
    let trees = Trees { module, scripts };
    let tables = Tables {
        module: layouts,
        scripts: each,
    };
    Ok(Ok(Reading {
        trees,
        tables,
        world,
    }))
}

/// The declarations, which are read into names.
fn declared(alloc: Global, text: &str, names: &mut Names) -> Result<Option<Decl>, Memory>
    ensures held { IfOk result (λ o. IfSome o (IsHeldBy names.new)) }
    ensures consistent { IfOk result (λ o. IfSome o (λ d. IsConsistent (declarations_view names.new d))) }
    ensures ordered { IfOk result (λ o. IfSome o (λ d. AreInOrder (declarations_view names.new d))) }
    ensures grown { GrowsTo names.old names.new }
{
    match declarations(alloc, text.as_bytes(), names) {
        Ok(decl) => Ok(Some(decl)),
        Err(_) => Ok(None),
    }
}

/// What the principals of these ids are granted and denied.
fn principals(alloc: Global, decl: &Decl, who: &str) -> Result<Option<Interaction>, Memory>
    ensures grants { IfOk result (λ o. IfSome o (λ i. (names : List (List ℕ)) →
        AreInOrder (declarations_view names decl.now) → AnswersAs names decl.now i)) }
{
    let mut ids = Vec::new(alloc);
    for id in who.split_whitespace() {
        ids.push(Text::new(alloc, id)?)?;
    }
    Ok(Interaction::new(alloc, decl, ids.as_slice()).ok())
}

/// Sets a script that was read up. None where the ids are refused.
///
/// # Errors
/// `Memory` where a growth was refused.
pub fn set<'t>(
    alloc: Global,
    setting: Setting<'_>,
    trees: &'t Trees,
    tables: Tables,
    world: World,
) -> Result<Option<Stage<'t>>, Memory>
    requires faithful { IsFaithful world }
    requires resolved { AreResolved trees.now tables }
    ensures { IfOk result (λ o. IfSome o IsStaged) }
{
    let units = units_of(alloc, trees, tables)?;
    staged(alloc, world, units, setting)
}

/// The script of some programs, as session 1 of a world.
fn staged<'t>(
    alloc: Global,
    world: World,
    units: Units<'t>,
    setting: Setting<'_>,
) -> Result<Option<Stage<'t>>, Memory>
    requires faithful { IsFaithful world }
    requires laid { AreLaidOut units }
    ensures { IfOk result (λ o. IfSome o IsStaged) }
{
    let Some(who) = principals(alloc, &world.decl, setting.who)? else {
        return Ok(None);
    };
    let words = Words::new(alloc, &world.names, &world.decl)?;
    let mut sessions = Sessions::new(alloc, world);
    sessions.begin(&units, who, setting.steps)?;
    Ok(Some(Stage {
        units,
        sessions,
        words,
    }))
}
