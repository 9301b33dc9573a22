//! The world of declarations.

ghost use Rattle.std.specs.Prelude.{◌≡◌, [], IfErr, IfOk, Ok, OnOk, length};
ghost use Rattle.rp_access.specs.Moment.{state_of};
ghost use Rattle.rp_base.specs.Names.{first_words};
ghost use Rattle.rp_decl.specs.Consistency.{IsConsistent};
ghost use Rattle.rp_decl.specs.InOrder.{AreInOrder};
ghost use Rattle.rp_decl.specs.Places.{GrowsTo, IsHeldBy};
ghost use Rattle.rp_decl.specs.View.{declarations_view};
ghost use Rattle.rp_engine.specs.Does as does;
ghost use Rattle.rp_engine.specs.Moment as engine;
ghost use Rattle.rp_engine.specs.Moment.{program_view};
ghost use Rattle.rp_meaning.specs.Frame.{Run};
ghost use Rattle.rp_meaning.specs.Load.{trusted};
ghost use Rattle.rp_meaning.specs.Running.{program_frame};
ghost use Rattle.rp_proxy.specs.Faithful.{IsFaithful};
ghost use Rattle.rp_scope.specs.Scopes.{scopes};
ghost use Rattle.rp_session.specs.Loads.{Breaks, EndsWell, HasModule, Loads};
ghost use Rattle.rp_session.specs.Ready.{AreLaidOut};
ghost use Rattle.rp_session.specs.Runs.{program_in};
ghost use Rattle.rp_session_laws.specs.Setting.{Stays, setting_of};
ghost use Rattle.rp_store.specs.Kept.{IsScopeOf};
ghost use Rattle.rp_store.specs.Shape.{KeepsShape};
ghost use Rattle.rp_tree.specs.StatementViews.{view_tree};
ghost use Rattle.rp_world.specs.Globals.{placed_names};
ghost use Rattle.rp_world.specs.Worlds.{HasExposed, Refuses, world_view};

use crate::ending::ended;
use crate::statement::run_statements;
use rp_base::{Names, Oid, Side};
use rp_compile::Trusted;
use rp_decl::Decl;
use rp_engine::{Program, Units, local_count};
use rp_proxy::World;
use rp_scope::Layouts;
use rp_tree::Tree;
use rp_world::{Begun, NoWorld, begin, expose};
use std::alloc::Global;

/// A world that declarations have before the first session, and the module that has made it: the tree that ran, and the
/// table of its scopes.
#[derive(Drop)]
pub struct Loaded {
    pub world: World,
    pub module: Tree,
    pub layouts: Layouts,
}

/// Loads declarations that were read into the names, with their module as it will run; one without a text has no
/// statements. First the declared classes and objects are made, with the lists and dicts in their fields, which costs
/// no cells. Then the module runs as trusted code (zope.security), for nobody, with 1,000,000 steps and 1,000,000
/// cells; the classes and objects are its first globals, and what it prints is dropped. Then each exposed name gets the
/// value that it has among the globals of the module, for the whole run, and cells are counted anew, of which so many
/// may be used from then on.
///
/// # Errors
/// `Raised`, `StopSteps` or `StopCells` where the module ended so; `Unbound` with the least exposed name in byte order
/// that has no value. `TooLong` where a count of the machine of the module is full; whether one is, is not said.
/// `Memory` where a growth was refused.
pub fn load(
    alloc: Global,
    decl: Decl,
    names: Names,
    compiled: Trusted,
    cells: u64,
) -> Result<Loaded, NoWorld>
    requires first { GrowsTo first_words names }
    requires held { IsHeldBy names decl }
    requires consistent { IsConsistent (declarations_view names decl) }
    requires ordered { AreInOrder (declarations_view names decl) }
    requires table { compiled.layouts ≡ scopes (placed_names decl) (view_tree compiled.tree) }
    ensures tree { IfOk result (λ x. x.module ≡ compiled.tree) }
    ensures whole { IfOk result HasModule }
    ensures comes { IfOk result (λ x. Loads names (declarations_view names decl) (view_tree compiled.tree) cells
        (Ok (world_view x.world))) }
    ensures refused { IfErr result (λ e. Refuses e
        (Loads names (declarations_view names decl) (view_tree compiled.tree) cells)) }
    ensures faithful { IfOk result (λ x. IsFaithful x.world) }
    ensures declarations { IfOk result (λ x. declarations_view x.world.names x.world.decl
        ≡ declarations_view names decl) }
    ensures names { IfOk result (λ x. GrowsTo names x.world.names) }
    ensures exposed { IfOk result (λ x. HasExposed (length x.world.decl.expose) x.world.store.heap) }
    ensures limit { IfOk result (λ x. x.world.store.limit ≡ cells) }
{
    let parts = compiled.into_parts();
    let (tree, layouts) = parts;
    let program = Program::of_tree(alloc, &tree, layouts)?;
    let scripts = Vec::new(alloc);
    let units = Units {
        module: program,
        scripts,
    };
    let world = world_of(alloc, decl, names, &units, cells)?;
    let layouts = layouts_of(units);
    Ok(Loaded {
        world,
        module: tree,
        layouts,
    })
}

/// The table of the scopes of the module of some programs.
fn layouts_of(units: Units<'_>) -> Layouts
    ensures { result ≡ units.entry.module.layouts }
{
    let Units {
        module: program,
        ..
    } = units;
    let Program { layouts, .. } = program;
    layouts
}

/// The same world, whose module is the program of these units, which have no scripts.
///
/// # Errors
/// As `load`.
fn world_of(
    alloc: Global,
    decl: Decl,
    names: Names,
    units: &Units<'_>,
    cells: u64,
) -> Result<World, NoWorld>
    requires first { GrowsTo first_words names }
    requires held { IsHeldBy names decl }
    requires consistent { IsConsistent (declarations_view names decl) }
    requires ordered { AreInOrder (declarations_view names decl) }
    requires is { program_view units.now.module
        ≡ program_in (placed_names decl) (view_tree units.now.module.tree.now) }
    requires alone { units.now.scripts.items ≡ [] }
    requires laid { AreLaidOut units.now }
    ensures comes { IfOk result (λ w. Loads names (declarations_view names decl)
        (view_tree units.now.module.tree.now) cells (Ok (world_view w))) }
    ensures refused { IfErr result (λ e. Refuses e
        (Loads names (declarations_view names decl) (view_tree units.now.module.tree.now) cells)) }
    ensures faithful { IfOk result IsFaithful }
    ensures declarations { IfOk result (λ w. declarations_view w.names w.decl ≡ declarations_view names decl) }
    ensures placed { IfOk result (λ w. placed_names w.decl ≡ placed_names decl) }
    ensures names { IfOk result (λ w. GrowsTo names w.names) }
    ensures exposed { IfOk result (λ w. HasExposed (length w.decl.expose) w.store.heap) }
    ensures limit { IfOk result (λ w. w.store.limit ≡ cells) }
{
    let locals = local_count(&units.module, 0);
    let begun = begin(alloc, decl, names, locals)?;
    let Begun { world, globals } = begun;
    let ran = run_module(alloc, units, world, globals)?;
    expose(alloc, ran, &units.module.layouts, globals, cells)
}

/// The world behind the module of some programs, which runs in this one; its global scope is at a place.
///
/// # Errors
/// As `load`, but for `Unbound`.
fn run_module(
    alloc: Global,
    units: &Units<'_>,
    world: World,
    globals: Oid,
) -> Result<World, NoWorld>
    requires faithful { IsFaithful world }
    requires scope { IsScopeOf world.store.heap trusted globals }
    requires laid { AreLaidOut units.now }
    ensures well { IfOk result (λ v. (base : Run) → EndsWell (state_of v)
        (does.block units.now.module.tree.now.body.items
        (program_frame (engine.run_of base units.now) trusted globals) (state_of world))) }
    ensures refused { IfErr result (λ e. (base : Run) → Refuses e (Breaks
        (does.block units.now.module.tree.now.body.items
        (program_frame (engine.run_of base units.now) trusted globals) (state_of world)))) }
    ensures faithful { IfOk result IsFaithful }
    ensures stays { IfOk result (λ v. Stays (setting_of (state_of world)) (setting_of (state_of v))) }
    ensures shape { IfOk result (λ v. KeepsShape world.store.heap v.store.heap) }
{
    let mut world = world;
    match run_body(alloc, units, &mut world, globals) {
        Ok(()) => Ok(world),
        Err(cause) => Err(cause),
    }
}

/// Runs the statements of the module of some programs in a world; its global scope is at a place.
///
/// # Errors
/// As `load`, but for `Unbound`.
fn run_body<'u>(
    alloc: Global,
    units: &'u Units<'u>,
    world: &mut World,
    globals: Oid,
) -> Result<(), NoWorld>
    requires faithful { IsFaithful world.old }
    requires scope { IsScopeOf world.old.store.heap trusted globals }
    requires laid { AreLaidOut units.now }
    ensures well { OnOk result ((base : Run) → EndsWell (state_of world.new)
        (does.block units.now.module.tree.now.body.items
        (program_frame (engine.run_of base units.now) trusted globals) (state_of world.old))) }
    ensures refused { IfErr result (λ e. (base : Run) → Refuses e (Breaks
        (does.block units.now.module.tree.now.body.items
        (program_frame (engine.run_of base units.now) trusted globals) (state_of world.old)))) }
    ensures faithful { OnOk result (IsFaithful world.new) }
    ensures stays { OnOk result (Stays (setting_of (state_of world.old)) (setting_of (state_of world.new))) }
    ensures shape { KeepsShape world.old.store.heap world.new.store.heap }
{
    let program = &units.module;
    let statements = program.tree.body.as_slice();
    if statements.is_empty() {
        return Ok(());
    }
    let end = run_statements(alloc, units, world, Side(0), globals, statements);
    ended(end)
}
