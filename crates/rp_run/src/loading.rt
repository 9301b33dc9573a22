//! The world of declarations that were read.

ghost use Rattle.std.specs.Prelude.{◌≡◌, ◌≢◌, IfErr, IfOk, Ok};
ghost use Rattle.rp_base.specs.Names.{first_words, with_words};
ghost use Rattle.rp_decl.specs.DeclaredWords.{declared_words};
ghost use Rattle.rp_decl.specs.View.{declarations_view};
ghost use Rattle.rp_proxy.specs.Faithful.{IsFaithful};
ghost use Rattle.rp_run.specs.Refusals.{OnRefusal, RefusesLoad, RefusesWorld};
ghost use Rattle.rp_run.specs.Steps.{IsCommandStatus};
ghost use Rattle.rp_run.specs.Told.{IsLoaded};
ghost use Rattle.rp_run.specs.View.{IsReadInto};
ghost use Rattle.rp_scope.specs.Scopes.{scopes};
ghost use Rattle.rp_session.specs.Loads.{HasModule, Loads};
ghost use Rattle.rp_tree.specs.StatementViews.{view_tree};
ghost use Rattle.rp_world.specs.Globals.{placed_names};
ghost use Rattle.rp_world.specs.Worlds.{world_view};

use crate::keying::hold_each_once;
use crate::no_world::{answer_cause, answer_module};
use crate::stop::Stop;
use rp_base::Names;
use rp_compile::{Trusted, compile_trusted};
use rp_decl::Decl;
use rp_session::{Loaded, declared_names, load};
use std::alloc::Global;

/// The world of declarations that were read into the names, with their module: its text is compiled, and then it is
/// run. From then on so many cells may be used.
///
/// # Errors
/// `Refused` where the text of the module is no program and where there is no world; `Memory` where a growth was
/// refused.
pub fn load_world(alloc: Global, decl: Decl, names: Names, cells: u64) -> Result<Loaded, Stop>
    requires read { IsReadInto names decl }
    requires words { names ≡ with_words first_words (declared_words (declarations_view names decl)) }

    ensures loaded { IfOk result (λ x. IsLoaded (declarations_view names decl) cells (view_tree x.module)
        (Ok (world_view x.world))) }
    ensures declarations { IfOk result (λ x. declarations_view x.world.names x.world.decl
        ≡ declarations_view names decl) }
    ensures whole { IfOk result HasModule }
    ensures faithful { IfOk result (λ x. IsFaithful x.world) }

    ensures refused { IfErr result (OnRefusal (RefusesWorld (declarations_view names decl) cells)) }
    ensures status { IfErr result (OnRefusal (λ a. IsCommandStatus a.status.0)) }
    ensures unfailed { IfErr result (λ stop. stop ≢ Stop.Failed) }
{
    let mut names = names;
    let first = declared_names(alloc, &decl)?;
    let text = decl.module();
    match compile_trusted(alloc, text.as_str(), first.as_slice(), &mut names) {
        Ok(compiled) => {
            hold_each_once(&names);
            world_of(alloc, decl, names, compiled, cells)
        }
        Err(refusal) => Err(Stop::Refused(answer_module(alloc, &refusal, &names)?)),
    }
}

/// The same world, of declarations whose module was compiled.
///
/// # Errors
/// `Refused` where there is no world, `Memory` where a growth was refused.
fn world_of(
    alloc: Global,
    decl: Decl,
    names: Names,
    compiled: Trusted,
    cells: u64,
) -> Result<Loaded, Stop>
    requires read { IsReadInto names decl }
    requires table { compiled.layouts ≡ scopes (placed_names decl) (view_tree compiled.tree) }

    ensures tree { IfOk result (λ x. x.module ≡ compiled.tree) }
    ensures whole { IfOk result HasModule }
    ensures comes { IfOk result (λ x. Loads names (declarations_view names decl) (view_tree compiled.tree) cells
        (Ok (world_view x.world))) }
    ensures declarations { IfOk result (λ x. declarations_view x.world.names x.world.decl
        ≡ declarations_view names decl) }
    ensures faithful { IfOk result (λ x. IsFaithful x.world) }

    ensures refused { IfErr result (OnRefusal
        (RefusesLoad names (declarations_view names decl) (view_tree compiled.tree) cells)) }
    ensures unfailed { IfErr result (λ stop. stop ≢ Stop.Failed) }
{
    match load(alloc, decl, names, compiled, cells) {
        Ok(loaded) => Ok(loaded),
        Err(cause) => Err(Stop::Refused(answer_cause(alloc, &cause)?)),
    }
}
