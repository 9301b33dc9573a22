//! The sessions of a run.

ghost use Rattle.std.specs.Prelude.{◌≡◌, ◌<◌, ◌-◌, ◌^◌, ℕ, IfOk, IsSome, List, OnOk, length, map};
ghost use Rattle.std.specs.List.{All};
ghost use Rattle.rp_compile.specs.Compiled.{source_tree};
ghost use Rattle.rp_decl.specs.InOrder.{AreInOrder};
ghost use Rattle.rp_decl.specs.View.{declarations_view};
ghost use Rattle.rp_engine.specs.Moment.{run_of};
ghost use Rattle.rp_interact.specs.Answers.{AnswersAs};
ghost use Rattle.rp_meaning.specs.Frame.{Run};
ghost use Rattle.rp_program.specs.Leaves.{IsTreeHeld};
ghost use Rattle.rp_proxy.specs.Faithful.{IsFaithful};
ghost use Rattle.rp_session.specs.Loads.{HasModule};
ghost use Rattle.rp_session.specs.Played.{Reaches, source_text, with_new_sessions};
ghost use Rattle.rp_session.specs.Ready.{AnswersIn, AreLaidOut, AreReady};
ghost use Rattle.rp_session.specs.View.{AddsUp, given_to, sessions_view};
ghost use Rattle.rp_tree.specs.StatementViews.{view_tree};
ghost use Rattle.rp_world.specs.Worlds.{world_view};

use crate::loading::Loaded;
use crate::no_outcome::NoOutcome;
use crate::programs::units_of;
use crate::sessions::Sessions;
use crate::trees::{Parts, parts_of};
use rp_base::Memory;
use rp_compile::Compiled;
use rp_engine::Units;
use rp_interact::Interaction;
use std::alloc::Global;

/// Runs scripts as sessions, which are numbered from 1 in the order of the scripts, over a world with its module, as
/// loading gives them: first the listed turns, in which a number of no session does nothing, and then each session to
/// its end, in order. Each session may take so many steps. Each script was compiled by the names of the world, and runs
/// for the principals at its place. It gives the sessions as they ended.
///
/// # Errors
/// `TooLong` where a count of the machine of a session is full; whether one is, is not said. `Memory` where a growth
/// was refused.
pub fn play(
    alloc: Global,
    loaded: Loaded,
    whos: Vec<Interaction>,
    scripts: Vec<Compiled>,
    listed: &[u32],
    steps: u64,
) -> Result<Sessions, NoOutcome>
    requires faithful { IsFaithful loaded.world }
    requires whole { HasModule loaded }
    requires few { length scripts.items < 2 ^ 32 - 1 }
    requires as_many { length whos.items ≡ length scripts.items }
    requires grants { All (λ who. (all : List (List ℕ)) → AreInOrder (declarations_view all loaded.world.decl)
        → AnswersAs all loaded.world.decl who) whos.items }
    requires held { All (λ script. IsTreeHeld loaded.world.names (source_tree script)) scripts.items }
    ensures reaches { IfOk result (λ sessions. Reaches (world_view loaded.world) (view_tree loaded.module)
        (map (source_text loaded.world.names) scripts.items)
        (map (λ who. who.ids) whos.items) listed.now steps (sessions_view sessions)) }
    ensures ended { IfOk result (λ sessions. All (λ session. IsSome session.end) sessions.list.items) }
    ensures count { IfOk result (λ sessions. length sessions.list.items ≡ length scripts.items) }
    ensures used { IfOk result (λ sessions. All (AddsUp steps) sessions.list.items) }
    ensures ready { IfOk result AreReady }
{
    let Loaded {
        world,
        module,
        layouts,
    } = loaded;
    let parts = parts_of(alloc, module, layouts, scripts)?;
    let Parts { trees, tables } = parts;
    let units = units_of(alloc, &trees, tables)?;
    let mut sessions = Sessions::new(alloc, world);
    begin_all(&mut sessions, &units, whos, steps)?;
    match sessions.run_all(&units, listed) {
        Ok(()) => Ok(sessions),
        Err(halt) => Err(NoOutcome::of(halt)),
    }
}

/// Adds a session for each of these, one after another.
///
/// # Errors
/// `Memory` where a growth was refused.
fn begin_all(
    sessions: &mut Sessions,
    units: &Units<'_>,
    whos: Vec<Interaction>,
    steps: u64,
) -> Result<(), Memory>
    requires ready { AreReady sessions.old }
    requires none { length sessions.old.list.items ≡ 0 }
    requires few { length whos.items < 2 ^ 32 - 1 }
    requires laid { AreLaidOut units.now }
    requires grants { All (AnswersIn sessions.old.world) whos.items }
    ensures begun { OnOk result ((base : Run) → sessions_view sessions.new
        ≡ with_new_sessions (run_of base units.now) (map (λ who. who.ids) whos.items) steps
        (sessions_view sessions.old)) }
    ensures ready { OnOk result (AreReady sessions.new) }
    ensures count { OnOk result (length sessions.new.list.items ≡ length whos.items) }
    ensures given { OnOk result (All (λ (n : ℕ). n ≡ steps) (given_to sessions.old)
        → All (λ (n : ℕ). n ≡ steps) (given_to sessions.new)) }
{
    for who in whos {
        sessions.begin(units, who, steps)?;
    }
    Ok(())
}
