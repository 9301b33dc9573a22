//! What sessions share, and the session that runs.

use rp_base::{Memory, Meter, Names, Printed, word};
use rp_checker::Checkers;
use rp_decl::Decl;
use rp_interact::Interaction;
use rp_store::Store;
use rp_trail::Trail;
use std::alloc::Global;

/// What belongs to the session that runs.
#[derive(Drop)]
pub struct Running {
    /// Its number, from 1.
    pub session: u32,
    /// Its principals.
    pub interaction: Interaction,
    /// The steps that it may still take.
    pub meter: Meter,
    /// What it has printed.
    pub printed: Printed,
}

/// What all sessions share, and the session that runs.
pub struct World {
    pub store: Store,
    pub names: Names,
    pub checkers: Checkers,
    pub decl: Decl,
    pub trail: Trail,
    pub running: Running,
}

// By hand, so that crates that drop one do not prove again how its parts are dropped.
impl Drop for World {
    fn drop(self) {
        let World {
            store: _,
            names: _,
            checkers: _,
            decl: _,
            trail: _,
            running: _,
        } = self;
    }
}

impl World {
    ghost use Rattle.std.specs.Prelude.{◌≡◌, [], IfOk};
    ghost use Rattle.rp_base.specs.Names.{first_words};
    ghost use Rattle.rp_decl.specs.Consistency.{IsConsistent};
    ghost use Rattle.rp_decl.specs.InOrder.{AreInOrder};
    ghost use Rattle.rp_decl.specs.Places.{GrowsTo, IsHeldBy};
    ghost use Rattle.rp_decl.specs.View.{declarations_view};
    ghost use Rattle.rp_interact.specs.Answers.{AnswersAs};
    ghost use Rattle.rp_proxy.specs.Faithful.{IsFaithful};

    /// The world of declarations, which were read into the names, with an empty store in which so many cells may be
    /// used, and an empty trail.
    ///
    /// # Errors
    /// `Memory` where a growth was refused.
    pub fn new(
        alloc: Global,
        decl: Decl,
        names: Names,
        limit: u64,
        running: Running,
    ) -> Result<World, Memory>
        requires first { GrowsTo first_words names }
        requires held { IsHeldBy names decl }
        requires consistent { IsConsistent (declarations_view names decl) }
        requires ordered { AreInOrder (declarations_view names decl) }
        requires grants { AnswersAs names decl running.interaction }
        ensures faithful { IfOk result IsFaithful }
        ensures decl { IfOk result (λ w. w.decl ≡ decl) }
        ensures names { IfOk result (λ w. w.names ≡ names) }
        ensures running { IfOk result (λ w. w.running ≡ running) }
        ensures store { IfOk result (λ w. w.store ≡ record { heap = []; used = 0; limit = limit }) }
        ensures trail { IfOk result (λ w. w.trail ≡ []) }
    {
        // Names tell with each word that all are identifiers, each held once.
        let _first = names.text(word::GET_ITEM);
        let checkers = Checkers::new(alloc, &decl)?;
        Ok(World {
            store: Store::new(alloc, limit, names.seed()),
            names,
            checkers,
            decl,
            trail: Trail::new(alloc),
            running,
        })
    }
}
