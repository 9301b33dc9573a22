//! The cells that are used while a value is shown.
#![tactic(auto, using(rp_store::proofs::CallerLemmas::goes_on))]

ghost use Rattle.std.specs.Prelude.{◌≡◌, ◌+◌, ◌<◌, ◌≤◌, ℕ, List, chars, false, true};
ghost use Rattle.rp_show.specs.Show.{printed};
ghost use Rattle.rp_show.specs.ShowView.{KeepsRoom, Writes, cells_of, moment};
ghost use Rattle.rp_store.specs.Heap.{Owned};

use rp_base::OpEnd;
use rp_store::Store;
use std::marker::Model;

/// The cells used and the most that may be used. They are counted apart from the store while it is read.
#[derive(Drop)]
pub(crate) struct Purse {
    used: u64,
    limit: u64,
}

impl Model for Purse {
    ghost use Rattle.std.specs.Prelude.{◌≤◌};
    ghost use Rattle.rp_show.specs.ShowView.{Room};

    ghost Value = { Room };

    ghost view = { λ p. record { used = p.used; limit = p.limit } };

    ghost invariant = { λ p. p.used ≤ p.limit };
}

impl Purse {
    /// The cells of a store.
    #[inline(always)]
    pub(crate) fn of(store: &Store) -> Purse
        ensures { cells_of store.now.heap result ≡ store.now }
    {
        Purse {
            used: store.used(),
            limit: store.limit(),
        }
    }

    /// Puts the cells that are used now into the store.
    #[inline(always)]
    pub(crate) fn settle(&self, store: &mut Store)
        ensures { store.new ≡ cells_of store.old.heap self.now }
    {
        store.restart(self.limit);
        // They are within the limit, so it is never refused.
        let _ = store.charge(self.used);
    }

    /// Uses so many cells where they are within the limit, and tells whether they are.
    #[inline(always)]
    pub(crate) fn takes(&mut self, cells: u64) -> bool
        ensures charged { result ≡ true → self.new ≡ record self.old { used = self.old.used + cells } }
        ensures within { result ≡ true → self.old.used + cells ≤ self.old.limit }
        ensures over { result ≡ false → self.old.limit < self.old.used + cells }
        ensures same { result ≡ false → self.new ≡ self.old }
        ensures counters { KeepsRoom self.old self.new }
    {
        if cells > self.limit - self.used {
            return false;
        }
        self.used += cells;
        true
    }

    /// Uses a cell for each byte of the characters, in their order.
    ///
    /// # Errors
    /// `StopCells` at the first character that does not fit; those before it stay charged.
    #[inline(always)]
    pub(crate) fn charge(&mut self, text: &str) -> Result<(), OpEnd>
        ensures plain { (heap : List Owned) (steps : ℕ)
            → Writes result (chars text.now) (moment heap self.new steps)
            (printed (chars text.now) (moment heap self.old steps)) }
        ensures counters { KeepsRoom self.old self.new }
    {
        if self.takes(text.len() as u64) {
            return Ok(());
        }
        self.charge_each(text)
    }

    fn charge_each(&mut self, text: &str) -> Result<(), OpEnd>
        ensures plain { (heap : List Owned) (steps : ℕ)
            → Writes result (chars text.now) (moment heap self.new steps)
            (printed (chars text.now) (moment heap self.old steps)) }
        ensures counters { KeepsRoom self.old self.new }
    {
        for c in text.chars() {
            if !self.takes(c.len_utf8() as u64) {
                return Err(OpEnd::StopCells);
            }
        }
        Ok(())
    }
}
