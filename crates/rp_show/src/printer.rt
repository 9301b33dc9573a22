//! The text that grows while a value is shown.
#![tactic(auto, using(rp_store::proofs::CallerLemmas::goes_on))]

ghost use Rattle.std.specs.Prelude.{◌≡◌, ℕ, List, [], chars};
ghost use Rattle.std.specs.Option.{option_copied};
ghost use Rattle.rp_show.specs.Show.{printed};
ghost use Rattle.rp_show.specs.Shown.{shown_inside};
ghost use Rattle.rp_show.specs.ShowView.{KeepsRoom, Writes, before_value, cells_of, gap, key_text, moment};
ghost use Rattle.rp_show.specs.Prints.{Prints};
ghost use Rattle.rp_store.specs.Heap.{Owned};

use crate::purse::Purse;
use crate::rock_texts::{Line, shown_inside};
use rp_base::{OpEnd, Rock};
use rp_store::Store;
use std::alloc::Global;

/// What is written so far, of which each byte has cost a cell, and the cells that are left.
#[derive(Drop)]
pub(crate) struct Printer {
    pub(crate) alloc: Global,
    pub(crate) line: Line,
    pub(crate) purse: Purse,
}

impl Printer {
    pub(crate) fn new(alloc: Global, store: &Store) -> Printer
        ensures line { result.line ≡ [] }
        ensures purse { cells_of store.now.heap result.purse ≡ store.now }
    {
        Printer {
            alloc,
            line: Line::new(alloc),
            purse: Purse::of(store),
        }
    }

    /// Charges a text and puts it behind the line.
    ///
    /// # Errors
    /// `StopCells` at the first character that does not fit, and `Memory` where a growth was refused.
    pub(crate) fn print(&mut self, text: &str) -> Result<(), OpEnd>
        ensures plain { (heap : List Owned) (steps : ℕ)
            → Prints result self.new self.old heap steps steps (printed (chars text.now)) }
        ensures counters { KeepsRoom self.old.purse self.new.purse }
    {
        self.purse.charge(text)?;
        self.line.add(text)?;
        Ok(())
    }

    /// The same, of a rock as it is shown inside a container. It is written into the line, and then charged.
    ///
    /// # Errors
    /// As `print`.
    pub(crate) fn print_rock(&mut self, rock: &Rock) -> Result<(), OpEnd>
        ensures plain { (heap : List Owned) (steps : ℕ)
            → Prints result self.new self.old heap steps steps (printed (shown_inside rock.now)) }
        ensures counters { KeepsRoom self.old.purse self.new.purse }
    {
        let before = self.line.len();
        self.line.add_rock(rock)?;
        if self.purse.takes((self.line.len() - before) as u64) {
            return Ok(());
        }
        charge_rock(self.alloc, &mut self.purse, rock)
    }

    /// The key of an entry, and what stands between it and the value; nothing where there is none.
    #[inline(always)]
    pub(crate) fn print_key(&mut self, key: Option<&Rock>) -> Result<(), OpEnd>
        ensures plain { (heap : List Owned) (steps : ℕ)
            → Prints result self.new self.old heap steps steps (printed (key_text (option_copied key.entry))) }
        ensures counters { KeepsRoom self.old.purse self.new.purse }
    {
        match key {
            Some(key) => self.print_before(key),
            None => Ok(()),
        }
    }

    fn print_before(&mut self, key: &Rock) -> Result<(), OpEnd>
        ensures plain { (heap : List Owned) (steps : ℕ)
            → Prints result self.new self.old heap steps steps (printed (before_value key.now)) }
        ensures counters { KeepsRoom self.old.purse self.new.purse }
    {
        self.print_rock(key)?;
        self.print(": ")
    }

    /// What stands between two elements; nothing before the first.
    #[inline(always)]
    pub(crate) fn separate(&mut self, first: bool) -> Result<(), OpEnd>
        ensures plain { (heap : List Owned) (steps : ℕ)
            → Prints result self.new self.old heap steps steps (printed (gap first)) }
        ensures counters { KeepsRoom self.old.purse self.new.purse }
    {
        if first {
            return Ok(());
        }
        self.print(", ")
    }
}

fn charge_rock(alloc: Global, purse: &mut Purse, rock: &Rock) -> Result<(), OpEnd>
    ensures plain { (heap : List Owned) (steps : ℕ)
        → Writes result (shown_inside rock.now) (moment heap purse.new steps)
        (printed (shown_inside rock.now) (moment heap purse.old steps)) }
    ensures counters { KeepsRoom purse.old purse.new }
{
    let text = shown_inside(alloc, rock)?;
    purse.charge(text.as_str())
}
