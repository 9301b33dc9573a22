//! The place of each declared class by the place of its name.

ghost use Rattle.std.specs.Prelude.{◌≡◌, ◌<◌, None, OnOk, IfOk, Some, if◌then◌else◌, length};
ghost use Rattle.std.specs.Option.{option_or};
ghost use Rattle.std.specs.Map.{lookup};
ghost use Rattle.rp_base.specs.declared.value.Name.{Name};
ghost use Rattle.rp_checker.specs.Lookup.{is_name};
ghost use Rattle.rp_checker.specs.Tables.{class_place};

use crate::table::Table;
use rp_base::{Memory, Name};
use std::alloc::{AllocError, AllocFailed, Global};
use std::marker::Model;

/// For each name, by its place, the place of the class that is called so.
#[derive(Drop)]
pub struct Places {
    each: Vec<Option<usize>>,
}

impl Model for Places {
    ghost use Rattle.std.specs.Prelude.{ℕ, List, Option};

    ghost Value = { List (Option ℕ) };

    ghost view = { λ p. p.each.items };
}

impl Places {
    /// The places that a table has, each to be found without a search.
    ///
    /// # Errors
    /// `Memory` where a growth was refused.
    pub fn new(alloc: Global, table: &Table<usize>) -> Result<Places, Memory>
        ensures { IfOk result (λ p. (name : Name) → class_place p name ≡ lookup (is_name name) table.now) }
    {
        let mut places = Places {
            each: Vec::new(alloc),
        };
        for (name, place) in table.as_slice() {
            places.add(*name, *place)?;
        }
        Ok(places)
    }

    /// The place of the class with a name.
    #[inline(always)]
    pub fn get(&self, name: Name) -> Option<usize>
        ensures { result ≡ class_place self.now name }
    {
        *self.each.get(name.0)?
    }

    /// Adds a place for a name, where it has none.
    fn add(&mut self, name: Name, place: usize) -> Result<(), Memory>
        ensures { OnOk result ((other : Name) → class_place self.new other
            ≡ option_or (class_place self.old other) (if is_name other name then Some place else None)) }
    {
        self.reach(name.0)?;
        if self.each[name.0].is_none() {
            self.each[name.0] = Some(place);
        }
        Ok(())
    }

    /// Makes room for the name at a place.
    fn reach(&mut self, last: usize) -> Result<(), Memory>
        ensures room { OnOk result (last < length self.new) }
        ensures same { OnOk result ((other : Name) → class_place self.new other ≡ class_place self.old other) }
    {
        while self.each.len() <= last {
            self.each.push(None)?;
        }
        Ok(())
    }
}
