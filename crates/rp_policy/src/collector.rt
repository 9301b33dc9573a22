//! The offences that are found while a tree is walked over.

ghost use Rattle.std.specs.Prelude.{◌≡◌, [], OnOk};
ghost use Rattle.rp_policy.specs.CollectionSteps.{seen, with_name, with_names};

use crate::offence::{Offence, offence_at};
use crate::spot::Spot;
use rp_base::{Memory, Names};
use rp_tree::Named;
use std::alloc::Global;
use std::marker::Model;

/// The offences found so far in a tree whose names stand for these words.
#[derive(Drop)]
pub(crate) struct Collector<'a> {
    names: &'a Names,
    found: Vec<Offence>,
}

impl<'a> Model for Collector<'a> {
    ghost use Rattle.rp_policy.specs.CollectionSteps.{Collection};

    ghost Value = { Collection };

    ghost view = { λ c. record { words = c.names.now; found = c.found.items } };
}

impl<'a> Collector<'a> {
    /// A collector that has found nothing.
    pub(crate) fn new(alloc: Global, names: &'a Names) -> Collector<'a>
        ensures { result ≡ record { words = names.now; found = [] } }
    {
        Collector {
            names,
            found: Vec::new(alloc),
        }
    }

    /// What was found.
    pub(crate) fn into_found(self) -> Vec<Offence>
        ensures { result.items ≡ self.entry.found }
    {
        let Collector { names: _, found } = self;
        found
    }

    /// Looks at a spot.
    #[tactic(auto, unfolding(crate::specs::CollectionSteps::after))]
    pub(crate) fn see(&mut self, spot: Spot) -> Result<(), Memory>
        ensures { OnOk result (self.new ≡ seen self.old spot) }
    {
        match offence_at(self.names, spot) {
            Some(offence) => Ok(self.found.push(offence)?),
            None => Ok(()),
        }
    }

    /// Looks at a name that is bound, where there is one.
    pub(crate) fn bind_option(&mut self, name: Option<Named>) -> Result<(), Memory>
        ensures { OnOk result (self.new ≡ with_name name self.old) }
    {
        match name {
            Some(named) => self.see(Spot::Binds(named)),
            None => Ok(()),
        }
    }

    /// Looks at names that are bound.
    pub(crate) fn bind_all(&mut self, names: &[Named]) -> Result<(), Memory>
        ensures { OnOk result (self.new ≡ with_names names.now self.old) }
    {
        'names: for named in names {
            self.see(Spot::Binds(*named))?;
        }
        Ok(())
    }
}
