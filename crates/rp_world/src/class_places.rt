//! The places of the declared classes, by their names.

ghost use Rattle.std.specs.Prelude.{◌≡◌, IfOk, OnOk, None, Some, if◌then◌else◌, position};
ghost use Rattle.std.specs.Map.{lookup};
ghost use Rattle.std.specs.Option.{option_or};
ghost use Rattle.rp_base.specs.declared.value.Name.{Name};
ghost use Rattle.rp_store.specs.Key.{same_name};
ghost use Rattle.rp_world.specs.PlacingSteps.{TellsPlaces};

use rp_base::{Memory, Name, Seed};
use rp_decl::ClassDecl;
use rp_dict::Dict;
use std::alloc::Global;
use std::marker::Model;

/// The places of the declared classes, by their names. Seen as the list of names with their places.
#[derive(Drop)]
pub struct ClassPlaces {
    places: Dict<Name, usize>,
}

impl Model for ClassPlaces {
    ghost use Rattle.std.specs.Prelude.{ℕ, List};
    ghost use Rattle.rp_base.specs.declared.value.Name.{Name};

    ghost Value = { List (Name × ℕ) };

    ghost view = { λ p. p.places };
}

impl ClassPlaces {
    /// The places of these classes, each to be found without a search. Of several with one name the first counts.
    ///
    /// # Errors
    /// `Memory` where a growth was refused.
    pub fn new(alloc: Global, seed: Seed, classes: &[ClassDecl]) -> Result<ClassPlaces, Memory>
        ensures { IfOk result (TellsPlaces classes.now) }
    {
        let mut places = ClassPlaces {
            places: Dict::new(alloc, seed),
        };
        places.add_classes(classes)?;
        Ok(places)
    }

    /// The place of the class with a name.
    pub fn place(&self, name: Name) -> Option<usize>
        ensures { result ≡ lookup (same_name name) self.now }
    {
        self.places.get(&name).copied()
    }

    /// Adds the classes, of which the first has the place 0.
    fn add_classes(&mut self, classes: &[ClassDecl]) -> Result<(), Memory>
        ensures { OnOk result ((name : Name) → lookup (same_name name) self.new
            ≡ option_or (lookup (same_name name) self.old) (position (λ c. same_name name c.name) classes.now)) }
    {
        for (place, class) in classes.iter().enumerate() {
            self.add(class.name, place)?;
        }
        Ok(())
    }

    /// Adds a place for a name, where it has none.
    fn add(&mut self, name: Name, place: usize) -> Result<(), Memory>
        ensures { OnOk result ((other : Name) → lookup (same_name other) self.new
            ≡ option_or (lookup (same_name other) self.old) (if same_name other name then Some place else None)) }
    {
        match self.place(name) {
            Some(_) => Ok(()),
            None => Ok(self.places.push(name, place)?),
        }
    }
}
