//! Tables from names to values, looked up by halving.

ghost use Rattle.std.specs.Prelude.{◌≡◌, IfOk, []};
ghost use Rattle.std.specs.Map.{lookup};
ghost use Rattle.rp_base.specs.declared.value.Name.{Name};
ghost use Rattle.rp_checker.specs.Lookup.{is_name};

use rp_base::{Memory, Name};
use std::alloc::Global;
use std::marker::Model;

/// Values by name: each name once, in the order of the names' places.
#[derive(Drop)]
pub struct Table<V> {
    pairs: Vec<(Name, V)>,
}

impl<V> Model for Table<V> {
    ghost use Rattle.std.specs.Prelude.{List, map};
    ghost use Rattle.std.specs.List.Sorted.{IsStrictlyIncreasing};
    ghost use Rattle.rp_base.specs.declared.value.Name.{Name};

    ghost Value = { List (Name × V) };

    ghost view = { λ t. t.pairs.items };

    ghost invariant = { λ t. IsStrictlyIncreasing (map (λ pair. pair.0.0) t.pairs.items) };
}

impl<V: Copy> Table<V> {
    /// The table of these pairs, where the first one of each name counts.
    ///
    /// # Errors
    /// `Memory` where a growth was refused.
    pub fn new(mut pairs: Vec<(Name, V)>) -> Result<Table<V>, Memory>
        ensures { IfOk result (λ t. (name : Name) → lookup (is_name name) t ≡ lookup (is_name name) pairs.items) }
    {
        pairs.sort_by_key(|pair| pair.0)?;
        pairs.dedup_by_key(|pair| pair.0);
        Ok(Table { pairs })
    }

    /// The table of no pairs, which takes no memory.
    pub fn empty(alloc: Global) -> Table<V>
        ensures { result ≡ [] }
    {
        Table {
            pairs: Vec::new(alloc),
        }
    }

    /// The value of a name.
    #[inline(always)]
    pub fn get(&self, name: Name) -> Option<V>
        ensures { result ≡ lookup (is_name name) self.now }
    {
        match self.pairs.binary_search_by_key(&name, |pair| pair.0) {
            Ok(place) => Some(self.pairs[place].1),
            Err(_) => None,
        }
    }

    /// The pairs, in the order of the names' places.
    pub fn as_slice(&self) -> &[(Name, V)]
        ensures { result.now ≡ self.now }
    {
        self.pairs.as_slice()
    }
}
