//! What stands at a place of a hash table: a key, or a mark.
use indexmap::Equivalent;
use std::hash::{Hash, Hasher};

/// What stands at a place of a hash table: a key, or a mark where a key was taken out. No two marks have the same
/// number.
#[derive(Clone, Copy, Drop)]
pub enum Slot<K> {
    Live(K),
    Dead(u64),
}

impl<K: PartialEq> PartialEq for Slot<K> {
    ghost use Rattle.rp_dict.specs.Slot.{slot_eq, slot_per};

    ghost eq = { slot_eq K.eq };

    ghost laws = { slot_per K.PartialEq.laws };

    fn eq(&self, other: &Slot<K>) -> bool {
        match self {
            Slot::Live(a) => match other {
                Slot::Live(b) => *a == *b,
                Slot::Dead(_) => false,
            },
            Slot::Dead(m) => match other {
                Slot::Live(_) => false,
                Slot::Dead(n) => *m == *n,
            },
        }
    }
}

impl<K: Eq> Eq for Slot<K> {
    ghost use Rattle.rp_dict.specs.Slot.{slot_equiv};

    ghost laws = { slot_equiv K.Eq.laws };
}

impl<K: Hash> Hash for Slot<K> {
    ghost use Rattle.rp_dict.specs.Slot.{slot_input, slot_alike};

    ghost hash_input = { slot_input K.hash_input };

    ghost respects_eq = { slot_alike K.eq K.hash_input K.respects_eq };

    fn hash<H: Hasher>(&self, state: &mut H) {
        match self {
            Slot::Live(key) => key.hash(state),
            Slot::Dead(mark) => state.write_u64(*mark),
        }
    }
}

impl<K: Eq + Hash> Equivalent<Slot<K>> for Slot<&K> {
    ghost use Rattle.rp_dict.specs.Slot.{sought, sought_alike, sought_same};

    ghost equivalent = { sought K.eq };

    ghost respects_hash = { sought_alike K.eq K.hash_input K.respects_eq };

    ghost respects_eq = { sought_same K.Eq.laws };

    fn equivalent(&self, key: &Slot<K>) -> bool {
        match self {
            Slot::Live(a) => match key {
                Slot::Live(b) => **a == *b,
                Slot::Dead(_) => false,
            },
            Slot::Dead(m) => match key {
                Slot::Live(_) => false,
                Slot::Dead(n) => *m == *n,
            },
        }
    }
}
