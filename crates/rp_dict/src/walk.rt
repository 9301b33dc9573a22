//! Walks over the pairs of a dict, in their order.
ghost use Rattle.std.specs.Prelude.{◌≡◌, ◌∷◌, [], List, MatchOption, drop, slice_get};
ghost use Rattle.std.specs.Option.{option_map};
ghost use Rattle.std.specs.Map.Iter.{deref_pair};
ghost use Rattle.rp_dict.specs.Places.{before, live};
ghost use Rattle.rp_dict.specs.Walk.{rest_of};

use crate::few;
use crate::slot::Slot;
use indexmap::IndexMap;
use rp_hash::Seed;
use std::hash::Hash;
use std::marker::Model;

/// What a walk goes over: few pairs, or the places of a hash table.
#[derive(Drop)]
pub enum Rest<'a, K: Eq + Hash, V> {
    Few(&'a [(K, V)]),
    Many(&'a IndexMap<Slot<K>, Option<V>, Seed>),
}

/// What is left of a walk over a dict, seen as the list of the pairs that come.
#[derive(Drop)]
pub struct Walk<'a, K: Eq + Hash, V> {
    rest: Rest<'a, K, V>,
    place: usize,
}

impl<'a, K: Eq + Hash, V> Model for Walk<'a, K, V> {
    ghost use Rattle.std.specs.Prelude.{List};
    ghost use Rattle.rp_dict.specs.Walk.{rest_of};

    ghost Value = { List (K × V) };

    ghost view = { λ w. rest_of w.rest w.place };
}

impl<'a, K: Eq + Hash, V> Walk<'a, K, V> {
    pub(crate) fn of_pairs(pairs: &'a [(K, V)]) -> Walk<'a, K, V>
        ensures { result ≡ pairs.now }
    {
        Walk {
            rest: Rest::Few(pairs),
            place: 0,
        }
    }

    /// The pairs from a place on.
    pub(crate) fn of_places(
        map: &'a IndexMap<Slot<K>, Option<V>, Seed>,
        place: usize,
    ) -> Walk<'a, K, V>
        ensures { result ≡ live (drop place map.now.entries) }
    {
        Walk {
            rest: Rest::Many(map),
            place,
        }
    }

    /// The next pair. None exactly where none is left.
    pub fn next(&mut self) -> Option<(&'a K, &'a V)>
        ensures { MatchOption result ((self.old ≡ []) × (self.new ≡ [])) (λ p. self.old
            ≡ (p.0.now, p.1.now) ∷ self.new) }
    {
        match next_of(&self.rest, self.place) {
            Some((place, key, value)) => {
                self.place = place;
                Some((key, value))
            }
            None => None,
        }
    }
}

/// The first pair at a place or after it, and the place after it.
fn next_of<'a, K: Eq + Hash, V>(
    rest: &Rest<'a, K, V>,
    place: usize,
) -> Option<(usize, &'a K, &'a V)>
    ensures { MatchOption result (rest_of rest.now place ≡ []) (λ r. rest_of rest.now place
        ≡ (r.1.now, r.2.now) ∷ rest_of rest.now r.0) }
{
    match rest {
        Rest::Few(pairs) => few::next(*pairs, place),
        Rest::Many(map) => next_pair(*map, place),
    }
}

/// The same, of the places of a hash table. It skips the marks.
fn next_pair<'a, K: Eq + Hash, V>(
    map: &'a IndexMap<Slot<K>, Option<V>, Seed>,
    place: usize,
) -> Option<(usize, &'a K, &'a V)>
    ensures { MatchOption result (live (drop place map.now.entries) ≡ []) (λ r. live (drop place map.now.entries)
        ≡ (r.1.now, r.2.now) ∷ live (drop r.0 map.now.entries)) }
{
    let mut at = place;
    while at < map.len() {
        let Some((slot, value)) = map.get_index(at) else {
            return None;
        };
        at += 1;
        if let Some((key, value)) = pair(slot, value) {
            return Some((at, key, value));
        }
    }
    None
}

/// The pair at a place; None where a mark stands there.
pub(crate) fn pair<'a, K, V>(slot: &'a Slot<K>, value: &'a Option<V>) -> Option<(&'a K, &'a V)>
    ensures pairs { (ps : List (K × V)) → MatchOption result (before slot.now value.now ps ≡ ps)
        (λ p. before slot.now value.now ps ≡ (p.0.now, p.1.now) ∷ ps) }
    ensures first { option_map deref_pair result ≡ slice_get (before slot.now value.now []) 0 }
{
    match slot {
        Slot::Live(key) => match value {
            Some(value) => Some((key, value)),
            None => None,
        },
        Slot::Dead(_) => None,
    }
}

/// The pair that comes after so many.
pub(crate) fn walked_at<'a, K: Eq + Hash, V>(
    walk: Walk<'a, K, V>,
    i: usize,
) -> Option<(&'a K, &'a V)>
    ensures { option_map deref_pair result ≡ slice_get walk.entry i }
{
    let mut rest = walk;
    let mut left = i;
    loop {
        let pair = rest.next()?;
        if left == 0 {
            return Some(pair);
        }
        left -= 1;
    }
}
