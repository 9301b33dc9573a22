//! Many pairs in a hash table, from which a key is taken out in amortised constant time.
ghost use Rattle.std.specs.Prelude.{◌≡◌, ◌^◌, ◌<◌, ◌≤◌, ◌+◌, [], Err, None, Ok, OnErr, OnOk, IfErr, IfOk, MatchOption};
ghost use Rattle.std.specs.Prelude.{Option, Some, filter, length, remove, slice_get, slice_index_or, slice_set};
ghost use Rattle.std.specs.Option.{option_copied, option_map};
ghost use Rattle.std.specs.Map.Iter.{deref_pair};
ghost use Rattle.std.specs.Map.{lookup, remove_entry};
ghost use Rattle.indexmap.specs.IndexMap.{insert_all, insert_entry, spare};
ghost use Rattle.rp_dict.specs.Dict.{HasDistinctKeys};
ghost use Rattle.rp_dict.specs.Places.{AreCounted, flat, is_live, live, second_changed};
ghost use Rattle.rp_dict.specs.Slot.{slot_eq};
ghost use Rattle.rp_dict.specs.declared.slot.Slot.TheVariants.{Dead};

use crate::ranks;
use crate::ranks::Ranks;
use crate::slot::Slot;
use crate::walk::{Walk, pair, walked_at};
use indexmap::IndexMap;
use rp_hash::Seed;
use std::alloc::{AllocError, Global};
use std::hash::Hash;
use std::marker::Model;
use std::mem::replace;

/// A hash table in the order of insertion, seen as the list of its pairs. A key that is taken out leaves a mark, and
/// the places are closed up once more than half are marks.
#[derive(Drop)]
pub struct Table<K: Eq + Hash, V> {
    map: IndexMap<Slot<K>, Option<V>, Seed>,
    next: u64,
    dead: usize,
    ranks: Ranks,
}

impl<K: Eq + Hash, V> Model for Table<K, V> {
    ghost use Rattle.std.specs.Prelude.{List};
    ghost use Rattle.rp_dict.specs.Places.{live};
    ghost use Rattle.rp_dict.specs.Ranks.{IsTable};

    ghost Value = { List (K × V) };

    ghost view = { λ m. live m.map.entries };

    ghost invariant = { λ m. IsTable m.next m.dead m.ranks.counts.items m.ranks.index m.ranks.place m.map.entries };
}

impl<K: Eq + Hash, V> Table<K, V> {
    /// The empty table. It takes no memory yet.
    pub(crate) fn new(alloc: Global, seed: Seed) -> Table<K, V>
        ensures { result ≡ [] }
    {
        Table {
            map: IndexMap::with_hasher(alloc, seed),
            next: 0,
            dead: 0,
            ranks: Ranks::new(alloc),
        }
    }

    /// The empty table, with room for so many pairs.
    pub(crate) fn with_capacity(
        alloc: Global,
        n: usize,
        seed: Seed,
    ) -> Result<Table<K, V>, AllocError>
    where
        K: Drop,
        V: Drop,
        ensures { IfOk result (λ table. table ≡ []) }
    {
        Ok(Table {
            map: IndexMap::with_capacity_and_hasher(alloc, n, seed)?,
            next: 0,
            dead: 0,
            ranks: Ranks::new(alloc),
        })
    }

    /// Moves the pairs and a new one into a table. After a refusal they are as before.
    pub(crate) fn of_pairs(
        pairs: &mut Vec<(K, V)>,
        key: K,
        value: V,
        seed: Seed,
    ) -> Result<Box<Table<K, V>>, AllocError>
    where
        K: Drop,
        V: Drop,
        requires small { length pairs.old.items < 2 ^ 63 }
        requires distinct { HasDistinctKeys K.eq pairs.old.items }
        ensures hashed { IfOk result (λ table. table.value ≡ insert_entry K.eq pairs.old.items key value) }
        ensures same { OnErr result (pairs.new.items ≡ pairs.old.items) }
    {
        let alloc = *pairs.allocator();
        let mut table = Box::new(alloc, Table::new(alloc, seed))?;
        let mut map = IndexMap::with_capacity_and_hasher(alloc, pairs.len() + 1, seed)?;
        fill(&mut map, replace(pairs, Vec::new(alloc)));
        put(&mut map, key, value);
        *table = Table {
            map,
            next: 0,
            dead: 0,
            ranks: Ranks::new(alloc),
        };
        Ok(table)
    }

    /// The number of pairs.
    pub(crate) fn len(&self) -> usize
        ensures value { result ≡ length self.now }
        ensures small { result < 2 ^ 63 }
    {
        self.map.len() - self.dead
    }

    /// The pair at a place, counted from 0: in constant time where there is no mark, else it is walked to within its
    /// block. None exactly where the place is not below the length.
    pub(crate) fn at(&self, i: usize) -> Option<(&K, &V)>
        ensures { option_map deref_pair result ≡ slice_get self.now i }
    {
        if self.dead == 0 {
            let (slot, value) = self.map.get_index(i)?;
            return pair(slot, value);
        }
        let (place, left) = ranks::near(&self.map, &self.ranks, i);
        walked_at(Walk::of_places(&self.map, place), left)
    }

    /// A walk over the pairs, in their order.
    pub(crate) fn walk(&self) -> Walk<'_, K, V>
        ensures { result ≡ self.now }
    {
        Walk::of_places(&self.map, 0)
    }

    /// The value of a key. None exactly where no pair has it.
    pub(crate) fn get(&self, key: &K) -> Option<&V>
        ensures { option_copied result ≡ lookup (K.eq key.now) self.now }
    {
        match self.map.get(Slot::Live(key))? {
            Some(value) => Some(value),
            None => None,
        }
    }

    /// Gives a key its value, and answers the value that it had. A new key goes last; a held one keeps its place and
    /// stays as it was first written.
    ///
    /// # Errors
    /// `AllocError` where a growth was refused; then the key is new and the table is as before.
    pub(crate) fn set(&mut self, key: K, value: V) -> Result<Option<V>, AllocError>
    where
        K: Drop,
        V: Drop,
        ensures set { OnOk result (self.new ≡ insert_entry K.eq self.old key value) }
        ensures held { IfOk result (λ old. old ≡ lookup (K.eq key) self.old) }
        ensures absent { OnErr result (lookup (K.eq key) self.old ≡ None) }
        ensures same { OnErr result (self.new ≡ self.old) }
    {
        let old = self.map.insert(Slot::Live(key), Some(value))?;
        ranks::count_blocks(&self.map, &mut self.ranks.counts);
        Ok(flattened(old))
    }

    /// Takes out a key, and answers the value that it had. None exactly where no pair has the key.
    pub(crate) fn remove(&mut self, key: &K) -> Option<V>
    where
        K: Drop,
        V: Drop,
        ensures removed { self.new ≡ remove_entry (K.eq key.now) self.old }
        ensures held { result ≡ lookup (K.eq key.now) self.old }
    {
        let place = self.map.get_index_of(Slot::Live(key))?;
        let half = self.map.len() / 2;
        if self.next == u64::MAX {
            self.ranks.reset();
            return taken_away(&mut self.map, place);
        }
        ranks::lower(&self.map, &mut self.ranks, place);
        match marked(&mut self.map, place, self.next) {
            Ok(old) => {
                self.next += 1;
                self.dead += 1;
                if self.dead > half {
                    unmark(&mut self.map);
                    self.dead = 0;
                    self.ranks.reset();
                    ranks::count_blocks(&self.map, &mut self.ranks.counts);
                }
                old
            }
            Err(_) => {
                self.ranks.reset();
                taken_away(&mut self.map, place)
            }
        }
    }

    /// Keeps where the pair at a place stands, so that `at` and the next `seek` begin there.
    pub(crate) fn seek(&mut self, i: usize)
        ensures { self.new ≡ self.old }
    {
        if self.dead > 0 {
            ranks::stand(&self.map, &mut self.ranks, i);
        }
    }

    pub(crate) fn clear(&mut self)
    where
        K: Drop,
        V: Drop,
        ensures { self.new ≡ [] }
    {
        self.map.clear();
        self.dead = 0;
        self.ranks.reset();
    }
}

impl<K: Eq + Hash, A, B> Table<K, (A, B)> {
    ghost use Rattle.rp_dict.specs.Dict.{with_second};

    /// Gives the second part of what a key has this value, if there is such a key; the first part stays. Else the value
    /// comes back.
    pub(crate) fn set_second(&mut self, key: &K, value: B) -> Result<B, B>
        ensures set { self.new ≡ with_second (K.eq key.now) value self.old }
        ensures held { IfOk result (λ old. option_map (λ pair. pair.1) (lookup (K.eq key.now) self.old) ≡ Some old) }
        ensures absent { IfErr result (λ same. (same ≡ value) × (lookup (K.eq key.now) self.old ≡ None)) }
        ensures same { OnErr result (self.new ≡ self.old) }
    {
        match self.map.get_index_of(Slot::Live(key)) {
            Some(place) => second_set(&mut self.map, place, value),
            None => Err(value),
        }
    }
}

/// Sets the second part of the value at a place.
fn second_set<K: Eq + Hash, A, B>(
    map: &mut IndexMap<Slot<K>, Option<(A, B)>, Seed>,
    place: usize,
    value: B,
) -> Result<B, B>
    requires { place < length map.old.entries }
    ensures set { (d : Slot K × Option (A × B)) → map.new.entries
        ≡ slice_set map.old.entries place (second_changed value (slice_index_or map.old.entries place d)) }
    ensures held { (d : Slot K × Option (A × B))
        → MatchOption (slice_index_or map.old.entries place d).1 (result ≡ Err value) (λ pair. result ≡ Ok pair.1) }
{
    let Some(held) = map.get_index_mut(place) else {
        return Err(value);
    };
    match held {
        Some(pair) => Ok(replace(&mut pair.1, value)),
        None => Err(value),
    }
}

fn flattened<V>(old: Option<Option<V>>) -> Option<V>
    ensures { result ≡ flat old }
{
    match old {
        Some(old) => old,
        None => None,
    }
}

fn fill<K: Eq + Hash + Drop, V: Drop>(
    map: &mut IndexMap<Slot<K>, Option<V>, Seed>,
    pairs: Vec<(K, V)>,
)
    requires room { length pairs.items ≤ spare map.old }
    requires counted { AreCounted 0 0 map.old.entries }
    ensures all { live map.new.entries ≡ insert_all K.eq (live map.old.entries) pairs.items }
    ensures room { spare map.old ≤ spare map.new + length pairs.items }
    ensures counted { AreCounted 0 0 map.new.entries }
{
    for (key, value) in pairs {
        put(map, key, value);
    }
}

fn put<K: Eq + Hash + Drop, V: Drop>(map: &mut IndexMap<Slot<K>, Option<V>, Seed>, key: K, value: V)
    requires room { 0 < spare map.old }
    requires counted { AreCounted 0 0 map.old.entries }
    ensures added { live map.new.entries ≡ insert_entry K.eq (live map.old.entries) key value }
    ensures room { spare map.old ≤ spare map.new + 1 }
    ensures counted { AreCounted 0 0 map.new.entries }
{
    add(map, Slot::Live(key), Some(value));
}

fn add<K: Eq + Hash + Drop, V: Drop>(map: &mut IndexMap<K, V, Seed>, key: K, value: V)
    requires room { 0 < spare map.old }
    ensures added { map.new.entries ≡ insert_entry K.eq map.old.entries key value }
    ensures room { spare map.old ≤ spare map.new + 1 }
{
    // With room to spare it is never refused.
    let _ = map.insert(key, value);
}

/// Puts a mark in the place of an entry: it goes last, and then into the gap.
fn marked<K: Eq + Hash + Drop, V: Drop>(
    map: &mut IndexMap<Slot<K>, Option<V>, Seed>,
    place: usize,
    mark: u64,
) -> Result<Option<V>, AllocError>
    requires within { place < length map.old.entries }
    requires fresh { lookup (slot_eq K.eq (Dead mark)) map.old.entries ≡ None }
    ensures marked { OnOk result (map.new.entries ≡ slice_set map.old.entries place (Dead mark, None)) }
    ensures value { (d : Slot K × Option V) → IfOk result (λ v. v ≡ (slice_index_or map.old.entries place d).1) }
    ensures same { OnErr result (map.new.entries ≡ map.old.entries) }
{
    map.insert(Slot::Dead(mark), None)?;
    match map.swap_remove_index(place) {
        Some((_, value)) => Ok(value),
        None => Ok(None),
    }
}

/// Takes an entry away and closes up.
fn taken_away<K: Eq + Hash + Drop, V>(
    map: &mut IndexMap<Slot<K>, Option<V>, Seed>,
    place: usize,
) -> Option<V>
    requires within { place < length map.old.entries }
    ensures removed { map.new.entries ≡ remove map.old.entries place }
    ensures value { (d : Slot K × Option V) → result ≡ (slice_index_or map.old.entries place d).1 }
{
    match map.shift_remove_index(place) {
        Some((_, value)) => value,
        None => None,
    }
}

/// Takes the marks away.
fn unmark<K: Eq + Hash + Drop, V: Drop>(map: &mut IndexMap<Slot<K>, Option<V>, Seed>)
    ensures { map.new.entries ≡ filter (λ e. is_live e.0) map.old.entries }
{
    map.retain(
        |slot: &Slot<K>, value: &mut Option<V>| -> bool
            ensures { (result ≡ is_live slot.now) × (value.new ≡ value.old) }
        {
            match slot {
                Slot::Live(_) => true,
                Slot::Dead(_) => false,
            }
        },
    );
}
