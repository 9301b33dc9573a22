//! How many pairs stand before a place of a hash table: counts of blocks, and the place where a walk stands.
ghost use Rattle.std.specs.Prelude.{◌≡◌, ◌<◌, ◌≤◌, ◌+◌, ◌*◌, ℕ, [], None, get_or, length, slice_get, slice_set, take};
ghost use Rattle.std.specs.List.{sum};
ghost use Rattle.rp_dict.specs.Ranks.{AreBlocks, IsPlace, rank};
ghost use Rattle.rp_dict.specs.Places.{before};
ghost use Rattle.rp_dict.specs.declared.slot.Slot.TheVariants.{Dead};

use crate::slot::Slot;
use crate::walk::pair;
use indexmap::IndexMap;
use rp_hash::Seed;
use std::alloc::Global;
use std::hash::Hash;

/// How many places a block has.
const BLOCK: usize = 1024;

/// What is known of the places of a table: how many pairs each full block has, as far as they were counted, and one
/// place with the number of the pairs before it, from which a walk goes on.
#[derive(Drop)]
pub struct Ranks {
    pub(crate) counts: Vec<usize>,
    pub(crate) index: usize,
    pub(crate) place: usize,
}

impl Ranks {
    /// Nothing is known.
    pub(crate) fn new(alloc: Global) -> Ranks
        ensures counts { result.counts.items ≡ [] }
        ensures index { result.index ≡ 0 }
        ensures place { result.place ≡ 0 }
    {
        Ranks {
            counts: Vec::new(alloc),
            index: 0,
            place: 0,
        }
    }

    /// Forgets what is known.
    pub(crate) fn reset(&mut self)
        ensures counts { self.new.counts.items ≡ [] }
        ensures index { self.new.index ≡ 0 }
        ensures place { self.new.place ≡ 0 }
    {
        self.counts.clear();
        self.index = 0;
        self.place = 0;
    }
}

/// Counts the blocks that are full since. Where a growth is refused, the rest waits.
pub(crate) fn count_blocks<K: Eq + Hash, V>(
    map: &IndexMap<Slot<K>, Option<V>, Seed>,
    counts: &mut Vec<usize>,
)
    requires { AreBlocks counts.old.items map.now.entries }
    ensures { AreBlocks counts.new.items map.now.entries }
{
    for block in counts.len()..map.len() / BLOCK {
        let count = pairs_in(map, block * BLOCK);
        if counts.push(count).is_err() {
            return;
        }
    }
}

/// How many pairs a block has that begins at a place.
fn pairs_in<K: Eq + Hash, V>(map: &IndexMap<Slot<K>, Option<V>, Seed>, from: usize) -> usize
    requires { from + 1024 ≤ length map.now.entries }
    ensures { rank map.now.entries from + result ≡ rank map.now.entries (from + 1024) }
{
    let _places = map.len();
    let mut count = 0;
    for place in from..from + BLOCK {
        count += pairs_at(map, place);
    }
    count
}

/// One where a pair stands at a place, and else none.
fn pairs_at<K: Eq + Hash, V>(map: &IndexMap<Slot<K>, Option<V>, Seed>, place: usize) -> usize
    ensures counted { rank map.now.entries place + result ≡ rank map.now.entries (place + 1) }
    ensures small { result ≤ 1 }
{
    let Some((slot, value)) = map.get_index(place) else {
        return 0;
    };
    pairs_of(slot, value)
}

fn pairs_of<K, V>(slot: &Slot<K>, value: &Option<V>) -> usize
    ensures counted { result ≡ length (before slot.now value.now []) }
    ensures small { result ≤ 1 }
{
    match pair(slot, value) {
        Some(_) => 1,
        None => 0,
    }
}

/// The block in which so many pairs are passed, and how many of them are in it.
fn block_of(counts: &[usize], i: usize) -> (usize, usize)
    ensures passed { sum (take result.0 counts.now) + result.1 ≡ i }
    ensures within { result.0 ≤ length counts.now }
{
    let mut left = i;
    for block in 0..counts.len() {
        let count = counts[block];
        if left < count {
            return (block, left);
        }
        left -= count;
    }
    (counts.len(), left)
}

/// A place near the pair of an index and before it, and how many pairs are between them.
pub(crate) fn near<K: Eq + Hash, V>(
    map: &IndexMap<Slot<K>, Option<V>, Seed>,
    ranks: &Ranks,
    i: usize,
) -> (usize, usize)
    requires blocks { AreBlocks ranks.now.counts.items map.now.entries }
    requires stand { IsPlace ranks.now.index ranks.now.place map.now.entries }
    ensures passed { rank map.now.entries result.0 + result.1 ≡ i }
    ensures within { result.0 ≤ length map.now.entries }
{
    let places = map.len();
    let (block, left) = block_of(ranks.counts.as_slice(), i);
    let place = block * BLOCK;
    if ranks.place > place && ranks.index <= i {
        return (ranks.place, i - ranks.index);
    }
    (place, left)
}

/// Keeps the place of the pair of an index, or the end.
pub(crate) fn stand<K: Eq + Hash, V>(
    map: &IndexMap<Slot<K>, Option<V>, Seed>,
    ranks: &mut Ranks,
    i: usize,
)
    requires blocks { AreBlocks ranks.old.counts.items map.now.entries }
    requires stand { IsPlace ranks.old.index ranks.old.place map.now.entries }
    ensures counts { ranks.new.counts.items ≡ ranks.old.counts.items }
    ensures stand { IsPlace ranks.new.index ranks.new.place map.now.entries }
{
    let (place, left) = near(map, ranks, i);
    let (place, left) = passed(map, place, left);
    ranks.place = place;
    ranks.index = i - left;
}

/// The place to which so many pairs are passed from a place on, where a pair stands or which is the end, and how many
/// there were not.
fn passed<K: Eq + Hash, V>(
    map: &IndexMap<Slot<K>, Option<V>, Seed>,
    from: usize,
    pairs: usize,
) -> (usize, usize)
    requires { from ≤ length map.now.entries }
    ensures passed { rank map.now.entries result.0 + result.1 ≡ rank map.now.entries from + pairs }
    ensures within { result.0 ≤ length map.now.entries }
{
    let mut left = pairs;
    for place in from..map.len() {
        let count = pairs_at(map, place);
        if left < count {
            return (place, left);
        }
        left -= count;
    }
    (map.len(), left)
}

/// Takes the pair at a place out of the counts.
pub(crate) fn lower<K: Eq + Hash, V>(
    map: &IndexMap<Slot<K>, Option<V>, Seed>,
    ranks: &mut Ranks,
    place: usize,
)
    requires blocks { AreBlocks ranks.old.counts.items map.now.entries }
    requires stand { IsPlace ranks.old.index ranks.old.place map.now.entries }
    requires pair { rank map.now.entries place + 1 ≡ rank map.now.entries (place + 1) }
    requires within { place < length map.now.entries }
    ensures blocks { (mark : ℕ) → AreBlocks ranks.new.counts.items (slice_set map.now.entries place (Dead mark, None)) }
    ensures stand { (mark : ℕ) → IsPlace ranks.new.index ranks.new.place
        (slice_set map.now.entries place (Dead mark, None)) }
{
    lower_block(map, &mut ranks.counts, place);
    if place < ranks.place {
        ranks.index -= 1;
    }
}

fn lower_block<K: Eq + Hash, V>(
    map: &IndexMap<Slot<K>, Option<V>, Seed>,
    counts: &mut Vec<usize>,
    place: usize,
)
    requires blocks { AreBlocks counts.old.items map.now.entries }
    requires pair { rank map.now.entries place + 1 ≡ rank map.now.entries (place + 1) }
    requires within { place < length map.now.entries }
    ensures { (mark : ℕ) → AreBlocks counts.new.items (slice_set map.now.entries place (Dead mark, None)) }
{
    let block = place / BLOCK;
    if block < counts.len() {
        counts[block] -= 1;
    }
}
