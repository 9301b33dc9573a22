//! Pairs in one vector, walked from the front.
ghost use Rattle.std.specs.Prelude.{◌≡◌, ◌∷◌, [], IfErr, IfOk, MatchOption, None, OnErr, OnOk, Some, drop, option_map};
ghost use Rattle.std.specs.Prelude.{position, slice_get};
ghost use Rattle.std.specs.Option.{option_copied};
ghost use Rattle.std.specs.Map.{lookup, remove_entry};
ghost use Rattle.std.specs.Map.Iter.{deref_pair};
ghost use Rattle.indexmap.specs.IndexMap.{insert_entry};
ghost use Rattle.rp_dict.specs.Dict.{with_second};

use std::alloc::AllocError;
use std::mem::replace;

/// The value of a key.
pub fn find<'a, K: Eq, V>(pairs: &'a [(K, V)], key: &K) -> Option<&'a V>
    ensures { option_copied result ≡ lookup (K.eq key.now) pairs.now }
{
    let i = place(pairs, key)?;
    Some(&pairs[i].1)
}

/// The pair at a place.
pub fn at<K, V>(pairs: &[(K, V)], i: usize) -> Option<(&K, &V)>
    ensures { option_map deref_pair result ≡ slice_get pairs.now i }
{
    if i < pairs.len() {
        let pair = &pairs[i];
        return Some((&pair.0, &pair.1));
    }
    None
}

/// The first pair at a place or after it, and the place after it.
pub fn next<'a, K, V>(pairs: &'a [(K, V)], place: usize) -> Option<(usize, &'a K, &'a V)>
    ensures { MatchOption result (drop place pairs.now ≡ []) (λ r. drop place pairs.now
        ≡ (r.1.now, r.2.now) ∷ drop r.0 pairs.now) }
{
    if place < pairs.len() {
        let pair = &pairs[place];
        return Some((place + 1, &pair.0, &pair.1));
    }
    None
}

/// The place of a key.
pub fn place<K: Eq, V>(pairs: &[(K, V)], key: &K) -> Option<usize>
    ensures { result ≡ position (λ pair. K.eq key.now pair.0) pairs.now }
{
    pairs.iter().position(|pair| *key == pair.0)
}

/// Gives the key this value, if there is such a key; its place and its first form stay. Else the value comes back.
pub fn set_held<K: Eq, V>(pairs: &mut Vec<(K, V)>, key: &K, value: V) -> Result<V, V>
    ensures set { OnOk result (pairs.new.items ≡ insert_entry K.eq pairs.old.items key.now value) }
    ensures held { IfOk result (λ old. lookup (K.eq key.now) pairs.old.items ≡ Some old) }
    ensures absent { IfErr result (λ same. (same ≡ value) × (lookup (K.eq key.now) pairs.old.items ≡ None)) }
    ensures same { OnErr result (pairs.new.items ≡ pairs.old.items) }
{
    match place(pairs.as_slice(), key) {
        Some(i) => {
            let pair = &mut pairs[i];
            Ok(replace(&mut pair.1, value))
        }
        None => Err(value),
    }
}

/// Gives the second part of what a key has this value, if there is such a key; the first part stays. Else the value
/// comes back.
pub fn set_second<K: Eq, A, B>(pairs: &mut Vec<(K, (A, B))>, key: &K, value: B) -> Result<B, B>
    ensures set { pairs.new.items ≡ with_second (K.eq key.now) value pairs.old.items }
    ensures held { IfOk result (λ old. option_map (λ pair. pair.1) (lookup (K.eq key.now) pairs.old.items) ≡ Some old) }
    ensures absent { IfErr result (λ same. (same ≡ value) × (lookup (K.eq key.now) pairs.old.items ≡ None)) }
    ensures same { OnErr result (pairs.new.items ≡ pairs.old.items) }
{
    match place(pairs.as_slice(), key) {
        Some(i) => {
            let pair = &mut pairs[i];
            Ok(replace(&mut pair.1.1, value))
        }
        None => Err(value),
    }
}

/// Puts a new key last. The room is doubled where it is full, from one pair on, so that a vector of few pairs
/// takes little memory.
pub fn push<K: Eq + Drop, V: Drop>(
    pairs: &mut Vec<(K, V)>,
    key: K,
    value: V,
) -> Result<(), AllocError>
    requires { lookup (K.eq key) pairs.old.items ≡ None }
    ensures pushed { OnOk result (pairs.new.items ≡ insert_entry K.eq pairs.old.items key value) }
    ensures same { OnErr result (pairs.new.items ≡ pairs.old.items) }
{
    if pairs.len() == pairs.capacity() {
        pairs.reserve_exact(pairs.len().max(1))?;
    }
    pairs.push((key, value))?;
    Ok(())
}

/// Takes out a key, and closes up.
pub fn remove<K: Eq + Drop, V>(pairs: &mut Vec<(K, V)>, key: &K) -> Option<V>
    ensures removed { pairs.new.items ≡ remove_entry (K.eq key.now) pairs.old.items }
    ensures held { result ≡ lookup (K.eq key.now) pairs.old.items }
{
    let i = place(pairs.as_slice(), key)?;
    let (_, value) = pairs.remove(i);
    Some(value)
}
