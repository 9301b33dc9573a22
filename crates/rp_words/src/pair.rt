//! Ids in a word, and pairs of ids and scripts.

ghost use Rattle.std.specs.Prelude.{◌≡◌, true, false, Some, None, IfOk, IfSome, IfNone, if◌then◌else◌};
ghost use Rattle.std.specs.Prelude.{length, map, nat_lt, option_map};
ghost use Rattle.rp_words.specs.Command.{all_found, ids_of, is_pair, is_who, pair_of, pairs_of, path_of, who_of};
ghost use Rattle.rp_words.specs.View.{pair_view};

use crate::command::Pair;
use rp_base::{Memory, Text};
use rp_decl::is_id;
use std::alloc::Global;

const MOST_PAIRS: usize = 16;

/// The pairs that these words are, where they are 1 to 16 and each is one.
pub fn read_pairs(alloc: Global, words: &[&str]) -> Result<Option<Vec<Pair>>, Memory>
    ensures { IfOk result (λ pairs. option_map (λ v. map pair_view v.items) pairs
        ≡ pairs_of (map (λ w. w.now) words.now)) }
{
    if words.is_empty() || words.len() > MOST_PAIRS {
        return Ok(None);
    }
    read_each(alloc, words)
}

/// The ids that a word joins by `+`, where it joins ids.
pub fn read_ids(alloc: Global, who: &str) -> Result<Option<Vec<Text>>, Memory>
    ensures { IfOk result (λ ids. option_map (λ v. v.items) ids
        ≡ (if is_who who.now then Some (ids_of who.now) else None)) }
{
    let mut ids = Vec::new(alloc);
    'ids: for id in who.split('+') {
        if !is_id(id) {
            return Ok(None);
        }
        ids.push(Text::new(alloc, id)?)?;
    }
    Ok(Some(ids))
}

fn read_each(alloc: Global, words: &[&str]) -> Result<Option<Vec<Pair>>, Memory>
    ensures { IfOk result (λ pairs. option_map (λ v. map pair_view v.items) pairs
        ≡ all_found (map pair_of (map (λ w. w.now) words.now))) }
{
    let mut pairs = Vec::new(alloc);
    'pairs: for word in words {
        let Some(pair) = read_pair(alloc, word)? else {
            return Ok(None);
        };
        pairs.push(pair)?;
    }
    Ok(Some(pairs))
}

fn read_pair(alloc: Global, word: &str) -> Result<Option<Pair>, Memory>
    ensures { IfOk result (λ pair. option_map pair_view pair ≡ pair_of word.now) }
{
    let Some((who, path)) = split_pair(word) else {
        return Ok(None);
    };
    let Some(ids) = read_ids(alloc, who)? else {
        return Ok(None);
    };
    Ok(Some(Pair {
        who: Text::new(alloc, who)?,
        ids,
        path: Text::new(alloc, path)?,
    }))
}

/// What stands before the first colon and what behind it, where something stands there.
fn split_pair(pair: &str) -> Option<(&str, &str)>
    ensures parts { IfSome result (λ x. (x.0.now ≡ who_of pair.now) × (x.1.now ≡ path_of pair.now)) }
    ensures path { IfSome result (λ x. nat_lt 0 (length (path_of pair.now)) ≡ true) }
    ensures no_pair { IfNone result (is_pair pair.now ≡ false) }
{
    let (who, path) = pair.split_once(':')?;
    if path.is_empty() {
        None
    } else {
        Some((who, path))
    }
}
