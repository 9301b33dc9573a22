//! Slices of short texts between each two bounds, against what CPython gives for all of them (bench/slice_cases.py).

use crate::world::seed;
use rp_base::{OpEnd, Rock, Text, Value};
use rp_items::{SliceParts, slice};
use rp_store::Store;
use rp_tests_cases::holds;
use std::alloc::Global;
use std::test::Fail;

/// A number as a part of a slice, or None.
fn part(n: Option<i64>) -> Value {
    match n {
        Some(n) => Value::Rock(Rock::Int(n)),
        None => Value::Rock(Rock::Nil),
    }
}

/// A slice of a text, by numbers, in a store of so many cells.
fn text_slice(
    alloc: Global,
    cells: u64,
    of: &str,
    from: Option<i64>,
    to: Option<i64>,
    step: Option<i64>,
) -> Result<Value, OpEnd> {
    let mut store = Store::new(alloc, cells, seed());
    let of = Value::Rock(Rock::Text(Text::new(alloc, of)?));
    let parts = SliceParts {
        from: &part(from),
        to: &part(to),
        step: &part(step),
    };
    slice(alloc, &mut store, &of, parts)
}

/// A hash with the bytes of a text taken in, by FNV-1a.
fn taken_in(hash: u32, text: &str) -> u32 {
    let mut hash = hash;
    for byte in text.as_bytes() {
        hash = (hash ^ *byte as u32).wrapping_mul(16777619);
    }
    hash
}

/// The n-th bound, from -6 to 6, and then none.
fn bound(n: i64) -> Option<i64> {
    if n == 7 { None } else { Some(n) }
}

/// A hash with the slices of a text from one bound taken in, a point behind each.
fn hash_from(
    alloc: Global,
    hash: u32,
    text: &str,
    from: Option<i64>,
    step: i64,
) -> Result<u32, OpEnd> {
    let mut hash = hash;
    for to in -6..8 {
        match text_slice(alloc, 9, text, from, bound(to), Some(step))? {
            Value::Rock(Rock::Text(slice)) => hash = taken_in(taken_in(hash, slice.as_str()), "."),
            _ => return Err(OpEnd::StopSteps),
        }
    }
    Ok(hash)
}

/// The hash of the slices of a text between each two bounds.
fn hash_of(alloc: Global, text: &str, step: i64) -> Result<u32, OpEnd> {
    let mut hash = 2166136261;
    for from in -6..8 {
        hash = hash_from(alloc, hash, text, bound(from), step)?;
    }
    Ok(hash)
}

fn is_hash(alloc: Global, text: &str, step: i64, want: u32) -> bool {
    match hash_of(alloc, text, step) {
        Ok(hash) => hash == want,
        Err(_) => false,
    }
}

#[test]
fn slices_lie_between_their_bounds(rt: HostRuntime) -> Result<(), Fail> {
    for (text, by_3, by_2, by_1) in [
        ("", 2792054165, 2792054165, 2792054165),
        ("a", 1173332885, 1173332885, 1173332885),
        ("ab", 1947482563, 1947482563, 492121917),
        ("abc", 2948342273, 1872348685, 2714983893),
        ("abcd", 3556404787, 2216923721, 2708101861),
    ] {
        holds(is_hash(rt.alloc(), text, 1, by_1), text)?;
        holds(is_hash(rt.alloc(), text, 2, by_2), text)?;
        holds(is_hash(rt.alloc(), text, 3, by_3), text)?;
    }
    Ok(())
}

#[test]
fn backward_slices_lie_between_their_bounds(rt: HostRuntime) -> Result<(), Fail> {
    for (text, by_3, by_2, by_1) in [
        ("", 2792054165, 2792054165, 2792054165),
        ("a", 3698671377, 3698671377, 3698671377),
        ("ab", 3839711341, 3839711341, 4089144097),
        ("abc", 3563134377, 2237934341, 3203467513),
        ("abcd", 79828703, 399402365, 1235946629),
    ] {
        holds(is_hash(rt.alloc(), text, -1, by_1), text)?;
        holds(is_hash(rt.alloc(), text, -2, by_2), text)?;
        holds(is_hash(rt.alloc(), text, -3, by_3), text)?;
    }
    Ok(())
}
