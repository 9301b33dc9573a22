//! The turns that words list.

ghost use Rattle.std.specs.Prelude.{◌≡◌, ◌==◌, ◌≤◌, IfOk, length, map, option_map};
ghost use Rattle.std.specs.List.{slice_split};
ghost use Rattle.rp_words.specs.Command.{all_found, number_of, turns_of};

use crate::number::read_number;
use rp_base::Memory;
use std::alloc::Global;

const MOST_TURNS: usize = 10_000;

/// The turns that an option lists, joined by `,`, each the number of one of so many pairs; none where it is not given.
pub fn read_turns(
    alloc: Global,
    pairs: u64,
    turns: Option<&str>,
) -> Result<Option<Vec<u32>>, Memory>
    ensures { IfOk result (λ found. option_map (λ v. v.items) found
        ≡ turns_of pairs (option_map (λ t. t.now) turns.entry)) }
{
    match turns {
        None => Ok(Some(Vec::new(alloc))),
        Some(turns) => {
            if count(turns) > MOST_TURNS {
                return Ok(None);
            }
            read_each(alloc, pairs, turns)
        }
    }
}

/// How many parts the commas separate.
fn count(turns: &str) -> usize
    ensures { result ≡ length (slice_split (λ b. b == 44) turns.now) }
{
    turns.split(',').count()
}

fn read_each(alloc: Global, pairs: u64, turns: &str) -> Result<Option<Vec<u32>>, Memory>
    ensures { IfOk result (λ found. option_map (λ v. v.items) found
        ≡ all_found (map (number_of 2 1 pairs) (slice_split (λ b. b == 44) turns.now))) }
{
    let mut numbers = Vec::new(alloc);
    'numbers: for digits in turns.split(',') {
        let Some(number) = read_number(digits, 2, 1, pairs) else {
            return Ok(None);
        };
        numbers.push(number)?;
    }
    Ok(Some(numbers))
}
