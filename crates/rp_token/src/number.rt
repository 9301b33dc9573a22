//! Number literals.

ghost use Rattle.std.specs.Prelude.{◌≡◌, ◌≤◌, ◌==◌, ◌||◌, chars, drop, if◌then◌else◌, option_and_then, option_map, pos};
ghost use Rattle.std.specs.List.{list_all};
ghost use Rattle.rp_token.specs.Characters.{first};
ghost use Rattle.rp_token.specs.Number.{base_of, limited, number_of, value_in};

use crate::text::{behind, first};

/// The greatest number of a script.
const GREATEST: u64 = 9_223_372_036_854_775_807;

/// The number that a word spells: zeros, a decimal number with no zero at its front, or `0x`, `0o` or
/// `0b` and digits of that base, with a single `_` before any digit but the first character.
pub(crate) fn number_of(word: &str) -> Option<i64>
    ensures { result ≡ option_map pos (number_of (chars word.now)) }
{
    if first(word) != '0' {
        return value_in(10, word);
    }
    let rest = behind(word);
    match base_of(first(rest)) {
        Some(base) => value_in(base, behind(rest)),
        None => {
            if is_zeros(word) {
                value_in(10, word)
            } else {
                None
            }
        }
    }
}

fn base_of(letter: char) -> Option<u32>
    ensures { result ≡ base_of letter }
{
    match letter {
        'x' | 'X' => Some(16),
        'o' | 'O' => Some(8),
        'b' | 'B' => Some(2),
        _ => None,
    }
}

/// Whether there are only zeros, and underscores among them.
fn is_zeros(word: &str) -> bool
    ensures { result ≡ list_all (λ c. (c == 48) || (c == 95)) (chars word.now) }
{
    word.chars().all(|c| c == '0' || c == '_')
}

/// The number of one digit of the base or more, with underscores among them, up to the greatest `i64`.
fn value_in(base: u32, digits: &str) -> Option<i64>
    requires low { 2 ≤ base }
    requires high { base ≤ 36 }
    ensures { result ≡ option_map pos (option_and_then limited (value_in base (chars digits.now))) }
{
    if digits.is_empty() {
        return None;
    }
    let mut rest = digits;
    let mut value = 0u64;
    'digits: while !rest.is_empty() {
        let place = behind_underscore(rest);
        let digit = first(place).to_digit(base)?;
        value = value
            .checked_mul(u64::from(base))?
            .checked_add(u64::from(digit))?;
        rest = behind(place);
    }
    if value <= GREATEST {
        Some(value as i64)
    } else {
        None
    }
}

fn behind_underscore(text: &str) -> &str
    ensures { let cs = chars text.now in chars result.now ≡ (if first cs == 95 then drop 1 cs else cs) }
{
    if first(text) == '_' {
        behind(text)
    } else {
        text
    }
}
