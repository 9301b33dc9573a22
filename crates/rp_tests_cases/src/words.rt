//! The parts of cases, and the words and numbers in them.

use rp_base::Seed;

/// A seed for names and stores.
pub fn seed() -> Seed {
    Seed::from_bytes([7; 16])
}

/// What stands before the first blank.
pub fn first_word(text: &str) -> &str {
    match text.split_once(' ') {
        Some((word, _)) => word,
        None => text,
    }
}

/// What stands behind the first blank.
pub fn after_word(text: &str) -> &str {
    match text.split_once(' ') {
        Some((_, rest)) => rest,
        None => "",
    }
}

/// The part of a case at a place, or an empty text.
pub fn part(parts: &[String], place: usize) -> &str {
    match parts.get(place) {
        Some(part) => part.as_str(),
        None => "",
    }
}

/// The number that the part of a case at a place is, or 0.
pub fn number(parts: &[String], place: usize) -> u32 {
    part(parts, place).parse::<u32>().unwrap_or(0)
}
