//! The characters of a text, by place.

ghost use Rattle.std.specs.Prelude.{◌≡◌, ◌<◌, ◌≤◌, ◌^◌, chars, encode_utf8_all, length, slice_get, string_bytes, IfOk};
ghost use Rattle.std.specs.Prelude.{IfSome};
ghost use Rattle.rp_items.specs.SliceView.{AreWithin, taken};

use crate::spans::Places;
use rp_base::{Characters, Memory, Text, ascii_at, ascii_slice};
use std::alloc::Global;

/// The character at a place.
#[inline(always)]
pub(crate) fn character_of(text: &Text, place: usize) -> Option<char>
    ensures { result ≡ slice_get text.now place }
{
    match text.characters() {
        Characters::Ascii(letters) => ascii_at(letters, place),
        Characters::Wide(letters) => letter_at(letters, place),
    }
}

/// The character at a place of characters.
#[inline(always)]
fn letter_at(letters: &[char], place: usize) -> Option<char>
    ensures { result ≡ slice_get letters.now place }
{
    if place < letters.len() {
        return Some(letters[place]);
    }
    None
}

/// The characters at the places where each stands behind the last and each is ASCII, so that they are a part of the
/// text.
pub(crate) fn run_of(text: &Text, places: Places) -> Option<&str>
    requires small { length text.now < 2 ^ 64 }
    requires within { AreWithin (length text.now) places }
    requires first { places.first ≤ length text.now }
    ensures { IfSome result (λ run. chars run.now ≡ taken places text.now) }
{
    if places.backward || places.step != 1 {
        return None;
    }
    let letters = text.ascii()?;
    Some(ascii_slice(letters, places.first, places.first + places.count))
}

/// The text of the characters at the places.
///
/// # Errors
/// `Memory` where a growth was refused.
pub(crate) fn letters_at(alloc: Global, text: &Text, places: Places) -> Result<String, Memory>
    requires small { length text.now < 2 ^ 64 }
    requires within { AreWithin (length text.now) places }
    ensures { IfOk result (λ t. string_bytes t ≡ encode_utf8_all (taken places text.now)) }
{
    match text.characters() {
        Characters::Ascii(letters) => spelled_ascii(alloc, letters.as_bytes(), places),
        Characters::Wide(letters) => spelled(alloc, letters, places),
    }
}

/// The same, of ASCII characters, each a byte.
fn spelled_ascii(alloc: Global, letters: &[u8], places: Places) -> Result<String, Memory>
    requires small { length letters.now < 2 ^ 64 }
    requires within { AreWithin (length letters.now) places }
    ensures { IfOk result (λ t. string_bytes t ≡ encode_utf8_all (taken places letters.now)) }
{
    let mut text = String::with_capacity(alloc, places.count)?;
    for m in 0..places.count {
        text.push(letters[places.at(m)] as char)?;
    }
    Ok(text)
}

/// The same, of characters by place.
fn spelled(alloc: Global, letters: &[char], places: Places) -> Result<String, Memory>
    requires small { length letters.now < 2 ^ 64 }
    requires within { AreWithin (length letters.now) places }
    ensures { IfOk result (λ t. string_bytes t ≡ encode_utf8_all (taken places letters.now)) }
{
    let mut text = String::with_capacity(alloc, places.count)?;
    for m in 0..places.count {
        text.push(letters[places.at(m)])?;
    }
    Ok(text)
}
