//! Ids, and names of classes, objects and fields.

ghost use Rattle.std.specs.Prelude.{◌≡◌, IfOk, chars};
ghost use Rattle.std.specs.List.{list_all};
ghost use Rattle.rp_decl.specs.Word.{is_id, is_declared_name, is_id_character};

use rp_base::{LONGEST_NAME, Memory, is_identifier_word, is_keyword};
use std::alloc::Global;

/// Whether a word is an id: 1 to 255 ASCII letters, digits, dots, dashes and underscores.
pub fn is_id(word: &str) -> bool
    ensures { result ≡ is_id (chars word.now) }
{
    is_id_by_bytes(word)
}

/// Whether a word may be a declared name: an identifier in its form NFKC, of at most 255 bytes, that is
/// no keyword (Python Language Reference, "Identifiers and keywords"). It takes memory only for a word
/// of which the characters alone do not tell whether it is in that form.
///
/// # Errors
/// `Memory` where a growth was refused.
pub fn is_declared_name(alloc: Global, word: &str) -> Result<bool, Memory>
    ensures { IfOk result (λ b. b ≡ is_declared_name (chars word.now)) }
{
    if is_keyword(word) {
        return Ok(false);
    }
    Ok(is_identifier_word(alloc, word)?)
}

fn is_id_by_bytes(word: &str) -> bool
    ensures { result ≡ is_id word.now }
{
    !word.is_empty() && word.len() <= LONGEST_NAME && has_id_characters(word)
}

fn has_id_characters(word: &str) -> bool
    ensures { result ≡ list_all is_id_character word.now }
{
    word.bytes().all(|byte| is_id_character(byte))
}

fn is_id_character(byte: u8) -> bool
    ensures { result ≡ is_id_character byte }
{
    byte.is_ascii_alphanumeric() || byte == b'.' || byte == b'-' || byte == b'_'
}
