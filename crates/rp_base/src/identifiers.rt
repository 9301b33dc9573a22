//! Identifiers and keywords.

ghost use Rattle.std.specs.Prelude.{◌≡◌, ◌↔◌, ◌&&◌, IfOk, IfSome, IsTrue, chars, get_or, length, nat_le};
ghost use Rattle.std.specs.List.{list_all};
ghost use Rattle.unicode_ident.specs.Ident.{is_xid_continue};
ghost use Rattle.rp_base.specs.Identifier.{IsIdentifier, begins_well, identifier_of, is_identifier, is_identifier_word};
ghost use Rattle.rp_base.specs.Identifier.{is_start, longest_name};
ghost use Rattle.rp_base.specs.Keyword.{is_keyword};

use crate::memory::Memory;
use crate::text::Text;
use std::alloc::Global;
use unicode_ident::{is_xid_continue, is_xid_start};
use unicode_normalization::{is_nfkc, to_nfkc};

/// The most bytes of UTF-8 that an identifier has.
pub const LONGEST_NAME: usize = 255;

/// The identifier that a word spells: its form NFKC, where the word and that form are identifiers
/// (UAX 31; `_` may begin one) and the form has at most 255 bytes of UTF-8.
///
/// # Errors
/// `Memory` where a growth was refused.
pub fn identifier(alloc: Global, word: &str) -> Result<Option<Text>, Memory>
    ensures form { IfOk result (λ r. r ≡ identifier_of (chars word.now)) }
    ensures identifier { IfOk result (λ r. IfSome r IsIdentifier) }
{
    if !is_identifier(word) {
        return Ok(None);
    }
    let form = to_nfkc(alloc, word)?;
    if is_identifier(form.as_str()) && form.len() <= LONGEST_NAME {
        Ok(Some(Text::new(alloc, form.as_str())?))
    } else {
        Ok(None)
    }
}

/// Whether a word is an identifier, spelled in its form NFKC, of at most `LONGEST_NAME` bytes (UAX 31, UAX 15). It
/// takes memory only for a word of which the characters alone do not tell whether it is in that form.
///
/// # Errors
/// `Memory` where a growth was refused.
pub fn is_identifier_word(alloc: Global, word: &str) -> Result<bool, Memory>
    ensures value { IfOk result (λ is. is ≡ is_identifier_word (chars word.now)) }
    ensures identifier { IfOk result (λ is. IsTrue is ↔ IsIdentifier (chars word.now)) }
{
    if !is_short_identifier(word) {
        return Ok(false);
    }
    Ok(is_nfkc(alloc, word)?)
}

/// Whether the word is a keyword of Python 3 (Python Language Reference, "Keywords").
pub fn is_keyword(word: &str) -> bool
    ensures { result ≡ is_keyword word.now }
{
    match first_byte(word) {
        b'F' => ["False"].contains(&word),
        b'N' => ["None"].contains(&word),
        b'T' => ["True"].contains(&word),
        b'a' => ["and", "as", "assert", "async", "await"].contains(&word),
        b'b' => ["break"].contains(&word),
        b'c' => ["class", "continue"].contains(&word),
        b'd' => ["def", "del"].contains(&word),
        b'e' => ["elif", "else", "except"].contains(&word),
        b'f' => ["finally", "for", "from"].contains(&word),
        b'g' => ["global"].contains(&word),
        b'i' => ["if", "import", "in", "is"].contains(&word),
        b'l' => ["lambda"].contains(&word),
        b'n' => ["nonlocal", "not"].contains(&word),
        b'o' => ["or"].contains(&word),
        b'p' => ["pass"].contains(&word),
        b'r' => ["raise", "return"].contains(&word),
        b't' => ["try"].contains(&word),
        b'w' => ["while", "with"].contains(&word),
        b'y' => ["yield"].contains(&word),
        _ => false,
    }
}

/// The first byte of a word, 0 where it is empty.
fn first_byte(word: &str) -> u8
    ensures { result ≡ get_or word.now 0 0 }
{
    match word.as_bytes().first() {
        Some(byte) => *byte,
        None => 0,
    }
}

fn is_short_identifier(word: &str) -> bool
    ensures { result ≡ (is_identifier (chars word.now) && nat_le (length word.now) longest_name) }
{
    word.len() <= LONGEST_NAME && is_identifier(word)
}

fn is_identifier(word: &str) -> bool
    ensures { result ≡ is_identifier (chars word.now) }
{
    begins_well(word) && continues_well(word)
}

fn begins_well(word: &str) -> bool
    ensures { result ≡ begins_well (chars word.now) }
{
    match word.chars().next() {
        Some(first) => is_start(first),
        None => false,
    }
}

fn continues_well(word: &str) -> bool
    ensures { result ≡ list_all is_xid_continue (chars word.now) }
{
    word.chars().all(|ch| is_xid_continue(ch))
}

fn is_start(ch: char) -> bool
    ensures { result ≡ is_start ch }
{
    ch == '_' || is_xid_start(ch)
}
