//! Words: keywords and names.

ghost use Rattle.std.specs.Prelude.{◌≡◌, ◌++◌, ℕ, List, IfOk, IsTrue, OnOk, chars, false, option_map, true};
ghost use Rattle.rp_base.specs.Identifier.{IsIdentifier, is_identifier};
ghost use Rattle.rp_base.specs.Keyword.{is_keyword};
ghost use Rattle.rp_base.specs.Names.{GrowsTo, with_words};
ghost use Rattle.rp_token.specs.Tokens.{word_form};
ghost use Rattle.rp_token.specs.View.{form_view};
ghost use Rattle.rp_token.specs.WordSteps.{form_words};

use crate::spelling::keyword;
use crate::token::TokenKind;
use rp_base::{LONGEST_NAME, Memory, Names, identifier, is_keyword};
use std::alloc::Global;

/// The keyword or the name that a word is: its form NFKC, which is an identifier of at most `LONGEST_NAME` bytes
/// and no keyword. `None` where it is neither.
///
/// # Errors
/// `Memory` where a growth was refused.
pub(crate) fn word_kind(
    alloc: Global,
    word: &str,
    names: &mut Names,
) -> Result<Option<TokenKind>, Memory>
    requires { is_identifier (chars word.now) ≡ true }
    ensures form { (more : List (List ℕ))
        → IfOk result (λ kind. option_map (form_view (names.new ++ more)) kind ≡ word_form (chars word.now)) }
    ensures grown { GrowsTo names.old names.new }
    ensures words { OnOk result (names.new ≡ with_words names.old (form_words (word_form (chars word.now)))) }
{
    if let Some(kind) = keyword(word) {
        return Ok(Some(kind));
    }
    if !is_plain(word) {
        return name_of_form(alloc, word, names);
    }
    let name = names.intern(word)?;
    Ok(Some(TokenKind::Name(name)))
}

/// Whether the word is ASCII, which is its own form, and short enough for an identifier.
fn is_plain(word: &str) -> bool
    requires { is_identifier (chars word.now) ≡ true }
    ensures { IsTrue result → IsIdentifier (chars word.now) }
{
    word.is_ascii() && word.len() <= LONGEST_NAME
}

/// The name of the word's form, where it has one that is no keyword.
fn name_of_form(alloc: Global, word: &str, names: &mut Names) -> Result<Option<TokenKind>, Memory>
    requires { is_keyword (chars word.now) ≡ false }
    ensures form { (more : List (List ℕ))
        → IfOk result (λ kind. option_map (form_view (names.new ++ more)) kind ≡ word_form (chars word.now)) }
    ensures grown { GrowsTo names.old names.new }
    ensures words { OnOk result (names.new ≡ with_words names.old (form_words (word_form (chars word.now)))) }
{
    let Some(form) = identifier(alloc, word)? else {
        return Ok(None);
    };
    if is_keyword(form.as_str()) {
        return Ok(None);
    }
    let name = names.intern(form.as_str())?;
    Ok(Some(TokenKind::Name(name)))
}
