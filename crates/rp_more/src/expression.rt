//! Expressions in f-literals.

ghost use Rattle.std.specs.Prelude.{◌≡◌, ◌++◌, ◌∷◌, [], ℕ, IfOk, List, MatchResult, None, Ok, OnOk, Some, chars, map};
ghost use Rattle.std.specs.List.{All};
ghost use Rattle.std.specs.Option.{option_map};
ghost use Rattle.rp_base.specs.Names.{GrowsTo, with_words};
ghost use Rattle.rp_token.specs.NameWords.{name_words};
ghost use Rattle.rp_token.specs.View.{IsHeld, item_view};
ghost use Rattle.rp_more.specs.Expression.{closes_own, expression_of, kept};
ghost use Rattle.rp_more.specs.Literals.{str_call, with_front};
ghost use Rattle.rp_more.specs.Forms.{placed};
ghost use Rattle.rp_more.specs.LiteralSteps.{place_item, IsWrongAt, Leads, in_place, items_of, str_front};
ghost use Rattle.rp_more.specs.NameSteps.{Follow};

use crate::call_words::CallWords;
use crate::fault::MoreFault;
use crate::kinds::{is_closing, is_opening, is_outer};
use crate::letters::trimmed;
use crate::place::Place;
use rp_base::{Memory, Names};
use rp_token::{Token, TokenFault, TokenKind, tokens};
use std::alloc::Global;

/// Appends `str((E))` for the tokens E of the text, in the place of an f-literal.
///
/// # Errors
/// `Format` where the text has no tokens, or one of them closes a bracket that it did not open, or `Memory`.
pub(crate) fn add_expression(
    alloc: Global,
    written: &mut Vec<Token>,
    place: Place,
    text: &str,
    words: &mut CallWords,
    names: &mut Names,
) -> Result<(), MoreFault>
    ensures leads { (more : List (List ℕ)) → Leads (with_front (items_of (names.new ++ more) written.old.items)
        (in_place place (option_map str_call (expression_of (chars text.now)))))
        (Ok (items_of (names.new ++ more) written.new.items)) result }
    ensures grown { GrowsTo names.old names.new }
    ensures follows { OnOk result (Follow names.old names.new written.old.items written.new.items) }
{
    begin_call(written, place, words, names)?;
    let found = tokens_within(alloc, place, text, names)?;
    add_tokens(written, place, found)?;
    place.end_call(written, TokenKind::RightParen)?;
    Ok(())
}

/// Appends `str((`.
fn begin_call(
    written: &mut Vec<Token>,
    place: Place,
    words: &mut CallWords,
    names: &mut Names,
) -> Result<(), Memory>
    ensures items { (more : List (List ℕ)) → OnOk result (items_of (names.new ++ more) written.new.items
        ≡ items_of (names.new ++ more) written.old.items ++ map (placed (place_item place)) str_front) }
    ensures grown { GrowsTo names.old names.new }
    ensures follows { OnOk result (Follow names.old names.new written.old.items written.new.items) }
{
    place.push(written, TokenKind::Name(words.str(names)?))?;
    place.push(written, TokenKind::LeftParen)?;
    place.push(written, TokenKind::LeftParen)?;
    Ok(())
}

/// Appends the tokens, in the place, without the ends of lines and of the text.
fn add_tokens(written: &mut Vec<Token>, place: Place, found: Vec<Token>) -> Result<(), Memory>
    ensures { (names : List (List ℕ)) → OnOk result (items_of names written.new.items
        ≡ items_of names written.old.items ++ map (placed (place_item place)) (kept (items_of names found.items))) }
{
    for token in found {
        add_token(written, place, token)?;
    }
    Ok(())
}

fn add_token(written: &mut Vec<Token>, place: Place, token: Token) -> Result<(), Memory>
    ensures { (names : List (List ℕ)) → OnOk result (items_of names written.new.items
        ≡ items_of names written.old.items ++ map (placed (place_item place)) (kept (item_view names token ∷ []))) }
{
    if is_outer(&token.kind) {
        return Ok(());
    }
    place.push(written, token.kind)?;
    Ok(())
}

/// The tokens of the text, which close no bracket but their own.
fn tokens_within(
    alloc: Global,
    place: Place,
    text: &str,
    names: &mut Names,
) -> Result<Vec<Token>, MoreFault>
    ensures tokens { MatchResult result (λ found. expression_of (chars text.now)
        ≡ Some (kept (items_of names.new found.items))) (IsWrongAt place (expression_of (chars text.now))) }
    ensures held { IfOk result (λ found. All (IsHeld names.new) found.items) }
    ensures words { IfOk result (λ found. names.new
        ≡ with_words names.old (name_words (items_of names.new found.items))) }
    ensures grown { GrowsTo names.old names.new }
{
    match tokens(alloc, trimmed(text), names) {
        Ok(found) => {
            if !closes_own(found.as_slice()) {
                return Err(MoreFault::Format(place.line()));
            }
            Ok(found)
        }
        Err(TokenFault::Memory) => Err(MoreFault::Memory),
        Err(_) => Err(MoreFault::Format(place.line())),
    }
}

/// Whether each closing bracket closes one that was opened among the tokens, of whatever kind.
fn closes_own(tokens: &[Token]) -> bool
    ensures { (names : List (List ℕ)) → result ≡ closes_own 0 (kept (items_of names tokens.now)) }
{
    let mut opened = 0usize;
    for token in tokens {
        if is_closing(&token.kind) {
            if opened == 0 {
                return false;
            }
            opened -= 1;
        } else if is_opening(&token.kind) {
            opened += 1;
        }
    }
    true
}
