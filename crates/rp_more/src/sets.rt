//! Sets that are tested by `in` or walked: each is written as a dict whose values are None.

ghost use Rattle.std.specs.Prelude.{◌≡◌, ◌++◌, ◌∷◌, [], ◌||◌, ℕ, IfOk, List, OnOk, false};
ghost use Rattle.std.specs.List.{list_any};
ghost use Rattle.rp_token.specs.Form.{newline};
ghost use Rattle.rp_more.specs.KindSteps.{is_comma, is_in, is_left_brace};
ghost use Rattle.rp_more.specs.LiteralSteps.{items_of};
ghost use Rattle.rp_more.specs.Sets.{sets};
ghost use Rattle.rp_more.specs.SetSteps.{asks, group_here, groups_behind, none_before, opened_behind};

use crate::ahead::coming_groups;
use crate::groups::{Group, Groups};
use crate::kinds::{is_closing, is_comma, is_for, is_in, is_left_brace, is_opening};
use crate::place::Place;
use rp_base::Memory;
use rp_token::{Token, TokenKind};
use std::alloc::Global;

/// The tokens so far, and what the brackets that are open ask of the next one.
#[derive(Drop)]
struct Sets {
    /// What the brackets to come open behind `in`.
    coming: Groups,
    /// The open brackets.
    opened: Groups,
    written: Vec<Token>,
    /// The token before is `,` or `{`.
    separated: bool,
    /// The token before is `in`.
    behind_in: bool,
}

impl Sets {
    /// Whether `: None` comes before the token.
    fn asks(&self, kind: &TokenKind) -> bool
        ensures { result ≡ asks self.now.opened self.now.separated kind.now }
    {
        match self.opened.innermost() {
            Group::Comprehension => is_for(kind),
            Group::Display => (is_comma(kind) || is_closing(kind)) && !self.separated,
            Group::Other => false,
        }
    }

    fn take(&mut self, token: Token) -> Result<(), Memory>
        ensures written { OnOk result (self.new.written.items ≡ self.old.written.items
            ++ (none_before self.old.opened self.old.separated token ++ token ∷ [])) }
        ensures opened { OnOk result (self.new.opened
            ≡ opened_behind self.old.coming self.old.opened self.old.behind_in token.kind) }
        ensures coming { OnOk result (self.new.coming ≡ groups_behind token.kind self.old.coming) }
        ensures separated { OnOk result (self.new.separated ≡ (is_comma token.kind || is_left_brace token.kind)) }
        ensures behind_in { OnOk result (self.new.behind_in ≡ is_in token.kind) }
    {
        self.add_none(&token)?;
        self.pass(&token.kind)?;
        self.separated = is_comma(&token.kind) || is_left_brace(&token.kind);
        self.behind_in = is_in(&token.kind);
        self.written.push(token)?;
        Ok(())
    }

    /// Appends `: None`, where it comes before the token.
    fn add_none(&mut self, token: &Token) -> Result<(), Memory>
        ensures written { OnOk result (self.new.written.items ≡ self.old.written.items
            ++ none_before self.old.opened self.old.separated token.now) }
        ensures opened { self.new.opened ≡ self.old.opened }
        ensures coming { self.new.coming ≡ self.old.coming }
        ensures separated { self.new.separated ≡ self.old.separated }
        ensures behind_in { self.new.behind_in ≡ self.old.behind_in }
    {
        if !self.asks(&token.kind) {
            return Ok(());
        }
        let place = Place::of(token);
        place.push(&mut self.written, TokenKind::Colon)?;
        place.push(&mut self.written, TokenKind::None)?;
        Ok(())
    }

    /// The brackets that are open behind a token.
    fn pass(&mut self, kind: &TokenKind) -> Result<(), Memory>
        ensures opened { OnOk result (self.new.opened
            ≡ opened_behind self.old.coming self.old.opened self.old.behind_in kind.now) }
        ensures coming { OnOk result (self.new.coming ≡ groups_behind kind.now self.old.coming) }
        ensures written { self.new.written.items ≡ self.old.written.items }
        ensures separated { self.new.separated ≡ self.old.separated }
        ensures behind_in { self.new.behind_in ≡ self.old.behind_in }
    {
        if is_opening(kind) {
            let group = self.next_group(kind);
            self.coming.pop();
            return self.opened.push(group);
        }
        if is_closing(kind) {
            self.opened.pop();
            return Ok(());
        }
        if is_for(kind) {
            return self.opened.pass_for();
        }
        Ok(())
    }

    /// What an opening bracket opens.
    fn next_group(&self, kind: &TokenKind) -> Group
        ensures { result ≡ group_here self.now.behind_in kind.now self.now.coming }
    {
        if self.behind_in && is_left_brace(kind) {
            self.coming.innermost()
        } else {
            Group::Other
        }
    }
}

/// The tokens with each set as a dict. Where there is no brace they are handed on.
///
/// # Errors
/// `Memory` where a growth was refused.
pub(crate) fn written_out(alloc: Global, tokens: Vec<Token>) -> Result<Vec<Token>, Memory>
    ensures { (names : List (List ℕ)) → IfOk result (λ found. items_of names found.items ≡ sets [] newline
        (items_of names tokens.items)) }
{
    if !has_brace(tokens.as_slice()) {
        return Ok(tokens);
    }
    each_written_out(alloc, tokens)
}

/// The tokens, one by one, with each set as a dict.
fn each_written_out(alloc: Global, tokens: Vec<Token>) -> Result<Vec<Token>, Memory>
    ensures { (names : List (List ℕ)) → IfOk result (λ found. items_of names found.items ≡ sets [] newline
        (items_of names tokens.items)) }
{
    let mut sets = Sets {
        coming: coming_groups(alloc, tokens.as_slice())?,
        opened: Groups::new(alloc),
        written: Vec::with_capacity(alloc, tokens.len())?,
        separated: false,
        behind_in: false,
    };
    for token in tokens {
        sets.take(token)?;
    }
    Ok(sets.written)
}

/// Whether one of the tokens is `{`.
fn has_brace(tokens: &[Token]) -> bool
    ensures { result ≡ list_any (λ t. is_left_brace t.kind) tokens.now }
{
    tokens.iter().any(|token| is_left_brace(&token.kind))
}
