//! What comes behind opening brackets, read from the right.

ghost use Rattle.std.specs.Prelude.{◌≡◌, ◌∷◌, [], IfOk, OnOk, drop, length};
ghost use Rattle.rp_more.specs.SetSteps.{aheads_before, fresh, group_ahead, group_behind, first_known};
ghost use Rattle.rp_more.specs.SetSteps.{group_of_first, groups_ahead, groups_before, is_closed, is_followed};
ghost use Rattle.rp_more.specs.SetSteps.{seen_before, with_kind};

use crate::groups::{Group, Groups};
use crate::kinds::{is_closing, is_colon, is_for, is_opening, is_right_brace, may_follow};
use rp_base::Memory;
use rp_token::{Token, TokenKind};
use std::alloc::Global;
use std::marker::Model;

/// What is known of the tokens up to a bracket that closes.
#[derive(Clone, Copy)]
pub(crate) struct Ahead {
    /// The bracket is `}`, and what may follow a set comes behind it.
    closes_set: bool,
    has_colon: bool,
    has_for: bool,
}

impl Ahead {
    fn new(kind: &TokenKind, behind: &[Token]) -> Ahead
        ensures { result ≡ fresh kind.now behind.now }
    {
        Ahead {
            closes_set: is_right_brace(kind) && is_followed(behind),
            has_colon: false,
            has_for: false,
        }
    }

    /// The same with a token more before it.
    fn with(self, kind: &TokenKind) -> Ahead
        ensures { result ≡ with_kind self kind.now }
    {
        Ahead {
            closes_set: self.closes_set,
            has_colon: is_colon(kind) || self.has_colon,
            has_for: is_for(kind) || self.has_for,
        }
    }

    /// What `{` opens behind `in`, if no closing bracket is the next token.
    fn group(self) -> Group
        ensures { result ≡ group_ahead self }
    {
        if !self.closes_set || self.has_colon {
            return Group::Other;
        }
        if self.has_for {
            Group::Comprehension
        } else {
            Group::Display
        }
    }
}

/// The brackets that close, seen as their list, the next one first.
#[derive(Drop)]
struct Closing {
    brackets: Vec<Ahead>,
}

impl Model for Closing {
    ghost use Rattle.std.specs.Prelude.{List, reverse};
    ghost use Rattle.rp_more.specs.declared.ahead.Ahead.{Ahead};

    ghost Value = { List Ahead };

    ghost view = { λ s. reverse s.brackets.items };
}

impl Closing {
    fn new(alloc: Global) -> Closing
        ensures { result ≡ [] }
    {
        Closing {
            brackets: Vec::new(alloc),
        }
    }

    fn first(&self) -> Option<Ahead>
        ensures { result ≡ first_known self.now }
    {
        match self.brackets.last() {
            Some(ahead) => Some(*ahead),
            None => None,
        }
    }

    /// What `{` opens behind `in`, by the bracket that closes next.
    fn group(&self) -> Group
        ensures { result ≡ group_of_first self.now }
    {
        match self.first() {
            Some(ahead) => ahead.group(),
            None => Group::Other,
        }
    }

    fn push(&mut self, ahead: Ahead) -> Result<(), Memory>
        ensures { OnOk result (self.new ≡ ahead ∷ self.old) }
    {
        self.brackets.push(ahead)?;
        Ok(())
    }

    fn pop(&mut self)
        ensures { self.new ≡ drop 1 self.old }
    {
        let _ = self.brackets.pop();
    }

    /// A token more before the bracket that closes next.
    fn see(&mut self, kind: &TokenKind) -> Result<(), Memory>
        ensures { OnOk result (self.new ≡ seen_before kind.now self.old) }
    {
        match self.first() {
            Some(ahead) => {
                self.pop();
                self.push(ahead.with(kind))
            }
            None => Ok(()),
        }
    }

    /// A token more.
    fn take(&mut self, kind: &TokenKind, behind: &[Token]) -> Result<(), Memory>
        ensures { OnOk result (self.new ≡ aheads_before kind.now behind.now self.old) }
    {
        if is_closing(kind) {
            return self.push(Ahead::new(kind, behind));
        }
        if is_opening(kind) {
            self.pop();
            return Ok(());
        }
        self.see(kind)
    }
}

/// What was read of the tokens.
#[derive(Drop)]
struct Walk {
    groups: Groups,
    closing: Closing,
}

impl Walk {
    /// A token more, before those behind it.
    fn take(&mut self, kind: &TokenKind, behind: &[Token]) -> Result<(), Memory>
        ensures groups { OnOk result (self.new.groups
            ≡ groups_before kind.now behind.now self.old.closing self.old.groups) }
        ensures closing { OnOk result (self.new.closing ≡ aheads_before kind.now behind.now self.old.closing) }
    {
        self.add_group(kind, behind)?;
        self.closing.take(kind, behind)?;
        Ok(())
    }

    /// What the bracket opens, where the token is one that opens.
    fn add_group(&mut self, kind: &TokenKind, behind: &[Token]) -> Result<(), Memory>
        ensures groups { OnOk result (self.new.groups
            ≡ groups_before kind.now behind.now self.old.closing self.old.groups) }
        ensures closing { self.new.closing ≡ self.old.closing }
    {
        if !is_opening(kind) {
            return Ok(());
        }
        let group = self.group(behind);
        self.groups.push(group)
    }

    fn group(&self, behind: &[Token]) -> Group
        ensures { result ≡ group_behind behind.now self.now.closing }
    {
        if is_closed(behind) {
            Group::Other
        } else {
            self.closing.group()
        }
    }
}

/// What each opening bracket opens, if it is `{` and `in` stands before it.
///
/// # Errors
/// `Memory` where a growth was refused.
pub(crate) fn coming_groups(alloc: Global, tokens: &[Token]) -> Result<Groups, Memory>
    ensures { IfOk result (λ found. found ≡ groups_ahead tokens.now) }
{
    let mut walk = Walk {
        groups: Groups::new(alloc),
        closing: Closing::new(alloc),
    };
    let mut place = tokens.len();
    'tokens: while place > 0 {
        place -= 1;
        walk.take(&tokens[place].kind, &tokens[place + 1..])?;
    }
    Ok(walk.groups)
}

/// Whether the next token is a closing bracket.
fn is_closed(tokens: &[Token]) -> bool
    ensures { result ≡ is_closed tokens.now }
{
    match tokens {
        [] => false,
        [token, ..] => is_closing(&token.kind),
    }
}

/// Whether what comes may follow a set.
fn is_followed(tokens: &[Token]) -> bool
    ensures { result ≡ is_followed tokens.now }
{
    match tokens {
        [] => false,
        [token, ..] => may_follow(&token.kind),
    }
}
