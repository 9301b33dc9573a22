//! The tokens of a script that were not read yet.

ghost use Rattle.std.specs.Prelude.{◌≡◌, ◌≤◌, ◌+◌, drop, length, take};

use rp_token::Token;
use std::marker::Model;

/// The tokens of a script behind those that were read. Whenever more than half of those that it holds were read, these
/// are given back, so that they do not stand beside all that is made of them.
#[derive(Drop)]
pub(crate) struct Unread {
    tokens: Vec<Token>,
    read: usize,
}

impl Model for Unread {
    ghost use Rattle.std.specs.Prelude.{◌≤◌, drop, length};
    ghost use Rattle.rp_grammar.specs.Kinds.{Tokens};

    ghost Value = { Tokens };

    ghost view = { λ u. drop u.read u.tokens.items };

    ghost invariant = { λ u. u.read ≤ length u.tokens.items };
}

impl Unread {
    /// All these tokens.
    pub(crate) fn new(tokens: Vec<Token>) -> Unread
        ensures { result ≡ tokens.items }
    {
        Unread { tokens, read: 0 }
    }

    pub(crate) fn tokens(&self) -> &[Token]
        ensures { result.now ≡ self.now }
    {
        &self.tokens[self.read..]
    }

    /// So many at the front were read.
    pub(crate) fn pass(&mut self, count: usize)
        requires { count ≤ length self.old }
        ensures { self.new ≡ drop count self.old }
    {
        self.read += count;
        if self.read > self.tokens.len() / 2 {
            give_back(&mut self.tokens, self.read);
            self.read = 0;
        }
    }
}

/// Gives back so many tokens at the front, which are half of all at least, and their room: those behind come into the
/// places of the first of them.
fn give_back(tokens: &mut Vec<Token>, count: usize)
    requires within { count ≤ length tokens.old.items }
    requires half { length tokens.old.items ≤ count + count }
    ensures { tokens.new.items ≡ drop count tokens.old.items }
{
    let left = tokens.len() - count;
    trade(tokens.as_mut_slice(), count, left);
    tokens.truncate(left);
    tokens.shrink_to_fit();
}

/// Puts the last tokens, so many, behind so many others, into the places of the first.
fn trade(tokens: &mut [Token], count: usize, left: usize)
    requires all { count + left ≡ length tokens.old }
    requires half { left ≤ count }
    ensures len { length tokens.new ≡ length tokens.old }
    ensures first { take left tokens.new ≡ drop count tokens.old }
{
    let (read, unread) = tokens.split_at_mut(count);
    let (first, _) = read.split_at_mut(left);
    first.swap_with_slice(unread);
}
