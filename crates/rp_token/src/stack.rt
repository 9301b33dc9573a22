//! Numbers one on another.

ghost use Rattle.std.specs.Prelude.{◌≡◌, [], ◌∷◌, ◌==◌, length, drop, OnOk};
ghost use Rattle.rp_token.specs.Characters.{first};

use rp_base::Memory;
use std::alloc::Global;
use std::marker::Model;

/// Numbers one on another, seen as their list, the uppermost first.
#[derive(Drop)]
pub(crate) struct Stack {
    numbers: Vec<usize>,
}

impl Model for Stack {
    ghost use Rattle.std.specs.Prelude.{ℕ, List, reverse};

    ghost Value = { List ℕ };

    ghost view = { λ s. reverse s.numbers.items };
}

impl Stack {
    pub(crate) fn new(alloc: Global) -> Stack
        ensures { result ≡ [] }
    {
        Stack {
            numbers: Vec::new(alloc),
        }
    }

    pub(crate) fn len(&self) -> usize
        ensures { result ≡ length self.now }
    {
        self.numbers.len()
    }

    /// The uppermost number, and 0 where there is none.
    pub(crate) fn top(&self) -> usize
        ensures { result ≡ first self.now }
    {
        match self.numbers.last() {
            Some(number) => *number,
            None => 0,
        }
    }

    pub(crate) fn push(&mut self, number: usize) -> Result<(), Memory>
        ensures { OnOk result (self.new ≡ number ∷ self.old) }
    {
        self.numbers.push(number)?;
        Ok(())
    }

    /// Takes the uppermost number off, where there is one.
    pub(crate) fn pop(&mut self)
        ensures { self.new ≡ drop 1 self.old }
    {
        let _ = self.numbers.pop();
    }
}
