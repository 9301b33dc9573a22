//! What open brackets are.

ghost use Rattle.std.specs.Prelude.{◌≡◌, ◌∷◌, [], OnOk, drop};
ghost use Rattle.rp_more.specs.SetSteps.{innermost, past_for};

use rp_base::Memory;
use std::alloc::Global;
use std::marker::Model;

/// What an open bracket is.
#[derive(Clone, Copy)]
pub(crate) enum Group {
    /// The elements of a set.
    Display,
    /// A comprehension of a set, up to its first `for`.
    Comprehension,
    Other,
}

/// What brackets are, seen as their list, the next or innermost one first.
#[derive(Drop)]
pub(crate) struct Groups {
    groups: Vec<Group>,
}

impl Model for Groups {
    ghost use Rattle.std.specs.Prelude.{List, reverse};
    ghost use Rattle.rp_more.specs.declared.groups.Group.{Group};

    ghost Value = { List Group };

    ghost view = { λ s. reverse s.groups.items };
}

impl Groups {
    pub(crate) fn new(alloc: Global) -> Groups
        ensures { result ≡ [] }
    {
        Groups {
            groups: Vec::new(alloc),
        }
    }

    /// The first one, and another bracket where there is none.
    pub(crate) fn innermost(&self) -> Group
        ensures { result ≡ innermost self.now }
    {
        match self.groups.last() {
            Some(group) => *group,
            None => Group::Other,
        }
    }

    pub(crate) fn push(&mut self, group: Group) -> Result<(), Memory>
        ensures { OnOk result (self.new ≡ group ∷ self.old) }
    {
        self.groups.push(group)?;
        Ok(())
    }

    /// Takes the first one off, where there is one.
    pub(crate) fn pop(&mut self)
        ensures { self.new ≡ drop 1 self.old }
    {
        let _ = self.groups.pop();
    }

    /// A comprehension asks for nothing behind its first `for`.
    pub(crate) fn pass_for(&mut self) -> Result<(), Memory>
        ensures { OnOk result (self.new ≡ past_for self.old) }
    {
        match self.innermost() {
            Group::Comprehension => {
                self.pop();
                self.push(Group::Other)
            }
            Group::Display => Ok(()),
            Group::Other => Ok(()),
        }
    }
}
