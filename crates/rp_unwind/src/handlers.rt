//! The stack of open parts.
ghost use Rattle.std.specs.Prelude.{◌≡◌, ◌∷◌, [], MatchOption, OnErr, OnOk};
ghost use Rattle.rp_unwind.specs.Innermost.{next, takes};

use crate::leaving::Leaving;
use rp_base::Memory;
use std::alloc::Global;
use std::marker::Model;

/// What kind of part is open.
#[derive(Clone, Copy, Debug, PartialEq, Eq)]
pub enum Part {
    /// The body of a `try` statement with `except` clauses.
    Except,
    /// What stands before the `finally` block of a `try` statement.
    Finally,
    /// The body of a loop.
    Loop,
}

/// An open part.
#[derive(Clone, Copy, Debug, PartialEq, Eq)]
pub struct Handler {
    pub part: Part,
    /// A number of the machine's own: the length of its stack below the part.
    pub at: usize,
}

/// The open parts of one frame, seen as the list of them, the innermost first.
#[derive(Drop)]
pub struct Handlers {
    parts: Vec<Handler>,
}

impl Model for Handlers {
    ghost use Rattle.std.specs.Prelude.{List, reverse};
    ghost use Rattle.rp_unwind.specs.declared.handlers.Handler.{Handler};

    ghost Value = { List Handler };

    ghost view = { λ h. reverse h.parts.items };
}

impl Handlers {
    /// No open part. It takes no memory yet.
    pub fn new(alloc: Global) -> Handlers
        ensures { result ≡ [] }
    {
        Handlers {
            parts: Vec::new(alloc),
        }
    }

    /// Opens a part within all that are open.
    ///
    /// # Errors
    /// `Memory` where a growth was refused; then the parts are as before.
    pub fn push(&mut self, handler: Handler) -> Result<(), Memory>
        ensures pushed { OnOk result (self.new ≡ handler ∷ self.old) }
        ensures same { OnErr result (self.new ≡ self.old) }
    {
        self.parts.push(handler)?;
        Ok(())
    }

    /// Closes the innermost part and answers it, None exactly where none is open.
    pub fn pop(&mut self) -> Option<Handler>
        ensures innermost { MatchOption result (self.old ≡ []) (λ handler. self.old ≡ handler ∷ self.new) }
        ensures none { self.old ≡ [] → self.new ≡ [] }
    {
        self.parts.pop()
    }

    /// The innermost part that takes what leaves; it and all parts within it are closed. None, with no part left open,
    /// exactly where no part takes it (Python Language Reference, The try statement, The break statement).
    pub fn next(&mut self, leaving: &Leaving) -> Option<Handler>
        ensures { (result, self.new) ≡ next leaving.now self.old }
    {
        while let Some(handler) = self.pop() {
            if takes(handler.part, leaving) {
                return Some(handler);
            }
        }
        None
    }
}

/// Whether a part takes what leaves it.
fn takes(part: Part, leaving: &Leaving) -> bool
    ensures { result ≡ takes part leaving.now }
{
    match leaving {
        Leaving::Raised(_) => part != Part::Loop,
        Leaving::Returned(_) => part == Part::Finally,
        Leaving::Broke | Leaving::Continued => part != Part::Except,
    }
}
