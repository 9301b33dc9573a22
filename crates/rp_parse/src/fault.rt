//! Why tokens spell no tree.

ghost use Rattle.std.specs.Prelude.{◌≡◌, None, Some, option_map};
ghost use Rattle.rp_parse.specs.declared.fault.Stop.TheVariants.{Memory as OutOfMemory};
ghost use Rattle.rp_parse.specs.Gives.{stop_of, told, placed, unplaced};

use rp_base::{Line, Memory};
use rp_expr::Fault;
use rp_token::Token;
use std::alloc::{AllocError, AllocFailed};
use thiserror::Error;

/// Why tokens spell no tree.
#[derive(Clone, Copy, Debug, PartialEq, Eq, Error)]
pub enum ParseFault {
    /// No statement of height at most 200 goes on so. The line is that of the last place at which a statement could
    /// begin: what stands before it can be ended to a whole script, and no longer front can.
    #[error("the grammar spells nothing so")]
    Syntax(Line),
    /// A growth was refused.
    #[error("out of memory")]
    Memory,
}

impl From<Memory> for ParseFault {
    ghost use Rattle.std.specs.Prelude.{◌≡◌};
    ghost use Rattle.rp_parse.specs.declared.fault.ParseFault.TheVariants as fault;

    ghost from_gives = { λ _ e. e ≡ fault.Memory };

    fn from(_: Memory) -> Self {
        ParseFault::Memory
    }
}

/// Why the tokens at the front could not be read.
#[derive(Clone, Copy)]
pub enum Stop<'a> {
    /// The grammar spells nothing so. With the last place within at which a statement could begin, if there is one.
    Syntax(Option<&'a [Token]>),
    /// A growth was refused.
    Memory,
}

impl<'a> Stop<'a> {
    /// The same, where a statement could begin at these tokens.
    pub fn at(self, tokens: &'a [Token]) -> Self
        ensures { told result ≡ placed tokens.now (told self.entry) }
    {
        match self {
            Stop::Syntax(None) => Stop::Syntax(Some(tokens)),
            Stop::Syntax(Some(place)) => Stop::Syntax(Some(place)),
            Stop::Memory => Stop::Memory,
        }
    }

    /// The same, where no place within counts.
    pub fn hidden(self) -> Self
        ensures { told result ≡ unplaced (told self.entry) }
    {
        match self {
            Stop::Syntax(_) => Stop::Syntax(None),
            Stop::Memory => Stop::Memory,
        }
    }
}

impl From<Fault> for Stop<'_> {
    ghost from_gives = { λ fault e. e ≡ stop_of fault };

    fn from(fault: Fault) -> Self {
        match fault {
            Fault::Syntax => Stop::Syntax(None),
            Fault::Memory => Stop::Memory,
        }
    }
}

impl From<AllocError> for Stop<'_> {
    ghost from_gives = { λ _ e. e ≡ OutOfMemory };

    fn from(_: AllocError) -> Self {
        Stop::Memory
    }
}

impl<T: Drop> From<AllocFailed<T>> for Stop<'_> {
    ghost from_gives = { λ _ e. e ≡ OutOfMemory };

    fn from(_: AllocFailed<T>) -> Self {
        Stop::Memory
    }
}

impl From<Memory> for Stop<'_> {
    ghost from_gives = { λ _ e. e ≡ OutOfMemory };

    fn from(_: Memory) -> Self {
        Stop::Memory
    }
}
