//! Why tokens have no expansion.

ghost use Rattle.std.specs.Prelude.{◌≡◌};
ghost use Rattle.rp_more.specs.declared.fault.MoreFault.TheVariants.{Memory as OutOfMemory};

use rp_base::{Line, Memory};

/// Why tokens have no expansion.
#[derive(Clone, Copy, Debug, PartialEq, Eq)]
pub enum MoreFault {
    /// The first f-literal whose text is wrong, by the line of the text: a single `}`, or a `{` behind which no
    /// expression and `}` come (PEP 498).
    Format(Line),
    /// A growth was refused.
    Memory,
}

impl From<Memory> for MoreFault {
    ghost from_gives = { λ _ e. e ≡ OutOfMemory };

    fn from(_: Memory) -> Self {
        MoreFault::Memory
    }
}
