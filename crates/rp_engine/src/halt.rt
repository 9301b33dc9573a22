//! Why a machine does not go on.

use rp_base::Memory;

/// Why a machine does not go on, of which its law says nothing.
#[derive(Clone, Copy, Debug, PartialEq, Eq)]
pub enum Halt {
    /// A growth was refused.
    Memory,
    /// A count is full, and nothing was refused: of the parts of one form, or the arguments of one call, 2^32 - 1.
    TooLong,
}

impl From<Memory> for Halt {
    ghost use Rattle.std.specs.Prelude.{◌≡◌};
    ghost use Rattle.rp_engine.specs.declared.halt.Halt.TheVariants as halt;

    ghost from_gives = { λ _ given. given ≡ halt.Memory };

    fn from(_: Memory) -> Self {
        Halt::Memory
    }
}
