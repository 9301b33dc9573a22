//! Why there is no interaction of some ids.

use rp_base::{Memory, Text};
use std::alloc::{AllocError, AllocFailed};

/// Why there is no interaction.
#[derive(Drop)]
pub enum WhoFault {
    /// The first id that names no principal.
    Unknown(Text),
    /// A growth was refused.
    Memory,
}

impl From<Memory> for WhoFault {
    ghost use Rattle.std.specs.Prelude.{◌≡◌};
    ghost use Rattle.rp_interact.specs.declared.who_fault.WhoFault.TheVariants.{Memory};

    ghost from_gives = { λ _ e. e ≡ Memory };

    fn from(_: Memory) -> Self {
        WhoFault::Memory
    }
}

impl<T: Drop> From<AllocFailed<T>> for WhoFault {
    ghost use Rattle.std.specs.Prelude.{◌≡◌};
    ghost use Rattle.rp_interact.specs.declared.who_fault.WhoFault.TheVariants.{Memory};

    ghost from_gives = { λ _ e. e ≡ Memory };

    fn from(_: AllocFailed<T>) -> Self {
        WhoFault::Memory
    }
}

impl From<AllocError> for WhoFault {
    ghost use Rattle.std.specs.Prelude.{◌≡◌};
    ghost use Rattle.rp_interact.specs.declared.who_fault.WhoFault.TheVariants.{Memory};

    ghost from_gives = { λ _ e. e ≡ Memory };

    fn from(_: AllocError) -> Self {
        WhoFault::Memory
    }
}
