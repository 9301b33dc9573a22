//! Why a run has no outcome.

use crate::session_halt::SessionHalt;
use rp_base::Memory;
use rp_engine::Halt;

/// Why a run has no outcome.
#[derive(Clone, Copy, Debug, PartialEq, Eq)]
pub enum NoOutcome {
    /// A growth was refused.
    Memory,
    /// A count of the machine of a session is full: of the parts of one form.
    TooLong,
}

impl NoOutcome {
    /// The cause that a session's halt is.
    pub(crate) fn of(halt: SessionHalt) -> NoOutcome {
        match halt.halt {
            Halt::Memory => NoOutcome::Memory,
            Halt::TooLong => NoOutcome::TooLong,
        }
    }
}

impl From<Memory> for NoOutcome {
    ghost use Rattle.std.specs.Prelude.{◌≡◌};
    ghost use Rattle.rp_session.specs.declared.no_outcome.NoOutcome.TheVariants as no_outcome;

    ghost from_gives = { λ _ given. given ≡ no_outcome.Memory };

    fn from(_: Memory) -> Self {
        NoOutcome::Memory
    }
}
