//! Why a command does not come to its end.

ghost use Rattle.std.specs.Prelude.{◌≡◌};
ghost use Rattle.rp_run.specs.Refusals.{said};

use crate::answer::Answer;
use rp_base::{Failed, Memory};
use std::alloc::{AllocError, AllocFailed};

/// Why a step of a command has nothing to go on with.
#[derive(Drop)]
pub enum Stop {
    /// The step refuses, and this is said.
    Refused(Answer),
    /// A read failed.
    Failed,
    /// A growth was refused.
    Memory,
}

/// Why nothing is said.
#[derive(Clone, Copy, Debug, PartialEq, Eq)]
pub enum Silence {
    /// A read failed.
    Failed,
    /// A growth was refused.
    Memory,
}

/// What is said, whether the last step answers or an earlier one refuses.
///
/// # Errors
/// `Failed` and `Memory` as for the steps.
pub fn said(told: Result<Answer, Stop>) -> Result<Answer, Silence>
    ensures { result ≡ said told }
{
    match told {
        Ok(answer) => Ok(answer),
        Err(Stop::Refused(answer)) => Ok(answer),
        Err(Stop::Failed) => Err(Silence::Failed),
        Err(Stop::Memory) => Err(Silence::Memory),
    }
}

impl From<Failed> for Stop {
    ghost use Rattle.std.specs.Prelude.{◌≡◌};
    ghost use Rattle.rp_run.specs.declared.stop.Stop.TheVariants.{Failed as Unread};

    ghost from_gives = { λ _ stop. stop ≡ Unread };

    fn from(_: Failed) -> Self {
        Stop::Failed
    }
}

impl From<Memory> for Stop {
    ghost use Rattle.std.specs.Prelude.{◌≡◌};
    ghost use Rattle.rp_run.specs.declared.stop.Stop.TheVariants.{Memory as OutOfMemory};

    ghost from_gives = { λ _ stop. stop ≡ OutOfMemory };

    fn from(_: Memory) -> Self {
        Stop::Memory
    }
}

impl From<std::alloc::AllocError> for Stop {
    ghost use Rattle.std.specs.Prelude.{◌≡◌};
    ghost use Rattle.rp_run.specs.declared.stop.Stop.TheVariants.{Memory as OutOfMemory};

    ghost from_gives = { λ _ stop. stop ≡ OutOfMemory };

    fn from(_: AllocError) -> Self {
        Stop::Memory
    }
}

impl<T: Drop> From<AllocFailed<T>> for Stop {
    ghost use Rattle.std.specs.Prelude.{◌≡◌};
    ghost use Rattle.rp_run.specs.declared.stop.Stop.TheVariants.{Memory as OutOfMemory};

    ghost from_gives = { λ _ stop. stop ≡ OutOfMemory };

    fn from(_: AllocFailed<T>) -> Self {
        Stop::Memory
    }
}
