//! Why a case has no answer.

use rp_base::{Memory, OpEnd};
use rp_store::StoreFault;
use std::alloc::{AllocError, AllocFailed};

/// Why a case, or a statement of it, has no answer.
#[derive(Drop)]
pub enum Fault {
    End(OpEnd),
    /// It would hand a call what that does not take.
    Unsound,
    /// It is not written as cases are.
    Unread,
}

impl From<OpEnd> for Fault {
    fn from(end: OpEnd) -> Self {
        Fault::End(end)
    }
}

impl From<Memory> for Fault {
    fn from(_: Memory) -> Self {
        Fault::End(OpEnd::Memory)
    }
}

impl From<AllocError> for Fault {
    fn from(_: AllocError) -> Self {
        Fault::End(OpEnd::Memory)
    }
}

impl<T: Drop> From<AllocFailed<T>> for Fault {
    fn from(_: AllocFailed<T>) -> Self {
        Fault::End(OpEnd::Memory)
    }
}

impl From<StoreFault> for Fault {
    fn from(fault: StoreFault) -> Self {
        match fault {
            StoreFault::Cells => Fault::End(OpEnd::StopCells),
            StoreFault::Memory => Fault::End(OpEnd::Memory),
        }
    }
}

/// Tells a fault: `KIND: TEXT`, or a word.
///
/// # Errors
/// `Memory` where a growth was refused.
pub fn tell_fault(told: &mut String, fault: &Fault) -> Result<(), Memory> {
    match fault {
        Fault::End(OpEnd::Raised(raised)) => {
            told.push_str(raised.kind.as_str())?;
            told.push_str(": ")?;
            told.push_str(raised.text.as_str())?;
        }
        Fault::End(OpEnd::StopSteps) => told.push_str("stop steps")?,
        Fault::End(OpEnd::StopCells) => told.push_str("stop cells")?,
        Fault::End(OpEnd::Memory) => told.push_str("no memory")?,
        Fault::Unsound => told.push_str("unsound")?,
        Fault::Unread => told.push_str("unread")?,
    }
    Ok(())
}
