//! Why sessions do not go on.

use rp_engine::Halt;

/// Why sessions do not go on: the machine of one of them does not.
#[derive(Clone, Copy, Debug, PartialEq, Eq)]
pub struct SessionHalt {
    /// The number of that session, from 1.
    pub session: u32,
    pub halt: Halt,
}
