//! Where code runs.

use rp_base::{Oid, Raised, Side};

/// Where code runs: in a frame of the program, or of a function that was called (Python Language Reference, Naming and
/// binding, Structure of a program).
#[derive(Drop)]
pub struct Activation {
    /// Whose code runs.
    pub side: Side,
    /// The number of its code block, 0 for the program's own.
    pub block: usize,
    /// The place of its scope.
    pub scope: Oid,
    /// How many calls it may make within one another.
    pub calls: usize,
    /// The exception that the handler took in whose block the code stands.
    pub handling: Option<Raised>,
}
