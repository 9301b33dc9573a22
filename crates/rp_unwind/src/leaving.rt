//! What leaves the parts of a frame.

use rp_base::{Raised, Value};

/// What leaves statements before their end (Python Language Reference, Simple statements). A stop of the session is
/// none: no part takes it.
#[derive(Drop)]
pub enum Leaving {
    /// An exception.
    Raised(Raised),
    /// A `return`, with its value.
    Returned(Value),
    /// A `break`.
    Broke,
    /// A `continue`.
    Continued,
}
