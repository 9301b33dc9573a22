//! What leaves a try statement.

/// How what stands before the `finally` block of a `try` statement was left (Python Language Reference, The try
/// statement). A stop of the session is none: no `finally` runs for it.
#[derive(Clone, Copy, Debug, PartialEq, Eq)]
pub enum Leaving {
    /// Behind its last statement.
    Next,
    /// By `break`.
    Broke,
    /// By `continue`.
    Continued,
    /// By an exception, which is at hand.
    Raised,
    /// By `return`, whose value is at hand.
    Returned,
}
