//! Decisions and their verdicts.

use rp_base::{ClassTag, Op};
use rp_decl::{Perm, Row};

/// What was decided on an operation (zope.security: checkers).
#[derive(Clone, Copy, Debug, PartialEq, Eq)]
pub enum Verdict {
    /// The row asks for nothing, or for a permission that every principal has.
    Allowed(Row),
    /// Some principal lacks the permission of the row.
    Denied(Perm),
    /// There is no row for the operation.
    Forbidden,
}

/// One decision.
#[derive(Clone, Copy, Debug, PartialEq, Eq)]
pub struct Entry {
    /// The number of the session that ran, from 1.
    pub session: u32,
    /// Whether what was asked for has a name of the program; the word of another name is empty.
    pub named: bool,
    /// What was asked for.
    pub op: Op,
    /// The class of the object that it was asked of.
    pub class: ClassTag,
    pub verdict: Verdict,
}
