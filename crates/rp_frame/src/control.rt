//! What a machine does next.

use crate::spot::{Made, Spot};
use rp_base::Name;
use rp_tree::{Clause, Expr, Stmt};

/// What a machine does next: it begins a part, or goes on from the end of one.
#[derive(Clone, Copy)]
pub enum Control<'u> {
    Expression(&'u Expr),
    Statement(&'u Stmt),
    /// The statements of a block that are left.
    Block(&'u [Stmt]),
    /// An expression gave the last value at hand.
    Value,
    /// An expression has no value; why stands in the machine.
    NoValue,
    /// A statement was done.
    Next,
    /// Left by `break`.
    Broke,
    /// Left by `continue`.
    Continued,
    /// A statement was cut off; why stands in the machine.
    CutOff,
    /// Left by `return`, with the last value at hand.
    Returned,
    /// Calls what is at hand under so many arguments without a name and, upon them, so many with one, each a name and a
    /// value.
    Call(u32, u32),
    /// Calls the special method of this name of what is at hand under so many arguments.
    Special(Name, u32),
    /// Makes the turns of a comprehension of this code block, with its first clause, the clauses behind that, and what
    /// it makes; it goes over the last value at hand, from where it stands in that.
    Comprehension(usize, &'u Clause, &'u [Clause], Made<'u>, Spot),
}
