//! Where a loop stands, and what it does with each element.

use rp_base::Oid;
use rp_tree::{Clause, Expr, Stmt, Target};

/// Where a loop stands in what it goes over. It goes over the value at hand.
#[derive(Clone, Copy)]
pub enum Spot {
    /// Before the element of this index, of a list or a tuple.
    Element(usize),
    /// Before the key of this index, of a dict that had so many at first.
    Key(usize, usize),
    /// Before the character that begins at this byte, of a text.
    Letter(usize),
}

/// What a loop does with each element: assigns it to the target, and does what stands inside.
#[derive(Clone, Copy)]
pub struct Each<'u> {
    pub target: &'u Target,
    pub inside: Inside<'u>,
}

/// What stands inside a loop.
#[derive(Clone, Copy)]
pub enum Inside<'u> {
    /// The block of a `for` statement.
    Block(&'u [Stmt]),
    /// The tests of a clause of a comprehension, the clauses behind it, and what that adds.
    Clause(&'u [Expr], &'u [Clause], Adds<'u>),
}

/// What a comprehension adds in each turn, and the place of the list or dict that it makes.
#[derive(Clone, Copy)]
pub enum Adds<'u> {
    /// An element to a list.
    Element(Oid, &'u Expr),
    /// A key with its value to a dict.
    Entry(Oid, &'u Expr, &'u Expr),
}

/// What a comprehension makes.
#[derive(Clone, Copy)]
pub enum Made<'u> {
    List(&'u Expr),
    Dict(&'u Expr, &'u Expr),
}
