//! Statements and their parts.

ghost use Rattle.std.specs.Prelude.{◌≡◌};
ghost use Rattle.rp_tree.specs.StatementViews.{block_items};

use crate::expr::{Expr, Params, Place, Target, Walk};
use crate::parts::{Block, Guard, Named};
use rp_base::{BinOp, Line};

/// A whole script (Python Language Reference, File input).
pub struct Tree {
    /// Its statements, in order.
    pub body: Vec<Stmt>,
}

// By hand, so that crates that drop one do not prove again how its parts are dropped.
impl Drop for Tree {
    fn drop(self) {
        let Tree { body: _ } = self;
    }
}

/// A statement.
#[derive(Drop)]
#[cycle(stmt)]
pub struct Stmt {
    /// The line of the first token.
    pub line: Line,
    /// What the statement is.
    pub form: Box<StmtForm>,
}

/// The forms of a statement (Python Language Reference, Simple statements and Compound statements).
#[derive(Drop)]
#[cycle(stmt)]
pub enum StmtForm {
    /// An expression statement.
    Expr(Expr),
    /// An assignment of one value to places, from left to right.
    Assign(Vec<Place>, Expr),
    /// An assignment that unpacks its value over a group of targets.
    Unpack(Target, Expr, Option<Guard>),
    /// An augmented assignment.
    Aug {
        /// What is read and stored to.
        place: Place,
        /// The operator.
        op: BinOp,
        /// The line of the operator.
        at: Line,
        /// The right operand.
        value: Expr,
        /// The mark of operating in place.
        guard: Option<Guard>,
    },
    /// `del` of places, from left to right.
    Del(Vec<Place>),
    /// `pass`.
    Pass,
    /// `break`.
    Break,
    /// `continue`.
    Continue,
    /// `return`, with a value or without.
    Return(Option<Expr>),
    /// `raise` of an exception, or again of the one that is handled.
    Raise(Option<Expr>),
    /// `assert` of a test, with a message or without.
    Assert(Expr, Option<Expr>),
    /// `global` of names.
    Global(Vec<Named>),
    /// `if` and each `elif`, then the block of `else`.
    If(Vec<Branch>, Option<Vec<Stmt>>),
    /// `while` a test is true.
    While(Expr, Vec<Stmt>),
    /// `for` over an iterable.
    For(Walk, Vec<Stmt>),
    /// `try`.
    Try {
        /// The guarded block.
        body: Vec<Stmt>,
        /// The `except` clauses, in order.
        handlers: Vec<Except>,
        /// The block of `else`.
        other: Option<Vec<Stmt>>,
        /// The block of `finally`.
        last: Option<Vec<Stmt>>,
    },
    /// A function definition: its code block, its name, its parameters and its body.
    Def(Block, Named, Params, Vec<Stmt>),
    /// A class definition.
    Class(Named, Vec<Stmt>),
}

/// A branch of `if`: a test and its block.
#[derive(Drop)]
#[cycle(stmt)]
pub struct Branch {
    /// What is asked.
    pub test: Expr,
    /// The block where it is true.
    pub body: Vec<Stmt>,
}

/// An `except` clause of `try`.
#[derive(Drop)]
#[cycle(stmt)]
pub struct Except {
    /// The exceptions that it handles; none: all.
    pub kind: Option<Expr>,
    /// The name that the exception is bound to.
    pub name: Option<Named>,
    /// The handler's block.
    pub body: Vec<Stmt>,
}

/// The statements of a block, none where it is missing.
pub fn stmts_of(block: &Option<Vec<Stmt>>) -> &[Stmt]
    ensures { result.now ≡ block_items block.now }
{
    match block {
        None => &[],
        Some(stmts) => stmts,
    }
}
