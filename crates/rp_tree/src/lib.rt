//! The syntax tree of a script, as the grammar spells it.
#![tactic(auto)]

mod expr;
mod parts;
mod stmt;

pub use expr::{Arg, Clause, Expr, ExprForm, Params, Place, Slice, Target, Trailer, Walk};
pub use parts::{Block, Const, Guard, Named, Test};
pub use stmt::{Branch, Except, Stmt, StmtForm, Tree, stmts_of};
