//! The text of a tree, with its guards as calls.
#![tactic(auto)]

mod expressions;
mod guards;
mod operators;
mod page;
mod shapes;
mod statements;

pub use statements::source_text;
