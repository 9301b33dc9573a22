//! The machine that runs code, over an explicit stack: each step, what leaves a block, and calls.
#![tactic(auto)]

mod callables;
mod callers;
mod classes;
mod comprehending;
mod cutting;
mod entering;
mod expressions;
mod forms;
mod run;
mod runner;
mod special_calls;
mod statements;
mod unwinding;

pub use callers::Caller;
pub use runner::{Progress, Runner};
pub use unwinding::Left;
