//! The open parts of a frame, loops and `try` statements, and which of them takes what leaves it.
#![tactic(auto)]

mod handlers;
mod leaving;

pub use handlers::{Handler, Handlers, Part};
pub use leaving::Leaving;
