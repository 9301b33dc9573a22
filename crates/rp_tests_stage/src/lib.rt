//! Scripts set up to run by the machine, for tests and timed loops: over declarations, for principals, within limits.
#![tactic(auto)]

mod programs;
mod stage;
mod words;

pub use programs::Code;
pub use stage::{Reading, Setting, Stage, Unset, read, set};
pub use words::Words;
