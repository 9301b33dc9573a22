//! The words of the command line, read to a command.
#![tactic(auto)]

mod command;
mod fault;
mod number;
mod options;
mod pair;
mod turns;
mod words;

pub use command::{Command, May, Pair, Question, Run};
pub use fault::{USAGE, WordsFault};
pub use number::USUAL_LIMIT;
pub use words::read_words;
