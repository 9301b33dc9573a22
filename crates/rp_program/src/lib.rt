//! Programs: bytes to the tree of a program (Python Language Reference, Top-level components).
#![tactic(auto)]

mod fault;
mod program;

pub use fault::{ProgramFault, add_fault};
pub use program::{read_program, read_text, read_tokens};
