//! The functions of a program by the numbers of their code blocks.
#![tactic(auto)]

mod code;
mod codes;
mod expr_codes;
mod stmt_codes;

pub use code::Code;
pub use codes::Codes;
pub use stmt_codes::codes_of;
