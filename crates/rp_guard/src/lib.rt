//! The transformer: which forms of a script are handed to a guard (RestrictedPython, transformer).
#![tactic(auto)]

mod block_checks;
mod block_marks;
mod checks;
mod marks;
mod table;

pub use block_checks::guarded;
pub use block_marks::transform;
