//! The comparisons of values: equality, order and membership, on values whose access decisions have been made.
#![tactic(auto)]

mod equality;
mod membership;
mod order;
mod rocks;

pub use equality::equal;
pub use membership::contains;
pub use order::{compare, is_less_text};
