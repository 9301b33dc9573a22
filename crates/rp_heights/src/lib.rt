//! How high trees are.
#![tactic(auto)]

mod block_heights;
mod heights;

pub use block_heights::{height, stmt_height};
pub use heights::{expr_height, params_height, target_height};
