//! The names of code blocks: their numbers, their local names, and where each block finds a name.
#![tactic(auto)]

mod block_layouts;
mod block_numbers;
mod expr_layouts;
mod layout;
mod layouts;
mod mentions;
mod numbers;
mod place;
mod scopes;
mod table;

pub use block_numbers::number;
pub use layouts::{Layouts, resolve};
pub use place::{Found, Place2};
