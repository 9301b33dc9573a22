//! Inputs that are made, of any size.
#![tactic(auto)]

mod input;

pub use input::large;
