//! What is done before the code of a function runs.
#![tactic(auto)]

mod entering;

pub use entering::{Entry, enter, enter_bound, enter_named, given, new_instance, new_scope};
