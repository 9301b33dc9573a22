//! The arguments of a call, bound to the parameters of a function.
#![tactic(auto)]

mod binding;
mod named_arguments;
mod others;
mod parameter_names;
mod parameters;

pub use binding::bind;
