//! What tests of values and calls share.
#![tactic(auto)]

mod fault;
mod parts;
mod soundness;

pub use fault::{Fault, tell_fault};
pub use parts::{entries_of, exception, kind_of};
pub use soundness::{
    are_methods, are_named_sound, are_sound, is_class, is_dict, is_function, is_held, is_instance,
    is_key, is_list, is_sound,
};
