//! Attributes: reading, storing and deleting, on values whose access decisions have been made.
#![tactic(auto)]

mod attribute_error;
mod attribute_writers;
mod attributes;
mod built_ins;
mod methods;

pub use attribute_error::word_text;
pub use attribute_writers::{del_attribute, set_attribute};
pub use attributes::attribute;
pub use built_ins::{Counts, Receiver, counts_of, has_method, method_takes, receiver_of};
