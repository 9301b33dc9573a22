//! The policy of names: what a script may not name, bind, call or assign to (RestrictedPython, names and attributes).
#![tactic(auto)]

mod collector;
mod expressions;
mod forbidden_words;
mod offence;
mod spot;
mod statements;

pub use forbidden_words::is_forbidden_attribute;
pub use offence::{Offence, What, offence_text};
pub use statements::offences;
