//! A dict in the order of insertion, seen as the list of its pairs.
#![tactic(auto)]

mod dict;
mod few;
mod form;
mod ranks;
mod slot;
mod table;
mod walk;

pub use dict::Dict;
// A crate can name a dict in a contract only if the types of its fields are exported.
#[doc(hidden)]
pub use form::Form;
#[doc(hidden)]
pub use ranks::Ranks;
#[doc(hidden)]
pub use slot::Slot;
#[doc(hidden)]
pub use table::Table;
#[doc(hidden)]
pub use walk::Rest;
pub use walk::Walk;
