//! How values are shown: as texts of their own, and inside containers.
#![tactic(auto)]

mod brackets;
mod object_names;
mod printer;
mod purse;
mod rock_texts;
mod showing;

pub use rock_texts::shown_inside;
pub use showing::show;
