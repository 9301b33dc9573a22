//! The world of declarations but for what their module does: what stands before it, and the exposed names' values.
#![tactic(auto)]

mod beginning;
mod class_places;
mod exposing;
mod exposure;
mod fields;
mod filling;
mod objects;
mod placing;
mod refusal;

pub use beginning::{Begun, begin};
pub use exposure::expose;
pub use refusal::NoWorld;
