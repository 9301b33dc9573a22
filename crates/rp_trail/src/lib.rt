//! The trail: each decision on an operation that code made through a proxy, in order.
#![tactic(auto)]

mod entry;
mod trail;
mod words;

pub use entry::{Entry, Verdict};
pub use trail::Trail;
