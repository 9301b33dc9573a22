//! Interactions: which permissions the principals of a session have, and why.
#![tactic(auto)]

mod interaction;
mod reason;
mod reasons;
mod who_fault;

pub use interaction::Interaction;
pub use reason::Reason;
pub use who_fault::WhoFault;
