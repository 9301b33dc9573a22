//! Scripts: bytes to a tree against which the policy of names has nothing, or why there is none.
#![tactic(auto)]

mod refusal;
mod review;
mod script;

pub use refusal::{Refusal, refusal_text};
pub use review::check_script;
pub use script::read_script;
