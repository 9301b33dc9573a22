//! Programs as they will run: scripts that the policy of names lets pass, with their guards, and trusted modules.
#![tactic(auto)]

mod script;
mod trusted_module;

pub use script::{Compiled, compile_script};
pub use trusted_module::{Trusted, compile_trusted};
