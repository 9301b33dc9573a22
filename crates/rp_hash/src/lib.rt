//! How tables whose keys a script picks are hashed: from a secret, so that nobody can pick keys that collide.
#![tactic(auto)]

mod hasher;
mod seed;

pub use hasher::WordHasher;
pub use seed::Seed;
