//! Proxies: values as code of a side gets them, and the decision on each operation through a proxy.
#![tactic(auto)]

mod crossing;
mod taking;
mod world;

pub use crossing::cross;
pub use taking::take;
pub use world::{Running, World};
