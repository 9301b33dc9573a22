//! Sessions that take turns over one store: the world that the trusted module has made ready, and scripts that run in it.
#![tactic(auto)]

mod ending;
mod loading;
mod names;
mod no_outcome;
mod playing;
mod programs;
mod session;
mod session_end;
mod session_halt;
mod sessions;
mod statement;
mod trees;

pub use loading::{Loaded, load};
pub use names::declared_names;
pub use no_outcome::NoOutcome;
pub use playing::play;
pub use programs::units_of;
pub use rp_world::NoWorld;
pub use session::Session;
pub use session_end::SessionEnd;
pub use session_halt::SessionHalt;
pub use sessions::Sessions;
pub use statement::run_statements;
pub use trees::{Tables, Trees};
