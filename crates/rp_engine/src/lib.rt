//! The machine that runs code: its state, what is at hand, and how a part begins and ends.
#![tactic(auto)]

mod calling;
mod display_objects;
mod exceptions;
mod halt;
mod hand;
mod leaves;
mod machine;
mod names;
mod numbers;
mod standing;
mod units;

pub use calling::Hand;
pub use display_objects::new_display;
pub use exceptions::{copy_handled, copy_of, handling_value, thrown, thrown_of};
pub use halt::Halt;
pub use hand::{more_by, one_more};
pub use leaves::{int_value, literal};
pub use machine::Machine;
pub use standing::{is_value, place_at};
pub use units::{Program, Units, local_count};
