//! Items and slices: reading, storing and deleting, on values whose access decisions have been made.
#![tactic(auto)]

mod item_writers;
mod items;
mod key_error;
mod letters;
mod places;
mod slices;
mod spans;

pub use item_writers::{del_item, set_item};
pub use items::item;
pub use key_error::missing_key;
pub use places::{index_number, place_within};
pub use slices::slice;
pub use spans::SliceParts;
