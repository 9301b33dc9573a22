//! The built-in functions, on values whose access decisions have been made.
#![tactic(auto)]

mod calls;
mod copies;
mod counts;
mod extremes;
mod fault;
mod need;
mod numbers;
mod objects;
mod print;
mod ranges;
mod sorts;
mod spelling;
mod sums;
mod tables;
mod zips;

pub use calls::call_native;
pub use counts::{function_takes, is_called_here, is_function};
// A crate can name these in a contract only if they are exported.
#[doc(hidden)]
pub use extremes::Extreme;
#[doc(hidden)]
pub use fault::Fault;
pub use need::{Need, needs};
pub use print::print_line;
#[doc(hidden)]
pub use ranges::Bounds;
