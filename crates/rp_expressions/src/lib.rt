//! Steps of the forms of expressions (Python Language Reference, Expressions).
#![tactic(auto)]

mod arguments;
mod chains;
mod comparisons;
mod conditions;
mod definitions;
mod dict_displays;
mod displays;
mod joining;
mod later_arguments;
mod named_arguments;
mod named_values;
mod numbers;
mod primaries;
mod slices;
mod special_methods;

pub use arguments::{after_argument, after_star};
pub use chains::{after_operand, chain, operands};
pub use comparisons::{after_test, comparison, tests};
pub use conditions::{conditional, either, negation, not_of};
pub use definitions::{after_default, defaults, definition, lambda};
pub use dict_displays::{after_dict_key, after_dict_value, dict_display};
pub use displays::{after_item, display};
pub use joining::{joined, later};
pub use later_arguments::{after_later, after_later_star};
pub use named_arguments::{after_named, after_stars, without_hand};
pub use named_values::named_at_hand;
pub use numbers::{after_exponent, power, to_power, unary, unary_of};
pub use primaries::{after_key, primary, trailers};
pub use slices::{after_from, after_stride, after_to};
pub use special_methods::{after_contained, after_length};
