//! The grammar of expressions: tokens to the trees of expressions, targets and parameters that they spell.
#![tactic(auto)]

mod atoms;
mod clauses;
mod conversion;
mod distinct;
mod expressions;
mod fault;
mod lists;
pub mod look;
mod node;
mod operators;
mod parameters;
mod readers;
mod text;
mod trailers;

pub use conversion::{place_of, target_of};
pub use distinct::{has_distinct_names, name_places, parameter_names};
pub use fault::Fault;
pub use node::{Read, name};
pub use readers::{expr, expr_list, params, target};
pub use trailers::primary;
