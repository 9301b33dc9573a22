//! The plain operators of the language, on values whose access decisions have been made.
#![tactic(auto)]

mod augmentation;
mod binary_operators;
mod cells;
mod creation;
mod cursor;
mod ends;
mod lending;
mod numbers;
mod operand;
mod refusal;
mod sequences;
mod texts;
mod truth_value;
mod unary_operators;
mod walk;

pub use augmentation::inplace;
pub use binary_operators::binary;
pub use cells::{charge, charge_copies, check_room};
// A crate can name a cursor in a contract only if the types of its fields are exported.
pub use creation::{new_character, new_object, new_text};
#[doc(hidden)]
pub use cursor::Standing;
pub use cursor::{Cursor, next_element, next_letter, walk_of};
pub use ends::{raised, step, steps};
pub use lending::lent;
pub use operand::{Elements, Operand, elements_at, operand_of, rock_number};
pub use refusal::Refusal;
pub use sequences::{Sequence, add as add_sequence, copies, handed};
pub use truth_value::truth;
pub use unary_operators::unary;
pub use walk::{elements, key_at};
