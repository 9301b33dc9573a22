//! Tables of cases, for crates of tests.

// A case is a line, its parts are joined by ` => `, the last is the answer that is wanted, and `~` stands for the end
// of a line within a part.
#![tactic(auto)]

mod declaration_files;
mod table;
mod words;

pub use declaration_files::{FOLDER_FILE, ROLES_FILE};
pub use table::{Question, all_answer, holds, is_told};
pub use words::{after_word, first_word, number, part, seed};
