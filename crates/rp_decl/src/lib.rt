//! Declaration files: who is there, and who may do what.
#![tactic(auto)]

mod classes;
mod consistency;
mod decl;
mod document;
mod fault;
mod field;
mod known_ids;
mod least;
mod likes;
mod members;
mod name_table;
mod naming;
mod path;
mod read;
mod reading;
mod records;
mod ring;
mod row;
mod shape;
mod shapes;
mod test;
mod text_set;
mod word;

pub use decl::Decl;
// A crate can name the declarations in a contract only if the types of their fields are exported.
#[doc(hidden)]
pub use classes::Classes;
pub use fault::{DeclFault, fault_line};
#[doc(hidden)]
pub use name_table::NameTable;
pub use read::declarations;
pub use records::{ClassDecl, Field, GroupDecl, ObjectDecl, Perm, PrincipalDecl, RoleDecl};
pub use row::{PUBLIC, Row, is_public};
pub use word::{is_declared_name, is_id};
