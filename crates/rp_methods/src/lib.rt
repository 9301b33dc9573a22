//! The built-in methods of lists, tuples, dicts and texts, on values whose access decisions have been made.
#![tactic(auto)]

mod contents;
mod dict_keys;
mod dict_pairs;
mod dict_views;
mod fault;
mod list_changes;
mod list_takes;
mod methods;
mod places;
mod search;
mod sequences;
mod text_lists;
mod text_makers;
mod text_pieces;
mod text_tests;

pub use methods::call_method;
