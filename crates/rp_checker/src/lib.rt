//! Checkers: what each class asks of whoever reads or sets a name of its objects.
#![tactic(auto)]

mod checkers;
mod class_rows;
mod places;
mod plan;
mod table;
mod words;

pub use checkers::Checkers;
