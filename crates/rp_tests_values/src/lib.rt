//! Tests of the public calls of the crates of values: cases in a short notation, each with what has to come of it.
#![tactic(auto)]

#[cfg(test)]
mod answers;
#[cfg(test)]
mod attribute_tests;
#[cfg(test)]
mod base_tests;
#[cfg(test)]
mod calls;
#[cfg(test)]
mod cell_tests;
#[cfg(test)]
mod comparison_tests;
#[cfg(test)]
mod dict_tests;
#[cfg(test)]
mod item_tests;
#[cfg(test)]
mod live;
#[cfg(test)]
mod number_tests;
#[cfg(test)]
mod operators;
#[cfg(test)]
mod ops_calls;
#[cfg(test)]
mod outside_tests;
#[cfg(test)]
mod owner_tests;
#[cfg(test)]
mod scope_tests;
#[cfg(test)]
mod sequence_tests;
#[cfg(test)]
mod show_tests;
#[cfg(test)]
mod slice_hashes;
#[cfg(test)]
mod slice_tests;
#[cfg(test)]
mod store_calls;
#[cfg(test)]
mod store_tests;
#[cfg(test)]
mod tokens;
#[cfg(test)]
mod value_notation;
#[cfg(test)]
mod value_tests;
#[cfg(test)]
mod values;
#[cfg(test)]
mod walk_tests;
#[cfg(test)]
mod word_tests;
#[cfg(test)]
mod words;
#[cfg(test)]
mod world;
