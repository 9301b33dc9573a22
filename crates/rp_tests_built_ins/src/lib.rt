//! Tests of the built-in functions and methods: cases as Python source, each with what has to come of it.
#![tactic(auto)]

#[cfg(test)]
mod answers;
#[cfg(test)]
mod calls;
#[cfg(test)]
mod dict_tests;
#[cfg(test)]
mod displays;
#[cfg(test)]
mod expressions;
#[cfg(test)]
mod function_tests;
#[cfg(test)]
mod large_tests;
#[cfg(test)]
mod list_tests;
#[cfg(test)]
mod need_tests;
#[cfg(test)]
mod text_tests;
#[cfg(test)]
mod walk_tests;
#[cfg(test)]
mod words;
#[cfg(test)]
mod world;
