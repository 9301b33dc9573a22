//! Tests of the public calls of the crates of calls: tables of cases, each with what has to come of it.
#![tactic(auto)]

#[cfg(test)]
mod bind_tests;
#[cfg(test)]
mod unwind_tests;
