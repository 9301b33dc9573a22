//! Tests of operations through proxies.
#![tactic(auto)]

#[cfg(test)]
mod crossing_answers;
#[cfg(test)]
mod crossing_tests;
