//! Tests of whole runs: what the program says to words, declarations and scripts, and over files and sinks that fail.
#![tactic(auto)]

#[cfg(test)]
mod check_tests;
#[cfg(test)]
mod front_tests;
#[cfg(test)]
mod handed_tests;
#[cfg(test)]
mod module_tests;
#[cfg(test)]
mod object_tests;
#[cfg(test)]
mod outside_tests;
#[cfg(test)]
mod played_tests;
#[cfg(test)]
mod program_answers;
#[cfg(test)]
mod program_tests;
#[cfg(test)]
mod report_tests;
#[cfg(test)]
mod several_tests;
#[cfg(test)]
mod show_tests;
#[cfg(test)]
mod turn_tests;
#[cfg(test)]
mod tutorial_tests;
#[cfg(test)]
mod walked_tests;
#[cfg(test)]
mod wide_tests;
#[cfg(test)]
mod words_tests;
