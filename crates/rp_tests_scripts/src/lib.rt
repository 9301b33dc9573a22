//! Tests of the calls that read scripts: tokens, trees, their guards, the names of their code blocks, compiled scripts.
#![tactic(auto)]

#[cfg(test)]
mod answers;
#[cfg(test)]
mod case_tests;
#[cfg(test)]
mod cases;
#[cfg(test)]
mod compiled_tests;
#[cfg(test)]
mod compiled_texts;
#[cfg(test)]
mod expansion_tests;
#[cfg(test)]
mod expression_tests;
#[cfg(test)]
mod expression_texts;
#[cfg(test)]
mod guard_tests;
#[cfg(test)]
mod guard_texts;
#[cfg(test)]
mod scope_tests;
#[cfg(test)]
mod scope_texts;
#[cfg(test)]
mod script_tests;
#[cfg(test)]
mod statement_tests;
#[cfg(test)]
mod statement_texts;
#[cfg(test)]
mod token_tests;
#[cfg(test)]
mod tree_tests;
