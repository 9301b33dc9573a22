//! Tests of the crates of the policy: declarations, rows, grants, the trail and what a side takes, by tables of cases.
#![tactic(auto)]

#[cfg(test)]
mod chains;
#[cfg(test)]
mod checker_answers;
#[cfg(test)]
mod checker_tests;
#[cfg(test)]
mod declaration_answers;
#[cfg(test)]
mod declaration_tests;
#[cfg(test)]
mod interaction_answers;
#[cfg(test)]
mod interaction_tests;
#[cfg(test)]
mod proxy_tests;
#[cfg(test)]
mod record_texts;
#[cfg(test)]
mod taking_answers;
#[cfg(test)]
mod trail_answers;
#[cfg(test)]
mod trail_tests;
