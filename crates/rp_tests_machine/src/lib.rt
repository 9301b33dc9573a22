//! Tests of the machine: scripts over declared objects, with what they print, how they end, and every decision.
#![tactic(auto)]

#[cfg(test)]
mod attribute_tests;
#[cfg(test)]
mod class_tests;
#[cfg(test)]
mod exit_tests;
#[cfg(test)]
mod flow_tests;
#[cfg(test)]
mod function_tests;
#[cfg(test)]
mod handler_tests;
#[cfg(test)]
mod lent_tests;
#[cfg(test)]
mod module_tests;
#[cfg(test)]
mod plain_tests;
#[cfg(test)]
mod policy_tests;
#[cfg(test)]
mod ran;
#[cfg(test)]
mod special_tests;
#[cfg(test)]
mod value_tests;
