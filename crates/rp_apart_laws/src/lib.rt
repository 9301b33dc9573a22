//! The law that code changes no object to which nothing refers; no code.
#![tactic(auto)]
