//! The laws of f-literals and sets: what the trees that they become give by the direct meaning. It has no code.
#![tactic(auto)]
