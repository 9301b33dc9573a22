//! The laws of comprehensions: what a list and a set by comprehension hold, by the direct meaning. It has no code.
#![tactic(auto)]
