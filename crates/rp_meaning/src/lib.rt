//! The direct meaning of scripts and trusted modules: definitions and laws alone.
#![tactic(auto)]
