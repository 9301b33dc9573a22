//! The law that guard marks mean nothing: programs with their marks run as the programs without them; no code.
#![tactic(auto)]
