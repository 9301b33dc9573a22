//! The law that functions and scopes fit the programs of a run: their code, their defaults, their slots, what is around; no code.
#![tactic(auto)]
