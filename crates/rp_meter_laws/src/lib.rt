//! The law that code adds none to the steps that are left to a session; no code.
#![tactic(auto)]
