//! The law that code changes no tuple, no function and no bound method; no code.
#![tactic(auto)]
