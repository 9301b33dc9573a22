//! The law that a monitor which refuses nothing is not seen: ends and outputs are those without it; no code.
#![tactic(auto)]
