//! The law that programs that are spelled and numbered are laid out: room for each parameter in the scope of a call; no code.
#![tactic(auto)]
