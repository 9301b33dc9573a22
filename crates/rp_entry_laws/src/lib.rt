//! The law that the trail only grows, and that each entry tells the verdict of the written policy; no code.
#![tactic(auto)]
