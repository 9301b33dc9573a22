//! The laws of what code may change of objects: no owner and no kind, and of others only what was decided; no code.
#![tactic(auto)]
