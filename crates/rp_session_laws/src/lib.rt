//! The law that code changes neither who runs nor the declarations, and that names keep their places; no code.
#![tactic(auto)]
