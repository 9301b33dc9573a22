//! Runs of small scripts by the direct meaning, as the checker computes them, against what other interpreters told.
#![tactic(auto)]
