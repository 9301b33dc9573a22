//! The law of printed text: what is printed is read back, but for lines. Definitions and laws alone.
#![tactic(auto)]
