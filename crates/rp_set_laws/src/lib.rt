//! The laws of the tokens of sets: the trees that they spell once they are written out. Definitions and laws alone.
#![tactic(auto)]
