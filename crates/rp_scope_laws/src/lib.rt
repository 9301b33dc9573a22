//! The laws that the scopes of a program are the same by text as by places among words. Definitions and laws alone.
#![tactic(auto)]
