//! The law that a run in which nothing fails and nothing is refused comes to its meaning. Definitions and laws alone.
#![tactic(auto)]
