//! The grammar of scripts, as definitions and laws alone: what tokens spell, and what reading them gives.
#![tactic(auto)]
