//! What code keeps of objects, whatever that is, by one induction over trees; no code.
#![tactic(auto)]
