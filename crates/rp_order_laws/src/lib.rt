//! The law that all code keeps each object such as code of its owner makes it, in whole sessions too; no code.
#![tactic(auto)]
