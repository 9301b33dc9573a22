//! Why words give no command, and what is said of it.

use thiserror::Error;

/// What the program says where its words give no command.
pub const USAGE: &str =
    "usage: rpy run DECL WHO:SCRIPT... [--steps N] [--cells N] [--turns LIST] [--trail]
       rpy check SCRIPT
       rpy show SCRIPT
       rpy may DECL WHO PERMISSION
       rpy large N
       rpy audit DECL TRAIL
       rpy at DECL PLACES WHO PERMISSION OBJECT
       rpy reach DECL PLACES WHO PERMISSION
       rpy console DECL INPUT WHO...
";

/// Why words were not read to a command.
#[derive(Clone, Copy, Debug, PartialEq, Eq, Error)]
pub enum WordsFault {
    /// They give no command.
    #[error("the words give no command")]
    Usage,
    /// A growth was refused.
    #[error("out of memory")]
    Memory,
}
