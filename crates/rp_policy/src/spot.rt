//! What the policy looks at.

use rp_base::{Line, Name};
use rp_tree::Named;

/// A place of a tree at which the policy looks, with its line.
#[derive(Clone, Copy, Debug)]
pub enum Spot<N = Name> {
    /// A name that is read.
    Reads(Named<N>),
    /// A name that is bound or deleted: a target, a parameter, a name of `global`, the name of a function, of a class
    /// or of an exception.
    Binds(Named<N>),
    /// The name of a function that is defined directly in a class block.
    Method(Named<N>),
    /// A name that is called directly.
    Calls(Named<N>),
    /// The name of an attribute that is read, stored to or deleted.
    Attribute(Named<N>),
    /// An augmented assignment to an attribute or an item, on the line of its operator.
    Augments(Line),
}

/// The kind of block in which a statement stands directly.
#[derive(Clone, Copy, Debug, PartialEq, Eq)]
pub enum Suite {
    /// The block of a class.
    OfClass,
    /// Another block, or none.
    Other,
}
