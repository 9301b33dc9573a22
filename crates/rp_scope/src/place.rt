//! Where a code block finds a name.

/// Where a code block finds a name (Python Language Reference, Naming and binding, Resolution of names).
#[derive(Clone, Copy, Debug, PartialEq, Eq)]
pub enum Place2 {
    /// Among its own local names: the place there.
    Local(usize),
    /// Among the local names of a block around it: how many blocks outwards, from 1, and the place there.
    Outer(usize, usize),
    /// In the program's block, or in none.
    Global,
}

/// What there is to know of a name in a code block.
#[derive(Clone, Copy, Debug)]
pub struct Found {
    /// Where the block finds the name.
    pub place: Place2,
    /// The place of the name among the local names of the program; none where it is not among them.
    pub global: Option<usize>,
}
