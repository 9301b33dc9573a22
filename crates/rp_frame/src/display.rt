//! Kinds of displays.

/// A display of expressions (Python Language Reference, Displays for lists, sets and dictionaries).
#[derive(Clone, Copy, Debug, PartialEq, Eq)]
pub enum Display {
    List,
    Tuple,
    Dict,
}
