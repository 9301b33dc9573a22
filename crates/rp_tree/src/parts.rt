//! The small parts of trees: names, guard marks, constants, comparison operators.

use rp_base::{CmpOp, Line, Name};

/// A name (Python Language Reference, Identifiers) and the line that it stands on.
#[derive(Clone, Copy, Debug)]
pub struct Named<N = Name> {
    /// The name: in a tree that a parser made, the place of its text among the names.
    pub name: N,
    /// The line of the name's token, from 1.
    pub line: Line,
}

/// The number of a code block, 0 until names are resolved.
#[derive(Clone, Copy, Debug, PartialEq, Eq)]
pub struct Block(pub usize);

/// The function of RestrictedPython that a form is handed to. A form without a mark is not guarded.
#[derive(Clone, Copy, Debug, PartialEq, Eq)]
pub enum Guard {
    /// `_getattr_`: an attribute is read.
    GetAttr,
    /// `_getitem_`: an item or a slice is read.
    GetItem,
    /// `_write_`: an attribute or an item is assigned or deleted.
    Write,
    /// `_getiter_`: an iterable is walked.
    GetIter,
    /// `_unpack_sequence_`: an assignment unpacks its value.
    Unpack,
    /// `_iter_unpack_sequence_`: an iterable is walked, and each element unpacked.
    IterUnpack,
    /// `_apply_`: a call has arguments behind `*` or `**`.
    Apply,
    /// `_inplacevar_`: an augmented assignment.
    Inplace,
}

/// The constants that are keywords (Python Language Reference, Keywords).
#[derive(Clone, Copy, Debug, PartialEq, Eq)]
pub enum Const {
    /// `None`.
    Nil,
    /// `True` or `False`.
    Truth(bool),
}

/// An operator of a comparison (Python Language Reference, Comparisons).
#[derive(Clone, Copy, Debug, PartialEq, Eq)]
pub enum Test {
    /// A value comparison: `<`, `<=`, `>`, `>=`, `==` or `!=`.
    Order(CmpOp),
    /// `in`.
    Within,
    /// `not in`.
    NotWithin,
    /// `is`, whose right operand is `None`.
    Is,
    /// `is not`, whose right operand is `None`.
    IsNot,
}
