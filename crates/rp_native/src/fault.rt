//! Why calls of built-in functions raise exceptions.
ghost use Rattle.std.specs.Prelude.{◌≡◌, chars};
ghost use Rattle.rp_ops.specs.Outcome.{Raises};
ghost use Rattle.rp_native.specs.Faults.{raised_by};

use rp_base::{Kind, OpEnd};
use rp_ops::raised;
use std::alloc::Global;

/// Why a call of a built-in function raises an exception.
#[derive(Clone, Copy, Debug, PartialEq, Eq)]
pub enum Fault {
    /// A method is called as a function.
    Call,
    /// So many arguments are not taken.
    Count,
    /// An argument is of a kind that is not taken.
    Argument,
    /// A value has no length.
    Length,
    /// A text spells no whole number.
    Digits,
    /// There is no least and no greatest of nothing.
    Empty,
    /// A range goes by a step of 0.
    Step,
}

impl Fault {
    fn kind(self) -> Kind
        ensures { result ≡ (raised_by self).kind }
    {
        match self {
            Fault::Call | Fault::Count | Fault::Argument | Fault::Length => Kind::TypeError,
            Fault::Digits | Fault::Empty | Fault::Step => Kind::ValueError,
        }
    }

    fn text(self) -> &'static str
        ensures { chars result.now ≡ (raised_by self).text }
    {
        match self {
            Fault::Call => "call",
            Fault::Count => "arguments",
            Fault::Argument => "argument",
            Fault::Length => "len",
            Fault::Digits => "int",
            Fault::Empty => "empty",
            Fault::Step => "range",
        }
    }

    /// The end of a call that raises the exception; `Memory` where there is none for its text.
    #[inline(never)]
    pub(crate) fn end(self, alloc: Global) -> OpEnd
        ensures { Raises result (raised_by self) }
    {
        raised(alloc, self.kind(), self.text())
    }
}
