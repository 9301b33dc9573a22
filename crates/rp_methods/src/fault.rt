//! Why methods raise exceptions.
ghost use Rattle.std.specs.Prelude.{◌≡◌, chars};
ghost use Rattle.rp_ops.specs.Outcome.{Raises};
ghost use Rattle.rp_methods.specs.Faults.{raised_by};

use rp_base::{Kind, OpEnd};
use rp_ops::raised;
use std::alloc::Global;

/// Why a method raises an exception, beside the causes that plain operations have.
#[derive(Clone, Copy, Debug, PartialEq, Eq)]
pub enum Fault {
    /// The receiver has no such method.
    Call,
    /// The method takes another number of arguments.
    Arguments,
    /// An argument is of a kind that the method does not take.
    Argument,
    /// No element is equal to the value.
    Absent,
    /// A text that is searched for is empty.
    Empty,
}

impl Fault {
    fn kind(self) -> Kind
        ensures { result ≡ (raised_by self).kind }
    {
        match self {
            Fault::Call | Fault::Arguments | Fault::Argument => Kind::TypeError,
            Fault::Absent | Fault::Empty => Kind::ValueError,
        }
    }

    fn text(self) -> &'static str
        ensures { chars result.now ≡ (raised_by self).text }
    {
        match self {
            Fault::Call => "call",
            Fault::Arguments => "arguments",
            Fault::Argument => "argument",
            Fault::Absent => "value",
            Fault::Empty => "empty",
        }
    }

    /// The end of an operation that raises the exception; `Memory` where there is none for its text.
    #[inline(never)]
    pub(crate) fn end(self, alloc: Global) -> OpEnd
        ensures { Raises result (raised_by self) }
    {
        raised(alloc, self.kind(), self.text())
    }
}
