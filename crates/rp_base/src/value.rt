//! Values, and what names and references are.

ghost use Rattle.std.specs.Prelude.{◌≡◌, IfOk};

use crate::kind::Kind;
use crate::memory::Memory;
use crate::native::NativeId;
use crate::text::Text;

/// A name, by its place in `Names`.
#[derive(Clone, Copy, Debug, PartialEq, Eq, PartialOrd, Ord, Hash)]
pub struct Name(pub usize);

/// A reference to an object, by its place in the store.
#[derive(Clone, Copy, Debug, PartialEq, Eq, PartialOrd, Ord, Hash)]
pub struct Oid(pub usize);

/// Whose code runs, or who owns an object: 0 for trusted code, and the number of the session, from 1,
/// for a script.
#[derive(Clone, Copy, Debug, PartialEq, Eq, PartialOrd, Ord, Hash)]
pub struct Side(pub u32);

/// The number of a line of a script, from 1.
#[derive(Clone, Copy, Debug, PartialEq, Eq, PartialOrd, Ord, Hash)]
pub struct Line(pub usize);

/// The status with which the program ends, 0 to 9.
#[derive(Clone, Copy, Debug, PartialEq, Eq)]
pub struct Status(pub u8);

/// A value that is never proxied (zope.security: rocks).
#[derive(Drop)]
pub enum Rock {
    Nil,
    Truth(bool),
    Int(i64),
    Text(Text),
    /// An exception value: its kind and its text.
    Exc(Kind, Text),
    Kind(Kind),
    Native(NativeId),
}

/// A value: a rock, a plain reference, or a proxy of an object.
#[derive(Drop)]
pub enum Value {
    Rock(Rock),
    Ref(Oid),
    Prox(Oid),
}

/// An exception that was raised.
#[derive(Drop)]
pub struct Raised {
    pub kind: Kind,
    pub text: Text,
}

/// Why an operation has no result.
#[derive(Drop)]
pub enum OpEnd {
    Raised(Raised),
    /// No step is left.
    StopSteps,
    /// No cell is left.
    StopCells,
    Memory,
}

impl From<Memory> for OpEnd {
    ghost use Rattle.std.specs.Prelude.{◌≡◌};
    ghost use Rattle.rp_base.specs.declared.value.OpEnd.TheVariants.{Memory as OutOfMemory};

    ghost from_gives = { λ _ e. e ≡ OutOfMemory };

    fn from(_: Memory) -> Self {
        OpEnd::Memory
    }
}

/// The class of an object, as the rows of checkers name it.
#[derive(Clone, Copy, Debug, PartialEq, Eq)]
pub enum ClassTag {
    List,
    Tuple,
    Dict,
    Function,
    Method,
    Class,
    Declared(Name),
    Other,
}

/// What a checker is asked for: reading or setting a name.
#[derive(Clone, Copy, Debug, PartialEq, Eq)]
pub enum Op {
    Get(Name),
    Set(Name),
}

impl Rock {
    /// An equal rock; its text is shared. It is refused only for want of memory.
    #[inline(always)]
    pub fn copy(&self) -> Result<Rock, Memory>
        ensures { IfOk result (λ r. r ≡ self.now) }
    {
        Ok(match self {
            Rock::Nil => Rock::Nil,
            Rock::Truth(truth) => Rock::Truth(*truth),
            Rock::Int(number) => Rock::Int(*number),
            Rock::Text(text) => Rock::Text(text.copy()?),
            Rock::Exc(kind, text) => Rock::Exc(*kind, text.copy()?),
            Rock::Kind(kind) => Rock::Kind(*kind),
            Rock::Native(native) => Rock::Native(*native),
        })
    }
}

impl Value {
    /// An equal value; its text is shared. It is refused only for want of memory.
    #[inline(always)]
    pub fn copy(&self) -> Result<Value, Memory>
        ensures { IfOk result (λ v. v ≡ self.now) }
    {
        Ok(match self {
            Value::Rock(rock) => Value::Rock(rock.copy()?),
            Value::Ref(at) => Value::Ref(*at),
            Value::Prox(at) => Value::Prox(*at),
        })
    }
}
