//! Which operations are decided on the arguments of built-in functions and methods.
ghost use Rattle.std.specs.Prelude.{◌≡◌};
ghost use Rattle.rp_native.specs.Needs.{need_of, needs, takes};

use crate::counts::function_takes;
use rp_base::NativeId;

/// An operation that is decided on an argument before a built-in function or method does it.
#[derive(Clone, Copy, Debug, PartialEq, Eq)]
pub enum Need {
    /// It is walked.
    Iter,
    /// Its entries are read.
    Items,
    /// Its length is read.
    Len,
    /// It is shown.
    Str,
    /// Its truth is tested.
    Bool,
}

/// The operation that is decided on argument `i`, from 0, of a call of a function or a method with `count` arguments
/// (zope.security, proxies). None where nothing is decided on it, where so many arguments are not taken, and for
/// `getattr` and `setattr`, which are decided as the forms that they stand for.
pub fn needs(id: NativeId, i: usize, count: usize) -> Option<Need>
    ensures { result ≡ needs id i count }
{
    if takes(id, count) && i < count {
        return need_of(id, count);
    }
    None
}

fn takes(id: NativeId, count: usize) -> bool
    ensures { result ≡ takes id count }
{
    match id {
        NativeId::Extend | NativeId::Join | NativeId::Update => count == 1,
        _ => function_takes(id, count),
    }
}

fn need_of(id: NativeId, count: usize) -> Option<Need>
    ensures { result ≡ need_of id count }
{
    match id {
        NativeId::Len => Some(Need::Len),
        NativeId::Bool => Some(Need::Bool),
        NativeId::Str | NativeId::Print => Some(Need::Str),
        NativeId::Min | NativeId::Max => need_of_sole(count),
        NativeId::Sum
        | NativeId::Sorted
        | NativeId::List
        | NativeId::Tuple
        | NativeId::Enumerate
        | NativeId::Zip
        | NativeId::Extend
        | NativeId::Join => Some(Need::Iter),
        NativeId::Dict | NativeId::Update => Some(Need::Items),
        NativeId::Int
        | NativeId::Abs
        | NativeId::Range
        | NativeId::GetAttr
        | NativeId::SetAttr
        | NativeId::RemoveSecurityProxy
        | NativeId::Append
        | NativeId::Insert
        | NativeId::Pop
        | NativeId::Remove
        | NativeId::Index
        | NativeId::Count
        | NativeId::Reverse
        | NativeId::Get
        | NativeId::Keys
        | NativeId::Values
        | NativeId::Items
        | NativeId::SetDefault
        | NativeId::Copy
        | NativeId::Split
        | NativeId::Strip
        | NativeId::StartsWith
        | NativeId::EndsWith
        | NativeId::Find
        | NativeId::Replace
        | NativeId::IsDigit => None,
    }
}

/// A sole argument is walked.
fn need_of_sole(count: usize) -> Option<Need>
    ensures { result ≡ need_of NativeId.Min count }
{
    if count == 1 { Some(Need::Iter) } else { None }
}
