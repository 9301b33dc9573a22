//! How many arguments the built-in functions take.
ghost use Rattle.std.specs.Prelude.{◌≡◌};
ghost use Rattle.rp_native.specs.Counts.{function_takes, is_called_here, is_function};

use rp_base::NativeId;

/// Whether it is a function, and no method.
pub fn is_function(id: NativeId) -> bool
    ensures { result ≡ is_function id }
{
    match id {
        NativeId::Len
        | NativeId::Bool
        | NativeId::Str
        | NativeId::Int
        | NativeId::Abs
        | NativeId::Sum
        | NativeId::Min
        | NativeId::Max
        | NativeId::Sorted
        | NativeId::List
        | NativeId::Tuple
        | NativeId::Dict
        | NativeId::Range
        | NativeId::Enumerate
        | NativeId::Zip
        | NativeId::GetAttr
        | NativeId::SetAttr
        | NativeId::Print
        | NativeId::RemoveSecurityProxy => true,
        _ => false,
    }
}

/// Whether `call_native` may be called with it. Not with `getattr` and `setattr`, which stand for forms of the
/// language, nor with `print`, which writes a line: its caller does what they do.
pub fn is_called_here(id: NativeId) -> bool
    ensures { result ≡ is_called_here id }
{
    match id {
        NativeId::GetAttr | NativeId::SetAttr | NativeId::Print => false,
        _ => true,
    }
}

/// Whether a function takes so many arguments (Python Standard Library, Built-in Functions). A method is no function.
pub fn function_takes(id: NativeId, count: usize) -> bool
    ensures { result ≡ function_takes id count }
{
    match id {
        NativeId::Len
        | NativeId::Bool
        | NativeId::Str
        | NativeId::Int
        | NativeId::Abs
        | NativeId::Sum
        | NativeId::Sorted
        | NativeId::Enumerate
        | NativeId::RemoveSecurityProxy => count == 1,
        NativeId::Min | NativeId::Max => count >= 1,
        NativeId::List | NativeId::Tuple | NativeId::Dict => count <= 1,
        NativeId::Range => count >= 1 && count <= 3,
        NativeId::GetAttr => count == 2 || count == 3,
        NativeId::SetAttr => count == 3,
        NativeId::Zip | NativeId::Print => true,
        _ => false,
    }
}
