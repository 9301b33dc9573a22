//! The words of built-in functions and refusals.

use rp_base::NativeId;
use rp_ops::Refusal;

/// The built-in function or method of this name, of those that the cases name.
pub(crate) fn native_of(word: &str) -> Option<NativeId> {
    match word {
        "len" => Some(NativeId::Len),
        "str" => Some(NativeId::Str),
        "append" => Some(NativeId::Append),
        "startswith" => Some(NativeId::StartsWith),
        _ => None,
    }
}

/// The refusal of this name.
pub(crate) fn refusal_of(word: &str) -> Option<Refusal> {
    match word {
        "Zero" => Some(Refusal::Zero),
        "Overflow" => Some(Refusal::Overflow),
        "Power" => Some(Refusal::Power),
        "Shift" => Some(Refusal::Shift),
        "Operand" => Some(Refusal::Operand),
        "Item" => Some(Refusal::Item),
        "Index" => Some(Refusal::Index),
        "Outside" => Some(Refusal::Outside),
        "Key" => Some(Refusal::Key),
        "Slice" => Some(Refusal::Slice),
        "Iterate" => Some(Refusal::Iterate),
        "Depth" => Some(Refusal::Depth),
        "Resized" => Some(Refusal::Resized),
        _ => None,
    }
}
