//! The words of built-in functions and methods.

use rp_base::NativeId;

/// The built-in function or method of this name.
pub(crate) fn native_of(word: &str) -> Option<NativeId> {
    if let Some(function) = function_of(word) {
        return Some(function);
    }
    for id in NativeId::METHODS {
        if id.as_str() == word {
            return Some(id);
        }
    }
    None
}

fn function_of(word: &str) -> Option<NativeId> {
    for id in NativeId::FUNCTIONS {
        if id.as_str() == word {
            return Some(id);
        }
    }
    if word == "removeSecurityProxy" {
        return Some(NativeId::RemoveSecurityProxy);
    }
    None
}
