//! The lesser of two texts in byte order.

ghost use Rattle.std.specs.Prelude.{◌≡◌};
ghost use Rattle.rp_decl.specs.Order.{lesser_of};

use rp_base::Text;
use std::cmp::Ordering;

/// The lesser of two texts in byte order, each of which may be missing.
pub(crate) fn lesser_of(text: Option<Text>, other: Option<Text>) -> Option<Text>
    ensures { result ≡ lesser_of text other }
{
    match (text, other) {
        (None, other) => other,
        (text, None) => text,
        (Some(text), Some(other)) => match text.cmp(&other) {
            Ordering::Greater => Some(other),
            _ => Some(text),
        },
    }
}
