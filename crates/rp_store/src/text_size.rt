//! The memory that a text takes.
ghost use Rattle.std.specs.Prelude.{◌≡◌, ◌+◌, ◌*◌, ◌^◌, ◌<◌, encode_utf8_all, length};
ghost use Rattle.std.specs.Str.{IsAscii};

use rp_base::Text;

/// The bytes that a text takes: those of its characters and, where one of them is not ASCII, four more for the place of
/// each.
pub fn bytes_of(text: &Text) -> usize
    ensures ascii { IsAscii text.now → result ≡ length text.now }
    ensures other { ¬ (IsAscii text.now) → length (encode_utf8_all text.now) + 4 * length text.now < 2 ^ 64 → result
        ≡ length (encode_utf8_all text.now) + 4 * length text.now }
{
    match text.ascii() {
        Some(letters) => letters.len(),
        None => {
            let places = text.len().saturating_mul(4);
            text.as_str().len().saturating_add(places)
        }
    }
}
