//! Numbers in words.

ghost use Rattle.std.specs.Prelude.{◌≡◌, ◌≤◌, true, ◌&&◌, nat_le, nat_lt, length, option_map};
ghost use Rattle.std.specs.Char.{is_ascii_digit};
ghost use Rattle.std.specs.List.{list_all};
ghost use Rattle.std.specs.Str.Parse.{digits_value};
ghost use Rattle.rp_words.specs.Command.{limit_of, number_of};

/// How many steps a session takes at most, and cells all sessions together, where the words do not say.
pub const USUAL_LIMIT: u64 = 1_000_000;

/// The number that ASCII digits spell, at least one and at most `longest` of them, where it lies between `least` and
/// `most`.
pub fn read_number(digits: &str, longest: usize, least: u32, most: u64) -> Option<u32>
    requires { longest ≤ 9 }
    ensures { result ≡ number_of longest least most digits.now }
{
    if !is_numeral(digits, longest) {
        return None;
    }
    let number = value(digits);
    if least <= number && number as u64 <= most {
        Some(number)
    } else {
        None
    }
}

/// The limit that an option gives, at most `most`, and the usual one where it is not given.
pub fn read_limit(digits: Option<&str>, most: u64) -> Option<u64>
    ensures { result ≡ limit_of most (option_map (λ t. t.now) digits.entry) }
{
    match digits {
        None => Some(USUAL_LIMIT),
        Some(digits) => Some(read_number(digits, 9, 0, most)? as u64),
    }
}

fn is_numeral(digits: &str, longest: usize) -> bool
    ensures { result ≡ ((nat_lt 0 (length digits.now) && nat_le (length digits.now) longest)
        && list_all is_ascii_digit digits.now) }
{
    !digits.is_empty() && digits.len() <= longest && has_digits(digits)
}

fn has_digits(text: &str) -> bool
    ensures { result ≡ list_all is_ascii_digit text.now }
{
    text.bytes().all(|byte| byte.is_ascii_digit())
}

fn value(digits: &str) -> u32
    requires ascii { list_all is_ascii_digit digits.now ≡ true }
    requires some { nat_lt 0 (length digits.now) ≡ true }
    requires short { length digits.now ≤ 9 }
    ensures { result ≡ digits_value 10 digits.now }
{
    digits.parse::<u32>().unwrap_or(0)
}
