//! The words that a script may not use as names and as attributes.

ghost use Rattle.std.specs.Prelude.{◌≡◌, chars};
ghost use Rattle.rp_policy.specs.Forbidden.{is_forbidden_attribute, is_forbidden_name, is_private};
ghost use Rattle.rp_policy.specs.Forbidden.{is_initializer, is_reserved, is_uncallable};

/// The attributes of frames, code and tracebacks.
const INSPECTION_ATTRIBUTES: [&str; 16] = [
    "tb_frame",
    "tb_next",
    "f_back",
    "f_builtins",
    "f_code",
    "f_globals",
    "f_locals",
    "f_trace",
    "co_code",
    "gi_frame",
    "gi_code",
    "gi_yieldfrom",
    "cr_await",
    "cr_frame",
    "cr_code",
    "cr_origin",
];

/// Whether a script may name no attribute by this word: it begins with `_` and isn't `_`, it ends with `__roles__`, or
/// it is an attribute of frames, code or tracebacks (RestrictedPython, attribute policy).
pub fn is_forbidden_attribute(word: &str) -> bool
    ensures { result ≡ is_forbidden_attribute (chars word.now) }
{
    is_forbidden_name(word) || INSPECTION_ATTRIBUTES.contains(&word)
}

/// Whether a script may use no name of this word: it begins with `_` and isn't `_`, or it ends with `__roles__`.
pub(crate) fn is_forbidden_name(word: &str) -> bool
    ensures { result ≡ is_forbidden_name (chars word.now) }
{
    is_private(word) || word.ends_with("__roles__")
}

fn is_private(word: &str) -> bool
    ensures { result ≡ is_private (chars word.now) }
{
    word.starts_with("_") && word != "_"
}

/// Whether a script may neither bind nor delete the name.
pub(crate) fn is_reserved(word: &str) -> bool
    ensures { result ≡ is_reserved (chars word.now) }
{
    ["print", "printed", "builtins", "breakpoint"].contains(&word)
}

/// Whether a script may not call the name.
pub(crate) fn is_uncallable(word: &str) -> bool
    ensures { result ≡ is_uncallable (chars word.now) }
{
    ["exec", "eval"].contains(&word)
}

/// Whether it is the name of the function that a class calls with the arguments of a call of its own.
pub(crate) fn is_initializer(word: &str) -> bool
    ensures { result ≡ is_initializer (chars word.now) }
{
    word == "__init__"
}
