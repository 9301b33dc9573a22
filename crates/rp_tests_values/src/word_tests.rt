//! Tests of identifiers and keywords.
use rp_base::{Memory, identifier, is_keyword};
use rp_tests_cases::holds;
use std::alloc::Global;
use std::test::Fail;

/// Words, each with the identifier that it spells, or none.
const SPELLED: [(&str, Option<&str>); 19] = [
    ("title", Some("title")),
    ("_", Some("_")),
    ("__init__", Some("__init__")),
    ("x1", Some("x1")),
    ("\u{ff58}", Some("x")),
    ("\u{fb01}n", Some("fin")),
    ("\u{2177}", Some("viii")),
    ("\u{e9}", Some("\u{e9}")),
    ("e\u{301}", Some("\u{e9}")),
    ("\u{540d}\u{524d}", Some("\u{540d}\u{524d}")),
    ("a\u{b7}", Some("a\u{b7}")),
    ("\u{b7}a", None),
    ("\u{301}a", None),
    ("\u{37a}", None),
    ("\u{1f600}", None),
    ("1a", None),
    ("a-b", None),
    ("a b", None),
    ("", None),
];

/// Words, how often each stands in one, and whether that is an identifier.
const LONG: [(&str, usize, bool); 6] = [
    ("a", 255, true),
    ("a", 256, false),
    ("\u{e9}", 127, true),
    ("\u{e9}", 128, false),
    ("\u{ff58}", 255, true),
    ("\u{ff58}", 256, false),
];

const KEYWORDS: [&str; 35] = [
    "False", "None", "True", "and", "as", "assert", "async", "await", "break", "class", "continue",
    "def", "del", "elif", "else", "except", "finally", "for", "from", "global", "if", "import",
    "in", "is", "lambda", "nonlocal", "not", "or", "pass", "raise", "return", "try", "while",
    "with", "yield",
];

const OTHER_WORDS: [&str; 8] = [
    "",
    "none",
    "Non",
    "Nonee",
    "match",
    "case",
    "print",
    "\u{ff49}f",
];

/// Whether the word spells that identifier, or none.
fn spells(alloc: Global, word: &str, form: Option<&str>) -> Result<bool, Memory> {
    Ok(match (identifier(alloc, word)?, form) {
        (Some(found), Some(form)) => found.is(form),
        (None, None) => true,
        _ => false,
    })
}

/// Whether the word so many times in a row is an identifier.
fn is_spelled(alloc: Global, word: &str, count: usize) -> Result<bool, Memory> {
    let long = word.repeat(alloc, count)?;
    Ok(identifier(alloc, long.as_str())?.is_some())
}

#[test]
fn identifiers_are_spelled_in_their_form(rt: HostRuntime) -> Result<(), Fail> {
    for (word, form) in SPELLED {
        holds(spells(rt.alloc(), word, form)?, word)?;
    }
    Ok(())
}

#[test]
fn identifiers_have_at_most_255_bytes(rt: HostRuntime) -> Result<(), Fail> {
    for (word, count, is_short) in LONG {
        holds(is_spelled(rt.alloc(), word, count)? == is_short, word)?;
    }
    Ok(())
}

#[test]
fn keywords_are_those_of_python() -> Result<(), Fail> {
    for word in KEYWORDS {
        holds(is_keyword(word), word)?;
    }
    for word in OTHER_WORDS {
        holds(!is_keyword(word), word)?;
    }
    Ok(())
}
