//! Tests of handlers, names and texts.
use rp_base::{Kind, Memory, Name, Names, Printed, Seed, Text, identifier, is_kind};
use rp_tests_cases::holds;
use std::alloc::Global;
use std::test::Fail;

/// Kinds, handlers, and whether the handler takes the kind.
const HANDLERS: [(Kind, Kind, bool); 21] = [
    (Kind::ValueError, Kind::ValueError, true),
    (Kind::ValueError, Kind::Exception, true),
    (Kind::Exception, Kind::Exception, true),
    (Kind::Exception, Kind::ValueError, false),
    (Kind::ZeroDivisionError, Kind::ArithmeticError, true),
    (Kind::ZeroDivisionError, Kind::Exception, true),
    (Kind::ArithmeticError, Kind::ZeroDivisionError, false),
    (Kind::OverflowError, Kind::ArithmeticError, true),
    (Kind::OverflowError, Kind::ZeroDivisionError, false),
    (Kind::IndexError, Kind::LookupError, true),
    (Kind::KeyError, Kind::LookupError, true),
    (Kind::KeyError, Kind::IndexError, false),
    (Kind::LookupError, Kind::KeyError, false),
    (Kind::UnboundLocalError, Kind::NameError, true),
    (Kind::RecursionError, Kind::RuntimeError, true),
    (Kind::ForbiddenAttribute, Kind::Forbidden, true),
    (Kind::ForbiddenAttribute, Kind::AttributeError, true),
    (Kind::ForbiddenAttribute, Kind::Exception, true),
    (Kind::ForbiddenAttribute, Kind::Unauthorized, false),
    (Kind::AttributeError, Kind::ForbiddenAttribute, false),
    (Kind::Unauthorized, Kind::Forbidden, false),
];

/// Words in the order in which they are interned, each with its place.
const PLACES: [(&str, usize); 13] = [
    ("__getitem__", 0),
    ("__str__", 9),
    ("__add__", 10),
    ("__radd__", 21),
    ("__iadd__", 32),
    ("__lt__", 43),
    ("__neg__", 49),
    ("index", 52),
    ("__init__", 58),
    ("title", 59),
    ("name", 60),
    ("title", 59),
    ("__bool__", 8),
];

#[test]
fn handlers_take_what_stands_under_them() -> Result<(), Fail> {
    for (kind, handler, is_taken) in HANDLERS {
        holds(is_kind(kind, handler) == is_taken, kind.as_str())?;
    }
    Ok(())
}

#[test]
fn kinds_have_words() -> Result<(), Fail> {
    holds(Kind::Exception.as_str() == "Exception", "Exception")?;
    let word = "ForbiddenAttribute";
    holds(Kind::ForbiddenAttribute.as_str() == word, word)
}

/// Whether the word is interned at a place, and is found and told there.
fn is_at(names: &mut Names, alloc: Global, word: &str, place: usize) -> Result<bool, Memory> {
    let Some(text) = identifier(alloc, word)? else {
        return Ok(false);
    };
    let name = names.intern(text.as_str())?;
    if name != Name(place) || place >= names.len() {
        return Ok(false);
    }
    Ok(names.find(word) == Some(name) && names.text(Name(place)) == word)
}

/// Asks whether each of the words is at its place.
fn are_placed(names: &mut Names, alloc: Global) -> Result<(), Fail> {
    for (word, place) in PLACES {
        holds(is_at(names, alloc, word, place)?, word)?;
    }
    Ok(())
}

#[test]
fn names_keep_their_places_from_any_seed(rt: HostRuntime) -> Result<(), Fail> {
    let mut names = Names::new(rt.alloc(), Seed::from_bytes([7; 16]))?;
    holds(
        names.len() == 59 && names.find("title").is_none(),
        "59 words",
    )?;
    are_placed(&mut names, rt.alloc())?;
    holds(names.len() == 61, "61 words")?;
    names.rekey(Seed::from_bytes([9; 16]))?;
    are_placed(&mut names, rt.alloc())?;
    holds(names.len() == 61, "61 words from another seed")
}

/// Asks whether a word, as a text, has so many characters, and whether they are ASCII.
fn is_measured(alloc: Global, word: &str, length: usize, is_ascii: bool) -> Result<(), Fail> {
    let text = Text::new(alloc, word)?;
    let same = text.copy()?;
    holds(text == same && text.is(word), word)?;
    holds(
        text.len() == length && text.ascii().is_some() == is_ascii,
        word,
    )
}

#[test]
fn texts_are_measured(rt: HostRuntime) -> Result<(), Fail> {
    is_measured(rt.alloc(), "", 0, true)?;
    is_measured(rt.alloc(), "cafe", 4, true)?;
    is_measured(rt.alloc(), "caf\u{e9}", 4, false)
}

#[test]
fn texts_are_shared_and_compared(rt: HostRuntime) -> Result<(), Fail> {
    let text = Text::new(rt.alloc(), "caf\u{e9}")?;
    let same = text.copy()?;
    holds(same.as_str() == "caf\u{e9}" && text == same, "a copy")?;
    holds(text.is("caf\u{e9}") && !text.is("cafe\u{301}"), "a form")
}

#[test]
fn texts_are_in_order(rt: HostRuntime) -> Result<(), Fail> {
    let text = Text::new(rt.alloc(), "caf\u{e9}")?;
    let later = Text::new(rt.alloc(), "cafz\u{e9}")?;
    holds(later < text, "an order")
}

#[test]
fn printed_texts_are_put_together(rt: HostRuntime) -> Result<(), Fail> {
    let mut printed = Printed::new(rt.alloc());
    holds(printed.as_str().is_empty(), "nothing")?;
    printed.add("caf\u{e9}")?;
    printed.add("\n")?;
    holds(printed.as_str() == "caf\u{e9}\n", "two texts")
}
