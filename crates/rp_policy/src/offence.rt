//! Offences against the policy, and the lines that tell them.

ghost use Rattle.std.specs.Prelude.{◌≡◌, ◌++◌, true, IfOk, chars, codes, option_map, string_bytes};
ghost use Rattle.std.specs.Char.{is_ascii};
ghost use Rattle.std.specs.Fmt.{decimal};
ghost use Rattle.std.specs.List.{list_all};
ghost use Rattle.rp_base.specs.Names.{word_of};
ghost use Rattle.rp_policy.specs.Offences.{at_line, offence, offence_named, offence_text};
ghost use Rattle.rp_policy.specs.Offences.{wrong_attribute, wrong_binding, wrong_call, wrong_method, wrong_reading};

use crate::forbidden_words::{
    is_forbidden_attribute, is_forbidden_name, is_initializer, is_reserved, is_uncallable,
};
use crate::spot::Spot;
use rp_base::{Line, Memory, Name, Names, word_of};
use std::alloc::Global;

/// What is wrong with a place of a script.
#[derive(Clone, Copy, Debug, PartialEq, Eq)]
pub enum What<N = Name> {
    /// The name begins with `_` and isn't `_`, or ends with `__roles__`.
    Name(N),
    /// The attribute's name does so, or is one of frames, code and tracebacks.
    Attr(N),
    /// `print`, `printed`, `builtins` or `breakpoint` is bound or deleted.
    Reserved(N),
    /// `exec` or `eval` is called.
    ExecEval(N),
    /// An augmented assignment to an attribute or an item.
    AugTarget,
}

/// An offence against the policy (RestrictedPython, name and attribute policy).
#[derive(Clone, Copy, Debug, PartialEq, Eq)]
pub struct Offence<N = Name> {
    /// The line of the name, or of the operator of an augmented assignment.
    pub line: Line,
    /// What is wrong there.
    pub what: What<N>,
}

/// The text that tells an offence: `line N: ` and what is wrong. A name that `names` doesn't hold has the empty word.
///
/// # Errors
/// `Memory` where a growth was refused.
pub fn offence_text(alloc: Global, offence: &Offence, names: &Names) -> Result<String, Memory>
    ensures { IfOk result (λ text. chars (string_bytes text)
        ≡ offence_text (offence_named (word_of names.now) offence.now)) }
{
    let line = offence.line;
    match offence.what {
        What::Name(name) => text_at(
            alloc,
            line,
            "name \"",
            word_of(names, name),
            "\" is forbidden",
        ),
        What::Attr(name) => text_at(
            alloc,
            line,
            "attribute \"",
            word_of(names, name),
            "\" is forbidden",
        ),
        What::Reserved(name) => text_at(
            alloc,
            line,
            "name \"",
            word_of(names, name),
            "\" is reserved",
        ),
        What::ExecEval(name) => text_at(
            alloc,
            line,
            "call of \"",
            word_of(names, name),
            "\" is forbidden",
        ),
        What::AugTarget => text_at(
            alloc,
            line,
            "augmented assignment to an attribute or item is forbidden",
            "",
            "",
        ),
    }
}

/// The text of a fault at a line: a word within words of ASCII.
fn text_at(
    alloc: Global,
    line: Line,
    before: &str,
    word: &str,
    behind: &str,
) -> Result<String, Memory>
    requires before { list_all is_ascii before.now ≡ true }
    requires behind { list_all is_ascii behind.now ≡ true }
    ensures { IfOk result (λ text. chars (string_bytes text)
        ≡ codes "line " ++ decimal line.0 ++ codes ": " ++ (before.now ++ chars word.now ++ behind.now)) }
{
    let number = line.0;
    Ok(format!(in alloc; "line {number}: {before}{word}{behind}")?)
}

/// The offence at a spot, if there is one.
pub(crate) fn offence_at(names: &Names, spot: Spot) -> Option<Offence>
    ensures { result ≡ offence (word_of names.now) spot }
{
    match spot {
        Spot::Reads(named) => at(
            named.line,
            wrong_reading(word_of(names, named.name), named.name),
        ),
        Spot::Binds(named) => at(
            named.line,
            wrong_binding(word_of(names, named.name), named.name),
        ),
        Spot::Method(named) => at(
            named.line,
            wrong_method(word_of(names, named.name), named.name),
        ),
        Spot::Calls(named) => at(
            named.line,
            wrong_call(word_of(names, named.name), named.name),
        ),
        Spot::Attribute(named) => at(
            named.line,
            wrong_attribute(word_of(names, named.name), named.name),
        ),
        Spot::Augments(line) => at(line, Some(What::AugTarget)),
    }
}

fn at(line: Line, what: Option<What>) -> Option<Offence>
    ensures { result ≡ option_map (at_line line) what }
{
    Some(Offence { line, what: what? })
}

fn wrong_reading(word: &str, name: Name) -> Option<What>
    ensures { result ≡ wrong_reading (chars word.now) name }
{
    if is_forbidden_name(word) {
        return Some(What::Name(name));
    }
    None
}

fn wrong_binding(word: &str, name: Name) -> Option<What>
    ensures { result ≡ wrong_binding (chars word.now) name }
{
    if is_forbidden_name(word) {
        return Some(What::Name(name));
    }
    if is_reserved(word) {
        return Some(What::Reserved(name));
    }
    None
}

fn wrong_method(word: &str, name: Name) -> Option<What>
    ensures { result ≡ wrong_method (chars word.now) name }
{
    if is_initializer(word) {
        return None;
    }
    wrong_binding(word, name)
}

fn wrong_call(word: &str, name: Name) -> Option<What>
    ensures { result ≡ wrong_call (chars word.now) name }
{
    if is_uncallable(word) {
        return Some(What::ExecEval(name));
    }
    wrong_reading(word, name)
}

fn wrong_attribute(word: &str, name: Name) -> Option<What>
    ensures { result ≡ wrong_attribute (chars word.now) name }
{
    if is_forbidden_attribute(word) {
        return Some(What::Attr(name));
    }
    None
}
