//! The words of the calls that f-literals become.

ghost use Rattle.std.specs.Prelude.{◌≡◌, ◌↔◌, ◌++◌, ℕ, IfOk, IsTrue, List, None, OnOk, Some, chars, codes, slice_get};
ghost use Rattle.rp_base.specs.Identifier.{IsIdentifier};
ghost use Rattle.rp_base.specs.Names.{GrowsTo, with_word};
ghost use Rattle.rp_token.specs.Form.{name};
ghost use Rattle.rp_token.specs.View.{form_view};

use rp_base::{Memory, Name, Names};
use rp_token::TokenKind;

/// The names of `join` and `str`, each from its first use on: to look a name up by its word takes longer than to see
/// that the name of the last use still has that word.
#[derive(Clone, Copy)]
pub(crate) struct CallWords {
    join: Option<Name>,
    str: Option<Name>,
}

impl CallWords {
    /// Before the first use of both.
    pub(crate) fn new() -> CallWords
        ensures { result ≡ (record { join = None; str = None }) }
    {
        CallWords {
            join: None,
            str: None,
        }
    }

    /// The name of `join`.
    pub(crate) fn join(&mut self, names: &mut Names) -> Result<Name, Memory>
        ensures name { (more : List (List ℕ)) → IfOk result (λ n. form_view (names.new ++ more) (TokenKind.Name n)
            ≡ name (codes "join")) }
        ensures word { OnOk result (names.new ≡ with_word names.old (codes "join")) }
        ensures grown { GrowsTo names.old names.new }
        ensures kept { IfOk result (λ n. self.new.join ≡ Some n) }
        ensures other { self.new.str ≡ self.old.str }
    {
        intern_once(&mut self.join, "join", names)
    }

    /// The name of `str`.
    pub(crate) fn str(&mut self, names: &mut Names) -> Result<Name, Memory>
        ensures name { (more : List (List ℕ)) → IfOk result (λ n. form_view (names.new ++ more) (TokenKind.Name n)
            ≡ name (codes "str")) }
        ensures word { OnOk result (names.new ≡ with_word names.old (codes "str")) }
        ensures grown { GrowsTo names.old names.new }
        ensures kept { IfOk result (λ n. self.new.str ≡ Some n) }
        ensures other { self.new.join ≡ self.old.join }
    {
        intern_once(&mut self.str, "str", names)
    }
}

/// The name of a word of the language, which is kept.
fn intern_once(kept: &mut Option<Name>, word: &str, names: &mut Names) -> Result<Name, Memory>
    requires { IsIdentifier (chars word.now) }
    ensures name { (more : List (List ℕ)) → IfOk result (λ n. form_view (names.new ++ more) (TokenKind.Name n)
        ≡ name (chars word.now)) }
    ensures word { OnOk result (names.new ≡ with_word names.old (chars word.now)) }
    ensures grown { GrowsTo names.old names.new }
    ensures kept { IfOk result (λ n. kept.new ≡ Some n) }
{
    if let Some(name) = *kept
        && has_word(name, word, names)
    {
        return Ok(name);
    }
    let name = names.intern(word)?;
    *kept = Some(name);
    Ok(name)
}

/// Whether it is the name of the word.
fn has_word(name: Name, word: &str, names: &Names) -> bool
    ensures { IsTrue result ↔ (slice_get names.now name.0 ≡ Some (chars word.now)) }
{
    name.0 < names.len() && names.text(name) == word
}
