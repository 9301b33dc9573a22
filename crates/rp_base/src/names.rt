//! The words of the program, each held once.

ghost use Rattle.std.specs.Prelude.{◌≡◌, ◌<◌, [], All, IfOk, IfSome, IsOk, IsTrue, OnErr, OnOk, Some, chars, fold};
ghost use Rattle.std.specs.Prelude.{is_some, length, map, slice_get};
ghost use Rattle.rp_base.specs.Identifier.{IsIdentifier};
ghost use Rattle.rp_base.specs.Names.{HoldsEachOnce, first_words, is_held, with_word, word_of};

use crate::memory::Memory;
use crate::value::Name;
use indexmap::IndexSet;
use rp_hash::Seed;
use std::alloc::Global;
use std::marker::Model;
use std::rc::RcStr;

/// The words of operations, at fixed places.
const FIRST_WORDS: [&str; 59] = [
    "__getitem__",
    "__setitem__",
    "__delitem__",
    "__iter__",
    "items",
    "__contains__",
    "__len__",
    "__call__",
    "__bool__",
    "__str__",
    "__add__",
    "__sub__",
    "__mul__",
    "__floordiv__",
    "__mod__",
    "__pow__",
    "__and__",
    "__or__",
    "__xor__",
    "__lshift__",
    "__rshift__",
    "__radd__",
    "__rsub__",
    "__rmul__",
    "__rfloordiv__",
    "__rmod__",
    "__rpow__",
    "__rand__",
    "__ror__",
    "__rxor__",
    "__rlshift__",
    "__rrshift__",
    "__iadd__",
    "__isub__",
    "__imul__",
    "__ifloordiv__",
    "__imod__",
    "__ipow__",
    "__iand__",
    "__ior__",
    "__ixor__",
    "__ilshift__",
    "__irshift__",
    "__lt__",
    "__le__",
    "__gt__",
    "__ge__",
    "__eq__",
    "__ne__",
    "__neg__",
    "__pos__",
    "__invert__",
    "index",
    "count",
    "get",
    "keys",
    "values",
    "copy",
    "__init__",
];

/// The words of the program, each held once, as the list of them: the place of a word is its name.
/// Each is an identifier in its form.
pub struct Names {
    words: IndexSet<RcStr, Seed>,
}

// By hand, so that crates that drop one do not prove again how its parts are dropped.
impl Drop for Names {
    fn drop(self) {
        let Names { words: _ } = self;
    }
}

impl Model for Names {
    ghost use Rattle.std.specs.Prelude.{ℕ, List, chars, map};
    ghost use Rattle.std.specs.Rc.{rc_str_bytes};
    ghost use Rattle.rp_base.specs.Names.{AreNames};

    ghost Value = { List (List ℕ) };

    ghost view = { λ n. map (λ t. chars (rc_str_bytes t)) n.words.keys };

    ghost invariant = { λ n. AreNames (map (λ t. chars (rc_str_bytes t)) n.words.keys) };
}

impl Names {
    /// The words of operations, at their fixed places. Words are hashed from the seed.
    ///
    /// # Errors
    /// `Memory` where a growth was refused.
    pub fn new(alloc: Global, seed: Seed) -> Result<Names, Memory>
        ensures { IfOk result (λ n. n ≡ first_words) }
    {
        let mut names = Names {
            words: IndexSet::with_hasher(alloc, seed),
        };
        names.intern_all(&FIRST_WORDS)?;
        Ok(names)
    }

    /// The name of the word, which is added at the end where it is new. A held word takes no memory.
    ///
    /// # Errors
    /// `Memory` where a growth was refused; then the words are as before.
    pub fn intern(&mut self, word: &str) -> Result<Name, Memory>
        requires { IsIdentifier (chars word.now) }
        ensures words { OnOk result (self.new ≡ with_word self.old (chars word.now)) }
        ensures place { IfOk result (λ name. slice_get self.new name.0 ≡ Some (chars word.now)) }
        ensures held { IsTrue (is_held self.old (chars word.now)) → IsOk result }
        ensures same { OnErr result (self.new ≡ self.old) }
    {
        if let Some(place) = self.words.get_index_of(word) {
            return Ok(Name(place));
        }
        let alloc = *self.words.allocator();
        let text = RcStr::from_str(alloc, word)?;
        let (place, _) = self.words.insert_full(text)?;
        Ok(Name(place))
    }

    /// The name of the word, where it is held.
    pub fn find(&self, word: &str) -> Option<Name>
        ensures held { is_some result ≡ is_held self.now (chars word.now) }
        ensures place { IfSome result (λ name. slice_get self.now name.0 ≡ Some (chars word.now)) }
    {
        let place = self.words.get_index_of(word)?;
        Some(Name(place))
    }

    /// The seed from which words are hashed now.
    pub fn seed(&self) -> Seed {
        *self.words.hasher()
    }

    /// Hashes all words anew, from this seed. Each keeps its place.
    ///
    /// # Errors
    /// `Memory` where a growth was refused; then they are hashed as before.
    pub fn rekey(&mut self, seed: Seed) -> Result<(), Memory>
        ensures same { self.new ≡ self.old }
    {
        let alloc = *self.words.allocator();
        let mut words = IndexSet::with_capacity_and_hasher(alloc, self.words.len(), seed)?;
        words.append(&mut self.words)?;
        self.words = words;
        Ok(())
    }

    /// The word of a name.
    pub fn text(&self, name: Name) -> &str
        requires { name.0 < length self.now }
        ensures word { slice_get self.now name.0 ≡ Some (chars result.now) }
        ensures identifier { IsIdentifier (chars result.now) }
        ensures identifiers { All IsIdentifier self.now }
        ensures distinct { HoldsEachOnce self.now }
    {
        self.words.as_slice()[name.0].as_str()
    }

    /// The number of words, so the first place that is free.
    pub fn len(&self) -> usize
        ensures { result ≡ length self.now }
    {
        self.words.len()
    }

    fn intern_all(&mut self, words: &[&str]) -> Result<(), Memory>
        requires { All IsIdentifier (map (λ word. chars word.now) words.now) }
        ensures { OnOk result (self.new ≡ fold with_word self.old (map (λ word. chars word.now) words.now)) }
    {
        for word in words {
            self.intern(word)?;
        }
        Ok(())
    }
}

/// The word of a name, empty where there is no such name.
pub fn word_of(names: &Names, name: Name) -> &str
    ensures { chars result.now ≡ word_of names.now name }
{
    if name.0 < names.len() {
        names.text(name)
    } else {
        ""
    }
}
