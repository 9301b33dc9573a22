//! Shared texts, and the text that grows.

ghost use Rattle.std.specs.Prelude.{◌≡◌, ◌≤◌, ◌↔◌, ◌++◌, [], chars, IfOk, IfSome, IsSome, IsTrue, MatchOption, OnOk, true};
ghost use Rattle.std.specs.Prelude.{OnErr, length, slice_get, slice_range, string_bytes};
ghost use Rattle.std.specs.Char.{is_ascii};
ghost use Rattle.std.specs.List.{list_all};
ghost use Rattle.std.specs.Str.{IsAscii};
ghost use Rattle.rp_base.specs.Characters.{AreThose};
ghost use Rattle.rp_base.specs.Same.{same_text};

use crate::memory::Memory;
use std::alloc::Global;
use std::cmp::Ordering;
use std::hash::{Hash, Hasher};
use std::marker::Model;
use std::rc::Rc;

/// The characters of a text, and how many they are. Where one is not ASCII, they stand by place too, elsewhere, so that
/// the others have no room for that.
#[derive(Drop)]
pub struct Letters {
    text: String,
    count: usize,
    wide: Option<Box<Vec<char>>>,
}

/// The characters of a text, each at its place: an ASCII text has one byte for each, and another keeps four bytes for
/// each beside its UTF-8.
#[derive(Clone, Copy)]
pub enum Characters<'a> {
    /// All are ASCII.
    Ascii(&'a str),
    /// Not all are ASCII.
    Wide(&'a [char]),
}

/// A shared text, seen as the list of its characters, which knows how many they are and finds one by its place in
/// constant time. It takes its UTF-8 bytes, and four bytes more for each character where not all are ASCII. Texts are
/// compared by their UTF-8 bytes, which is the order of their characters.
pub struct Text {
    shared: Rc<Letters>,
}

// By hand, so that crates that drop one do not prove again how its parts are dropped.
impl Drop for Text {
    fn drop(self) {
        let Text { shared: _ } = self;
    }
}

impl Model for Text {
    ghost use Rattle.std.specs.Prelude.{◌≡◌, ℕ, List, MatchOption, chars, length, string_bytes};
    ghost use Rattle.std.specs.Str.{IsAscii};

    ghost Value = { List ℕ };

    ghost view = { λ t. chars (string_bytes t.shared.value.text) };

    ghost invariant = { λ t. let kept = t.shared.value in let letters = chars (string_bytes kept.text) in
        (kept.count ≡ length letters)
        × MatchOption kept.wide (IsAscii letters) (λ v. (v.value.items ≡ letters) × ¬ IsAscii letters) };
}

impl Text {
    /// A text with these characters. It is refused only for want of memory.
    pub fn new(alloc: Global, text: &str) -> Result<Text, Memory>
        ensures { IfOk result (λ t. t ≡ chars text.now) }
    {
        Text::from_string(alloc, String::from_str(alloc, text)?)
    }

    /// A text with the characters of a string, whose bytes are not copied. It is refused only for want of memory.
    pub fn from_string(alloc: Global, text: String) -> Result<Text, Memory>
        ensures { IfOk result (λ t. t ≡ chars (string_bytes text)) }
    {
        let count = count(text.as_str());
        let wide = wide_letters(alloc, text.as_str(), count)?;
        match Rc::new(alloc, Letters { text, count, wide }) {
            Ok(shared) => Ok(Text { shared }),
            Err(_) => Err(Memory),
        }
    }

    /// The characters.
    #[inline(always)]
    pub fn as_str(&self) -> &str
        ensures { chars result.now ≡ self.now }
    {
        self.shared.text.as_str()
    }

    /// The number of characters, in constant time.
    #[inline(always)]
    pub fn len(&self) -> usize
        ensures { result ≡ length self.now }
    {
        self.shared.count
    }

    /// The characters where each is ASCII, so one byte. It takes constant time.
    #[inline(always)]
    pub fn ascii(&self) -> Option<&str>
        ensures same { IfSome result (λ text. text.now ≡ self.now) }
        ensures ascii { IfSome result (λ text. IsAscii text.now) }
        ensures each { IsAscii self.now → IsSome result }
    {
        match self.characters() {
            Characters::Ascii(text) => Some(text),
            Characters::Wide(_) => None,
        }
    }

    /// The characters by place, in constant time.
    #[inline(always)]
    pub fn characters(&self) -> Characters<'_>
        ensures { AreThose self.now result }
    {
        match &self.shared.wide {
            Some(letters) => Characters::Wide(letters.as_slice()),
            None => Characters::Ascii(self.shared.text.as_str()),
        }
    }

    /// Whether these are its characters.
    pub fn is(&self, word: &str) -> bool
        ensures value { result ≡ same_text self.now (chars word.now) }
        ensures same { IsTrue result ↔ (self.now ≡ chars word.now) }
    {
        self.as_str() == word
    }

    /// An equal text, which shares the characters and allocates nothing. Only where the count of their owners, of 64
    /// bits, is full, it has characters of its own.
    ///
    /// # Errors
    /// `Memory` where a growth was refused.
    #[inline(always)]
    pub fn copy(&self) -> Result<Text, Memory>
        ensures { IfOk result (λ t. t ≡ self.now) }
    {
        match self.shared.clone() {
            Ok(shared) => Ok(Text { shared }),
            Err(_) => self.made_anew(),
        }
    }

    /// An equal text, with characters of its own.
    ///
    /// # Errors
    /// `Memory` where a growth was refused.
    #[inline(never)]
    fn made_anew(&self) -> Result<Text, Memory>
        ensures { IfOk result (λ t. t ≡ self.now) }
    {
        let alloc = *self.shared.text.allocator();
        Text::new(alloc, self.as_str())
    }
}

fn count(text: &str) -> usize
    ensures { result ≡ length (chars text.now) }
{
    text.chars().count()
}

/// The characters by place of a text that has so many, where not all are ASCII.
fn wide_letters(alloc: Global, text: &str, count: usize) -> Result<Option<Box<Vec<char>>>, Memory>
    requires { count ≡ length (chars text.now) }
    ensures { IfOk result (λ wide. MatchOption wide (IsAscii (chars text.now)) (λ v. (v.value.items ≡ chars text.now)
        × ¬ IsAscii (chars text.now))) }
{
    if text.len() == count {
        return Ok(None);
    }
    Ok(Some(Box::new(alloc, by_place(alloc, text, count)?)?))
}

/// The characters by place.
fn by_place(alloc: Global, text: &str, count: usize) -> Result<Vec<char>, Memory>
    ensures { IfOk result (λ v. v.items ≡ chars text.now) }
{
    let mut letters = Vec::with_capacity(alloc, count)?;
    for letter in text.chars() {
        letters.push(letter)?;
    }
    Ok(letters)
}

/// The character at a place of an ASCII text.
#[inline(always)]
pub fn ascii_at(text: &str, place: usize) -> Option<char>
    requires { IsAscii text.now }
    ensures { result ≡ slice_get text.now place }
{
    let bytes = text.as_bytes();
    if place < bytes.len() {
        return Some(bytes[place] as char);
    }
    None
}

/// The characters of an ASCII text from one place up to another.
#[inline(always)]
pub fn ascii_slice(text: &str, from: usize, to: usize) -> &str
    requires ascii { IsAscii text.now }
    requires order { from ≤ to }
    requires within { to ≤ length text.now }
    ensures { result.now ≡ slice_range text.now from to }
{
    &text[from..to]
}

impl PartialEq for Text {
    ghost use Rattle.std.specs.Prelude.{encode_utf8_all};
    ghost use Rattle.std.specs.Cmp.{on_per, partial_equiv_from_equiv};
    ghost use Rattle.std.specs.Cmp.Lexicographic.{nat_list_eq_equiv};
    ghost use Rattle.rp_base.specs.Same.{same_text};

    ghost eq = { same_text };

    ghost laws = { on_per encode_utf8_all (partial_equiv_from_equiv nat_list_eq_equiv) };

    fn eq(&self, other: &Text) -> bool {
        self.as_str() == other.as_str()
    }
}

impl Eq for Text {
    ghost use Rattle.std.specs.Prelude.{encode_utf8_all};
    ghost use Rattle.std.specs.Cmp.{on_equiv};
    ghost use Rattle.std.specs.Cmp.Lexicographic.{nat_list_eq_equiv};

    ghost laws = { on_equiv encode_utf8_all nat_list_eq_equiv };
}

impl PartialOrd for Text {
    ghost use Rattle.std.specs.Prelude.{encode_utf8_all, Some};
    ghost use Rattle.std.specs.Ordering.{nat_cmp};
    ghost use Rattle.std.specs.Cmp.{on_po};
    ghost use Rattle.std.specs.Cmp.Lexicographic.{slice_cmp, texts_po};

    ghost partial_cmp = { λ x y. Some (slice_cmp nat_cmp (encode_utf8_all x) (encode_utf8_all y)) };

    ghost laws = { on_po encode_utf8_all texts_po };

    fn partial_cmp(&self, other: &Text) -> Option<Ordering> {
        Some(self.cmp(other))
    }
}

impl Ord for Text {
    ghost use Rattle.std.specs.Prelude.{encode_utf8_all, refl};
    ghost use Rattle.std.specs.Ordering.{nat_cmp};
    ghost use Rattle.std.specs.Cmp.{on_total};
    ghost use Rattle.std.specs.Cmp.Lexicographic.{slice_cmp, nat_list_cmp_total, texts_ties};

    ghost cmp = { λ x y. slice_cmp nat_cmp (encode_utf8_all x) (encode_utf8_all y) };

    ghost total = { on_total encode_utf8_all nat_list_cmp_total };

    ghost matches_partial_cmp = { λ x y. refl };

    ghost matches_eq = { λ x y. texts_ties (encode_utf8_all x) (encode_utf8_all y) };

    fn cmp(&self, other: &Text) -> Ordering {
        self.as_str().cmp(other.as_str())
    }
}

impl Hash for Text {
    ghost use Rattle.std.specs.Prelude.{encode_utf8_all};
    ghost use Rattle.std.specs.Hash as fed;
    ghost use Rattle.std.specs.Cmp.Rules.{hashing};
    ghost use Rattle.std.proofs.Common.{rules};

    ghost hash_input = { λ x. fed.str (encode_utf8_all x) };

    ghost respects_eq = { Prim.search (hashing, rules) };

    fn hash<H: Hasher>(&self, state: &mut H) {
        self.as_str().hash(state);
    }
}

/// A growing text, seen as the list of its characters.
#[derive(Drop)]
pub struct Printed {
    text: String,
}

impl Model for Printed {
    ghost use Rattle.std.specs.Prelude.{ℕ, List, chars, string_bytes};

    ghost Value = { List ℕ };

    ghost view = { λ t. chars (string_bytes t.text) };
}

impl Printed {
    /// The empty text, which takes no memory yet.
    pub fn new(alloc: Global) -> Printed
        ensures { result ≡ [] }
    {
        Printed {
            text: String::new(alloc),
        }
    }

    /// Appends the characters. It is refused only for want of memory, and then the text is as before.
    pub fn add(&mut self, text: &str) -> Result<(), Memory>
        ensures added { OnOk result (self.new ≡ self.old ++ chars text.now) }
        ensures same { OnErr result (self.new ≡ self.old) }
    {
        self.text.push_str(text)?;
        Ok(())
    }

    /// All characters so far.
    pub fn as_str(&self) -> &str
        ensures { chars result.now ≡ self.now }
    {
        self.text.as_str()
    }
}

/// Appends an ASCII text, whose characters are its bytes. It is refused only for want of memory.
pub fn add_ascii(text: &mut Printed, piece: &str) -> Result<(), Memory>
    requires { list_all is_ascii piece.now ≡ true }
    ensures { OnOk result (text.new ≡ text.old ++ piece.now) }
{
    text.add(piece)
}
