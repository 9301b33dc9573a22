//! The text that grows while a tree is printed.

ghost use Rattle.std.specs.Prelude.{◌≡◌, [], chars, codes, decimal, string_bytes, suc, IfOk, IsTrue, OnOk};
ghost use Rattle.std.specs.Char.{is_ascii};
ghost use Rattle.std.specs.List.{list_all};
ghost use Rattle.rp_base.specs.Names.{word_of};
ghost use Rattle.rp_show.specs.Shown.{quoted, shown_inside};
ghost use Rattle.std.specs.Fmt.{signed_decimal};
ghost use Rattle.rp_print.specs.PageSteps.{gap, written};
ghost use Rattle.rp_print.specs.Texts.{indentation};

use itoa::Buffer;
use rp_base::{Memory, Name, Names, Rock, Text, word_of};
use rp_show::shown_inside;
use std::alloc::Global;
use std::marker::Model;

/// A growing text, seen as the list of its characters.
#[derive(Drop)]
pub(crate) struct Page {
    alloc: Global,
    text: String,
}

impl Model for Page {
    ghost use Rattle.std.specs.Prelude.{ℕ, List, chars, string_bytes};

    ghost Value = { List ℕ };

    ghost view = { λ p. chars (string_bytes p.text) };
}

impl Page {
    pub(crate) fn new(alloc: Global) -> Page
        ensures { result ≡ [] }
    {
        Page {
            alloc,
            text: String::new(alloc),
        }
    }

    /// The text, handed on.
    pub(crate) fn into_string(self) -> String
        ensures { chars (string_bytes result) ≡ self }
    {
        self.text
    }

    /// Puts a text behind.
    pub(crate) fn add(&mut self, text: &str) -> Result<(), Memory>
        ensures { OnOk result (self.new ≡ written self.old (chars text.now)) }
    {
        self.text.push_str(text)?;
        Ok(())
    }

    /// Puts marks or keywords behind.
    pub(crate) fn mark(&mut self, mark: &str) -> Result<(), Memory>
        requires { IsTrue (list_all is_ascii mark.now) }
        ensures { OnOk result (self.new ≡ written self.old mark.now) }
    {
        self.add(mark)
    }

    /// Puts a separator behind, but nothing before the first part.
    #[tactic(auto, using(crate::proofs::Pages::gaps))]
    pub(crate) fn separate(&mut self, separator: &str, first: bool) -> Result<(), Memory>
        requires { IsTrue (list_all is_ascii separator.now) }
        ensures { OnOk result (self.new ≡ written self.old (gap separator.now first)) }
    {
        if first {
            return Ok(());
        }
        self.mark(separator)
    }

    /// Puts an operator behind, with a space on each side.
    pub(crate) fn between(&mut self, mark: &str) -> Result<(), Memory>
        requires { IsTrue (list_all is_ascii mark.now) }
        ensures { OnOk result (self.new ≡ written (written (written self.old (codes " ")) mark.now) (codes " ")) }
    {
        self.mark(" ")?;
        self.mark(mark)?;
        self.mark(" ")
    }

    /// Puts the digits of a count behind.
    pub(crate) fn count(&mut self, count: usize) -> Result<(), Memory>
        ensures { OnOk result (self.new ≡ written self.old (decimal count)) }
    {
        self.add(Buffer::new().format(count))
    }

    /// Puts the word of a name behind.
    pub(crate) fn name(&mut self, names: &Names, name: Name) -> Result<(), Memory>
        ensures { OnOk result (self.new ≡ written self.old (word_of names.now name)) }
    {
        self.add(word_of(names, name))
    }

    /// Puts an integer behind.
    pub(crate) fn integer(&mut self, value: i64) -> Result<(), Memory>
        ensures { OnOk result (self.new ≡ written self.old (signed_decimal value)) }
    {
        self.rock(&Rock::Int(value))
    }

    /// Puts a text in quotes behind.
    pub(crate) fn literal(&mut self, text: &Text) -> Result<(), Memory>
        ensures { OnOk result (self.new ≡ written self.old (quoted text.now)) }
    {
        self.rock(&Rock::Text(text.copy()?))
    }

    fn rock(&mut self, rock: &Rock) -> Result<(), Memory>
        ensures { OnOk result (self.new ≡ written self.old (shown_inside rock.now)) }
    {
        let shown = shown_inside(self.alloc, rock)?;
        self.add(shown.as_str())
    }

    /// One block further within than so many. Room is made for part of the spaces that a line there begins with: so many
    /// blocks are then no more than a text has bytes, and one more can be counted.
    ///
    /// # Errors
    /// `Memory` where a growth was refused.
    pub(crate) fn deeper(&mut self, depth: usize) -> Result<usize, Memory>
        ensures deeper { IfOk result (λ inner. inner ≡ suc depth) }
        ensures same { OnOk result (self.new ≡ self.old) }
    {
        self.text.reserve(depth)?;
        let inner = depth + 1;
        Ok(inner)
    }

    /// Begins a line within so many blocks.
    #[tactic(auto, using(crate::proofs::Pages::indented, crate::proofs::Pages::indentation_none))]
    pub(crate) fn indent(&mut self, depth: usize) -> Result<(), Memory>
        ensures { OnOk result (self.new ≡ written self.old (indentation depth)) }
    {
        let mut left = depth;
        'spaces: while left > 0 {
            self.mark("    ")?;
            left -= 1;
        }
        Ok(())
    }
}
