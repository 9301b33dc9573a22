//! The pieces of an f-literal's text.

ghost use Rattle.std.specs.Prelude.{◌≡◌, ◌<◌, ◌+◌, ◌++◌, ◌∷◌, [], ℕ, List, IfOk, OnOk, chars, length, map};
ghost use Rattle.std.specs.Prelude.{string_bytes};
ghost use Rattle.std.specs.Option.{option_map};
ghost use Rattle.rp_more.specs.Pieces.{part, pieces_from, pieces_of};
ghost use Rattle.rp_more.specs.PieceSteps.{LeavesLess, front_seen, part_behind, piece_seen, with_run};

use crate::letters::{Run, is_brace, is_part};
use rp_base::{Memory, Text};
use rp_token::text::{behind, first};
use std::alloc::Global;
use std::mem::replace;

/// A piece of an f-literal's text.
#[derive(Drop)]
pub(crate) enum Piece<'t> {
    /// Characters that stand for themselves.
    Run(Text),
    /// What stands between braces.
    Part(&'t str),
}

/// What stands at the front of a text, and what stands behind it.
#[derive(Drop)]
enum Front<'t> {
    /// A character, by itself or by two braces.
    Letter(char, &'t str),
    /// What stands between braces.
    Part(&'t str, &'t str),
    /// A brace that is none of these.
    Wrong,
}

/// The pieces so far, and the characters behind them.
#[derive(Drop)]
struct Reader<'t> {
    alloc: Global,
    whole: Vec<Piece<'t>>,
    run: String,
}

impl<'t> Reader<'t> {
    /// The run ends, where it has characters.
    fn end_run(&mut self) -> Result<(), Memory>
        ensures pieces { OnOk result (map piece_seen self.new.whole.items ≡ map piece_seen self.old.whole.items
            ++ with_run (chars (string_bytes self.old.run)) []) }
        ensures run { OnOk result (chars (string_bytes self.new.run) ≡ []) }
    {
        if self.run.as_str().is_empty() {
            return Ok(());
        }
        let run = replace(&mut self.run, String::new(self.alloc));
        self.whole
            .push(Piece::Run(Text::from_string(self.alloc, run)?))?;
        Ok(())
    }

    /// The run ends, and a part comes.
    fn add_part(&mut self, inside: &'t str) -> Result<(), Memory>
        ensures pieces { OnOk result (map piece_seen self.new.whole.items ≡ map piece_seen self.old.whole.items
            ++ with_run (chars (string_bytes self.old.run)) (part (chars inside.now) ∷ [])) }
        ensures run { OnOk result (chars (string_bytes self.new.run) ≡ []) }
    {
        self.end_run()?;
        self.whole.push(Piece::Part(inside))?;
        Ok(())
    }
}

/// The pieces of a text: runs of characters, and what stands between braces (PEP 498). `None` where a brace is single.
///
/// # Errors
/// `Memory` where a growth was refused.
pub(crate) fn read_pieces(alloc: Global, text: &str) -> Result<Option<Vec<Piece<'_>>>, Memory>
    ensures { IfOk result (λ found. option_map (λ v. map piece_seen v.items) found ≡ pieces_of (chars text.now)) }
{
    let mut pieces = Reader {
        alloc,
        whole: Vec::new(alloc),
        run: String::new(alloc),
    };
    let mut rest = text;
    'fronts: while !rest.is_empty() {
        match front_of(rest) {
            Front::Letter(letter, next) => {
                pieces.run.push(letter)?;
                rest = next;
            }
            Front::Part(inside, next) => {
                pieces.add_part(inside)?;
                rest = next;
            }
            Front::Wrong => return Ok(None),
        }
    }
    pieces.end_run()?;
    Ok(Some(pieces.whole))
}

fn front_of(text: &str) -> Front<'_>
    requires { 0 < length text.now }
    ensures front { pieces_from 0 (chars text.now) ≡ front_seen result }
    ensures rest { LeavesLess (length (chars text.now)) result }
{
    let letter = first(text);
    let rest = behind(text);
    if is_brace(letter) && first(rest) == letter {
        return Front::Letter(letter, behind(rest));
    }
    if letter == '{' {
        return part_of(rest);
    }
    if letter == '}' {
        return Front::Wrong;
    }
    Front::Letter(letter, rest)
}

/// What stands before the next `}`.
fn part_of(text: &str) -> Front<'_>
    ensures front { part_behind (chars text.now) ≡ front_seen result }
    ensures rest { LeavesLess (length (chars text.now) + 1) result }
{
    let (inside, rest) = Run::Enclosed.split(text);
    if is_part(inside) && first(rest) == '}' {
        return Front::Part(inside, behind(rest));
    }
    Front::Wrong
}
