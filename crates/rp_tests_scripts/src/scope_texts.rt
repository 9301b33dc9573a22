//! Where code blocks find names, as texts.

ghost use Rattle.std.specs.Prelude.{◌<◌, length};

use crate::answers::new_names;
use crate::cases::spelled_out;
use crate::compiled_texts::{module_places, script_places};
use rp_base::{Name, Names};
use rp_program::{ProgramFault, read_text};
use rp_scope::{Layouts, Place2, number, resolve};
use rp_tests_cases::is_told;
use rp_tree::Tree;
use std::alloc::{AllocError, Global};
use std::test::Fail;

/// What the text of a case is read as, before its code blocks are asked.
#[derive(Clone, Copy)]
pub enum Reading {
    /// A program, whose code blocks are numbered and then laid out.
    Program,
    /// A script, which is compiled.
    Script,
    /// A trusted module, whose local names are shown too.
    Module,
}

/// Asks each case. A case is a text, and behind `=>` the blocks that are asked with `; ` between them: a number, `: `,
/// and names with their places with `, ` between them; or why the text is refused.
///
/// # Errors
/// The first case that is answered otherwise, with its answer; a table with no case; and where memory was refused.
pub fn all_found(alloc: Global, reading: Reading, cases: &str) -> Result<(), Fail> {
    if cases.is_empty() {
        return Err(Fail::new("no case"));
    }
    for case in cases.lines() {
        is_found(alloc, reading, case)?;
    }
    Ok(())
}

fn is_found(alloc: Global, reading: Reading, case: &str) -> Result<(), Fail> {
    let (text, wanted) = case.split_once(" => ").unwrap_or((case, "a place"));
    let found = places(alloc, reading, spelled_out(alloc, text)?.as_str(), wanted)?;
    is_told(alloc, case, found.as_str(), wanted)
}

/// The places of the names that are asked, in the form of the question.
fn places(alloc: Global, reading: Reading, text: &str, asked: &str) -> Result<String, Fail> {
    match reading {
        Reading::Program => program_places(alloc, text, asked),
        Reading::Script => script_places(alloc, text, asked),
        Reading::Module => module_places(alloc, text, asked),
    }
}

fn program_places(alloc: Global, text: &str, asked: &str) -> Result<String, Fail> {
    let mut names = new_names(alloc)?;
    let mut tree = match read(alloc, text, &mut names) {
        Ok(tree) => tree,
        Err(_) => return Ok(String::from_str(alloc, "no program")?),
    };
    number(&mut tree);
    let layouts = resolve(alloc, &tree, &[])?;
    let mut out = String::new(alloc);
    show_blocks(&mut out, &layouts, &names, asked)?;
    Ok(out)
}

/// The tree of a program. It has no contract, so the proofs of the tests stay short.
fn read(alloc: Global, text: &str, names: &mut Names) -> Result<Tree, ProgramFault> {
    read_text(alloc, text, names)
}

/// The places that code blocks find, with `; ` between the blocks.
pub fn show_blocks(
    out: &mut String,
    layouts: &Layouts,
    names: &Names,
    asked: &str,
) -> Result<(), AllocError> {
    let mut is_first = true;
    for block in asked.split("; ") {
        if !is_first {
            out.push_str("; ")?;
        }
        show_block(out, layouts, names, block)?;
        is_first = false;
    }
    Ok(())
}

fn show_block(
    out: &mut String,
    layouts: &Layouts,
    names: &Names,
    asked: &str,
) -> Result<(), AllocError> {
    let (number, words) = asked.split_once(": ").unwrap_or((asked, ""));
    match number.parse::<usize>() {
        Ok(block) => show_words(out, layouts, names, block, words),
        Err(_) => out.push_str("no number"),
    }
}

fn show_words(
    out: &mut String,
    layouts: &Layouts,
    names: &Names,
    block: usize,
    asked: &str,
) -> Result<(), AllocError> {
    if block >= layouts.len() {
        return out.push_str("no block");
    }
    write!(out, "{block}:")?;
    let mut is_first = true;
    for part in asked.split(", ") {
        if is_first {
            out.push_str(" ")?;
        } else {
            out.push_str(", ")?;
        }
        show_word(out, layouts, names, block, part)?;
        is_first = false;
    }
    Ok(())
}

/// The word that stands before `=`, and its place.
fn show_word(
    out: &mut String,
    layouts: &Layouts,
    names: &Names,
    block: usize,
    asked: &str,
) -> Result<(), AllocError>
    requires { block < length layouts.now }
{
    let (word, _) = asked.split_once('=').unwrap_or((asked, ""));
    write!(out, "{word}=")?;
    match names.find(word) {
        Some(name) => show_place(out, layouts, block, name),
        None => out.push_str("unknown"),
    }
}

/// The place of a name; `misplaced` where it is to be a local name, and another stands there.
fn show_place(
    out: &mut String,
    layouts: &Layouts,
    block: usize,
    name: Name,
) -> Result<(), AllocError>
    requires { block < length layouts.now }
{
    match layouts.place(block, name) {
        Place2::Local(slot) => {
            if stands(layouts.locals(block), slot, name) {
                write!(out, "local {slot}")
            } else {
                out.push_str("misplaced")
            }
        }
        Place2::Outer(outwards, slot) => write!(out, "outer {outwards} {slot}"),
        Place2::Global => out.push_str("global"),
    }
}

fn stands(locals: &[Name], slot: usize, name: Name) -> bool {
    match locals.get(slot) {
        Some(local) => local.0 == name.0,
        None => false,
    }
}
