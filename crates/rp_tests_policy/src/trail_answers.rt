//! What entries of the trail cost, and their lines.

ghost use Rattle.std.specs.Prelude.{◌↔◌, IsTrue};
ghost use Rattle.std.specs.Bool.{OnTrue};
ghost use Rattle.rp_decl.specs.Places.{IsHeld};
ghost use Rattle.rp_trail.specs.View.{IsClassHeld, IsToldHeld, IsVerdictDeclared};

use crate::checker_answers::{name_of, op_of, tag_of};
use crate::declaration_answers::read;
use rp_base::{ClassTag, Memory, Name, Names, Op};
use rp_decl::{Decl, Perm, Row};
use rp_store::{Store, StoreFault};
use rp_tests_cases::{Question, after_word, first_word, number, part, seed};
use rp_trail::{Entry, Trail, Verdict};
use std::alloc::Global;
use std::test::Fail;

/// Its permissions are, in byte order, `zope.Manage`, `zope.Public` and `zope.View`.
const DECLARATIONS: &str = "version = 1
permissions = [\"zope.View\", \"zope.Manage\"]
";

/// A forbidden reading of the name at a place.
fn reading(place: usize) -> Entry {
    Entry {
        session: 1,
        named: true,
        op: Op::Get(Name(place)),
        class: ClassTag::List,
        verdict: Verdict::Forbidden,
    }
}

/// What comes of so many entries in a store of so many cells; `changed` where the entries are not those that were
/// pushed.
pub fn pushed(alloc: Global, limit: u64, count: usize) -> Result<String, Fail> {
    let mut store = Store::new(alloc, limit, seed());
    let mut trail = Trail::new(alloc);
    let mut told = String::new(alloc);
    if trail.is_empty() {
        told.push_str("empty; ")?;
    }
    for place in 0..count {
        match trail.push(&mut store, reading(place)) {
            Ok(()) => (),
            Err(StoreFault::Cells) => told.push_str("no cell, ")?,
            Err(StoreFault::Memory) => told.push_str("no memory, ")?,
        }
        let used = store.used();
        let entries = trail.len();
        write!(told, "{used} used, {entries} entries; ")?;
    }
    for (place, entry) in trail.entries().iter().enumerate() {
        if *entry != reading(place) {
            told.push_str("changed")?;
        }
    }
    Ok(told)
}

fn is_held(names: &Names, name: Name) -> bool
    ensures { IsTrue result ↔ IsHeld names.now name }
{
    name.0 < names.len()
}

/// Whether an entry has the word of a name.
fn is_told(names: &Names, name: Name) -> bool
    ensures { IsToldHeld names.now result name }
{
    if is_held(names, name) {
        return true;
    }
    false
}

fn is_class_held(names: &Names, class: ClassTag) -> bool
    ensures { OnTrue result (IsClassHeld names.now class) }
{
    match class {
        ClassTag::Declared(name) => is_held(names, name),
        _ => true,
    }
}

fn is_declared(decl: &Decl, verdict: Verdict) -> bool
    ensures { OnTrue result (IsVerdictDeclared decl.now.permissions verdict) }
{
    match verdict {
        Verdict::Allowed(Row::Needs(permission)) => permission.0 < decl.permissions().len(),
        Verdict::Denied(permission) => permission.0 < decl.permissions().len(),
        _ => true,
    }
}

fn verdict_of(words: &str) -> Verdict {
    match words {
        "public" => Verdict::Allowed(Row::Public),
        "default" => Verdict::Allowed(Row::Default),
        "needs 2" => Verdict::Allowed(Row::Needs(Perm(2))),
        "denied 0" => Verdict::Denied(Perm(0)),
        _ => Verdict::Forbidden,
    }
}

/// The class and the name in a text as `Folder.title`, where both are identifiers; `-` stands for a name that is none of
/// the program's.
fn named(alloc: Global, names: &mut Names, text: &str) -> Result<Option<(ClassTag, Name)>, Memory> {
    let (class, word) = text.split_once('.').unwrap_or((text, ""));
    let Some(class_name) = name_of(alloc, names, class)? else {
        return Ok(None);
    };
    if word == "-" {
        return Ok(Some((tag_of(class, class_name), Name(names.len()))));
    }
    let Some(name) = name_of(alloc, names, word)? else {
        return Ok(None);
    };
    Ok(Some((tag_of(class, class_name), name)))
}

/// What is done to a name of an object of a class.
#[derive(Clone, Copy)]
struct Deed<'a> {
    kind: &'a str,
    class: ClassTag,
    name: Name,
}

/// The line of an entry of session 3, of bob, at a place.
fn line_of(
    alloc: Global,
    i: usize,
    deed: Deed<'_>,
    verdict: Verdict,
    decl: &Decl,
    names: &Names,
) -> Result<String, Fail> {
    let Deed { kind, class, name } = deed;
    if i == usize::MAX || !is_class_held(names, class) || !is_declared(decl, verdict) {
        return Ok(String::from_str(alloc, "not held")?);
    }
    let entry = Entry {
        session: 3,
        named: is_told(names, name),
        op: op_of(kind, name),
        class,
        verdict,
    };
    Ok(Trail::line(alloc, i, "bob", &entry, decl, names)?)
}

/// The line of an entry at the place that is the first part, where what the second part says was done, as `get
/// Folder.title`, with the verdict that is the third.
pub struct Line;

impl Question for Line {
    fn answer(&self, alloc: Global, parts: &[String]) -> Result<String, Fail> {
        let place = number(parts, 0) as usize;
        told(alloc, place, part(parts, 1), part(parts, 2))
    }
}

fn told(alloc: Global, i: usize, what: &str, verdict: &str) -> Result<String, Fail> {
    let mut names = Names::new(alloc, seed())?;
    told_with(alloc, i, what, verdict_of(verdict), &mut names)
}

/// The same, with the names that the declarations are read into.
fn told_with(
    alloc: Global,
    i: usize,
    what: &str,
    verdict: Verdict,
    names: &mut Names,
) -> Result<String, Fail> {
    match read(alloc, DECLARATIONS.as_bytes(), names) {
        Ok(decl) => told_over(alloc, i, what, verdict, &decl, names),
        Err(_) => Ok(String::from_str(alloc, "no declarations")?),
    }
}

fn told_over(
    alloc: Global,
    i: usize,
    what: &str,
    verdict: Verdict,
    decl: &Decl,
    names: &mut Names,
) -> Result<String, Fail> {
    match named(alloc, names, after_word(what))? {
        Some((class, name)) => {
            let kind = first_word(what);
            line_of(alloc, i, Deed { kind, class, name }, verdict, decl, names)
        }
        None => Ok(String::from_str(alloc, "no name")?),
    }
}
