//! The row of a class of a declaration file for a name, in words.

ghost use Rattle.std.specs.Prelude.{ℕ, Bool, List};
ghost use Rattle.rp_trail.specs.View.{IsToldHeld, op_name};

use crate::chains::chain_file;
use crate::declaration_answers::read;
use rp_base::{ClassTag, Memory, Name, Names, Op, identifier};
use rp_checker::Checkers;
use rp_decl::{Decl, Row};
use rp_tests_cases::{Question, after_word, first_word, part, seed};
use std::alloc::{AllocError, Global};
use std::test::Fail;

const SHOP: &str = "version = 2
permissions = ['zope.View', 'zope.Edit', 'zope.Manage']

[class.Base]
get = { title = 'zope.View', owner = 'zope.Manage', price = 'zope.Public' }
set = { title = 'zope.Edit', price = 'zope.Public' }

[class.Folder]
like = 'Base'
get = { owner = 'zope.Public', size = 'zope.View', __len__ = 'zope.Edit' }
set = { size = 'zope.Manage', title = 'zope.Manage' }

[class.Shop]
like = 'Folder'
get = { __str__ = 'zope.Manage' }

[class.Plain]
";

/// The name of a word that is an identifier.
pub fn name_of(alloc: Global, names: &mut Names, word: &str) -> Result<Option<Name>, Memory> {
    match identifier(alloc, word)? {
        Some(form) => Ok(Some(names.intern(form.as_str())?)),
        None => Ok(None),
    }
}

/// The class of a word, a declared one of the name where it names no other.
pub fn tag_of(class: &str, name: Name) -> ClassTag {
    match class {
        "list" => ClassTag::List,
        "tuple" => ClassTag::Tuple,
        "dict" => ClassTag::Dict,
        "function" => ClassTag::Function,
        "method" => ClassTag::Method,
        "class" => ClassTag::Class,
        "other" | "instance" => ClassTag::Other,
        _ => ClassTag::Declared(name),
    }
}

/// The operation of a word on a name.
pub fn op_of(kind: &str, name: Name) -> Op
    ensures { (names : List (List ℕ)) (named : Bool) → IsToldHeld names named name
        → IsToldHeld names named (op_name result) }
{
    if kind == "get" {
        Op::Get(name)
    } else {
        Op::Set(name)
    }
}

/// The row in words.
fn row_text(alloc: Global, decl: &Decl, row: Row) -> Result<String, AllocError> {
    let word = match row {
        Row::Public => "public",
        Row::Default => "default",
        Row::Forbidden => "forbidden",
        Row::Needs(permission) => match decl.permissions().get(permission.0) {
            Some(id) => id.as_str(),
            None => "no permission",
        },
    };
    String::from_str(alloc, word)
}

/// The class of a word, and the operation that two words tell, as `get title`, where they name something.
fn asked_of(
    alloc: Global,
    names: &mut Names,
    class: &str,
    what: &str,
) -> Result<Option<(ClassTag, Op)>, Memory> {
    let Some(class_name) = name_of(alloc, names, class)? else {
        return Ok(None);
    };
    let Some(name) = name_of(alloc, names, after_word(what))? else {
        return Ok(None);
    };
    let op = op_of(first_word(what), name);
    Ok(Some((tag_of(class, class_name), op)))
}

/// The row of a class for an operation, in words.
fn row_of(alloc: Global, decl: &Decl, class: ClassTag, op: Op) -> Result<String, Memory> {
    let checkers = Checkers::new(alloc, decl)?;
    Ok(row_text(alloc, decl, checkers.row(class, op))?)
}

/// The same in a file.
fn row_over(
    alloc: Global,
    text: &str,
    names: &mut Names,
    class: ClassTag,
    op: Op,
) -> Result<String, Memory> {
    match read(alloc, text.as_bytes(), names) {
        Ok(decl) => row_of(alloc, &decl, class, op),
        Err(_) => Ok(String::from_str(alloc, "refused")?),
    }
}

/// The same of the words of a class and an operation.
fn row_asked(
    alloc: Global,
    text: &str,
    names: &mut Names,
    class: &str,
    what: &str,
) -> Result<String, Memory> {
    match asked_of(alloc, names, class, what)? {
        Some((class, op)) => row_over(alloc, text, names, class, op),
        None => Ok(String::from_str(alloc, "no name")?),
    }
}

/// What a file asks of whoever reads (`get`) or sets a name, as `get title`, of an object of a class.
fn row_in_file(alloc: Global, text: &str, class: &str, what: &str) -> Result<String, Memory> {
    let mut names = Names::new(alloc, seed())?;
    row_asked(alloc, text, &mut names, class, what)
}

/// The row in the file of a shop, of the class that is the first part, for what the second part says.
pub struct RowInShop;

impl Question for RowInShop {
    fn answer(&self, alloc: Global, parts: &[String]) -> Result<String, Fail> {
        Ok(row_in_file(alloc, SHOP, part(parts, 0), part(parts, 1))?)
    }
}

/// The same in a file of a thousand classes, each like the next, of which the last lets `title` be read.
pub struct RowInChain;

impl Question for RowInChain {
    fn answer(&self, alloc: Global, parts: &[String]) -> Result<String, Fail> {
        Ok(row_in_chain(alloc, part(parts, 0), part(parts, 1))?)
    }
}

fn row_in_chain(alloc: Global, class: &str, what: &str) -> Result<String, Memory> {
    let text = chain_file(alloc, 999, "End")?;
    row_in_file(alloc, text.as_str(), class, what)
}
