//! The words of a line: session, operation, class and permission.

ghost use Rattle.std.specs.Prelude.{◌≡◌, ◌<◌, ◌++◌, ◌∷◌, IfOk, OnOk, chars, codes, length, string_bytes, unwrap_or};
ghost use Rattle.std.specs.Fmt.{decimal};
ghost use Rattle.rp_decl.specs.Places.{IsHeld};
ghost use Rattle.rp_decl.specs.View.{name_text, perm_text};
ghost use Rattle.rp_trail.specs.Line.{reason};
ghost use Rattle.rp_trail.specs.View.{IsClassHeld, IsRowDeclared, IsToldHeld, class_text, op_name, op_word};
ghost use Rattle.rp_trail.specs.View.{row_permission, told_name};

use crate::entry::Entry;
use rp_base::{ClassTag, Memory, Name, Names, Op};
use rp_decl::{Decl, PUBLIC, Perm, Row};
use std::alloc::Global;

/// The number of an entry, that of its session, and who it is of.
pub fn front(alloc: Global, number: usize, session: u32, who: &str) -> Result<String, Memory>
    ensures { IfOk result (λ line. chars (string_bytes line)
        ≡ (decimal number ++ 32 ∷ decimal session) ++ 32 ∷ chars who.now) }
{
    Ok(format!(in alloc; "{number} {session} {who}")?)
}

/// Adds the word for a verdict, the operation, and the class and the name that it was asked of.
pub fn add_operation(
    line: &mut String,
    verdict: &str,
    entry: &Entry,
    names: &Names,
) -> Result<(), Memory>
    requires class { IsClassHeld names.now entry.now.class }
    requires name { IsToldHeld names.now entry.now.named (op_name entry.now.op) }
    ensures { OnOk result (chars (string_bytes line.new)
        ≡ chars (string_bytes line.old) ++
        (32 ∷ chars verdict.now ++ 32 ∷ op_word entry.now.op ++ 32 ∷ class_text names.now entry.now.class ++ 46
        ∷ told_name names.now entry.now.named (op_name entry.now.op))) }
{
    add_word(line, verdict)?;
    add_word(line, word_of(entry.op))?;
    add_word(line, class_text(entry.class, names))?;
    add(line, ".")?;
    add(line, told_name(entry.named, name_of(entry.op), names))
}

/// Adds a blank and a word.
pub fn add_word(line: &mut String, word: &str) -> Result<(), Memory>
    ensures { OnOk result (chars (string_bytes line.new) ≡ chars (string_bytes line.old) ++ 32 ∷ chars word.now) }
{
    add(line, " ")?;
    add(line, word)
}

/// Adds a text.
pub fn add(line: &mut String, text: &str) -> Result<(), Memory>
    ensures { OnOk result (chars (string_bytes line.new) ≡ chars (string_bytes line.old) ++ chars text.now) }
{
    line.push_str(text)?;
    Ok(())
}

/// `get` or `set`.
#[tactic(auto, using(crate::proofs::Literals::literals))]
fn word_of(op: Op) -> &'static str
    ensures { chars result.now ≡ op_word op }
{
    match op {
        Op::Get(_) => "get",
        Op::Set(_) => "set",
    }
}

/// The name that is read or set.
fn name_of(op: Op) -> Name
    ensures { result ≡ op_name op }
{
    match op {
        Op::Get(name) | Op::Set(name) => name,
    }
}

/// The text of a name, empty where it is none of the program's.
fn told_name(named: bool, name: Name, names: &Names) -> &str
    requires { IsToldHeld names.now named name }
    ensures { chars result.now ≡ told_name names.now named name }
{
    if named { name_text(name, names) } else { "" }
}

/// The text of a name.
fn name_text(name: Name, names: &Names) -> &str
    requires { IsHeld names.now name }
    ensures { chars result.now ≡ name_text names.now name }
{
    names.text(name)
}

/// The word for a class.
#[tactic(auto, using(crate::proofs::Literals::literals))]
fn class_text<'a>(class: ClassTag, names: &'a Names) -> &'a str
    requires { IsClassHeld names.now class }
    ensures { chars result.now ≡ class_text names.now class }
{
    match class {
        ClassTag::List => "list",
        ClassTag::Tuple => "tuple",
        ClassTag::Dict => "dict",
        ClassTag::Function => "function",
        ClassTag::Method => "method",
        ClassTag::Class => "class",
        ClassTag::Declared(name) => name_text(name, names),
        ClassTag::Other => "instance",
    }
}

/// The id of a permission.
pub fn permission_text(permission: Perm, decl: &Decl) -> &str
    requires { permission.0 < length decl.now.permissions }
    ensures { chars result.now ≡ perm_text decl.now.permissions permission }
{
    decl.permissions()[permission.0].as_str()
}

/// Why a row lets an operation pass: the permission that it has, or `default`.
#[tactic(auto, using(crate::proofs::Literals::literals))]
pub fn reason(row: Row, decl: &Decl) -> &str
    requires { IsRowDeclared decl.now.permissions row }
    ensures { chars result.now ≡ reason (row_permission decl.now.permissions row) }
{
    match row {
        Row::Public => PUBLIC,
        Row::Needs(permission) => permission_text(permission, decl),
        Row::Default | Row::Forbidden => "default",
    }
}
