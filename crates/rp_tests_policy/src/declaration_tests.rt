//! Declaration files: what they declare, and why they are refused.

use crate::declaration_answers::{Cause, Word, line_of};
use crate::record_texts::shown;
use rp_tests_cases::{ROLES_FILE, all_answer, is_told};
use std::test::Fail;

/// A text of the file, another in its place, and the cause that is told.
const VERSIONS: &str = r#"version = 1 => version = 3 => version
version = 1 => version = 0 => version
version = 1 => version = -1 => version
version = 1 => version = "1" => version
version = 1 => version = 1.0 => version
version = 1~ =>  => version"#;

const SHAPES: &str = r#"version = 1 => version = 1~limits = 3 => shape limits
version = 1 => version = 1~groups = {} => shape groups
permissions = [ => permissions = [1,  => shape permissions
"zope.Manage"] => "a+b"] => shape permissions
expose = ["root"] => expose = "root" => shape expose
expose = ["root"] => expose = ["if"] => shape expose
expose = [ => module = 1~expose = [ => shape module
[class.Folder] => [class.list]~[class.Folder] => shape class.list
[class.Folder] => [class.while]~[class.Folder] => shape class.while
[class.Folder] => [class.Folder]~call = {} => shape class.Folder.call
[class.Folder] => [class.Folder]~like = 1 => shape class.Folder.like
size = "zope.Public" => size = 1 => shape class.Folder.get.size
size = "zope.Public" => size = "a b" => shape class.Folder.get.size
size = "zope.Public" => size = "" => shape class.Folder.get.size
size = "zope => class = "zope => shape class.Folder.get.class
size = "zope => 2size = "zope => shape class.Folder.get.2size
set = { => set = ["title"] # { => shape class.Folder.set
allow = [ => allow = [1,  => shape principal.bob.allow
allow = ["zope.View"] => allow = "zope.View" => shape principal.bob.allow
[principal.eve] => [principal.""] => shape principal.
[principal.eve] => [principal."e v e"] => shape principal.e v e
[principal.eve] => [principal]~eve = 1 => shape principal.eve
[principal.eve] => [principal.eve]~roles = [] => shape principal.eve.roles
[principal.eve] => [role.r]~[principal.eve] => shape role"#;

const OBJECT_SHAPES: &str =
    r#"[object.root] => [object.Folder]~class = "Folder"~[object.root] => shape object.Folder
[object.root] => [object.None]~class = "Folder"~[object.root] => shape object.None
class = "Folder" => class = "Folder"~owner = 1 => shape object.root.owner
class = "Folder"~ =>  => shape object.root.class
class = "Folder" => class = 1 => shape object.root.class
size = 3 => size = 1.5 => shape object.root.fields.size
size = 3 => size = 1979-05-27 => shape object.root.fields.size
size = 3 => size = [1, [2.5]] => shape object.root.fields.size
size = 3 => size = [{ a = 2.5 }] => shape object.root.fields.size.a
size = 3 => size = { b = 1.5, a = [1.5] } => shape object.root.fields.size.a
secret => None => shape object.root.fields.None"#;

/// Names that are no form NFKC.
const OTHER_FORMS: &str = "secret => \"\u{fb01}\" => shape object.root.fields.\u{fb01}
secret => \"e\u{301}\" => shape object.root.fields.e\u{301}";

const NAMED: &str = r#"size = "zope.Public" => size = "zope.Other" => permission zope.Other
size = "zope.Public" => size = "zope.public" => permission zope.public
title = "zope.Manage" => title = "x" => permission x
allow = [ => allow = ["x",  => permission x
allow = [ => deny = ["x",  => permission x
[principal.eve] => [group.g]~allow = ["x"]~[principal.eve] => permission x
[principal.eve] => [group.g]~deny = ["x"]~[principal.eve] => permission x
permissions = ["zope.View", "zope.Manage"]~ =>  => permission zope.Manage
[class.Folder] => [class.Folder]~like = "list" => class list
[class.Folder] => [class.Folder]~like = "Other" => class Other
[class.Folder] => [class.Folder]~like = "Folder" => class Folder
[class.Folder] => [class.B]~like = "C"~[class.C]~like = "B"~[class.Folder] => class B
[class.Folder] => [class.A]~like = "B"~[class.B]~like = "C"~[class.C]~like = "B"~[class.Folder] => class B
class = "Folder" => class = "Other" => class Other
class = "Folder" => class = "list" => class list
[principal.eve] => [principal.eve]~groups = ["x"] => group x
[principal.eve] => [group.y]~[principal.eve]~groups = ["y", "x", "w"] => group w
[principal.bob] => [principal.bob]~groups = ["bob"] => group bob
[class.Folder] => [class.Folder]~like = "root" => class root"#;

/// Changes of the file with roles.
const ROLES: &str = r#"version = 2 => version = 1 => shape principal.eve.roles
roles = ["reader"] => roles = ["writer"] => role writer
[role.reader] => [group.g]~roles = ["writer"]~[role.reader] => role writer
[role.reader] => [role.reader]~allow = [] => shape role.reader.allow
[role.reader] => [role."a b"] => shape role.a b
[role.reader]~permissions = [ => [role.reader]~permissions = ["x",  => permission x
[role.reader]~permissions = [ => [role.reader]~permissions = [1,  => shape role.reader.permissions"#;

/// Files with several faults: the causes have an order, and of each the least is told.
const SEVERAL: &str = r#"version = 3~z = 1 => version
version = 1~z = 1~a = 1 => shape a
version = 1~a = 1~Z = 1 => shape Z
version = 1~class.C.get.x = "p"~zz = 1 => shape zz
version = 1~class.C.get.x = "c"~principal.p.allow = ["b", "a"]~object.o.class = "A" => permission a
version = 1~principal.p.groups = ["a"]~object.o.class = "Z" => class Z
version = 1~class.B.like = "B"~object.o.class = "A" => class A
version = 2~principal.p.groups = ["z"]~principal.p.roles = ["a"] => group z"#;

const DEPTHS: &str = r#"64 => ok
65 => shape object.root.fields.size"#;

/// What the last of a thousand classes is like.
const CHAINS: &str = r#"End => ok
C0 => class C0
C998 => class C998
None => shape class.C999.like
Nil => class Nil"#;

#[test]
fn the_version_is_asked_first(rt: HostRuntime) -> Result<(), Fail> {
    all_answer(rt.alloc(), &Cause::Where, VERSIONS)
}

#[test]
fn a_bad_shape_is_told_by_its_path(rt: HostRuntime) -> Result<(), Fail> {
    all_answer(rt.alloc(), &Cause::Where, SHAPES)?;
    all_answer(rt.alloc(), &Cause::Where, OBJECT_SHAPES)?;
    all_answer(rt.alloc(), &Cause::Where, OTHER_FORMS)
}

#[test]
fn what_is_named_has_to_be_declared(rt: HostRuntime) -> Result<(), Fail> {
    all_answer(rt.alloc(), &Cause::Where, NAMED)
}

#[test]
fn roles_stand_in_files_of_version_2(rt: HostRuntime) -> Result<(), Fail> {
    all_answer(rt.alloc(), &Cause::WhereRoles, ROLES)
}

#[test]
fn of_several_faults_one_is_told(rt: HostRuntime) -> Result<(), Fail> {
    all_answer(rt.alloc(), &Cause::Of, SEVERAL)
}

#[test]
fn a_value_is_at_most_64_deep(rt: HostRuntime) -> Result<(), Fail> {
    all_answer(rt.alloc(), &Cause::OfNested, DEPTHS)
}

#[test]
fn a_chain_of_classes_ends(rt: HostRuntime) -> Result<(), Fail> {
    all_answer(rt.alloc(), &Cause::OfChain, CHAINS)
}

#[test]
fn what_is_no_toml_is_told_apart(rt: HostRuntime) -> Result<(), Fail> {
    let table: [&[u8]; 4] = [
        b"x =",
        b"version = 1\nversion = 1",
        b"\xff",
        b"version = 1 # \xc3\x28",
    ];
    for bytes in table {
        let line = line_of(rt.alloc(), bytes)?;
        is_told(
            rt.alloc(),
            "no TOML",
            line.as_str(),
            "declarations: not TOML\n",
        )?;
    }
    Ok(())
}

const RECORDS: &str = "permissions zope.Manage zope.Public zope.View
expose root
module 
class Folder
get size=zope.Public title=zope.View
set title=zope.Manage
reader zope.View
principal bob
allow zope.View
deny
principal eve role 0
allow
deny
object root of Folder: secret='k' size=3 title='Home'
";

#[test]
fn a_file_gives_its_records(rt: HostRuntime) -> Result<(), Fail> {
    let records = shown(rt.alloc(), ROLES_FILE.as_bytes())?;
    is_told(rt.alloc(), "the file with roles", records.as_str(), RECORDS)
}

#[test]
fn an_empty_file_gives_no_records(rt: HostRuntime) -> Result<(), Fail> {
    let records = shown(rt.alloc(), b"version = 1")?;
    let wanted = "permissions zope.Public\nexpose\nmodule \n";
    is_told(rt.alloc(), "a file of a version", records.as_str(), wanted)
}

/// A file with parts of all kinds.
const ALL_PARTS: &str = "version = 2
permissions = [\"b\", \"zope.Public\", \"a\", \"b\"]
expose = [\"z\", \"f\", \"z\"]
module = 'x = 1'
group.k.allow = [\"b\", \"a\", \"b\"]
group.g = { deny = [\"a\"], roles = [\"s\", \"r\"] }
role.s.permissions = [\"b\"]
role.r = {}
principal.p = { groups = [\"k\", \"g\"], roles = [\"s\"], deny = [\"zope.Public\"] }
class.D = { like = \"C\" }
class.C.get = { \"gr\u{f6}\u{df}e\" = \"a\" }
object.o.class = \"D\"
object.o.fields = { t = true, n = -9223372036854775808, l = [1, [2]], d = { b = 1, a = \"\" }, e = \"\" }
";

const ALL_RECORDS: &str = "permissions a b zope.Public
expose z f z
module x = 1
class C
get gr\u{f6}\u{df}e=a
set
class D like C
get
set
r
s b
group g of 2 roles
allow
deny a
group k of 0 roles
allow b a b
deny
principal p group 1 group 0 role 1
allow
deny zope.Public
object o of D: d=table of 2 e='' l=list of 2 n=-9223372036854775808 t=true
";

#[test]
fn all_parts_are_read_and_sorted(rt: HostRuntime) -> Result<(), Fail> {
    let records = shown(rt.alloc(), ALL_PARTS.as_bytes())?;
    is_told(rt.alloc(), "all parts", records.as_str(), ALL_RECORDS)
}

/// A word, how often it is said, and what that may be.
const WORDS: &str = "title => 1 => name, id
_ => 1 => name, id
Zz09 => 1 => name, id
None => 1 => id
nonlocal => 1 => id
none => 1 => name, id
9 => 1 => id
.-_ => 1 => id
 => 1 => neither
a b => 1 => neither
na\u{ef}ve => 1 => name
nai\u{308}ve => 1 => neither
\u{fb01} => 1 => neither
\u{540d}\u{524d} => 1 => name
\u{b2} => 1 => neither";

#[test]
fn names_are_identifiers_and_ids_may_have_more(rt: HostRuntime) -> Result<(), Fail> {
    all_answer(rt.alloc(), &Word, WORDS)
}

const LONG_WORDS: &str = "k => 255 => name, id
k => 256 => neither
\u{e9} => 127 => name
\u{e9} => 128 => neither";

#[test]
fn a_word_has_at_most_255_bytes(rt: HostRuntime) -> Result<(), Fail> {
    all_answer(rt.alloc(), &Word, LONG_WORDS)
}
