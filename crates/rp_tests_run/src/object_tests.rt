//! Runs over declared objects: what scripts read and print of them, and what that costs.

use crate::several_tests::said_to;
use rp_tests_cases::{Question, all_answer, part};
use std::alloc::Global;
use std::test::Fail;

const DECLARATIONS: &str = r#"version = 1
permissions = ["demo.View", "demo.Secret"]
expose = ["root", "mute", "Folder"]
[class.Folder]
get = { title = "demo.View", size = "zope.Public", hint = "zope.Public", low = "zope.Public", word = "zope.Public" }
set = { note = "demo.View" }
[class.Mute]
get = { __str__ = "demo.Secret" }
[principal.bob]
allow = ["demo.View"]
[principal.carl]
allow = ["demo.View", "demo.Secret"]
[principal.eve]
[object.root]
class = "Folder"
fields = { title = "Home", size = -3, note = "later", key = "k", low = -9223372036854775808, word = "größe 'x'" }
[object.mute]
class = "Mute"
"#;

/// What the program says to the words of the first part, where `one.py` holds the second, over these objects.
struct OverObjects;

impl Question for OverObjects {
    fn answer(&self, alloc: Global, parts: &[String]) -> Result<String, Fail> {
        said_to(alloc, part(parts, 0), DECLARATIONS, parts)
    }
}

const ATTRIBUTES: &str = r#"run title.toml bob+carl:one.py --trail => print(root.title) \
    => session 1 bob+carl~Home~end ok~trail 1~1 1 bob+carl allow get Folder.title demo.View~0
run title.toml bob+eve:one.py --trail => print(root.title) \
    => session 1 bob+eve~end Unauthorized: demo.View~trail 1~1 1 bob+eve deny get Folder.title demo.View~1
run title.toml eve:one.py --trail => print(root.size) \
    => session 1 eve~-3~end ok~trail 1~1 1 eve allow get Folder.size zope.Public~0
run title.toml bob:one.py --trail => print(root.key) \
    => session 1 bob~end ForbiddenAttribute: key~trail 1~1 1 bob forbid get Folder.key~1
run title.toml bob:one.py --trail => print(root.note) \
    => session 1 bob~end ForbiddenAttribute: note~trail 1~1 1 bob forbid get Folder.note~1
run title.toml bob:one.py --trail => print(root.hint) \
    => session 1 bob~end AttributeError: hint~trail 1~1 1 bob allow get Folder.hint zope.Public~1
run title.toml eve:one.py --trail => x = 1~x = root.title~print(x) \
    => session 1 eve~end Unauthorized: demo.View~trail 1~1 1 eve deny get Folder.title demo.View~1"#;

const STATEMENTS: &str =
    r#"run title.toml bob:one.py => x = root.title~y = root.size~print(x)~print(y) \
    => session 1 bob~Home~-3~end ok~0
run title.toml bob:one.py => root = 5~print(root) => session 1 bob~5~end ok~0
run title.toml bob:one.py => root = 5~print(root.title) => session 1 bob~end AttributeError: title~1
run title.toml bob:one.py => x = 5~x = root~x = 6~print(x) => session 1 bob~6~end ok~0
run title.toml bob:one.py => x = nobody.title => session 1 bob~end NameError: nobody~1
run title.toml bob:one.py => print(Mute) => session 1 bob~end NameError: Mute~1
run title.toml bob:one.py => print(root.size)~print(nobody)~print(root.title) \
    => session 1 bob~-3~end NameError: nobody~1"#;

const VALUES: &str = r#"run title.toml bob:one.py --trail => print(root) \
    => session 1 bob~<Folder object>~end ok~trail 1~1 1 bob allow get Folder.__str__ default~0
run title.toml bob:one.py --trail => print(Folder) \
    => session 1 bob~<class 'Folder'>~end ok~trail 1~1 1 bob allow get class.__str__ default~0
run title.toml bob:one.py --trail => print(mute) \
    => session 1 bob~end Unauthorized: demo.Secret~trail 1~1 1 bob deny get Mute.__str__ demo.Secret~1
run title.toml bob:one.py => print(root.low) => session 1 bob~-9223372036854775808~end ok~0
run title.toml bob:one.py => print(root.word) => session 1 bob~größe 'x'~end ok~0"#;

/// A decision costs a cell, and each byte of what is printed.
const CELLS: &str = r#"run title.toml bob:one.py --cells 0 => x = root => session 1 bob~end ok~0
run title.toml bob:one.py --cells 0 => x = root.size => session 1 bob~end stopped cells~5
run title.toml bob:one.py --cells 1 => x = root.size => session 1 bob~end ok~0
run title.toml bob:one.py --cells 1 => print(5) => session 1 bob~end stopped cells~5
run title.toml bob:one.py --cells 2 => print(5) => session 1 bob~5~end ok~0
run title.toml bob:one.py --cells 5 --trail => print(root.title) \
    => session 1 bob~end stopped cells~trail 1~1 1 bob allow get Folder.title demo.View~5
run title.toml bob:one.py --cells 6 => print(root.title) => session 1 bob~Home~end ok~0
run title.toml bob:one.py --cells 12 => print(root.word) => session 1 bob~end stopped cells~5
run title.toml bob:one.py --cells 13 => print(root.word) => session 1 bob~größe 'x'~end ok~0"#;

#[test]
fn attributes_are_read_by_the_policy(rt: HostRuntime) -> Result<(), Fail> {
    all_answer(rt.alloc(), &OverObjects, ATTRIBUTES)
}

#[test]
fn statements_run_in_order(rt: HostRuntime) -> Result<(), Fail> {
    all_answer(rt.alloc(), &OverObjects, STATEMENTS)
}

#[test]
fn values_are_printed_as_their_text(rt: HostRuntime) -> Result<(), Fail> {
    all_answer(rt.alloc(), &OverObjects, VALUES)
}

#[test]
fn sessions_stop_where_no_cell_is_left(rt: HostRuntime) -> Result<(), Fail> {
    all_answer(rt.alloc(), &OverObjects, CELLS)
}
