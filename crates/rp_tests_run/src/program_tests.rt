//! The program: what it says to words and files, with the status behind it.

use crate::program_answers::{GROUPS, PRINT_TITLE, RUN, Said, is_said, said_over};
use rp_tests_cases::{FOLDER_FILE, ROLES_FILE, all_answer};
use std::test::Fail;

/// The words, the script, and what is said.
const SESSIONS: &str =
    r#"run title.toml bob:s.py => print(root.title) => session 1 bob~Home~end ok~0
run title.toml eve:s.py => print(root.title) => session 1 eve~end Unauthorized: zope.View~1
run title.toml bob:s.py => print(root.secret) => session 1 bob~end ForbiddenAttribute: secret~1
run title.toml bob:s.py => print(q) => session 1 bob~end NameError: q~1
run title.toml bob:s.py => x = root~print(x.size)~x = 5~print(x) => session 1 bob~3~5~end ok~0
run title.toml bob:s.py =>  => session 1 bob~end ok~0
run title.toml bob+eve:s.py => print(root.title) => session 1 bob+eve~end Unauthorized: zope.View~1
run title.toml bob+bob:s.py => print(root.title) => session 1 bob+bob~Home~end ok~0
run title.toml dave:s.py => print(1) => principal: dave~3"#;

const PERMISSIONS: &str =
    r#"may title.toml bob+eve zope.View =>  => bob yes principal~eve no none~may no~1
may title.toml bob zope.View =>  => bob yes principal~may yes~0
may title.toml eve zope.Public =>  => eve yes public~may yes~0
may title.toml bob zope.Edit =>  => permission: zope.Edit~3
may title.toml dave zope.View =>  => principal: dave~3
may title.toml bob+dave+carl zope.Edit =>  => principal: dave~3"#;

/// A text of the declarations, another in its place, and what is said.
const ROLES_REFUSED: &str =
    r#"version = 2 => version = 1 => declarations: shape principal.eve.roles~3
["reader"] => ["writer"] => declarations: role writer~3
permissions = ["zope.View"] => permissions = ["x"] => declarations: permission x~3
version = 2 => version = 3 => declarations: version~3"#;

const DECLARATIONS_REFUSED: &str = r#"version = 1 => x = => declarations: not TOML~3
size = 3 => size = 1.5 => declarations: shape object.root.fields.size~3
, "zope.Manage"] => ] => declarations: permission zope.Manage~3
[principal.bob] => [class.B]~like = "C"~[class.C]~like = "B"~[principal.bob] => declarations: class B~3
[principal.eve] => [principal.eve]~groups = ["x"] => declarations: group x~3
["root"] => ["rot"] => declarations: expose rot~3
version = 1 => version = 1~module = "1 // 0" => declarations: module ended ZeroDivisionError: zero~3
version = 1 => version = 1~module = "x =" => declarations: module line 1: syntax~3
version = 1 => version = 1~module = "x = (" => declarations: module line 1: not closed~3
version = 1 => version = 1~module = "raise ValueError" => declarations: module ended ValueError~3
version = 1 => version = 1~module = "while 1: pass" => declarations: module stopped steps~3
version = 1 => version = 1~module = "x = range(1000000)" => declarations: module stopped cells~3
version = 1 => version = 1~module = "del root" => declarations: expose root~3
version = 1 => version = 3 => declarations: version~3"#;

const EXPOSED_TWICE: &str =
    r#"["root"] => ["root", "root"]~module = "x = 1" => session 1 eve~end Unauthorized: zope.View~1
["root"] => ["x", "root", "x", "root"]~module = "x = 1" => session 1 eve~end Unauthorized: zope.View~1"#;

const SCRIPTS_REFUSED: &str =
    r#"if True:~    x = 1~  y = 2 => script 1: line 3: dedent to no open column~4
x = (1, => script 1: line 1: not closed~4
x = 1.5 => script 1: line 1: bad number~4
x = 9223372036854775808 => script 1: line 1: bad number~4
x = 'a\q' => script 1: line 1: bad escape~4
x = 1 ? 2 => script 1: line 1: bad character~4
x = = 1 => script 1: line 1: syntax~4
def f():~    x = = 1~y = 1 => script 1: line 2: syntax~4
print(root._title) => script 1: line 1: attribute "_title" is forbidden~4
exec(x)~print = 1 => script 1: line 1: call of "exec" is forbidden~script 1: line 2: name "print" is reserved~4
x = root._secret~y = 1~exec(y) => script 1: line 1: attribute "_secret" is forbidden~\
    script 1: line 3: call of "exec" is forbidden~4
print(f'{}') => script 1: line 1: format~4"#;

const LARGE: &str =
    r#"large 1 =>  => large 1~bytes 177 25~steps 9~cells 3~entries 1~session 1 p~0~end ok~0
large 3 =>  => large 3~bytes 281 45~steps 15~cells 5~entries 3~session 1 p~3~end ok~0
large 010 =>  => large 10~bytes 645 115~steps 36~cells 13~entries 10~session 1 p~45~end ok~0
large 42 =>  => large 42~bytes 2405 467~steps 132~cells 46~entries 42~session 1 p~861~end ok~0"#;

const LARGER: &str =
    r#"large 1000 =>  => large 1000~bytes 57795 11905~steps 3006~cells 1007~entries 1000~\
    session 1 p~499500~end ok~0"#;

const NO_RUN: &str = r#" => usage
run title.toml => usage
run title.toml bob => usage
run title.toml bob: => usage
run title.toml :s.py => usage
run title.toml böb:s.py => usage
run --steps bob:s.py => usage
run title.toml -b:s.py => usage
Run title.toml bob:s.py => usage
run title.toml bob+:s.py => usage
run title.toml +bob:s.py => usage
run title.toml bob++eve:s.py => usage"#;

const NO_MAY: &str = r#"may title.toml bob => usage
may --at bob zope.View => usage
may title.toml -bob zope.View => usage
may title.toml bob+ zope.View => usage
may title.toml bob:s.py zope.View => usage
may title.toml bob -zope.View => usage
may title.toml bob zope/View => usage
May title.toml bob zope.View => usage
may title.toml bob zope.View x => usage
large 0 => usage
check => usage
check -s => usage
check s.py t.py => usage
Check s.py => usage"#;

#[test]
fn says_what_a_session_says(rt: HostRuntime) -> Result<(), Fail> {
    all_answer(rt.alloc(), &Said::To, SESSIONS)
}

#[test]
fn says_which_principals_have_a_permission(rt: HostRuntime) -> Result<(), Fail> {
    all_answer(rt.alloc(), &Said::To, PERMISSIONS)
}

#[test]
fn says_what_the_large_input_takes(rt: HostRuntime) -> Result<(), Fail> {
    all_answer(rt.alloc(), &Said::To, LARGE)
}

#[test]
fn says_what_a_thousand_objects_take(rt: HostRuntime) -> Result<(), Fail> {
    all_answer(rt.alloc(), &Said::To, LARGER)
}

#[test]
fn says_why_roles_are_refused(rt: HostRuntime) -> Result<(), Fail> {
    all_answer(rt.alloc(), &Said::WhereRoles, ROLES_REFUSED)
}

#[test]
fn says_why_declarations_are_refused(rt: HostRuntime) -> Result<(), Fail> {
    all_answer(rt.alloc(), &Said::Where, DECLARATIONS_REFUSED)
}

#[test]
fn says_what_is_exposed_twice(rt: HostRuntime) -> Result<(), Fail> {
    all_answer(rt.alloc(), &Said::Where, EXPOSED_TWICE)
}

#[test]
fn says_why_a_script_is_refused(rt: HostRuntime) -> Result<(), Fail> {
    all_answer(rt.alloc(), &Said::Of, SCRIPTS_REFUSED)
}

#[test]
fn says_the_usage_where_the_words_give_no_command(rt: HostRuntime) -> Result<(), Fail> {
    all_answer(rt.alloc(), &Said::Usage, NO_RUN)?;
    all_answer(rt.alloc(), &Said::Usage, NO_MAY)
}

/// Scripts in whatever spacing.
const SPACING: &str = "\u{feff}print ( root . title ) => session 1 bob~Home~end ok~0
# the title\r~\r~\u{ff58}=root\r~print(x.title) # here => session 1 bob~Home~end ok~0
x = 9223372036854775807~print(~  root.title~)~ => session 1 bob~Home~end ok~0
x = (root); print((x.title),) => session 1 bob~Home~end ok~0
\u{ff58} = 1~print(x) => session 1 bob~1~end ok~0";

#[test]
fn runs_a_script_in_whatever_spacing(rt: HostRuntime) -> Result<(), Fail> {
    all_answer(rt.alloc(), &Said::Of, SPACING)
}

const KIM: &str = "may title.toml kim zope.View";

#[test]
fn says_that_a_denial_of_ones_own_comes_first(rt: HostRuntime) -> Result<(), Fail> {
    let undenied = GROUPS.replace(rt.alloc(), "deny = [\"zope.View\"]", "")?;
    is_said(rt.alloc(), KIM, GROUPS, b"", "kim no principal\nmay no\n1")?;
    is_said(
        rt.alloc(),
        KIM,
        undenied.as_str(),
        b"",
        "kim yes group staff\nmay yes\n0",
    )
}

#[test]
fn takes_roles_of_version_2(rt: HostRuntime) -> Result<(), Fail> {
    let (may, run) = ("may title.toml eve zope.View", "run title.toml eve:s.py");
    is_said(
        rt.alloc(),
        may,
        ROLES_FILE,
        b"",
        "eve yes role reader\nmay yes\n0",
    )?;
    is_said(
        rt.alloc(),
        run,
        ROLES_FILE,
        PRINT_TITLE,
        "session 1 eve\nHome\nend ok\n0",
    )
}

const BOB: &str = "may title.toml bob zope.View";

#[test]
fn tells_permissions_of_declarations_that_have_no_world(rt: HostRuntime) -> Result<(), Fail> {
    for (from, to) in [
        ("version = 1", "version = 1\nmodule = \"1 // 0\""),
        ("[\"root\"]", "[\"rot\"]"),
    ] {
        let changed = FOLDER_FILE.replace(rt.alloc(), from, to)?;
        is_said(
            rt.alloc(),
            BOB,
            changed.as_str(),
            b"",
            "bob yes principal\nmay yes\n0",
        )?;
    }
    Ok(())
}

#[test]
fn refuses_in_the_order_of_the_steps(rt: HostRuntime) -> Result<(), Fail> {
    let line = "run title.toml dave:s.py";
    is_said(
        rt.alloc(),
        line,
        "x =\n",
        b"x\xFF",
        "declarations: not TOML\n3",
    )?;
    is_said(
        rt.alloc(),
        line,
        FOLDER_FILE,
        b"x\xFF",
        "principal: dave\n3",
    )?;
    is_said(
        rt.alloc(),
        RUN,
        FOLDER_FILE,
        b"x\xFF",
        "script 1: byte 1: not UTF-8\n4",
    )?;
    let wanted = "script 1: line 2: tab in indentation\n4";
    is_said(rt.alloc(), RUN, FOLDER_FILE, b"x = 1\n\ty = 2", wanted)
}

/// A line has 2,000 bytes, and reading the title and printing it are 2,001 cells.
#[test]
fn stops_a_session_where_no_cell_is_left(rt: HostRuntime) -> Result<(), Fail> {
    let title = "a".repeat(rt.alloc(), 1999)?;
    let changed = FOLDER_FILE.replace(rt.alloc(), "Home", title.as_str())?;
    let script = "print(root.title)\n".repeat(rt.alloc(), 600)?;
    let said = said_over(rt.alloc(), RUN, changed.as_str(), script.as_bytes())?;
    assert_eq!(rt; said.len(), 14 + 499 * 2_000 + 18 + 1);
    assert!(rt; said.as_str().ends_with("a\nend stopped cells\n5"));
    Ok(())
}

#[test]
fn says_that_brackets_are_too_deep(rt: HostRuntime) -> Result<(), Fail> {
    let script = vec![in rt.alloc(); b'('; 201]?;
    let wanted = "script 1: line 1: brackets too deep\n4";
    is_said(rt.alloc(), RUN, FOLDER_FILE, script.as_slice(), wanted)
}
