//! Runs of several scripts, with options: turns, limits and the trail.

use crate::module_tests::FILLING;
use crate::program_answers::{AMPLE, status_of, told};
use rp_base::{MemFiles, MemSink, Memory, Text};
use rp_tests_cases::{FOLDER_FILE, Question, all_answer, part};
use std::alloc::Global;
use std::test::Fail;

/// What the program says to the words of the first part, where `one.py`, `two.py` and `three.py` hold the parts behind
/// it, and `title.toml` declares a folder.
enum Several {
    /// The folder of the other tests.
    Folder,
    /// A folder with a module, a list, and a field that everybody may read and set.
    Boxes,
}

impl Question for Several {
    fn answer(&self, alloc: Global, parts: &[String]) -> Result<String, Fail> {
        let declarations = match self {
            Several::Folder => FOLDER_FILE,
            Several::Boxes => FILLING,
        };
        said_to(alloc, part(parts, 0), declarations, parts)
    }
}

/// What is said to a line.
pub fn said_to(
    alloc: Global,
    line: &str,
    declarations: &str,
    parts: &[String],
) -> Result<String, Fail> {
    let mut files = MemFiles::new(files(alloc, declarations, parts)?, AMPLE, Vec::new(alloc));
    let mut out = MemSink::new(alloc, AMPLE, AMPLE, Vec::new(alloc))?;
    let status = status_of(alloc, line, &mut files, &mut out)?;
    told(alloc, &out, status)
}

/// The declarations, and the scripts.
fn files(
    alloc: Global,
    declarations: &str,
    parts: &[String],
) -> Result<Vec<(Text, Vec<u8>)>, Memory> {
    let mut list = Vec::new(alloc);
    add_file(alloc, &mut list, "title.toml", declarations)?;
    add_file(alloc, &mut list, "one.py", part(parts, 1))?;
    add_file(alloc, &mut list, "two.py", part(parts, 2))?;
    add_file(alloc, &mut list, "three.py", part(parts, 3))?;
    Ok(list)
}

/// Adds a file.
pub fn add_file(
    alloc: Global,
    list: &mut Vec<(Text, Vec<u8>)>,
    path: &str,
    text: &str,
) -> Result<(), Memory> {
    let bytes = Vec::from_slice(alloc, text.as_bytes())?;
    list.push((Text::new(alloc, path)?, bytes))?;
    Ok(())
}

const TURNS: &str =
    r#"run title.toml bob:one.py eve:two.py --turns 1,1,2,2,1 => xs = [1]~root.box = xs~print(xs) => y\
    s = root.box~ys.append(2) => session 1 bob~[1]~end ok~session 2 eve~end ForbiddenAttribute: append~1
run title.toml bob:one.py eve:two.py --turns 2,1 => xs = [1]~root.box = xs~print(xs) => ys = root.box~ys.append(2) => \
    session 1 bob~[1]~end ok~session 2 eve~end AttributeError: box~1
run title.toml bob:one.py eve:two.py => xs = [1]~root.box = xs~print(xs) => print(root.box) => session 1 bob~[1]~end o\
    k~session 2 eve~[1]~end ok~0
run title.toml bob:one.py eve:two.py --turns 1,2,1 => root.box = 1~root.box = 2 => print(root.box) => session 1 bob~en\
    d ok~session 2 eve~1~end ok~0
run title.toml bob:one.py eve:two.py --turns 1,1,1,1,2 => root.box = 1~root.box = 2 => print(root.box) => session 1 bo\
    b~end ok~session 2 eve~2~end ok~0
run title.toml bob:one.py bob:two.py => x = 1~print(x) => print(x) => session 1 bob~1~end ok~session 2 bob~end NameErr\
    or: x~1
run title.toml bob:one.py bob:one.py => print(root.title) => session 1 bob~Home~end ok~session 2 bob~Home~end ok~0
run title.toml bob:one.py kim:two.py bob+eve:three.py => print(root.title) => print(root.title) => print(root.title) =\
    > session 1 bob~Home~end ok~session 2 kim~end Unauthorized: zope.View~session 3 bob+eve~end Unauthorized: zope.Vie\
    w~1
run title.toml bob:one.py eve:two.py =>  =>  => session 1 bob~end ok~session 2 eve~end ok~0"#;

const LIMITS: &str =
    r#"run title.toml bob:one.py --steps 6 => print(1 + 2) => session 1 bob~3~end ok~0
run title.toml bob:one.py --steps 5 => print(1 + 2) => session 1 bob~end stopped steps~5
run title.toml bob:one.py --steps 0 => print(1 + 2) => session 1 bob~end stopped steps~5
run title.toml bob:one.py --cells 11 => xs = range(10) => session 1 bob~end ok~0
run title.toml bob:one.py --cells 10 => xs = range(10) => session 1 bob~end stopped cells~5
run title.toml bob:one.py bob:two.py --steps 6 => print(1 + 2) => print(1 + 2) => session 1 bob~3~end ok~session 2 bob\
    ~3~end ok~0
run title.toml bob:one.py bob:two.py --cells 22 => xs = range(10) => xs = range(10) => session 1 bob~end ok~session 2 \
    bob~end ok~0
run title.toml bob:one.py bob:two.py --cells 21 => xs = range(10) => xs = range(10) => session 1 bob~end ok~session 2 \
    bob~end stopped cells~5
run title.toml bob:one.py bob:two.py --cells 21 --turns 2 => xs = range(10) => xs = range(10) => session 1 bob~end sto\
    pped cells~session 2 bob~end ok~5
run title.toml bob:one.py bob:two.py --steps 50 => print(q) => while True: pass => session 1 bob~end NameError: q~sess\
    ion 2 bob~end stopped steps~5
run title.toml bob:one.py bob:two.py --steps 50 => while True: pass => print(q) => session 1 bob~end stopped steps~ses\
    sion 2 bob~end NameError: q~5
run title.toml bob:one.py bob:two.py --steps 50 => while True: pass => print(2) => session 1 bob~end stopped steps~ses\
    sion 2 bob~2~end ok~5
run title.toml bob:one.py --steps 50 => try:~    while True: pass~except:~    print(1) => session 1 bob~\
    end stopped steps~5"#;

const TRAILS: &str =
    r#"run title.toml bob:one.py --trail => print(root.title) => session 1 bob~Home~end ok~trail 1~1 \
    1 bob allow get Folder.title zope.View~0
run title.toml eve:one.py --trail => print(root.title) => session 1 eve~end Unauthorized: zope.View~trail 1~1 1 eve de\
    ny get Folder.title zope.View~1
run title.toml bob:one.py --trail => print(root.secret) => session 1 bob~end ForbiddenAttribute: secret~trail 1~1 1 bo\
    b forbid get Folder.secret~1
run title.toml bob:one.py --trail => root.title = 1 => session 1 bob~end Unauthorized: zope.Manage~trail 1~1 1 bob den\
    y set Folder.title zope.Manage~1
run title.toml bob:one.py --trail => print(1) => session 1 bob~1~end ok~trail 0~0
run title.toml bob+eve:one.py --trail => print(root.title) => session 1 bob+eve~end Unauthorized: zope.View~trail 1~1 \
    1 bob+eve deny get Folder.title zope.View~1
run title.toml --trail bob:one.py eve:two.py --turns 2,1 => print(root.size) => print(root.title) => session 1 bob~3~e\
    nd ok~session 2 eve~end Unauthorized: zope.View~trail 2~1 2 eve deny get Folder.title zope.View~2 1 bob allow get \
    Folder.size zope.Public~1
run title.toml bob:one.py eve:two.py --trail => print(root.size, root.size) => print(root.size) => session 1 bob~3 3~e\
    nd ok~session 2 eve~3~end ok~trail 3~1 1 bob allow get Folder.size zope.Public~2 1 bob allow get Folder.size zope.\
    Public~3 2 eve allow get Folder.size zope.Public~0
run title.toml bob:one.py --trail => try:~    root.title = 1~except Unauthorized:~    print(2) => session 1 bob~2~\
    end ok~trail 1~1 1 bob deny set Folder.title zope.Manage~0
run title.toml bob:one.py --trail => print(getattr(root, 'secret', 5))~getattr(root, '_x', 5) => session 1 bob~5~\
    end ForbiddenAttribute: _x~trail 1~1 1 bob forbid get Folder.secret~1"#;

const BOX_TRAILS: &str =
    r#"run title.toml bob:one.py eve:two.py --trail --turns 1,1,2,2,1 => xs = [1]~root.box = xs~p\
    rint(xs) => ys = root.box~ys.append(2) => session 1 bob~[1]~end ok~session 2 eve~end ForbiddenAttribute: append~tr\
    ail 3~1 1 bob allow set Folder.box zope.Public~2 2 eve allow get Folder.box zope.Public~3 2 eve forbid get list.ap\
    pend~1
run title.toml eve:one.py --trail => print(root.items[1]) => session 1 eve~2~end ok~trail 2~1 1 eve allow get Folder.i\
    tems zope.Public~2 1 eve allow get list.__getitem__ zope.Public~0"#;

/// Functions of one script that another one calls: they run as code of their own side, for whom the session runs.
const CALLS: &str =
    r#"run title.toml bob:one.py eve:two.py --trail => root.box = lambda x: x * 2 => print(root.box(4)) \
    => session 1 bob~end ok~session 2 eve~8~end ok~trail 3~1 1 bob allow set Folder.box zope.Public~2 2 eve allow get \
    Folder.box zope.Public~3 2 eve allow get function.__call__ zope.Public~0
run title.toml bob:one.py eve:two.py => root.box = lambda: root.title => print(root.box()) \
    => session 1 bob~end ok~session 2 eve~end Unauthorized: zope.View~1
run title.toml bob:one.py eve:two.py => root.box = lambda xs: xs.append(1) => ys = []~root.box(ys) \
    => session 1 bob~end ok~session 2 eve~end ForbiddenAttribute: append~1
run title.toml bob:one.py eve:two.py => xs = [1]~root.box = lambda: xs => ys = root.box()~print(ys[0])~ys.append(2) \
    => session 1 bob~end ok~session 2 eve~1~end ForbiddenAttribute: append~1
run title.toml bob:one.py eve:two.py => n = 5~def say():~    print(n)~root.box = say => n = 6~root.box() \
    => session 1 bob~end ok~session 2 eve~5~end ok~0"#;

/// Every step before the sessions refuses for all scripts, in order.
const REFUSED: &str =
    r#"run title.toml bob:one.py bob:two.py => x = = 1 => exec(y) => script 1: line 1: syntax~script\
     2: line 1: call of "exec" is forbidden~4
run title.toml bob:one.py bob:two.py => print(1) => x = (1, => script 2: line 1: not closed~4
run title.toml bob:one.py bob:two.py bob:three.py => x = root._secret~y = 1~exec(y) => print(1) => x = 1.5 => script 1\
    : line 1: attribute "_secret" is forbidden~script 1: line 3: call of "exec" is forbidden~script 3: line 1: bad num\
    ber~4
run title.toml bob:one.py dave:two.py => x = = 1 => print(1) => principal: dave~3
run title.toml bob:one.py eve+carl:two.py dave:three.py => print(1) => print(1) => principal: carl~3
run title.toml bob:one.py bob:two.py --steps 0 => x = = 1 => print(1) => script 1: line 1: syntax~4"#;

#[test]
fn takes_the_listed_turns_and_then_goes_on_to_the_ends(rt: HostRuntime) -> Result<(), Fail> {
    all_answer(rt.alloc(), &Several::Boxes, TURNS)
}

#[test]
fn stops_sessions_at_the_limits_of_the_words(rt: HostRuntime) -> Result<(), Fail> {
    all_answer(rt.alloc(), &Several::Folder, LIMITS)
}

#[test]
fn writes_the_trail_behind_the_sessions(rt: HostRuntime) -> Result<(), Fail> {
    all_answer(rt.alloc(), &Several::Folder, TRAILS)?;
    all_answer(rt.alloc(), &Several::Boxes, BOX_TRAILS)
}

#[test]
fn calls_functions_of_other_scripts(rt: HostRuntime) -> Result<(), Fail> {
    all_answer(rt.alloc(), &Several::Boxes, CALLS)
}

#[test]
fn says_which_scripts_of_a_run_are_refused(rt: HostRuntime) -> Result<(), Fail> {
    all_answer(rt.alloc(), &Several::Folder, REFUSED)
}
