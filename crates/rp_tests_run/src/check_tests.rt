//! The command `check`: what it says of scripts, by the rules of tokens, of the grammar and of the policy of names.

use crate::program_answers::{Said, is_said};
use rp_tests_cases::{FOLDER_FILE, all_answer};
use std::alloc::Global;
use std::test::Fail;

const ACCEPTED: &str = r#"check s.py =>  => ok~0
check s.py => pass => ok~0
check s.py => x = o.a.b[0] => ok~0
check s.py => _ = 1; print(_) => ok~0
check s.py => x = print; y = printed.a; z = builtins => ok~0
check s.py => f(_x=1, eval=2, print=3) => ok~0
check s.py => x = eval; y = exec.a; (eval)[0](1) => ok~0
check s.py => o.print = 1; o.eval(2); o.breakpoint() => ok~0
check s.py => class A:~    def __init__(self):~        self.x = 1 => ok~0
check s.py => x += 1; x **= 2 => ok~0
check s.py => for a, (b, c) in o.items(): del o.a, b[c] => ok~0
check s.py => try:~    f(*x, **y)~except ValueError as e:~    raise~finally:~    pass => ok~0
check s.py => tb_frame = f_back = 1; print(co_code) => ok~0
check s.py => x = [i.a for i in r if i]; y = {k: v for k, v in d}; z = lambda a, *b, **c: a => ok~0
check s.py => ｘ = 1~print(x) => ok~0
check s.py => n = 3~print(f'a{n}b{{}}') => ok~0
check s.py => print((2 in {1, 2}), [x for x in {3, 3, 1}]) => ok~0
check s.py => x = print, printed, builtins, breakpoint => ok~0"#;

const FAULTS: &str = r#"check s.py => if x:~        y~    z => line 3: dedent to no open column~4
check s.py => x = 1~y = 2 ? 3 => line 2: bad character~4
check s.py => x = (1,~[2,~ => line 2: not closed~4
check s.py => x = 'a~y = 1 => line 1: not closed~4
check s.py => x = 1~y = 012 => line 2: bad number~4
check s.py => x = 1.5 => line 1: bad number~4
check s.py => x = 9223372036854775808 => line 1: bad number~4
check s.py => def f():~    x = = 1~y = 1 => line 2: syntax~4
check s.py => if True:~    x = 1~  y = 2 => line 3: dedent to no open column~4
check s.py => x = '\q' => line 1: bad escape~4
check s.py => x = 1~y = 2 +~z = 3 => line 2: syntax~4
check s.py => x = 1; break => line 1: syntax~4
check s.py => def f():~    x = 1~return x => line 3: syntax~4
check s.py => _x = ( => line 1: not closed~4
check s.py => _x = = 1 => line 1: syntax~4
check s.py => _x = 1~y = = 2 => line 2: syntax~4
check s.py => _x = 1~y = ? => line 2: bad character~4
check s.py => x = (1, => line 1: not closed~4
check s.py => x = 'a\q' => line 1: bad escape~4
check s.py => x = = 1 => line 1: syntax~4
check s.py => print(f'{}') => line 1: format~4
check s.py => x = 'a' f'b' => line 1: syntax~4
check s.py => x = {1} => line 1: syntax~4"#;

const OFFENCES: &str = r#"check s.py => del _x~for _i in r: pass~_y += 1 \
    => line 1: name "_x" is forbidden~line 2: name "_i" is forbidden~line 3: name "_y" is forbidden~4
check s.py => x = lambda _a: 1~def f(*_b, **_k): pass \
    => line 1: name "_a" is forbidden~line 2: name "_b" is forbidden~line 2: name "_k" is forbidden~4
check s.py => o.tb_frame; o.tb_next; o.f_builtins; o.f_code; o.f_globals; o.f_locals; o.f_trace \
    => line 1: attribute "tb_frame" is forbidden~line 1: attribute "tb_next" is forbidden~\
    line 1: attribute "f_builtins" is forbidden~line 1: attribute "f_code" is forbidden~\
    line 1: attribute "f_globals" is forbidden~line 1: attribute "f_locals" is forbidden~\
    line 1: attribute "f_trace" is forbidden~4
check s.py => o.co_code; o.gi_code; o.gi_yieldfrom; o.cr_await; o.cr_frame; o.cr_code; o.cr_origin \
    => line 1: attribute "co_code" is forbidden~line 1: attribute "gi_code" is forbidden~\
    line 1: attribute "gi_yieldfrom" is forbidden~line 1: attribute "cr_await" is forbidden~\
    line 1: attribute "cr_frame" is forbidden~line 1: attribute "cr_code" is forbidden~\
    line 1: attribute "cr_origin" is forbidden~4
check s.py => _ｘ = ａ__roles__~o.ｆ_back = 1 => line 1: name "_x" is forbidden~\
    line 1: name "a__roles__" is forbidden~line 2: attribute "f_back" is forbidden~4
check s.py => x = root._secret~y = 1~exec(y) \
    => line 1: attribute "_secret" is forbidden~line 3: call of "exec" is forbidden~4
check s.py => _x = 1 => line 1: name "_x" is forbidden~4
check s.py => x = __a + b__roles__ => line 1: name "__a" is forbidden~line 1: name "b__roles__" is forbidden~4
check s.py => x = o._a~y = o.a__roles__ => line 1: attribute "_a" is forbidden~\
    line 2: attribute "a__roles__" is forbidden~4
check s.py => x = o.__class__.__bases__[0] \
    => line 1: attribute "__class__" is forbidden~line 1: attribute "__bases__" is forbidden~4
check s.py => o.f_back = g.gi_frame => line 1: attribute "f_back" is forbidden~\
    line 1: attribute "gi_frame" is forbidden~4
check s.py => o._ = 1; x = o._._b => line 1: attribute "_b" is forbidden~4
check s.py => print = 1~del printed => line 1: name "print" is reserved~line 2: name "printed" is reserved~4
check s.py => def builtins(print, *breakpoint): pass \
    => line 1: name "builtins" is reserved~line 1: name "print" is reserved~line 1: name "breakpoint" is reserved~4
check s.py => for print in r: pass~try: pass~except E as printed: pass~builtins += 1 \
    => line 1: name "print" is reserved~line 3: name "printed" is reserved~line 4: name "builtins" is reserved~4
check s.py => class breakpoint: pass~def f(): global print~x, [printed] = lambda builtins: 1 \
    => line 1: name "breakpoint" is reserved~line 2: name "print" is reserved~line 3: name "printed" is reserved~\
    line 3: name "builtins" is reserved~4
check s.py => x = {_k: _v for _k, print in d.items()} => line 1: name "_k" is forbidden~line 1: name "_v" is forbidden~\
    line 1: name "_k" is forbidden~line 1: name "print" is reserved~4
check s.py => x.ａ＿＿roles＿＿ = ｅｖａｌ(x) \
    => line 1: attribute "a__roles__" is forbidden~line 1: call of "eval" is forbidden~4
check s.py => eval(exec(1)) => line 1: call of "eval" is forbidden~line 1: call of "exec" is forbidden~4
check s.py => (ｅxec)(x)~o.eval(eval) => line 1: call of "exec" is forbidden~4
check s.py => o.a += 1~o[_i] -= 2 => line 1: augmented assignment to an attribute or item is forbidden~\
    line 2: name "_i" is forbidden~line 2: augmented assignment to an attribute or item is forbidden~4
check s.py => def __init__(): pass => line 1: name "__init__" is forbidden~4
check s.py => class A:~    def __init__(_self): pass~    def __len__(self): pass \
    => line 2: name "_self" is forbidden~line 3: name "__len__" is forbidden~4
check s.py => class _A: pass~try: pass~except E as _e: global _g \
    => line 1: name "_A" is forbidden~line 3: name "_e" is forbidden~line 3: name "_g" is forbidden~4
check s.py => x = [_i for _i in print] => line 1: name "_i" is forbidden~line 1: name "_i" is forbidden~4
check s.py => x = _a if _b else _c; (_d)(1); f(_k=_v) => line 1: name "_a" is forbidden~line 1: name "_b" is forbidden~\
    line 1: name "_c" is forbidden~line 1: name "_d" is forbidden~line 1: name "_v" is forbidden~4"#;

#[test]
fn accepts_scripts_of_the_whole_language(rt: HostRuntime) -> Result<(), Fail> {
    all_answer(rt.alloc(), &Said::To, ACCEPTED)
}

#[test]
fn tells_the_first_fault_of_a_script(rt: HostRuntime) -> Result<(), Fail> {
    all_answer(rt.alloc(), &Said::To, FAULTS)
}

#[test]
fn tells_all_offences_of_a_script(rt: HostRuntime) -> Result<(), Fail> {
    all_answer(rt.alloc(), &Said::To, OFFENCES)
}

/// A text so many times, then another, and a third as many times.
fn nested(
    alloc: Global,
    before: &str,
    inside: &str,
    behind: &str,
    times: usize,
) -> Result<String, Fail> {
    let before = before.repeat(alloc, times)?;
    let behind = behind.repeat(alloc, times)?;
    Ok(format!(in alloc; "{before}{inside}{behind}")?)
}

/// Asks whether this is said to `check` of a script.
fn is_checked(alloc: Global, script: &str, wanted: &str) -> Result<(), Fail> {
    is_said(alloc, "check s.py", FOLDER_FILE, script.as_bytes(), wanted)
}

#[test]
fn brackets_and_operators_stand_within_one_another_to_their_limits(
    rt: HostRuntime,
) -> Result<(), Fail> {
    let alloc = rt.alloc();
    let script = nested(alloc, "(", "1", ")", 200)?;
    is_checked(alloc, script.as_str(), "ok\n0")?;
    let script = nested(alloc, "(", "", "", 201)?;
    is_checked(alloc, script.as_str(), "line 1: brackets too deep\n4")?;
    let script = nested(alloc, "not ", "x", "", 198)?;
    is_checked(alloc, script.as_str(), "ok\n0")?;
    let script = nested(alloc, "not ", "x", "", 199)?;
    is_checked(alloc, script.as_str(), "line 1: syntax\n4")
}

#[test]
fn bytes_that_are_no_text_are_refused(rt: HostRuntime) -> Result<(), Fail> {
    let wanted = "byte 1: not UTF-8\n4";
    is_said(rt.alloc(), "check s.py", FOLDER_FILE, b"x\xFF", wanted)
}

#[test]
fn a_tab_indents_nothing(rt: HostRuntime) -> Result<(), Fail> {
    is_checked(
        rt.alloc(),
        "x = 1\n\ty = 2",
        "line 2: tab in indentation\n4",
    )
}
