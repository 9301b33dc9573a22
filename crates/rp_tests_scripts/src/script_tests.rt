//! Tests of scripts as they are read.

use crate::answers::{Question, new_names, read_bytes, script_refusal};
use crate::cases::all_answer;
use rp_base::{Line, Names};
use rp_script::{Refusal, refusal_text};
use rp_tests_cases::is_told;
use rp_token::TokenFault;
use std::alloc::Global;
use std::test::Fail;

const SCRIPTS_HAVE_THEIR_TREES: &str = "\
␊␊ =>
 =>
print(root.title) => (1 expr (print call (root .title)))
print(x)␊ => (1 expr (print call x))
x = 7␊␊␊print(x) => (1 = x 7)(4 expr (print call x))
x = y␍␊print(x.f)␍␊ => (1 = x y)(2 expr (print call (x .f)))
␍␊print(x) => (2 expr (print call x))
total = 123456789012345678 => (1 = total 123456789012345678)
x = 9223372036854775807 => (1 = x 9223372036854775807)
x = 1_000␊y = 0x1f => (1 = x 1000)(2 = y 31)
printing = prints => (1 = printing prints)
x_1 = A9.b_ => (1 = x_1 (A9 .b_))
iff = nonee => (1 = iff nonee)
";

#[test]
fn scripts_have_their_trees(rt: HostRuntime) -> Result<(), Fail> {
    all_answer(
        rt.alloc(),
        Question::Statements,
        "",
        SCRIPTS_HAVE_THEIR_TREES,
    )
}

const SPACING_COMMENTS_AND_LINE_ENDS_ARE_FREE: &str = "\
x=1 => (1 = x 1)
x  =␉1 ␉ => (1 = x 1)
x = 1 # one => (1 = x 1)
# nothing =>
  =>
␉␊  # an indented comment␊x = 1␊    ␊ => (3 = x 1)
print ( root . title ) => (1 expr (print call (root .title)))
print(␊    root # why␊  .␍␊␉title␊)␊ => (1 expr (print call (root .title)))
x = \\␊  1 => (1 = x 1)
x = \\␍␊1␍y = 2 => (1 = x 1)(3 = y 2)
print(x)␍␍␊ => (1 expr (print call x))
\u{feff}x = 1 => (1 = x 1)
\u{ff58} = y␊print(x) => (1 = x y)(2 expr (print call x))
\u{ff50}rint(x.\u{ff46}) => (1 expr (print call (x .f)))
";

#[test]
fn spacing_comments_and_line_ends_are_free(rt: HostRuntime) -> Result<(), Fail> {
    all_answer(
        rt.alloc(),
        Question::Statements,
        "",
        SPACING_COMMENTS_AND_LINE_ENDS_ARE_FREE,
    )
}

const OTHER_SPELLINGS_HAVE_THE_SAME_TREES: &str = "\
x = (y) => (1 = x y)
x = ((7)) => (1 = x 7)
(x) = 1 => (1 = x 1)
x = (y).f => (1 = x (y .f))
x = (y.f) => (1 = x (y .f))
print((x)) => (1 expr (print call x))
print(x,) => (1 expr (print call x))
(print)(x) => (1 expr (print call x))
(print(x)) => (1 expr (print call x))
x = 1; => (1 = x 1)
";

#[test]
fn other_spellings_have_the_same_trees(rt: HostRuntime) -> Result<(), Fail> {
    all_answer(
        rt.alloc(),
        Question::Statements,
        "",
        OTHER_SPELLINGS_HAVE_THE_SAME_TREES,
    )
}

const TEXTS_WITHOUT_A_TREE_HAVE_A_LINE: &str = "\
x = = 1
x = 1␊x = = 1 => line 2: syntax
def f():␊    x = = 1␊y = 1 => line 2: syntax
x =
 x = 1
x = 1␊  y = 2 => line 2: syntax
x = 1 y = 2
print(x) print(y)
= 1
1 = x
x = y.
x = .y
print(x))
print x
if = 1
print(x.if)
None = 1
return
␊␊break => line 3: syntax
";

#[test]
fn texts_without_a_tree_have_a_line(rt: HostRuntime) -> Result<(), Fail> {
    all_answer(
        rt.alloc(),
        Question::ScriptRefusal,
        "line 1: syntax",
        TEXTS_WITHOUT_A_TREE_HAVE_A_LINE,
    )
}

const TEXTS_WITHOUT_TOKENS_HAVE_A_FAULT: &str = "\
␉x = 1 => line 1: tab in indentation
x = 1␊␉y = 2 => line 2: tab in indentation
if True:␊    x = 1␊  y = 2 => line 3: dedent to no open column
x = 1 ? 2 => line 1: bad character
x = 1\u{c} => line 1: bad character
x = 1␊\0 => line 2: bad character
x = \u{ff11} => line 1: bad character
x = (1, => line 1: not closed
print(x => line 1: not closed
x = 1.5 => line 1: bad number
x = 9223372036854775808 => line 1: bad number
x = 1␊y = 02␊z = 3 => line 2: bad number
x = 'a\\q' => line 1: bad escape
";

#[test]
fn texts_without_tokens_have_a_fault(rt: HostRuntime) -> Result<(), Fail> {
    all_answer(
        rt.alloc(),
        Question::ScriptRefusal,
        "",
        TEXTS_WITHOUT_TOKENS_HAVE_A_FAULT,
    )
}

fn is_refused(alloc: Global, bytes: &[u8], wanted: &str) -> Result<(), Fail> {
    let told = script_refusal(alloc, bytes)?;
    is_told(alloc, "bytes", told.as_str(), wanted)
}

#[test]
fn bytes_are_utf_8(rt: HostRuntime) -> Result<(), Fail> {
    for (bytes, expected) in [
        (b"\xff".as_slice(), "byte 0: not UTF-8"),
        (b"x\xff", "byte 1: not UTF-8"),
        (b"x = 1 # \xe2\x82\xac\xed\xa0\x80", "byte 11: not UTF-8"),
        (b"x = \xe2\x82", "byte 4: not UTF-8"),
        (b"x = 1 ? 2\xc0\x80", "byte 9: not UTF-8"),
    ] {
        is_refused(rt.alloc(), bytes, expected)?;
    }
    Ok(())
}

const SCRIPTS_HAVE_LIMITS: &str = "\
1001×x = 1␊ =>
1001×x = 1; =>
1200×␊‖x = 1 =>
198×not ‖x =>
199×not ‖x => line 1: syntax
255×n‖ = 1 =>
256×n‖ = 1 => line 1: bad character
200×( => line 1: not closed
201×( => line 1: brackets too deep
";

#[test]
fn scripts_have_limits(rt: HostRuntime) -> Result<(), Fail> {
    all_answer(rt.alloc(), Question::ScriptRefusal, "", SCRIPTS_HAVE_LIMITS)
}

/// How many words the names have after each of the scripts of some lines was read, or refused.
fn held_after(alloc: Global, scripts: &str) -> Result<String, Fail> {
    let mut names = new_names(alloc)?;
    let mut told = String::new(alloc);
    for script in scripts.lines() {
        let count = held(alloc, &mut names, script);
        write!(told, "{count} ")?;
    }
    Ok(told)
}

fn held(alloc: Global, names: &mut Names, script: &str) -> usize {
    let _ = read_bytes(alloc, script.as_bytes(), names);
    names.len()
}

#[test]
fn names_grow_by_new_words_alone(rt: HostRuntime) -> Result<(), Fail> {
    let scripts = "x = y\ny = \u{ff58}\nz = 1 ?";
    let told = held_after(rt.alloc(), scripts)?;
    is_told(rt.alloc(), scripts, told.as_str(), "61 61 62 ")
}

/// Asks for the line that tells a refusal behind a prefix.
fn is_told_behind(alloc: Global, prefix: &str, refusal: Refusal, wanted: &str) -> Result<(), Fail> {
    let names = new_names(alloc)?;
    let line = refusal_text(alloc, prefix, &refusal, &names)?;
    is_told(alloc, "a refusal", line.as_str(), wanted)
}

#[test]
fn refusals_are_told_in_a_line(rt: HostRuntime) -> Result<(), Fail> {
    let alloc = rt.alloc();
    let tab = Refusal::Token(TokenFault::Tab(Line(12)));
    let deep = Refusal::Token(TokenFault::Deep(Line(4_194_304)));
    is_told_behind(
        alloc,
        "s\u{f6}: ",
        Refusal::NotUtf8(0),
        "s\u{f6}: byte 0: not UTF-8\n",
    )?;
    is_told_behind(
        alloc,
        "s\u{f6}: ",
        tab,
        "s\u{f6}: line 12: tab in indentation\n",
    )?;
    is_told_behind(
        alloc,
        "s\u{f6}: ",
        deep,
        "s\u{f6}: line 4194304: brackets too deep\n",
    )?;
    is_told_behind(alloc, "", Refusal::Syntax(Line(12)), "line 12: syntax\n")?;
    is_told_behind(alloc, "", Refusal::Format(Line(3)), "line 3: format\n")
}
