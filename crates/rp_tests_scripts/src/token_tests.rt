//! Tests of the tokens of texts.

use crate::answers::{Question, new_names};
use crate::cases::{all_answer, spelled_out};
use rp_base::Names;
use rp_tests_cases::is_told;
use rp_token::tokens;
use std::alloc::Global;
use std::test::Fail;

const LINES_AND_BLOCKS_HAVE_THESE_TOKENS: &str = "\
\u{feff}x => x NL END
 => END
x = 1␊ => x = #1 NL END
if x:␊    y␊z => if x : NL IN y NL DE z NL END
if a:␊  if b:␊    c␊  d␊ => if a : NL IN if b : NL IN c NL DE d NL DE END
if a:␊  if b:␊    c␊d␊ => if a : NL IN if b : NL IN c NL DE DE d NL END
if a:␊  b => if a : NL IN b NL DE END
␊ ␉ ␊␉# c␊  # d␊x␊    => x NL END
(a,␊␊  b) # c␊ => ( a , b ) NL END
a = \\␊␉  b␊ => a = b NL END
\\␊x => x NL END
if a:␊    \\␊b␊ => if a : NL IN b NL DE END
x)]␊ y => x ) ] NL IN y NL DE END
(]{)(} => ( ] { ) ( } NL END
";

#[test]
fn lines_and_blocks_have_these_tokens(rt: HostRuntime) -> Result<(), Fail> {
    all_answer(
        rt.alloc(),
        Question::Tokens,
        "",
        LINES_AND_BLOCKS_HAVE_THESE_TOKENS,
    )
}

const NUMBERS_WORDS_AND_MARKS_ARE_THESE_TOKENS: &str = "\
0 00 0_0 7 1_0 9223372036854775807 => #0 #0 #0 #7 #10 #9223372036854775807 NL END
0x_1 0xfF 0B1_0 0o17 0X7fffffffffffffff => #1 #255 #2 #15 #9223372036854775807 NL END
-1 .x => - #1 . x NL END
\u{ff58} \u{fb01}x _ \u{e9}a \u{e9}a => x fix _ \u{e9}a \u{e9}a NL END
None is not in x.If => None is not in x . If NL END
a**=b**c*d//=e//f<<=g<<h<=i => a **= b ** c * d //= e // f <<= g << h <= i NL END
a>>=b>>c>=d==e!=f=g => a >>= b >> c >= d == e != f = g NL END
a+=b-=c*=d%=e&=f|=g^=h:;~, => a += b -= c *= d %= e &= f |= g ^= h : ; ~ , NL END
a*** b... %&|^<>+- => a ** * b . . . % & | ^ < > + - NL END
";

#[test]
fn numbers_words_and_marks_are_these_tokens(rt: HostRuntime) -> Result<(), Fail> {
    all_answer(
        rt.alloc(),
        Question::Tokens,
        "",
        NUMBERS_WORDS_AND_MARKS_ARE_THESE_TOKENS,
    )
}

const LITERALS_STAND_FOR_THESE_TEXTS: &str = "\
'' =>
\"\" =>
'''''' =>
'a\"b' => a\"b
\"it's\" => it's
'''a''b''' => a''b
\"\"\"a␍␊b␍c␊\"\"\" => a␊b␊c␊
'a\\␊b\\␍␊c' => abc
'\\\\\\'\\\"\\n\\r\\t\\a\\b\\f\\v' => \\'\"␊␍␉\x07\x08\x0c\x0b
'\\x41\\x0a\\u00e9\\uFFFF\\U0001f600' => A␊\u{e9}\u{ffff}\u{1f600}
'\\ud7ff\\ue000\\U0010ffff' => \u{d7ff}\u{e000}\u{10ffff}
'# ␉\u{e9}' => # ␉\u{e9}
";

#[test]
fn literals_stand_for_these_texts(rt: HostRuntime) -> Result<(), Fail> {
    all_answer(
        rt.alloc(),
        Question::Literal,
        "",
        LITERALS_STAND_FOR_THESE_TEXTS,
    )
}

const TEXTS_HAVE_THESE_FIRST_FAULTS: &str = "\
if x:␊        y␊     z␊ => Dedent 3
x␊␉y => Tab 2
if x:␊  ␉ y => Tab 2
x = (1, => Unclosed 1
(␊[␊{␊}␊ => Unclosed 2
x = 'ab␊' => Unclosed 1
␊'''␊␊ => Unclosed 2
'a\\ => Unclosed 1
'ab => Unclosed 1
x = 1.5 => BadNumber 1
x = 9223372036854775808 => BadNumber 1
0x8000000000000000 => BadNumber 1
99999999999999999999999999999999 => BadNumber 1
␊0x => BadNumber 2
0_ => BadNumber 1
1__0 => BadNumber 1
1_ => BadNumber 1
01 => BadNumber 1
0_1 => BadNumber 1
0x__1 => BadNumber 1
0b2 => BadNumber 1
1a => BadNumber 1
1\u{661} => BadNumber 1
x = 'a\\q' => BadEscape 1
'''␊␍␊\\q''' => BadEscape 3
'\\x4 => BadEscape 1
'\\ud800' => BadEscape 1
'\\U00110000' => BadEscape 1
'\\Uffffffff' => BadEscape 1
'\\1' => BadEscape 1
a $ => BadChar 1
a / b => BadChar 1
! => BadChar 1
\u{a0} => BadChar 1
\u{0} => BadChar 1
x \\ ␊ => BadChar 1
x␍␍y \\ => BadChar 3
␍␊\u{ff49}f => BadChar 2
(1.5 $ => BadNumber 1
";

#[test]
fn texts_have_these_first_faults(rt: HostRuntime) -> Result<(), Fail> {
    all_answer(
        rt.alloc(),
        Question::Tokens,
        "",
        TEXTS_HAVE_THESE_FIRST_FAULTS,
    )
}

/// 128 letters of two bytes each are 256 bytes.
const LIMITS_HOLD_WHERE_THEY_ARE_SAID: &str = "\
200×(‖)␊(‖200×] => 404
201×(␊ => Deep 201
255×a => 3
256×a => BadChar 1
127×\u{e9} => 3
128×\u{e9} => BadChar 1
";

#[test]
fn limits_hold_where_they_are_said(rt: HostRuntime) -> Result<(), Fail> {
    let cases = LIMITS_HOLD_WHERE_THEY_ARE_SAID;
    all_answer(rt.alloc(), Question::Count, "", cases)
}

/// By how many the words of the names grow by the tokens of each of some texts, one a line.
fn growths(alloc: Global, texts: &str) -> Result<String, Fail> {
    let mut names = new_names(alloc)?;
    let mut told = String::new(alloc);
    for text in texts.lines() {
        let before = names.len();
        let count = held(alloc, &mut names, text)?.saturating_sub(before);
        write!(told, "{count} ")?;
    }
    Ok(told)
}

/// How many words the names have after the tokens of a text were asked for.
fn held(alloc: Global, names: &mut Names, pieces: &str) -> Result<usize, Fail> {
    let text = spelled_out(alloc, pieces)?;
    let _ = tokens(alloc, text.as_str(), names);
    Ok(names.len())
}

#[test]
fn names_that_are_too_long_are_not_held(rt: HostRuntime) -> Result<(), Fail> {
    let texts = "255×a\n256×a\n128×\u{e9}";
    let told = growths(rt.alloc(), texts)?;
    is_told(rt.alloc(), texts, told.as_str(), "1 0 0 ")
}

/// Where the tokens of a text begin and end, and their lines.
fn places(alloc: Global, text: &str) -> Result<String, Fail> {
    let mut names = new_names(alloc)?;
    let found = tokens(alloc, text, &mut names)?;
    let mut out = String::new(alloc);
    for token in &found {
        let (from, to, line) = (token.from, token.to, token.line.0);
        write!(out, "{from}-{to} {line};")?;
    }
    Ok(out)
}

#[test]
fn tokens_have_these_places_and_lines(rt: HostRuntime) -> Result<(), Fail> {
    let text = "\u{feff}if \u{e9}:\r\n  '''\n'''\r# c\n  \\\nx";
    let told = places(rt.alloc(), text)?;
    let wanted =
        "3-5 1;6-8 1;8-9 1;9-11 1;13-13 2;13-20 2;20-21 3;29-30 6;30-30 6;30-30 6;30-30 6;";
    is_told(rt.alloc(), text, told.as_str(), wanted)
}

/// The lines of the tokens of a text.
fn lines(alloc: Global, text: &str) -> Result<String, Fail> {
    let mut names = new_names(alloc)?;
    let found = tokens(alloc, text, &mut names)?;
    let mut out = String::new(alloc);
    for token in &found {
        let line = token.line.0;
        write!(out, "{line} ")?;
    }
    Ok(out)
}

#[test]
fn tokens_behind_joined_lines_have_these_lines(rt: HostRuntime) -> Result<(), Fail> {
    let text = "a:\n \\\n\\\r\n b\n\\\nc";
    let told = lines(rt.alloc(), text)?;
    is_told(rt.alloc(), text, told.as_str(), "1 1 1 4 4 4 6 6 6 6 ")
}
