//! What the program says to words, declarations at `title.toml` and a script at `s.py`, with the status behind it.

ghost use Rattle.std.specs.Prelude.{◌≡◌};

use rp_base::{Files, MemFiles, MemSink, Memory, Sink, Status, Text};
use rp_run::{Ran, run};
use rp_tests_cases::{FOLDER_FILE, Question, ROLES_FILE, is_told, part};
use rp_words::USAGE;
use std::alloc::{AllocError, Global};
use std::test::Fail;

/// What the program says.
pub enum Said {
    /// To the words of the first part, where the script is the second.
    To,
    /// Where bob runs the script that is the first part.
    Of,
    /// Where eve runs `print(root.title)`, and the first part of the declarations, or of those with roles, is replaced
    /// by the second.
    Where,
    WhereRoles,
    /// Where bob runs the script that is the first part over lists and dicts of a shop.
    Shop,
    /// To the words of the first part, `usage` where it says that and nothing else.
    Usage,
}

impl Question for Said {
    fn answer(&self, alloc: Global, parts: &[String]) -> Result<String, Fail> {
        self.text(alloc, part(parts, 0), part(parts, 1))
    }
}

impl Said {
    fn text(&self, alloc: Global, first: &str, second: &str) -> Result<String, Fail> {
        match self {
            Said::To => said_over(alloc, first, FOLDER_FILE, second.as_bytes()),
            Said::Of => said_over(alloc, RUN, FOLDER_FILE, first.as_bytes()),
            Said::Where => said_where(alloc, FOLDER_FILE, first, second),
            Said::WhereRoles => said_where(alloc, ROLES_FILE, first, second),
            Said::Shop => said_over(alloc, RUN, SHOP, first.as_bytes()),
            Said::Usage => usage_or(alloc, first),
        }
    }
}

/// The words by which bob runs a script.
pub const RUN: &str = "run title.toml bob:s.py";

/// A group allows what its member is denied.
pub const GROUPS: &str = r#"version = 1
permissions = ["zope.View"]
[group.staff]
allow = ["zope.View"]
[principal.kim]
groups = ["staff"]
deny = ["zope.View"]
"#;

/// Objects with lists, dicts and truth values.
const SHOP: &str = r#"version = 1
permissions = ["shop.View", "shop.Cost"]
expose = ["catalogue", "saw"]
[class.Catalogue.get]
title = "zope.Public"
articles = "shop.View"
[class.Article.get]
price = "shop.View"
tags = "shop.View"
sizes = "shop.View"
cost = "shop.Cost"
[class.Article.set]
price = "shop.View"
[principal.bob]
allow = ["shop.View"]
[object.catalogue]
class = "Catalogue"
fields = { title = "Tools", articles = ["saw", "nail"] }
[object.saw]
class = "Article"
fields = { price = 1290, cost = 800, tags = ["wood", "steel"], sizes = { small = 3 }, sold = true }
"#;

pub const PRINT_TITLE: &[u8] = b"print(root.title)\n";

/// More bytes than the tests have.
pub const AMPLE: usize = 8_388_608;

/// The declarations at `title.toml`, and the script at `s.py`.
pub fn file_list(
    alloc: Global,
    declarations: &[u8],
    script: &[u8],
) -> Result<Vec<(Text, Vec<u8>)>, Memory> {
    let mut list = Vec::new(alloc);
    let declarations = Vec::from_slice(alloc, declarations)?;
    list.push((Text::new(alloc, "title.toml")?, declarations))?;
    let script = Vec::from_slice(alloc, script)?;
    list.push((Text::new(alloc, "s.py")?, script))?;
    Ok(list)
}

/// The words of a line.
fn word_list(alloc: Global, line: &str) -> Result<Vec<String>, AllocError> {
    let mut list = Vec::new(alloc);
    for word in line.split_whitespace() {
        list.push(String::from_str(alloc, word)?)?;
    }
    Ok(list)
}

/// Runs the words of a line.
pub fn ran_of<F: Files, K: Sink>(
    alloc: Global,
    line: &str,
    files: &mut F,
    out: &mut K,
) -> Result<Ran, Fail>
    requires unread { F.begun files.old ≡ 0 }
    requires sound_files { F.faults files.old ≡ 0 }
    requires sound_out { K.faults out.old ≡ 0 }
{
    let words = word_list(alloc, line)?;
    Ok(run(alloc, words.as_slice(), files, out))
}

/// The status to which the words of a line come.
pub fn status_of<F: Files, K: Sink>(
    alloc: Global,
    line: &str,
    files: &mut F,
    out: &mut K,
) -> Result<Status, Fail>
    requires unread { F.begun files.old ≡ 0 }
    requires sound_files { F.faults files.old ≡ 0 }
    requires sound_out { K.faults out.old ≡ 0 }
{
    let ran = ran_of(alloc, line, files, out)?;
    Ok(ran.status)
}

/// What is written, and the status behind it.
pub fn told(alloc: Global, out: &MemSink, status: Status) -> Result<String, Fail> {
    let said = std::str::from_utf8(out.bytes())?;
    let status = status.0;
    Ok(format!(in alloc; "{said}{status}")?)
}

/// What is said to the words of a line.
pub fn said_over(
    alloc: Global,
    line: &str,
    declarations: &str,
    script: &[u8],
) -> Result<String, Fail> {
    let list = file_list(alloc, declarations.as_bytes(), script)?;
    let mut files = MemFiles::new(list, AMPLE, Vec::new(alloc));
    let mut out = MemSink::new(alloc, AMPLE, AMPLE, Vec::new(alloc))?;
    let status = status_of(alloc, line, &mut files, &mut out)?;
    told(alloc, &out, status)
}

/// Asks whether this is said to the words of a line.
pub fn is_said(
    alloc: Global,
    line: &str,
    declarations: &str,
    script: &[u8],
    wanted: &str,
) -> Result<(), Fail> {
    let said = said_over(alloc, line, declarations, script)?;
    is_told(alloc, line, said.as_str(), wanted)
}

/// What is said where `print(root.title)` is run for eve over declarations with one text in place of another.
fn said_where(alloc: Global, declarations: &str, from: &str, to: &str) -> Result<String, Fail> {
    let changed = declarations.replace(alloc, from, to)?;
    said_over(
        alloc,
        "run title.toml eve:s.py",
        changed.as_str(),
        PRINT_TITLE,
    )
}

/// `usage` where that is said to a line, and nothing else.
fn usage_or(alloc: Global, line: &str) -> Result<String, Fail> {
    let said = said_over(alloc, line, FOLDER_FILE, PRINT_TITLE)?;
    if said.as_str().strip_suffix("2") == Some(USAGE) {
        return Ok(String::from_str(alloc, "usage")?);
    }
    Ok(said)
}
