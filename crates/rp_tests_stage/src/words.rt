//! The words of a world, and the lines that tell decisions by them.

use rp_base::{ClassTag, Memory, Name, Names, Op, Text};
use rp_decl::{Decl, Perm, Row};
use rp_trail::{Entry, Verdict};
use std::alloc::Global;
use std::test::Fail;

/// The texts of names and permissions, each at its place.
#[derive(Drop)]
pub struct Words {
    names: Vec<Text>,
    permissions: Vec<Text>,
}

impl Words {
    /// Copies them.
    ///
    /// # Errors
    /// `Memory` where a growth was refused.
    pub fn new(alloc: Global, names: &Names, decl: &Decl) -> Result<Words, Memory> {
        Ok(Words {
            names: words_of(alloc, names)?,
            permissions: copies(alloc, decl.permissions())?,
        })
    }
}

fn words_of(alloc: Global, names: &Names) -> Result<Vec<Text>, Memory> {
    let mut words = Vec::new(alloc);
    for place in 0..names.len() {
        words.push(Text::new(alloc, names.text(Name(place)))?)?;
    }
    Ok(words)
}

fn copies(alloc: Global, texts: &[Text]) -> Result<Vec<Text>, Memory> {
    let mut copies = Vec::new(alloc);
    for text in texts {
        copies.push(text.copy()?)?;
    }
    Ok(copies)
}

fn word_at(words: &[Text], place: usize) -> &str {
    match words.get(place) {
        Some(word) => word.as_str(),
        None => "?",
    }
}

impl Words {
    fn name(&self, name: Name) -> &str {
        word_at(self.names.as_slice(), name.0)
    }

    fn permission(&self, permission: Perm) -> &str {
        word_at(self.permissions.as_slice(), permission.0)
    }

    fn class(&self, class: ClassTag) -> &str {
        match class {
            ClassTag::Declared(name) => self.name(name),
            ClassTag::List => "list",
            ClassTag::Tuple => "tuple",
            ClassTag::Dict => "dict",
            ClassTag::Method => "method",
            ClassTag::Function => "function",
            ClassTag::Class => "class",
            ClassTag::Other => "instance",
        }
    }

    fn operation(&self, op: Op) -> (&'static str, &str) {
        match op {
            Op::Get(name) => ("get", self.name(name)),
            Op::Set(name) => ("set", self.name(name)),
        }
    }

    /// The word of a verdict, and what stands behind the operation.
    fn verdict(&self, verdict: Verdict) -> (&'static str, &str) {
        match verdict {
            Verdict::Allowed(Row::Public) => ("allow", "zope.Public"),
            Verdict::Allowed(Row::Default) => ("allow", "default"),
            Verdict::Allowed(Row::Forbidden) => ("allow", "forbidden"),
            Verdict::Allowed(Row::Needs(permission)) => ("allow", self.permission(permission)),
            Verdict::Denied(permission) => ("deny", self.permission(permission)),
            Verdict::Forbidden => ("forbid", ""),
        }
    }

    /// The lines of decisions for one principal, as the trail is written.
    ///
    /// # Errors
    /// Where memory was refused.
    pub fn lines(&self, alloc: Global, log: &[Entry], who: &str) -> Result<String, Fail> {
        let mut lines = String::new(alloc);
        let mut number = 1u64;
        for entry in log {
            let session = entry.session;
            let class = self.class(entry.class);
            let (kind, name) = self.operation(entry.op);
            let (verdict, reason) = self.verdict(entry.verdict);
            write!(
                lines,
                "{number} {session} {who} {verdict} {kind} {class}.{name}"
            )?;
            if reason.len() > 0 {
                write!(lines, " {reason}")?;
            }
            lines.push('\n')?;
            number = number.saturating_add(1);
        }
        Ok(lines)
    }
}
