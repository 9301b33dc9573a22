//! Paths of faults: keys from the root, joined by dots.

ghost use Rattle.std.specs.Prelude.{◌≡◌, IfOk, chars, string_bytes};
ghost use Rattle.rp_decl.specs.Path.{path_of};
ghost use Rattle.rp_decl.specs.Shape.{within};

use rp_base::{Memory, Text};
use std::alloc::Global;

/// Where a value stands in a document: the keys from the root to it.
#[derive(Clone, Copy)]
pub(crate) enum Path<'p> {
    Root,
    Within(&'p Path<'p>, &'p str),
}

impl<'p> Path<'p> {
    /// The keys, joined by dots.
    pub(crate) fn text(&self, alloc: Global) -> Result<Text, Memory>
        ensures { IfOk result (λ text. text ≡ path_of self.now) }
    {
        let keys = self.keys(alloc)?;
        Text::new(alloc, keys.as_str())
    }

    fn keys(&self, alloc: Global) -> Result<String, Memory>
        ensures { IfOk result (λ keys. chars (string_bytes keys) ≡ path_of self.now) }
    {
        match self {
            Path::Root => Ok(String::new(alloc)),
            Path::Within(outer, key) => within(outer.keys(alloc)?, key),
        }
    }
}

/// The path with a key more.
fn within(path: String, key: &str) -> Result<String, Memory>
    ensures { IfOk result (λ keys. chars (string_bytes keys) ≡ within (chars (string_bytes path)) key.now) }
{
    let mut path = path;
    if path.as_str().is_empty() {
        path.push_str(key)?;
        return Ok(path);
    }
    path.push('.')?;
    path.push_str(key)?;
    Ok(path)
}
