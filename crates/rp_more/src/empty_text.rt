//! The empty text.

ghost use Rattle.std.specs.Prelude.{◌≡◌, [], IfOk};

use rp_base::{Memory, Text};
use std::alloc::Global;

/// The empty text, which all its copies share.
#[derive(Drop)]
pub(crate) struct EmptyText {
    text: Text,
    ghost is_empty: { text ≡ [] },
}

impl EmptyText {
    /// The one that is copied.
    pub(crate) fn new(alloc: Global) -> Result<EmptyText, Memory> {
        let text = Text::new(alloc, "")?;
        Ok(EmptyText { text })
    }

    /// A copy, which shares the characters.
    pub(crate) fn copy(&self) -> Result<Text, Memory>
        ensures { IfOk result (λ t. t ≡ []) }
    {
        self.text.copy()
    }
}
