//! What an operation on an object needs.

ghost use Rattle.std.specs.Prelude.{◌≡◌};
ghost use Rattle.rp_base.specs.Same.{same_text};
ghost use Rattle.rp_decl.specs.Document.{public};

use crate::records::Perm;
use rp_base::Text;

/// The permission that everybody has (zope.security).
pub const PUBLIC: &str = "zope.Public";

/// Whether an id is that of the permission that everybody has.
pub fn is_public(id: &Text) -> bool
    ensures { result ≡ same_text id.now public }
{
    id.is(PUBLIC)
}

/// What a checker asks of whoever reads or sets a name (zope.security: checkers).
#[derive(Clone, Copy, Debug, PartialEq, Eq)]
pub enum Row {
    /// Nothing: the permission is `zope.Public`.
    Public,
    /// This permission.
    Needs(Perm),
    /// Nothing: the name is one that may be read by default.
    Default,
    /// There is no permission for it.
    Forbidden,
}
