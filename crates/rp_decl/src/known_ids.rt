//! The permissions, roles and groups that a document declares.

ghost use Rattle.std.specs.Prelude.{◌≡◌, IfOk, codes};
ghost use Rattle.toml.specs.View.{table_view};
ghost use Rattle.rp_decl.specs.Document.{each_at, key_text, records_of};
ghost use Rattle.rp_decl.specs.InOrder.{AreAscending};

use crate::text_set::Sorted;
use rp_base::{Memory, Text};
use std::alloc::Global;
use toml::Table;

/// The permissions, roles and groups of a document.
#[derive(Drop)]
pub(crate) struct Known {
    pub(crate) permissions: Sorted,
    pub(crate) roles: Sorted,
    pub(crate) groups: Sorted,
}

impl Known {
    ghost use Rattle.rp_decl.specs.Reading.{IsKnownBy};

    pub(crate) fn new(alloc: Global, document: &Table) -> Result<Known, Memory>
        ensures { IfOk result (λ known. IsKnownBy known (records_of (table_view document.now))) }
    {
        let permissions = Sorted::permissions(alloc, document)?;
        let roles = Sorted::keys_at(alloc, document, "role")?;
        let groups = Sorted::keys_at(alloc, document, "group")?;
        Ok(Known {
            permissions,
            roles,
            groups,
        })
    }

    pub(crate) fn into_permissions(self) -> Vec<Text>
        ensures value { result.items ≡ self.permissions }
        ensures ascending { AreAscending self.permissions }
    {
        let Known { permissions, .. } = self;
        permissions.into_texts()
    }
}
