//! The declared classes, and the place of each by its name.

ghost use Rattle.std.specs.Prelude.{◌≡◌, ◌<◌, IfOk, map, nat_eq, position};
ghost use Rattle.std.specs.List.{All};

use crate::name_table::NameTable;
use crate::records::ClassDecl;
use rp_base::{Memory, Name};
use std::alloc::{AllocError, Global};
use std::marker::Model;

/// The declared classes, in byte order of their names.
#[derive(Drop)]
pub struct Classes {
    list: Vec<ClassDecl>,
    names: NameTable,
}

impl Model for Classes {
    ghost use Rattle.std.specs.Prelude.{◌≡◌, List, map};
    ghost use Rattle.rp_decl.specs.declared.records.ClassDecl.{ClassDecl};

    ghost Value = { List ClassDecl };

    ghost view = { λ c. c.list.items };

    ghost invariant = { λ c. c.names ≡ map (λ class. class.name) c.list.items };
}

impl Classes {
    /// These classes, whose names have numbers below this one.
    ///
    /// # Errors
    /// `Memory` where a growth was refused.
    pub(crate) fn new(alloc: Global, list: Vec<ClassDecl>, below: usize) -> Result<Classes, Memory>
        requires { All (λ class. class.name.0 < below) list.items }
        ensures { IfOk result (λ c. c ≡ list.items) }
    {
        let names = names_of(alloc, list.as_slice())?;
        let names = NameTable::new(alloc, names, below)?;
        Ok(Classes { list, names })
    }

    /// The classes.
    pub(crate) fn list(&self) -> &[ClassDecl]
        ensures { result.now ≡ self.now }
    {
        self.list.as_slice()
    }

    /// The place of the class of a name, by one look-up.
    pub(crate) fn place(&self, name: Name) -> Option<usize>
        ensures { result ≡ position (λ class. nat_eq name.0 class.name.0) self.now }
    {
        self.names.place(name)
    }
}

/// The names of classes.
fn names_of(alloc: Global, classes: &[ClassDecl]) -> Result<Vec<Name>, AllocError>
    ensures { IfOk result (λ names. names.items ≡ map (λ class. class.name) classes.now) }
{
    classes.iter().map(|class| class.name).collect(alloc)
}
