//! The checkers of declarations: the row of a class for an operation.

ghost use Rattle.std.specs.Prelude.{◌≡◌, IfOk, ℕ, List, length};
ghost use Rattle.rp_checker.specs.Answers.{AnswersAs, AreRowsWithin, IsReadWith};
ghost use Rattle.rp_checker.specs.Tables.{listed, row_in};

use crate::class_rows::ClassRows;
use crate::places::Places;
use crate::plan::Plan;
use crate::words::{is_public, row_unlisted};
use rp_base::{ClassTag, Memory, Op};
use rp_decl::{Decl, Row};
use std::alloc::Global;
use std::marker::Model;

/// What each class asks of whoever reads or sets a name of its objects (zope.security: checkers).
pub struct Checkers {
    /// The place of the rows of each declared class.
    places: Places,
    rows: Vec<ClassRows>,
}

// By hand, so that crates that drop one do not prove again how its parts are dropped.
impl Drop for Checkers {
    fn drop(self) {
        let Checkers { places: _, rows: _ } = self;
    }
}

impl Model for Checkers {
    ghost use Rattle.rp_checker.specs.Tables.{Tables};

    ghost Value = { Tables };

    ghost view = { λ c. record { places = c.places; rows = c.rows.items } };
}

impl Checkers {
    /// The checkers of the declarations. They answer as the declarations say (`row_of`), where these were
    /// read into the names. Each permission that they ask for is a declared one.
    ///
    /// # Errors
    /// `Memory` where a growth was refused.
    pub fn new(alloc: Global, decl: &Decl) -> Result<Checkers, Memory>
        ensures answers { IfOk result (λ c. (names : List (List ℕ)) → IsReadWith names decl.now
            → AnswersAs names decl.now c) }
        ensures declared { IfOk result (AreRowsWithin (length decl.now.permissions)) }
    {
        let plan = Plan::new(alloc, decl.classes(), decl.permissions())?;
        let rows = plan.all_rows(alloc)?;
        let places = Places::new(alloc, &plan.into_places())?;
        Ok(Checkers { places, rows })
    }

    /// The row of a class for an operation. It takes no memory: the class is found by the place of its name, and the
    /// name by halving.
    #[inline(always)]
    pub fn row(&self, class: ClassTag, op: Op) -> Row
        ensures { result ≡ row_in self.now class op }
    {
        match self.listed(class, op) {
            Some(row) => row,
            None => row_unlisted(op),
        }
    }

    #[inline(always)]
    fn listed(&self, class: ClassTag, op: Op) -> Option<Row>
        ensures { result ≡ listed self.now class op }
    {
        match (class, op) {
            (ClassTag::Declared(name), op) => {
                let place = self.places.get(name)?;
                self.rows.get(place)?.row(op)
            }
            (class, Op::Get(name)) if is_public(class, name) => Some(Row::Public),
            _ => None,
        }
    }
}
