//! Who takes the statements of a script while it is read.

ghost use Rattle.std.specs.Prelude.{◌≡◌, [], OnOk};
ghost use Rattle.rp_tree.specs.StatementViews.{view_stmts};
ghost use Rattle.rp_grammar.specs.Statements.{joined};
ghost use Rattle.rp_parse.specs.Visits.{TakesNext};

use rp_base::Memory;
use rp_tree::Stmt;
use std::alloc::Global;

/// Takes the statements of a script in their order, some at a time.
pub trait Visitor {
    ghost use Rattle.rp_tree.specs.Statements.{Stmts};

    /// It comes from one state to another by taking these statements.
    ghost takes: { Self → Stmts → Self → Type 0 };

    /// Takes the next statements, and leaves none.
    ///
    /// # Errors
    /// `Memory` where a growth was refused.
    fn visit(&mut self, next: &mut Vec<Stmt>) -> Result<(), Memory>
        ensures taken { TakesNext takes self.old (view_stmts next.old.items) self.new result }
        ensures none_left { OnOk result (next.new.items ≡ []) };
}

/// Keeps all statements.
#[derive(Drop)]
pub(crate) struct Keeper {
    kept: Vec<Stmt>,
}

impl Keeper {
    /// One that has taken none.
    pub(crate) fn new(alloc: Global) -> Keeper
        ensures { result.kept.items ≡ [] }
    {
        Keeper {
            kept: Vec::new(alloc),
        }
    }

    /// What it has taken.
    pub(crate) fn into_kept(self) -> Vec<Stmt>
        ensures { result ≡ self.kept }
    {
        self.kept
    }
}

impl Visitor for Keeper {
    ghost takes = { λ before stmts after. view_stmts after.kept.items ≡ joined (view_stmts before.kept.items) stmts };

    fn visit(&mut self, next: &mut Vec<Stmt>) -> Result<(), Memory> {
        self.kept.append(next)?;
        Ok(())
    }
}
