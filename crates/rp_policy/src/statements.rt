//! The walk over statements, and all offences of a tree.

ghost use Rattle.std.specs.Prelude.{◌≡◌, [], IfOk, OnOk, map, option_map};
ghost use Rattle.rp_policy.specs.CollectionSteps as steps;
ghost use Rattle.rp_base.specs.Names.{word_of};
ghost use Rattle.rp_policy.specs.Offences.{offence_named, offences, offences_by};
ghost use Rattle.rp_policy.specs.Spots as tree_spots;
ghost use Rattle.rp_tree.specs.Augmented.{AugmentsNames};
ghost use Rattle.rp_tree.specs.ExpressionViews.{view_expr, view_place};
ghost use Rattle.rp_tree.specs.Maps.{named};
ghost use Rattle.rp_tree.specs.StatementViews as stmt_views;

use crate::collector::Collector;
use crate::offence::Offence;
use crate::spot::{Spot, Suite};
use rp_base::{Line, Memory, Names};
use rp_tree::{Branch, Except, Expr, Named, Place, Stmt, StmtForm, Tree, stmts_of};
use std::alloc::Global;

/// All offences of a tree against the policy, in the order of the tokens that they name (RestrictedPython, name and
/// attribute policy). A name stands for its word in `names`; one that isn't held there has the empty word, which is no
/// offence.
///
/// # Errors
/// `Memory` where a growth was refused.
pub fn offences(alloc: Global, tree: &Tree, names: &Names) -> Result<Vec<Offence>, Memory>
    ensures found { IfOk result (λ found. found.items
        ≡ offences_by (word_of names.now) (stmt_views.view_tree tree.now)) }
    ensures unaugmented { IfOk result (λ found. found.items ≡ [] → AugmentsNames (stmt_views.view_tree tree.now)) }
    ensures told { IfOk result (λ found. map (offence_named (word_of names.now)) found.items
        ≡ offences (named (word_of names.now) (stmt_views.view_tree tree.now))) }
{
    let mut collector = Collector::new(alloc, names);
    collector.block(Suite::Other, &tree.body)?;
    Ok(collector.into_found())
}

impl<'a> Collector<'a> {
    fn option(&mut self, expr: &Option<Expr>) -> Result<(), Memory>
        ensures { OnOk result (self.new ≡ steps.with_option (option_map view_expr expr.now) self.old) }
    {
        match expr {
            None => Ok(()),
            Some(expr) => self.expr(expr),
        }
    }

    fn places(&mut self, places: &[Place]) -> Result<(), Memory>
        ensures { OnOk result (self.new ≡ steps.with_places (map view_place places.now) self.old) }
    {
        'places: for place in places {
            self.place(place)?;
        }
        Ok(())
    }

    /// The operator of an augmented assignment to a place.
    fn operator(&mut self, place: &Place, line: Line) -> Result<(), Memory>
        ensures { OnOk result (self.new ≡ steps.with_operator (view_place place.now) line self.old) }
    {
        match place {
            Place::Name(_) => Ok(()),
            Place::Attr(_, _, _) => self.see(Spot::Augments(line)),
            Place::Item(_, _, _) => self.see(Spot::Augments(line)),
        }
    }

    /// An assignment to places.
    fn assigned(&mut self, places: &[Place], value: &Expr) -> Result<(), Memory>
        ensures { OnOk result (self.new
            ≡ steps.with_expr (view_expr value.now) (steps.with_places (map view_place places.now) self.old)) }
    {
        self.places(places)?;
        self.expr(value)
    }

    /// An augmented assignment.
    fn augmented(&mut self, place: &Place, line: Line, value: &Expr) -> Result<(), Memory>
        ensures { OnOk result (self.new
            ≡ steps.with_expr (view_expr value.now)
            (steps.with_operator (view_place place.now) line (steps.with_place (view_place place.now) self.old))) }
    {
        self.place(place)?;
        self.operator(place, line)?;
        self.expr(value)
    }

    /// The name of a function that is defined directly in such a block.
    fn function(&mut self, suite: Suite, name: Named) -> Result<(), Memory>
        ensures { OnOk result (self.new ≡ steps.seen self.old (tree_spots.function_spot suite name)) }
    {
        match suite {
            Suite::OfClass => self.see(Spot::Method(name)),
            Suite::Other => self.see(Spot::Binds(name)),
        }
    }

    #[cycle(stmt)]
    fn stmt(&mut self, suite: Suite, stmt: &Stmt) -> Result<(), Memory>
        ensures { OnOk result (self.new ≡ steps.with_stmt suite (stmt_views.view_stmt stmt.now) self.old) }
    {
        self.stmt_form(suite, &stmt.form)
    }

    #[cycle(stmt)]
    #[tactic(auto, using(rp_tree::proofs::StatementEquations::variants))]
    fn stmt_form(&mut self, suite: Suite, form: &StmtForm) -> Result<(), Memory>
        ensures { OnOk result (self.new ≡ steps.with_stmt_form suite (stmt_views.view_stmt_form form.now) self.old) }
    {
        match form {
            StmtForm::Expr(expr) => self.expr(expr),
            StmtForm::Assign(places, value) => self.assigned(places, value),
            StmtForm::Unpack(target, value, _) => {
                self.target(target)?;
                self.expr(value)
            }
            StmtForm::Aug {
                place,
                at,
                value,
                ..
            } => self.augmented(place, *at, value),
            StmtForm::Del(places) => self.places(places),
            StmtForm::Pass | StmtForm::Break | StmtForm::Continue => Ok(()),
            StmtForm::Return(value) => self.option(value),
            StmtForm::Raise(value) => self.option(value),
            StmtForm::Assert(test, message) => {
                self.expr(test)?;
                self.option(message)
            }
            StmtForm::Global(names) => self.bind_all(names),
            StmtForm::If(branches, other) => {
                self.branches(branches)?;
                self.block(Suite::Other, stmts_of(other))
            }
            StmtForm::While(test, body) => {
                self.expr(test)?;
                self.block(Suite::Other, body)
            }
            StmtForm::For(walk, body) => {
                self.walk(walk)?;
                self.block(Suite::Other, body)
            }
            StmtForm::Try {
                body,
                handlers,
                other,
                last,
            } => {
                self.block(Suite::Other, body)?;
                self.handlers(handlers)?;
                self.block(Suite::Other, stmts_of(other))?;
                self.block(Suite::Other, stmts_of(last))
            }
            StmtForm::Def(_, name, params, body) => {
                self.function(suite, *name)?;
                self.params(params)?;
                self.block(Suite::Other, body)
            }
            StmtForm::Class(name, body) => {
                self.see(Spot::Binds(*name))?;
                self.block(Suite::OfClass, body)
            }
        }
    }

    #[cycle(stmt)]
    fn block(&mut self, suite: Suite, stmts: &[Stmt]) -> Result<(), Memory>
        ensures { OnOk result (self.new ≡ steps.with_stmts suite (stmt_views.view_stmts stmts.now) self.old) }
    {
        'stmts: for stmt in stmts {
            self.stmt(suite, stmt)?;
        }
        Ok(())
    }

    #[cycle(stmt)]
    fn branches(&mut self, branches: &[Branch]) -> Result<(), Memory>
        ensures { OnOk result (self.new
            ≡ steps.with_branches (stmt_views.branches_of (map stmt_views.view_branch branches.now)) self.old) }
    {
        'branches: for branch in branches {
            self.branch(branch)?;
        }
        Ok(())
    }

    #[cycle(stmt)]
    fn branch(&mut self, branch: &Branch) -> Result<(), Memory>
        ensures { let parts = stmt_views.view_branch branch.now in
            OnOk result (self.new ≡ steps.with_stmts Suite.Other parts.1 (steps.with_expr parts.0 self.old)) }
    {
        self.expr(&branch.test)?;
        self.block(Suite::Other, &branch.body)
    }

    #[cycle(stmt)]
    fn handler(&mut self, handler: &Except) -> Result<(), Memory>
        ensures { OnOk result (self.new ≡ steps.with_except (stmt_views.view_except handler.now) self.old) }
    {
        self.option(&handler.kind)?;
        self.bind_option(handler.name)?;
        self.block(Suite::Other, &handler.body)
    }

    #[cycle(stmt)]
    fn handlers(&mut self, handlers: &[Except]) -> Result<(), Memory>
        ensures { OnOk result (self.new
            ≡ steps.with_excepts (stmt_views.excepts_of (map stmt_views.view_except handlers.now)) self.old) }
    {
        'handlers: for handler in handlers {
            self.handler(handler)?;
        }
        Ok(())
    }
}
