//! The scopes of the code blocks in statements.

ghost use Rattle.std.specs.Prelude.{◌≡◌, ◌++◌, map, option_map, OnOk};
ghost use Rattle.rp_tree.specs.ExpressionViews as views;
ghost use Rattle.rp_tree.specs.StatementViews as stmt_views;
ghost use Rattle.rp_scope.specs.Blocks as code_blocks;
ghost use Rattle.rp_scope.specs.BlockSteps.{branch_blocks};
ghost use Rattle.rp_scope.specs.Scopes.{telling_scopes};

use crate::expr_layouts::{
    lay_out_expr, lay_out_params, lay_out_place, lay_out_target, lay_out_walk,
};
use crate::scopes::{Scopes, add_function};
use rp_base::Memory;
use rp_tree::{Branch, Except, Expr, Named, Place, Stmt, StmtForm, Target, stmts_of};
use std::alloc::Global;

#[tactic(auto, using(crate::proofs::Appends::appends))]
fn lay_out_value(
    alloc: Global,
    layouts: &mut Scopes,
    around: usize,
    value: &Option<Expr>,
) -> Result<(), Memory>
    ensures { OnOk result (layouts.new
        ≡ layouts.old ++ code_blocks.option_blocks telling_scopes around (option_map views.view_expr value.now)) }
{
    match value {
        None => Ok(()),
        Some(expr) => lay_out_expr(alloc, layouts, around, expr),
    }
}

/// Notes that a name stands in the block, where there is one.
fn note_option(layouts: &mut Scopes, block: usize, named: &Option<Named>) -> Result<(), Memory>
    ensures { layouts.new ≡ layouts.old }
{
    match named {
        None => Ok(()),
        Some(named) => layouts.note(block, named.name),
    }
}

#[tactic(auto, using(crate::proofs::Appends::appends))]
fn lay_out_places(
    alloc: Global,
    layouts: &mut Scopes,
    around: usize,
    places: &[Place],
) -> Result<(), Memory>
    ensures { OnOk result (layouts.new
        ≡ layouts.old ++ code_blocks.places_blocks telling_scopes around (map views.view_place places.now)) }
{
    'places: for place in places {
        lay_out_place(alloc, layouts, around, place)?;
    }
    Ok(())
}

#[tactic(auto, using(crate::proofs::Appends::appends))]
fn lay_out_assign(
    alloc: Global,
    layouts: &mut Scopes,
    around: usize,
    places: &[Place],
    value: &Expr,
) -> Result<(), Memory>
    ensures { OnOk result (layouts.new
        ≡ layouts.old ++ (code_blocks.places_blocks telling_scopes around (map views.view_place places.now)
        ++ code_blocks.expr_blocks telling_scopes around (views.view_expr value.now))) }
{
    lay_out_places(alloc, layouts, around, places)?;
    lay_out_expr(alloc, layouts, around, value)
}

#[tactic(auto, using(crate::proofs::Appends::appends))]
fn lay_out_unpack(
    alloc: Global,
    layouts: &mut Scopes,
    around: usize,
    target: &Target,
    value: &Expr,
) -> Result<(), Memory>
    ensures { OnOk result (layouts.new
        ≡ layouts.old ++ (code_blocks.target_blocks telling_scopes around (views.view_target target.now)
        ++ code_blocks.expr_blocks telling_scopes around (views.view_expr value.now))) }
{
    lay_out_target(alloc, layouts, around, target)?;
    lay_out_expr(alloc, layouts, around, value)
}

#[tactic(auto, using(crate::proofs::Appends::appends))]
fn lay_out_aug(
    alloc: Global,
    layouts: &mut Scopes,
    around: usize,
    place: &Place,
    value: &Expr,
) -> Result<(), Memory>
    ensures { OnOk result (layouts.new
        ≡ layouts.old ++ (code_blocks.place_blocks telling_scopes around (views.view_place place.now)
        ++ code_blocks.expr_blocks telling_scopes around (views.view_expr value.now))) }
{
    lay_out_place(alloc, layouts, around, place)?;
    lay_out_expr(alloc, layouts, around, value)
}

#[tactic(auto, using(crate::proofs::Appends::appends))]
fn lay_out_assert(
    alloc: Global,
    layouts: &mut Scopes,
    around: usize,
    test: &Expr,
    message: &Option<Expr>,
) -> Result<(), Memory>
    ensures { OnOk result (layouts.new
        ≡ layouts.old ++ (code_blocks.expr_blocks telling_scopes around (views.view_expr test.now)
        ++ code_blocks.option_blocks telling_scopes around (option_map views.view_expr message.now))) }
{
    lay_out_expr(alloc, layouts, around, test)?;
    lay_out_value(alloc, layouts, around, message)
}

/// Adds the scopes of the code blocks in the statements, which stand in the block with the number `around`.
#[cycle(lay_out_stmts)]
#[tactic(auto, using(crate::proofs::Appends::appends))]
pub fn lay_out_stmts(
    alloc: Global,
    layouts: &mut Scopes,
    around: usize,
    stmts: &[Stmt],
) -> Result<(), Memory>
    ensures { OnOk result (layouts.new
        ≡ layouts.old
        ++ code_blocks.stmts_blocks telling_scopes around (stmt_views.stmts_of (map stmt_views.view_stmt stmts.now))) }
{
    'stmts: for stmt in stmts {
        lay_out_stmt_form(alloc, layouts, around, &stmt.form)?;
    }
    Ok(())
}

#[cycle(lay_out_stmts)]
#[tactic(auto, using(rp_tree::proofs::StatementEquations::variants, crate::proofs::Laid::laid))]
fn lay_out_stmt_form(
    alloc: Global,
    layouts: &mut Scopes,
    around: usize,
    form: &StmtForm,
) -> Result<(), Memory>
    ensures { OnOk result (layouts.new
        ≡ layouts.old ++ code_blocks.stmt_form_blocks telling_scopes around (stmt_views.view_stmt_form form.now)) }
{
    match form {
        StmtForm::Expr(expr) => lay_out_expr(alloc, layouts, around, expr),
        StmtForm::Assign(places, value) => lay_out_assign(alloc, layouts, around, places, value),
        StmtForm::Unpack(to, value, _) => lay_out_unpack(alloc, layouts, around, to, value),
        StmtForm::Aug { place, value, .. } => lay_out_aug(alloc, layouts, around, place, value),
        StmtForm::Del(places) => lay_out_places(alloc, layouts, around, places),
        StmtForm::Pass | StmtForm::Break | StmtForm::Continue | StmtForm::Global(_) => Ok(()),
        StmtForm::Return(value) => lay_out_value(alloc, layouts, around, value),
        StmtForm::Raise(value) => lay_out_value(alloc, layouts, around, value),
        StmtForm::Assert(test, words) => lay_out_assert(alloc, layouts, around, test, words),
        StmtForm::If(branches, other) => {
            lay_out_branches(alloc, layouts, around, branches)?;
            lay_out_stmts(alloc, layouts, around, stmts_of(other))
        }
        StmtForm::While(test, body) => {
            lay_out_expr(alloc, layouts, around, test)?;
            lay_out_stmts(alloc, layouts, around, body)
        }
        StmtForm::For(walk, body) => {
            lay_out_walk(alloc, layouts, around, around, walk)?;
            lay_out_stmts(alloc, layouts, around, body)
        }
        StmtForm::Try {
            body,
            handlers,
            other,
            last,
        } => {
            lay_out_stmts(alloc, layouts, around, body)?;
            lay_out_handlers(alloc, layouts, around, handlers)?;
            lay_out_stmts(alloc, layouts, around, stmts_of(other))?;
            lay_out_stmts(alloc, layouts, around, stmts_of(last))
        }
        StmtForm::Def(block, named, params, body) => {
            layouts.note(around, named.name)?;
            add_function(alloc, layouts, around, params, body)?;
            lay_out_params(alloc, layouts, around, params)?;
            lay_out_stmts(alloc, layouts, block.0, body)
        }
        StmtForm::Class(named, body) => {
            layouts.note(around, named.name)?;
            lay_out_stmts(alloc, layouts, around, body)
        }
    }
}

#[cycle(lay_out_stmts)]
#[tactic(auto, using(crate::proofs::Appends::appends))]
fn lay_out_branches(
    alloc: Global,
    layouts: &mut Scopes,
    around: usize,
    branches: &[Branch],
) -> Result<(), Memory>
    ensures { OnOk result (layouts.new
        ≡ layouts.old ++ code_blocks.branches_blocks telling_scopes around
        (stmt_views.branches_of (map stmt_views.view_branch branches.now))) }
{
    'branches: for branch in branches {
        lay_out_branch(alloc, layouts, around, branch)?;
    }
    Ok(())
}

#[cycle(lay_out_stmts)]
#[tactic(auto, using(crate::proofs::Appends::appends))]
fn lay_out_branch(
    alloc: Global,
    layouts: &mut Scopes,
    around: usize,
    branch: &Branch,
) -> Result<(), Memory>
    ensures { OnOk result (layouts.new
        ≡ layouts.old ++ branch_blocks telling_scopes around (stmt_views.view_branch branch.now)) }
{
    lay_out_expr(alloc, layouts, around, &branch.test)?;
    lay_out_stmts(alloc, layouts, around, &branch.body)
}

#[cycle(lay_out_stmts)]
#[tactic(auto, using(crate::proofs::Appends::appends))]
fn lay_out_handlers(
    alloc: Global,
    layouts: &mut Scopes,
    around: usize,
    handlers: &[Except],
) -> Result<(), Memory>
    ensures { OnOk result (layouts.new
        ≡ layouts.old ++ code_blocks.excepts_blocks telling_scopes around
        (stmt_views.excepts_of (map stmt_views.view_except handlers.now))) }
{
    'handlers: for handler in handlers {
        lay_out_handler(alloc, layouts, around, handler)?;
    }
    Ok(())
}

#[cycle(lay_out_stmts)]
#[tactic(auto, using(crate::proofs::Appends::appends))]
fn lay_out_handler(
    alloc: Global,
    layouts: &mut Scopes,
    around: usize,
    handler: &Except,
) -> Result<(), Memory>
    ensures { OnOk result (layouts.new
        ≡ layouts.old ++ code_blocks.except_blocks telling_scopes around (stmt_views.view_except handler.now)) }
{
    lay_out_value(alloc, layouts, around, &handler.kind)?;
    note_option(layouts, around, &handler.name)?;
    lay_out_stmts(alloc, layouts, around, &handler.body)
}
