//! Whether a form stands without its guard in a statement or in a whole tree.

ghost use Rattle.std.specs.Prelude.{◌≡◌, ◌&&◌, ◌↔◌, IsTrue, map};
ghost use Rattle.std.specs.List.{list_all};
ghost use Rattle.rp_tree.specs.ExpressionViews.{view_place};
ghost use Rattle.rp_tree.specs.StatementViews as stmt_views;
ghost use Rattle.rp_tree.specs.Guarded as guardedness;
ghost use Rattle.rp_tree.specs.Guarded.{Guarded};

use crate::checks::{
    are_params_guarded, is_expr_guarded, is_mark, is_option_guarded, is_place_guarded,
    is_target_guarded, is_walk_guarded,
};
use rp_tree::{Branch, Except, Guard, Place, Stmt, StmtForm, Tree, stmts_of};

/// Whether no attribute, item, slice, iteration, unpacking, call with a star or augmented assignment in the tree stands
/// without its guard (RestrictedPython, transformer).
pub fn guarded(tree: &Tree) -> bool
    ensures { IsTrue result ↔ Guarded (stmt_views.view_tree tree.now) }
{
    is_block_guarded(&tree.body)
}

fn are_places_guarded(places: &[Place]) -> bool
    ensures { result ≡ list_all guardedness.is_place_guarded (map view_place places.now) }
{
    'places: for place in places {
        if !is_place_guarded(place) {
            return false;
        }
    }
    true
}

#[cycle(is_stmt_guarded)]
fn is_stmt_guarded(stmt: &Stmt) -> bool
    ensures { result ≡ guardedness.is_stmt_guarded (stmt_views.view_stmt stmt.now) }
{
    is_stmt_form_guarded(&stmt.form)
}

#[cycle(is_stmt_guarded)]
#[tactic(auto, using(rp_tree::proofs::StatementEquations::variants))]
fn is_stmt_form_guarded(form: &StmtForm) -> bool
    ensures { result ≡ guardedness.is_stmt_form_guarded (stmt_views.view_stmt_form form.now) }
{
    match form {
        StmtForm::Expr(expr) => is_expr_guarded(expr),
        StmtForm::Assign(places, value) => are_places_guarded(places) && is_expr_guarded(value),
        StmtForm::Unpack(target, value, guard) => {
            is_target_guarded(target) && is_expr_guarded(value) && is_mark(Guard::Unpack, guard)
        }
        StmtForm::Aug {
            place,
            value,
            guard,
            ..
        } => is_place_guarded(place) && is_expr_guarded(value) && is_mark(Guard::Inplace, guard),
        StmtForm::Del(places) => are_places_guarded(places),
        StmtForm::Pass | StmtForm::Break | StmtForm::Continue | StmtForm::Global(_) => true,
        StmtForm::Return(value) => is_option_guarded(value),
        StmtForm::Raise(value) => is_option_guarded(value),
        StmtForm::Assert(test, message) => is_expr_guarded(test) && is_option_guarded(message),
        StmtForm::If(branches, other) => {
            are_branches_guarded(branches) && is_block_guarded(stmts_of(other))
        }
        StmtForm::While(test, body) => is_expr_guarded(test) && is_block_guarded(body),
        StmtForm::For(walk, body) => is_walk_guarded(walk) && is_block_guarded(body),
        StmtForm::Try {
            body,
            handlers,
            other,
            last,
        } => {
            is_block_guarded(body)
                && are_handlers_guarded(handlers)
                && is_block_guarded(stmts_of(other))
                && is_block_guarded(stmts_of(last))
        }
        StmtForm::Def(_, _, params, body) => are_params_guarded(params) && is_block_guarded(body),
        StmtForm::Class(_, body) => is_block_guarded(body),
    }
}

#[cycle(is_stmt_guarded)]
fn is_block_guarded(stmts: &[Stmt]) -> bool
    ensures { result ≡ guardedness.are_stmts_guarded (stmt_views.view_stmts stmts.now) }
{
    'stmts: for stmt in stmts {
        if !is_stmt_guarded(stmt) {
            return false;
        }
    }
    true
}

#[cycle(is_stmt_guarded)]
fn is_branch_guarded(branch: &Branch) -> bool
    ensures { result
        ≡ (guardedness.is_expr_guarded (stmt_views.view_branch branch.now).0 && guardedness.are_stmts_guarded
        (stmt_views.view_branch branch.now).1) }
{
    is_expr_guarded(&branch.test) && is_block_guarded(&branch.body)
}

#[cycle(is_stmt_guarded)]
fn are_branches_guarded(branches: &[Branch]) -> bool
    ensures { result
        ≡ guardedness.are_branches_guarded (stmt_views.branches_of (map stmt_views.view_branch branches.now)) }
{
    'branches: for branch in branches {
        if !is_branch_guarded(branch) {
            return false;
        }
    }
    true
}

#[cycle(is_stmt_guarded)]
fn is_handler_guarded(handler: &Except) -> bool
    ensures { result ≡ guardedness.is_except_guarded (stmt_views.view_except handler.now) }
{
    is_option_guarded(&handler.kind) && is_block_guarded(&handler.body)
}

#[cycle(is_stmt_guarded)]
fn are_handlers_guarded(handlers: &[Except]) -> bool
    ensures { result
        ≡ guardedness.are_excepts_guarded (stmt_views.excepts_of (map stmt_views.view_except handlers.now)) }
{
    'handlers: for handler in handlers {
        if !is_handler_guarded(handler) {
            return false;
        }
    }
    true
}
