//! The heights of statements and of whole trees.

ghost use Rattle.std.specs.Prelude.{◌≡◌, map, option_map};
ghost use Rattle.rp_tree.specs.ExpressionViews.{view_expr, view_place};
ghost use Rattle.rp_tree.specs.StatementViews as stmt_views;
ghost use Rattle.rp_tree.specs.Heights as tree_heights;
ghost use Rattle.rp_tree.specs.Heights.{capped};

use crate::heights::{above, expr_height, params_height, place_height, target_height, walk_height};
use rp_tree::{Branch, Except, Expr, Place, Stmt, StmtForm, Tree, stmts_of};

/// The height of a tree: the greatest height of its statements, 0 where it has none, and the greatest
/// `u32` where the height is above that.
///
/// The nodes of a tree are its statements, expressions, places and groups of targets. One without parts has
/// height 1, another 1 more than the greatest height of its parts; what is no node, as a branch, a handler, a
/// clause, a parameter, an argument or a trailer, leaves its parts to the node around it.
pub fn height(tree: &Tree) -> u32
    ensures { result ≡ capped (tree_heights.stmts_height (stmt_views.view_tree tree.now)) }
{
    block_height(&tree.body)
}

#[tactic(auto, unfolding(rp_tree::specs::Heights::capped))]
fn option_height(expr: &Option<Expr>) -> u32
    ensures { result ≡ capped (tree_heights.option_height (option_map view_expr expr.now)) }
{
    match expr {
        None => 0,
        Some(expr) => expr_height(expr),
    }
}

#[tactic(auto, unfolding(rp_tree::specs::Heights::capped))]
fn places_height(places: &[Place]) -> u32
    ensures { result ≡ capped (tree_heights.places_height (map view_place places.now)) }
{
    let mut greatest = 0;
    'places: for place in places {
        greatest = greatest.max(place_height(place));
    }
    greatest
}

/// The height of a statement: 1 more than the greatest height of the statements, expressions, places and groups of
/// targets in it, and the greatest `u32` where it is above that.
#[cycle(block_height)]
pub fn stmt_height(stmt: &Stmt) -> u32
    ensures { result ≡ capped (tree_heights.stmt_height (stmt_views.view_stmt stmt.now)) }
{
    above(stmt_form_height(&stmt.form))
}

#[cycle(block_height)]
#[tactic(auto, using(rp_tree::proofs::StatementEquations::variants), unfolding(rp_tree::specs::Heights::capped))]
fn stmt_form_height(form: &StmtForm) -> u32
    ensures { result ≡ capped (tree_heights.stmt_form_height (stmt_views.view_stmt_form form.now)) }
{
    match form {
        StmtForm::Expr(expr) => expr_height(expr),
        StmtForm::Assign(places, value) => places_height(places).max(expr_height(value)),
        StmtForm::Unpack(target, value, _) => target_height(target).max(expr_height(value)),
        StmtForm::Aug { place, value, .. } => place_height(place).max(expr_height(value)),
        StmtForm::Del(places) => places_height(places),
        StmtForm::Pass | StmtForm::Break | StmtForm::Continue | StmtForm::Global(_) => 0,
        StmtForm::Return(value) => option_height(value),
        StmtForm::Raise(value) => option_height(value),
        StmtForm::Assert(test, message) => expr_height(test).max(option_height(message)),
        StmtForm::If(branches, other) => {
            let other_height = block_height(stmts_of(other));
            branches_height(branches).max(other_height)
        }
        StmtForm::While(test, body) => expr_height(test).max(block_height(body)),
        StmtForm::For(walk, body) => walk_height(walk).max(block_height(body)),
        StmtForm::Try {
            body,
            handlers,
            other,
            last,
        } => {
            let other_height = block_height(stmts_of(other)).max(block_height(stmts_of(last)));
            block_height(body).max(handlers_height(handlers).max(other_height))
        }
        StmtForm::Def(_, _, params, body) => params_height(params).max(block_height(body)),
        StmtForm::Class(_, body) => block_height(body),
    }
}

#[cycle(block_height)]
#[tactic(auto, unfolding(rp_tree::specs::Heights::capped))]
fn block_height(stmts: &[Stmt]) -> u32
    ensures { result ≡ capped (tree_heights.stmts_height (stmt_views.view_stmts stmts.now)) }
{
    let mut greatest = 0;
    'stmts: for stmt in stmts {
        greatest = greatest.max(stmt_height(stmt));
    }
    greatest
}

#[cycle(block_height)]
#[tactic(auto, unfolding(rp_tree::specs::Heights::capped))]
fn branches_height(branches: &[Branch]) -> u32
    ensures { result
        ≡ capped (tree_heights.branches_height (stmt_views.branches_of (map stmt_views.view_branch branches.now))) }
{
    let mut greatest = 0;
    'branches: for branch in branches {
        greatest = greatest.max(expr_height(&branch.test).max(block_height(&branch.body)));
    }
    greatest
}

#[cycle(block_height)]
#[tactic(auto, unfolding(rp_tree::specs::Heights::capped))]
fn handler_height(handler: &Except) -> u32
    ensures { result ≡ capped (tree_heights.except_height (stmt_views.view_except handler.now)) }
{
    option_height(&handler.kind).max(block_height(&handler.body))
}

#[cycle(block_height)]
#[tactic(auto, unfolding(rp_tree::specs::Heights::capped))]
fn handlers_height(handlers: &[Except]) -> u32
    ensures { result
        ≡ capped (tree_heights.excepts_height (stmt_views.excepts_of (map stmt_views.view_except handlers.now))) }
{
    let mut greatest = 0;
    'handlers: for handler in handlers {
        greatest = greatest.max(handler_height(handler));
    }
    greatest
}
