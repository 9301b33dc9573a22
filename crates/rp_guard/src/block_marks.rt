//! The marks of statements and of whole trees, set in place.

ghost use Rattle.std.specs.Prelude.{◌≡◌, IfOk, IsOk, Some, map};
ghost use Rattle.rp_tree.specs.ExpressionViews.{view_expr, view_place, view_target};
ghost use Rattle.rp_tree.specs.StatementViews as stmt_views;
ghost use Rattle.rp_tree.specs.Maps as maps;
ghost use Rattle.rp_tree.specs.Maps.{inplace_site};
ghost use Rattle.rp_tree.specs.Marks.{table, guard, guard_at, HasNoGuards, Rewrites};
ghost use Rattle.rp_tree.specs.Guarded.{Guarded};
ghost use Rattle.rp_tree.specs.Augmented.{AugmentsNames};

use crate::marks::{mark_expr, mark_option, mark_params, mark_place, mark_target, mark_walk};
use crate::table::inplace_guard;
use rp_base::Memory;
use rp_tree::{Branch, Except, Expr, Guard, Place, Stmt, StmtForm, Target, Tree};

/// The tree with each form that is to be guarded marked by its guard, and nothing else changed (RestrictedPython,
/// transformer). Where each augmented assignment in it is one to a name, as the policy of scripts asks, no form is left
/// without its guard. The tree has no marks yet.
///
/// # Errors
/// None: the marks are set in place, so that no memory is asked for.
pub fn transform(mut tree: Tree) -> Result<Tree, Memory>
    requires { HasNoGuards (stmt_views.view_tree tree) }
    ensures made { IsOk result }
    ensures marked { IfOk result (λ made. stmt_views.view_tree made ≡ guard (stmt_views.view_tree tree)) }
    ensures rewritten { IfOk result (λ made. Rewrites (stmt_views.view_tree tree) (stmt_views.view_tree made)) }
    ensures guarded { AugmentsNames (stmt_views.view_tree tree)
        → IfOk result (λ made. Guarded (stmt_views.view_tree made)) }
{
    mark_block(&mut tree.body);
    Ok(tree)
}

fn mark_places(places: &mut [Place])
    ensures { map view_place places.new ≡ map (maps.map_place table) (map view_place places.old) }
{
    'places: for place in places.iter_mut() {
        mark_place(place);
    }
}

fn mark_assigned(places: &mut [Place], value: &mut Expr)
    ensures places { map view_place places.new ≡ map (maps.map_place table) (map view_place places.old) }
    ensures value { view_expr value.new ≡ maps.map_expr table (view_expr value.old) }
{
    mark_places(places);
    mark_expr(value);
}

fn mark_unpacked(target: &mut Target, value: &mut Expr, guard: &mut Option<Guard>)
    ensures target { view_target target.new ≡ maps.map_target table (view_target target.old) }
    ensures value { view_expr value.new ≡ maps.map_expr table (view_expr value.old) }
    ensures guard { guard.new ≡ Some Guard.Unpack }
{
    mark_target(target);
    mark_expr(value);
    *guard = Some(Guard::Unpack);
}

fn mark_augmented(place: &mut Place, value: &mut Expr, guard: &mut Option<Guard>)
    ensures place { view_place place.new ≡ maps.map_place table (view_place place.old) }
    ensures value { view_expr value.new ≡ maps.map_expr table (view_expr value.old) }
    ensures guard { guard.new ≡ guard_at (inplace_site (view_place place.old)) }
{
    *guard = inplace_guard(place);
    mark_place(place);
    mark_expr(value);
}

#[cycle(mark_stmt)]
fn mark_stmt(stmt: &mut Stmt)
    ensures { stmt_views.view_stmt stmt.new ≡ maps.map_stmt table (stmt_views.view_stmt stmt.old) }
{
    mark_stmt_form(&mut stmt.form);
}

#[cycle(mark_stmt)]
#[tactic(auto, using(rp_tree::proofs::StatementEquations::variants, crate::proofs::Lists::names_kept))]
fn mark_stmt_form(form: &mut StmtForm)
    ensures { stmt_views.view_stmt_form form.new ≡ maps.map_stmt_form table (stmt_views.view_stmt_form form.old) }
{
    match form {
        StmtForm::Expr(expr) => mark_expr(expr),
        StmtForm::Assign(places, value) => mark_assigned(places, value),
        StmtForm::Unpack(target, value, guard) => mark_unpacked(target, value, guard),
        StmtForm::Aug {
            place,
            value,
            guard,
            ..
        } => mark_augmented(place, value, guard),
        StmtForm::Del(places) => mark_places(places),
        StmtForm::Pass | StmtForm::Break | StmtForm::Continue | StmtForm::Global(_) => {}
        StmtForm::Return(value) => mark_option(value),
        StmtForm::Raise(value) => mark_option(value),
        StmtForm::Assert(test, message) => {
            mark_expr(test);
            mark_option(message);
        }
        StmtForm::If(branches, other) => {
            mark_branches(branches);
            if let Some(stmts) = other {
                mark_block(stmts);
            }
        }
        StmtForm::While(test, body) => {
            mark_expr(test);
            mark_block(body);
        }
        StmtForm::For(walk, body) => {
            mark_walk(walk);
            mark_block(body);
        }
        StmtForm::Try {
            body,
            handlers,
            other,
            last,
        } => {
            mark_block(body);
            mark_handlers(handlers);
            if let Some(stmts) = other {
                mark_block(stmts);
            }
            if let Some(stmts) = last {
                mark_block(stmts);
            }
        }
        StmtForm::Def(_block, _name, params, body) => {
            mark_params(params);
            mark_block(body);
        }
        StmtForm::Class(_name, body) => mark_block(body),
    }
}

#[cycle(mark_stmt)]
fn mark_block(stmts: &mut [Stmt])
    ensures { stmt_views.view_stmts stmts.new ≡ maps.map_stmts table (stmt_views.view_stmts stmts.old) }
{
    'stmts: for stmt in stmts.iter_mut() {
        mark_stmt(stmt);
    }
}

#[cycle(mark_stmt)]
fn mark_branch(branch: &mut Branch)
    ensures test { (stmt_views.view_branch branch.new).0 ≡ maps.map_expr table (stmt_views.view_branch branch.old).0 }
    ensures body { (stmt_views.view_branch branch.new).1 ≡ maps.map_stmts table (stmt_views.view_branch branch.old).1 }
{
    mark_expr(&mut branch.test);
    mark_block(&mut branch.body);
}

#[cycle(mark_stmt)]
fn mark_branches(branches: &mut [Branch])
    ensures { stmt_views.branches_of (map stmt_views.view_branch branches.new)
        ≡ maps.map_branches table (stmt_views.branches_of (map stmt_views.view_branch branches.old)) }
{
    'branches: for branch in branches.iter_mut() {
        mark_branch(branch);
    }
}

#[cycle(mark_stmt)]
#[tactic(auto, using(crate::proofs::Lists::names_option_kept))]
fn mark_handler(handler: &mut Except)
    ensures { stmt_views.view_except handler.new ≡ maps.map_except table (stmt_views.view_except handler.old) }
{
    mark_option(&mut handler.kind);
    mark_block(&mut handler.body);
}

#[cycle(mark_stmt)]
fn mark_handlers(handlers: &mut [Except])
    ensures { stmt_views.excepts_of (map stmt_views.view_except handlers.new)
        ≡ maps.map_excepts table (stmt_views.excepts_of (map stmt_views.view_except handlers.old)) }
{
    'handlers: for handler in handlers.iter_mut() {
        mark_handler(handler);
    }
}
