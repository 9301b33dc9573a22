//! The numbers of the code blocks in statements and in whole trees, set in place.

ghost use Rattle.std.specs.Prelude.{◌≡◌, ◌<◌, ◌+◌, ◌^◌, map, option_map};
ghost use Rattle.rp_tree.specs.ExpressionViews as views;
ghost use Rattle.rp_tree.specs.StatementViews as stmt_views;
ghost use Rattle.rp_tree.specs.Maps as maps;
ghost use Rattle.rp_tree.specs.Maps.{no_blocks, without_blocks};
ghost use Rattle.rp_scope.specs.Numbers as numbering;
ghost use Rattle.rp_scope.specs.Numbers.{block_numbers, block_count, IsNumbered};
ghost use Rattle.rp_scope.specs.NumberSteps.{past, renumbered, branch_numbers};

use crate::numbers::{
    following, number_expr, number_option, number_params, number_place, number_target, number_walk,
};
use rp_tree::{Block, Branch, Except, Expr, Place, Stmt, StmtForm, Tree};

/// Numbers the code blocks of the tree: 1, 2, 3 and so on in the order of their first tokens. The program itself is
/// block 0; a `def`, a `lambda` and a comprehension are code blocks, a class is none (Python Language Reference,
/// Structure of a program).
///
/// Only these numbers change. No memory is asked for. A tree cannot have 2^64 code blocks in this machine's memory; if
/// it had, all from there on would have the greatest number.
pub fn number(tree: &mut Tree)
    ensures kept { without_blocks (stmt_views.view_tree tree.new) ≡ without_blocks (stmt_views.view_tree tree.old) }
    ensures numbers { block_numbers (stmt_views.view_tree tree.new)
        ≡ renumbered 1 (block_numbers (stmt_views.view_tree tree.old)) }
    ensures numbered { block_count (stmt_views.view_tree tree.old) + 1 < 2 ^ 64
        → IsNumbered (stmt_views.view_tree tree.old) (stmt_views.view_tree tree.new) }
{
    let _next = number_block(&mut tree.body, 1);
}

fn number_value(value: &mut Option<Expr>, first: usize) -> usize
    ensures kept { option_map (maps.map_expr no_blocks) (option_map views.view_expr value.new)
        ≡ option_map (maps.map_expr no_blocks) (option_map views.view_expr value.old) }
    ensures numbers { numbering.option_numbers (option_map views.view_expr value.new)
        ≡ renumbered first (numbering.option_numbers (option_map views.view_expr value.old)) }
    ensures next { result ≡ past (numbering.option_numbers (option_map views.view_expr value.old)) first }
{
    match value {
        None => first,
        Some(expr) => number_expr(expr, first),
    }
}

fn number_places(places: &mut [Place], first: usize) -> usize
    ensures kept { map (maps.map_place no_blocks) (map views.view_place places.new)
        ≡ map (maps.map_place no_blocks) (map views.view_place places.old) }
    ensures numbers { numbering.places_numbers (map views.view_place places.new)
        ≡ renumbered first (numbering.places_numbers (map views.view_place places.old)) }
    ensures next { result ≡ past (numbering.places_numbers (map views.view_place places.old)) first }
{
    let mut next = first;
    'places: for place in places.iter_mut() {
        next = number_place(place, next);
    }
    next
}

#[cycle(number_stmt)]
fn number_stmt(stmt: &mut Stmt, first: usize) -> usize
    ensures kept { maps.map_stmt no_blocks (stmt_views.view_stmt stmt.new)
        ≡ maps.map_stmt no_blocks (stmt_views.view_stmt stmt.old) }
    ensures numbers { numbering.stmt_numbers (stmt_views.view_stmt stmt.new)
        ≡ renumbered first (numbering.stmt_numbers (stmt_views.view_stmt stmt.old)) }
    ensures next { result ≡ past (numbering.stmt_numbers (stmt_views.view_stmt stmt.old)) first }
{
    number_stmt_form(&mut stmt.form, first)
}

#[cycle(number_stmt)]
#[tactic(auto, using(rp_tree::proofs::StatementEquations::variants, crate::proofs::Runs::append_runs))]
fn number_stmt_form(form: &mut StmtForm, first: usize) -> usize
    ensures kept { maps.map_stmt_form no_blocks (stmt_views.view_stmt_form form.new)
        ≡ maps.map_stmt_form no_blocks (stmt_views.view_stmt_form form.old) }
    ensures numbers { numbering.stmt_form_numbers (stmt_views.view_stmt_form form.new)
        ≡ renumbered first (numbering.stmt_form_numbers (stmt_views.view_stmt_form form.old)) }
    ensures next { result ≡ past (numbering.stmt_form_numbers (stmt_views.view_stmt_form form.old)) first }
{
    match form {
        StmtForm::Expr(expr) => number_expr(expr, first),
        StmtForm::Assign(places, value) => number_expr(value, number_places(places, first)),
        StmtForm::Unpack(target, value, _) => number_expr(value, number_target(target, first)),
        StmtForm::Aug { place, value, .. } => number_expr(value, number_place(place, first)),
        StmtForm::Del(places) => number_places(places, first),
        StmtForm::Pass | StmtForm::Break | StmtForm::Continue | StmtForm::Global(_) => first,
        StmtForm::Return(value) => number_value(value, first),
        StmtForm::Raise(value) => number_value(value, first),
        StmtForm::Assert(test, message) => number_value(message, number_expr(test, first)),
        StmtForm::If(branches, other) => {
            let other_first = number_branches(branches, first);
            match other {
                None => other_first,
                Some(stmts) => number_block(stmts, other_first),
            }
        }
        StmtForm::While(test, body) => number_block(body, number_expr(test, first)),
        StmtForm::For(walk, body) => number_block(body, number_walk(walk, first)),
        StmtForm::Try {
            body,
            handlers,
            other,
            last,
        } => {
            let handlers_first = number_block(body, first);
            let other_first = number_handlers(handlers, handlers_first);
            match other {
                None => match last {
                    None => other_first,
                    Some(finals) => number_block(finals, other_first),
                },
                Some(stmts) => {
                    let finals_first = number_block(stmts, other_first);
                    match last {
                        None => finals_first,
                        Some(finals) => number_block(finals, finals_first),
                    }
                }
            }
        }
        StmtForm::Def(block, _named, params, body) => {
            *block = Block(first);
            let params_first = following(first);
            let body_first = number_params(params, params_first);
            number_block(body, body_first)
        }
        StmtForm::Class(_named, body) => number_block(body, first),
    }
}

#[cycle(number_stmt)]
fn number_block(stmts: &mut [Stmt], first: usize) -> usize
    ensures kept { maps.map_stmts no_blocks (stmt_views.view_stmts stmts.new)
        ≡ maps.map_stmts no_blocks (stmt_views.view_stmts stmts.old) }
    ensures numbers { block_numbers (stmt_views.view_stmts stmts.new)
        ≡ renumbered first (block_numbers (stmt_views.view_stmts stmts.old)) }
    ensures next { result ≡ past (block_numbers (stmt_views.view_stmts stmts.old)) first }
{
    let mut next = first;
    'stmts: for stmt in stmts.iter_mut() {
        next = number_stmt(stmt, next);
    }
    next
}

#[cycle(number_stmt)]
#[tactic(auto, using(crate::proofs::Runs::append_runs))]
fn number_branch(branch: &mut Branch, first: usize) -> usize
    ensures test { maps.map_expr no_blocks (stmt_views.view_branch branch.new).0
        ≡ maps.map_expr no_blocks (stmt_views.view_branch branch.old).0 }
    ensures body { maps.map_stmts no_blocks (stmt_views.view_branch branch.new).1
        ≡ maps.map_stmts no_blocks (stmt_views.view_branch branch.old).1 }
    ensures numbers { branch_numbers (stmt_views.view_branch branch.new)
        ≡ renumbered first (branch_numbers (stmt_views.view_branch branch.old)) }
    ensures next { result ≡ past (branch_numbers (stmt_views.view_branch branch.old)) first }
{
    let body_first = number_expr(&mut branch.test, first);
    number_block(&mut branch.body, body_first)
}

#[cycle(number_stmt)]
fn number_branches(branches: &mut [Branch], first: usize) -> usize
    ensures kept { maps.map_branches no_blocks (stmt_views.branches_of (map stmt_views.view_branch branches.new))
        ≡ maps.map_branches no_blocks (stmt_views.branches_of (map stmt_views.view_branch branches.old)) }
    ensures numbers { numbering.branches_numbers (stmt_views.branches_of (map stmt_views.view_branch branches.new))
        ≡ renumbered first
        (numbering.branches_numbers (stmt_views.branches_of (map stmt_views.view_branch branches.old))) }
    ensures next { result
        ≡ past (numbering.branches_numbers (stmt_views.branches_of (map stmt_views.view_branch branches.old))) first }
{
    let mut next = first;
    'branches: for branch in branches.iter_mut() {
        next = number_branch(branch, next);
    }
    next
}

#[cycle(number_stmt)]
#[tactic(auto, using(crate::proofs::Runs::append_runs))]
fn number_handler(handler: &mut Except, first: usize) -> usize
    ensures kept { maps.map_except no_blocks (stmt_views.view_except handler.new)
        ≡ maps.map_except no_blocks (stmt_views.view_except handler.old) }
    ensures numbers { numbering.except_numbers (stmt_views.view_except handler.new)
        ≡ renumbered first (numbering.except_numbers (stmt_views.view_except handler.old)) }
    ensures next { result ≡ past (numbering.except_numbers (stmt_views.view_except handler.old)) first }
{
    let body_first = number_value(&mut handler.kind, first);
    number_block(&mut handler.body, body_first)
}

#[cycle(number_stmt)]
fn number_handlers(handlers: &mut [Except], first: usize) -> usize
    ensures kept { maps.map_excepts no_blocks (stmt_views.excepts_of (map stmt_views.view_except handlers.new))
        ≡ maps.map_excepts no_blocks (stmt_views.excepts_of (map stmt_views.view_except handlers.old)) }
    ensures numbers { numbering.excepts_numbers (stmt_views.excepts_of (map stmt_views.view_except handlers.new))
        ≡ renumbered first
        (numbering.excepts_numbers (stmt_views.excepts_of (map stmt_views.view_except handlers.old))) }
    ensures next { result
        ≡ past (numbering.excepts_numbers (stmt_views.excepts_of (map stmt_views.view_except handlers.old))) first }
{
    let mut next = first;
    'handlers: for handler in handlers.iter_mut() {
        next = number_handler(handler, next);
    }
    next
}
