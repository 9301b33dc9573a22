//! The functions in statements and in whole trees.

ghost use Rattle.std.specs.Prelude.{◌≡◌, ◌<◌, ℕ, IfOk, length, map, option_map};
ghost use Rattle.rp_codes.specs.CodeSteps.{Adds, branch_codes, shown};
ghost use Rattle.rp_meaning.specs.Blocks as blocks;
ghost use Rattle.rp_meaning.specs.Blocks.{code_in};
ghost use Rattle.rp_tree.specs.ExpressionViews as views;
ghost use Rattle.rp_tree.specs.StatementViews as stmt_views;
ghost use Rattle.rp_tree.specs.StatementViews.{view_tree};

use crate::code::Code;
use crate::codes::Codes;
use crate::expr_codes::{add_expr, add_params, add_place, add_target, add_walk};
use rp_base::Memory;
use rp_tree::{Branch, Except, Expr, Place, Stmt, StmtForm, Tree, stmts_of};
use std::alloc::Global;

/// The functions of a program by the numbers of their code blocks, of which there are so many; of several with one
/// number the first (Python Language Reference, Structure of a program).
///
/// # Errors
/// `Memory` where a growth was refused.
pub fn codes_of<'t>(alloc: Global, tree: &'t Tree, count: usize) -> Result<Codes<'t>, Memory>
    ensures size { IfOk result (λ codes. length codes ≡ count) }
    ensures codes { IfOk result (λ codes. (number : ℕ) → number < count
        → shown codes number ≡ code_in (blocks.of_stmts (view_tree tree.now)) number) }
{
    let mut codes = Codes::new(alloc, count)?;
    add_stmts(&mut codes, &tree.body);
    Ok(codes)
}

#[tactic(auto, using(crate::proofs::Adding::adds))]
fn add_value<'t>(codes: &mut Codes<'t>, value: &'t Option<Expr>)
    ensures { Adds (blocks.of_option (option_map views.view_expr value.now)) codes.old codes.new }
{
    match value {
        None => (),
        Some(expr) => add_expr(codes, expr),
    }
}

fn add_places<'t>(codes: &mut Codes<'t>, places: &'t [Place])
    ensures { Adds (blocks.of_places (map views.view_place places.now)) codes.old codes.new }
{
    'places: for place in places {
        add_place(codes, place);
    }
}

#[cycle(add_stmt)]
#[tactic(auto, using(rp_tree::proofs::StatementEquations::stmt_out))]
fn add_stmt<'t>(codes: &mut Codes<'t>, stmt: &'t Stmt)
    ensures { Adds (blocks.of_stmt (stmt_views.view_stmt stmt.now)) codes.old codes.new }
{
    add_stmt_form(codes, &stmt.form);
}

#[cycle(add_stmt)]
#[tactic(auto, using(rp_tree::proofs::StatementEquations::variants, crate::proofs::Adding::adds))]
fn add_stmt_form<'t>(codes: &mut Codes<'t>, form: &'t StmtForm)
    ensures { Adds (blocks.of_stmt_form (stmt_views.view_stmt_form form.now)) codes.old codes.new }
{
    match form {
        StmtForm::Expr(expr) => add_expr(codes, expr),
        StmtForm::Assign(places, value) => {
            add_places(codes, places);
            add_expr(codes, value);
        }
        StmtForm::Unpack(target, value, _) => {
            add_target(codes, target);
            add_expr(codes, value);
        }
        StmtForm::Aug { place, value, .. } => {
            add_place(codes, place);
            add_expr(codes, value);
        }
        StmtForm::Del(places) => add_places(codes, places),
        StmtForm::Pass => (),
        StmtForm::Break => (),
        StmtForm::Continue => (),
        StmtForm::Global(_) => (),
        StmtForm::Return(value) => add_value(codes, value),
        StmtForm::Raise(value) => add_value(codes, value),
        StmtForm::Assert(test, message) => {
            add_expr(codes, test);
            add_value(codes, message);
        }
        StmtForm::If(branches, other) => {
            add_branches(codes, branches);
            add_stmts(codes, stmts_of(other));
        }
        StmtForm::While(test, body) => {
            add_expr(codes, test);
            add_stmts(codes, body);
        }
        StmtForm::For(walk, body) => {
            add_walk(codes, walk);
            add_stmts(codes, body);
        }
        StmtForm::Try {
            body,
            handlers,
            other,
            last,
        } => {
            add_stmts(codes, body);
            add_handlers(codes, handlers);
            add_stmts(codes, stmts_of(other));
            add_stmts(codes, stmts_of(last));
        }
        StmtForm::Def(block, _, params, body) => {
            codes.put(block.0, Code::Def(params, body));
            add_params(codes, params);
            add_stmts(codes, body);
        }
        StmtForm::Class(_, body) => add_stmts(codes, body),
    }
}

#[cycle(add_stmt)]
fn add_stmts<'t>(codes: &mut Codes<'t>, stmts: &'t [Stmt])
    ensures { Adds (blocks.of_stmts (stmt_views.view_stmts stmts.now)) codes.old codes.new }
{
    'stmts: for stmt in stmts {
        add_stmt(codes, stmt);
    }
}

#[cycle(add_stmt)]
#[tactic(auto, using(rp_tree::proofs::StatementEquations::branch_out, crate::proofs::Adding::adds))]
fn add_branch<'t>(codes: &mut Codes<'t>, branch: &'t Branch)
    ensures { Adds (branch_codes (stmt_views.view_branch branch.now)) codes.old codes.new }
{
    add_expr(codes, &branch.test);
    add_stmts(codes, &branch.body);
}

#[cycle(add_stmt)]
fn add_branches<'t>(codes: &mut Codes<'t>, branches: &'t [Branch])
    ensures { Adds
        (blocks.of_branches (stmt_views.branches_of (map stmt_views.view_branch branches.now))) codes.old codes.new }
{
    'branches: for branch in branches {
        add_branch(codes, branch);
    }
}

#[cycle(add_stmt)]
#[tactic(auto, using(rp_tree::proofs::StatementEquations::except_out, crate::proofs::Adding::adds))]
fn add_handler<'t>(codes: &mut Codes<'t>, handler: &'t Except)
    ensures { Adds (blocks.of_except (stmt_views.view_except handler.now)) codes.old codes.new }
{
    add_value(codes, &handler.kind);
    add_stmts(codes, &handler.body);
}

#[cycle(add_stmt)]
fn add_handlers<'t>(codes: &mut Codes<'t>, handlers: &'t [Except])
    ensures { Adds
        (blocks.of_excepts (stmt_views.excepts_of (map stmt_views.view_except handlers.now))) codes.old codes.new }
{
    'handlers: for handler in handlers {
        add_handler(codes, handler);
    }
}
