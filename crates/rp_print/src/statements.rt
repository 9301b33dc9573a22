//! The lines of statements, and the text of a whole tree.

ghost use Rattle.std.specs.Prelude.{◌≡◌, suc, true, chars, map, option_map, string_bytes, IfOk, IsTrue, OnOk};
ghost use Rattle.std.specs.Char.{is_ascii};
ghost use Rattle.std.specs.List.{list_all};
ghost use Rattle.rp_base.specs.Names.{word_of};
ghost use Rattle.rp_tree.specs.ExpressionViews.{view_expr, view_params, view_place, view_target, view_walk};
ghost use Rattle.rp_tree.specs.Maps.{named};
ghost use Rattle.rp_tree.specs.StatementViews as stmt_views;
ghost use Rattle.rp_print.specs.LineSteps as step;
ghost use Rattle.rp_print.specs.Statements as stmt_printing;

use crate::expressions::{
    write_expr, write_params, write_place, write_statement_iterable, write_target, write_walk,
};
use crate::guards::{open_call, write_dealing};
use crate::operators::binary_text;
use crate::page::Page;
use rp_base::{BinOp, Memory, Names};
use rp_tree::{
    Branch, Except, Expr, Guard, Named, Params, Place, Stmt, StmtForm, Target, Tree, Walk, stmts_of,
};
use std::alloc::Global;

/// The text of a tree: one statement a line, four spaces for each block, and a newline behind each line. A form that
/// is handed to a guard is a call of it (RestrictedPython, transformer). A name stands for its word in `names`; one
/// that isn't held there has the empty word.
///
/// # Errors
/// `Memory` where a growth was refused.
pub fn source_text(alloc: Global, tree: &Tree, names: &Names) -> Result<String, Memory>
    ensures printed { IfOk result (λ text. chars (string_bytes text)
        ≡ stmt_printing.printed_by (word_of names.now) (stmt_views.view_tree tree.now)) }
    ensures named { IfOk result (λ text. chars (string_bytes text)
        ≡ stmt_printing.printed (named (word_of names.now) (stmt_views.view_tree tree.now))) }
{
    let mut page = Page::new(alloc);
    write_stmts(names, &mut page, 0, &tree.body)?;
    Ok(page.into_string())
}

/// Places, each before an assignment mark.
fn write_assigned(names: &Names, page: &mut Page, places: &[Place]) -> Result<(), Memory>
    ensures { OnOk result (page.new ≡ step.put_assigned (word_of names.now) (map view_place places.now) page.old) }
{
    'places: for place in places {
        write_place(names, page, place)?;
        page.mark(" = ")?;
    }
    Ok(())
}

fn write_places(names: &Names, page: &mut Page, places: &[Place]) -> Result<(), Memory>
    ensures { OnOk result (page.new ≡ step.put_places (word_of names.now) true (map view_place places.now) page.old) }
{
    let mut first = true;
    'places: for place in places {
        page.separate(", ", first)?;
        first = false;
        write_place(names, page, place)?;
    }
    Ok(())
}

fn write_names(names: &Names, page: &mut Page, bound: &[Named]) -> Result<(), Memory>
    ensures { OnOk result (page.new ≡ step.put_names (word_of names.now) true bound.now page.old) }
{
    let mut first = true;
    'bound: for named in bound {
        page.separate(", ", first)?;
        first = false;
        page.name(names, named.name)?;
    }
    Ok(())
}

/// An expression behind what stands before it, where there is one.
fn write_behind(
    names: &Names,
    page: &mut Page,
    before: &'static str,
    expr: &Option<Expr>,
) -> Result<(), Memory>
    requires { IsTrue (list_all is_ascii before.now) }
    ensures { OnOk result (page.new
        ≡ step.put_behind (word_of names.now) before.now (option_map view_expr expr.now) page.old) }
{
    match expr {
        None => Ok(()),
        Some(expr) => {
            page.mark(before)?;
            write_expr(names, page, expr)
        }
    }
}

/// The name that an exception is bound to, where there is one.
fn write_bound_name(names: &Names, page: &mut Page, name: Option<Named>) -> Result<(), Memory>
    ensures { OnOk result (page.new ≡ step.put_bound_name (word_of names.now) name page.old) }
{
    match name {
        None => Ok(()),
        Some(named) => {
            page.mark(" as ")?;
            page.name(names, named.name)
        }
    }
}

/// A value that is dealt out over targets.
fn write_value(
    names: &Names,
    page: &mut Page,
    guard: Option<Guard>,
    target: &Target,
    value: &Expr,
) -> Result<(), Memory>
    ensures { OnOk result (page.new
        ≡ step.put_value (word_of names.now) guard (view_target target.now) (view_expr value.now) page.old) }
{
    match guard {
        None => write_expr(names, page, value),
        Some(_) => {
            open_unpacking(page, target)?;
            write_expr(names, page, value)?;
            close_unpacking(page, target)
        }
    }
}

#[tactic(auto, using(rp_tree::proofs::ExpressionEquations::variants))]
fn open_unpacking(page: &mut Page, target: &Target) -> Result<(), Memory>
    ensures { OnOk result (page.new ≡ step.open_unpacking (view_target target.now) page.old) }
{
    match target {
        Target::Place(_) => Ok(()),
        Target::Group(_targets) => open_call(page, "_unpack_sequence_"),
    }
}

#[tactic(auto, using(rp_tree::proofs::ExpressionEquations::variants))]
fn close_unpacking(page: &mut Page, target: &Target) -> Result<(), Memory>
    ensures { OnOk result (page.new ≡ step.close_unpacking (view_target target.now) page.old) }
{
    match target {
        Target::Place(_) => Ok(()),
        Target::Group(targets) => write_dealing(page, targets),
    }
}

/// An augmented assignment.
fn write_augmented(
    names: &Names,
    page: &mut Page,
    guard: Option<Guard>,
    place: &Place,
    op: BinOp,
    value: &Expr,
) -> Result<(), Memory>
    ensures { OnOk result (page.new
        ≡ step.put_aug (word_of names.now) guard (view_place place.now) op (view_expr value.now) page.old) }
{
    write_place(names, page, place)?;
    match guard {
        None => {
            page.mark(" ")?;
            write_mark(page, op)?;
            page.mark(" ")?;
            write_expr(names, page, value)
        }
        Some(_guard) => {
            page.mark(" = ")?;
            write_in_place(names, page, place, op, value)
        }
    }
}

/// The call of the guard of an augmented assignment.
fn write_in_place(
    names: &Names,
    page: &mut Page,
    place: &Place,
    op: BinOp,
    value: &Expr,
) -> Result<(), Memory>
    ensures { OnOk result (page.new
        ≡ step.put_in_place (word_of names.now) (view_place place.now) op (view_expr value.now) page.old) }
{
    open_call(page, "_inplacevar_")?;
    page.mark("'")?;
    write_mark(page, op)?;
    page.mark("'")?;
    page.mark(", ")?;
    write_place(names, page, place)?;
    page.mark(", ")?;
    write_expr(names, page, value)?;
    page.mark(")")
}

/// The mark of an augmented assignment.
fn write_mark(page: &mut Page, op: BinOp) -> Result<(), Memory>
    ensures { OnOk result (page.new ≡ step.put_mark op page.old) }
{
    page.mark(binary_text(op))?;
    page.mark("=")
}

/// A simple statement, without its line.
#[tactic(auto, using(rp_tree::proofs::StatementEquations::variants))]
fn write_simple(names: &Names, page: &mut Page, form: &StmtForm) -> Result<(), Memory>
    ensures { OnOk result (page.new
        ≡ step.put_simple (word_of names.now) (stmt_views.view_stmt_form form.now) page.old) }
{
    match form {
        StmtForm::Expr(expr) => write_expr(names, page, expr),
        StmtForm::Assign(places, value) => {
            write_assigned(names, page, places)?;
            write_expr(names, page, value)
        }
        StmtForm::Unpack(target, value, guard) => {
            write_target(names, page, target)?;
            page.mark(" = ")?;
            write_value(names, page, *guard, target, value)
        }
        StmtForm::Aug {
            place,
            op,
            value,
            guard,
            ..
        } => write_augmented(names, page, *guard, place, *op, value),
        StmtForm::Del(places) => {
            page.mark("del ")?;
            write_places(names, page, places)
        }
        StmtForm::Pass => page.mark("pass"),
        StmtForm::Break => page.mark("break"),
        StmtForm::Continue => page.mark("continue"),
        StmtForm::Return(value) => {
            page.mark("return")?;
            write_behind(names, page, " ", value)
        }
        StmtForm::Raise(value) => {
            page.mark("raise")?;
            write_behind(names, page, " ", value)
        }
        StmtForm::Assert(test, message) => {
            page.mark("assert ")?;
            write_expr(names, page, test)?;
            write_behind(names, page, ", ", message)
        }
        StmtForm::Global(bound) => {
            page.mark("global ")?;
            write_names(names, page, bound)
        }
        StmtForm::If(_, _) | StmtForm::While(_, _) | StmtForm::For(_, _) => Ok(()),
        StmtForm::Try { .. } | StmtForm::Def(_, _, _, _) | StmtForm::Class(_, _) => Ok(()),
    }
}

#[cycle(stmt)]
fn write_stmt(names: &Names, page: &mut Page, depth: usize, stmt: &Stmt) -> Result<(), Memory>
    ensures { OnOk result (page.new
        ≡ step.put_stmt (word_of names.now) depth (stmt_views.view_stmt stmt.now) page.old) }
{
    write_stmt_form(names, page, depth, &stmt.form)
}

#[cycle(stmt)]
#[tactic(auto, using(rp_tree::proofs::StatementEquations::variants))]
fn write_stmt_form(
    names: &Names,
    page: &mut Page,
    depth: usize,
    form: &StmtForm,
) -> Result<(), Memory>
    ensures { OnOk result (page.new
        ≡ step.put_stmt_form (word_of names.now) depth (stmt_views.view_stmt_form form.now) page.old) }
{
    match form {
        StmtForm::If(branches, other) => {
            write_branches(names, page, depth, branches)?;
            write_keyword(page, depth, "else:", other)?;
            write_block(names, page, depth, stmts_of(other))
        }
        StmtForm::While(test, body) => {
            write_test_head(names, page, depth, "while ", test)?;
            write_block(names, page, depth, body)
        }
        StmtForm::For(walk, body) => {
            write_for_head(names, page, depth, walk)?;
            write_block(names, page, depth, body)
        }
        StmtForm::Try {
            body,
            handlers,
            other,
            last,
        } => {
            write_head(page, depth, "try:")?;
            write_block(names, page, depth, body)?;
            write_handlers(names, page, depth, handlers)?;
            write_keyword(page, depth, "else:", other)?;
            write_block(names, page, depth, stmts_of(other))?;
            write_keyword(page, depth, "finally:", last)?;
            write_block(names, page, depth, stmts_of(last))
        }
        StmtForm::Def(_, named, params, body) => {
            write_def_head(names, page, depth, *named, params)?;
            write_block(names, page, depth, body)
        }
        StmtForm::Class(named, body) => {
            write_class_head(names, page, depth, *named)?;
            write_block(names, page, depth, body)
        }
        StmtForm::Expr(_) | StmtForm::Assign(_, _) | StmtForm::Unpack(_, _, _) => {
            write_line(names, page, depth, form)
        }
        StmtForm::Aug { .. } | StmtForm::Del(_) | StmtForm::Pass => {
            write_line(names, page, depth, form)
        }
        StmtForm::Break | StmtForm::Continue | StmtForm::Return(_) | StmtForm::Raise(_) => {
            write_line(names, page, depth, form)
        }
        StmtForm::Assert(_, _) | StmtForm::Global(_) => write_line(names, page, depth, form),
    }
}

/// The block of a statement.
#[cycle(stmt)]
fn write_block(names: &Names, page: &mut Page, depth: usize, stmts: &[Stmt]) -> Result<(), Memory>
    ensures { OnOk result (page.new
        ≡ step.put_stmts (word_of names.now) (suc depth) (stmt_views.view_stmts stmts.now) page.old) }
{
    let inner = page.deeper(depth)?;
    write_stmts(names, page, inner, stmts)
}

/// The line of a simple statement.
fn write_line(names: &Names, page: &mut Page, depth: usize, form: &StmtForm) -> Result<(), Memory>
    ensures { OnOk result (page.new
        ≡ step.put_line (word_of names.now) depth (stmt_views.view_stmt_form form.now) page.old) }
{
    page.indent(depth)?;
    write_simple(names, page, form)?;
    page.mark("\n")
}

/// The line of a keyword before a block.
fn write_head(page: &mut Page, depth: usize, keyword: &'static str) -> Result<(), Memory>
    requires { IsTrue (list_all is_ascii keyword.now) }
    ensures { OnOk result (page.new ≡ step.put_head depth keyword.now page.old) }
{
    page.indent(depth)?;
    page.mark(keyword)?;
    page.mark("\n")
}

/// The same, where the block is there.
fn write_keyword(
    page: &mut Page,
    depth: usize,
    keyword: &'static str,
    block: &Option<Vec<Stmt>>,
) -> Result<(), Memory>
    requires { IsTrue (list_all is_ascii keyword.now) }
    ensures { OnOk result (page.new ≡ step.put_keyword depth keyword.now block.now page.old) }
{
    match block {
        None => Ok(()),
        Some(_) => write_head(page, depth, keyword),
    }
}

/// The line of a keyword and a test before a block.
fn write_test_head(
    names: &Names,
    page: &mut Page,
    depth: usize,
    keyword: &'static str,
    test: &Expr,
) -> Result<(), Memory>
    requires { IsTrue (list_all is_ascii keyword.now) }
    ensures { OnOk result (page.new
        ≡ step.put_test_head (word_of names.now) depth keyword.now (view_expr test.now) page.old) }
{
    page.indent(depth)?;
    page.mark(keyword)?;
    write_expr(names, page, test)?;
    end_head(page)
}

/// The line of a `for` statement before its block.
fn write_for_head(names: &Names, page: &mut Page, depth: usize, walk: &Walk) -> Result<(), Memory>
    ensures { OnOk result (page.new ≡ step.put_for_head (word_of names.now) depth (view_walk walk.now) page.old) }
{
    page.indent(depth)?;
    write_walk(names, page, walk)?;
    write_statement_iterable(names, page, walk)?;
    end_head(page)
}

/// The line of a function definition before its block.
fn write_def_head(
    names: &Names,
    page: &mut Page,
    depth: usize,
    named: Named,
    params: &Params,
) -> Result<(), Memory>
    ensures { OnOk result (page.new
        ≡ step.put_def_head (word_of names.now) depth named (view_params params.now) page.old) }
{
    page.indent(depth)?;
    page.mark("def ")?;
    page.name(names, named.name)?;
    page.mark("(")?;
    write_params(names, page, params)?;
    page.mark("):")?;
    page.mark("\n")
}

/// The line of a class definition before its block.
fn write_class_head(
    names: &Names,
    page: &mut Page,
    depth: usize,
    named: Named,
) -> Result<(), Memory>
    ensures { OnOk result (page.new ≡ step.put_class_head (word_of names.now) depth named page.old) }
{
    page.indent(depth)?;
    page.mark("class ")?;
    page.name(names, named.name)?;
    end_head(page)
}

/// The end of the line before a block.
fn end_head(page: &mut Page) -> Result<(), Memory>
    ensures { OnOk result (page.new ≡ step.end_head page.old) }
{
    page.mark(":")?;
    page.mark("\n")
}

#[cycle(stmt)]
fn write_stmts(names: &Names, page: &mut Page, depth: usize, stmts: &[Stmt]) -> Result<(), Memory>
    ensures { OnOk result (page.new
        ≡ step.put_stmts (word_of names.now) depth (stmt_views.view_stmts stmts.now) page.old) }
{
    'stmts: for stmt in stmts {
        write_stmt(names, page, depth, stmt)?;
    }
    Ok(())
}

#[cycle(stmt)]
fn write_branches(
    names: &Names,
    page: &mut Page,
    depth: usize,
    branches: &[Branch],
) -> Result<(), Memory>
    ensures { OnOk result (page.new
        ≡ step.put_branches (word_of names.now) depth true
        (stmt_views.branches_of (map stmt_views.view_branch branches.now)) page.old) }
{
    let mut first = true;
    'branches: for branch in branches {
        write_branch(names, page, depth, first, branch)?;
        first = false;
    }
    Ok(())
}

#[cycle(stmt)]
fn write_branch(
    names: &Names,
    page: &mut Page,
    depth: usize,
    first: bool,
    branch: &Branch,
) -> Result<(), Memory>
    ensures { let b = stmt_views.view_branch branch.now in
        OnOk result (page.new ≡ step.put_branch (word_of names.now) depth first b.0 b.1 page.old) }
{
    let inner = page.deeper(depth)?;
    write_test_head(names, page, depth, branch_keyword(first), &branch.test)?;
    write_stmts(names, page, inner, &branch.body)
}

fn branch_keyword(first: bool) -> &'static str
    ensures text { result.now ≡ stmt_printing.branch_keyword first }
    ensures ascii { IsTrue (list_all is_ascii result.now) }
{
    match first {
        true => "if ",
        false => "elif ",
    }
}

#[cycle(stmt)]
fn write_handlers(
    names: &Names,
    page: &mut Page,
    depth: usize,
    handlers: &[Except],
) -> Result<(), Memory>
    ensures { OnOk result (page.new
        ≡ step.put_excepts (word_of names.now) depth
        (stmt_views.excepts_of (map stmt_views.view_except handlers.now)) page.old) }
{
    'handlers: for handler in handlers {
        write_handler(names, page, depth, handler)?;
    }
    Ok(())
}

#[cycle(stmt)]
fn write_handler(
    names: &Names,
    page: &mut Page,
    depth: usize,
    handler: &Except,
) -> Result<(), Memory>
    ensures { OnOk result (page.new
        ≡ step.put_except (word_of names.now) depth (stmt_views.view_except handler.now) page.old) }
{
    let inner = page.deeper(depth)?;
    page.indent(depth)?;
    page.mark("except")?;
    write_behind(names, page, " ", &handler.kind)?;
    write_bound_name(names, page, handler.name)?;
    end_head(page)?;
    write_stmts(names, page, inner, &handler.body)
}
