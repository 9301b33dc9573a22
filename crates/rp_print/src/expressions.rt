//! The texts of expressions and of their parts.
#![tactic(auto)]

ghost use Rattle.std.specs.Prelude.{◌≡◌, true, map, option_map, IsTrue, OnOk};
ghost use Rattle.std.specs.Char.{is_ascii};
ghost use Rattle.std.specs.List.{list_all};
ghost use Rattle.rp_base.specs.Names.{word_of};
ghost use Rattle.rp_tree.specs.ExpressionViews as views;
ghost use Rattle.rp_print.specs.PageSteps.{written};
ghost use Rattle.rp_print.specs.WritingSteps as step;

use crate::guards::{open_call, write_dealing, write_openings};
use crate::operators::{binary_text, const_text, test_text, unary_text};
use crate::page::Page;
use crate::shapes::{
    begins_guarded, exprs_end, holds_no_list, holds_no_plain, holds_none, stands_alone,
    stands_as_base, targets_end,
};
use rp_base::{BinOp, Memory, Names};
use rp_tree::{
    Arg, Clause, Expr, ExprForm, Named, Params, Place, Slice, Target, Test, Trailer, Walk,
};

#[cycle(expr)]
pub(crate) fn write_expr(names: &Names, page: &mut Page, expr: &Expr) -> Result<(), Memory>
    ensures { OnOk result (page.new ≡ step.put_expr (word_of names.now) (views.view_expr expr.now) page.old) }
{
    write_form(names, page, &expr.form)
}

/// An operand.
#[cycle(expr)]
fn write_operand(names: &Names, page: &mut Page, expr: &Expr) -> Result<(), Memory>
    ensures { OnOk result (page.new ≡ step.put_operand (word_of names.now) (views.view_expr expr.now) page.old) }
{
    if stands_alone(&expr.form) {
        return write_form(names, page, &expr.form);
    }
    page.mark("(")?;
    write_form(names, page, &expr.form)?;
    page.mark(")")
}

#[cycle(expr)]
#[tactic(auto, using(rp_tree::proofs::ExpressionEquations::variants))]
fn write_form(names: &Names, page: &mut Page, form: &ExprForm) -> Result<(), Memory>
    ensures { OnOk result (page.new ≡ step.put_form (word_of names.now) (views.view_form form.now) page.old) }
{
    match form {
        ExprForm::Name(name) => page.name(names, *name),
        ExprForm::Int(value) => page.integer(*value),
        ExprForm::Text(text) => page.literal(text),
        ExprForm::Const(value) => page.mark(const_text(*value)),
        ExprForm::Tuple(exprs) => write_tuple(names, page, exprs),
        ExprForm::List(exprs) => write_list(names, page, exprs),
        ExprForm::Dict(pairs) => write_dict(names, page, pairs),
        ExprForm::ListOf(_, element, clauses) => {
            write_behind(names, page, "[", element)?;
            write_clauses(names, page, clauses)?;
            page.mark("]")
        }
        ExprForm::DictOf(_, key, value, clauses) => {
            write_behind(names, page, "{", key)?;
            write_behind(names, page, ": ", value)?;
            write_clauses(names, page, clauses)?;
            page.mark("}")
        }
        ExprForm::Lambda(_, params, body) => {
            write_lambda_head(names, page, params)?;
            write_expr(names, page, body)
        }
        ExprForm::Cond { test, yes, no } => {
            write_operand(names, page, yes)?;
            write_operand_behind(names, page, " if ", test)?;
            write_operand_behind(names, page, " else ", no)
        }
        ExprForm::Or(exprs) => write_operands(names, page, " or ", exprs),
        ExprForm::And(exprs) => write_operands(names, page, " and ", exprs),
        ExprForm::Not(operand) => write_operand_behind(names, page, "not ", operand),
        ExprForm::Compare(first, tests) => {
            write_operand(names, page, first)?;
            write_tests(names, page, tests)
        }
        ExprForm::Chain(first, operands) => {
            write_operand(names, page, first)?;
            write_chain(names, page, operands)
        }
        ExprForm::Unary(op, operand) => write_operand_behind(names, page, unary_text(*op), operand),
        ExprForm::Power(base, exponent) => {
            write_operand(names, page, base)?;
            write_operand_behind(names, page, " ** ", exponent)
        }
        ExprForm::Primary(atom, trailers) => {
            write_openings(page, trailers)?;
            write_base(names, page, begins_guarded(trailers), atom)?;
            write_closings(names, page, trailers)
        }
    }
}

#[cycle(expr)]
fn write_tuple(names: &Names, page: &mut Page, exprs: &[Expr]) -> Result<(), Memory>
    ensures { OnOk result (page.new
        ≡ step.put_tuple (word_of names.now) (views.exprs_of (map views.view_expr exprs.now)) page.old) }
{
    page.mark("(")?;
    write_exprs(names, page, exprs)?;
    page.mark(exprs_end(exprs))
}

#[cycle(expr)]
fn write_list(names: &Names, page: &mut Page, exprs: &[Expr]) -> Result<(), Memory>
    ensures { OnOk result (page.new
        ≡ step.put_list (word_of names.now) (views.exprs_of (map views.view_expr exprs.now)) page.old) }
{
    page.mark("[")?;
    write_exprs(names, page, exprs)?;
    page.mark("]")
}

#[cycle(expr)]
fn write_dict(names: &Names, page: &mut Page, pairs: &[(Expr, Expr)]) -> Result<(), Memory>
    ensures { OnOk result (page.new
        ≡ step.put_dict (word_of names.now) (views.pairs_of (map views.view_pair pairs.now)) page.old) }
{
    page.mark("{")?;
    write_pairs(names, page, pairs)?;
    page.mark("}")
}

/// What stands before that which a lambda gives.
#[cycle(expr)]
fn write_lambda_head(names: &Names, page: &mut Page, params: &Params) -> Result<(), Memory>
    ensures { OnOk result (page.new
        ≡ step.put_lambda_head (word_of names.now) (views.view_params params.now) page.old) }
{
    page.mark("lambda")?;
    page.separate(" ", holds_none(params))?;
    write_params(names, page, params)?;
    page.mark(": ")
}

/// An expression behind a mark.
#[cycle(expr)]
fn write_behind(
    names: &Names,
    page: &mut Page,
    mark: &'static str,
    expr: &Expr,
) -> Result<(), Memory>
    requires { IsTrue (list_all is_ascii mark.now) }
    ensures { OnOk result (page.new
        ≡ step.put_expr (word_of names.now) (views.view_expr expr.now) (written page.old mark.now)) }
{
    page.mark(mark)?;
    write_expr(names, page, expr)
}

/// An operand behind a mark.
#[cycle(expr)]
fn write_operand_behind(
    names: &Names,
    page: &mut Page,
    mark: &'static str,
    operand: &Expr,
) -> Result<(), Memory>
    requires { IsTrue (list_all is_ascii mark.now) }
    ensures { OnOk result (page.new
        ≡ step.put_operand (word_of names.now) (views.view_expr operand.now) (written page.old mark.now)) }
{
    page.mark(mark)?;
    write_operand(names, page, operand)
}

/// What a trailer belongs to: as the argument of a guard, or with a dot or a bracket behind it.
#[cycle(expr)]
fn write_base(names: &Names, page: &mut Page, guarded: bool, expr: &Expr) -> Result<(), Memory>
    ensures { OnOk result (page.new ≡ step.put_base (word_of names.now) guarded (views.view_expr expr.now) page.old) }
{
    if stands_as_base(guarded, &expr.form) {
        return write_form(names, page, &expr.form);
    }
    page.mark("(")?;
    write_form(names, page, &expr.form)?;
    page.mark(")")
}

#[cycle(expr)]
fn write_exprs(names: &Names, page: &mut Page, exprs: &[Expr]) -> Result<(), Memory>
    ensures { OnOk result (page.new
        ≡ step.put_exprs (word_of names.now) true (views.exprs_of (map views.view_expr exprs.now)) page.old) }
{
    let mut first = true;
    'exprs: for expr in exprs {
        page.separate(", ", first)?;
        first = false;
        write_expr(names, page, expr)?;
    }
    Ok(())
}

#[cycle(expr)]
fn write_operands(
    names: &Names,
    page: &mut Page,
    separator: &'static str,
    exprs: &[Expr],
) -> Result<(), Memory>
    requires { IsTrue (list_all is_ascii separator.now) }
    ensures { OnOk result (page.new
        ≡ step.put_operands (word_of names.now) separator.now true
        (views.exprs_of (map views.view_expr exprs.now)) page.old) }
{
    let mut first = true;
    'exprs: for expr in exprs {
        page.separate(separator, first)?;
        first = false;
        write_operand(names, page, expr)?;
    }
    Ok(())
}

#[cycle(expr)]
fn write_pairs(names: &Names, page: &mut Page, pairs: &[(Expr, Expr)]) -> Result<(), Memory>
    ensures { OnOk result (page.new
        ≡ step.put_pairs (word_of names.now) true (views.pairs_of (map views.view_pair pairs.now)) page.old) }
{
    let mut first = true;
    'pairs: for pair in pairs {
        page.separate(", ", first)?;
        first = false;
        write_expr(names, page, &pair.0)?;
        page.mark(": ")?;
        write_expr(names, page, &pair.1)?;
    }
    Ok(())
}

#[cycle(expr)]
fn write_tests(names: &Names, page: &mut Page, tests: &[(Test, Expr)]) -> Result<(), Memory>
    ensures { OnOk result (page.new
        ≡ step.put_tests (word_of names.now) (views.tests_of (map views.view_test tests.now)) page.old) }
{
    'tests: for test in tests {
        page.between(test_text(test.0))?;
        write_operand(names, page, &test.1)?;
    }
    Ok(())
}

#[cycle(expr)]
fn write_chain(names: &Names, page: &mut Page, operands: &[(BinOp, Expr)]) -> Result<(), Memory>
    ensures { OnOk result (page.new
        ≡ step.put_ops (word_of names.now) (views.ops_of (map views.view_op operands.now)) page.old) }
{
    'operands: for operand in operands {
        page.between(binary_text(operand.0))?;
        write_operand(names, page, &operand.1)?;
    }
    Ok(())
}

#[cycle(expr)]
fn write_clauses(names: &Names, page: &mut Page, clauses: &[Clause]) -> Result<(), Memory>
    ensures { OnOk result (page.new
        ≡ step.put_clauses (word_of names.now) (views.clauses_of (map views.view_clause clauses.now)) page.old) }
{
    'clauses: for clause in clauses {
        write_clause(names, page, clause)?;
    }
    Ok(())
}

#[cycle(expr)]
fn write_clause(names: &Names, page: &mut Page, clause: &Clause) -> Result<(), Memory>
    ensures { OnOk result (page.new ≡ step.put_clause (word_of names.now) (views.view_clause clause.now) page.old) }
{
    page.mark(" ")?;
    write_walk(names, page, &clause.walk)?;
    write_clause_iterable(names, page, &clause.walk)?;
    write_conditions(names, page, &clause.tests)
}

/// The tests of a clause.
#[cycle(expr)]
fn write_conditions(names: &Names, page: &mut Page, tests: &[Expr]) -> Result<(), Memory>
    ensures { OnOk result (page.new
        ≡ step.put_conditions (word_of names.now) (views.exprs_of (map views.view_expr tests.now)) page.old) }
{
    'tests: for test in tests {
        page.mark(" if ")?;
        write_operand(names, page, test)?;
    }
    Ok(())
}

/// What stands before the iterable.
#[cycle(expr)]
pub(crate) fn write_walk(names: &Names, page: &mut Page, walk: &Walk) -> Result<(), Memory>
    ensures { OnOk result (page.new ≡ step.put_walk (word_of names.now) (views.view_walk walk.now) page.old) }
{
    page.mark("for ")?;
    write_target(names, page, &walk.target)?;
    page.mark(" in ")
}

#[cycle(expr)]
fn write_clause_iterable(names: &Names, page: &mut Page, walk: &Walk) -> Result<(), Memory>
    ensures { OnOk result (page.new
        ≡ step.put_clause_iterable (word_of names.now) (views.view_walk walk.now) page.old) }
{
    match walk.guard {
        None => write_operand(names, page, &walk.of),
        Some(_) => {
            open_iterable(page, &walk.target)?;
            write_expr(names, page, &walk.of)?;
            close_iterable(page, &walk.target)
        }
    }
}

/// The iterable of a `for` statement.
pub(crate) fn write_statement_iterable(
    names: &Names,
    page: &mut Page,
    walk: &Walk,
) -> Result<(), Memory>
    ensures { OnOk result (page.new
        ≡ step.put_statement_iterable (word_of names.now) (views.view_walk walk.now) page.old) }
{
    match walk.guard {
        None => write_expr(names, page, &walk.of),
        Some(_) => {
            open_iterable(page, &walk.target)?;
            write_expr(names, page, &walk.of)?;
            close_iterable(page, &walk.target)
        }
    }
}

#[tactic(auto, using(rp_tree::proofs::ExpressionEquations::variants))]
fn open_iterable(page: &mut Page, target: &Target) -> Result<(), Memory>
    ensures { OnOk result (page.new ≡ step.open_iterable (views.view_target target.now) page.old) }
{
    match target {
        Target::Place(_place) => open_call(page, "_getiter_"),
        Target::Group(_targets) => open_call(page, "_iter_unpack_sequence_"),
    }
}

#[tactic(auto, using(rp_tree::proofs::ExpressionEquations::variants))]
fn close_iterable(page: &mut Page, target: &Target) -> Result<(), Memory>
    ensures { OnOk result (page.new ≡ step.close_iterable (views.view_target target.now) page.old) }
{
    match target {
        Target::Place(_) => page.mark(")"),
        Target::Group(targets) => write_dealing(page, targets),
    }
}

#[cycle(expr)]
#[tactic(auto, using(rp_tree::proofs::ExpressionEquations::variants))]
pub(crate) fn write_target(names: &Names, page: &mut Page, target: &Target) -> Result<(), Memory>
    ensures { OnOk result (page.new ≡ step.put_target (word_of names.now) (views.view_target target.now) page.old) }
{
    match target {
        Target::Place(place) => write_place(names, page, place),
        Target::Group(targets) => {
            page.mark("(")?;
            write_targets(names, page, targets)?;
            page.mark(targets_end(targets))
        }
    }
}

#[cycle(expr)]
fn write_targets(names: &Names, page: &mut Page, targets: &[Target]) -> Result<(), Memory>
    ensures { OnOk result (page.new
        ≡ step.put_targets (word_of names.now) true (views.targets_of (map views.view_target targets.now)) page.old) }
{
    let mut first = true;
    'targets: for target in targets {
        page.separate(", ", first)?;
        first = false;
        write_target(names, page, target)?;
    }
    Ok(())
}

#[cycle(expr)]
#[tactic(auto, using(rp_tree::proofs::ExpressionEquations::variants))]
pub(crate) fn write_place(names: &Names, page: &mut Page, place: &Place) -> Result<(), Memory>
    ensures { OnOk result (page.new ≡ step.put_place (word_of names.now) (views.view_place place.now) page.old) }
{
    match place {
        Place::Name(named) => page.name(names, named.name),
        Place::Attr(object, named, None) => {
            write_base(names, page, false, object)?;
            page.mark(".")?;
            page.name(names, named.name)
        }
        Place::Attr(object, named, Some(_)) => {
            open_call(page, "_write_")?;
            write_expr(names, page, object)?;
            page.mark(")")?;
            page.mark(".")?;
            page.name(names, named.name)
        }
        Place::Item(container, key, None) => {
            write_base(names, page, false, container)?;
            page.mark("[")?;
            write_expr(names, page, key)?;
            page.mark("]")
        }
        Place::Item(container, key, Some(_)) => {
            open_call(page, "_write_")?;
            write_expr(names, page, container)?;
            page.mark(")")?;
            page.mark("[")?;
            write_expr(names, page, key)?;
            page.mark("]")
        }
    }
}

/// Parameters, with commas between them.
#[cycle(expr)]
pub(crate) fn write_params(names: &Names, page: &mut Page, params: &Params) -> Result<(), Memory>
    ensures { OnOk result (page.new ≡ step.put_params (word_of names.now) (views.view_params params.now) page.old) }
{
    write_plain(names, page, &params.plain)?;
    write_starred(names, page, holds_no_plain(params), "*", params.list)?;
    write_starred(names, page, holds_no_list(params), "**", params.dict)
}

#[cycle(expr)]
fn write_plain(
    names: &Names,
    page: &mut Page,
    plain: &[(Named, Option<Expr>)],
) -> Result<(), Memory>
    ensures { OnOk result (page.new
        ≡ step.put_plain (word_of names.now) true (views.plain_of (map views.view_plain plain.now)) page.old) }
{
    let mut first = true;
    'plain: for param in plain {
        page.separate(", ", first)?;
        first = false;
        page.name(names, param.0.name)?;
        if let Some(default) = &param.1 {
            page.mark("=")?;
            write_expr(names, page, default)?;
        }
    }
    Ok(())
}

/// A name behind stars, where there is one.
fn write_starred(
    names: &Names,
    page: &mut Page,
    first: bool,
    stars: &'static str,
    name: Option<Named>,
) -> Result<(), Memory>
    requires { IsTrue (list_all is_ascii stars.now) }
    ensures { OnOk result (page.new ≡ step.put_starred (word_of names.now) first stars.now name page.old) }
{
    match name {
        None => Ok(()),
        Some(named) => {
            page.separate(", ", first)?;
            page.mark(stars)?;
            page.name(names, named.name)
        }
    }
}

#[cycle(expr)]
fn write_closings(names: &Names, page: &mut Page, trailers: &[Trailer]) -> Result<(), Memory>
    ensures { OnOk result (page.new
        ≡ step.put_closings (word_of names.now) (views.trailers_of (map views.view_trailer trailers.now)) page.old) }
{
    'trailers: for trailer in trailers {
        write_closing(names, page, trailer)?;
    }
    Ok(())
}

#[cycle(expr)]
#[tactic(auto, using(rp_tree::proofs::ExpressionEquations::variants))]
fn write_closing(names: &Names, page: &mut Page, trailer: &Trailer) -> Result<(), Memory>
    ensures { OnOk result (page.new ≡ step.put_closing (word_of names.now) (views.view_trailer trailer.now) page.old) }
{
    match trailer {
        Trailer::Attr(named, None) => {
            page.mark(".")?;
            page.name(names, named.name)
        }
        Trailer::Attr(named, Some(_)) => {
            page.mark(", ")?;
            page.mark("'")?;
            page.name(names, named.name)?;
            page.mark("'")?;
            page.mark(")")
        }
        Trailer::Item(key, None) => {
            page.mark("[")?;
            write_expr(names, page, key)?;
            page.mark("]")
        }
        Trailer::Item(key, Some(_)) => {
            page.mark(", ")?;
            write_expr(names, page, key)?;
            page.mark(")")
        }
        Trailer::Slice(slice, None) => write_slice(names, page, slice),
        Trailer::Slice(slice, Some(_)) => write_guarded_slice(names, page, slice),
        Trailer::Call(args, None) => {
            page.mark("(")?;
            write_args(names, page, true, args)?;
            page.mark(")")
        }
        Trailer::Call(args, Some(_)) => {
            write_args(names, page, false, args)?;
            page.mark(")")
        }
    }
}

#[cycle(expr)]
fn write_slice(names: &Names, page: &mut Page, slice: &Slice) -> Result<(), Memory>
    ensures { let s = views.view_slice slice.now in
        OnOk result (page.new ≡ step.put_slice (word_of names.now) s.0 s.1 s.2 page.old) }
{
    page.mark("[")?;
    write_bound(names, page, &slice.from)?;
    page.mark(":")?;
    write_bound(names, page, &slice.to)?;
    write_stride(names, page, &slice.step)?;
    page.mark("]")
}

#[cycle(expr)]
fn write_guarded_slice(names: &Names, page: &mut Page, slice: &Slice) -> Result<(), Memory>
    ensures { let s = views.view_slice slice.now in
        OnOk result (page.new ≡ step.put_guarded_slice (word_of names.now) s.0 s.1 s.2 page.old) }
{
    page.mark(", ")?;
    open_call(page, "slice")?;
    write_part(names, page, &slice.from)?;
    page.mark(", ")?;
    write_part(names, page, &slice.to)?;
    page.mark(", ")?;
    write_part(names, page, &slice.step)?;
    page.mark(")")?;
    page.mark(")")
}

#[cycle(expr)]
fn write_bound(names: &Names, page: &mut Page, bound: &Option<Expr>) -> Result<(), Memory>
    ensures { OnOk result (page.new
        ≡ step.put_bound (word_of names.now) (views.maybe_of (option_map views.view_expr bound.now)) page.old) }
{
    match bound {
        None => Ok(()),
        Some(expr) => write_expr(names, page, expr),
    }
}

#[cycle(expr)]
fn write_stride(names: &Names, page: &mut Page, stride: &Option<Expr>) -> Result<(), Memory>
    ensures { OnOk result (page.new
        ≡ step.put_stride (word_of names.now) (views.maybe_of (option_map views.view_expr stride.now)) page.old) }
{
    match stride {
        None => Ok(()),
        Some(expr) => {
            page.mark(":")?;
            write_expr(names, page, expr)
        }
    }
}

/// A part of a slice as an argument.
#[cycle(expr)]
fn write_part(names: &Names, page: &mut Page, part: &Option<Expr>) -> Result<(), Memory>
    ensures { OnOk result (page.new
        ≡ step.put_part (word_of names.now) (views.maybe_of (option_map views.view_expr part.now)) page.old) }
{
    match part {
        None => page.mark("None"),
        Some(expr) => write_expr(names, page, expr),
    }
}

/// Arguments, the first of them behind a comma or not.
#[cycle(expr)]
fn write_args(names: &Names, page: &mut Page, alone: bool, args: &[Arg]) -> Result<(), Memory>
    ensures { OnOk result (page.new
        ≡ step.put_args (word_of names.now) alone (views.args_of (map views.view_arg args.now)) page.old) }
{
    let mut first = alone;
    'arguments: for arg in args {
        page.separate(", ", first)?;
        first = false;
        write_arg(names, page, arg)?;
    }
    Ok(())
}

#[cycle(expr)]
#[tactic(auto, using(rp_tree::proofs::ExpressionEquations::variants))]
fn write_arg(names: &Names, page: &mut Page, arg: &Arg) -> Result<(), Memory>
    ensures { OnOk result (page.new ≡ step.put_arg (word_of names.now) (views.view_arg arg.now) page.old) }
{
    match arg {
        Arg::Plain(expr) => write_expr(names, page, expr),
        Arg::Star(expr) => {
            page.mark("*")?;
            write_expr(names, page, expr)
        }
        Arg::Key(name, expr) => {
            page.name(names, *name)?;
            page.mark("=")?;
            write_expr(names, page, expr)
        }
        Arg::Stars(expr) => {
            page.mark("**")?;
            write_expr(names, page, expr)
        }
    }
}
