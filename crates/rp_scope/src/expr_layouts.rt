//! The scopes of the code blocks in expressions and in their parts.

ghost use Rattle.std.specs.Prelude.{◌≡◌, ◌++◌, map, option_map, OnOk};
ghost use Rattle.rp_tree.specs.ExpressionViews as views;
ghost use Rattle.rp_scope.specs.Blocks as code_blocks;
ghost use Rattle.rp_scope.specs.BlockSteps.{slice_blocks};
ghost use Rattle.rp_scope.specs.Scopes.{telling_scopes};

use crate::scopes::{Scopes, add_comprehension, add_lambda};
use rp_base::{BinOp, Memory};
use rp_tree::{
    Arg, Clause, Expr, ExprForm, Named, Params, Place, Slice, Target, Test, Trailer, Walk,
};
use std::alloc::Global;

/// Adds the scopes of the code blocks in the expression, which stands in the block with the number `around`.
#[cycle(lay_out_expr)]
pub fn lay_out_expr(
    alloc: Global,
    layouts: &mut Scopes,
    around: usize,
    expr: &Expr,
) -> Result<(), Memory>
    ensures { OnOk result (layouts.new
        ≡ layouts.old ++ code_blocks.expr_blocks telling_scopes around (views.view_expr expr.now)) }
{
    lay_out_form(alloc, layouts, around, &expr.form)
}

#[cycle(lay_out_expr)]
#[tactic(auto, using(rp_tree::proofs::ExpressionEquations::variants, crate::proofs::Appends::appends))]
fn lay_out_form(
    alloc: Global,
    layouts: &mut Scopes,
    around: usize,
    form: &ExprForm,
) -> Result<(), Memory>
    ensures { OnOk result (layouts.new
        ≡ layouts.old ++ code_blocks.form_blocks telling_scopes around (views.view_form form.now)) }
{
    match form {
        ExprForm::Name(name) => layouts.note(around, *name),
        ExprForm::Int(_) => Ok(()),
        ExprForm::Text(_) => Ok(()),
        ExprForm::Const(_) => Ok(()),
        ExprForm::Tuple(exprs) => lay_out_exprs(alloc, layouts, around, exprs),
        ExprForm::List(exprs) => lay_out_exprs(alloc, layouts, around, exprs),
        ExprForm::Dict(pairs) => lay_out_pairs(alloc, layouts, around, pairs),
        ExprForm::ListOf(block, element, clauses) => {
            add_comprehension(alloc, layouts, around, clauses)?;
            lay_out_expr(alloc, layouts, block.0, element)?;
            lay_out_clauses(alloc, layouts, around, block.0, clauses)
        }
        ExprForm::DictOf(block, key, value, clauses) => {
            add_comprehension(alloc, layouts, around, clauses)?;
            lay_out_expr(alloc, layouts, block.0, key)?;
            lay_out_expr(alloc, layouts, block.0, value)?;
            lay_out_clauses(alloc, layouts, around, block.0, clauses)
        }
        ExprForm::Lambda(block, params, body) => {
            add_lambda(alloc, layouts, around, params)?;
            lay_out_params(alloc, layouts, around, params)?;
            lay_out_expr(alloc, layouts, block.0, body)
        }
        ExprForm::Cond { test, yes, no } => {
            lay_out_expr(alloc, layouts, around, yes)?;
            lay_out_expr(alloc, layouts, around, test)?;
            lay_out_expr(alloc, layouts, around, no)
        }
        ExprForm::Or(exprs) => lay_out_exprs(alloc, layouts, around, exprs),
        ExprForm::And(exprs) => lay_out_exprs(alloc, layouts, around, exprs),
        ExprForm::Not(operand) => lay_out_expr(alloc, layouts, around, operand),
        ExprForm::Compare(first, tests) => {
            lay_out_expr(alloc, layouts, around, first)?;
            lay_out_tests(alloc, layouts, around, tests)
        }
        ExprForm::Chain(first, operands) => {
            lay_out_expr(alloc, layouts, around, first)?;
            lay_out_operands(alloc, layouts, around, operands)
        }
        ExprForm::Unary(_, operand) => lay_out_expr(alloc, layouts, around, operand),
        ExprForm::Power(base, exponent) => {
            lay_out_expr(alloc, layouts, around, base)?;
            lay_out_expr(alloc, layouts, around, exponent)
        }
        ExprForm::Primary(atom, trailers) => {
            lay_out_expr(alloc, layouts, around, atom)?;
            lay_out_trailers(alloc, layouts, around, trailers)
        }
    }
}

#[cycle(lay_out_expr)]
#[tactic(auto, using(crate::proofs::Appends::appends))]
fn lay_out_option(
    alloc: Global,
    layouts: &mut Scopes,
    around: usize,
    expr: &Option<Expr>,
) -> Result<(), Memory>
    ensures { OnOk result (layouts.new
        ≡ layouts.old
        ++ code_blocks.maybe_blocks telling_scopes around (views.maybe_of (option_map views.view_expr expr.now))) }
{
    match expr {
        None => Ok(()),
        Some(expr) => lay_out_expr(alloc, layouts, around, expr),
    }
}

#[cycle(lay_out_expr)]
#[tactic(auto, using(crate::proofs::Appends::appends))]
fn lay_out_exprs(
    alloc: Global,
    layouts: &mut Scopes,
    around: usize,
    exprs: &[Expr],
) -> Result<(), Memory>
    ensures { OnOk result (layouts.new
        ≡ layouts.old
        ++ code_blocks.exprs_blocks telling_scopes around (views.exprs_of (map views.view_expr exprs.now))) }
{
    'exprs: for expr in exprs {
        lay_out_expr(alloc, layouts, around, expr)?;
    }
    Ok(())
}

#[cycle(lay_out_expr)]
#[tactic(auto, using(crate::proofs::Appends::appends))]
fn lay_out_pairs(
    alloc: Global,
    layouts: &mut Scopes,
    around: usize,
    pairs: &[(Expr, Expr)],
) -> Result<(), Memory>
    ensures { OnOk result (layouts.new
        ≡ layouts.old
        ++ code_blocks.pairs_blocks telling_scopes around (views.pairs_of (map views.view_pair pairs.now))) }
{
    'pairs: for pair in pairs {
        lay_out_expr(alloc, layouts, around, &pair.0)?;
        lay_out_expr(alloc, layouts, around, &pair.1)?;
    }
    Ok(())
}

#[cycle(lay_out_expr)]
#[tactic(auto, using(crate::proofs::Appends::appends))]
fn lay_out_tests(
    alloc: Global,
    layouts: &mut Scopes,
    around: usize,
    tests: &[(Test, Expr)],
) -> Result<(), Memory>
    ensures { OnOk result (layouts.new
        ≡ layouts.old
        ++ code_blocks.tests_blocks telling_scopes around (views.tests_of (map views.view_test tests.now))) }
{
    'tests: for test in tests {
        lay_out_expr(alloc, layouts, around, &test.1)?;
    }
    Ok(())
}

#[cycle(lay_out_expr)]
#[tactic(auto, using(crate::proofs::Appends::appends))]
fn lay_out_operands(
    alloc: Global,
    layouts: &mut Scopes,
    around: usize,
    operands: &[(BinOp, Expr)],
) -> Result<(), Memory>
    ensures { OnOk result (layouts.new
        ≡ layouts.old ++ code_blocks.ops_blocks telling_scopes around (views.ops_of (map views.view_op operands.now))) }
{
    'operands: for operand in operands {
        lay_out_expr(alloc, layouts, around, &operand.1)?;
    }
    Ok(())
}

#[cycle(lay_out_expr)]
#[tactic(auto, using(crate::proofs::Appends::appends))]
fn lay_out_clauses(
    alloc: Global,
    layouts: &mut Scopes,
    around: usize,
    inside: usize,
    clauses: &[Clause],
) -> Result<(), Memory>
    ensures { OnOk result (layouts.new
        ≡ layouts.old ++ code_blocks.clauses_blocks telling_scopes around inside
        (views.clauses_of (map views.view_clause clauses.now))) }
{
    let mut before = around;
    'clauses: for clause in clauses {
        lay_out_clause(alloc, layouts, before, inside, clause)?;
        before = inside;
    }
    Ok(())
}

#[cycle(lay_out_expr)]
#[tactic(auto, using(crate::proofs::Appends::appends))]
fn lay_out_clause(
    alloc: Global,
    layouts: &mut Scopes,
    around: usize,
    inside: usize,
    clause: &Clause,
) -> Result<(), Memory>
    ensures { OnOk result (layouts.new
        ≡ layouts.old ++ code_blocks.clause_blocks telling_scopes around inside (views.view_clause clause.now)) }
{
    lay_out_walk(alloc, layouts, around, inside, &clause.walk)?;
    lay_out_exprs(alloc, layouts, inside, &clause.tests)
}

/// Adds the scopes of the code blocks in what a loop goes over: the iterable stands in the block `around`, the target
/// in `inside`.
#[cycle(lay_out_expr)]
#[tactic(auto, using(crate::proofs::Appends::appends))]
pub fn lay_out_walk(
    alloc: Global,
    layouts: &mut Scopes,
    around: usize,
    inside: usize,
    walk: &Walk,
) -> Result<(), Memory>
    ensures { OnOk result (layouts.new
        ≡ layouts.old ++ code_blocks.walk_blocks telling_scopes around inside (views.view_walk walk.now)) }
{
    lay_out_target(alloc, layouts, inside, &walk.target)?;
    lay_out_expr(alloc, layouts, around, &walk.of)
}

/// Adds the scopes of the code blocks in a target.
#[cycle(lay_out_expr)]
pub fn lay_out_target(
    alloc: Global,
    layouts: &mut Scopes,
    around: usize,
    target: &Target,
) -> Result<(), Memory>
    ensures { OnOk result (layouts.new
        ≡ layouts.old ++ code_blocks.target_blocks telling_scopes around (views.view_target target.now)) }
{
    match target {
        Target::Place(place) => lay_out_place(alloc, layouts, around, place),
        Target::Group(targets) => lay_out_targets(alloc, layouts, around, targets),
    }
}

#[cycle(lay_out_expr)]
#[tactic(auto, using(crate::proofs::Appends::appends))]
fn lay_out_targets(
    alloc: Global,
    layouts: &mut Scopes,
    around: usize,
    targets: &[Target],
) -> Result<(), Memory>
    ensures { OnOk result (layouts.new
        ≡ layouts.old
        ++ code_blocks.targets_blocks telling_scopes around (views.targets_of (map views.view_target targets.now))) }
{
    'targets: for target in targets {
        lay_out_target(alloc, layouts, around, target)?;
    }
    Ok(())
}

/// Adds the scopes of the code blocks in a place.
#[cycle(lay_out_expr)]
#[tactic(auto, using(crate::proofs::Appends::appends))]
pub fn lay_out_place(
    alloc: Global,
    layouts: &mut Scopes,
    around: usize,
    place: &Place,
) -> Result<(), Memory>
    ensures { OnOk result (layouts.new
        ≡ layouts.old ++ code_blocks.place_blocks telling_scopes around (views.view_place place.now)) }
{
    match place {
        Place::Name(named) => layouts.note(around, named.name),
        Place::Attr(object, _, _) => lay_out_expr(alloc, layouts, around, object),
        Place::Item(container, key, _) => {
            lay_out_expr(alloc, layouts, around, container)?;
            lay_out_expr(alloc, layouts, around, key)
        }
    }
}

/// Adds the scopes of the code blocks in the defaults of parameters.
#[cycle(lay_out_expr)]
pub fn lay_out_params(
    alloc: Global,
    layouts: &mut Scopes,
    around: usize,
    params: &Params,
) -> Result<(), Memory>
    ensures { OnOk result (layouts.new
        ≡ layouts.old ++ code_blocks.params_blocks telling_scopes around (views.view_params params.now)) }
{
    lay_out_defaults(alloc, layouts, around, &params.plain)
}

#[cycle(lay_out_expr)]
#[tactic(auto, using(crate::proofs::Appends::appends))]
fn lay_out_defaults(
    alloc: Global,
    layouts: &mut Scopes,
    around: usize,
    plain: &[(Named, Option<Expr>)],
) -> Result<(), Memory>
    ensures { OnOk result (layouts.new
        ≡ layouts.old
        ++ code_blocks.plain_blocks telling_scopes around (views.plain_of (map views.view_plain plain.now))) }
{
    'plain: for param in plain {
        if let Some(default) = &param.1 {
            lay_out_expr(alloc, layouts, around, default)?;
        }
    }
    Ok(())
}

#[cycle(lay_out_expr)]
#[tactic(auto, using(rp_tree::proofs::ExpressionEquations::trailer_slice, crate::proofs::Appends::appends))]
fn lay_out_trailer(
    alloc: Global,
    layouts: &mut Scopes,
    around: usize,
    trailer: &Trailer,
) -> Result<(), Memory>
    ensures { OnOk result (layouts.new
        ≡ layouts.old ++ code_blocks.trailer_blocks telling_scopes around (views.view_trailer trailer.now)) }
{
    match trailer {
        Trailer::Attr(_, _) => Ok(()),
        Trailer::Item(key, _) => lay_out_expr(alloc, layouts, around, key),
        Trailer::Slice(slice, _) => lay_out_slice(alloc, layouts, around, slice),
        Trailer::Call(args, _) => lay_out_args(alloc, layouts, around, args),
    }
}

#[cycle(lay_out_expr)]
#[tactic(auto, using(crate::proofs::Appends::appends))]
fn lay_out_slice(
    alloc: Global,
    layouts: &mut Scopes,
    around: usize,
    slice: &Slice,
) -> Result<(), Memory>
    ensures { OnOk result (layouts.new
        ≡ layouts.old ++ slice_blocks telling_scopes around (views.view_slice slice.now)) }
{
    lay_out_option(alloc, layouts, around, &slice.from)?;
    lay_out_option(alloc, layouts, around, &slice.to)?;
    lay_out_option(alloc, layouts, around, &slice.step)
}

#[cycle(lay_out_expr)]
#[tactic(auto, using(crate::proofs::Appends::appends))]
fn lay_out_trailers(
    alloc: Global,
    layouts: &mut Scopes,
    around: usize,
    trailers: &[Trailer],
) -> Result<(), Memory>
    ensures { OnOk result (layouts.new
        ≡ layouts.old ++ code_blocks.trailers_blocks telling_scopes around
        (views.trailers_of (map views.view_trailer trailers.now))) }
{
    'trailers: for trailer in trailers {
        lay_out_trailer(alloc, layouts, around, trailer)?;
    }
    Ok(())
}

#[cycle(lay_out_expr)]
fn lay_out_arg(alloc: Global, layouts: &mut Scopes, around: usize, arg: &Arg) -> Result<(), Memory>
    ensures { OnOk result (layouts.new
        ≡ layouts.old ++ code_blocks.arg_blocks telling_scopes around (views.view_arg arg.now)) }
{
    match arg {
        Arg::Plain(expr) => lay_out_expr(alloc, layouts, around, expr),
        Arg::Star(expr) => lay_out_expr(alloc, layouts, around, expr),
        Arg::Key(_, expr) => lay_out_expr(alloc, layouts, around, expr),
        Arg::Stars(expr) => lay_out_expr(alloc, layouts, around, expr),
    }
}

#[cycle(lay_out_expr)]
#[tactic(auto, using(crate::proofs::Appends::appends))]
fn lay_out_args(
    alloc: Global,
    layouts: &mut Scopes,
    around: usize,
    args: &[Arg],
) -> Result<(), Memory>
    ensures { OnOk result (layouts.new
        ≡ layouts.old ++ code_blocks.args_blocks telling_scopes around (views.args_of (map views.view_arg args.now))) }
{
    'arguments: for arg in args {
        lay_out_arg(alloc, layouts, around, arg)?;
    }
    Ok(())
}
