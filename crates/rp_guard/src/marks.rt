//! The marks of expressions and of their parts, set in place.

ghost use Rattle.std.specs.Prelude.{◌≡◌, map, option_map};
ghost use Rattle.rp_tree.specs.ExpressionViews as views;
ghost use Rattle.rp_tree.specs.Maps as maps;
ghost use Rattle.rp_tree.specs.Marks.{table};

use crate::table::{call_guard, walk_guard};
use rp_base::BinOp;
use rp_tree::{
    Arg, Clause, Expr, ExprForm, Guard, Named, Params, Place, Slice, Target, Test, Trailer, Walk,
};

/// Sets the mark of each form in the expression, as the table of guards has it.
#[cycle(mark_expr)]
pub fn mark_expr(expr: &mut Expr)
    ensures { views.view_expr expr.new ≡ maps.map_expr table (views.view_expr expr.old) }
{
    mark_form(&mut expr.form);
}

#[cycle(mark_expr)]
#[tactic(auto, using(rp_tree::proofs::ExpressionEquations::variants))]
fn mark_form(form: &mut ExprForm)
    ensures { views.view_form form.new ≡ maps.map_form table (views.view_form form.old) }
{
    match form {
        ExprForm::Name(_) => {}
        ExprForm::Int(_) => {}
        ExprForm::Text(_) => {}
        ExprForm::Const(_) => {}
        ExprForm::Tuple(exprs) => mark_exprs(exprs),
        ExprForm::List(exprs) => mark_exprs(exprs),
        ExprForm::Dict(pairs) => mark_pairs(pairs),
        ExprForm::ListOf(_, element, clauses) => {
            mark_expr(element);
            mark_clauses(clauses);
        }
        ExprForm::DictOf(_, key, value, clauses) => {
            mark_expr(key);
            mark_expr(value);
            mark_clauses(clauses);
        }
        ExprForm::Lambda(_block, params, body) => {
            mark_boxed_params(params);
            mark_expr(body);
        }
        ExprForm::Cond { test, yes, no } => {
            mark_expr(test);
            mark_expr(yes);
            mark_expr(no);
        }
        ExprForm::Or(exprs) => mark_exprs(exprs),
        ExprForm::And(exprs) => mark_exprs(exprs),
        ExprForm::Not(operand) => mark_expr(operand),
        ExprForm::Compare(first, tests) => {
            mark_expr(first);
            mark_tests(tests);
        }
        ExprForm::Chain(first, operands) => {
            mark_expr(first);
            mark_operands(operands);
        }
        ExprForm::Unary(_, operand) => mark_expr(operand),
        ExprForm::Power(base, exponent) => {
            mark_expr(base);
            mark_expr(exponent);
        }
        ExprForm::Primary(atom, trailers) => {
            mark_expr(atom);
            mark_trailers(trailers);
        }
    }
}

/// Sets the marks in an expression that may be missing.
#[cycle(mark_expr)]
pub fn mark_option(expr: &mut Option<Expr>)
    ensures { option_map views.view_expr expr.new
        ≡ option_map (maps.map_expr table) (option_map views.view_expr expr.old) }
{
    if let Some(expr) = expr {
        mark_expr(expr);
    }
}

#[cycle(mark_expr)]
fn mark_exprs(exprs: &mut [Expr])
    ensures { views.exprs_of (map views.view_expr exprs.new)
        ≡ maps.map_exprs table (views.exprs_of (map views.view_expr exprs.old)) }
{
    'exprs: for expr in exprs.iter_mut() {
        mark_expr(expr);
    }
}

#[cycle(mark_expr)]
fn mark_pairs(pairs: &mut [(Expr, Expr)])
    ensures { views.pairs_of (map views.view_pair pairs.new)
        ≡ maps.map_pairs table (views.pairs_of (map views.view_pair pairs.old)) }
{
    'pairs: for pair in pairs.iter_mut() {
        mark_expr(&mut pair.0);
        mark_expr(&mut pair.1);
    }
}

#[cycle(mark_expr)]
fn mark_tests(tests: &mut [(Test, Expr)])
    ensures { views.tests_of (map views.view_test tests.new)
        ≡ maps.map_tests table (views.tests_of (map views.view_test tests.old)) }
{
    'tests: for test in tests.iter_mut() {
        mark_expr(&mut test.1);
    }
}

#[cycle(mark_expr)]
fn mark_operands(operands: &mut [(BinOp, Expr)])
    ensures { views.ops_of (map views.view_op operands.new)
        ≡ maps.map_ops table (views.ops_of (map views.view_op operands.old)) }
{
    'operands: for operand in operands.iter_mut() {
        mark_expr(&mut operand.1);
    }
}

#[cycle(mark_expr)]
fn mark_clauses(clauses: &mut [Clause])
    ensures { views.clauses_of (map views.view_clause clauses.new)
        ≡ maps.map_clauses table (views.clauses_of (map views.view_clause clauses.old)) }
{
    'clauses: for clause in clauses.iter_mut() {
        mark_clause(clause);
    }
}

#[cycle(mark_expr)]
fn mark_clause(clause: &mut Clause)
    ensures { views.view_clause clause.new ≡ maps.map_clause table (views.view_clause clause.old) }
{
    mark_walk(&mut clause.walk);
    mark_exprs(&mut clause.tests);
}

/// Sets the marks in what a loop goes over, and the mark of going over it.
#[cycle(mark_expr)]
pub fn mark_walk(walk: &mut Walk)
    ensures { views.view_walk walk.new ≡ maps.map_walk table (views.view_walk walk.old) }
{
    walk.guard = Some(walk_guard(&walk.target));
    mark_target(&mut walk.target);
    mark_expr(&mut walk.of);
}

/// Sets the marks of the places in a target.
#[cycle(mark_expr)]
pub fn mark_target(target: &mut Target)
    ensures { views.view_target target.new ≡ maps.map_target table (views.view_target target.old) }
{
    match target {
        Target::Place(place) => mark_place(place),
        Target::Group(targets) => mark_targets(targets),
    }
}

#[cycle(mark_expr)]
fn mark_targets(targets: &mut [Target])
    ensures { views.targets_of (map views.view_target targets.new)
        ≡ maps.map_targets table (views.targets_of (map views.view_target targets.old)) }
{
    'targets: for target in targets.iter_mut() {
        mark_target(target);
    }
}

/// Sets the mark of a place that is assigned or deleted, and the marks in it.
#[cycle(mark_expr)]
pub fn mark_place(place: &mut Place)
    ensures { views.view_place place.new ≡ maps.map_place table (views.view_place place.old) }
{
    match place {
        Place::Name(_) => {}
        Place::Attr(object, _, guard) => {
            mark_expr(object);
            *guard = Some(Guard::Write);
        }
        Place::Item(container, key, guard) => {
            mark_expr(container);
            mark_expr(key);
            *guard = Some(Guard::Write);
        }
    }
}

/// Sets the marks in the defaults of parameters.
#[cycle(mark_expr)]
#[tactic(auto, using(crate::proofs::Lists::names_option_kept))]
pub fn mark_params(params: &mut Params)
    ensures { views.view_params params.new ≡ maps.map_params table (views.view_params params.old) }
{
    mark_defaults(&mut params.plain);
}

/// Sets the marks in the defaults of a lambda's parameters.
#[cycle(mark_expr)]
fn mark_boxed_params(params: &mut Box<Params>)
    ensures { views.view_params params.new.value ≡ maps.map_params table (views.view_params params.old.value) }
{
    mark_params(params);
}

#[cycle(mark_expr)]
fn mark_defaults(plain: &mut [(Named, Option<Expr>)])
    ensures { views.plain_of (map views.view_plain plain.new)
        ≡ maps.map_plain table (views.plain_of (map views.view_plain plain.old)) }
{
    'plain: for param in plain.iter_mut() {
        if let Some(default) = &mut param.1 {
            mark_expr(default);
        }
    }
}

#[cycle(mark_expr)]
#[tactic(auto, using(rp_tree::proofs::ExpressionEquations::trailer_slice))]
fn mark_trailer(trailer: &mut Trailer)
    ensures { views.view_trailer trailer.new ≡ maps.map_trailer table (views.view_trailer trailer.old) }
{
    match trailer {
        Trailer::Attr(_, guard) => *guard = Some(Guard::GetAttr),
        Trailer::Item(key, guard) => {
            mark_expr(key);
            *guard = Some(Guard::GetItem);
        }
        Trailer::Slice(slice, guard) => {
            mark_slice(slice);
            *guard = Some(Guard::GetItem);
        }
        Trailer::Call(args, guard) => {
            *guard = call_guard(args);
            mark_args(args);
        }
    }
}

#[cycle(mark_expr)]
#[tactic(auto, using(crate::proofs::Lists::maybe_of_map))]
fn mark_slice(slice: &mut Slice)
    ensures from { (views.view_slice slice.new).0 ≡ maps.map_maybe table (views.view_slice slice.old).0 }
    ensures to { (views.view_slice slice.new).1 ≡ maps.map_maybe table (views.view_slice slice.old).1 }
    ensures step { (views.view_slice slice.new).2 ≡ maps.map_maybe table (views.view_slice slice.old).2 }
{
    mark_option(&mut slice.from);
    mark_option(&mut slice.to);
    mark_option(&mut slice.step);
}

#[cycle(mark_expr)]
fn mark_trailers(trailers: &mut [Trailer])
    ensures { views.trailers_of (map views.view_trailer trailers.new)
        ≡ maps.map_trailers table (views.trailers_of (map views.view_trailer trailers.old)) }
{
    'trailers: for trailer in trailers.iter_mut() {
        mark_trailer(trailer);
    }
}

#[cycle(mark_expr)]
fn mark_arg(arg: &mut Arg)
    ensures { views.view_arg arg.new ≡ maps.map_arg table (views.view_arg arg.old) }
{
    match arg {
        Arg::Plain(expr) => mark_expr(expr),
        Arg::Star(expr) => mark_expr(expr),
        Arg::Key(_, expr) => mark_expr(expr),
        Arg::Stars(expr) => mark_expr(expr),
    }
}

#[cycle(mark_expr)]
fn mark_args(args: &mut [Arg])
    ensures { views.args_of (map views.view_arg args.new)
        ≡ maps.map_args table (views.args_of (map views.view_arg args.old)) }
{
    'arguments: for arg in args.iter_mut() {
        mark_arg(arg);
    }
}
