//! Whether a form stands without its guard in an expression or in a part of one.

ghost use Rattle.std.specs.Prelude.{◌≡◌, ◌&&◌, true, map, option_map};
ghost use Rattle.std.specs.Option.{option_map_or};
ghost use Rattle.rp_tree.specs.ExpressionViews as views;
ghost use Rattle.rp_tree.specs.Guarded as guardedness;

use crate::table::walk_guard;
use rp_base::BinOp;
use rp_tree::{
    Arg, Clause, Expr, ExprForm, Guard, Named, Params, Place, Slice, Target, Test, Trailer, Walk,
};

/// Whether the mark is that of the guard.
pub fn is_mark(guard: Guard, mark: &Option<Guard>) -> bool
    ensures { result ≡ guardedness.is_mark guard mark.now }
{
    match mark {
        None => false,
        Some(found) => guard == *found,
    }
}

/// Whether no form in the expression stands without its guard.
#[cycle(is_expr_guarded)]
pub fn is_expr_guarded(expr: &Expr) -> bool
    ensures { result ≡ guardedness.is_expr_guarded (views.view_expr expr.now) }
{
    is_form_guarded(&expr.form)
}

#[cycle(is_expr_guarded)]
#[tactic(auto, using(rp_tree::proofs::ExpressionEquations::variants))]
fn is_form_guarded(form: &ExprForm) -> bool
    ensures { result ≡ guardedness.is_form_guarded (views.view_form form.now) }
{
    match form {
        ExprForm::Name(_) | ExprForm::Int(_) | ExprForm::Text(_) | ExprForm::Const(_) => true,
        ExprForm::Tuple(exprs) => are_exprs_guarded(exprs),
        ExprForm::List(exprs) => are_exprs_guarded(exprs),
        ExprForm::Dict(pairs) => are_pairs_guarded(pairs),
        ExprForm::ListOf(_, element, clauses) => {
            is_expr_guarded(element) && are_clauses_guarded(clauses)
        }
        ExprForm::DictOf(_, key, value, clauses) => {
            is_expr_guarded(key) && is_expr_guarded(value) && are_clauses_guarded(clauses)
        }
        ExprForm::Lambda(_, params, body) => are_params_guarded(params) && is_expr_guarded(body),
        ExprForm::Cond { test, yes, no } => {
            is_expr_guarded(test) && is_expr_guarded(yes) && is_expr_guarded(no)
        }
        ExprForm::Or(exprs) => are_exprs_guarded(exprs),
        ExprForm::And(exprs) => are_exprs_guarded(exprs),
        ExprForm::Not(operand) => is_expr_guarded(operand),
        ExprForm::Compare(first, tests) => is_expr_guarded(first) && are_tests_guarded(tests),
        ExprForm::Chain(first, operands) => {
            is_expr_guarded(first) && are_operands_guarded(operands)
        }
        ExprForm::Unary(_, operand) => is_expr_guarded(operand),
        ExprForm::Power(base, exponent) => is_expr_guarded(base) && is_expr_guarded(exponent),
        ExprForm::Primary(atom, trailers) => is_expr_guarded(atom)
            && are_trailers_guarded(trailers),
    }
}

/// Whether no form stands without its guard in an expression that may be missing.
#[cycle(is_expr_guarded)]
pub fn is_option_guarded(expr: &Option<Expr>) -> bool
    ensures { result ≡ option_map_or guardedness.is_expr_guarded (option_map views.view_expr expr.now) true }
{
    match expr {
        None => true,
        Some(expr) => is_expr_guarded(expr),
    }
}

#[cycle(is_expr_guarded)]
fn are_exprs_guarded(exprs: &[Expr]) -> bool
    ensures { result ≡ guardedness.are_exprs_guarded (views.exprs_of (map views.view_expr exprs.now)) }
{
    'exprs: for expr in exprs {
        if !is_expr_guarded(expr) {
            return false;
        }
    }
    true
}

#[cycle(is_expr_guarded)]
fn are_pairs_guarded(pairs: &[(Expr, Expr)]) -> bool
    ensures { result ≡ guardedness.are_pairs_guarded (views.pairs_of (map views.view_pair pairs.now)) }
{
    'pairs: for pair in pairs {
        if !(is_expr_guarded(&pair.0) && is_expr_guarded(&pair.1)) {
            return false;
        }
    }
    true
}

#[cycle(is_expr_guarded)]
fn are_tests_guarded(tests: &[(Test, Expr)]) -> bool
    ensures { result ≡ guardedness.are_tests_guarded (views.tests_of (map views.view_test tests.now)) }
{
    'tests: for test in tests {
        if !is_expr_guarded(&test.1) {
            return false;
        }
    }
    true
}

#[cycle(is_expr_guarded)]
fn are_operands_guarded(operands: &[(BinOp, Expr)]) -> bool
    ensures { result ≡ guardedness.are_ops_guarded (views.ops_of (map views.view_op operands.now)) }
{
    'operands: for operand in operands {
        if !is_expr_guarded(&operand.1) {
            return false;
        }
    }
    true
}

#[cycle(is_expr_guarded)]
fn is_clause_guarded(clause: &Clause) -> bool
    ensures { result ≡ guardedness.is_clause_guarded (views.view_clause clause.now) }
{
    is_walk_guarded(&clause.walk) && are_exprs_guarded(&clause.tests)
}

#[cycle(is_expr_guarded)]
fn are_clauses_guarded(clauses: &[Clause]) -> bool
    ensures { result ≡ guardedness.are_clauses_guarded (views.clauses_of (map views.view_clause clauses.now)) }
{
    'clauses: for clause in clauses {
        if !is_clause_guarded(clause) {
            return false;
        }
    }
    true
}

/// Whether no form stands without its guard in what a loop goes over, nor the going over it.
#[cycle(is_expr_guarded)]
pub fn is_walk_guarded(walk: &Walk) -> bool
    ensures { result ≡ guardedness.is_walk_guarded (views.view_walk walk.now) }
{
    is_target_guarded(&walk.target)
        && is_expr_guarded(&walk.of)
        && is_walk_marked(&walk.target, &walk.guard)
}

/// Whether the mark is that of going over an iterable whose elements are assigned to the target.
fn is_walk_marked(target: &Target, mark: &Option<Guard>) -> bool
    ensures { result ≡ guardedness.is_walk_marked (views.view_target target.now) mark.now }
{
    is_mark(walk_guard(target), mark)
}

/// Whether no place in the target stands without its guard.
#[cycle(is_expr_guarded)]
pub fn is_target_guarded(target: &Target) -> bool
    ensures { result ≡ guardedness.is_target_guarded (views.view_target target.now) }
{
    match target {
        Target::Place(place) => is_place_guarded(place),
        Target::Group(targets) => are_targets_guarded(targets),
    }
}

#[cycle(is_expr_guarded)]
fn are_targets_guarded(targets: &[Target]) -> bool
    ensures { result ≡ guardedness.are_targets_guarded (views.targets_of (map views.view_target targets.now)) }
{
    'targets: for target in targets {
        if !is_target_guarded(target) {
            return false;
        }
    }
    true
}

/// Whether the place that is assigned or deleted has its guard, and no form in it stands without one.
#[cycle(is_expr_guarded)]
pub fn is_place_guarded(place: &Place) -> bool
    ensures { result ≡ guardedness.is_place_guarded (views.view_place place.now) }
{
    match place {
        Place::Name(_) => true,
        Place::Attr(object, _, guard) => is_expr_guarded(object) && is_mark(Guard::Write, guard),
        Place::Item(container, key, guard) => {
            is_expr_guarded(container) && is_expr_guarded(key) && is_mark(Guard::Write, guard)
        }
    }
}

/// Whether no form stands without its guard in the defaults of parameters.
#[cycle(is_expr_guarded)]
pub fn are_params_guarded(params: &Params) -> bool
    ensures { result ≡ guardedness.are_params_guarded (views.view_params params.now) }
{
    are_defaults_guarded(&params.plain)
}

#[cycle(is_expr_guarded)]
fn are_defaults_guarded(plain: &[(Named, Option<Expr>)]) -> bool
    ensures { result ≡ guardedness.is_plain_guarded (views.plain_of (map views.view_plain plain.now)) }
{
    'plain: for param in plain {
        if let Some(default) = &param.1
            && !is_expr_guarded(default)
        {
            return false;
        }
    }
    true
}

#[cycle(is_expr_guarded)]
#[tactic(auto, using(rp_tree::proofs::ExpressionEquations::trailer_slice))]
fn is_trailer_guarded(trailer: &Trailer) -> bool
    ensures { result ≡ guardedness.is_trailer_guarded (views.view_trailer trailer.now) }
{
    match trailer {
        Trailer::Attr(_, guard) => is_mark(Guard::GetAttr, guard),
        Trailer::Item(key, guard) => is_expr_guarded(key) && is_mark(Guard::GetItem, guard),
        Trailer::Slice(slice, guard) => is_slice_guarded(slice) && is_mark(Guard::GetItem, guard),
        Trailer::Call(args, guard) => are_args_guarded(args) && is_call_guarded(args, guard),
    }
}

#[cycle(is_expr_guarded)]
fn is_slice_guarded(slice: &Slice) -> bool
    ensures { result
        ≡ (guardedness.is_maybe_guarded (views.view_slice slice.now).0
        && guardedness.is_maybe_guarded (views.view_slice slice.now).1
        && guardedness.is_maybe_guarded (views.view_slice slice.now).2) }
{
    is_option_guarded(&slice.from) && is_option_guarded(&slice.to) && is_option_guarded(&slice.step)
}

/// Whether no argument of a call stands behind `*` or `**`, or the call has its guard.
fn is_call_guarded(args: &[Arg], mark: &Option<Guard>) -> bool
    ensures { result ≡ guardedness.is_call_guarded (views.args_of (map views.view_arg args.now)) mark.now }
{
    'arguments: for arg in args {
        match arg {
            Arg::Plain(_) => {}
            Arg::Key(_, _) => {}
            Arg::Star(_) => return is_mark(Guard::Apply, mark),
            Arg::Stars(_) => return is_mark(Guard::Apply, mark),
        }
    }
    true
}

#[cycle(is_expr_guarded)]
fn are_trailers_guarded(trailers: &[Trailer]) -> bool
    ensures { result ≡ guardedness.are_trailers_guarded (views.trailers_of (map views.view_trailer trailers.now)) }
{
    'trailers: for trailer in trailers {
        if !is_trailer_guarded(trailer) {
            return false;
        }
    }
    true
}

#[cycle(is_expr_guarded)]
fn is_arg_guarded(arg: &Arg) -> bool
    ensures { result ≡ guardedness.is_arg_guarded (views.view_arg arg.now) }
{
    match arg {
        Arg::Plain(expr) | Arg::Star(expr) | Arg::Key(_, expr) | Arg::Stars(expr) => {
            is_expr_guarded(expr)
        }
    }
}

#[cycle(is_expr_guarded)]
fn are_args_guarded(args: &[Arg]) -> bool
    ensures { result ≡ guardedness.are_args_guarded (views.args_of (map views.view_arg args.now)) }
{
    'arguments: for arg in args {
        if !is_arg_guarded(arg) {
            return false;
        }
    }
    true
}
