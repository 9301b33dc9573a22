//! The functions in expressions and in their parts.

ghost use Rattle.std.specs.Prelude.{map, option_map};
ghost use Rattle.rp_codes.specs.CodeSteps.{Adds, slice_codes};
ghost use Rattle.rp_meaning.specs.Blocks as blocks;
ghost use Rattle.rp_tree.specs.ExpressionViews as views;

use crate::code::Code;
use crate::codes::Codes;
use rp_base::BinOp;
use rp_tree::{
    Arg, Clause, Expr, ExprForm, Named, Params, Place, Slice, Target, Test, Trailer, Walk,
};

#[cycle(add_expr)]
#[tactic(auto, using(rp_tree::proofs::ExpressionEquations::expr_out))]
pub(crate) fn add_expr<'t>(codes: &mut Codes<'t>, expr: &'t Expr)
    ensures { Adds (blocks.of_expr (views.view_expr expr.now)) codes.old codes.new }
{
    add_form(codes, &expr.form);
}

#[cycle(add_expr)]
#[tactic(auto, using(rp_tree::proofs::ExpressionEquations::variants, crate::proofs::Adding::adds))]
fn add_form<'t>(codes: &mut Codes<'t>, form: &'t ExprForm)
    ensures { Adds (blocks.of_form (views.view_form form.now)) codes.old codes.new }
{
    match form {
        ExprForm::Name(_) => (),
        ExprForm::Int(_) => (),
        ExprForm::Text(_) => (),
        ExprForm::Const(_) => (),
        ExprForm::Tuple(exprs) => add_exprs(codes, exprs),
        ExprForm::List(exprs) => add_exprs(codes, exprs),
        ExprForm::Dict(pairs) => add_pairs(codes, pairs),
        ExprForm::ListOf(_, element, clauses) => {
            add_expr(codes, element);
            add_clauses(codes, clauses);
        }
        ExprForm::DictOf(_, key, value, clauses) => {
            add_expr(codes, key);
            add_expr(codes, value);
            add_clauses(codes, clauses);
        }
        ExprForm::Lambda(block, params, body) => {
            codes.put(block.0, Code::Lambda(params, body));
            add_params(codes, params);
            add_expr(codes, body);
        }
        ExprForm::Cond { test, yes, no } => {
            add_expr(codes, test);
            add_expr(codes, yes);
            add_expr(codes, no);
        }
        ExprForm::Or(exprs) => add_exprs(codes, exprs),
        ExprForm::And(exprs) => add_exprs(codes, exprs),
        ExprForm::Not(operand) => add_expr(codes, operand),
        ExprForm::Compare(operand, tests) => {
            add_expr(codes, operand);
            add_tests(codes, tests);
        }
        ExprForm::Chain(operand, more) => {
            add_expr(codes, operand);
            add_operands(codes, more);
        }
        ExprForm::Unary(_, operand) => add_expr(codes, operand),
        ExprForm::Power(base, exponent) => {
            add_expr(codes, base);
            add_expr(codes, exponent);
        }
        ExprForm::Primary(atom, trailers) => {
            add_expr(codes, atom);
            add_trailers(codes, trailers);
        }
    }
}

#[cycle(add_expr)]
#[tactic(auto, using(crate::proofs::Adding::adds))]
fn add_option<'t>(codes: &mut Codes<'t>, expr: &'t Option<Expr>)
    ensures { Adds (blocks.of_maybe (views.maybe_of (option_map views.view_expr expr.now))) codes.old codes.new }
{
    match expr {
        None => (),
        Some(expr) => add_expr(codes, expr),
    }
}

#[cycle(add_expr)]
fn add_exprs<'t>(codes: &mut Codes<'t>, exprs: &'t [Expr])
    ensures { Adds (blocks.of_exprs (views.exprs_of (map views.view_expr exprs.now))) codes.old codes.new }
{
    'exprs: for expr in exprs {
        add_expr(codes, expr);
    }
}

#[cycle(add_expr)]
fn add_pairs<'t>(codes: &mut Codes<'t>, pairs: &'t [(Expr, Expr)])
    ensures { Adds (blocks.of_pairs (views.pairs_of (map views.view_pair pairs.now))) codes.old codes.new }
{
    'pairs: for pair in pairs {
        add_expr(codes, &pair.0);
        add_expr(codes, &pair.1);
    }
}

#[cycle(add_expr)]
fn add_tests<'t>(codes: &mut Codes<'t>, tests: &'t [(Test, Expr)])
    ensures { Adds (blocks.of_tests (views.tests_of (map views.view_test tests.now))) codes.old codes.new }
{
    'tests: for test in tests {
        add_expr(codes, &test.1);
    }
}

#[cycle(add_expr)]
fn add_operands<'t>(codes: &mut Codes<'t>, operands: &'t [(BinOp, Expr)])
    ensures { Adds (blocks.of_ops (views.ops_of (map views.view_op operands.now))) codes.old codes.new }
{
    'operands: for operand in operands {
        add_expr(codes, &operand.1);
    }
}

#[cycle(add_expr)]
fn add_clauses<'t>(codes: &mut Codes<'t>, clauses: &'t [Clause])
    ensures { Adds (blocks.of_clauses (views.clauses_of (map views.view_clause clauses.now))) codes.old codes.new }
{
    'clauses: for clause in clauses {
        add_clause(codes, clause);
    }
}

#[cycle(add_expr)]
#[tactic(auto, using(rp_tree::proofs::ExpressionEquations::clause_out, crate::proofs::Adding::adds))]
fn add_clause<'t>(codes: &mut Codes<'t>, clause: &'t Clause)
    ensures { Adds (blocks.of_clause (views.view_clause clause.now)) codes.old codes.new }
{
    add_walk(codes, &clause.walk);
    add_exprs(codes, &clause.tests);
}

#[cycle(add_expr)]
#[tactic(auto, using(rp_tree::proofs::ExpressionEquations::walk_out, crate::proofs::Adding::adds))]
pub(crate) fn add_walk<'t>(codes: &mut Codes<'t>, walk: &'t Walk)
    ensures { Adds (blocks.of_walk (views.view_walk walk.now)) codes.old codes.new }
{
    add_target(codes, &walk.target);
    add_expr(codes, &walk.of);
}

#[cycle(add_expr)]
#[tactic(auto, using(rp_tree::proofs::ExpressionEquations::variants, crate::proofs::Adding::adds))]
pub(crate) fn add_target<'t>(codes: &mut Codes<'t>, target: &'t Target)
    ensures { Adds (blocks.of_target (views.view_target target.now)) codes.old codes.new }
{
    match target {
        Target::Place(place) => add_place(codes, place),
        Target::Group(targets) => add_targets(codes, targets),
    }
}

#[cycle(add_expr)]
fn add_targets<'t>(codes: &mut Codes<'t>, targets: &'t [Target])
    ensures { Adds (blocks.of_targets (views.targets_of (map views.view_target targets.now))) codes.old codes.new }
{
    'targets: for target in targets {
        add_target(codes, target);
    }
}

#[cycle(add_expr)]
#[tactic(auto, using(rp_tree::proofs::ExpressionEquations::variants, crate::proofs::Adding::adds))]
pub(crate) fn add_place<'t>(codes: &mut Codes<'t>, place: &'t Place)
    ensures { Adds (blocks.of_place (views.view_place place.now)) codes.old codes.new }
{
    match place {
        Place::Name(_) => (),
        Place::Attr(object, _, _) => add_expr(codes, object),
        Place::Item(container, key, _) => {
            add_expr(codes, container);
            add_expr(codes, key);
        }
    }
}

#[cycle(add_expr)]
#[tactic(auto, using(rp_tree::proofs::ExpressionEquations::params_out))]
pub(crate) fn add_params<'t>(codes: &mut Codes<'t>, params: &'t Params)
    ensures { Adds (blocks.of_params (views.view_params params.now)) codes.old codes.new }
{
    add_defaults(codes, &params.plain);
}

#[cycle(add_expr)]
fn add_defaults<'t>(codes: &mut Codes<'t>, plain: &'t [(Named, Option<Expr>)])
    ensures { Adds (blocks.of_plain (views.plain_of (map views.view_plain plain.now))) codes.old codes.new }
{
    'plain: for param in plain {
        if let Some(default) = &param.1 {
            add_expr(codes, default);
        }
    }
}

#[cycle(add_expr)]
#[tactic(auto, using(rp_tree::proofs::ExpressionEquations::variants, crate::proofs::Adding::adds))]
fn add_trailer<'t>(codes: &mut Codes<'t>, trailer: &'t Trailer)
    ensures { Adds (blocks.of_trailer (views.view_trailer trailer.now)) codes.old codes.new }
{
    match trailer {
        Trailer::Attr(_, _) => (),
        Trailer::Item(key, _) => add_expr(codes, key),
        Trailer::Slice(slice, _) => add_slice(codes, slice),
        Trailer::Call(args, _) => add_args(codes, args),
    }
}

#[cycle(add_expr)]
#[tactic(auto, using(rp_tree::proofs::ExpressionEquations::slice_out, crate::proofs::Adding::adds))]
fn add_slice<'t>(codes: &mut Codes<'t>, slice: &'t Slice)
    ensures { Adds (slice_codes (views.view_slice slice.now)) codes.old codes.new }
{
    add_option(codes, &slice.from);
    add_option(codes, &slice.to);
    add_option(codes, &slice.step);
}

#[cycle(add_expr)]
fn add_trailers<'t>(codes: &mut Codes<'t>, trailers: &'t [Trailer])
    ensures { Adds (blocks.of_trailers (views.trailers_of (map views.view_trailer trailers.now))) codes.old codes.new }
{
    'trailers: for trailer in trailers {
        add_trailer(codes, trailer);
    }
}

#[cycle(add_expr)]
#[tactic(auto, using(rp_tree::proofs::ExpressionEquations::variants, crate::proofs::Adding::adds))]
fn add_arg<'t>(codes: &mut Codes<'t>, arg: &'t Arg)
    ensures { Adds (blocks.of_arg (views.view_arg arg.now)) codes.old codes.new }
{
    match arg {
        Arg::Plain(expr) => add_expr(codes, expr),
        Arg::Star(expr) => add_expr(codes, expr),
        Arg::Key(_, expr) => add_expr(codes, expr),
        Arg::Stars(expr) => add_expr(codes, expr),
    }
}

#[cycle(add_expr)]
fn add_args<'t>(codes: &mut Codes<'t>, args: &'t [Arg])
    ensures { Adds (blocks.of_args (views.args_of (map views.view_arg args.now))) codes.old codes.new }
{
    'arguments: for arg in args {
        add_arg(codes, arg);
    }
}
