//! The heights of expressions and of their parts.

ghost use Rattle.std.specs.Prelude.{◌≡◌, ℕ, suc, max, map, option_map};
ghost use Rattle.rp_tree.specs.ExpressionViews as views;
ghost use Rattle.rp_tree.specs.Heights as tree_heights;
ghost use Rattle.rp_tree.specs.Heights.{capped};

use rp_base::BinOp;
use rp_tree::{
    Arg, Clause, Expr, ExprForm, Named, Params, Place, Slice, Target, Test, Trailer, Walk,
};

/// The height of a node with parts of this height.
#[tactic(auto, unfolding(rp_tree::specs::Heights::capped))]
pub fn above(height: u32) -> u32
    ensures { (n : ℕ) → height ≡ capped n → result ≡ capped (suc n) }
{
    height.saturating_add(1)
}

/// The height of an expression: 1 more than the greatest height of its parts, and the greatest `u32` where it is above
/// that.
#[cycle(expr_height)]
pub fn expr_height(expr: &Expr) -> u32
    ensures { result ≡ capped (tree_heights.expr_height (views.view_expr expr.now)) }
{
    above(form_height(&expr.form))
}

#[cycle(expr_height)]
#[tactic(auto, using(rp_tree::proofs::ExpressionEquations::variants), unfolding(rp_tree::specs::Heights::capped))]
fn form_height(form: &ExprForm) -> u32
    ensures { result ≡ capped (tree_heights.form_height (views.view_form form.now)) }
{
    match form {
        ExprForm::Name(_) | ExprForm::Int(_) | ExprForm::Text(_) | ExprForm::Const(_) => 0,
        ExprForm::Tuple(exprs) => exprs_height(exprs),
        ExprForm::List(exprs) => exprs_height(exprs),
        ExprForm::Dict(pairs) => pairs_height(pairs),
        ExprForm::ListOf(_, element, clauses) => expr_height(element).max(clauses_height(clauses)),
        ExprForm::DictOf(_, key, value, clauses) => {
            expr_height(key).max(expr_height(value).max(clauses_height(clauses)))
        }
        ExprForm::Lambda(_, params, body) => params_height(params).max(expr_height(body)),
        ExprForm::Cond { test, yes, no } => {
            expr_height(test).max(expr_height(yes).max(expr_height(no)))
        }
        ExprForm::Or(exprs) => exprs_height(exprs),
        ExprForm::And(exprs) => exprs_height(exprs),
        ExprForm::Not(operand) => expr_height(operand),
        ExprForm::Compare(first, tests) => expr_height(first).max(tests_height(tests)),
        ExprForm::Chain(first, operands) => expr_height(first).max(operands_height(operands)),
        ExprForm::Unary(_, operand) => expr_height(operand),
        ExprForm::Power(base, exponent) => expr_height(base).max(expr_height(exponent)),
        ExprForm::Primary(atom, trailers) => expr_height(atom).max(trailers_height(trailers)),
    }
}

#[cycle(expr_height)]
#[tactic(auto, unfolding(rp_tree::specs::Heights::capped))]
fn exprs_height(exprs: &[Expr]) -> u32
    ensures { result ≡ capped (tree_heights.exprs_height (views.exprs_of (map views.view_expr exprs.now))) }
{
    let mut greatest = 0;
    'exprs: for expr in exprs {
        greatest = greatest.max(expr_height(expr));
    }
    greatest
}

#[cycle(expr_height)]
#[tactic(auto, unfolding(rp_tree::specs::Heights::capped))]
fn maybe_height(expr: &Option<Expr>) -> u32
    ensures { result ≡ capped (tree_heights.maybe_height (views.maybe_of (option_map views.view_expr expr.now))) }
{
    match expr {
        None => 0,
        Some(expr) => expr_height(expr),
    }
}

#[cycle(expr_height)]
#[tactic(auto, unfolding(rp_tree::specs::Heights::capped))]
fn pairs_height(pairs: &[(Expr, Expr)]) -> u32
    ensures { result ≡ capped (tree_heights.pairs_height (views.pairs_of (map views.view_pair pairs.now))) }
{
    let mut greatest = 0;
    'pairs: for pair in pairs {
        greatest = greatest.max(expr_height(&pair.0).max(expr_height(&pair.1)));
    }
    greatest
}

#[cycle(expr_height)]
#[tactic(auto, unfolding(rp_tree::specs::Heights::capped))]
fn tests_height(tests: &[(Test, Expr)]) -> u32
    ensures { result ≡ capped (tree_heights.tests_height (views.tests_of (map views.view_test tests.now))) }
{
    let mut greatest = 0;
    'tests: for test in tests {
        greatest = greatest.max(expr_height(&test.1));
    }
    greatest
}

#[cycle(expr_height)]
#[tactic(auto, unfolding(rp_tree::specs::Heights::capped))]
fn operands_height(operands: &[(BinOp, Expr)]) -> u32
    ensures { result ≡ capped (tree_heights.ops_height (views.ops_of (map views.view_op operands.now))) }
{
    let mut greatest = 0;
    'operands: for operand in operands {
        greatest = greatest.max(expr_height(&operand.1));
    }
    greatest
}

#[cycle(expr_height)]
#[tactic(auto, unfolding(rp_tree::specs::Heights::capped))]
fn clauses_height(clauses: &[Clause]) -> u32
    ensures { result ≡ capped (tree_heights.clauses_height (views.clauses_of (map views.view_clause clauses.now))) }
{
    let mut greatest = 0;
    'clauses: for clause in clauses {
        greatest = greatest.max(walk_height(&clause.walk).max(exprs_height(&clause.tests)));
    }
    greatest
}

/// The greatest height of the nodes in what a loop goes over.
#[cycle(expr_height)]
#[tactic(auto, unfolding(rp_tree::specs::Heights::capped))]
pub fn walk_height(walk: &Walk) -> u32
    ensures { result ≡ capped (tree_heights.walk_height (views.view_walk walk.now)) }
{
    target_height(&walk.target).max(expr_height(&walk.of))
}

/// The height of a target, as a place or as a group of targets; the greatest `u32` where it is above that.
#[cycle(expr_height)]
#[tactic(auto, unfolding(rp_tree::specs::Heights::capped))]
pub fn target_height(target: &Target) -> u32
    ensures { result ≡ capped (tree_heights.target_height (views.view_target target.now)) }
{
    match target {
        Target::Place(place) => place_height(place),
        Target::Group(targets) => above(targets_height(targets)),
    }
}

#[cycle(expr_height)]
#[tactic(auto, unfolding(rp_tree::specs::Heights::capped))]
fn targets_height(targets: &[Target]) -> u32
    ensures { result ≡ capped (tree_heights.targets_height (views.targets_of (map views.view_target targets.now))) }
{
    let mut greatest = 0;
    'targets: for target in targets {
        greatest = greatest.max(target_height(target));
    }
    greatest
}

/// The height of a place.
#[cycle(expr_height)]
#[tactic(auto, unfolding(rp_tree::specs::Heights::capped))]
pub fn place_height(place: &Place) -> u32
    ensures { result ≡ capped (tree_heights.place_height (views.view_place place.now)) }
{
    match place {
        Place::Name(_) => 1,
        Place::Attr(object, _, _) => above(expr_height(object)),
        Place::Item(container, key, _) => above(expr_height(container).max(expr_height(key))),
    }
}

/// The greatest height of the defaults of parameters, 0 where there is none, and the greatest `u32` where it is above
/// that.
#[cycle(expr_height)]
#[tactic(auto, unfolding(rp_tree::specs::Heights::capped))]
pub fn params_height(params: &Params) -> u32
    ensures { result ≡ capped (tree_heights.params_height (views.view_params params.now)) }
{
    defaults_height(&params.plain)
}

#[cycle(expr_height)]
#[tactic(auto, unfolding(rp_tree::specs::Heights::capped))]
fn defaults_height(plain: &[(Named, Option<Expr>)]) -> u32
    ensures { result ≡ capped (tree_heights.plain_height (views.plain_of (map views.view_plain plain.now))) }
{
    let mut greatest = 0;
    'plain: for param in plain {
        if let Some(default) = &param.1 {
            greatest = greatest.max(expr_height(default));
        }
    }
    greatest
}

#[cycle(expr_height)]
#[tactic(auto, unfolding(rp_tree::specs::Heights::capped))]
fn trailer_height(trailer: &Trailer) -> u32
    ensures { result ≡ capped (tree_heights.trailer_height (views.view_trailer trailer.now)) }
{
    match trailer {
        Trailer::Attr(_, _) => 0,
        Trailer::Item(key, _) => expr_height(key),
        Trailer::Slice(slice, _) => slice_height(slice),
        Trailer::Call(args, _) => args_height(args),
    }
}

#[cycle(expr_height)]
#[tactic(auto, unfolding(rp_tree::specs::Heights::capped))]
fn slice_height(slice: &Slice) -> u32
    ensures { result ≡ capped (max (tree_heights.maybe_height (views.view_slice slice.now).0)
        (max (tree_heights.maybe_height (views.view_slice slice.now).1)
        (tree_heights.maybe_height (views.view_slice slice.now).2))) }
{
    maybe_height(&slice.from).max(maybe_height(&slice.to).max(maybe_height(&slice.step)))
}

#[cycle(expr_height)]
#[tactic(auto, unfolding(rp_tree::specs::Heights::capped))]
fn trailers_height(trailers: &[Trailer]) -> u32
    ensures { result ≡ capped (tree_heights.trailers_height (views.trailers_of (map views.view_trailer trailers.now))) }
{
    let mut greatest = 0;
    'trailers: for trailer in trailers {
        greatest = greatest.max(trailer_height(trailer));
    }
    greatest
}

#[cycle(expr_height)]
fn arg_height(arg: &Arg) -> u32
    ensures { result ≡ capped (tree_heights.arg_height (views.view_arg arg.now)) }
{
    match arg {
        Arg::Plain(expr) | Arg::Star(expr) | Arg::Key(_, expr) | Arg::Stars(expr) => {
            expr_height(expr)
        }
    }
}

#[cycle(expr_height)]
#[tactic(auto, unfolding(rp_tree::specs::Heights::capped))]
fn args_height(args: &[Arg]) -> u32
    ensures { result ≡ capped (tree_heights.args_height (views.args_of (map views.view_arg args.now))) }
{
    let mut greatest = 0;
    'args: for arg in args {
        greatest = greatest.max(arg_height(arg));
    }
    greatest
}
