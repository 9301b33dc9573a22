//! The numbers of the code blocks in expressions and in their parts, set in place.

ghost use Rattle.std.specs.Prelude.{◌≡◌, map, option_map};
ghost use Rattle.rp_tree.specs.ExpressionViews as views;
ghost use Rattle.rp_tree.specs.Maps as maps;
ghost use Rattle.rp_tree.specs.Maps.{no_blocks};
ghost use Rattle.rp_scope.specs.Numbers as numbering;
ghost use Rattle.rp_scope.specs.NumberSteps.{after, past, renumbered, slice_numbers};

use rp_base::BinOp;
use rp_tree::{
    Arg, Block, Clause, Expr, ExprForm, Named, Params, Place, Slice, Target, Test, Trailer, Walk,
};

/// The number after a number; the greatest one that 64 bits have stays.
#[tactic(auto, unfolding(crate::specs::NumberSteps::after))]
pub fn following(number: usize) -> usize
    ensures { result ≡ after number }
{
    number.saturating_add(1)
}

/// Numbers the code blocks in the expression from `first` on, in the order of their first tokens. Answers the number
/// that follows.
#[cycle(number_expr)]
pub fn number_expr(expr: &mut Expr, first: usize) -> usize
    ensures kept { maps.map_expr no_blocks (views.view_expr expr.new)
        ≡ maps.map_expr no_blocks (views.view_expr expr.old) }
    ensures numbers { numbering.expr_numbers (views.view_expr expr.new)
        ≡ renumbered first (numbering.expr_numbers (views.view_expr expr.old)) }
    ensures next { result ≡ past (numbering.expr_numbers (views.view_expr expr.old)) first }
{
    number_form(&mut expr.form, first)
}

#[cycle(number_expr)]
#[tactic(auto, using(rp_tree::proofs::ExpressionEquations::variants, crate::proofs::Runs::append_runs))]
fn number_form(form: &mut ExprForm, first: usize) -> usize
    ensures kept { maps.map_form no_blocks (views.view_form form.new)
        ≡ maps.map_form no_blocks (views.view_form form.old) }
    ensures numbers { numbering.form_numbers (views.view_form form.new)
        ≡ renumbered first (numbering.form_numbers (views.view_form form.old)) }
    ensures next { result ≡ past (numbering.form_numbers (views.view_form form.old)) first }
{
    match form {
        ExprForm::Name(_) => first,
        ExprForm::Int(_) => first,
        ExprForm::Text(_) => first,
        ExprForm::Const(_) => first,
        ExprForm::Tuple(exprs) => number_exprs(exprs, first),
        ExprForm::List(exprs) => number_exprs(exprs, first),
        ExprForm::Dict(pairs) => number_pairs(pairs, first),
        ExprForm::ListOf(block, element, clauses) => {
            *block = Block(first);
            number_clauses(clauses, number_expr(element, following(first)))
        }
        ExprForm::DictOf(block, key, value, clauses) => {
            *block = Block(first);
            let value_first = number_expr(key, following(first));
            number_clauses(clauses, number_expr(value, value_first))
        }
        ExprForm::Lambda(block, params, body) => {
            *block = Block(first);
            let params_first = following(first);
            let body_first = number_params(params, params_first);
            number_expr(body, body_first)
        }
        ExprForm::Cond { test, yes, no } => {
            let no_first = number_expr(test, number_expr(yes, first));
            number_expr(no, no_first)
        }
        ExprForm::Or(exprs) => number_exprs(exprs, first),
        ExprForm::And(exprs) => number_exprs(exprs, first),
        ExprForm::Not(operand) => number_expr(operand, first),
        ExprForm::Compare(operand, tests) => number_tests(tests, number_expr(operand, first)),
        ExprForm::Chain(operand, more) => number_operands(more, number_expr(operand, first)),
        ExprForm::Unary(_, operand) => number_expr(operand, first),
        ExprForm::Power(base, exponent) => number_expr(exponent, number_expr(base, first)),
        ExprForm::Primary(atom, trailers) => number_trailers(trailers, number_expr(atom, first)),
    }
}

/// Numbers the code blocks in an expression that may be missing.
#[cycle(number_expr)]
pub fn number_option(expr: &mut Option<Expr>, first: usize) -> usize
    ensures kept { maps.map_maybe no_blocks (views.maybe_of (option_map views.view_expr expr.new))
        ≡ maps.map_maybe no_blocks (views.maybe_of (option_map views.view_expr expr.old)) }
    ensures numbers { numbering.maybe_numbers (views.maybe_of (option_map views.view_expr expr.new))
        ≡ renumbered first (numbering.maybe_numbers (views.maybe_of (option_map views.view_expr expr.old))) }
    ensures next { result
        ≡ past (numbering.maybe_numbers (views.maybe_of (option_map views.view_expr expr.old))) first }
{
    match expr {
        None => first,
        Some(expr) => number_expr(expr, first),
    }
}

#[cycle(number_expr)]
fn number_exprs(exprs: &mut [Expr], first: usize) -> usize
    ensures kept { maps.map_exprs no_blocks (views.exprs_of (map views.view_expr exprs.new))
        ≡ maps.map_exprs no_blocks (views.exprs_of (map views.view_expr exprs.old)) }
    ensures numbers { numbering.exprs_numbers (views.exprs_of (map views.view_expr exprs.new))
        ≡ renumbered first (numbering.exprs_numbers (views.exprs_of (map views.view_expr exprs.old))) }
    ensures next { result ≡ past (numbering.exprs_numbers (views.exprs_of (map views.view_expr exprs.old))) first }
{
    let mut next = first;
    'exprs: for expr in exprs.iter_mut() {
        next = number_expr(expr, next);
    }
    next
}

#[cycle(number_expr)]
fn number_pairs(pairs: &mut [(Expr, Expr)], first: usize) -> usize
    ensures kept { maps.map_pairs no_blocks (views.pairs_of (map views.view_pair pairs.new))
        ≡ maps.map_pairs no_blocks (views.pairs_of (map views.view_pair pairs.old)) }
    ensures numbers { numbering.pairs_numbers (views.pairs_of (map views.view_pair pairs.new))
        ≡ renumbered first (numbering.pairs_numbers (views.pairs_of (map views.view_pair pairs.old))) }
    ensures next { result ≡ past (numbering.pairs_numbers (views.pairs_of (map views.view_pair pairs.old))) first }
{
    let mut next = first;
    'pairs: for pair in pairs.iter_mut() {
        let between = number_expr(&mut pair.0, next);
        next = number_expr(&mut pair.1, between);
    }
    next
}

#[cycle(number_expr)]
fn number_tests(tests: &mut [(Test, Expr)], first: usize) -> usize
    ensures kept { maps.map_tests no_blocks (views.tests_of (map views.view_test tests.new))
        ≡ maps.map_tests no_blocks (views.tests_of (map views.view_test tests.old)) }
    ensures numbers { numbering.tests_numbers (views.tests_of (map views.view_test tests.new))
        ≡ renumbered first (numbering.tests_numbers (views.tests_of (map views.view_test tests.old))) }
    ensures next { result ≡ past (numbering.tests_numbers (views.tests_of (map views.view_test tests.old))) first }
{
    let mut next = first;
    'tests: for test in tests.iter_mut() {
        next = number_expr(&mut test.1, next);
    }
    next
}

#[cycle(number_expr)]
fn number_operands(operands: &mut [(BinOp, Expr)], first: usize) -> usize
    ensures kept { maps.map_ops no_blocks (views.ops_of (map views.view_op operands.new))
        ≡ maps.map_ops no_blocks (views.ops_of (map views.view_op operands.old)) }
    ensures numbers { numbering.ops_numbers (views.ops_of (map views.view_op operands.new))
        ≡ renumbered first (numbering.ops_numbers (views.ops_of (map views.view_op operands.old))) }
    ensures next { result ≡ past (numbering.ops_numbers (views.ops_of (map views.view_op operands.old))) first }
{
    let mut next = first;
    'operands: for operand in operands.iter_mut() {
        next = number_expr(&mut operand.1, next);
    }
    next
}

#[cycle(number_expr)]
fn number_clauses(clauses: &mut [Clause], first: usize) -> usize
    ensures kept { maps.map_clauses no_blocks (views.clauses_of (map views.view_clause clauses.new))
        ≡ maps.map_clauses no_blocks (views.clauses_of (map views.view_clause clauses.old)) }
    ensures numbers { numbering.clauses_numbers (views.clauses_of (map views.view_clause clauses.new))
        ≡ renumbered first (numbering.clauses_numbers (views.clauses_of (map views.view_clause clauses.old))) }
    ensures next { result
        ≡ past (numbering.clauses_numbers (views.clauses_of (map views.view_clause clauses.old))) first }
{
    let mut next = first;
    'clauses: for clause in clauses.iter_mut() {
        next = number_clause(clause, next);
    }
    next
}

#[cycle(number_expr)]
#[tactic(auto, using(crate::proofs::Runs::append_runs))]
fn number_clause(clause: &mut Clause, first: usize) -> usize
    ensures kept { maps.map_clause no_blocks (views.view_clause clause.new)
        ≡ maps.map_clause no_blocks (views.view_clause clause.old) }
    ensures numbers { numbering.clause_numbers (views.view_clause clause.new)
        ≡ renumbered first (numbering.clause_numbers (views.view_clause clause.old)) }
    ensures next { result ≡ past (numbering.clause_numbers (views.view_clause clause.old)) first }
{
    let tests_first = number_walk(&mut clause.walk, first);
    number_exprs(&mut clause.tests, tests_first)
}

/// Numbers the code blocks in what a loop goes over.
#[cycle(number_expr)]
#[tactic(auto, using(crate::proofs::Runs::append_runs))]
pub fn number_walk(walk: &mut Walk, first: usize) -> usize
    ensures kept { maps.map_walk no_blocks (views.view_walk walk.new)
        ≡ maps.map_walk no_blocks (views.view_walk walk.old) }
    ensures numbers { numbering.walk_numbers (views.view_walk walk.new)
        ≡ renumbered first (numbering.walk_numbers (views.view_walk walk.old)) }
    ensures next { result ≡ past (numbering.walk_numbers (views.view_walk walk.old)) first }
{
    let of_first = number_target(&mut walk.target, first);
    number_expr(&mut walk.of, of_first)
}

/// Numbers the code blocks in a target.
#[cycle(number_expr)]
pub fn number_target(target: &mut Target, first: usize) -> usize
    ensures kept { maps.map_target no_blocks (views.view_target target.new)
        ≡ maps.map_target no_blocks (views.view_target target.old) }
    ensures numbers { numbering.target_numbers (views.view_target target.new)
        ≡ renumbered first (numbering.target_numbers (views.view_target target.old)) }
    ensures next { result ≡ past (numbering.target_numbers (views.view_target target.old)) first }
{
    match target {
        Target::Place(place) => number_place(place, first),
        Target::Group(targets) => number_targets(targets, first),
    }
}

#[cycle(number_expr)]
fn number_targets(targets: &mut [Target], first: usize) -> usize
    ensures kept { maps.map_targets no_blocks (views.targets_of (map views.view_target targets.new))
        ≡ maps.map_targets no_blocks (views.targets_of (map views.view_target targets.old)) }
    ensures numbers { numbering.targets_numbers (views.targets_of (map views.view_target targets.new))
        ≡ renumbered first (numbering.targets_numbers (views.targets_of (map views.view_target targets.old))) }
    ensures next { result
        ≡ past (numbering.targets_numbers (views.targets_of (map views.view_target targets.old))) first }
{
    let mut next = first;
    'targets: for target in targets.iter_mut() {
        next = number_target(target, next);
    }
    next
}

/// Numbers the code blocks in a place.
#[cycle(number_expr)]
#[tactic(auto, using(crate::proofs::Runs::append_runs))]
pub fn number_place(place: &mut Place, first: usize) -> usize
    ensures kept { maps.map_place no_blocks (views.view_place place.new)
        ≡ maps.map_place no_blocks (views.view_place place.old) }
    ensures numbers { numbering.place_numbers (views.view_place place.new)
        ≡ renumbered first (numbering.place_numbers (views.view_place place.old)) }
    ensures next { result ≡ past (numbering.place_numbers (views.view_place place.old)) first }
{
    match place {
        Place::Name(_) => first,
        Place::Attr(object, _, _) => number_expr(object, first),
        Place::Item(container, key, _) => {
            let key_first = number_expr(container, first);
            number_expr(key, key_first)
        }
    }
}

/// Numbers the code blocks in the defaults of parameters.
#[cycle(number_expr)]
pub fn number_params(params: &mut Params, first: usize) -> usize
    ensures kept { maps.map_params no_blocks (views.view_params params.new)
        ≡ maps.map_params no_blocks (views.view_params params.old) }
    ensures numbers { numbering.params_numbers (views.view_params params.new)
        ≡ renumbered first (numbering.params_numbers (views.view_params params.old)) }
    ensures next { result ≡ past (numbering.params_numbers (views.view_params params.old)) first }
{
    number_defaults(&mut params.plain, first)
}

#[cycle(number_expr)]
fn number_defaults(plain: &mut [(Named, Option<Expr>)], first: usize) -> usize
    ensures kept { maps.map_plain no_blocks (views.plain_of (map views.view_plain plain.new))
        ≡ maps.map_plain no_blocks (views.plain_of (map views.view_plain plain.old)) }
    ensures numbers { numbering.plain_numbers (views.plain_of (map views.view_plain plain.new))
        ≡ renumbered first (numbering.plain_numbers (views.plain_of (map views.view_plain plain.old))) }
    ensures next { result ≡ past (numbering.plain_numbers (views.plain_of (map views.view_plain plain.old))) first }
{
    let mut next = first;
    'plain: for param in plain.iter_mut() {
        if let Some(default) = &mut param.1 {
            next = number_expr(default, next);
        }
    }
    next
}

#[cycle(number_expr)]
#[tactic(auto, using(rp_tree::proofs::ExpressionEquations::trailer_slice))]
fn number_trailer(trailer: &mut Trailer, first: usize) -> usize
    ensures kept { maps.map_trailer no_blocks (views.view_trailer trailer.new)
        ≡ maps.map_trailer no_blocks (views.view_trailer trailer.old) }
    ensures numbers { numbering.trailer_numbers (views.view_trailer trailer.new)
        ≡ renumbered first (numbering.trailer_numbers (views.view_trailer trailer.old)) }
    ensures next { result ≡ past (numbering.trailer_numbers (views.view_trailer trailer.old)) first }
{
    match trailer {
        Trailer::Attr(_, _) => first,
        Trailer::Item(key, _) => number_expr(key, first),
        Trailer::Slice(slice, _guard) => number_slice(slice, first),
        Trailer::Call(args, _guard) => number_args(args, first),
    }
}

#[cycle(number_expr)]
#[tactic(auto, using(crate::proofs::Runs::append_runs))]
fn number_slice(slice: &mut Slice, first: usize) -> usize
    ensures from { maps.map_maybe no_blocks (views.view_slice slice.new).0
        ≡ maps.map_maybe no_blocks (views.view_slice slice.old).0 }
    ensures to { maps.map_maybe no_blocks (views.view_slice slice.new).1
        ≡ maps.map_maybe no_blocks (views.view_slice slice.old).1 }
    ensures step { maps.map_maybe no_blocks (views.view_slice slice.new).2
        ≡ maps.map_maybe no_blocks (views.view_slice slice.old).2 }
    ensures numbers { slice_numbers (views.view_slice slice.new)
        ≡ renumbered first (slice_numbers (views.view_slice slice.old)) }
    ensures next { result ≡ past (slice_numbers (views.view_slice slice.old)) first }
{
    let to_first = number_option(&mut slice.from, first);
    let step_first = number_option(&mut slice.to, to_first);
    number_option(&mut slice.step, step_first)
}

#[cycle(number_expr)]
fn number_trailers(trailers: &mut [Trailer], first: usize) -> usize
    ensures kept { maps.map_trailers no_blocks (views.trailers_of (map views.view_trailer trailers.new))
        ≡ maps.map_trailers no_blocks (views.trailers_of (map views.view_trailer trailers.old)) }
    ensures numbers { numbering.trailers_numbers (views.trailers_of (map views.view_trailer trailers.new))
        ≡ renumbered first (numbering.trailers_numbers (views.trailers_of (map views.view_trailer trailers.old))) }
    ensures next { result
        ≡ past (numbering.trailers_numbers (views.trailers_of (map views.view_trailer trailers.old))) first }
{
    let mut next = first;
    'trailers: for trailer in trailers.iter_mut() {
        next = number_trailer(trailer, next);
    }
    next
}

#[cycle(number_expr)]
fn number_arg(arg: &mut Arg, first: usize) -> usize
    ensures kept { maps.map_arg no_blocks (views.view_arg arg.new) ≡ maps.map_arg no_blocks (views.view_arg arg.old) }
    ensures numbers { numbering.arg_numbers (views.view_arg arg.new)
        ≡ renumbered first (numbering.arg_numbers (views.view_arg arg.old)) }
    ensures next { result ≡ past (numbering.arg_numbers (views.view_arg arg.old)) first }
{
    match arg {
        Arg::Plain(expr) => number_expr(expr, first),
        Arg::Star(expr) => number_expr(expr, first),
        Arg::Key(_, expr) => number_expr(expr, first),
        Arg::Stars(expr) => number_expr(expr, first),
    }
}

#[cycle(number_expr)]
fn number_args(args: &mut [Arg], first: usize) -> usize
    ensures kept { maps.map_args no_blocks (views.args_of (map views.view_arg args.new))
        ≡ maps.map_args no_blocks (views.args_of (map views.view_arg args.old)) }
    ensures numbers { numbering.args_numbers (views.args_of (map views.view_arg args.new))
        ≡ renumbered first (numbering.args_numbers (views.args_of (map views.view_arg args.old))) }
    ensures next { result ≡ past (numbering.args_numbers (views.args_of (map views.view_arg args.old))) first }
{
    let mut next = first;
    'arguments: for arg in args.iter_mut() {
        next = number_arg(arg, next);
    }
    next
}
