//! Operators.

ghost use Rattle.std.specs.Prelude.{◌≡◌, suc, Some, map, option_map};
ghost use Rattle.rp_tree.specs.Expressions as tree;
ghost use Rattle.rp_tree.specs.ExpressionViews as views;
ghost use Rattle.rp_grammar.specs.Kinds.{first};
ghost use Rattle.rp_expr.specs.Gives.{Gives};
ghost use Rattle.rp_grammar.specs.ExpressionReading as reading;

use crate::expressions::{inner_not, inner_unary};
use crate::fault::Fault;
use crate::look;
use crate::look::{
    after_in, at_test, is_and, is_binary, is_double_star, is_not, is_operator, is_or, line_at,
    operator, order, skip,
};
use crate::node::{Read, node};
use crate::trailers::primary;
use rp_base::BinOp;
use rp_token::{Token, TokenKind};
use rp_tree::{Const, Expr, ExprForm, Test};
use std::alloc::Global;

/// The looseness of the loosest binary operator.
const LOOSEST: usize = 6;

#[cycle(expr)]
#[tactic(auto, unfolding(rp_grammar::specs::ExpressionReading::power), using(rp_tree::proofs::ExpressionEquations::variants))]
fn power(alloc: Global, tokens: &[Token], depth: usize) -> Read<'_, Expr>
    ensures { Gives (λ x. (views.view_expr x.0, x.1.now)) result (reading.power (reading.readers depth) tokens.now) }
{
    let (base, rest) = primary(alloc, tokens, depth)?;
    if !is_double_star(rest) {
        return Ok((base, rest));
    }
    let (exponent, rest) = inner_unary(alloc, skip(rest), depth)?;
    let line = base.line;
    Ok((node(alloc, line, ExprForm::Power(base, exponent))?, rest))
}

/// An operand of the binary operators.
#[cycle(expr)]
#[tactic(auto, unfolding(rp_grammar::specs::ExpressionReading::unary), using(rp_tree::proofs::ExpressionEquations::variants))]
pub fn unary(alloc: Global, tokens: &[Token], depth: usize) -> Read<'_, Expr>
    ensures { Gives (λ x. (views.view_expr x.0, x.1.now)) result (reading.unary (reading.readers depth) tokens.now) }
{
    let Some(op) = look::unary(tokens) else {
        return power(alloc, tokens, depth);
    };
    let (operand, rest) = inner_unary(alloc, skip(tokens), depth)?;
    Ok((
        node(alloc, line_at(tokens), ExprForm::Unary(op, operand))?,
        rest,
    ))
}

#[cycle(expr)]
fn operations(
    alloc: Global,
    level: usize,
    tokens: &[Token],
    depth: usize,
) -> Read<'_, Vec<(BinOp, Expr)>>
    ensures { Gives (λ x. (views.ops_of (map views.view_op x.0.items), x.1.now)) result
        (reading.operations (suc level) (reading.chain (reading.readers depth) level) tokens.now) }
{
    let mut found = Vec::with_capacity(alloc, 1)?;
    let mut rest = tokens;
    'items: while let Some(op) = operator(level, rest) {
        let (operand, after) = chain(alloc, level, skip(rest), depth)?;
        found.push((op, operand))?;
        rest = after;
    }
    Ok((found, rest))
}

/// A first operand, and the operations of the looseness above the level behind it, if there are any.
#[cycle(expr)]
#[tactic(auto, unfolding(rp_grammar::specs::ExpressionReading::chained_at), using(rp_tree::proofs::ExpressionEquations::variants))]
fn chained(
    alloc: Global,
    level: usize,
    first: Expr,
    tokens: &[Token],
    depth: usize,
) -> Read<'_, Expr>
    ensures { Gives (λ x. (views.view_expr x.0, x.1.now)) result
        (reading.chained_at (suc level) (reading.chain (reading.readers depth) level)
        (views.view_expr first) tokens.now) }
{
    if !is_operator(level, tokens) {
        return Ok((first, tokens));
    }
    let line = first.line;
    let (operations, rest) = operations(alloc, level, tokens, depth)?;
    Ok((node(alloc, line, ExprForm::Chain(first, operations))?, rest))
}

/// A chain of the operators of a looseness, over those of less.
#[cycle(expr)]
fn chain(alloc: Global, level: usize, tokens: &[Token], depth: usize) -> Read<'_, Expr>
    ensures { Gives (λ x. (views.view_expr x.0, x.1.now)) result
        (reading.chain (reading.readers depth) level tokens.now) }
{
    let (first, rest) = unary(alloc, tokens, depth)?;
    if !is_binary(rest) {
        return Ok((first, rest));
    }
    let mut operand = first;
    let mut rest = rest;
    let mut below = 0;
    'levels: while below < level {
        let (next, after) = chained(alloc, below, operand, rest, depth)?;
        operand = next;
        rest = after;
        below += 1;
    }
    Ok((operand, rest))
}

/// `None` behind `is` or `is not`.
#[tactic(auto, using(rp_tree::proofs::ExpressionEquations::variants))]
fn nil(alloc: Global, test: Test, tokens: &[Token]) -> Read<'_, (Test, Expr)>
    ensures { Gives (λ x. (views.view_test x.0, x.1.now)) result (reading.nil_by (first tokens.now) test tokens.now) }
{
    match tokens {
        [] => Err(Fault::Syntax),
        [token, rest @ ..] => match token.kind {
            TokenKind::None => {
                let nil = node(alloc, token.line, ExprForm::Const(Const::Nil))?;
                Ok(((test, nil), rest))
            }
            _ => Err(Fault::Syntax),
        },
    }
}

/// What stands behind `is`.
fn identity(alloc: Global, tokens: &[Token]) -> Read<'_, (Test, Expr)>
    ensures { Gives (λ x. (views.view_test x.0, x.1.now)) result (reading.is_by (first tokens.now) tokens.now) }
{
    if is_not(tokens) {
        return nil(alloc, Test::IsNot, skip(tokens));
    }
    nil(alloc, Test::Is, tokens)
}

#[cycle(expr)]
fn compared_with(
    alloc: Global,
    test: Test,
    tokens: &[Token],
    depth: usize,
) -> Read<'_, (Test, Expr)>
    ensures { Gives (λ x. (views.view_test x.0, x.1.now)) result
        (reading.compared_with (reading.readers depth) test tokens.now) }
{
    let (operand, rest) = chain(alloc, LOOSEST, tokens, depth)?;
    Ok(((test, operand), rest))
}

#[cycle(expr)]
fn test_at<'a>(
    alloc: Global,
    kind: &TokenKind,
    rest: &'a [Token],
    depth: usize,
) -> Read<'a, (Test, Expr)>
    ensures { Gives (λ x. (views.view_test x.0, x.1.now)) result
        (reading.test_by kind.now (reading.readers depth) rest.now) }
{
    match kind {
        TokenKind::In => compared_with(alloc, Test::Within, rest, depth),
        TokenKind::Not => compared_with(alloc, Test::NotWithin, after_in(rest)?, depth),
        TokenKind::Is => identity(alloc, rest),
        kind => match order(kind) {
            Some(order) => compared_with(alloc, Test::Order(order), rest, depth),
            None => Err(Fault::Syntax),
        },
    }
}

#[cycle(expr)]
#[tactic(auto, unfolding(rp_grammar::specs::ExpressionReading::comparison))]
fn test(alloc: Global, tokens: &[Token], depth: usize) -> Read<'_, (Test, Expr)>
    ensures { Gives (λ x. (views.view_test x.0, x.1.now)) result
        (reading.comparison (reading.readers depth) tokens.now) }
{
    match tokens {
        [] => Err(Fault::Syntax),
        [token, rest @ ..] => test_at(alloc, &token.kind, rest, depth),
    }
}

#[cycle(expr)]
fn tests(alloc: Global, tokens: &[Token], depth: usize) -> Read<'_, Vec<(Test, Expr)>>
    ensures { Gives (λ x. (views.tests_of (map views.view_test x.0.items), x.1.now)) result
        (reading.tests (reading.readers depth) tokens.now) }
{
    let mut found = Vec::with_capacity(alloc, 1)?;
    let mut rest = tokens;
    'items: while at_test(rest) {
        let (item, after) = test(alloc, rest, depth)?;
        found.push(item)?;
        rest = after;
    }
    Ok((found, rest))
}

#[cycle(expr)]
#[tactic(auto, unfolding(rp_grammar::specs::ExpressionReading::compare), using(rp_tree::proofs::ExpressionEquations::variants))]
fn compare(alloc: Global, tokens: &[Token], depth: usize) -> Read<'_, Expr>
    ensures { Gives (λ x. (views.view_expr x.0, x.1.now)) result (reading.compare (reading.readers depth) tokens.now) }
{
    let (first, rest) = chain(alloc, LOOSEST, tokens, depth)?;
    if !at_test(rest) {
        return Ok((first, rest));
    }
    let line = first.line;
    let (tests, rest) = tests(alloc, rest, depth)?;
    Ok((node(alloc, line, ExprForm::Compare(first, tests))?, rest))
}

/// An operand of `and`.
#[cycle(expr)]
#[tactic(auto, unfolding(rp_grammar::specs::ExpressionReading::not), using(rp_tree::proofs::ExpressionEquations::variants))]
pub fn not(alloc: Global, tokens: &[Token], depth: usize) -> Read<'_, Expr>
    ensures { Gives (λ x. (views.view_expr x.0, x.1.now)) result (reading.not (reading.readers depth) tokens.now) }
{
    if !is_not(tokens) {
        return compare(alloc, tokens, depth);
    }
    let (operand, rest) = inner_not(alloc, skip(tokens), depth)?;
    Ok((node(alloc, line_at(tokens), ExprForm::Not(operand))?, rest))
}

#[cycle(expr)]
fn ands(alloc: Global, first: Expr, tokens: &[Token], depth: usize) -> Read<'_, Vec<Expr>>
    ensures { Gives (λ x. (views.exprs_of (map views.view_expr x.0.items), x.1.now)) result
        (reading.ands (reading.readers depth) (views.view_expr first) tokens.now) }
{
    let mut found = Vec::with_capacity(alloc, 1)?;
    found.push(first)?;
    let mut rest = tokens;
    'items: while is_and(rest) {
        let (item, after) = not(alloc, skip(rest), depth)?;
        found.push(item)?;
        rest = after;
    }
    Ok((found, rest))
}

#[cycle(expr)]
#[tactic(auto, unfolding(rp_grammar::specs::ExpressionReading::and), using(rp_tree::proofs::ExpressionEquations::variants))]
fn and(alloc: Global, tokens: &[Token], depth: usize) -> Read<'_, Expr>
    ensures { Gives (λ x. (views.view_expr x.0, x.1.now)) result (reading.and (reading.readers depth) tokens.now) }
{
    let (first, rest) = not(alloc, tokens, depth)?;
    if !is_and(rest) {
        return Ok((first, rest));
    }
    let line = first.line;
    let (all, rest) = ands(alloc, first, rest, depth)?;
    Ok((node(alloc, line, ExprForm::And(all))?, rest))
}

#[cycle(expr)]
fn ors(alloc: Global, first: Expr, tokens: &[Token], depth: usize) -> Read<'_, Vec<Expr>>
    ensures { Gives (λ x. (views.exprs_of (map views.view_expr x.0.items), x.1.now)) result
        (reading.ors (reading.readers depth) (views.view_expr first) tokens.now) }
{
    let mut found = Vec::with_capacity(alloc, 1)?;
    found.push(first)?;
    let mut rest = tokens;
    'items: while is_or(rest) {
        let (item, after) = and(alloc, skip(rest), depth)?;
        found.push(item)?;
        rest = after;
    }
    Ok((found, rest))
}

/// An operand of a conditional expression.
#[cycle(expr)]
#[tactic(auto, unfolding(rp_grammar::specs::ExpressionReading::or), using(rp_tree::proofs::ExpressionEquations::variants))]
pub fn or(alloc: Global, tokens: &[Token], depth: usize) -> Read<'_, Expr>
    ensures { Gives (λ x. (views.view_expr x.0, x.1.now)) result (reading.or (reading.readers depth) tokens.now) }
{
    let (first, rest) = and(alloc, tokens, depth)?;
    if !is_or(rest) {
        return Ok((first, rest));
    }
    let line = first.line;
    let (all, rest) = ors(alloc, first, rest, depth)?;
    Ok((node(alloc, line, ExprForm::Or(all))?, rest))
}
