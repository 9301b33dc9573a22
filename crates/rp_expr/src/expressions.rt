//! Lambdas, conditional expressions and expression lists.

ghost use Rattle.std.specs.Prelude.{◌≡◌, Some, map, option_map};
ghost use Rattle.rp_tree.specs.Expressions as tree;
ghost use Rattle.rp_tree.specs.ExpressionViews as views;
ghost use Rattle.rp_expr.specs.Gives.{Gives};
ghost use Rattle.rp_grammar.specs.ExpressionReading as reading;

use crate::distinct::has_distinct_names;
use crate::fault::Fault;
use crate::lists::exprs;
use crate::look::{after_colon, after_else, is_comma, is_if, is_lambda, line_at, skip};
use crate::node::{Read, node};
use crate::operators::{not, or, unary};
use crate::parameters::params;
use crate::trailers::primary;
use rp_base::Line;
use rp_token::Token;
use rp_tree::{Block, Expr, ExprForm};
use std::alloc::Global;

/// An expression within another.
#[cycle(expr)]
pub fn inner_expr(alloc: Global, tokens: &[Token], depth: usize) -> Read<'_, Expr>
    ensures { Gives (λ x. (views.view_expr x.0, x.1.now)) result ((reading.readers depth).expr tokens.now) }
{
    if depth == 0 {
        return Err(Fault::Syntax);
    }
    expr(alloc, tokens, depth - 1)
}

/// An `or` within an expression.
#[cycle(expr)]
pub fn inner_or(alloc: Global, tokens: &[Token], depth: usize) -> Read<'_, Expr>
    ensures { Gives (λ x. (views.view_expr x.0, x.1.now)) result ((reading.readers depth).or tokens.now) }
{
    if depth == 0 {
        return Err(Fault::Syntax);
    }
    or(alloc, tokens, depth - 1)
}

/// A `not` within an expression.
#[cycle(expr)]
pub fn inner_not(alloc: Global, tokens: &[Token], depth: usize) -> Read<'_, Expr>
    ensures { Gives (λ x. (views.view_expr x.0, x.1.now)) result ((reading.readers depth).not tokens.now) }
{
    if depth == 0 {
        return Err(Fault::Syntax);
    }
    not(alloc, tokens, depth - 1)
}

/// A `unary` within an expression.
#[cycle(expr)]
pub fn inner_unary(alloc: Global, tokens: &[Token], depth: usize) -> Read<'_, Expr>
    ensures { Gives (λ x. (views.view_expr x.0, x.1.now)) result ((reading.readers depth).unary tokens.now) }
{
    if depth == 0 {
        return Err(Fault::Syntax);
    }
    unary(alloc, tokens, depth - 1)
}

/// A primary within an expression.
#[cycle(expr)]
pub fn inner_primary(alloc: Global, tokens: &[Token], depth: usize) -> Read<'_, Expr>
    ensures { Gives (λ x. (views.view_expr x.0, x.1.now)) result ((reading.readers depth).primary tokens.now) }
{
    if depth == 0 {
        return Err(Fault::Syntax);
    }
    primary(alloc, tokens, depth - 1)
}

#[cycle(expr)]
#[tactic(auto, unfolding(rp_grammar::specs::ExpressionReading::lambda), using(rp_tree::proofs::ExpressionEquations::variants))]
fn lambda(alloc: Global, line: Line, tokens: &[Token], depth: usize) -> Read<'_, Expr>
    ensures { Gives (λ x. (views.view_expr x.0, x.1.now)) result
        (reading.lambda (reading.readers depth) line tokens.now) }
{
    let (params, rest) = params(alloc, tokens, depth)?;
    if !has_distinct_names(alloc, &params)? {
        return Err(Fault::Syntax);
    }
    let rest = after_colon(rest)?;
    let (body, rest) = inner_expr(alloc, rest, depth)?;
    let params = Box::new(alloc, params)?;
    Ok((
        node(alloc, line, ExprForm::Lambda(Block(0), params, body))?,
        rest,
    ))
}

#[cycle(expr)]
#[tactic(auto, unfolding(rp_grammar::specs::ExpressionReading::conditional), using(rp_tree::proofs::ExpressionEquations::variants))]
fn conditional(alloc: Global, yes: Expr, tokens: &[Token], depth: usize) -> Read<'_, Expr>
    ensures { Gives (λ x. (views.view_expr x.0, x.1.now)) result
        (reading.conditional (reading.readers depth) (views.view_expr yes) tokens.now) }
{
    let (test, rest) = or(alloc, tokens, depth)?;
    let rest = after_else(rest)?;
    let (no, rest) = inner_expr(alloc, rest, depth)?;
    let line = yes.line;
    Ok((node(alloc, line, ExprForm::Cond { test, yes, no })?, rest))
}

/// An expression.
#[cycle(expr)]
#[tactic(auto, unfolding(rp_grammar::specs::ExpressionReading::expr))]
pub fn expr(alloc: Global, tokens: &[Token], depth: usize) -> Read<'_, Expr>
    ensures { Gives (λ x. (views.view_expr x.0, x.1.now)) result (reading.expr (reading.readers depth) tokens.now) }
{
    if is_lambda(tokens) {
        return lambda(alloc, line_at(tokens), skip(tokens), depth);
    }
    let (yes, rest) = or(alloc, tokens, depth)?;
    if !is_if(rest) {
        return Ok((yes, rest));
    }
    conditional(alloc, yes, skip(rest), depth)
}

/// An expression list, which is a tuple where it has a comma.
#[tactic(auto, unfolding(rp_grammar::specs::ExpressionReading::expr_list), using(rp_tree::proofs::ExpressionEquations::variants))]
pub fn expr_list(alloc: Global, tokens: &[Token], depth: usize) -> Read<'_, Expr>
    ensures { Gives (λ x. (views.view_expr x.0, x.1.now)) result
        (reading.expr_list (reading.readers depth) tokens.now) }
{
    let (first, rest) = expr(alloc, tokens, depth)?;
    if !is_comma(rest) {
        return Ok((first, rest));
    }
    let line = first.line;
    let (all, rest) = exprs(alloc, first, skip(rest), depth)?;
    Ok((node(alloc, line, ExprForm::Tuple(all))?, rest))
}
