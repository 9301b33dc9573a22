//! Lists of expressions with commas between them.

ghost use Rattle.std.specs.Prelude.{◌≡◌, Some, map, option_map};
ghost use Rattle.rp_tree.specs.Expressions as tree;
ghost use Rattle.rp_tree.specs.ExpressionViews as views;
ghost use Rattle.rp_expr.specs.Gives.{Gives};
ghost use Rattle.rp_grammar.specs.ExpressionReading as reading;

use crate::expressions::inner_expr;
use crate::look::{after_colon, is_comma, skip, starts};
use crate::node::Read;
use rp_token::Token;
use rp_tree::Expr;
use std::alloc::Global;

/// An expression, and those behind it and a comma.
#[cycle(expr)]
pub fn exprs(alloc: Global, first: Expr, tokens: &[Token], depth: usize) -> Read<'_, Vec<Expr>>
    ensures { Gives (λ x. (views.exprs_of (map views.view_expr x.0.items), x.1.now)) result
        (reading.exprs (reading.readers depth) (views.view_expr first) tokens.now) }
{
    let mut found = Vec::with_capacity(alloc, 1)?;
    found.push(first)?;
    let mut rest = tokens;
    'items: while starts(rest) {
        let (item, after) = inner_expr(alloc, rest, depth)?;
        found.push(item)?;
        if !is_comma(after) {
            return Ok((found, after));
        }
        rest = skip(after);
    }
    Ok((found, rest))
}

/// An expression, and those behind it.
#[cycle(expr)]
#[tactic(auto, unfolding(rp_grammar::specs::ExpressionReading::others))]
pub fn others(alloc: Global, first: Expr, tokens: &[Token], depth: usize) -> Read<'_, Vec<Expr>>
    ensures { Gives (λ x. (views.exprs_of (map views.view_expr x.0.items), x.1.now)) result
        (reading.others (reading.readers depth) (views.view_expr first) tokens.now) }
{
    if is_comma(tokens) {
        return exprs(alloc, first, skip(tokens), depth);
    }
    let mut found = Vec::with_capacity(alloc, 1)?;
    found.push(first)?;
    Ok((found, tokens))
}

/// A key and its value.
#[cycle(expr)]
#[tactic(auto, unfolding(rp_grammar::specs::ExpressionReading::pair))]
pub fn pair(alloc: Global, tokens: &[Token], depth: usize) -> Read<'_, (Expr, Expr)>
    ensures { Gives (λ x. (views.view_pair x.0, x.1.now)) result (reading.pair (reading.readers depth) tokens.now) }
{
    let (key, rest) = inner_expr(alloc, tokens, depth)?;
    let rest = after_colon(rest)?;
    let (value, rest) = inner_expr(alloc, rest, depth)?;
    Ok(((key, value), rest))
}

/// A pair, and those behind it and a comma.
#[cycle(expr)]
fn pairs(
    alloc: Global,
    first: (Expr, Expr),
    tokens: &[Token],
    depth: usize,
) -> Read<'_, Vec<(Expr, Expr)>>
    ensures { Gives (λ x. (views.pairs_of (map views.view_pair x.0.items), x.1.now)) result
        (reading.pairs (reading.readers depth) (views.view_pair first) tokens.now) }
{
    let mut found = Vec::with_capacity(alloc, 1)?;
    found.push(first)?;
    let mut rest = tokens;
    'items: while starts(rest) {
        let (item, after) = pair(alloc, rest, depth)?;
        found.push(item)?;
        if !is_comma(after) {
            return Ok((found, after));
        }
        rest = skip(after);
    }
    Ok((found, rest))
}

/// A pair, and those behind it.
#[cycle(expr)]
#[tactic(auto, unfolding(rp_grammar::specs::ExpressionReading::other_pairs))]
pub fn other_pairs(
    alloc: Global,
    first: (Expr, Expr),
    tokens: &[Token],
    depth: usize,
) -> Read<'_, Vec<(Expr, Expr)>>
    ensures { Gives (λ x. (views.pairs_of (map views.view_pair x.0.items), x.1.now)) result
        (reading.other_pairs (reading.readers depth) (views.view_pair first) tokens.now) }
{
    if is_comma(tokens) {
        return pairs(alloc, first, skip(tokens), depth);
    }
    let mut found = Vec::with_capacity(alloc, 1)?;
    found.push(first)?;
    Ok((found, tokens))
}
