//! The clauses of comprehensions.

ghost use Rattle.std.specs.Prelude.{◌≡◌, Some, map, option_map};
ghost use Rattle.rp_tree.specs.Expressions as tree;
ghost use Rattle.rp_tree.specs.ExpressionViews as views;
ghost use Rattle.rp_expr.specs.Gives.{Gives};
ghost use Rattle.rp_grammar.specs.ExpressionReading as reading;

use crate::conversion::target_of;
use crate::expressions::{inner_or, inner_primary};
use crate::look::{after_in, is_comma, is_for, is_if, skip, starts};
use crate::node::Read;
use rp_token::Token;
use rp_tree::{Clause, Expr, Target, Walk};
use std::alloc::Global;

#[cycle(expr)]
#[tactic(auto, unfolding(rp_grammar::specs::ExpressionReading::part))]
fn part(alloc: Global, tokens: &[Token], depth: usize) -> Read<'_, Target>
    ensures { Gives (λ x. (views.view_target x.0, x.1.now)) result (reading.part (reading.readers depth) tokens.now) }
{
    let (primary, rest) = inner_primary(alloc, tokens, depth)?;
    Ok((target_of(alloc, primary)?, rest))
}

#[cycle(expr)]
fn parts(alloc: Global, first: Target, tokens: &[Token], depth: usize) -> Read<'_, Vec<Target>>
    ensures { Gives (λ x. (views.targets_of (map views.view_target x.0.items), x.1.now)) result
        (reading.parts (reading.readers depth) (views.view_target first) tokens.now) }
{
    let mut found = Vec::with_capacity(alloc, 1)?;
    found.push(first)?;
    let mut rest = tokens;
    'items: while starts(rest) {
        let (item, after) = part(alloc, rest, depth)?;
        found.push(item)?;
        if !is_comma(after) {
            return Ok((found, after));
        }
        rest = skip(after);
    }
    Ok((found, rest))
}

/// The target of `for`.
#[cycle(expr)]
#[tactic(auto, unfolding(rp_grammar::specs::ExpressionReading::target), using(rp_tree::proofs::ExpressionEquations::variants))]
pub fn target(alloc: Global, tokens: &[Token], depth: usize) -> Read<'_, Target>
    ensures { Gives (λ x. (views.view_target x.0, x.1.now)) result (reading.target (reading.readers depth) tokens.now) }
{
    let (first, rest) = part(alloc, tokens, depth)?;
    if !is_comma(rest) {
        return Ok((first, rest));
    }
    let (all, rest) = parts(alloc, first, skip(rest), depth)?;
    Ok((Target::Group(all), rest))
}

#[cycle(expr)]
fn ifs(alloc: Global, tokens: &[Token], depth: usize) -> Read<'_, Vec<Expr>>
    ensures { Gives (λ x. (views.exprs_of (map views.view_expr x.0.items), x.1.now)) result
        (reading.ifs (reading.readers depth) tokens.now) }
{
    let mut found = Vec::new(alloc);
    let mut rest = tokens;
    'items: while is_if(rest) {
        let (item, after) = inner_or(alloc, skip(rest), depth)?;
        found.push(item)?;
        rest = after;
    }
    Ok((found, rest))
}

#[cycle(expr)]
#[tactic(auto, unfolding(rp_grammar::specs::ExpressionReading::clause))]
fn clause(alloc: Global, tokens: &[Token], depth: usize) -> Read<'_, Clause>
    ensures { Gives (λ x. (views.view_clause x.0, x.1.now)) result (reading.clause (reading.readers depth) tokens.now) }
{
    let (target, rest) = target(alloc, tokens, depth)?;
    let rest = after_in(rest)?;
    let (of, rest) = inner_or(alloc, rest, depth)?;
    let (tests, rest) = ifs(alloc, rest, depth)?;
    let walk = Walk {
        target,
        of,
        guard: None,
    };
    Ok((Clause { walk, tests }, rest))
}

/// The clauses of a comprehension.
#[cycle(expr)]
pub fn clauses(alloc: Global, tokens: &[Token], depth: usize) -> Read<'_, Vec<Clause>>
    ensures { Gives (λ x. (views.clauses_of (map views.view_clause x.0.items), x.1.now)) result
        (reading.clauses (reading.readers depth) tokens.now) }
{
    let mut found = Vec::new(alloc);
    let mut rest = tokens;
    'items: while is_for(rest) {
        let (item, after) = clause(alloc, skip(rest), depth)?;
        found.push(item)?;
        rest = after;
    }
    Ok((found, rest))
}
