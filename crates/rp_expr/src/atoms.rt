//! Atoms.

ghost use Rattle.std.specs.Prelude.{◌≡◌, Some, map, option_map};
ghost use Rattle.rp_tree.specs.Expressions as tree;
ghost use Rattle.rp_tree.specs.ExpressionViews as views;
ghost use Rattle.rp_expr.specs.Gives.{Gives};
ghost use Rattle.rp_grammar.specs.ExpressionReading as reading;

use crate::clauses::clauses;
use crate::expressions::inner_expr;
use crate::fault::Fault;
use crate::lists::{exprs, other_pairs, others, pair};
use crate::look::{
    after_right_brace, after_right_bracket, after_right_paren, is_comma, is_for, is_right_brace,
    is_right_bracket, is_right_paren, skip,
};
use crate::node::{Read, node};
use crate::text::texts;
use rp_base::Line;
use rp_token::{Token, TokenKind};
use rp_tree::{Block, Const, Expr, ExprForm};
use std::alloc::Global;

#[cycle(expr)]
#[tactic(auto, unfolding(rp_grammar::specs::ExpressionReading::parenthesized), using(rp_tree::proofs::ExpressionEquations::variants))]
fn parenthesized(alloc: Global, line: Line, tokens: &[Token], depth: usize) -> Read<'_, Expr>
    ensures { Gives (λ x. (views.view_expr x.0, x.1.now)) result
        (reading.parenthesized (reading.readers depth) line tokens.now) }
{
    if is_right_paren(tokens) {
        let none = ExprForm::Tuple(Vec::new(alloc));
        return Ok((node(alloc, line, none)?, skip(tokens)));
    }
    let (first, rest) = inner_expr(alloc, tokens, depth)?;
    if !is_comma(rest) {
        let rest = after_right_paren(rest)?;
        return Ok((first, rest));
    }
    let (all, rest) = exprs(alloc, first, skip(rest), depth)?;
    let rest = after_right_paren(rest)?;
    Ok((node(alloc, line, ExprForm::Tuple(all))?, rest))
}

#[cycle(expr)]
#[tactic(auto, unfolding(rp_grammar::specs::ExpressionReading::bracketed), using(rp_tree::proofs::ExpressionEquations::variants))]
fn bracketed(alloc: Global, line: Line, tokens: &[Token], depth: usize) -> Read<'_, Expr>
    ensures { Gives (λ x. (views.view_expr x.0, x.1.now)) result
        (reading.bracketed (reading.readers depth) line tokens.now) }
{
    if is_right_bracket(tokens) {
        let none = ExprForm::List(Vec::new(alloc));
        return Ok((node(alloc, line, none)?, skip(tokens)));
    }
    let (first, rest) = inner_expr(alloc, tokens, depth)?;
    if is_for(rest) {
        let (clauses, rest) = clauses(alloc, rest, depth)?;
        let rest = after_right_bracket(rest)?;
        return Ok((
            node(alloc, line, ExprForm::ListOf(Block(0), first, clauses))?,
            rest,
        ));
    }
    let (all, rest) = others(alloc, first, rest, depth)?;
    let rest = after_right_bracket(rest)?;
    Ok((node(alloc, line, ExprForm::List(all))?, rest))
}

#[cycle(expr)]
#[tactic(auto, unfolding(rp_grammar::specs::ExpressionReading::braced), using(rp_tree::proofs::ExpressionEquations::variants))]
fn braced(alloc: Global, line: Line, tokens: &[Token], depth: usize) -> Read<'_, Expr>
    ensures { Gives (λ x. (views.view_expr x.0, x.1.now)) result
        (reading.braced (reading.readers depth) line tokens.now) }
{
    if is_right_brace(tokens) {
        let none = ExprForm::Dict(Vec::new(alloc));
        return Ok((node(alloc, line, none)?, skip(tokens)));
    }
    let (first, rest) = pair(alloc, tokens, depth)?;
    if is_for(rest) {
        let (clauses, rest) = clauses(alloc, rest, depth)?;
        let rest = after_right_brace(rest)?;
        let (key, value) = first;
        return Ok((
            node(alloc, line, ExprForm::DictOf(Block(0), key, value, clauses))?,
            rest,
        ));
    }
    let (all, rest) = other_pairs(alloc, first, rest, depth)?;
    let rest = after_right_brace(rest)?;
    Ok((node(alloc, line, ExprForm::Dict(all))?, rest))
}

/// A name, a literal, or what stands in brackets.
#[cycle(expr)]
#[tactic(auto, unfolding(rp_grammar::specs::ExpressionReading::atom))]
pub fn atom(alloc: Global, tokens: &[Token], depth: usize) -> Read<'_, Expr>
    ensures { Gives (λ x. (views.view_expr x.0, x.1.now)) result (reading.atom (reading.readers depth) tokens.now) }
{
    match tokens {
        [] => Err(Fault::Syntax),
        [token, rest @ ..] => atom_at(alloc, token, rest, depth),
    }
}

#[cycle(expr)]
#[tactic(auto, using(rp_tree::proofs::ExpressionEquations::variants))]
fn atom_at<'a>(alloc: Global, token: &Token, rest: &'a [Token], depth: usize) -> Read<'a, Expr>
    ensures { Gives (λ x. (views.view_expr x.0, x.1.now)) result
        (reading.atom_by token.now.kind (reading.readers depth) token.now.line rest.now) }
{
    let line = token.line;
    match &token.kind {
        TokenKind::Name(name) => Ok((node(alloc, line, ExprForm::Name(*name))?, rest)),
        TokenKind::Int(value) => Ok((node(alloc, line, ExprForm::Int(*value))?, rest)),
        TokenKind::Text(text) => {
            let (text, rest) = texts(alloc, text, rest)?;
            Ok((node(alloc, line, ExprForm::Text(text))?, rest))
        }
        TokenKind::None => Ok((node(alloc, line, ExprForm::Const(Const::Nil))?, rest)),
        TokenKind::True => Ok((
            node(alloc, line, ExprForm::Const(Const::Truth(true)))?,
            rest,
        )),
        TokenKind::False => Ok((
            node(alloc, line, ExprForm::Const(Const::Truth(false)))?,
            rest,
        )),
        TokenKind::LeftParen => parenthesized(alloc, line, rest, depth),
        TokenKind::LeftBracket => bracketed(alloc, line, rest, depth),
        TokenKind::LeftBrace => braced(alloc, line, rest, depth),
        _ => Err(Fault::Syntax),
    }
}
