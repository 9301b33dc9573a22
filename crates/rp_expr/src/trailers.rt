//! Primaries: what trails an atom.

ghost use Rattle.std.specs.Prelude.{◌≡◌, Some, map, option_map};
ghost use Rattle.rp_tree.specs.Expressions as tree;
ghost use Rattle.rp_tree.specs.ExpressionViews as views;
ghost use Rattle.rp_grammar.specs.Kinds.{first};
ghost use Rattle.rp_expr.specs.Gives.{Gives};
ghost use Rattle.rp_grammar.specs.ExpressionReading as reading;

use crate::atoms::atom;
use crate::distinct::has_distinct_keys;
use crate::expressions::inner_expr;
use crate::fault::Fault;
use crate::look::{
    after_right_bracket, after_right_paren, is_colon, is_comma, is_equal, skip, starts, starts_arg,
    starts_trailer,
};
use crate::node::{Read, name, node, slicing};
use rp_token::{Token, TokenKind};
use rp_tree::{Arg, Expr, ExprForm, Trailer};
use std::alloc::Global;

#[cycle(expr)]
#[tactic(auto, unfolding(rp_grammar::specs::ExpressionReading::maybe))]
fn maybe(alloc: Global, tokens: &[Token], depth: usize) -> Read<'_, Option<Expr>>
    ensures { Gives (λ x. (views.maybe_of (option_map views.view_expr x.0), x.1.now)) result
        (reading.maybe (reading.readers depth) tokens.now) }
{
    if !starts(tokens) {
        return Ok((None, tokens));
    }
    let (item, rest) = inner_expr(alloc, tokens, depth)?;
    Ok((Some(item), rest))
}

#[cycle(expr)]
#[tactic(auto, unfolding(rp_grammar::specs::ExpressionReading::slice), using(rp_tree::proofs::ExpressionEquations::variants))]
fn slice(alloc: Global, from: Option<Expr>, tokens: &[Token], depth: usize) -> Read<'_, Trailer>
    ensures { Gives (λ x. (views.view_trailer x.0, x.1.now)) result
        (reading.slice (reading.readers depth) (views.maybe_of (option_map views.view_expr from)) tokens.now) }
{
    let (to, rest) = maybe(alloc, tokens, depth)?;
    if !is_colon(rest) {
        let rest = after_right_bracket(rest)?;
        return Ok((slicing(alloc, from, to, None)?, rest));
    }
    let (step, rest) = maybe(alloc, skip(rest), depth)?;
    let rest = after_right_bracket(rest)?;
    Ok((slicing(alloc, from, to, step)?, rest))
}

#[cycle(expr)]
#[tactic(auto, unfolding(rp_grammar::specs::ExpressionReading::subscript), using(rp_tree::proofs::ExpressionEquations::variants))]
fn subscript(alloc: Global, tokens: &[Token], depth: usize) -> Read<'_, Trailer>
    ensures { Gives (λ x. (views.view_trailer x.0, x.1.now)) result
        (reading.subscript (reading.readers depth) tokens.now) }
{
    if is_colon(tokens) {
        return slice(alloc, None, skip(tokens), depth);
    }
    let (item, rest) = inner_expr(alloc, tokens, depth)?;
    if is_colon(rest) {
        return slice(alloc, Some(item), skip(rest), depth);
    }
    let rest = after_right_bracket(rest)?;
    Ok((Trailer::Item(item, None), rest))
}

#[cycle(expr)]
#[tactic(auto, unfolding(rp_grammar::specs::ExpressionReading::positional), using(rp_tree::proofs::ExpressionEquations::variants))]
fn positional(alloc: Global, named: bool, tokens: &[Token], depth: usize) -> Read<'_, (Arg, bool)>
    ensures { Gives (λ x. ((views.view_arg x.0.0, x.0.1), x.1.now)) result
        (reading.positional (reading.readers depth) named tokens.now) }
{
    if named {
        return Err(Fault::Syntax);
    }
    let (value, rest) = inner_expr(alloc, tokens, depth)?;
    Ok(((Arg::Plain(value), false), rest))
}

#[cycle(expr)]
#[tactic(auto, unfolding(rp_grammar::specs::ExpressionReading::starred), using(rp_tree::proofs::ExpressionEquations::variants))]
fn starred(alloc: Global, named: bool, tokens: &[Token], depth: usize) -> Read<'_, (Arg, bool)>
    ensures { Gives (λ x. ((views.view_arg x.0.0, x.0.1), x.1.now)) result
        (reading.starred (reading.readers depth) named tokens.now) }
{
    if named {
        return Err(Fault::Syntax);
    }
    let (value, rest) = inner_expr(alloc, tokens, depth)?;
    Ok(((Arg::Star(value), false), rest))
}

#[cycle(expr)]
#[tactic(auto, unfolding(rp_grammar::specs::ExpressionReading::arg), using(rp_tree::proofs::ExpressionEquations::variants))]
fn arg(alloc: Global, named: bool, tokens: &[Token], depth: usize) -> Read<'_, (Arg, bool)>
    ensures { Gives (λ x. ((views.view_arg x.0.0, x.0.1), x.1.now)) result
        (reading.arg (reading.readers depth) named tokens.now) }
{
    match tokens {
        [] => positional(alloc, named, tokens, depth),
        [token, rest @ ..] => match token.kind {
            TokenKind::Star => starred(alloc, named, rest, depth),
            TokenKind::DoubleStar => {
                let (value, rest) = inner_expr(alloc, rest, depth)?;
                Ok(((Arg::Stars(value), true), rest))
            }
            TokenKind::Name(name) if is_equal(rest) => {
                let (value, rest) = inner_expr(alloc, skip(rest), depth)?;
                Ok(((Arg::Key(name, value), true), rest))
            }
            _ => positional(alloc, named, tokens, depth),
        },
    }
}

#[cycle(expr)]
fn args(alloc: Global, tokens: &[Token], depth: usize) -> Read<'_, Vec<Arg>>
    ensures { Gives (λ x. (views.args_of (map views.view_arg x.0.items), x.1.now)) result
        (reading.args (reading.readers depth) tokens.now) }
{
    let mut found = Vec::with_capacity(alloc, 1)?;
    let mut named = false;
    let mut rest = tokens;
    'items: while starts_arg(rest) {
        let ((item, has_name), after) = arg(alloc, named, rest, depth)?;
        found.push(item)?;
        if !is_comma(after) {
            return Ok((found, after));
        }
        named = has_name;
        rest = skip(after);
    }
    Ok((found, rest))
}

#[cycle(expr)]
#[tactic(auto, unfolding(rp_grammar::specs::ExpressionReading::called), using(rp_tree::proofs::ExpressionEquations::variants))]
fn called(alloc: Global, tokens: &[Token], depth: usize) -> Read<'_, Trailer>
    ensures { Gives (λ x. (views.view_trailer x.0, x.1.now)) result
        (reading.called (reading.readers depth) tokens.now) }
{
    let (args, rest) = args(alloc, tokens, depth)?;
    if !has_distinct_keys(alloc, &args)? {
        return Err(Fault::Syntax);
    }
    let rest = after_right_paren(rest)?;
    Ok((Trailer::Call(args, None), rest))
}

#[cycle(expr)]
#[tactic(auto, unfolding(rp_grammar::specs::ExpressionReading::trailer), using(rp_tree::proofs::ExpressionEquations::variants))]
fn trailer(alloc: Global, tokens: &[Token], depth: usize) -> Read<'_, Trailer>
    ensures { Gives (λ x. (views.view_trailer x.0, x.1.now)) result
        (reading.trailer (reading.readers depth) tokens.now) }
{
    match tokens {
        [] => Err(Fault::Syntax),
        [token, rest @ ..] => match token.kind {
            TokenKind::Dot => attr(rest),
            TokenKind::LeftBracket => subscript(alloc, rest, depth),
            TokenKind::LeftParen => called(alloc, rest, depth),
            _ => Err(Fault::Syntax),
        },
    }
}

#[cycle(expr)]
fn trailers(alloc: Global, tokens: &[Token], depth: usize) -> Read<'_, Vec<Trailer>>
    ensures { Gives (λ x. (views.trailers_of (map views.view_trailer x.0.items), x.1.now)) result
        (reading.trailers (reading.readers depth) tokens.now) }
{
    let mut found = Vec::with_capacity(alloc, 2)?;
    let mut rest = tokens;
    'items: while starts_trailer(rest) {
        let (item, after) = trailer(alloc, rest, depth)?;
        found.push(item)?;
        rest = after;
    }
    Ok((found, rest))
}

/// The primary at the front of some tokens, an atom with what trails it, and the tokens behind it (Python Language
/// Reference, Primaries). Expressions are read within it as deep as `depth` goes.
///
/// # Errors
/// `Syntax` where the front of the tokens spells no primary within the depth, `Memory` where a growth was refused.
#[cycle(expr)]
#[tactic(auto, unfolding(rp_grammar::specs::ExpressionReading::primary), using(rp_tree::proofs::ExpressionEquations::variants))]
pub fn primary(alloc: Global, tokens: &[Token], depth: usize) -> Read<'_, Expr>
    ensures { Gives (λ x. (views.view_expr x.0, x.1.now)) result (reading.primary (reading.readers depth) tokens.now) }
{
    let (atom, rest) = atom(alloc, tokens, depth)?;
    if !starts_trailer(rest) {
        return Ok((atom, rest));
    }
    let line = atom.line;
    let (trailers, rest) = trailers(alloc, rest, depth)?;
    Ok((node(alloc, line, ExprForm::Primary(atom, trailers))?, rest))
}

/// A name behind a dot.
#[tactic(auto, unfolding(rp_grammar::specs::ExpressionReading::attr), using(rp_tree::proofs::ExpressionEquations::variants))]
fn attr(tokens: &[Token]) -> Read<'_, Trailer>
    ensures { Gives (λ x. (views.view_trailer x.0, x.1.now)) result (reading.attr tokens.now) }
{
    let (name, rest) = name(tokens)?;
    Ok((Trailer::Attr(name, None), rest))
}
