//! Parameters.

ghost use Rattle.std.specs.Prelude.{◌≡◌, Some, map, option_map};
ghost use Rattle.rp_tree.specs.Expressions as tree;
ghost use Rattle.rp_tree.specs.ExpressionViews as views;
ghost use Rattle.rp_grammar.specs.Kinds.{first};
ghost use Rattle.rp_expr.specs.Gives.{Gives};
ghost use Rattle.rp_expr.specs.Gives as expr_gives;
ghost use Rattle.rp_grammar.specs.ExpressionReading as reading;

use crate::expressions::inner_expr;
use crate::fault::Fault;
use crate::look::{is_comma, is_double_star, is_equal, is_name, is_star, skip};
use crate::node::{Read, name};
use rp_token::Token;
use rp_tree::{Expr, Named, Params};
use std::alloc::Global;

/// A parameter with its default.
type Plain = (Named, Option<Expr>);

/// The last name, behind which a comma may stand.
#[tactic(auto, unfolding(rp_grammar::specs::ExpressionReading::last_name))]
fn last_name(tokens: &[Token]) -> Read<'_, Named>
    ensures { Gives (λ x. (x.0, x.1.now)) result (reading.last_name tokens.now) }
{
    let (found, rest) = name(tokens)?;
    if is_comma(rest) {
        return Ok((found, skip(rest)));
    }
    Ok((found, rest))
}

/// `**NAME`, where it comes.
#[tactic(auto, unfolding(rp_grammar::specs::ExpressionReading::dict_param))]
fn dict_param(tokens: &[Token]) -> Read<'_, Option<Named>>
    ensures { Gives (λ x. (x.0, x.1.now)) result (reading.dict_param tokens.now) }
{
    if !is_double_star(tokens) {
        return Ok((None, tokens));
    }
    let (found, rest) = last_name(skip(tokens))?;
    Ok((Some(found), rest))
}

/// `*NAME` and `**NAME`, where they come.
#[tactic(auto, unfolding(rp_grammar::specs::ExpressionReading::star_params))]
fn star_params(tokens: &[Token]) -> Read<'_, (Option<Named>, Option<Named>)>
    ensures { Gives (λ x. (x.0, x.1.now)) result (reading.star_params tokens.now) }
{
    if !is_star(tokens) {
        let (dict, rest) = dict_param(tokens)?;
        return Ok(((None, dict), rest));
    }
    let (list, rest) = name(skip(tokens))?;
    if !is_comma(rest) {
        return Ok(((Some(list), None), rest));
    }
    let (dict, rest) = dict_param(skip(rest))?;
    Ok(((Some(list), dict), rest))
}

#[cycle(expr)]
#[tactic(auto, unfolding(rp_grammar::specs::ExpressionReading::plain))]
fn plain(alloc: Global, defaults: bool, tokens: &[Token], depth: usize) -> Read<'_, (Plain, bool)>
    ensures { Gives (λ x. ((expr_gives.plain_item (views.view_plain x.0.0), x.0.1), x.1.now)) result
        (reading.plain (reading.readers depth) defaults tokens.now) }
{
    let (name, rest) = name(tokens)?;
    if is_equal(rest) {
        let (default, rest) = inner_expr(alloc, skip(rest), depth)?;
        return Ok((((name, Some(default)), true), rest));
    }
    if defaults {
        return Err(Fault::Syntax);
    }
    Ok((((name, None), false), rest))
}

#[cycle(expr)]
fn plains(alloc: Global, tokens: &[Token], depth: usize) -> Read<'_, (Vec<Plain>, bool)>
    ensures { Gives (λ x. ((views.plain_of (map views.view_plain x.0.0.items), x.0.1), x.1.now)) result
        (reading.plains (reading.readers depth) tokens.now) }
{
    let mut found = Vec::new(alloc);
    let mut defaults = false;
    let mut rest = tokens;
    'items: while is_name(rest) {
        let ((item, has_default), after) = plain(alloc, defaults, rest, depth)?;
        found.push(item)?;
        if !is_comma(after) {
            return Ok(((found, false), after));
        }
        defaults = has_default;
        rest = skip(after);
    }
    Ok(((found, true), rest))
}

/// The parameters of a function or of a lambda.
#[cycle(expr)]
#[tactic(auto, unfolding(rp_grammar::specs::ExpressionReading::params))]
pub fn params(alloc: Global, tokens: &[Token], depth: usize) -> Read<'_, Params>
    ensures { Gives (λ x. (views.view_params x.0, x.1.now)) result (reading.params (reading.readers depth) tokens.now) }
{
    let ((plain, is_open), rest) = plains(alloc, tokens, depth)?;
    if !is_open {
        return Ok((
            Params {
                plain,
                list: None,
                dict: None,
            },
            rest,
        ));
    }
    let ((list, dict), rest) = star_params(rest)?;
    Ok((Params { plain, list, dict }, rest))
}
