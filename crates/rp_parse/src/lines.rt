//! Lines of simple statements, and what of limited height stands in statements.

ghost use Rattle.std.specs.Prelude.{◌≡◌, ◌<◌, ◌-◌, ◌^◌, ℕ, suc, nat_le, map, option_map, length};
ghost use Rattle.rp_tree.specs.Heights as tree_heights;
ghost use Rattle.rp_tree.specs.Heights.{capped};
ghost use Rattle.rp_tree.specs.ExpressionViews as views;
ghost use Rattle.rp_tree.specs.StatementViews as stmt_views;
ghost use Rattle.rp_expr.specs.Gives as exprs;
ghost use Rattle.rp_grammar.specs.ExpressionReading as read;
ghost use Rattle.rp_parse.specs.Gives.{Gives, ahead, context_of, deep, is_text_form};
ghost use Rattle.rp_tree.specs.Statements as stmt_tree;
ghost use Rattle.rp_grammar.specs.StatementReading as stmt_reading;
ghost use Rattle.rp_grammar.specs.Statements as stmt_grammar;

use crate::context::Setting;
use crate::fault::Stop;
use crate::look::is_newline;
use crate::simple_statements::{DEPTH, simple};
use rp_expr::look::skip;
use rp_expr::{Fault, Read, expr, expr_list, has_distinct_names, params, target};
use rp_heights::{expr_height, params_height, stmt_height, target_height};
use rp_token::{Token, TokenKind};
use rp_tree::{Expr, ExprForm, Params, Stmt, StmtForm, Target};
use std::alloc::Global;

/// What is read at the front of some tokens and the tokens behind it, or why nothing is.
pub type Found<'a, T> = Result<(T, &'a [Token]), Stop<'a>>;

/// Whether a height is at most so many.
#[tactic(auto, unfolding(rp_tree::specs::Heights::capped))]
fn fits(height: u32, most: u32) -> bool
    requires { most < 2 ^ 32 - 1 }
    ensures { (n : ℕ) → height ≡ capped n → result ≡ nat_le n most }
{
    height <= most
}

/// An expression of height at most so many.
pub fn low_expr(alloc: Global, tokens: &[Token], most: u8) -> Found<'_, Expr>
    ensures { Gives (λ x. (views.view_expr x.0, x.1.now)) result
        (stmt_reading.within tree_heights.expr_height most (read.expr deep tokens.now)) }
{
    let (found, rest) = expr(alloc, tokens, DEPTH)?;
    if !fits(expr_height(&found), u32::from(most)) {
        return Err(Stop::Syntax(None));
    }
    Ok((found, rest))
}

/// An expression list of height at most so many.
pub fn low_list(alloc: Global, tokens: &[Token], most: u8) -> Found<'_, Expr>
    ensures { Gives (λ x. (views.view_expr x.0, x.1.now)) result
        (stmt_reading.within tree_heights.expr_height most (read.expr_list deep tokens.now)) }
{
    let (found, rest) = expr_list(alloc, tokens, DEPTH)?;
    if !fits(expr_height(&found), u32::from(most)) {
        return Err(Stop::Syntax(None));
    }
    Ok((found, rest))
}

/// A target of height at most so many.
pub fn low_target(alloc: Global, tokens: &[Token], most: u8) -> Found<'_, Target>
    ensures { Gives (λ x. (views.view_target x.0, x.1.now)) result
        (stmt_reading.within tree_heights.target_height most (read.target deep tokens.now)) }
{
    let (found, rest) = target(alloc, tokens, DEPTH)?;
    if !fits(target_height(&found), u32::from(most)) {
        return Err(Stop::Syntax(None));
    }
    Ok((found, rest))
}

/// Parameters whose names differ.
#[tactic(auto, unfolding(rp_grammar::specs::StatementReading::parameters))]
fn parameters(alloc: Global, tokens: &[Token]) -> Read<'_, Params>
    ensures { exprs.Gives (λ x. (views.view_params x.0, x.1.now)) result (stmt_reading.parameters deep tokens.now) }
{
    let (found, rest) = params(alloc, tokens, DEPTH)?;
    if !has_distinct_names(alloc, &found)? {
        return Err(Fault::Syntax);
    }
    Ok((found, rest))
}

/// Parameters whose names differ and whose defaults have height at most so many.
pub fn low_parameters(alloc: Global, tokens: &[Token], most: u8) -> Found<'_, Params>
    ensures { Gives (λ x. (views.view_params x.0, x.1.now)) result
        (stmt_reading.within tree_heights.params_height most (stmt_reading.parameters deep tokens.now)) }
{
    let (found, rest) = parameters(alloc, tokens)?;
    if !fits(params_height(&found), u32::from(most)) {
        return Err(Stop::Syntax(None));
    }
    Ok((found, rest))
}

/// A simple statement of height at most so many.
fn low_simple<'a>(alloc: Global, tokens: &'a [Token], setting: Setting<'_>) -> Found<'a, Stmt>
    ensures { Gives (λ x. (stmt_views.view_stmt x.0, x.1.now)) result
        (stmt_reading.within tree_heights.stmt_height (suc setting.entry.height)
        (stmt_reading.simple deep (context_of setting.entry.context) tokens.now)) }
{
    let (found, rest) = simple(alloc, tokens, setting.context)?;
    if !fits(stmt_height(&found), u32::from(setting.height) + 1) {
        return Err(Stop::Syntax(None));
    }
    Ok((found, rest))
}

#[tactic(auto, using(rp_tree::proofs::ExpressionEquations::variants))]
fn is_text(form: &ExprForm) -> bool
    ensures { result ≡ is_text_form (views.view_form form.now) }
{
    matches!(form, ExprForm::Text(_))
}

#[tactic(auto, using(rp_tree::proofs::StatementEquations::variants))]
fn is_member_form(form: &StmtForm) -> bool
    ensures { (line : _) → result
        ≡ stmt_grammar.is_member (stmt_tree.a_stmt line (stmt_views.view_stmt_form form.now)) }
{
    match form {
        StmtForm::Def(..) | StmtForm::Pass => true,
        StmtForm::Expr(expr) => is_text(&expr.form),
        _ => false,
    }
}

/// Whether a statement is a member of a class: a function definition, `pass` or a text literal.
fn is_member(stmt: &Stmt) -> bool
    ensures { result ≡ stmt_grammar.is_member (stmt_views.view_stmt stmt.now) }
{
    is_member_form(&stmt.form)
}

/// A simple statement; in the block of a class, a member.
#[tactic(auto, unfolding(rp_grammar::specs::StatementReading::simple_at))]
fn simple_at<'a>(alloc: Global, tokens: &'a [Token], setting: Setting<'_>) -> Found<'a, Stmt>
    ensures { Gives (λ x. (stmt_views.view_stmt x.0, x.1.now)) result
        (stmt_reading.simple_at deep setting.entry.height
        (context_of setting.entry.context) setting.entry.members tokens.now) }
{
    let (found, rest) = low_simple(alloc, tokens, setting)?;
    if setting.members && !is_member(&found) {
        return Err(Stop::Syntax(None));
    }
    Ok((found, rest))
}

/// A simple statement, and whether another follows on its line.
#[tactic(auto, unfolding(rp_grammar::specs::StatementReading::item_at))]
pub fn item<'a>(alloc: Global, tokens: &'a [Token], setting: Setting<'_>) -> Found<'a, (Stmt, bool)>
    ensures { Gives (λ x. ((stmt_views.view_stmt x.0.0, x.0.1), x.1.now)) result
        (stmt_reading.item_at deep setting.entry.height
        (context_of setting.entry.context) setting.entry.members tokens.now) }
{
    let (found, rest) = simple_at(alloc, tokens, setting)?;
    match rest {
        [
            Token {
                kind: TokenKind::Newline,
                ..
            },
            rest @ ..,
        ] => Ok(((found, false), rest)),
        [
            Token {
                kind: TokenKind::Semicolon,
                ..
            },
            rest @ ..,
        ] => {
            if is_newline(rest) {
                return Ok(((found, false), skip(rest)));
            }
            Ok(((found, true), rest))
        }
        _ => Err(Stop::Syntax(None)),
    }
}

/// The statements of a line, which are put behind those found before.
pub fn line<'a>(
    alloc: Global,
    found: &mut Vec<Stmt>,
    tokens: &'a [Token],
    setting: Setting<'_>,
) -> Result<&'a [Token], Stop<'a>>
    ensures { Gives (λ x. (stmt_views.view_stmts found.new.items, x.now)) result
        (ahead (stmt_grammar.joined (stmt_views.view_stmts found.old.items))
        (stmt_reading.line deep setting.entry.height
        (context_of setting.entry.context) setting.entry.members tokens.now)) }
{
    let mut rest = tokens;
    let mut turns = tokens.len() + 1;
    'items: while turns > 0 {
        let ((stmt, goes_on), after) = match item(alloc, rest, setting) {
            Ok(found) => found,
            Err(stop) => return Err(stop.at(rest)),
        };
        found.push(stmt)?;
        if !goes_on {
            return Ok(after);
        }
        rest = after;
        turns -= 1;
    }
    Err(Stop::Syntax(Some(rest)))
}
