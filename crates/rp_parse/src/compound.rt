//! Compound statements (Python Language Reference, Compound statements).

ghost use Rattle.std.specs.Prelude.{◌≡◌, false, map, option_map};
ghost use Rattle.rp_tree.specs.StatementViews as stmt_views;
ghost use Rattle.rp_parse.specs.Gives.{Gives, ahead, block_of, context_of, deep, handling_of, with_branch};
ghost use Rattle.rp_parse.specs.Gives as gives;
ghost use Rattle.rp_grammar.specs.StatementReading as stmt_reading;
ghost use Rattle.rp_grammar.specs.StatementReading.{block_at};
ghost use Rattle.rp_grammar.specs.Kinds.{first, skip};
ghost use Rattle.rp_tree.specs.ExpressionViews as views;
ghost use Rattle.rp_grammar.specs.Statements as stmt_grammar;
ghost use Rattle.rp_tree.specs.Statements as stmt_tree;

use crate::blocks::block;
use crate::context::{Setting, function_block};
use crate::fault::Stop;
use crate::lines::{Found, low_expr, low_list, low_parameters, low_target};
use crate::look::{is_as, is_elif, is_except, is_finally, is_left_paren};
use crate::parameters::Parameters;
use rp_expr::look::{is_colon, is_else, is_in, is_right_paren, skip};
use rp_expr::name;
use rp_token::{Token, TokenKind};
use rp_tree::{Block, Branch, Except, Expr, Stmt, StmtForm, Walk};
use std::alloc::Global;

/// A block behind a colon.
#[cycle(statements)]
fn suite<'a>(alloc: Global, tokens: &'a [Token], setting: Setting<'_>) -> Found<'a, Vec<Stmt>>
    ensures { Gives (λ x. (stmt_views.view_stmts x.0.items, x.1.now)) result
        (stmt_reading.suite (block_of setting.entry) tokens.now) }
{
    if !is_colon(tokens) {
        return Err(Stop::Syntax(None));
    }
    block(alloc, skip(tokens), setting)
}

/// Behind `if`, `elif` or `while`: a test and a block.
#[cycle(statements)]
#[tactic(auto, unfolding(rp_grammar::specs::StatementReading::tested), using(rp_tree::proofs::StatementEquations::variants))]
fn tested<'a>(alloc: Global, tokens: &'a [Token], setting: Setting<'_>) -> Found<'a, Branch>
    ensures { Gives (λ x. (stmt_views.view_branch x.0, x.1.now)) result
        (stmt_reading.tested deep setting.entry.height (block_of setting.entry) tokens.now) }
{
    let (test, rest) = low_expr(alloc, tokens, setting.height)?;
    let (body, rest) = suite(alloc, rest, setting)?;
    Ok((Branch { test, body }, rest))
}

/// Further branches, each behind `elif`.
#[cycle(statements)]
fn elifs<'a>(
    alloc: Global,
    first: Branch,
    tokens: &'a [Token],
    setting: Setting<'_>,
) -> Found<'a, Vec<Branch>>
    ensures { Gives (λ x. (stmt_views.branches_of (map stmt_views.view_branch x.0.items), x.1.now)) result
        (ahead (with_branch (stmt_views.view_branch first))
        (stmt_reading.elifs deep setting.entry.height (block_of setting.entry) tokens.now)) }
{
    let mut found = Vec::with_capacity(alloc, 1)?;
    found.push(first)?;
    let mut rest = tokens;
    let mut turns = tokens.len() + 1;
    'branches: while turns > 0 {
        if !is_elif(rest) {
            return Ok((found, rest));
        }
        let (branch, after) = match tested(alloc, skip(rest), setting) {
            Ok(found) => found,
            Err(stop) => return Err(stop.at(rest)),
        };
        found.push(branch)?;
        rest = after;
        turns -= 1;
    }
    Err(Stop::Syntax(Some(rest)))
}

/// The block of `else`, where it comes.
#[cycle(statements)]
#[tactic(auto, unfolding(rp_grammar::specs::StatementReading::maybe_suite))]
fn otherwise<'a>(
    alloc: Global,
    tokens: &'a [Token],
    setting: Setting<'_>,
) -> Found<'a, Option<Vec<Stmt>>>
    ensures { Gives (λ x. (stmt_views.view_maybe_stmts x.0, x.1.now)) result
        (stmt_reading.maybe_suite stmt_reading.is_else (block_of setting.entry) tokens.now) }
{
    if !is_else(tokens) {
        return Ok((None, tokens));
    }
    match suite(alloc, skip(tokens), setting) {
        Ok((block, rest)) => Ok((Some(block), rest)),
        Err(stop) => Err(stop.at(tokens)),
    }
}

/// The block of `finally`, where it comes.
#[cycle(statements)]
#[tactic(auto, unfolding(rp_grammar::specs::StatementReading::maybe_suite))]
fn finally<'a>(
    alloc: Global,
    tokens: &'a [Token],
    setting: Setting<'_>,
) -> Found<'a, Option<Vec<Stmt>>>
    ensures { Gives (λ x. (stmt_views.view_maybe_stmts x.0, x.1.now)) result
        (stmt_reading.maybe_suite stmt_reading.is_finally (block_of setting.entry) tokens.now) }
{
    if !is_finally(tokens) {
        return Ok((None, tokens));
    }
    match suite(alloc, skip(tokens), setting) {
        Ok((block, rest)) => Ok((Some(block), rest)),
        Err(stop) => Err(stop.at(tokens)),
    }
}

/// Behind `if`.
#[cycle(statements)]
#[tactic(auto, unfolding(rp_grammar::specs::StatementReading::if_statement), using(rp_tree::proofs::StatementEquations::variants))]
pub fn if_statement<'a>(
    alloc: Global,
    tokens: &'a [Token],
    setting: Setting<'_>,
) -> Found<'a, StmtForm>
    ensures { Gives (λ x. (stmt_views.view_stmt_form x.0, x.1.now)) result
        (stmt_reading.if_statement deep setting.entry.height (block_of setting.entry) tokens.now) }
{
    let (first, rest) = tested(alloc, tokens, setting)?;
    let (branches, rest) = elifs(alloc, first, rest, setting)?;
    let (other, rest) = otherwise(alloc, rest, setting)?;
    Ok((StmtForm::If(branches, other), rest))
}

/// Behind `while`.
#[cycle(statements)]
#[tactic(auto, unfolding(rp_grammar::specs::StatementReading::while_statement), using(rp_tree::proofs::StatementEquations::variants))]
pub fn while_statement<'a>(
    alloc: Global,
    tokens: &'a [Token],
    setting: Setting<'_>,
) -> Found<'a, StmtForm>
    ensures { Gives (λ x. (stmt_views.view_stmt_form x.0, x.1.now)) result
        (stmt_reading.while_statement deep setting.entry.height (block_of setting.entry) tokens.now) }
{
    let (Branch { test, body }, rest) = tested(alloc, tokens, setting)?;
    Ok((StmtForm::While(test, body), rest))
}

/// Behind `for`.
#[cycle(statements)]
#[tactic(auto, unfolding(rp_grammar::specs::StatementReading::for_statement), using(rp_tree::proofs::StatementEquations::variants))]
pub fn for_statement<'a>(
    alloc: Global,
    tokens: &'a [Token],
    setting: Setting<'_>,
) -> Found<'a, StmtForm>
    ensures { Gives (λ x. (stmt_views.view_stmt_form x.0, x.1.now)) result
        (stmt_reading.for_statement deep setting.entry.height (block_of setting.entry) tokens.now) }
{
    let (target, rest) = low_target(alloc, tokens, setting.height)?;
    if !is_in(rest) {
        return Err(Stop::Syntax(None));
    }
    let (of, rest) = low_list(alloc, skip(rest), setting.height)?;
    let (body, rest) = suite(alloc, rest, setting)?;
    let walk = Walk {
        target,
        of,
        guard: None,
    };
    Ok((StmtForm::For(walk, body), rest))
}

/// Behind the expression of a handler.
#[cycle(statements)]
#[tactic(auto, using(rp_tree::proofs::StatementEquations::variants))]
fn named_handler<'a>(
    alloc: Global,
    kind: Expr,
    tokens: &'a [Token],
    setting: Setting<'_>,
) -> Found<'a, (Except, bool)>
    ensures { Gives (λ x. ((stmt_views.view_except x.0.0, x.0.1), x.1.now)) result
        (stmt_reading.named_handler (first tokens.now) (first (skip tokens.now)) (block_of setting.entry)
        (views.view_expr kind) tokens.now) }
{
    if !is_as(tokens) {
        let (body, rest) = suite(alloc, tokens, setting)?;
        let handler = Except {
            kind: Some(kind),
            name: None,
            body,
        };
        return Ok(((handler, false), rest));
    }
    let (name, rest) = name(skip(tokens))?;
    let (body, rest) = suite(alloc, rest, setting)?;
    let handler = Except {
        kind: Some(kind),
        name: Some(name),
        body,
    };
    Ok(((handler, false), rest))
}

/// Behind `except`: a handler, and whether it handles all.
#[cycle(statements)]
#[tactic(auto, unfolding(rp_grammar::specs::StatementReading::handler), using(rp_tree::proofs::StatementEquations::variants))]
fn handler<'a>(
    alloc: Global,
    tokens: &'a [Token],
    setting: Setting<'_>,
) -> Found<'a, (Except, bool)>
    ensures { Gives (λ x. ((stmt_views.view_except x.0.0, x.0.1), x.1.now)) result
        (stmt_reading.handler deep setting.entry.height (block_of setting.entry) tokens.now) }
{
    if is_colon(tokens) {
        let (body, rest) = suite(alloc, tokens, setting)?;
        let handler = Except {
            kind: None,
            name: None,
            body,
        };
        return Ok(((handler, true), rest));
    }
    let (kind, rest) = low_expr(alloc, tokens, setting.height)?;
    named_handler(alloc, kind, rest, setting)
}

/// Further handlers, where the last so far does not handle all.
#[cycle(statements)]
fn handlers<'a>(
    alloc: Global,
    first: Except,
    handles_all: bool,
    tokens: &'a [Token],
    setting: Setting<'_>,
) -> Found<'a, Vec<Except>>
    ensures { Gives (λ x. (stmt_views.excepts_of (map stmt_views.view_except x.0.items), x.1.now)) result
        (ahead (stmt_tree.except (stmt_views.view_except first))
        (stmt_reading.handlers deep setting.entry.height (block_of setting.entry) handles_all tokens.now)) }
{
    let mut found = Vec::with_capacity(alloc, 1)?;
    found.push(first)?;
    let mut is_last = handles_all;
    let mut rest = tokens;
    let mut turns = tokens.len() + 1;
    'handlers: while turns > 0 {
        if is_last || !is_except(rest) {
            return Ok((found, rest));
        }
        let ((next, handles_all), after) = match handler(alloc, skip(rest), setting) {
            Ok(found) => found,
            Err(stop) => return Err(stop.at(rest)),
        };
        found.push(next)?;
        is_last = handles_all;
        rest = after;
        turns -= 1;
    }
    Err(Stop::Syntax(Some(rest)))
}

/// Behind the first block of `try` and `except`.
#[cycle(statements)]
#[tactic(auto, using(rp_tree::proofs::StatementEquations::variants))]
fn handled<'a>(
    alloc: Global,
    body: Vec<Stmt>,
    tokens: &'a [Token],
    setting: Setting<'_>,
) -> Found<'a, StmtForm>
    ensures { Gives (λ x. (stmt_views.view_stmt_form x.0, x.1.now)) result
        (gives.handled setting.entry.height (block_of setting.entry) (handling_of setting.entry)
        (stmt_views.view_stmts body.items) tokens.now) }
{
    let handling = setting.block(setting.context.with_handler());
    let ((first, handles_all), rest) = handler(alloc, tokens, handling)?;
    let (handlers, rest) = handlers(alloc, first, handles_all, rest, handling)?;
    let (other, rest) = otherwise(alloc, rest, setting)?;
    let (last, rest) = finally(alloc, rest, setting)?;
    let form = StmtForm::Try {
        body,
        handlers,
        other,
        last,
    };
    Ok((form, rest))
}

/// Behind the first block of `try` and `finally`.
#[cycle(statements)]
#[tactic(auto, using(crate::proofs::Turns::finished_is))]
fn finished<'a>(
    alloc: Global,
    body: Vec<Stmt>,
    tokens: &'a [Token],
    setting: Setting<'_>,
) -> Found<'a, StmtForm>
    ensures { Gives (λ x. (stmt_views.view_stmt_form x.0, x.1.now)) result
        (gives.finished (block_of setting.entry) (stmt_views.view_stmts body.items) tokens.now) }
{
    let (last, rest) = suite(alloc, tokens, setting)?;
    let form = StmtForm::Try {
        body,
        handlers: Vec::new(alloc),
        other: None,
        last: Some(last),
    };
    Ok((form, rest))
}

/// Behind the first block of `try`: handlers, or a last block alone.
#[cycle(statements)]
fn behind_try<'a>(
    alloc: Global,
    body: Vec<Stmt>,
    tokens: &'a [Token],
    setting: Setting<'_>,
) -> Found<'a, StmtForm>
    ensures { Gives (λ x. (stmt_views.view_stmt_form x.0, x.1.now)) result
        (stmt_reading.behind_try (first tokens.now) deep setting.entry.height (block_of setting.entry)
        (handling_of setting.entry)
        (stmt_views.view_stmts body.items) tokens.now) }
{
    match tokens {
        [
            Token {
                kind: TokenKind::Except,
                ..
            },
            rest @ ..,
        ] => handled(alloc, body, rest, setting),
        [
            Token {
                kind: TokenKind::Finally,
                ..
            },
            rest @ ..,
        ] => finished(alloc, body, rest, setting),
        _ => Err(Stop::Syntax(None)),
    }
}

/// Behind `try`.
#[cycle(statements)]
#[tactic(auto, unfolding(rp_grammar::specs::StatementReading::try_statement))]
pub fn try_statement<'a>(
    alloc: Global,
    tokens: &'a [Token],
    setting: Setting<'_>,
) -> Found<'a, StmtForm>
    ensures { Gives (λ x. (stmt_views.view_stmt_form x.0, x.1.now)) result
        (stmt_reading.try_statement deep setting.entry.height (block_of setting.entry)
        (handling_of setting.entry) tokens.now) }
{
    let (body, rest) = match suite(alloc, tokens, setting) {
        Ok(found) => found,
        Err(stop) => return Err(stop.hidden()),
    };
    behind_try(alloc, body, rest, setting)
}

/// Behind `def`.
#[cycle(statements)]
#[tactic(auto, unfolding(rp_grammar::specs::StatementReading::def_statement), using(rp_tree::proofs::StatementEquations::variants))]
pub fn def_statement<'a>(
    alloc: Global,
    tokens: &'a [Token],
    setting: Setting<'_>,
) -> Found<'a, StmtForm>
    ensures { Gives (λ x. (stmt_views.view_stmt_form x.0, x.1.now)) result
        (stmt_reading.def_statement deep setting.entry.height
        (λ ps. block_at deep setting.entry.height
        (stmt_grammar.in_function ps (context_of setting.entry.context)) false) tokens.now) }
{
    let (name, rest) = name(tokens)?;
    if !is_left_paren(rest) {
        return Err(Stop::Syntax(None));
    }
    let (parameters, rest) = low_parameters(alloc, skip(rest), setting.height)?;
    if !is_right_paren(rest) {
        return Err(Stop::Syntax(None));
    }
    let named = Parameters::of(alloc, &parameters)?;
    let inner = setting.block(function_block(&named, setting.context));
    let (body, rest) = suite(alloc, skip(rest), inner)?;
    Ok((StmtForm::Def(Block(0), name, parameters, body), rest))
}

/// `()`, where it comes.
#[tactic(auto, unfolding(rp_grammar::specs::StatementReading::bases))]
fn bases(tokens: &[Token]) -> Result<&[Token], Stop<'_>>
    ensures { Gives (λ x. (tt, x.now)) result (stmt_reading.bases tokens.now) }
{
    if !is_left_paren(tokens) {
        return Ok(tokens);
    }
    let rest = skip(tokens);
    if !is_right_paren(rest) {
        return Err(Stop::Syntax(None));
    }
    Ok(skip(rest))
}

/// Behind `class`.
#[cycle(statements)]
#[tactic(auto, unfolding(rp_grammar::specs::StatementReading::class_statement), using(rp_tree::proofs::StatementEquations::variants))]
pub fn class_statement<'a>(
    alloc: Global,
    tokens: &'a [Token],
    setting: Setting<'_>,
) -> Found<'a, StmtForm>
    ensures { Gives (λ x. (stmt_views.view_stmt_form x.0, x.1.now)) result
        (stmt_reading.class_statement (block_of setting.entry) tokens.now) }
{
    let (name, rest) = name(tokens)?;
    let rest = bases(rest)?;
    let (body, rest) = suite(alloc, rest, setting)?;
    Ok((StmtForm::Class(name, body), rest))
}
