//! Simple statements (Python Language Reference, Simple statements).

ghost use Rattle.std.specs.Prelude.{◌≡◌, None, Some, map, option_map};
ghost use Rattle.rp_tree.specs.ExpressionViews as views;
ghost use Rattle.rp_tree.specs.Statements as stmt_tree;
ghost use Rattle.rp_tree.specs.StatementViews as stmt_views;
ghost use Rattle.rp_expr.specs.Gives.{Gives};
ghost use Rattle.rp_grammar.specs.Kinds.{augmented_of, first};
ghost use Rattle.rp_grammar.specs.ExpressionReading.{before};
ghost use Rattle.rp_parse.specs.Gives.{allowed, context_of, deep, deleted, other_names, other_places, with_places};
ghost use Rattle.rp_grammar.specs.StatementReading as stmt_reading;

use crate::context::{Context, are_free};
use rp_base::{BinOp, Line};
use rp_expr::look::{augmented as augmented_op, is_comma, is_equal, line_at, skip, starts};
use rp_expr::{Fault, Read, expr, expr_list, name, place_of, primary, target_of};
use rp_token::{Token, TokenKind};
use rp_tree::{Expr, Named, Place, Stmt, StmtForm, Target};
use std::alloc::Global;

/// How deep expressions are read: enough for 450 open brackets and a tree of height 200.
pub const DEPTH: usize = 650;

/// A statement of this form.
pub fn stmt(alloc: Global, line: Line, form: StmtForm) -> Result<Stmt, Fault>
    ensures { Gives stmt_views.view_stmt result (Some (stmt_tree.a_stmt line (stmt_views.view_stmt_form form))) }
{
    let form = Box::new(alloc, form)?;
    Ok(Stmt { line, form })
}

/// A place.
#[tactic(auto, unfolding(rp_grammar::specs::StatementReading::place))]
fn place(alloc: Global, tokens: &[Token]) -> Read<'_, Place>
    ensures { Gives (λ x. (views.view_place x.0, x.1.now)) result (stmt_reading.place deep tokens.now) }
{
    let (found, rest) = primary(alloc, tokens, DEPTH)?;
    Ok((place_of(alloc, found)?, rest))
}

/// A place, and those behind it and a comma.
fn other_places(alloc: Global, first: Place, tokens: &[Token]) -> Read<'_, Vec<Place>>
    ensures { Gives (λ x. (map views.view_place x.0.items, x.1.now)) result
        (other_places deep (views.view_place first) tokens.now) }
{
    let mut found = Vec::with_capacity(alloc, 1)?;
    found.push(first)?;
    let mut rest = tokens;
    'items: while starts(rest) {
        let (item, after) = place(alloc, rest)?;
        found.push(item)?;
        if !is_comma(after) {
            return Ok((found, after));
        }
        rest = skip(after);
    }
    Ok((found, rest))
}

/// Places with commas between them, and a comma behind the last or not.
#[tactic(auto, unfolding(rp_grammar::specs::StatementReading::places))]
fn places(alloc: Global, tokens: &[Token]) -> Read<'_, Vec<Place>>
    ensures { Gives (λ x. (map views.view_place x.0.items, x.1.now)) result (stmt_reading.places deep tokens.now) }
{
    let (first, rest) = place(alloc, tokens)?;
    if is_comma(rest) {
        return other_places(alloc, first, skip(rest));
    }
    let mut found = Vec::with_capacity(alloc, 1)?;
    found.push(first)?;
    Ok((found, rest))
}

/// A name, and those behind it, each with a comma before it.
fn other_names(alloc: Global, first: Named, tokens: &[Token]) -> Read<'_, Vec<Named>>
    ensures { Gives (λ x. (x.0.items, x.1.now)) result (other_names first tokens.now) }
{
    let mut found = Vec::with_capacity(alloc, 1)?;
    found.push(first)?;
    let mut rest = tokens;
    'items: while is_comma(rest) {
        let (item, after) = name(skip(rest))?;
        found.push(item)?;
        rest = after;
    }
    Ok((found, rest))
}

/// Names with commas between them.
#[tactic(auto, unfolding(rp_grammar::specs::StatementReading::names))]
fn names(alloc: Global, tokens: &[Token]) -> Read<'_, Vec<Named>>
    ensures { Gives (λ x. (x.0.items, x.1.now)) result (stmt_reading.names tokens.now) }
{
    let (first, rest) = name(tokens)?;
    other_names(alloc, first, rest)
}

/// An expression list, where one begins.
#[tactic(auto, unfolding(rp_grammar::specs::StatementReading::maybe_exprs))]
fn maybe_exprs(alloc: Global, tokens: &[Token]) -> Read<'_, Option<Expr>>
    ensures { Gives (λ x. (option_map views.view_expr x.0, x.1.now)) result (stmt_reading.maybe_exprs deep tokens.now) }
{
    if !starts(tokens) {
        return Ok((None, tokens));
    }
    let (found, rest) = expr_list(alloc, tokens, DEPTH)?;
    Ok((Some(found), rest))
}

/// An expression, where one begins.
#[tactic(auto, unfolding(rp_grammar::specs::StatementReading::maybe_expr))]
fn maybe_expr(alloc: Global, tokens: &[Token]) -> Read<'_, Option<Expr>>
    ensures { Gives (λ x. (option_map views.view_expr x.0, x.1.now)) result (stmt_reading.maybe_expr deep tokens.now) }
{
    if !starts(tokens) {
        return Ok((None, tokens));
    }
    let (found, rest) = expr(alloc, tokens, DEPTH)?;
    Ok((Some(found), rest))
}

/// Behind `return`.
#[tactic(auto, using(crate::proofs::Turns::return_is, rp_tree::proofs::StatementEquations::variants))]
fn return_statement<'a>(
    alloc: Global,
    line: Line,
    tokens: &'a [Token],
    context: Context<'_>,
) -> Read<'a, Stmt>
    ensures { Gives (λ x. (stmt_views.view_stmt x.0, x.1.now)) result
        (stmt_reading.return deep (context_of context.entry) line tokens.now) }
{
    if context.function.is_none() {
        return Err(Fault::Syntax);
    }
    let (value, rest) = maybe_exprs(alloc, tokens)?;
    Ok((stmt(alloc, line, StmtForm::Return(value))?, rest))
}

/// Behind `raise`.
#[tactic(auto, unfolding(rp_grammar::specs::StatementReading::raise), using(rp_tree::proofs::StatementEquations::variants))]
fn raise_statement<'a>(
    alloc: Global,
    line: Line,
    tokens: &'a [Token],
    context: Context<'_>,
) -> Read<'a, Stmt>
    ensures { Gives (λ x. (stmt_views.view_stmt x.0, x.1.now)) result
        (stmt_reading.raise deep (context_of context.entry) line tokens.now) }
{
    let (value, rest) = maybe_expr(alloc, tokens)?;
    if value.is_none() && !context.in_handler {
        return Err(Fault::Syntax);
    }
    Ok((stmt(alloc, line, StmtForm::Raise(value))?, rest))
}

/// Behind `assert`.
#[tactic(auto, unfolding(rp_grammar::specs::StatementReading::assert), using(rp_tree::proofs::StatementEquations::variants))]
fn assert_statement(alloc: Global, line: Line, tokens: &[Token]) -> Read<'_, Stmt>
    ensures { Gives (λ x. (stmt_views.view_stmt x.0, x.1.now)) result (stmt_reading.assert deep line tokens.now) }
{
    let (test, rest) = expr(alloc, tokens, DEPTH)?;
    if !is_comma(rest) {
        return Ok((stmt(alloc, line, StmtForm::Assert(test, None))?, rest));
    }
    let (message, rest) = expr(alloc, skip(rest), DEPTH)?;
    let form = StmtForm::Assert(test, Some(message));
    Ok((stmt(alloc, line, form)?, rest))
}

/// Behind `global`.
#[tactic(auto, unfolding(rp_grammar::specs::StatementReading::global), using(rp_tree::proofs::StatementEquations::variants))]
fn global_statement<'a>(
    alloc: Global,
    line: Line,
    tokens: &'a [Token],
    context: Context<'_>,
) -> Read<'a, Stmt>
    ensures { Gives (λ x. (stmt_views.view_stmt x.0, x.1.now)) result
        (stmt_reading.global (context_of context.entry) line tokens.now) }
{
    if context.in_class {
        return Err(Fault::Syntax);
    }
    let (names, rest) = names(alloc, tokens)?;
    if !are_free(&context, &names) {
        return Err(Fault::Syntax);
    }
    Ok((stmt(alloc, line, StmtForm::Global(names))?, rest))
}

/// Behind `del`.
#[tactic(auto, using(rp_tree::proofs::StatementEquations::variants))]
fn del_statement(alloc: Global, line: Line, tokens: &[Token]) -> Read<'_, Stmt>
    ensures { Gives (λ x. (stmt_views.view_stmt x.0, x.1.now)) result (deleted deep line tokens.now) }
{
    let (places, rest) = places(alloc, tokens)?;
    Ok((stmt(alloc, line, StmtForm::Del(places))?, rest))
}

/// Behind places, each with `=` behind it: further ones, and the value.
fn assigned(alloc: Global, places: Vec<Place>, tokens: &[Token]) -> Read<'_, (Vec<Place>, Expr)>
    ensures { Gives (λ x. ((map views.view_place x.0.0.items, views.view_expr x.0.1), x.1.now)) result
        (before (with_places (map views.view_place places.items)) (stmt_reading.assigned deep tokens.now)) }
{
    let mut places = places;
    let mut rest = tokens;
    let mut turns = tokens.len() + 1;
    'values: while turns > 0 {
        let (value, after) = expr_list(alloc, rest, DEPTH)?;
        if !is_equal(after) {
            return Ok(((places, value), after));
        }
        places.push(place_of(alloc, value)?)?;
        rest = skip(after);
        turns -= 1;
    }
    Err(Fault::Syntax)
}

/// Behind an expression list and `=`.
#[tactic(auto, unfolding(rp_grammar::specs::StatementReading::assignment), using(rp_tree::proofs::StatementEquations::variants))]
fn assignment(alloc: Global, left: Expr, tokens: &[Token]) -> Read<'_, Stmt>
    ensures { Gives (λ x. (stmt_views.view_stmt x.0, x.1.now)) result
        (stmt_reading.assignment deep (views.view_expr left) tokens.now) }
{
    let line = left.line;
    match target_of(alloc, left)? {
        Target::Place(place) => {
            let mut places = Vec::with_capacity(alloc, 1)?;
            places.push(place)?;
            let ((places, value), rest) = assigned(alloc, places, tokens)?;
            Ok((stmt(alloc, line, StmtForm::Assign(places, value))?, rest))
        }
        group => {
            let (value, rest) = expr_list(alloc, tokens, DEPTH)?;
            Ok((
                stmt(alloc, line, StmtForm::Unpack(group, value, None))?,
                rest,
            ))
        }
    }
}

/// Behind an expression list, where a mark of augmented assignment comes.
#[tactic(auto, unfolding(rp_grammar::specs::StatementReading::augmented), using(rp_tree::proofs::StatementEquations::variants))]
fn augmented(alloc: Global, op: BinOp, left: Expr, tokens: &[Token]) -> Read<'_, Stmt>
    ensures { Gives (λ x. (stmt_views.view_stmt x.0, x.1.now)) result
        (stmt_reading.augmented deep op (views.view_expr left) tokens.now) }
{
    let line = left.line;
    let place = place_of(alloc, left)?;
    let (value, rest) = expr_list(alloc, skip(tokens), DEPTH)?;
    let form = StmtForm::Aug {
        place,
        op,
        at: line_at(tokens),
        value,
        guard: None,
    };
    Ok((stmt(alloc, line, form)?, rest))
}

/// Behind an expression list.
#[tactic(auto, using(rp_tree::proofs::StatementEquations::variants))]
fn behind_exprs(alloc: Global, left: Expr, tokens: &[Token]) -> Read<'_, Stmt>
    ensures { Gives (λ x. (stmt_views.view_stmt x.0, x.1.now)) result
        (stmt_reading.behind_exprs (first tokens.now) (augmented_of (first tokens.now)) deep
        (views.view_expr left) tokens.now) }
{
    if let Some(op) = augmented_op(tokens) {
        return augmented(alloc, op, left, tokens);
    }
    if is_equal(tokens) {
        return assignment(alloc, left, skip(tokens));
    }
    let line = left.line;
    Ok((stmt(alloc, line, StmtForm::Expr(left))?, tokens))
}

/// A statement that begins with an expression list.
#[tactic(auto, unfolding(rp_grammar::specs::StatementReading::expression_statement))]
fn expression_statement(alloc: Global, tokens: &[Token]) -> Read<'_, Stmt>
    ensures { Gives (λ x. (stmt_views.view_stmt x.0, x.1.now)) result
        (stmt_reading.expression_statement deep tokens.now) }
{
    let (left, rest) = expr_list(alloc, tokens, DEPTH)?;
    behind_exprs(alloc, left, rest)
}

/// A simple statement.
#[tactic(auto, unfolding(rp_grammar::specs::StatementReading::simple), using(rp_tree::proofs::StatementEquations::variants))]
pub fn simple<'a>(alloc: Global, tokens: &'a [Token], context: Context<'_>) -> Read<'a, Stmt>
    ensures { Gives (λ x. (stmt_views.view_stmt x.0, x.1.now)) result
        (stmt_reading.simple deep (context_of context.entry) tokens.now) }
{
    match tokens {
        [] => expression_statement(alloc, tokens),
        [token, rest @ ..] => match token.kind {
            TokenKind::Pass => Ok((stmt(alloc, token.line, StmtForm::Pass)?, rest)),
            TokenKind::Break => loop_statement(alloc, token.line, StmtForm::Break, rest, context),
            TokenKind::Continue => {
                loop_statement(alloc, token.line, StmtForm::Continue, rest, context)
            }
            TokenKind::Return => return_statement(alloc, token.line, rest, context),
            TokenKind::Raise => raise_statement(alloc, token.line, rest, context),
            TokenKind::Assert => assert_statement(alloc, token.line, rest),
            TokenKind::Global => global_statement(alloc, token.line, rest, context),
            TokenKind::Del => del_statement(alloc, token.line, rest),
            _ => expression_statement(alloc, tokens),
        },
    }
}

/// `break` or `continue`, which stand in a loop.
fn loop_statement<'a>(
    alloc: Global,
    line: Line,
    form: StmtForm,
    rest: &'a [Token],
    context: Context<'_>,
) -> Read<'a, Stmt>
    ensures { Gives (λ x. (stmt_views.view_stmt x.0, x.1.now)) result
        (allowed context.entry.in_loop line (stmt_views.view_stmt_form form) rest.now) }
{
    if !context.in_loop {
        return Err(Fault::Syntax);
    }
    Ok((stmt(alloc, line, form)?, rest))
}
