//! Whole scripts, whose tokens are given back while they are read.

ghost use Rattle.std.specs.Prelude.{◌≡◌, ◌≤◌, ◌<◌, ◌&&◌, [], Ok, IfErr, IfOk, OnOk, drop, false, length};
ghost use Rattle.std.specs.Prelude.{not, option_map, true};
ghost use Rattle.rp_tree.specs.Statements.{Stmts};
ghost use Rattle.rp_tree.specs.StatementViews as stmt_views;
ghost use Rattle.rp_grammar.specs.Kinds.{Tokens, first};
ghost use Rattle.rp_grammar.specs.Statements as stmt_grammar;
ghost use Rattle.rp_grammar.specs.StatementReading as stmt_reading;
ghost use Rattle.rp_grammar.specs.StatementReading.{block_at};
ghost use Rattle.rp_parse.specs.Gives.{Fails, Gives, ahead, deep, told};
ghost use Rattle.rp_parse.specs.Visits.{Hands, TakesWhole, no_stmts};
ghost use Rattle.rp_parse.specs.ScriptSteps as steps;
ghost use Rattle.rp_parse.specs.ScriptSteps.{IsToldOf, Passes, from_here, line_told, place_line, turn, turned};

use crate::blocks::statement;
use crate::context::Setting;
use crate::fault::{ParseFault, Stop};
use crate::lines::{Found, item};
use crate::look::ends;
use crate::unread::Unread;
use crate::visitor::Visitor;
use rp_base::Line;
use rp_expr::look::{kind_at, line_at};
use rp_token::{Token, TokenKind};
use rp_tree::Stmt;
use std::alloc::Global;

/// Whether a compound statement begins.
fn is_compound(tokens: &[Token]) -> bool
    ensures { result ≡ steps.is_compound (first tokens.now) }
{
    matches!(
        kind_at(tokens),
        Some(
            TokenKind::Def
                | TokenKind::If
                | TokenKind::While
                | TokenKind::For
                | TokenKind::Try
                | TokenKind::Class
        )
    )
}

/// Whether a further statement comes: on a line that has begun, and else up to the end of the script.
fn comes(tokens: &[Token], on_line: bool) -> bool
    ensures { result ≡ steps.comes on_line tokens.now }
{
    on_line || !ends(tokens)
}

/// Whether a compound statement begins where no line has begun.
fn begins_compound(tokens: &[Token], on_line: bool) -> bool
    ensures { result ≡ (not on_line && steps.is_compound (first tokens.now)) }
{
    !on_line && is_compound(tokens)
}

/// A statement of a script, or the statements of a line, which are put behind those found before.
fn top_statement<'a>(
    alloc: Global,
    found: &mut Vec<Stmt>,
    tokens: &'a [Token],
) -> Result<&'a [Token], Stop<'a>>
    ensures { Gives (λ x. (stmt_views.view_stmts found.new.items, x.now)) result
        (ahead (stmt_grammar.joined (stmt_views.view_stmts found.old.items))
        (stmt_reading.statement_at deep 199 stmt_grammar.top false (block_at deep 199) tokens.now)) }
{
    statement(alloc, found, tokens, Setting::top())
}

/// One of the statements of a line of a script, and whether another follows on it.
fn top_item(alloc: Global, tokens: &[Token]) -> Found<'_, (Stmt, bool)>
    ensures { Gives (λ x. ((stmt_views.view_stmt x.0.0, x.0.1), x.1.now)) result
        (stmt_reading.item_at deep 199 stmt_grammar.top false tokens.now) }
{
    item(alloc, tokens, Setting::top())
}

/// A compound statement, which is put behind those found before. No other follows on its line.
fn compound_turn<'a>(alloc: Global, found: &mut Vec<Stmt>, tokens: &'a [Token]) -> Found<'a, bool>
    ensures { Gives (λ x. ((stmt_views.view_stmts found.new.items, x.0), x.1.now)) result
        (turned (stmt_views.view_stmts found.old.items) (steps.compound_turn 199 tokens.now)) }
{
    match top_statement(alloc, found, tokens) {
        Ok(rest) => Ok((false, rest)),
        Err(stop) => Err(stop),
    }
}

/// One of the statements of a line, which is put behind those found before, and whether another follows on it.
fn line_turn<'a>(alloc: Global, found: &mut Vec<Stmt>, tokens: &'a [Token]) -> Found<'a, bool>
    ensures { Gives (λ x. ((stmt_views.view_stmts found.new.items, x.0), x.1.now)) result
        (turned (stmt_views.view_stmts found.old.items) (steps.line_turn 199 tokens.now)) }
{
    let ((stmt, goes_on), rest) = match top_item(alloc, tokens) {
        Ok(read) => read,
        Err(stop) => return Err(stop),
    };
    found.push(stmt)?;
    Ok((goes_on, rest))
}

/// A compound statement, or one of the statements of a line, put behind those found before, and whether another
/// follows on its line.
fn turn<'a>(
    alloc: Global,
    found: &mut Vec<Stmt>,
    tokens: &'a [Token],
    on_line: bool,
) -> Found<'a, bool>
    ensures { Gives (λ x. ((stmt_views.view_stmts found.new.items, x.0), x.1.now)) result
        (turned (stmt_views.view_stmts found.old.items) (turn 199 on_line tokens.now)) }
{
    if begins_compound(tokens, on_line) {
        return compound_turn(alloc, found, tokens);
    }
    line_turn(alloc, found, tokens)
}

/// The fault that a reader tells.
fn fault_of(stop: Stop<'_>) -> ParseFault
    ensures { line_told result ≡ option_map place_line (told stop.entry) }
{
    match stop {
        Stop::Syntax(None) => ParseFault::Syntax(Line(0)),
        Stop::Syntax(Some(place)) => ParseFault::Syntax(line_at(place)),
        Stop::Memory => ParseFault::Memory,
    }
}

/// A turn, and of how many tokens it was.
fn counted_turn(
    alloc: Global,
    found: &mut Vec<Stmt>,
    tokens: &[Token],
    on_line: bool,
) -> Result<(bool, usize), ParseFault>
    requires { steps.comes on_line tokens.now ≡ true }
    ensures passes { IfOk result (λ x. Passes (stmt_views.view_stmts found.old.items) on_line tokens.now
        (stmt_views.view_stmts found.new.items) x.0 (drop x.1 tokens.now)) }
    ensures some { IfOk result (λ x. 0 < x.1) }
    ensures within { IfOk result (λ x. x.1 ≤ length tokens.now) }
    ensures refused { IfErr result (λ e. IsToldOf e
        (ahead (stmt_grammar.joined (stmt_views.view_stmts found.old.items)) (from_here 199 on_line tokens.now))) }
{
    match turn(alloc, found, tokens, on_line) {
        Ok((more, rest)) => Ok((more, tokens.len().saturating_sub(rest.len()))),
        Err(stop) => Err(fault_of(stop.at(tokens))),
    }
}

/// A turn, whose statements are handed on and whose tokens are passed. They go by a vector that is empty before and
/// behind.
fn part<V: Visitor>(
    alloc: Global,
    visitor: &mut V,
    found: &mut Vec<Stmt>,
    left: &mut Unread,
    on_line: bool,
) -> Result<bool, ParseFault>
    requires comes { steps.comes on_line left.old ≡ true }
    requires none { found.old.items ≡ [] }
    ensures passes { IfOk result (λ more. Hands V.takes visitor.old on_line left.old visitor.new more left.new) }
    ensures none_left { OnOk result (found.new.items ≡ []) }
    ensures fewer { OnOk result (length left.new < length left.old) }
    ensures refused { IfErr result (λ e. IsToldOf e (from_here 199 on_line left.old)) }
{
    let (more, count) = counted_turn(alloc, found, left.tokens(), on_line)?;
    visitor.visit(found)?;
    left.pass(count);
    Ok(more)
}

/// The end of a script, whose last token is END.
fn ended(tokens: &[Token]) -> Result<(), Stop<'_>>
    ensures { (found : Stmts) → Gives (λ _. (found, tokens.now)) result
        (stmt_reading.ended (first tokens.now) found tokens.now) }
{
    match tokens {
        [
            Token {
                kind: TokenKind::End,
                ..
            },
        ] => Ok(()),
        _ => Err(Stop::Syntax(Some(tokens))),
    }
}

/// Whether the script ends here.
fn finish(tokens: &[Token]) -> Result<(), ParseFault>
    ensures read { (found : Stmts) → OnOk result ((rest : Tokens)
        × (stmt_reading.ended (first tokens.now) found tokens.now ≡ Ok (found, rest))) }
    ensures refused { (found : Stmts) → IfErr result (λ e. IsToldOf e
        (stmt_reading.ended (first tokens.now) found tokens.now)) }
{
    match ended(tokens) {
        Ok(()) => Ok(()),
        Err(stop) => Err(fault_of(stop)),
    }
}

/// A whole script, whose last token is END, handed on to a visitor. Its tokens are given back while they are read.
pub fn program<V: Visitor>(
    alloc: Global,
    tokens: Vec<Token>,
    visitor: &mut V,
) -> Result<(), ParseFault>
    requires { V.takes visitor.old no_stmts visitor.old }
    ensures read { OnOk result (TakesWhole V.takes visitor.old tokens.items visitor.new) }
    ensures refused { IfErr result (λ e. IsToldOf e (stmt_reading.program_at deep 199 tokens.items)) }
{
    let mut found = Vec::new(alloc);
    let mut left = Unread::new(tokens);
    let mut on_line = false;
    'parts: while comes(left.tokens(), on_line) {
        on_line = match part(alloc, visitor, &mut found, &mut left, on_line) {
            Ok(more) => more,
            Err(fault) => return Err(fault),
        };
    }
    finish(left.tokens())
}
