//! Statements and blocks (Python Language Reference, Compound statements).

ghost use Rattle.std.specs.Prelude.{◌≡◌, Ok, map, length};
ghost use Rattle.rp_tree.specs.Statements as stmt_tree;
ghost use Rattle.rp_tree.specs.StatementViews as stmt_views;
ghost use Rattle.rp_grammar.specs.Kinds.{first};
ghost use Rattle.rp_parse.specs.Gives.{Gives, ahead, block_of, context_of, deep};
ghost use Rattle.rp_grammar.specs.StatementReading as stmt_reading;
ghost use Rattle.rp_grammar.specs.StatementReading.{block_at};
ghost use Rattle.rp_grammar.specs.Statements as stmt_grammar;
ghost use Rattle.rp_tree.specs.Statements.{StmtForm as Form};

use crate::compound::{
    class_statement, def_statement, for_statement, if_statement, try_statement, while_statement,
};
use crate::context::Setting;
use crate::fault::Stop;
use crate::lines::{Found, line};
use crate::look::{ends, is_indent};
use crate::simple_statements::stmt;
use rp_base::Line;
use rp_expr::look::skip;
use rp_token::{Token, TokenKind};
use rp_tree::{Stmt, StmtForm};
use std::alloc::Global;

/// A compound statement is put behind those found before.
#[tactic(auto, using(crate::proofs::Turns::pushed))]
fn compound<'a>(
    alloc: Global,
    found: &mut Vec<Stmt>,
    line: Line,
    form: Found<'a, StmtForm>,
) -> Result<&'a [Token], Stop<'a>>
    ensures { (read : stmt_reading.Found Form) → Gives (λ x. (stmt_views.view_stmt_form x.0, x.1.now)) form.entry read
        → Gives (λ x. (stmt_views.view_stmts found.new.items, x.now)) result
        (ahead (stmt_grammar.joined (stmt_views.view_stmts found.old.items)) (stmt_reading.compound line read)) }
{
    let (form, rest) = form?;
    found.push(stmt(alloc, line, form)?)?;
    Ok(rest)
}

/// A statement, or the statements of a line, which are put behind those found before.
#[cycle(statements)]
#[tactic(auto, unfolding(rp_grammar::specs::StatementReading::statement_at))]
pub fn statement<'a>(
    alloc: Global,
    found: &mut Vec<Stmt>,
    tokens: &'a [Token],
    setting: Setting<'_>,
) -> Result<&'a [Token], Stop<'a>>
    ensures { Gives (λ x. (stmt_views.view_stmts found.new.items, x.now)) result
        (ahead (stmt_grammar.joined (stmt_views.view_stmts found.old.items))
        (stmt_reading.statement_at deep setting.entry.height (context_of setting.entry.context) setting.entry.members
        (block_at deep setting.entry.height) tokens.now)) }
{
    match tokens {
        [] => line(alloc, found, tokens, setting),
        [token, rest @ ..] => match token.kind {
            TokenKind::Def => {
                compound(
                    alloc,
                    found,
                    token.line,
                    def_statement(alloc, rest, setting),
                )
            }
            TokenKind::If => {
                let inner = setting.no_member(setting.context)?;
                compound(alloc, found, token.line, if_statement(alloc, rest, inner))
            }
            TokenKind::While => {
                let inner = setting.no_member(setting.context.with_loop())?;
                compound(
                    alloc,
                    found,
                    token.line,
                    while_statement(alloc, rest, inner),
                )
            }
            TokenKind::For => {
                let inner = setting.no_member(setting.context.with_loop())?;
                compound(alloc, found, token.line, for_statement(alloc, rest, inner))
            }
            TokenKind::Try => {
                let inner = setting.no_member(setting.context)?;
                compound(alloc, found, token.line, try_statement(alloc, rest, inner))
            }
            TokenKind::Class => {
                let inner = setting
                    .no_member(setting.context.with_class())?
                    .with_members();
                compound(
                    alloc,
                    found,
                    token.line,
                    class_statement(alloc, rest, inner),
                )
            }
            _ => line(alloc, found, tokens, setting),
        },
    }
}

/// The statements up to the end of a block, which are put behind those found before.
#[cycle(statements)]
fn statements<'a>(
    alloc: Global,
    found: &mut Vec<Stmt>,
    tokens: &'a [Token],
    setting: Setting<'_>,
) -> Result<&'a [Token], Stop<'a>>
    ensures { Gives (λ x. (stmt_views.view_stmts found.new.items, x.now)) result
        (ahead (stmt_grammar.joined (stmt_views.view_stmts found.old.items))
        (stmt_reading.statements deep setting.entry.height (context_of setting.entry.context) setting.entry.members
        (block_at deep setting.entry.height) tokens.now)) }
{
    let mut rest = tokens;
    let mut turns = tokens.len() + 1;
    'statements: while turns > 0 {
        if ends(rest) {
            return Ok(rest);
        }
        rest = match statement(alloc, found, rest, setting) {
            Ok(after) => after,
            Err(stop) => return Err(stop.at(rest)),
        };
        turns -= 1;
    }
    Err(Stop::Syntax(Some(rest)))
}

/// Behind the beginning of an indented block.
#[cycle(statements)]
#[tactic(auto, unfolding(rp_grammar::specs::StatementReading::indented))]
fn indented<'a>(alloc: Global, tokens: &'a [Token], setting: Setting<'_>) -> Found<'a, Vec<Stmt>>
    ensures { Gives (λ x. (stmt_views.view_stmts x.0.items, x.1.now)) result
        (stmt_reading.indented deep setting.entry.height (context_of setting.entry.context) setting.entry.members
        (block_at deep setting.entry.height) tokens.now) }
{
    let mut found = Vec::new(alloc);
    let rest = match statement(alloc, &mut found, tokens, setting) {
        Ok(rest) => rest,
        Err(stop) => return Err(stop.at(tokens)),
    };
    let rest = statements(alloc, &mut found, rest, setting)?;
    match rest {
        [
            Token {
                kind: TokenKind::Dedent,
                ..
            },
            after @ ..,
        ] => Ok((found, after)),
        _ => Err(Stop::Syntax(Some(rest))),
    }
}

/// A block, whose statements are read in this setting.
#[cycle(statements)]
fn block_inside<'a>(
    alloc: Global,
    tokens: &'a [Token],
    setting: Setting<'_>,
) -> Found<'a, Vec<Stmt>>
    ensures { Gives (λ x. (stmt_views.view_stmts x.0.items, x.1.now)) result
        (stmt_reading.block_by (first tokens.now) deep setting.entry.height
        (context_of setting.entry.context) setting.entry.members (block_at deep setting.entry.height) tokens.now) }
{
    match tokens {
        [
            Token {
                kind: TokenKind::Newline,
                ..
            },
            rest @ ..,
        ] => {
            if !is_indent(rest) {
                return Err(Stop::Syntax(None));
            }
            indented(alloc, skip(rest), setting)
        }
        _ => {
            let mut found = Vec::new(alloc);
            let rest = line(alloc, &mut found, tokens, setting)?;
            Ok((found, rest))
        }
    }
}

/// A block, behind its colon. Its own height is at most that of the setting.
#[cycle(statements)]
pub fn block<'a>(alloc: Global, tokens: &'a [Token], setting: Setting<'_>) -> Found<'a, Vec<Stmt>>
    ensures { Gives (λ x. (stmt_views.view_stmts x.0.items, x.1.now)) result (block_of setting.entry tokens.now) }
{
    if setting.height == 0 {
        return Err(Stop::Syntax(None));
    }
    match block_inside(alloc, tokens, setting.below()) {
        Ok(found) => Ok(found),
        Err(stop) => Err(stop.at(tokens)),
    }
}
