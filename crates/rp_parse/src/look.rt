//! Tests of the token at the front that readers of statements need.

ghost use Rattle.std.specs.Prelude.{◌≡◌};
ghost use Rattle.rp_grammar.specs.Kinds.{first};
ghost use Rattle.rp_parse.specs.Gives.{is_as};
ghost use Rattle.rp_grammar.specs.StatementReading as stmt_reading;

use rp_expr::look::kind_at;
use rp_token::{Token, TokenKind};

/// Whether a line ends.
pub fn is_newline(tokens: &[Token]) -> bool
    ensures { result ≡ stmt_reading.is_newline (first tokens.now) }
{
    matches!(kind_at(tokens), Some(TokenKind::Newline))
}

/// Whether `as` comes.
pub fn is_as(tokens: &[Token]) -> bool
    ensures { result ≡ is_as (first tokens.now) }
{
    matches!(kind_at(tokens), Some(TokenKind::As))
}

/// Whether `elif` comes.
pub fn is_elif(tokens: &[Token]) -> bool
    ensures { result ≡ stmt_reading.is_elif (first tokens.now) }
{
    matches!(kind_at(tokens), Some(TokenKind::Elif))
}

/// Whether `finally` comes.
pub fn is_finally(tokens: &[Token]) -> bool
    ensures { result ≡ stmt_reading.is_finally (first tokens.now) }
{
    matches!(kind_at(tokens), Some(TokenKind::Finally))
}

/// Whether `except` comes.
pub fn is_except(tokens: &[Token]) -> bool
    ensures { result ≡ stmt_reading.is_except (first tokens.now) }
{
    matches!(kind_at(tokens), Some(TokenKind::Except))
}

/// Whether `(` comes.
pub fn is_left_paren(tokens: &[Token]) -> bool
    ensures { result ≡ stmt_reading.is_left_paren (first tokens.now) }
{
    matches!(kind_at(tokens), Some(TokenKind::LeftParen))
}

/// Whether a block begins.
pub fn is_indent(tokens: &[Token]) -> bool
    ensures { result ≡ stmt_reading.is_indent (first tokens.now) }
{
    matches!(kind_at(tokens), Some(TokenKind::Indent))
}

/// Whether no further statement of a block comes.
pub fn ends(tokens: &[Token]) -> bool
    ensures { result ≡ stmt_reading.ends (first tokens.now) }
{
    match kind_at(tokens) {
        None => true,
        Some(kind) => matches!(kind, TokenKind::Dedent | TokenKind::End),
    }
}
