//! What kind a token is of.

ghost use Rattle.std.specs.Prelude.{◌≡◌};
ghost use Rattle.rp_token.specs.Laws.{closes, opens};
ghost use Rattle.rp_more.specs.KindSteps as kinds;

use rp_token::TokenKind;

pub(crate) fn is_opening(kind: &TokenKind) -> bool
    ensures { result ≡ opens kind.now }
{
    matches!(
        kind,
        TokenKind::LeftParen | TokenKind::LeftBracket | TokenKind::LeftBrace
    )
}

pub(crate) fn is_closing(kind: &TokenKind) -> bool
    ensures { result ≡ closes kind.now }
{
    matches!(
        kind,
        TokenKind::RightParen | TokenKind::RightBracket | TokenKind::RightBrace
    )
}

pub(crate) fn is_left_brace(kind: &TokenKind) -> bool
    ensures { result ≡ kinds.is_left_brace kind.now }
{
    matches!(kind, TokenKind::LeftBrace)
}

pub(crate) fn is_right_brace(kind: &TokenKind) -> bool
    ensures { result ≡ kinds.is_right_brace kind.now }
{
    matches!(kind, TokenKind::RightBrace)
}

pub(crate) fn is_comma(kind: &TokenKind) -> bool
    ensures { result ≡ kinds.is_comma kind.now }
{
    matches!(kind, TokenKind::Comma)
}

pub(crate) fn is_colon(kind: &TokenKind) -> bool
    ensures { result ≡ kinds.is_colon kind.now }
{
    matches!(kind, TokenKind::Colon)
}

pub(crate) fn is_in(kind: &TokenKind) -> bool
    ensures { result ≡ kinds.is_in kind.now }
{
    matches!(kind, TokenKind::In)
}

pub(crate) fn is_for(kind: &TokenKind) -> bool
    ensures { result ≡ kinds.is_for kind.now }
{
    matches!(kind, TokenKind::For)
}

/// The end of a line or of the text.
pub(crate) fn is_outer(kind: &TokenKind) -> bool
    ensures { result ≡ kinds.is_outer kind.now }
{
    matches!(kind, TokenKind::Newline | TokenKind::End)
}

/// Whether an operand may end with the token. No token is a number below 0.
pub(crate) fn ends_operand(kind: &TokenKind) -> bool
    ensures { result ≡ kinds.ends_operand kind.now }
{
    match kind {
        TokenKind::Name(_) => true,
        TokenKind::Int(number) => *number >= 0,
        TokenKind::Text(_) => true,
        TokenKind::None => true,
        TokenKind::True => true,
        TokenKind::False => true,
        TokenKind::RightParen => true,
        TokenKind::RightBracket => true,
        TokenKind::RightBrace => true,
        _ => false,
    }
}

/// Whether the token may follow a set.
pub(crate) fn may_follow(kind: &TokenKind) -> bool
    ensures { result ≡ kinds.may_follow kind.now }
{
    matches!(
        kind,
        TokenKind::Newline
            | TokenKind::RightParen
            | TokenKind::RightBracket
            | TokenKind::RightBrace
            | TokenKind::Colon
            | TokenKind::Semicolon
            | TokenKind::If
            | TokenKind::Else
            | TokenKind::And
            | TokenKind::Or
            | TokenKind::For
    )
}
