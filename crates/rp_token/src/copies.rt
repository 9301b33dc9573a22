//! Copies of tokens.

ghost use Rattle.std.specs.Prelude.{◌≡◌, IfOk};

use crate::token::{Token, TokenKind};
use rp_base::Memory;

macro_rules! kind_like {
    ($kind:expr; $($plain:ident)*) => {
        match $kind {
            TokenKind::Name(name) => Ok(TokenKind::Name(*name)),
            TokenKind::Int(number) => Ok(TokenKind::Int(*number)),
            TokenKind::Text(text) => Ok(TokenKind::Text(text.copy()?)),
            $(TokenKind::$plain => Ok(TokenKind::$plain),)*
        }
    };
}

impl Token {
    /// An equal token, which shares the text that it has.
    ///
    /// # Errors
    /// `Memory` where a growth was refused.
    pub fn copy(&self) -> Result<Token, Memory>
        ensures { IfOk result (λ t. t ≡ self.now) }
    {
        Ok(Token {
            kind: copy_kind(&self.kind)?,
            from: self.from,
            to: self.to,
            line: self.line,
        })
    }
}

fn copy_kind(kind: &TokenKind) -> Result<TokenKind, Memory>
    ensures { IfOk result (λ k. k ≡ kind.now) }
{
    kind_like!(kind;
        Newline Indent Dedent End
        False None True And As Assert Async Await Break Class Continue Def Del Elif Else Except Finally For From Global
        If Import In Is Lambda Nonlocal Not Or Pass Raise Return Try While With Yield
        Plus Minus Star DoubleStar DoubleSlash Percent Amper VBar Circumflex Tilde Less Greater Equal
        LeftParen RightParen LeftBracket RightBracket LeftBrace RightBrace Comma Colon Dot Semicolon
        LeftShift RightShift LessEqual GreaterEqual EqualEqual NotEqual PlusEqual MinusEqual StarEqual DoubleSlashEqual
        PercentEqual DoubleStarEqual AmperEqual VBarEqual CircumflexEqual LeftShiftEqual RightShiftEqual)
}
