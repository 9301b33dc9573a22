//! What stands at the front of some tokens.

ghost use Rattle.std.specs.Prelude.{◌≡◌, ◌==◌, suc, None, Some, if◌then◌else◌};
ghost use Rattle.std.specs.Option.{option_map_or};
ghost use Rattle.rp_token.specs.declared.token.TokenKind.TheVariants as kind;
ghost use Rattle.rp_grammar.specs.Kinds.{first, line_at, skip, binary_of, augmented_of, looseness, unary_of, order_of};
ghost use Rattle.rp_grammar.specs.Front as token_tests;
ghost use Rattle.rp_grammar.specs.ExpressionReading.{after, is_some, operator_of, at_test};
ghost use Rattle.rp_expr.specs.Gives.{Gives};

use crate::fault::Fault;
use rp_base::{BinOp, CmpOp, Line, UnOp};
use rp_token::{Token, TokenKind};

/// The kind of the first token. Where there is none, each test answers as at the end of the text.
pub fn kind_at(tokens: &[Token]) -> Option<&TokenKind>
    ensures { option_map_or (λ k. k.now) result kind.End ≡ first tokens.now }
{
    match tokens {
        [] => None,
        [token, ..] => Some(&token.kind),
    }
}

/// The line of the first token, 0 where there is none.
pub fn line_at(tokens: &[Token]) -> Line
    ensures { result ≡ line_at tokens.now }
{
    match tokens {
        [] => Line(0),
        [token, ..] => token.line,
    }
}

/// The tokens behind the first.
pub fn skip(tokens: &[Token]) -> &[Token]
    ensures { result.now ≡ skip tokens.now }
{
    match tokens {
        [] => tokens,
        [_, rest @ ..] => rest,
    }
}

/// Whether a comma comes.
pub fn is_comma(tokens: &[Token]) -> bool
    ensures { result ≡ token_tests.is_comma (first tokens.now) }
{
    matches!(kind_at(tokens), Some(TokenKind::Comma))
}

/// Whether a colon comes.
pub fn is_colon(tokens: &[Token]) -> bool
    ensures { result ≡ token_tests.is_colon (first tokens.now) }
{
    matches!(kind_at(tokens), Some(TokenKind::Colon))
}

/// Whether `=` comes.
pub fn is_equal(tokens: &[Token]) -> bool
    ensures { result ≡ token_tests.is_equal (first tokens.now) }
{
    matches!(kind_at(tokens), Some(TokenKind::Equal))
}

/// Whether `*` comes.
pub fn is_star(tokens: &[Token]) -> bool
    ensures { result ≡ token_tests.is_star (first tokens.now) }
{
    matches!(kind_at(tokens), Some(TokenKind::Star))
}

/// Whether `**` comes.
pub fn is_double_star(tokens: &[Token]) -> bool
    ensures { result ≡ token_tests.is_double_star (first tokens.now) }
{
    matches!(kind_at(tokens), Some(TokenKind::DoubleStar))
}

/// Whether `)` comes.
pub fn is_right_paren(tokens: &[Token]) -> bool
    ensures { result ≡ token_tests.is_right_paren (first tokens.now) }
{
    matches!(kind_at(tokens), Some(TokenKind::RightParen))
}

/// Whether `]` comes.
pub fn is_right_bracket(tokens: &[Token]) -> bool
    ensures { result ≡ token_tests.is_right_bracket (first tokens.now) }
{
    matches!(kind_at(tokens), Some(TokenKind::RightBracket))
}

/// Whether `}` comes.
pub fn is_right_brace(tokens: &[Token]) -> bool
    ensures { result ≡ token_tests.is_right_brace (first tokens.now) }
{
    matches!(kind_at(tokens), Some(TokenKind::RightBrace))
}

/// Whether `lambda` comes.
pub fn is_lambda(tokens: &[Token]) -> bool
    ensures { result ≡ token_tests.is_lambda (first tokens.now) }
{
    matches!(kind_at(tokens), Some(TokenKind::Lambda))
}

/// Whether `if` comes.
pub fn is_if(tokens: &[Token]) -> bool
    ensures { result ≡ token_tests.is_if (first tokens.now) }
{
    matches!(kind_at(tokens), Some(TokenKind::If))
}

/// Whether `else` comes.
pub fn is_else(tokens: &[Token]) -> bool
    ensures { result ≡ token_tests.is_else (first tokens.now) }
{
    matches!(kind_at(tokens), Some(TokenKind::Else))
}

/// Whether `or` comes.
pub fn is_or(tokens: &[Token]) -> bool
    ensures { result ≡ token_tests.is_or (first tokens.now) }
{
    matches!(kind_at(tokens), Some(TokenKind::Or))
}

/// Whether `and` comes.
pub fn is_and(tokens: &[Token]) -> bool
    ensures { result ≡ token_tests.is_and (first tokens.now) }
{
    matches!(kind_at(tokens), Some(TokenKind::And))
}

/// Whether `not` comes.
pub fn is_not(tokens: &[Token]) -> bool
    ensures { result ≡ token_tests.is_not (first tokens.now) }
{
    matches!(kind_at(tokens), Some(TokenKind::Not))
}

/// Whether `in` comes.
pub fn is_in(tokens: &[Token]) -> bool
    ensures { result ≡ token_tests.is_in (first tokens.now) }
{
    matches!(kind_at(tokens), Some(TokenKind::In))
}

/// Whether `for` comes.
pub fn is_for(tokens: &[Token]) -> bool
    ensures { result ≡ token_tests.is_for (first tokens.now) }
{
    matches!(kind_at(tokens), Some(TokenKind::For))
}

/// Whether a name comes.
pub fn is_name(tokens: &[Token]) -> bool
    ensures { result ≡ token_tests.is_name (first tokens.now) }
{
    matches!(kind_at(tokens), Some(TokenKind::Name(_)))
}

/// Whether a text literal comes.
pub fn is_text(tokens: &[Token]) -> bool
    ensures { result ≡ token_tests.is_text (first tokens.now) }
{
    matches!(kind_at(tokens), Some(TokenKind::Text(_)))
}

/// The tokens behind the first, where it is the one that is wanted.
fn behind(is_wanted: bool, tokens: &[Token]) -> Result<&[Token], Fault>
    ensures { Gives (λ x. x.now) result (if is_wanted then Some (skip tokens.now) else None) }
{
    if !is_wanted {
        return Err(Fault::Syntax);
    }
    Ok(skip(tokens))
}

/// The tokens behind `)`, which has to come.
pub fn after_right_paren(tokens: &[Token]) -> Result<&[Token], Fault>
    ensures { Gives (λ x. x.now) result (after token_tests.is_right_paren tokens.now) }
{
    behind(is_right_paren(tokens), tokens)
}

/// The tokens behind `]`, which has to come.
pub fn after_right_bracket(tokens: &[Token]) -> Result<&[Token], Fault>
    ensures { Gives (λ x. x.now) result (after token_tests.is_right_bracket tokens.now) }
{
    behind(is_right_bracket(tokens), tokens)
}

/// The tokens behind `}`, which has to come.
pub fn after_right_brace(tokens: &[Token]) -> Result<&[Token], Fault>
    ensures { Gives (λ x. x.now) result (after token_tests.is_right_brace tokens.now) }
{
    behind(is_right_brace(tokens), tokens)
}

/// The tokens behind a colon, which has to come.
pub fn after_colon(tokens: &[Token]) -> Result<&[Token], Fault>
    ensures { Gives (λ x. x.now) result (after token_tests.is_colon tokens.now) }
{
    behind(is_colon(tokens), tokens)
}

/// The tokens behind `in`, which has to come.
pub fn after_in(tokens: &[Token]) -> Result<&[Token], Fault>
    ensures { Gives (λ x. x.now) result (after token_tests.is_in tokens.now) }
{
    behind(is_in(tokens), tokens)
}

/// The tokens behind `else`, which has to come.
pub fn after_else(tokens: &[Token]) -> Result<&[Token], Fault>
    ensures { Gives (λ x. x.now) result (after token_tests.is_else tokens.now) }
{
    behind(is_else(tokens), tokens)
}

/// Whether what comes can begin an expression.
pub fn starts(tokens: &[Token]) -> bool
    ensures { result ≡ token_tests.starts (first tokens.now) }
{
    match kind_at(tokens) {
        Some(kind) => kind_starts(kind),
        None => false,
    }
}

fn kind_starts(kind: &TokenKind) -> bool
    ensures { result ≡ token_tests.starts kind.now }
{
    match kind {
        TokenKind::Name(_) | TokenKind::Int(_) | TokenKind::Text(_) => true,
        TokenKind::None | TokenKind::True | TokenKind::False => true,
        TokenKind::LeftParen | TokenKind::LeftBracket | TokenKind::LeftBrace => true,
        TokenKind::Minus | TokenKind::Plus | TokenKind::Tilde => true,
        TokenKind::Not | TokenKind::Lambda => true,
        _ => false,
    }
}

/// Whether what comes can begin an argument.
pub fn starts_arg(tokens: &[Token]) -> bool
    ensures { result ≡ token_tests.starts_arg (first tokens.now) }
{
    match kind_at(tokens) {
        Some(TokenKind::Star | TokenKind::DoubleStar) => true,
        Some(kind) => kind_starts(kind),
        None => false,
    }
}

/// Whether what comes can begin a trailer.
pub fn starts_trailer(tokens: &[Token]) -> bool
    ensures { result ≡ token_tests.starts_trailer (first tokens.now) }
{
    matches!(
        kind_at(tokens),
        Some(TokenKind::Dot | TokenKind::LeftBracket | TokenKind::LeftParen)
    )
}

/// Whether what comes can begin an operator of comparison.
pub fn at_test(tokens: &[Token]) -> bool
    ensures { result ≡ at_test tokens.now }
{
    match kind_at(tokens) {
        Some(TokenKind::In | TokenKind::Is) => true,
        Some(TokenKind::Not) => is_in(skip(tokens)),
        Some(kind) => order(kind).is_some(),
        None => false,
    }
}

/// The operator of order or equality that a token is.
pub fn order(kind: &TokenKind) -> Option<CmpOp>
    ensures { result ≡ order_of kind.now }
{
    match kind {
        TokenKind::Less => Some(CmpOp::Lt),
        TokenKind::LessEqual => Some(CmpOp::Le),
        TokenKind::Greater => Some(CmpOp::Gt),
        TokenKind::GreaterEqual => Some(CmpOp::Ge),
        TokenKind::EqualEqual => Some(CmpOp::Eq),
        TokenKind::NotEqual => Some(CmpOp::Ne),
        _ => None,
    }
}

/// The operator before an operand that comes.
pub fn unary(tokens: &[Token]) -> Option<UnOp>
    ensures { result ≡ unary_of (first tokens.now) }
{
    match kind_at(tokens)? {
        TokenKind::Minus => Some(UnOp::Neg),
        TokenKind::Plus => Some(UnOp::Pos),
        TokenKind::Tilde => Some(UnOp::Invert),
        _ => None,
    }
}

fn binary(tokens: &[Token]) -> Option<BinOp>
    ensures { result ≡ binary_of (first tokens.now) }
{
    match kind_at(tokens)? {
        TokenKind::Star => Some(BinOp::Mul),
        TokenKind::DoubleSlash => Some(BinOp::FloorDiv),
        TokenKind::Percent => Some(BinOp::Mod),
        TokenKind::Plus => Some(BinOp::Add),
        TokenKind::Minus => Some(BinOp::Sub),
        TokenKind::LeftShift => Some(BinOp::LShift),
        TokenKind::RightShift => Some(BinOp::RShift),
        TokenKind::Amper => Some(BinOp::BitAnd),
        TokenKind::Circumflex => Some(BinOp::BitXor),
        TokenKind::VBar => Some(BinOp::BitOr),
        _ => None,
    }
}

/// The operator of an augmented assignment that comes.
pub fn augmented(tokens: &[Token]) -> Option<BinOp>
    ensures { result ≡ augmented_of (first tokens.now) }
{
    match kind_at(tokens)? {
        TokenKind::PlusEqual => Some(BinOp::Add),
        TokenKind::MinusEqual => Some(BinOp::Sub),
        TokenKind::StarEqual => Some(BinOp::Mul),
        TokenKind::DoubleSlashEqual => Some(BinOp::FloorDiv),
        TokenKind::PercentEqual => Some(BinOp::Mod),
        TokenKind::DoubleStarEqual => Some(BinOp::Pow),
        TokenKind::AmperEqual => Some(BinOp::BitAnd),
        TokenKind::VBarEqual => Some(BinOp::BitOr),
        TokenKind::CircumflexEqual => Some(BinOp::BitXor),
        TokenKind::LeftShiftEqual => Some(BinOp::LShift),
        TokenKind::RightShiftEqual => Some(BinOp::RShift),
        _ => None,
    }
}

fn looseness(op: BinOp) -> usize
    ensures { result ≡ looseness op }
{
    match op {
        BinOp::Pow => 0,
        BinOp::Mul | BinOp::FloorDiv | BinOp::Mod => 1,
        BinOp::Add | BinOp::Sub => 2,
        BinOp::LShift | BinOp::RShift => 3,
        BinOp::BitAnd => 4,
        BinOp::BitXor => 5,
        BinOp::BitOr => 6,
    }
}

/// The binary operator that comes, where its looseness is the one above the level.
pub fn operator(level: usize, tokens: &[Token]) -> Option<BinOp>
    ensures { result ≡ operator_of (suc level) (first tokens.now) }
{
    match binary(tokens) {
        Some(op) if is_above(level, looseness(op)) => Some(op),
        _ => None,
    }
}

fn is_above(level: usize, looseness: usize) -> bool
    ensures { result ≡ (looseness == suc level) }
{
    looseness > level && looseness - level == 1
}

/// Whether a binary operator comes whose looseness is the one above the level.
pub fn is_operator(level: usize, tokens: &[Token]) -> bool
    ensures { result ≡ is_some (operator_of (suc level) (first tokens.now)) }
{
    operator(level, tokens).is_some()
}

/// Whether a binary operator comes.
pub fn is_binary(tokens: &[Token]) -> bool
    ensures { result ≡ is_some (binary_of (first tokens.now)) }
{
    binary(tokens).is_some()
}
