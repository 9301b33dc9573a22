//! Tokens.

use rp_base::{Line, Name, Text};

/// What a token is: a name, a number, a text literal, what shows the lines and blocks, a keyword, or a
/// mark, named as in the module `token` of Python's library.
#[derive(Drop)]
pub enum TokenKind {
    /// A name, by its place among the names.
    Name(Name),
    /// An integer, from 0.
    Int(i64),
    /// A text literal, by the characters that it stands for.
    Text(Text),
    /// A logical line ends.
    Newline,
    /// A block begins.
    Indent,
    /// A block ends.
    Dedent,
    /// The text ends.
    End,
    False,
    None,
    True,
    And,
    As,
    Assert,
    Async,
    Await,
    Break,
    Class,
    Continue,
    Def,
    Del,
    Elif,
    Else,
    Except,
    Finally,
    For,
    From,
    Global,
    If,
    Import,
    In,
    Is,
    Lambda,
    Nonlocal,
    Not,
    Or,
    Pass,
    Raise,
    Return,
    Try,
    While,
    With,
    Yield,
    Plus,
    Minus,
    Star,
    DoubleStar,
    DoubleSlash,
    Percent,
    Amper,
    VBar,
    Circumflex,
    Tilde,
    Less,
    Greater,
    Equal,
    LeftParen,
    RightParen,
    LeftBracket,
    RightBracket,
    LeftBrace,
    RightBrace,
    Comma,
    Colon,
    Dot,
    Semicolon,
    LeftShift,
    RightShift,
    LessEqual,
    GreaterEqual,
    EqualEqual,
    NotEqual,
    PlusEqual,
    MinusEqual,
    StarEqual,
    DoubleSlashEqual,
    PercentEqual,
    DoubleStarEqual,
    AmperEqual,
    VBarEqual,
    CircumflexEqual,
    LeftShiftEqual,
    RightShiftEqual,
}

/// A token, with the byte places in the text where it begins and where it ends, and its line.
#[derive(Drop)]
pub struct Token {
    pub kind: TokenKind,
    pub from: usize,
    pub to: usize,
    pub line: Line,
}
