//! The spellings of keywords and marks.

ghost use Rattle.std.specs.Prelude.{◌≡◌, ℕ, ◌<◌, ◌≤◌, [], List, MatchOption, None, chars, drop, false, find, length};
ghost use Rattle.std.specs.Prelude.{nat_eq, slice_index_or, take, true};
ghost use Rattle.std.specs.List.{starts_with};
ghost use Rattle.rp_base.specs.Keyword.{is_keyword, keywords};
ghost use Rattle.rp_token.specs.Characters.{none_begins};
ghost use Rattle.rp_token.specs.Form.{keyword, mark, marks};
ghost use Rattle.rp_token.specs.View.{IsMark, form_view};

use crate::text::first;
use crate::token::TokenKind;

/// The keyword that a word is.
pub(crate) fn keyword(word: &str) -> Option<TokenKind>
    ensures { MatchOption result (is_keyword (chars word.now) ≡ false)
        (λ kind. (is_keyword (chars word.now) ≡ true)
        × ((names : List (List ℕ)) → form_view names kind ≡ keyword (chars word.now))) }
{
    let (begin, end) = keyword_places(first(word));
    for place in begin..end {
        let (spelled, kind) = keyword_at(place);
        if spelled == word {
            return Some(kind);
        }
    }
    None
}

/// The mark at the front of a text, the longest of those that it begins with, and what stands behind it.
pub(crate) fn mark(text: &str) -> Option<(TokenKind, &str)>
    ensures { let cs = chars text.now in
        MatchOption result (find (starts_with nat_eq cs) marks ≡ None)
        (λ r. IsMark (find (starts_with nat_eq cs) marks) cs r.0 r.1.now) }
{
    let (begin, end) = mark_places(first(text));
    for place in begin..end {
        let (spelled, kind) = mark_at(place);
        if let Some(rest) = text.strip_prefix(spelled) {
            return Some((kind, rest));
        }
    }
    None
}

/// Where the keywords that begin with the letter stand: the place of the first, and that behind the last.
fn keyword_places(letter: char) -> (usize, usize)
    ensures order { result.0 ≤ result.1 }
    ensures end { result.1 ≤ length keywords }
    ensures before { none_begins letter (take result.0 keywords) ≡ true }
    ensures behind { none_begins letter (drop result.1 keywords) ≡ true }
{
    match letter {
        'F' => (0, 1),
        'N' => (1, 2),
        'T' => (2, 3),
        'a' => (3, 8),
        'b' => (8, 9),
        'c' => (9, 11),
        'd' => (11, 13),
        'e' => (13, 16),
        'f' => (16, 19),
        'g' => (19, 20),
        'i' => (20, 24),
        'l' => (24, 25),
        'n' => (25, 27),
        'o' => (27, 28),
        'p' => (28, 29),
        'r' => (29, 31),
        't' => (31, 32),
        'w' => (32, 34),
        'y' => (34, 35),
        _ => (0, 0),
    }
}

/// A keyword by its place, in the order of their first letters: its spelling, and the token.
fn keyword_at(place: usize) -> (&'static str, TokenKind)
    requires { place < length keywords }
    ensures spelled { result.0.now ≡ slice_index_or keywords place [] }
    ensures kind { (names : List (List ℕ)) → form_view names result.1 ≡ keyword (slice_index_or keywords place []) }
{
    match place {
        0 => ("False", TokenKind::False),
        1 => ("None", TokenKind::None),
        2 => ("True", TokenKind::True),
        3 => ("and", TokenKind::And),
        4 => ("as", TokenKind::As),
        5 => ("assert", TokenKind::Assert),
        6 => ("async", TokenKind::Async),
        7 => ("await", TokenKind::Await),
        8 => ("break", TokenKind::Break),
        9 => ("class", TokenKind::Class),
        10 => ("continue", TokenKind::Continue),
        11 => ("def", TokenKind::Def),
        12 => ("del", TokenKind::Del),
        13 => ("elif", TokenKind::Elif),
        14 => ("else", TokenKind::Else),
        15 => ("except", TokenKind::Except),
        16 => ("finally", TokenKind::Finally),
        17 => ("for", TokenKind::For),
        18 => ("from", TokenKind::From),
        19 => ("global", TokenKind::Global),
        20 => ("if", TokenKind::If),
        21 => ("import", TokenKind::Import),
        22 => ("in", TokenKind::In),
        23 => ("is", TokenKind::Is),
        24 => ("lambda", TokenKind::Lambda),
        25 => ("nonlocal", TokenKind::Nonlocal),
        26 => ("not", TokenKind::Not),
        27 => ("or", TokenKind::Or),
        28 => ("pass", TokenKind::Pass),
        29 => ("raise", TokenKind::Raise),
        30 => ("return", TokenKind::Return),
        31 => ("try", TokenKind::Try),
        32 => ("while", TokenKind::While),
        33 => ("with", TokenKind::With),
        _ => ("yield", TokenKind::Yield),
    }
}

/// Where the marks that begin with the character stand: the place of the first, and that behind the last.
fn mark_places(letter: char) -> (usize, usize)
    ensures order { result.0 ≤ result.1 }
    ensures end { result.1 ≤ length marks }
    ensures before { none_begins letter (take result.0 marks) ≡ true }
    ensures behind { none_begins letter (drop result.1 marks) ≡ true }
{
    match letter {
        '*' => (0, 4),
        '/' => (4, 6),
        '<' => (6, 10),
        '>' => (10, 14),
        '=' => (14, 16),
        '!' => (16, 17),
        '+' => (17, 19),
        '-' => (19, 21),
        '%' => (21, 23),
        '&' => (23, 25),
        '|' => (25, 27),
        '^' => (27, 29),
        '~' => (29, 30),
        '(' => (30, 31),
        ')' => (31, 32),
        '[' => (32, 33),
        ']' => (33, 34),
        '{' => (34, 35),
        '}' => (35, 36),
        ',' => (36, 37),
        ':' => (37, 38),
        '.' => (38, 39),
        ';' => (39, 40),
        _ => (0, 0),
    }
}

/// A mark by its place, those with one first character together, longer ones first: its spelling, and the token.
fn mark_at(place: usize) -> (&'static str, TokenKind)
    requires { place < length marks }
    ensures spelled { result.0.now ≡ slice_index_or marks place [] }
    ensures kind { (names : List (List ℕ)) → form_view names result.1 ≡ mark (slice_index_or marks place []) }
{
    if place > 28 {
        return sole_mark_at(place);
    }
    match place {
        0 => ("**=", TokenKind::DoubleStarEqual),
        1 => ("**", TokenKind::DoubleStar),
        2 => ("*=", TokenKind::StarEqual),
        3 => ("*", TokenKind::Star),
        4 => ("//=", TokenKind::DoubleSlashEqual),
        5 => ("//", TokenKind::DoubleSlash),
        6 => ("<<=", TokenKind::LeftShiftEqual),
        7 => ("<<", TokenKind::LeftShift),
        8 => ("<=", TokenKind::LessEqual),
        9 => ("<", TokenKind::Less),
        10 => (">>=", TokenKind::RightShiftEqual),
        11 => (">>", TokenKind::RightShift),
        12 => (">=", TokenKind::GreaterEqual),
        13 => (">", TokenKind::Greater),
        14 => ("==", TokenKind::EqualEqual),
        15 => ("=", TokenKind::Equal),
        16 => ("!=", TokenKind::NotEqual),
        17 => ("+=", TokenKind::PlusEqual),
        18 => ("+", TokenKind::Plus),
        19 => ("-=", TokenKind::MinusEqual),
        20 => ("-", TokenKind::Minus),
        21 => ("%=", TokenKind::PercentEqual),
        22 => ("%", TokenKind::Percent),
        23 => ("&=", TokenKind::AmperEqual),
        24 => ("&", TokenKind::Amper),
        25 => ("|=", TokenKind::VBarEqual),
        26 => ("|", TokenKind::VBar),
        27 => ("^=", TokenKind::CircumflexEqual),
        _ => ("^", TokenKind::Circumflex),
    }
}

/// The same of the marks that share their first character with no other.
fn sole_mark_at(place: usize) -> (&'static str, TokenKind)
    requires behind { 28 < place }
    requires within { place < length marks }
    ensures spelled { result.0.now ≡ slice_index_or marks place [] }
    ensures kind { (names : List (List ℕ)) → form_view names result.1 ≡ mark (slice_index_or marks place []) }
{
    match place {
        29 => ("~", TokenKind::Tilde),
        30 => ("(", TokenKind::LeftParen),
        31 => (")", TokenKind::RightParen),
        32 => ("[", TokenKind::LeftBracket),
        33 => ("]", TokenKind::RightBracket),
        34 => ("{", TokenKind::LeftBrace),
        35 => ("}", TokenKind::RightBrace),
        36 => (",", TokenKind::Comma),
        37 => (":", TokenKind::Colon),
        38 => (".", TokenKind::Dot),
        _ => (";", TokenKind::Semicolon),
    }
}
