//! f-literals: each is written as the call `''.join([P, ...])` of its pieces.

ghost use Rattle.std.specs.Prelude.{◌≡◌, ◌<◌, ◌≤◌, ◌++◌, OnOk, ◌∷◌, [], ◌==◌, ◌&&◌, ◌-◌, ℕ, List, IfOk, Ok, chars};
ghost use Rattle.std.specs.Prelude.{codes, length, map, false, if◌then◌else◌};
ghost use Rattle.std.specs.List.{All, list_any};
ghost use Rattle.std.specs.Option.{option_map};
ghost use Rattle.std.specs.VecDeque.{deque_capacity, deque_len};
ghost use Rattle.rp_token.specs.Form.{mark};
ghost use Rattle.rp_token.specs.View.{IsHeld, form_view, item_view};
ghost use Rattle.rp_base.specs.Names.{GrowsTo, word_of};
ghost use Rattle.rp_more.specs.Forms.{is_literal, placed, same, text_of};
ghost use Rattle.rp_more.specs.Literals.{begins, elements, has_text_at, is_prefix, literal_items, literals};
ghost use Rattle.rp_more.specs.Literals.{piece_forms, with_front};
ghost use Rattle.rp_more.specs.Pieces.{Piece as TextPiece, pieces_of};
ghost use Rattle.rp_more.specs.PieceSteps.{piece_seen};
ghost use Rattle.rp_more.specs.View.{Gives};
ghost use Rattle.rp_more.specs.LiteralSteps.{Leads, comma_before, in_place, items_of, join_front, left, place_item};
ghost use Rattle.rp_more.specs.NameSteps.{Follow};

use crate::call_words::CallWords;
use crate::empty_text::EmptyText;
use crate::expression::add_expression;
use crate::fault::MoreFault;
use crate::kinds::ends_operand;
use crate::pieces::{Piece, read_pieces};
use crate::place::Place;
use rp_base::{Memory, Name, Names};
use rp_token::{Token, TokenKind};
use std::alloc::Global;
use std::collections::VecDeque;

/// The tokens so far, and what was before the next one.
#[derive(Drop)]
struct Literals {
    alloc: Global,
    /// The text before `.join`, one for all.
    empty_text: EmptyText,
    /// The names in the calls so far.
    words: CallWords,
    written: Vec<Token>,
    /// The token before may end an operand.
    operand: bool,
    /// The token before is the name of an f-literal, whose text comes.
    inside: bool,
}

impl Literals {
    /// Before the first of so many tokens.
    fn new(alloc: Global, count: usize) -> Result<Literals, Memory>
        ensures starts { (names : List (List ℕ)) (ts : List Token) → IfOk result (λ l. left names l ts
            ≡ literals false false (items_of names ts)) }
        ensures empty { IfOk result (λ l. l.written.items ≡ []) }
    {
        Ok(Literals {
            alloc,
            empty_text: EmptyText::new(alloc)?,
            words: CallWords::new(),
            written: Vec::with_capacity(alloc, count)?,
            operand: false,
            inside: false,
        })
    }

    /// One token more, by what stands behind it.
    fn take(
        &mut self,
        token: Token,
        behind: &VecDeque<Token>,
        names: &mut Names,
    ) -> Result<(), MoreFault>
        requires { IsHeld names.old token }
        ensures leads { (more : List (List ℕ)) → Leads (left (names.new ++ more) self.old (token ∷ behind.now.items))
            (left (names.new ++ more) self.new behind.now.items) result }
        ensures grown { GrowsTo names.old names.new }
        ensures follows { OnOk result (Follow names.old names.new self.old.written.items self.new.written.items) }
    {
        if self.inside {
            add_literal(
                self.alloc,
                &self.empty_text,
                &mut self.written,
                &token,
                &mut self.words,
                names,
            )?;
            self.operand = true;
            self.inside = false;
            return Ok(());
        }
        if self.begins(&token, behind, names) {
            self.operand = true;
            self.inside = true;
            return Ok(());
        }
        self.operand = ends_operand(&token.kind);
        self.keep(token)?;
        Ok(())
    }

    /// Whether an f-literal begins with the token.
    fn begins(&self, token: &Token, behind: &VecDeque<Token>, names: &Names) -> bool
        requires { IsHeld names.now token.now }
        ensures { (more : List (List ℕ)) → result ≡ begins self.now.operand (item_view (names.now ++ more) token.now)
            (items_of (names.now ++ more) behind.now.items) }
    {
        !self.operand && (is_prefix(token, names) && has_text_at(token.to, behind))
    }

    fn keep(&mut self, token: Token) -> Result<(), Memory>
        ensures items { OnOk result (self.new.written.items ≡ self.old.written.items ++ token ∷ []) }
        ensures operand { self.new.operand ≡ self.old.operand }
        ensures inside { self.new.inside ≡ self.old.inside }
    {
        self.written.push(token)?;
        Ok(())
    }
}

/// The tokens with each f-literal as its call. Where no name is `f` they are handed on.
///
/// # Errors
/// `Format` with the line of the first f-literal whose text is wrong, or `Memory`.
pub(crate) fn written_out(
    alloc: Global,
    tokens: Vec<Token>,
    names: &mut Names,
) -> Result<Vec<Token>, MoreFault>
    requires { All (IsHeld names.old) tokens.items }
    ensures literals { (more : List (List ℕ)) → Gives (names.new ++ more) (literals false false
        (items_of (names.new ++ more) tokens.items)) result }
    ensures grown { GrowsTo names.old names.new }
    ensures follows { IfOk result (λ found. Follow names.old names.new [] found.items) }
{
    if !has_prefix(tokens.as_slice(), names) {
        return Ok(tokens);
    }
    each_written_out(alloc, tokens, names)
}

/// The tokens, one by one, with each f-literal as its call. The text of one goes as soon as it is written out, and the
/// room of the tokens goes back while they become fewer.
fn each_written_out(
    alloc: Global,
    tokens: Vec<Token>,
    names: &mut Names,
) -> Result<Vec<Token>, MoreFault>
    requires { All (IsHeld names.old) tokens.items }
    ensures literals { (more : List (List ℕ)) → Gives (names.new ++ more) (literals false false
        (items_of (names.new ++ more) tokens.items)) result }
    ensures grown { GrowsTo names.old names.new }
    ensures follows { IfOk result (λ found. Follow names.old names.new [] found.items) }
{
    let mut literals = Literals::new(alloc, tokens.len())?;
    let mut rest = VecDeque::from_vec(tokens);
    'tokens: while let Some(token) = rest.pop_front() {
        literals.take(token, &rest, names)?;
        give_back(&mut rest);
    }
    Ok(literals.written)
}

/// Gives back the room of tokens that are gone, where fewer are left than half of those that there is room for. That
/// is asked at every 4,096th token only, counted from the end: where the smaller room is refused it is not tried again
/// at each token.
fn give_back(tokens: &mut VecDeque<Token>)
    ensures items { tokens.new.items ≡ tokens.old.items }
    ensures len { deque_len tokens.new ≡ deque_len tokens.old }
    ensures room { deque_capacity tokens.new ≤ deque_capacity tokens.old }
{
    let left = tokens.len();
    if left % 4_096 == 0 && left < tokens.capacity() / 2 {
        tokens.shrink_to_fit();
    }
}

/// Whether one of the tokens is the name `f`, spelled by one byte.
fn has_prefix(tokens: &[Token], names: &Names) -> bool
    requires { All (IsHeld names.now) tokens.now }
    ensures { (more : List (List ℕ)) → result ≡ list_any is_prefix (items_of (names.now ++ more) tokens.now) }
{
    let mut rest = tokens;
    'tokens: while let [token, behind @ ..] = rest {
        if is_prefix(token, names) {
            return true;
        }
        rest = behind;
    }
    false
}

/// Whether the token is the name `f`, spelled by one byte.
fn is_prefix(token: &Token, names: &Names) -> bool
    requires { IsHeld names.now token.now }
    ensures { (more : List (List ℕ)) → result ≡ is_prefix (item_view (names.now ++ more) token.now) }
{
    match token.kind {
        TokenKind::Name(name) => token.to.saturating_sub(token.from) == 1 && is_f(name, names),
        _ => false,
    }
}

/// Whether the name is `f`.
fn is_f(name: Name, names: &Names) -> bool
    requires { name.0 < length names.now }
    ensures { (more : List (List ℕ)) → result ≡ same (codes "f") (word_of (names.now ++ more) name) }
{
    "f" == names.text(name)
}

/// Whether a text begins there.
fn has_text_at(place: usize, tokens: &VecDeque<Token>) -> bool
    ensures { (names : List (List ℕ)) → result ≡ has_text_at place (items_of names tokens.now.items) }
{
    match tokens.front() {
        None => false,
        Some(token) => is_text_at(place, token),
    }
}

/// Whether the token is a text that begins there.
fn is_text_at(place: usize, token: &Token) -> bool
    ensures { (names : List (List ℕ)) → result
        ≡ (is_literal (form_view names token.now.kind) && (token.now.from == place)) }
{
    is_text(&token.kind) && token.from == place
}

fn is_text(kind: &TokenKind) -> bool
    ensures { (names : List (List ℕ)) → result ≡ is_literal (form_view names kind.now) }
{
    matches!(kind, TokenKind::Text(_))
}

/// Appends the call that an f-literal with this text is.
fn add_literal(
    alloc: Global,
    empty_text: &EmptyText,
    written: &mut Vec<Token>,
    token: &Token,
    words: &mut CallWords,
    names: &mut Names,
) -> Result<(), MoreFault>
    ensures leads { (more : List (List ℕ)) → Leads (with_front (items_of (names.new ++ more) written.old.items)
        (literal_items (item_view (names.new ++ more) token.now)))
        (Ok (items_of (names.new ++ more) written.new.items)) result }
    ensures grown { GrowsTo names.old names.new }
    ensures follows { OnOk result (Follow names.old names.new written.old.items written.new.items) }
{
    let place = Place::of(token);
    let Some(pieces) = pieces_of(alloc, &token.kind)? else {
        return Err(MoreFault::Format(place.line()));
    };
    begin_call(empty_text, written, place, words, names)?;
    add_elements(alloc, written, place, pieces.as_slice(), words, names)?;
    place.end_call(written, TokenKind::RightBracket)?;
    Ok(())
}

/// Appends `''.join([`.
fn begin_call(
    empty_text: &EmptyText,
    written: &mut Vec<Token>,
    place: Place,
    words: &mut CallWords,
    names: &mut Names,
) -> Result<(), Memory>
    ensures items { (more : List (List ℕ)) → OnOk result (items_of (names.new ++ more) written.new.items
        ≡ items_of (names.new ++ more) written.old.items ++ map (placed (place_item place)) join_front) }
    ensures grown { GrowsTo names.old names.new }
    ensures follows { OnOk result (Follow names.old names.new written.old.items written.new.items) }
{
    place.push(written, TokenKind::Text(empty_text.copy()?))?;
    place.push(written, TokenKind::Dot)?;
    place.push(written, TokenKind::Name(words.join(names)?))?;
    place.push(written, TokenKind::LeftParen)?;
    place.push(written, TokenKind::LeftBracket)?;
    Ok(())
}

/// The pieces of the text that a token has.
fn pieces_of(alloc: Global, kind: &TokenKind) -> Result<Option<Vec<Piece<'_>>>, Memory>
    ensures { (names : List (List ℕ)) → IfOk result (λ found. option_map (λ v. map piece_seen v.items) found
        ≡ pieces_of (text_of (form_view names kind.now))) }
{
    match kind {
        TokenKind::Text(text) => read_pieces(alloc, text.as_str()),
        _ => read_pieces(alloc, ""),
    }
}

/// Appends the pieces, with a comma before each but the first.
fn add_elements(
    alloc: Global,
    written: &mut Vec<Token>,
    place: Place,
    pieces: &[Piece<'_>],
    words: &mut CallWords,
    names: &mut Names,
) -> Result<(), MoreFault>
    ensures leads { (more : List (List ℕ)) → Leads (with_front (items_of (names.new ++ more) written.old.items)
        (in_place place (elements [] (map piece_seen pieces.now))))
        (Ok (items_of (names.new ++ more) written.new.items)) result }
    ensures grown { GrowsTo names.old names.new }
    ensures follows { OnOk result (Follow names.old names.new written.old.items written.new.items) }
{
    let mut first = true;
    for piece in pieces {
        add_element(alloc, written, place, first, piece, words, names)?;
        first = false;
    }
    Ok(())
}

/// Appends a piece, with a comma before it, if it is not the first.
fn add_element(
    alloc: Global,
    written: &mut Vec<Token>,
    place: Place,
    first: bool,
    piece: &Piece<'_>,
    words: &mut CallWords,
    names: &mut Names,
) -> Result<(), MoreFault>
    ensures leads { (more : List (List ℕ)) (ps : List TextPiece)
        → Leads (with_front (items_of (names.new ++ more) written.old.items) (in_place place
        (elements (comma_before first) (piece_seen piece.now ∷ ps))))
        (with_front (items_of (names.new ++ more) written.new.items) (in_place place
        (elements (comma_before false) ps))) result }
    ensures grown { GrowsTo names.old names.new }
    ensures follows { OnOk result (Follow names.old names.new written.old.items written.new.items) }
{
    add_comma(written, place, first)?;
    add_piece(alloc, written, place, piece, words, names)
}

fn add_comma(written: &mut Vec<Token>, place: Place, first: bool) -> Result<(), Memory>
    ensures { (names : List (List ℕ)) → OnOk result (items_of names written.new.items
        ≡ items_of names written.old.items ++ map (placed (place_item place)) (comma_before first)) }
{
    if first {
        return Ok(());
    }
    place.push(written, TokenKind::Comma)
}

fn add_piece(
    alloc: Global,
    written: &mut Vec<Token>,
    place: Place,
    piece: &Piece<'_>,
    words: &mut CallWords,
    names: &mut Names,
) -> Result<(), MoreFault>
    ensures leads { (more : List (List ℕ)) → Leads (with_front (items_of (names.new ++ more) written.old.items)
        (in_place place (piece_forms (piece_seen piece.now))))
        (Ok (items_of (names.new ++ more) written.new.items)) result }
    ensures grown { GrowsTo names.old names.new }
    ensures follows { OnOk result (Follow names.old names.new written.old.items written.new.items) }
{
    match piece {
        Piece::Run(text) => Ok(place.push(written, TokenKind::Text(text.copy()?))?),
        Piece::Part(inside) => add_expression(alloc, written, place, inside, words, names),
    }
}
