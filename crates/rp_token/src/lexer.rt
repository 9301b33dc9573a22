//! The reader of tokens.

ghost use Rattle.std.specs.Prelude.{◌+◌, ◌<◌, ◌^◌, chars, length};
ghost use Rattle.std.specs.Str.{IsUtf8};

use crate::fault::TokenFault;
use crate::literal::{Quotes, Reading, open_quotes};
use crate::number::number_of;
use crate::spelling::mark;
use crate::stack::Stack;
use crate::text::{
    Run, begins_with_line_end, behind, behind_line_end, first, has_tab, is_empty_line, is_quote,
    is_start, joined_lines, without_mark,
};
use crate::token::{Token, TokenKind};
use crate::word::word_kind;
use rp_base::{Line, Memory, Names};
use std::alloc::Global;

/// The most brackets that are open at once.
const MOST_BRACKETS: usize = 200;

/// How far a logical line has come.
#[derive(Clone, Copy)]
pub(crate) enum Stage {
    /// It has not begun, and its column was not read.
    Fresh,
    /// It has nothing but blanks and a comment.
    Empty,
    /// Its column was read.
    Inside,
}

/// A reader of tokens: where it stands in a text, and the tokens so far.
#[derive(Drop)]
pub(crate) struct Lexer<'t> {
    alloc: Global,
    /// The bytes of the whole text.
    size: usize,
    /// What is left of the text.
    rest: &'t str,
    tokens: Vec<Token>,
    /// The open columns but 0.
    columns: Stack,
    /// The lines of the open brackets.
    brackets: Stack,
    line: usize,
    stage: Stage,
    ghost is_text: { ∥ IsUtf8 rest.now ∥₁ },
    ghost counted: { line + length (chars rest.now) < 2 ^ 64 },
}

impl<'t> Lexer<'t> {
    ghost use Rattle.std.specs.Prelude.{◌≡◌, ◌≤◌, ◌++◌, ◌==◌, List, ℕ, OnOk, true};
    ghost use Rattle.rp_base.specs.Identifier.{is_start};
    ghost use Rattle.rp_base.specs.Names.{GrowsTo, with_words};
    ghost use Rattle.rp_token.specs.Characters.{first, line_end_length};
    ghost use Rattle.rp_token.specs.Lexer.{Gives, Goes, state};
    ghost use Rattle.rp_token.specs.Tokens.{begun, behind_line_end, behind_literal, behind_mark, behind_number};
    ghost use Rattle.rp_token.specs.Tokens.{behind_token, behind_word, bracketed, closed_to, ending, in_line, indented};
    ghost use Rattle.rp_token.specs.Tokens.{joined, start, step, taken, with_token};
    ghost use Rattle.rp_token.specs.View.{form_view};
    ghost use Rattle.rp_token.specs.WordSteps.{front_words};

    /// A reader before the first line of the text, behind its byte order mark.
    pub(crate) fn new(alloc: Global, text: &'t str) -> Lexer<'t>
        ensures { (names : List (List ℕ)) → state names result ≡ start (chars text.now) }
    {
        let rest = without_mark(text);
        Lexer {
            alloc,
            size: text.len(),
            rest,
            tokens: Vec::new(alloc),
            columns: Stack::new(alloc),
            brackets: Stack::new(alloc),
            line: 1,
            stage: Stage::Fresh,
        }
    }

    pub(crate) fn is_at_end(&self) -> bool
        ensures { result ≡ (length self.now.rest.now == 0) }
    {
        self.rest.is_empty()
    }

    /// Reads on: the column of a line that begins, and then what stands at the front.
    #[tactic(auto, unfolding(crate::specs::Tokens::step))]
    pub(crate) fn step(&mut self, names: &mut Names) -> Result<(), TokenFault>
        ensures goes { (more : List (List ℕ)) → Goes (names.new ++ more) step result self.old self.new }
        ensures grown { GrowsTo names.old names.new }
        ensures words { OnOk result (names.new ≡ with_words names.old (front_words (chars self.old.rest.now))) }
    {
        match self.stage {
            Stage::Fresh => {
                self.begin_line()?;
                self.in_line(names)
            }
            _ => self.in_line(names),
        }
    }

    /// The tokens of a text that was read to its end.
    #[tactic(auto, unfolding(crate::specs::Tokens::ending))]
    pub(crate) fn finish(mut self) -> Result<Vec<Token>, TokenFault>
        ensures { (names : List (List ℕ)) → Gives names (ending (state names self.entry)) result }
    {
        if self.brackets.len() > 0 {
            return Err(TokenFault::Unclosed(Line(self.brackets.top())));
        }
        let line = self.line;
        if let Stage::Inside = self.stage {
            self.push(TokenKind::Newline, "", "", line)?;
        }
        self.close(0, "", line)?;
        self.push(TokenKind::End, "", "", line)?;
        Ok(self.tokens)
    }

    /// Within a line: blanks, a comment, a line end, a joining backslash, or a token.
    #[tactic(auto, unfolding(crate::specs::Tokens::in_line))]
    fn in_line(&mut self, names: &mut Names) -> Result<(), TokenFault>
        ensures goes { (more : List (List ℕ)) → Goes (names.new ++ more) in_line result self.old self.new }
        ensures grown { GrowsTo names.old names.new }
        ensures words { OnOk result (names.new ≡ with_words names.old (front_words (chars self.old.rest.now))) }
    {
        match first(self.rest) {
            ' ' | '\t' => {
                let (_, rest) = Run::Blanks.split(self.rest);
                self.rest = rest;
                Ok(())
            }
            '#' => {
                let (_, rest) = Run::Comment.split(self.rest);
                self.rest = rest;
                Ok(())
            }
            '\n' => self.end_line(),
            '\r' => self.end_line(),
            '\\' => self.join(),
            _ => self.token(names),
        }
    }

    /// Before a logical line its column is read, unless the line has nothing.
    #[tactic(auto, unfolding(crate::specs::Tokens::begun))]
    fn begin_line(&mut self) -> Result<(), TokenFault>
        ensures { (names : List (List ℕ)) → Goes names begun result self.old self.new }
    {
        let (blanks, rest) = Run::Blanks.split(self.rest);
        if is_empty_line(rest) {
            self.stage = Stage::Empty;
            return Ok(());
        }
        if has_tab(blanks) {
            return Err(TokenFault::Tab(Line(self.line)));
        }
        self.indent(blanks.len(), rest)
    }

    /// A column greater than the innermost is opened; a smaller one closes others, and is one of the open ones.
    #[tactic(auto, unfolding(crate::specs::Tokens::indented))]
    fn indent(&mut self, column: usize, rest: &str) -> Result<(), TokenFault>
        requires { length (chars rest.now) ≤ length (chars self.old.rest.now) }
        ensures { (names : List (List ℕ)) → Goes names (indented column (chars rest.now)) result self.old self.new }
    {
        let line = self.line + joined_lines(rest);
        if self.columns.top() < column {
            self.columns.push(column)?;
            self.push(TokenKind::Indent, rest, rest, line)?;
            self.stage = Stage::Inside;
            return Ok(());
        }
        let fault = TokenFault::Dedent(Line(self.line));
        self.close(column, rest, line)?;
        if self.columns.top() != column {
            return Err(fault);
        }
        self.stage = Stage::Inside;
        Ok(())
    }

    /// The columns above one are closed, with a token for each.
    fn close(&mut self, column: usize, rest: &str, line: usize) -> Result<(), Memory>
        ensures { (names : List (List ℕ))
            → OnOk result (state names self.new
            ≡ closed_to column (chars rest.now) line self.old.columns (state names self.old)) }
    {
        'columns: while self.columns.top() > column {
            self.columns.pop();
            self.push(TokenKind::Dedent, rest, rest, line)?;
        }
        Ok(())
    }

    /// A line end within brackets is a blank; it ends a logical line, and another begins.
    #[tactic(auto, unfolding(crate::specs::Tokens::behind_line_end))]
    fn end_line(&mut self) -> Result<(), TokenFault>
        requires { 0 < line_end_length (chars self.old.rest.now) }
        ensures { (names : List (List ℕ)) → Goes names behind_line_end result self.old self.new }
    {
        let rest = behind_line_end(self.rest);
        if self.brackets.len() > 0 {
            self.rest = rest;
            self.line += 1;
            return Ok(());
        }
        if let Stage::Inside = self.stage {
            self.take(TokenKind::Newline, rest)?;
            self.line += 1;
            self.stage = Stage::Fresh;
            return Ok(());
        }
        self.rest = rest;
        self.line += 1;
        self.stage = Stage::Fresh;
        Ok(())
    }

    /// A backslash joins lines directly before a line end.
    #[tactic(auto, unfolding(crate::specs::Tokens::joined))]
    fn join(&mut self) -> Result<(), TokenFault>
        ensures { (names : List (List ℕ)) → Goes names joined result self.old self.new }
    {
        let rest = behind(self.rest);
        if !begins_with_line_end(rest) {
            return Err(TokenFault::BadChar(Line(self.line)));
        }
        self.rest = behind_line_end(rest);
        self.line += 1;
        Ok(())
    }

    /// What begins at the front: a word, a number, a literal or a mark.
    #[tactic(auto, unfolding(crate::specs::Tokens::behind_token))]
    fn token(&mut self, names: &mut Names) -> Result<(), TokenFault>
        ensures goes { (more : List (List ℕ)) → Goes (names.new ++ more) behind_token result self.old self.new }
        ensures grown { GrowsTo names.old names.new }
        ensures words { OnOk result (names.new ≡ with_words names.old (front_words (chars self.old.rest.now))) }
    {
        let letter = first(self.rest);
        if is_start(letter) {
            return self.word(names);
        }
        if letter.is_ascii_digit() {
            return self.number();
        }
        if is_quote(letter) {
            return self.literal();
        }
        self.mark()
    }

    #[tactic(auto, unfolding(crate::specs::Tokens::behind_word))]
    fn word(&mut self, names: &mut Names) -> Result<(), TokenFault>
        requires { is_start (first (chars self.old.rest.now)) ≡ true }
        ensures goes { (more : List (List ℕ)) → Goes (names.new ++ more) behind_word result self.old self.new }
        ensures grown { GrowsTo names.old names.new }
        ensures words { OnOk result (names.new ≡ with_words names.old (front_words (chars self.old.rest.now))) }
    {
        let (word, rest) = Run::Word.split(self.rest);
        match word_kind(self.alloc, word, names)? {
            Some(kind) => Ok(self.take(kind, rest)?),
            None => Err(TokenFault::BadChar(Line(self.line))),
        }
    }

    #[tactic(auto, unfolding(crate::specs::Tokens::behind_number))]
    fn number(&mut self) -> Result<(), TokenFault>
        ensures { (names : List (List ℕ)) → Goes names behind_number result self.old self.new }
    {
        let (word, rest) = Run::Number.split(self.rest);
        match number_of(word) {
            Some(number) => Ok(self.take(TokenKind::Int(number), rest)?),
            None => Err(TokenFault::BadNumber(Line(self.line))),
        }
    }

    #[tactic(auto, unfolding(crate::specs::Tokens::behind_literal))]
    fn literal(&mut self) -> Result<(), TokenFault>
        requires { 0 < first (chars self.old.rest.now) }
        ensures { (names : List (List ℕ)) → Goes names behind_literal result self.old self.new }
    {
        let (quotes, rest) = open_quotes(self.rest);
        match quotes.read(self.alloc, rest)? {
            Reading::Closed(text, rest, lines) => {
                self.take(TokenKind::Text(text), rest)?;
                self.line += lines;
                Ok(())
            }
            Reading::Unclosed => Err(TokenFault::Unclosed(Line(self.line))),
            Reading::BadEscape(lines) => Err(TokenFault::BadEscape(Line(self.line + lines))),
        }
    }

    #[tactic(auto, unfolding(crate::specs::Tokens::behind_mark))]
    fn mark(&mut self) -> Result<(), TokenFault>
        ensures { (names : List (List ℕ)) → Goes names behind_mark result self.old self.new }
    {
        match mark(self.rest) {
            Some((kind, rest)) => {
                self.bracket(first(self.rest))?;
                Ok(self.take(kind, rest)?)
            }
            None => Err(TokenFault::BadChar(Line(self.line))),
        }
    }

    /// A bracket opens, or closes the innermost one.
    #[tactic(auto, unfolding(crate::specs::Tokens::bracketed))]
    fn bracket(&mut self, letter: char) -> Result<(), TokenFault>
        ensures { (names : List (List ℕ)) → Goes names (bracketed letter) result self.old self.new }
    {
        match letter {
            '(' | '[' | '{' => {
                if self.brackets.len() >= MOST_BRACKETS {
                    return Err(TokenFault::Deep(Line(self.line)));
                }
                self.brackets.push(self.line)?;
                Ok(())
            }
            ')' | ']' | '}' => {
                self.brackets.pop();
                Ok(())
            }
            _ => Ok(()),
        }
    }

    /// A token from what is left up to a rest of it.
    fn take(&mut self, kind: TokenKind, rest: &'t str) -> Result<(), Memory>
        requires text { IsUtf8 rest.now }
        requires rest { length (chars rest.now) ≤ length (chars self.old.rest.now) }
        ensures { (names : List (List ℕ))
            → OnOk result (state names self.new
            ≡ taken (form_view names kind) (chars rest.now) (state names self.old)) }
    {
        self.push(kind, self.rest, rest, self.line)?;
        self.rest = rest;
        Ok(())
    }

    /// A token more, between two rests of the text.
    fn push(&mut self, kind: TokenKind, from: &str, to: &str, line: usize) -> Result<(), Memory>
        ensures { (names : List (List ℕ))
            → OnOk result (state names self.new
            ≡ with_token (form_view names kind) (chars from.now) (chars to.now) line (state names self.old)) }
    {
        let from = self.size.saturating_sub(from.len());
        let to = self.size.saturating_sub(to.len());
        self.tokens.push(Token {
            kind,
            from,
            to,
            line: Line(line),
        })?;
        Ok(())
    }
}
