//! The tokens of a script: any text to its tokens, or its first fault with the line.
#![tactic(auto)]

ghost use Rattle.std.specs.Prelude.{◌≡◌, All, IfOk, OnOk, chars};
ghost use Rattle.rp_base.specs.Names.{GrowsTo, with_words};
ghost use Rattle.rp_token.specs.Laws.{BlocksEnd, EndsOnce, IsWithin, LieInOrder};
ghost use Rattle.rp_token.specs.Lexer.{Gives};
ghost use Rattle.rp_token.specs.NameWords.{text_words};
ghost use Rattle.rp_token.specs.View.{IsHeld};
ghost use Rattle.rp_token.specs.Tokens.{tokens_of};

mod copies;
mod fault;
mod lexer;
mod literal;
mod number;
mod spelling;
mod stack;
pub mod text;
mod token;
mod word;

pub use fault::TokenFault;
use lexer::Lexer;
use rp_base::Names;
use std::alloc::Global;
pub use token::{Token, TokenKind};

/// The tokens of a text. Its words are interned among the names, in their order; the names stay where they are and
/// grow, whatever is answered; so each name in a token is held.
///
/// The tokens end with their only END, lie in order between character boundaries of the text, end each block
/// that they begin, and open at most 200 brackets at once.
///
/// # Errors
/// The first fault of the text from the left, with its line from 1, or `Memory` where a growth was refused.
pub fn tokens(alloc: Global, text: &str, names: &mut Names) -> Result<Vec<Token>, TokenFault>
    ensures tokens { Gives names.new (tokens_of (chars text.now)) result }
    ensures names { GrowsTo names.old names.new }
    ensures words { OnOk result (names.new ≡ with_words names.old (text_words (chars text.now))) }
    ensures ends { IfOk result (λ found. EndsOnce found.items) }
    ensures order { IfOk result (λ found. LieInOrder text.now 0 found.items) }
    ensures blocks { IfOk result (λ found. BlocksEnd found.items) }
    ensures brackets { IfOk result (λ found. IsWithin 200 0 found.items) }
    ensures held { IfOk result (λ found. All (IsHeld names.new) found.items) }
{
    let mut lexer = Lexer::new(alloc, text);
    'steps: while !lexer.is_at_end() {
        lexer.step(names)?;
    }
    lexer.finish()
}
