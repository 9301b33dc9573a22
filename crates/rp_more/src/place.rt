//! New tokens.

ghost use Rattle.std.specs.Prelude.{◌≡◌, ◌++◌, ◌∷◌, [], ℕ, List, OnOk, codes, map};
ghost use Rattle.rp_token.specs.Form.{mark};
ghost use Rattle.rp_token.specs.View.{form_view};
ghost use Rattle.rp_more.specs.Forms.{placed};
ghost use Rattle.rp_more.specs.LiteralSteps.{items_of, place_item};

use rp_base::{Line, Memory};
use rp_token::{Token, TokenKind};

/// Where new tokens stand: in the line of another token, and where it begins.
#[derive(Clone, Copy)]
pub(crate) struct Place {
    from: usize,
    line: Line,
}

impl Place {
    pub(crate) fn of(token: &Token) -> Place
        ensures { result ≡ (record { from = token.now.from; line = token.now.line }) }
    {
        Place {
            from: token.from,
            line: token.line,
        }
    }

    pub(crate) fn line(self) -> Line
        ensures { result ≡ self.line }
    {
        self.line
    }

    /// A token more, in this place.
    pub(crate) fn push(self, written: &mut Vec<Token>, kind: TokenKind) -> Result<(), Memory>
        ensures tokens { OnOk result (written.new.items ≡ written.old.items
            ++ (record { kind = kind; from = self.from; to = self.from; line = self.line }) ∷ []) }
        ensures items { (names : List (List ℕ)) → OnOk result (items_of names written.new.items
            ≡ items_of names written.old.items ++ placed (place_item self) (form_view names kind) ∷ []) }
    {
        written.push(Token {
            kind,
            from: self.from,
            to: self.from,
            line: self.line,
        })?;
        Ok(())
    }

    /// A bracket, and `)`.
    pub(crate) fn end_call(self, written: &mut Vec<Token>, bracket: TokenKind) -> Result<(), Memory>
        ensures { (names : List (List ℕ)) → OnOk result (items_of names written.new.items
            ≡ items_of names written.old.items ++ map (placed (place_item self)) (form_view names bracket ∷ mark
            (codes ")") ∷ [])) }
    {
        self.push(written, bracket)?;
        self.push(written, TokenKind::RightParen)?;
        Ok(())
    }
}
