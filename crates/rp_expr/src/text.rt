//! Adjacent text literals.

ghost use Rattle.std.specs.Prelude.{◌≡◌, option_map};
ghost use Rattle.rp_grammar.specs.Front.{text_of};
ghost use Rattle.rp_expr.specs.Gives.{Gives};
ghost use Rattle.rp_grammar.specs.Kinds.{first};
ghost use Rattle.rp_grammar.specs.ExpressionReading as reading;

use crate::look::{is_text, kind_at, skip};
use crate::node::Read;
use rp_base::{Printed, Text};
use rp_token::{Token, TokenKind};
use std::alloc::Global;

/// A text literal, joined with those behind it. One alone is shared.
pub fn texts<'a>(alloc: Global, text: &Text, tokens: &'a [Token]) -> Read<'a, Text>
    ensures { Gives (λ x. (x.0, x.1.now)) result (reading.texts text.now tokens.now) }
{
    if !is_text(tokens) {
        return Ok((text.copy()?, tokens));
    }
    let mut joined = Printed::new(alloc);
    joined.add(text.as_str())?;
    let mut rest = tokens;
    'texts: while let Some(next) = text_at(rest) {
        joined.add(next.as_str())?;
        rest = skip(rest);
    }
    Ok((Text::new(alloc, joined.as_str())?, rest))
}

fn text_at(tokens: &[Token]) -> Option<&Text>
    ensures { option_map (λ t. t.now) result ≡ text_of (first tokens.now) }
{
    match kind_at(tokens)? {
        TokenKind::Text(text) => Some(text),
        _ => None,
    }
}
