//! f-literals and sets: the tokens of a script, written out for the grammar.
#![tactic(auto)]

ghost use Rattle.std.specs.Prelude.{◌≡◌, IfOk, OnOk, map};
ghost use Rattle.std.specs.List.{All};
ghost use Rattle.rp_base.specs.Names.{GrowsTo, with_words};
ghost use Rattle.rp_token.specs.Laws.{EndsOnce, IsWithin};
ghost use Rattle.rp_token.specs.NameWords.{words_of};
ghost use Rattle.rp_token.specs.View.{IsHeld, item_view};
ghost use Rattle.rp_more.specs.Expanded.{expanded};
ghost use Rattle.rp_more.specs.View.{Gives};

mod ahead;
mod call_words;
mod empty_text;
mod expression;
mod fault;
mod groups;
mod kinds;
mod letters;
mod literals;
mod pieces;
mod place;
mod sets;

pub use fault::MoreFault;
use rp_base::Names;
use rp_token::Token;
use std::alloc::Global;

/// The tokens of a script with each f-literal as a call of `join` (PEP 498, without conversions and format
/// specifications), and each set that is tested by `in` or walked as a dict whose values are None (Python Language
/// Reference, Set displays).
///
/// The words of the calls that f-literals become are interned among the names, in their order; the names stay where
/// they are and grow, whatever is answered. New tokens have the line of the text or of the token that they stand
/// before, and begin and end where it begins.
///
/// # Errors
/// `Format` with the line of the first f-literal whose text is wrong, or `Memory` where a growth was refused.
pub fn expand(alloc: Global, tokens: Vec<Token>, names: &mut Names) -> Result<Vec<Token>, MoreFault>
    requires { All (IsHeld names.old) tokens.items }
    ensures expanded { Gives names.new (expanded (map (item_view names.old) tokens.items)) result }
    ensures names { GrowsTo names.old names.new }
    ensures words { OnOk result (names.new
        ≡ with_words names.old (words_of (expanded (map (item_view names.old) tokens.items)))) }
    ensures held { IfOk result (λ found. All (IsHeld names.new) found.items) }
    ensures ends { EndsOnce tokens.items → IfOk result (λ found. EndsOnce found.items) }
    // 200 brackets by the text's own, 200 by those of a place in an f-literal, and the four of its call.
    ensures shallow { IsWithin 200 0 tokens.items → IfOk result (λ found. IsWithin 450 0 found.items) }
{
    let written = literals::written_out(alloc, tokens, names)?;
    Ok(sets::written_out(alloc, written)?)
}
