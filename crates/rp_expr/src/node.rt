//! Nodes, and what a reader answers.

ghost use Rattle.std.specs.Prelude.{None, Some, option_map};
ghost use Rattle.rp_tree.specs.Expressions as tree;
ghost use Rattle.rp_tree.specs.ExpressionViews.{maybe_of, view_expr, view_form, view_trailer};
ghost use Rattle.rp_expr.specs.Gives.{Gives};
ghost use Rattle.rp_grammar.specs.Kinds.{first};
ghost use Rattle.rp_grammar.specs.ExpressionReading as reading;

use crate::fault::Fault;
use rp_base::Line;
use rp_token::{Token, TokenKind};
use rp_tree::{Expr, ExprForm, Named, Slice, Trailer};
use std::alloc::Global;

/// What is read at the front of some tokens, and the tokens behind it.
pub type Read<'a, T> = Result<(T, &'a [Token]), Fault>;

/// An expression of this form.
pub fn node(alloc: Global, line: Line, form: ExprForm) -> Result<Expr, Fault>
    ensures { Gives view_expr result (Some (tree.node line (view_form form))) }
{
    let form = Box::new(alloc, form)?;
    Ok(Expr { line, form })
}

/// A slicing by these bounds and this stride.
#[tactic(auto, using(rp_tree::proofs::ExpressionEquations::trailer_slice, rp_tree::proofs::ExpressionEquations::slice_roll))]
pub fn slicing(
    alloc: Global,
    from: Option<Expr>,
    to: Option<Expr>,
    step: Option<Expr>,
) -> Result<Trailer, Fault>
    ensures { Gives view_trailer result (Some
        (tree.slice (maybe_of (option_map view_expr from)) (maybe_of (option_map view_expr to))
        (maybe_of (option_map view_expr step)) None)) }
{
    let slice = Box::new(alloc, Slice { from, to, step })?;
    Ok(Trailer::Slice(slice, None))
}

/// The name at the front of some tokens, with its line, and the tokens behind it.
///
/// # Errors
/// `Syntax` where no name comes.
pub fn name(tokens: &[Token]) -> Read<'_, Named>
    ensures { Gives (λ x. (x.0, x.1.now)) result (reading.name_by (first tokens.now) tokens.now) }
{
    match tokens {
        [] => Err(Fault::Syntax),
        [token, rest @ ..] => match token.kind {
            TokenKind::Name(name) => Ok((
                Named {
                    name,
                    line: token.line,
                },
                rest,
            )),
            _ => Err(Fault::Syntax),
        },
    }
}
