//! The readers that others call: expressions, lists of them, targets and parameters.

ghost use Rattle.std.specs.Prelude.{◌≡◌, ◌+◌, ◌≤◌, ℕ, false, IfOk, Some};
ghost use Rattle.rp_base.specs.declared.value.Line as line_type;
ghost use Rattle.rp_tree.specs.Expressions as tree;
ghost use Rattle.rp_tree.specs.ExpressionViews as views;
ghost use Rattle.rp_tree.specs.Heights as tree_heights;
ghost use Rattle.rp_grammar.specs.Brackets.{IsShallow};
ghost use Rattle.rp_grammar.specs.Expressions.{IsExpr, IsExprs, IsTarget, IsParams, any};
ghost use Rattle.rp_grammar.specs.Front.{goes_on, goes_on_list, goes_on_target, goes_on_params};
ghost use Rattle.rp_expr.specs.Gives.{Gives};
ghost use Rattle.rp_grammar.specs.Kinds.{Tokens, first};
ghost use Rattle.rp_grammar.specs.ExpressionReading as reading;

use crate::node::Read;
use crate::{clauses, expressions, parameters};
use rp_token::Token;
use rp_tree::{Expr, Params, Target};
use std::alloc::Global;

/// The expression at the front of some tokens, and the tokens behind it (Python Language Reference, Expressions).
///
/// What is answered is always spelled so. An expression is read where the token behind it goes on with no expression
/// and the depth is enough: at least the height of its tree and the most brackets within which a place of the tokens
/// stands, together. A deeper one may be refused.
///
/// # Errors
/// `Syntax` where the front of the tokens spells no such expression, `Memory` where a growth was refused.
pub fn expr(alloc: Global, tokens: &[Token], depth: usize) -> Read<'_, Expr>
    ensures gives { Gives (λ x. (views.view_expr x.0, x.1.now)) result
        (reading.expr (reading.readers depth) tokens.now) }
    ensures spelled { IfOk result (λ x. IsExpr (views.view_expr x.0) tokens.now x.1.now) }
    ensures read { (e : tree.Expr) (rest : Tokens) (most height : ℕ) → IsExpr e tokens.now rest → goes_on (first rest)
        ≡ false → tree_heights.expr_height e ≤ height
        → IsShallow most 0 tokens.now → most + height ≤ depth
        → Gives {Y = tree.Expr × Tokens} (λ x. (views.view_expr x.0, x.1.now)) result (Some (e, rest)) }
{
    expressions::expr(alloc, tokens, depth)
}

/// The expression list at the front of some tokens, and the tokens behind it (Python Language Reference, Expression
/// lists). One expression is itself. Several are a tuple, and so is one with a comma behind it.
///
/// What is answered is always spelled so. A list is read where the token behind it is no comma and neither begins an
/// expression nor goes on with one, and the depth is enough, as at `expr`.
///
/// # Errors
/// `Syntax` where the front of the tokens spells no such list, `Memory` where a growth was refused.
pub fn expr_list(alloc: Global, tokens: &[Token], depth: usize) -> Read<'_, Expr>
    ensures gives { Gives (λ x. (views.view_expr x.0, x.1.now)) result
        (reading.expr_list (reading.readers depth) tokens.now) }
    ensures spelled { IfOk result (λ x. IsExprs (views.view_expr x.0) tokens.now x.1.now) }
    ensures read { (e : tree.Expr) (rest : Tokens) (most height : ℕ) → IsExprs e tokens.now rest
        → goes_on_list (first rest) ≡ false → tree_heights.expr_height e ≤ height
        → IsShallow most 0 tokens.now → most + height ≤ depth
        → Gives {Y = tree.Expr × Tokens} (λ x. (views.view_expr x.0, x.1.now)) result (Some (e, rest)) }
{
    expressions::expr_list(alloc, tokens, depth)
}

/// The target at the front of some tokens, and the tokens behind it: a name, an attribute, an item, or a group of
/// targets (Python Language Reference, Assignment statements).
///
/// What is answered is always spelled so. A target is read where the token behind it is no comma and begins neither an
/// expression nor a trailer, and the depth is enough, as at `expr`, for the height of the target.
///
/// # Errors
/// `Syntax` where the front of the tokens spells no such target, `Memory` where a growth was refused.
pub fn target(alloc: Global, tokens: &[Token], depth: usize) -> Read<'_, Target>
    ensures gives { Gives (λ x. (views.view_target x.0, x.1.now)) result
        (reading.target (reading.readers depth) tokens.now) }
    ensures spelled { IfOk result (λ x. (line : line_type.Line)
        × IsTarget (views.view_target x.0) line tokens.now x.1.now) }
    ensures read { (p : tree.Target) (line : line_type.Line) (rest : Tokens) (most height : ℕ)
        → IsTarget p line tokens.now rest
        → goes_on_target (first rest) ≡ false
        → tree_heights.target_height p ≤ height → IsShallow most 0 tokens.now → most + height ≤ depth
        → Gives {Y = tree.Target × Tokens} (λ x. (views.view_target x.0, x.1.now)) result (Some (p, rest)) }
{
    clauses::target(alloc, tokens, depth)
}

/// The parameters at the front of some tokens, none or several, and the tokens behind them (Python Language Reference,
/// Function definitions): names, names with defaults, `*NAME` and `**NAME`, in this order. Whether their names differ
/// is left to `has_distinct_names`.
///
/// What is answered is always spelled so. Parameters are read where the token behind them is no comma, no name and no
/// `=` and goes on with no expression, and the depth is enough, as at `expr`, for the greatest height of a default.
///
/// # Errors
/// `Syntax` where a parameter or its default is not spelled so, `Memory` where a growth was refused.
pub fn params(alloc: Global, tokens: &[Token], depth: usize) -> Read<'_, Params>
    ensures gives { Gives (λ x. (views.view_params x.0, x.1.now)) result
        (reading.params (reading.readers depth) tokens.now) }
    ensures spelled { IfOk result (λ x. IsParams any (views.view_params x.0) tokens.now x.1.now) }
    ensures read { (ps : tree.Params) (rest : Tokens) (most height : ℕ) → IsParams any ps tokens.now rest
        → goes_on_params (first rest) ≡ false
        → tree_heights.params_height ps ≤ height → IsShallow most 0 tokens.now → most + height ≤ depth
        → Gives {Y = tree.Params × Tokens} (λ x. (views.view_params x.0, x.1.now)) result (Some (ps, rest)) }
{
    parameters::params(alloc, tokens, depth)
}
