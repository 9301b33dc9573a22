//! Expressions as places and targets.

ghost use Rattle.std.specs.Prelude.{◌≡◌, Some, map, option_map};
ghost use Rattle.rp_tree.specs.Expressions as tree;
ghost use Rattle.rp_tree.specs.ExpressionViews as views;
ghost use Rattle.rp_grammar.specs.Conversion as conversion;
ghost use Rattle.rp_expr.specs.Gives.{Gives};

use crate::fault::Fault;
use crate::node::node;
use rp_base::Line;
use rp_tree::{Expr, ExprForm, Named, Place, Target, Trailer};
use std::alloc::Global;

/// An atom with the trailers that are left.
fn with_trailers(alloc: Global, atom: Expr, trailers: Vec<Trailer>) -> Result<Expr, Fault>
    ensures { Gives views.view_expr result (Some
        (conversion.with_trailers (views.view_expr atom) (views.trailers_of (map views.view_trailer trailers.items)))) }
{
    if trailers.is_empty() {
        return Ok(atom);
    }
    let line = atom.line;
    node(alloc, line, ExprForm::Primary(atom, trailers))
}

/// The place that the last trailer of a primary names.
#[tactic(auto, using(rp_tree::proofs::ExpressionEquations::variants))]
fn trailed_place(of: Expr, trailer: Trailer) -> Result<Place, Fault>
    ensures { Gives views.view_place result
        (conversion.trailed_place (views.view_expr of) (views.view_trailer trailer)) }
{
    match trailer {
        Trailer::Attr(name, guard) => Ok(Place::Attr(of, name, guard)),
        Trailer::Item(index, guard) => Ok(Place::Item(of, index, guard)),
        _ => Err(Fault::Syntax),
    }
}

fn primary_place(alloc: Global, atom: Expr, trailers: Vec<Trailer>) -> Result<Place, Fault>
    ensures { (line : _) → Gives views.view_place result
        (conversion.place_form line
        (tree.primary (views.view_expr atom) (views.trailers_of (map views.view_trailer trailers.items)))) }
{
    let mut trailers = trailers;
    match trailers.pop() {
        None => Err(Fault::Syntax),
        Some(last) => trailed_place(with_trailers(alloc, atom, trailers)?, last),
    }
}

/// The place that an expression spells: a name, or the attribute or the item that its last trailer names.
///
/// # Errors
/// `Syntax` where it spells no place, `Memory` where a growth was refused.
pub fn place_of(alloc: Global, expr: Expr) -> Result<Place, Fault>
    ensures { Gives views.view_place result (conversion.as_place (views.view_expr expr)) }
{
    let line = expr.line;
    place_form(alloc, line, Box::into_inner(expr.form))
}

#[tactic(auto, using(rp_tree::proofs::ExpressionEquations::variants))]
fn place_form(alloc: Global, line: Line, form: ExprForm) -> Result<Place, Fault>
    ensures { Gives views.view_place result (conversion.place_form line (views.view_form form)) }
{
    match form {
        ExprForm::Name(name) => Ok(Place::Name(Named { name, line })),
        ExprForm::Primary(atom, trailers) => primary_place(alloc, atom, trailers),
        _ => Err(Fault::Syntax),
    }
}

/// The target that an expression spells: a place, or the group that a tuple or a list of at least one target is.
///
/// # Errors
/// `Syntax` where it spells no target, `Memory` where a growth was refused.
#[cycle(target)]
pub fn target_of(alloc: Global, expr: Expr) -> Result<Target, Fault>
    ensures { Gives views.view_target result (conversion.as_target (views.view_expr expr)) }
{
    let line = expr.line;
    target_form(alloc, line, Box::into_inner(expr.form))
}

#[cycle(target)]
#[tactic(auto, using(rp_tree::proofs::ExpressionEquations::variants))]
fn target_form(alloc: Global, line: Line, form: ExprForm) -> Result<Target, Fault>
    ensures { Gives views.view_target result (conversion.target_form line (views.view_form form)) }
{
    match form {
        ExprForm::Tuple(exprs) => group_of(alloc, exprs),
        ExprForm::List(exprs) => group_of(alloc, exprs),
        form => Ok(Target::Place(place_form(alloc, line, form)?)),
    }
}

#[cycle(target)]
#[tactic(auto, using(rp_tree::proofs::ExpressionEquations::variants))]
fn group_of(alloc: Global, exprs: Vec<Expr>) -> Result<Target, Fault>
    ensures { Gives views.view_target result
        (conversion.group_of (conversion.as_targets (views.exprs_of (map views.view_expr exprs.items)))) }
{
    if exprs.is_empty() {
        return Err(Fault::Syntax);
    }
    Ok(Target::Group(targets_of(alloc, exprs)?))
}

#[cycle(target)]
fn targets_of(alloc: Global, exprs: Vec<Expr>) -> Result<Vec<Target>, Fault>
    ensures { Gives (λ x. views.targets_of (map views.view_target x.items)) result
        (conversion.as_targets (views.exprs_of (map views.view_expr exprs.items))) }
{
    let mut found = Vec::new(alloc);
    'exprs: for expr in exprs {
        found.push(target_of(alloc, expr)?)?;
    }
    Ok(found)
}
