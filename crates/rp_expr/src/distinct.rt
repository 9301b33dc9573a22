//! Names that stand once in a list.

ghost use Rattle.std.specs.Prelude.{◌≡◌, ◌↔◌, ◌++◌, IfOk, IsTrue, Some, map, option_to_list};
ghost use Rattle.std.specs.List.Sorted.{IsStrictlyIncreasing};
ghost use Rattle.rp_tree.specs.ExpressionViews as views;
ghost use Rattle.rp_grammar.specs.Expressions as grammar;
ghost use Rattle.rp_expr.specs.Gives.{Gives};

use crate::fault::Fault;
use rp_base::Name;
use rp_tree::{Arg, Expr, Named, Params};
use std::alloc::{AllocError, Global};

/// Whether no name stands twice: their places, sorted, rise. It takes the time of a sort, whatever the names.
fn are_distinct(alloc: Global, names: &[Name]) -> Result<bool, Fault>
    ensures { Gives (λ b. b) result (Some (grammar.distinct names.now)) }
{
    let mut places = name_places(alloc, names)?;
    places.sort()?;
    Ok(do_rise(&places))
}

/// The places of names, in their order.
///
/// # Errors
/// `AllocError` where a growth was refused.
pub fn name_places(alloc: Global, names: &[Name]) -> Result<Vec<usize>, AllocError>
    ensures { IfOk result (λ v. v.items ≡ map (λ n. n.0) names.now) }
{
    let mut places = Vec::with_capacity(alloc, names.len())?;
    'names: for name in names {
        places.push(name.0)?;
    }
    Ok(places)
}

/// Whether each number is below the next.
fn do_rise(numbers: &[usize]) -> bool
    ensures { IsTrue result ↔ IsStrictlyIncreasing numbers.now }
{
    'numbers: for place in 1..numbers.len() {
        if numbers[place - 1] >= numbers[place] {
            return false;
        }
    }
    true
}

/// Whether no two arguments have one name.
pub fn has_distinct_keys(alloc: Global, args: &[Arg]) -> Result<bool, Fault>
    ensures { Gives (λ b. b) result
        (Some (grammar.distinct (grammar.key_names (views.args_of (map views.view_arg args.now))))) }
{
    let names = key_names(alloc, args)?;
    are_distinct(alloc, &names)
}

fn key_names(alloc: Global, args: &[Arg]) -> Result<Vec<Name>, Fault>
    ensures { Gives (λ x. x.items) result (Some (grammar.key_names (views.args_of (map views.view_arg args.now)))) }
{
    let mut names = Vec::new(alloc);
    'arguments: for argument in args {
        if let Some(name) = key_name(argument) {
            names.push(name)?;
        }
    }
    Ok(names)
}

#[tactic(auto, using(rp_tree::proofs::ExpressionEquations::variants))]
fn key_name(arg: &Arg) -> Option<Name>
    ensures { option_to_list result ≡ grammar.key_name (views.view_arg arg.now) }
{
    match arg {
        Arg::Key(name, _) => Some(*name),
        Arg::Plain(_) | Arg::Star(_) | Arg::Stars(_) => None,
    }
}

/// Whether no two parameters have one name.
///
/// # Errors
/// `Memory` where a growth was refused.
pub fn has_distinct_names(alloc: Global, params: &Params) -> Result<bool, Fault>
    ensures { Gives (λ b. b) result (Some (grammar.distinct (grammar.parameter_names (views.view_params params.now)))) }
{
    let names = parameter_names(alloc, params)?;
    are_distinct(alloc, &names)
}

/// The names of parameters, in order.
///
/// # Errors
/// `Memory` where a growth was refused.
pub fn parameter_names(alloc: Global, params: &Params) -> Result<Vec<Name>, Fault>
    ensures { Gives (λ x. x.items) result (Some (grammar.parameter_names (views.view_params params.now))) }
{
    let names = plain_names(alloc, &params.plain)?;
    let names = with_named(names, params.list)?;
    with_named(names, params.dict)
}

fn with_named(names: Vec<Name>, named: Option<Named>) -> Result<Vec<Name>, Fault>
    ensures { Gives (λ x. x.items) result (Some (names.items ++ grammar.named_names named)) }
{
    let mut names = names;
    match named {
        None => Ok(names),
        Some(named) => {
            names.push(named.name)?;
            Ok(names)
        }
    }
}

fn plain_names(alloc: Global, plain: &[(Named, Option<Expr>)]) -> Result<Vec<Name>, Fault>
    ensures { Gives (λ x. x.items) result
        (Some (grammar.plain_names (views.plain_of (map views.view_plain plain.now)))) }
{
    let mut names = Vec::new(alloc);
    'plain: for parameter in plain {
        names.push(parameter.0.name)?;
    }
    Ok(names)
}
