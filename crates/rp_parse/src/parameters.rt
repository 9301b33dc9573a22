//! The parameters of a function whose block is read.

ghost use Rattle.std.specs.Prelude.{◌≡◌, Some, map};
ghost use Rattle.std.specs.List.{list_any};
ghost use Rattle.rp_tree.specs.ExpressionViews as views;
ghost use Rattle.rp_grammar.specs.Expressions.{parameter_names, same_name};
ghost use Rattle.rp_expr.specs.Gives.{Gives};

use rp_base::Name;
use rp_expr::Fault;
use rp_tree::Params;
use std::alloc::Global;
use std::marker::Model;

/// The names of parameters in order, and their places sorted: a name is found among any number of them by halving.
#[derive(Drop)]
pub struct Parameters {
    names: Vec<Name>,
    sorted: Vec<usize>,
}

impl Model for Parameters {
    ghost use Rattle.std.specs.Prelude.{List, map};
    ghost use Rattle.std.specs.List.Sorted.{IsPermutation, IsSorted};
    ghost use Rattle.std.specs.Ordering.{nat_cmp};
    ghost use Rattle.rp_base.specs.declared.value.Name.{Name};

    ghost Value = { List Name };

    ghost view = { λ p. p.names.items };

    ghost invariant = { λ p. IsPermutation (map (λ n. n.0) p.names.items) p.sorted.items
        × IsSorted nat_cmp p.sorted.items };
}

impl Parameters {
    /// The names of these parameters.
    ///
    /// # Errors
    /// `Memory` where a growth was refused.
    pub fn of(alloc: Global, params: &Params) -> Result<Parameters, Fault>
        ensures { Gives (λ p. p) result (Some (parameter_names (views.view_params params.now))) }
    {
        let names = rp_expr::parameter_names(alloc, params)?;
        let mut sorted = rp_expr::name_places(alloc, &names)?;
        sorted.sort()?;
        Ok(Parameters { names, sorted })
    }

    /// Whether one of them has this name.
    pub fn have(&self, name: Name) -> bool
        ensures { result ≡ list_any (same_name name) self.now }
    {
        self.sorted.binary_search(&name.0).is_ok()
    }
}
