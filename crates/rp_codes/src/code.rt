//! Functions of a program.

ghost use Rattle.rp_codes.specs.Codes.{code_view};
ghost use Rattle.rp_meaning.specs.Running.{params_of};
ghost use Rattle.rp_tree.specs.ExpressionViews.{view_params};
ghost use Rattle.std.specs.Prelude.{◌≡◌};

use rp_tree::{Expr, Params, Stmt};

/// A function of a program, as its tree has it: the parameters, and what a call of it runs (Python Language Reference,
/// Function definitions, Lambdas).
#[derive(Clone, Copy)]
pub enum Code<'t> {
    Def(&'t Params, &'t [Stmt]),
    Lambda(&'t Params, &'t Expr),
}

impl<'t> Code<'t> {
    /// Its parameters.
    #[inline(always)]
    pub fn params(&self) -> &'t Params
        ensures { view_params result.now ≡ params_of (code_view self.now) }
    {
        match self {
            Code::Def(params, _) => params,
            Code::Lambda(params, _) => params,
        }
    }
}
