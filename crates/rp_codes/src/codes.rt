//! A table of functions.

ghost use Rattle.std.specs.Prelude.{◌≡◌, ◌<◌, ◌∷◌, [], IfOk, IsTrue, None, false, get_or, is_some, length, replicate};
ghost use Rattle.rp_codes.specs.CodeSteps.{Adds};
ghost use Rattle.rp_codes.specs.Codes.{code_view};

use crate::code::Code;
use rp_base::Memory;
use std::alloc::Global;
use std::marker::Model;

/// The functions of a program, seen as a list: each stands at the place of its code block's number.
pub struct Codes<'t> {
    codes: Vec<Option<Code<'t>>>,
}

// By hand, so that crates that drop one do not prove again how its parts are dropped.
impl Drop for Codes<'_> {
    fn drop(self) {
        let Codes { codes: _ } = self;
    }
}

impl<'t> Model for Codes<'t> {
    ghost use Rattle.std.specs.Prelude.{List, Option};
    ghost use Rattle.std.specs.Coded.{codes as coded_by};
    ghost use Rattle.rp_codes.specs.declared.code.Code.{Code};
    ghost use Rattle.rp_tree.specs.contracts.expr.Expr as expr;
    ghost use Rattle.rp_tree.specs.contracts.expr.Params as params;
    ghost use Rattle.rp_tree.specs.contracts.stmt.Stmt as stmt;

    ghost Value = { List (Option Code) };

    ghost coded = { Prim.hlevel (coded_by, expr.the_row.coded, params.the_row.coded, stmt.the_row.coded) };

    ghost view = { λ x. x.codes.items };
}

impl<'t> Codes<'t> {
    /// A place for each of so many code blocks, with no function.
    ///
    /// # Errors
    /// `Memory` where a growth was refused.
    pub(crate) fn new(alloc: Global, blocks: usize) -> Result<Codes<'t>, Memory>
        ensures { IfOk result (λ codes. codes ≡ replicate blocks None) }
    {
        let mut codes = Vec::with_capacity(alloc, blocks)?;
        for _ in 0..blocks {
            codes.push(None)?;
        }
        Ok(Codes { codes })
    }

    /// The function of a code block.
    #[inline(always)]
    pub fn get(&self, block: usize) -> Option<Code<'t>>
        ensures { result ≡ get_or self.now block None }
    {
        if block >= self.codes.len() {
            return None;
        }
        self.codes[block]
    }

    /// Puts a function under its number, where that is in the table and nothing stands there.
    pub(crate) fn put(&mut self, number: usize, code: Code<'t>)
        ensures { Adds ((number, code_view code.entry) ∷ []) self.old self.new }
    {
        if !self.is_free(number) {
            return;
        }
        self.codes[number] = Some(code);
    }

    /// Whether the number is in the table and nothing stands there.
    fn is_free(&self, number: usize) -> bool
        ensures within { IsTrue result → number < length self.now }
        ensures none { IsTrue result → get_or self.now number None ≡ None }
        ensures taken { result ≡ false → number < length self.now → IsTrue (is_some (get_or self.now number None)) }
    {
        if number >= self.codes.len() {
            return false;
        }
        self.codes[number].is_none()
    }
}
