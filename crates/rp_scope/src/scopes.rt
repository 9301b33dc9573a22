//! The scopes of the code blocks of a program, and the names that stand in them.

ghost use Rattle.std.specs.Prelude.{◌≡◌, ◌∷◌, [], ◌++◌, ◌<◌, OnOk, length, map, option_copied, position};
ghost use Rattle.rp_tree.specs.ExpressionViews as views;
ghost use Rattle.rp_tree.specs.StatementViews as stmt_views;
ghost use Rattle.rp_scope.specs.Bindings.{function_block, lambda_block, comprehension_block};
ghost use Rattle.rp_scope.specs.Scopes.{scope_in, locals_of, found_from, found_of, block_at, same_name};

use crate::layout::{Layout, add, comprehension_layout, function_layout, lambda_layout};
use crate::place::{Found, Place2};
use indexmap::IndexSet;
use rp_base::{Memory, Name};
use rp_tree::{Clause, Params, Stmt};
use std::alloc::Global;
use std::marker::Model;

/// The scopes of the code blocks by their numbers, the program itself being 0.
#[derive(Drop)]
pub struct Scopes {
    layouts: Vec<Layout>,
    /// The names that are noted as standing in each block.
    noted: Vec<IndexSet<Name>>,
}

impl Model for Scopes {
    ghost use Rattle.std.specs.Prelude.{List};
    ghost use Rattle.rp_scope.specs.Scopes.{Scope};

    ghost Value = { List Scope };

    ghost view = { λ x. x.layouts.items };
}

/// Adds a function that stands in the block with the number `around`.
pub fn add_function(
    alloc: Global,
    layouts: &mut Scopes,
    around: usize,
    params: &Params,
    body: &[Stmt],
) -> Result<(), Memory>
    ensures { OnOk result (layouts.new
        ≡ layouts.old
        ++ scope_in around (function_block (views.view_params params.now) (stmt_views.view_stmts body.now)) ∷ []) }
{
    layouts.add(alloc, function_layout(alloc, params, body, around)?)
}

/// Adds a lambda that stands in the block with the number `around`.
pub fn add_lambda(
    alloc: Global,
    layouts: &mut Scopes,
    around: usize,
    params: &Params,
) -> Result<(), Memory>
    ensures { OnOk result (layouts.new
        ≡ layouts.old ++ scope_in around (lambda_block (views.view_params params.now)) ∷ []) }
{
    layouts.add(alloc, lambda_layout(alloc, params, around)?)
}

/// Adds a comprehension that stands in the block with the number `around`.
pub fn add_comprehension(
    alloc: Global,
    layouts: &mut Scopes,
    around: usize,
    clauses: &[Clause],
) -> Result<(), Memory>
    ensures { OnOk result (layouts.new
        ≡ layouts.old
        ++ scope_in around (comprehension_block (views.clauses_of (map views.view_clause clauses.now))) ∷ []) }
{
    layouts.add(alloc, comprehension_layout(alloc, clauses, around)?)
}

impl Scopes {
    /// No blocks.
    pub fn new(alloc: Global) -> Scopes
        ensures { result ≡ [] }
    {
        Scopes {
            layouts: Vec::new(alloc),
            noted: Vec::new(alloc),
        }
    }

    /// Adds a block behind the others.
    pub fn add(&mut self, alloc: Global, layout: Layout) -> Result<(), Memory>
        ensures { OnOk result (self.new ≡ self.old ++ layout ∷ []) }
    {
        self.noted.push(IndexSet::new(alloc))?;
        self.layouts.push(layout)?;
        Ok(())
    }

    /// Notes that a name stands in the block with this number. A scope is what it was.
    pub fn note(&mut self, block: usize, name: Name) -> Result<(), Memory>
        ensures { self.new ≡ self.old }
    {
        if block < self.noted.len() {
            add(&mut self.noted[block], name)?;
        }
        Ok(())
    }

    /// The names that are noted as standing in the block, each once.
    pub fn noted(&self, block: usize) -> &[Name] {
        match self.noted.get(block) {
            Some(names) => names.as_slice(),
            None => &[],
        }
    }

    /// Lets go of all that is noted. A scope is what it was.
    pub fn forget(&mut self)
        ensures { self.new ≡ self.old }
    {
        self.noted.clear();
    }

    /// The number of code blocks, the program itself among them.
    pub fn len(&self) -> usize
        ensures { result ≡ length self.now }
    {
        self.layouts.len()
    }

    /// The local names of a code block in the order of first binding, parameters first.
    pub fn locals(&self, block: usize) -> &[Name]
        requires { block < length self.now }
        ensures { result.now ≡ locals_of self.now block }
    {
        self.layouts[block].locals.as_slice()
    }

    /// The place of a name among the local names of the program; none where it is not among them.
    pub fn global(&self, name: Name) -> Option<usize>
        requires { 0 < length self.now }
        ensures { result ≡ position (same_name name) (locals_of self.now 0) }
    {
        self.layouts[0].locals.get_index_of(&name)
    }

    /// Where a code block finds a name. It takes time by the number of blocks around.
    pub fn place(&self, block: usize, name: Name) -> Place2
        requires { block < length self.now }
        ensures { result ≡ found_from self.now block name }
    {
        let mut number = block;
        'blocks: for outwards in 0..self.layouts.len() {
            let Some(layout) = self.block(number) else {
                return Place2::Global;
            };
            if let Some(place) = layout.place(outwards, name) {
                return place;
            }
            number = layout.around;
        }
        Place2::Global
    }

    /// What there is to know of a name in a code block.
    pub fn find(&self, block: usize, name: Name) -> Found
        requires { block < length self.now }
        ensures { result ≡ found_of self.now block name }
    {
        Found {
            place: self.place(block, name),
            global: self.global(name),
        }
    }

    /// The block with this number; none where it is the program.
    fn block(&self, number: usize) -> Option<&Layout>
        ensures { option_copied result ≡ block_at self.now number }
    {
        if number == 0 {
            return None;
        }
        self.layouts.get(number)
    }
}
