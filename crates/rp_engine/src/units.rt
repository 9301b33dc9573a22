//! The programs of a run.

ghost use Rattle.std.specs.Prelude.{◌≡◌, ◌<◌, ◌≤◌, IfOk, length, position, suc};
ghost use Rattle.rp_grammar.specs.Program.{highest};
ghost use Rattle.rp_scope.specs.Numbers.{HasNumbers, block_count};
ghost use Rattle.rp_scope.specs.Scopes.{found_from, locals_of, same_name};
ghost use Rattle.rp_engine.specs.Codes.{IsIndexed, code_at};
ghost use Rattle.rp_engine.specs.Moment.{program_at};
ghost use Rattle.rp_tree.specs.Heights.{stmts_height};
ghost use Rattle.rp_tree.specs.StatementViews.{view_tree};

use rp_base::{Memory, Name, Side};
use rp_codes::{Code, Codes, codes_of};
use rp_scope::{Layouts, Place2};
use rp_tree::Tree;
use std::alloc::Global;

/// A program that runs: its tree, where its code blocks find names, and its functions by the numbers of their code
/// blocks.
#[derive(Drop)]
pub struct Program<'u> {
    pub tree: &'u Tree,
    pub layouts: Layouts,
    pub codes: Codes<'u>,
}

impl<'u> Program<'u> {
    /// The program of a tree whose code blocks have their numbers, as `rp_scope::number` sets them, with a table of
    /// their scopes (Python Language Reference, Naming and binding).
    ///
    /// # Errors
    /// `Memory` where a growth was refused.
    pub fn of_tree(alloc: Global, tree: &'u Tree, layouts: Layouts) -> Result<Program<'u>, Memory>
        requires numbers { HasNumbers (view_tree tree.now) }
        requires blocks { length layouts ≡ suc (block_count (view_tree tree.now)) }
        requires low { stmts_height (view_tree tree.now) ≤ highest }
        ensures tree { IfOk result (λ program. program.tree.now ≡ tree.now) }
        ensures layouts { IfOk result (λ program. program.layouts ≡ layouts) }
        ensures block { IfOk result (λ program. 0 < length program.layouts) }
        ensures indexed { IfOk result IsIndexed }
    {
        let codes = codes_of(alloc, tree, layouts.len())?;
        Ok(Program {
            tree,
            layouts,
            codes,
        })
    }

    /// The function of a code block.
    #[inline(always)]
    pub fn code(&self, block: usize) -> Option<Code<'u>>
        ensures { result ≡ code_at self.now block }
    {
        self.codes.get(block)
    }
}

/// How many local names a code block has; none where the program has no such block.
#[inline(always)]
pub fn local_count(program: &Program, block: usize) -> usize
    ensures { result ≡ length (locals_of program.now.layouts block) }
{
    let count = program.layouts.len();
    if block >= count {
        return 0;
    }
    program.layouts.locals(block).len()
}

/// Where a code block finds a name; as a global one, where the program has no such block.
#[inline(always)]
pub(crate) fn place_in(program: &Program, block: usize, name: Name) -> Place2
    ensures { result ≡ found_from program.now.layouts block name }
{
    let count = program.layouts.len();
    if block >= count {
        return Place2::Global;
    }
    program.layouts.place(block, name)
}

/// The place of a name among the local names of a program's own block; None where it is not among them.
#[inline(always)]
pub(crate) fn global_in(program: &Program, name: Name) -> Option<usize>
    ensures { result ≡ position (same_name name) (locals_of program.now.layouts 0) }
{
    let count = program.layouts.len();
    if count == 0 {
        return None;
    }
    program.layouts.global(name)
}

/// The programs of a run: the trusted module, and the script of each session.
#[derive(Drop)]
pub struct Units<'u> {
    pub module: Program<'u>,
    pub scripts: Vec<Program<'u>>,
}

impl<'u> Units<'u> {
    /// The program of a side; that of side 0 is the module, which stands for missing scripts, too.
    #[inline(always)]
    pub fn program(&self, side: Side) -> &Program<'u>
        ensures { result.now ≡ program_at self.now side }
    {
        if side.0 == 0 {
            return &self.module;
        }
        let Some(program) = self.scripts.get(side.0 as usize - 1) else {
            return &self.module;
        };
        program
    }
}
