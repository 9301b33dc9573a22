//! The local names of the code blocks of a program, and where each block finds a name.

ghost use Rattle.std.specs.Prelude.{◌≡◌, ◌+◌, ◌^◌, ◌<◌, IfOk, IfSome, OnOk, length, option_copied, position};
ghost use Rattle.rp_tree.specs.StatementViews.{view_tree};
ghost use Rattle.rp_scope.specs.Numbers.{HasNumbers, block_count};
ghost use Rattle.rp_scope.specs.Scopes.{AreScopesOf, scopes, locals_of, found_from, found_of, same_name};
ghost use Rattle.rp_scope.specs.Tables.{AreTablesOf};

use crate::block_layouts::lay_out_stmts;
use crate::layout::program_layout;
use crate::place::{Found, Place2};
use crate::scopes::Scopes;
use crate::table::Table;
use rp_base::{Memory, Name};
use rp_tree::Tree;
use std::alloc::Global;
use std::marker::Model;

/// The code blocks of a program by their numbers, the program itself being 0 (Python Language Reference, Naming and
/// binding).
pub struct Layouts {
    scopes: Scopes,
    /// By the numbers of blocks: what each finds for the names that stand in it.
    tables: Vec<Table>,
}

// By hand, so that crates that drop one do not prove again how its parts are dropped.
impl Drop for Layouts {
    fn drop(self) {
        let Layouts {
            scopes: _,
            tables: _,
        } = self;
    }
}

impl Model for Layouts {
    ghost use Rattle.std.specs.Prelude.{List};
    ghost use Rattle.rp_scope.specs.Scopes.{Scope};
    ghost use Rattle.rp_scope.specs.Tables.{AreTablesOf};

    ghost Value = { List Scope };

    ghost view = { λ x. x.scopes };

    ghost invariant = { λ x. AreTablesOf x.scopes x.tables.items };
}

/// The local names of each code block of a program, and where it finds a name. The code blocks have their numbers, as
/// `number` sets them. The local names of the program begin with `first`, each once.
///
/// It takes time by the size of the tree, and for each name that stands in a block by the number of blocks around.
///
/// # Errors
/// `Memory` where memory was refused.
pub fn resolve(alloc: Global, tree: &Tree, first: &[Name]) -> Result<Layouts, Memory>
    ensures scopes { IfOk result (λ layouts. layouts ≡ scopes first.now (view_tree tree.now)) }
    // The blocks are counted by a `usize`.
    ensures few { OnOk result (block_count (view_tree tree.now) + 1 < 2 ^ 64) }
    ensures by_number { IfOk result (λ layouts. HasNumbers (view_tree tree.now)
        → AreScopesOf layouts first.now (view_tree tree.now)) }
{
    let mut layouts = Scopes::new(alloc);
    layouts.add(alloc, program_layout(alloc, first, &tree.body)?)?;
    lay_out_stmts(alloc, &mut layouts, 0, &tree.body)?;
    let _blocks = layouts.len();
    with_tables(alloc, layouts)
}

/// The scopes, with the tables of their blocks.
fn with_tables(alloc: Global, mut scopes: Scopes) -> Result<Layouts, Memory>
    ensures { IfOk result (λ layouts. layouts ≡ scopes) }
{
    let tables = tables_of(alloc, &scopes)?;
    scopes.forget();
    Ok(Layouts { scopes, tables })
}

/// The tables of all blocks.
fn tables_of(alloc: Global, scopes: &Scopes) -> Result<Vec<Table>, Memory>
    ensures { IfOk result (λ tables. AreTablesOf scopes.now tables.items) }
{
    let mut tables = Vec::new(alloc);
    'blocks: for block in 0..scopes.len() {
        tables.push(Table::of_block(alloc, scopes, block)?)?;
    }
    Ok(tables)
}

impl Layouts {
    /// The number of code blocks, the program itself among them.
    pub fn len(&self) -> usize
        ensures { result ≡ length self.now }
    {
        self.scopes.len()
    }

    /// The local names of a code block in the order of first binding, parameters first; those of block 0 begin with the
    /// names that `resolve` was given.
    pub fn locals(&self, block: usize) -> &[Name]
        requires { block < length self.now }
        ensures { result.now ≡ locals_of self.now block }
    {
        self.scopes.locals(block)
    }

    /// The place of a name among the local names of the program; none where it is not among them.
    pub fn global(&self, name: Name) -> Option<usize>
        requires { 0 < length self.now }
        ensures { result ≡ position (same_name name) (locals_of self.now 0) }
    {
        match self.ahead(0, name) {
            Some(found) => found.global,
            None => self.scopes.global(name),
        }
    }

    /// Where a code block finds a name: among its own local names, among those of a block around it, or among the
    /// globals. A block that lists the name in a `global` statement sends it to the globals at once; what is found in
    /// block 0, or in no block, is global (Python Language Reference, Resolution of names).
    ///
    /// It takes the time of one look-up for a name that stands in the block, and by the number of blocks around for
    /// any other.
    #[inline(always)]
    pub fn place(&self, block: usize, name: Name) -> Place2
        requires { block < length self.now }
        ensures { result ≡ found_from self.now block name }
    {
        match self.ahead(block, name) {
            Some(found) => found.place,
            None => self.scopes.place(block, name),
        }
    }

    /// Where a code block finds a name, as `place` tells, and the place of the name among the local names of the
    /// program, as `global` does, by one look-up for a name that stands in the block.
    #[inline(always)]
    pub fn find(&self, block: usize, name: Name) -> Found
        requires { block < length self.now }
        ensures place { result.place ≡ found_from self.now block name }
        ensures global { result.global ≡ position (same_name name) (locals_of self.now 0) }
    {
        match self.ahead(block, name) {
            Some(found) => *found,
            None => self.scopes.find(block, name),
        }
    }

    /// What the block finds for a name, where its table has that.
    #[inline(always)]
    fn ahead(&self, block: usize, name: Name) -> Option<&Found>
        ensures { IfSome (option_copied result) (λ found. found ≡ found_of self.now block name) }
    {
        self.tables.get(block)?.get(name)
    }
}
