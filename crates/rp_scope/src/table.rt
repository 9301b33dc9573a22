//! What a code block finds for the names that stand in it, found ahead.

ghost use Rattle.std.specs.Prelude.{◌≡◌, ◌<◌, ℕ, List, IfOk, IfSome, IsTrue, option_copied, length};
ghost use Rattle.rp_scope.specs.Scopes.{Scope, found_of};
ghost use Rattle.rp_scope.specs.Tables.{AreCellsOf, IsTableOf};

use crate::place::Found;
use crate::scopes::Scopes;
use rp_base::{Memory, Name};
use std::alloc::Global;

/// A name that stands in a block, and what the block finds for it.
#[derive(Clone, Copy, Debug)]
pub struct Cell {
    pub name: Name,
    pub found: Found,
}

/// The names that stand in a block, each in a cell. A name has its cell among the few that begin at its number,
/// counted round the table; where these are full, it has none.
#[derive(Drop)]
pub struct Table {
    pub cells: Vec<Option<Cell>>,
}

/// How many cells a name may stand in.
const TRIES: usize = 8;

impl Table {
    /// The table of the block with this number, for the names that are noted there: at least two cells a name.
    ///
    /// # Errors
    /// `Memory` where memory was refused.
    pub fn of_block(alloc: Global, scopes: &Scopes, block: usize) -> Result<Table, Memory>
        requires { block < length scopes.now }
        ensures { IfOk result (IsTableOf scopes.now block) }
    {
        let names = scopes.noted(block);
        let mut cells = empty_cells(alloc, names.len())?;
        'names: for name in names {
            let found = scopes.find(block, *name);
            put(&mut cells, Cell { name: *name, found });
        }
        Ok(Table { cells })
    }

    /// What the block finds for a name; none where the name has no cell.
    #[inline(always)]
    pub fn get(&self, name: Name) -> Option<&Found>
        ensures { (scopes : List Scope) (block : ℕ) → IsTableOf scopes block self.now
            → IfSome (option_copied result) (λ found. found ≡ found_of scopes block name) }
    {
        'tries: for step in 0..TRIES {
            let Some(Some(cell)) = self.cells.get(place_of(&self.cells, name, step)) else {
                return None;
            };
            if cell.name == name {
                return Some(&cell.found);
            }
        }
        None
    }
}

/// The place of the cell that is so many cells behind the first one of a name. The number of cells is a power of two.
#[inline(always)]
fn place_of(cells: &[Option<Cell>], name: Name, step: usize) -> usize {
    name.0.wrapping_add(step) & cells.len().wrapping_sub(1)
}

/// Empty cells: two or more for each of so many names.
fn empty_cells(alloc: Global, names: usize) -> Result<Vec<Option<Cell>>, Memory>
    ensures { IfOk result (λ cells. (scopes : List Scope) (block : ℕ) → AreCellsOf scopes block cells.items) }
{
    let count = names.min(1 << 62).next_power_of_two();
    let cells = vec![in alloc; None; 2 * count]?;
    Ok(cells)
}

/// Puts a cell where one is empty.
fn put(cells: &mut [Option<Cell>], cell: Cell)
    ensures { (scopes : List Scope) (block : ℕ) → AreCellsOf scopes block cells.old
        → cell.found ≡ found_of scopes block cell.name → AreCellsOf scopes block cells.new }
{
    'tries: for step in 0..TRIES {
        let place = place_of(cells, cell.name, step);
        if is_empty(cells, place) {
            cells[place] = Some(cell);
            return;
        }
    }
}

/// Whether there is an empty cell at the place.
fn is_empty(cells: &[Option<Cell>], place: usize) -> bool
    ensures { IsTrue result → place < length cells.now }
{
    matches!(cells.get(place), Some(None))
}
