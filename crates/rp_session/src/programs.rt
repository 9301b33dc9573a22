//! Programs of a module and of scripts.

ghost use Rattle.std.specs.Prelude.{◌≡◌, ◌<◌, ◌∷◌, IfOk, length, map};
ghost use Rattle.std.specs.List.{AllZip};
ghost use Rattle.std.specs.Vec.Iter.{into_iter_items, into_iter_len};
ghost use Rattle.rp_session.specs.Programs.{AreResolved, IsResolved, source_of};
ghost use Rattle.rp_session.specs.Ready.{AreLaidOut};
ghost use Rattle.rp_session.specs.Runs.{IsProgramOf};

use crate::trees::{Tables, Trees};
use rp_base::Memory;
use rp_engine::{Program, Units};
use rp_scope::Layouts;
use rp_tree::Tree;
use std::alloc::Global;
use std::vec::IntoIter;

/// The programs of a run of a trusted module and of some scripts, of which these are the trees and the tables.
///
/// # Errors
/// `Memory` where a growth was refused.
pub fn units_of<'t>(alloc: Global, trees: &'t Trees, tables: Tables) -> Result<Units<'t>, Memory>
    requires resolved { AreResolved trees.now tables }
    ensures tree { IfOk result (λ units. units.module.tree.now ≡ trees.now.module) }
    ensures table { IfOk result (λ units. units.module.layouts ≡ tables.module) }
    // It is the trees with guards that run.
    ensures runs { IfOk result (λ units. map (λ program. program.tree.now) units.scripts.items
        ≡ trees.now.scripts.items) }
    ensures scripts { IfOk result (λ units. AllZip IsProgramOf (map source_of trees.now.scripts.items)
        units.scripts.items) }
    ensures laid { IfOk result AreLaidOut }
{
    let Tables { module, scripts } = tables;
    let first = Program::of_tree(alloc, &trees.module, module)?;
    let programs = script_programs(alloc, trees.scripts.as_slice(), scripts)?;
    Ok(Units {
        module: first,
        scripts: programs,
    })
}

/// The programs of scripts, in order.
fn script_programs<'t>(
    alloc: Global,
    trees: &'t [Tree],
    tables: Vec<Layouts>,
) -> Result<Vec<Program<'t>>, Memory>
    requires resolved { AllZip IsResolved trees.now tables.items }
    ensures runs { IfOk result (λ programs. map (λ program. program.tree.now) programs.items ≡ trees.now) }
    ensures scripts { IfOk result (λ programs. AllZip IsProgramOf (map source_of trees.now) programs.items) }
{
    let mut programs = Vec::new(alloc);
    let mut tables = tables.into_iter();
    for tree in trees {
        let table = next_table(&mut tables);
        let program = Program::of_tree(alloc, tree, table)?;
        programs.push(program)?;
    }
    Ok(programs)
}

/// The next of some tables.
fn next_table(tables: &mut IntoIter<Layouts, Global>) -> Layouts
    requires some { 0 < length (into_iter_items tables.old) }
    requires whole { into_iter_len tables.old ≡ length (into_iter_items tables.old) }
    ensures taken { into_iter_items tables.old ≡ result ∷ into_iter_items tables.new }
    ensures left { into_iter_len tables.new ≡ length (into_iter_items tables.new) }
{
    match tables.next() {
        Some(table) => table,
        None => unreachable!(),
    }
}
