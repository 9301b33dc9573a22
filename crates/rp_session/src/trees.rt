//! The trees of the programs of a run, and the tables of their scopes.

ghost use Rattle.std.specs.Prelude.{◌≡◌, IfOk, map};
ghost use Rattle.std.specs.List.{AllZip};
ghost use Rattle.rp_session.specs.Programs.{IsResolved};

use rp_base::Memory;
use rp_compile::Compiled;
use rp_scope::Layouts;
use rp_tree::Tree;
use std::alloc::Global;

/// The trees of the programs of a run: that of the trusted module, and those of the scripts, with their guards. The
/// programs borrow them.
#[derive(Drop)]
pub struct Trees {
    pub module: Tree,
    pub scripts: Vec<Tree>,
}

/// The tables of the scopes of these programs. Each program takes its own.
#[derive(Drop)]
pub struct Tables {
    pub module: Layouts,
    pub scripts: Vec<Layouts>,
}

/// The trees of the programs of a run, and their tables.
#[derive(Drop)]
pub(crate) struct Parts {
    pub trees: Trees,
    pub tables: Tables,
}

/// The trees and the tables of a module, whose tree and table these are, and of some scripts, in order.
///
/// # Errors
/// `Memory` where a growth was refused.
pub(crate) fn parts_of(
    alloc: Global,
    tree: Tree,
    table: Layouts,
    scripts: Vec<Compiled>,
) -> Result<Parts, Memory>
    ensures tree { IfOk result (λ parts. parts.trees.module ≡ tree) }
    ensures table { IfOk result (λ parts. parts.tables.module ≡ table) }
    ensures scripts { IfOk result (λ parts. parts.trees.scripts.items
        ≡ map (λ script. script.rewritten) scripts.items) }
    ensures resolved { IfOk result (λ parts. AllZip IsResolved parts.trees.scripts.items
        parts.tables.scripts.items) }
{
    let mut trees = Vec::new(alloc);
    let mut tables = Vec::new(alloc);
    for script in scripts {
        let parts = script.into_parts();
        let (rewritten, layouts) = parts;
        trees.push(rewritten)?;
        tables.push(layouts)?;
    }
    Ok(Parts {
        trees: Trees {
            module: tree,
            scripts: trees,
        },
        tables: Tables {
            module: table,
            scripts: tables,
        },
    })
}
