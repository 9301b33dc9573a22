//! The names of one code block.

ghost use Rattle.std.specs.Prelude.{◌≡◌, ◌∷◌, [], ◌++◌, map, not, IfOk, OnOk};
ghost use Rattle.std.specs.List.{filter, filter_map, list_any};
ghost use Rattle.indexmap.specs.IndexSet.{insert_key, insert_all};
ghost use Rattle.rp_tree.specs.ExpressionViews as views;
ghost use Rattle.rp_tree.specs.StatementViews as stmt_views;
ghost use Rattle.rp_scope.specs.Bindings.{bound_name, global_name, mentioned_name};
ghost use Rattle.rp_scope.specs.Bindings.{function_block, lambda_block, comprehension_block};
ghost use Rattle.rp_scope.specs.MentionSteps.{block_of, unlisted};
ghost use Rattle.rp_scope.specs.Places.{place_at};
ghost use Rattle.rp_scope.specs.Scopes.{same_name, scope_in, program_scope, scope_place};

use crate::mentions::{Listing, Mention, note_clauses, note_params, note_stmts};
use crate::place::Place2;
use indexmap::IndexSet;
use rp_base::{Memory, Name};
use rp_tree::{Clause, Params, Stmt};
use std::alloc::Global;
use std::marker::Model;

/// A code block: its local names, those that its `global` statements list, and the number of the block around it.
#[derive(Drop)]
pub struct Layout {
    /// Its local names, parameters first, in the order of first binding.
    pub locals: IndexSet<Name>,
    /// The names that its `global` statements list.
    pub globals: IndexSet<Name>,
    /// The number of the block around it.
    pub around: usize,
}

impl Model for Layout {
    ghost use Rattle.rp_scope.specs.Scopes.{Scope};

    ghost Value = { Scope };

    ghost view = { λ x. record { locals = x.locals.keys; globals = x.globals.keys; around = x.around } };
}

impl Layout {
    /// Where the name is found from a block that is so many blocks inwards; none where the blocks around have it.
    pub fn place(&self, outwards: usize, name: Name) -> Option<Place2>
        ensures { result ≡ scope_place self.now outwards name }
    {
        if self.globals.contains(&name) {
            return Some(Place2::Global);
        }
        let slot = self.locals.get_index_of(&name)?;
        Some(slot_place(outwards, slot))
    }
}

/// The place of a local name of the block that is so many blocks outwards.
fn slot_place(outwards: usize, slot: usize) -> Place2
    ensures { result ≡ place_at outwards slot }
{
    if outwards == 0 {
        Place2::Local(slot)
    } else {
        Place2::Outer(outwards, slot)
    }
}

/// Adds a name behind the others, where it is new.
pub fn add(names: &mut IndexSet<Name>, name: Name) -> Result<(), Memory>
    ensures { OnOk result (names.new.keys ≡ insert_key same_name names.old.keys name) }
{
    names.insert(name)?;
    Ok(())
}

fn add_all(names: &mut IndexSet<Name>, more: &[Name]) -> Result<(), Memory>
    ensures { OnOk result (names.new.keys ≡ insert_all same_name names.old.keys more.now) }
{
    'names: for name in more {
        add(names, *name)?;
    }
    Ok(())
}

fn add_mentioned(names: &mut IndexSet<Name>, mention: &Mention) -> Result<(), Memory>
    ensures { OnOk result (names.new.keys ≡ insert_key same_name names.old.keys (mentioned_name mention.now)) }
{
    match mention {
        Mention::Bound(name) => add(names, *name),
        Mention::Global(name) => add(names, *name),
        Mention::GlobalWithin(name) => add(names, *name),
    }
}

fn add_all_mentioned(names: &mut IndexSet<Name>, mentions: &[Mention]) -> Result<(), Memory>
    ensures { OnOk result (names.new.keys ≡ insert_all same_name names.old.keys (map mentioned_name mentions.now)) }
{
    'mentions: for mention in mentions {
        add_mentioned(names, mention)?;
    }
    Ok(())
}

fn add_global(names: &mut IndexSet<Name>, mention: &Mention) -> Result<(), Memory>
    ensures { OnOk result (names.new.keys
        ≡ insert_all same_name names.old.keys (filter_map global_name (mention.now ∷ []))) }
{
    match mention {
        Mention::Bound(_) => Ok(()),
        Mention::Global(name) => add(names, *name),
        Mention::GlobalWithin(_) => Ok(()),
    }
}

#[tactic(auto, using(crate::proofs::Sets::runs))]
fn add_globals(names: &mut IndexSet<Name>, mentions: &[Mention]) -> Result<(), Memory>
    ensures { OnOk result (names.new.keys ≡ insert_all same_name names.old.keys (filter_map global_name mentions.now)) }
{
    'mentions: for mention in mentions {
        add_global(names, mention)?;
    }
    Ok(())
}

fn add_unlisted(
    names: &mut IndexSet<Name>,
    globals: &IndexSet<Name>,
    name: Name,
) -> Result<(), Memory>
    ensures { OnOk result (names.new.keys
        ≡ insert_all same_name names.old.keys
        (unlisted same_name globals.now.keys (name ∷ []))) }
{
    if globals.contains(&name) {
        return Ok(());
    }
    add(names, name)
}

fn add_local(
    names: &mut IndexSet<Name>,
    globals: &IndexSet<Name>,
    mention: &Mention,
) -> Result<(), Memory>
    ensures { OnOk result (names.new.keys
        ≡ insert_all same_name names.old.keys
        (unlisted same_name globals.now.keys (filter_map bound_name (mention.now ∷ [])))) }
{
    match mention {
        Mention::Bound(name) => add_unlisted(names, globals, *name),
        Mention::Global(_) => Ok(()),
        Mention::GlobalWithin(_) => Ok(()),
    }
}

#[tactic(auto, using(crate::proofs::Sets::runs))]
fn add_locals(
    names: &mut IndexSet<Name>,
    globals: &IndexSet<Name>,
    mentions: &[Mention],
) -> Result<(), Memory>
    ensures { OnOk result (names.new.keys
        ≡ insert_all same_name names.old.keys
        (unlisted same_name globals.now.keys (filter_map bound_name mentions.now))) }
{
    'mentions: for mention in mentions {
        add_local(names, globals, mention)?;
    }
    Ok(())
}

/// The block of which these are the mentions, in the block with the number `around`.
fn layout_of(alloc: Global, mentions: &[Mention], around: usize) -> Result<Layout, Memory>
    ensures { IfOk result (λ made. made ≡ scope_in around (block_of mentions.now)) }
{
    let mut globals = IndexSet::new(alloc);
    add_globals(&mut globals, mentions)?;
    let mut locals = IndexSet::new(alloc);
    add_locals(&mut locals, &globals, mentions)?;
    Ok(Layout {
        locals,
        globals,
        around,
    })
}

/// A function in the block with the number `around`.
pub fn function_layout(
    alloc: Global,
    params: &Params,
    body: &[Stmt],
    around: usize,
) -> Result<Layout, Memory>
    ensures { IfOk result (λ made. made
        ≡ scope_in around (function_block (views.view_params params.now) (stmt_views.view_stmts body.now))) }
{
    let mut mentions = Vec::new(alloc);
    note_params(&mut mentions, Listing::Function, params)?;
    note_stmts(&mut mentions, Listing::Function, body)?;
    layout_of(alloc, &mentions, around)
}

/// A lambda in the block with the number `around`.
pub fn lambda_layout(alloc: Global, params: &Params, around: usize) -> Result<Layout, Memory>
    ensures { IfOk result (λ made. made ≡ scope_in around (lambda_block (views.view_params params.now))) }
{
    let mut mentions = Vec::new(alloc);
    note_params(&mut mentions, Listing::Function, params)?;
    layout_of(alloc, &mentions, around)
}

/// A comprehension in the block with the number `around`.
pub fn comprehension_layout(
    alloc: Global,
    clauses: &[Clause],
    around: usize,
) -> Result<Layout, Memory>
    ensures { IfOk result (λ made. made
        ≡ scope_in around (comprehension_block (views.clauses_of (map views.view_clause clauses.now)))) }
{
    let mut mentions = Vec::new(alloc);
    note_clauses(&mut mentions, Listing::Function, clauses)?;
    layout_of(alloc, &mentions, around)
}

/// The program, which binds `first` before all else.
pub fn program_layout(alloc: Global, first: &[Name], body: &[Stmt]) -> Result<Layout, Memory>
    ensures { IfOk result (λ made. made ≡ program_scope first.now (stmt_views.view_stmts body.now)) }
{
    let mut mentions = Vec::new(alloc);
    note_stmts(&mut mentions, Listing::Program, body)?;
    let mut locals = IndexSet::new(alloc);
    add_all(&mut locals, first)?;
    add_all_mentioned(&mut locals, &mentions)?;
    Ok(Layout {
        locals,
        globals: IndexSet::new(alloc),
        around: 0,
    })
}
