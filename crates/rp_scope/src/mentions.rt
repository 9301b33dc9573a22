//! What statements say of names.

ghost use Rattle.std.specs.Prelude.{◌≡◌, ◌∷◌, [], ◌++◌, map, OnOk};
ghost use Rattle.rp_tree.specs.ExpressionViews as views;
ghost use Rattle.rp_tree.specs.StatementViews as stmt_views;
ghost use Rattle.rp_scope.specs.Bindings as bindings;
ghost use Rattle.rp_scope.specs.Bindings.{all_bound, within};
ghost use Rattle.rp_scope.specs.declared.mentions.Mention.TheVariants.{Bound, Global};
ghost use Rattle.rp_scope.specs.MentionSteps.{listed};

use rp_base::{Memory, Name};
use rp_tree::{
    Branch, Clause, Except, Expr, Named, Params, Place, Stmt, StmtForm, Target, stmts_of,
};

/// What a statement says of a name.
#[derive(Clone, Copy, Debug)]
pub enum Mention<N = Name> {
    /// It is bound in the code block of the statement.
    Bound(N),
    /// A `global` statement of this block lists it.
    Global(N),
    /// A `global` statement of a function within lists it.
    GlobalWithin(N),
}

/// Which mentions of statements are listed.
#[derive(Clone, Copy, Debug)]
pub enum Listing {
    /// All, as the program's block is concerned.
    Program,
    /// What the statements say themselves, as a function is concerned.
    Function,
    /// What they say in a function or a class, as the program's block is concerned.
    Within,
}

fn push(list: &mut Vec<Mention>, mention: Mention) -> Result<(), Memory>
    ensures { OnOk result (list.new.items ≡ list.old.items ++ mention ∷ []) }
{
    list.push(mention)?;
    Ok(())
}

/// Lists that the name is bound.
fn note_bound(list: &mut Vec<Mention>, listing: Listing, name: Name) -> Result<(), Memory>
    ensures { OnOk result (list.new.items ≡ list.old.items ++ listed listing (Bound name ∷ [])) }
{
    match listing {
        Listing::Program => push(list, Mention::Bound(name)),
        Listing::Function => push(list, Mention::Bound(name)),
        Listing::Within => Ok(()),
    }
}

/// Lists that a `global` statement has the name.
fn note_global(list: &mut Vec<Mention>, listing: Listing, name: Name) -> Result<(), Memory>
    ensures { OnOk result (list.new.items ≡ list.old.items ++ listed listing (Global name ∷ [])) }
{
    match listing {
        Listing::Program => push(list, Mention::Global(name)),
        Listing::Function => push(list, Mention::Global(name)),
        Listing::Within => push(list, Mention::GlobalWithin(name)),
    }
}

fn note_option(
    list: &mut Vec<Mention>,
    listing: Listing,
    named: &Option<Named>,
) -> Result<(), Memory>
    ensures { OnOk result (list.new.items
        ≡ list.old.items ++ listed listing (all_bound (bindings.option_names named.now))) }
{
    match named {
        None => Ok(()),
        Some(named) => note_bound(list, listing, named.name),
    }
}

#[tactic(auto, using(crate::proofs::Listings::listings))]
fn note_place(list: &mut Vec<Mention>, listing: Listing, place: &Place) -> Result<(), Memory>
    ensures { OnOk result (list.new.items
        ≡ list.old.items ++ listed listing (all_bound (bindings.place_names (views.view_place place.now)))) }
{
    match place {
        Place::Name(named) => note_bound(list, listing, named.name),
        Place::Attr(_, _, _) => Ok(()),
        Place::Item(_, _, _) => Ok(()),
    }
}

#[tactic(auto, using(crate::proofs::Listings::listings))]
fn note_places(list: &mut Vec<Mention>, listing: Listing, places: &[Place]) -> Result<(), Memory>
    ensures { OnOk result (list.new.items
        ≡ list.old.items ++ listed listing (all_bound (bindings.places_names (map views.view_place places.now)))) }
{
    'places: for place in places {
        note_place(list, listing, place)?;
    }
    Ok(())
}

#[cycle(note_target)]
#[tactic(auto, using(crate::proofs::Listings::listings))]
fn note_target(list: &mut Vec<Mention>, listing: Listing, target: &Target) -> Result<(), Memory>
    ensures { OnOk result (list.new.items
        ≡ list.old.items ++ listed listing (all_bound (bindings.target_names (views.view_target target.now)))) }
{
    match target {
        Target::Place(place) => note_place(list, listing, place),
        Target::Group(targets) => note_targets(list, listing, targets),
    }
}

#[cycle(note_target)]
#[tactic(auto, using(crate::proofs::Listings::listings))]
fn note_targets(list: &mut Vec<Mention>, listing: Listing, targets: &[Target]) -> Result<(), Memory>
    ensures { OnOk result (list.new.items
        ≡ list.old.items
        ++ listed listing (all_bound (bindings.targets_names (views.targets_of (map views.view_target targets.now))))) }
{
    'targets: for target in targets {
        note_target(list, listing, target)?;
    }
    Ok(())
}

/// Lists the names that the clauses of a comprehension bind.
#[tactic(auto, using(crate::proofs::Listings::listings))]
pub fn note_clauses(
    list: &mut Vec<Mention>,
    listing: Listing,
    clauses: &[Clause],
) -> Result<(), Memory>
    ensures { OnOk result (list.new.items
        ≡ list.old.items
        ++ listed listing (all_bound (bindings.clauses_names (views.clauses_of (map views.view_clause clauses.now))))) }
{
    'clauses: for clause in clauses {
        note_target(list, listing, &clause.walk.target)?;
    }
    Ok(())
}

/// Lists the parameters.
#[tactic(auto, using(crate::proofs::Listings::listings))]
pub fn note_params(list: &mut Vec<Mention>, listing: Listing, params: &Params) -> Result<(), Memory>
    ensures { OnOk result (list.new.items
        ≡ list.old.items ++ listed listing (all_bound (bindings.params_names (views.view_params params.now)))) }
{
    note_plain(list, listing, &params.plain)?;
    note_option(list, listing, &params.list)?;
    note_option(list, listing, &params.dict)
}

#[tactic(auto, using(crate::proofs::Listings::listings))]
fn note_plain(
    list: &mut Vec<Mention>,
    listing: Listing,
    plain: &[(Named, Option<Expr>)],
) -> Result<(), Memory>
    ensures { OnOk result (list.new.items
        ≡ list.old.items
        ++ listed listing (all_bound (bindings.plain_names (views.plain_of (map views.view_plain plain.now))))) }
{
    'plain: for param in plain {
        note_bound(list, listing, param.0.name)?;
    }
    Ok(())
}

#[tactic(auto, using(crate::proofs::Listings::listings))]
fn note_globals(list: &mut Vec<Mention>, listing: Listing, names: &[Named]) -> Result<(), Memory>
    ensures { OnOk result (list.new.items ≡ list.old.items ++ listed listing (map (λ n. Global n.name) names.now)) }
{
    'names: for named in names {
        note_global(list, listing, named.name)?;
    }
    Ok(())
}

/// Lists what the statements say of names.
#[cycle(note_stmts)]
#[tactic(auto, using(crate::proofs::Listings::listings))]
pub fn note_stmts(list: &mut Vec<Mention>, listing: Listing, stmts: &[Stmt]) -> Result<(), Memory>
    ensures { OnOk result (list.new.items
        ≡ list.old.items ++ listed listing (bindings.stmts_mentions (stmt_views.view_stmts stmts.now))) }
{
    'stmts: for stmt in stmts {
        note_form(list, listing, &stmt.form)?;
    }
    Ok(())
}

#[cycle(note_stmts)]
#[tactic(auto, using(rp_tree::proofs::StatementEquations::variants, crate::proofs::Listings::listings))]
fn note_form(list: &mut Vec<Mention>, listing: Listing, form: &StmtForm) -> Result<(), Memory>
    ensures { OnOk result (list.new.items
        ≡ list.old.items ++ listed listing (bindings.form_mentions (stmt_views.view_stmt_form form.now))) }
{
    match form {
        StmtForm::Expr(_) => Ok(()),
        StmtForm::Assign(places, _) => note_places(list, listing, places),
        StmtForm::Unpack(target, _, _) => note_target(list, listing, target),
        StmtForm::Aug { place, .. } => note_place(list, listing, place),
        StmtForm::Del(places) => note_places(list, listing, places),
        StmtForm::Pass => Ok(()),
        StmtForm::Break => Ok(()),
        StmtForm::Continue => Ok(()),
        StmtForm::Return(_) => Ok(()),
        StmtForm::Raise(_) => Ok(()),
        StmtForm::Assert(_, _) => Ok(()),
        StmtForm::Global(names) => note_globals(list, listing, names),
        StmtForm::If(branches, other) => {
            note_branches(list, listing, branches)?;
            note_stmts(list, listing, stmts_of(other))
        }
        StmtForm::While(_, body) => note_stmts(list, listing, body),
        StmtForm::For(walk, body) => {
            note_target(list, listing, &walk.target)?;
            note_stmts(list, listing, body)
        }
        StmtForm::Try {
            body,
            handlers,
            other,
            last,
        } => {
            note_stmts(list, listing, body)?;
            note_handlers(list, listing, handlers)?;
            note_stmts(list, listing, stmts_of(other))?;
            note_stmts(list, listing, stmts_of(last))
        }
        StmtForm::Def(_, named, _, body) => {
            note_bound(list, listing, named.name)?;
            note_inner(list, listing, body)
        }
        StmtForm::Class(named, body) => {
            note_bound(list, listing, named.name)?;
            note_inner(list, listing, body)
        }
    }
}

/// Lists what statements within a function or a class say of names.
#[cycle(note_stmts)]
#[tactic(auto, using(crate::proofs::Listings::listings))]
fn note_inner(list: &mut Vec<Mention>, listing: Listing, stmts: &[Stmt]) -> Result<(), Memory>
    ensures { OnOk result (list.new.items
        ≡ list.old.items ++ listed listing (within (bindings.stmts_mentions (stmt_views.view_stmts stmts.now)))) }
{
    match listing {
        Listing::Program => note_stmts(list, Listing::Within, stmts),
        Listing::Function => Ok(()),
        Listing::Within => note_stmts(list, Listing::Within, stmts),
    }
}

#[cycle(note_stmts)]
#[tactic(auto, using(crate::proofs::Listings::listings))]
fn note_branches(
    list: &mut Vec<Mention>,
    listing: Listing,
    branches: &[Branch],
) -> Result<(), Memory>
    ensures { OnOk result (list.new.items
        ≡ list.old.items ++ listed listing
        (bindings.branches_mentions (stmt_views.branches_of (map stmt_views.view_branch branches.now)))) }
{
    'branches: for branch in branches {
        note_stmts(list, listing, &branch.body)?;
    }
    Ok(())
}

#[cycle(note_stmts)]
#[tactic(auto, using(crate::proofs::Listings::listings))]
fn note_handlers(
    list: &mut Vec<Mention>,
    listing: Listing,
    handlers: &[Except],
) -> Result<(), Memory>
    ensures { OnOk result (list.new.items
        ≡ list.old.items ++ listed listing
        (bindings.excepts_mentions (stmt_views.excepts_of (map stmt_views.view_except handlers.now)))) }
{
    'handlers: for handler in handlers {
        note_option(list, listing, &handler.name)?;
        note_stmts(list, listing, &handler.body)?;
    }
    Ok(())
}
