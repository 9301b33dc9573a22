//! The values of the exposed names, once the module has run.
#![tactic(auto, using(rp_store::proofs::CallerLemmas::goes_on))]

ghost use Rattle.std.specs.Prelude.{◌≡◌, ◌≢◌, ◌<◌, Err, IfErr, IfOk, IfSome, Ok, OnOk, Some, length, map, option_map};
ghost use Rattle.std.specs.Option.{is_some};
ghost use Rattle.rp_decl.specs.Order.{least, lesser_of};
ghost use Rattle.rp_decl.specs.Places.{IsHeld, IsHeldBy};
ghost use Rattle.rp_decl.specs.View.{name_text};
ghost use Rattle.rp_meaning.specs.Load.{not_bound, trusted, unbound};
ghost use Rattle.rp_proxy.specs.Faithful.{IsFaithful};
ghost use Rattle.rp_scope.specs.Scopes.{locals_of};
ghost use Rattle.rp_store.specs.Heap.{IsHeld as IsPlaced, owner_at};
ghost use Rattle.rp_store.specs.Kept.{IsFit, IsScopeOf};
ghost use Rattle.rp_world.specs.PlacingSteps.{exposed_in, global_value};
ghost use Rattle.rp_world.specs.Worlds.{ComesTo, HasExposed, Refuses, world_view};

use crate::refusal::NoWorld;
use rp_base::{Memory, Name, Names, Oid, Text, Value};
use rp_decl::Decl;
use rp_proxy::World;
use rp_scope::Layouts;
use rp_store::Store;
use rp_trail::Trail;
use std::alloc::Global;
use std::cmp::Ordering;

/// The place of the scope of the exposed names.
const EXPOSED: Oid = Oid(0);

/// The world before the first session, where a module has run in this one whose global scope is at a place. Each
/// exposed name has the value that it has among the globals of the module, whose layout is given. Cells are counted
/// anew, of which so many may be used from then on, and nothing is logged.
///
/// # Errors
/// `Unbound` with the least exposed name in byte order that has no value there. `Memory` where a growth was refused.
pub fn expose(
    alloc: Global,
    world: World,
    layouts: &Layouts,
    globals: Oid,
    cells: u64,
) -> Result<World, NoWorld>
    requires faithful { IsFaithful world }
    requires exposing { HasExposed (length world.decl.expose) world.store.heap }
    requires scope { IsScopeOf world.store.heap trusted globals }
    requires behind { 0 < globals.0 }
    requires block { 0 < length layouts.now }
    ensures comes { IfOk result (λ w. ComesTo (locals_of layouts.now 0) globals cells world (Ok (world_view w))) }
    ensures refused { IfErr result (λ e. Refuses e (ComesTo (locals_of layouts.now 0) globals cells world)) }
    ensures counted { IfErr result (λ e. e ≢ NoWorld.TooLong) }
    ensures faithful { IfOk result IsFaithful }
    ensures exposed { IfOk result (λ w. HasExposed (length w.decl.expose) w.store.heap) }
    ensures names { IfOk result (λ w. w.names ≡ world.names) }
    ensures decl { IfOk result (λ w. w.decl ≡ world.decl) }
    ensures limit { IfOk result (λ w. w.store.limit ≡ cells) }
{
    let mut world = world;
    if let Some(name) = least_unbound(&world.decl, &world.names, layouts, globals, &world.store) {
        return Err(unbound(alloc, &world.names, name));
    }
    bind_exposed(&world.decl, layouts, globals, &mut world.store)?;
    world.store.restart(cells);
    let log = Trail::new(alloc);
    world.trail = log;
    Ok(world)
}

/// Why there is no world where a name has no value.
fn unbound(alloc: Global, names: &Names, name: Name) -> NoWorld
    requires { IsHeld names.now name }
    ensures refuses { Refuses result (λ r. r ≡ Err (not_bound (name_text names.now name))) }
    ensures counted { result ≢ NoWorld.TooLong }
{
    match Text::new(alloc, names.text(name)) {
        Ok(word) => NoWorld::Unbound(word),
        Err(Memory) => NoWorld::Memory,
    }
}

/// The least exposed name in byte order that has no value among the globals.
fn least_unbound(
    decl: &Decl,
    names: &Names,
    layouts: &Layouts,
    globals: Oid,
    store: &Store,
) -> Option<Name>
    requires names { IsHeldBy names.now decl.now }
    requires held { IsPlaced store.now.heap globals }
    requires block { 0 < length layouts.now }
    ensures least { option_map (name_text names.now) result
        ≡ least (unbound (map (name_text names.now) decl.now.expose)
        (map (global_value (locals_of layouts.now 0) globals store.now.heap) decl.now.expose)) }
    ensures held { IfSome result (IsHeld names.now) }
{
    let mut least = None;
    for name in decl.expose() {
        if !is_bound(layouts, globals, *name, store) {
            least = Some(lesser(names, least, *name));
        }
    }
    least
}

/// The lesser in byte order of a name and one that may be missing.
fn lesser(names: &Names, least: Option<Name>, name: Name) -> Name
    requires least_held { IfSome least (IsHeld names.now) }
    requires name_held { IsHeld names.now name }
    ensures lesser { Some (name_text names.now result)
        ≡ lesser_of (option_map (name_text names.now) least) (Some (name_text names.now name)) }
    ensures held { IsHeld names.now result }
{
    let Some(least) = least else {
        return name;
    };
    match names.text(least).cmp(names.text(name)) {
        Ordering::Greater => name,
        _ => least,
    }
}

/// Whether a name has a value among the globals.
fn is_bound(layouts: &Layouts, globals: Oid, name: Name, store: &Store) -> bool
    requires held { IsPlaced store.now.heap globals }
    requires block { 0 < length layouts.now }
    ensures { result ≡ is_some (global_value (locals_of layouts.now 0) globals store.now.heap name) }
{
    match layouts.global(name) {
        Some(place) => store.slot(globals, place).is_some(),
        None => false,
    }
}

/// Gives each exposed name the value that it has among the globals.
fn bind_exposed(
    decl: &Decl,
    layouts: &Layouts,
    globals: Oid,
    store: &mut Store,
) -> Result<(), Memory>
    requires behind { 0 < globals.0 }
    requires owner { owner_at store.old.heap globals ≡ Some trusted }
    requires block { 0 < length layouts.now }
    requires exposing { HasExposed (length decl.now.expose) store.old.heap }
    ensures { OnOk result (store.new ≡ exposed_in decl.now.expose (locals_of layouts.now 0) globals store.old) }
{
    for (index, name) in decl.expose().iter().enumerate() {
        let value = global_value(layouts, globals, *name, store)?;
        store.set_slot(EXPOSED, index, value);
    }
    Ok(())
}

/// The value that a name has among the globals, if it has one.
fn global_value(
    layouts: &Layouts,
    globals: Oid,
    name: Name,
    store: &Store,
) -> Result<Option<Value>, Memory>
    requires held { IsPlaced store.now.heap globals }
    requires owner { owner_at store.now.heap globals ≡ Some trusted }
    requires block { 0 < length layouts.now }
    ensures value { IfOk result (λ value. value ≡ global_value (locals_of layouts.now 0) globals store.now.heap name) }
    ensures fit { IfOk result (λ value. IfSome value (IsFit store.now.heap trusted)) }
{
    let Some(place) = layouts.global(name) else {
        return Ok(None);
    };
    match store.slot(globals, place) {
        Some(value) => Ok(Some(value.copy()?)),
        None => Ok(None),
    }
}
