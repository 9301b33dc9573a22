//! What stands in the store before the module runs.

ghost use Rattle.std.specs.Prelude.{◌≡◌, [], All, IfOk, OnOk, length};
ghost use Rattle.rp_world.specs.PlacingSteps.{IsDeclared, TellsPlaces, declared_placed, filled};

use crate::class_places::ClassPlaces;
use crate::exposing::{fill_slots, place_exposing, place_globals};
use crate::objects::{place_classes, place_objects};
use rp_base::{Memory, Oid};
use rp_decl::Decl;
use rp_store::Store;
use std::alloc::Global;

/// Puts all that there is before the module runs into an empty store: the scope of the exposed names, the declared
/// classes, whose places are told, and objects, and the module's global scope of so many names. Answers the place of
/// the last.
pub fn fill(
    alloc: Global,
    decl: &Decl,
    places: &ClassPlaces,
    locals: usize,
    store: &mut Store,
) -> Result<Oid, Memory>
    requires tells { TellsPlaces decl.now.classes places.now }
    requires declared { All (λ o. IsDeclared decl.now.classes o.class) decl.now.objects }
    requires empty { store.old.heap ≡ [] }
    ensures filled { OnOk result (store.new ≡ filled decl.now locals store.old) }
    ensures place { IfOk result (λ at. at.0 ≡ length (declared_placed decl.now store.old).1.heap) }
{
    let mut slots = Vec::new(alloc);
    place_exposing(alloc, decl.expose(), store)?;
    place_classes(alloc, decl.classes(), &mut slots, store)?;
    place_objects(alloc, decl, places, &mut slots, store)?;
    fill_slots(&mut slots, locals)?;
    place_globals(slots, store)
}
