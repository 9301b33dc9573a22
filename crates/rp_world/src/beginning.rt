//! The world in which the module of declarations begins.

ghost use Rattle.std.specs.Prelude.{◌≡◌, ◌<◌, ℕ, [], IfOk, List, length};
ghost use Rattle.rp_base.specs.Names.{first_words};
ghost use Rattle.rp_decl.specs.Consistency.{IsConsistent};
ghost use Rattle.rp_decl.specs.InOrder.{AreInOrder};
ghost use Rattle.rp_decl.specs.Places.{GrowsTo, IsHeldBy};
ghost use Rattle.rp_decl.specs.View.{declarations_view};
ghost use Rattle.rp_interact.specs.Answers.{AnswersAs};
ghost use Rattle.rp_meaning.specs.Load.{trusted};
ghost use Rattle.rp_proxy.specs.Faithful.{IsFaithful};
ghost use Rattle.rp_store.specs.Kept.{IsScopeOf};
ghost use Rattle.rp_world.specs.Worlds.{Begins, HasExposed};

use crate::class_places::ClassPlaces;
use crate::filling::fill;
use rp_base::{Memory, Meter, Names, Oid, Printed};
use rp_decl::Decl;
use rp_interact::{Interaction, WhoFault};
use rp_proxy::{Running, World};
use std::alloc::Global;

/// As many steps, and as many cells, as the text of a module may use.
const MODULE_LIMIT: u64 = 1_000_000;

/// A world in which the module of its declarations is to run, and the place of the module's global scope.
#[derive(Drop)]
pub struct Begun {
    pub world: World,
    pub globals: Oid,
}

/// The world in which the module of declarations begins that were read into the names. In it the declared classes and
/// objects stand, with the lists and dicts in their fields, the scope of the exposed names, which have no values yet,
/// and the global scope of the module. The module's program has so many global names, of which those of the classes and
/// objects are the first. Nothing of that costs cells. Nobody runs the module; it has steps and cells of its own.
///
/// # Errors
/// `Memory` where a growth was refused.
pub fn begin(alloc: Global, decl: Decl, names: Names, locals: usize) -> Result<Begun, Memory>
    requires first { GrowsTo first_words names }
    requires held { IsHeldBy names decl }
    requires consistent { IsConsistent (declarations_view names decl) }
    requires ordered { AreInOrder (declarations_view names decl) }
    ensures begins { IfOk result (Begins names decl locals) }
    ensures faithful { IfOk result (λ b. IsFaithful b.world) }
    ensures exposed { IfOk result (λ b. HasExposed (length decl.expose) b.world.store.heap) }
    ensures scope { IfOk result (λ b. IsScopeOf b.world.store.heap trusted b.globals) }
    ensures behind { IfOk result (λ b. 0 < b.globals.0) }
{
    let places = ClassPlaces::new(alloc, names.seed(), decl.classes())?;
    let interaction = nobody(alloc, &decl)?;
    let printed = Printed::new(alloc);
    let running = Running {
        session: 0,
        interaction,
        meter: Meter { left: MODULE_LIMIT },
        printed,
    };
    let mut world = World::new(alloc, decl, names, MODULE_LIMIT, running)?;
    let globals = fill(alloc, &world.decl, &places, locals, &mut world.store)?;
    Ok(Begun { world, globals })
}

/// The interaction of no principals.
fn nobody(alloc: Global, decl: &Decl) -> Result<Interaction, Memory>
    ensures ids { IfOk result (λ i. i.ids ≡ []) }
    ensures answers { IfOk result (λ i. (names : List (List ℕ)) → AreInOrder (declarations_view names decl.now)
        → AnswersAs names decl.now i) }
{
    match Interaction::new(alloc, decl, &[]) {
        Ok(nobody) => Ok(nobody),
        Err(WhoFault::Memory) => Err(Memory),
        Err(WhoFault::Unknown(_)) => unreachable!(),
    }
}
