//! The objects that displays make.
#![tactic(auto, using(rp_store::proofs::CallerLemmas::goes_on))]

ghost use Rattle.std.specs.Prelude.{◌≤◌, IfOk};
ghost use Rattle.rp_ops.specs.Outcome.{Answers};
ghost use Rattle.rp_proxy.specs.Faithful.{IsFaithful};
ghost use Rattle.rp_store.specs.Kept.{AreFit, IsFit};
ghost use Rattle.rp_store.specs.Shape.{KeepsShape};
ghost use Rattle.rp_access.specs.Comes.{Comes};
ghost use Rattle.rp_engine.specs.DisplaySteps.{content_found, display, displayed, makes_display};
ghost use Rattle.rp_access.specs.Moment.{state_of};

use rp_access::entries_of;
use rp_base::{OpEnd, Seed, Side, Value};
use rp_frame::Display;
use rp_ops::new_object;
use rp_proxy::World;
use rp_store::Object;
use std::alloc::Global;

/// The new object of a display, of a side (Python Language Reference, Displays for lists, sets and dictionaries); of a
/// dict the elements are keys, each with the value behind it.
///
/// # Errors
/// - `Raised` with `TypeError` and the text `key`, where a value can be no key.
/// - `StopCells` where its cells are over the limit, `Memory` where a growth was refused.
#[inline(always)]
pub fn new_display(
    alloc: Global,
    world: &mut World,
    side: Side,
    kind: Display,
    elements: Vec<Value>,
) -> Result<Value, OpEnd>
    requires faithful { IsFaithful world.old }
    requires fit { AreFit world.old.store.heap side elements.items }
    ensures law { Comes result (state_of world.new)
        (makes_display side kind elements.items (state_of world.old)) }
    ensures faithful { IsFaithful world.new }
    ensures shape { KeepsShape world.old.store.heap world.new.store.heap }
    ensures fit { IfOk result (IsFit world.new.store.heap side) }
    ensures fewer { world.new.running.meter.left ≤ world.old.running.meter.left }
{
    let object = object_of(alloc, world.store.seed(), kind, elements)?;
    new_object(&mut world.store, side, object)
}

/// The object of a display.
fn object_of(
    alloc: Global,
    seed: Seed,
    kind: Display,
    elements: Vec<Value>,
) -> Result<Object, OpEnd>
    ensures { Answers (content_found result) (displayed kind elements.items) }
{
    match kind {
        Display::List => Ok(Object::List(elements)),
        Display::Tuple => Ok(Object::Tuple(elements)),
        Display::Dict => {
            let entries = entries_of(alloc, seed, &elements)?;
            Ok(Object::Dict(entries))
        }
    }
}
