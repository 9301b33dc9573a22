//! New lists, tuples and dicts.
#![tactic(auto, using(rp_store::proofs::CallerLemmas::goes_on))]

ghost use Rattle.std.specs.Prelude.{◌≡◌, ℕ, List, IfOk, OnErr};
ghost use Rattle.rp_store.specs.Counters.{KeepsCounters};
ghost use Rattle.rp_store.specs.Heap.{Owned};
ghost use Rattle.rp_store.specs.Kept.{AreSound, Holds, IsSound};
ghost use Rattle.rp_store.specs.Object.{content_of};
ghost use Rattle.rp_ops.specs.Binary.{new_object as makes_object};
ghost use Rattle.rp_ops.specs.Growth.{Gains};
ghost use Rattle.rp_ops.specs.Outcome.{Meets, state_of};
ghost use Rattle.rp_ops.specs.View.{sequence_of};
ghost use Rattle.rp_native.specs.Objects.{IsContainer, IsContainerOf};

use rp_base::{OpEnd, Side, Value};
use rp_ops::{Sequence, new_object};
use rp_store::{Object, Store};

/// A new list, tuple or dict of a side, for its cells.
///
/// # Errors
/// `StopCells` exactly where they are over the limit, `Memory` where a growth was refused. The store is then as before.
pub(crate) fn new_container(store: &mut Store, side: Side, object: Object) -> Result<Value, OpEnd>
    requires holds { Holds store.old.heap side (content_of object) }
    requires container { IsContainer (content_of object) }
    ensures plain { (steps : ℕ) → Meets result (state_of store.new steps)
        (makes_object side (content_of object) (state_of store.old steps)) }
    ensures sound { IfOk result (λ v. IsSound store.new.heap v) }
    ensures grown { Gains (IsContainerOf side) store.old.heap store.new.heap }
    ensures same { OnErr result (store.new ≡ store.old) }
    ensures counters { KeepsCounters store.old store.new }
{
    new_object(store, side, object)
}

/// A list or a tuple of these elements.
pub(crate) fn sequence(kind: Sequence, elements: Vec<Value>) -> Object
    ensures content { content_of result ≡ sequence_of kind elements.items }
    ensures holds { (heap : List Owned) (owner : Side) → AreSound heap elements.items
        → Holds heap owner (content_of result) }
    ensures container { IsContainer (content_of result) }
{
    match kind {
        Sequence::List => Object::List(elements),
        Sequence::Tuple => Object::Tuple(elements),
    }
}
