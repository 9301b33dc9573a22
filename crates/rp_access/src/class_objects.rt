//! Classes that are made (Python Language Reference, Class definitions).
#![tactic(auto, using(rp_store::proofs::CallerLemmas::goes_on))]

ghost use Rattle.std.specs.Prelude.{◌≤◌, ◌≡◌, ℕ, All, IfOk, OnErr, OnOk, false};
ghost use Rattle.rp_meaning.specs.State.{makes};
ghost use Rattle.rp_ops.specs.Outcome.{Meets};
ghost use Rattle.rp_ops.specs.Outcome as plain;
ghost use Rattle.rp_proxy.specs.Faithful.{IsFaithful};
ghost use Rattle.rp_store.specs.Heap.{IsHeld, Names};
ghost use Rattle.rp_store.specs.Kept.{Holds, IsFit};
ghost use Rattle.rp_store.specs.Object.{class, content_of};
ghost use Rattle.rp_store.specs.Parts.{IsClass, IsFunction};
ghost use Rattle.rp_store.specs.Shape.{KeepsShape};
ghost use Rattle.rp_store.specs.Store.{made};
ghost use Rattle.rp_access.specs.ClassObjects.{renewed, renewed_plainly};
ghost use Rattle.rp_access.specs.Comes.{Comes};
ghost use Rattle.rp_access.specs.Moment.{state_of};

use rp_base::{Name, Oid, OpEnd, Side, Value};
use rp_dict::Dict;
use rp_ops::charge;
use rp_proxy::World;
use rp_store::{Object, Store};

/// Makes a class of a side with these methods, for its cells.
///
/// # Errors
/// `StopCells` where they are over the limit, `Memory` where a growth was refused.
pub fn new_class(
    world: &mut World,
    side: Side,
    name: Name,
    methods: Dict<Name, Oid>,
) -> Result<Oid, OpEnd>
    requires faithful { IsFaithful world.old }
    requires methods { All (λ m. Names world.old.store.heap IsFunction m.1) methods }
    ensures law { Comes result (state_of world.new) (makes side (class name false methods) (state_of world.old)) }
    ensures faithful { IsFaithful world.new }
    ensures shape { KeepsShape world.old.store.heap world.new.store.heap }
    ensures fit { IfOk result (λ at. IsFit world.new.store.heap side (Value.Ref at)) }
    ensures fewer { world.new.running.meter.left ≤ world.old.running.meter.left }
{
    let class = Object::Class {
        name,
        declared: false,
        methods,
    };
    make_class(&mut world.store, side, class)
}

fn make_class(store: &mut Store, side: Side, object: Object) -> Result<Oid, OpEnd>
    requires holds { Holds store.old.heap side (content_of object) }
    requires class { IsClass (content_of object) }
    ensures plain { (steps : ℕ) → Meets result (plain.state_of store.new steps)
        (plain.makes side (content_of object) (plain.state_of store.old steps)) }
    ensures made { OnOk result (store.new ≡ made store.old side (content_of object)) }
    ensures same { OnErr result (store.new ≡ store.old) }
    ensures shape { KeepsShape store.old.heap store.new.heap }
    ensures fit { IfOk result (λ at. IsFit store.new.heap side (Value.Ref at)) }
{
    Ok(store.make(side, object)?)
}

/// Gives the class at a place these methods in place of those that it had, for a cell each.
///
/// # Errors
/// `StopCells` where they are over the limit.
pub fn renew_class(world: &mut World, at: Oid, methods: Dict<Name, Oid>) -> Result<Oid, OpEnd>
    requires faithful { IsFaithful world.old }
    requires held { IsHeld world.old.store.heap at }
    requires class { Names world.old.store.heap IsClass at }
    requires methods { All (λ m. Names world.old.store.heap IsFunction m.1) methods }
    ensures law { Comes result (state_of world.new) (renewed at methods (state_of world.old)) }
    ensures place { IfOk result (λ same. same ≡ at) }
    ensures faithful { IsFaithful world.new }
    ensures shape { KeepsShape world.old.store.heap world.new.store.heap }
    ensures fewer { world.new.running.meter.left ≤ world.old.running.meter.left }
{
    put_methods(&mut world.store, at, methods)
}

fn put_methods(store: &mut Store, at: Oid, methods: Dict<Name, Oid>) -> Result<Oid, OpEnd>
    requires held { IsHeld store.old.heap at }
    requires class { Names store.old.heap IsClass at }
    requires methods { All (λ m. Names store.old.heap IsFunction m.1) methods }
    ensures plain { (steps : ℕ) → Meets result (plain.state_of store.new steps)
        (renewed_plainly at methods (plain.state_of store.old steps)) }
    ensures place { IfOk result (λ same. same ≡ at) }
    ensures same { OnErr result (store.new ≡ store.old) }
    ensures shape { KeepsShape store.old.heap store.new.heap }
{
    charge(store, methods.len() as u64)?;
    store.set_methods(at, methods);
    Ok(at)
}
