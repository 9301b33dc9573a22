//! Objects of trusted code.
#![tactic(auto, using(rp_store::proofs::CallerLemmas::goes_on))]

ghost use Rattle.std.specs.Prelude.{◌≡◌, IfOk};
ghost use Rattle.rp_meaning.specs.Load.{made_in, trusted};
ghost use Rattle.rp_store.specs.Kept.{Holds, IsSound};
ghost use Rattle.rp_store.specs.Object.{content_of};
ghost use Rattle.rp_store.specs.Parts.{IsScope};
ghost use Rattle.rp_store.specs.Shape.{KeepsShape};

use rp_base::{Memory, Side, Value};
use rp_store::{Object, Store};

/// Puts an object of trusted code last in the store, without a charge, and answers a reference to it.
pub fn place(store: &mut Store, object: Object) -> Result<Value, Memory>
    requires holds { Holds store.old.heap trusted (content_of object) }
    requires plain { ¬ (IsScope (content_of object)) }
    ensures placed { IfOk result (λ value. made_in (content_of object) store.old ≡ (value, store.new)) }
    ensures sound { IfOk result (IsSound store.new.heap) }
    ensures shape { KeepsShape store.old.heap store.new.heap }
{
    let at = store.add(Side(0), object)?;
    Ok(Value::Ref(at))
}
