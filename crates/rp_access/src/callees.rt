//! What is called by an object.

ghost use Rattle.std.specs.Prelude.{IfOk};
ghost use Rattle.rp_store.specs.Heap.{Names};
ghost use Rattle.rp_store.specs.Kept.{IsSound};
ghost use Rattle.rp_store.specs.Parts.{IsInstance};
ghost use Rattle.rp_access.specs.Callees.{IsCalledAt, IsReceiverSound};

use crate::access::has_method;
use rp_base::word::CALL;
use rp_base::{Memory, NativeId, Oid, Side, Value};
use rp_store::{Callee, Object, Store};

/// What is called by an object.
#[derive(Drop)]
pub(crate) enum Called {
    /// A built-in method of a receiver, bound for an owner.
    Method(Side, Value, NativeId),
    /// A function of the store, a class, a bound function, or a special method of an instance.
    Other,
    /// It may not be called.
    Nothing,
}

/// What is called by the object at a place.
///
/// # Errors
/// `Memory` where a growth was refused.
pub(crate) fn called_at(store: &Store, at: Oid) -> Result<Called, Memory>
    requires { IsSound store.now.heap (Value.Ref at) }
    ensures called { IfOk result (IsCalledAt store.now.heap at) }
    ensures sound { IfOk result (IsReceiverSound store.now.heap) }
{
    match store.object(at) {
        Object::Method { receiver, callee } => match callee {
            Callee::Native(id) => Ok(Called::Method(store.owner(at), receiver.copy()?, *id)),
            Callee::Function(_) => Ok(Called::Other),
        },
        Object::Function { .. } | Object::Class { .. } => Ok(Called::Other),
        Object::Instance { .. } => Ok(instance_called(store, at)),
        Object::List(_) | Object::Tuple(_) | Object::Dict(_) | Object::Scope { .. } => {
            Ok(Called::Nothing)
        }
    }
}

/// What is called by the instance at a place.
fn instance_called(store: &Store, at: Oid) -> Called
    requires sound { IsSound store.now.heap (Value.Ref at) }
    requires instance { Names store.now.heap IsInstance at }
    ensures called { IsCalledAt store.now.heap at result }
    ensures sound { IsReceiverSound store.now.heap result }
{
    if has_method(store, &Value::Ref(at), CALL) {
        Called::Other
    } else {
        Called::Nothing
    }
}
