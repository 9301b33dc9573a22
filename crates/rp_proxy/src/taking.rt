//! Values as code of a side gets them.

ghost use Rattle.std.specs.Prelude.{◌≡◌};
ghost use Rattle.rp_store.specs.Heap.{IsHeld};
ghost use Rattle.rp_store.specs.Kept.{IsSafe};
ghost use Rattle.rp_proxy.specs.Held.{IsValueHeld};
ghost use Rattle.rp_proxy.specs.Taken.{bare, owns, reference_for, taken};

use rp_base::{Oid, Side, Value};
use rp_store::Store;

/// The value as code of a side gets it (zope.security: proxies). Trusted code, side 0, gets it as it is. A script gets
/// a rock as it is, a reference to an object of its own plainly, and a proxy of an object of another side; a proxy is
/// not proxied again.
pub fn take(store: &Store, value: Value, side: Side) -> Value
    requires { IsValueHeld store.now.heap value }
    ensures value { result ≡ taken store.now.heap side value }
    ensures safe { IsSafe store.now.heap side result }
    ensures bare { bare result ≡ bare value }
{
    if side.0 == 0 {
        return value;
    }
    match value {
        Value::Rock(rock) => Value::Rock(rock),
        Value::Ref(at) => reference_for(store, side, at),
        Value::Prox(at) => reference_for(store, side, at),
    }
}

/// A plain reference to an object that the side owns, and a proxy of another.
fn reference_for(store: &Store, side: Side, at: Oid) -> Value
    requires { IsHeld store.now.heap at }
    ensures value { result ≡ reference_for store.now.heap side at }
    ensures safe { IsSafe store.now.heap side result }
    ensures bare { bare result ≡ Value.Ref at }
{
    if store.owner(at) == side {
        Value::Ref(at)
    } else {
        Value::Prox(at)
    }
}
