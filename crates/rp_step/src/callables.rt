//! What runs where an object is called.

ghost use Rattle.std.specs.Prelude.{◌≡◌, IfOk, IfSome, Some};
ghost use Rattle.rp_store.specs.Heap.{Names, content_at};
ghost use Rattle.rp_store.specs.Kept.{IsCallee, IsSound};
ghost use Rattle.rp_store.specs.Object as object;
ghost use Rattle.rp_store.specs.Parts.{IsFunction, IsInstance};
ghost use Rattle.rp_step.specs.Callables.{IsCallWith, IsCalledAt, IsFunctionAt};

use rp_base::word::CALL;
use rp_base::{Memory, Oid, Side, Value};
use rp_enter::Entry;
use rp_store::{Callee, Object, Store};

/// A function that is called, and the value that then stands before the arguments, where there is one.
#[derive(Drop)]
pub struct Callable {
    pub entry: Entry,
    pub receiver: Option<Value>,
}

/// What a call of an object does.
#[derive(Drop)]
pub(crate) enum Called {
    /// Runs the code of a function.
    Code(Callable),
    /// Makes an instance of the class, of its owner.
    Class(Side),
    /// No code runs.
    Nothing,
}

/// What a call of the object at a place does: it runs a function itself, the function of a bound one behind its
/// receiver, and `__call__` of an instance's class behind the instance, and makes an instance of a class (Python
/// Language Reference, Calls).
///
/// # Errors
/// `Memory` where a growth was refused.
pub(crate) fn called_at(store: &Store, at: Oid) -> Result<Called, Memory>
    requires { IsSound store.now.heap (Value.Ref at) }
    ensures { IfOk result (IsCalledAt store.now.heap at) }
{
    match store.object(at) {
        Object::Function { .. } => Ok(Called::Code(callable_with(store, at, None))),
        Object::Method { receiver, callee } => bound_at(store, at, receiver, callee),
        Object::Instance { .. } => Ok(special_at(store, at)),
        Object::Class { .. } => Ok(Called::Class(store.owner(at))),
        Object::List(_) => Ok(Called::Nothing),
        Object::Tuple(_) => Ok(Called::Nothing),
        Object::Dict(_) => Ok(Called::Nothing),
        Object::Scope { .. } => Ok(Called::Nothing),
    }
}

/// What a call of the bound method at a place does: it runs a function behind its receiver.
///
/// # Errors
/// As `called_at`.
fn bound_at(store: &Store, at: Oid, receiver: &Value, callee: &Callee) -> Result<Called, Memory>
    requires method { content_at store.now.heap at ≡ Some (object.method receiver.now callee.now) }
    requires receiver { IsSound store.now.heap receiver.now }
    requires callee { IsCallee store.now.heap callee.now }
    ensures { IfOk result (IsCalledAt store.now.heap at) }
{
    match callee {
        Callee::Function(function) => {
            let receiver = receiver.copy()?;
            Ok(Called::Code(callable_with(store, *function, Some(receiver))))
        }
        Callee::Native(_) => Ok(Called::Nothing),
    }
}

/// What a call of the instance at a place does: it runs `__call__` of its class behind it.
fn special_at(store: &Store, at: Oid) -> Called
    requires sound { IsSound store.now.heap (Value.Ref at) }
    requires instance { Names store.now.heap IsInstance at }
    ensures { IsCalledAt store.now.heap at result }
{
    match store.method_of(at, CALL) {
        Some(function) => Called::Code(callable_with(store, function, Some(Value::Ref(at)))),
        None => Called::Nothing,
    }
}

/// The function at a place, behind a value or not.
pub(crate) fn callable_with(store: &Store, function: Oid, receiver: Option<Value>) -> Callable
    requires function { Names store.now.heap IsFunction function }
    requires receiver { IfSome receiver (IsSound store.now.heap) }
    ensures { IsCallWith store.now.heap function receiver result }
{
    let entry = function_at(store, function);
    Callable { entry, receiver }
}

/// The function at a place.
fn function_at(store: &Store, at: Oid) -> Entry
    requires sound { IsSound store.now.heap (Value.Ref at) }
    requires function { Names store.now.heap IsFunction at }
    ensures function { IsFunctionAt store.now.heap result }
    ensures place { result.function ≡ at }
{
    match store.object(at) {
        Object::Function {
            unit,
            block,
            scope,
            ..
        } => Entry {
            function: at,
            side: *unit,
            block: *block,
            within: *scope,
        },
        _ => unreachable!(),
    }
}
