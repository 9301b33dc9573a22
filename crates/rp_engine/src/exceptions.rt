//! Exceptions as values at hand.

ghost use Rattle.std.specs.Prelude.{◌≡◌, IfOk};
ghost use Rattle.rp_engine.specs.Handling.{handling_value, thrown, thrown_of};

use rp_base::{Memory, Raised, Rock, Value};

/// An exception as a value.
pub fn thrown(raised: Raised) -> Value
    ensures { result ≡ thrown raised }
{
    Value::Rock(Rock::Exc(raised.kind, raised.text))
}

/// The exception that a value is.
pub fn thrown_of(value: Value) -> Option<Raised>
    ensures { result ≡ thrown_of value }
{
    match value {
        Value::Rock(Rock::Exc(kind, text)) => Some(Raised { kind, text }),
        _ => None,
    }
}

/// What is handled as a value, None where nothing is.
pub fn handling_value(handled: Option<Raised>) -> Value
    ensures { result ≡ handling_value handled }
{
    match handled {
        None => Value::Rock(Rock::Nil),
        Some(raised) => thrown(raised),
    }
}

/// An equal exception; its text is shared.
///
/// # Errors
/// `Memory` where a growth was refused.
pub fn copy_of(raised: &Raised) -> Result<Raised, Memory>
    ensures { IfOk result (λ r. r ≡ raised.now) }
{
    Ok(Raised {
        kind: raised.kind,
        text: raised.text.copy()?,
    })
}

/// The same of what is handled.
///
/// # Errors
/// As `copy_of`.
pub fn copy_handled(handled: &Option<Raised>) -> Result<Option<Raised>, Memory>
    ensures { IfOk result (λ h. h ≡ handled.now) }
{
    match handled {
        None => Ok(None),
        Some(raised) => Ok(Some(copy_of(raised)?)),
    }
}
