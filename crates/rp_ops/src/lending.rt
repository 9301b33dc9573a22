//! What is got through a proxy.

ghost use Rattle.std.specs.Prelude.{◌≡◌};
ghost use Rattle.rp_ops.specs.Operand.{lent};

use rp_base::Value;

/// What is got through a proxy is lent (zope.security, proxies).
#[inline(always)]
pub fn lent(value: Value) -> Value
    ensures { result ≡ lent value }
{
    match value {
        Value::Ref(at) => Value::Prox(at),
        other => other,
    }
}
