//! Tests of the copies of values, and of the count of steps.
use rp_base::{Kind, Memory, Meter, NativeId, Oid, Rock, Text, Value};
use rp_tests_cases::holds;
use std::alloc::Global;
use std::test::Fail;

fn is_same_rock(one: &Rock, other: &Rock) -> bool {
    match (one, other) {
        (Rock::Nil, Rock::Nil) => true,
        (Rock::Truth(a), Rock::Truth(b)) => a == b,
        (Rock::Int(a), Rock::Int(b)) => a == b,
        (Rock::Text(a), Rock::Text(b)) => a == b,
        (Rock::Exc(kind, a), Rock::Exc(same, b)) => kind == same && a == b,
        (Rock::Kind(a), Rock::Kind(b)) => a == b,
        (Rock::Native(a), Rock::Native(b)) => a == b,
        _ => false,
    }
}

fn is_same_value(one: &Value, other: &Value) -> bool {
    match (one, other) {
        (Value::Rock(a), Value::Rock(b)) => is_same_rock(a, b),
        (Value::Ref(a), Value::Ref(b)) => a == b,
        (Value::Prox(a), Value::Prox(b)) => a == b,
        _ => false,
    }
}

/// A value of each kind.
fn of_each_kind(alloc: Global) -> Result<[Value; 9], Memory> {
    Ok([
        Value::Rock(Rock::Nil),
        Value::Rock(Rock::Truth(true)),
        Value::Rock(Rock::Int(-7)),
        Value::Rock(Rock::Text(Text::new(alloc, "yes")?)),
        Value::Rock(Rock::Exc(Kind::KeyError, Text::new(alloc, "no")?)),
        Value::Rock(Rock::Kind(Kind::TypeError)),
        Value::Rock(Rock::Native(NativeId::Len)),
        Value::Ref(Oid(3)),
        Value::Prox(Oid(3)),
    ])
}

#[test]
fn values_are_copied(rt: HostRuntime) -> Result<(), Fail> {
    for value in &of_each_kind(rt.alloc())? {
        holds(is_same_value(value, &value.copy()?), "a copy")?;
    }
    Ok(())
}

#[test]
fn meters_count_down_to_nothing() -> Result<(), Fail> {
    let mut meter = Meter { left: 2 };
    holds(meter.step() && meter.left == 1, "one step")?;
    holds(meter.step() && meter.left == 0, "two steps")?;
    holds(!meter.step() && meter.left == 0, "no step")
}
