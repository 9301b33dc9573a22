//! What a side gets of a value.

use rp_base::{Oid, Rock, Side, Value};
use rp_proxy::take;
use rp_store::{Object, Store};
use rp_tests_cases::{Question, number, part, seed};
use std::alloc::Global;
use std::test::Fail;

fn word_of(value: Value) -> &'static str {
    match value {
        Value::Rock(Rock::Int(7)) => "rock",
        Value::Rock(_) => "another rock",
        Value::Ref(Oid(0)) => "plain",
        Value::Prox(Oid(0)) => "proxy",
        Value::Ref(_) | Value::Prox(_) => "another object",
    }
}

/// What the side of the third part gets of a rock, or of a plain reference or a proxy, as the first part says, to an
/// object of the owner of the second.
pub struct Taken;

impl Question for Taken {
    fn answer(&self, alloc: Global, parts: &[String]) -> Result<String, Fail> {
        taken_by(alloc, part(parts, 0), number(parts, 1), number(parts, 2))
    }
}

fn taken_by(alloc: Global, value: &str, owner: u32, side: u32) -> Result<String, Fail> {
    let mut store = Store::new(alloc, 1, seed());
    let at = store.make(Side(owner), Object::List(Vec::new(alloc)))?;
    let value = match value {
        "plain" => Value::Ref(at),
        "proxy" => Value::Prox(at),
        _ => Value::Rock(Rock::Int(7)),
    };
    let taken = take(&store, value, Side(side));
    Ok(String::from_str(alloc, word_of(taken))?)
}
