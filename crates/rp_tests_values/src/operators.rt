//! Statements of cases: a call by its word, an operator between two values, or a value, each also behind `name =`.

use crate::answers::Answer;
use crate::calls::{called, is_call};
use crate::values::read;
use crate::world::{Reader, World};
use rp_base::{BinOp, CmpOp, Meter, Rock, Side, Value};
use rp_compare::{compare, contains};
use rp_ops::{binary, inplace};
use rp_store::Store;
use rp_tests_parts::{Fault, is_sound};
use std::alloc::Global;

pub(crate) fn run(world: &mut World, reader: &mut Reader<'_>) -> Result<Answer, Fault> {
    if reader.has_mark(1, "=") {
        let name = reader.word()?;
        reader.take();
        let answer = command(world, reader)?;
        return bind(world, name, answer);
    }
    command(world, reader)
}

fn bind(world: &mut World, name: &str, answer: Answer) -> Result<Answer, Fault> {
    match answer {
        Answer::Value(value) => {
            world.bind(name, value)?;
            Ok(Answer::Nothing)
        }
        _ => Err(Fault::Unread),
    }
}

fn command(world: &mut World, reader: &mut Reader<'_>) -> Result<Answer, Fault> {
    match reader.word_ahead() {
        Some(verb) if is_call(verb) => {
            reader.take();
            let values = operands(world, reader)?;
            called(world, verb, &values)
        }
        _ => sentence(world, reader),
    }
}

/// The values up to the end.
fn operands(world: &mut World, reader: &mut Reader<'_>) -> Result<Vec<Value>, Fault> {
    let mut values = Vec::new(world.alloc);
    for _ in 0..4 {
        if reader.is_at_end() {
            return Ok(values);
        }
        values.push(read(world, reader)?)?;
    }
    end(reader)?;
    Ok(values)
}

/// Nothing stands behind the operands.
fn end(reader: &Reader<'_>) -> Result<(), Fault> {
    if reader.is_at_end() {
        return Ok(());
    }
    Err(Fault::Unread)
}

/// A value, or an operator between two.
fn sentence(world: &mut World, reader: &mut Reader<'_>) -> Result<Answer, Fault> {
    let a = read(world, reader)?;
    if reader.is_at_end() {
        return Ok(Answer::Value(a));
    }
    let operator = reader.operator()?;
    let b = read(world, reader)?;
    end(reader)?;
    let (alloc, side) = (world.alloc, world.side);
    let (store, meter) = (&mut world.store, &mut world.meter);
    if let Some(op) = binary_of(operator) {
        return on_two(alloc, store, meter, side, op, &a, &b);
    }
    if let Some(op) = augmented_of(operator) {
        return in_place(alloc, store, meter, side, op, &a, &b);
    }
    let truth = match comparison_of(operator) {
        Some(op) => compare(alloc, store, meter, op, &a, &b)?,
        None if operator == "in" => contains(alloc, store, meter, &a, &b)?,
        None => return Err(Fault::Unread),
    };
    Ok(Answer::Value(Value::Rock(Rock::Truth(truth))))
}

fn on_two(
    alloc: Global,
    store: &mut Store,
    meter: &mut Meter,
    side: Side,
    op: BinOp,
    a: &Value,
    b: &Value,
) -> Result<Answer, Fault> {
    if !is_sound(store, a) || !is_sound(store, b) {
        return Err(Fault::Unsound);
    }
    Ok(Answer::Value(binary(alloc, store, meter, side, op, a, b)?))
}

fn in_place(
    alloc: Global,
    store: &mut Store,
    meter: &mut Meter,
    side: Side,
    op: BinOp,
    a: &Value,
    b: &Value,
) -> Result<Answer, Fault> {
    if !is_sound(store, a) || !is_sound(store, b) {
        return Err(Fault::Unsound);
    }
    Ok(Answer::Value(inplace(alloc, store, meter, side, op, a, b)?))
}

fn binary_of(operator: &str) -> Option<BinOp> {
    match operator {
        "+" => Some(BinOp::Add),
        "-" => Some(BinOp::Sub),
        "*" => Some(BinOp::Mul),
        "//" => Some(BinOp::FloorDiv),
        "%" => Some(BinOp::Mod),
        "**" => Some(BinOp::Pow),
        "&" => Some(BinOp::BitAnd),
        "|" => Some(BinOp::BitOr),
        "^" => Some(BinOp::BitXor),
        "<<" => Some(BinOp::LShift),
        ">>" => Some(BinOp::RShift),
        _ => None,
    }
}

fn augmented_of(operator: &str) -> Option<BinOp> {
    match operator {
        "+=" => Some(BinOp::Add),
        "-=" => Some(BinOp::Sub),
        "*=" => Some(BinOp::Mul),
        _ => None,
    }
}

/// The comparison of this sign.
fn comparison_of(operator: &str) -> Option<CmpOp> {
    match operator {
        "<" => Some(CmpOp::Lt),
        "<=" => Some(CmpOp::Le),
        ">" => Some(CmpOp::Gt),
        ">=" => Some(CmpOp::Ge),
        "==" => Some(CmpOp::Eq),
        "!=" => Some(CmpOp::Ne),
        _ => None,
    }
}
