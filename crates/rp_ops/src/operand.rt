//! What operators see of values.
ghost use Rattle.std.specs.Prelude.{◌≡◌, List, []};
ghost use Rattle.std.specs.Option.{option_map_or};
ghost use Rattle.rp_store.specs.Heap.{IsHeld, Owned, content_at};
ghost use Rattle.rp_store.specs.Kept.{IsKept, IsSound};
ghost use Rattle.rp_ops.specs.Operand.{number_of, object_operand, operand, other, rock_operand};
ghost use Rattle.rp_ops.specs.View.{IsOperandHeld, handed, held_by, is_sequence, seen};

use rp_base::{Oid, Rock, Text, Value};
use rp_store::{Object, Store};

/// What an operator sees of a value.
#[derive(Clone, Copy)]
pub enum Operand<'a> {
    Number(i64),
    Truth(bool),
    Text(&'a Text),
    List(Elements),
    Tuple(Elements),
    Other,
}

/// The elements of the list or tuple at a place, or, where it is lent, what walking out of its proxy gives.
#[derive(Clone, Copy)]
pub struct Elements {
    pub at: Oid,
    pub lent: bool,
}

impl Operand<'_> {
    /// A number; True and False count as 1 and 0.
    pub fn number(&self) -> Option<i64>
        ensures { (heap : List Owned) → result ≡ number_of (seen heap self.now) }
    {
        match self {
            Operand::Number(n) => Some(*n),
            Operand::Truth(true) => Some(1),
            Operand::Truth(false) => Some(0),
            Operand::Text(_) | Operand::List(_) | Operand::Tuple(_) | Operand::Other => None,
        }
    }

    /// Whether it is a text, a list or a tuple.
    pub fn is_sequence(&self) -> bool
        ensures { (heap : List Owned) → result ≡ is_sequence (seen heap self.now) }
    {
        match self {
            Operand::Text(_) | Operand::List(_) | Operand::Tuple(_) => true,
            Operand::Number(_) | Operand::Truth(_) | Operand::Other => false,
        }
    }
}

/// What an operator sees of a value.
#[inline(always)]
pub fn operand_of<'a>(store: &Store, value: &'a Value) -> Operand<'a>
    requires sound { IsSound store.now.heap value.now }
    ensures seen { seen store.now.heap result ≡ operand store.now.heap value.now }
    ensures held { IsOperandHeld store.now.heap result }
{
    match value {
        Value::Rock(rock) => rock_operand(rock),
        Value::Ref(at) => object_operand(store, *at, false),
        Value::Prox(at) => object_operand(store, *at, true),
    }
}

#[inline(always)]
fn rock_operand(rock: &Rock) -> Operand<'_>
    ensures seen { (heap : List Owned) → seen heap result ≡ rock_operand rock.now }
    ensures held { (heap : List Owned) → IsOperandHeld heap result }
{
    match rock {
        Rock::Int(n) => Operand::Number(*n),
        Rock::Truth(truth) => Operand::Truth(*truth),
        Rock::Text(text) => Operand::Text(text),
        Rock::Nil | Rock::Exc(_, _) | Rock::Kind(_) | Rock::Native(_) => Operand::Other,
    }
}

fn object_operand<'a>(store: &Store, at: Oid, lent: bool) -> Operand<'a>
    requires { IsHeld store.now.heap at }
    ensures seen { seen store.now.heap result
        ≡ option_map_or (object_operand (handed lent)) (content_at store.now.heap at) other }
    ensures held { IsOperandHeld store.now.heap result }
{
    let elements = Elements { at, lent };
    match store.object(at) {
        Object::List(_) => Operand::List(elements),
        Object::Tuple(_) => Operand::Tuple(elements),
        _ => Operand::Other,
    }
}

/// The elements of the list or tuple at a place, none where there is neither.
#[inline(always)]
pub fn elements_at(store: &Store, at: Oid) -> &[Value]
    requires { IsHeld store.now.heap at }
    ensures value { result.now ≡ option_map_or held_by (content_at store.now.heap at) [] }
    ensures kept { IsKept store.now.heap }
{
    match store.object(at) {
        Object::List(elements) => elements.as_slice(),
        Object::Tuple(elements) => elements.as_slice(),
        _ => &[],
    }
}

/// The number that a rock is; True and False count as 1 and 0 (Python Standard Library, Boolean Type).
#[inline(always)]
pub fn rock_number(rock: &Rock) -> Option<i64>
    ensures { result ≡ number_of (rock_operand rock.now) }
{
    match rock {
        Rock::Int(n) => Some(*n),
        Rock::Truth(true) => Some(1),
        Rock::Truth(false) => Some(0),
        Rock::Nil | Rock::Text(_) | Rock::Exc(_, _) | Rock::Kind(_) | Rock::Native(_) => None,
    }
}
