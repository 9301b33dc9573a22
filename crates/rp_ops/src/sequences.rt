//! Lists and tuples joined and repeated.
#![tactic(auto, using(rp_store::proofs::CallerLemmas::goes_on))]

ghost use Rattle.std.specs.Prelude.{◌≡◌, ◌∷◌, ◌++◌, ◌+◌, [], ℕ, length, IfErr, IfOk, OnErr, OnOk};
ghost use Rattle.std.specs.List.{repeat};
ghost use Rattle.rp_store.specs.Counters.{KeepsCounters};
ghost use Rattle.rp_store.specs.Heap.{IsHeld};
ghost use Rattle.rp_store.specs.Kept.{AreSound, IsSound};
ghost use Rattle.rp_store.specs.Object.{content_of};
ghost use Rattle.rp_store.specs.Store.{added};
ghost use Rattle.rp_ops.specs.Binary.{new_object, repeated, times};
ghost use Rattle.rp_ops.specs.Growth.{Gains, IsSequenceOf};
ghost use Rattle.rp_ops.specs.Outcome.{Meets, state_of};
ghost use Rattle.rp_ops.specs.View.{elements_of, handed, sequence_of};

use crate::cells::{charge, charge_copies};
use crate::operand::{Elements, elements_at};
use rp_base::{Memory, Oid, OpEnd, Side, Value};
use rp_store::{Object, Store};
use std::alloc::Global;

/// A kind of sequence that is made.
#[derive(Clone, Copy, Debug, PartialEq, Eq)]
pub enum Sequence {
    List,
    Tuple,
}

impl Sequence {
    fn object(self, elements: Vec<Value>) -> Object
        ensures { content_of result ≡ sequence_of self elements.items }
    {
        match self {
            Sequence::List => Object::List(elements),
            Sequence::Tuple => Object::Tuple(elements),
        }
    }
}

/// A new sequence of a side, of the elements of two, for a cell and one for each element.
///
/// # Errors
/// `StopCells` exactly where they are over the limit, `Memory` where a growth was refused. No object is made then.
pub(crate) fn join(
    alloc: Global,
    store: &mut Store,
    side: Side,
    kind: Sequence,
    x: Elements,
    y: Elements,
) -> Result<Value, OpEnd>
    requires x { IsHeld store.old.heap x.at }
    requires y { IsHeld store.old.heap y.at }
    ensures plain { (steps : ℕ) → Meets result (state_of store.new steps)
        (new_object side (sequence_of kind (elements_of store.old.heap x ++ elements_of store.old.heap y))
        (state_of store.old steps)) }
    ensures sound { IfOk result (λ v. IsSound store.new.heap v) }
    ensures grown { Gains (IsSequenceOf side) store.old.heap store.new.heap }
    ensures same { OnErr result (store.new.heap ≡ store.old.heap) }
    ensures counters { KeepsCounters store.old store.new }
{
    let cells = 1 + elements_at(store, x.at).len() + elements_at(store, y.at).len();
    charge(store, cells as u64)?;
    let elements = joined(alloc, store, x, y)?;
    store.kept();
    add(store, side, kind, elements)
}

/// A new sequence of a side, of the elements of one so many times over, none where that is negative. It costs a cell
/// and one for each element.
///
/// # Errors
/// As `join`.
pub(crate) fn repeat(
    alloc: Global,
    store: &mut Store,
    side: Side,
    kind: Sequence,
    x: Elements,
    n: i64,
) -> Result<Value, OpEnd>
    requires x { IsHeld store.old.heap x.at }
    ensures plain { (steps : ℕ) → Meets result (state_of store.new steps)
        (new_object side (sequence_of kind (repeated n (elements_of store.old.heap x))) (state_of store.old steps)) }
    ensures sound { IfOk result (λ v. IsSound store.new.heap v) }
    ensures grown { Gains (IsSequenceOf side) store.old.heap store.new.heap }
    ensures same { OnErr result (store.new.heap ≡ store.old.heap) }
    ensures counters { KeepsCounters store.old store.new }
{
    let copies = times(n);
    let size = elements_at(store, x.at).len();
    charge_copies(store, 1, copies, size as u64)?;
    let elements = copied(alloc, store, x, copies as usize)?;
    store.kept();
    add(store, side, kind, elements)
}

/// How many times a number repeats: none where it is negative.
#[inline(always)]
pub(crate) fn times(n: i64) -> u64
    ensures { result ≡ times n }
{
    if n < 0 { 0 } else { n as u64 }
}

/// Makes a sequence of a side, whose cells are used already.
///
/// # Errors
/// `Memory` where a growth was refused. No object is made then.
pub fn add(
    store: &mut Store,
    side: Side,
    kind: Sequence,
    elements: Vec<Value>,
) -> Result<Value, OpEnd>
    requires sound { AreSound store.old.heap elements.items }
    ensures added { OnOk result (store.new ≡ added store.old side (sequence_of kind elements.items)) }
    ensures place { IfOk result (λ v. v ≡ Value.Ref (record { 0 = length store.old.heap })) }
    ensures memory { IfErr result (λ e. e ≡ OpEnd.Memory) }
    ensures same { OnErr result (store.new ≡ store.old) }
    ensures sound { IfOk result (λ v. IsSound store.new.heap v) }
    ensures grown { Gains (IsSequenceOf side) store.old.heap store.new.heap }
    ensures counters { KeepsCounters store.old store.new }
{
    let at = store.add(side, kind.object(elements))?;
    Ok(Value::Ref(at))
}

/// The elements of two sequences.
///
/// # Errors
/// As `append`.
fn joined(alloc: Global, store: &Store, x: Elements, y: Elements) -> Result<Vec<Value>, Memory>
    requires x { IsHeld store.now.heap x.at }
    requires y { IsHeld store.now.heap y.at }
    ensures { IfOk result (λ v. v.items ≡ elements_of store.now.heap x ++ elements_of store.now.heap y) }
{
    let count = elements_at(store, x.at).len() + elements_at(store, y.at).len();
    let mut all = Vec::with_capacity(alloc, count)?;
    append(store, x, &mut all)?;
    append(store, y, &mut all)?;
    Ok(all)
}

/// The elements of a sequence so many times over.
///
/// # Errors
/// As `append`.
pub(crate) fn copied(
    alloc: Global,
    store: &Store,
    x: Elements,
    copies: usize,
) -> Result<Vec<Value>, Memory>
    requires x { IsHeld store.now.heap x.at }
    ensures { IfOk result (λ v. v.items ≡ repeat copies (elements_of store.now.heap x)) }
{
    let size = elements_at(store, x.at).len();
    let mut all = Vec::with_capacity(alloc, copies.saturating_mul(size))?;
    if size == 0 {
        return Ok(all);
    }
    for _ in 0..copies {
        append(store, x, &mut all)?;
    }
    Ok(all)
}

/// Puts the elements of a sequence last.
///
/// # Errors
/// `Memory` where a growth was refused.
pub(crate) fn append(store: &Store, x: Elements, all: &mut Vec<Value>) -> Result<(), Memory>
    requires { IsHeld store.now.heap x.at }
    ensures { OnOk result (all.new.items ≡ all.old.items ++ elements_of store.now.heap x) }
{
    for value in elements_at(store, x.at) {
        all.push(handed(value, x.lent)?)?;
    }
    Ok(())
}

/// Puts a value last.
///
/// # Errors
/// `Memory` where a growth was refused.
#[inline(always)]
pub(crate) fn put(values: &mut Vec<Value>, value: Value) -> Result<(), Memory>
    ensures { OnOk result (values.new.items ≡ values.old.items ++ value ∷ []) }
{
    values.push(value)?;
    Ok(())
}

/// An element as it is handed out: lent, or as it is. Its text is shared.
///
/// # Errors
/// `Memory` where a growth was refused.
#[inline(always)]
pub fn handed(value: &Value, lent: bool) -> Result<Value, Memory>
    ensures { IfOk result (λ v. v ≡ handed lent value.now) }
{
    match value {
        Value::Rock(rock) => Ok(Value::Rock(rock.copy()?)),
        Value::Ref(at) if lent => Ok(Value::Prox(*at)),
        Value::Ref(at) => Ok(Value::Ref(*at)),
        Value::Prox(at) => Ok(Value::Prox(*at)),
    }
}

/// Copies of values.
///
/// # Errors
/// `Memory` where a growth was refused.
pub fn copies(alloc: Global, values: &[Value]) -> Result<Vec<Value>, Memory>
    ensures { IfOk result (λ all. all.items ≡ values.now) }
{
    let mut all = Vec::with_capacity(alloc, values.len())?;
    for value in values {
        all.push(value.copy()?)?;
    }
    Ok(all)
}
