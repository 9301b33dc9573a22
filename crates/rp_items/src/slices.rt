//! Slices.
#![tactic(auto, using(rp_store::proofs::CallerLemmas::goes_on))]

ghost use Rattle.std.specs.Prelude.{◌≡◌, ◌≢◌, ◌+◌, ◌<◌, ◌≤◌, ◌^◌, ℕ, List, [], length, pos, IfOk, OnErr};
ghost use Rattle.std.specs.Option.{option_map_or};
ghost use Rattle.rp_base.specs.declared.value.Side.{Side};
ghost use Rattle.rp_store.specs.Counters.{KeepsCounters};
ghost use Rattle.rp_store.specs.Heap.{IsHeld, Owned, content_at};
ghost use Rattle.rp_store.specs.Kept.{AreSound, Holds, IsSound};
ghost use Rattle.rp_store.specs.Object.{content_of};
ghost use Rattle.rp_store.specs.Parts.{IsScope};
ghost use Rattle.rp_store.specs.Shape.{KeepsShape};
ghost use Rattle.rp_ops.specs.Binary.{new_object, new_text};
ghost use Rattle.rp_ops.specs.Outcome.{Meets, on_found, state_of};
ghost use Rattle.rp_ops.specs.View.{held_by, sequence_of};
ghost use Rattle.rp_items.specs.Slices.{object_slice, owner_of, rock_slice, slice, sliced, span_named};
ghost use Rattle.rp_items.specs.SliceView.{AreWithin, span_seen, taken};

use crate::letters::{letters_at, run_of};
use crate::spans::{Places, SliceParts, Span, places_of, span_named};
use rp_base::{Memory, Oid, OpEnd, Rock, Text, Value};
use rp_ops::{Refusal, Sequence, check_room, elements_at, lent, new_object, new_text};
use rp_store::{Object, Store};
use std::alloc::Global;

/// `a[from:to:step]`, on values whose access decisions have been made (Python Language Reference, Slicings). A slice of
/// a list or a tuple is a new one, which the owner of what is sliced owns, and it holds the elements as they were
/// stored. It costs a cell for itself and one for each element; a new text costs a cell for each byte. It takes no
/// step.
///
/// The slice of what is lent is lent, and so what is read out of it later.
///
/// An instance has no slices: `__getitem__` is called for one index alone.
///
/// # Errors
/// - `Raised` with `TypeError`, whose text is `item` where `a` is no text, list or tuple, or `index` where a part is
///   neither a number nor a truth value nor None, or with `ValueError` and the text `slice`, where the step is 0.
/// - `StopCells` where the cells are over the limit; then the store is as before.
/// - `Memory` where a growth was refused. Then cells may be used, no used cell is given back, the limit stays, and no
///   object is made.
pub fn slice(
    alloc: Global,
    store: &mut Store,
    a: &Value,
    parts: SliceParts<'_>,
) -> Result<Value, OpEnd>
    requires a { IsSound store.old.heap a.now }
    ensures plain { (steps : ℕ) → Meets result (state_of store.new steps)
        (slice a.now parts.entry.from.now parts.entry.to.now parts.entry.step.now (state_of store.old steps)) }
    ensures sound { IfOk result (λ v. IsSound store.new.heap v) }
    ensures same { OnErr result (store.new.heap ≡ store.old.heap) }
    ensures shape { KeepsShape store.old.heap store.new.heap }
    ensures counters { KeepsCounters store.old store.new }
{
    match a {
        Value::Rock(rock) => rock_slice(alloc, store, rock, parts),
        Value::Ref(at) => object_slice(alloc, store, *at, parts),
        Value::Prox(at) => {
            let value = object_slice(alloc, store, *at, parts)?;
            Ok(lent(value))
        }
    }
}

fn rock_slice(
    alloc: Global,
    store: &mut Store,
    rock: &Rock,
    parts: SliceParts<'_>,
) -> Result<Value, OpEnd>
    ensures plain { (steps : ℕ) → Meets result (state_of store.new steps)
        (rock_slice rock.now (span_named parts.entry.from.now parts.entry.to.now parts.entry.step.now)
        (state_of store.old steps)) }
    ensures same { store.new.heap ≡ store.old.heap }
    ensures sound { IfOk result (λ v. IsSound store.new.heap v) }
    ensures counters { KeepsCounters store.old store.new }
{
    match rock {
        Rock::Text(text) => text_slice(alloc, store, text, parts),
        Rock::Nil
        | Rock::Truth(_)
        | Rock::Int(_)
        | Rock::Exc(_, _)
        | Rock::Kind(_)
        | Rock::Native(_) => Err(Refusal::Item.end(alloc)),
    }
}

fn text_slice(
    alloc: Global,
    store: &mut Store,
    text: &Text,
    parts: SliceParts<'_>,
) -> Result<Value, OpEnd>
    ensures plain { (steps : ℕ) → Meets result (state_of store.new steps)
        (on_found (span_named parts.entry.from.now parts.entry.to.now parts.entry.step.now) (state_of store.old steps)
        (λ p s. new_text (sliced p text.now) s)) }
    ensures same { store.new.heap ≡ store.old.heap }
    ensures sound { IfOk result (λ v. IsSound store.new.heap v) }
    ensures counters { KeepsCounters store.old store.new }
{
    match span_named(parts) {
        Ok(span) => sliced_text(alloc, store, text, span),
        Err(refusal) => Err(refusal.end(alloc)),
    }
}

fn sliced_text(alloc: Global, store: &mut Store, text: &Text, span: Span) -> Result<Value, OpEnd>
    requires { span.step ≢ pos 0 }
    ensures plain { (steps : ℕ) → Meets result (state_of store.new steps)
        (new_text (sliced (span_seen span) text.now) (state_of store.old steps)) }
    ensures same { store.new.heap ≡ store.old.heap }
    ensures sound { IfOk result (λ v. IsSound store.new.heap v) }
    ensures counters { KeepsCounters store.old store.new }
{
    let places = places_of(text.len(), span);
    if let Some(run) = run_of(text, places) {
        return new_text(alloc, store, run);
    }
    check_room(store, places.count as u64)?;
    let taken = letters_at(alloc, text, places)?;
    new_text(alloc, store, taken.as_str())
}

fn object_slice(
    alloc: Global,
    store: &mut Store,
    at: Oid,
    parts: SliceParts<'_>,
) -> Result<Value, OpEnd>
    requires held { IsHeld store.old.heap at }
    ensures plain { (steps : ℕ) → Meets result (state_of store.new steps)
        (object_slice at (span_named parts.entry.from.now parts.entry.to.now parts.entry.step.now)
        (state_of store.old steps)) }
    ensures sound { IfOk result (λ v. IsSound store.new.heap v) }
    ensures same { OnErr result (store.new ≡ store.old) }
    ensures shape { KeepsShape store.old.heap store.new.heap }
    ensures counters { KeepsCounters store.old store.new }
{
    match store.object(at) {
        Object::List(_) => sequence_slice(alloc, store, Sequence::List, at, parts),
        Object::Tuple(_) => sequence_slice(alloc, store, Sequence::Tuple, at, parts),
        Object::Dict(_)
        | Object::Instance { .. }
        | Object::Class { .. }
        | Object::Function { .. }
        | Object::Method { .. }
        | Object::Scope { .. } => Err(Refusal::Item.end(alloc)),
    }
}

fn sequence_slice(
    alloc: Global,
    store: &mut Store,
    kind: Sequence,
    at: Oid,
    parts: SliceParts<'_>,
) -> Result<Value, OpEnd>
    requires held { IsHeld store.old.heap at }
    ensures plain { (steps : ℕ) → Meets result (state_of store.new steps)
        (on_found (span_named parts.entry.from.now parts.entry.to.now parts.entry.step.now) (state_of store.old steps)
        (λ p s. new_object (owner_of at (state_of store.old steps))
        (sequence_of kind (sliced p (option_map_or held_by (content_at store.old.heap at) []))) s)) }
    ensures sound { IfOk result (λ v. IsSound store.new.heap v) }
    ensures same { OnErr result (store.new ≡ store.old) }
    ensures shape { KeepsShape store.old.heap store.new.heap }
    ensures counters { KeepsCounters store.old store.new }
{
    match span_named(parts) {
        Ok(span) => sliced_sequence(alloc, store, kind, at, span),
        Err(refusal) => Err(refusal.end(alloc)),
    }
}

fn sliced_sequence(
    alloc: Global,
    store: &mut Store,
    kind: Sequence,
    at: Oid,
    span: Span,
) -> Result<Value, OpEnd>
    requires held { IsHeld store.old.heap at }
    requires step { span.step ≢ pos 0 }
    ensures plain { (steps : ℕ) → Meets result (state_of store.new steps)
        (new_object (owner_of at (state_of store.old steps))
        (sequence_of kind (sliced (span_seen span) (option_map_or held_by (content_at store.old.heap at) [])))
        (state_of store.old steps)) }
    ensures sound { IfOk result (λ v. IsSound store.new.heap v) }
    ensures same { OnErr result (store.new ≡ store.old) }
    ensures shape { KeepsShape store.old.heap store.new.heap }
    ensures counters { KeepsCounters store.old store.new }
{
    let places = places_of(elements_at(store, at).len(), span);
    check_room(store, 1 + places.count as u64)?;
    let values = taken_values(alloc, elements_at(store, at), places)?;
    let owner = store.owner(at);
    new_object(store, owner, sequence(kind, values))
}

/// The values at the places, as they are.
fn taken_values(alloc: Global, values: &[Value], places: Places) -> Result<Vec<Value>, Memory>
    requires small { length values.now < 2 ^ 64 }
    requires within { AreWithin (length values.now) places }
    ensures { IfOk result (λ v. v.items ≡ taken places values.now) }
{
    let mut all = Vec::with_capacity(alloc, places.count)?;
    for m in 0..places.count {
        all.push(values[places.at(m)].copy()?)?;
    }
    Ok(all)
}

/// A list or a tuple of these elements.
fn sequence(kind: Sequence, elements: Vec<Value>) -> Object
    ensures content { content_of result ≡ sequence_of kind elements.items }
    ensures holds { (heap : List Owned) (owner : Side) → AreSound heap elements.items
        → Holds heap owner (content_of result) }
    ensures value { ¬ IsScope (content_of result) }
{
    match kind {
        Sequence::List => Object::List(elements),
        Sequence::Tuple => Object::Tuple(elements),
    }
}
