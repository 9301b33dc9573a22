//! New texts and objects, and their cells.
#![tactic(auto, using(rp_store::proofs::CallerLemmas::goes_on))]

ghost use Rattle.std.specs.Prelude.{◌≡◌, ◌∷◌, List, [], ℕ, chars, IfOk, OnErr, OnOk};
ghost use Rattle.rp_store.specs.Counters.{KeepsCounters};
ghost use Rattle.rp_store.specs.Heap.{Owned};
ghost use Rattle.rp_store.specs.Kept.{Holds, IsSound};
ghost use Rattle.rp_store.specs.Object.{content_of};
ghost use Rattle.rp_store.specs.Parts.{IsScope};
ghost use Rattle.rp_store.specs.Store.{made};
ghost use Rattle.rp_ops.specs.Binary.{new_object, new_text};
ghost use Rattle.rp_ops.specs.Outcome.{Meets, state_of};
ghost use Rattle.rp_store.specs.Shape.{KeepsShape};

use crate::cells::charge;
use rp_base::{Memory, OpEnd, Rock, Side, Text, Value};
use rp_store::{Object, Store};
use std::alloc::Global;

/// A new text of these characters, for a cell for each byte.
///
/// # Errors
/// `StopCells` exactly where they are over the limit, `Memory` where a growth was refused.
pub fn new_text(alloc: Global, store: &mut Store, text: &str) -> Result<Value, OpEnd>
    ensures plain { (steps : ℕ) → Meets result (state_of store.new steps)
        (new_text (chars text.now) (state_of store.old steps)) }
    ensures same { store.new.heap ≡ store.old.heap }
    ensures sound { (heap : List Owned) → IfOk result (λ v. IsSound heap v) }
    ensures counters { KeepsCounters store.old store.new }
{
    charge(store, text.len() as u64)?;
    let text = Text::new(alloc, text)?;
    Ok(Value::Rock(Rock::Text(text)))
}

/// A new text of one character, for a cell for each of its bytes.
///
/// # Errors
/// As `new_text`.
pub fn new_character(alloc: Global, store: &mut Store, letter: char) -> Result<Value, OpEnd>
    ensures plain { (steps : ℕ) → Meets result (state_of store.new steps)
        (new_text (letter ∷ []) (state_of store.old steps)) }
    ensures same { store.new.heap ≡ store.old.heap }
    ensures sound { (heap : List Owned) → IfOk result (λ v. IsSound heap v) }
    ensures counters { KeepsCounters store.old store.new }
{
    charge(store, letter.len_utf8() as u64)?;
    let text = text_of_character(alloc, letter)?;
    Ok(Value::Rock(Rock::Text(text)))
}

/// # Errors
/// `Memory` where a growth was refused.
fn text_of_character(alloc: Global, letter: char) -> Result<Text, Memory>
    ensures { IfOk result (λ t. t ≡ letter ∷ []) }
{
    let mut text = String::with_capacity(alloc, letter.len_utf8())?;
    text.push(letter)?;
    Text::from_string(alloc, text)
}

/// A new object of a side, for its cells.
///
/// # Errors
/// `StopCells` exactly where they are over the limit, `Memory` where a growth was refused. The store is then as before.
pub fn new_object(store: &mut Store, side: Side, object: Object) -> Result<Value, OpEnd>
    requires holds { Holds store.old.heap side (content_of object) }
    requires value { ¬ IsScope (content_of object) }
    ensures plain { (steps : ℕ) → Meets result (state_of store.new steps)
        (new_object side (content_of object) (state_of store.old steps)) }
    ensures made { OnOk result (store.new ≡ made store.old side (content_of object)) }
    ensures sound { IfOk result (λ v. IsSound store.new.heap v) }
    ensures shape { KeepsShape store.old.heap store.new.heap }
    ensures same { OnErr result (store.new ≡ store.old) }
    ensures counters { KeepsCounters store.old store.new }
{
    let at = store.make(side, object)?;
    Ok(Value::Ref(at))
}
