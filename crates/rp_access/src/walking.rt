//! Walks over values behind their decision.
#![tactic(auto, using(rp_store::proofs::CallerLemmas::goes_on))]

ghost use Rattle.std.specs.Prelude.{◌≤◌, ◌<◌, ◌≡◌, [], encode_utf8_all, false, true, IfOk, IfSome, map};
ghost use Rattle.std.specs.Str.{IsCharBoundary};
ghost use Rattle.rp_meaning.specs.State.{plainly};
ghost use Rattle.rp_ops.specs.Outcome.{Answers, Meets};
ghost use Rattle.rp_ops.specs.Outcome as plain;
ghost use Rattle.rp_ops.specs.View.{key_rock};
ghost use Rattle.rp_ops.specs.Walk.{characters_from, elements_from, keys_from, next_key, next_of, object_walk};
ghost use Rattle.rp_ops.specs.Walk.{rock_walk, walk_of};
ghost use Rattle.rp_proxy.specs.Faithful.{IsFaithful};
ghost use Rattle.rp_store.specs.Heap.{IsHeld};
ghost use Rattle.rp_store.specs.Kept.{IsFit, IsSound};
ghost use Rattle.rp_store.specs.Shape.{KeepsShape};
ghost use Rattle.rp_access.specs.Comes.{Comes};
ghost use Rattle.rp_access.specs.Moment.{state_of};
ghost use Rattle.rp_access.specs.Spots.{characters_at, cursor_at, next_at, next_taken, object_cursor, object_next};
ghost use Rattle.rp_access.specs.Spots.{rock_cursor, text_cursor, text_next, walk_asked, walk_at};

use crate::deciding::ask;
use crate::operating::taken;
use rp_base::word::ITER;
use rp_base::{Meter, Oid, OpEnd, Rock, Side, Text, Value};
use rp_dict::Dict;
use rp_frame::Spot;
use rp_ops::{Elements, Refusal, key_at, next_letter, step};
use rp_proxy::World;
use rp_store::{Key, Object, Store};
use std::alloc::Global;

/// The spot at which a walk over a value begins (Python Language Reference, The for statement; zope.security, proxies).
/// It is decided first whether `__iter__` may be read.
///
/// # Errors
/// - As `rp_proxy::cross`, where the decision refuses.
/// - `Raised` with `TypeError` and the text `iterate`, where the value cannot be walked.
#[inline(never)]
pub fn walk(alloc: Global, world: &mut World, value: &Value) -> Result<Spot, OpEnd>
    requires faithful { IsFaithful world.old }
    requires sound { IsSound world.old.store.heap value.now }
    ensures law { Comes (walk_at value.now result) (state_of world.new) (walk_asked value.now (state_of world.old)) }
    ensures faithful { IsFaithful world.new }
    ensures shape { KeepsShape world.old.store.heap world.new.store.heap }
    ensures fewer { world.new.running.meter.left ≤ world.old.running.meter.left }
{
    ask(alloc, world, value, ITER)?;
    first_spot(alloc, &world.store, value)
}

fn first_spot(alloc: Global, store: &Store, value: &Value) -> Result<Spot, OpEnd>
    requires sound { IsSound store.now.heap value.now }
    ensures { Answers (walk_at value.now result) (walk_of store.now.heap value.now) }
{
    match value {
        Value::Rock(rock) => rock_spot(alloc, rock),
        Value::Ref(at) => object_spot(alloc, store, *at),
        Value::Prox(at) => object_spot(alloc, store, *at),
    }
}

fn rock_spot(alloc: Global, rock: &Rock) -> Result<Spot, OpEnd>
    ensures { Answers (walk_at (Value.Rock rock.now) result) (rock_walk rock.now) }
{
    match rock {
        Rock::Text(text) => Ok(text_spot(text)),
        Rock::Nil
        | Rock::Truth(_)
        | Rock::Int(_)
        | Rock::Exc(_, _)
        | Rock::Kind(_)
        | Rock::Native(_) => Err(Refusal::Iterate.end(alloc)),
    }
}

/// The spot before the first character of a text.
fn text_spot(text: &Text) -> Spot
    ensures { text_cursor text.now result ≡ characters_from text.now }
{
    let _letters = text.as_str();
    Spot::Letter(0)
}

fn object_spot(alloc: Global, store: &Store, at: Oid) -> Result<Spot, OpEnd>
    requires { IsHeld store.now.heap at }
    ensures own { Answers (walk_at (Value.Ref at) result) (object_walk store.now.heap false at) }
    ensures lent { Answers (walk_at (Value.Prox at) result) (object_walk store.now.heap true at) }
{
    match store.object(at) {
        Object::List(_) => Ok(Spot::Element(0)),
        Object::Tuple(_) => Ok(Spot::Element(0)),
        Object::Dict(entries) => Ok(Spot::Key(0, entries.len())),
        Object::Instance { .. }
        | Object::Class { .. }
        | Object::Function { .. }
        | Object::Method { .. }
        | Object::Scope { .. } => Err(Refusal::Iterate.end(alloc)),
    }
}

/// The next element of a walk over a value, as code of a side takes it, and the spot behind it; None where there is
/// none (Python Language Reference, The for statement). An element takes a step, and a character then costs a cell for
/// each of its bytes. Nothing is decided.
///
/// # Errors
/// - `Raised` with `RuntimeError` and the text `dict size`, where a dict has another number of keys than at first.
/// - `StopSteps` where no step is left for the element, `StopCells` where the cells of a character are over the limit.
/// - `Memory` where a growth was refused.
#[inline(always)]
pub fn next_element(
    alloc: Global,
    world: &mut World,
    side: Side,
    value: &Value,
    spot: Spot,
) -> Result<Option<(Value, Spot)>, OpEnd>
    requires faithful { IsFaithful world.old }
    requires sound { IsSound world.old.store.heap value.now }
    ensures law { Comes (next_at value.now result) (state_of world.new)
        (next_taken side (cursor_at value.now spot) (state_of world.old)) }
    ensures faithful { IsFaithful world.new }
    ensures shape { KeepsShape world.old.store.heap world.new.store.heap }
    ensures fit { IfOk result (λ found. IfSome found (λ e. IsFit world.new.store.heap side e.0)) }
    ensures fewer { world.new.running.meter.left ≤ world.old.running.meter.left }
    ensures took { IfOk result (λ found. IfSome found (λ _.
        world.new.running.meter.left < world.old.running.meter.left)) }
{
    match plain_next(alloc, world, value, spot)? {
        Some((element, next)) => Ok(Some((taken(world, element, side), next))),
        None => Ok(None),
    }
}

#[inline(always)]
fn plain_next(
    alloc: Global,
    world: &mut World,
    value: &Value,
    spot: Spot,
) -> Result<Option<(Value, Spot)>, OpEnd>
    requires faithful { IsFaithful world.old }
    requires sound { IsSound world.old.store.heap value.now }
    ensures law { Comes (next_at value.now result) (state_of world.new)
        (plainly (next_of (cursor_at value.now spot)) (state_of world.old)) }
    ensures faithful { IsFaithful world.new }
    ensures heap { world.new.store.heap ≡ world.old.store.heap }
    ensures sound { IfOk result (λ found. IfSome found (λ e. IsSound world.new.store.heap e.0)) }
    ensures fewer { world.new.running.meter.left ≤ world.old.running.meter.left }
    ensures took { IfOk result (λ found. IfSome found (λ _.
        world.new.running.meter.left < world.old.running.meter.left)) }
{
    value_next(
        alloc,
        &mut world.store,
        &mut world.running.meter,
        value,
        spot,
    )
}

#[inline(always)]
fn value_next(
    alloc: Global,
    store: &mut Store,
    meter: &mut Meter,
    value: &Value,
    spot: Spot,
) -> Result<Option<(Value, Spot)>, OpEnd>
    requires sound { IsSound store.old.heap value.now }
    ensures plain { Meets (next_at value.now result) (plain.state_of store.new meter.new.left)
        (next_of (cursor_at value.now spot) (plain.state_of store.old meter.old.left)) }
    ensures heap { store.new.heap ≡ store.old.heap }
    ensures sound { IfOk result (λ found. IfSome found (λ e. IsSound store.new.heap e.0)) }
    ensures fewer { meter.new.left ≤ meter.old.left }
{
    match value {
        Value::Rock(rock) => rock_next(alloc, store, meter, rock, spot),
        Value::Ref(at) => object_next(
            alloc,
            store,
            meter,
            Elements {
                at: *at,
                lent: false,
            },
            spot,
        ),
        Value::Prox(at) => object_next(
            alloc,
            store,
            meter,
            Elements {
                at: *at,
                lent: true,
            },
            spot,
        ),
    }
}

#[inline(always)]
fn rock_next(
    alloc: Global,
    store: &mut Store,
    meter: &mut Meter,
    rock: &Rock,
    spot: Spot,
) -> Result<Option<(Value, Spot)>, OpEnd>
    ensures plain { Meets (next_at (Value.Rock rock.now) result) (plain.state_of store.new meter.new.left)
        (next_of (rock_cursor rock.now spot) (plain.state_of store.old meter.old.left)) }
    ensures heap { store.new.heap ≡ store.old.heap }
    ensures sound { IfOk result (λ found. IfSome found (λ e. IsSound store.new.heap e.0)) }
    ensures fewer { meter.new.left ≤ meter.old.left }
{
    match rock {
        Rock::Text(text) => text_next(alloc, store, meter, text, spot),
        Rock::Nil
        | Rock::Truth(_)
        | Rock::Int(_)
        | Rock::Exc(_, _)
        | Rock::Kind(_)
        | Rock::Native(_) => Ok(None),
    }
}

#[inline(always)]
fn text_next(
    alloc: Global,
    store: &mut Store,
    meter: &mut Meter,
    text: &Text,
    spot: Spot,
) -> Result<Option<(Value, Spot)>, OpEnd>
    ensures plain { Meets (text_next text.now result) (plain.state_of store.new meter.new.left)
        (next_of (text_cursor text.now spot) (plain.state_of store.old meter.old.left)) }
    ensures heap { store.new.heap ≡ store.old.heap }
    ensures sound { IfOk result (λ found. IfSome found (λ e. IsSound store.new.heap e.0)) }
    ensures fewer { meter.new.left ≤ meter.old.left }
{
    match spot {
        Spot::Letter(next) => letter_after(alloc, store, meter, text, next),
        Spot::Element(_) | Spot::Key(_, _) => Ok(None),
    }
}

/// The character that begins at a byte of a text, and the spot behind it; None where none begins there.
#[inline(never)]
fn letter_after(
    alloc: Global,
    store: &mut Store,
    meter: &mut Meter,
    text: &Text,
    next: usize,
) -> Result<Option<(Value, Spot)>, OpEnd>
    ensures plain { Meets (text_next text.now result) (plain.state_of store.new meter.new.left)
        (next_of (characters_from (characters_at text.now next)) (plain.state_of store.old meter.old.left)) }
    ensures heap { store.new.heap ≡ store.old.heap }
    ensures sound { IfOk result (λ found. IfSome found (λ e. IsSound store.new.heap e.0)) }
    ensures fewer { meter.new.left ≤ meter.old.left }
{
    if !begins_at(text, next) {
        return Ok(None);
    }
    letter_behind(alloc, store, meter, text, next)
}

/// Whether a character begins at a byte of a text, or the text ends there.
#[inline(always)]
fn begins_at(text: &Text, at: usize) -> bool
    ensures on { result ≡ true → IsCharBoundary (encode_utf8_all text.now) at }
    ensures off { result ≡ false → characters_at text.now at ≡ [] }
{
    text.as_str().is_char_boundary(at)
}

fn letter_behind(
    alloc: Global,
    store: &mut Store,
    meter: &mut Meter,
    text: &Text,
    next: usize,
) -> Result<Option<(Value, Spot)>, OpEnd>
    requires boundary { IsCharBoundary (encode_utf8_all text.now) next }
    ensures plain { Meets (text_next text.now result) (plain.state_of store.new meter.new.left)
        (next_of (characters_from (characters_at text.now next)) (plain.state_of store.old meter.old.left)) }
    ensures heap { store.new.heap ≡ store.old.heap }
    ensures sound { IfOk result (λ found. IfSome found (λ e. IsSound store.new.heap e.0)) }
    ensures fewer { meter.new.left ≤ meter.old.left }
{
    let mut behind = next;
    match next_letter(alloc, store, meter, text, &mut behind)? {
        Some(letter) => Ok(Some((letter, Spot::Letter(behind)))),
        None => Ok(None),
    }
}

#[inline(always)]
fn object_next(
    alloc: Global,
    store: &mut Store,
    meter: &mut Meter,
    x: Elements,
    spot: Spot,
) -> Result<Option<(Value, Spot)>, OpEnd>
    requires held { IsHeld store.old.heap x.at }
    ensures plain { Meets (object_next x.lent x.at result) (plain.state_of store.new meter.new.left)
        (next_of (object_cursor x.lent x.at spot) (plain.state_of store.old meter.old.left)) }
    ensures heap { store.new.heap ≡ store.old.heap }
    ensures sound { IfOk result (λ found. IfSome found (λ e. IsSound store.new.heap e.0)) }
    ensures fewer { meter.new.left ≤ meter.old.left }
{
    match spot {
        Spot::Element(next) => element_after(store, meter, x, next),
        Spot::Key(next, size) => key_after(alloc, store, meter, x, next, size),
        Spot::Letter(_) => Ok(None),
    }
}

#[inline(always)]
fn element_after(
    store: &Store,
    meter: &mut Meter,
    x: Elements,
    next: usize,
) -> Result<Option<(Value, Spot)>, OpEnd>
    requires held { IsHeld store.now.heap x.at }
    ensures plain { Meets (object_next x.lent x.at result) (plain.state_of store.now meter.new.left)
        (next_of (elements_from x.lent x.at next) (plain.state_of store.now meter.old.left)) }
    ensures sound { IfOk result (λ found. IfSome found (λ e. IsSound store.now.heap e.0)) }
    ensures fewer { meter.new.left ≤ meter.old.left }
{
    let mut behind = next;
    match rp_ops::next_element(store, meter, x, &mut behind)? {
        Some(value) => Ok(Some((value, Spot::Element(behind)))),
        None => Ok(None),
    }
}

#[inline(never)]
fn key_after(
    alloc: Global,
    store: &mut Store,
    meter: &mut Meter,
    x: Elements,
    next: usize,
    size: usize,
) -> Result<Option<(Value, Spot)>, OpEnd>
    requires held { IsHeld store.old.heap x.at }
    ensures plain { Meets (object_next x.lent x.at result) (plain.state_of store.new meter.new.left)
        (next_of (keys_from x.at next size) (plain.state_of store.old meter.old.left)) }
    ensures heap { store.new.heap ≡ store.old.heap }
    ensures sound { IfOk result (λ found. IfSome found (λ e. IsSound store.new.heap e.0)) }
    ensures fewer { meter.new.left ≤ meter.old.left }
{
    store.seek(x.at, next);
    key_found(alloc, store, meter, x, next, size)
}

#[inline(always)]
fn key_found(
    alloc: Global,
    store: &Store,
    meter: &mut Meter,
    x: Elements,
    next: usize,
    size: usize,
) -> Result<Option<(Value, Spot)>, OpEnd>
    requires held { IsHeld store.now.heap x.at }
    ensures plain { Meets (object_next x.lent x.at result) (plain.state_of store.now meter.new.left)
        (next_of (keys_from x.at next size) (plain.state_of store.now meter.old.left)) }
    ensures sound { IfOk result (λ found. IfSome found (λ e. IsSound store.now.heap e.0)) }
    ensures fewer { meter.new.left ≤ meter.old.left }
{
    match store.object(x.at) {
        Object::Dict(entries) => key_in(alloc, store, meter, x, entries, next, size),
        _ => no_key(alloc, store, meter, x, next, size),
    }
}

#[inline(always)]
fn key_in(
    alloc: Global,
    store: &Store,
    meter: &mut Meter,
    x: Elements,
    entries: &Dict<Key, (Rock, Value)>,
    next: usize,
    size: usize,
) -> Result<Option<(Value, Spot)>, OpEnd>
    ensures plain { Meets (object_next x.lent x.at result) (plain.state_of store.now meter.new.left)
        (next_key (map key_rock entries.now) x.at next size (plain.state_of store.now meter.old.left)) }
    ensures sound { IfOk result (λ found. IfSome found (λ e. IsSound store.now.heap e.0)) }
    ensures fewer { meter.new.left ≤ meter.old.left }
{
    if entries.len() != size {
        return Err(Refusal::Resized.end(alloc));
    }
    if next >= size {
        return Ok(None);
    }
    let key = key_at(entries, next)?;
    step(meter)?;
    Ok(Some((key, Spot::Key(next + 1, size))))
}

/// What is no dict has no keys. A dict stays one, so this is not come to.
fn no_key(
    alloc: Global,
    store: &Store,
    meter: &Meter,
    x: Elements,
    next: usize,
    size: usize,
) -> Result<Option<(Value, Spot)>, OpEnd>
    ensures plain { Meets (object_next x.lent x.at result) (plain.state_of store.now meter.now.left)
        (next_key [] x.at next size (plain.state_of store.now meter.now.left)) }
    ensures sound { IfOk result (λ found. IfSome found (λ e. IsSound store.now.heap e.0)) }
{
    if size == 0 {
        return Ok(None);
    }
    Err(Refusal::Resized.end(alloc))
}
