//! Arguments are bound to parameters.
#![tactic(auto, using(rp_store::proofs::CallerLemmas::goes_on))]

ghost use Rattle.std.specs.Prelude.{◌≡◌, ℕ, All, IfOk, drop, length, true};
ghost use Rattle.rp_ops.specs.Outcome.{Meets, Raises, state_of};
ghost use Rattle.rp_store.specs.Counters.{KeepsCounters};
ghost use Rattle.rp_store.specs.Heap.{Names as IsAt};
ghost use Rattle.rp_store.specs.Kept.{AreSound, Holds, IsEntry, IsSound};
ghost use Rattle.rp_store.specs.Object.{content_of, dict, tuple};
ghost use Rattle.rp_store.specs.Parts.{IsFunction, IsScope};
ghost use Rattle.rp_store.specs.Shape.{KeepsShape};
ghost use Rattle.rp_calls.specs.Binding.{all_made, bind, defaults_at, has_dict, has_list, plain, refused, slot_made};
ghost use Rattle.rp_calls.specs.View.{AreSlotsSound, slots_of};

use crate::others::{entries_for, rest_of};
use crate::parameters::plain_slots;
use rp_base::{Kind, Memory, Names, Oid, OpEnd, Rock, Side, Text, Value};
use rp_dict::Dict;
use rp_ops::{copies, new_object, raised};
use rp_store::{Key, Object, Store};
use rp_tree::Params;
use std::alloc::Global;

/// Binds the arguments of a call to the parameters of a function, whose defaults are those of the function at a place
/// of the store (Python Language Reference, Calls): a slot with its value for each parameter, those without a star
/// first, then `*NAME`, then `**NAME`. Positional arguments fill the parameters without a star in order, and those that
/// are left over go to `*NAME` as a tuple of the side. An argument by name fills the parameter without a star that has
/// its name, and goes to `**NAME` as an entry of a dict of the side where there is none. A parameter that is still
/// empty takes its default. The tuple and then the dict are made, each also where it is empty, for a cell and one for
/// each element or entry. It takes no step.
///
/// # Errors
/// - `Raised` with `TypeError` and the text `arguments`, where an argument has no place, a parameter is filled twice, a
///   name is given twice, or a parameter stays empty. The store is then as before.
/// - `StopCells` where the cells of the tuple are over the limit, the store being as before, or then those of the dict,
///   where the tuple is made.
/// - `Memory` where a growth was refused.
pub fn bind(
    alloc: Global,
    store: &mut Store,
    names: &Names,
    side: Side,
    params: &Params,
    function: Oid,
    args: &[Value],
    named: &[(Text, Value)],
) -> Result<Vec<Option<Value>>, OpEnd>
    requires function { IsAt store.old.heap IsFunction function }
    requires args { AreSound store.old.heap args.now }
    requires named { All (λ g. IsSound store.old.heap g.1) named.now }
    ensures plain { (steps : ℕ) → Meets (slots_of result) (state_of store.new steps)
        (bind side names.now params.now (defaults_at store.old.heap function) args.now named.now
        (state_of store.old steps)) }
    ensures sound { IfOk result (λ slots. AreSlotsSound store.new.heap slots.items) }
    ensures shape { KeepsShape store.old.heap store.new.heap }
    ensures counters { KeepsCounters store.old store.new }
{
    let plain = params.plain.as_slice();
    if params.list.is_none() && args.len() > plain.len() {
        return Err(no_binding(alloc));
    }
    let defaults = defaults_of(store, function);
    let Some(slots) = plain_slots(alloc, store.seed(), names, plain, defaults, args, named)? else {
        return Err(no_binding(alloc));
    };
    let Some(entries) = entries_for(alloc, store.seed(), names, params, named)? else {
        return Err(no_binding(alloc));
    };
    with_stars(alloc, store, side, params, args, entries, slots)
}

/// The slots with those of `*NAME` and `**NAME`, where there are such parameters.
///
/// # Errors
/// As `with_list`, and then as `with_dict`.
fn with_stars(
    alloc: Global,
    store: &mut Store,
    side: Side,
    params: &Params,
    args: &[Value],
    entries: Dict<Key, (Rock, Value)>,
    slots: Vec<Option<Value>>,
) -> Result<Vec<Option<Value>>, OpEnd>
    requires args { AreSound store.old.heap args.now }
    requires entries { All (IsEntry store.old.heap) entries }
    requires slots { AreSlotsSound store.old.heap slots.items }
    ensures plain { (steps : ℕ) → Meets (slots_of result) (state_of store.new steps)
        (all_made side params.now slots.items (drop (length (plain params.now)) args.now) entries
        (state_of store.old steps)) }
    ensures sound { IfOk result (λ slots. AreSlotsSound store.new.heap slots.items) }
    ensures shape { KeepsShape store.old.heap store.new.heap }
    ensures counters { KeepsCounters store.old store.new }
{
    let slots = with_list(alloc, store, side, params, args, slots)?;
    with_dict(store, side, params, entries, slots)
}

/// The defaults of a function.
fn defaults_of(store: &Store, function: Oid) -> &[Value]
    requires { IsAt store.now.heap IsFunction function }
    ensures defaults { result.now ≡ defaults_at store.now.heap function }
    ensures sound { AreSound store.now.heap result.now }
{
    match store.object(function) {
        Object::Function { defaults, .. } => defaults.as_slice(),
        _ => &[],
    }
}

/// The end of a call whose arguments cannot be bound; `Memory` where there is none for its text.
fn no_binding(alloc: Global) -> OpEnd
    ensures { Raises result refused }
{
    raised(alloc, Kind::TypeError, "arguments")
}

/// The slots with that of `*NAME`, where there is such a parameter.
///
/// # Errors
/// `StopCells` where the cells of the tuple are over the limit, `Memory` where a growth was refused. The store is then
/// as before.
fn with_list(
    alloc: Global,
    store: &mut Store,
    side: Side,
    params: &Params,
    args: &[Value],
    slots: Vec<Option<Value>>,
) -> Result<Vec<Option<Value>>, OpEnd>
    requires args { AreSound store.old.heap args.now }
    requires slots { AreSlotsSound store.old.heap slots.items }
    ensures plain { (steps : ℕ) → Meets (slots_of result) (state_of store.new steps)
        (slot_made (has_list params.now) side (tuple (drop (length (plain params.now)) args.now)) slots.items
        (state_of store.old steps)) }
    ensures sound { IfOk result (λ slots. AreSlotsSound store.new.heap slots.items) }
    ensures shape { KeepsShape store.old.heap store.new.heap }
    ensures counters { KeepsCounters store.old store.new }
{
    if params.list.is_none() {
        return Ok(slots);
    }
    let rest = copies(alloc, rest_of(args, params.plain.len()))?;
    with_object(store, side, Object::Tuple(rest), slots)
}

/// The slots with that of `**NAME`, where there is such a parameter.
///
/// # Errors
/// As `with_list`, of the dict.
fn with_dict(
    store: &mut Store,
    side: Side,
    params: &Params,
    entries: Dict<Key, (Rock, Value)>,
    slots: Vec<Option<Value>>,
) -> Result<Vec<Option<Value>>, OpEnd>
    requires entries { All (IsEntry store.old.heap) entries }
    requires slots { AreSlotsSound store.old.heap slots.items }
    ensures plain { (steps : ℕ) → Meets (slots_of result) (state_of store.new steps)
        (slot_made (has_dict params.now) side (dict entries) slots.items (state_of store.old steps)) }
    ensures sound { IfOk result (λ slots. AreSlotsSound store.new.heap slots.items) }
    ensures shape { KeepsShape store.old.heap store.new.heap }
    ensures counters { KeepsCounters store.old store.new }
{
    if params.dict.is_none() {
        return Ok(slots);
    }
    with_object(store, side, Object::Dict(entries), slots)
}

/// The slots with that of a new object.
///
/// # Errors
/// `StopCells` where the cells of the object are over the limit, `Memory` where a growth was refused. The store is then
/// as before.
fn with_object(
    store: &mut Store,
    side: Side,
    object: Object,
    slots: Vec<Option<Value>>,
) -> Result<Vec<Option<Value>>, OpEnd>
    requires holds { Holds store.old.heap side (content_of object) }
    requires value { ¬ IsScope (content_of object) }
    requires slots { AreSlotsSound store.old.heap slots.items }
    ensures plain { (steps : ℕ) → Meets (slots_of result) (state_of store.new steps)
        (slot_made true side (content_of object) slots.items (state_of store.old steps)) }
    ensures sound { IfOk result (λ slots. AreSlotsSound store.new.heap slots.items) }
    ensures shape { KeepsShape store.old.heap store.new.heap }
    ensures counters { KeepsCounters store.old store.new }
{
    let mut slots = slots;
    slots.reserve(1).map_err(Memory::from)?;
    let value = new_object(store, side, object)?;
    slots.push(Some(value)).unwrap();
    Ok(slots)
}
