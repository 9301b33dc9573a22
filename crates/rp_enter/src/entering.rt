//! What is done before the code of a function runs.
#![tactic(auto, using(rp_store::proofs::CallerLemmas::goes_on))]

ghost use Rattle.std.specs.Prelude.{◌≤◌, ◌≡◌, ◌≢◌, ◌∷◌, ℕ, Err, IfOk, IfSome, IsTrue, OnErr, OnOk, map, option_map};
ghost use Rattle.rp_calls.specs.Binding.{defaults_at};
ghost use Rattle.rp_calls.specs.View.{AreSlotsSound, slots_of};
ghost use Rattle.rp_meaning.specs.Binding.{bind, only};
ghost use Rattle.rp_meaning.specs.Running.{slots_taken};
ghost use Rattle.rp_meaning.specs.State.{plainly};
ghost use Rattle.rp_proxy.specs.Faithful.{IsFaithful};
ghost use Rattle.rp_proxy.specs.Taken.{taken};
ghost use Rattle.rp_store.specs.Heap.{Names as IsAt};
ghost use Rattle.rp_store.specs.Kept.{AreFit, AreSound, Holds, IsFit, IsSafe, IsScopeOf, IsSound};
ghost use Rattle.rp_ops.specs.Outcome.{Meets, makes};
ghost use Rattle.rp_ops.specs.Outcome as plain;
ghost use Rattle.rp_store.specs.Object.{content_of};
ghost use Rattle.rp_store.specs.Parts.{IsClass, IsFunction, IsInstance, IsScope};
ghost use Rattle.rp_store.specs.Shape.{KeepsShape};
ghost use Rattle.rp_store.specs.Store.{made};
ghost use Rattle.rp_tree.specs.ExpressionViews.{view_params};
ghost use Rattle.rp_access.specs.Comes.{Comes};
ghost use Rattle.rp_enter.specs.Entering.{AreNamedSound, AreSlotsFit, before_all, entered, entered_with, filled_to};
ghost use Rattle.rp_enter.specs.Entering.{instance_made, lent_by, scope_made};
ghost use Rattle.rp_access.specs.Moment.{state_of};

use rp_access::taken;
use rp_base::{Memory, Oid, OpEnd, Side, Text, Value};
use rp_dict::Dict;
use rp_ops::lent;
use rp_proxy::World;
use rp_store::{Object, Store};
use rp_tree::Params;
use std::alloc::Global;

/// The function that is entered: its place in the store, its side, the number of its code block, and the scope around.
#[derive(Clone, Copy, Debug)]
pub struct Entry {
    pub function: Oid,
    pub side: Side,
    pub block: usize,
    pub within: Oid,
}

/// Enters the code of a function, by a call from code of a side: takes the arguments for the function's side, binds
/// them to the parameters, takes what these are bound to, and makes its scope (Python Language Reference, Calls, Naming
/// and binding; zope.security, proxies). Its code block has so many local names.
///
/// # Errors
/// As `rp_calls::bind`; `StopCells` where the cells of the scope are over the limit.
pub fn enter(
    alloc: Global,
    world: &mut World,
    from: Side,
    entry: Entry,
    locals: usize,
    params: &Params,
    args: &[Value],
) -> Result<Oid, OpEnd>
    requires faithful { IsFaithful world.old }
    requires function { IsAt world.old.store.heap IsFunction entry.function }
    requires within { IsScopeOf world.old.store.heap entry.side entry.within }
    requires args { AreFit world.old.store.heap from args.now }
    ensures law { Comes result (state_of world.new)
        (entered entry.side entry.block entry.within locals (view_params params.now)
        (defaults_at world.old.store.heap entry.function) (only args.now) (state_of world.old)) }
    ensures faithful { (result ≢ Err OpEnd.Memory) → IsFaithful world.new }
    ensures shape { KeepsShape world.old.store.heap world.new.store.heap }
    ensures scope { IfOk result (IsScopeOf world.new.store.heap entry.side) }
    ensures fewer { world.new.running.meter.left ≤ world.old.running.meter.left }
{
    if from == entry.side {
        return enter_with(alloc, world, entry, locals, params, args, &[]);
    }
    enter_taken(alloc, world, entry, locals, params, args, &[])
}

/// The same, with a value before the arguments, from which side ever it is called.
///
/// # Errors
/// As `enter`, and `Memory` where a growth was refused.
pub fn enter_bound(
    alloc: Global,
    world: &mut World,
    entry: Entry,
    locals: usize,
    params: &Params,
    receiver: Value,
    args: &[Value],
) -> Result<Oid, OpEnd>
    requires faithful { IsFaithful world.old }
    requires function { IsAt world.old.store.heap IsFunction entry.function }
    requires within { IsScopeOf world.old.store.heap entry.side entry.within }
    requires receiver { IsSound world.old.store.heap receiver }
    requires args { AreSound world.old.store.heap args.now }
    ensures law { Comes result (state_of world.new)
        (entered entry.side entry.block entry.within locals (view_params params.now)
        (defaults_at world.old.store.heap entry.function) (only (receiver ∷ args.now)) (state_of world.old)) }
    ensures faithful { (result ≢ Err OpEnd.Memory) → IsFaithful world.new }
    ensures shape { KeepsShape world.old.store.heap world.new.store.heap }
    ensures scope { IfOk result (IsScopeOf world.new.store.heap entry.side) }
    ensures fewer { world.new.running.meter.left ≤ world.old.running.meter.left }
{
    enter_behind(alloc, world, entry, locals, params, receiver, args, &[])
}

/// The same, with arguments with names, too, each of which is a text and a value; a value stands before all of them, or
/// none.
///
/// # Errors
/// As `enter_bound`.
pub fn enter_named(
    alloc: Global,
    world: &mut World,
    entry: Entry,
    locals: usize,
    params: &Params,
    receiver: Option<Value>,
    args: &[Value],
    named: &[(Text, Value)],
) -> Result<Oid, OpEnd>
    requires faithful { IsFaithful world.old }
    requires function { IsAt world.old.store.heap IsFunction entry.function }
    requires within { IsScopeOf world.old.store.heap entry.side entry.within }
    requires receiver { IfSome receiver (IsSound world.old.store.heap) }
    requires args { AreSound world.old.store.heap args.now }
    requires named { AreNamedSound world.old.store.heap named.now }
    ensures law { Comes result (state_of world.new)
        (entered entry.side entry.block entry.within locals (view_params params.now)
        (defaults_at world.old.store.heap entry.function)
        (before_all receiver (record { plain = args.now; named = named.now })) (state_of world.old)) }
    ensures faithful { (result ≢ Err OpEnd.Memory) → IsFaithful world.new }
    ensures shape { KeepsShape world.old.store.heap world.new.store.heap }
    ensures scope { IfOk result (IsScopeOf world.new.store.heap entry.side) }
    ensures fewer { world.new.running.meter.left ≤ world.old.running.meter.left }
{
    match receiver {
        None => enter_taken(alloc, world, entry, locals, params, args, named),
        Some(value) => enter_behind(alloc, world, entry, locals, params, value, args, named),
    }
}

/// The same, behind a value.
fn enter_behind(
    alloc: Global,
    world: &mut World,
    entry: Entry,
    locals: usize,
    params: &Params,
    receiver: Value,
    args: &[Value],
    named: &[(Text, Value)],
) -> Result<Oid, OpEnd>
    requires faithful { IsFaithful world.old }
    requires function { IsAt world.old.store.heap IsFunction entry.function }
    requires within { IsScopeOf world.old.store.heap entry.side entry.within }
    requires receiver { IsSound world.old.store.heap receiver }
    requires args { AreSound world.old.store.heap args.now }
    requires named { AreNamedSound world.old.store.heap named.now }
    ensures law { Comes result (state_of world.new)
        (entered entry.side entry.block entry.within locals (view_params params.now)
        (defaults_at world.old.store.heap entry.function)
        (record { plain = receiver ∷ args.now; named = named.now }) (state_of world.old)) }
    ensures faithful { (result ≢ Err OpEnd.Memory) → IsFaithful world.new }
    ensures shape { KeepsShape world.old.store.heap world.new.store.heap }
    ensures scope { IfOk result (IsScopeOf world.new.store.heap entry.side) }
    ensures fewer { world.new.running.meter.left ≤ world.old.running.meter.left }
{
    let all = behind(alloc, receiver, args)?;
    enter_taken(alloc, world, entry, locals, params, all.as_slice(), named)
}

/// Takes the arguments for the function's side.
fn enter_taken(
    alloc: Global,
    world: &mut World,
    entry: Entry,
    locals: usize,
    params: &Params,
    args: &[Value],
    named: &[(Text, Value)],
) -> Result<Oid, OpEnd>
    requires faithful { IsFaithful world.old }
    requires function { IsAt world.old.store.heap IsFunction entry.function }
    requires within { IsScopeOf world.old.store.heap entry.side entry.within }
    requires args { AreSound world.old.store.heap args.now }
    requires named { AreNamedSound world.old.store.heap named.now }
    ensures law { Comes result (state_of world.new)
        (entered entry.side entry.block entry.within locals (view_params params.now)
        (defaults_at world.old.store.heap entry.function) (record { plain = args.now; named = named.now })
        (state_of world.old)) }
    ensures faithful { (result ≢ Err OpEnd.Memory) → IsFaithful world.new }
    ensures shape { KeepsShape world.old.store.heap world.new.store.heap }
    ensures scope { IfOk result (IsScopeOf world.new.store.heap entry.side) }
    ensures fewer { world.new.running.meter.left ≤ world.old.running.meter.left }
{
    let args = taken_all(alloc, world, entry.side, args)?;
    let named = named_taken(alloc, world, entry.side, named)?;
    enter_with(
        alloc,
        world,
        entry,
        locals,
        params,
        args.as_slice(),
        named.as_slice(),
    )
}

/// Arguments with names as code of a side takes them.
fn named_taken(
    alloc: Global,
    world: &World,
    side: Side,
    named: &[(Text, Value)],
) -> Result<Vec<(Text, Value)>, Memory>
    requires { AreNamedSound world.now.store.heap named.now }
    ensures values { IfOk result (λ all.
        all.items ≡ map (λ n. (n.0, taken world.now.store.heap side n.1)) named.now) }
    ensures sound { IfOk result (λ all. AreNamedSound world.now.store.heap all.items) }
{
    let mut all = Vec::with_capacity(alloc, named.len())?;
    for argument in named {
        all.push((argument.0.copy()?, taken_copy(world, side, &argument.1)?))?;
    }
    Ok(all)
}

/// Copies of arguments behind a value.
fn behind(alloc: Global, receiver: Value, args: &[Value]) -> Result<Vec<Value>, Memory>
    ensures { IfOk result (λ all. all.items ≡ receiver ∷ args.now) }
{
    let mut all = vec![in alloc; receiver]?;
    for arg in args {
        all.push(arg.copy()?)?;
    }
    Ok(all)
}

/// The same, with arguments that are taken.
fn enter_with(
    alloc: Global,
    world: &mut World,
    entry: Entry,
    locals: usize,
    params: &Params,
    args: &[Value],
    named: &[(Text, Value)],
) -> Result<Oid, OpEnd>
    requires faithful { IsFaithful world.old }
    requires function { IsAt world.old.store.heap IsFunction entry.function }
    requires within { IsScopeOf world.old.store.heap entry.side entry.within }
    requires args { AreSound world.old.store.heap args.now }
    requires named { AreNamedSound world.old.store.heap named.now }
    ensures law { Comes result (state_of world.new)
        (entered_with entry.side entry.block entry.within locals (view_params params.now)
        (defaults_at world.old.store.heap entry.function) (record { plain = args.now; named = named.now })
        (state_of world.old)) }
    ensures faithful { (result ≢ Err OpEnd.Memory) → IsFaithful world.new }
    ensures shape { KeepsShape world.old.store.heap world.new.store.heap }
    ensures scope { IfOk result (IsScopeOf world.new.store.heap entry.side) }
    ensures fewer { world.new.running.meter.left ≤ world.old.running.meter.left }
{
    let slots = bound(alloc, world, entry, params, args, named)?;
    let all = slots_taken(alloc, world, entry.side, slots)?;
    new_scope(world, entry.side, entry.block, entry.within, locals, all)
}

/// Values as code of a side takes them.
fn taken_all(
    alloc: Global,
    world: &World,
    side: Side,
    values: &[Value],
) -> Result<Vec<Value>, Memory>
    requires { AreSound world.now.store.heap values.now }
    ensures values { IfOk result (λ all. all.items ≡ map (taken world.now.store.heap side) values.now) }
    ensures sound { IfOk result (λ all. AreSound world.now.store.heap all.items) }
{
    let mut all = Vec::with_capacity(alloc, values.len())?;
    for value in values {
        all.push(taken_copy(world, side, value)?)?;
    }
    Ok(all)
}

/// A copy of a value as code of a side takes it.
fn taken_copy(world: &World, side: Side, value: &Value) -> Result<Value, Memory>
    requires { IsSound world.now.store.heap value.now }
    ensures value { IfOk result (λ v. v ≡ taken world.now.store.heap side value.now) }
    ensures sound { IfOk result (IsSound world.now.store.heap) }
    ensures fit { IfOk result (IsFit world.now.store.heap side) }
{
    Ok(taken(world, value.copy()?, side))
}

/// The slots of the parameters.
fn bound(
    alloc: Global,
    world: &mut World,
    entry: Entry,
    params: &Params,
    args: &[Value],
    named: &[(Text, Value)],
) -> Result<Vec<Option<Value>>, OpEnd>
    requires faithful { IsFaithful world.old }
    requires function { IsAt world.old.store.heap IsFunction entry.function }
    requires args { AreSound world.old.store.heap args.now }
    requires named { AreNamedSound world.old.store.heap named.now }
    ensures law { Comes (slots_of result) (state_of world.new)
        (plainly (bind entry.side world.old.names (view_params params.now)
        (defaults_at world.old.store.heap entry.function) (record { plain = args.now; named = named.now }))
        (state_of world.old)) }
    ensures faithful { (result ≢ Err OpEnd.Memory) → IsFaithful world.new }
    ensures shape { KeepsShape world.old.store.heap world.new.store.heap }
    ensures sound { IfOk result (λ slots. AreSlotsSound world.new.store.heap slots.items) }
    ensures fewer { world.new.running.meter.left ≤ world.old.running.meter.left }
{
    rp_calls::bind(
        alloc,
        &mut world.store,
        &world.names,
        entry.side,
        params,
        entry.function,
        args,
        named,
    )
}

/// What parameters are bound to, as code of a side takes it. It most often holds all of that already.
///
/// # Errors
/// `Memory` where a growth was refused.
fn slots_taken(
    alloc: Global,
    world: &World,
    side: Side,
    slots: Vec<Option<Value>>,
) -> Result<Vec<Option<Value>>, Memory>
    requires { AreSlotsSound world.now.store.heap slots.items }
    ensures slots { IfOk result (λ all. all.items ≡ slots_taken world.now.store.heap side slots.items) }
    ensures fit { IfOk result (λ all. AreSlotsFit world.now.store.heap side all.items) }
{
    if are_fit(&world.store, side, slots.as_slice()) {
        return Ok(slots);
    }
    each_taken(alloc, world, side, slots.as_slice())
}

/// The same, each for itself.
///
/// # Errors
/// As `slots_taken`.
fn each_taken(
    alloc: Global,
    world: &World,
    side: Side,
    slots: &[Option<Value>],
) -> Result<Vec<Option<Value>>, Memory>
    requires { AreSlotsSound world.now.store.heap slots.now }
    ensures slots { IfOk result (λ all. all.items ≡ slots_taken world.now.store.heap side slots.now) }
    ensures fit { IfOk result (λ all. AreSlotsFit world.now.store.heap side all.items) }
{
    let mut all = Vec::with_capacity(alloc, slots.len())?;
    for slot in slots {
        all.push(slot_taken(world, side, slot)?)?;
    }
    Ok(all)
}

/// The same, of one slot.
///
/// # Errors
/// `Memory` where a growth was refused.
fn slot_taken(world: &World, side: Side, slot: &Option<Value>) -> Result<Option<Value>, Memory>
    requires { IfSome slot.now (IsSound world.now.store.heap) }
    ensures slot { IfOk result (λ got. got ≡ option_map (taken world.now.store.heap side) slot.now) }
    ensures fit { IfOk result (λ got. IfSome got (IsFit world.now.store.heap side)) }
{
    match slot {
        None => Ok(None),
        Some(value) => Ok(Some(taken_copy(world, side, value)?)),
    }
}

/// Whether code of a side may hold what stands in some slots.
fn are_fit(store: &Store, side: Side, slots: &[Option<Value>]) -> bool
    requires { AreSlotsSound store.now.heap slots.now }
    ensures { IsTrue result → AreSlotsFit store.now.heap side slots.now }
{
    for slot in slots {
        if !is_fit(store, side, slot) {
            return false;
        }
    }
    true
}

/// The same, of one slot.
fn is_fit(store: &Store, side: Side, slot: &Option<Value>) -> bool
    requires { IfSome slot.now (IsSound store.now.heap) }
    ensures { IsTrue result → IfSome slot.now (IsFit store.now.heap side) }
{
    match slot {
        None => true,
        Some(value) => is_safe(store, side, value),
    }
}

/// The same, of a value.
fn is_safe(store: &Store, side: Side, value: &Value) -> bool
    requires { IsSound store.now.heap value.now }
    ensures { IsTrue result → IsSafe store.now.heap side value.now }
{
    if side.0 == 0 {
        return true;
    }
    match value {
        Value::Rock(_) => true,
        Value::Ref(at) => store.owner(*at) == side,
        Value::Prox(at) => store.owner(*at) != side,
    }
}

/// A scope of a side for a code block of so many local names, within another scope. The first names are bound to these
/// values (Python Language Reference, Naming and binding).
///
/// # Errors
/// `StopCells` where the cells of the scope are over the limit, `Memory` where a growth was refused.
pub fn new_scope(
    world: &mut World,
    side: Side,
    block: usize,
    within: Oid,
    locals: usize,
    slots: Vec<Option<Value>>,
) -> Result<Oid, OpEnd>
    requires faithful { IsFaithful world.old }
    requires within { IsScopeOf world.old.store.heap side within }
    requires slots { AreSlotsFit world.old.store.heap side slots.items }
    ensures law { Comes result (state_of world.new)
        (scope_made side block within locals slots.items (state_of world.old)) }
    ensures faithful { IsFaithful world.new }
    ensures shape { KeepsShape world.old.store.heap world.new.store.heap }
    ensures scope { IfOk result (IsScopeOf world.new.store.heap side) }
    ensures fewer { world.new.running.meter.left ≤ world.old.running.meter.left }
{
    let slots = filled(slots, locals)?;
    let scope = Object::Scope {
        block: Some(block),
        parent: Some(within),
        slots,
    };
    make_scope(&mut world.store, side, scope)
}

/// Slots for so many local names, the further ones empty.
fn filled(slots: Vec<Option<Value>>, locals: usize) -> Result<Vec<Option<Value>>, Memory>
    ensures { IfOk result (λ all. all.items ≡ filled_to locals slots.items) }
{
    let mut slots = slots;
    for _ in 0..locals.saturating_sub(slots.len()) {
        slots.push(None)?;
    }
    Ok(slots)
}

/// A new scope of a side, for its cells.
fn make_scope(store: &mut Store, side: Side, scope: Object) -> Result<Oid, OpEnd>
    requires holds { Holds store.old.heap side (content_of scope) }
    requires scope { IsScope (content_of scope) }
    ensures plain { (steps : ℕ) → Meets result (plain.state_of store.new steps)
        (makes side (content_of scope) (plain.state_of store.old steps)) }
    ensures made { OnOk result (store.new ≡ made store.old side (content_of scope)) }
    ensures same { OnErr result (store.new ≡ store.old) }
    ensures shape { KeepsShape store.old.heap store.new.heap }
    ensures scope { IfOk result (IsScopeOf store.new.heap side) }
{
    Ok(store.make(side, scope)?)
}

/// A new instance of a class, with no attribute, of an owner (Python Language Reference, Classes).
///
/// # Errors
/// `StopCells` where its cells are over the limit, `Memory` where a growth was refused; then nothing is made.
pub fn new_instance(alloc: Global, world: &mut World, owner: Side, class: Oid) -> Result<Oid, OpEnd>
    requires faithful { IsFaithful world.old }
    requires class { IsAt world.old.store.heap IsClass class }
    ensures law { Comes result (state_of world.new) (instance_made owner class (state_of world.old)) }
    ensures faithful { IsFaithful world.new }
    ensures shape { KeepsShape world.old.store.heap world.new.store.heap }
    ensures sound { IfOk result (λ at. IsSound world.new.store.heap (Value.Ref at)) }
    ensures fewer { world.new.running.meter.left ≤ world.old.running.meter.left }
{
    let fields = Dict::new(alloc, world.store.seed());
    make_instance(&mut world.store, owner, Object::Instance { class, fields })
}

/// The same, for its cells.
fn make_instance(store: &mut Store, side: Side, instance: Object) -> Result<Oid, OpEnd>
    requires holds { Holds store.old.heap side (content_of instance) }
    requires instance { IsInstance (content_of instance) }
    ensures plain { (steps : ℕ) → Meets result (plain.state_of store.new steps)
        (makes side (content_of instance) (plain.state_of store.old steps)) }
    ensures made { OnOk result (store.new ≡ made store.old side (content_of instance)) }
    ensures same { OnErr result (store.new ≡ store.old) }
    ensures shape { KeepsShape store.old.heap store.new.heap }
    ensures sound { IfOk result (λ at. IsSound store.new.heap (Value.Ref at)) }
{
    Ok(store.make(side, instance)?)
}

/// What code of a side gets of a call that gave a value, through a proxy or not.
pub fn given(world: &World, side: Side, is_lent: bool, value: Value) -> Value
    requires { IsSound world.now.store.heap value }
    ensures value { result ≡ taken world.now.store.heap side (lent_by is_lent value) }
    ensures fit { IsFit world.now.store.heap side result }
{
    if is_lent {
        return taken(world, lent(value), side);
    }
    taken(world, value, side)
}
