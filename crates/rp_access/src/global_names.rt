//! Names behind the globals: the exposed ones, and those of built-in functions and exceptions.
#![tactic(auto, using(rp_store::proofs::CallerLemmas::goes_on))]

ghost use Rattle.std.specs.Prelude.{◌≡◌, ◌∷◌, map, position, option_map, chars, find, length, nat_lt, IfOk, IfSome};
ghost use Rattle.std.specs.Option.{option_or};
ghost use Rattle.rp_attributes.specs.Attributes.{method_named};
ghost use Rattle.rp_base.specs.Kind.{kind_name};
ghost use Rattle.rp_base.specs.Names.{word_of};
ghost use Rattle.rp_base.specs.Native.{native_name};
ghost use Rattle.rp_base.specs.Same.{same_text};
ghost use Rattle.rp_base.specs.declared.kind.TheConstants.Kind.{ALL};
ghost use Rattle.rp_base.specs.declared.native.TheConstants.NativeId.{FUNCTIONS};
ghost use Rattle.rp_decl.specs.View.{name_text};
ghost use Rattle.rp_meaning.specs.Scopes.{built_in, exposed, functions_of, held, slot_in};
ghost use Rattle.rp_proxy.specs.Faithful.{IsFaithful};
ghost use Rattle.rp_proxy.specs.Taken.{taken};
ghost use Rattle.rp_store.specs.Kept.{IsFit};
ghost use Rattle.rp_access.specs.Rocks.{IsRock};

use crate::operating::taken;
use rp_base::{Kind, Memory, Name, Names, NativeId, Oid, Rock, Side, Value, word_of};
use rp_proxy::World;

/// The scope that holds the exposed values.
const EXPOSED: Oid = Oid(0);

/// The value of a global name that the program does not bind (Python Language Reference, Resolution of names): for
/// scripts that of an exposed name, as they take it, else that of a built-in function or exception, of which only
/// trusted code has `removeSecurityProxy` (zope.security). None where there is none. Nothing is decided.
///
/// # Errors
/// `Memory` where a growth was refused.
pub fn elsewhere(world: &World, side: Side, name: Name) -> Result<Option<Value>, Memory>
    requires { IsFaithful world.now }
    ensures value { IfOk result (λ value. value ≡ option_or
        (exposed side world.now.store.heap (map (name_text world.now.names) world.now.decl.expose)
        (word_of world.now.names name)) (built_in side (word_of world.now.names name))) }
    ensures fit { IfOk result (λ value. IfSome value (IsFit world.now.store.heap side)) }
{
    match exposed(world, side, name)? {
        Some(value) => Ok(Some(value)),
        None => Ok(built_in(side, word_of(&world.names, name))),
    }
}

/// The value of an exposed name, as a script takes it.
fn exposed(world: &World, side: Side, name: Name) -> Result<Option<Value>, Memory>
    requires { IsFaithful world.now }
    ensures value { IfOk result (λ value. value ≡ exposed side world.now.store.heap
        (map (name_text world.now.names) world.now.decl.expose) (word_of world.now.names name)) }
    ensures fit { IfOk result (λ value. IfSome value (IsFit world.now.store.heap side)) }
{
    if side.0 == 0 {
        return Ok(None);
    }
    match place_among(world, name) {
        Some(index) => exposed_at(world, side, index),
        None => Ok(None),
    }
}

/// The place of the word of a name among the exposed names: that of the name, as each word has one name. A name that is
/// not held has no word, and its place is that of the empty one.
fn place_among(world: &World, name: Name) -> Option<usize>
    requires { IsFaithful world.now }
    ensures { result ≡ position (same_text (word_of world.now.names name))
        (map (name_text world.now.names) world.now.decl.expose) }
{
    if is_held(&world.names, name) {
        return world.decl.exposed_place(name);
    }
    place_in(&world.names, world.decl.expose(), "")
}

/// Whether a name is one of the names.
pub(crate) fn is_held(names: &Names, name: Name) -> bool
    ensures { result ≡ nat_lt name.0 (length names.now) }
{
    name.0 < names.len()
}

fn place_in(names: &Names, expose: &[Name], word: &str) -> Option<usize>
    ensures { result ≡ position (λ name. same_text (chars word.now) (word_of names.now name)) expose.now }
{
    expose
        .iter()
        .position(|name| is_word_of(names, *name, word))
}

/// Whether that is the word of a name.
pub(crate) fn is_word_of(names: &Names, name: Name, word: &str) -> bool
    ensures { result ≡ same_text (chars word.now) (word_of names.now name) }
{
    word == word_of(names, name)
}

/// The value in a slot of the scope of exposed values, as a script takes it.
fn exposed_at(world: &World, side: Side, index: usize) -> Result<Option<Value>, Memory>
    requires { IsFaithful world.now }
    ensures value { IfOk result (λ value. value ≡ option_map (taken world.now.store.heap side)
        (held world.now.store.heap (Some (slot_in EXPOSED index)))) }
    ensures fit { IfOk result (λ value. IfSome value (IsFit world.now.store.heap side)) }
{
    if world.store.len() == 0 {
        return Ok(None);
    }
    match world.store.slot(EXPOSED, index) {
        Some(value) => Ok(Some(taken(world, value.copy()?, side))),
        None => Ok(None),
    }
}

/// What a built-in name stands for: a function, or a kind of exceptions.
fn built_in(side: Side, word: &str) -> Option<Value>
    ensures value { result ≡ built_in side (chars word.now) }
    ensures rock { IfSome result IsRock }
{
    match function_named(side, word) {
        Some(function) => Some(Value::Rock(Rock::Native(function))),
        None => Some(Value::Rock(Rock::Kind(kind_named(word)?))),
    }
}

/// The built-in function of that name, as code of a side has it.
fn function_named(side: Side, word: &str) -> Option<NativeId>
    ensures { result ≡ method_named (functions_of side) (chars word.now) }
{
    if side.0 == 0 {
        return trusted_function(word);
    }
    public_function(word)
}

/// The same for trusted code, which alone has `removeSecurityProxy` (zope.security).
fn trusted_function(word: &str) -> Option<NativeId>
    ensures { result ≡ method_named (NativeId.RemoveSecurityProxy ∷ FUNCTIONS) (chars word.now) }
{
    if is_named(NativeId::RemoveSecurityProxy, word) {
        return Some(NativeId::RemoveSecurityProxy);
    }
    public_function(word)
}

fn public_function(word: &str) -> Option<NativeId>
    ensures { result ≡ method_named FUNCTIONS (chars word.now) }
{
    let functions = NativeId::FUNCTIONS;
    functions.iter().copied().find(|id| is_named(*id, word))
}

fn is_named(function: NativeId, word: &str) -> bool
    ensures { result ≡ same_text (native_name function) (chars word.now) }
{
    function.as_str() == word
}

/// The kind of exceptions of that name.
fn kind_named(word: &str) -> Option<Kind>
    ensures { result ≡ find (λ kind. same_text (kind_name kind) (chars word.now)) ALL }
{
    let kinds = Kind::ALL;
    kinds
        .iter()
        .copied()
        .find(|kind| is_kind_named(*kind, word))
}

fn is_kind_named(kind: Kind, word: &str) -> bool
    ensures { result ≡ same_text (kind_name kind) (chars word.now) }
{
    kind.as_str() == word
}
