//! The calls of rp_store that cases name by a word, each where what it asks holds.
ghost use Rattle.std.specs.Prelude.{◌≡◌, length};
ghost use Rattle.rp_store.specs.Heap.{IsHeld, elements_at};

use crate::answers::Answer;
use crate::ops_calls::values_at;
use rp_base::{ClassTag, Name, Oid, Rock, Value};
use rp_dict::Dict;
use rp_store::{Key, Object, Store, key_of};
use rp_tests_parts::{
    Fault, are_methods, are_sound, is_class, is_dict, is_function, is_instance, is_key, is_list,
    is_sound,
};
use std::alloc::Global;

fn done() -> Result<Answer, Fault> {
    Ok(Answer::Word("done"))
}

pub(crate) fn owner(store: &Store, at: Oid) -> Result<Answer, Fault> {
    if at.0 >= store.len() {
        return Err(Fault::Unsound);
    }
    Ok(Answer::Count(store.owner(at).0 as u64))
}

pub(crate) fn tag(store: &Store, at: Oid) -> Result<Answer, Fault> {
    if at.0 >= store.len() {
        return Err(Fault::Unsound);
    }
    Ok(Answer::Word(tag_word(store.tag(at))))
}

fn tag_word(tag: ClassTag) -> &'static str {
    match tag {
        ClassTag::List => "list",
        ClassTag::Tuple => "tuple",
        ClassTag::Dict => "dict",
        ClassTag::Function => "function",
        ClassTag::Method => "method",
        ClassTag::Class => "class",
        // The word of its place among the names.
        ClassTag::Declared(Name(52)) => "index",
        ClassTag::Declared(_) => "another class",
        ClassTag::Other => "other",
    }
}

/// A key form as the value that it stands for.
pub(crate) fn key_told(key: Option<Key>) -> Answer {
    match key {
        Some(Key::Nil) => Answer::Value(Value::Rock(Rock::Nil)),
        Some(Key::Number(number)) => Answer::Value(Value::Rock(Rock::Int(number))),
        Some(Key::Text(text)) => Answer::Value(Value::Rock(Rock::Text(text))),
        None => Answer::Word("no key"),
    }
}

/// The key of a value.
fn key_in(value: &Value) -> Result<Key, Fault> {
    match value {
        Value::Rock(rock) => key_of(rock)?.ok_or(Fault::Unread),
        _ => Err(Fault::Unread),
    }
}

/// The rock as which a key was first written.
pub(crate) fn entry(store: &Store, at: Oid, key: &Value) -> Result<Answer, Fault> {
    let key = key_in(key)?;
    if at.0 >= store.len() {
        return Err(Fault::Unsound);
    }
    match store.entry(at, &key) {
        Some((rock, _)) => Ok(Answer::Value(Value::Rock(rock.copy()?))),
        None => Ok(Answer::Word("none")),
    }
}

pub(crate) fn field(store: &Store, at: Oid, name: Name) -> Result<Answer, Fault> {
    if at.0 >= store.len() {
        return Err(Fault::Unsound);
    }
    match store.field(at, name) {
        Some(value) => Ok(Answer::Value(value.copy()?)),
        None => Ok(Answer::Word("none")),
    }
}

pub(crate) fn method(store: &Store, at: Oid, name: Name) -> Result<Answer, Fault> {
    if at.0 >= store.len() {
        return Err(Fault::Unsound);
    }
    match store.method(at, name) {
        Some(function) => Ok(Answer::Value(Value::Ref(function))),
        None => Ok(Answer::Word("none")),
    }
}

pub(crate) fn method_of(store: &Store, at: Oid, name: Name) -> Result<Answer, Fault> {
    if at.0 >= store.len() {
        return Err(Fault::Unsound);
    }
    Ok(named(store.method_of(at, name)))
}

pub(crate) fn class_of(store: &Store, at: Oid) -> Result<Answer, Fault> {
    if at.0 >= store.len() {
        return Err(Fault::Unsound);
    }
    Ok(named(store.class_of(at)))
}

/// A plain reference to what is there.
fn named(at: Option<Oid>) -> Answer {
    match at {
        Some(at) => Answer::Value(Value::Ref(at)),
        None => Answer::Word("none"),
    }
}

pub(crate) fn element(store: &Store, at: Oid, i: usize) -> Result<Answer, Fault> {
    if at.0 >= store.len() {
        return Err(Fault::Unsound);
    }
    match store.element(at, i) {
        Some(value) => Ok(Answer::Value(value.copy()?)),
        None => Ok(Answer::Word("none")),
    }
}

pub(crate) fn len_of(store: &Store, at: Oid) -> Result<Answer, Fault> {
    if at.0 >= store.len() {
        return Err(Fault::Unsound);
    }
    match store.len_of(at) {
        Some(len) => Ok(Answer::Count(len as u64)),
        None => Ok(Answer::Word("none")),
    }
}

pub(crate) fn seek(store: &mut Store, at: Oid, place: usize) -> Result<Answer, Fault> {
    if at.0 >= store.len() {
        return Err(Fault::Unsound);
    }
    store.seek(at, place);
    done()
}

/// Gives a class the methods of another in place of its own.
pub(crate) fn set_methods(
    alloc: Global,
    store: &mut Store,
    at: Oid,
    from: Oid,
) -> Result<Answer, Fault> {
    let methods = methods_at(alloc, store, from)?;
    if at.0 >= store.len() || !is_class(store, at) || !are_methods(store, &methods) {
        return Err(Fault::Unsound);
    }
    store.set_methods(at, methods);
    done()
}

/// The methods of a class.
fn methods_at(alloc: Global, store: &Store, at: Oid) -> Result<Dict<Name, Oid>, Fault> {
    let Some(Object::Class { methods, .. }) = store.get(at) else {
        return Err(Fault::Unread);
    };
    let mut copied = Dict::with_capacity(alloc, methods.len(), store.seed())?;
    for i in 0..methods.len() {
        if let Some((name, function)) = methods.at(i) {
            copied.set(*name, *function)?;
        }
    }
    Ok(copied)
}

/// The number of elements of a list, 0 of another object.
fn list_len(store: &Store, at: Oid) -> usize
    requires { IsHeld store.now.heap at }
    ensures { result ≡ length (elements_at store.now.heap at) }
{
    match store.object(at) {
        Object::List(elements) => elements.len(),
        _ => 0,
    }
}

pub(crate) fn push(store: &mut Store, at: Oid, value: &Value) -> Result<Answer, Fault> {
    let value = value.copy()?;
    if at.0 >= store.len() || !is_list(store, at) || !is_sound(store, &value) {
        return Err(Fault::Unsound);
    }
    store.push(at, value)?;
    done()
}

pub(crate) fn insert(store: &mut Store, at: Oid, i: usize, value: &Value) -> Result<Answer, Fault> {
    let value = value.copy()?;
    if at.0 >= store.len() || !is_list(store, at) || !is_sound(store, &value) {
        return Err(Fault::Unsound);
    }
    if i > list_len(store, at) {
        return Err(Fault::Unsound);
    }
    store.insert(at, i, value)?;
    done()
}

/// Puts the elements of a list at the end of another.
pub(crate) fn extend(
    alloc: Global,
    store: &mut Store,
    at: Oid,
    from: Oid,
) -> Result<Answer, Fault> {
    let values = values_at(alloc, store, from)?;
    if at.0 >= store.len() || !is_list(store, at) || !are_sound(store, &values) {
        return Err(Fault::Unsound);
    }
    store.extend(at, values)?;
    done()
}

/// Puts the elements of a list in place of those of another.
pub(crate) fn set_elements(
    alloc: Global,
    store: &mut Store,
    at: Oid,
    from: Oid,
) -> Result<Answer, Fault> {
    let values = values_at(alloc, store, from)?;
    if at.0 >= store.len() || !is_list(store, at) || !are_sound(store, &values) {
        return Err(Fault::Unsound);
    }
    store.set_elements(at, values);
    done()
}

pub(crate) fn set_at(store: &mut Store, at: Oid, i: usize, value: &Value) -> Result<Answer, Fault> {
    let value = value.copy()?;
    if at.0 >= store.len() || !is_sound(store, &value) || i >= list_len(store, at) {
        return Err(Fault::Unsound);
    }
    store.set_at(at, i, value);
    done()
}

pub(crate) fn remove_at(store: &mut Store, at: Oid, i: usize) -> Result<Answer, Fault> {
    if at.0 >= store.len() || i >= list_len(store, at) {
        return Err(Fault::Unsound);
    }
    Ok(Answer::Value(store.remove_at(at, i)))
}

pub(crate) fn put(store: &mut Store, at: Oid, key: &Value, value: &Value) -> Result<Answer, Fault> {
    let (Value::Rock(rock), value) = (key.copy()?, value.copy()?) else {
        return Err(Fault::Unread);
    };
    if !is_key(&rock) {
        return Err(Fault::Unsound);
    }
    if at.0 >= store.len() || !is_dict(store, at) || !is_sound(store, &value) {
        return Err(Fault::Unsound);
    }
    store.put(at, rock, value)?;
    done()
}

/// The value that was there.
fn had(value: Option<Value>) -> Answer {
    match value {
        Some(value) => Answer::Value(value),
        None => Answer::Word("none"),
    }
}

pub(crate) fn drop_key(store: &mut Store, at: Oid, key: &Value) -> Result<Answer, Fault> {
    let key = key_in(key)?;
    if at.0 >= store.len() || !is_dict(store, at) {
        return Err(Fault::Unsound);
    }
    Ok(had(store.drop_key(at, &key)))
}

pub(crate) fn set_field(
    store: &mut Store,
    at: Oid,
    name: Name,
    value: &Value,
) -> Result<Answer, Fault> {
    let value = value.copy()?;
    if at.0 >= store.len() || !is_instance(store, at) || !is_sound(store, &value) {
        return Err(Fault::Unsound);
    }
    store.set_field(at, name, value)?;
    done()
}

pub(crate) fn drop_field(store: &mut Store, at: Oid, name: Name) -> Result<Answer, Fault> {
    if at.0 >= store.len() || !is_instance(store, at) {
        return Err(Fault::Unsound);
    }
    Ok(had(store.drop_field(at, name)))
}

pub(crate) fn set_method(
    store: &mut Store,
    at: Oid,
    name: Name,
    function: Oid,
) -> Result<Answer, Fault> {
    if at.0 >= store.len() || !is_class(store, at) || !is_function(store, function) {
        return Err(Fault::Unsound);
    }
    store.set_method(at, name, function)?;
    done()
}

pub(crate) fn clear_methods(store: &mut Store, at: Oid) -> Result<Answer, Fault> {
    if at.0 >= store.len() || !is_class(store, at) {
        return Err(Fault::Unsound);
    }
    store.clear_methods(at);
    done()
}
