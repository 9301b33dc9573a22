//! The built-in methods of each kind of value, and how many arguments each takes.

ghost use Rattle.std.specs.Prelude.{◌≡◌, chars, find, is_some, map};
ghost use Rattle.std.specs.Map.{lookup};
ghost use Rattle.std.specs.Option.{option_map_or};
ghost use denote.Enum.Bare.{sameb};
ghost use Rattle.rp_base.specs.Native.{native_name};
ghost use Rattle.rp_base.specs.Same.{same_text};
ghost use Rattle.rp_base.specs.contracts.native.NativeId.{the_type};
ghost use Rattle.rp_store.specs.Heap.{IsHeld, content_at};
ghost use Rattle.rp_store.specs.Kept.{IsSound};
ghost use Rattle.rp_attributes.specs.Attributes.{built_in_method, method_named};
ghost use Rattle.rp_attributes.specs.BuiltIns.{content_receiver, counts_of, method_takes, receiver_of};
ghost use Rattle.rp_attributes.specs.BuiltIns.{rock_receiver, takes};

use rp_base::{NativeId, Oid, Rock, Value};
use rp_store::{Object, Store};

/// The kinds of values that have built-in methods.
#[derive(Clone, Copy, Debug, PartialEq, Eq)]
pub enum Receiver {
    List,
    Tuple,
    Dict,
    Text,
    /// A value without built-in methods.
    Other,
}

/// How many arguments a method takes.
#[derive(Clone, Copy, Debug, PartialEq, Eq)]
pub struct Counts {
    pub least: usize,
    pub most: usize,
}

impl Counts {
    const NONE: Counts = Counts { least: 0, most: 0 };

    const ONE: Counts = Counts { least: 1, most: 1 };

    const TWO: Counts = Counts { least: 2, most: 2 };

    const UP_TO_ONE: Counts = Counts { least: 0, most: 1 };

    const ONE_OR_TWO: Counts = Counts { least: 1, most: 2 };

    /// Whether these are so many.
    #[inline(always)]
    pub fn take(self, count: usize) -> bool
        ensures { result ≡ takes self count }
    {
        self.least <= count && count <= self.most
    }
}

/// The built-in methods of lists, each with its counts.
const LIST_METHODS: [(NativeId, Counts); 8] = [
    (NativeId::Append, Counts::ONE),
    (NativeId::Extend, Counts::ONE),
    (NativeId::Insert, Counts::TWO),
    (NativeId::Pop, Counts::UP_TO_ONE),
    (NativeId::Remove, Counts::ONE),
    (NativeId::Index, Counts::ONE),
    (NativeId::Count, Counts::ONE),
    (NativeId::Reverse, Counts::NONE),
];

/// The built-in methods of tuples, each with its counts.
const TUPLE_METHODS: [(NativeId, Counts); 2] = [
    (NativeId::Index, Counts::ONE),
    (NativeId::Count, Counts::ONE),
];

/// The built-in methods of dicts, each with its counts.
const DICT_METHODS: [(NativeId, Counts); 8] = [
    (NativeId::Get, Counts::ONE_OR_TWO),
    (NativeId::Keys, Counts::NONE),
    (NativeId::Values, Counts::NONE),
    (NativeId::Items, Counts::NONE),
    (NativeId::Pop, Counts::ONE_OR_TWO),
    (NativeId::SetDefault, Counts::ONE_OR_TWO),
    (NativeId::Update, Counts::ONE),
    (NativeId::Copy, Counts::NONE),
];

/// The built-in methods of texts, each with its counts.
const TEXT_METHODS: [(NativeId, Counts); 9] = [
    (NativeId::Join, Counts::ONE),
    (NativeId::Split, Counts::UP_TO_ONE),
    (NativeId::Strip, Counts::NONE),
    (NativeId::StartsWith, Counts::ONE),
    (NativeId::EndsWith, Counts::ONE),
    (NativeId::Find, Counts::ONE),
    (NativeId::Replace, Counts::TWO),
    (NativeId::Count, Counts::ONE),
    (NativeId::IsDigit, Counts::NONE),
];

/// Whether a method takes so many arguments; one that the receiver does not have is refused whatever they are.
pub fn method_takes(store: &Store, receiver: &Value, id: NativeId, count: usize) -> bool
    requires { IsSound store.now.heap receiver.now }
    ensures { result ≡ method_takes (receiver_of store.now.heap receiver.now) id count }
{
    match counts_of(receiver_of(store, receiver), id) {
        Some(counts) => counts.take(count),
        None => true,
    }
}

/// Whether a receiver has a built-in method.
pub fn has_method(store: &Store, receiver: &Value, id: NativeId) -> bool
    requires { IsSound store.now.heap receiver.now }
    ensures { result ≡ is_some (counts_of (receiver_of store.now.heap receiver.now) id) }
{
    counts_of(receiver_of(store, receiver), id).is_some()
}

/// The kind of a value, as far as it has built-in methods.
#[inline(always)]
pub fn receiver_of(store: &Store, value: &Value) -> Receiver
    requires { IsSound store.now.heap value.now }
    ensures { result ≡ receiver_of store.now.heap value.now }
{
    match value {
        Value::Rock(rock) => rock_receiver(rock),
        Value::Ref(at) => object_receiver(store, *at),
        Value::Prox(at) => object_receiver(store, *at),
    }
}

#[inline(always)]
fn rock_receiver(rock: &Rock) -> Receiver
    ensures { result ≡ rock_receiver rock.now }
{
    match rock {
        Rock::Text(_) => Receiver::Text,
        _ => Receiver::Other,
    }
}

#[inline(always)]
fn object_receiver(store: &Store, at: Oid) -> Receiver
    requires { IsHeld store.now.heap at }
    ensures { result ≡ option_map_or content_receiver (content_at store.now.heap at) Receiver.Other }
{
    match store.object(at) {
        Object::List(_) => Receiver::List,
        Object::Tuple(_) => Receiver::Tuple,
        Object::Dict(_) => Receiver::Dict,
        _ => Receiver::Other,
    }
}

/// The counts that a method takes; None where such a receiver does not have it.
#[inline(always)]
pub fn counts_of(receiver: Receiver, id: NativeId) -> Option<Counts>
    ensures { result ≡ counts_of receiver id }
{
    match receiver {
        Receiver::List => counts_in(&LIST_METHODS, id),
        Receiver::Tuple => counts_in(&TUPLE_METHODS, id),
        Receiver::Dict => counts_in(&DICT_METHODS, id),
        Receiver::Text => counts_in(&TEXT_METHODS, id),
        Receiver::Other => None,
    }
}

#[inline(always)]
fn counts_in(methods: &[(NativeId, Counts)], id: NativeId) -> Option<Counts>
    ensures { result ≡ lookup (λ m. sameb the_type m id) methods.now }
{
    match row_of(methods, id) {
        Some(row) => Some(row.1),
        None => None,
    }
}

#[inline(always)]
fn row_of(methods: &[(NativeId, Counts)], id: NativeId) -> Option<(NativeId, Counts)>
    ensures { result ≡ find (λ m. sameb the_type m.0 id) methods.now }
{
    methods.iter().copied().find(|row| row.0 == id)
}

/// The built-in method of that name that such a receiver has.
pub(crate) fn built_in_method(receiver: Receiver, word: &str) -> Option<NativeId>
    ensures { result ≡ built_in_method receiver (chars word.now) }
{
    match receiver {
        Receiver::List => method_named(&LIST_METHODS, word),
        Receiver::Tuple => method_named(&TUPLE_METHODS, word),
        Receiver::Dict => method_named(&DICT_METHODS, word),
        Receiver::Text => method_named(&TEXT_METHODS, word),
        Receiver::Other => None,
    }
}

/// The built-in method of that name among some.
fn method_named(methods: &[(NativeId, Counts)], word: &str) -> Option<NativeId>
    ensures { result ≡ method_named (map (λ m. m.0) methods.now) (chars word.now) }
{
    methods
        .iter()
        .map(|method| method.0)
        .find(|id| is_named(*id, word))
}

fn is_named(method: NativeId, word: &str) -> bool
    ensures { result ≡ same_text (native_name method) (chars word.now) }
{
    method.as_str() == word
}
