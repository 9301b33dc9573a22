//! The dict that callers see.
ghost use Rattle.std.specs.Prelude.{◌≡◌, ◌↔◌, ◌^◌, ◌<◌, [], IfErr, IfOk, IsTrue, None, OnErr, OnOk, Some, length};
ghost use Rattle.std.specs.Prelude.{option_map, slice_get};
ghost use Rattle.std.specs.Option.{option_copied};
ghost use Rattle.std.specs.Map.{lookup, remove_entry};
ghost use Rattle.std.specs.Map.Iter.{deref_pair};
ghost use Rattle.indexmap.specs.IndexMap.{insert_entry};
ghost use Rattle.rp_dict.specs.Dict.{HasDistinctKeys};

use crate::form::Form;
use crate::walk::Walk;
use rp_hash::Seed;
use std::alloc::{AllocError, Global};
use std::hash::Hash;
use std::marker::Model;

/// A dict in the order of insertion, seen as the list of its pairs. No two keys are equal.
///
/// A dict of few pairs is one vector of about their size, one of many is a hash table that hashes its keys from a
/// secret seed. Nothing of the seed is seen in what a dict answers.
pub struct Dict<K: Eq + Hash, V> {
    form: Form<K, V>,
    seed: Seed,
}

// By hand, so that crates that drop one do not prove again how its parts are dropped.
impl<K: Eq + Hash + Drop, V: Drop> Drop for Dict<K, V> {
    fn drop(self) {
        let Dict { form: _, seed: _ } = self;
    }
}

impl<K: Eq + Hash, V> Model for Dict<K, V> {
    ghost use Rattle.std.specs.Prelude.{List};
    ghost use Rattle.rp_dict.specs.Dict.{HasDistinctKeys};
    ghost use Rattle.rp_dict.specs.Form.{pairs_of};

    ghost Value = { List (K × V) };

    ghost view = { λ d. pairs_of d.form };

    ghost invariant = { λ d. HasDistinctKeys K.eq (pairs_of d.form) };
}

impl<K: Eq + Hash, V> Dict<K, V> {
    /// The empty dict. It takes no memory yet.
    pub fn new(alloc: Global, seed: Seed) -> Dict<K, V>
        ensures { result ≡ [] }
    {
        Dict {
            form: Form::Few(Vec::new(alloc)),
            seed,
        }
    }

    /// The empty dict, with room for `n` pairs.
    ///
    /// # Errors
    /// `AllocError` where the growth was refused.
    pub fn with_capacity(alloc: Global, n: usize, seed: Seed) -> Result<Dict<K, V>, AllocError>
    where
        K: Drop,
        V: Drop,
        ensures { IfOk result (λ d. d ≡ []) }
    {
        Ok(Dict {
            form: Form::with_capacity(alloc, n, seed)?,
            seed,
        })
    }

    /// The number of pairs.
    pub fn len(&self) -> usize
        ensures value { result ≡ length self.now }
        ensures small { result < 2 ^ 63 }
    {
        self.form.len()
    }

    /// Whether there is no pair.
    pub fn is_empty(&self) -> bool
        ensures { IsTrue result ↔ (self.now ≡ []) }
    {
        self.form.len() == 0
    }

    /// The value of a key. None exactly where no pair has it.
    pub fn get(&self, key: &K) -> Option<&V>
        ensures value { option_copied result ≡ lookup (K.eq key.now) self.now }
        ensures distinct { HasDistinctKeys K.eq self.now }
    {
        self.form.get(key)
    }

    /// The pair at a place, counted from 0. None exactly where the place is not below the length. It takes constant
    /// time until a key is taken out; then it may take a step for each 1,024 pairs and 1,024 more. `walk` gives all in
    /// turn.
    pub fn at(&self, i: usize) -> Option<(&K, &V)>
        ensures pair { option_map deref_pair result ≡ slice_get self.now i }
        ensures distinct { HasDistinctKeys K.eq self.now }
    {
        self.form.at(i)
    }

    /// A walk over the pairs, in their order.
    pub fn walk(&self) -> Walk<'_, K, V>
        ensures pairs { result ≡ self.now }
        ensures distinct { HasDistinctKeys K.eq self.now }
    {
        self.form.walk()
    }

    /// Keeps where the pair at a place stands, so that `at` finds that pair sooner, and `seek` the one after it; the
    /// pairs stay. It takes what `at` takes.
    pub fn seek(&mut self, i: usize)
        ensures { self.new ≡ self.old }
    {
        self.form.seek(i);
    }

    /// Gives a key its value, and answers the value that it had. A new key goes last; a held one keeps its place and
    /// stays as it was first written, and takes no memory.
    ///
    /// # Errors
    /// `AllocError` where a growth was refused; then the key is new and the dict is as before.
    pub fn set(&mut self, key: K, value: V) -> Result<Option<V>, AllocError>
    where
        K: Drop,
        V: Drop,
        ensures set { OnOk result (self.new ≡ insert_entry K.eq self.old key value) }
        ensures held { IfOk result (λ old. old ≡ lookup (K.eq key) self.old) }
        ensures absent { OnErr result (lookup (K.eq key) self.old ≡ None) }
        ensures same { OnErr result (self.new ≡ self.old) }
    {
        self.form.set(key, value, self.seed)
    }

    /// Puts a new key last.
    ///
    /// # Errors
    /// `AllocError` where a growth was refused; then the dict is as before.
    pub fn push(&mut self, key: K, value: V) -> Result<(), AllocError>
    where
        K: Drop,
        V: Drop,
        requires { lookup (K.eq key) self.old ≡ None }
        ensures pushed { OnOk result (self.new ≡ insert_entry K.eq self.old key value) }
        ensures same { OnErr result (self.new ≡ self.old) }
    {
        self.form.push(key, value, self.seed)
    }

    /// Takes out a key, in amortised constant time, and answers the value that it had. None exactly where no pair has
    /// the key.
    pub fn remove(&mut self, key: &K) -> Option<V>
    where
        K: Drop,
        V: Drop,
        ensures removed { self.new ≡ remove_entry (K.eq key.now) self.old }
        ensures held { result ≡ lookup (K.eq key.now) self.old }
    {
        self.form.remove(key)
    }

    /// Takes out all pairs.
    pub fn clear(&mut self)
    where
        K: Drop,
        V: Drop,
        ensures { self.new ≡ [] }
    {
        self.form.clear();
    }
}

impl<K: Eq + Hash, A, B> Dict<K, (A, B)> {
    ghost use Rattle.rp_dict.specs.Dict.{with_second};

    /// Gives the second part of what a key has this value, and answers the one that it had; the first part stays, as do
    /// the key and its place.
    ///
    /// # Errors
    /// The value exactly where no pair has the key; then the dict is as before.
    pub fn set_second(&mut self, key: &K, value: B) -> Result<B, B>
        ensures set { self.new ≡ with_second (K.eq key.now) value self.old }
        ensures held { IfOk result (λ old. option_map (λ pair. pair.1) (lookup (K.eq key.now) self.old) ≡ Some old) }
        ensures absent { IfErr result (λ same. (same ≡ value) × (lookup (K.eq key.now) self.old ≡ None)) }
        ensures same { OnErr result (self.new ≡ self.old) }
    {
        self.form.set_second(key, value)
    }
}
