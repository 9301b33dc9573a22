//! The two forms in which a dict is kept.
ghost use Rattle.std.specs.Prelude.{◌≡◌, ◌^◌, ◌<◌, [], IfErr, IfOk, None, OnErr, OnOk, Some, length, option_map};
ghost use Rattle.std.specs.Prelude.{slice_get};
ghost use Rattle.std.specs.Option.{option_copied};
ghost use Rattle.std.specs.Map.{lookup, remove_entry};
ghost use Rattle.std.specs.Map.Iter.{deref_pair};
ghost use Rattle.indexmap.specs.IndexMap.{insert_entry};

use crate::few;
use crate::table::Table;
use crate::walk::Walk;
use rp_hash::Seed;
use std::alloc::{AllocError, Global};
use std::hash::Hash;

/// The most pairs that are kept in one vector and walked. A hash table takes room for nine pairs when it is made.
const FEW: usize = 8;

/// Few pairs in one vector, or many in a hash table.
#[derive(Drop)]
pub enum Form<K: Eq + Hash, V> {
    Few(Vec<(K, V)>),
    Many(Box<Table<K, V>>),
}

impl<K: Eq + Hash, V> Form<K, V> {
    ghost use Rattle.rp_dict.specs.Dict.{HasDistinctKeys};
    ghost use Rattle.rp_dict.specs.Form.{pairs_of};

    pub(crate) fn with_capacity(alloc: Global, n: usize, seed: Seed) -> Result<Self, AllocError>
    where
        K: Drop,
        V: Drop,
        ensures { IfOk result (λ form. pairs_of form ≡ []) }
    {
        if n <= FEW {
            return Ok(Form::Few(Vec::with_capacity(alloc, n)?));
        }
        let table = Table::with_capacity(alloc, n, seed)?;
        Ok(Form::Many(Box::new(alloc, table)?))
    }

    pub(crate) fn clear(&mut self)
    where
        K: Drop,
        V: Drop,
        ensures { pairs_of self.new ≡ [] }
    {
        match self {
            Form::Few(pairs) => pairs.clear(),
            Form::Many(table) => table.clear(),
        }
    }

    pub(crate) fn len(&self) -> usize
        ensures value { result ≡ length (pairs_of self.now) }
        ensures small { result < 2 ^ 63 }
    {
        match self {
            Form::Few(pairs) => pairs.len(),
            Form::Many(table) => table.len(),
        }
    }

    pub(crate) fn get(&self, key: &K) -> Option<&V>
        ensures { option_copied result ≡ lookup (K.eq key.now) (pairs_of self.now) }
    {
        match self {
            Form::Few(pairs) => few::find(pairs.as_slice(), key),
            Form::Many(table) => table.get(key),
        }
    }

    pub(crate) fn at(&self, i: usize) -> Option<(&K, &V)>
        ensures { option_map deref_pair result ≡ slice_get (pairs_of self.now) i }
    {
        match self {
            Form::Few(pairs) => few::at(pairs.as_slice(), i),
            Form::Many(table) => table.at(i),
        }
    }

    pub(crate) fn walk(&self) -> Walk<'_, K, V>
        ensures { result ≡ pairs_of self.now }
    {
        match self {
            Form::Few(pairs) => Walk::of_pairs(pairs.as_slice()),
            Form::Many(table) => table.walk(),
        }
    }

    pub(crate) fn seek(&mut self, i: usize)
        ensures { pairs_of self.new ≡ pairs_of self.old }
    {
        match self {
            Form::Few(_) => (),
            Form::Many(table) => table.seek(i),
        }
    }

    pub(crate) fn remove(&mut self, key: &K) -> Option<V>
    where
        K: Drop,
        V: Drop,
        ensures removed { pairs_of self.new ≡ remove_entry (K.eq key.now) (pairs_of self.old) }
        ensures held { result ≡ lookup (K.eq key.now) (pairs_of self.old) }
    {
        match self {
            Form::Few(pairs) => few::remove(pairs, key),
            Form::Many(table) => table.remove(key),
        }
    }

    /// Gives a key its value: a held one keeps its place and its first form, a new one goes last.
    pub(crate) fn set(&mut self, key: K, value: V, seed: Seed) -> Result<Option<V>, AllocError>
    where
        K: Drop,
        V: Drop,
        requires { HasDistinctKeys K.eq (pairs_of self.old) }
        ensures set { OnOk result (pairs_of self.new ≡ insert_entry K.eq (pairs_of self.old) key value) }
        ensures held { IfOk result (λ old. old ≡ lookup (K.eq key) (pairs_of self.old)) }
        ensures absent { OnErr result (lookup (K.eq key) (pairs_of self.old) ≡ None) }
        ensures same { OnErr result (pairs_of self.new ≡ pairs_of self.old) }
    {
        match self {
            Form::Few(pairs) => match few::set_held(pairs, &key, value) {
                Ok(old) => Ok(Some(old)),
                Err(value) => {
                    self.push(key, value, seed)?;
                    Ok(None)
                }
            },
            Form::Many(table) => table.set(key, value),
        }
    }

    /// Puts a new key last; a vector that has no room for it becomes a hash table.
    pub(crate) fn push(&mut self, key: K, value: V, seed: Seed) -> Result<(), AllocError>
    where
        K: Drop,
        V: Drop,
        requires distinct { HasDistinctKeys K.eq (pairs_of self.old) }
        requires absent { lookup (K.eq key) (pairs_of self.old) ≡ None }
        ensures pushed { OnOk result (pairs_of self.new ≡ insert_entry K.eq (pairs_of self.old) key value) }
        ensures same { OnErr result (pairs_of self.new ≡ pairs_of self.old) }
    {
        match self {
            Form::Few(pairs) => {
                if pairs.len() < FEW {
                    return few::push(pairs, key, value);
                }
                let table = Table::of_pairs(pairs, key, value, seed)?;
                *self = Form::Many(table);
                Ok(())
            }
            Form::Many(table) => {
                table.set(key, value)?;
                Ok(())
            }
        }
    }
}

impl<K: Eq + Hash, A, B> Form<K, (A, B)> {
    ghost use Rattle.rp_dict.specs.Dict.{with_second};
    ghost use Rattle.rp_dict.specs.Form.{pairs_of};

    /// Gives the second part of what a key has this value, if there is such a key; the first part stays. Else the value
    /// comes back.
    pub(crate) fn set_second(&mut self, key: &K, value: B) -> Result<B, B>
        ensures set { pairs_of self.new ≡ with_second (K.eq key.now) value (pairs_of self.old) }
        ensures held { IfOk result (λ old. option_map (λ pair. pair.1) (lookup (K.eq key.now) (pairs_of self.old))
            ≡ Some old) }
        ensures absent { IfErr result (λ same. (same ≡ value) × (lookup (K.eq key.now) (pairs_of self.old) ≡ None)) }
        ensures same { OnErr result (pairs_of self.new ≡ pairs_of self.old) }
    {
        match self {
            Form::Few(pairs) => few::set_second(pairs, key, value),
            Form::Many(table) => table.set_second(key, value),
        }
    }
}
