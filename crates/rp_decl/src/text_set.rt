//! Ids or names in byte order, each once, and the place of each.

ghost use Rattle.std.specs.Prelude.{◌≡◌, ◌∷◌, [], IfOk, OnOk, chars, codes, fold};
ghost use Rattle.std.specs.BTreeSet.{insert_key};
ghost use Rattle.toml.specs.View.{array_view, table_view, view};
ghost use Rattle.rp_decl.specs.Document.{each_at, each_member, item_texts, key_text, members_of, public, text_of};
ghost use Rattle.rp_decl.specs.Document.{texts_at, texts_of};
ghost use Rattle.rp_decl.specs.InOrder.{AreAscending};
ghost use Rattle.rp_decl.specs.Order.{place_of, sorted_set, text_cmp};

use crate::document::member;
use crate::row::PUBLIC;
use rp_base::{Memory, Text};
use std::alloc::Global;
use std::cmp::Ordering;
use std::collections::BTreeSet;
use std::marker::Model;
use toml::value::Array;
use toml::{Table, Value};

/// Ids or names in byte order, each once.
#[derive(Drop)]
pub(crate) struct Sorted {
    texts: Vec<Text>,
}

impl Model for Sorted {
    ghost use Rattle.std.specs.Prelude.{ℕ, List};
    ghost use Rattle.rp_decl.specs.InOrder.{AreAscending};

    ghost Value = { List (List ℕ) };

    ghost view = { λ s. s.texts.items };

    ghost invariant = { λ s. AreAscending s.texts.items };
}

impl Sorted {
    /// The keys of the table at a key, none where there is no table.
    pub(crate) fn keys_at(alloc: Global, document: &Table, key: &str) -> Result<Sorted, Memory>
        ensures { IfOk result (λ s. s ≡ each_at key_text key.now (table_view document.now)) }
    {
        match member(document, key) {
            Some(value) => Sorted::keys_of(alloc, value),
            None => Ok(Sorted::empty(alloc)),
        }
    }

    fn keys_of(alloc: Global, value: &Value) -> Result<Sorted, Memory>
        ensures { IfOk result (λ s. s ≡ each_member key_text (members_of (view value.now))) }
    {
        match value {
            Value::Table(table) => Sorted::keys(alloc, table),
            _ => Ok(Sorted::empty(alloc)),
        }
    }

    fn empty(alloc: Global) -> Sorted
        ensures { result ≡ [] }
    {
        Sorted {
            texts: Vec::new(alloc),
        }
    }

    /// The keys of a table.
    fn keys(alloc: Global, table: &Table) -> Result<Sorted, Memory>
        ensures { IfOk result (λ s. s ≡ each_member key_text (table_view table.now)) }
    {
        let mut texts = Vec::new(alloc);
        for (key, _) in table.iter() {
            texts.push(Text::new(alloc, key.as_str())?)?;
        }
        Ok(Sorted { texts })
    }

    /// The permissions of a document, `zope.Public` among them.
    pub(crate) fn permissions(alloc: Global, document: &Table) -> Result<Sorted, Memory>
        ensures { IfOk result (λ s. s ≡ sorted_set
            (public ∷ texts_at (codes "permissions") (table_view document.now))) }
    {
        let mut ids = BTreeSet::new(alloc);
        ids.insert(Text::new(alloc, PUBLIC)?)?;
        insert_texts_at(alloc, &mut ids, document, "permissions")?;
        Sorted::from_set(alloc, ids)
    }

    fn from_set(alloc: Global, set: BTreeSet<Text>) -> Result<Sorted, Memory>
        ensures { IfOk result (λ s. s ≡ set.keys) }
    {
        let mut texts = Vec::new(alloc);
        for text in set {
            texts.push(text)?;
        }
        Ok(Sorted { texts })
    }

    /// The place of a text.
    pub(crate) fn find(&self, text: &str) -> Option<usize>
        ensures { result ≡ place_of self.now (chars text.now) }
    {
        self.texts.binary_search_by(|t| compare(t, text)).ok()
    }

    pub(crate) fn texts(&self) -> &[Text]
        ensures value { result.now ≡ self.now }
        ensures ascending { AreAscending self.now }
    {
        self.texts.as_slice()
    }

    pub(crate) fn into_texts(self) -> Vec<Text>
        ensures value { result.items ≡ self }
        ensures ascending { AreAscending self }
    {
        self.texts
    }
}

fn compare(text: &Text, other: &str) -> Ordering
    ensures { result ≡ text_cmp text.now (chars other.now) }
{
    text.as_str().cmp(other)
}

fn insert_texts_at(
    alloc: Global,
    set: &mut BTreeSet<Text>,
    table: &Table,
    key: &str,
) -> Result<(), Memory>
    ensures { OnOk result (set.new.keys ≡ fold (insert_key text_cmp) set.old.keys
        (texts_at key.now (table_view table.now))) }
{
    match member(table, key) {
        Some(value) => insert_array(alloc, set, value),
        None => Ok(()),
    }
}

fn insert_array(alloc: Global, set: &mut BTreeSet<Text>, value: &Value) -> Result<(), Memory>
    ensures { OnOk result (set.new.keys ≡ fold (insert_key text_cmp) set.old.keys (texts_of (view value.now))) }
{
    match value {
        Value::Array(items) => insert_texts(alloc, set, items),
        _ => Ok(()),
    }
}

fn insert_texts(alloc: Global, set: &mut BTreeSet<Text>, items: &Array) -> Result<(), Memory>
    ensures { OnOk result (set.new.keys ≡ fold (insert_key text_cmp) set.old.keys (item_texts (array_view items.now))) }
{
    for item in items {
        set.insert(text_of(alloc, item)?)?;
    }
    Ok(())
}

/// The text that a value is, empty where it is none.
pub(crate) fn text_of(alloc: Global, value: &Value) -> Result<Text, Memory>
    ensures { IfOk result (λ text. text ≡ text_of (view value.now)) }
{
    Text::new(alloc, str_of(value))
}

/// The text that a value is, empty where it is none.
pub(crate) fn str_of(value: &Value) -> &str
    ensures { chars result.now ≡ text_of (view value.now) }
{
    match value.as_str() {
        Some(text) => text,
        None => "",
    }
}
