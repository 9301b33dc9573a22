//! Arrays and tables of a document as lists of places, names and records.

ghost use Rattle.std.specs.Prelude.{◌≡◌, ℕ, List, [], IfOk, IsSome, OnOk, chars, codes};
ghost use Rattle.std.specs.List.{AllByRecursion, flat_map};
ghost use Rattle.toml.specs.Data.{Data};
ghost use Rattle.toml.specs.View.{array_view, table_view, view};
ghost use Rattle.rp_base.specs.Names.{with_word, with_words};
ghost use Rattle.rp_decl.specs.Document.{each_at, each_member, item_texts, key_text, members_of, texts_at, texts_of};
ghost use Rattle.rp_decl.specs.InOrder.{AreAscending};
ghost use Rattle.rp_decl.specs.Places.{GrowsTo};
ghost use Rattle.rp_decl.specs.Reading.{FromNowOn, IsAmong, IsName, Shows, ShowsName, ShowsPlace};
ghost use Rattle.rp_decl.specs.declared.known_ids.Known.{Known};

use crate::document::member;
use crate::known_ids::Known;
use crate::records::Perm;
use crate::text_set::{Sorted, str_of};
use rp_base::{Memory, Name, Names};
use std::alloc::Global;
use toml::value::Array;
use toml::{Table, Value};

/// A record that a member of a table declares.
pub(crate) trait Record: Drop + Sized {
    /// What it says.
    ghost Said: { Type 0 };

    ghost said: { List ℕ → Data → Said };

    /// All that it names is known, and its names are names.
    ghost is_known: { Known → Said → Type 0 };

    ghost shows: { List (List ℕ) → Known → Self → Said → Type 0 };

    /// The names in it.
    ghost words: { Said → List (List ℕ) };

    fn read(
        alloc: Global,
        names: &mut Names,
        known: &Known,
        key: &str,
        value: &Value,
    ) -> Result<Self, Memory>
        requires { is_known known.now (said key.now (view value.now)) }
        ensures record_read { IfOk result
            (λ r. FromNowOn names.new (λ names. shows names known.now r (said key.now (view value.now)))) }
        ensures interned { OnOk result (names.new ≡ with_words names.old (words (said key.now (view value.now)))) }
        ensures grown { GrowsTo names.old names.new };
}

/// The records of the table at a key, none where there is no table.
pub(crate) fn records_at<R: Record>(
    alloc: Global,
    names: &mut Names,
    known: &Known,
    table: &Table,
    key: &str,
) -> Result<Vec<R>, Memory>
    requires { AllByRecursion (R.is_known known.now) (each_at R.said key.now (table_view table.now)) }
    ensures records { IfOk result (λ records. FromNowOn names.new
        (λ names. Shows (R.shows names known.now) records.items (each_at R.said key.now (table_view table.now)) [])) }
    ensures ordered { IfOk result (λ records. AreAscending (each_at key_text key.now (table_view table.now))) }
    ensures interned { OnOk result (names.new
        ≡ with_words names.old (flat_map R.words (each_at R.said key.now (table_view table.now)))) }
    ensures grown { GrowsTo names.old names.new }
{
    match member(table, key) {
        Some(value) => records_in(alloc, names, known, value),
        None => Ok(Vec::new(alloc)),
    }
}

fn records_in<R: Record>(
    alloc: Global,
    names: &mut Names,
    known: &Known,
    value: &Value,
) -> Result<Vec<R>, Memory>
    requires { AllByRecursion (R.is_known known.now) (each_member R.said (members_of (view value.now))) }
    ensures records { IfOk result (λ records. FromNowOn names.new
        (λ names. Shows (R.shows names known.now) records.items
        (each_member R.said (members_of (view value.now))) [])) }
    ensures ordered { IfOk result (λ records. AreAscending (each_member key_text (members_of (view value.now)))) }
    ensures interned { OnOk result (names.new
        ≡ with_words names.old (flat_map R.words (each_member R.said (members_of (view value.now))))) }
    ensures grown { GrowsTo names.old names.new }
{
    match value {
        Value::Table(table) => each_record(alloc, names, known, table),
        _ => Ok(Vec::new(alloc)),
    }
}

fn each_record<R: Record>(
    alloc: Global,
    names: &mut Names,
    known: &Known,
    table: &Table,
) -> Result<Vec<R>, Memory>
    requires { AllByRecursion (R.is_known known.now) (each_member R.said (table_view table.now)) }
    ensures records { IfOk result (λ records. FromNowOn names.new
        (λ names. Shows (R.shows names known.now) records.items (each_member R.said (table_view table.now)) [])) }
    ensures ordered { IfOk result (λ records. AreAscending (each_member key_text (table_view table.now))) }
    ensures interned { OnOk result (names.new
        ≡ with_words names.old (flat_map R.words (each_member R.said (table_view table.now)))) }
    ensures grown { GrowsTo names.old names.new }
{
    let mut records = Vec::new(alloc);
    for (key, value) in table.iter() {
        let record = R::read(alloc, names, known, key.as_str(), value)?;
        records.push(record)?;
    }
    Ok(records)
}

/// The records of the table at a key of a value, none where there is no table.
pub(crate) fn records_of<R: Record>(
    alloc: Global,
    names: &mut Names,
    known: &Known,
    value: &Value,
    key: &str,
) -> Result<Vec<R>, Memory>
    requires { AllByRecursion (R.is_known known.now) (each_at R.said key.now (members_of (view value.now))) }
    ensures records { IfOk result (λ records. FromNowOn names.new
        (λ names. Shows (R.shows names known.now) records.items
        (each_at R.said key.now (members_of (view value.now))) [])) }
    ensures ordered { IfOk result (λ records. AreAscending (each_at key_text key.now (members_of (view value.now)))) }
    ensures interned { OnOk result (names.new
        ≡ with_words names.old (flat_map R.words (each_at R.said key.now (members_of (view value.now))))) }
    ensures grown { GrowsTo names.old names.new }
{
    match value {
        Value::Table(table) => records_at(alloc, names, known, table, key),
        _ => Ok(Vec::new(alloc)),
    }
}

/// The name of a word.
pub(crate) fn name_of(names: &mut Names, word: &str) -> Result<Name, Memory>
    requires { IsName (chars word.now) }
    ensures name { IfOk result (λ name. FromNowOn names.new (λ names. ShowsName names name (chars word.now))) }
    ensures interned { OnOk result (names.new ≡ with_word names.old (chars word.now)) }
    ensures grown { GrowsTo names.old names.new }
{
    names.intern(word)
}

/// The place of a text that is known.
pub(crate) fn place_of(known: &Sorted, text: &str) -> usize
    requires { IsAmong known.now (chars text.now) }
    ensures { ShowsPlace known.now result (chars text.now) }
{
    known.find(text).unwrap()
}

/// What stands for a place.
pub(crate) trait Place: Drop + Sized {
    ghost number: { Self → ℕ };

    fn at(place: usize) -> Self
        ensures { number result ≡ place };
}

impl Place for usize {
    ghost number = { λ p. p };

    fn at(place: usize) -> usize {
        place
    }
}

impl Place for Perm {
    ghost number = { λ p. p.0 };

    fn at(place: usize) -> Perm {
        Perm(place)
    }
}

/// The places of the texts in the array at a key, none where there is no array.
fn places_at<P: Place>(
    alloc: Global,
    known: &Sorted,
    table: &Table,
    key: &str,
) -> Result<Vec<P>, Memory>
    requires { AllByRecursion (IsAmong known.now) (texts_at key.now (table_view table.now)) }
    ensures { IfOk result (λ places. Shows (λ p. ShowsPlace known.now (P.number p)) places.items
        (texts_at key.now (table_view table.now)) []) }
{
    match member(table, key) {
        Some(value) => places_in(alloc, known, value),
        None => Ok(Vec::new(alloc)),
    }
}

/// The places of the texts in the array at a key of a value, none where there is no array.
pub(crate) fn places_of<P: Place>(
    alloc: Global,
    known: &Sorted,
    value: &Value,
    key: &str,
) -> Result<Vec<P>, Memory>
    requires { AllByRecursion (IsAmong known.now) (texts_at key.now (members_of (view value.now))) }
    ensures { IfOk result (λ places. Shows (λ p. ShowsPlace known.now (P.number p)) places.items
        (texts_at key.now (members_of (view value.now))) []) }
{
    match value {
        Value::Table(table) => places_at(alloc, known, table, key),
        _ => Ok(Vec::new(alloc)),
    }
}

fn places_in<P: Place>(alloc: Global, known: &Sorted, value: &Value) -> Result<Vec<P>, Memory>
    requires { AllByRecursion (IsAmong known.now) (texts_of (view value.now)) }
    ensures { IfOk result (λ places. Shows (λ p. ShowsPlace known.now (P.number p)) places.items
        (texts_of (view value.now)) []) }
{
    match value {
        Value::Array(items) => each_place(alloc, known, items),
        _ => Ok(Vec::new(alloc)),
    }
}

fn each_place<P: Place>(alloc: Global, known: &Sorted, items: &Array) -> Result<Vec<P>, Memory>
    requires { AllByRecursion (IsAmong known.now) (item_texts (array_view items.now)) }
    ensures { IfOk result (λ places. Shows (λ p. ShowsPlace known.now (P.number p)) places.items
        (item_texts (array_view items.now)) []) }
{
    let mut places = Vec::new(alloc);
    for item in items {
        let place = place_of(known, str_of(item));
        places.push(P::at(place))?;
    }
    Ok(places)
}

/// The names in the array at a key, none where there is no array.
pub(crate) fn names_at(
    alloc: Global,
    names: &mut Names,
    table: &Table,
    key: &str,
) -> Result<Vec<Name>, Memory>
    requires { AllByRecursion IsName (texts_at key.now (table_view table.now)) }
    ensures shown { IfOk result (λ words. FromNowOn names.new
        (λ names. Shows (ShowsName names) words.items (texts_at key.now (table_view table.now)) [])) }
    ensures interned { OnOk result (names.new ≡ with_words names.old (texts_at key.now (table_view table.now))) }
    ensures grown { GrowsTo names.old names.new }
{
    match member(table, key) {
        Some(value) => names_in(alloc, names, value),
        None => Ok(Vec::new(alloc)),
    }
}

fn names_in(alloc: Global, names: &mut Names, value: &Value) -> Result<Vec<Name>, Memory>
    requires { AllByRecursion IsName (texts_of (view value.now)) }
    ensures shown { IfOk result (λ words. FromNowOn names.new
        (λ names. Shows (ShowsName names) words.items (texts_of (view value.now)) [])) }
    ensures interned { OnOk result (names.new ≡ with_words names.old (texts_of (view value.now))) }
    ensures grown { GrowsTo names.old names.new }
{
    match value {
        Value::Array(items) => each_name(alloc, names, items),
        _ => Ok(Vec::new(alloc)),
    }
}

fn each_name(alloc: Global, names: &mut Names, items: &Array) -> Result<Vec<Name>, Memory>
    requires { AllByRecursion IsName (item_texts (array_view items.now)) }
    ensures shown { IfOk result (λ words. FromNowOn names.new
        (λ names. Shows (ShowsName names) words.items (item_texts (array_view items.now)) [])) }
    ensures interned { OnOk result (names.new ≡ with_words names.old (item_texts (array_view items.now))) }
    ensures grown { GrowsTo names.old names.new }
{
    let mut words = Vec::new(alloc);
    for item in items {
        let name = name_of(names, str_of(item))?;
        words.push(name)?;
    }
    Ok(words)
}
