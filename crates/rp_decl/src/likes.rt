//! The class that each class is like, and its place among the classes, which is looked up once.

ghost use Rattle.std.specs.Prelude.{◌≡◌, [], IfOk, None, codes, if◌then◌else◌, is_some, map, option_and_then};
ghost use Rattle.std.specs.Prelude.{option_map};
ghost use Rattle.toml.specs.Data.{get_member};
ghost use Rattle.toml.specs.View.{table_view, view};
ghost use Rattle.rp_decl.specs.Consistency.{unknown};
ghost use Rattle.rp_decl.specs.Document.{class_of, each_at, each_member, members_of, text_of};
ghost use Rattle.rp_decl.specs.Naming.{each_named, like_named, named_at};
ghost use Rattle.rp_decl.specs.Order.{least, place_of};
ghost use Rattle.rp_decl.specs.Ring.{like_place};

use crate::document::member;
use crate::least::lesser_of;
use crate::text_set::{Sorted, str_of, text_of};
use rp_base::{Memory, Text};
use std::alloc::Global;
use toml::{Table, Value};

/// What the classes of a document are like.
#[derive(Drop)]
pub(crate) struct Likes {
    /// For each class the place of the class that it is like.
    pub(crate) places: Vec<Option<usize>>,
    /// The least class that a class is like and that is not declared.
    pub(crate) unknown: Option<Text>,
}

impl Likes {
    /// What the classes of a document are like, among its classes.
    pub(crate) fn read(alloc: Global, classes: &Sorted, document: &Table) -> Result<Likes, Memory>
        ensures places { IfOk result (λ likes. likes.places.items
            ≡ map (like_place classes.now) (each_at class_of (codes "class") (table_view document.now))) }
        ensures unknown { IfOk result (λ likes. likes.unknown
            ≡ least (unknown classes.now (named_at like_named (codes "class") (table_view document.now)))) }
    {
        match member(document, "class") {
            Some(value) => Likes::of(alloc, classes, value),
            None => Ok(Likes::none(alloc)),
        }
    }

    fn of(alloc: Global, classes: &Sorted, value: &Value) -> Result<Likes, Memory>
        ensures places { IfOk result (λ likes. likes.places.items
            ≡ map (like_place classes.now) (each_member class_of (members_of (view value.now)))) }
        ensures unknown { IfOk result (λ likes. likes.unknown
            ≡ least (unknown classes.now (each_named like_named (members_of (view value.now))))) }
    {
        match value {
            Value::Table(table) => Likes::each(alloc, classes, table),
            _ => Ok(Likes::none(alloc)),
        }
    }

    /// Those of no class.
    fn none(alloc: Global) -> Likes
        ensures places { result.places.items ≡ [] }
        ensures unknown { result.unknown ≡ None }
    {
        Likes {
            places: Vec::new(alloc),
            unknown: None,
        }
    }

    fn each(alloc: Global, classes: &Sorted, table: &Table) -> Result<Likes, Memory>
        ensures places { IfOk result (λ likes. likes.places.items
            ≡ map (like_place classes.now) (each_member class_of (table_view table.now))) }
        ensures unknown { IfOk result (λ likes. likes.unknown
            ≡ least (unknown classes.now (each_named like_named (table_view table.now)))) }
    {
        let mut places = Vec::new(alloc);
        let mut unknown = None;
        for (_name, class) in table.iter() {
            let like = like_of(class);
            let place = place_of(classes, like);
            let fault = unplaced(alloc, like, place)?;
            places.push(place)?;
            unknown = lesser_of(unknown, fault);
        }
        Ok(Likes { places, unknown })
    }
}

/// The class that a class is like.
fn like_of(class: &Value) -> Option<&Value>
    ensures { option_map (λ name. view name.now) result ≡ get_member (codes "like") (members_of (view class.now)) }
{
    match class {
        Value::Table(table) => member(table, "like"),
        _ => None,
    }
}

/// The place of the class that a class is like.
fn place_of(classes: &Sorted, like: Option<&Value>) -> Option<usize>
    ensures { result ≡ option_and_then (place_of classes.now)
        (option_map text_of (option_map (λ name. view name.now) like.entry)) }
{
    match like {
        Some(name) => classes.find(str_of(name)),
        None => None,
    }
}

/// The class that a class is like, where it has no place.
fn unplaced(
    alloc: Global,
    like: Option<&Value>,
    place: Option<usize>,
) -> Result<Option<Text>, Memory>
    ensures { IfOk result (λ fault. fault
        ≡ (if is_some place then None else option_map text_of (option_map (λ name. view name.now) like.entry))) }
{
    match place {
        Some(_) => Ok(None),
        None => text_at(alloc, like),
    }
}

/// The text that a value is, where there is one.
fn text_at(alloc: Global, value: Option<&Value>) -> Result<Option<Text>, Memory>
    ensures { IfOk result (λ text. text ≡ option_map text_of (option_map (λ v. view v.now) value.entry)) }
{
    match value {
        Some(value) => Ok(Some(text_of(alloc, value)?)),
        None => Ok(None),
    }
}
