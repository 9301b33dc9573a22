//! Declared classes and objects in the store, and the slots of the module's global scope that name them.
#![tactic(auto, using(rp_store::proofs::CallerLemmas::goes_on))]

ghost use Rattle.std.specs.Prelude.{◌≡◌, [], All, IfOk, List, OnOk, true};
ghost use Rattle.rp_meaning.specs.Load.{made_in};
ghost use Rattle.rp_store.specs.Heap.{Names};
ghost use Rattle.rp_store.specs.Kept.{IsSound};
ghost use Rattle.rp_store.specs.Object.{class};
ghost use Rattle.rp_store.specs.Parts.{IsClass};
ghost use Rattle.rp_store.specs.Shape.{KeepsShape};
ghost use Rattle.rp_world.specs.PlacingSteps.{AreBound, AreClassed, IsDeclared, TellsPlaces, classes_placed};
ghost use Rattle.rp_world.specs.PlacingSteps.{fields_placed, object_placed, objects_placed, place_of_class};

use crate::class_places::ClassPlaces;
use crate::fields::place_field;
use crate::placing::place;
use rp_base::{Memory, Name, Oid, Value};
use rp_decl::{ClassDecl, Decl, Field, ObjectDecl};
use rp_dict::Dict;
use rp_store::{Object, Store};
use std::alloc::Global;

/// Puts the declared classes last in the store, in their order, and their slots behind the others.
pub fn place_classes(
    alloc: Global,
    classes: &[ClassDecl],
    slots: &mut Vec<Option<Value>>,
    store: &mut Store,
) -> Result<(), Memory>
    requires { AreBound store.old.heap slots.old.items }
    ensures placed { OnOk result (classes_placed classes.now (slots.old.items, store.old)
        ≡ (slots.new.items, store.new)) }
    ensures bound { OnOk result (AreBound store.new.heap slots.new.items) }
    ensures shape { KeepsShape store.old.heap store.new.heap }
{
    for class in classes {
        let value = place_class(alloc, class, store)?;
        slots.push(Some(value))?;
    }
    Ok(())
}

/// Puts the declared objects last in the store, in their order, and their slots behind the others.
pub fn place_objects(
    alloc: Global,
    decl: &Decl,
    places: &ClassPlaces,
    slots: &mut Vec<Option<Value>>,
    store: &mut Store,
) -> Result<(), Memory>
    requires tells { TellsPlaces decl.now.classes places.now }
    requires declared { All (λ o. IsDeclared decl.now.classes o.class) decl.now.objects }
    requires classes { AreClassed store.old.heap decl.now.classes decl.now.objects }
    requires bound { AreBound store.old.heap slots.old.items }
    ensures placed { OnOk result (objects_placed decl.now.classes decl.now.objects (slots.old.items, store.old)
        ≡ (slots.new.items, store.new)) }
    ensures bound { OnOk result (AreBound store.new.heap slots.new.items) }
    ensures shape { KeepsShape store.old.heap store.new.heap }
{
    for object in decl.objects() {
        let value = place_object(alloc, decl, places, object, store)?;
        slots.push(Some(value))?;
    }
    Ok(())
}

/// Puts a declared class, which has no methods yet, last in the store.
fn place_class(alloc: Global, declared: &ClassDecl, store: &mut Store) -> Result<Value, Memory>
    ensures placed { IfOk result (λ value. made_in (class declared.now.name true []) store.old ≡ (value, store.new)) }
    ensures sound { IfOk result (IsSound store.new.heap) }
    ensures shape { KeepsShape store.old.heap store.new.heap }
{
    let methods = Dict::new(alloc, store.seed());
    let class = Object::Class {
        name: declared.name,
        declared: true,
        methods,
    };
    place(store, class)
}

/// Puts an instance of a declared class with its fields last in the store, behind what is within them.
fn place_object(
    alloc: Global,
    decl: &Decl,
    places: &ClassPlaces,
    object: &ObjectDecl,
    store: &mut Store,
) -> Result<Value, Memory>
    requires tells { TellsPlaces decl.now.classes places.now }
    requires declared { IsDeclared decl.now.classes object.now.class }
    requires class { Names store.old.heap IsClass (place_of_class decl.now.classes object.now.class) }
    ensures placed { IfOk result (λ value. object_placed decl.now.classes object.now store.old ≡ (value, store.new)) }
    ensures sound { IfOk result (IsSound store.new.heap) }
    ensures shape { KeepsShape store.old.heap store.new.heap }
{
    let fields = place_fields(alloc, object.fields.as_slice(), store)?;
    let class = class_place(places, decl.classes(), object.class);
    place(store, Object::Instance { class, fields })
}

/// The declared fields with their values.
fn place_fields(
    alloc: Global,
    declared: &[(Name, Field)],
    store: &mut Store,
) -> Result<Dict<Name, Value>, Memory>
    ensures placed { IfOk result (λ fields. fields_placed declared.now ([], store.old) ≡ (fields, store.new)) }
    ensures sound { IfOk result (λ fields. All (λ field. IsSound store.new.heap field.1) fields) }
    ensures shape { KeepsShape store.old.heap store.new.heap }
{
    let mut fields = Dict::with_capacity(alloc, declared.len(), store.seed())?;
    for (name, field) in declared {
        let value = place_field(alloc, field, store)?;
        fields.set(*name, value)?;
    }
    Ok(fields)
}

/// The place of a declared class. The classes stand behind the scope of the exposed names.
fn class_place(places: &ClassPlaces, classes: &[ClassDecl], class: Name) -> Oid
    ensures { (declared : List ClassDecl) → declared ≡ classes.now → TellsPlaces declared places.now
        → IsDeclared declared class → result ≡ place_of_class declared class }
{
    let place = places.place(class).unwrap_or(0);
    if place < classes.len() {
        Oid(place + 1)
    } else {
        Oid(0)
    }
}
