//! A value as its text: the walk over the containers within it.
#![tactic(auto, using(rp_store::proofs::CallerLemmas::goes_on))]

ghost use Rattle.std.specs.Prelude.{◌≡◌, ◌≤◌, ℕ, [], ◌∷◌, ◌++◌, OnOk, map, reverse, true};
ghost use Rattle.std.specs.Option.{option_copied};
ghost use Rattle.rp_ops.specs.Depth.{deepest};
ghost use Rattle.rp_ops.specs.Outcome.{Meets, state_of};
ghost use Rattle.rp_store.specs.Counters.{KeepsCounters};
ghost use Rattle.rp_store.specs.Object.{content_of};
ghost use Rattle.rp_show.specs.Show.{content_shown, enclosed, is_among, object_shown, printed, separated, show, shown};
ghost use Rattle.rp_show.specs.Shown.{shown_inside};
ghost use Rattle.rp_show.specs.ShowView.{KeepsRoom, cells_of, closing, element_item, entry_item, inner, is_container};
ghost use Rattle.rp_show.specs.ShowView.{item_of, items, object_within, opening, rock_shown, turn};
ghost use Rattle.rp_show.specs.Prints.{Prints};

use crate::brackets::{closing, cut_text, is_container, opening};
use crate::object_names::print_named;
use crate::printer::Printer;
use crate::purse::Purse;
use crate::rock_texts::shown_inside;
use rp_base::{Memory, Meter, Names, Oid, OpEnd, Rock, Text, Value};
use rp_dict::Dict;
use rp_ops::{Refusal, step};
use rp_store::{Key, Object, Store};
use std::alloc::Global;

/// At most so many containers within one another are shown.
const DEEPEST: usize = 200;

/// What is written so far, and the places of the containers around it, the outermost first.
#[derive(Drop)]
struct Page {
    printer: Printer,
    outer: Vec<Oid>,
}

impl Page {
    fn new(alloc: Global, store: &Store) -> Page
        ensures line { result.printer.line ≡ [] }
        ensures purse { cells_of store.now.heap result.printer.purse ≡ store.now }
        ensures outer { result.outer.items ≡ [] }
    {
        Page {
            printer: Printer::new(alloc, store),
            outer: Vec::new(alloc),
        }
    }
}

/// A value as its text (Python Standard Library, str): a text itself, an exception value its text, all else as inside a
/// container. A text itself costs nothing; of all else each character costs its bytes in cells, and each element within
/// a container takes a step before its text. No answer gives a step back. Showing an element takes a time that grows
/// with its own text and with the number of the containers around it, whatever else the container holds.
///
/// # Errors
/// `Raised` with a `RecursionError` and the text `depth` at a container within 200 others that is none of them,
/// `StopSteps` where no step is left, `StopCells` at the first character that does not fit; what was charged before
/// stays charged. `Memory` where a growth was refused. Whatever is answered, the limit of the cells stays, and no used
/// cell is given back.
pub fn show(
    alloc: Global,
    store: &mut Store,
    meter: &mut Meter,
    names: &Names,
    a: &Value,
) -> Result<Text, OpEnd>
    ensures plain { Meets result (state_of store.new meter.new.left)
        (show names.now a.now (state_of store.old meter.old.left)) }
    ensures same { store.new.heap ≡ store.old.heap }
    ensures fewer { meter.new.left ≤ meter.old.left }
    ensures counters { KeepsCounters store.old store.new }
{
    match a {
        Value::Rock(rock) => show_rock(alloc, store, rock),
        Value::Ref(at) => show_at(alloc, store, meter, names, *at),
        Value::Prox(at) => show_at(alloc, store, meter, names, *at),
    }
}

fn show_rock(alloc: Global, store: &mut Store, rock: &Rock) -> Result<Text, OpEnd>
    ensures plain { (steps : ℕ) → Meets result (state_of store.new steps)
        (rock_shown rock.now (state_of store.old steps)) }
    ensures same { store.new.heap ≡ store.old.heap }
    ensures counters { KeepsCounters store.old store.new }
{
    match rock {
        Rock::Text(text) => Ok(text.copy()?),
        Rock::Exc(_, text) => charged(store, text.copy()?),
        Rock::Nil => show_plain(alloc, store, rock),
        Rock::Truth(_) => show_plain(alloc, store, rock),
        Rock::Int(_) => show_plain(alloc, store, rock),
        Rock::Kind(_) => show_plain(alloc, store, rock),
        Rock::Native(_) => show_plain(alloc, store, rock),
    }
}

fn show_plain(alloc: Global, store: &mut Store, rock: &Rock) -> Result<Text, OpEnd>
    ensures plain { (steps : ℕ) → Meets result (state_of store.new steps)
        (printed (shown_inside rock.now) (state_of store.old steps)) }
    ensures same { store.new.heap ≡ store.old.heap }
    ensures counters { KeepsCounters store.old store.new }
{
    let text = shown_inside(alloc, rock)?;
    charged(store, text)
}

fn charged(store: &mut Store, text: Text) -> Result<Text, OpEnd>
    ensures plain { (steps : ℕ) → Meets result (state_of store.new steps) (printed text (state_of store.old steps)) }
    ensures same { store.new.heap ≡ store.old.heap }
    ensures counters { KeepsCounters store.old store.new }
{
    let mut purse = Purse::of(store);
    let charged = purse.charge(text.as_str());
    purse.settle(store);
    charged?;
    Ok(text)
}

fn show_at(
    alloc: Global,
    store: &mut Store,
    meter: &mut Meter,
    names: &Names,
    at: Oid,
) -> Result<Text, OpEnd>
    ensures plain { Meets result (state_of store.new meter.new.left)
        (object_shown names.now (inner names.now deepest) [] at (state_of store.old meter.old.left)) }
    ensures same { store.new.heap ≡ store.old.heap }
    ensures fewer { meter.new.left ≤ meter.old.left }
    ensures counters { KeepsCounters store.old store.new }
{
    let mut page = Page::new(alloc, store);
    let shown = show_object(store, meter, names, &mut page, DEEPEST, at);
    page.printer.purse.settle(store);
    shown?;
    Ok(page.printer.line.into_text(alloc)?)
}

/// Shows a value within containers, where so many may lie within one another in it.
#[cycle(show)]
fn show_value(
    store: &Store,
    meter: &mut Meter,
    names: &Names,
    page: &mut Page,
    left: usize,
    value: &Value,
) -> Result<(), OpEnd>
    ensures plain { Prints result page.new.printer page.old.printer store.now.heap meter.new.left meter.old.left
        (shown names.now left (reverse page.old.outer.items) value.now) }
    ensures fewer { meter.new.left ≤ meter.old.left }
    ensures outer { OnOk result (page.new.outer.items ≡ page.old.outer.items) }
    ensures counters { KeepsRoom page.old.printer.purse page.new.printer.purse }
{
    match value {
        Value::Rock(rock) => page.printer.print_rock(rock),
        Value::Ref(at) => show_object(store, meter, names, page, left, *at),
        Value::Prox(at) => show_object(store, meter, names, page, left, *at),
    }
}

#[cycle(show)]
fn show_object(
    store: &Store,
    meter: &mut Meter,
    names: &Names,
    page: &mut Page,
    left: usize,
    at: Oid,
) -> Result<(), OpEnd>
    ensures plain { Prints result page.new.printer page.old.printer store.now.heap meter.new.left meter.old.left
        (object_shown names.now (inner names.now left) (reverse page.old.outer.items) at) }
    ensures fewer { meter.new.left ≤ meter.old.left }
    ensures outer { OnOk result (page.new.outer.items ≡ page.old.outer.items) }
    ensures counters { KeepsRoom page.old.printer.purse page.new.printer.purse }
{
    match store.get(at) {
        Some(object) => show_content(store, meter, names, page, left, at, object),
        None => Ok(()),
    }
}

/// Shows an object that stands at a place.
#[cycle(show)]
fn show_content(
    store: &Store,
    meter: &mut Meter,
    names: &Names,
    page: &mut Page,
    left: usize,
    at: Oid,
    object: &Object,
) -> Result<(), OpEnd>
    ensures plain { Prints result page.new.printer page.old.printer store.now.heap meter.new.left meter.old.left
        (object_within names.now left (reverse page.old.outer.items) at (content_of object.now)) }
    ensures fewer { meter.new.left ≤ meter.old.left }
    ensures outer { OnOk result (page.new.outer.items ≡ page.old.outer.items) }
    ensures counters { KeepsRoom page.old.printer.purse page.new.printer.purse }
{
    if is_among(page.outer.as_slice(), at) {
        return page.printer.print(cut_text(object));
    }
    if is_container(object) {
        return show_container(store, meter, names, page, left, at, object);
    }
    print_named(store, names, &mut page.printer, object)
}

fn is_among(outer: &[Oid], at: Oid) -> bool
    ensures { result ≡ is_among outer.now at }
{
    outer.iter().any(|o| o.0 == at.0)
}

/// Shows a container that does not lie within itself.
#[cycle(show)]
fn show_container(
    store: &Store,
    meter: &mut Meter,
    names: &Names,
    page: &mut Page,
    left: usize,
    at: Oid,
    object: &Object,
) -> Result<(), OpEnd>
    requires container { is_container (content_of object.now) ≡ true }
    ensures plain { Prints result page.new.printer page.old.printer store.now.heap meter.new.left meter.old.left
        (content_shown names.now (inner names.now left (at ∷ reverse page.old.outer.items)) (content_of object.now)) }
    ensures fewer { meter.new.left ≤ meter.old.left }
    ensures outer { OnOk result (page.new.outer.items ≡ page.old.outer.items) }
    ensures counters { KeepsRoom page.old.printer.purse page.new.printer.purse }
{
    if left == 0 {
        return Err(Refusal::Depth.end(page.printer.alloc));
    }
    enter(&mut page.outer, at)?;
    show_enclosed(store, meter, names, page, left - 1, object)?;
    page.outer.pop();
    Ok(())
}

fn enter(outer: &mut Vec<Oid>, at: Oid) -> Result<(), Memory>
    ensures { OnOk result (outer.new.items ≡ outer.old.items ++ at ∷ []) }
{
    outer.push(at)?;
    Ok(())
}

/// Shows a container that has been entered.
#[cycle(show)]
fn show_enclosed(
    store: &Store,
    meter: &mut Meter,
    names: &Names,
    page: &mut Page,
    left: usize,
    object: &Object,
) -> Result<(), OpEnd>
    ensures plain { Prints result page.new.printer page.old.printer store.now.heap meter.new.left meter.old.left
        (enclosed (opening (content_of object.now)) (closing (content_of object.now))
        (separated (item_of names.now left (reverse page.old.outer.items)) (items (content_of object.now)))) }
    ensures fewer { meter.new.left ≤ meter.old.left }
    ensures outer { OnOk result (page.new.outer.items ≡ page.old.outer.items) }
    ensures counters { KeepsRoom page.old.printer.purse page.new.printer.purse }
{
    page.printer.print(opening(object))?;
    show_items(store, meter, names, page, left, object)?;
    page.printer.print(closing(object))
}

/// Shows the elements or the entries of a container.
#[cycle(show)]
fn show_items(
    store: &Store,
    meter: &mut Meter,
    names: &Names,
    page: &mut Page,
    left: usize,
    object: &Object,
) -> Result<(), OpEnd>
    ensures plain { Prints result page.new.printer page.old.printer store.now.heap meter.new.left meter.old.left
        (separated (item_of names.now left (reverse page.old.outer.items)) (items (content_of object.now))) }
    ensures fewer { meter.new.left ≤ meter.old.left }
    ensures outer { OnOk result (page.new.outer.items ≡ page.old.outer.items) }
    ensures counters { KeepsRoom page.old.printer.purse page.new.printer.purse }
{
    match object {
        Object::List(elements) => show_elements(store, meter, names, page, left, elements),
        Object::Tuple(elements) => show_elements(store, meter, names, page, left, elements),
        Object::Dict(entries) => show_entries(store, meter, names, page, left, entries),
        Object::Instance { .. } => Ok(()),
        Object::Class { .. } => Ok(()),
        Object::Function { .. } => Ok(()),
        Object::Method { .. } => Ok(()),
        Object::Scope { .. } => Ok(()),
    }
}

#[cycle(show)]
fn show_elements(
    store: &Store,
    meter: &mut Meter,
    names: &Names,
    page: &mut Page,
    left: usize,
    elements: &[Value],
) -> Result<(), OpEnd>
    ensures plain { Prints result page.new.printer page.old.printer store.now.heap meter.new.left meter.old.left
        (separated (item_of names.now left (reverse page.old.outer.items)) (map element_item elements.now)) }
    ensures fewer { meter.new.left ≤ meter.old.left }
    ensures outer { OnOk result (page.new.outer.items ≡ page.old.outer.items) }
    ensures counters { KeepsRoom page.old.printer.purse page.new.printer.purse }
{
    let mut first = true;
    for element in elements {
        show_item(store, meter, names, page, left, first, None, element)?;
        first = false;
    }
    Ok(())
}

#[cycle(show)]
fn show_entries(
    store: &Store,
    meter: &mut Meter,
    names: &Names,
    page: &mut Page,
    left: usize,
    entries: &Dict<Key, (Rock, Value)>,
) -> Result<(), OpEnd>
    ensures plain { Prints result page.new.printer page.old.printer store.now.heap meter.new.left meter.old.left
        (separated (item_of names.now left (reverse page.old.outer.items)) (map entry_item entries.now)) }
    ensures fewer { meter.new.left ≤ meter.old.left }
    ensures outer { OnOk result (page.new.outer.items ≡ page.old.outer.items) }
    ensures counters { KeepsRoom page.old.printer.purse page.new.printer.purse }
{
    let mut first = true;
    let mut walk = entries.walk();
    while let Some((_, (key, value))) = walk.next() {
        show_item(store, meter, names, page, left, first, Some(key), value)?;
        first = false;
    }
    Ok(())
}

/// Shows an element, or an entry with its key, behind a separator where it is not the first.
#[cycle(show)]
fn show_item(
    store: &Store,
    meter: &mut Meter,
    names: &Names,
    page: &mut Page,
    left: usize,
    first: bool,
    key: Option<&Rock>,
    value: &Value,
) -> Result<(), OpEnd>
    ensures plain { Prints result page.new.printer page.old.printer store.now.heap meter.new.left meter.old.left
        (turn (item_of names.now left (reverse page.old.outer.items)) first
        (record { key = option_copied key.entry; value = value.now })) }
    ensures fewer { meter.new.left ≤ meter.old.left }
    ensures outer { OnOk result (page.new.outer.items ≡ page.old.outer.items) }
    ensures counters { KeepsRoom page.old.printer.purse page.new.printer.purse }
{
    page.printer.separate(first)?;
    step(meter)?;
    page.printer.print_key(key)?;
    show_value(store, meter, names, page, left, value)
}
