//! Names in an order, and the first place of each.

ghost use Rattle.std.specs.Prelude.{◌≡◌, ◌<◌, ◌&&◌, ℕ, if◌then◌else◌, IfOk, None, Some, get_or, length, nat_eq, nat_lt};
ghost use Rattle.std.specs.Prelude.{position};
ghost use Rattle.std.specs.List.{All};
ghost use Rattle.rp_decl.specs.FirstPlaces.{first_place};

use rp_base::{Memory, Name};
use std::alloc::Global;
use std::marker::Model;

/// Names in an order, one of which may stand there twice.
#[derive(Drop)]
pub struct NameTable {
    names: Vec<Name>,
    /// The first place of each name, by its number; as many as there are names, where it is none of them.
    places: Vec<usize>,
}

impl Model for NameTable {
    ghost use Rattle.std.specs.Prelude.{List};
    ghost use Rattle.rp_base.specs.declared.value.Name.{Name};
    ghost use Rattle.rp_decl.specs.FirstPlaces.{AreFirstPlaces};

    ghost Value = { List Name };

    ghost view = { λ e. e.names.items };

    ghost invariant = { λ e. AreFirstPlaces e.names.items e.places.items };
}

impl NameTable {
    /// These names, whose numbers are below this one.
    ///
    /// # Errors
    /// `Memory` where a growth was refused.
    pub(crate) fn new(alloc: Global, names: Vec<Name>, below: usize) -> Result<NameTable, Memory>
        requires { All (λ name. name.0 < below) names.items }
        ensures { IfOk result (λ e. e ≡ names.items) }
    {
        let places = first_places(alloc, names.as_slice(), below)?;
        Ok(NameTable { names, places })
    }

    /// The names in their order.
    pub(crate) fn names(&self) -> &[Name]
        ensures { result.now ≡ self.now }
    {
        self.names.as_slice()
    }

    /// The first place of a name, by one look-up.
    pub(crate) fn place(&self, name: Name) -> Option<usize>
        ensures { result ≡ position (λ other. nat_eq name.0 other.0) self.now }
    {
        let names = self.names.as_slice();
        let places = self.places.as_slice();
        let place = place_at(places, name.0, names.len());
        if_below(place, names.len())
    }
}

/// The first place of each name, by its number, where that is below this one.
///
/// # Errors
/// `Memory` where a growth was refused.
fn first_places(alloc: Global, names: &[Name], below: usize) -> Result<Vec<usize>, Memory>
    ensures as_many { IfOk result (λ places. length places.items ≡ below) }
    ensures first { IfOk result (λ places. (number : ℕ) → number < below
        → get_or places.items number (length names.now) ≡ first_place number names.now) }
{
    let mut places = vec![in alloc; names.len(); below]?;
    note_all(places.as_mut_slice(), names);
    Ok(places)
}

/// Notes the first place of each name, by its number, where nothing is noted yet.
fn note_all(places: &mut [usize], names: &[Name])
    requires { (number : ℕ) → number < length places.old
        → get_or places.old number (length names.now) ≡ length names.now }
    ensures as_many { length places.new ≡ length places.old }
    ensures first { (number : ℕ) → number < length places.old
        → get_or places.new number (length names.now) ≡ first_place number names.now }
{
    for (place, name) in names.iter().enumerate() {
        note(places, name.0, place, names.len());
    }
}

/// Notes a place for a number that has none yet, which is told by `none`.
fn note(places: &mut [usize], number: usize, place: usize, none: usize)
    ensures as_many { length places.new ≡ length places.old }
    ensures noted { (other : ℕ) → other < length places.old → get_or places.new other none
        ≡ (if nat_eq other number && nat_eq (get_or places.old other none) none
        then place
        else get_or places.old other none) }
{
    if !is_free(places, number, none) {
        return;
    }
    places[number] = place;
}

/// Whether a number may have a place, and has none yet.
fn is_free(places: &[usize], number: usize, none: usize) -> bool
    ensures { result ≡ (nat_lt number (length places.now) && nat_eq (get_or places.now number none) none) }
{
    number < places.len() && place_at(places, number, none) == none
}

/// The place that is noted for a number; `none` where the table ends before it.
fn place_at(places: &[usize], number: usize, none: usize) -> usize
    ensures { result ≡ get_or places.now number none }
{
    match places.get(number) {
        Some(place) => *place,
        None => none,
    }
}

/// A place, where it is below a number.
fn if_below(place: usize, number: usize) -> Option<usize>
    ensures { result ≡ (if nat_lt place number then Some place else None) }
{
    if place < number { Some(place) } else { None }
}
