//! Rings of classes that are like one another.

ghost use Rattle.std.specs.List.{count_by};
ghost use Rattle.std.specs.Prelude.{◌+◌, ◌-◌, ◌<◌, ◌&&◌, ◌≡◌, ℕ, List, Option, IfOk, None, Some, false, filter};
ghost use Rattle.std.specs.Prelude.{get_or};
ghost use Rattle.std.specs.Prelude.{if◌then◌else◌, is_some, length, map, nat_lt, slice_set};
ghost use Rattle.rp_decl.specs.Consistency.{class_names, is_on_ring};
ghost use Rattle.rp_decl.specs.Order.{least};
ghost use Rattle.rp_decl.specs.Records.{Declarations};
ghost use Rattle.rp_decl.specs.Ring.{is_place, is_reached, like_place, next};
ghost use Rattle.rp_decl.specs.RingSteps.{AreLeft, IsSettled, free_link, without_link};

use crate::least::lesser_of;
use crate::text_set::Sorted;
use rp_base::{Memory, Text};
use std::alloc::Global;

/// The least class that is like itself, over other classes or none, by the place of the class that each is like.
pub(crate) fn ring_fault(
    alloc: Global,
    classes: &Sorted,
    likes: &[Option<usize>],
) -> Result<Option<Text>, Memory>
    ensures { IfOk result (λ fault. (d : Declarations) → classes.now ≡ class_names d
        → likes.now ≡ map (like_place (class_names d)) d.classes
        → fault ≡ least (filter (is_on_ring d) (class_names d))) }
{
    let rings = on_rings(alloc, likes)?;
    let mut least = None;
    for (place, name) in classes.texts().iter().enumerate() {
        let fault = class_on_ring(rings.as_slice(), place, name)?;
        least = lesser_of(least, fault);
    }
    Ok(least)
}

/// The name of the class at a place, where it stands on a ring.
fn class_on_ring(rings: &[bool], place: usize, name: &Text) -> Result<Option<Text>, Memory>
    ensures { IfOk result (λ fault. fault ≡ (if get_or rings.now place false then Some name.now else None)) }
{
    if is_marked(rings, place) {
        Ok(Some(name.copy()?))
    } else {
        Ok(None)
    }
}

fn is_marked(marks: &[bool], place: usize) -> bool
    ensures { result ≡ get_or marks.now place false }
{
    match marks.get(place) {
        Some(mark) => *mark,
        None => false,
    }
}

/// For each place whether it is reached again from itself.
fn on_rings(alloc: Global, likes: &[Option<usize>]) -> Result<Vec<bool>, Memory>
    ensures { IfOk result (λ rings. (place : ℕ) → place < length likes.now → get_or rings.items place false
        ≡ is_reached likes.now (length likes.now) place) }
{
    let links = ring_links(alloc, likes)?;
    let rings = have_links(alloc, links.as_slice())?;
    Ok(rings)
}

/// For each place whether it has a link.
fn have_links(alloc: Global, links: &[Option<usize>]) -> Result<Vec<bool>, Memory>
    ensures { IfOk result (λ marks. marks.items ≡ map (λ link. is_some link) links.now) }
{
    let mut marks = Vec::new(alloc);
    for link in links.iter() {
        marks.push(is_link(*link))?;
    }
    Ok(marks)
}

fn is_link(link: Option<usize>) -> bool
    ensures { result ≡ is_some link }
{
    link.is_some()
}

/// The links that are left where each is taken away that comes from a place to which none leads: those on rings. A
/// place is looked at once in its turn, and once behind each link that is taken.
fn ring_links(alloc: Global, likes: &[Option<usize>]) -> Result<Vec<Option<usize>>, Memory>
    ensures { IfOk result (λ links. (place : ℕ) → is_some (next links.items place)
        ≡ is_reached likes.now (length likes.now) place) }
{
    let mut links = copied(alloc, likes)?;
    let mut waits = vec![in alloc; 0usize; likes.len()]?;
    keep_rings(likes, links.as_mut_slice(), waits.as_mut_slice());
    Ok(links)
}

fn copied(alloc: Global, likes: &[Option<usize>]) -> Result<Vec<Option<usize>>, Memory>
    ensures { IfOk result (λ links. links.items ≡ likes.now) }
{
    let mut links = Vec::with_capacity(alloc, likes.len())?;
    for like in likes.iter() {
        links.push(*like)?;
    }
    Ok(links)
}

/// Keeps the links on rings. What waits for each place, the links that lead to it, is counted here.
fn keep_rings(likes: &[Option<usize>], links: &mut [Option<usize>], waits: &mut [usize])
    requires same { links.old ≡ likes.now }
    requires as_many { length waits.old ≡ length likes.now }
    requires none { (place : ℕ) → place < length waits.old → get_or waits.old place 0 ≡ 0 }
    ensures { (place : ℕ) → is_some (next links.new place) ≡ is_reached likes.now (length likes.now) place }
{
    count_all(likes, waits);
    take_all(links, waits);
}

/// Counts the links that lead to each place.
fn count_all(likes: &[Option<usize>], waits: &mut [usize])
    requires as_many { length waits.old ≡ length likes.now }
    requires none { (place : ℕ) → place < length waits.old → get_or waits.old place 0 ≡ 0 }
    ensures { (place : ℕ) → place < length likes.now → get_or waits.new place 0
        ≡ count_by (is_place place) likes.now }
{
    for place in 0..likes.len() {
        let like = next(likes, place);
        count_link(waits, like, likes.len());
    }
}

/// Counts a link, where fewer than this many lead to its place so far.
fn count_link(waits: &mut [usize], link: Option<usize>, most: usize)
    ensures as_many { length waits.new ≡ length waits.old }
    ensures counted { (place : ℕ) → place < length waits.old → get_or waits.new place 0
        ≡ get_or waits.old place 0 + (if is_place place link && nat_lt (get_or waits.old place 0) most then 1 else 0) }
{
    match link {
        Some(place) => raise(waits, place, most),
        None => (),
    }
}

/// Counts one more at a place, where there are fewer than this many.
fn raise(waits: &mut [usize], place: usize, most: usize)
    ensures as_many { length waits.new ≡ length waits.old }
    ensures counted { (other : ℕ) → other < length waits.old → get_or waits.new other 0
        ≡ get_or waits.old other 0
        + (if is_place other (Some place) && nat_lt (get_or waits.old other 0) most then 1 else 0) }
{
    if !has_room(waits, place, most) {
        return;
    }
    waits[place] = one_more(wait_at(waits, place), most);
}

/// Whether there is a place, at which fewer than this many are counted.
fn has_room(waits: &[usize], place: usize, most: usize) -> bool
    ensures { result ≡ (nat_lt place (length waits.now) && nat_lt (get_or waits.now place 0) most) }
{
    place < waits.len() && wait_at(waits, place) < most
}

fn one_more(number: usize, most: usize) -> usize
    requires { number < most }
    ensures { result ≡ number + 1 }
{
    number + 1
}

fn one_less(number: usize) -> usize
    ensures { result ≡ number - 1 }
{
    number.saturating_sub(1)
}

/// How many are counted at a place; none where there is no such place.
fn wait_at(waits: &[usize], place: usize) -> usize
    ensures { result ≡ get_or waits.now place 0 }
{
    match waits.get(place) {
        Some(wait) => *wait,
        None => 0,
    }
}

/// Takes each link away that comes from a place to which none leads.
fn take_all(links: &mut [Option<usize>], waits: &mut [usize])
    ensures left { (likes : List (Option ℕ)) → AreLeft likes links.old waits.old → AreLeft likes links.new waits.new }
    ensures settled { (place : ℕ) → place < length links.old → IsSettled links.new waits.new place }
{
    for place in 0..links.len() {
        take_from(links, waits, place);
    }
}

/// Takes the link of a place away where none leads to it, and the links behind it where then none leads to theirs.
fn take_from(links: &mut [Option<usize>], waits: &mut [usize], from: usize)
    ensures left { (likes : List (Option ℕ)) → AreLeft likes links.old waits.old → AreLeft likes links.new waits.new }
    ensures settled { (other : ℕ) → (is_place other (Some from) ≡ false → IsSettled links.old waits.old other)
        → IsSettled links.new waits.new other }
{
    let mut place = Some(from);
    while let Some(here) = place {
        place = take_link(links, waits, here);
    }
}

/// Takes the link of a place away where none leads to it, and answers where it led.
fn take_link(links: &mut [Option<usize>], waits: &mut [usize], place: usize) -> Option<usize>
    ensures taken { result ≡ free_link waits.old links.old place }
    ensures links { links.new ≡ without_link links.old place result }
    ensures waits { (other : ℕ) → get_or waits.new other 0
        ≡ get_or waits.old other 0 - (if is_place other result then 1 else 0) }
{
    match free_link(links, waits, place) {
        Some(to) => {
            cut(links, place);
            lower(waits, to);
            Some(to)
        }
        None => None,
    }
}

/// The link of a place to which none leads.
fn free_link(links: &[Option<usize>], waits: &[usize], place: usize) -> Option<usize>
    ensures { result ≡ free_link waits.now links.now place }
{
    if is_led_to(waits, place) {
        None
    } else {
        next(links, place)
    }
}

fn is_led_to(waits: &[usize], place: usize) -> bool
    ensures { result ≡ nat_lt 0 (get_or waits.now place 0) }
{
    wait_at(waits, place) > 0
}

fn cut(links: &mut [Option<usize>], place: usize)
    requires { place < length links.old }
    ensures { links.new ≡ slice_set links.old place None }
{
    links[place] = None;
}

/// Counts one less at a place, where there is one.
fn lower(waits: &mut [usize], place: usize)
    ensures { (other : ℕ) → get_or waits.new other 0
        ≡ get_or waits.old other 0 - (if is_place other (Some place) then 1 else 0) }
{
    if !has_place(waits, place) {
        return;
    }
    waits[place] = one_less(wait_at(waits, place));
}

fn has_place(waits: &[usize], place: usize) -> bool
    ensures { result ≡ nat_lt place (length waits.now) }
{
    place < waits.len()
}

fn next(likes: &[Option<usize>], place: usize) -> Option<usize>
    ensures { result ≡ next likes.now place }
{
    match likes.get(place) {
        Some(like) => *like,
        None => None,
    }
}
