//! The order in which the rows of classes are made: a class after the one that it is like.

ghost use Rattle.std.specs.Prelude.{◌≡◌, ◌<◌, ℕ, IfOk, OnOk, [], true, map, length, slice_get, option_copied};
ghost use Rattle.std.specs.Prelude.{option_and_then, vec_len};
ghost use Rattle.std.specs.Option.{option_or};
ghost use Rattle.std.specs.Map.{lookup};
ghost use Rattle.rp_base.specs.declared.value.Name.{Name};
ghost use Rattle.rp_base.specs.declared.value.Op.{Op};
ghost use Rattle.rp_checker.specs.Chain.{AllEnd, AreClassesWithin, AreRight, HasAllRows, HaveRowsWithin, IsChain};
ghost use Rattle.rp_checker.specs.Chain.{class_places, is_done, like_place, own_row};
ghost use Rattle.rp_checker.specs.Lookup.{is_name};
ghost use Rattle.rp_checker.specs.Tables.{row_at};

use crate::class_rows::{ClassRows, get_rows, rows_over, set_rows};
use crate::table::Table;
use rp_base::{Memory, Name, Text};
use rp_decl::ClassDecl;
use std::alloc::{AllocError, Global};
use std::marker::Model;

/// What rows are made from: the classes, their places by name, and the ids of the permissions.
#[derive(Drop)]
pub struct Plan<'d> {
    classes: &'d [ClassDecl],
    places: Table<usize>,
    permissions: &'d [Text],
}

impl<'d> Model for Plan<'d> {
    ghost use Rattle.rp_checker.specs.Plan.{Plan, HasPlacesWithin};

    ghost Value = { Plan };

    ghost view = { λ p. record { classes = p.classes.now; places = p.places; permissions = p.permissions.now } };

    ghost invariant = { λ p. HasPlacesWithin
        (record { classes = p.classes.now; places = p.places; permissions = p.permissions.now }) };
}

impl<'d> Plan<'d> {
    /// The plan for these classes and permissions.
    ///
    /// # Errors
    /// `Memory` where a growth was refused.
    pub fn new(
        alloc: Global,
        classes: &'d [ClassDecl],
        permissions: &'d [Text],
    ) -> Result<Plan<'d>, Memory>
        ensures classes { IfOk result (λ p. p.classes ≡ classes.now) }
        ensures places { IfOk result (λ p. (name : Name) → lookup (is_name name) p.places
            ≡ lookup (is_name name) (class_places classes.now)) }
        ensures permissions { IfOk result (λ p. p.permissions ≡ permissions.now) }
    {
        let places = Table::new(class_places(alloc, classes)?)?;
        Ok(Plan {
            classes,
            places,
            permissions,
        })
    }

    /// The place of each class by its name.
    pub fn into_places(self) -> Table<usize>
        ensures { result ≡ self.entry.places }
    {
        self.places
    }

    /// The rows of each class, where each `like` is followed once.
    ///
    /// # Errors
    /// `Memory` where a growth was refused.
    pub fn all_rows(&self, alloc: Global) -> Result<Vec<ClassRows>, Memory>
        ensures all { IfOk result (λ rows. AllEnd self.now → HasAllRows self.now rows.items) }
        ensures within { IfOk result (λ rows. AreClassesWithin self.now
            → HaveRowsWithin (length self.now.permissions) rows.items) }
    {
        let classes = self.classes;
        let count = classes.len();
        let mut rows = unmade(alloc, count)?;
        let mut done = vec![in alloc; false; count]?;
        for place in 0..count {
            if !done[place] {
                self.settle(alloc, place, &mut rows, &mut done)?;
            }
        }
        Ok(rows)
    }

    /// The place of the class that the one at this place is like.
    fn like(&self, place: usize) -> Option<usize>
        ensures { result ≡ like_place self.now place }
    {
        let name = self.classes.get(place)?.like?;
        self.places.get(name)
    }

    /// The rows of the class at this place, over those of the class that it is like, which are made.
    fn rows(&self, alloc: Global, place: usize, made: &[ClassRows]) -> Result<ClassRows, Memory>
        requires { place < length self.now.classes }
        ensures { IfOk result (λ r. (op : Op) → row_at op r
            ≡ option_or (own_row self.now place op)
            (option_and_then (λ like. option_and_then (row_at op) (slice_get made.now like))
            (like_place self.now place))) }
    {
        let classes = self.classes;
        let class = &classes[place];
        let like = rows_at(made, self.like(place));
        let get = rows_over(alloc, self.permissions, &class.get, get_rows(like))?;
        let set = rows_over(alloc, self.permissions, &class.set, set_rows(like))?;
        Ok(ClassRows { get, set })
    }

    /// The classes from the first on that are not done, each like the next.
    fn chain(&self, alloc: Global, done: &[bool], first: usize) -> Result<Vec<usize>, AllocError>
        requires within { first < length self.now.classes }
        requires as_many { length done.now ≡ length self.now.classes }
        ensures { IfOk result (λ chain. IsChain self.now done.now first chain.items) }
    {
        let mut chain = Vec::new(alloc);
        let mut next = Some(first);
        while let Some(place) = next {
            if done[place] || chain.len() == self.classes.len() {
                return Ok(chain);
            }
            chain.push(place)?;
            next = self.like(place);
        }
        Ok(chain)
    }

    /// Makes the rows of a class, and of those that it is like, where they are not done.
    ///
    /// # Errors
    /// `Memory` where a growth was refused.
    pub fn settle(
        &self,
        alloc: Global,
        first: usize,
        rows: &mut [ClassRows],
        done: &mut [bool],
    ) -> Result<(), Memory>
        requires within { first < length self.now.classes }
        requires rows { length rows.old ≡ length self.now.classes }
        requires done { length done.old ≡ length self.now.classes }
        ensures right { OnOk result (AllEnd self.now → AreRight self.now done.old rows.old
            → AreRight self.now done.new rows.new) }
        ensures first { OnOk result (is_done done.new first ≡ true) }
        ensures declared { OnOk result (AreClassesWithin self.now
            → HaveRowsWithin (length self.now.permissions) rows.old
            → HaveRowsWithin (length self.now.permissions) rows.new) }
        ensures kept { OnOk result ((place : ℕ) → is_done done.old place ≡ true → is_done done.new place ≡ true) }
    {
        let mut chain = self.chain(alloc, done, first)?;
        while let Some(place) = chain.pop() {
            rows[place] = self.rows(alloc, place, rows)?;
            done[place] = true;
        }
        Ok(())
    }
}

/// As many rows, none of them made yet.
fn unmade(alloc: Global, count: usize) -> Result<Vec<ClassRows>, AllocError>
    ensures count { IfOk result (λ rows. vec_len rows ≡ count) }
    ensures none { IfOk result (λ rows. (permissions : ℕ) → HaveRowsWithin permissions rows.items) }
{
    let mut rows = Vec::with_capacity(alloc, count)?;
    for _ in 0..count {
        rows.push(ClassRows::empty(alloc))?;
    }
    Ok(rows)
}

/// The name and the place of each class.
fn class_places(alloc: Global, classes: &[ClassDecl]) -> Result<Vec<(Name, usize)>, AllocError>
    ensures { IfOk result (λ v. v.items ≡ class_places classes.now) }
{
    let places = classes.iter().enumerate();
    places
        .map(|(place, class)| (class.name, place))
        .collect(alloc)
}

/// The rows at a place, if there is one.
fn rows_at(made: &[ClassRows], place: Option<usize>) -> Option<&ClassRows>
    ensures { option_copied result ≡ option_and_then (slice_get made.now) place }
{
    made.get(place?)
}
