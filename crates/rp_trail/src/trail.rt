//! The decisions so far, and the line of each.

ghost use Rattle.std.specs.Prelude.{◌≡◌, ◌++◌, ◌+◌, ◌<◌, ◌↔◌, [], ◌∷◌, IfOk, IsTrue, OnErr, OnOk, chars, length};
ghost use Rattle.std.specs.Prelude.{string_bytes, vec_capacity, vec_len};
ghost use Rattle.rp_store.specs.Store.{IsOver};

use crate::entry::{Entry, Verdict};
use crate::words::{add, add_operation, add_word, front, permission_text, reason};
use rp_base::{Memory, Names};
use rp_decl::Decl;
use rp_store::{Store, StoreFault};
use std::alloc::Global;
use std::marker::Model;

/// The decisions so far, the latest last. An entry is never changed or taken out.
pub struct Trail {
    entries: Vec<Entry>,
}

// By hand, so that crates that drop one do not prove again how its parts are dropped.
impl Drop for Trail {
    fn drop(self) {
        let Trail { entries: _ } = self;
    }
}

impl Model for Trail {
    ghost use Rattle.std.specs.Prelude.{List};
    ghost use Rattle.rp_trail.specs.declared.entry.Entry.{Entry};

    ghost Value = { List Entry };

    ghost view = { λ t. t.entries.items };
}

impl Trail {
    ghost use Rattle.rp_trail.specs.Line.{line_of};
    ghost use Rattle.rp_trail.specs.View.{IsEntryHeld, entry_view};

    /// The empty trail. It takes no memory yet.
    pub fn new(alloc: Global) -> Trail
        ensures { result ≡ [] }
    {
        Trail {
            entries: Vec::new(alloc),
        }
    }

    /// Appends an entry, for one cell of the store.
    ///
    /// # Errors
    /// `Cells` exactly where that cell is over the limit, `Memory` where a growth was refused. The trail and the store
    /// are then as before.
    pub fn push(&mut self, store: &mut Store, entry: Entry) -> Result<(), StoreFault>
        ensures pushed { OnOk result (self.new ≡ self.old ++ entry ∷ []) }
        ensures charged { OnOk result (store.new ≡ record store.old { used = store.old.used + 1 }) }
        ensures cells { (result ≡ Err StoreFault.Cells) ↔ IsOver store.old 1 }
        ensures trail_same { OnErr result (self.new ≡ self.old) }
        ensures store_same { OnErr result (store.new ≡ store.old) }
    {
        make_room(&mut self.entries, store)?;
        store.charge(1)?;
        self.entries.push_reserved(entry);
        Ok(())
    }

    /// The entries, in the order of the decisions.
    pub fn entries(&self) -> &[Entry]
        ensures { result.now ≡ self.now }
    {
        self.entries.as_slice()
    }

    /// The number of entries.
    pub fn len(&self) -> usize
        ensures { result ≡ length self.now }
    {
        self.entries.len()
    }

    /// Whether there is no entry.
    pub fn is_empty(&self) -> bool
        ensures { IsTrue result ↔ (self.now ≡ []) }
    {
        self.entries.is_empty()
    }

    /// The line that tells the entry at the place `i`, counted from 0, of a session of `who`, with its line end:
    /// `I K WHO allow OP CLASS.NAME REASON`, `I K WHO deny OP CLASS.NAME PERMISSION` or `I K WHO forbid OP CLASS.NAME`.
    /// I is the number of the entry, counted from 1, K that of the session, OP is `get` or `set`, CLASS is `list`,
    /// `tuple`, `dict`, `function`, `method`, `class`, the name of a declared class or `instance`, and REASON is the
    /// permission of the row, or `default` where it has none.
    ///
    /// # Errors
    /// `Memory` where a growth was refused.
    pub fn line(
        alloc: Global,
        i: usize,
        who: &str,
        entry: &Entry,
        decl: &Decl,
        names: &Names,
    ) -> Result<String, Memory>
        requires numbered { i < usize.MAX }
        requires held { IsEntryHeld names.now decl.now.permissions entry.now }
        ensures { IfOk result (λ line. chars (string_bytes line)
            ≡ line_of i (chars who.now) (entry_view names.now decl.now.permissions entry.now)) }
    {
        let mut line = front(alloc, i + 1, entry.session, who)?;
        match entry.verdict {
            Verdict::Allowed(row) => {
                add_operation(&mut line, "allow", entry, names)?;
                add_word(&mut line, reason(row, decl))?;
            }
            Verdict::Denied(permission) => {
                add_operation(&mut line, "deny", entry, names)?;
                add_word(&mut line, permission_text(permission, decl))?;
            }
            Verdict::Forbidden => add_operation(&mut line, "forbid", entry, names)?,
        }
        add(&mut line, "\n")?;
        Ok(line)
    }
}

/// Room for one entry more. Where there is some, the cells are not asked.
#[inline(always)]
fn make_room(entries: &mut Vec<Entry>, store: &Store) -> Result<(), StoreFault>
    ensures same { entries.new.items ≡ entries.old.items }
    ensures room { OnOk result (vec_len entries.new < vec_capacity entries.new) }
    ensures cells { OnErr result ((result ≡ Err StoreFault.Cells) ↔ IsOver store.now 1) }
{
    if entries.len() < entries.capacity() {
        return Ok(());
    }
    grow(entries, store)
}

/// More room for entries, where a cell is left for one more.
#[inline(never)]
fn grow(entries: &mut Vec<Entry>, store: &Store) -> Result<(), StoreFault>
    ensures same { entries.new.items ≡ entries.old.items }
    ensures room { OnOk result (vec_len entries.new < vec_capacity entries.new) }
    ensures cells { (result ≡ Err StoreFault.Cells) ↔ IsOver store.now 1 }
{
    if store.used() == store.limit() {
        return Err(StoreFault::Cells);
    }
    entries.reserve(1).map_err(Memory::from)?;
    Ok(())
}
