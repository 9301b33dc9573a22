//! Files in memory, which fail where they are told to.

ghost use Rattle.std.specs.Prelude.{◌≡◌, ◌≢◌, ◌<◌, ◌≤◌, ◌+◌, ◌==◌, ◌↔◌, ◌⊎◌, [], min, true, false, not, length, Some};
ghost use Rattle.std.specs.Prelude.{None, option_map, IsTrue, IsSome, IsNone, IsOk, IfOk, IfSome, OnOk, OnErr, IsErr};
ghost use Rattle.std.specs.Prelude.{IsErrOf};
ghost use Rattle.std.specs.Option.{option_copied};
ghost use Rattle.rp_base.specs.InMemory.{after_fault, after_work, begun_at, bytes_at, file_at, last_bytes, new_plan};
ghost use Rattle.rp_base.specs.InMemory.{next_number, FailsNext};
ghost use Rattle.rp_base.specs.Reading.{ReadsFront};

use crate::files::{Failed, Files, NoFile};
use crate::text::Text;
use rp_hash::Seed;
use std::marker::Model;

/// Which calls are to fail, by their numbers from 1.
#[derive(Drop)]
pub(crate) struct Plan {
    failing: Vec<u64>,
    made: u64,
    faults: u64,
}

impl Model for Plan {
    ghost use Rattle.rp_base.specs.InMemory.{PlannedCalls};

    ghost Value = { PlannedCalls };

    ghost view = { λ p. record { failing = p.failing.items; made = p.made; faults = p.faults } };
}

impl Plan {
    pub fn new(failing: Vec<u64>) -> Plan
        ensures { result ≡ new_plan failing.items }
    {
        Plan {
            failing,
            made: 0,
            faults: 0,
        }
    }

    /// Counts a call, and tells whether it is to fail.
    pub fn count_call(&mut self) -> bool
        ensures fails { IsTrue result ↔ FailsNext self.old }
        ensures counted { self.new ≡ record self.old { made = next_number self.old } }
    {
        self.made = self.made.saturating_add(1);
        self.failing.contains(&self.made)
    }

    /// Counts a fault.
    pub fn add_fault(&mut self)
        requires { self.old.faults ≡ 0 }
        ensures { self.new ≡ record self.old { faults = self.old.faults + 1 } }
    {
        self.faults += 1;
    }
}

/// The first file that is listed at a path.
fn listed_file<'a>(files: &'a [(Text, Vec<u8>)], path: &Text) -> Option<&'a (Text, Vec<u8>)>
    ensures { option_copied result ≡ file_at files.now path.now }
{
    files.iter().find(|file| file.0 == *path)
}

/// The bytes of the first file that is listed at a path.
fn listed_bytes<'a>(files: &'a [(Text, Vec<u8>)], path: &Text) -> &'a [u8]
    ensures { result.now ≡ bytes_at files.now path.now }
{
    match listed_file(files, path) {
        Some(file) => file.1.as_slice(),
        None => &[],
    }
}

/// The bytes of the file that was begun last.
fn begun_bytes<'a>(files: &'a [(Text, Vec<u8>)], last: &Option<Text>) -> &'a [u8]
    ensures { result.now ≡ last_bytes files.now last.now }
{
    match last {
        Some(path) => listed_bytes(files, path),
        None => &[],
    }
}

/// Files in memory, which never fail. A path that is not listed is an empty file.
#[derive(Drop)]
pub struct SureFiles {
    files: Vec<(Text, Vec<u8>)>,
    last: Option<Text>,
    place: usize,
    is_open: bool,
    begun: u64,
}

impl Model for SureFiles {
    ghost use Rattle.std.specs.Prelude.{◌≤◌, [], length, drop, unwrap_or};
    ghost use Rattle.rp_base.specs.InMemory.{HeldFiles, last_bytes};

    ghost Value = { HeldFiles };

    ghost view = { λ f. record {
      listed = f.files.items;
      last_path = unwrap_or f.last [];
      left = drop f.place (last_bytes f.files.items f.last);
      is_open = f.is_open;
      begun = f.begun;
    } };

    ghost invariant = { λ f. f.place ≤ length (last_bytes f.files.items f.last) };
}

impl SureFiles {
    /// Files at these paths, with these bytes; of two at one path the first counts.
    pub fn new(files: Vec<(Text, Vec<u8>)>) -> SureFiles
        ensures contents { ⟦<SureFiles as Files>⟧.contents result ≡ Some (bytes_at files.items) }
        ensures listed { result.listed ≡ files.items }
        ensures none_begun { result.begun ≡ 0 }
        ensures closed { result.is_open ≡ false }
    {
        SureFiles {
            files,
            last: None,
            place: 0,
            is_open: false,
            begun: 0,
        }
    }

    /// Whether a file is listed at a path.
    fn lists(&self, path: &Text) -> bool
        ensures { IsTrue result ↔ IsSome (file_at self.now.listed path.now) }
    {
        listed_file(self.files.as_slice(), path).is_some()
    }

    /// Turns to the start of the file at a path, and opens it or leaves it closed.
    fn turn_to(&mut self, path: Text, is_open: bool)
        requires { self.old.begun < 1000 }
        ensures { self.new ≡ begun_at self.old path is_open }
    {
        self.begun += 1;
        self.last = Some(path);
        self.place = 0;
        self.is_open = is_open;
    }
}

impl Files for SureFiles {
    ghost contents = { λ f. Some (bytes_at f.listed) };

    ghost rest = { λ f. Some f.left };

    ghost last_path = { λ f. f.last_path };

    ghost begun = { λ f. f.begun };

    ghost is_open = { λ f. f.is_open };

    ghost faults = { λ _. 0 };

    fn begin(&mut self, path: Text) -> Result<(), NoFile>
        requires few { self.old.begun < 1000 }
        ensures sure { IsOk result }
        ensures begun { self.new ≡ begun_at self.old path true }
    {
        self.turn_to(path, true);
        Ok(())
    }

    fn read(&mut self, into: &mut [u8]) -> Result<usize, Failed>
        requires open { self.old.is_open ≡ true }
        requires room { 0 < length into.old }

        ensures same_path { self.new.last_path ≡ self.old.last_path }
        ensures same_begun { self.new.begun ≡ self.old.begun }
        ensures same_listed { self.new.listed ≡ self.old.listed }

        ensures sure { IsOk result }
        ensures full { IfOk result (λ n. n ≡ min (length self.old.left) (length into.old)) }
        ensures ends { IfOk result (λ n. self.new.is_open ≡ not (n == 0)) }
        ensures told { IfOk result (λ n. ReadsFront n self.old.left into.new (Some self.new.left)) }
    {
        let left = &begun_bytes(self.files.as_slice(), &self.last)[self.place..];
        let count = left.len().min(into.len());
        into[..count].copy_from_slice(&left[..count]);
        self.place += count;
        self.is_open = count > 0;
        Ok(count)
    }

    fn seed(&self) -> Seed {
        Seed::from_bytes([0; 16])
    }
}

/// Files in memory of which a read hands out few bytes, and some calls fail.
#[derive(Drop)]
pub struct MemFiles {
    held: SureFiles,
    most: usize,
    plan: Plan,
}

impl Model for MemFiles {
    ghost use Rattle.std.specs.Prelude.{◌<◌};
    ghost use Rattle.rp_base.specs.InMemory.{FailingFiles};

    ghost Value = { FailingFiles };

    ghost view = { λ f. record { held = f.held; most = f.most; plan = f.plan } };

    ghost invariant = { λ f. 0 < f.most };
}

impl MemFiles {
    /// Files at these paths, with these bytes; of two at one path the first counts. A read hands out
    /// at most `most` bytes. The calls whose numbers are in `failing` fail, where the calls of `begin`
    /// and `read` are counted together, from 1, and so does `begin` of a path that is not listed.
    pub fn new(files: Vec<(Text, Vec<u8>)>, most: usize, failing: Vec<u64>) -> MemFiles
        requires { 0 < most }
        ensures contents { ⟦<MemFiles as Files>⟧.contents result ≡ Some (bytes_at files.items) }
        ensures listed { result.held.listed ≡ files.items }
        ensures none_begun { result.held.begun ≡ 0 }
        ensures closed { result.held.is_open ≡ false }
        ensures most { result.most ≡ most }
        ensures plan { result.plan ≡ new_plan failing.items }
    {
        MemFiles {
            held: SureFiles::new(files),
            most,
            plan: Plan::new(failing),
        }
    }
}

impl Files for MemFiles {
    ghost contents = { λ f. Some (bytes_at f.held.listed) };

    ghost rest = { λ f. Some f.held.left };

    ghost last_path = { λ f. f.held.last_path };

    ghost begun = { λ f. f.held.begun };

    ghost is_open = { λ f. f.held.is_open };

    ghost faults = { λ f. f.plan.faults };

    fn begin(&mut self, path: Text) -> Result<(), NoFile>
        requires sound { self.old.plan.faults ≡ 0 }
        requires few { self.old.held.begun < 1000 }

        ensures last { self.new.held.last_path ≡ path }
        ensures counted { self.new.held.begun ≡ self.old.held.begun + 1 }
        ensures same_listed { self.new.held.listed ≡ self.old.held.listed }
        ensures same_most { self.new.most ≡ self.old.most }

        ensures told { OnOk result (self.new.held.left ≡ bytes_at self.old.held.listed path) }
        ensures open { OnOk result (self.new.held.is_open ≡ true) }
        ensures closed { OnErr result (self.new.held.is_open ≡ false) }

        // The calls that fail, and a path that is not listed.
        ensures fails { IsErrOf result NoFile.Failed
            ↔ (FailsNext self.old.plan ⊎ IsNone (file_at self.old.held.listed path)) }
        ensures never_memory { result ≢ Err NoFile.Memory }
        ensures sound { OnOk result (self.new.plan ≡ after_work self.old.plan) }
        ensures failed { OnErr result (self.new.plan ≡ after_fault self.old.plan) }
    {
        let fails = self.plan.count_call();
        if fails || !self.held.lists(&path) {
            self.plan.add_fault();
            self.held.turn_to(path, false);
            return Err(NoFile::Failed);
        }
        self.held.begin(path)
    }

    fn read(&mut self, into: &mut [u8]) -> Result<usize, Failed>
        requires sound { self.old.plan.faults ≡ 0 }
        requires open { self.old.held.is_open ≡ true }
        requires room { 0 < length into.old }

        ensures same_path { self.new.held.last_path ≡ self.old.held.last_path }
        ensures same_begun { self.new.held.begun ≡ self.old.held.begun }
        ensures same_listed { self.new.held.listed ≡ self.old.held.listed }
        ensures same_most { self.new.most ≡ self.old.most }

        ensures at_most { IfOk result (λ n. n ≤ self.old.most) }
        ensures count { IfOk result (λ n.
            n ≡ min (length self.old.held.left) (min self.old.most (length into.old))) }
        ensures ends { IfOk result (λ n. self.new.held.is_open ≡ not (n == 0)) }
        ensures told { IfOk result (λ n.
            ReadsFront n self.old.held.left into.new (Some self.new.held.left)) }
        ensures same { OnErr result (self.new.held ≡ self.old.held) }

        ensures fails { IsErr result ↔ FailsNext self.old.plan }
        ensures sound { OnOk result (self.new.plan ≡ after_work self.old.plan) }
        ensures failed { OnErr result (self.new.plan ≡ after_fault self.old.plan) }
    {
        if self.plan.count_call() {
            self.plan.add_fault();
            return Err(Failed);
        }
        let most = self.most.min(into.len());
        self.held.read(&mut into[..most])
    }

    fn seed(&self) -> Seed {
        self.held.seed()
    }
}
