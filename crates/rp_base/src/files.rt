//! The trait of the files of the outside.

ghost use Rattle.std.specs.Prelude.{◌≡◌, ◌<◌, ◌≤◌, ◌+◌, ◌==◌, ℕ, Bool, true, false, not, length, take, drop, List};
ghost use Rattle.std.specs.Prelude.{Option, Some, None, option_map, IfOk, IfSome, OnOk, OnErr, IsErrOf};
ghost use Rattle.rp_base.specs.Reading.{ReadsFront};

use crate::text::Text;
use rp_hash::Seed;

/// A call of the outside did not do its work.
#[derive(Clone, Copy, Debug, PartialEq, Eq)]
pub struct Failed;

/// Why a file was not begun.
#[derive(Clone, Copy, Debug, PartialEq, Eq)]
pub enum NoFile {
    Failed,
    Memory,
}

/// The files that the program may read, one after another. After a fault they are not called again.
pub trait Files {
    /// The bytes of each path, where they are told.
    ghost contents: { Self → Option (List ℕ → List ℕ) };

    /// What is left of the file that was begun last, where it is told.
    ghost rest: { Self → Option (List ℕ) };

    /// The path that was begun last.
    ghost last_path: { Self → List ℕ };

    /// How often `begin` was called.
    ghost begun: { Self → ℕ };

    ghost is_open: { Self → Bool };

    /// How often a call has failed. It never falls.
    ghost faults: { Self → ℕ };

    /// Begins to read the file at a path. At any other answer than Ok no file is open.
    ///
    /// # Errors
    /// `Failed` where the file cannot be read, `Memory` where opening it was refused memory.
    fn begin(&mut self, path: Text) -> Result<(), NoFile>
        requires sound { faults self.old ≡ 0 }
        requires few { begun self.old < 1000 }

        ensures last { last_path self.new ≡ path }
        ensures counted { begun self.new ≡ begun self.old + 1 }
        ensures same_contents { contents self.new ≡ contents self.old }

        ensures told { OnOk result (rest self.new ≡ option_map (λ of. of path) (contents self.old)) }
        ensures open { OnOk result (is_open self.new ≡ true) }
        ensures closed { OnErr result (is_open self.new ≡ false) }

        ensures sound { OnOk result (faults self.new ≡ faults self.old) }
        ensures failed { IsErrOf result NoFile.Failed → faults self.old < faults self.new }
        ensures memory { IsErrOf result NoFile.Memory → faults self.new ≡ faults self.old };

    /// Reads bytes of the open file into the front of `into`, and answers how many. 0 says that the file
    /// has ended, and closes it.
    ///
    /// # Errors
    /// `Failed` where reading failed, which is never taken for the end of the file.
    fn read(&mut self, into: &mut [u8]) -> Result<usize, Failed>
        requires sound { faults self.old ≡ 0 }
        requires open { is_open self.old ≡ true }
        requires room { 0 < length into.old }

        ensures same_path { last_path self.new ≡ last_path self.old }
        ensures same_begun { begun self.new ≡ begun self.old }
        ensures same_contents { contents self.new ≡ contents self.old }

        ensures bound { IfOk result (λ n. n ≤ length into.new) }
        ensures ends { IfOk result (λ n. is_open self.new ≡ not (n == 0)) }
        ensures told { IfOk result (λ n. IfSome (rest self.old)
            (λ bytes. ReadsFront n bytes into.new (rest self.new))) }

        ensures sound { OnOk result (faults self.new ≡ faults self.old) }
        ensures failed { OnErr result (faults self.old < faults self.new) };

    /// The secret from which the run's tables hash their keys: random where the host has random bytes. Nothing that is
    /// proved or printed depends on it.
    fn seed(&self) -> Seed;
}
