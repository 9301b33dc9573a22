//! The trait of what takes the written bytes.

ghost use Rattle.std.specs.Prelude.{◌≡◌, ◌<◌, ◌≤◌, ◌++◌, ℕ, length, take, List, Option, option_map, IfOk, OnOk, OnErr};

use crate::files::Failed;

/// Where the program writes.
pub trait Sink {
    /// The bytes that were written, where they are told.
    ghost written: { Self → Option (List ℕ) };

    /// How often a call has failed. It never falls.
    ghost faults: { Self → ℕ };

    /// Writes one byte or more of the front of `piece`, and answers how many.
    ///
    /// # Errors
    /// `Failed` where writing failed; then nothing was written.
    fn write(&mut self, piece: &[u8]) -> Result<usize, Failed>
        requires sound { faults self.old ≡ 0 }
        requires some { 0 < length piece.now }

        ensures bound { IfOk result (λ n. (0 < n) × (n ≤ length piece.now)) }
        ensures appended { IfOk result (λ n. written self.new
            ≡ option_map (λ bytes. bytes ++ take n piece.now) (written self.old)) }
        ensures same { OnErr result (written self.new ≡ written self.old) }

        ensures sound { OnOk result (faults self.new ≡ faults self.old) }
        ensures failed { OnErr result (faults self.old < faults self.new) };
}
