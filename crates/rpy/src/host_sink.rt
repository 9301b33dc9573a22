//! Standard output.

ghost use Rattle.std.specs.Prelude.{◌≡◌, None};

use rp_base::{Failed, Sink};
use std::io::Write;

/// A real writer, as standard output: each piece is flushed. What was written is not told.
#[derive(Drop)]
pub struct HostSink<W: Write + Drop> {
    writer: W,
    faults: u64,
}

impl<W: Write + Drop> HostSink<W> {
    /// The writer, before the first piece.
    pub fn new(writer: W) -> Self
        ensures { result.faults ≡ 0 }
    {
        HostSink { writer, faults: 0 }
    }
}

impl<W: Write + Drop> Sink for HostSink<W> {
    ghost written = { λ _. None };

    ghost faults = { λ h. h.faults };

    fn write(&mut self, piece: &[u8]) -> Result<usize, Failed> {
        match self.writer.write(piece) {
            Ok(count) if count > 0 && self.writer.flush().is_ok() => Ok(count),
            _ => {
                self.faults += 1;
                Err(Failed)
            }
        }
    }
}
