//! Texts written whole to a sink.

ghost use Rattle.std.specs.Prelude.{◌≡◌, ◌++◌, ◌<◌, ℕ, length, take, option_map, OnOk, OnErr};
ghost use Rattle.rp_run.specs.Headline.{Writes, WritesFront};

use rp_base::{Failed, Printed, Sink};

/// Writes a whole text as UTF-8.
///
/// # Errors
/// Where a write failed. Then a front of the text is written.
pub fn write_text<K: Sink>(out: &mut K, text: &Printed) -> Result<(), Failed>
    requires sound { K.faults out.old ≡ 0 }
    ensures whole { OnOk result (Writes text.now (K.written out.old) (K.written out.new)) }
    ensures front { OnErr result (WritesFront text.now (K.written out.old) (K.written out.new)) }
    ensures sound { OnOk result (K.faults out.new ≡ 0) }
    ensures failed { OnErr result (0 < K.faults out.new) }
{
    write_bytes(out, text.as_str().as_bytes())
}

fn write_bytes<K: Sink>(out: &mut K, bytes: &[u8]) -> Result<(), Failed>
    requires sound { K.faults out.old ≡ 0 }
    ensures whole { OnOk result (K.written out.new ≡ option_map (λ before. before ++ bytes.now) (K.written out.old)) }
    ensures front { OnErr result ((n : ℕ) × ((n < length bytes.now)
        × (K.written out.new ≡ option_map (λ before. before ++ take n bytes.now) (K.written out.old)))) }
    ensures sound { OnOk result (K.faults out.new ≡ 0) }
    ensures failed { OnErr result (0 < K.faults out.new) }
{
    let mut written = 0;
    while written < bytes.len() {
        written += out.write(&bytes[written..])?;
    }
    Ok(())
}
