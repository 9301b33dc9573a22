//! Files read whole, unless they are too long.

ghost use Rattle.std.specs.Prelude.{◌≡◌, ◌<◌, ◌≤◌, ◌+◌, ◌⊎◌, true, length, IfErr, IfOk, IfSome, OnOk, IsErrOf};
ghost use Rattle.rp_run.specs.Contents.{Holds};
ghost use Rattle.rp_run.specs.Refusals.{BeginsNext, IsWhole, OnRefusal, RefusesLong};

use crate::answer::Answer;
use crate::stop::Stop;
use rp_base::{Files, NoFile, Text};
use std::alloc::Global;

/// The most bytes of a file that is read.
pub const LONGEST_FILE: usize = 4_194_304;

/// The most bytes that one read is asked for.
const PIECE: usize = 65_536;

/// What a file holds, unless it is too long.
#[derive(Drop)]
enum Contents {
    Whole(Vec<u8>),
    /// There are more bytes than the most that is read.
    TooLong,
}

/// Reads the file at a path, unless it is too long.
///
/// # Errors
/// `Refused` where the file is too long, `Failed` where a call failed, `Memory` where a growth or the opening was
/// refused memory.
pub fn read_short<F: Files>(alloc: Global, files: &mut F, path: &Text) -> Result<Vec<u8>, Stop>
    requires sound { F.faults files.old ≡ 0 }
    requires few { F.begun files.old < 1000 }

    ensures told { IfOk result (λ bytes. IsWhole (F.contents files.old) bytes.items path.now) }
    ensures refused { IfErr result (OnRefusal (RefusesLong (F.contents files.old) path.now)) }

    ensures begun { OnOk result (BeginsNext path.now (F.begun files.old) (F.begun files.new) (F.last_path files.new)) }
    ensures tried { ((F.begun files.new ≡ F.begun files.old) × (F.last_path files.new ≡ F.last_path files.old))
        ⊎ BeginsNext path.now (F.begun files.old) (F.begun files.new) (F.last_path files.new) }
    ensures same_contents { F.contents files.new ≡ F.contents files.old }

    ensures sound { OnOk result (F.faults files.new ≡ 0) }
    ensures kept { IfErr result (OnRefusal (λ _. F.faults files.new ≡ 0)) }
    ensures failed { IsErrOf result Stop.Failed → 0 < F.faults files.new }
    ensures cause { IsErrOf result Stop.Failed
        → BeginsNext path.now (F.begun files.old) (F.begun files.new) (F.last_path files.new) }
    ensures memory { IsErrOf result Stop.Memory → F.faults files.new ≡ 0 }
{
    match read_file(alloc, files, path.copy()?)? {
        Contents::Whole(bytes) => Ok(bytes),
        Contents::TooLong => Err(Stop::Refused(Answer::labelled(alloc, "too long: ", path, 9)?)),
    }
}

/// Reads the file at a path.
///
/// # Errors
/// `Failed` where a call failed, `Memory` where a growth or the opening was refused memory.
fn read_file<F: Files>(alloc: Global, files: &mut F, path: Text) -> Result<Contents, Stop>
    requires sound { F.faults files.old ≡ 0 }
    requires few { F.begun files.old < 1000 }

    ensures told { IfOk result (λ c. IfSome (F.contents files.old) (λ of. Holds c (of path))) }

    ensures last { F.last_path files.new ≡ path }
    ensures counted { F.begun files.new ≡ F.begun files.old + 1 }
    ensures same_contents { F.contents files.new ≡ F.contents files.old }

    ensures sound { OnOk result (F.faults files.new ≡ 0) }
    ensures failed { IsErrOf result Stop.Failed → 0 < F.faults files.new }
    ensures memory { IsErrOf result Stop.Memory → F.faults files.new ≡ 0 }
    ensures unrefused { IfErr result (OnRefusal (λ _. ⊥)) }
{
    match files.begin(path) {
        Ok(()) => {
            let mut buffer = vec![in alloc; 0u8; PIECE]?;
            read_rest(alloc, files, buffer.as_mut_slice())
        }
        Err(NoFile::Failed) => Err(Stop::Failed),
        Err(NoFile::Memory) => Err(Stop::Memory),
    }
}

/// Reads what is left of the open file, piece by piece into the buffer.
fn read_rest<F: Files>(alloc: Global, files: &mut F, buffer: &mut [u8]) -> Result<Contents, Stop>
    requires sound { F.faults files.old ≡ 0 }
    requires open { F.is_open files.old ≡ true }
    requires room { 0 < length buffer.old }

    ensures told { IfOk result (λ c. IfSome (F.rest files.old) (Holds c)) }

    ensures last { F.last_path files.new ≡ F.last_path files.old }
    ensures counted { F.begun files.new ≡ F.begun files.old }
    ensures same_contents { F.contents files.new ≡ F.contents files.old }

    ensures sound { OnOk result (F.faults files.new ≡ 0) }
    ensures failed { IsErrOf result Stop.Failed → 0 < F.faults files.new }
    ensures memory { IsErrOf result Stop.Memory → F.faults files.new ≡ 0 }
    ensures unrefused { IfErr result (OnRefusal (λ _. ⊥)) }
{
    let mut taken = Vec::new(alloc);
    while taken.len() <= LONGEST_FILE {
        let most = buffer.len().min(LONGEST_FILE + 1 - taken.len());
        let count = files.read(&mut buffer[..most])?;
        if count == 0 {
            return Ok(Contents::Whole(taken));
        }
        taken.extend_from_slice(&buffer[..count])?;
    }
    Ok(Contents::TooLong)
}
