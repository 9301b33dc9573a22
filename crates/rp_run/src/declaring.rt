//! Declarations read from a file.

ghost use Rattle.std.specs.Prelude.{◌≡◌, ◌≢◌, ◌⊎◌, ◌<◌, IfErr, IfOk, IsErrOf, OnOk};
ghost use Rattle.rp_base.specs.Names.{first_words, with_words};
ghost use Rattle.rp_decl.specs.DeclaredWords.{declared_words};
ghost use Rattle.rp_decl.specs.Faults.{IsFaultHeld, fault_line};
ghost use Rattle.rp_decl.specs.View.{declarations_view};
ghost use Rattle.rp_run.specs.Refusals.{OnRefusal, RefusesUnread, TellsRead};
ghost use Rattle.rp_run.specs.Steps.{BeginsOnly, IsCommandStatus};
ghost use Rattle.rp_run.specs.View.{IsReadInto};

use crate::answer::Answer;
use crate::keying::declarations;
use crate::reading::read_short;
use crate::stop::Stop;
use rp_base::{Files, Memory, Names, Text};
use rp_decl::{Decl, DeclFault, fault_line};
use std::alloc::Global;

/// Reads the declarations at a path, their names into `names`, before any other file.
///
/// # Errors
/// `Refused` where they have a fault, `Failed` where a read failed, `Memory` where a growth or the opening was refused
/// memory.
pub fn read_declarations<F: Files>(
    alloc: Global,
    path: &Text,
    names: &mut Names,
    files: &mut F,
) -> Result<Decl, Stop>
    requires unread { F.begun files.old ≡ 0 }
    requires sound { F.faults files.old ≡ 0 }
    requires first { names.old ≡ first_words }

    ensures told { IfOk result (λ d. TellsRead path.now (F.contents files.old) (declarations_view names.new d)) }
    ensures well { IfOk result (IsReadInto names.new) }
    ensures words { IfOk result (λ d. names.new
        ≡ with_words first_words (declared_words (declarations_view names.new d))) }
    ensures refused { IfErr result (OnRefusal (RefusesUnread path.now (F.contents files.old))) }
    ensures status { IfErr result (OnRefusal (λ a. IsCommandStatus a.status.0)) }

    ensures begun { OnOk result (BeginsOnly path.now (F.begun files.new) (F.last_path files.new)) }
    ensures tried { (F.begun files.new ≡ 0) ⊎ BeginsOnly path.now (F.begun files.new) (F.last_path files.new) }
    ensures contents { F.contents files.new ≡ F.contents files.old }
    ensures sound { OnOk result (F.faults files.new ≡ 0) }
    ensures kept { IfErr result (OnRefusal (λ _. F.faults files.new ≡ 0)) }
    ensures failed { IsErrOf result Stop.Failed → 0 < F.faults files.new }
    ensures cause { IsErrOf result Stop.Failed → BeginsOnly path.now (F.begun files.new) (F.last_path files.new) }
    ensures memory { IsErrOf result Stop.Memory → F.faults files.new ≡ 0 }
{
    let bytes = read_short(alloc, files, path)?;
    match declarations(alloc, bytes.as_slice(), names) {
        Ok(decl) => Ok(decl),
        Err(fault) => Err(Stop::Refused(answer_fault(alloc, &fault, names)?)),
    }
}

/// The answer to declarations that have a fault. It is refused only for want of memory, which may be the
/// fault.
fn answer_fault(alloc: Global, fault: &DeclFault, names: &Names) -> Result<Answer, Memory>
    requires held { IsFaultHeld names.now fault.now }
    ensures said { IfOk result (λ a. (a.text ≡ fault_line names.now fault.now) × (a.status.0 ≡ 3)) }
    ensures other { OnOk result (fault.now ≢ DeclFault.Memory) }
{
    match fault {
        DeclFault::Memory => Err(Memory),
        _ => {
            let line = fault_line(alloc, fault, names)?;
            Answer::line(alloc, line.as_str(), 3)
        }
    }
}
