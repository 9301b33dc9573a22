//! The scripts of a run: all are read, and then all are compiled.

ghost use Rattle.std.specs.Prelude.{◌≡◌, ◌≢◌, ◌<◌, ◌+◌, ◌++◌, [], IfErr, IfOk, IsErrOf, OnOk, length, map};
ghost use Rattle.std.specs.List.{All};
ghost use Rattle.rp_compile.specs.Compiled.{source_tree};
ghost use Rattle.rp_decl.specs.Places.{GrowsTo};
ghost use Rattle.rp_program.specs.Leaves.{IsTreeHeld};
ghost use Rattle.rp_run.specs.Refusals.{AreWhole, OnRefusal, RefusesScripts, RefusesTooLong};
ghost use Rattle.rp_run.specs.Steps.{Adds, BeginsSome, FailsAtScript, IsCommandStatus};
ghost use Rattle.rp_run.specs.Told.{Compiles, names_behind, script_prefix};
ghost use Rattle.rp_script.specs.Refusal.{refusal_lines};
ghost use Rattle.rp_session.specs.Played.{source_text};
ghost use Rattle.rp_words.specs.View.{pair_view};

use crate::answer::{Answer, script_prefix};
use crate::keying;
use crate::reading::read_short;
use crate::stop::Stop;
use rp_base::{Files, Memory, Names, Printed, Status};
use rp_compile::Compiled;
use rp_script::Refusal;
use rp_words::Pair;
use std::alloc::Global;

/// What the scripts of the pairs hold, read in their order.
///
/// # Errors
/// `Refused` at the first that is too long, `Failed` where a call failed, `Memory` where a growth or an opening was
/// refused memory.
pub fn read_scripts<F: Files>(
    alloc: Global,
    pairs: &[Pair],
    files: &mut F,
) -> Result<Vec<Vec<u8>>, Stop>
    requires sound { F.faults files.old ≡ 0 }
    requires few { F.begun files.old + length pairs.now < 1000 }

    ensures told { IfOk result (λ all. AreWhole (F.contents files.old) (map pair_view pairs.now)
        (map (λ bytes. bytes.items) all.items)) }
    ensures count { IfOk result (λ all. length all.items ≡ length pairs.now) }
    ensures refused { IfErr result (OnRefusal (RefusesTooLong (F.contents files.old) (map pair_view pairs.now))) }
    ensures status { IfErr result (OnRefusal (λ a. IsCommandStatus a.status.0)) }

    ensures begun { BeginsSome (map pair_view pairs.now) (F.begun files.old) (F.last_path files.old)
        (F.begun files.new) (F.last_path files.new) }
    ensures sound { OnOk result (F.faults files.new ≡ 0) }
    ensures kept { IfErr result (OnRefusal (λ _. F.faults files.new ≡ 0)) }
    ensures failed { IsErrOf result Stop.Failed → 0 < F.faults files.new }
    ensures cause { IsErrOf result Stop.Failed → FailsAtScript (map pair_view pairs.now) (F.contents files.old)
        (F.begun files.old) (F.begun files.new) (F.last_path files.new) }
    ensures memory { IsErrOf result Stop.Memory → F.faults files.new ≡ 0 }
{
    let mut all = Vec::new(alloc);
    for pair in pairs {
        all.push(read_short(alloc, files, &pair.path)?)?;
    }
    Ok(all)
}

/// Scripts as they will run, where the bytes of each are a program that no offence stands against. Their names are put
/// to `names`.
///
/// # Errors
/// `Refused` where some are not, with what is said of each of these; `Memory` where a growth was refused.
pub fn compile_scripts(
    alloc: Global,
    scripts: &[Vec<u8>],
    names: &mut Names,
) -> Result<Vec<Compiled>, Stop>
    ensures compiled { IfOk result (λ all. Compiles 1 (map (λ bytes. bytes.items) scripts.now)
        (map (source_text names.new) all.items) []) }
    ensures count { IfOk result (λ all. length all.items ≡ length scripts.now) }
    ensures held { IfOk result (λ all. All (λ script. IsTreeHeld names.new (source_tree script)) all.items) }
    ensures words { OnOk result (names.new ≡ names_behind names.old (map (λ bytes. bytes.items) scripts.now)) }
    ensures names { GrowsTo names.old names.new }
    ensures refused { IfErr result (OnRefusal (RefusesScripts (map (λ bytes. bytes.items) scripts.now))) }
    ensures unfailed { IfErr result (λ stop. stop ≢ Stop.Failed) }
{
    let mut all = Vec::new(alloc);
    let mut said = Printed::new(alloc);
    for (place, bytes) in scripts.iter().enumerate() {
        add_script(
            alloc,
            place + 1,
            bytes.as_slice(),
            names,
            &mut all,
            &mut said,
        )?;
    }
    if !said.as_str().is_empty() {
        return Err(Stop::Refused(Answer {
            text: said,
            status: Status(4),
        }));
    }
    Ok(all)
}

/// Puts a script to the compiled ones, or what is said of it to what is said. It is refused only for want of memory.
fn add_script(
    alloc: Global,
    number: usize,
    bytes: &[u8],
    names: &mut Names,
    all: &mut Vec<Compiled>,
    said: &mut Printed,
) -> Result<(), Memory>
    ensures added { OnOk result (Adds number bytes.now names.old names.new all.old.items all.new.items
        said.old said.new) }
    ensures names { GrowsTo names.old names.new }
{
    match keying::compile_script(alloc, bytes, names) {
        Ok(script) => {
            all.push(script)?;
            Ok(())
        }
        Err(refusal) => add_refusal(alloc, number, &refusal, names, said),
    }
}

/// Appends the lines of a script of a run that is refused. It is refused only for want of memory, which may be the
/// script's refusal.
fn add_refusal(
    alloc: Global,
    number: usize,
    refusal: &Refusal,
    names: &Names,
    said: &mut Printed,
) -> Result<(), Memory>
    ensures added { OnOk result (said.new ≡ said.old
        ++ refusal_lines names.now (script_prefix number) refusal.now) }
    ensures other { OnOk result (refusal.now ≢ Refusal.Memory) }
{
    let prefix = script_prefix(alloc, number)?;
    let lines = Answer::unaccepted(alloc, prefix.as_str(), refusal, names)?;
    said.add(lines.text.as_str())
}
