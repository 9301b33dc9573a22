//! Declarations and scripts read into names that are first hashed anew, from a secret and their bytes.

// Who wrote the bytes cannot pick names that collide. Nothing that is told depends on it.

ghost use Rattle.std.specs.Prelude.{◌≡◌, ◌≢◌, IfErr, IfOk, OnOk, []};
ghost use Rattle.rp_base.specs.Names.{HoldsEachOnce, with_words, word_of};
ghost use Rattle.rp_compile.specs.Compiled.{source_tree};
ghost use Rattle.rp_script.specs.Refusal.{IsLawful, IsRefused};
ghost use Rattle.rp_policy.specs.Offences.{offences};
ghost use Rattle.rp_program.specs.Leaves.{IsTreeHeld};
ghost use Rattle.rp_program.specs.Program.{IsProgram};
ghost use Rattle.rp_program.specs.ProgramWords.{program_words};
ghost use Rattle.rp_tree.specs.Maps.{named, without_blocks};
ghost use Rattle.rp_decl.specs.Consistency.{IsConsistent};
ghost use Rattle.rp_decl.specs.DeclaredWords.{declared_words};
ghost use Rattle.rp_decl.specs.Declares.{Declares};
ghost use Rattle.rp_decl.specs.Faults.{HasFault, IsFaultHeld};
ghost use Rattle.rp_decl.specs.InOrder.{AreInOrder};
ghost use Rattle.rp_decl.specs.Places.{GrowsTo, IsHeldBy};
ghost use Rattle.rp_decl.specs.View.{declarations_view};

use rp_base::word::GET_ITEM;
use rp_base::{Memory, Names};
use rp_compile::Compiled;
use rp_decl::{Decl, DeclFault};
use rp_script::Refusal;
use std::alloc::Global;

/// Hashes the words anew, from their seed and these bytes.
fn rekey(names: &mut Names, bytes: &[u8]) -> Result<(), Memory>
    ensures { names.new ≡ names.old }
{
    let seed = names.seed().mixed(bytes);
    names.rekey(seed)
}

/// Tells the caller that no word is held twice, and does nothing else.
pub fn hold_each_once(names: &Names)
    ensures { HoldsEachOnce names.now }
{
    if GET_ITEM.0 < names.len() {
        let _first = names.text(GET_ITEM);
    }
}

/// The records of a declaration file.
///
/// # Errors
/// As `rp_decl::declarations`.
pub fn declarations(alloc: Global, bytes: &[u8], names: &mut Names) -> Result<Decl, DeclFault>
    ensures ok { IfOk result (λ d. Declares bytes.now (declarations_view names.new d)) }
    ensures held { IfOk result (IsHeldBy names.new) }
    ensures ordered { IfOk result (λ d. AreInOrder (declarations_view names.new d)) }
    ensures consistent { IfOk result (λ d. IsConsistent (declarations_view names.new d)) }
    ensures fault { IfErr result (HasFault bytes.now names.new) }
    ensures fault_held { IfErr result (IsFaultHeld names.new) }
    ensures names { GrowsTo names.old names.new }
    ensures words { IfOk result (λ d. names.new
        ≡ with_words names.old (declared_words (declarations_view names.new d))) }
{
    rekey(names, bytes)?;
    rp_decl::declarations(alloc, bytes, names)
}

/// Whether the bytes are a script against which the policy of names has nothing.
///
/// # Errors
/// As `rp_script::check_script`.
pub fn check_script(alloc: Global, bytes: &[u8], names: &mut Names) -> Result<(), Refusal>
    ensures lawful { OnOk result (IsLawful bytes.now) }
    ensures refused { IfErr result (λ refusal. refusal ≢ Refusal.Memory → IsRefused names.new bytes.now refusal) }
    ensures names { GrowsTo names.old names.new }
{
    rekey(names, bytes)?;
    rp_script::check_script(alloc, bytes, names)
}

/// The script of the bytes as it will run.
///
/// # Errors
/// As `rp_compile::compile_script`.
pub fn compile_script(alloc: Global, bytes: &[u8], names: &mut Names) -> Result<Compiled, Refusal>
    ensures program { IfOk result (λ c. IsProgram bytes.now
        (without_blocks (named (word_of names.new) (source_tree c)))) }
    ensures lawful { IfOk result (λ c. offences (named (word_of names.new) (source_tree c)) ≡ []) }
    ensures held { IfOk result (λ c. IsTreeHeld names.new (source_tree c)) }
    ensures refused { IfErr result (λ refusal. refusal ≢ Refusal.Memory → IsRefused names.new bytes.now refusal) }
    ensures names { GrowsTo names.old names.new }
    ensures words { OnOk result (names.new ≡ with_words names.old (program_words bytes.now)) }
{
    rekey(names, bytes)?;
    rp_compile::compile_script(alloc, bytes, names)
}
