//! Scripts from bytes.

ghost use Rattle.std.specs.Prelude.{◌≡◌, ◌≢◌, ℕ, [], IfErr, IfOk, List, MatchResult, OnOk};
ghost use Rattle.rp_base.specs.Names.{GrowsTo, with_words, word_of};
ghost use Rattle.rp_tree.specs.Augmented.{AugmentsNames};
ghost use Rattle.rp_tree.specs.Maps.{named};
ghost use Rattle.rp_tree.specs.Marks.{HasNoGuards};
ghost use Rattle.rp_tree.specs.StatementTrees.{Stmts};
ghost use Rattle.rp_tree.specs.StatementViews.{view_tree};
ghost use Rattle.rp_grammar.specs.Kinds.{Tokens};
ghost use Rattle.rp_grammar.specs.Program.{Spells};
ghost use Rattle.rp_program.specs.Leaves.{IsTreeHeld};
ghost use Rattle.rp_program.specs.Program.{IsProgram};
ghost use Rattle.rp_program.specs.ProgramWords.{program_words};
ghost use Rattle.rp_policy.specs.Offences.{offences, offences_by};
ghost use Rattle.rp_script.specs.Refusal.{IsRefused};

use crate::refusal::Refusal;
use rp_base::Names;
use rp_policy::offences;
use rp_program::read_program;
use rp_tree::Tree;
use std::alloc::Global;

/// The tree of the script that the bytes are, against which the policy of names has nothing. Its words are interned
/// among the names, which stay where they are and grow, whatever is answered.
///
/// # Errors
/// The first check that the bytes do not pass, in the order of `Refusal`, or `Memory` where a growth was refused.
pub fn read_script(alloc: Global, bytes: &[u8], names: &mut Names) -> Result<Tree, Refusal>
    ensures program { IfOk result (λ t. IsProgram bytes.now (named (word_of names.new) (view_tree t))) }
    ensures lawful { IfOk result (λ t. offences (named (word_of names.new) (view_tree t)) ≡ []) }
    // A script that no offence stands against is refused for want of memory alone.
    ensures only { (tree : Stmts (List ℕ)) → IsProgram bytes.now tree → offences tree ≡ []
        → MatchResult result (λ t. named (word_of names.new) (view_tree t) ≡ tree) (λ e. e ≡ Refusal.Memory) }
    ensures held { IfOk result (λ t. IsTreeHeld names.new (view_tree t)) }
    ensures plain { IfOk result (λ t. HasNoGuards (view_tree t)) }
    ensures low { IfOk result (λ t. (tokens : Tokens) × Spells (view_tree t) tokens) }
    ensures unoffending { IfOk result (λ t. offences_by (word_of names.new) (view_tree t) ≡ []) }
    ensures unaugmented { IfOk result (λ t. AugmentsNames (view_tree t)) }
    ensures refused { IfErr result (λ r. r ≢ Refusal.Memory → IsRefused names.new bytes.now r) }
    ensures names { GrowsTo names.old names.new }
    ensures words { OnOk result (names.new ≡ with_words names.old (program_words bytes.now)) }
{
    let source = read_program(alloc, bytes, names)?;
    let found = offences(alloc, &source, names)?;
    if !found.is_empty() {
        return Err(Refusal::Offences(found));
    }
    Ok(source)
}
