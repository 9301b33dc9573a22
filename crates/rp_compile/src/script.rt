//! Scripts from bytes, with their guards.

ghost use Rattle.std.specs.Prelude.{◌≡◌, ◌≢◌, ℕ, [], IfErr, IfOk, List, MatchResult, OnOk};
ghost use Rattle.rp_base.specs.Names.{GrowsTo, with_words, word_of};
ghost use Rattle.rp_tree.specs.Maps.{named, without_blocks};
ghost use Rattle.rp_tree.specs.StatementTrees.{Stmts};
ghost use Rattle.rp_program.specs.Leaves.{IsTreeHeld};
ghost use Rattle.rp_program.specs.Program.{IsProgram};
ghost use Rattle.rp_program.specs.ProgramWords.{program_words};
ghost use Rattle.rp_policy.specs.Offences.{offences};
ghost use Rattle.rp_script.specs.Refusal.{IsRefused};
ghost use Rattle.rp_compile.specs.Compiled.{source_tree};

use rp_base::Names;
use rp_guard::transform;
use rp_scope::{Layouts, number, resolve};
use rp_script::{Refusal, read_script};
use rp_tree::Tree;
use std::alloc::Global;
use std::marker::Model;

/// A script as it will run: the tree of its source, which the policy of names lets pass, with a guard at each form that
/// needs one, and the scopes of its code blocks, which are numbered. The tree of the source is this tree without its
/// guards; it is not kept.
#[derive(Drop)]
pub struct Compiled {
    tree: Tree,
    layouts: Layouts,
}

impl Model for Compiled {
    ghost use Rattle.std.specs.Coded.{codes};
    ghost use Rattle.rp_tree.specs.contracts.stmt.Tree as statements;
    ghost use Rattle.rp_compile.specs.Compiled.{Compilation, IsCompiled};

    ghost Value = { Compilation };

    ghost coded = { Prim.hlevel (codes, statements.the_row.coded) };

    ghost view = { λ c. record { rewritten = c.tree; layouts = c.layouts } };

    ghost invariant = { λ c. IsCompiled (record { rewritten = c.tree; layouts = c.layouts }) };
}

impl Compiled {
    ghost use Rattle.std.specs.Prelude.{◌≡◌};
    ghost use Rattle.rp_compile.specs.Compiled.{IsCompiled};

    /// The tree that runs, with its guards.
    pub fn rewritten(&self) -> &Tree
        ensures is { result.now ≡ self.now.rewritten }
        ensures kept { IsCompiled self.now }
    {
        &self.tree
    }

    /// The local names of each code block, and where it finds a name; the script binds no name before all else.
    pub fn layouts(&self) -> &Layouts
        ensures is { result.now ≡ self.now.layouts }
        ensures kept { IsCompiled self.now }
    {
        &self.layouts
    }

    /// The tree that runs and the scopes of its code blocks.
    pub fn into_parts(self) -> (Tree, Layouts)
        ensures tree { result.0 ≡ self.rewritten }
        ensures layouts { result.1 ≡ self.layouts }
        ensures kept { IsCompiled self }
    {
        (self.tree, self.layouts)
    }
}

/// The compiled script of the bytes (RestrictedPython, compile_restricted). Its words are interned among the names,
/// which stay where they are and grow, whatever is answered.
///
/// # Errors
/// The first check that the bytes do not pass, in the order of `Refusal`, or `Memory` where a growth was refused.
pub fn compile_script(alloc: Global, bytes: &[u8], names: &mut Names) -> Result<Compiled, Refusal>
    ensures program { IfOk result (λ c. IsProgram bytes.now
        (without_blocks (named (word_of names.new) (source_tree c)))) }
    ensures lawful { IfOk result (λ c. offences (named (word_of names.new) (source_tree c)) ≡ []) }
    // A script that no offence stands against is refused for want of memory alone.
    ensures only { (tree : Stmts (List ℕ)) → IsProgram bytes.now tree → offences tree ≡ []
        → MatchResult result (λ c. without_blocks (named (word_of names.new) (source_tree c)) ≡ tree)
        (λ e. e ≡ Refusal.Memory) }
    ensures held { IfOk result (λ c. IsTreeHeld names.new (source_tree c)) }
    ensures refused { IfErr result (λ r. r ≢ Refusal.Memory → IsRefused names.new bytes.now r) }
    ensures names { GrowsTo names.old names.new }
    ensures words { OnOk result (names.new ≡ with_words names.old (program_words bytes.now)) }
{
    let mut source = read_script(alloc, bytes, names)?;
    number(&mut source);
    let layouts = resolve(alloc, &source, &[])?;
    let tree = transform(source)?;
    Ok(Compiled { tree, layouts })
}
