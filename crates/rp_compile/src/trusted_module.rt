//! Trusted modules from texts.

ghost use Rattle.std.specs.Prelude.{◌≡◌, ◌≢◌, ℕ, IfErr, IfOk, List, MatchResult, OnOk};
ghost use Rattle.rp_base.specs.Names.{GrowsTo, with_words, word_of};
ghost use Rattle.rp_tree.specs.Maps.{named, without_blocks};
ghost use Rattle.rp_tree.specs.StatementTrees.{Stmts};
ghost use Rattle.rp_tree.specs.StatementViews.{view_tree};
ghost use Rattle.rp_program.specs.Leaves.{IsTreeHeld};
ghost use Rattle.rp_program.specs.Program.{IsProgram};
ghost use Rattle.rp_program.specs.ProgramWords.{program_words};
ghost use Rattle.rp_scope.specs.Numbers.{HasNumbers};
ghost use Rattle.rp_scope.specs.Scopes.{AreScopesOf, scopes};
ghost use Rattle.rp_compile.specs.Trusted.{IsNoProgram};

use rp_base::{Name, Names};
use rp_program::read_text;
use rp_scope::{Layouts, number, resolve};
use rp_script::Refusal;
use rp_tree::Tree;
use std::alloc::Global;
use std::marker::Model;

/// A trusted module as it will run: its tree, which has no guards and whose code blocks are numbered, and the scopes of
/// these.
#[derive(Drop)]
pub struct Trusted {
    tree: Tree,
    layouts: Layouts,
}

impl Model for Trusted {
    ghost use Rattle.std.specs.Coded.{codes};
    ghost use Rattle.rp_tree.specs.contracts.stmt.Tree as statements;
    ghost use Rattle.rp_compile.specs.Trusted.{IsTrusted, TrustedModule};

    ghost Value = { TrustedModule };

    ghost coded = { Prim.hlevel (codes, statements.the_row.coded) };

    ghost view = { λ m. record { tree = m.tree; layouts = m.layouts } };

    ghost invariant = { λ m. IsTrusted (record { tree = m.tree; layouts = m.layouts }) };
}

impl Trusted {
    ghost use Rattle.std.specs.Prelude.{◌≡◌};
    ghost use Rattle.rp_compile.specs.Trusted.{IsTrusted};

    /// The tree that runs, without guards.
    pub fn tree(&self) -> &Tree
        ensures is { result.now ≡ self.now.tree }
        ensures kept { IsTrusted self.now }
    {
        &self.tree
    }

    /// The local names of each code block, and where it finds a name; those of the module begin with the names that
    /// `compile_trusted` was given.
    pub fn layouts(&self) -> &Layouts
        ensures is { result.now ≡ self.now.layouts }
        ensures kept { IsTrusted self.now }
    {
        &self.layouts
    }

    /// The tree that runs and the scopes of its code blocks.
    pub fn into_parts(self) -> (Tree, Layouts)
        ensures tree { result.0 ≡ self.tree }
        ensures layouts { result.1 ≡ self.layouts }
        ensures kept { IsTrusted self }
    {
        (self.tree, self.layouts)
    }
}

/// The trusted module of the text, to which no policy applies and whose forms have no guards. Its local names begin
/// with `first`, each once. Its words are interned among the names, which stay where they are and grow, whatever is
/// answered.
///
/// # Errors
/// `Token`, `Format` and `Syntax` for the first check that the text does not pass, in this order, or `Memory` where a
/// growth was refused. `NotUtf8` and `Offences` never come.
pub fn compile_trusted(
    alloc: Global,
    text: &str,
    first: &[Name],
    names: &mut Names,
) -> Result<Trusted, Refusal>
    ensures program { IfOk result (λ m. IsProgram text.now
        (without_blocks (named (word_of names.new) (view_tree m.tree)))) }
    // A program is refused for want of memory alone.
    ensures only { (tree : Stmts (List ℕ)) → IsProgram text.now tree
        → MatchResult result (λ m. without_blocks (named (word_of names.new) (view_tree m.tree)) ≡ tree)
        (λ e. e ≡ Refusal.Memory) }
    ensures held { IfOk result (λ m. IsTreeHeld names.new (view_tree m.tree)) }
    ensures numbers { IfOk result (λ m. HasNumbers (view_tree m.tree)) }
    ensures scopes { IfOk result (λ m. AreScopesOf m.layouts first.now (view_tree m.tree)) }
    ensures table { IfOk result (λ m. m.layouts ≡ scopes first.now (view_tree m.tree)) }
    ensures refused { IfErr result (λ r. r ≢ Refusal.Memory → IsNoProgram text.now r) }
    ensures names { GrowsTo names.old names.new }
    ensures words { OnOk result (names.new ≡ with_words names.old (program_words text.now)) }
{
    let mut tree = read_text(alloc, text, names)?;
    number(&mut tree);
    let layouts = resolve(alloc, &tree, first)?;
    Ok(Trusted { tree, layouts })
}
