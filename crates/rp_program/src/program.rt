//! The tree of a program, from its bytes.

ghost use Rattle.std.specs.Prelude.{◌≡◌, ◌≢◌, ℕ, IfErr, IfOk, List, MatchResult, OnOk};
ghost use Rattle.rp_base.specs.Names.{GrowsTo, HoldsEachOnce, with_words, word_of};
ghost use Rattle.rp_base.specs.declared.value.Line.{Line};
ghost use Rattle.rp_tree.specs.Maps.{named};
ghost use Rattle.rp_tree.specs.Marks.{HasNoGuards};
ghost use Rattle.rp_tree.specs.StatementTrees.{Stmts};
ghost use Rattle.rp_tree.specs.StatementViews.{view_tree};
ghost use Rattle.rp_token.specs.Laws.{IsWithin};
ghost use Rattle.rp_grammar.specs.Kinds.{Tokens};
ghost use Rattle.rp_grammar.specs.Program.{Spells};
ghost use Rattle.rp_program.specs.Fault.{IsFault};
ghost use Rattle.rp_program.specs.Leaves.{IsTreeHeld, IsUnnumbered};
ghost use Rattle.rp_program.specs.Program.{IsProgram, IsRead};
ghost use Rattle.rp_program.specs.ProgramWords.{program_words};

use crate::fault::ProgramFault;
use rp_base::{Names, word};
use rp_more::expand;
use rp_parse::parse;
use rp_token::{Token, tokens};
use rp_tree::Tree;
use std::alloc::Global;

/// The tree of the program that the bytes are (Python Language Reference, Top-level components), with f-literals and
/// sets written out. Its words are interned among the names, which stay where they are and grow, whatever is answered.
///
/// # Errors
/// The first check that the bytes do not pass, in the order of `ProgramFault`, or `Memory` where a growth was refused.
pub fn read_program(alloc: Global, bytes: &[u8], names: &mut Names) -> Result<Tree, ProgramFault>
    ensures program { IfOk result (λ t. IsProgram bytes.now (named (word_of names.new) (view_tree t))) }
    // A program has one tree, and bytes that are one are refused for want of memory alone.
    ensures one { (a b : Stmts (List ℕ)) → IsProgram bytes.now a → IsProgram bytes.now b → a ≡ b }
    ensures only { (tree : Stmts (List ℕ)) → IsProgram bytes.now tree
        → MatchResult result (λ t. named (word_of names.new) (view_tree t) ≡ tree) (λ e. e ≡ ProgramFault.Memory) }
    ensures held { IfOk result (λ t. IsTreeHeld names.new (view_tree t)) }
    ensures plain { IfOk result (λ t. HasNoGuards (view_tree t)) }
    ensures low { IfOk result (λ t. (tokens : Tokens) × Spells (view_tree t) tokens) }
    ensures unnumbered { IfOk result (λ t. IsUnnumbered (view_tree t)) }
    ensures refused { IfErr result (λ f. f ≢ ProgramFault.Memory → IsFault bytes.now f) }
    ensures names { GrowsTo names.old names.new }
    ensures words { OnOk result (names.new ≡ with_words names.old (program_words bytes.now)) }
{
    match std::str::from_utf8(bytes) {
        Ok(text) => read_text(alloc, text, names),
        Err(error) => Err(ProgramFault::NotUtf8(error.valid_up_to())),
    }
}

/// The tree of the program that a text is, with f-literals and sets written out. Its words are interned among the
/// names, which stay where they are and grow, whatever is answered.
///
/// # Errors
/// The first check that the text does not pass, in the order of `ProgramFault` and never `NotUtf8`, or `Memory` where a
/// growth was refused.
pub fn read_text(alloc: Global, text: &str, names: &mut Names) -> Result<Tree, ProgramFault>
    ensures program { IfOk result (λ t. IsProgram text.now (named (word_of names.new) (view_tree t))) }
    ensures one { (a b : Stmts (List ℕ)) → IsProgram text.now a → IsProgram text.now b → a ≡ b }
    ensures only { (tree : Stmts (List ℕ)) → IsProgram text.now tree
        → MatchResult result (λ t. named (word_of names.new) (view_tree t) ≡ tree) (λ e. e ≡ ProgramFault.Memory) }
    ensures held { IfOk result (λ t. IsTreeHeld names.new (view_tree t)) }
    ensures plain { IfOk result (λ t. HasNoGuards (view_tree t)) }
    ensures low { IfOk result (λ t. (tokens : Tokens) × Spells (view_tree t) tokens) }
    ensures unnumbered { IfOk result (λ t. IsUnnumbered (view_tree t)) }
    ensures refused { IfErr result (λ f. f ≢ ProgramFault.Memory → IsFault text.now f) }
    ensures names { GrowsTo names.old names.new }
    ensures words { OnOk result (names.new ≡ with_words names.old (program_words text.now)) }
{
    let expanded = text_tokens(alloc, text, names)?;
    Ok(parse(alloc, expanded)?)
}

/// The tokens of bytes as the grammar takes them, with f-literals and sets written out: the trees that they spell are
/// those of the program. The words are interned among the names, which stay where they are and grow, whatever is
/// answered.
///
/// # Errors
/// The first check that the bytes do not pass, in the order of `ProgramFault` and never `Syntax`, or `Memory` where a
/// growth was refused.
pub fn read_tokens(
    alloc: Global,
    bytes: &[u8],
    names: &mut Names,
) -> Result<Vec<Token>, ProgramFault>
    ensures read { IfOk result (λ ts. IsRead bytes.now names.new ts.items) }
    ensures shallow { IfOk result (λ ts. IsWithin 450 0 ts.items) }
    ensures unparsed { IfErr result (λ f. (line : Line) → f ≢ ProgramFault.Syntax line) }
    ensures refused { IfErr result (λ f. f ≢ ProgramFault.Memory → IsFault bytes.now f) }
    ensures names { GrowsTo names.old names.new }
    ensures words { OnOk result (names.new ≡ with_words names.old (program_words bytes.now)) }
{
    match std::str::from_utf8(bytes) {
        Ok(text) => text_tokens(alloc, text, names),
        Err(error) => Err(ProgramFault::NotUtf8(error.valid_up_to())),
    }
}

/// The tokens of a text as the grammar takes them.
fn text_tokens(alloc: Global, text: &str, names: &mut Names) -> Result<Vec<Token>, ProgramFault>
    ensures read { IfOk result (λ ts. IsRead text.now names.new ts.items) }
    ensures shallow { IfOk result (λ ts. IsWithin 450 0 ts.items) }
    ensures unparsed { IfErr result (λ f. (line : Line) → f ≢ ProgramFault.Syntax line) }
    ensures refused { IfErr result (λ f. f ≢ ProgramFault.Memory → IsFault text.now f) }
    ensures names { GrowsTo names.old names.new }
    ensures words { OnOk result (names.new ≡ with_words names.old (program_words text.now)) }
{
    let given = tokens(alloc, text, names)?;
    let expanded = expand(alloc, given, names)?;
    hold_each_once(names);
    Ok(expanded)
}

/// Tells the caller that no word is held twice, and does nothing else.
fn hold_each_once(names: &Names)
    ensures { HoldsEachOnce names.now }
{
    if names.len() > 0 {
        let _first = names.text(word::GET_ITEM);
    }
}
