//! The grammar of statements: tokens to the tree of a script, or the line of the first fault.
#![tactic(auto)]

ghost use Rattle.std.specs.Prelude.{◌≡◌, ◌≢◌, IfErr, IfOk, MatchResult, OnOk};
ghost use Rattle.rp_token.specs.Laws.{IsWithin};
ghost use Rattle.rp_tree.specs.Marks.{HasNoGuards};
ghost use Rattle.rp_tree.specs.Statements.{Stmts};
ghost use Rattle.rp_tree.specs.StatementViews.{view_tree};
ghost use Rattle.rp_grammar.specs.Kinds.{Tokens, line_at};
ghost use Rattle.rp_grammar.specs.Leaves.{HasLeavesOf};
ghost use Rattle.rp_grammar.specs.Program.{IsLongestGood, Spells};
ghost use Rattle.rp_parse.specs.Visits.{TakesTree, no_stmts};

mod blocks;
mod compound;
mod context;
mod fault;
mod lines;
mod look;
mod parameters;
mod script;
mod simple_statements;
mod unread;
mod visitor;

pub use fault::ParseFault;
use rp_token::Token;
use rp_tree::Tree;
use script::program;
use std::alloc::Global;
use visitor::Keeper;
pub use visitor::Visitor;

/// The tree of a script (Python Language Reference, File input). No place of the tokens stands within more than 450
/// open brackets; those of a text open at most 200.
///
/// The tree has height at most 200, and is the only one that the tokens spell. It has no guard marks and no numbers of
/// code blocks, and each of its names and of its numbers is one of a token. The tokens are given back while they are
/// read.
///
/// # Errors
/// `Syntax` where the tokens spell no such tree. Its line is that of the token behind the longest front that can be
/// ended to a whole script. `Memory` where a growth was refused.
pub fn parse(alloc: Global, tokens: Vec<Token>) -> Result<Tree, ParseFault>
    requires shallow { IsWithin 450 0 tokens.items }
    ensures spelled { IfOk result (λ tree. Spells (view_tree tree) tokens.items) }
    ensures only { (tree : Stmts) → Spells tree tokens.items
        → MatchResult result (λ t. view_tree t ≡ tree) (λ e. e ≡ ParseFault.Memory) }
    ensures one { (a b : Stmts) → Spells a tokens.items → Spells b tokens.items → a ≡ b }
    ensures plain { IfOk result (λ tree. HasNoGuards (view_tree tree)) }
    ensures leaves { IfOk result (λ tree. HasLeavesOf tokens.items (view_tree tree)) }
    ensures syntax { IfErr result (λ e. e ≢ ParseFault.Memory → (front : Tokens) × (rest : Tokens)
        × (e ≡ ParseFault.Syntax (line_at rest)) × IsLongestGood front rest tokens.items) }
{
    let mut keeper = Keeper::new(alloc);
    match program(alloc, tokens, &mut keeper) {
        Ok(()) => Ok(Tree {
            body: keeper.into_kept(),
        }),
        Err(fault) => Err(fault),
    }
}

/// Reads a script as `parse` does, and hands its statements to a visitor, some at a time: where they need not be kept,
/// they do not all stand at once.
///
/// # Errors
/// As `parse`, and `Memory` where the visitor wants memory. What the visitor took before a fault is then its own.
pub fn parse_each<V: Visitor>(
    alloc: Global,
    tokens: Vec<Token>,
    visitor: &mut V,
) -> Result<(), ParseFault>
    requires shallow { IsWithin 450 0 tokens.items }
    requires begins { V.takes visitor.old no_stmts visitor.old }
    ensures spelled { OnOk result (TakesTree V.takes visitor.old tokens.items visitor.new) }
    ensures only { (tree : Stmts) → Spells tree tokens.items → IfErr result (λ e. e ≡ ParseFault.Memory) }
    ensures one { (a b : Stmts) → Spells a tokens.items → Spells b tokens.items → a ≡ b }
    ensures syntax { IfErr result (λ e. e ≢ ParseFault.Memory → (front : Tokens) × (rest : Tokens)
        × (e ≡ ParseFault.Syntax (line_at rest)) × IsLongestGood front rest tokens.items) }
{
    program(alloc, tokens, visitor)
}
