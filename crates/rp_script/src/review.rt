//! Scripts that are read to be judged alone, of which no tree is kept.

ghost use Rattle.std.specs.Prelude.{◌≡◌, ◌≢◌, ℕ, [], IfErr, List, OnOk};
ghost use Rattle.rp_base.specs.Names.{GrowsTo, with_words};
ghost use Rattle.rp_tree.specs.StatementTrees.{Stmts};
ghost use Rattle.rp_program.specs.Program.{IsProgram};
ghost use Rattle.rp_program.specs.ProgramWords.{program_words};
ghost use Rattle.rp_policy.specs.Offences.{offences};
ghost use Rattle.rp_script.specs.Refusal.{IsLawful, IsRefused};

use crate::refusal::Refusal;
use rp_base::{Memory, Names};
use rp_parse::{Visitor, parse_each};
use rp_policy::{Offence, offences};
use rp_program::{ProgramFault, read_tokens};
use rp_tree::{Stmt, Tree};
use std::alloc::Global;
use std::marker::Model;
use std::mem::replace;

/// The offences of the statements that were taken.
#[derive(Drop)]
struct Review<'n> {
    alloc: Global,
    names: &'n Names,
    found: Vec<Offence>,
}

impl<'n> Model for Review<'n> {
    ghost use Rattle.rp_script.specs.Reviews.{Reviewed};

    ghost Value = { Reviewed };

    ghost view = { λ r. record { words = r.names.now; found = r.found.items } };
}

impl<'n> Review<'n> {
    /// Before the first statement.
    fn new(alloc: Global, names: &'n Names) -> Review<'n>
        ensures { result ≡ record { words = names.now; found = [] } }
    {
        Review {
            alloc,
            names,
            found: Vec::new(alloc),
        }
    }

    /// What was found.
    fn into_found(self) -> Vec<Offence>
        ensures { result.items ≡ self.entry.found }
    {
        let Review {
            alloc: _,
            names: _,
            found,
        } = self;
        found
    }
}

impl<'n> Visitor for Review<'n> {
    ghost use Rattle.rp_script.specs.Reviews.{Reviews};

    ghost takes = { Reviews };

    fn visit(&mut self, next: &mut Vec<Stmt>) -> Result<(), Memory> {
        let part = Tree {
            body: replace(next, Vec::new(self.alloc)),
        };
        let mut more = offences(self.alloc, &part, self.names)?;
        self.found.append(&mut more)?;
        Ok(())
    }
}

/// Whether the bytes are a script against which the policy of names has nothing. No tree of it is kept: statements go
/// as soon as they were looked at. Its words are interned among the names, which stay where they are and grow, whatever
/// is answered.
///
/// # Errors
/// The first check that the bytes do not pass, in the order of `Refusal`, or `Memory` where a growth was refused.
pub fn check_script(alloc: Global, bytes: &[u8], names: &mut Names) -> Result<(), Refusal>
    ensures lawful { OnOk result (IsLawful bytes.now) }
    // A script that no offence stands against is refused for want of memory alone.
    ensures only { (tree : Stmts (List ℕ)) → IsProgram bytes.now tree → offences tree ≡ []
        → IfErr result (λ e. e ≡ Refusal.Memory) }
    ensures refused { IfErr result (λ r. r ≢ Refusal.Memory → IsRefused names.new bytes.now r) }
    ensures names { GrowsTo names.old names.new }
    ensures words { OnOk result (names.new ≡ with_words names.old (program_words bytes.now)) }
{
    let tokens = read_tokens(alloc, bytes, names)?;
    let mut review = Review::new(alloc, names);
    if let Err(fault) = parse_each(alloc, tokens, &mut review) {
        return Err(Refusal::from(ProgramFault::from(fault)));
    }
    let found = review.into_found();
    if !found.is_empty() {
        return Err(Refusal::Offences(found));
    }
    Ok(())
}
