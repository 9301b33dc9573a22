//! The tasks that wait.

ghost use Rattle.std.specs.Prelude.{◌≡◌, ◌∷◌, [], MatchOption, OnErr, OnOk};

use crate::task::Task;
use rp_base::Memory;
use std::alloc::Global;
use std::marker::Model;

/// The tasks that wait, seen as the list of them, the last one first: it waits for the end of what is done next.
#[derive(Drop)]
pub struct Tasks<'u> {
    tasks: Vec<Task<'u>>,
}

impl<'u> Model for Tasks<'u> {
    ghost use Rattle.std.specs.Prelude.{List, reverse};
    ghost use Rattle.std.specs.Coded.{codes};
    ghost use Rattle.rp_frame.specs.declared.task.Task.{Task};
    ghost use Rattle.rp_tree.specs.contracts.expr.Arg as arg;
    ghost use Rattle.rp_tree.specs.contracts.expr.Clause as clause;
    ghost use Rattle.rp_tree.specs.contracts.expr.Expr as expr;
    ghost use Rattle.rp_tree.specs.contracts.expr.Place as place;
    ghost use Rattle.rp_tree.specs.contracts.expr.Trailer as trailer;
    ghost use Rattle.rp_tree.specs.contracts.expr.Target as target;
    ghost use Rattle.rp_tree.specs.contracts.stmt.Branch as branch;
    ghost use Rattle.rp_tree.specs.contracts.stmt.Except as except;
    ghost use Rattle.rp_tree.specs.contracts.stmt.Stmt as stmt;

    ghost Value = { List Task };

    ghost coded = { Prim.hlevel (
      codes,
      arg.the_row.coded,
      clause.the_row.coded,
      expr.the_row.coded,
      place.the_row.coded,
      target.the_row.coded,
      branch.the_row.coded,
      except.the_row.coded,
      stmt.the_row.coded,
      trailer.the_row.coded,
    ) };

    ghost view = { λ x. reverse x.tasks.items };
}

impl<'u> Tasks<'u> {
    /// No task. It takes no memory yet.
    pub fn new(alloc: Global) -> Tasks<'u>
        ensures { result ≡ [] }
    {
        Tasks {
            tasks: Vec::new(alloc),
        }
    }

    /// Lets a task wait upon the others.
    ///
    /// # Errors
    /// `Memory` where a growth was refused; then they are as before.
    #[inline(always)]
    pub fn push(&mut self, task: Task<'u>) -> Result<(), Memory>
        ensures pushed { OnOk result (self.new ≡ task.entry ∷ self.old) }
        ensures same { OnErr result (self.new ≡ self.old) }
    {
        self.tasks.reserve(1)?;
        self.tasks.push_reserved(task);
        Ok(())
    }

    /// Takes the last task off, None exactly where there is none.
    #[inline(always)]
    pub fn pop(&mut self) -> Option<Task<'u>>
        ensures last { MatchOption result (self.old ≡ []) (λ task. self.old ≡ task ∷ self.new) }
        ensures none { self.old ≡ [] → self.new ≡ [] }
    {
        if self.tasks.is_empty() {
            return None;
        }
        Some(self.tasks.take_last())
    }
}
