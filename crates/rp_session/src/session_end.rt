//! How a session ended.

ghost use Rattle.std.specs.Prelude.{◌≡◌, if◌then◌else◌, option_map, IfOk, None, Some};
ghost use Rattle.rp_meaning.specs.Sessions.{first_end, well};
ghost use Rattle.rp_meaning.specs.State.{State, Outcome, Flow};
ghost use Rattle.rp_access.specs.Comes.{Comes};
ghost use Rattle.rp_step.specs.Left.{flows};
ghost use Rattle.rp_engine.specs.Moment.{program_view};
ghost use Rattle.rp_tree.specs.StatementViews.{view_stmts};
ghost use Rattle.rp_session.specs.View.{EndsSo, end_view};

use rp_base::{OpEnd, Raised};
use rp_engine::{Halt, Program};
use rp_step::Left;
use rp_tree::Stmt;

/// How a session ended.
#[derive(Drop)]
pub enum SessionEnd {
    /// Behind its last statement.
    Well,
    /// By an exception that nothing handled.
    Raised(Raised),
    /// No step was left to it.
    StopSteps,
    /// No cell was left.
    StopCells,
}

impl SessionEnd {
    /// Whether a session has ended with what a statement came to, which may be its last.
    ///
    /// # Errors
    /// `Memory` where that is why the statement ended.
    pub(crate) fn after(end: Result<Left, OpEnd>, is_last: bool) -> Result<Option<SessionEnd>, Halt>
        ensures { IfOk result (λ ended. (s : State) (o : Outcome Flow)
            → Comes (flows end) s o → EndsSo ended is_last s o) }
    {
        match end {
            Ok(_) => Ok(SessionEnd::behind(is_last)),
            Err(OpEnd::Raised(raised)) => Ok(Some(SessionEnd::Raised(raised))),
            Err(OpEnd::StopSteps) => Ok(Some(SessionEnd::StopSteps)),
            Err(OpEnd::StopCells) => Ok(Some(SessionEnd::StopCells)),
            Err(OpEnd::Memory) => Err(Halt::Memory),
        }
    }

    /// How a session of a program has ended before its first statement.
    pub(crate) fn first(program: &Program) -> Option<SessionEnd>
        ensures { option_map end_view result ≡ first_end (program_view program.now).body }
    {
        SessionEnd::without(program.tree.body.as_slice())
    }

    /// How a session has ended to which these statements are left.
    fn without(statements: &[Stmt]) -> Option<SessionEnd>
        ensures { option_map end_view result ≡ first_end (view_stmts statements.now) }
    {
        match statements {
            [] => Some(SessionEnd::Well),
            [_, ..] => None,
        }
    }

    /// How a session has ended behind a statement.
    fn behind(is_last: bool) -> Option<SessionEnd>
        ensures { option_map end_view result ≡ (if is_last then Some well else None) }
    {
        if is_last {
            Some(SessionEnd::Well)
        } else {
            None
        }
    }
}
