//! A session: what it runs with, and where it stands.

ghost use Rattle.std.specs.Prelude.{◌≡◌, ◌<◌, ◌+◌, ◌^◌, chars, option_map, OnOk};
ghost use Rattle.rp_meaning.specs.Frame.{Run};
ghost use Rattle.rp_meaning.specs.Sessions.{first_end};
ghost use Rattle.rp_proxy.specs.Faithful.{IsFaithful};
ghost use Rattle.rp_session.specs.Ready.{AreLaidOut, IsAtHome};
ghost use Rattle.rp_session.specs.declared.session.Session.{Session as TheSession};
ghost use Rattle.rp_session.specs.Turns.{Runs, TakesTurn};
ghost use Rattle.rp_session.specs.View.{end_view, played_of, session_view};
ghost use Rattle.rp_engine.specs.Moment.{program_view, run_of};

use crate::session_end::SessionEnd;
use crate::statement::run_statements;
use rp_base::{Oid, Side};
use rp_engine::{Halt, Program, Units};
use rp_proxy::{Running, World};
use rp_tree::Stmt;
use std::alloc::Global;
use std::mem;

/// A session. While it runs, what it runs with stands in the world, and what the world had stands here.
#[derive(Drop)]
pub struct Session {
    pub running: Running,
    /// The place of its global scope.
    pub globals: Oid,
    /// The number of its next top-level statement, from 0.
    pub next: usize,
    /// How it ended, where it has.
    pub end: Option<SessionEnd>,
    /// The steps that it was given.
    pub given: u64,
}

impl Session {
    /// A session before the first statement of its program; where there is none it has ended well.
    pub(crate) fn first(running: Running, globals: Oid, program: &Program) -> Session
        ensures running { result.running ≡ running }
        ensures globals { result.globals ≡ globals }
        ensures next { result.next ≡ 0 }
        ensures end { option_map end_view result.end ≡ first_end (program_view program.now).body }
        ensures given { result.given ≡ running.meter.left }
    {
        let given = running.meter.left;
        Session {
            running,
            globals,
            next: 0,
            end: SessionEnd::first(program),
            given,
        }
    }

    /// Its number, from 1.
    pub fn number(&self) -> u32
        ensures { result ≡ (session_view self.now).side.0 }
    {
        self.running.session
    }

    /// What it has printed.
    pub fn printed(&self) -> &str
        ensures { chars result.now ≡ (session_view self.now).printed }
    {
        self.running.printed.as_str()
    }

    /// The steps that are left to it.
    pub fn steps(&self) -> u64
        ensures { result ≡ (session_view self.now).steps }
    {
        self.running.meter.left
    }

    /// The steps that it has used: those that it was given without those that are left to it (`AddsUp`).
    pub fn played(&self) -> u64
        ensures { result ≡ played_of self.now }
    {
        self.given.saturating_sub(self.running.meter.left)
    }

    /// How it ended, None where it has not.
    pub fn end(&self) -> Option<&SessionEnd>
        ensures { option_map (λ end. end_view end.now) result ≡ (session_view self.now).end }
    {
        self.end.as_ref()
    }

    /// Takes a turn: runs the next statement, where the session has not ended.
    ///
    /// # Errors
    /// As those of `run`.
    pub(crate) fn turn<'u>(
        &mut self,
        alloc: Global,
        units: &'u Units<'u>,
        world: &mut World,
    ) -> Result<(), Halt>
        requires faithful { IsFaithful world.old }
        requires home { IsAtHome world.old self.old }
        requires laid { AreLaidOut units.now }
        ensures turn { OnOk result ((base : Run)
            → TakesTurn (run_of base units.now) world.old self.old world.new self.new) }
        ensures number { OnOk result (self.new.running.session ≡ self.old.running.session) }
        ensures given { OnOk result (self.new.given ≡ self.old.given) }
        ensures faithful { OnOk result (IsFaithful world.new) }
        ensures home { OnOk result (IsAtHome world.new self.new) }
        ensures others { OnOk result ((k : TheSession) → IsAtHome world.old k → IsAtHome world.new k) }
    {
        if self.end.is_some() {
            return Ok(());
        }
        let body = units
            .program(Side(self.running.session))
            .tree
            .body
            .as_slice();
        if self.next >= body.len() {
            return Ok(());
        }
        let is_last = self.next + 1 == body.len();
        self.run(
            alloc,
            units,
            world,
            &body[self.next..self.next + 1],
            is_last,
        )
    }

    /// Runs statements of its program, which may be the last, in the world: it lends the world what it runs with.
    ///
    /// # Errors
    /// As those of `Runner::run_block`.
    fn run<'u>(
        &mut self,
        alloc: Global,
        units: &'u Units<'u>,
        world: &mut World,
        statements: &'u [Stmt],
        is_last: bool,
    ) -> Result<(), Halt>
        requires faithful { IsFaithful world.old }
        requires home { IsAtHome world.old self.old }
        requires laid { AreLaidOut units.now }
        requires room { self.old.next + 1 < 2 ^ 64 }
        ensures runs { OnOk result ((base : Run)
            → Runs (run_of base units.now) statements.now is_last world.old self.old world.new self.new) }
        ensures given { OnOk result (self.new.given ≡ self.old.given) }
        ensures faithful { OnOk result (IsFaithful world.new) }
        ensures home { OnOk result (IsAtHome world.new self.new) }
        ensures others { OnOk result ((k : TheSession) → IsAtHome world.old k → IsAtHome world.new k) }
    {
        mem::swap(&mut world.running, &mut self.running);
        let side = Side(world.running.session);
        let end = run_statements(alloc, units, world, side, self.globals, statements);
        mem::swap(&mut world.running, &mut self.running);
        self.end = SessionEnd::after(end?, is_last)?;
        self.next += 1;
        Ok(())
    }
}
