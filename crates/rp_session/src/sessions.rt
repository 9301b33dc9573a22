//! Sessions that take turns.

ghost use Rattle.std.specs.Prelude.{◌≡◌, ◌<◌, ◌≤◌, ◌+◌, ◌-◌, ◌^◌, ◌∷◌, ◌++◌, [], length, IfErr, IfOk, OnErr, OnOk};
ghost use Rattle.rp_meaning.specs.Frame.{Run};
ghost use Rattle.rp_meaning.specs.Load.{with_new_session};
ghost use Rattle.rp_meaning.specs.Sessions.{finished, run_all, turn, turns, turns_of};
ghost use Rattle.rp_meaning.specs.Expressions.{empty_slots};
ghost use Rattle.rp_proxy.specs.Faithful.{IsFaithful};
ghost use Rattle.rp_session.specs.Ready.{AnswersIn, AreLaidOut, AreReady};
ghost use Rattle.rp_session.specs.View.{IsHaltOf, given_to, sessions_view};
ghost use Rattle.rp_session.specs.Begun.{globals_of};
ghost use Rattle.rp_engine.specs.Moment.{run_of};
ghost use Rattle.rp_store.specs.Shape.{KeepsShape};
ghost use Rattle.rp_store.specs.Store.{added};

use crate::session::Session;
use crate::session_halt::SessionHalt;
use rp_base::{Memory, Meter, Oid, Printed, Side, Value};
use rp_engine::{Halt, Program, Units};
use rp_interact::Interaction;
use rp_proxy::{Running, World};
use rp_store::Object;
use std::alloc::Global;

/// Sessions that take turns over one store (zope.security, interactions), in the order of their numbers, which count
/// from 1.
#[derive(Drop)]
pub struct Sessions {
    pub alloc: Global,
    pub world: World,
    pub list: Vec<Session>,
}

impl Sessions {
    /// No session in a world.
    pub fn new(alloc: Global, world: World) -> Sessions
        requires faithful { IsFaithful world }
        ensures empty { result.list.items ≡ [] }
        ensures world { result.world ≡ world }
        ensures ready { AreReady result }
    {
        Sessions {
            alloc,
            world,
            list: Vec::new(alloc),
        }
    }

    /// Adds a session of these principals, which may take so many steps. Its program is the one of its number; its
    /// global scope is put into the store, and costs nothing.
    ///
    /// # Errors
    /// `Memory` where a growth was refused; then there is no session more.
    pub fn begin(&mut self, units: &Units<'_>, who: Interaction, steps: u64) -> Result<(), Memory>
        requires ready { AreReady self.old }
        requires few { length self.old.list.items < 2 ^ 32 - 1 }
        requires laid { AreLaidOut units.now }
        requires grants { AnswersIn self.old.world who }
        ensures begun { OnOk result ((base : Run) → sessions_view self.new
            ≡ with_new_session (run_of base units.now) who.ids steps (sessions_view self.old)) }
        ensures same { OnErr result (sessions_view self.new ≡ sessions_view self.old) }
        ensures ready { AreReady self.new }
        ensures count { OnOk result (length self.new.list.items ≡ length self.old.list.items + 1) }
        ensures given { OnOk result (given_to self.new ≡ given_to self.old ++ steps ∷ []) }
        ensures names { OnOk result (self.new.world.names ≡ self.old.world.names) }
        ensures decl { OnOk result (self.new.world.decl ≡ self.old.world.decl) }
    {
        self.list.reserve(1)?;
        let number = self.list.len() as u32 + 1;
        let program = units.program(Side(number));
        let globals = self.add_globals(Side(number), program)?;
        let running = Running {
            session: number,
            interaction: who,
            meter: Meter { left: steps },
            printed: Printed::new(self.alloc),
        };
        let session = Session::first(running, globals, program);
        self.list.push_reserved(session);
        Ok(())
    }

    /// Puts the global scope of a program into the store, and tells its place.
    fn add_globals(&mut self, side: Side, program: &Program) -> Result<Oid, Memory>
        requires block { 0 < length program.now.layouts }
        ensures added { OnOk result (self.new ≡ record self.old {
          world = record self.old.world {
            store = added self.old.world.store side (globals_of program.now);
          };
        }) }
        ensures place { IfOk result (λ at. at.0 ≡ length self.old.world.store.heap) }
        ensures same { OnErr result (self.new ≡ self.old) }
        ensures shape { KeepsShape self.old.world.store.heap self.new.world.store.heap }
    {
        let locals = program.layouts.locals(0).len();
        let slots = empty_slots(self.alloc, locals)?;
        self.world.store.add(
            side,
            Object::Scope {
                block: Some(0),
                parent: None,
                slots,
            },
        )
    }

    /// A turn of the session of a number: it runs its next top-level statement. Where it has ended, and where there is
    /// no such session, nothing changes.
    ///
    /// # Errors
    /// Those of `Session::turn`, with the number.
    pub fn turn(&mut self, units: &Units<'_>, number: u32) -> Result<(), SessionHalt>
        requires ready { AreReady self.old }
        requires laid { AreLaidOut units.now }
        ensures turn { OnOk result ((base : Run) → sessions_view self.new
            ≡ turn (run_of base units.now) number (sessions_view self.old)) }
        ensures ready { OnOk result (AreReady self.new) }
        ensures count { OnOk result (length self.new.list.items ≡ length self.old.list.items) }
        ensures given { OnOk result (given_to self.new ≡ given_to self.old) }
        ensures halt { IfErr result (IsHaltOf (length self.old.list.items)) }
    {
        match self.take_turn(units, number) {
            Ok(()) => Ok(()),
            Err(halt) => Err(SessionHalt {
                session: number,
                halt,
            }),
        }
    }

    /// The same turn. There is such a session where its machine does not go on.
    fn take_turn(&mut self, units: &Units<'_>, number: u32) -> Result<(), Halt>
        requires ready { AreReady self.old }
        requires laid { AreLaidOut units.now }
        ensures turn { OnOk result ((base : Run) → sessions_view self.new
            ≡ turn (run_of base units.now) number (sessions_view self.old)) }
        ensures ready { OnOk result (AreReady self.new) }
        ensures count { OnOk result (length self.new.list.items ≡ length self.old.list.items) }
        ensures given { OnOk result (given_to self.new ≡ given_to self.old) }
        ensures some { OnErr result (0 < number) }
        ensures within { OnErr result (number ≤ length self.old.list.items) }
    {
        let number = number as usize;
        if number == 0 || number > self.list.len() {
            return Ok(());
        }
        let session = &mut self.list[number - 1];
        session.turn(self.alloc, units, &mut self.world)
    }

    /// The listed turns, one after another.
    ///
    /// # Errors
    /// As those of `turn`.
    pub fn turns(&mut self, units: &Units<'_>, listed: &[u32]) -> Result<(), SessionHalt>
        requires ready { AreReady self.old }
        requires laid { AreLaidOut units.now }
        ensures turns { OnOk result ((base : Run) → sessions_view self.new
            ≡ turns (run_of base units.now) listed.now (sessions_view self.old)) }
        ensures ready { OnOk result (AreReady self.new) }
        ensures count { OnOk result (length self.new.list.items ≡ length self.old.list.items) }
        ensures given { OnOk result (given_to self.new ≡ given_to self.old) }
        ensures halt { IfErr result (IsHaltOf (length self.old.list.items)) }
    {
        for number in listed {
            self.turn(units, *number)?;
        }
        Ok(())
    }

    /// So many turns of the session of a number.
    fn turns_of(&mut self, units: &Units<'_>, count: usize, number: u32) -> Result<(), SessionHalt>
        requires ready { AreReady self.old }
        requires laid { AreLaidOut units.now }
        ensures turns { OnOk result ((base : Run) → sessions_view self.new
            ≡ turns_of (run_of base units.now) count number (sessions_view self.old)) }
        ensures ready { OnOk result (AreReady self.new) }
        ensures count { OnOk result (length self.new.list.items ≡ length self.old.list.items) }
        ensures given { OnOk result (given_to self.new ≡ given_to self.old) }
        ensures halt { IfErr result (IsHaltOf (length self.old.list.items)) }
    {
        let mut left = count;
        while left > 0 {
            self.turn(units, number)?;
            left -= 1;
        }
        Ok(())
    }

    /// Runs each session to its end, in the order of their numbers.
    ///
    /// # Errors
    /// As those of `turn`.
    pub fn finish(&mut self, units: &Units<'_>) -> Result<(), SessionHalt>
        requires ready { AreReady self.old }
        requires laid { AreLaidOut units.now }
        ensures finished { OnOk result ((base : Run) → sessions_view self.new
            ≡ finished (run_of base units.now) (sessions_view self.old).sessions (sessions_view self.old)) }
        ensures ready { OnOk result (AreReady self.new) }
        ensures count { OnOk result (length self.new.list.items ≡ length self.old.list.items) }
        ensures given { OnOk result (given_to self.new ≡ given_to self.old) }
        ensures halt { IfErr result (IsHaltOf (length self.old.list.items)) }
    {
        let count = self.list.len() as u32;
        for place in 0..count {
            let number = place + 1;
            let statements = units.program(Side(number)).tree.body.len();
            self.turns_of(units, statements, number)?;
        }
        Ok(())
    }

    /// The listed turns, and then each session to its end.
    ///
    /// # Errors
    /// As those of `turn`.
    pub fn run_all(&mut self, units: &Units<'_>, listed: &[u32]) -> Result<(), SessionHalt>
        requires ready { AreReady self.old }
        requires laid { AreLaidOut units.now }
        ensures run { OnOk result ((base : Run) → sessions_view self.new
            ≡ run_all (run_of base units.now) listed.now (sessions_view self.old)) }
        ensures ready { OnOk result (AreReady self.new) }
        ensures count { OnOk result (length self.new.list.items ≡ length self.old.list.items) }
        ensures given { OnOk result (given_to self.new ≡ given_to self.old) }
        ensures halt { IfErr result (IsHaltOf (length self.old.list.items)) }
    {
        self.turns(units, listed)?;
        self.finish(units)
    }

    /// The sessions, in the order of their numbers.
    pub fn sessions(&self) -> &[Session]
        ensures { result.now ≡ self.now.list.items }
    {
        self.list.as_slice()
    }

    /// The sessions alone.
    pub fn into_list(self) -> Vec<Session>
        ensures { result ≡ self.list }
    {
        self.list
    }

    /// What they share.
    pub fn world(&self) -> &World
        ensures { result.now ≡ self.now.world }
    {
        &self.world
    }
}

/// So many slots of a scope, all empty.
///
/// # Errors
/// `Memory` where a growth was refused.
fn empty_slots(alloc: Global, count: usize) -> Result<Vec<Option<Value>>, Memory>
    ensures { IfOk result (λ slots. slots.items ≡ empty_slots count) }
{
    let mut slots = Vec::with_capacity(alloc, count)?;
    while slots.len() < count {
        slots.push(None)?;
    }
    Ok(slots)
}
