//! The store, the names and the limits with which a case runs, and the reader of its tokens.

use rp_base::{Memory, Meter, Name, Names, Seed, Side, Value};
use rp_store::{Object, Store};
use rp_tests_parts::{Fault, is_held};
use rp_token::{Token, TokenKind};
use std::alloc::Global;

/// The side whose code runs.
pub(crate) const OURS: Side = Side(1);
/// The other side.
pub(crate) const THEIRS: Side = Side(2);

/// Steps and cells.
#[derive(Clone, Copy, Debug, PartialEq, Eq)]
pub(crate) struct Costs {
    pub steps: u64,
    pub cells: u64,
}

impl Costs {
    /// More than any case takes.
    pub(crate) fn ample() -> Costs {
        Costs {
            steps: 1_000_000,
            cells: 1_000_000,
        }
    }
}

/// The seed of every table of the tests.
pub(crate) fn seed() -> Seed {
    Seed::from_bytes([7; 16])
}

#[derive(Drop)]
pub(crate) struct World {
    pub alloc: Global,
    pub store: Store,
    pub names: Names,
    pub meter: Meter,
    /// Who owns the objects that are written in the case.
    pub owner: Side,
    /// The values that have names in the case.
    pub bound: Vec<(Name, Value)>,
    /// What the calls that are statements may take, all together.
    pub limits: Costs,
    /// What they have taken.
    pub taken: Costs,
    /// Whether the statement that runs is no assignment.
    pub is_limited: bool,
}

impl World {
    pub(crate) fn new(alloc: Global, limits: Costs) -> Result<World, Memory> {
        let ample = Costs::ample();
        Ok(World {
            alloc,
            store: Store::new(alloc, ample.cells, seed()),
            names: Names::new(alloc, seed())?,
            meter: Meter { left: ample.steps },
            owner: OURS,
            bound: Vec::new(alloc),
            limits,
            taken: Costs { steps: 0, cells: 0 },
            is_limited: false,
        })
    }

    /// Counts steps and cells from here on, up to the limits.
    pub(crate) fn begin(&mut self) {
        let steps = self.limits.steps.saturating_sub(self.taken.steps);
        self.meter = Meter { left: steps };
        self.store
            .restart(self.limits.cells.saturating_sub(self.taken.cells));
    }

    /// Keeps the steps and cells that were counted, and has ample ones from here on.
    pub(crate) fn end(&mut self) {
        let cells = self.taken.cells.saturating_add(self.store.used());
        let steps = self.limits.steps.saturating_sub(self.meter.left);
        self.taken = Costs { steps, cells };
        self.meter = Meter {
            left: Costs::ample().steps,
        };
        self.store.restart(Costs::ample().cells);
    }

    /// The value that has this name.
    pub(crate) fn value_of(&self, name: Name) -> Result<Option<Value>, Memory> {
        for (bound, value) in &self.bound {
            if *bound == name {
                return Ok(Some(value.copy()?));
            }
        }
        Ok(None)
    }

    /// Binds a name that is not bound.
    pub(crate) fn bind(&mut self, name: Name, value: Value) -> Result<(), Memory> {
        self.bound.push((name, value))?;
        Ok(())
    }

    /// Adds an object that may hold what it holds, and answers a plain reference.
    pub(crate) fn add(&mut self, object: Object) -> Result<Value, Fault> {
        let owner = self.owner;
        if !is_held(&self.store, owner, &object) {
            return Err(Fault::Unsound);
        }
        Ok(Value::Ref(self.store.add(owner, object)?))
    }
}

/// Reads the tokens of a statement from the front.
#[derive(Clone, Copy)]
pub(crate) struct Reader<'a> {
    tokens: &'a [Token],
    at: usize,
}

impl<'a> Reader<'a> {
    pub(crate) fn new(tokens: &'a [Token]) -> Reader<'a> {
        Reader { tokens, at: 0 }
    }

    pub(crate) fn take(&mut self) -> Option<&'a TokenKind> {
        let token = self.tokens.get(self.at)?;
        self.at += 1;
        Some(&token.kind)
    }

    /// The next token, which is not taken.
    pub(crate) fn ahead(&self) -> Option<&'a TokenKind> {
        let token = self.tokens.get(self.at)?;
        Some(&token.kind)
    }

    /// Whether a dot comes next.
    pub(crate) fn has_dot(&self) -> bool {
        matches!(self.ahead(), Some(TokenKind::Dot))
    }

    /// Takes an opening parenthesis, where it comes next.
    pub(crate) fn take_paren(&mut self) -> bool {
        let has_paren = matches!(self.ahead(), Some(TokenKind::LeftParen));
        if has_paren {
            self.take();
        }
        has_paren
    }

    /// Whether the statement ends here.
    pub(crate) fn is_at_end(&self) -> bool {
        match self.ahead() {
            None => true,
            Some(TokenKind::Newline | TokenKind::End) => true,
            Some(_) => false,
        }
    }
}
