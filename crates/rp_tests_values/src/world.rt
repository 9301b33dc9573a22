//! The store, the names and the steps with which a case runs, and the reader of its tokens.

use crate::tokens::Token;
use rp_base::{Memory, Meter, Name, Names, Oid, Seed, Side, Value, identifier};
use rp_store::{Object, Store};
use rp_tests_parts::{Fault, is_held};
use std::alloc::Global;

/// The steps and cells that a case has where it names none.
const AMPLE: u64 = 1_000_000;

/// The seed of every table of the tests.
pub(crate) fn seed() -> Seed {
    Seed::from_bytes([7; 16])
}

#[derive(Drop)]
pub(crate) struct World {
    pub alloc: Global,
    pub store: Store,
    pub names: Names,
    pub meter: Meter,
    pub given: u64,
    /// Whose code runs, and who owns what is made.
    pub side: Side,
    /// The values that have names in the case.
    pub bound: Vec<(String, Value)>,
    /// Whether objects cost cells where they are read.
    pub charges: bool,
}

impl World {
    pub(crate) fn new(alloc: Global) -> Result<World, Memory> {
        Ok(World {
            alloc,
            store: Store::new(alloc, AMPLE, seed()),
            names: Names::new(alloc, seed())?,
            meter: Meter { left: AMPLE },
            given: AMPLE,
            side: Side(1),
            bound: Vec::new(alloc),
            charges: false,
        })
    }

    pub(crate) fn set_steps(&mut self, steps: u64) {
        self.meter = Meter { left: steps };
        self.given = steps;
    }

    pub(crate) fn steps_taken(&self) -> u64 {
        self.given.saturating_sub(self.meter.left)
    }

    /// The value that has this name.
    pub(crate) fn value_of(&self, word: &str) -> Result<Option<Value>, Memory> {
        for (name, value) in &self.bound {
            if name.as_str() == word {
                return Ok(Some(value.copy()?));
            }
        }
        Ok(None)
    }

    /// The name that the object at a place has.
    pub(crate) fn word_of(&self, at: Oid) -> Option<&str> {
        for (name, value) in &self.bound {
            if names_object(value, at) {
                return Some(name.as_str());
            }
        }
        None
    }

    /// Binds a name, or binds it anew.
    pub(crate) fn bind(&mut self, word: &str, value: Value) -> Result<(), Memory> {
        let name = String::from_str(self.alloc, word)?;
        self.bound.push((name, value))?;
        Ok(())
    }

    /// Adds an object that may hold what it holds, and answers a plain reference.
    pub(crate) fn add(&mut self, object: Object) -> Result<Value, Fault> {
        let side = self.side;
        if !is_held(&self.store, side, &object) {
            return Err(Fault::Unsound);
        }
        if self.charges {
            return Ok(Value::Ref(self.store.make(side, object)?));
        }
        Ok(Value::Ref(self.store.add(side, object)?))
    }

    /// An empty scope of the side.
    pub(crate) fn scope(&mut self) -> Result<Oid, Memory> {
        let scope = Object::Scope {
            block: None,
            parent: None,
            slots: Vec::new(self.alloc),
        };
        self.store.add(self.side, scope)
    }

    /// The name of an identifier.
    pub(crate) fn name(&mut self, word: &str) -> Result<Name, Fault> {
        match identifier(self.alloc, word)? {
            Some(form) => Ok(self.names.intern(form.as_str())?),
            None => Err(Fault::Unread),
        }
    }
}

/// Whether a value names the object at a place.
fn names_object(value: &Value, at: Oid) -> bool {
    match value {
        Value::Rock(_) => false,
        Value::Ref(place) => *place == at,
        Value::Prox(place) => *place == at,
    }
}

/// Reads the tokens of a statement from the front.
#[derive(Clone, Copy)]
pub(crate) struct Reader<'a> {
    tokens: &'a [Token],
    at: usize,
}

impl<'a> Reader<'a> {
    pub(crate) fn new(tokens: &'a [Token]) -> Reader<'a> {
        Reader { tokens, at: 0 }
    }

    pub(crate) fn take(&mut self) -> Option<&'a Token> {
        let token = self.tokens.get(self.at)?;
        self.at += 1;
        Some(token)
    }

    /// The word at the front, which is taken.
    pub(crate) fn word(&mut self) -> Result<&'a str, Fault> {
        match self.take() {
            Some(Token::Word(word)) => Ok(word.as_str()),
            _ => Err(Fault::Unread),
        }
    }

    /// The operator at the front, which is taken.
    pub(crate) fn operator(&mut self) -> Result<&'a str, Fault> {
        match self.take() {
            Some(Token::Word(word)) => Ok(word.as_str()),
            Some(Token::Mark(mark)) => Ok(mark.as_str()),
            _ => Err(Fault::Unread),
        }
    }

    /// Whether this mark is the n-th token that is left.
    pub(crate) fn has_mark(&self, n: usize, wanted: &str) -> bool {
        match self.tokens.get(self.at.saturating_add(n)) {
            Some(Token::Mark(mark)) => mark.as_str() == wanted,
            _ => false,
        }
    }

    pub(crate) fn is_at_end(&self) -> bool {
        self.at >= self.tokens.len()
    }

    /// The word at the front.
    pub(crate) fn word_ahead(&self) -> Option<&'a str> {
        match self.tokens.get(self.at) {
            Some(Token::Word(word)) => Some(word.as_str()),
            _ => None,
        }
    }
}
