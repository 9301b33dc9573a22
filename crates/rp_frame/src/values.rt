//! The values at hand.

ghost use Rattle.std.specs.Prelude.{◌≡◌, ◌∷◌, ◌++◌, [], drop, reverse, take, IfOk, OnErr, OnOk};
ghost use Rattle.rp_frame.specs.Top.{top, below};

use rp_base::{Memory, Rock, Value};
use std::alloc::Global;
use std::marker::Model;

/// The values at hand, seen as the list of them, the last one first.
#[derive(Drop)]
pub struct Values {
    values: Vec<Value>,
}

impl Model for Values {
    ghost use Rattle.std.specs.Prelude.{List, reverse};
    ghost use Rattle.rp_base.specs.declared.value.Value.{Value as TheValue};

    ghost Value = { List TheValue };

    ghost view = { λ x. reverse x.values.items };
}

impl Values {
    /// No value. It takes no memory yet.
    pub fn new(alloc: Global) -> Values
        ensures { result ≡ [] }
    {
        Values {
            values: Vec::new(alloc),
        }
    }

    /// Puts a value upon the others.
    ///
    /// # Errors
    /// `Memory` where a growth was refused; then they are as before.
    #[inline(always)]
    pub fn push(&mut self, value: Value) -> Result<(), Memory>
        ensures pushed { OnOk result (self.new ≡ value ∷ self.old) }
        ensures same { OnErr result (self.new ≡ self.old) }
    {
        self.values.reserve(1)?;
        self.values.push_reserved(value);
        Ok(())
    }

    /// Puts values upon the others, the last one last.
    ///
    /// # Errors
    /// `Memory` where a growth was refused; then they are as before.
    pub fn add(&mut self, values: Vec<Value>) -> Result<(), Memory>
        ensures added { OnOk result (self.new ≡ reverse values.items ++ self.old) }
        ensures same { OnErr result (self.new ≡ self.old) }
    {
        let mut values = values;
        self.values.append(&mut values)?;
        Ok(())
    }

    /// Puts values upon the others, the first one last.
    ///
    /// # Errors
    /// `Memory` where a growth was refused; then they are as before.
    pub fn put(&mut self, values: Vec<Value>) -> Result<(), Memory>
        ensures put { OnOk result (self.new ≡ values.items ++ self.old) }
        ensures same { OnErr result (self.new ≡ self.old) }
    {
        let mut values = values;
        values.reverse();
        self.values.append(&mut values)?;
        Ok(())
    }

    /// Takes the last value off, None where there is none.
    #[inline(always)]
    pub fn pop(&mut self) -> Value
        ensures value { result ≡ top self.old }
        ensures left { self.new ≡ below self.old }
    {
        match self.values.pop() {
            Some(value) => value,
            None => Value::Rock(Rock::Nil),
        }
    }

    /// The last values, so many, or all where there are fewer, in the order in which they were put.
    #[inline(always)]
    pub fn last(&self, n: usize) -> &[Value]
        ensures { result.now ≡ reverse (take n self.now) }
    {
        let at = self.values.len().saturating_sub(n);
        &self.values[at..]
    }

    /// The value under the last ones, so many; the other value, which is None, where there are no more.
    #[inline(always)]
    pub fn under<'a>(&'a self, n: usize, nil: &'a Value) -> &'a Value
        requires { nil.now ≡ Value.Rock Rock.Nil }
        ensures { result.now ≡ top (drop n self.now) }
    {
        let count = self.values.len();
        if n < count {
            return &self.values[count - n - 1];
        }
        nil
    }

    /// Takes the last values off, so many, or all where there are fewer; they come in the order in which they were put.
    ///
    /// # Errors
    /// `Memory` where a growth was refused; then they are as before.
    pub fn take(&mut self, n: usize) -> Result<Vec<Value>, Memory>
        ensures taken { IfOk result (λ values. values.items ≡ reverse (take n self.old)) }
        ensures left { OnOk result (self.new ≡ drop n self.old) }
        ensures same { OnErr result (self.new ≡ self.old) }
    {
        let at = self.values.len().saturating_sub(n);
        Ok(self.values.split_off(at)?)
    }
}
