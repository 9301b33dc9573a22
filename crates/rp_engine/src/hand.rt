//! The values that a machine has at hand.

ghost use Rattle.std.specs.Prelude.{◌≡◌, ◌+◌, ◌∷◌, IfOk, OnOk, drop, reverse, suc, take};
ghost use Rattle.rp_frame.specs.Top.{below, top};
ghost use Rattle.rp_proxy.specs.declared.world.World.{World};
ghost use Rattle.rp_store.specs.Kept.{AreFit, IsFit};
ghost use Rattle.rp_engine.specs.Ready.{IsReady};

use crate::halt::Halt;
use crate::machine::Machine;
use rp_base::{Memory, Value};

impl<'u> Machine<'u> {
    /// Drops so many of the values at hand.
    pub fn forget(&mut self, count: usize)
        ensures { self.new ≡ record self.old { values = drop count self.old.values } }
    {
        for _ in 0..count {
            let _value = self.values.pop();
        }
    }

    /// Takes the last value at hand off.
    #[inline(always)]
    #[tactic(auto, using(crate::proofs::AtHand::at_hand))]
    pub fn at_hand(&mut self) -> Value
        ensures value { result ≡ top self.old.values }
        ensures left { self.new ≡ record self.old { values = below self.old.values } }
        ensures ready { (w : World) → IsReady self.old.units.now self.old.frame self.old.values w
            → IsReady self.new.units.now self.new.frame self.new.values w }
        ensures fit { (w : World) → IsReady self.old.units.now self.old.frame self.old.values w
            → IsFit w.store.heap self.old.frame.side result }
    {
        self.values.pop()
    }

    /// Takes the last values at hand off, so many, in the order in which they came.
    ///
    /// # Errors
    /// `Memory` where a growth was refused.
    #[inline(always)]
    #[tactic(auto, using(crate::proofs::Lasts::all_at_hand))]
    pub fn all_at_hand(&mut self, count: usize) -> Result<Vec<Value>, Memory>
        ensures values { IfOk result (λ values. values.items ≡ reverse (take count self.old.values)) }
        ensures left { OnOk result (self.new ≡ record self.old { values = drop count self.old.values }) }
        ensures ready { (w : World) → IsReady self.old.units.now self.old.frame self.old.values w
            → IsReady self.new.units.now self.new.frame self.new.values w }
        ensures fit { (w : World) → IsReady self.old.units.now self.old.frame self.old.values w
            → IfOk result (λ values. AreFit w.store.heap self.old.frame.side values.items) }
    {
        self.values.take(count)
    }

    /// Keeps a value at hand.
    ///
    /// # Errors
    /// `Memory` where a growth was refused; then all is as before.
    #[inline(always)]
    pub fn hold(&mut self, value: Value) -> Result<(), Memory>
        ensures held { OnOk result (self.new ≡ record self.old { values = value ∷ self.old.values }) }
        ensures ready { (w : World) → IsReady self.old.units.now self.old.frame self.old.values w
            → IsFit w.store.heap self.old.frame.side value
            → IsReady self.new.units.now self.new.frame self.new.values w }
    {
        self.values.push(value)
    }

    /// Keeps a copy of a value at hand.
    ///
    /// # Errors
    /// `Memory` where a growth was refused; then all is as before.
    pub fn hold_copy(&mut self, value: &Value) -> Result<(), Memory>
        ensures held { OnOk result (self.new ≡ record self.old { values = value.now ∷ self.old.values }) }
        ensures ready { (w : World) → IsReady self.old.units.now self.old.frame self.old.values w
            → IsFit w.store.heap self.old.frame.side value.now
            → IsReady self.new.units.now self.new.frame self.new.values w }
    {
        let copy = value.copy()?;
        self.hold(copy)
    }
}

/// One more value at hand, where so many are counted.
///
/// # Errors
/// `TooLong` where there are 2^32 - 1 already.
pub fn one_more(count: u32) -> Result<u32, Halt>
    ensures { IfOk result (λ more. more ≡ suc count) }
{
    match count.checked_add(1) {
        Some(more) => Ok(more),
        None => Err(Halt::TooLong),
    }
}

/// So many more values at hand, where so many are counted.
///
/// # Errors
/// `TooLong` where that is more than 2^32 - 1.
pub fn more_by(count: u32, more: usize) -> Result<u32, Halt>
    ensures { IfOk result (λ sum. sum ≡ count + more) }
{
    let Ok(more) = u32::try_from(more) else {
        return Err(Halt::TooLong);
    };
    match count.checked_add(more) {
        Some(sum) => Ok(sum),
        None => Err(Halt::TooLong),
    }
}
