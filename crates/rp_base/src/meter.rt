//! The steps that are left.

ghost use Rattle.std.specs.Prelude.{◌≡◌, ◌-◌, ◌↔◌, IsTrue, ◌<◌};

/// The steps that a session may still take.
#[derive(Clone, Copy, Debug, PartialEq, Eq)]
pub struct Meter {
    pub left: u64,
}

impl Meter {
    /// Takes one step where one is left.
    pub fn step(&mut self) -> bool
        ensures taken { IsTrue result ↔ (0 < self.old.left) }
        ensures fewer { self.new.left ≡ self.old.left - 1 }
    {
        if self.left == 0 {
            return false;
        }
        self.left -= 1;
        true
    }
}
