//! The arguments of a call that stand at hand.

ghost use Rattle.std.specs.Prelude.{◌≡◌};
ghost use Rattle.rp_engine.specs.HandSteps.{size_of};

/// How many arguments of a call stand at hand, upon what is called: so many without a name and, upon them, so many with
/// one, each a name and then a value.
#[derive(Clone, Copy)]
pub struct Hand {
    pub plain: u32,
    pub named: u32,
}

impl Hand {
    /// How many values these are.
    #[inline(always)]
    pub fn size(self) -> usize
        ensures { result ≡ size_of self }
    {
        2 * self.named as usize + self.plain as usize
    }
}
