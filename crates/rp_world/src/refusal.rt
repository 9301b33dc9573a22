//! Why there is no world.

use rp_base::{Memory, Raised, Text};

/// Why declarations have no world.
#[derive(Drop)]
pub enum NoWorld {
    /// The module ended by an exception that nothing handled.
    Raised(Raised),
    /// No step was left to the module.
    StopSteps,
    /// No cell was left to the module.
    StopCells,
    /// An exposed name has no value among the globals of the module: the least in byte order.
    Unbound(Text),
    /// A count of the machine of the module is full: of the parts of one form.
    TooLong,
    /// A growth was refused.
    Memory,
}

impl From<Memory> for NoWorld {
    ghost use Rattle.std.specs.Prelude.{◌≡◌};
    ghost use Rattle.rp_world.specs.declared.refusal.NoWorld.TheVariants.{Memory as OutOfMemory};

    ghost from_gives = { λ _ e. e ≡ OutOfMemory };

    fn from(_: Memory) -> Self {
        NoWorld::Memory
    }
}
