//! The parts of a machine that runs code: what it does next, what waits for the end of a part, and the values at hand.
#![tactic(auto)]

mod activation;
mod control;
mod display;
mod leaving;
mod spot;
mod task;
mod tasks;
mod values;

pub use activation::Activation;
pub use control::Control;
pub use display::Display;
pub use leaving::Leaving;
pub use spot::{Adds, Each, Inside, Made, Spot};
pub use task::{ExprTask, FlowTask, StmtTask, Task};
pub use tasks::Tasks;
pub use values::Values;
