//! Slots of memory that are used again without asking the allocator, and the packets in flight
//! over them.
#![tactic(auto)]

ghost use Rattle.std.specs.Prelude.{◌≡◌};

mod block;
mod cells;
mod pool;
mod soup;
#[cfg(test)]
mod tests;

pub use peg_name::OutOfMemory;
pub use pool::SlotPool;
pub use soup::Soup;
