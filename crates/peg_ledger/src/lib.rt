//! What a run keeps beside its nodes: the operations with their tags, the fences that servers
//! applied, and the versions that promotions were given.
#![tactic(auto)]

ghost use Rattle.std.specs.Prelude.{◌≡◌};

mod fences;
mod operations;
mod promotions;
#[cfg(test)]
mod tests;

pub use fences::Fences;
pub use operations::Operations;
pub use peg_name::OutOfMemory;
pub use promotions::Promotions;
