// The words that every crate shares: the two sides, and the refusals with their numbers and layers.

#![tactic(auto)]

mod fault;
mod side;

pub use fault::{Fault, Layer, Refusal};
pub use side::{Mover, Side};
