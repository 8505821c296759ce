// The bank: the thermographs of all positions of up to eight trees, in fixed memory.

#![tactic(auto)]

mod bank;
mod columns;
mod diagram;
mod draft;
mod position;
mod reads;
mod seat;
#[cfg(test)]
mod tests;

pub use bank::Bank;
pub use diagram::Diagram;
pub use position::Position;
