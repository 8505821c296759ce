// A tree's positions in breadth-first order, spread into rows.

#![tactic(auto)]

mod breadth;
mod shape;

pub use breadth::{rows_in_order, spread, wipe};
pub use shape::{BLANK, Fork, ROW_LIMIT, Shape};
