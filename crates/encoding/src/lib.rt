// What a bank's columns are for the trees that it holds.

#![tactic(auto)]

mod laws;

pub use laws::rows_tell_trees;

// The most parts that a bank has; specs/Columns.antt has the same number.
pub const PART_LIMIT: usize = 8;
