// Which tree each part of a job means, and that the rule sets over what was read give just that tree.

#![tactic(auto)]

mod laws;

pub use laws::{maps_are_read, parts_are_lawful, rows_as_said, trees_are_read};
