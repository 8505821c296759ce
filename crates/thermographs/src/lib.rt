// Thermographs of the rows of a tree, corner by corner, from the last row to the first.

#![tactic(auto)]

mod figures;
mod near;
mod reading;
mod rows;
mod strip;
mod sweep;
#[cfg(test)]
mod tests;

pub use figures::{BLANK, CORNER_LIMIT, Figures, Wall};
pub use reading::{figures_tell_walls, wall_at};
pub use rows::figure_rows;
