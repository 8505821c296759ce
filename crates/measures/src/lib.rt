// What is asked of a spread tree: that it is not too high, and that none of its positions is cold.

#![tactic(auto)]

mod cold;
mod heights;
mod stops;

pub use cold::any_cold;
pub use heights::too_high;
