// Small rule sets to try the bank's passes on.

#![tactic(auto)]

mod samples;
#[cfg(test)]
mod tests;
mod towers;

pub use samples::Samples;
pub use towers::Towers;
