// The score sheet, as text.

#![tactic(auto)]

mod laws;
mod page;
mod say;
#[cfg(test)]
mod tests;
mod values;
mod writing;

pub use laws::{one_sheet, sheets_fit};
pub use values::{PartLines, Sheet};
pub use writing::write;
