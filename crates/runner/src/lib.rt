// The run of a whole job, from its bytes to the sheet.

#![tactic(auto)]

mod figures;
mod moves;
mod parts;
mod run;

pub use figures::sheet_of;
pub use run::run_job;
