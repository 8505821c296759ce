// The lines of a job: their keys, their values and their numbers.

#![tactic(auto)]

mod cuts;
mod key;
mod pieces;
mod read;
mod reader;

pub use cuts::cut;
pub use key::{Key, Line};
pub use pieces::Pieces;
pub use read::{at_line, check_length};
pub use reader::Reader;
