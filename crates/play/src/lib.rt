// The plain record of a play. What it needs to know of the parts comes as figures; the contracts say
// what those are of the parts' trees, and equate every answer with the rules of the game.

#![tactic(auto)]

mod answers;
mod laws;
mod leads;
mod record;

pub use answers::best_option;
pub use laws::{opening_told, play_told};
pub use leads::{Lead, hottest};
pub use record::{Event, Landing, Play};
