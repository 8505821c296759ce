// The rules of the game, stories, and what the answers promise over every story.

#![tactic(auto)]

mod laws;
mod turn;

pub use laws::{openings_agree, promise_holds, worked_story};
pub use turn::Turn;
