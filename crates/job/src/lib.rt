// A whole job, from its bytes.

#![tactic(auto)]

mod account;
mod check;
mod counts;
mod kind;
mod moves;
mod parts;
mod word;

pub use account::Account;
pub use check::check_text;
pub use kind::Kind;
pub use moves::{MOST_MOVES, Move, count_moves, read_count, read_move};
pub use parts::{MOST_PARTS, count_parts, pass_part};
pub use word::{Word, read_word};
