// A game on a bank: our side plays the parts that are seated there, with advice, floor and bracket.

#![tactic(auto)]

mod answers;
mod game;
mod moves;
mod open;
mod present;
mod reads;
mod view;

pub use game::Game;
