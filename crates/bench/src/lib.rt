// What the benchmark calls from Rust: the same work again and again, in one bank.

#![tactic(auto)]

mod seats;

pub use seats::seat_many;
