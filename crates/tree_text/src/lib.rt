// The tree parts of a job, read into lent rows and picks.

#![tactic(auto)]

mod lent;
mod links;
mod place;
mod row;
mod row_lines;
mod tree;

pub use lent::Lent;
pub use tree::read_tree;
