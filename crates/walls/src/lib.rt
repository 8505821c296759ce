// Walls by their linear pieces: reading them, the greater of two, where two scaffolds meet, and the
// corners that are written on the way.

#![tactic(auto)]

mod corner;
mod maximum;
mod piece;
mod reading;
mod scaffold;

pub use corner::{Route, Trail};
pub use maximum::greater;
pub use piece::Piece;
pub use reading::{piece_at, value_at};
pub use scaffold::Scaffolds;
