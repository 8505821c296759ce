// The map of a Snort part: its two lines, read into the rule set.

#![tactic(auto)]

ghost use Rattle.map_text.specs.Laws.{MapExact};

mod edges;
mod pair;
mod points;
mod read;
#[cfg(test)]
mod tests;

pub use read::read_map;

// A map is read just where it is written.
pub fn maps_are_their_texts()
    ensures { MapExact }
{}
