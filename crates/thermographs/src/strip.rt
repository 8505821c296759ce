ghost use Rattle.std.specs.Prelude.{◌≡◌, ℕ, ◌≤◌, List, length};
ghost use Rattle.theory.specs.Limits.{wall_limit};
ghost use Rattle.theory.specs.Corners.{Ordered};
ghost use Rattle.thermographs.specs.Figures.{corner_limit};
ghost use Rattle.thermographs.specs.Near.{best, Sound};

use crate::figures::{Figures, Wall};
use crate::near::best_piece;
use terms::Side;
use walls::Route;

// The corners of the rows that are done: they stand in the first `used` of the places. Each contract
// that takes one says by `same_reference` that no other places were put in: a type cannot.
#[derive(Drop)]
pub struct Strip<'a> {
    pub places: &'a mut [u32],
    pub used: usize,
    pub ghost room: { used ≤ length places.now },
    pub ghost few: { length places.now ≤ corner_limit },
}

impl<'a> Strip<'a> {
    ghost use Rattle.thermographs.specs.Sweep.{cut, Draws};
    ghost use Rattle.thermographs.specs.Strips.{told as told_of, Wrote};

    // The strip of the corners that are used already.
    pub fn new(places: &'a mut [u32], used: usize) -> Strip<'a>
        requires room { (used ≤ length places.old) × (length places.old ≤ corner_limit) }
        ensures same_reference { result.places.ghost_name ≡ places.entry.ghost_name }
        ensures places { result.places.now ≡ places.old }
        ensures used { result.used ≡ used }
    {
        Strip { places, used }
    }

    // The corners that stand in it.
    pub fn told(&self) -> &[u32]
        ensures { result.now ≡ told_of self.now }
    {
        &self.places[..self.used]
    }

    // Draws the side's wall from its start: writes its corners behind the others, from event to event
    // the scaffold's up to the temperature, and one there if the wall slopes down to the mast. None where
    // there is no room.
    pub fn draw(
        &mut self,
        options: &[Figures],
        side: Side,
        start: i32,
        temperature: u32,
    ) -> Option<Wall>
        requires sound { Sound side (told_of self.old) options.now }
        requires below { temperature ≤ wall_limit }
        ensures same_reference { self.new.places.ghost_name ≡ self.old.places.ghost_name }
        ensures wrote { (ds : List ℕ) → Ordered ds → Draws (cut (best side (told_of self.old) options.now) temperature) ds → Wrote start ds self.old result self.new }
    {
        let places = &mut *self.places;
        let (told, free) = places.split_at_mut(self.used);
        let mut route = Route::new(free);
        let mut t = 0;
        while t < temperature {
            let piece = best_piece(options, told, side, t);
            route.turn(!piece.slope, t)?;
            t = piece.until.min(temperature);
        }
        route.turn(false, temperature)?;
        let count = route.trail.len;
        let wall = Wall {
            start,
            begin: self.used as u16,
            count: count as u16,
        };
        self.used += count;
        Some(wall)
    }
}
