ghost use Rattle.std.specs.Prelude.{◌≡◌, ◌≤◌, false, length};

// How many corners have been written, and whether the wall slopes where the last one stands.
#[derive(Clone, Copy)]
pub struct Trail {
    pub len: usize,
    pub slope: bool,
}

// Going along a wall: the places for its corners, of which those of the trail are written.
// `same_reference` says that no other places were put in, which a type cannot.
#[derive(Drop)]
pub struct Route<'a> {
    pub places: &'a mut [u32],
    pub trail: Trail,
    pub ghost room: { trail.len ≤ length places.now },
}

impl<'a> Route<'a> {
    ghost use Rattle.walls.specs.Turns.{turns as turns_at, After, written};

    // The route where a wall begins: no corner is written.
    pub fn new(places: &'a mut [u32]) -> Route<'a>
        ensures same_reference { result.places.ghost_name ≡ places.entry.ghost_name }
        ensures places { result.places.now ≡ places.old }
        ensures none { (result.trail.len ≡ 0) × (result.trail.slope ≡ false) }
    {
        Route {
            places,
            trail: Trail {
                len: 0,
                slope: false,
            },
        }
    }

    // Whether there is a corner at `t`: the slope changes there, and a wall has none at 0.
    fn turns(&self, slope: bool, t: u32) -> bool
        ensures { result ≡ turns_at self.now.trail.slope slope t }
    {
        0 < t && self.trail.slope != slope
    }

    // Writes a corner at `t` if the slope changes there; none where there is no room for it.
    pub fn turn(&mut self, slope: bool, t: u32) -> Option<()>
        ensures same_reference { self.new.places.ghost_name ≡ self.old.places.ghost_name }
        ensures trail { After self.old slope t result self.new }
        ensures places { self.new.places.now ≡ written self.old slope t }
    {
        if self.turns(slope, t) {
            if self.trail.len >= self.places.len() {
                return None;
            }
            self.places[self.trail.len] = t;
            self.trail.len += 1;
        }
        self.trail.slope = slope;
        Some(())
    }
}
