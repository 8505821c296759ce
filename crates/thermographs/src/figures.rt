ghost use Rattle.std.specs.Prelude.{◌≡◌, ◌+◌, ◌≤◌, length};
ghost use Rattle.thermographs.specs.Figures.{wall_of, run};

use terms::Side;

// The most corners that a bank has; specs/Figures.antt has the same number.
pub const CORNER_LIMIT: usize = 1024;

// A wall: its value at 0 in units, and where its corners stand in the strip; by number, as the strip is
// a column of the bank.
#[derive(Clone, Copy, PartialEq, Eq, Debug)]
pub struct Wall {
    pub start: i32,
    pub begin: u16,
    pub count: u16,
}

// What a row keeps of its thermograph.
#[derive(Clone, Copy, PartialEq, Eq, Debug)]
pub struct Figures {
    pub mean: i32,
    pub temperature: u32,
    pub left: Wall,
    pub right: Wall,
}

const BLANK_WALL: Wall = Wall {
    start: 0,
    begin: 0,
    count: 0,
};

// The figures of a row that is not used.
pub const BLANK: Figures = Figures {
    mean: 0,
    temperature: 0,
    left: BLANK_WALL,
    right: BLANK_WALL,
};

impl Wall {
    // Its corners, of all that stand in the strip.
    pub fn corners(self, strip: &[u32]) -> &[u32]
        requires { self.begin + self.count ≤ length strip.now }
        ensures { result.now ≡ run self strip.now }
    {
        let begin = self.begin as usize;
        &strip[begin..begin + self.count as usize]
    }
}

impl Figures {
    // The side's wall.
    pub fn wall(self, side: Side) -> Wall
        ensures { result ≡ wall_of self side }
    {
        side.pick(self.left, self.right)
    }
}
