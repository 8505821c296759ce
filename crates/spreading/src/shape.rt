ghost use Rattle.std.specs.Prelude.{◌≡◌};
ghost use Rattle.spreading.specs.Shapes.{start_of, count_of, end_of};

use terms::Side;

// The most rows that a bank has; specs/Shapes.antt has the same number.
pub const ROW_LIMIT: usize = 1024;

// What a row keeps of its position: its score where it has ended, or where its options stand.
#[derive(Clone, Copy, PartialEq, Eq, Debug)]
pub enum Shape {
    Unused,
    Ended(i16),
    Open(Fork),
}

// Where the options of an open position stand and how many each side has. `first` is a row number
// within the part, since nothing is allocated; Left's options stand before Right's.
#[derive(Clone, Copy, PartialEq, Eq, Debug)]
pub struct Fork {
    pub first: u16,
    pub lefts: u8,
    pub rights: u8,
}

// The shape of a row that is not used.
pub const BLANK: Shape = Shape::Unused;

impl Fork {
    // The row of the side's first option.
    pub fn start(self, side: Side) -> usize
        ensures { result ≡ start_of (Shape.Open self) side }
    {
        let first = self.first as usize;
        side.pick(first, first + self.lefts as usize)
    }

    // How many options the side has.
    pub fn count(self, side: Side) -> usize
        ensures { result ≡ count_of (Shape.Open self) side }
    {
        side.pick(self.lefts, self.rights) as usize
    }

    // The row behind those of the options.
    pub fn end(self) -> usize
        ensures { result ≡ end_of (Shape.Open self) }
    {
        self.first as usize + self.lefts as usize + self.rights as usize
    }
}

impl Shape {
    // The row of the side's first option; 0 for a row that is not open.
    pub fn start(self, side: Side) -> usize
        ensures { result ≡ start_of self side }
    {
        match self {
            Shape::Open(fork) => fork.start(side),
            _ => 0,
        }
    }

    // How many options the side has; 0 for a row that is not open.
    pub fn count(self, side: Side) -> usize
        ensures { result ≡ count_of self side }
    {
        match self {
            Shape::Open(fork) => fork.count(side),
            _ => 0,
        }
    }
}
