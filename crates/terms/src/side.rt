ghost use Rattle.std.specs.Prelude.{◌≡◌, ◌^◌, pos, neg_ℤ, ◌<ℤ◌};
ghost use Rattle.terms.specs.Sides.{other as opponent, own as own_of, pick as belonging};

// The two players. Left counts scores as they stand, Right counts them negated.
#[derive(Clone, Copy, PartialEq, Eq, Debug)]
pub enum Side {
    Left,
    Right,
}

impl Side {
    // The player across the board.
    pub fn other(self) -> Side
        ensures { result ≡ opponent self }
    {
        self.pick(Side::Right, Side::Left)
    }

    // Of two things, the one that belongs to the side.
    pub fn pick<T: Drop>(self, left: T, right: T) -> T
        ensures { result ≡ belonging self left right }
    {
        match self {
            Side::Left => left,
            Side::Right => right,
        }
    }

    // A figure as the side counts it: what Left gains Right loses.
    pub fn own(self, figure: i32) -> i32
        requires { neg_ℤ (pos (2 ^ 31)) <ℤ figure }
        ensures { result ≡ own_of self figure }
    {
        match self {
            Side::Left => figure,
            Side::Right => -figure,
        }
    }
}

// Who moves, as our side sees it.
#[derive(Clone, Copy, PartialEq, Eq, Debug)]
pub enum Mover {
    Ours,
    Theirs,
}
