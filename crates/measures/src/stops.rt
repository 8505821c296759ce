ghost use Rattle.std.specs.Prelude.{◌≡◌, pos, ◌+ℤ◌, int_lt};
ghost use Rattle.theory.specs.Trees.{Score};
ghost use Rattle.terms.specs.Sides.{pick};

use terms::Side;

// The stops of a position, each in its side's own terms.
#[derive(Clone, Copy)]
pub(crate) struct Stops {
    pub(crate) left: i32,
    pub(crate) right: i32,
    pub(crate) ghost left_score: { Score left },
    pub(crate) ghost right_score: { Score right },
}

impl Stops {
    // The stop where this side is to move.
    pub(crate) fn of(self, mover: Side) -> i32
        ensures { result ≡ pick mover self.left self.right }
    {
        mover.pick(self.left, self.right)
    }

    // Whether a position with these stops is cold.
    pub(crate) fn are_cold(self) -> bool
        ensures { result ≡ int_lt (self.left +ℤ self.right) (pos 0) }
    {
        self.left + self.right < 0
    }
}
