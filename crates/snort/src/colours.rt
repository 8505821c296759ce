ghost use Rattle.std.specs.Prelude.{◌≡◌, not, ◌||◌, ◌==◌};
ghost use Rattle.terms.specs.Sides.{pick};

use terms::Side;

// A set of points for each side, as masks. In a position those are the points that it has coloured.
#[derive(Clone, Copy)]
pub struct Colours {
    pub left: u16,
    pub right: u16,
}

impl Colours {
    // The set of a side.
    pub fn own(self, side: Side) -> u16
        ensures { result ≡ pick side self.left self.right }
    {
        side.pick(self.left, self.right)
    }

    // Whether each side has some point.
    pub fn both_have_some(self) -> bool
        ensures { result ≡ not (self.left == 0 || self.right == 0) }
    {
        self.left != 0 && self.right != 0
    }
}
