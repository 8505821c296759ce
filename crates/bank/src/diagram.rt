ghost use Rattle.theory.specs.Corners.{Ordered, rising, falling};
ghost use Rattle.walls.specs.Ranges.{Tame};

use terms::Side;
use thermographs::Figures;
use walls::value_at;

// The thermograph of one position: its left and right wall, each by its value at 0 and its corners,
// which are a part of the bank's own, its mean and its temperature.
#[derive(Clone, Copy)]
pub struct Diagram<'a> {
    left: &'a [u32],
    right: &'a [u32],
    left_start: i32,
    right_start: i32,
    mean: i32,
    temperature: u32,
    ghost left_rises: { Ordered left.now },
    ghost right_rises: { Ordered right.now },
    ghost left_fits: { Tame (falling left_start left.now) },
    ghost right_fits: { Tame (rising right_start right.now) },
}

impl<'a> Diagram<'a> {
    ghost use Rattle.std.specs.Prelude.{◌≡◌, ◌+◌, ◌≤◌, length};
    ghost use Rattle.terms.specs.declared.side.Side.{Side as Player};
    ghost use Rattle.terms.specs.Sides.{pick};
    ghost use Rattle.walls.specs.Readings.{drawn};
    ghost use Rattle.thermographs.specs.Figures.{wall_of, run};
    ghost use Rattle.bank.specs.Diagrams.{left_of, right_of, Nothing, DrawnBy};

    // Of nothing.
    pub(crate) fn blank() -> Diagram<'a>
        ensures { Nothing result }
    {
        Diagram {
            left: &[],
            right: &[],
            left_start: 0,
            right_start: 0,
            mean: 0,
            temperature: 0,
        }
    }

    // Of a row by its figures, over the corners of its part.
    pub(crate) fn of(shown: Figures, corners: &'a [u32]) -> Diagram<'a>
        requires inside { (s : Player) → (wall_of shown s).begin + (wall_of shown s).count ≤ length corners.now }
        requires rising { (s : Player) → Ordered (run (wall_of shown s) corners.now) }
        requires fitting { (s : Player) → Tame (drawn s (wall_of shown s).start (run (wall_of shown s) corners.now)) }
        ensures { DrawnBy shown corners.now result }
    {
        Diagram {
            left: shown.left.corners(corners),
            right: shown.right.corners(corners),
            left_start: shown.left.start,
            right_start: shown.right.start,
            mean: shown.mean,
            temperature: shown.temperature,
        }
    }

    // The corners of the side's wall.
    pub fn corners(&self, side: Side) -> &[u32]
        ensures { result.now ≡ pick side self.now.left.now self.now.right.now }
    {
        side.pick(self.left, self.right)
    }

    // The value of the side's wall at 0.
    pub fn start(&self, side: Side) -> i32
        ensures { result ≡ pick side self.now.left_start self.now.right_start }
    {
        side.pick(self.left_start, self.right_start)
    }

    pub fn mean(&self) -> i32
        ensures { result ≡ self.now.mean }
    {
        self.mean
    }

    pub fn temperature(&self) -> u32
        ensures { result ≡ self.now.temperature }
    {
        self.temperature
    }

    // The side's wall at `t`.
    pub fn at(&self, side: Side, t: u32) -> i32
        ensures { result ≡ pick side (left_of self.now t) (right_of self.now t) }
    {
        value_at(side, self.start(side), self.corners(side), t)
    }
}
