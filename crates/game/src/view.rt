ghost use Rattle.std.specs.Prelude.{◌≡◌, ◌<◌, ◌-ℤ◌, map, length, take};
ghost use Rattle.theory.specs.Trees.{at as at_place, options};
ghost use Rattle.stories.specs.Game.{near as near_wall, far as far_wall, First, Any};
ghost use Rattle.bank.specs.Positions.{position_of};
ghost use Rattle.game.specs.Presents.{near_in};

use crate::reads::option;
use bank::Position;
use play::best_option;
use std::array;
use terms::Side;
use theory::OPTION_LIMIT;

// The most options that a side has, so that their near walls need no heap.
const MOST: usize = OPTION_LIMIT as usize;

// How a side sees positions at the ambient `t`.
#[derive(Clone, Copy)]
pub(crate) struct View {
    pub(crate) side: Side,
    pub(crate) t: u32,
}

impl View {
    // The near wall: what the side has there if the other moves first.
    pub(crate) fn near(self, at: Position<'_>) -> i32
        ensures { result ≡ near_wall self.side self.t (position_of at.entry) }
    {
        self.side.own(at.wall(self.side.other(), self.t))
    }

    // The far wall: what the side has there if it moves first.
    fn far(self, at: Position<'_>) -> i32
        ensures { result ≡ far_wall self.side self.t (position_of at.entry) }
    {
        self.side.own(at.wall(self.side, self.t))
    }

    // What the far wall has above the near wall.
    pub(crate) fn gain(self, at: Position<'_>) -> i32
        ensures { result ≡ (far_wall self.side self.t (position_of at.entry) -ℤ near_wall self.side self.t (position_of at.entry)) }
    {
        self.far(at) - self.near(at)
    }

    // The near wall of the position to which the side's option leads; 0 where there is no such
    // option.
    fn option_near(self, at: Position<'_>, k: usize) -> i32
        ensures { result ≡ near_in self.side self.t (at_place (options (position_of at.entry) self.side) k) }
    {
        option(at, self.side, k).map_or(0, |to| self.near(to))
    }

    // Those of all the side's options.
    fn option_nears(self, at: Position<'_>) -> [i32; MOST]
        ensures { take (length (options (position_of at.entry) self.side)) result ≡ map (near_wall self.side self.t) (options (position_of at.entry) self.side) }
    {
        array::from_fn(|k| self.option_near(at, k))
    }

    // The side's option with the greatest of them, the lowest number among equals.
    pub(crate) fn best(self, at: Position<'_>) -> u8
        requires { 0 < length (options (position_of at) self.side) }
        ensures { First Any (near_wall self.side self.t) (options (position_of at.entry) self.side) result }
    {
        let count = at.shape().count(self.side);
        let nears = self.option_nears(at);
        best_option(&nears[..count]) as u8
    }
}
