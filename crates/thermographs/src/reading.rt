ghost use Rattle.std.specs.Prelude.{◌≡◌};
ghost use Rattle.terms.specs.Sides.{own};
ghost use Rattle.theory.specs.Trees.{Tree};
ghost use Rattle.theory.specs.Fair.{Fair};
ghost use Rattle.theory.specs.Walls.{wall as wall_of};
ghost use Rattle.thermographs.specs.Figures.{Tells};
ghost use Rattle.thermographs.specs.Laws.{FiguresTell, ToldIsRead};

use crate::figures::Figures;
use terms::Side;
use walls::value_at;

// The figures of a tree's rows tell their walls by its strip, and what is told can be read.
pub fn figures_tell_walls()
    ensures tell { FiguresTell }
    ensures read { ToldIsRead }
{}

// A wall of a row at any tax, for Left as the books have it: for callers with a strip of their own.
pub fn wall_at(row: Figures, corners: &[u32], side: Side, t: u32) -> i32
    requires { (x : Tree) × Fair x × Tells corners.now row x }
    ensures { (x : Tree) → Fair x → Tells corners.now row x → result ≡ own side (wall_of x side t) }
{
    let wall = row.wall(side);
    value_at(side, wall.start, wall.corners(corners), t)
}
