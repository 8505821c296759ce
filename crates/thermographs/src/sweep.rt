ghost use Rattle.std.specs.Prelude.{◌≡◌, ◌<◌, ◌≤◌};
ghost use Rattle.terms.specs.declared.side.Side.TheVariants.{Left, Right};
ghost use Rattle.theory.specs.Limits.{wall_limit};
ghost use Rattle.walls.specs.Pieces.{Linear};
ghost use Rattle.thermographs.specs.Near.{best, Sound};
ghost use Rattle.thermographs.specs.Sweep.{Meets};

use crate::figures::Figures;
use crate::near::best_piece;
use terms::Side;
use walls::Scaffolds;

// Where the scaffolds of a position meet, and where its walls start.
#[derive(Clone, Copy)]
pub struct Meeting {
    pub left: i32,
    pub right: i32,
    pub mean: i32,
    pub temperature: u32,
}

// The best near walls of the two sides at `t`.
fn scaffolds(lefts: &[Figures], rights: &[Figures], corners: &[u32], t: u32) -> Scaffolds
    requires lefts { Sound Left corners.now lefts.now }
    requires rights { Sound Right corners.now rights.now }
    requires below { t ≤ wall_limit }
    ensures at { result.t ≡ t }
    ensures ahead { (result.t < result.left.until) × (result.t < result.right.until) }
    ensures left { Linear (best Left corners.now lefts.now) result.t result.left }
    ensures right { Linear (best Right corners.now rights.now) result.t result.right }
{
    Scaffolds {
        left: best_piece(lefts, corners, Side::Left, t),
        right: best_piece(rights, corners, Side::Right, t),
        t,
    }
}

// The temperature of the position with these options: from one event to the next, until the
// scaffolds have met.
pub fn meet(lefts: &[Figures], rights: &[Figures], corners: &[u32]) -> Meeting
    requires lefts { Sound Left corners.now lefts.now }
    requires rights { Sound Right corners.now rights.now }
    ensures { Meets (best Left corners.now lefts.now) (best Right corners.now rights.now) result }
{
    let mut at = scaffolds(lefts, rights, corners, 0);
    let left = at.left.value;
    let right = -at.right.value;
    while at.apart() {
        at = scaffolds(lefts, rights, corners, at.reach());
    }
    Meeting {
        left,
        right,
        mean: at.left.value - at.t as i32,
        temperature: at.t,
    }
}
