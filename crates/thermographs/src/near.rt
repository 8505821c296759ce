ghost use Rattle.std.specs.Prelude.{◌<◌, ◌≤◌};
ghost use Rattle.theory.specs.Limits.{wall_limit};
ghost use Rattle.walls.specs.Pieces.{Linear};
ghost use Rattle.thermographs.specs.Near.{near, best, SoundNear, Sound};

use crate::figures::Figures;
use terms::Side;
use walls::{Piece, greater, piece_at};

// That `t` is in range is said by each contract: a type of its own would be made and taken apart again
// at each event, as the next `t` is where a piece ends. Side and `t` are no pair, as `t` alone moves on.

// The piece at `t` of an option's near wall for the side: the other side's wall in the terms of the
// side, in which it rises.
fn near_piece(option: Figures, corners: &[u32], side: Side, t: u32) -> Piece
    requires sound { SoundNear side corners.now option }
    requires below { t ≤ wall_limit }
    ensures ahead { t < result.until }
    ensures linear { Linear (near side corners.now option) t result }
{
    let wall = option.wall(side.other());
    piece_at(side.own(wall.start), wall.corners(corners), t)
}

// The piece at `t` of the best near wall that the side's options have. Options, corners and side are
// no struct: one that borrows the told corners while a route writes behind them finds no proof.
pub fn best_piece(options: &[Figures], corners: &[u32], side: Side, t: u32) -> Piece
    requires sound { Sound side corners.now options.now }
    requires below { t ≤ wall_limit }
    ensures ahead { t < result.until }
    ensures linear { Linear (best side corners.now options.now) t result }
{
    let (last, rest) = options.split_last().unwrap();
    let mut best = near_piece(*last, corners, side, t);
    for option in rest.iter().rev() {
        let piece = near_piece(*option, corners, side, t);
        best = greater(piece, best, t);
    }
    best
}
