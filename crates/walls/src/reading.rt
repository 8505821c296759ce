ghost use Rattle.std.specs.Prelude.{◌≡◌, ◌+◌, ◌^◌, ◌<◌, ◌≤◌};
ghost use Rattle.theory.specs.Corners.{Ordered, rising};
ghost use Rattle.walls.specs.Pieces.{climb, Linear};
ghost use Rattle.walls.specs.Ranges.{Tame};
ghost use Rattle.walls.specs.Readings.{drawn};

use crate::piece::Piece;
use terms::Side;

// How far `by` steps go.
fn climbed(slope: bool, by: u32) -> u32
    ensures { result ≡ climb slope by }
{
    if slope { by } else { 0 }
}

// The piece at `t` of the wall that rises from `base` and turns at the corners. It ends above `t`,
// except at the greatest `t` that there is.
pub fn piece_at(base: i32, corners: &[u32], t: u32) -> Piece
    requires ordered { Ordered corners.now }
    requires tame { Tame (rising base corners.now) }
    ensures here { t ≤ result.until }
    ensures ahead { t + 1 < 2 ^ 32 → t < result.until }
    ensures linear { Linear (rising base corners.now) t result }
{
    let mut slope = corners.len() % 2 == 1;
    let mut moved = 0;
    let mut last = 0;
    for c in corners {
        if *c > t {
            let all = moved + climbed(slope, t - last);
            return Piece {
                value: base + all as i32,
                slope,
                until: *c,
            };
        }
        moved += climbed(slope, *c - last);
        last = *c;
        slope = !slope;
    }
    let all = moved + climbed(slope, t - last);
    Piece {
        value: base + all as i32,
        slope,
        until: u32::MAX,
    }
}

// A side's wall at any `t`, from its value at 0 and its corners. It rises as the other side counts.
pub fn value_at(side: Side, start: i32, corners: &[u32], t: u32) -> i32
    requires ordered { Ordered corners.now }
    requires tame { Tame (drawn side start corners.now) }
    ensures { result ≡ drawn side start corners.now t }
{
    let rises = side.other();
    rises.own(piece_at(rises.own(start), corners, t).value)
}
