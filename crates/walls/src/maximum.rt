ghost use Rattle.std.specs.Prelude.{◌≡◌, ℕ, ◌+◌, ◌<◌, ◌≤◌, not, ◌&&◌, ℤ};
ghost use Rattle.walls.specs.Pieces.{bit, climb, greater_of, Linear, Over};

use crate::piece::Piece;

// Whether what goes by `low` gains on what goes by `high`.
fn gains(low: bool, high: bool) -> bool
    ensures { result ≡ (low && not high) }
{
    low && !high
}

// How far from `t`, at most up to `until`, what gains by `gaining` does not pass a `gap`.
fn held(gaining: bool, gap: u32, t: u32, until: u32) -> u32
    requires ahead { t < until }
    requires apart { bit gaining ≤ gap }
    ensures ahead { t < result }
    ensures within { result ≤ until }
    ensures behind { (j : ℕ) → t + j ≤ result → climb gaining j ≤ gap }
{
    if gaining && gap < until - t {
        return t + gap;
    }
    until
}

// The piece at `t` of the greater of two functions, of which `high` is the greater at `t` and just
// after it.
fn over(high: Piece, low: Piece, t: u32) -> Piece
    requires ahead { (t < high.until) × (t < low.until) }
    requires over { Over high.value high.slope low.value low.slope }
    ensures ahead { t < result.until }
    ensures linear { (a b : ℕ → ℤ) → Linear a t high → Linear b t low → Linear (greater_of a b) t result × Linear (greater_of b a) t result }
{
    let gap = (high.value - low.value) as u32;
    let until = held(
        gains(low.slope, high.slope),
        gap,
        t,
        high.until.min(low.until),
    );
    Piece {
        value: high.value,
        slope: high.slope,
        until,
    }
}

// The piece at `t` of the greater of two functions. Of two equal values the one that rises is the
// greater.
pub fn greater(p: Piece, q: Piece, t: u32) -> Piece
    requires ahead { (t < p.until) × (t < q.until) }
    ensures ahead { t < result.until }
    ensures linear { (a b : ℕ → ℤ) → Linear a t p → Linear b t q → Linear (greater_of a b) t result }
{
    if p.value > q.value || (p.value == q.value && (p.slope || !q.slope)) {
        over(p, q, t)
    } else {
        over(q, p, t)
    }
}
