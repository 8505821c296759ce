ghost use Rattle.std.specs.Prelude.{◌≡◌, ℕ, ◌+◌, ◌*◌, ◌<◌, ◌≤◌, pos, ◌+ℤ◌, ◌≤ℤ◌, ◌<ℤ◌, MatchBool};
ghost use Rattle.theory.specs.Limits.{wall_limit};
ghost use Rattle.walls.specs.Pieces.{climb};

use crate::piece::Piece;

// The scaffolds of a position, each in its side's own terms, are the best near walls of its options
// less the tax; they have met where the two near walls come to no more than twice the tax. Here are
// the near walls' pieces at the tax `t`.
#[derive(Clone, Copy)]
pub struct Scaffolds {
    pub left: Piece,
    pub right: Piece,
    pub t: u32,
    pub ghost low: { t ≤ wall_limit },
}

// The number of steps, at most `most`, after which a `gap` is closed that each step narrows by 2,
// less the slopes.
fn closing(m: bool, n: bool, gap: u32, most: u32) -> u32
    requires { (0 < gap) × (0 < most) }
    ensures ahead { 0 < result }
    ensures within { result ≤ most }
    ensures hot { (j : ℕ) → j < result → 2 * j < gap + climb m j + climb n j }
{
    if m && n {
        return most;
    }
    if m || n {
        return gap.min(most);
    }
    (gap / 2 + gap % 2).min(most)
}

impl Scaffolds {
    // How far the near walls come to more than twice the tax.
    fn gap(self) -> i32
        ensures { (result +ℤ pos (2 * self.t)) ≡ (self.left.value +ℤ self.right.value) }
    {
        self.left.value + self.right.value - 2 * self.t as i32
    }

    // Whether the scaffolds have not met at `t`.
    pub fn apart(self) -> bool
        ensures { MatchBool result (pos (2 * self.t) <ℤ (self.left.value +ℤ self.right.value)) ((self.left.value +ℤ self.right.value) ≤ℤ pos (2 * self.t)) }
    {
        self.gap() > 0
    }

    // The next place where a piece ends or the scaffolds meet.
    pub fn reach(self) -> u32
        requires ahead { (self.t < self.left.until) × (self.t < self.right.until) }
        requires hot { pos (2 * self.t) <ℤ (self.left.value +ℤ self.right.value) }
        ensures ahead { self.t < result }
        ensures within { (result ≤ self.left.until) × (result ≤ self.right.until) }
        ensures hot { (j : ℕ) → self.t + j < result → pos (2 * (self.t + j)) <ℤ ((self.left.value +ℤ pos (climb self.left.slope j)) +ℤ (self.right.value +ℤ pos (climb self.right.slope j))) }
    {
        let wide = self.gap() as u32;
        let most = self.left.until.min(self.right.until) - self.t;
        self.t + closing(self.left.slope, self.right.slope, wide, most)
    }
}
