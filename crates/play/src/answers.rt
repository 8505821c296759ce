ghost use Rattle.std.specs.Prelude.{◌≡◌, ◌^◌, ◌<◌, ◌≤◌, length, pos, neg_ℤ, ◌≤ℤ◌, unwrap_or};
ghost use Rattle.encoding.specs.Columns.{part_limit};
ghost use Rattle.play.specs.Answers.{sum_z, floor_by, bracket_by, bracket_to, advised_by, FloorIs, BracketIs, PartIs, BestOption};

use crate::leads::Lead;
use crate::record::Play;
use stories::Turn;
use terms::{Refusal, Side};

// The sum of a figure of each part. (The library's `sum` of signed numbers asks at the call that
// each run of figures fits, so the proof would be longer than the loop.)
fn sum(figures: &[i32]) -> i64
    requires { length figures.now ≤ part_limit }
    ensures sum { result ≡ sum_z figures.now }
    ensures small { (result ≤ℤ pos (2 ^ 40)) × (neg_ℤ (pos (2 ^ 40)) ≤ℤ result) }
{
    let mut total: i64 = 0;
    for figure in figures {
        total += *figure as i64;
    }
    total
}

// The bracket where the side is to move.
fn bracket_for(mover: Side, mean: i64, heat: u32) -> (i64, i64)
    requires { (mean ≤ℤ pos (2 ^ 40)) × (neg_ℤ (pos (2 ^ 40)) ≤ℤ mean) }
    ensures { (result.0, result.1) ≡ bracket_by mover mean heat }
{
    let heat = heat as i64;
    mover.pick((mean, mean + heat), (mean - heat, mean))
}

impl Play {
    // The floor for our side, in units. `nears` has the near wall of each part at the ambient, and
    // `gain` is what the far wall of a pending part has above its near wall, or 0 without any.
    pub fn floor(&self, nears: &[i32], gain: i32) -> i64
        requires { length nears.now ≤ part_limit }
        ensures told { result ≡ floor_by self.now.turn (sum_z nears.now) gain self.now.ambient }
        ensures floor { FloorIs self.now nears.now gain result }
    {
        let walls = sum(nears);
        match self.turn {
            Turn::Ours => walls + gain as i64,
            Turn::Theirs => walls - self.ambient as i64,
            Turn::Over => walls,
        }
    }

    // The bracket for Left, in units: low and high. `side` is ours, `means` has the mean of each
    // part, and `hottest` is their greatest temperature.
    pub fn bracket(&self, side: Side, means: &[i32], hottest: Option<u32>) -> (i64, i64)
        requires { length means.now ≤ part_limit }
        ensures told { (result.0, result.1) ≡ bracket_to self.now.turn side (sum_z means.now) (unwrap_or hottest 0) }
        ensures bracket { BracketIs self.now side means.now hottest (result.0, result.1) }
    {
        let mean = sum(means);
        let heat = hottest.unwrap_or(0);
        match self.turn {
            Turn::Ours => bracket_for(side, mean, heat),
            Turn::Theirs => bracket_for(side.other(), mean, heat),
            Turn::Over => (mean, mean),
        }
    }

    // The part to move in: the pending one, or else the hottest.
    pub fn advised_part(&self, hottest: Option<Lead>) -> Result<usize, Refusal>
        ensures told { result ≡ advised_by self.now.turn self.now.pending hottest }
        ensures part { PartIs self.now hottest result }
    {
        match self.turn {
            Turn::Ours => self
                .pending
                .map(|part| part as usize)
                .or(hottest.map(|lead| lead.part))
                .ok_or(Refusal::GameOver),
            Turn::Theirs => Err(Refusal::NotOurTurn),
            Turn::Over => Err(Refusal::GameOver),
        }
    }
}

// Of the near walls of our options, the number of the greatest, the lowest number among equals.
// (A chain finds the first among equals only when it is turned round.)
pub fn best_option(nears: &[i32]) -> usize
    requires { 0 < length nears.now }
    ensures { BestOption nears.now result }
{
    let mut best = 0;
    for (k, near) in nears.iter().enumerate() {
        if nears[best] < *near {
            best = k;
        }
    }
    best
}
