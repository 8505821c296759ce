ghost use Rattle.toys.specs.Toys.{sample};
ghost use Rattle.toys.specs.Towering.{lawful_sample};

use rules::RuleSet;
use terms::Side;

// Five positions: 0 is {5 | -3, 5}, 1 and 2 have ended with 5 and -3, 3 is {-3 | 5}, which is cold,
// and 4 is {5 | {-3 | 5}}, in which a cold position lies.
#[derive(Clone, Copy)]
pub struct Samples;

impl RuleSet for Samples {
    ghost tree = { λ s n. sample n };

    ghost lawful = { λ s n. lawful_sample n };

    fn known(&self, code: u32) -> bool {
        code < 5
    }

    fn score(&self, code: u32) -> Option<i16> {
        match code {
            1 => Some(5),
            2 => Some(-3),
            _ => None,
        }
    }

    fn count(&self, code: u32, side: Side) -> u8 {
        match (code, side) {
            (0, Side::Left) => 1,
            (0, Side::Right) => 2,
            (3 | 4, _) => 1,
            _ => 0,
        }
    }

    fn option(&self, code: u32, side: Side, k: u8) -> Option<u32> {
        match (code, side, k) {
            (0, Side::Left, 0) => Some(1),
            (0, Side::Right, 0) => Some(2),
            (0, Side::Right, 1) => Some(1),
            (3, Side::Left, 0) => Some(2),
            (3, Side::Right, 0) => Some(1),
            (4, Side::Left, 0) => Some(1),
            (4, Side::Right, 0) => Some(3),
            _ => None,
        }
    }
}
