ghost use Rattle.toys.specs.Toys.{tower_of};
ghost use Rattle.toys.specs.Towering.{lawful_tower};

use rules::RuleSet;
use terms::Side;

// Code n is n moves deep: Left moves on to n - 1, and Right ends it with 0.
#[derive(Clone, Copy)]
pub struct Towers;

impl RuleSet for Towers {
    ghost tree = { λ s n. tower_of n };

    ghost lawful = { λ s n. lawful_tower n };

    fn known(&self, code: u32) -> bool {
        true
    }

    fn score(&self, code: u32) -> Option<i16> {
        (code == 0).then_some(0)
    }

    fn count(&self, code: u32, side: Side) -> u8 {
        if code == 0 { 0 } else { 1 }
    }

    fn option(&self, code: u32, side: Side, k: u8) -> Option<u32> {
        if k != 0 {
            return None;
        }
        let below = code.checked_sub(1)?;
        Some(side.pick(below, 0))
    }
}
