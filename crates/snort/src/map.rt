ghost use Rattle.std.specs.Prelude.{◌≡◌, ℕ, ◌^◌, ◌<◌, ◌≤◌, true, false, ◌&&◌, ◌||◌, if◌then◌else◌, Ok, Err, slice_index};
ghost use Rattle.masks.specs.Masks.{mask_of};
ghost use Rattle.snort.specs.Maps.{point_limit, joined, edge, edge_fits, size_fits};
ghost use Rattle.snort.specs.Play.{beside, may_colour, clash as clash_of, colours_of, legal_masks, moves_mask, growth, snort_tree, ByTheRules};
ghost use Rattle.snort.specs.Codes;

use crate::colours::Colours;
use masks::{has, member};
use rules::RuleSet;
use terms::{Refusal, Side};

// The most points of a map.
pub const POINT_LIMIT: u32 = 12;

// Right's mask stands so many times in a code.
const CODE_BASE: u32 = 4096;

// A map of points, each with the mask of its neighbours, and the game of Snort on it.
// The code of a position is Left's mask + 4096 × Right's mask, point k as 2^k.
#[derive(Clone, Copy)]
pub struct Snort {
    points: u8,
    // a place for each point that a map may have: the library takes no memory of its own
    near: [u16; 12],
    ghost size: { (1 ≤ points) × (points ≤ point_limit) },
    ghost within: { (k : ℕ) → slice_index near k < 2 ^ points },
    ghost loopless: { (k : ℕ) → joined near k k ≡ false },
    ghost symmetric: { (a b : ℕ) → joined near a b ≡ joined near b a },
}

impl Snort {
    // A map of so many points and no edges.
    pub fn new(points: u32) -> Result<Snort, Refusal>
        ensures { elim result [ Ok m ↦ (size_fits points ≡ true) × (m.points ≡ points) × ((a b : ℕ) → joined m.near a b ≡ false) × ByTheRules m.points (joined m.near) | Err e ↦ (size_fits points ≡ false) × (e ≡ Refusal.WrongPoints) ] }
    {
        if points == 0 || points > POINT_LIMIT {
            return Err(Refusal::WrongPoints);
        }
        Ok(Snort {
            points: points as u8,
            near: [0; 12],
        })
    }

    // One more edge, between two points of the map.
    pub fn join(&mut self, a: u32, b: u32) -> Result<(), Refusal>
        ensures answer { result ≡ (if edge_fits self.old.points a b then Ok tt else Err Refusal.WrongEdge) }
        ensures edges { (x y : ℕ) → joined self.new.near x y ≡ (joined self.old.near x y || (edge_fits self.old.points a b && edge a b x y)) }
        ensures points { self.new.points ≡ self.old.points }
        ensures rules { ByTheRules self.new.points (joined self.new.near) }
        ensures refused { edge_fits self.old.points a b ≡ false → self.new.near ≡ self.old.near }
    {
        let points = self.points as u32;
        if a >= points || b >= points || a == b {
            return Err(Refusal::WrongEdge);
        }
        self.near[a as usize] |= 1 << b;
        self.near[b as usize] |= 1 << a;
        Ok(())
    }

    // Whether some neighbour of the point is in the mask.
    fn is_beside(&self, mask: u16, k: u8) -> bool
        requires { k < self.now.points }
        ensures { result ≡ beside self.now.points (joined self.now.near) mask k }
    {
        self.near[k as usize] & mask != 0
    }

    // Whether a side may colour the point.
    fn is_legal(&self, colours: Colours, side: Side, k: u8) -> bool
        requires { k < self.now.points }
        ensures { result ≡ may_colour self.now.points (joined self.now.near) colours side k }
    {
        let far = colours.own(side.other());
        !has(colours.own(side), k) && !has(far, k) && !self.is_beside(far, k)
    }

    // The points that a side may colour.
    fn legal(&self, colours: Colours, side: Side) -> u16
        ensures { result ≡ mask_of (may_colour self.now.points (joined self.now.near) colours side) self.now.points }
    {
        (0..self.points)
            .filter(|k| self.is_legal(colours, side, *k))
            .fold(0, |mask, k| mask | 1 << k)
    }

    // The points that each side may colour.
    fn choices(&self, colours: Colours) -> Colours
        ensures { result ≡ legal_masks self.now.points (joined self.now.near) colours }
    {
        Colours {
            left: self.legal(colours, Side::Left),
            right: self.legal(colours, Side::Right),
        }
    }

    // Whether a point of Left's is Right's too, or beside one of Right's.
    fn clash(&self, colours: Colours) -> bool
        ensures { result ≡ clash_of self.now.points (joined self.now.near) colours.left colours.right }
    {
        let Colours { left, right } = colours;
        (0..self.points).any(|k| has(left, k) && (has(right, k) || self.is_beside(right, k)))
    }

    // The position of a code; none where it may not stand on the map.
    fn colours(&self, code: u32) -> Option<Colours>
        ensures { result ≡ colours_of self.now.points (joined self.now.near) code }
    {
        let left = code % CODE_BASE;
        let right = code / CODE_BASE;
        let end = 1u32 << self.points;
        if left >= end || right >= end {
            return None;
        }
        let colours = Colours {
            left: left as u16,
            right: right as u16,
        };
        (!self.clash(colours)).then_some(colours)
    }

    // The points that a side may colour in an open position; none where it is ended, or the code is unknown.
    fn moves(&self, code: u32, side: Side) -> u16
        ensures { result ≡ moves_mask self.now.points (joined self.now.near) code side }
    {
        self.colours(code)
            .map(|colours| self.choices(colours))
            .filter(|choices| choices.both_have_some())
            .map_or(0, |choices| choices.own(side))
    }
}

// What a code grows by where the side colours the point.
fn coloured(side: Side, point: u8) -> u32
    requires { point < 16 }
    ensures { result ≡ growth side point }
{
    side.pick(1, CODE_BASE) << point
}

impl RuleSet for Snort {
    ghost tree = { λ s n. snort_tree s.points (joined s.near) n };

    ghost lawful = { λ s n. Codes.lawful s.points (joined s.near) s.size.1 s.symmetric n };

    fn known(&self, code: u32) -> bool {
        self.colours(code).is_some()
    }

    fn score(&self, code: u32) -> Option<i16> {
        let colours = self.colours(code)?;
        let choices = self.choices(colours);
        if choices.both_have_some() {
            return None;
        }
        let ours = (colours.left | choices.left).count_ones() as i16;
        let theirs = (colours.right | choices.right).count_ones() as i16;
        Some(ours - theirs)
    }

    fn count(&self, code: u32, side: Side) -> u8 {
        self.moves(code, side).count_ones() as u8
    }

    fn option(&self, code: u32, side: Side, k: u8) -> Option<u32> {
        let point = member(self.moves(code, side), k)?;
        Some(code + coloured(side, point))
    }
}
