ghost use Rattle.std.specs.Prelude.{◌≤◌, length};
ghost use Rattle.bank.specs.Contents.{trees};
ghost use Rattle.game.specs.Rows.{OnRows};

use crate::reads::{heat, mean, option};
use crate::view::View;
use bank::{Bank, Position};
use encoding::PART_LIMIT;
use play::{Landing, Lead, hottest};
use spreading::Shape;
use std::array;
use terms::{Refusal, Side};

// The parts of a bank as they stand, each at one of its rows. There is a limit on how many they are,
// so that their figures need no heap.
#[derive(Clone, Copy)]
pub(crate) struct Present<'b> {
    pub(crate) bank: &'b Bank,
    pub(crate) rows: [u16; PART_LIMIT],
    ghost enough: { length (trees bank.now) ≤ length rows },
    ghost on_rows: { OnRows (trees bank.now) rows },
}

impl<'b> Present<'b> {
    ghost use Rattle.std.specs.Prelude.{◌≡◌};
    ghost use Rattle.theory.specs.Trees.{at};
    ghost use Rattle.theory.specs.Walls.{mean as mean_of};
    ghost use Rattle.stories.specs.Game.{near as near_wall};
    ghost use Rattle.play.specs.Leads.{HottestOf};
    ghost use Rattle.play.specs.Standing.{hottest_of, Leads};
    ghost use Rattle.game.specs.Rows.{OnRow};
    ghost use Rattle.game.specs.Presents.{standing, near_in, gain_in, Here, Tells, StandsAt};
    ghost use Rattle.game.specs.State.{mean_in, tree_heat};

    // The position where a part stands; none where there is no such part.
    pub(crate) fn here(&self, part: usize) -> Option<Position<'b>>
        ensures { Here self.now part result }
    {
        if part >= self.bank.parts() as usize {
            return None;
        }
        Some(self.bank.position(part as u8, self.rows[part]))
    }

    // The mean of a part; 0 where there is no such part.
    pub(crate) fn mean(&self, part: usize) -> i32
        ensures { result ≡ mean_in (at (standing self.now) part) }
    {
        self.here(part).map_or(0, mean)
    }

    // Its temperature; none where it has ended or there is no such part.
    pub(crate) fn heat(&self, part: usize) -> Option<u32>
        ensures { result ≡ tree_heat (at (standing self.now) part) }
    {
        self.here(part).and_then(heat)
    }

    // Its near wall, as a side sees it.
    fn near(&self, part: usize, view: View) -> i32
        ensures { result ≡ near_in view.side view.t (at (standing self.now) part) }
    {
        self.here(part).map_or(0, |at| view.near(at))
    }

    // What its far wall has above its near wall.
    pub(crate) fn gain(&self, part: usize, view: View) -> i32
        ensures { result ≡ gain_in view.side view.t (at (standing self.now) part) }
    {
        self.here(part).map_or(0, |at| view.gain(at))
    }

    // The means of the parts.
    pub(crate) fn means(&self) -> [i32; PART_LIMIT]
        ensures { Tells mean_of self.now result }
    {
        array::from_fn(|part| self.mean(part))
    }

    // Their near walls.
    pub(crate) fn nears(&self, view: View) -> [i32; PART_LIMIT]
        ensures { Tells (near_wall view.side view.t) self.now result }
    {
        array::from_fn(|part| self.near(part, view))
    }

    // The hottest part.
    pub(crate) fn hottest(&self) -> Option<Lead>
        ensures { HottestOf (standing self.now) result }
    {
        let heats: [Option<u32>; PART_LIMIT] = array::from_fn(|part| self.heat(part));
        hottest(&heats[..self.bank.parts() as usize])
    }

    // The greatest temperature; none where all parts have ended.
    pub(crate) fn greatest_heat(&self) -> Option<u32>
        ensures { result ≡ hottest_of (standing self.now) }
    {
        self.hottest().map(|lead| lead.heat)
    }

    // One part comes to stand at a position, and the others stay where they are.
    fn with(&self, to: Position<'_>) -> Present<'b>
        requires { to.bank.now ≡ self.now.bank.now }
        ensures { StandsAt self.now to.entry.part to.entry.row result }
    {
        let mut after = *self;
        after.rows[to.part() as usize] = to.row();
        after
    }

    // Where the side's option in a part leads, or why there is none.
    pub(crate) fn landing(&self, side: Side, part: u8, k: u8) -> Result<Landing, Refusal>
        ensures leads { Leads (trees self.now.bank.now) side self.now.rows part k result }
        ensures row { OnRow (trees self.now.bank.now) result }
    {
        let at = self.here(part as usize).ok_or(Refusal::NoSuchPart)?;
        // A shape is no Option: of its three cases one is open.
        let Shape::Open(_) = at.shape() else {
            return Err(Refusal::PartEnded);
        };
        let to = option(at, side, k as usize).ok_or(Refusal::NoSuchOption)?;
        Ok(Landing {
            part,
            row: to.row(),
            heat: heat(to),
            hottest: self.with(to).greatest_heat(),
        })
    }
}
