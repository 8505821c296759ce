ghost use Rattle.std.specs.Prelude.{◌≡◌, []};
ghost use Rattle.bank.specs.Contents.{trees};
ghost use Rattle.bank.specs.Seats.{Seated};

use crate::bank::Bank;
use crate::columns::{Columns, Extent};
use crate::draft::{erase, fill};
use encoding::PART_LIMIT;
use rules::RuleSet;
use spreading::{BLANK as BLANK_SHAPE, ROW_LIMIT};
use terms::Refusal;
use thermographs::{BLANK, CORNER_LIMIT};

// Nothing.
const NONE: Extent = Extent { rows: 0, turns: 0 };

impl Bank {
    // A bank without parts.
    pub fn new() -> Bank
        ensures { trees result ≡ [] }
    {
        Bank {
            columns: Columns {
                shapes: [BLANK_SHAPE; ROW_LIMIT],
                figures: [BLANK; ROW_LIMIT],
                corners: [0; CORNER_LIMIT],
                starts: [NONE; PART_LIMIT],
                parts: 0,
                used: NONE,
            },
        }
    }

    // Empties the bank: all that is used is blank again.
    pub fn clear(&mut self)
        ensures { trees self.new ≡ [] }
    {
        let rows = self.columns.used.rows as usize;
        let turns = self.columns.used.turns as usize;
        erase(
            &mut self.columns.shapes[0..rows],
            &mut self.columns.figures[0..rows],
            &mut self.columns.corners[0..turns],
        );
        self.columns.starts = [NONE; PART_LIMIT];
        self.columns.parts = 0;
        self.columns.used = NONE;
    }

    // Seats the code's tree and answers the number of its part; or says why it is refused, and then
    // the bank is as it was. The tree is written in place, past what is used.
    pub fn seat<R: RuleSet>(&mut self, rules: &R, code: u32) -> Result<u8, Refusal>
        ensures { Seated self.old (R.tree rules.now code) result self.new }
    {
        let part = self.columns.parts;
        if part as usize == PART_LIMIT {
            return Err(Refusal::PartsFull);
        }
        if !rules.known(code) {
            return Err(Refusal::UnknownCode);
        }
        let used = self.columns.used;
        let rows = used.rows as usize;
        let turns = used.turns as usize;
        let extent = fill(
            rules,
            code,
            &mut self.columns.shapes[rows..],
            &mut self.columns.figures[rows..],
            &mut self.columns.corners[turns..],
        )?;
        self.columns.starts[part as usize] = used;
        self.columns.used = Extent {
            rows: used.rows + extent.rows,
            turns: used.turns + extent.turns,
        };
        self.columns.parts = part + 1;
        Ok(part)
    }
}
