ghost use Rattle.std.specs.Prelude.{◌≡◌, length, take};
ghost use Rattle.trees.specs.Written.{row_limit, pick_limit, all_above, lawful_list, open_lists, options_at, score_or_zero, tree_at, TreesAsWritten};
ghost use Rattle.trees.specs.WrittenLemmas as Written;

use crate::row::{PICK_LIMIT, PickRun, ROW_LIMIT, TreeRow};
use rules::RuleSet;
use terms::Side;
use theory::{OPTION_LIMIT, SCORE_LIMIT};

// The trees that stand in two lent buffers. The code is the row number.
#[derive(Clone, Copy)]
pub struct Trees<'a> {
    rows: &'a [TreeRow],
    picks: &'a [u8],
}

// The first cells of a lent buffer, of which at most `limit` count.
fn counted<T>(cells: &[T], limit: usize) -> &[T]
    ensures { result.now ≡ take limit cells.now }
{
    &cells[..cells.len().min(limit)]
}

// Whether each pick names a row above the own one and below the end.
fn all_above(own: usize, end: usize, picks: &[u8]) -> bool
    ensures { result ≡ all_above own end picks.now }
{
    picks.iter().all(|pick| {
        let row = *pick as usize;
        own < row && row < end
    })
}

// The score if it is lawful, and else 0.
fn lawful_score(score: i16) -> i16
    ensures { result ≡ score_or_zero score }
{
    if (-SCORE_LIMIT..=SCORE_LIMIT).contains(&score) {
        score
    } else {
        0
    }
}

impl<'a> Trees<'a> {
    // Any content is lawful: a row that is not open is ended.
    pub fn new(rows: &'a [TreeRow], picks: &'a [u8]) -> Trees<'a>
        ensures { (result.rows.now ≡ rows.now) × ((result.picks.now ≡ picks.now) × (TreesAsWritten rows.now picks.now)) }
    {
        Trees { rows, picks }
    }

    // The rows that count.
    fn rows(&self) -> &[TreeRow]
        ensures { result.now ≡ take row_limit self.now.rows.now }
    {
        counted(self.rows, ROW_LIMIT)
    }

    // The picks that count.
    fn picks(&self) -> &[u8]
        ensures { result.now ≡ take pick_limit self.now.picks.now }
    {
        counted(self.picks, PICK_LIMIT)
    }

    // Whether the list is lawful at the row.
    fn is_lawful(&self, own: usize, list: PickRun) -> bool
        ensures { result ≡ lawful_list (length (take row_limit self.now.rows.now)) (take pick_limit self.now.picks.now) own list }
    {
        let end = self.rows().len();
        (1..=OPTION_LIMIT).contains(&list.count)
            && self
                .picks()
                .get(list.places())
                .is_some_and(|picks| all_above(own, end, picks))
    }

    // Whether a row is open: both its lists are lawful.
    fn is_open(&self, own: usize, row: &TreeRow) -> bool
        ensures { result ≡ open_lists (length (take row_limit self.now.rows.now)) (take pick_limit self.now.picks.now) own row.now }
    {
        self.is_lawful(own, row.left) && self.is_lawful(own, row.right)
    }

    // The rows of a side's options; none where the row is not open.
    fn options(&self, code: u32, side: Side) -> &[u8]
        ensures { result.now ≡ options_at (take row_limit self.now.rows.now) (take pick_limit self.now.picks.now) code side }
    {
        let own = code as usize;
        match self.rows().get(own) {
            Some(row) if self.is_open(own, row) => {
                &self.picks()[side.pick(row.left, row.right).places()]
            }
            _ => &[],
        }
    }
}

impl<'a> RuleSet for Trees<'a> {
    ghost tree = { λ s n. tree_at s.rows.now s.picks.now n };

    ghost lawful = { λ s n. Written.lawful s.rows.now s.picks.now n };

    fn known(&self, code: u32) -> bool {
        (code as usize) < self.rows().len()
    }

    fn score(&self, code: u32) -> Option<i16> {
        let own = code as usize;
        let row = self.rows().get(own)?;
        if self.is_open(own, row) {
            return None;
        }
        Some(lawful_score(row.score))
    }

    fn count(&self, code: u32, side: Side) -> u8 {
        self.options(code, side).len() as u8
    }

    fn option(&self, code: u32, side: Side, k: u8) -> Option<u32> {
        let row = self.options(code, side).get(k as usize)?;
        Some(u32::from(*row))
    }
}
