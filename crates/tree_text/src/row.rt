ghost use Rattle.std.specs.Prelude.{◌≡◌, ℕ, ◌+◌, ◌≤◌, List, ◌++◌, length};
ghost use Rattle.tree_text.specs.Rows.{picked};
ghost use Rattle.tree_text.specs.Seen.{as_row};
ghost use Rattle.tree_text.specs.Written.{run, row_at, Content};

use crate::links::Links;
use trees::{BLANK_ROW, PickRun, TreeRow};

// A row as it was read: ended, with its score, or open, with the rows of Left's and Right's options.
#[derive(Drop)]
pub enum Row {
    Ended(i16),
    Open(Links, Links),
}

// Writes row numbers behind the `at` picks that stand there, and says where they stand.
fn write(links: &Links, picks: &mut [u8], at: usize) -> PickRun
    requires { (at + length links.now.items ≤ length picks.old) × (at + length links.now.items ≤ 1024) }
    ensures run { result ≡ run at links.now.items }
    ensures picks { (ys : List ℕ) → length ys ≡ at → Content 0 picks.old ys → Content 0 picks.new (ys ++ links.now.items) }
{
    let end = at + links.len();
    picks[at..end].copy_from_slice(links.as_slice());
    PickRun {
        begin: at as u16,
        count: links.len() as u8,
    }
}

impl Row {
    // How many picks it has.
    pub fn picks(&self) -> usize
        ensures { result ≡ length (picked (as_row self.now)) }
    {
        match self {
            Row::Ended(_) => 0,
            Row::Open(left, right) => left.len() + right.len(),
        }
    }

    // Writes its picks behind the `used` ones, and answers the row as it is written down.
    pub fn store(&self, picks: &mut [u8], used: usize) -> TreeRow
        requires { (used + length (picked (as_row self.now)) ≤ length picks.old) × (used + length (picked (as_row self.now)) ≤ 1024) }
        ensures row { result ≡ row_at used (as_row self.now) }
        ensures picks { (ys : List ℕ) → length ys ≡ used → Content 0 picks.old ys → Content 0 picks.new (ys ++ picked (as_row self.now)) }
    {
        match self {
            Row::Ended(score) => TreeRow {
                score: *score,
                ..BLANK_ROW
            },
            Row::Open(left, right) => TreeRow {
                score: 0,
                left: write(left, picks, used),
                right: write(right, picks, used + left.len()),
            },
        }
    }
}
