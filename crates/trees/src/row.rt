ghost use Rattle.std.specs.Prelude.{◌≡◌, ◌+◌};

use std::ops::Range;

// At most so many rows of the lent buffer count.
pub const ROW_LIMIT: usize = 256;

// At most so many picks of the lent buffer count.
pub const PICK_LIMIT: usize = 1024;

// A list of options: a run of the picks, which are row numbers, as trees stand in lent memory and
// nothing is allocated.
#[derive(Clone, Copy, PartialEq, Eq, Debug)]
pub struct PickRun {
    pub begin: u16,
    pub count: u8,
}

impl PickRun {
    // Its places among the picks.
    pub(crate) fn places(self) -> Range<usize>
        ensures start { result.start ≡ self.begin }
        ensures end { result.end ≡ self.begin + self.count }
    {
        let begin = usize::from(self.begin);
        begin..begin + usize::from(self.count)
    }
}

// The list of no options.
pub const EMPTY_RUN: PickRun = PickRun { begin: 0, count: 0 };

// A row of a tree as it is written down: its score, or the two lists of its options. Rows lie in lent
// memory of which any content is lawful, so it has both, and no variant says which of them counts.
#[derive(Clone, Copy, PartialEq, Eq, Debug)]
pub struct TreeRow {
    pub score: i16,
    pub left: PickRun,
    pub right: PickRun,
}

// A row that is not in use: all zero.
pub const BLANK_ROW: TreeRow = TreeRow {
    score: 0,
    left: EMPTY_RUN,
    right: EMPTY_RUN,
};
