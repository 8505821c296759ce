ghost use Rattle.std.specs.Prelude.{◌≡◌, ◌+◌, ◌≤◌, length};
ghost use Rattle.spreading.specs.Shapes.{row_limit, shapes_of};
ghost use Rattle.thermographs.specs.Figures.{corner_limit, strip_of};
ghost use Rattle.bank.specs.Contents.{trees};
ghost use Rattle.bank.specs.Held.{part_figures};
ghost use Rattle.bank.specs.Parts.{before_part, part_of};

use crate::bank::Bank;
use crate::columns::Extent;
use spreading::Shape;
use thermographs::Figures;

// From where to where a part's rows and corners stand.
#[derive(Clone, Copy)]
struct Span {
    from: Extent,
    to: Extent,
}

impl Bank {
    // How many parts there are.
    pub fn parts(&self) -> u8
        ensures { result ≡ length (trees self.now) }
    {
        self.columns.parts
    }

    // What stands before part `k`; all that is used where there is no such part.
    fn start(&self, k: usize) -> Extent
        ensures { result ≡ before_part self.now.columns k }
    {
        if k < self.columns.parts as usize {
            self.columns.starts[k]
        } else {
            self.columns.used
        }
    }

    fn span(&self, part: u8) -> Span
        ensures rows { (result.from.rows ≤ result.to.rows) × (result.to.rows ≤ row_limit) }
        ensures turns { (result.from.turns ≤ result.to.turns) × (result.to.turns ≤ corner_limit) }
        ensures from { result.from ≡ before_part self.now.columns part }
        ensures to { result.to ≡ before_part self.now.columns (part + 1) }
    {
        Span {
            from: self.start(part as usize),
            to: self.start(part as usize + 1),
        }
    }

    // The shapes of a part's rows; none where there is no such part. The columns are read one by one here
    // and below: a common function would be told the column and which of a span's numbers count there.
    pub fn shapes_of(&self, part: u8) -> &[Shape]
        ensures { result.now ≡ part_of shapes_of (trees self.now) part }
    {
        let span = self.span(part);
        &self.columns.shapes[span.from.rows as usize..span.to.rows as usize]
    }

    // The figures of a part's rows, whose corners are counted from where the part's own begin.
    pub fn figures_of(&self, part: u8) -> &[Figures]
        ensures { result.now ≡ part_of part_figures (trees self.now) part }
    {
        let span = self.span(part);
        &self.columns.figures[span.from.rows as usize..span.to.rows as usize]
    }

    // The corners of a part's rows.
    pub fn corners_of(&self, part: u8) -> &[u32]
        ensures { result.now ≡ part_of strip_of (trees self.now) part }
    {
        let span = self.span(part);
        &self.columns.corners[span.from.turns as usize..span.to.turns as usize]
    }
}
