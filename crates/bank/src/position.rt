ghost use Rattle.bank.specs.Contents.{trees};
ghost use Rattle.bank.specs.Parts.{There};

use crate::bank::Bank;
use crate::diagram::Diagram;
use spreading::Shape;
use terms::Side;
use thermographs::Figures;

// A row of a part of a bank, which cannot change meanwhile: the position that stands there.
#[derive(Clone, Copy)]
pub struct Position<'b> {
    bank: &'b Bank,
    part: u8,
    row: u16,
    ghost there: { There (trees bank.now) part row },
}

impl Bank {
    ghost use Rattle.bank.specs.Diagrams.{Shows};
    ghost use Rattle.bank.specs.Positions.{IsAt, Found};

    // The position at a row of a part.
    pub fn position(&self, part: u8, row: u16) -> Position<'_>
        requires { There (trees self.now) part row }
        ensures { IsAt self.now part row result }
    {
        Position {
            bank: self,
            part,
            row,
        }
    }

    // The same; none where there is no such part or row.
    pub fn find(&self, part: u8, row: u16) -> Option<Position<'_>>
        ensures { Found self.now part row result }
    {
        if row as usize >= self.figures_of(part).len() {
            return None;
        }
        Some(self.position(part, row))
    }

    // The diagram of a row of a part; nothing but zeros where there is no such part or row.
    pub fn diagram(&self, part: u8, row: u16) -> Diagram<'_>
        ensures { Shows (trees self.now) part row result }
    {
        self.find(part, row)
            .map_or(Diagram::blank(), |position| position.diagram())
    }
}

impl<'b> Position<'b> {
    ghost use Rattle.std.specs.Prelude.{◌≡◌};
    ghost use Rattle.terms.specs.Sides.{pick};
    ghost use Rattle.theory.specs.Walls.{left_wall, right_wall};
    ghost use Rattle.spreading.specs.Shapes.{shape_at};
    ghost use Rattle.thermographs.specs.Figures.{figures_at};
    ghost use Rattle.bank.specs.Diagrams.{Pictures};
    ghost use Rattle.bank.specs.Positions.{tree_of, position_of, IsAt};

    // The part that the position is in.
    pub fn part(&self) -> u8
        ensures { result ≡ self.now.part }
    {
        self.part
    }

    // Its row there.
    pub fn row(&self) -> u16
        ensures { result ≡ self.now.row }
    {
        self.row
    }

    // The position at another row of the same part.
    pub fn at(&self, row: u16) -> Position<'b>
        requires { There (trees self.now.bank.now) self.now.part row }
        ensures { IsAt self.now.bank.now self.now.part row result }
    {
        self.bank.position(self.part, row)
    }

    // What the row keeps of the position: its score, or the rows of its options.
    pub fn shape(&self) -> Shape
        ensures { result ≡ shape_at (tree_of self.now) self.now.row }
    {
        self.bank.shapes_of(self.part)[self.row as usize]
    }

    // What it keeps of the thermograph.
    pub fn figures(&self) -> Figures
        ensures { result ≡ figures_at (tree_of self.now) 0 self.now.row }
    {
        self.bank.figures_of(self.part)[self.row as usize]
    }

    // Its diagram.
    pub fn diagram(&self) -> Diagram<'b>
        ensures { Pictures (position_of self.now) result }
    {
        Diagram::of(self.figures(), self.bank.corners_of(self.part))
    }

    // The side's wall of the position at `t`. A side and a tax are what a wall is asked with, here and in
    // a diagram.
    pub fn wall(&self, side: Side, t: u32) -> i32
        ensures { result ≡ pick side (left_wall (position_of self.now) t) (right_wall (position_of self.now) t) }
    {
        self.diagram().at(side, t)
    }
}
