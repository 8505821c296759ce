ghost use Rattle.std.specs.Prelude.{◌≡◌, Some};
ghost use Rattle.terms.specs.Refusals.{number as number_of, layer as layer_of, fault, layer_name, fault_lines};

use std::fmt;

// Where a refusal comes from.
#[derive(Clone, Copy, PartialEq, Eq, Debug)]
pub enum Layer {
    Text,
    Rules,
    Seat,
    Play,
    Sheet,
}

impl fmt::Display for Layer {
    ghost output = { λ layer. Some (layer_name layer) };

    fn fmt<W: fmt::Write>(&self, f: &mut fmt::Formatter<W>) -> fmt::Result {
        f.write_str(match self {
            Layer::Text => "text",
            Layer::Rules => "rules",
            Layer::Seat => "seat",
            Layer::Play => "play",
            Layer::Sheet => "sheet",
        })
    }
}

// Each way in which a call may refuse, with the number that is printed for it.
#[derive(Clone, Copy, PartialEq, Eq, Debug)]
pub enum Refusal {
    // the job is longer than a job may be
    JobTooLong = 10,
    // the line has no end, or is not the next one that the job wants
    WrongLine = 11,
    // the value has not the form or the range of its key
    WrongForm = 12,
    // a tree row names a row that does not stand below it
    RowNotAbove = 13,
    // bytes follow the job's last line
    BytesAfterJob = 14,
    // more tree rows or picks than there is room for
    TreeTooLarge = 15,
    // the bank has all its parts
    PartsFull = 21,
    // the rule set does not know the code
    UnknownCode = 22,
    // more rows than the bank has free
    RowsFull = 23,
    // more moves in a row than the units can halve
    TooHigh = 24,
    // moving first hurts somewhere in the tree
    ColdPosition = 25,
    // more corners than the bank has free
    CornersFull = 26,
    NotOurTurn = 31,
    GameOver = 32,
    NoSuchPart = 33,
    PartEnded = 34,
    NoSuchOption = 35,
    NotTheirTurn = 36,
    // the output has no room for the sheet
    OutputTooShort = 41,
    // not a number of points that a map may have
    WrongPoints = 51,
    // an edge off the map, or from a point to itself
    WrongEdge = 52,
}

impl Refusal {
    // The number that is printed for it.
    pub fn number(self) -> u8
        ensures { result ≡ number_of self }
    {
        self as u8
    }

    // The layer that it comes from: the tens of its number say which.
    pub fn layer(self) -> Layer
        ensures { result ≡ layer_of self }
    {
        match self.number() / 10 {
            1 => Layer::Text,
            2 => Layer::Seat,
            3 => Layer::Play,
            4 => Layer::Sheet,
            _ => Layer::Rules,
        }
    }

    // The fault of a job's line that meets it.
    pub fn at(self, line: u32) -> Fault
        ensures { result ≡ fault self line }
    {
        Fault {
            refusal: self,
            line,
        }
    }
}

// A refusal, and the line of the job that met it: 0 for a job that is too long, for an output that
// is too short, and outside a job.
#[derive(Clone, Copy, PartialEq, Eq, Debug)]
pub struct Fault {
    pub refusal: Refusal,
    pub line: u32,
}

impl fmt::Display for Fault {
    ghost output = { λ f. Some (fault_lines f) };

    // Three lines, without the end of the last.
    fn fmt<W: fmt::Write>(&self, f: &mut fmt::Formatter<W>) -> fmt::Result {
        let number = self.refusal.number();
        let layer = self.refusal.layer();
        let line = self.line;
        write!(f, "fault={number}\nlayer={layer}\nline={line}")
    }
}
