ghost use Rattle.std.specs.Prelude.{◌≡◌, replicate};
ghost use Rattle.encoding.specs.Columns.{part_limit};
ghost use Rattle.play.specs.Record.{turn_by, hotter_than, cooled_by, at_first, after, answer, Inside, Kept, rows_after};
ghost use Rattle.play.specs.Standing.{Opens, OurMove, TheirReply};

use encoding::PART_LIMIT;
use stories::Turn;
use terms::{Mover, Refusal};

// A play as it stands: the present row of each part, the turn, the ambient, and the part in which
// they have made a threat, if there is one. A bank's parts have a limit, so the rows need no heap.
#[derive(Clone, Copy)]
pub struct Play {
    pub rows: [u16; PART_LIMIT],
    pub turn: Turn,
    pub ambient: u32,
    pub pending: Option<u8>,
}

// What a player does.
#[derive(Clone, Copy)]
pub enum Event {
    Move,
    Reply,
}

// Where it leads: the part and its row then, the temperature there, and the greatest temperature of
// the parts then. An ended position has no temperature.
#[derive(Clone, Copy)]
pub struct Landing {
    pub part: u8,
    pub row: u16,
    pub heat: Option<u32>,
    pub hottest: Option<u32>,
}

// The turn comes to `turn`, or the game is over: exactly when no part is open.
fn turn_to(turn: Turn, hottest: Option<u32>) -> Turn
    ensures { result ≡ turn_by turn hottest }
{
    hottest.map_or(Turn::Over, |_| turn)
}

// Whether a position of this temperature is hotter than the ambient.
fn hotter(heat: Option<u32>, ambient: u32) -> bool
    ensures { result ≡ hotter_than ambient heat }
{
    heat.is_some_and(|t| ambient < t)
}

// What the ambient falls to while play goes on.
fn cooled(ambient: u32, hottest: Option<u32>) -> u32
    ensures { result ≡ cooled_by ambient hottest }
{
    hottest.map_or(ambient, |t| ambient.min(t))
}

impl Play {
    // All parts at their first rows; `hottest` is the greatest temperature of the parts.
    pub fn open(first: Mover, hottest: Option<u32>) -> Play
        ensures game { Opens first hottest result }
        ensures rows { result.rows ≡ replicate part_limit 0 }
    {
        Play::at_first_rows(turn_to(Turn::from(first), hottest), hottest.unwrap_or(0))
    }

    fn at_first_rows(turn: Turn, ambient: u32) -> Play
        ensures { result ≡ at_first turn ambient }
    {
        Play {
            rows: [0; PART_LIMIT],
            turn,
            ambient,
            pending: None,
        }
    }

    // What an event does. `landing` is where it leads, or why the part or the option is refused.
    // Turn and event are matched together, so that all that may happen stands in one place.
    fn apply(&mut self, event: Event, landing: Result<Landing, Refusal>) -> Result<(), Refusal>
        requires { Inside landing }
        ensures play { self.new ≡ after self.old event landing }
        ensures answer { result ≡ answer self.old.turn event landing }
    {
        match (self.turn, event) {
            (Turn::Over, _) => Err(Refusal::GameOver),
            (Turn::Ours, Event::Move) => {
                let to = landing?;
                self.rows[to.part as usize] = to.row;
                self.turn = turn_to(Turn::Theirs, to.hottest);
                self.pending = None;
                Ok(())
            }
            (Turn::Theirs, Event::Reply) => {
                let to = landing?;
                self.rows[to.part as usize] = to.row;
                self.turn = turn_to(Turn::Ours, to.hottest);
                if hotter(to.heat, self.ambient) {
                    self.pending = Some(to.part);
                } else {
                    self.pending = None;
                    self.ambient = cooled(self.ambient, to.hottest);
                }
                Ok(())
            }
            (_, Event::Move) => Err(Refusal::NotOurTurn),
            (_, Event::Reply) => Err(Refusal::NotTheirTurn),
        }
    }

    // Our move. A refused one leaves the record as it was, and so does a refused reply. The two differ in
    // the event alone, and each is a call of its own.
    pub fn our_move(&mut self, landing: Result<Landing, Refusal>) -> Result<(), Refusal>
        requires { Inside landing }
        ensures game { OurMove self.old landing self.new result }
        ensures rows { self.new.rows ≡ rows_after self.old.rows landing result }
        ensures kept { Kept self.old self.new result }
    {
        self.apply(Event::Move, landing)
    }

    // Their reply.
    pub fn their_reply(&mut self, landing: Result<Landing, Refusal>) -> Result<(), Refusal>
        requires { Inside landing }
        ensures game { TheirReply self.old landing self.new result }
        ensures rows { self.new.rows ≡ rows_after self.old.rows landing result }
        ensures kept { Kept self.old self.new result }
    {
        self.apply(Event::Reply, landing)
    }
}
