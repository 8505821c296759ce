ghost use Rattle.std.specs.Prelude.{◌≡◌, ◌-◌, length};
ghost use Rattle.numbers.specs.Numbers.{judged, upto};
ghost use Rattle.lines.specs.Lines.{entry, form};
ghost use Rattle.lines.specs.Reading.{times};
ghost use Rattle.lines.specs.Seen.{seen, gave};
ghost use Rattle.job.specs.Account.{counted, passed};
ghost use Rattle.job.specs.Values.{move_of};
ghost use Rattle.job.specs.Reads.{move_line, moves_lines};

use lines::{Key, Reader, cut};
use numbers::Text;
use terms::Fault;

// A move: the number of a part, and of an option of whoever is to move there.
#[derive(Clone, Copy)]
pub struct Move {
    pub part: u8,
    pub option: u8,
}

// The greatest numbers of a part and of an option that a job may name.
const LAST_PART: u16 = 7;

const LAST_OPTION: u16 = 15;

// The most moves of a job.
pub const MOST_MOVES: u16 = 96;

fn move_of(value: Text<'_>) -> Result<Move, Fault>
    ensures { result ≡ judged (move_of value.entry.bytes.now) value.entry.line }
{
    let (part, option) = cut(value.bytes, b',').ok_or(value.wrong())?;
    let part = value.part(part).upto(LAST_PART)?;
    let option = value.part(option).upto(LAST_OPTION)?;
    Ok(Move {
        part: part as u8,
        option: option as u8,
    })
}

// The line move=part,option.
pub fn read_move(reader: &mut Reader) -> Result<Move, Fault>
    ensures { gave result reader.new ≡ move_line (seen reader.old) }
{
    move_of(reader.value(Key::Move)?)
}

// A line of which the value is a number up to `most`.
pub fn read_count(reader: &mut Reader, key: Key, most: u16) -> Result<u16, Fault>
    ensures { gave result reader.new ≡ entry key (form (upto most)) (seen reader.old) }
{
    reader.value(key)?.upto(most)
}

// So many lines move=; see pass_parts for why no one loop serves both.
fn pass_moves(reader: &mut Reader, n: u16) -> Result<(), Fault>
    ensures { gave result reader.new ≡ passed (times n move_line) (seen reader.old) }
{
    for _ in 0..n {
        read_move(reader)?;
    }
    Ok(())
}

// The line moves= and the moves, of which only the number is kept.
pub fn count_moves(reader: &mut Reader) -> Result<u16, Fault>
    ensures { gave result reader.new ≡ counted length moves_lines (seen reader.old) }
{
    let n = read_count(reader, Key::Moves, MOST_MOVES)?;
    pass_moves(reader, n)?;
    Ok(n)
}
