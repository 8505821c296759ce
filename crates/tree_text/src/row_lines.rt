ghost use Rattle.std.specs.Prelude.{◌≡◌, ℕ, ◌+◌, ◌≤◌, length, IfOk};
ghost use Rattle.theory.specs.Limits.{score_limit};
ghost use Rattle.numbers.specs.Numbers.{judged, within};
ghost use Rattle.lines.specs.Seen.{seen};
ghost use Rattle.tree_text.specs.Rows.{row_lines, fork_from, picked};
ghost use Rattle.tree_text.specs.Seen.{spot, as_row, gave_row};

use crate::place::Place;
use crate::row::Row;
use lines::{Key, Line, Reader};
use numbers::Text;
use terms::{Fault, Refusal};
use theory::SCORE_LIMIT;

// The score of an ended row.
fn score_of(text: Text) -> Result<i16, Fault>
    ensures { result ≡ judged (within score_limit text.entry.bytes.now) text.entry.line }
{
    let score = text.within(SCORE_LIMIT as u16)?;
    Ok(score as i16)
}

// An open row, of which the line left= has been read.
fn fork_of(reader: &mut Reader, text: Text, place: Place) -> Result<Row, Fault>
    ensures row { gave_row result reader.new ≡ fork_from place.last place.room (spot place) text.entry.bytes.now text.entry.line (seen reader.old) }
    ensures room { IfOk result (λ row. place.used + length (picked (as_row row)) ≤ place.room) }
{
    let left = place.list_of(text)?;
    let right = place.behind(&left).read_list(reader, Key::Right)?;
    Ok(Row::Open(left, right))
}

// The line or the two lines of a row.
pub fn read_row(reader: &mut Reader, place: Place) -> Result<Row, Fault>
    ensures row { gave_row result reader.new ≡ row_lines place.last place.room (spot place) (seen reader.old) }
    ensures room { IfOk result (λ row. place.used + length (picked (as_row row)) ≤ place.room) }
{
    match reader.next_line()? {
        Line::End(text) => Ok(Row::Ended(score_of(text)?)),
        Line::Left(text) => fork_of(reader, text, place),
        line => Err(Refusal::WrongLine.at(line.value().line)),
    }
}
