ghost use Rattle.std.specs.Prelude.{◌≡◌, ◌<◌, ◌≤◌, length};
ghost use Rattle.lines.specs.Seen.{seen, gave};
ghost use Rattle.lines.specs.Lines.{entry};
ghost use Rattle.tree_text.specs.Rows.{row_count};
ghost use Rattle.tree_text.specs.Seen.{Kept};
ghost use Rattle.tree_text.specs.Written.{Blank, ReadRows, ReadPart, ReadTree};

use crate::lent::Lent;
use crate::place::Place;
use crate::row_lines::read_row;
use lines::{Key, Reader};
use terms::{Fault, Refusal};
use trees::{PICK_LIMIT, ROW_LIMIT, TreeRow};

// The line rows=, which says how many rows follow: no more than are lent.
fn count_rows(reader: &mut Reader, lent: usize) -> Result<usize, Fault>
    ensures { gave result reader.new ≡ entry Key.Rows (row_count lent) (seen reader.old) }
{
    let text = reader.value(Key::Rows)?;
    let n = usize::from(text.upto(ROW_LIMIT as u16)?);
    if n == 0 {
        return Err(text.wrong());
    }
    if n > lent {
        return Err(Refusal::TreeTooLarge.at(text.line));
    }
    Ok(n)
}

// Reads as many rows as there are into blank buffers, with as many picks as there is room for.
// They are blank only between clearing and reading, so no type holds it.
fn read_rows(reader: &mut Reader, rows: &mut [TreeRow], picks: &mut [u8]) -> Result<(), Fault>
    requires rows { (0 < length rows.old) × (length rows.old ≤ 256) }
    requires room { length picks.old ≤ 1024 }
    requires blank { Blank rows.old picks.old }
    ensures { ReadRows (length rows.old) (length picks.old) (seen reader.old) result (seen reader.new) rows.new picks.new }
{
    let last = (rows.len() - 1) as u8;
    let room = picks.len();
    let mut used = 0;
    for (i, cell) in rows.iter_mut().enumerate() {
        let place = Place {
            row: i as u8,
            last,
            used,
            room,
        };
        let row = read_row(reader, place)?;
        *cell = row.store(picks, used);
        used += row.picks();
    }
    Ok(())
}

// Reads the rows of a tree part into blank buffers.
fn read_part(reader: &mut Reader, lent: &mut Lent) -> Result<(), Fault>
    requires { Blank lent.old.rows.now lent.old.picks.now }
    ensures read { ReadPart (seen reader.old) result (seen reader.new) lent.new.rows.now lent.new.picks.now }
    ensures kept { Kept lent.old lent.new }
{
    let n = count_rows(reader, lent.rows.len())?;
    let room = lent.picks.len().min(PICK_LIMIT);
    read_rows(reader, &mut lent.rows[..n], &mut lent.picks[..room])
}

// Reads the lines of a tree part, after its line rules=, into what is lent, of which nothing stays.
// Where it refuses both buffers are blank.
pub fn read_tree(reader: &mut Reader, lent: &mut Lent) -> Result<(), Fault>
    ensures read { ReadTree (seen reader.old) result (seen reader.new) lent.new.rows.now lent.new.picks.now }
    ensures kept { Kept lent.old lent.new }
{
    lent.clear();
    let answer = read_part(reader, lent);
    if answer.is_err() {
        lent.clear();
    }
    answer
}
