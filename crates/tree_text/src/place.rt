ghost use Rattle.std.specs.Prelude.{◌≡◌, ℕ, ◌+◌, ◌≤◌, length, IfOk};
ghost use Rattle.lines.specs.Seen.{seen};
ghost use Rattle.tree_text.specs.Rows.{list_of, list_line, behind};

use crate::links::{Links, is_above, read_links};
use lines::{Key, Reader};
use numbers::Text;
use terms::{Fault, Refusal};

// Where a row stands: its number and the last row's, how many picks the rows before it have, and
// how many picks there may be.
#[derive(Clone, Copy)]
pub struct Place {
    pub row: u8,
    pub last: u8,
    pub used: usize,
    pub room: usize,
    ghost within: { (used ≤ room) × (room ≤ 1024) },
}

impl Place {
    ghost use Rattle.tree_text.specs.Seen.{spot, linked, gave_links};

    // The place behind a list of the row.
    pub fn behind(self, links: &Links) -> Place
        requires { self.used + length links.now.items ≤ self.room }
        ensures spot { spot result ≡ behind (spot self) links.now.items }
        ensures last { result.last ≡ self.last }
        ensures room { result.room ≡ self.room }
    {
        Place {
            row: self.row,
            last: self.last,
            used: self.used + links.len(),
            room: self.room,
        }
    }

    // A row's list of options: its form, then that each stands below the row, then that there is room
    // for its picks.
    pub fn list_of(self, text: Text) -> Result<Links, Fault>
        ensures list { linked result ≡ list_of self.last self.room (spot self) text.entry.bytes.now text.entry.line }
        ensures room { IfOk result (λ links. self.used + length links.items ≤ self.room) }
    {
        let links = read_links(text, self.last)?;
        if !is_above(self.row, links.as_slice()) {
            return Err(Refusal::RowNotAbove.at(text.line));
        }
        if self.used + links.len() > self.room {
            return Err(Refusal::TreeTooLarge.at(text.line));
        }
        Ok(links)
    }

    // The line left= or right= of the row.
    pub fn read_list(self, reader: &mut Reader, key: Key) -> Result<Links, Fault>
        ensures list { gave_links result reader.new ≡ list_line key self.last self.room (spot self) (seen reader.old) }
        ensures room { IfOk result (λ links. self.used + length links.items ≤ self.room) }
    {
        self.list_of(reader.value(key)?)
    }
}
