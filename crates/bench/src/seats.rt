ghost use Rattle.std.specs.Prelude.{◌≡◌, ◌<◌, length, IsErr};
ghost use Rattle.lines.specs.Reading.{longest};

use bank::Bank;
use lines::{Key, Reader};
use map_text::read_map;
use rules::RuleSet;
use terms::Fault;
use tree_text::{Lent, read_tree};
use trees::{BLANK_ROW, PICK_LIMIT, ROW_LIMIT};

// Seats copies of a position until the bank has so many parts or refuses.
fn seat_copies<R: RuleSet>(bank: &mut Bank, rules: &R, copies: u8) {
    for _ in 0..copies {
        let _ = bank.seat(rules, 0);
    }
}

// The same in an emptied bank, again and again; answers how many parts it has at the end.
fn seat_again<R: RuleSet>(rules: &R, copies: u8, times: u32) -> u8 {
    let mut bank = Bank::new();
    for _ in 0..times {
        bank.clear();
        seat_copies(&mut bank, rules, copies);
    }
    bank.parts()
}

// Reads a part of a job, from its line rules= on, and seats it.
fn seat_part(reader: &mut Reader, copies: u8, times: u32) -> Result<u8, Fault> {
    let kind = reader.value(Key::Rules)?;
    if kind.bytes == b"snort".as_slice() {
        let map = read_map(reader)?;
        return Ok(seat_again(&map, copies, times));
    }
    let mut rows = [BLANK_ROW; ROW_LIMIT];
    let mut picks = [0; PICK_LIMIT];
    let mut lent = Lent {
        rows: &mut rows,
        picks: &mut picks,
    };
    read_tree(reader, &mut lent)?;
    Ok(seat_again(&lent.trees(), copies, times))
}

// Reads the text of a part and seats it, again and again.
fn seat_text(part: &[u8], copies: u8, times: u32) -> Result<u8, Fault>
    ensures { longest < length part.now → IsErr result }
{
    let mut reader = Reader::open(part)?;
    seat_part(&mut reader, copies, times)
}

// Reads the part that the text says once, and seats copies of it in an emptied bank so many times.
// Answers how many parts the bank has at the end, 0 for a text that is refused: C has no other word
// for a refusal here.
#[unsafe(no_mangle)]
pub extern "C" fn seat_many(part: &[u8], copies: u8, times: u32) -> u8
    ensures { longest < length part.now → result ≡ 0 }
{
    seat_text(part, copies, times).unwrap_or(0)
}
