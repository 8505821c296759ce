ghost use Rattle.std.specs.Prelude.{◌≡◌, ℕ, ◌-◌};
ghost use Rattle.bank.specs.Contents.{trees};
ghost use Rattle.tree_text.specs.Seen.{Kept, lent_rows, lent_room};
ghost use Rattle.lines.specs.Reading.{on_line};
ghost use Rattle.lines.specs.Seen.{seen, gave};
ghost use Rattle.runner.specs.Runs.{leaving, chain, seating, seat_body, seat_part, seat_parts};

use bank::Bank;
use job::{Kind, MOST_PARTS, read_count, read_word};
use lines::{Key, Reader, at_line};
use map_text::read_map;
use rules::RuleSet;
use terms::Fault;
use tree_text::{Lent, read_tree};

// Seats the tree of code 0, once all lines of its part are read.
fn seat_first<R: RuleSet>(reader: &Reader, bank: &mut Bank, rules: &R) -> Result<(), Fault>
    ensures { leaving result (trees bank.new) ≡ on_line (seating (trees bank.old) (R.tree rules.now 0)) (reader.now.line - 1) }
{
    at_line(bank.seat(rules, 0), reader.last()).map(|_| ())
}

// A tree part after its line rules=. Reader, bank and buffers go one by one: each is lent for a call
// alone, and the game that follows borrows the bank while it reads on.
fn seat_tree(reader: &mut Reader, bank: &mut Bank, lent: &mut Lent) -> Result<(), Fault>
    ensures seated { gave (leaving result (trees bank.new)) reader.new ≡ seat_body (lent_rows lent.old) (lent_room lent.old) (trees bank.old) Kind.Tree (seen reader.old) }
    ensures kept { Kept lent.old lent.new }
{
    read_tree(reader, lent)?;
    seat_first(reader, bank, &lent.trees())
}

// A Snort part after its line rules=; the buffers are not wanted.
fn seat_map(reader: &mut Reader, bank: &mut Bank) -> Result<(), Fault>
    ensures { (lent room : ℕ) → gave (leaving result (trees bank.new)) reader.new ≡ seat_body lent room (trees bank.old) Kind.Snort (seen reader.old) }
{
    let map = read_map(reader)?;
    seat_first(reader, bank, &map)
}

// Reads a part, with the buffers that a tree is read into, and seats it.
fn seat_part(reader: &mut Reader, bank: &mut Bank, lent: &mut Lent) -> Result<(), Fault>
    ensures seated { gave (leaving result (trees bank.new)) reader.new ≡ seat_part (lent_rows lent.old) (lent_room lent.old) (trees bank.old) (seen reader.old) }
    ensures kept { Kept lent.old lent.new }
{
    match read_word(reader)? {
        Kind::Tree => seat_tree(reader, bank, lent),
        Kind::Snort => seat_map(reader, bank),
    }
}

// So many parts, after those that are seated. A loop for parts and moves alike would take a closure
// that lends on what each of them needs: it is no plainer.
fn seat_more(reader: &mut Reader, n: u16, bank: &mut Bank, lent: &mut Lent) -> Result<(), Fault>
    ensures seated { gave (leaving result (trees bank.new)) reader.new ≡ chain (seat_part (lent_rows lent.old) (lent_room lent.old)) n (trees bank.old) (seen reader.old) }
    ensures kept { Kept lent.old lent.new }
{
    for _ in 0..n {
        seat_part(reader, bank, lent)?;
    }
    Ok(())
}

// The line parts= and the parts, into the bank, which is emptied before.
pub(crate) fn seat_parts(reader: &mut Reader, bank: &mut Bank, lent: &mut Lent) -> Result<(), Fault>
    ensures seated { gave (leaving result (trees bank.new)) reader.new ≡ seat_parts (lent_rows lent.old) (lent_room lent.old) (seen reader.old) }
    ensures kept { Kept lent.old lent.new }
{
    let n = read_count(reader, Key::Parts, MOST_PARTS)?;
    bank.clear();
    seat_more(reader, n, bank, lent)
}
