ghost use Rattle.std.specs.Prelude.{◌≡◌, ◌<◌, ◌≤◌, true, length, replicate, Some};
ghost use Rattle.theory.specs.Trees.{Tree, options as options_of};
ghost use Rattle.rules.specs.Meaning.{known_in};
ghost use Rattle.spreading.specs.Laws.{RowsInOrder};
ghost use Rattle.spreading.specs.Shapes.{row_limit, blank, shape_of, Stand, Taken, SpreadInto};

use crate::shape::{BLANK, Fork, ROW_LIMIT, Shape};
use rules::RuleSet;
use terms::Side;

// The order of the rows is breadth first, and that alone.
pub fn rows_in_order()
    ensures { RowsInOrder }
{}

// What a row keeps of a known code, whose options begin at row `first`.
fn shape_of<R: RuleSet>(rules: &R, code: u32, first: u16) -> Shape
    ensures { (t : Tree) → R.tree rules.now code ≡ Some t → result ≡ shape_of first t }
{
    match rules.score(code) {
        Some(score) => Shape::Ended(score),
        None => Shape::Open(Fork {
            first,
            lefts: rules.count(code, Side::Left),
            rights: rules.count(code, Side::Right),
        }),
    }
}

// Writes the codes of the side's options into the places, one for each.
fn append<R: RuleSet>(rules: &R, code: u32, side: Side, places: &mut [u32])
    requires { length places.old < 256 }
    ensures { (t : Tree) → R.tree rules.now code ≡ Some t → length places.old ≡ length (options_of t side) → Stand (R.tree rules.now) places.new (options_of t side) }
{
    for (k, place) in places.iter_mut().enumerate() {
        if let Some(next) = rules.option(code, side, k as u8) {
            *place = next;
        }
    }
}

// Spreads a known code's tree into the free rows and answers how many it took, or none where it
// has more positions than there are free rows. The rows are lent, since nothing is allocated.
// `known` and `few` stay clauses: a type for them would be made only to be taken apart here.
pub fn spread<R: RuleSet>(rules: &R, code: u32, free: &mut [Shape]) -> Option<usize>
    requires known { known_in (R.tree rules.now code) ≡ true }
    requires few { length free.old ≤ row_limit }
    ensures taken { Taken free.old result }
    ensures rows { (t : Tree) → R.tree rules.now code ≡ Some t → SpreadInto t free.old result free.new }
{
    if free.is_empty() {
        return None;
    }
    let room = free.len();
    // Nothing is allocated: room for the most rows.
    let mut codes = [0; ROW_LIMIT];
    codes[0] = code;
    let mut n = 1;
    for (i, row) in free.iter_mut().enumerate() {
        if i == n {
            break;
        }
        let here = codes[i];
        let shape = shape_of(rules, here, n as u16);
        let rights = n + shape.count(Side::Left);
        let end = rights + shape.count(Side::Right);
        if room < end {
            return None;
        }
        append(rules, here, Side::Left, &mut codes[n..rights]);
        append(rules, here, Side::Right, &mut codes[rights..end]);
        n = end;
        *row = shape;
    }
    Some(n)
}

// Makes rows unused again.
pub fn wipe(shapes: &mut [Shape])
    ensures { shapes.new ≡ replicate (length shapes.old) blank }
{
    shapes.fill(BLANK);
}
