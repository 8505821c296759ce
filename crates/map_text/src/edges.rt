ghost use Rattle.std.specs.Prelude.{◌≡◌, None};
ghost use Rattle.lines.specs.Commas.{pieces, all_of};
ghost use Rattle.map_text.specs.Maps.{edge_of};
ghost use Rattle.map_text.specs.Pairs.{Paired, before_text, last_said, after_edge, goes_on, formed};

use crate::pair::Pair;
use lines::{Pieces, cut};
use numbers::{Text, is_less};
use terms::Fault;

impl<'a> Pair<'a> {
    // The two numbers of an edge, the first not above the second.
    pub fn read(text: Text<'a>) -> Result<Pair<'a>, Fault>
        ensures { Paired result (edge_of text.entry.bytes.now) text.entry.line }
    {
        let (from, to) = cut(text.bytes, b'-').ok_or(text.wrong())?;
        let from = text.part(from);
        let to = text.part(to);
        from.natural()?;
        to.natural()?;
        if is_less(to.bytes, from.bytes) {
            return Err(text.wrong());
        }
        Ok(Pair { from, to })
    }

    // Whether it stands before another: by the first point, and then by the second.
    // By `is_less`: texts of numbers compare by length first, and no derive gives that order.
    fn is_before(self, other: Pair) -> bool
        ensures { result ≡ before_text self.entry other.entry }
    {
        let (a, b) = (self.from.bytes, other.from.bytes);
        is_less(a, b) || !is_less(b, a) && is_less(self.to.bytes, other.to.bytes)
    }
}

// An edge that stands after the one before it, if there is one.
fn read_next<'a>(last: Option<Pair<'a>>, text: Text<'a>) -> Result<Pair<'a>, Fault>
    ensures { Paired result (after_edge (last_said last.entry) (edge_of text.entry.bytes.now)) text.entry.line }
{
    let pair = Pair::read(text)?;
    match last {
        Some(before) if !before.is_before(pair) => Err(text.wrong()),
        _ => Ok(pair),
    }
}

// Refuses a list of edges that has not its form.
pub fn check_form(text: Text) -> Result<(), Fault>
    ensures { result ≡ formed (goes_on None (all_of edge_of (pieces text.entry.bytes.now))) text.entry.line }
{
    let mut last = None;
    for piece in Pieces::of(text) {
        last = Some(read_next(last, piece)?);
    }
    Ok(())
}
