ghost use Rattle.std.specs.Prelude.{◌≡◌};
ghost use Rattle.std.specs.Iterator.{item_count};
ghost use Rattle.lines.specs.Commas.{pieces};
ghost use Rattle.lines.specs.Seen.{left, GivesPiece};

use crate::cuts::cut;
use numbers::Text;

// The pieces of a text between its commas, from the first on; each stands on the text's line.
#[derive(Drop)]
pub struct Pieces<'a> {
    rest: Option<&'a [u8]>,
    line: u32,
}

impl<'a> Pieces<'a> {
    // All of them.
    pub fn of(text: Text<'a>) -> Pieces<'a>
        ensures pieces { left result ≡ pieces text.entry.bytes.now }
        ensures line { result.line ≡ text.entry.line }
    {
        Pieces {
            rest: Some(text.bytes),
            line: text.line,
        }
    }
}

impl<'a> Iterator for Pieces<'a> {
    type Item = Text<'a>;

    ghost next_gives = { GivesPiece };

    ghost remaining = { item_count left };

    fn next(&mut self) -> Option<Text<'a>> {
        let rest = self.rest?;
        let line = self.line;
        let Some((bytes, more)) = cut(rest, b',') else {
            self.rest = None;
            return Some(Text { bytes: rest, line });
        };
        self.rest = Some(more);
        Some(Text { bytes, line })
    }
}
