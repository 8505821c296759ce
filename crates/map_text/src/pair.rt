ghost use Rattle.std.specs.Prelude.{◌≡◌, true, is_some, Some};
ghost use Rattle.map_text.specs.Maps.{ends};

use numbers::Text;

// The texts of the two numbers of an edge: they may have any number of digits.
#[derive(Clone, Copy)]
pub struct Pair<'a> {
    pub from: Text<'a>,
    pub to: Text<'a>,
    ghost says_edge: { is_some (ends (Some (from.bytes.now, to.bytes.now))) ≡ true },
}
