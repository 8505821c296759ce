ghost use Rattle.std.specs.Prelude.{◌≡◌, ℕ, List, Option};
ghost use Rattle.lines.specs.declared.key.Key.{Key as KeyOf};
ghost use Rattle.lines.specs.declared.key.Key.TheVariants as keys;
ghost use Rattle.lines.specs.Lines.{entry, form};
ghost use Rattle.lines.specs.Seen.{seen, gave};
ghost use Rattle.job.specs.Values.{side_of, first_of, kind_of};

use crate::kind::Kind;
use lines::{Key, Reader};
use terms::{Fault, Mover, Side};

// What one word says, on the line of its key.
pub trait Word {
    ghost KEY: { KeyOf };

    const KEY: Key;

    ghost said_by: { List ℕ → Option Self };

    // What a text says, if it is one of the words.
    fn said(text: &[u8]) -> Option<Self>
        ensures { result ≡ said_by text.now };
}

impl Word for Side {
    ghost KEY = { keys.Side };

    const KEY: Key = Key::Side;

    ghost said_by = { side_of };

    fn said(text: &[u8]) -> Option<Side> {
        match text {
            b"left" => Some(Side::Left),
            b"right" => Some(Side::Right),
            _ => None,
        }
    }
}

impl Word for Mover {
    ghost KEY = { keys.First };

    const KEY: Key = Key::First;

    ghost said_by = { first_of };

    fn said(text: &[u8]) -> Option<Mover> {
        match text {
            b"ours" => Some(Mover::Ours),
            b"theirs" => Some(Mover::Theirs),
            _ => None,
        }
    }
}

impl Word for Kind {
    ghost KEY = { keys.Rules };

    const KEY: Key = Key::Rules;

    ghost said_by = { kind_of };

    fn said(text: &[u8]) -> Option<Kind> {
        match text {
            b"tree" => Some(Kind::Tree),
            b"snort" => Some(Kind::Snort),
            _ => None,
        }
    }
}

// The line of a word: side=, first=, or rules=, with which a part begins.
pub fn read_word<W: Word>(reader: &mut Reader) -> Result<W, Fault>
    ensures { gave result reader.new ≡ entry W.KEY (form W.said_by) (seen reader.old) }
{
    let value = reader.value(W::KEY)?;
    W::said(value.bytes).ok_or(value.wrong())
}
