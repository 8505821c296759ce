ghost use Rattle.std.specs.Prelude.{◌≡◌, length};
ghost use Rattle.tree_text.specs.Seen.{Kept, lent_rows, lent_room};
ghost use Rattle.lines.specs.Reading.{times};
ghost use Rattle.lines.specs.Seen.{seen, gave};
ghost use Rattle.job.specs.Account.{counted, passed};
ghost use Rattle.job.specs.Reads.{body_lines, part_lines, parts_lines};

use crate::kind::Kind;
use crate::moves::read_count;
use crate::word::read_word;
use lines::{Key, Reader};
use map_text::read_map;
use terms::Fault;
use tree_text::{Lent, read_tree};

// The most parts of a job.
pub const MOST_PARTS: u16 = 8;

// The lines of a part after its line rules=.
fn pass_body(reader: &mut Reader, kind: Kind, lent: &mut Lent) -> Result<(), Fault>
    ensures lines { gave result reader.new ≡ passed (body_lines (lent_rows lent.old) (lent_room lent.old) kind) (seen reader.old) }
    ensures kept { Kept lent.old lent.new }
{
    match kind {
        Kind::Tree => read_tree(reader, lent),
        Kind::Snort => read_map(reader).map(|_| ()),
    }
}

// The lines of a part, with the buffers that a tree is read into.
pub fn pass_part(reader: &mut Reader, lent: &mut Lent) -> Result<(), Fault>
    ensures lines { gave result reader.new ≡ passed (part_lines (lent_rows lent.old) (lent_room lent.old)) (seen reader.old) }
    ensures kept { Kept lent.old lent.new }
{
    let kind = read_word(reader)?;
    pass_body(reader, kind, lent)
}

// So many parts. A loop for moves and parts alike would take a closure that lends the buffers on, and
// say of it all that is said here: it is no plainer.
fn pass_parts(reader: &mut Reader, n: u16, lent: &mut Lent) -> Result<(), Fault>
    ensures lines { gave result reader.new ≡ passed (times n (part_lines (lent_rows lent.old) (lent_room lent.old))) (seen reader.old) }
    ensures kept { Kept lent.old lent.new }
{
    for _ in 0..n {
        pass_part(reader, lent)?;
    }
    Ok(())
}

// The line parts= and the parts, of which only the number is kept.
pub fn count_parts(reader: &mut Reader, lent: &mut Lent) -> Result<u16, Fault>
    ensures lines { gave result reader.new ≡ counted length (parts_lines (lent_rows lent.old) (lent_room lent.old)) (seen reader.old) }
    ensures kept { Kept lent.old lent.new }
{
    let n = read_count(reader, Key::Parts, MOST_PARTS)?;
    pass_parts(reader, n, lent)?;
    Ok(n)
}
