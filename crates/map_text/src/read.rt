ghost use Rattle.std.specs.Prelude.{◌≡◌, List, [], ◌∷◌, Some};
ghost use Rattle.lines.specs.Commas.{pieces, all_of};
ghost use Rattle.lines.specs.Seen.{seen};
ghost use Rattle.map_text.specs.Maps.{Edge, edge_of, points_of, edges_of, read_map};
ghost use Rattle.map_text.specs.Shows.{ReadAs, Blank, Joined, Edged};

use crate::edges::check_form;
use crate::pair::Pair;
use crate::points::read_points;
use lines::{Key, Pieces, Reader, at_line};
use numbers::Text;
use snort::Snort;
use terms::Fault;

// A map of as many points as the text says, and no edges.
fn blank_map(text: Text) -> Result<Snort, Fault>
    ensures { Blank result (points_of text.entry.bytes.now text.entry.line) }
{
    let points = read_points(text)?;
    at_line(Snort::new(points), text.line)
}

// Adds an edge that has its form.
fn join_edge(map: &mut Snort, text: Text) -> Result<(), Fault>
    ensures { (e : Edge) → edge_of text.entry.bytes.now ≡ Some e → Joined (e ∷ []) text.entry.line map.old map.new result }
{
    let pair = Pair::read(text)?;
    let from = pair.from.natural()?;
    let to = pair.to.natural()?;
    at_line(map.join(from, to), text.line)
}

// Adds the edges of a list that has its form.
fn join_edges(map: &mut Snort, text: Text) -> Result<(), Fault>
    ensures { (es : List Edge) → all_of edge_of (pieces text.entry.bytes.now) ≡ Some es → Joined es text.entry.line map.old map.new result }
{
    for piece in Pieces::of(text) {
        join_edge(map, piece)?;
    }
    Ok(())
}

// Adds the edges that a text says: its form comes before what its edges mean.
fn read_edges(map: &mut Snort, text: Text) -> Result<(), Fault>
    ensures { Edged result map.old map.new (edges_of map.old.points text.entry.bytes.now text.entry.line) }
{
    if text.bytes == b"none".as_slice() {
        return Ok(());
    }
    check_form(text)?;
    join_edges(map, text)
}

// The map of a Snort part, from its two lines.
pub fn read_map(reader: &mut Reader) -> Result<Snort, Fault>
    ensures { ReadAs result reader.new (read_map (seen reader.old)) }
{
    let points = reader.value(Key::Points)?;
    let mut map = blank_map(points)?;
    let edges = reader.value(Key::Edges)?;
    read_edges(&mut map, edges)?;
    Ok(map)
}
