ghost use Rattle.std.specs.Prelude.{◌≡◌};
ghost use Rattle.map_text.specs.Held.{points_held};

use numbers::Text;
use terms::{Fault, Refusal};

// The number of points that a text writes, before it is known whether a map may have so many.
// An integer below 0 has its form, and is no number of points.
pub fn read_points(text: Text) -> Result<u32, Fault>
    ensures { result ≡ points_held text.entry.bytes.now text.entry.line }
{
    let Some(size) = text.bytes.strip_prefix(b"-") else {
        return text.natural();
    };
    if text.part(size).natural()? == 0 {
        return Err(text.wrong());
    }
    Err(Refusal::WrongPoints.at(text.line))
}
