ghost use Rattle.std.specs.Prelude.{◌≡◌};
ghost use Rattle.lines.specs.Reading.{cut as split_at};
ghost use Rattle.lines.specs.Seen.{two};

// The parts of a text before and after its first `b`.
pub fn cut(text: &[u8], b: u8) -> Option<(&[u8], &[u8])>
    ensures { two result ≡ split_at b text.now }
{
    let n = text.iter().position(|x| *x == b)?;
    Some((&text[..n], &text[n + 1..]))
}
