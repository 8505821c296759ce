ghost use Rattle.std.specs.Prelude.{◌≡◌};
ghost use Rattle.terms.specs.declared.fault.Refusal.TheVariants as refusals;
ghost use Rattle.terms.specs.Refusals.{fault};
ghost use Rattle.numbers.specs.Numbers.{natural as natural_of, capped, upto as upto_of, within as within_of, judged};

use terms::{Fault, Refusal};

// A part of a job's bytes, and the line that it stands on.
#[derive(Clone, Copy)]
pub struct Text<'a> {
    pub bytes: &'a [u8],
    pub line: u32,
}

// The number that bytes write; one that does not fit is read as the greatest that does.
// No `parse`: it refuses what does not fit, and takes leading zeros and a plus.
fn value_of(bytes: &[u8]) -> Option<u32>
    ensures { result ≡ capped (natural_of bytes.now) }
{
    if bytes.is_empty() || bytes.len() > 1 && bytes[0] == b'0' {
        return None;
    }
    let mut n: u32 = 0;
    for b in bytes {
        if !b.is_ascii_digit() {
            return None;
        }
        n = n.saturating_mul(10).saturating_add(u32::from(*b - b'0'));
    }
    Some(n)
}

impl<'a> Text<'a> {
    // A part of the bytes, on the same line.
    pub fn part(self, bytes: &'a [u8]) -> Text<'a>
        ensures bytes { result.bytes.now ≡ bytes.now }
        ensures line { result.line ≡ self.entry.line }
    {
        Text { bytes, ..self }
    }

    // The refusal of a value that has not its form.
    pub fn wrong(self) -> Fault
        ensures { result ≡ fault Refusal.WrongForm self.entry.line }
    {
        Refusal::WrongForm.at(self.line)
    }

    // The number that it writes, of any number of digits.
    pub fn natural(self) -> Result<u32, Fault>
        ensures { result ≡ judged (capped (natural_of self.entry.bytes.now)) self.entry.line }
    {
        value_of(self.bytes).ok_or(self.wrong())
    }

    // The number that it writes, which is at most `most`.
    pub fn upto(self, most: u16) -> Result<u16, Fault>
        ensures { result ≡ judged (upto_of most self.entry.bytes.now) self.entry.line }
    {
        let n = self.natural()?;
        if n > u32::from(most) {
            return Err(self.wrong());
        }
        Ok(n as u16)
    }

    // The integer that it writes, of which the size is at most `most`.
    // A minus stands only before a number that is not 0.
    pub fn within(self, most: u16) -> Result<i32, Fault>
        ensures { result ≡ judged (within_of most self.entry.bytes.now) self.entry.line }
    {
        let Some(size) = self.bytes.strip_prefix(b"-") else {
            return self.upto(most).map(i32::from);
        };
        let n = self.part(size).upto(most)?;
        if n == 0 {
            return Err(self.wrong());
        }
        Ok(-i32::from(n))
    }
}
