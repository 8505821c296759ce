ghost use Rattle.std.specs.Prelude.{◌≡◌, ◌-◌, ◌≤◌, length};
ghost use Rattle.lines.specs.Reading.{at as start_of, longest, fits, opened, on_line};
ghost use Rattle.lines.specs.Lines.{next, field};
ghost use Rattle.lines.specs.Seen.{seen, began, gave_line, gave_value};

use crate::cuts::cut;
use crate::key::{Key, Line};
use crate::reader::Reader;
use numbers::Text;
use terms::{Fault, Refusal};

// The longest job that is read.
const LONGEST: usize = 16384;

// Refuses a job that is too long.
pub fn check_length(job: &[u8]) -> Result<(), Fault>
    ensures { result ≡ fits job.now }
{
    if job.len() > LONGEST {
        return Err(Refusal::JobTooLong.at(0));
    }
    Ok(())
}

// What a call answered, with the line that met its refusal.
pub fn at_line<T>(answer: Result<T, Refusal>, line: u32) -> Result<T, Fault>
    ensures { result ≡ on_line answer line }
{
    answer.map_err(|refusal| refusal.at(line))
}

impl<'a> Reader<'a> {
    // A reader before the first line of a job, which is refused where it is too long.
    pub fn open(job: &'a [u8]) -> Result<Reader<'a>, Fault>
        ensures { began result ≡ opened job.now }
    {
        check_length(job)?;
        Ok(Reader::new(job))
    }

    // A reader before the first line of a job that is short enough.
    pub fn new(job: &'a [u8]) -> Reader<'a>
        requires { length job.now ≤ longest }
        ensures { seen result ≡ start_of job.now 1 }
    {
        Reader { rest: job, line: 1 }
    }

    // The number of the line that was read last; 0 before any.
    pub fn last(&self) -> u32
        ensures { result ≡ self.now.line - 1 }
    {
        self.line.saturating_sub(1)
    }

    // The next line.
    pub fn next_line(&mut self) -> Result<Line<'a>, Fault>
        ensures { gave_line result self.new ≡ next (seen self.old) }
    {
        let line = self.line;
        let wrong = Refusal::WrongLine.at(line);
        let (text, rest) = cut(self.rest, b'\n').ok_or(wrong)?;
        let (name, bytes) = cut(text, b'=').ok_or(wrong)?;
        let key = Key::named(name).ok_or(wrong)?;
        self.rest = rest;
        self.line = line + 1;
        Ok(Line::new(key, Text { bytes, line }))
    }

    // The value of the next line, which has this key.
    pub fn value(&mut self, key: Key) -> Result<Text<'a>, Fault>
        ensures { gave_value result self.new ≡ field key (seen self.old) }
    {
        let line = self.next_line()?;
        let value = line.value();
        if line.key() != key {
            return Err(Refusal::WrongLine.at(value.line));
        }
        Ok(value)
    }
}
