ghost use Rattle.std.specs.Prelude.{◌≡◌, ◌≤◌, length};
ghost use Rattle.sheet.specs.Page.{page_size, said, Room, Adds};
ghost use Rattle.sheet.specs.Fitting.{Fitting};
ghost use Rattle.sheet.specs.Sheet.{head_text, part_text, parts_text, foot_text, sheet_text, answer, written_over};

use crate::page::Page;
use crate::say::put_line;
use crate::values::{PartLines, Sheet};
use terms::{Fault, Refusal};

// The lines before the parts.
fn put_head(page: &mut Page, sheet: &Sheet)
    requires { Room (head_text sheet.now) page.old }
    ensures { Adds (head_text sheet.now) page.old page.new }
{
    put_line(page, "sheet=", "1");
    put_line(page, "side=", sheet.side);
    put_line(page, "turn=", sheet.turn);
    put_line(page, "parts=", u64::from(sheet.count));
}

// The three lines of a part.
fn put_part(page: &mut Page, number: usize, part: PartLines)
    requires { Room (part_text number part) page.old }
    ensures { Adds (part_text number part) page.old page.new }
{
    put_line(page, "part=", number as u64);
    put_line(page, "mean=", i64::from(part.mean));
    put_line(page, "heat=", part.heat);
}

fn put_parts(page: &mut Page, parts: &[PartLines])
    requires { Room (parts_text 0 parts.now) page.old }
    ensures { Adds (parts_text 0 parts.now) page.old page.new }
{
    for (i, part) in parts.iter().enumerate() {
        put_part(page, i, *part);
    }
}

// The lines after the parts.
fn put_foot(page: &mut Page, sheet: &Sheet)
    requires { Room (foot_text sheet.now) page.old }
    ensures { Adds (foot_text sheet.now) page.old page.new }
{
    put_line(page, "ambient=", u64::from(sheet.ambient));
    put_line(page, "floor=", sheet.floor);
    put_line(page, "low=", sheet.low);
    put_line(page, "high=", sheet.high);
    put_line(page, "advice=", sheet.advice);
}

// The sheet's text, on a page of its own.
fn page_of(sheet: &Sheet) -> Page
    requires { Fitting sheet.now }
    ensures text { said result ≡ sheet_text sheet.now }
    ensures short { length (sheet_text sheet.now) ≤ page_size }
{
    let mut page = Page::new();
    put_head(&mut page, sheet);
    put_parts(&mut page, &sheet.parts[..sheet.count as usize]);
    put_foot(&mut page, sheet);
    page
}

// Writes the sheet at the start of `out`; where it does not fit, `out` stays as it was.
pub fn write(sheet: &Sheet, out: &mut [u8]) -> Result<usize, Fault>
    requires { Fitting sheet.now }
    ensures answer { result ≡ answer (sheet_text sheet.now) out.old }
    ensures output { out.new ≡ written_over (sheet_text sheet.now) out.old }
    ensures short { length (sheet_text sheet.now) ≤ page_size }
{
    let page = page_of(sheet);
    let text = page.text();
    let n = text.len();
    if out.len() < n {
        return Err(Refusal::OutputTooShort.at(0));
    }
    out[..n].copy_from_slice(text);
    Ok(n)
}
