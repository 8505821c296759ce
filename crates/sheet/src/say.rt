ghost use Rattle.std.specs.Prelude.{◌≡◌, ℕ, List};
ghost use Rattle.numbers.specs.Numbers.{written, decimal};
ghost use Rattle.sheet.specs.Page.{line as line_of, Room, Adds};
ghost use Rattle.sheet.specs.Sheet.{side_text, turn_text, heat_text, advice_text};

use crate::page::Page;
use stories::Turn;
use terms::Side;

// What a page can say. `Display` may fail, as far as its contract goes, and this never does.
pub trait Say: Drop {
    ghost text: { Self → List ℕ };

    fn say(self, page: &mut Page)
        requires { Room (text self) page.old }
        ensures { Adds (text self) page.old page.new };
}

impl Say for &str {
    ghost text = { λ text. text.now };

    fn say(self, page: &mut Page) {
        page.put(self.as_bytes());
    }
}

// The digits, the highest first.
impl Say for u64 {
    ghost text = { written };

    fn say(self, page: &mut Page) {
        if self >= 10 {
            (self / 10).say(page);
        }
        page.put(&[b'0' + (self % 10) as u8]);
    }
}

impl Say for i64 {
    ghost text = { decimal };

    fn say(self, page: &mut Page) {
        if self < 0 {
            page.put(b"-");
        }
        self.unsigned_abs().say(page);
    }
}

impl Say for Side {
    ghost text = { side_text };

    fn say(self, page: &mut Page) {
        self.pick("left", "right").say(page);
    }
}

impl Say for Turn {
    ghost text = { turn_text };

    fn say(self, page: &mut Page) {
        match self {
            Turn::Ours => "ours".say(page),
            Turn::Theirs => "theirs".say(page),
            Turn::Over => "over".say(page),
        }
    }
}

// A temperature, or that a part has ended.
impl Say for Option<u32> {
    ghost text = { heat_text };

    fn say(self, page: &mut Page) {
        match self {
            Some(t) => u64::from(t).say(page),
            None => "ended".say(page),
        }
    }
}

// A part and an option, or that there is no advice.
impl Say for Option<(u8, u8)> {
    ghost text = { advice_text };

    fn say(self, page: &mut Page) {
        match self {
            Some((part, option)) => {
                u64::from(part).say(page);
                ",".say(page);
                u64::from(option).say(page);
            }
            None => "none".say(page),
        }
    }
}

// A line: its key with the =, and its value.
pub fn put_line<V: Say>(page: &mut Page, key: &str, value: V)
    requires { Room (line_of key.now (V.text value)) page.old }
    ensures { Adds (line_of key.now (V.text value)) page.old page.new }
{
    key.say(page);
    value.say(page);
    page.put(b"\n");
}
