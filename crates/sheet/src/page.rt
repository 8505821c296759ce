use arrayvec::ArrayVec;

// The most bytes of a sheet.
const SIZE: usize = 400;

// A text that grows at its end. It needs no heap, since the bytes of a sheet have a limit.
#[derive(Drop)]
pub struct Page {
    text: ArrayVec<u8, SIZE>,
}

impl Page {
    ghost use Rattle.std.specs.Prelude.{◌≡◌, []};
    ghost use Rattle.sheet.specs.Page.{said, Room, Adds};

    pub fn new() -> Page
        ensures { said result ≡ [] }
    {
        Page {
            text: ArrayVec::new(),
        }
    }

    pub fn text(&self) -> &[u8]
        ensures { result.now ≡ said self.now }
    {
        self.text.as_slice()
    }

    // `Room` relates a page to the text that a call puts, so no type holds it.
    pub fn put(&mut self, text: &[u8])
        requires { Room text.now self.old }
        ensures { Adds text.now self.old self.new }
    {
        self.text.try_extend_from_slice(text).unwrap();
    }
}
