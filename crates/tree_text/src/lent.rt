ghost use Rattle.std.specs.Prelude.{◌≡◌};
ghost use Rattle.trees.specs.Written.{TreesAsWritten};
ghost use Rattle.tree_text.specs.Seen.{Kept};
ghost use Rattle.tree_text.specs.Written.{Blank};

use trees::{BLANK_ROW, TreeRow, Trees};

// The rows and picks that a caller lends for the trees of a job.
// Calls that take it promise `Kept`: a `&mut` to a struct of `&mut` could bring other buffers back in it.
#[derive(Drop)]
pub struct Lent<'a> {
    pub rows: &'a mut [TreeRow],
    pub picks: &'a mut [u8],
}

impl<'a> Lent<'a> {
    // Makes both blank.
    pub fn clear(&mut self)
        ensures blank { Blank self.new.rows.now self.new.picks.now }
        ensures kept { Kept self.old self.new }
    {
        self.rows.fill(BLANK_ROW);
        self.picks.fill(0);
    }

    // The trees that stand in them.
    pub fn trees(&self) -> Trees<'_>
        ensures rows { result.rows.now ≡ self.now.rows.now }
        ensures picks { result.picks.now ≡ self.now.picks.now }
        ensures trees { TreesAsWritten self.now.rows.now self.now.picks.now }
    {
        Trees::new(self.rows, self.picks)
    }
}
