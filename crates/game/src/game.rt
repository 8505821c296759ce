ghost use Rattle.std.specs.Prelude.{◌≤◌, length};
ghost use Rattle.bank.specs.Contents.{trees};
ghost use Rattle.game.specs.Rows.{OnRows, Storied};

use bank::Bank;
use play::Play;
use terms::Side;

// A game on a bank, which cannot change meanwhile: our side, and the play as it stands. Each part
// has a present row, which is one of its rows, and some story led here.
#[derive(Drop)]
pub struct Game<'b> {
    pub(crate) bank: &'b Bank,
    pub(crate) side: Side,
    pub(crate) play: Play,
    ghost enough: { length (trees bank.now) ≤ length play.rows },
    ghost on_rows: { OnRows (trees bank.now) play.rows },
    ghost told: { Storied (trees bank.now) side play },
}
