ghost use Rattle.std.specs.Prelude.{◌≡◌, List, [], Option as Maybe};
ghost use Rattle.theory.specs.Trees.{Tree};
ghost use Rattle.stories.specs.Game.{opening};
ghost use Rattle.stories.specs.Promise.{Promise};
ghost use Rattle.stories.specs.Seatings.{seated};
ghost use Rattle.stories.specs.Stories.{Meant, opens};
ghost use Rattle.bank.specs.Contents.{trees};
ghost use Rattle.game.specs.State.{state, Stands};

use crate::game::Game;
use crate::present::Present;
use bank::Bank;
use encoding::PART_LIMIT;
use play::Play;
use terms::{Mover, Side};

impl<'b> Game<'b> {
    // A game of all parts of the bank, each as it was seated.
    pub fn open(bank: &'b Bank, side: Side, first: Mover) -> Game<'b>
        ensures state { state result ≡ opening (trees bank.now) side first }
        ensures bank { result.bank.now ≡ bank.now }
        ensures story { (ms : List (Maybe Tree)) (l : Meant ms) → seated [] ms ≡ trees bank.now → Stands (opens ms l side first) result }
        ensures promise { Promise }
    {
        let present = Present {
            bank,
            rows: [0; PART_LIMIT],
        };
        let hottest = present.greatest_heat();
        Game {
            bank,
            side,
            play: Play::open(first, hottest),
        }
    }
}
