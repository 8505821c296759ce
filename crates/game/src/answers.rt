ghost use Rattle.std.specs.Prelude.{◌≡◌, length};
ghost use Rattle.theory.specs.Trees.{at};
ghost use Rattle.stories.specs.Game.{floor_of, bracket_of, AdviceIs};
ghost use Rattle.stories.specs.Promise.{Promised, SureFloor, SureBracket};
ghost use Rattle.stories.specs.Stories.{Story, game_after};
ghost use Rattle.game.specs.State.{state, mean_in, tree_heat, Stands, gain_of, PendingGains, parts_now, view_now};

use crate::game::Game;
use crate::present::Present;
use crate::view::View;
use stories::Turn;
use terms::{Refusal, Side};

impl<'b> Game<'b> {
    // Our side.
    pub fn side(&self) -> Side
        ensures { result ≡ (state self.now).side }
    {
        self.side
    }

    // Whose turn it is, or that the game is over.
    pub fn turn(&self) -> Turn
        ensures { result ≡ (state self.now).turn }
    {
        self.play.turn
    }

    // The ambient, in units.
    pub fn ambient(&self) -> u32
        ensures { result ≡ (state self.now).ambient }
    {
        self.play.ambient
    }

    // How many parts there are.
    pub fn parts(&self) -> u8
        ensures { result ≡ length (state self.now).parts }
    {
        self.bank.parts()
    }

    // The parts as they stand.
    pub(crate) fn present(&self) -> Present<'b>
        ensures { result ≡ parts_now self.now }
    {
        Present {
            bank: self.bank,
            rows: self.play.rows,
        }
    }

    // How we see positions now.
    fn view(&self) -> View
        ensures { result ≡ view_now self.now }
    {
        View {
            side: self.side,
            t: self.play.ambient,
        }
    }

    // The mean of a part as it stands, in units; 0 where there is no such part.
    pub fn mean(&self, part: u8) -> i32
        ensures { result ≡ mean_in (at (state self.now).parts part) }
    {
        self.present().mean(part as usize)
    }

    // The temperature of a part as it stands, in units; none where it has ended or there is no such
    // part.
    pub fn heat(&self, part: u8) -> Option<u32>
        ensures { result ≡ tree_heat (at (state self.now).parts part) }
    {
        self.present().heat(part as usize)
    }

    // What the far wall of a part has above its near wall, at the ambient.
    fn gain_in(&self, part: u8) -> i32
        ensures { result ≡ gain_of (state self.now) part }
    {
        self.present().gain(part as usize, self.view())
    }

    // The same of the pending part; 0 without any. (Tried with `map_or`: the proof didn't close, as it
    // learns nothing of the closure here.)
    fn gain(&self) -> i32
        ensures { PendingGains (state self.now) result }
    {
        match self.play.pending {
            Some(part) => self.gain_in(part),
            None => 0,
        }
    }

    // What we are sure of while we move as advised, for our side, in units.
    pub fn floor(&self) -> i64
        ensures answer { result ≡ floor_of (state self.now) }
        ensures promise { (st : Story) → Stands st self.now → SureFloor st result }
    {
        let nears = self.present().nears(self.view());
        let parts = self.bank.parts() as usize;
        self.play.floor(&nears[..parts], self.gain())
    }

    // Between what best play lies, for Left, in units: the low and the high.
    pub fn bracket(&self) -> (i64, i64)
        ensures answer { (result.0, result.1) ≡ bracket_of (state self.now) }
        ensures promise { (st : Story) → Stands st self.now → SureBracket st (result.0, result.1) }
    {
        let present = self.present();
        let means = present.means();
        let parts = self.bank.parts() as usize;
        let hottest = present.greatest_heat();
        self.play.bracket(self.side, &means[..parts], hottest)
    }

    // The move to make at our turn: a part, and an option there.
    pub fn advice(&self) -> Result<(u8, u8), Refusal>
        ensures answer { AdviceIs (state self.now) result }
        ensures promise { (st : Story) → Stands st self.now → Promised st × AdviceIs (game_after st) result }
    {
        let present = self.present();
        let part = self.play.advised_part(present.hottest())?;
        let at = present.here(part).unwrap();
        Ok((part as u8, self.view().best(at)))
    }
}
