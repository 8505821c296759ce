ghost use Rattle.std.specs.Prelude.{◌≡◌};
ghost use Rattle.stories.specs.Calls.{move, reply};
ghost use Rattle.stories.specs.Game.{step, our_pick, their_pick};
ghost use Rattle.stories.specs.Stories.{Story};
ghost use Rattle.play.specs.Record.{done};
ghost use Rattle.game.specs.State.{state, Stands, after_call, Kept};

use crate::game::Game;
use terms::Refusal;

impl Game<'_> {
    // Our move: the option in the part. It and their reply are two lines each, over the landing and
    // the play that they share.
    pub fn our_move(&mut self, part: u8, option: u8) -> Result<(), Refusal>
        ensures state { state self.new ≡ step (state self.old) (move part option) }
        ensures answer { result ≡ done (our_pick (state self.old) part option) }
        ensures bank { self.new.bank.now ≡ self.old.bank.now }
        ensures kept { Kept self.old self.new result }
        ensures story { (st : Story) → Stands st self.old → Stands (after_call st (move part option)) self.new }
    {
        let landing = self.present().landing(self.side, part, option);
        self.play.our_move(landing)
    }

    // Their reply: the option in the part.
    pub fn their_reply(&mut self, part: u8, option: u8) -> Result<(), Refusal>
        ensures state { state self.new ≡ step (state self.old) (reply part option) }
        ensures answer { result ≡ done (their_pick (state self.old) part option) }
        ensures bank { self.new.bank.now ≡ self.old.bank.now }
        ensures kept { Kept self.old self.new result }
        ensures story { (st : Story) → Stands st self.old → Stands (after_call st (reply part option)) self.new }
    {
        let landing = self.present().landing(self.side.other(), part, option);
        self.play.their_reply(landing)
    }
}
