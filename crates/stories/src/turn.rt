ghost use Rattle.std.specs.Prelude.{◌≡◌};
ghost use Rattle.stories.specs.Game.{turn_of};

use terms::Mover;

// Whose turn it is: exactly when no part is open the game is over.
#[derive(Clone, Copy, PartialEq, Eq, Debug)]
pub enum Turn {
    Ours,
    Theirs,
    Over,
}

// Who moves, before anyone has.
impl From<Mover> for Turn {
    ghost from_gives = { λ first turn. turn ≡ turn_of first };

    fn from(first: Mover) -> Turn {
        match first {
            Mover::Ours => Turn::Ours,
            Mover::Theirs => Turn::Theirs,
        }
    }
}
