ghost use Rattle.std.specs.Prelude.{◌≡◌};
ghost use Rattle.theory.specs.Walls.{mean as mean_of};
ghost use Rattle.bank.specs.Positions.{position_of};
ghost use Rattle.play.specs.Standing.{heat_of};
ghost use Rattle.game.specs.Options.{OptionIs};

use bank::Position;
use spreading::Shape;
use terms::Side;

// The temperature of a position; none where it has ended.
pub(crate) fn heat(at: Position<'_>) -> Option<u32>
    ensures { result ≡ heat_of (position_of at.entry) }
{
    match at.shape() {
        Shape::Open(_) => Some(at.figures().temperature),
        _ => None,
    }
}

// Its mean.
pub(crate) fn mean(at: Position<'_>) -> i32
    ensures { result ≡ mean_of (position_of at.entry) }
{
    at.figures().mean
}

// The position to which the side's option leads; none where there is no such option.
pub(crate) fn option<'b>(at: Position<'b>, side: Side, option: usize) -> Option<Position<'b>>
    ensures { OptionIs at.entry side option result }
{
    let shape = at.shape();
    if option >= shape.count(side) {
        return None;
    }
    Some(at.at((shape.start(side) + option) as u16))
}
