ghost use Rattle.std.specs.Prelude.{◌≡◌, ◌≤◌, map, length};
ghost use Rattle.terms.specs.Sides.{other};
ghost use Rattle.theory.specs.Trees.{Tree, Score};
ghost use Rattle.theory.specs.Stops.{cold};
ghost use Rattle.spreading.specs.Shapes.{row_limit, shapes_of, Sound, SoundRow};
ghost use Rattle.measures.specs.Figures.{best_of, stop_for, StopOf};

use crate::stops::Stops;
use spreading::{ROW_LIMIT, Shape};
use terms::Side;
use theory::SCORE_LIMIT;

// The best that the options leave to the mover, from the stops of the other side in them. That it is a
// score is said here and below: it becomes a part of `Stops`, which holds that fact, only with its twin.
fn best(options: &[Stops], mover: Side) -> i32
    ensures small { Score result }
    ensures best { result ≡ best_of (map (stop_for (other mover)) options.now) }
{
    options
        .iter()
        .map(|stops| -stops.of(mover.other()))
        .max()
        .unwrap_or(-(SCORE_LIMIT as i32))
}

// The stop of a row's position for the side, over the stops of its options.
fn stop_of(shape: Shape, side: Side, stops: &[Stops]) -> i32
    requires { SoundRow (length stops.now) shape }
    ensures small { Score result }
    ensures stop { StopOf shape side (map (stop_for (other side)) stops.now) result }
{
    match shape {
        Shape::Open(fork) => {
            let from = fork.start(side);
            best(&stops[from..from + fork.count(side)], side)
        }
        Shape::Ended(score) => side.own(score as i32),
        Shape::Unused => 0,
    }
}

// Whether some position of the tree whose rows these are is cold. Its pass is like that of `too_high`,
// where it is said why they are two.
pub fn any_cold(shapes: &[Shape]) -> bool
    requires few { length shapes.now ≤ row_limit }
    requires sound { Sound shapes.now }
    ensures { (t : Tree) → shapes.now ≡ shapes_of t → result ≡ cold t }
{
    // Nothing is allocated: room for the most rows.
    let mut stops = [Stops { left: 0, right: 0 }; ROW_LIMIT];
    for (i, shape) in shapes.iter().enumerate().rev() {
        let here = Stops {
            left: stop_of(*shape, Side::Left, &stops),
            right: stop_of(*shape, Side::Right, &stops),
        };
        if here.are_cold() {
            return true;
        }
        stops[i] = here;
    }
    false
}
