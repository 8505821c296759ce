ghost use Rattle.std.specs.Prelude.{◌≡◌, ℕ, ◌≤◌, length};
ghost use Rattle.theory.specs.Trees.{Tree, Forest, ended, branch, Score};
ghost use Rattle.theory.specs.Fair.{Fair};
ghost use Rattle.spreading.specs.Shapes.{shapes_of, end_of};
ghost use Rattle.thermographs.specs.Figures.{corner_limit, figures_of, FigureInto};
ghost use Rattle.thermographs.specs.Rows.{OpenReady, Ready, RowInto};
ghost use Rattle.thermographs.specs.Strips.{told as told_of};

use crate::figures::{Figures, Wall};
use crate::strip::Strip;
use crate::sweep::meet;
use spreading::Shape;
use terms::Side;
use theory::UNIT;

// The figures of an ended position: both walls are straight masts over its score. The score is a plain
// number in its row, so that its range is said here.
fn ended_row(score: i16, strip: &Strip<'_>) -> Figures
    requires { Score score }
    ensures { result ≡ figures_of strip.now.used (ended score) }
{
    let value = UNIT * score as i32;
    let wall = Wall {
        start: value,
        begin: strip.used as u16,
        count: 0,
    };
    Figures {
        mean: value,
        temperature: 0,
        left: wall,
        right: wall,
    }
}

// The figures of an open position from those of its options. Its corners are written behind those of
// the strip, the left wall's first; none where there is no room for them.
fn open_row(lefts: &[Figures], rights: &[Figures], strip: &mut Strip<'_>) -> Option<Figures>
    requires { (L : Forest) × (R : Forest) × OpenReady (told_of strip.old) lefts.now rights.now L R }
    ensures same_reference { strip.new.places.ghost_name ≡ strip.old.places.ghost_name }
    ensures row { (L R : Forest) → OpenReady (told_of strip.old) lefts.now rights.now L R → RowInto (branch L R) strip.old result strip.new }
{
    let meeting = meet(lefts, rights, strip.told());
    let heat = meeting.temperature;
    let left = strip.draw(lefts, Side::Left, meeting.left, heat)?;
    let right = strip.draw(rights, Side::Right, meeting.right, heat)?;
    Some(Figures {
        mean: meeting.mean,
        temperature: heat,
        left,
        right,
    })
}

// The figures of a row that is used from those of its options, which stand behind it.
fn figure_row(shape: Shape, figures: &[Figures], strip: &mut Strip<'_>) -> Option<Figures>
    requires inside { end_of shape ≤ length figures.now }
    requires ready { (f : ℕ) × (x : Tree) × Ready (told_of strip.old) figures.now shape f x }
    ensures same_reference { strip.new.places.ghost_name ≡ strip.old.places.ghost_name }
    ensures row { (f : ℕ) (x : Tree) → Ready (told_of strip.old) figures.now shape f x → RowInto x strip.old result strip.new }
{
    match shape {
        Shape::Open(fork) => {
            let mid = fork.start(Side::Right);
            let lefts = &figures[fork.start(Side::Left)..mid];
            open_row(lefts, &figures[mid..fork.end()], strip)
        }
        Shape::Ended(score) => Some(ended_row(score, strip)),
        Shape::Unused => unreachable!(),
    }
}

// The figures of all rows of a tree, from the last to the first, with their corners behind the used
// ones. Answers how many corners are used then, or none where the tree has more than are free.
pub fn figure_rows(
    shapes: &[Shape],
    figures: &mut [Figures],
    corners: &mut [u32],
    used: usize,
) -> Option<usize>
    requires seated { (t : Tree) × Fair t × (shapes.now ≡ shapes_of t) }
    requires rows { length shapes.now ≤ length figures.old }
    requires room { (used ≤ length corners.old) × (length corners.old ≤ corner_limit) }
    ensures { (t : Tree) → Fair t → shapes.now ≡ shapes_of t → FigureInto t used figures.old corners.old result figures.new corners.new }
{
    let mut strip = Strip::new(corners, used);
    for (i, shape) in shapes.iter().enumerate().rev() {
        figures[i] = figure_row(*shape, figures, &mut strip)?;
    }
    Some(strip.used)
}
