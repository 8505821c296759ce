ghost use Rattle.std.specs.Prelude.{◌≡◌, ℕ, ◌≤◌, length, nat_lt, slice_index};
ghost use Rattle.theory.specs.Limits.{greatest_height};
ghost use Rattle.theory.specs.Trees.{Tree, height as heightOf};
ghost use Rattle.spreading.specs.Shapes.{row_limit, shapes_of, end_of, Sound};
ghost use Rattle.measures.specs.Figures.{greatest, HeightOf};

use spreading::{ROW_LIMIT, Shape};
use terms::Side;
use theory::GREATEST_HEIGHT;

// The greatest of the heights, or 0 without any.
fn tallest(heights: &[u8]) -> u8
    ensures { result ≡ greatest heights.now }
{
    heights.iter().copied().max().unwrap_or(0)
}

// The height of a row's position, over those of its options.
fn height_of(shape: Shape, heights: &[u8]) -> u8
    requires inside { end_of shape ≤ length heights.now }
    requires low { (k : ℕ) → slice_index heights.now k ≤ greatest_height }
    ensures { HeightOf shape heights.now result }
{
    match shape {
        Shape::Open(fork) => 1 + tallest(&heights[fork.start(Side::Left)..fork.end()]),
        _ => 0,
    }
}

// Whether a tree of this height is higher than a tree may be.
fn over(height: u8) -> bool
    ensures { result ≡ nat_lt greatest_height height }
{
    height > GREATEST_HEIGHT
}

// Whether the tree whose rows these are is higher than a tree may be. `few` and `sound` stay
// clauses: a type for them would serve this question and `any_cold` alone. One pass for both would
// need a trait with a law for what each notes of a row, which is more than two short loops.
pub fn too_high(shapes: &[Shape]) -> bool
    requires few { length shapes.now ≤ row_limit }
    requires sound { Sound shapes.now }
    ensures { (t : Tree) → shapes.now ≡ shapes_of t → result ≡ nat_lt greatest_height (heightOf t) }
{
    // Nothing is allocated: room for the most rows.
    let mut heights = [0; ROW_LIMIT];
    for (i, shape) in shapes.iter().enumerate().rev() {
        let height = height_of(*shape, &heights);
        if over(height) {
            return true;
        }
        heights[i] = height;
    }
    false
}
