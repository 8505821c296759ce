ghost use Rattle.std.specs.Prelude.{◌≡◌, ◌≤◌, true, length, replicate, Some};
ghost use Rattle.theory.specs.Trees.{Tree};
ghost use Rattle.rules.specs.Meaning.{known_in};
ghost use Rattle.spreading.specs.Shapes.{row_limit, blank as blank_shape};
ghost use Rattle.thermographs.specs.Figures.{corner_limit, blank};
ghost use Rattle.bank.specs.Drafts.{DraftInto, FillInto};

use crate::columns::Extent;
use measures::{any_cold, too_high};
use rules::RuleSet;
use spreading::{Shape, spread, wipe};
use terms::Refusal;
use thermographs::{BLANK, Figures, figure_rows};

// Makes rows and corners blank. Here and below they go one by one: a struct of the three, lent from the
// bank's columns, gets no proof.
pub fn erase(shapes: &mut [Shape], figures: &mut [Figures], corners: &mut [u32])
    ensures shapes { shapes.new ≡ replicate (length shapes.old) blank_shape }
    ensures figures { figures.new ≡ replicate (length figures.old) blank }
    ensures corners { corners.new ≡ replicate (length corners.old) 0 }
{
    wipe(shapes);
    figures.fill(BLANK);
    corners.fill(0);
}

// Writes the part of a known code into the free rows and corners, or says why it has no place
// there. Each pass looks for one cause, so their order is that of the causes. A rule set and a code are
// what a question is asked with, and a struct of the two would be taken apart at each question.
fn draft<R: RuleSet>(
    rules: &R,
    code: u32,
    shapes: &mut [Shape],
    figures: &mut [Figures],
    corners: &mut [u32],
) -> Result<Extent, Refusal>
    requires known { known_in (R.tree rules.now code) ≡ true }
    requires rows { (length shapes.old ≤ row_limit) × (length shapes.old ≤ length figures.old) }
    requires corners { length corners.old ≤ corner_limit }
    ensures { (t : Tree) → R.tree rules.now code ≡ Some t → DraftInto t shapes.old figures.old corners.old result shapes.new figures.new corners.new }
{
    let rows = spread(rules, code, shapes).ok_or(Refusal::RowsFull)?;
    if too_high(&shapes[..rows]) {
        return Err(Refusal::TooHigh);
    }
    if any_cold(&shapes[..rows]) {
        return Err(Refusal::ColdPosition);
    }
    let turns = figure_rows(&shapes[..rows], figures, corners, 0).ok_or(Refusal::CornersFull)?;
    Ok(Extent {
        rows: rows as u16,
        turns: turns as u16,
    })
}

// The same; where the part has no place, the free rows and corners are blank again.
pub fn fill<R: RuleSet>(
    rules: &R,
    code: u32,
    shapes: &mut [Shape],
    figures: &mut [Figures],
    corners: &mut [u32],
) -> Result<Extent, Refusal>
    requires known { known_in (R.tree rules.now code) ≡ true }
    requires rows { (length shapes.old ≤ row_limit) × (length shapes.old ≤ length figures.old) }
    requires corners { length corners.old ≤ corner_limit }
    ensures { (t : Tree) → R.tree rules.now code ≡ Some t → FillInto t shapes.old figures.old corners.old result shapes.new figures.new corners.new }
{
    let drafted = draft(rules, code, shapes, figures, corners);
    if drafted.is_err() {
        erase(shapes, figures, corners);
    }
    drafted
}
