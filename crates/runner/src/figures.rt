ghost use Rattle.std.specs.Prelude.{◌≡◌, map, length, take};
ghost use Rattle.theory.specs.Trees.{at};
ghost use Rattle.game.specs.State.{state};
ghost use Rattle.sheet.specs.Sheets.{part_lines, SaysAdvice, Sheets};
ghost use Rattle.runner.specs.Pages.{lines_in};

use encoding::PART_LIMIT;
use game::Game;
use sheet::{PartLines, Sheet};
use std::array;

// What a sheet says of a part as it stands; 0 and no heat where there is no such part.
fn lines_of(game: &Game, part: u8) -> PartLines
    ensures { result ≡ lines_in (at (state game.now).parts part) }
{
    PartLines {
        mean: game.mean(part),
        heat: game.heat(part),
    }
}

// What it says of all parts.
fn parts_of(game: &Game) -> [PartLines; PART_LIMIT]
    ensures { take (length (state game.now).parts) result ≡ map part_lines (state game.now).parts }
{
    array::from_fn(|part| lines_of(game, part as u8))
}

// The advice at our turn, and else none.
fn advice_of(game: &Game) -> Option<(u8, u8)>
    ensures { SaysAdvice (state game.now) result }
{
    game.advice().ok()
}

// The sheet of a game.
pub fn sheet_of(game: &Game) -> Sheet
    ensures { Sheets (state game.now) result }
{
    let (low, high) = game.bracket();
    Sheet {
        side: game.side(),
        turn: game.turn(),
        count: game.parts(),
        parts: parts_of(game),
        ambient: game.ambient(),
        floor: game.floor(),
        low,
        high,
        advice: advice_of(game),
    }
}
