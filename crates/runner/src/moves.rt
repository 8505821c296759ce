ghost use Rattle.std.specs.Prelude.{◌≡◌};
ghost use Rattle.lines.specs.Seen.{seen, gave};
ghost use Rattle.game.specs.State.{state};
ghost use Rattle.runner.specs.Runs.{leaving, chain, making, play_move, play_moves};

use game::Game;
use job::{MOST_MOVES, Move, read_count, read_move};
use lines::{Key, Reader, at_line};
use stories::Turn;
use terms::{Fault, Refusal};

// A move by whoever is to move.
fn make(game: &mut Game, next: Move) -> Result<(), Refusal>
    ensures { leaving result (state game.new) ≡ making (state game.old) next }
{
    match game.turn() {
        Turn::Ours => game.our_move(next.part, next.option),
        Turn::Theirs => game.their_reply(next.part, next.option),
        Turn::Over => Err(Refusal::GameOver),
    }
}

// Reads a line move= and makes the move.
fn play_move(reader: &mut Reader, game: &mut Game) -> Result<(), Fault>
    ensures { gave (leaving result (state game.new)) reader.new ≡ play_move (state game.old) (seen reader.old) }
{
    let next = read_move(reader)?;
    at_line(make(game, next), reader.last())
}

// So many moves; `seat_more` says why the two loops are two.
fn play_more(reader: &mut Reader, n: u16, game: &mut Game) -> Result<(), Fault>
    ensures { gave (leaving result (state game.new)) reader.new ≡ chain play_move n (state game.old) (seen reader.old) }
{
    for _ in 0..n {
        play_move(reader, game)?;
    }
    Ok(())
}

// The line moves= and the moves.
pub(crate) fn play_moves(reader: &mut Reader, game: &mut Game) -> Result<(), Fault>
    ensures { gave (leaving result (state game.new)) reader.new ≡ play_moves (state game.old) (seen reader.old) }
{
    let n = read_count(reader, Key::Moves, MOST_MOVES)?;
    play_more(reader, n, game)
}
