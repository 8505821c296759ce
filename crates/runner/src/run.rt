ghost use Rattle.std.specs.Prelude.{◌≡◌, ℕ, min, length, take, Ok};
ghost use Rattle.stories.specs.Game.{opening};
ghost use Rattle.bank.specs.Contents.{trees};
ghost use Rattle.trees.specs.Written.{pick_limit};
ghost use Rattle.tree_text.specs.Seen.{Kept, lent_rows, lent_room};
ghost use Rattle.tree_text.specs.Written.{Blank};
ghost use Rattle.lines.specs.Seen.{seen};
ghost use Rattle.runner.specs.Runs.{play_moves, run_lines, run_job};
ghost use Rattle.runner.specs.Law.{RunExact};
ghost use Rattle.runner.specs.Pages.{Sheeted, Lined, Ended, HoldsThen, Ran, trees_after, Page};

use crate::figures::sheet_of;
use crate::moves::play_moves;
use crate::parts::seat_parts;
use bank::Bank;
use game::Game;
use job::read_word;
use lines::Reader;
use sheet::{Sheet, write};
use terms::{Fault, Mover, Refusal, Side};
use tree_text::Lent;
use trees::TreeRow;

// Plays the moves of a job on the parts that are seated, and answers the sheet of the game then.
fn play_out(reader: &mut Reader, bank: &Bank, side: Side, first: Mover) -> Result<Sheet, Fault>
    ensures { Sheeted result reader.new (play_moves (opening (trees bank.now) side first) (seen reader.old)) }
{
    let mut game = Game::open(bank, side, first);
    play_moves(reader, &mut game)?;
    Ok(sheet_of(&game))
}

// All lines of a job.
fn run_lines(reader: &mut Reader, bank: &mut Bank, lent: &mut Lent) -> Result<Sheet, Fault>
    ensures lines { Lined result reader.new (trees bank.new) (run_lines (lent_rows lent.old) (lent_room lent.old) (seen reader.old)) }
    ensures kept { Kept lent.old lent.new }
{
    let side = read_word(reader)?;
    let first = read_word(reader)?;
    seat_parts(reader, bank, lent)?;
    play_out(reader, bank, side, first)
}

// The job, with nothing after it.
fn run_text(job: &[u8], bank: &mut Bank, lent: &mut Lent) -> Result<Sheet, Fault>
    ensures text { Ended result (trees bank.new) (run_job (lent_rows lent.old) (lent_room lent.old) job.now) }
    ensures kept { Kept lent.old lent.new }
{
    let mut reader = Reader::open(job)?;
    let sheet = run_lines(&mut reader, bank, lent)?;
    if !reader.rest.is_empty() {
        return Err(Refusal::BytesAfterJob.at(reader.last()));
    }
    Ok(sheet)
}

// Writes the sheet of the job, and leaves the buffers blank.
fn write_sheet(job: &[u8], bank: &mut Bank, lent: &mut Lent, out: &mut [u8]) -> Result<usize, Fault>
    ensures run { Ran (run_job (lent_rows lent.old) (lent_room lent.old) job.now) out.old result out.new }
    ensures bank { HoldsThen result (trees bank.new) (run_job (lent_rows lent.old) (lent_room lent.old) job.now) }
    ensures blank { Blank lent.new.rows.now lent.new.picks.now }
    ensures kept { Kept lent.old lent.new }
{
    let sheet = run_text(job, bank, lent);
    lent.clear();
    write(&sheet?, out)
}

// Runs a job: empties the bank, seats the parts of the job in it, plays its moves, and writes the
// sheet of the game then to the output; answers how many bytes that are. A job that is refused
// leaves the bank empty and the output as it was. Tree parts are read into the lent rows and picks,
// which are blank afterwards.
pub fn run_job(
    job: &[u8],
    bank: &mut Bank,
    rows: &mut [TreeRow],
    picks: &mut [u8],
    out: &mut [u8],
) -> Result<usize, Fault>
    ensures run { Ran (run_job (length rows.old) (min (length picks.old) pick_limit) job.now) out.old result out.new }
    ensures bank { trees bank.new ≡ trees_after result (run_job (length rows.old) (min (length picks.old) pick_limit) job.now) }
    ensures blank { Blank rows.new picks.new }
    ensures page { (n : ℕ) → result ≡ Ok n → Page (length rows.old) (min (length picks.old) pick_limit) job.now (take n out.new) }
    ensures exact { RunExact }
{
    let mut lent = Lent { rows, picks };
    let written = write_sheet(job, bank, &mut lent, out);
    if written.is_err() {
        bank.clear();
    }
    written
}
